//! An open generation of a buffer's journal.

ghost use Rattle.std.specs.Prelude.{◌≡◌, ◌≢◌, ◌↔◌, ℕ, ◌+◌, ◌-◌, ◌*◌, ◌^◌, ◌<◌, ◌≤◌, List, [], length, None, IfOk, OnOk, OnErr, Err, IsTrue};
ghost use Rattle.disk_files.specs.Disk.{SameDisk, reads};
ghost use Rattle.disk_files.specs.Moments.{Elapses, LeavesOnly, now};
ghost use Rattle.disk_files.specs.Faults.{HasCause};
ghost use Rattle.disk_files.specs.declared.dir.FileNo.{FileNo};
ghost use Rattle.buffer_state.specs.Steps.{settled, reopened};
ghost use Rattle.chunk_journal.specs.Records.{Record as Step, body_of, longest_body};
ghost use Rattle.chunk_journal.specs.Meaning.{Allows};
ghost use Rattle.chunk_journal.specs.Places.{SamePlaces, entries_at};
ghost use Rattle.chunk_journal.specs.Spelled.{record_of, HasShortTag};
ghost use Rattle.journal_files.specs.JournalLogs.{JournalLog, begun, all_durable, new_generation, state_of};
ghost use Rattle.journal_files.specs.Views.{IsOpenIn, IsReady, HasShortTags};
ghost use Rattle.journal_files.specs.Folders.{journal_name, OpensWithin};
ghost use Rattle.journal_files.specs.Disks.{Keeps, Recovers, HasNoStray, HasNoGap};
ghost use Rattle.journal_files.specs.Calls.{WritesOwn, BeginsStep, Renews, IsNextOf, RefusesRenewal, LeavesOthers};
ghost use Rattle.journal_files.specs.Faults.{HasReason};
ghost use Rattle.disk_files.specs.Calls.{LeavesAlone};
ghost use Rattle.journal_files.specs.declared.error.JournalError.{JournalError};
ghost use Rattle.journal_files.specs.declared.placing.Placing.TheVariants.{Stays};

use crate::error::JournalError;
use crate::pieces::begin;
use crate::placing::Placing;
use crate::reading::read_extents;
use buffer_state::Chunks;
use chunk_journal::{Places, Record, leads_in_order, places_follow, put_record};
use disk_files::{Dir, DirError, FileNo};
use std::alloc::{AllocError, Allocator};
use std::marker::Model;

/// An open generation of a buffer's journal: one file of a folder that is lent to each call.
#[derive(Drop)]
pub struct Journal<A: Allocator> {
    pub(crate) path: Vec<u8, A>,
    pub(crate) number: u32,
    pub(crate) file: FileNo,
    // how many bytes were told
    pub(crate) len: u64,
    // what is told next
    pub(crate) ready: Vec<u8, A>,
    // where in the file the entries of live chunks lie, and what telling the next does to these
    // places
    pub(crate) places: Places<A>,
    pub(crate) placing: Placing,
}

impl<A: Allocator> Model for Journal<A> {
    ghost use Rattle.std.specs.Prelude.{◌+◌, ◌<◌, ◌^◌, vec_len};
    ghost use Rattle.journal_files.specs.Placings.{CanPlace};
    ghost use Rattle.journal_files.specs.Views.{OpenJournal};

    ghost Value = { OpenJournal };

    ghost view = { λ j. record {
      path = j.path.items;
      number = j.number;
      file = j.file;
      len = j.len;
      ready = j.ready.items;
      places = j.places;
      placing = j.placing;
    } };

    ghost invariant = { λ j. (j.len + vec_len j.ready < 2 ^ 64) × CanPlace j.placing j.places };
}

impl<A: Allocator> Journal<A> {
    /// Whether the journal has more bytes than this, and more than twice as many as the live chunks
    /// have.
    pub fn wants_renewal(&self, live: u128, past: u64) -> bool
        ensures { IsTrue result ↔ ((past < self.now.len) × (2 * live < self.now.len)) }
    {
        self.len > past && live < (u128::from(self.len) + 1) / 2
    }

    /// After its `Ok` each stop leaves all steps that were begun. The error is `Fault`, and changes
    /// nothing.
    pub fn sync<D: Dir>(&self, dir: &mut D) -> Result<(), DirError>
        requires open { IsOpenIn self.now (D.opened dir.old) }
        ensures ok { D.is_honest dir.old → (t : JournalLog)
            → Keeps self.now (now (D.history dir.old)) t
            → OnOk result (Keeps self.now (now (D.history dir.new)) (all_durable t)) }
        ensures err { D.is_honest dir.old → (t : JournalLog)
            → Keeps self.now (now (D.history dir.old)) t
            → OnErr result (Keeps self.now (now (D.history dir.new)) t) }
        // A stop at any moment of the call leaves a folder that opens so.
        ensures moments { D.is_honest dir.old → (t : JournalLog)
            → Keeps self.now (now (D.history dir.old)) t
            → LeavesOnly (D.history dir.old) (D.history dir.new) (OpensWithin self.now.path t) }
        ensures own { WritesOwn D.is_honest D.history D.opened D.fault_count self.now dir.old
            dir.new result }
    {
        dir.sync(self.file)
    }
}

impl<A: Allocator + Copy> Journal<A> {
    /// Spells a record, and makes room for it in the folder, so that `put` needs no memory.
    /// Asks for a tag of at most 1,024 bytes and for at most 16,777,216 bytes behind the length.
    ///
    /// The error is want of memory, and comes too where a record's entries would begin 2^40 bytes
    /// (1 TB) or more behind the journal's beginning, or the journal would have 2^64 bytes; then
    /// nothing of the folder changed, and the journal tells what it told.
    pub fn ready<D: Dir, B: Allocator>(
        &mut self,
        dir: &mut D,
        item: &Record<'_, B>,
    ) -> Result<(), AllocError>
        requires open { IsOpenIn self.old (D.opened dir.old) }
        requires tag { HasShortTag (record_of item.now) }
        requires short { length (body_of (record_of item.now)) ≤ longest_body }
        ensures ready { OnOk result (IsReady self.new (record_of item.now)) }
        ensures room { OnOk result (length self.new.ready ≤ D.bytes_left dir.new self.new.file) }
        ensures rest { self.new
            ≡ record self.old {
              ready = self.new.ready;
              places = self.new.places;
              placing = self.new.placing;
            } }
        ensures places { SamePlaces self.old.places self.new.places }
        ensures keeps { D.is_honest dir.old → (t : JournalLog)
            → Keeps self.old (now (D.history dir.old)) t
            → Keeps self.new (now (D.history dir.new)) t }
        ensures alone { LeavesAlone D.is_honest D.history D.fault_count dir.old dir.new }
        ensures opened { (other : FileNo) → D.opened dir.new other ≡ D.opened dir.old other }
    {
        self.spell(item)?;
        dir.reserve(self.file, self.ready.len())
    }

    // Spells a record, finds the place of its entries, and makes room for it.
    fn spell<B: Allocator>(&mut self, item: &Record<'_, B>) -> Result<(), AllocError>
        requires tag { HasShortTag (record_of item.now) }
        requires short { length (body_of (record_of item.now)) ≤ longest_body }
        ensures ready { OnOk result (IsReady self.new (record_of item.now)) }
        ensures rest { self.new
            ≡ record self.old {
              ready = self.new.ready;
              places = self.new.places;
              placing = self.new.placing;
            } }
        ensures places { SamePlaces self.old.places self.new.places }
    {
        self.placing = Placing::Stays;
        self.ready.clear();
        put_record(&mut self.ready, item)?;
        let Some(end) = self.len.checked_add(self.ready.len() as u64) else {
            self.ready.clear();
            return Err(AllocError);
        };
        let placing = Placing::of(item, end)?;
        placing.reserve(&mut self.places)?;
        self.placing = placing;
        Ok(())
    }

    /// Tells the record that is ready, and doesn't sync.
    ///
    /// The error is `Fault`. Then the step is begun, and a stop may leave it or not; the journal is
    /// not to be used again.
    pub fn put<D: Dir>(&mut self, dir: &mut D) -> Result<(), DirError>
        requires open { IsOpenIn self.old (D.opened dir.old) }
        requires room { length self.old.ready ≤ D.bytes_left dir.old self.old.file }
        ensures journal { self.new
            ≡ record self.old {
              len = self.old.len + length self.old.ready;
              ready = [];
              places = self.new.places;
              placing = Stays;
            } }
        // A stop at any moment of the call leaves a folder that opens so.
        ensures begins { D.is_honest dir.old → (t : JournalLog) (item : Step)
            → Keeps self.old (now (D.history dir.old)) t
            → IsReady self.old item → Allows (state_of t) item
            → BeginsStep self.old self.new (D.history dir.old) (D.history dir.new) t item result }
        ensures stray { D.is_honest dir.old → (t : JournalLog)
            → Keeps self.old (now (D.history dir.old)) t
            → HasNoStray self.old.path (now (D.history dir.new)) }
        ensures own { WritesOwn D.is_honest D.history D.opened D.fault_count self.old dir.old
            dir.new result }
    {
        // Called for their laws alone.
        places_follow();
        leads_in_order();
        let told = dir.append(self.file, &self.ready, self.placing.writing());
        self.len += self.ready.len() as u64;
        self.ready.clear();
        self.placing.place(&mut self.places);
        self.placing = Placing::Stays;
        told
    }

    /// The entries of a live chunk, one after another, as the file has them; none where there is no
    /// such chunk. The disk stays as it is.
    ///
    /// `Memory`, `Fault`, or `Damaged` where the file has fewer bytes than were told.
    pub fn body<D: Dir>(
        &self,
        alloc: A,
        dir: &mut D,
        serial: u64,
    ) -> Result<Vec<u8, A>, JournalError>
        requires open { IsOpenIn self.now (D.opened dir.old) }
        ensures honest { D.is_honest dir.old → D.is_honest dir.new }
        ensures time { D.is_honest dir.old → Elapses (D.history dir.old) (D.history dir.new) }
        ensures same { D.is_honest dir.old
            → SameDisk (now (D.history dir.new)) (now (D.history dir.old)) }
        ensures opened { (other : FileNo) → D.opened dir.new other ≡ D.opened dir.old other }
        ensures bytes { D.is_honest dir.old → (t : JournalLog)
            → Keeps self.now (now (D.history dir.old)) t
            → IfOk result (λ bytes. bytes.items ≡ entries_at (state_of t) serial) }
        ensures whole { D.is_honest dir.old → (t : JournalLog)
            → Keeps self.now (now (D.history dir.old)) t → result ≢ Err JournalError.Damaged }
        ensures not_last { result ≢ Err JournalError.LastGeneration }
        ensures cause { HasReason (D.fault_count dir.old)
            (D.fault_count dir.new) result JournalError.Fault }
    {
        read_extents(alloc, dir, self.file, self.places.at(serial))
    }

    /// Goes on in the next generation, which begins with these chunks, claimed ones told as queued.
    /// Asks that no chunk's tag has more than 1,024 bytes. The older file is removed once the new
    /// one is synced.
    ///
    /// The chunks' entries are copied from the older file. `Damaged`: that has fewer bytes than
    /// were told. `LastGeneration` comes first, and it and `Memory` change nothing. After `Fault`
    /// every stop leaves a folder that opens as before; the journal is not to be used again. The
    /// new file is removed again where it isn't whole, but where the device failed in making it or
    /// fails in removing it.
    pub fn renew<D: Dir>(&mut self, dir: &mut D, chunks: &Chunks<A>) -> Result<(), JournalError>
        requires open { IsOpenIn self.old (D.opened dir.old) }
        requires tags { HasShortTags chunks.now }
        // A stop at any moment of the call leaves a folder that opens so.
        ensures renews { D.is_honest dir.old → (t : JournalLog)
            → Keeps self.old (now (D.history dir.old)) t
            → settled (state_of t) ≡ reopened chunks.now
            → Renews self.old self.new chunks.now (D.fault_count dir.old) (D.fault_count dir.new)
            (D.history dir.old) (D.history dir.new) t result }
        ensures gap { D.is_honest dir.old → (t : JournalLog)
            → Keeps self.old (now (D.history dir.old)) t
            → HasNoGap self.old.path (now (D.history dir.new)) }
        ensures memory { D.is_honest dir.old → (t : JournalLog)
            → Keeps self.old (now (D.history dir.old)) t
            → (result ≡ Err JournalError.Memory) → Keeps self.new (now (D.history dir.new)) t }
        ensures next { OnOk result (IsNextOf self.old self.new chunks.now) }
        ensures gone { D.is_honest dir.old
            → OnOk result (reads (now (D.history dir.new))
            (journal_name self.old.path self.old.number) ≡ None) }
        ensures refused { RefusesRenewal D.is_honest D.history self.old self.new dir.old dir.new
            result }
        ensures others { LeavesOthers D.is_honest D.history D.opened D.fault_count self.old
            self.new dir.old dir.new result }
    {
        if self.number == u32::MAX {
            return Err(JournalError::LastGeneration);
        }
        let alloc = *self.path.allocator();
        let from = Some(self.file);
        let next = begin(
            alloc,
            dir,
            &self.path,
            self.number + 1,
            chunks,
            from,
            &self.places,
        )?;
        dir.remove(self.file)?;
        *self = next;
        Ok(())
    }
}
