//! A journal that comes by pieces, replayed without its entries.

ghost use Rattle.std.specs.Prelude.{◌≡◌, ◌≤◌, ◌<◌, ◌+◌, ◌++◌, ◌^◌, ◌⊎◌, [], ℕ, List, false, length, Ok, Err, IfOk, IfErr, OnOk, OnErr, true};
ghost use Rattle.buffer_state.specs.Steps.{settled};
ghost use Rattle.chunk_journal.specs.Journal.{IsTorn};
ghost use Rattle.chunk_journal.specs.Meaning.{EndsUnsealed, IsDamaged};
ghost use Rattle.chunk_journal.specs.Reading.{parsed_of};
ghost use Rattle.chunk_journal.specs.Outlines.{IsOutlined};
ghost use Rattle.chunk_journal.specs.Places.{SamePlaces, entries_size};
ghost use Rattle.chunk_journal.specs.Drafts.{place_of};
ghost use Rattle.chunk_journal.specs.Feeding.{IsAfter, HasFound, TakesAt};
ghost use Rattle.chunk_journal.specs.declared.fault.ReplayError.TheVariants.{Memory, NotSealed, BadRecord};

use crate::fault::ReplayError;
use crate::places::{Extent, Places};
use crate::reading::{Next, Parsed, next_record};
use crate::replaying::{Draft, take_append, take_purge, take_queue, take_seal};
use buffer_state::Chunks;
use std::alloc::{AllocError, Allocator};
use std::marker::Model;

/// What a journal means, with the places of its entries in it.
#[derive(Drop)]
pub struct Outlined<A: Allocator> {
    /// The live chunks and the next serial; the queue goes by rising serial.
    pub chunks: Chunks<A>,
    /// Where the chunks' entries lie.
    pub places: Places<A>,
    /// How many bytes the whole records have. What stands behind them is torn.
    pub used: u64,
}

/// A replay of a journal that comes by pieces. Of the bytes that were fed it holds the record that
/// isn't whole yet with the piece fed last.
#[derive(Drop)]
pub struct Outline<A: Allocator> {
    alloc: A,
    draft: Draft<A>,
    places: Places<A>,
    // what was fed behind the records that were read, from `start` on
    held: Vec<u8, A>,
    start: usize,
    fed: u64,
    is_damaged: bool,
}

impl<A: Allocator> Model for Outline<A> {
    ghost use Rattle.std.specs.Prelude.{◌≤◌, ◌+◌, vec_len, drop};
    ghost use Rattle.chunk_journal.specs.Drafts.{place_of};
    ghost use Rattle.chunk_journal.specs.Feeding.{Heard};

    ghost Value = { Heard };

    ghost view = { λ o. record {
      place = place_of o.draft;
      spots = o.places;
      rest = drop o.start o.held.items;
      fed = o.fed;
      is_damaged = o.is_damaged;
    } };

    ghost invariant = { λ o. (o.start ≤ vec_len o.held) × (vec_len o.held ≤ o.start + o.fed) };
}

impl<A: Allocator + Copy> Outline<A> {
    /// A journal of which nothing has come.
    pub fn new(alloc: A) -> Self
        ensures after { IsAfter result [] }
        ensures fed { result.fed ≡ 0 }
    {
        Outline {
            alloc,
            draft: Draft {
                chunks: Chunks::new(alloc),
                is_sealed: false,
            },
            places: Places::new(alloc),
            held: Vec::new(alloc),
            start: 0,
            fed: 0,
            is_damaged: false,
        }
    }

    /// How many bytes were fed.
    pub fn fed(&self) -> u64
        ensures { result ≡ self.now.fed }
    {
        self.fed
    }

    /// Takes the next piece of the journal. Asks that fewer than 2^64 bytes are fed in all.
    ///
    /// `BadRecord` where what was fed before this piece is damaged, and then always; else only want
    /// of memory, which comes too where entries begin 2^40 bytes (1 TB) or more behind the
    /// journal's beginning. Neither takes the piece, so that it can be fed again.
    pub fn feed(&mut self, piece: &[u8]) -> Result<(), ReplayError>
        requires few { self.old.fed + length piece.now < 2 ^ 64 }
        ensures ok { OnOk result
            ((seen : List ℕ) → IsAfter self.old seen → IsAfter self.new (seen ++ piece.now)) }
        ensures err { OnErr result
            ((seen : List ℕ) → IsAfter self.old seen → IsAfter self.new seen) }
        ensures damaged { (seen : List ℕ) → IsAfter self.old seen → result ≡ Err BadRecord
            → IsDamaged seen }
        ensures found { result ≡ Err BadRecord → HasFound self.new }
        ensures stays { HasFound self.old → result ≡ Err BadRecord }
        ensures only { OnErr result ((result ≡ Err Memory) ⊎ (result ≡ Err BadRecord)) }
        ensures more { OnOk result (self.new.fed ≡ self.old.fed + length piece.now) }
        ensures same { OnErr result (self.new.fed ≡ self.old.fed) }
    {
        self.read_on()?;
        self.hold(piece)?;
        Ok(())
    }

    /// What the journal means, if all of it was fed.
    ///
    /// `BadRecord` where it is damaged, `NotSealed` where its whole records end before a Seal, and
    /// else only want of memory, as `feed`. Each hands the outline back.
    pub fn finish(self) -> Result<Outlined<A>, (ReplayError, Outline<A>)>
        ensures ok { (seen : List ℕ) → IsAfter self seen
            → IfOk result (λ outlined. IsOutlined seen outlined.chunks outlined.places
            outlined.used) }
        ensures not_sealed { (seen : List ℕ) → IsAfter self seen
            → IfErr result (λ refused. refused.0 ≡ NotSealed → EndsUnsealed seen) }
        ensures damaged { (seen : List ℕ) → IsAfter self seen
            → IfErr result (λ refused. refused.0 ≡ BadRecord → IsDamaged seen) }
        ensures back { (seen : List ℕ) → IsAfter self seen
            → IfErr result (λ refused. IsAfter refused.1 seen) }
        ensures found { IfErr result (λ refused. refused.0 ≡ BadRecord → HasFound refused.1) }
    {
        let mut outline = self;
        if let Err(fault) = outline.read_on() {
            return Err((fault, outline));
        }
        if !outline.draft.is_sealed {
            return Err((ReplayError::NotSealed, outline));
        }
        if outline.settle().is_err() {
            return Err((ReplayError::Memory, outline));
        }
        Ok(outline.into_outlined())
    }

    // Lets the queue go by rising serial.
    fn settle(&mut self) -> Result<(), AllocError>
        ensures ok { OnOk result
            (self.new ≡ record self.old {
              place = record {
                is_sealed = self.old.place.is_sealed;
                state = settled self.old.place.state;
              };
            }) }
        ensures err { OnErr result (self.new ≡ self.old) }
    {
        self.draft.chunks.settle()
    }

    // What the records that were read mean.
    fn into_outlined(self) -> Outlined<A>
        ensures chunks { result.chunks ≡ self.place.state }
        ensures places { result.places ≡ self.spots }
        ensures used { result.used + length self.rest ≡ self.fed }
    {
        let Outline {
            alloc: _,
            draft,
            places,
            held,
            start,
            fed,
            is_damaged: _,
        } = self;
        let used = fed - (held.len() - start) as u64;
        let Draft {
            chunks,
            is_sealed: _,
        } = draft;
        Outlined {
            chunks,
            places,
            used,
        }
    }

    // Reads the whole records that are held.
    fn read_on(&mut self) -> Result<(), ReplayError>
        ensures after { (seen : List ℕ) → IsAfter self.old seen → IsAfter self.new seen }
        ensures torn { OnOk result (IsTorn (self.new.rest)) }
        ensures going { OnOk result (HasFound self.new → ⊥) }
        ensures found { result ≡ Err BadRecord → HasFound self.new }
        ensures stays { HasFound self.old → result ≡ Err BadRecord }
        ensures only { OnErr result ((result ≡ Err Memory) ⊎ (result ≡ Err BadRecord)) }
        ensures same { self.new.fed ≡ self.old.fed }
    {
        if self.is_damaged {
            return Err(ReplayError::BadRecord);
        }
        while self.step()? {}
        Ok(())
    }

    // Reads the next record that is held, if a whole one is.
    fn step(&mut self) -> Result<bool, ReplayError>
        requires { HasFound self.old → ⊥ }
        ensures after { (seen : List ℕ) → IsAfter self.old seen → IsAfter self.new seen }
        ensures torn { result ≡ Ok false → IsTorn (self.new.rest) }
        ensures going { OnOk result (HasFound self.new → ⊥) }
        ensures shorter { IfOk result
            (λ read. read ≡ true → length (self.new.rest) < length (self.old.rest)) }
        ensures found { result ≡ Err BadRecord → HasFound self.new }
        ensures only { OnErr result ((result ≡ Err Memory) ⊎ (result ≡ Err BadRecord)) }
        ensures same { self.new.fed ≡ self.old.fed }
    {
        let (_, rest) = self.held.as_slice().split_at(self.start);
        match next_record(self.alloc, rest)? {
            Next::Torn => Ok(false),
            Next::Bad => Err(self.damaged()),
            Next::Whole(parsed, behind) => {
                let left = behind.len();
                let end = self.fed - left as u64;
                if !take_record(&mut self.draft, &mut self.places, parsed, end)? {
                    return Err(self.damaged());
                }
                self.start = self.held.len() - left;
                Ok(true)
            }
        }
    }

    fn damaged(&mut self) -> ReplayError
        ensures fault { result ≡ BadRecord }
        ensures found { self.new ≡ record self.old { is_damaged = true } }
    {
        self.is_damaged = true;
        ReplayError::BadRecord
    }

    // Takes a piece behind what is held.
    fn hold(&mut self, piece: &[u8]) -> Result<(), AllocError>
        requires few { self.old.fed + length piece.now < 2 ^ 64 }
        ensures ok { OnOk result
            (self.new ≡ record self.old {
              rest = self.old.rest ++ piece.now;
              fed = self.old.fed + length piece.now;
            }) }
        ensures err { OnErr result (self.new ≡ self.old) }
    {
        if self.start > 0 {
            let (_, rest) = self.held.as_slice().split_at(self.start);
            let mut held = Vec::from_slice(self.alloc, rest)?;
            held.extend_from_slice(piece)?;
            self.held = held;
            self.start = 0;
        } else {
            self.held.extend_from_slice(piece)?;
        }
        self.fed += piece.len() as u64;
        Ok(())
    }
}

// Replays a record whose entries end there, unless it can't stand here. The error is want of
// memory, also of a number for the place of its entries, and changes nothing.
fn take_record<A: Allocator + Copy>(
    draft: &mut Draft<A>,
    places: &mut Places<A>,
    parsed: Parsed<'_, A>,
    end: u64,
) -> Result<bool, AllocError>
    requires { entries_size (parsed_of parsed) ≤ end }
    ensures ok { IfOk result
        (TakesAt (place_of draft.old) places.old (parsed_of parsed.entry) end
        (place_of draft.new) places.new) }
    ensures place { OnErr result (place_of draft.new ≡ place_of draft.old) }
    ensures places { OnErr result (SamePlaces places.old places.new) }
{
    match parsed {
        Parsed::Seal { next } => Ok(take_seal(draft, next)),
        Parsed::Append {
            serial,
            tag,
            entries,
        } => {
            let Some(extent) = Extent::before(end, entries.as_bytes().len() as u64) else {
                return Err(AllocError);
            };
            places.reserve(serial)?;
            if !take_append(draft, serial, tag, &entries)? {
                return Ok(false);
            }
            places.add(serial, extent);
            Ok(true)
        }
        Parsed::Queue { serial } => take_queue(draft, serial),
        Parsed::Purge { serial } => {
            if !take_purge(draft, serial) {
                return Ok(false);
            }
            places.remove(serial);
            Ok(true)
        }
    }
}
