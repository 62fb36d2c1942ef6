//! The calls of a buffer that tell its journal something.

ghost use Rattle.std.specs.Prelude.{◌≡◌, ◌↔◌, ◌⊎◌, ◌<◌, ◌≤◌, ℕ, true, false, not, length, Some, None, Ok, Err, IsTrue, IfOk, OnOk, OnErr};
ghost use Rattle.event_modes.specs.Message.{longest_tag};
ghost use Rattle.buffer_state.specs.State.{IsAt};
ghost use Rattle.buffer_state.specs.Steps.{planned, place_of, appended, queued_last, removed, oldest};
ghost use Rattle.buffer_state.specs.declared.chunk.Stage.TheVariants.{Staged, Claimed};
ghost use Rattle.buffer_state.specs.declared.limits.AppendFault.{AppendFault};
ghost use Rattle.chunk_journal.specs.Records.{Append, Queue, Purge};
ghost use Rattle.journal_files.specs.JournalLogs.{all_durable};
ghost use Rattle.buffer_store.specs.Buffers.{durable_if};
ghost use Rattle.buffer_store.specs.Calls.{StaysWithin, Begins};
ghost use Rattle.buffer_store.specs.Refusals.{of_plan};
ghost use Rattle.buffer_store.specs.declared.fault.BufferFault.{BufferFault};

use crate::buffer::{Appended, Buffer};
use crate::fault::BufferFault;
use crate::growing::{add_entries, queue_chunk, remove_chunk};
use buffer_state::{Chunks, Stage};
use disk_files::Dir;
use event_modes::Entries;
use std::alloc::Allocator;

impl<D: Dir, A: Allocator + Copy> Buffer<D, A> {
    /// Appends entries to the newest staged chunk of their tag, or to a new chunk, and doesn't sync
    /// the journal: a stop leaves the entries or not, and none that were appended after them
    /// without them. Asks for at least one entry, and for a tag of at most 1,024 bytes.
    ///
    /// The first of `Failed`, `TooLarge`, `Full`, `LastSerial`, `Memory` and `Fault` that applies;
    /// `Memory` too where the entries would begin 2^40 bytes (1 TB) or more behind the journal's
    /// beginning. None changes the chunks; after `Fault` the entries are there or not when the
    /// buffer is opened again.
    pub fn stage(&mut self, tag: &[u8], entries: &Entries<A>) -> Result<Appended, BufferFault>
        requires some { 0 < length entries.now }
        requires tag { length tag.now ≤ longest_tag }
        ensures place { IfOk result
            (λ put. planned self.old.limits self.old.chunks tag.now entries.now ≡ Ok put.serial) }
        ensures ok { IfOk result
            (λ put. self.new.chunks ≡ appended put.serial tag.now entries.now self.old.chunks) }
        ensures refused { self.old.failed ≡ false → (fault : AppendFault)
            → planned self.old.limits self.old.chunks tag.now entries.now ≡ Err fault
            → result ≡ Err (of_plan fault) }
        ensures accepted { self.old.failed ≡ false → (serial : ℕ)
            → planned self.old.limits self.old.chunks tag.now entries.now ≡ Ok serial
            → OnErr result ((result ≡ Err BufferFault.Memory) ⊎ (result ≡ Err BufferFault.Fault)) }
        ensures staged { OnOk result (self.new.staged ≡ true) }
        ensures rest { StaysWithin D.is_honest D.history D.fault_count self.old self.new result }
        ensures begins { D.is_honest self.old.dir → Begins D.history self.old self.new
            (Some (Append (place_of self.old.limits self.old.chunks tag.now entries.now) tag.now
            entries.now)) (λ t. t) result }
    {
        self.add(tag, entries, false)
    }

    /// Appends entries as `stage` does, and syncs the journal. Asks for and refuses the same.
    pub fn append(&mut self, tag: &[u8], entries: &Entries<A>) -> Result<Appended, BufferFault>
        requires some { 0 < length entries.now }
        requires tag { length tag.now ≤ longest_tag }
        ensures place { IfOk result
            (λ put. planned self.old.limits self.old.chunks tag.now entries.now ≡ Ok put.serial) }
        ensures ok { IfOk result
            (λ put. self.new.chunks ≡ appended put.serial tag.now entries.now self.old.chunks) }
        ensures refused { self.old.failed ≡ false → (fault : AppendFault)
            → planned self.old.limits self.old.chunks tag.now entries.now ≡ Err fault
            → result ≡ Err (of_plan fault) }
        ensures accepted { self.old.failed ≡ false → (serial : ℕ)
            → planned self.old.limits self.old.chunks tag.now entries.now ≡ Ok serial
            → OnErr result ((result ≡ Err BufferFault.Memory) ⊎ (result ≡ Err BufferFault.Fault)) }
        ensures staged { OnOk result (self.new.staged ≡ false) }
        ensures rest { StaysWithin D.is_honest D.history D.fault_count self.old self.new result }
        ensures begins { D.is_honest self.old.dir → Begins D.history self.old self.new
            (Some (Append (place_of self.old.limits self.old.chunks tag.now entries.now) tag.now
            entries.now)) all_durable result }
    {
        self.add(tag, entries, true)
    }

    // Appends entries, and syncs the journal if that is wanted.
    fn add(
        &mut self,
        tag: &[u8],
        entries: &Entries<A>,
        synced: bool,
    ) -> Result<Appended, BufferFault>
        requires some { 0 < length entries.now }
        requires tag { length tag.now ≤ longest_tag }
        ensures place { IfOk result
            (λ put. planned self.old.limits self.old.chunks tag.now entries.now ≡ Ok put.serial) }
        ensures ok { IfOk result
            (λ put. self.new.chunks ≡ appended put.serial tag.now entries.now self.old.chunks) }
        ensures refused { self.old.failed ≡ false → (fault : AppendFault)
            → planned self.old.limits self.old.chunks tag.now entries.now ≡ Err fault
            → result ≡ Err (of_plan fault) }
        ensures accepted { self.old.failed ≡ false → (serial : ℕ)
            → planned self.old.limits self.old.chunks tag.now entries.now ≡ Ok serial
            → OnErr result ((result ≡ Err BufferFault.Memory) ⊎ (result ≡ Err BufferFault.Fault)) }
        ensures staged { OnOk result (self.new.staged ≡ not synced) }
        ensures rest { StaysWithin D.is_honest D.history D.fault_count self.old self.new result }
        ensures begins { D.is_honest self.old.dir → Begins D.history self.old self.new
            (Some (Append (place_of self.old.limits self.old.chunks tag.now entries.now) tag.now
            entries.now)) (durable_if synced) result }
    {
        let serial = self.plan(tag, entries)?;
        add_entries(
            &mut self.chunks,
            &mut self.log,
            serial,
            tag,
            entries,
            synced,
        )?;
        Ok(Appended { serial })
    }

    /// Syncs the journal where some append that was told isn't synced; a removal alone doesn't ask
    /// for it.
    ///
    /// The first of `Failed` and `Fault` that applies. None changes the chunks; after `Fault` the
    /// appends are there or not when the buffer is opened again.
    pub fn sync(&mut self) -> Result<(), BufferFault>
        ensures chunks { self.new.chunks ≡ self.old.chunks }
        ensures quiet { self.old.failed ≡ false → self.old.staged ≡ false
            → (result ≡ Ok tt) × (self.new ≡ self.old) }
        ensures only { OnErr result
            ((result ≡ Err BufferFault.Failed) ⊎ (result ≡ Err BufferFault.Fault)) }
        ensures staged { OnOk result (self.new.staged ≡ false) }
        ensures rest { StaysWithin D.is_honest D.history D.fault_count self.old self.new result }
        ensures begins { D.is_honest self.old.dir
            → Begins D.history self.old self.new None (durable_if self.old.staged) result }
    {
        if self.log.has_failed() {
            return Err(BufferFault::Failed);
        }
        if !self.log.has_staged() {
            return Ok(());
        }
        self.log.sync()
    }

    /// Queues the staged chunk of this serial, and syncs the journal.
    ///
    /// The first of `Failed`, `Gone`, `Memory` and `Fault` that applies. None changes the chunks;
    /// after `Fault` the chunk is queued or not when the buffer is opened again.
    pub fn enqueue(&mut self, serial: u64) -> Result<(), BufferFault>
        ensures ok { OnOk result (self.new.chunks ≡ queued_last serial self.old.chunks) }
        ensures gone { (result ≡ Err BufferFault.Gone)
            ↔ ((self.old.failed ≡ false) × (IsAt Staged self.old.chunks serial → ⊥)) }
        ensures only { self.old.failed ≡ false → IsAt Staged self.old.chunks serial
            → OnErr result ((result ≡ Err BufferFault.Memory) ⊎ (result ≡ Err BufferFault.Fault)) }
        ensures staged { OnOk result (self.new.staged ≡ false) }
        ensures rest { StaysWithin D.is_honest D.history D.fault_count self.old self.new result }
        ensures begins { D.is_honest self.old.dir
            → Begins D.history self.old self.new (Some (Queue serial)) all_durable result }
    {
        if self.log.has_failed() {
            return Err(BufferFault::Failed);
        }
        if !is_at(&self.chunks, serial, Stage::Staged) {
            return Err(BufferFault::Gone);
        }
        queue_chunk(self.alloc, &mut self.chunks, &mut self.log, serial)
    }

    /// Lets the claimed chunk of this serial go. The journal isn't synced, so that a stop may bring
    /// the chunk back, queued.
    ///
    /// The first of `Failed`, `Gone`, `Memory` and `Fault` that applies. None changes the chunks.
    pub fn purge(&mut self, serial: u64) -> Result<(), BufferFault>
        ensures ok { OnOk result (self.new.chunks ≡ removed serial self.old.chunks) }
        ensures gone { (result ≡ Err BufferFault.Gone)
            ↔ ((self.old.failed ≡ false) × (IsAt Claimed self.old.chunks serial → ⊥)) }
        ensures only { self.old.failed ≡ false → IsAt Claimed self.old.chunks serial
            → OnErr result ((result ≡ Err BufferFault.Memory) ⊎ (result ≡ Err BufferFault.Fault)) }
        ensures staged { self.new.staged ≡ self.old.staged }
        ensures rest { StaysWithin D.is_honest D.history D.fault_count self.old self.new result }
        ensures begins { D.is_honest self.old.dir
            → Begins D.history self.old self.new (Some (Purge serial)) (λ t. t) result }
    {
        if self.log.has_failed() {
            return Err(BufferFault::Failed);
        }
        if !is_at(&self.chunks, serial, Stage::Claimed) {
            return Err(BufferFault::Gone);
        }
        remove_chunk(&mut self.chunks, &mut self.log, serial)
    }

    /// Lets the queued chunk of least serial go, and gives its serial. The journal isn't synced, so
    /// that a stop may bring the chunk back.
    ///
    /// The first of `Failed`, `Gone`, `Memory` and `Fault` that applies; `Gone` where nothing is
    /// queued. None changes the chunks.
    pub fn drop_oldest(&mut self) -> Result<u64, BufferFault>
        ensures oldest { IfOk result (λ serial. oldest self.old.chunks ≡ Some serial) }
        ensures ok { IfOk result (λ serial. self.new.chunks ≡ removed serial self.old.chunks) }
        ensures gone { (result ≡ Err BufferFault.Gone)
            ↔ ((self.old.failed ≡ false) × (oldest self.old.chunks ≡ None)) }
        ensures only { self.old.failed ≡ false → (serial : ℕ) → oldest self.old.chunks ≡ Some serial
            → OnErr result ((result ≡ Err BufferFault.Memory) ⊎ (result ≡ Err BufferFault.Fault)) }
        ensures staged { self.new.staged ≡ self.old.staged }
        ensures rest { StaysWithin D.is_honest D.history D.fault_count self.old self.new result }
        ensures begins { D.is_honest self.old.dir → (serial : ℕ)
            → oldest self.old.chunks ≡ Some serial
            → Begins D.history self.old self.new (Some (Purge serial)) (λ t. t) result }
        // Where nothing is queued, no step is begun.
        ensures empty { oldest self.old.chunks ≡ None
            → Begins D.history self.old self.new None (λ t. t) result }
    {
        if self.log.has_failed() {
            return Err(BufferFault::Failed);
        }
        let Some(serial) = self.chunks.oldest() else {
            return Err(BufferFault::Gone);
        };
        remove_chunk(&mut self.chunks, &mut self.log, serial)?;
        Ok(serial)
    }
}

// Whether the chunk of this serial is live, and in this stage.
fn is_at<A: Allocator + Copy>(chunks: &Chunks<A>, serial: u64, stage: Stage) -> bool
    ensures { IsTrue result ↔ IsAt stage chunks.now serial }
{
    match chunks.stage(serial) {
        None => false,
        Some(found) => found == stage,
    }
}
