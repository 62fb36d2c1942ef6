//! A buffer: what it holds, and the calls that write nothing.

ghost use Rattle.std.specs.Prelude.{◌≡◌, ◌≢◌, ◌↔◌, ◌⊎◌, ◌≤◌, ℕ, true, false, length, Some, None, Ok, Err, IsSomeAnd, IfSome, IfOk, OnOk, OnErr, slice_get};
ghost use Rattle.std.specs.List.{concat};
ghost use Rattle.std.specs.List.Sorted.{IsStrictlySortedBy};
ghost use Rattle.std.specs.Map.{keys_of};
ghost use Rattle.std.specs.Ordering.{nat_cmp};
ghost use Rattle.buffer_state.specs.Slots.{AreBelow};
ghost use Rattle.buffer_state.specs.State.{IsAt, chunk_at};
ghost use Rattle.buffer_state.specs.Steps.{CanAppend, planned, queued_last, claimed, reopened};
ghost use Rattle.buffer_state.specs.declared.chunk.Stage.TheVariants.{Queued, Claimed};
ghost use Rattle.buffer_state.specs.declared.limits.AppendFault.{AppendFault};
ghost use Rattle.buffer_store.specs.Calls.{OnlyReads};
ghost use Rattle.buffer_store.specs.Durability.{BeganWell, IsDurable, Endures, KeepsClaims, LastsNow};
ghost use Rattle.buffer_store.specs.Refusals.{of_plan};
ghost use Rattle.buffer_store.specs.declared.fault.BufferFault.{BufferFault};

use crate::fault::BufferFault;
use crate::log::Log;
use crate::settings::Settings;
use buffer_state::{Chunk, Chunks, LiveChunks};
use disk_files::Dir;
use event_modes::Entries;
use std::alloc::Allocator;
use std::marker::Model;

/// Where entries were appended.
#[derive(Clone, Copy, PartialEq, Eq)]
pub struct Appended {
    /// The serial of the chunk that has them.
    pub serial: u64,
}

/// Chunks of entries that wait to be delivered: the live ones in memory, and a journal of them in a
/// folder.
pub struct Buffer<D: Dir, A: Allocator> {
    pub(crate) log: Log<D, A>,
    pub(crate) alloc: A,
    pub(crate) chunks: Chunks<A>,
    pub(crate) settings: Settings,
}

// By hand, so that crates above don't prove again how its parts end.
impl<D: Dir + Drop, A: Allocator> Drop for Buffer<D, A> {
    fn drop(self) {
        let Buffer {
            log: _,
            alloc: _,
            chunks: _,
            settings: _,
        } = self;
    }
}

impl<D: Dir, A: Allocator> Model for Buffer<D, A> {
    ghost use Rattle.buffer_store.specs.Buffers.{Held};
    ghost use Rattle.buffer_store.specs.Durability.{IsSound};
    ghost use Rattle.buffer_store.specs.Logs.{held_of};

    ghost Value = { Held D };

    ghost view = { λ b. held_of b.log b.chunks b.settings };

    ghost invariant = { λ b. IsSound D.is_honest D.history (held_of b.log b.chunks b.settings) };
}

impl<D: Dir, A: Allocator + Copy> Buffer<D, A> {
    /// The live chunks, and the next serial. Their entries aren't shown: `body` gives them.
    pub fn chunks(&self) -> LiveChunks<'_, A>
        ensures { result ≡ self.now.chunks }
    {
        LiveChunks::of(&self.chunks)
    }

    /// The entries of the live chunk of this serial, read from the journal.
    ///
    /// The first of `Failed`, `Gone`, `Memory`, `Fault` and `Damaged` that applies: the device
    /// failed the buffer before; there is no such chunk; a read failed; or the journal hasn't the
    /// bytes that were told. Each leaves the buffer as it was.
    pub fn body(&mut self, serial: u64) -> Result<Entries<A>, BufferFault>
        ensures entries { BeganWell D.is_honest D.history self.old
            → IfOk result (λ entries. IsSomeAnd (chunk_at self.old.chunks serial)
            (λ chunk. entries ≡ chunk.entries)) }
        // Over whatever folder there are as many as were told.
        ensures counted { IfOk result
            (λ entries. IsSomeAnd (chunk_at self.old.chunks serial)
            (λ chunk. length entries ≡ length chunk.entries)) }
        ensures failed { (result ≡ Err BufferFault.Failed) ↔ (self.old.failed ≡ true) }
        ensures gone { (result ≡ Err BufferFault.Gone)
            ↔ ((self.old.failed ≡ false) × (chunk_at self.old.chunks serial ≡ None)) }
        ensures undamaged { BeganWell D.is_honest D.history self.old
            → result ≢ Err BufferFault.Damaged }
        ensures only { OnErr result
            ((result ≡ Err BufferFault.Failed)
            ⊎ ((result ≡ Err BufferFault.Gone) ⊎ ((result ≡ Err BufferFault.Memory)
            ⊎ ((result ≡ Err BufferFault.Fault) ⊎ (result ≡ Err BufferFault.Damaged))))) }
        ensures reads { OnlyReads D.is_honest D.history D.fault_count self.old self.new result }
    {
        if self.has_failed() {
            return Err(BufferFault::Failed);
        }
        let Some(chunk) = self.chunks.chunk(serial) else {
            return Err(BufferFault::Gone);
        };
        let bytes = self.log.body(self.alloc, serial)?;
        entries_of(self.alloc, chunk, &bytes)
    }

    /// Whether the device failed the buffer, so that it is to be opened again.
    pub fn has_failed(&self) -> bool
        ensures { result ≡ self.now.failed }
    {
        self.log.has_failed()
    }

    /// Whether some append that was told isn't synced.
    pub fn has_staged(&self) -> bool
        ensures { result ≡ self.now.staged }
    {
        self.log.has_staged()
    }

    /// What the type keeps of the disk. The call does nothing: it stands for a theorem.
    pub fn stays_durable(&self)
        ensures { BeganWell D.is_honest D.history self.now
            → IsDurable D.is_honest D.history self.now }
    {
        let _ = &self.log;
    }

    /// The serials of the live chunks rise, and are below the next. The call does nothing: it
    /// stands for a theorem.
    pub fn stays_in_order(&self)
        ensures rising { IsStrictlySortedBy nat_cmp (keys_of self.now.chunks.chunks) }
        ensures below { AreBelow self.now.chunks.next (keys_of self.now.chunks.chunks) }
    {
        let _ = self.chunks.live();
    }

    /// The serial at which entries of this tag are to be appended.
    ///
    /// The first of `Failed`, `TooLarge`, `Full` and `LastSerial` that applies.
    pub fn plan<B: Allocator>(&self, tag: &[u8], entries: &Entries<B>) -> Result<u64, BufferFault>
        ensures place { IfOk result
            (λ serial. planned self.now.limits self.now.chunks tag.now entries.now ≡ Ok serial) }
        ensures can { IfOk result (λ serial. CanAppend self.now.chunks serial tag.now entries.now) }
        ensures near { IfOk result (λ serial. serial ≤ self.now.chunks.next) }
        ensures free { OnOk result (chunk_at self.now.chunks self.now.chunks.next ≡ None) }
        ensures going { OnOk result (self.now.failed ≡ false) }
        ensures failed { (result ≡ Err BufferFault.Failed) ↔ (self.now.failed ≡ true) }
        ensures refused { self.now.failed ≡ false → (fault : AppendFault)
            → planned self.now.limits self.now.chunks tag.now entries.now ≡ Err fault
            → result ≡ Err (of_plan fault) }
        ensures only { result ≢ Err BufferFault.Fault }
        ensures accepted { self.now.failed ≡ false → (serial : ℕ)
            → planned self.now.limits self.now.chunks tag.now entries.now ≡ Ok serial
            → result ≡ Ok serial }
    {
        if self.log.has_failed() {
            return Err(BufferFault::Failed);
        }
        let place = self.chunks.plan(&self.settings.limits, tag, entries)?;
        Ok(place)
    }

    /// Claims the first of the queue, and gives its serial. It writes nothing, and goes on after a
    /// fault.
    pub fn claim(&mut self) -> Option<u64>
        ensures first { result ≡ slice_get self.old.chunks.queue 0 }
        ensures queued { IfSome result (IsAt Queued self.old.chunks) }
        ensures taken { IfSome result (IsAt Claimed self.new.chunks) }
        ensures state { self.new ≡ record self.old { chunks = claimed self.old.chunks } }
        // A claim isn't told: the journal counts the chunk as queued.
        ensures counts { reopened self.new.chunks ≡ reopened self.old.chunks }
        // That the chunk is queued was synced.
        ensures lasts { BeganWell D.is_honest D.history self.old
            → IfSome result (LastsNow D.history self.new) }
        // So it is from now on: each later call keeps it, at each of its moments.
        ensures endures { BeganWell D.is_honest D.history self.old
            → IfSome result (λ serial. IfSome (chunk_at self.new.chunks serial)
            (Endures D.history self.new serial)) }
        ensures claims { KeepsClaims D.history self.old self.new }
    {
        self.chunks.claim()
    }

    /// Puts the claimed chunk of this serial to the end of the queue. It writes nothing, and goes
    /// on after a fault.
    pub fn give_back(&mut self, serial: u64)
        requires { IsAt Claimed self.old.chunks serial }
        ensures state { self.new ≡ record self.old { chunks = queued_last serial self.old.chunks } }
        ensures counts { reopened self.new.chunks ≡ reopened self.old.chunks }
        ensures claims { KeepsClaims D.history self.old self.new }
    {
        self.chunks.give_back(serial);
    }

    /// The folder, as the buffer leaves it.
    pub fn into_dir(self) -> D
        ensures { result ≡ self.dir }
    {
        let Buffer {
            log,
            alloc: _,
            chunks: _,
            settings: _,
        } = self;
        log.into_dir()
    }
}

// The entries of the chunk, where these are their bytes.
fn entries_of<A: Allocator>(
    alloc: A,
    chunk: &Chunk<A>,
    bytes: &[u8],
) -> Result<Entries<A>, BufferFault>
    ensures entries { bytes.now ≡ concat chunk.now.chunk.entries
        → IfOk result (λ entries. entries ≡ chunk.now.chunk.entries) }
    ensures counted { IfOk result (λ entries. length entries ≡ length chunk.now.chunk.entries) }
    ensures undamaged { bytes.now ≡ concat chunk.now.chunk.entries
        → result ≢ Err BufferFault.Damaged }
    ensures only { OnErr result
        ((result ≡ Err BufferFault.Memory) ⊎ (result ≡ Err BufferFault.Damaged)) }
{
    // Called for its law alone.
    chunk.stays_stored();
    match Entries::read(alloc, bytes, chunk.count())? {
        Some(entries) => Ok(entries),
        None => Err(BufferFault::Damaged),
    }
}
