//! The journal of a buffer goes on in a new generation.

ghost use Rattle.std.specs.Prelude.{◌≡◌, ◌≢◌, ◌↔◌, ◌⊎◌, ◌+◌, ◌*◌, ◌^◌, ◌<◌, ◌≤◌, false, None, Err, IsTrue, OnOk, OnErr};
ghost use Rattle.buffer_state.specs.State.{total_size};
ghost use Rattle.journal_files.specs.JournalLogs.{new_generation};
ghost use Rattle.buffer_store.specs.Calls.{Stays, Begins, NextGeneration};
ghost use Rattle.buffer_store.specs.Durability.{BeganWell};
ghost use Rattle.buffer_store.specs.declared.fault.BufferFault.{BufferFault};

use crate::buffer::Buffer;
use crate::fault::BufferFault;
use disk_files::Dir;
use std::alloc::Allocator;

impl<D: Dir, A: Allocator + Copy> Buffer<D, A> {
    /// Whether the journal has more bytes than the setting says, and more than twice as many as the
    /// entries of all live chunks have: then it is to be renewed.
    pub fn wants_renewal(&self) -> bool
        ensures { IsTrue result
            ↔ ((self.now.renewed_past < self.now.journal.len)
            × (2 * total_size self.now.chunks < self.now.journal.len)) }
    {
        let log = &self.log;
        log.journal
            .wants_renewal(self.chunks.total(), self.settings.renewed_past)
    }

    /// Goes on in a new generation of the journal, which tells only what is live. The chunks stay
    /// as they are.
    ///
    /// The first of `Failed`, `LastSerial`, `Memory`, `Fault` and `Damaged` that applies;
    /// `LastSerial` past the last generation, `Damaged` where the journal hasn't the bytes that
    /// were told. A new file that isn't whole is removed again, but where the device failed in
    /// making it or fails in removing it.
    pub fn renew(&mut self) -> Result<(), BufferFault>
        ensures same { self.new.chunks ≡ self.old.chunks }
        ensures last { (result ≡ Err BufferFault.LastSerial)
            ↔ ((self.old.failed ≡ false) × (2 ^ 32 ≤ self.old.journal.number + 1)) }
        ensures only { OnErr result
            ((result ≡ Err BufferFault.Failed)
            ⊎ ((result ≡ Err BufferFault.LastSerial) ⊎ ((result ≡ Err BufferFault.Memory)
            ⊎ ((result ≡ Err BufferFault.Fault) ⊎ (result ≡ Err BufferFault.Damaged))))) }
        ensures undamaged { BeganWell D.is_honest D.history self.old
            → result ≢ Err BufferFault.Damaged }
        ensures staged { OnOk result (self.new.staged ≡ false) }
        ensures rest { Stays D.is_honest D.history D.fault_count self.old self.new result }
        ensures begins { D.is_honest self.old.dir
            → Begins D.history self.old self.new None (λ _. new_generation self.old.chunks) result }
        ensures next { NextGeneration D.is_honest D.history D.fault_count self.old self.new result }
    {
        if self.log.has_failed() {
            return Err(BufferFault::Failed);
        }
        self.log.renew(&self.chunks)
    }
}
