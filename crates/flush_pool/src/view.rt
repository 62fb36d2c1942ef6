//! What a courier is shown of a claimed chunk.

ghost use Rattle.std.specs.Prelude.{◌≡◌, IfOk, length};
ghost use Rattle.ack_receipt.specs.Claims.{id_of};

use crate::fault::CarryFault;
use ack_receipt::{Claim, SharedBuffer};
use disk_files::Dir;
use event_modes::{ChunkId, Entries};
use std::alloc::Allocator;
use std::marker::Model;
use std::sync::Wait;

/// A claimed chunk, and the buffer that it is of. Contracts see what they see of the claim.
///
/// The chunk's entries are read when they are asked for: the buffer's lock is held while they are
/// read, and never while they are carried.
pub struct ClaimView<'a, D: Dir, A: Allocator> {
    buffer: &'a SharedBuffer<D, A>,
    claim: &'a Claim<A>,
}

impl<'a, D: Dir, A: Allocator> Model for ClaimView<'a, D, A> {
    ghost use Rattle.std.specs.Prelude.{◌≡◌};
    ghost use Rattle.ack_receipt.specs.Claims.{Claimed};

    ghost Value = { Claimed };

    ghost view = { λ v. v.claim.now };

    ghost invariant = { λ v. v.claim.now.leaf ≡ v.buffer.now.leaf };
}

impl<'a, D: Dir, A: Allocator> Drop for ClaimView<'a, D, A> {
    fn drop(self) {
        let ClaimView {
            buffer: _,
            claim: _,
        } = self;
    }
}

impl<'a, D: Dir, A: Allocator> ClaimView<'a, D, A> {
    /// Shows a claim of this buffer.
    pub fn new(buffer: &'a SharedBuffer<D, A>, claim: &'a Claim<A>) -> Self
        requires { claim.now.leaf ≡ buffer.now.leaf }
        ensures { result ≡ claim.now }
    {
        ClaimView { buffer, claim }
    }

    /// The claim itself, for the evidence that names it.
    pub fn claim(&self) -> &Claim<A>
        ensures { result.now ≡ self.now }
    {
        self.claim
    }

    /// The name that the chunk is sent under (Forward Protocol Specification v1, "Option", chunk).
    pub fn id(&self) -> ChunkId
        ensures { result ≡ id_of self.now }
    {
        self.claim.id()
    }

    /// The content of the chunk's tag.
    pub fn tag(&self) -> &[u8]
        ensures { result.now ≡ self.now.tag }
    {
        self.claim.tag()
    }

    /// How many entries the chunk has.
    pub fn count(&self) -> usize
        ensures { result ≡ self.now.count }
    {
        self.claim.count()
    }
}

impl<'a, D: Dir, A: Allocator + Copy> ClaimView<'a, D, A> {
    /// Reads the chunk's entries under the buffer's lock, which is free again when they are handed
    /// out: as many as the claim counts.
    ///
    /// The errors are `Memory`, and `Device` where the buffer can't read them; both leave the
    /// buffer as it was.
    pub fn entries<R: Wait>(&self, rt: &R) -> Result<Entries<A>, CarryFault>
        ensures { IfOk result (λ entries. length entries ≡ self.now.count) }
    {
        let entries = self.buffer.body(rt, self.claim)?;
        Ok(entries)
    }
}
