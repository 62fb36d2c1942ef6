//! A claimed chunk, which ends by a purge or is given back.

ghost use Rattle.std.specs.Prelude.{◌≡◌, IfOk};
ghost use Rattle.ack_receipt.specs.Claims.{id_of};

use book_audit::Leaf;
use event_modes::ChunkId;
use std::alloc::{AllocError, Allocator};
use std::marker::Model;

/// A claimed chunk: of which buffer, its serial, its tag, and how many entries it has, which a
/// claimed chunk keeps. It can be neither copied nor dropped: it ends by a purge, or is given back.
pub struct Claim<A: Allocator> {
    leaf: Leaf,
    serial: u64,
    tag: Vec<u8, A>,
    count: usize,
}

impl<A: Allocator> Model for Claim<A> {
    ghost use Rattle.ack_receipt.specs.Claims.{Claimed};

    ghost Value = { Claimed };

    ghost view = { λ c. record {
      leaf = c.leaf;
      serial = c.serial;
      tag = c.tag.items;
      count = c.count;
    } };
}

impl<A: Allocator> Claim<A> {
    /// The buffer that it is of.
    pub fn leaf(&self) -> Leaf
        ensures { result ≡ self.now.leaf }
    {
        self.leaf
    }

    /// The chunk's serial in that buffer.
    pub fn serial(&self) -> u64
        ensures { result ≡ self.now.serial }
    {
        self.serial
    }

    /// The name that the chunk is sent under (Forward Protocol Specification v1, "Option", chunk).
    pub fn id(&self) -> ChunkId
        ensures { result ≡ id_of self.now }
    {
        ChunkId {
            relay: self.leaf.relay,
            buffer: self.leaf.buffer,
            serial: self.serial,
        }
    }

    /// The content of the chunk's tag.
    pub fn tag(&self) -> &[u8]
        ensures { result.now ≡ self.now.tag }
    {
        &self.tag
    }

    /// How many entries the chunk has.
    pub fn count(&self) -> usize
        ensures { result ≡ self.now.count }
    {
        self.count
    }

    // Ends the claim of a chunk that is let go or given back.
    pub(crate) fn end(self) {
        let Claim {
            leaf: _,
            serial: _,
            tag: _,
            count: _,
        } = self;
    }
}

impl<A: Allocator + Copy> Claim<A> {
    // Of this chunk, before it is claimed.
    pub(crate) fn of(
        alloc: A,
        leaf: Leaf,
        serial: u64,
        tag: &[u8],
        count: usize,
    ) -> Result<Claim<A>, AllocError>
        ensures { IfOk result
            (λ c. c ≡ record { leaf = leaf; serial = serial; tag = tag.now; count = count }) }
    {
        let tag = Vec::from_slice(alloc, tag)?;
        Ok(Claim {
            leaf,
            serial,
            tag,
            count,
        })
    }
}
