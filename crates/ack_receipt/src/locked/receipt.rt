//! What a buffer gives for an append that it has stored.

ghost use Rattle.std.specs.Prelude.{◌≡◌, ◌↔◌, [], ◌∷◌, IsTrue};
ghost use Rattle.ack_receipt.specs.Deliveries.{IsReceiptOf, part_of};

use book_audit::{Leaf, Part, Stub};
use std::alloc::Allocator;
use std::marker::Model;

/// That a buffer has stored a delivery: the delivery's number, the buffer, the chunk's serial, and
/// the line of the buffer's book of appends.
///
/// It can be neither copied nor dropped: a delivery takes it, or `spend` ends it. Contracts see an
/// `Appended`.
pub struct Receipt<A: Allocator> {
    pub(super) delivery: u64,
    pub(super) leaf: Leaf,
    pub(super) serial: u64,
    pub(super) line: u64,
    // Empty, with room for what is left of this receipt.
    pub(super) room: Vec<Part, A>,
}

impl<A: Allocator> Model for Receipt<A> {
    ghost use Rattle.std.specs.Prelude.{◌≡◌, ◌<◌, [], vec_capacity};
    ghost use Rattle.ack_receipt.specs.Deliveries.{Appended};

    ghost Value = { Appended };

    ghost view = { λ r. record {
      delivery = r.delivery;
      leaf = r.leaf;
      serial = r.serial;
      line = r.line;
    } };

    ghost invariant = { λ r. (r.room.items ≡ []) × (0 < vec_capacity r.room) };
}

impl<A: Allocator> Receipt<A> {
    /// The serial of the chunk that has the entries.
    pub fn serial(&self) -> u64
        ensures { result ≡ self.now.serial }
    {
        self.serial
    }

    /// Ends a receipt that no delivery takes. What is left has the number of the delivery that it
    /// is of, and its part alone. It takes no memory.
    pub fn spend(self) -> Stub<A>
        ensures number { result.delivery ≡ self.delivery }
        ensures part { result.parts ≡ part_of self ∷ [] }
    {
        let Receipt {
            delivery,
            leaf,
            serial,
            line,
            room: mut parts,
        } = self;
        parts.push_reserved(part_at(leaf, serial, line));
        Stub { delivery, parts }
    }

    /// The buffer that stored the delivery.
    pub(crate) fn leaf(&self) -> Leaf
        ensures { result ≡ self.now.leaf }
    {
        self.leaf
    }

    /// The number of the delivery that is stored.
    pub(crate) fn delivery(&self) -> u64
        ensures { result ≡ self.now.delivery }
    {
        self.delivery
    }

    /// Whether it is for this delivery and this leaf.
    pub(crate) fn is_of(&self, delivery: u64, leaf: Leaf) -> bool
        ensures { IsTrue result ↔ IsReceiptOf delivery leaf self.now }
    {
        self.delivery == delivery && self.leaf == leaf
    }

    /// Ends the receipt of a delivery that ends.
    pub(crate) fn into_part(self) -> Part
        ensures { result ≡ part_of self }
    {
        let Receipt {
            delivery: _,
            leaf,
            serial,
            line,
            room: _,
        } = self;
        part_at(leaf, serial, line)
    }
}

// The part for this line of the buffer's book.
fn part_at(leaf: Leaf, serial: u64, line: u64) -> Part
    ensures { result ≡ record {
      relay = leaf.relay;
      buffer = leaf.buffer;
      serial = serial;
      line = line;
    } }
{
    Part {
        relay: leaf.relay,
        buffer: leaf.buffer,
        serial,
        line,
    }
}
