//! An append that waits for its receipt.

ghost use Rattle.std.specs.Prelude.{◌≡◌};

use book_audit::{Leaf, Line, Part};
use std::alloc::Allocator;
use std::marker::Model;

/// An append of a delivery to a buffer that needn't be synced yet. It has no receipt before
/// `SharedBuffer::redeem` makes one.
///
/// It can be neither copied nor dropped: a shared buffer redeems it, or gives it up. Contracts see
/// a `Pended`.
pub struct Pending<A: Allocator> {
    pub(super) delivery: u64,
    pub(super) leaf: Leaf,
    pub(super) serial: u64,
    pub(super) count: u64,
    pub(super) place: u64,
    // Empty, with room for what is left of the receipt.
    pub(super) room: Vec<Part, A>,
}

impl<A: Allocator> Model for Pending<A> {
    ghost use Rattle.std.specs.Prelude.{◌≡◌, ◌<◌, [], vec_capacity};
    ghost use Rattle.ack_receipt.specs.Deliveries.{Pended};

    ghost Value = { Pended };

    ghost view = { λ p. record {
      delivery = p.delivery;
      leaf = p.leaf;
      serial = p.serial;
      count = p.count;
      place = p.place;
    } };

    ghost invariant = { λ p. (p.room.items ≡ []) × (0 < vec_capacity p.room) };
}

impl<A: Allocator> Pending<A> {
    /// The serial of the chunk that has the entries.
    pub fn serial(&self) -> u64
        ensures { result ≡ self.now.serial }
    {
        self.serial
    }

    // Ends it, for `SharedBuffer::give_up` alone, which takes its note out of the book: a note that
    // stays takes memory until the buffer is closed.
    pub(super) fn give_up(self) {
        let Pending {
            delivery: _,
            leaf: _,
            serial: _,
            count: _,
            place: _,
            room: _,
        } = self;
    }

    // What the book says of the append.
    pub(super) fn line(&self) -> Line
        ensures { result ≡ record {
          delivery = self.now.delivery;
          serial = self.now.serial;
          count = self.now.count;
        } }
    {
        Line {
            delivery: self.delivery,
            serial: self.serial,
            count: self.count,
        }
    }
}
