//! What never changes of a shared buffer.

ghost use Rattle.std.specs.Prelude.{◌≡◌};

use crate::Takes;
use book_audit::Leaf;
use std::alloc::Allocator;
use std::marker::Model;

/// The name of a shared buffer, and what lets its chunks go. They lie outside its lock, and are
/// lent to each call under it.
///
/// A buffer gets its terms once, as it is locked up: nothing else makes or changes any.
#[derive(Drop)]
pub struct Terms<A: Allocator> {
    pub(super) leaf: Leaf,
    pub(super) takes: Takes<A>,
}

impl<A: Allocator> Model for Terms<A> {
    ghost use Rattle.ack_receipt.specs.Terms.{Terms};

    ghost Value = { Terms A };

    ghost view = { λ t. record { leaf = t.leaf; takes = t.takes } };
}

impl<A: Allocator> Terms<A> {
    /// The buffer's name.
    pub(crate) fn leaf(&self) -> Leaf
        ensures { result ≡ self.now.leaf }
    {
        self.leaf
    }

    /// What lets its chunks go.
    pub(crate) fn takes(&self) -> &Takes<A>
        ensures { result.now ≡ self.now.takes }
    {
        &self.takes
    }
}
