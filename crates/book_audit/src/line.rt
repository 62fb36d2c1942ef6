//! The lines of a buffer's book, and what deliveries leave of them.

ghost use Rattle.std.specs.Prelude.{◌≡◌};
ghost use Rattle.book_audit.specs.Audits.{is_of};

use std::alloc::Allocator;
use std::marker::Model;

/// A buffer that a delivery goes to: the relay's number, and the buffer's number in that relay.
#[derive(Clone, Copy, PartialEq, Eq)]
pub struct Leaf {
    pub relay: u32,
    pub buffer: u32,
}

/// An append of one delivery to one chunk of a buffer: the delivery's number, the chunk's serial,
/// and how many entries were appended.
#[derive(Clone, Copy, PartialEq, Eq)]
pub struct Line {
    pub delivery: u64,
    pub serial: u64,
    pub count: u64,
}

/// What is left of a receipt: the buffer, the chunk's serial, and the line of the buffer's book,
/// counted from 0.
#[derive(Clone, Copy, PartialEq, Eq)]
pub struct Part {
    pub relay: u32,
    pub buffer: u32,
    pub serial: u64,
    pub line: u64,
}

impl Part {
    /// Whether it is one of this buffer.
    pub(crate) fn is_of(&self, leaf: Leaf) -> bool
        ensures { result ≡ is_of leaf self.now }
    {
        self.relay == leaf.relay && self.buffer == leaf.buffer
    }
}

/// What is left of a delivery: its number, and a part of each receipt that it held. It is plain
/// data. Contracts see a `Left`.
#[derive(Drop)]
pub struct Stub<A: Allocator> {
    pub delivery: u64,
    pub parts: Vec<Part, A>,
}

impl<A: Allocator> Model for Stub<A> {
    ghost use Rattle.book_audit.specs.Stubs.{Left};

    ghost Value = { Left };

    ghost view = { λ s. record { delivery = s.delivery; parts = s.parts.items } };
}
