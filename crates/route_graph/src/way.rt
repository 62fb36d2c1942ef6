//! The way of an event: the buffers that it reaches, or a loop.

use relay_conf::BufferNo;
use std::alloc::Allocator;

/// Where an event goes in a relay.
#[derive(Drop)]
pub enum Way<A: Allocator> {
    /// The buffers that it reaches, each once, in the order first reached: the outputs are gone
    /// through in the order of the text, and a relabel is followed in its place.
    Leaves(Vec<BufferNo, A>),
    /// A chain of relabels comes back to a scope on that chain. So it is where one branch of a copy
    /// does.
    Loop,
}
