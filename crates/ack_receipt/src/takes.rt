//! What lets a chunk of a buffer go.

use std::alloc::Allocator;

/// What shows that the output of a buffer has a chunk.
#[derive(Drop)]
pub enum Basis<A: Allocator> {
    /// The output forwards, and requires acknowledgements.
    Acknowledged,
    /// The output writes the files of a sink, of this path.
    Stored(Vec<u8, A>),
    /// The output forwards, and requires no acknowledgements.
    Written,
}

/// What lets a chunk of a buffer go. It is fixed by the output's settings.
pub struct Takes<A: Allocator> {
    /// What shows that the output has a chunk.
    pub basis: Basis<A>,
    /// Whether a chunk is given up in the end, since retries don't go on for ever.
    pub expires: bool,
    /// Whether the oldest chunk may be dropped to make room.
    pub drops: bool,
}

// By hand, so that crates above don't prove again how its parts end.
impl<A: Allocator> Drop for Takes<A> {
    fn drop(self) {
        let Takes {
            basis: _,
            expires: _,
            drops: _,
        } = self;
    }
}
