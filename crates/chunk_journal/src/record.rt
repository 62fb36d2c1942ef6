//! The records of a journal.

use event_modes::Entries;
use std::alloc::Allocator;

// A record's kind is the first byte behind its length.

/// The kind of a Seal.
pub const SEAL_KIND: u8 = 1;

/// The kind of an Append.
pub const APPEND_KIND: u8 = 2;

/// The kind of a Queue.
pub const QUEUE_KIND: u8 = 3;

/// The kind of a Purge.
pub const PURGE_KIND: u8 = 4;

/// What a journal tells: one step of a buffer, or the end of the chunks that a generation begins
/// with.
#[derive(Drop)]
pub enum Record<'a, A: Allocator> {
    /// The chunks that were live are told; the next serial is at least this.
    Seal {
        next: u64,
    },
    /// Entries for the chunk of this serial, which has this tag of at most 1,024 bytes.
    Append {
        serial: u64,
        tag: &'a [u8],
        entries: &'a Entries<A>,
    },
    /// The chunk of this serial waits to be sent, and grows no more.
    Queue {
        serial: u64,
    },
    /// The chunk of this serial is gone.
    Purge {
        serial: u64,
    },
}
