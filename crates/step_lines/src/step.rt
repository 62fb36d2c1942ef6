//! The steps of a network, and the names of chunks in them.

use std::alloc::Allocator;
use tag_pattern::Tag;

/// A chunk, by its relay's number, its buffer and its serial.
#[derive(Clone, Copy, PartialEq, Eq)]
pub struct ChunkName {
    /// The number of its relay.
    pub relay: u64,
    /// Its buffer's place in the relay.
    pub buffer: u64,
    /// Its serial in the buffer.
    pub serial: u64,
}

/// One step. Messages and deliveries are numbered from 0, in the order of sending and of opening.
#[derive(Drop)]
pub enum Step<A: Allocator> {
    /// A client sends a message to its source.
    Send {
        client: u64,
        tag: Tag<A>,
        entries: Vec<Vec<u8, A>, A>,
    },
    /// A relay takes a message, and opens a delivery.
    Begin {
        message: u64,
    },
    /// A delivery is appended to a chunk of one of its buffers.
    Append {
        delivery: u64,
        buffer: u64,
        serial: u64,
    },
    /// A delivery is acknowledged to the sender, and ends.
    Ack {
        delivery: u64,
    },
    /// A delivery ends without an acknowledgement.
    Abandon {
        delivery: u64,
    },
    /// Somebody outside the plan acknowledges a message.
    Foreign {
        message: u64,
    },
    /// A staged chunk is queued.
    Enqueue {
        chunk: ChunkName,
    },
    /// A queued chunk is claimed.
    Claim {
        chunk: ChunkName,
    },
    /// A claimed chunk is given back to the queue.
    Back {
        chunk: ChunkName,
    },
    /// A claimed chunk is sent to a server of its output, which are counted from 0.
    Forward {
        chunk: ChunkName,
        server: u64,
    },
    /// The relay sees that the chunk was acknowledged.
    Seen {
        chunk: ChunkName,
    },
    /// All entries of a claimed chunk are stored in the sink.
    Write {
        chunk: ChunkName,
    },
    /// The first entries of a claimed chunk, so many of them, are stored in the sink.
    Part {
        chunk: ChunkName,
        count: u64,
    },
    /// A claimed chunk goes of which there is evidence that it was delivered.
    Purge {
        chunk: ChunkName,
    },
    /// A claimed chunk goes that was sent without asking for an acknowledgement.
    Done {
        chunk: ChunkName,
    },
    /// A claimed chunk goes, delivered or not, where its output doesn't retry for ever.
    Discard {
        chunk: ChunkName,
    },
    /// The queued chunk of least serial goes, where the output drops the oldest chunk.
    Oldest {
        relay: u64,
        buffer: u64,
    },
    /// A relay stops and starts again.
    Restart {
        relay: u64,
    },
}
