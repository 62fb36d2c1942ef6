//! Who sent a message: a client, or a relay from one of its chunks.

/// Who sent a message.
#[derive(Clone, Copy, PartialEq, Eq)]
pub enum Sender {
    /// The client of this number.
    Client {
        number: usize,
    },
    /// A relay, from the chunk with this id: its place among the relays, the buffer, and the
    /// chunk's serial.
    Chunk {
        place: usize,
        buffer: usize,
        serial: usize,
    },
}
