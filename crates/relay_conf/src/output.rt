//! Where a match sends its events.

use crate::buffer::BufferSettings;
use crate::relay::{ScopeNo, Security};
use std::alloc::Allocator;

/// The place of a buffer in its relay, counted from 0 in the order of the text.
#[derive(Clone, Copy, PartialEq, Eq)]
pub struct BufferNo(pub usize);

/// One output. Its line, counted from 1, is that of its `<store>`, or of its `<match>` without a
/// copy.
#[derive(Drop)]
pub enum Output<A: Allocator> {
    /// The event is let go.
    Null {
        line: usize,
    },
    /// The event goes on in another scope.
    Relabel {
        target: ScopeNo,
        line: usize,
    },
    /// The event is sent to a further relay (Fluentd, out_forward).
    Forward {
        settings: ForwardSettings<A>,
        line: usize,
    },
    /// The event is stored in a sink.
    File {
        settings: FileSettings<A>,
        line: usize,
    },
}

/// How an output sends to further relays (Fluentd, out_forward).
pub struct ForwardSettings<A: Allocator> {
    /// The relays to send to, in the order of the text.
    pub servers: Vec<Server<A>, A>,
    /// Each chunk is sent with an id, and stays until the server acknowledged it.
    pub require_ack_response: bool,
    /// How long an acknowledgement is waited for, in seconds.
    pub ack_response_timeout: u64,
    /// What the servers are shown in the handshake, if they ask for one.
    pub security: Option<Security<A>>,
    /// Its buffer.
    pub buffer: BufferSettings<A>,
    /// The buffer's place in the relay.
    pub number: BufferNo,
}

// By hand, so that crates above don't prove again how its parts end.
impl<A: Allocator> Drop for ForwardSettings<A> {
    fn drop(self) {
        let ForwardSettings {
            servers: _,
            require_ack_response: _,
            ack_response_timeout: _,
            security: _,
            buffer: _,
            number: _,
        } = self;
    }
}

/// How an output stores into a sink.
pub struct FileSettings<A: Allocator> {
    /// The sink's name: 1 to 64 letters, digits, `_`, `-` or `.`, not `.` first.
    pub path: String<A>,
    /// Its buffer.
    pub buffer: BufferSettings<A>,
    /// The buffer's place in the relay.
    pub number: BufferNo,
}

// By hand, so that crates above don't prove again how its parts end.
impl<A: Allocator> Drop for FileSettings<A> {
    fn drop(self) {
        let FileSettings {
            path: _,
            buffer: _,
            number: _,
        } = self;
    }
}

/// A further relay.
#[derive(Drop)]
pub struct Server<A: Allocator> {
    /// Its host, as a name or an address.
    pub host: String<A>,
    /// Its port, from 1.
    pub port: u16,
    /// The line that opens it, counted from 1.
    pub line: usize,
}
