//! What may be told.

ghost use Rattle.std.specs.Prelude.{◌≡◌};
ghost use Rattle.relay_notices.specs.Telling.{is_good};

/// What is told of a place.
#[derive(Clone, Copy, Debug, PartialEq, Eq)]
pub enum Notice {
    /// A server fails.
    Fails(Failure),
    /// A server or sink that failed took a chunk.
    Works,
    /// A chunk was let go, since its retries are over.
    GivenUp,
    /// A buffer has more than four fifths of what it takes.
    NearlyFull,
    /// A queued chunk was let go unsent, so that a message has room.
    Dropped,
    /// A buffer took no message, so that its client gets no answer.
    NotTaken(Refusal),
    /// A client was closed.
    Closed(Closing),
    /// The files of a sink can't be written.
    SinkFailed,
    /// The journal of a buffer can't be written.
    JournalFailed,
    /// There is no source, so that nothing comes in.
    NoSource,
    /// The relay ends.
    Ends(Ending),
}

/// Why a server fails.
#[derive(Clone, Copy, Debug, PartialEq, Eq)]
pub enum Failure {
    /// Its host refuses the connection.
    Refused,
    /// Its host has no address.
    NoAddress,
    /// It takes no connection in time.
    NoConnection,
    /// It can't be reached, for another reason.
    Unreachable,
    /// It refused the handshake, or its part is none: mostly the keys differ.
    NoHandshake,
    /// It gave no acknowledgement in time.
    NoAcknowledgement,
    /// It answered with something else than an acknowledgement.
    BadAnswer,
    /// It closed the connection before it had answered.
    Lost,
}

/// Why a buffer took no message.
#[derive(Clone, Copy, Debug, PartialEq, Eq)]
pub enum Refusal {
    /// With what is there it is more than the buffer takes.
    Full,
    /// It is more than a chunk takes.
    TooLarge,
    /// There was no memory.
    Memory,
}

/// Why a client was closed.
#[derive(Clone, Copy, Debug, PartialEq, Eq)]
pub enum Closing {
    /// What it sent is no message.
    BadStream,
    /// What it sent is compressed.
    Compressed,
    /// It didn't show the key.
    WrongKey,
    /// It didn't show the key in time.
    LateKey,
    /// It held most of what isn't whole, of which there was too much.
    HeldMost,
}

/// Why a relay ends.
#[derive(Clone, Copy, Debug, PartialEq, Eq)]
pub enum Ending {
    /// The address of a source can't be had.
    Bind,
    /// Two outputs share the path of their buffers, or of their sinks.
    Path,
    /// The system gives no sockets, or no random bytes.
    Poll,
    /// A file can't be opened or written.
    Buffer,
    /// The numbers of deliveries have run out.
    NoNumber,
    /// There was no memory, or no thread.
    Memory,
}

impl Notice {
    /// Whether it says that what failed before fails no more.
    pub(crate) fn is_good(self) -> bool
        ensures { result ≡ is_good self }
    {
        matches!(self, Notice::Works)
    }

    /// What it says.
    pub(crate) fn text(self) -> &'static str {
        match self {
            Notice::Fails(failure) => failure.text(),
            Notice::Works => "works again",
            Notice::GivenUp => "a chunk was given up, since its retries are over",
            Notice::NearlyFull => "its buffer is past 80 % of total_limit_size",
            Notice::Dropped => "a queued chunk was dropped unsent, since its buffer is full",
            Notice::NotTaken(refusal) => refusal.text(),
            Notice::Closed(closing) => closing.text(),
            Notice::SinkFailed => "fails: its file can't be written; the next is tried each minute",
            Notice::JournalFailed => "the journal of its buffer can't be written",
            Notice::NoSource => "has no source, so that nothing comes in",
            Notice::Ends(ending) => ending.text(),
        }
    }
}

impl Failure {
    fn text(self) -> &'static str {
        match self {
            Failure::Refused => "fails: it refuses connections",
            Failure::NoAddress => "fails: its host has no address",
            Failure::NoConnection => "fails: it takes no connection in time",
            Failure::Unreachable => "fails: it can't be reached",
            Failure::NoHandshake => "fails: no handshake; have both ends the same shared_key?",
            Failure::NoAcknowledgement => "fails: no acknowledgement came in time",
            Failure::BadAnswer => "fails: what it answered is no acknowledgement",
            Failure::Lost => "fails: it closed the connection",
        }
    }
}

impl Refusal {
    fn text(self) -> &'static str {
        match self {
            Refusal::Full => {
                "a message was refused, since its buffer is full; its client gets no answer"
            }
            Refusal::TooLarge => {
                "a message was refused, since it is more than a chunk takes; its client gets no answer"
            }
            Refusal::Memory => {
                "a message was refused, since there was no memory; its client gets no answer"
            }
        }
    }
}

impl Closing {
    fn text(self) -> &'static str {
        match self {
            Closing::BadStream => "a client was closed, since what it sent is no message",
            Closing::Compressed => "a client was closed, since what it sent is compressed",
            Closing::WrongKey => "a client was closed, since it didn't show the shared_key",
            Closing::LateKey => {
                "a client was closed, since it didn't show the shared_key within ten seconds"
            }
            Closing::HeldMost => {
                "a client was closed, since messages that aren't whole take too much memory, and its own the most"
            }
        }
    }
}

impl Ending {
    fn text(self) -> &'static str {
        match self {
            Ending::Bind => "ends: the address of a source can't be had",
            Ending::Path => "ends: two outputs share the path of their buffers, or of their sinks",
            Ending::Poll => "ends: the system gives no sockets, or no random bytes",
            Ending::Buffer => "ends: a file can't be opened or written",
            Ending::NoNumber => "ends: the numbers of deliveries have run out",
            Ending::Memory => "ends: there was no memory, or no thread",
        }
    }
}
