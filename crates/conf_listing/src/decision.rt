//! What changes what a relay does, so that whoever runs it has to accept it.

/// Something of Fluentd that a relay doesn't do.
#[derive(Clone, Copy)]
pub enum Decision {
    /// Encryption.
    Tls,
    /// Names and passwords of users.
    Users,
    /// Addresses from which clients may connect.
    Clients,
    /// Compression.
    Gzip,
    /// A second output for what can't be delivered.
    Secondary,
    /// What changes or drops events.
    Filter,
    /// The text of another file.
    Include,
    /// Sections of one of several processes.
    Worker,
    /// A full buffer that makes its input wait.
    Block,
    /// Wildcards and braces inside a part of a pattern.
    Glob,
    /// A regular expression as a pattern.
    Regex,
    /// A store whose failures don't count.
    IgnoreError,
    /// Entries that are dropped.
    SkipInvalidEvent,
    /// A tag in place of the clients'.
    SourceTag,
    /// The sender's address in each record.
    SourceKey,
    /// How often a chunk is tried.
    RetryLimit,
    /// How events are written.
    Format,
    /// Fields that are put into each record.
    Inject,
    /// Times without their nanoseconds.
    TimeAsInteger,
    /// A source of another type.
    SourceType,
    /// An output of another type.
    OutputType,
}

impl Decision {
    /// The name by which it is accepted.
    pub fn name(self) -> &'static str {
        match self {
            Decision::Tls => "tls",
            Decision::Users => "users",
            Decision::Clients => "client",
            Decision::Gzip => "gzip",
            Decision::Secondary => "secondary",
            Decision::Filter => "filter",
            Decision::Include => "include",
            Decision::Worker => "worker",
            Decision::Block => "block",
            Decision::Glob => "glob",
            Decision::Regex => "regex",
            Decision::IgnoreError => "ignore_error",
            Decision::SkipInvalidEvent => "skip_invalid_event",
            Decision::SourceTag => "tag",
            Decision::SourceKey => "source_key",
            Decision::RetryLimit => "retry_limit",
            Decision::Format => "format",
            Decision::Inject => "inject",
            Decision::TimeAsInteger => "time_as_integer",
            Decision::SourceType => "source",
            Decision::OutputType => "output",
        }
    }

    /// What the relay does in its place.
    pub fn sentence(self) -> &'static str {
        match self {
            Decision::Tls => {
                "a relay has no encryption: its connections are plain, so put a tunnel round them"
            }
            Decision::Users => {
                "a relay knows no users: whoever has the shared key, or anybody where there is none, can send"
            }
            Decision::Clients => {
                "a relay has no list of clients: whoever reaches its port can connect, so let a firewall choose"
            }
            Decision::Gzip => {
                "a relay compresses nothing, and refuses what is compressed: let no client send gzip"
            }
            Decision::Secondary => {
                "a relay has no second output: a chunk is tried again, and with `retry_forever true` for ever"
            }
            Decision::Filter => {
                "a relay has no filters: events go on as they came, all of them; filter before or behind it"
            }
            Decision::Include => {
                "a relay reads one file: what that one says is missing here, so put its text in this place first"
            }
            Decision::Worker => {
                "a relay is one process: the section is left out with all that is in it; give it a relay of its own"
            }
            Decision::Block => {
                "a relay doesn't wait at a full buffer: it gives no acknowledgement, so that the client sends again"
            }
            Decision::Glob => {
                "wildcards and braces stand for whole parts here: the pattern is made wider, and takes more tags"
            }
            Decision::Regex => {
                "a relay has no regular expressions: the pattern becomes `**`, which takes each tag"
            }
            Decision::IgnoreError => {
                "each store of a copy counts: where one can't take a message, it isn't acknowledged"
            }
            Decision::SkipInvalidEvent => {
                "a relay refuses a message with a bad entry whole, and acknowledges none of it"
            }
            Decision::SourceTag => {
                "a relay keeps the tags that clients send: each match sees these, not this one"
            }
            Decision::SourceKey => {
                "a relay changes no record: the sender's address or name isn't put into it"
            }
            Decision::RetryLimit => {
                "a chunk that failed so often is let go, and its events are lost: say `retry_forever true` to keep them"
            }
            Decision::Format => {
                "a relay's sink has events as they came, in MessagePack, with no other format"
            }
            Decision::Inject => "a relay changes no record: nothing is put into it",
            Decision::TimeAsInteger => "a relay sends times as they came, with their nanoseconds",
            Decision::SourceType => {
                "a relay has forward sources alone: let another program read this, and send it on by forward"
            }
            Decision::OutputType => {
                "a relay has no such output: `null` stands in its place, which acknowledges events and lets them go"
            }
        }
    }
}
