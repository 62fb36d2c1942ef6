//! What a buffer is opened with.

use buffer_state::Limits;

/// How long a journal in files gets, in bytes, before it may be renewed.
pub const RENEWED_PAST_IN_FILES: u64 = 268_435_456;

/// The same of a journal in memory, which keeps no more than that and twice what is live.
pub const RENEWED_PAST_IN_MEMORY: u64 = 16_777_216;

/// What a buffer takes at most, and when its journal is to be renewed.
#[derive(Clone, Copy, PartialEq, Eq)]
pub struct Settings {
    /// How many bytes of entries a chunk and the buffer take at most.
    pub limits: Limits,
    /// A journal of no more bytes than this isn't renewed.
    pub renewed_past: u64,
}
