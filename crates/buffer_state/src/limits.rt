//! How much a buffer takes, and why a step is refused.

/// How many bytes of entries a chunk takes at most, whatever is set.
pub const GREATEST_SIZE: usize = 16_775_168;

/// How many bytes of entries a chunk takes, and all chunks of a buffer together.
/// Whatever is set, a chunk takes at most `GREATEST_SIZE` bytes.
#[derive(Clone, Copy, PartialEq, Eq)]
pub struct Limits {
    pub chunk: u64,
    pub total: u64,
}

/// Why a buffer doesn't take entries: the first of these that applies.
#[derive(Clone, Copy, PartialEq, Eq)]
pub enum AppendFault {
    /// The entries alone are more than a chunk takes.
    TooLarge,
    /// With the entries that are there they are more than the buffer takes.
    Full,
    /// A new chunk would be needed, and the serials have run out.
    LastSerial,
}
