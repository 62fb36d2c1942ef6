//! When a sink's next file is begun.

/// When a sink's next file is begun, while the sink is open.
#[derive(Clone, Copy, PartialEq, Eq)]
pub struct FileLimits {
    /// A file that has so many bytes of entries is followed by the next.
    pub bytes: u64,
    /// A file that has entries and was begun so many milliseconds ago is followed by the next.
    pub millis: u64,
    /// A file that couldn't be made or written is followed by the next once it was begun so many
    /// milliseconds ago.
    pub pause: u64,
}

/// No file is followed by the next.
pub const ONE_FILE: FileLimits = FileLimits {
    bytes: u64::MAX,
    millis: u64::MAX,
    pause: u64::MAX,
};
