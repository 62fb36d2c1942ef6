//! What came of a chunk that a worker claimed.

/// What was known of a buffer's failed chunks when a chunk was judged.
#[derive(Clone, Copy)]
pub(crate) struct Others {
    /// How many have failed and aren't forgotten: no more can wait.
    pub failed: usize,
    /// Whether one that waits was due.
    pub due: bool,
}

/// What came of a chunk that a worker claimed.
#[derive(Clone, Copy)]
pub(crate) enum Outcome {
    /// It is gone from its buffer.
    Purged,
    /// Its delivery failed: it was noted, and the chunk is queued again.
    Failed,
    /// Its wait hasn't passed, and it is queued again. This was known of the buffer's others.
    Waits(Others),
}
