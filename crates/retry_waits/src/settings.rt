//! What a configuration says of retries.

/// When a chunk whose delivery failed is tried again, and when it is given up.
#[derive(Clone, Copy, PartialEq, Eq)]
pub struct RetrySettings {
    /// The wait after the first failure, in seconds.
    pub wait: u64,
    /// What the wait is multiplied by after each further failure.
    pub exponential_backoff_base: u64,
    /// The longest wait, in seconds, if there is one.
    pub max_interval: Option<u64>,
    /// How often a chunk is tried again at most, if there is a limit: with more failures it is
    /// given up.
    pub max_times: Option<u64>,
    /// How long after its first failure a chunk is given up, in seconds.
    pub timeout: u64,
    /// No chunk is ever given up, whatever the other limits are.
    pub forever: bool,
}
