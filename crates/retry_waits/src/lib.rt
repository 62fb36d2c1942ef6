//! When a chunk whose delivery failed is tried again, and when it is given up
//! (Fluentd, "Config: Buffer Section", the parameters of retries).
#![tactic(auto)]

mod failed;
mod failures;
mod settings;
mod wait;

pub use failures::Failures;
pub use settings::RetrySettings;
pub use wait::retry_after;
