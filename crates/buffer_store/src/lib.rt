//! A buffer: chunks in memory, and a journal of them in a folder.
#![tactic(auto)]

mod buffer;
mod fault;
mod growing;
mod laws;
mod log;
mod opening;
mod renewal;
mod room;
mod settings;
mod writing;

pub use buffer::{Appended, Buffer};
pub use fault::BufferFault;
pub use laws::{queued_lasts, recovers_what_is_durable};
pub use settings::{RENEWED_PAST_IN_FILES, RENEWED_PAST_IN_MEMORY, Settings};
