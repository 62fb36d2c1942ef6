//! A buffer's journal as the files of a folder: one generation after another, and what a stop
//! leaves of them.
#![tactic(auto)]

mod error;
mod journal;
mod laws;
mod older;
mod opening;
mod outlining;
mod pieces;
mod placing;
mod reading;
mod spelling;

pub use error::JournalError;
pub use journal::Journal;
pub use laws::{has_no_stray, opens_one_way, recovers_all};
pub use opening::Opened;
