//! The word `decode`: a hex text of messages, listed while it is read.
#![tactic(auto)]

mod decode;
mod hex_text;
mod laws;
mod lines;

pub use decode::run_decode;
pub use laws::{ends_with_fault, one_listing, stands_for_good};
