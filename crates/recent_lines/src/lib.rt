//! The lines of a text, but for those that repeat one of the lines kept last.
#![tactic(auto)]

mod line;
mod recent;

pub use recent::{MOST_RECENT, RecentLines, none_goes_missing};
