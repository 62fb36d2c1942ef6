//! Whether steps lose an event that a network acknowledged to a client, and the search for such
//! steps.
#![tactic(auto)]

mod common;
mod draft;
mod losing;
mod printed;
mod search;
mod tags;
mod walk;
mod weakness;
mod words;

pub use losing::if_losing_text;
pub use printed::put_step;
pub use search::find;
