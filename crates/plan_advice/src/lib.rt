//! What a broken rule means, where it is broken, what mends it, and steps that lose an event; and
//! what may keep events from arriving, or let them arrive for ever, in a plan that loses none.
#![tactic(auto)]

mod circles;
mod details;
mod explaining;
mod faults;
mod flow;
mod front;
mod hosts;
mod keeping;
mod keys;
mod limits;
mod links;
mod near;
mod notes;
mod peeling;
mod pieces;
mod search;
mod shared;
mod site;
mod stale;
mod story;
mod waits;
mod warned_plan;
mod warnings;
mod ways;
mod words;

pub use explaining::{Explained, explain};
pub use faults::explain_fault;
pub use site::{Site, Texts};
pub use warnings::{put_stale_reaches, put_warnings};
pub use words::{advice, meaning};
