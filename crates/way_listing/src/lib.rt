//! The word `ways`: where tags go under a configuration (`ways`), and through the relays of a plan
//! (`listing`).
#![tactic(auto)]

mod listing;
mod onward;
mod outputs;
mod pieces;
mod search;
mod sent;
mod starts;
mod ways;

pub use listing::run_plan_ways;
pub use outputs::put_output;
pub use ways::{entered, run_ways};
