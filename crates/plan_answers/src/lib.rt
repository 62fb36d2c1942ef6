//! The words `check` and `replay`: what the checker says of a plan, and what becomes of the events
//! that steps send.
#![tactic(auto)]

mod network;
mod replay;

pub use network::{run_check, run_replay};
