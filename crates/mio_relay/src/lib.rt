//! The relay on sockets: a loop that takes messages in and answers them once they are stored, over
//! any network.
#![tactic(auto)]

mod accepting;
mod bound;
mod connection;
mod connections;
mod holding;
mod in_loop;
mod limits;
mod listener;
mod ready;
mod serving;
mod stopping;

pub use bound::{BoundRelay, OpenRelay};
pub use in_loop::{Ended, InLoop};
pub use ready::ReadyPorts;
