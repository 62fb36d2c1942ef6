//! Where the events of a relay go: which buffers an event reaches, or that its way is a loop.
#![tactic(auto)]

mod hop;
mod laws;
mod routes;
mod table;
mod visit;
mod way;

pub use hop::Hop;
pub use laws::{taker_is_unique, walk_is_no_loop, walk_is_unique, walk_reaches_leaves};
pub use routes::Routes;
pub use table::have_tag;
pub use way::Way;
