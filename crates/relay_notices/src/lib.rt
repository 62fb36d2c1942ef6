//! What a relay says of itself while it runs: that a server fails, a chunk was given up, a client
//! was closed.
//!
//! Each notice is told of a place, as a server, a buffer or a source. Of a place there is at most
//! one line in ten seconds; it has the last notice, and says how many were left out before it.
#![tactic(auto)]

mod limiter;
mod line;
mod notice;
mod notices;
mod slot;

pub use limiter::{Due, Limiter};
pub use line::line_of;
pub use notice::{Closing, Ending, Failure, Notice, Refusal};
pub use notices::{Notices, Teller};
pub use slot::{Pending, Slot, Tally};
