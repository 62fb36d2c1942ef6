//! What a relay that runs says of its outputs, in a small text that it keeps in its data folder.
#![tactic(auto)]

mod laws;
mod reading;
mod state;
mod writing;

pub use laws::what_is_written_is_read;
pub use reading::states_in;
pub use state::{OutputCounts, OutputState, STATE_FILE};
pub use writing::{put_state, state_head};
