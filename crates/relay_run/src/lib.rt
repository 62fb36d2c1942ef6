//! The word `relay`: a relay that runs until a fault.
#![tactic(auto)]

mod flush;
mod flush_threads;
mod held;
mod relay;
mod running;
mod state;
mod voice;

pub use flush::Home;
pub use relay::Runner;
