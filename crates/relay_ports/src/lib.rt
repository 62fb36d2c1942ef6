//! A relay as it runs: its sources and outputs, which buffers have to store a message before it is
//! answered, and what lets the chunks of an output's buffer go.
#![tactic(auto)]

mod buffered;
mod fault;
mod inlet;
mod paths;
mod setup;

pub use buffered::{BufferedOutput, takes_of};
pub use fault::SetupFault;
pub use inlet::{Branches, Inlet};
pub use setup::{RelaySetup, SetupParts};
