//! Whole runs of a network of relays, and what they never lose.
#![tactic(auto)]

mod keeping;
mod runs;

pub use custody_steps::{
    ChunkName, Client, Event, Net, Node, Stage, Step, StepFault, StepsError, World,
};
pub use keeping::is_kept_as;
pub use runs::run;
