//! A network of relays as a machine that takes one step after another, each exactly where the
//! definitions allow it.
#![tactic(auto)]

mod changes;
mod chunk_steps;
mod fault;
mod found;
mod message_steps;
mod outputs;
mod restarting;
mod world;

pub use custody_store::{Event, Stage};
pub use fault::StepFault;
pub use relay_net::{Client, Net, Node};
pub use step_lines::{ChunkName, Step, StepsError};
pub use world::World;
