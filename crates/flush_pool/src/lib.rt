//! Workers that deliver the chunks of a shared buffer: each claims a chunk, has it carried to where
//! it belongs, and purges it on the evidence that comes back, or notes that it failed and gives it
//! back.
#![tactic(auto)]

mod acts;
mod courier;
mod diary;
mod fault;
mod gate;
mod pass;
mod pool;
mod retries;
mod round;
mod sink;
mod verdict;
mod view;
mod worked;
mod worker;

pub use courier::Courier;
pub use fault::CarryFault;
pub use gate::{Gate, OpenGate};
pub use pool::{run_pool, work};
pub use retries::Retries;
pub use sink::SinkCourier;
pub use view::ClaimView;
pub use worked::Worked;
pub use worker::Worker;
