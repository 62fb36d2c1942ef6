//! Each request for memory of a call is refused in turn: the call says so, what there was stays,
//! and the next try succeeds.

mod acts;
pub mod buffers;
pub mod deliveries;
mod files;
pub mod folders;
pub mod handshakes;
pub mod journals;
mod opening;
pub mod putting;
pub mod reading;
pub mod shared;
pub mod shop;
pub mod sinks;
pub mod told;
pub mod trial;
