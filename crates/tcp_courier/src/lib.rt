//! Chunks that go to another relay over a connection.
#![tactic(auto)]

mod courier;
mod exchange;
mod failures;
mod line;
mod parts;

pub use courier::{Carried, TcpCourier, Turn};
pub use exchange::deliver;
pub use line::Line;
pub use parts::CourierParts;
