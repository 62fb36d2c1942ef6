//! What the host gives to a relay: addresses, time, random bytes, and sockets.
//!
//! Listeners, connections and time stand behind traits, so that a loop and couriers can be proved
//! over any network: which endpoint was bound, at which listener a connection came in, which
//! endpoint was asked for, and which bytes went each way are ghost members of the sockets.
#![tactic(auto)]

mod address;
mod chance;
mod clock;
mod dialer;
mod endpoint;
mod network;
mod socket_network;
mod system_dialer;
mod wire;

pub use address::resolve;
pub use chance::{Nonce, Nonces};
pub use clock::{Time, now_after};
pub use dialer::{Dialer, Unreached};
pub use endpoint::Endpoint;
pub use network::{Accepted, NetFault, Network, Note, Spot};
pub use socket_network::{SocketListener, SocketNetwork, SocketWire};
pub use system_dialer::{SystemDialer, SystemWire};
pub use wire::{Moved, Wire};
