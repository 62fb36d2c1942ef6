//! The fixed facts of a network: its relays and clients, where addresses lead, where events go, and
//! the tags that they may bear on their way.
#![tactic(auto)]

mod address;
mod arrival;
mod entering;
mod following;
mod index;
mod lookup;
mod net;
mod node;
mod output;
mod search;
mod sources;

pub use address::{Address, Entrance};
pub use entering::enter;
pub use net::{Net, Refused};
pub use node::{Client, Node};
pub use output::{buffer_number, is_in_memory, keeps, keeps_chunks, server, settings};
pub use search::is_routed_tag;
