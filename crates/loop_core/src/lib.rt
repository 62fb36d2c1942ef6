//! A relay's loop without its sockets: its buffers, opened as its outputs say, appends and their
//! receipts, when a staged chunk is queued; and a client's connection, of which what the client
//! sends is delivered, and answered once it is stored. Flush threads get each buffer with its
//! output.
#![tactic(auto)]

mod fault;
mod folders;
mod job;
mod lane;
mod lanes;
mod opening;
mod parting;
mod peer;
mod placed;
mod schedule;
mod shared;
mod unsettled;
mod waiting;

pub use fault::LoopFault;
pub use folders::{Folders, MemoryFolders, SystemDir, SystemFolders};
pub use job::DeliveryJob;
pub use lane::Lane;
pub use lanes::Lanes;
pub use opening::{OpenOutput, open_all};
pub use parting::{RelayParts, parts_of};
pub use peer::Peer;
pub use placed::{PlacedDir, real_dir};
pub use schedule::{Schedule, Staged};
pub use unsettled::{Handed, Unsettled};
pub use waiting::{Collected, Waiting};
