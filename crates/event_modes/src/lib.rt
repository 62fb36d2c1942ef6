//! Messages of the Fluentd Forward Protocol v1: its three modes, acknowledgements, and streams of
//! them.
#![tactic(auto)]

mod acks;
mod ahead;
mod chunk_id;
mod entries;
mod entry;
mod fault;
mod feed;
mod item;
mod items;
mod laws;
mod message;
mod option;
mod packed;
mod places;
mod reading;
mod usual;

pub use acks::{AckRead, put_ack, read_ack};
pub use chunk_id::ChunkId;
pub use entry::ENTRY_HEADER;
pub use fault::{FeedError, ModeFault};
pub use feed::{Feed, Next, drop_front};
pub use items::Items;
pub use laws::{means_one, never_both, reads_one_way};
pub use message::{Entries, Message, Read};
pub use packed::put_packed;
pub use reading::{LONGEST_TAG, read};
