//! What there is in a network, without any rule of its steps: what its relays have, buffers with
//! their sinks, ids that were answered, and what restarts leave of them; what was ever sent,
//! delivered and acknowledged; and whether an event is kept along each branch of its way.
#![tactic(auto)]

mod book;
mod branch;
mod buffer;
mod chunk;
mod delivery;
mod entering;
mod event;
mod message;
mod places;
mod search;
mod sender;
mod spots;
mod tags;

pub use book::Book;
pub use buffer::Buffer;
pub use chunk::{Copied, Look, Stage};
pub use delivery::Delivery;
pub use event::{Event, copy_texts, has_text};
pub use message::{Acknowledged, Message};
pub use places::Places;
pub use search::each_branch_keeps;
pub use sender::Sender;
pub use spots::{Spot, Spots};
