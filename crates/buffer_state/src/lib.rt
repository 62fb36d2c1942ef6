//! What a buffer holds in memory, and its steps: append, queue, claim, give back, and removal by a
//! purge or as the oldest.
#![tactic(auto)]

mod chunk;
mod chunks;
mod content;
mod limits;
mod live;
mod table;
mod tags;

pub use chunk::{Chunk, Stage};
pub use chunks::{Chunks, Ready};
pub use limits::{AppendFault, GREATEST_SIZE, Limits};
pub use live::{ChunkFacts, LiveChunks, LiveIter};
