//! The word `status`: what the journals and sinks in a relay's data folder hold, counted for each
//! buffer and each sink, and what the relay says there of its outputs. Journals and sinks are read
//! in pieces.
#![tactic(auto)]

mod buffers;
mod counts;
mod events;
mod folder;
mod instant;
mod journal;
mod limits;
mod lines;
mod metrics;
mod names;
mod object;
mod outputs;
mod outputs_lines;
mod outputs_metrics;
mod outputs_object;
mod parts;
mod pieces;
mod sinks;
mod spelling;
mod status;
mod times;

pub use buffers::{Buffer, Found};
pub use counts::{ChunkCounts, NO_CHUNKS, NO_FILES, SinkCounts};
pub use folder::{FolderCounts, count_folder};
pub use instant::Instant;
pub use limits::{AgeLimit, Limits};
pub use sinks::Sink;
pub use status::{Form, run_status};
