//! The files of a sink: events are written to the newest, and the content of all is read in order.
//! Of a sink that stays open for long the next file is begun once the newest is large or old
//! enough, or couldn't be written.
#![tactic(auto)]

mod answers;
mod begun;
mod closed;
mod event;
mod fault;
mod files;
mod laws;
mod limits;
mod reading;
mod rotation;
mod series;
mod stored;
mod writing;

pub use event::SinkEvent;
pub use fault::SeriesFault;
pub use laws::{
    answers_stand, cuts_whole, holds_one, made_adds_nothing, safe_is_content, safe_over_stop,
};
pub use limits::{FileLimits, ONE_FILE};
pub use reading::{EventCount, count_events, next_event};
pub use rotation::Rotation;
pub use series::Series;
pub use stored::Stored;
