//! The word `events`: the events that a relay's sinks hold, and those that its journals hold live,
//! each as a line of JSON. Nothing is written to a sink or a journal.
#![tactic(auto)]

mod choice;
mod event;
mod files;
mod first;
mod follow;
mod form;
mod item;
mod journal;
mod lines;
mod names;
mod notes;
mod numbers;
mod output;
mod rest;
mod sink;
mod stop;
mod text;
mod time;
mod walk;

pub use choice::Choice;
pub use event::{put_event, time_of};
pub use files::run_events;
pub use follow::{FollowedFile, Growth, passes_join};
pub use output::Output;
pub use sink::LONGEST_ITEM;
