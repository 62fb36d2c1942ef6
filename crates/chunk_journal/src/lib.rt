//! The journal of a buffer: its records, spelled exactly, and what a journal means.
#![tactic(auto)]

mod fault;
mod fields;
mod laws;
mod outline;
mod places;
mod reading;
mod record;
mod replaying;
mod writing;

pub use fault::ReplayError;
pub use laws::{
    answers_one_way, begins_one_way, cuts_generation, cuts_whole, ends_with_entries,
    leads_in_order, means_its_chunks, places_follow, reads_one_way,
};
pub use outline::{Outline, Outlined};
pub use places::{Extent, Places};
pub use record::Record;
pub use replaying::{Replayed, replay};
pub use writing::{put_append_head, put_record};
