//! The places of a relay that notices are told of, by their numbers in one list of names; and what
//! is said of its outputs, each by what was told of its own servers or sink.
#![tactic(auto)]

mod laws;
mod names;
mod outputs;
mod places;
mod row;
mod rows;

pub use laws::places_have_their_names;
pub use places::{Carriers, Places, places_of};
pub use rows::OutputRows;
