//! The files of a folder that are numbered in their names, as `PATH.0000000001.KIND`.
#![tactic(auto)]

mod digits;
mod family;
mod folder;
mod laws;

pub use family::Family;
pub use folder::{numbers, read_file};
pub use laws::names_differ;
