//! The word `show`: what the journals and sinks in a relay's data folder hold. Nothing is written.
//! For the other words that look into such a folder, files are read in pieces, and at the places of
//! a journal's entries.
#![tactic(auto)]

mod feeding;
mod file;
mod folder;
mod front;
mod journal;
mod kind;
mod placed;
mod places;
mod show;

pub use feeding::{Feed, FeedStop, found_by, found_in};
pub use folder::{DataFolder, PlacedFile};
pub use front::FrontReader;
pub use journal::FoundJournal;
pub use kind::{DataFile, Kind};
pub use placed::{OpenPlaced, ReadAt};
pub use places::PlacesReader;
pub use show::run_show;
