//! Bytes at places of a file of a folder: they are read, or added to another file, by pieces that
//! have told bytes too.
#![tactic(auto)]

mod adding;
mod error;
mod packing;
mod piece;
mod places;
mod reading;
mod runs;

pub use adding::add_pieces;
pub use error::PieceError;
pub use piece::{Piece, room_at, room_of};
pub use places::read_places;
pub use reading::read_exact;
