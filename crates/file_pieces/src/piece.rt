//! Pieces of what is to be added.

ghost use Rattle.std.specs.Prelude.{◌≡◌, IfSome};
ghost use Rattle.file_pieces.specs.Pieces.{piece_room, places_room, total_room};

use chunk_journal::Extent;
use std::alloc::Allocator;

/// Bytes to be added to a file: some that are told, and behind them those at places of another
/// file.
#[derive(Drop)]
pub struct Piece<'a, A: Allocator> {
    /// The bytes that are told.
    pub told: Vec<u8, A>,
    /// The places of the others in the other file, in their order.
    pub places: &'a [Extent],
}

/// How many bytes the pieces have together, if memory could hold so many.
pub fn room_of<A: Allocator>(pieces: &[Piece<'_, A>]) -> Option<usize>
    ensures { IfSome result (λ room. room ≡ total_room pieces.now) }
{
    let mut room: usize = 0;
    for piece in pieces {
        let more = room_of_piece(piece)?;
        room = room.checked_add(more)?;
    }
    Some(room)
}

// How many bytes a piece has, if memory could hold so many.
fn room_of_piece<A: Allocator>(piece: &Piece<'_, A>) -> Option<usize>
    ensures { IfSome result (λ room. room ≡ piece_room piece.now) }
{
    let others = room_at(piece.places)?;
    piece.told.len().checked_add(others)
}

/// How many bytes there are at these places, if memory could hold so many.
pub fn room_at(places: &[Extent]) -> Option<usize>
    ensures { IfSome result (λ room. room ≡ places_room places.now) }
{
    let mut room: usize = 0;
    for place in places {
        room = room.checked_add(place.length() as usize)?;
    }
    Some(room)
}
