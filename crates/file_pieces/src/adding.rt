//! Bytes are added to a file, piece by piece. No memory is asked for.

ghost use Rattle.std.specs.Prelude.{◌≡◌, ◌/◌, ◌<◌, ◌≤◌, IsSome, length};
ghost use Rattle.disk_files.specs.declared.dir.FileNo.{FileNo};
ghost use Rattle.chunk_journal.specs.Places.{bytes_at};
ghost use Rattle.file_pieces.specs.Adding.{Adds, HasAny};
ghost use Rattle.file_pieces.specs.Pieces.{AreWithin, CanTake, HasPart, part_of, piece_bytes, piece_room, pieces_bytes, places_room, total_room};
ghost use Rattle.file_pieces.specs.Runs.{IsRun, LieInSpan};

use crate::error::PieceError;
use crate::piece::Piece;
use crate::places::read_span;
use crate::reading::read_exact;
use crate::runs::{Run, run_of};
use chunk_journal::Extent;
use disk_files::{Dir, FileNo, Writing};
use std::alloc::Allocator;

/// Adds pieces to an open file that has room for them, what they take from another file by no more
/// bytes at once than `buffer` has.
///
/// `Fault`: the device failed. `Short`: the other file ends before a place does. After an error a
/// beginning of the pieces may be there.
pub fn add_pieces<A: Allocator, D: Dir>(
    dir: &mut D,
    from: FileNo,
    to: FileNo,
    pieces: &[Piece<'_, A>],
    buffer: &mut [u8],
) -> Result<(), PieceError>
    requires source { IsSome (D.opened dir.old from) }
    requires open { IsSome (D.opened dir.old to) }
    requires room { total_room pieces.now ≤ D.bytes_left dir.old to }
    requires some { 0 < length buffer.old }
    ensures { Adds D.is_honest D.history D.opened D.bytes_left D.fault_count from to
        (total_room pieces.now) (λ seen. AreWithin seen pieces.now)
        (λ seen. pieces_bytes seen pieces.now) dir.old dir.new result }
{
    for piece in pieces {
        if let Err(fault) = add_piece(dir, from, to, piece, buffer) {
            return Err(fault);
        }
    }
    Ok(())
}

// Adds a piece.
fn add_piece<A: Allocator, D: Dir>(
    dir: &mut D,
    from: FileNo,
    to: FileNo,
    piece: &Piece<'_, A>,
    buffer: &mut [u8],
) -> Result<(), PieceError>
    requires source { IsSome (D.opened dir.old from) }
    requires open { IsSome (D.opened dir.old to) }
    requires room { piece_room piece.now ≤ D.bytes_left dir.old to }
    requires some { 0 < length buffer.old }
    ensures adds { Adds D.is_honest D.history D.opened D.bytes_left D.fault_count from to
        (piece_room piece.now) (λ seen. CanTake seen piece.now.places.now)
        (λ seen. piece_bytes seen piece.now) dir.old dir.new result }
    ensures len { length buffer.new ≡ length buffer.old }
{
    match add_told(dir, to, &piece.told) {
        Ok(()) => copy_places(dir, from, to, piece.places, buffer),
        Err(fault) => Err(fault),
    }
}

// Adds these bytes.
fn add_told<D: Dir>(dir: &mut D, to: FileNo, bytes: &[u8]) -> Result<(), PieceError>
    requires open { IsSome (D.opened dir.old to) }
    requires room { length bytes.now ≤ D.bytes_left dir.old to }
    ensures { (from : FileNo)
        → Adds D.is_honest D.history D.opened D.bytes_left D.fault_count from to
        (length bytes.now) HasAny (λ _. bytes.now) dir.old dir.new result }
{
    match dir.append(to, bytes, Writing::Through) {
        Ok(()) => Ok(()),
        Err(_) => Err(PieceError::Fault),
    }
}

// Adds the bytes at these places of the source, one behind another.
fn copy_places<D: Dir>(
    dir: &mut D,
    from: FileNo,
    to: FileNo,
    places: &[Extent],
    buffer: &mut [u8],
) -> Result<(), PieceError>
    requires source { IsSome (D.opened dir.old from) }
    requires open { IsSome (D.opened dir.old to) }
    requires room { places_room places.now ≤ D.bytes_left dir.old to }
    requires some { 0 < length buffer.old }
    ensures adds { Adds D.is_honest D.history D.opened D.bytes_left D.fault_count from to
        (places_room places.now) (λ seen. CanTake seen places.now)
        (λ seen. bytes_at seen places.now) dir.old dir.new result }
    ensures len { length buffer.new ≡ length buffer.old }
{
    let mut count: usize = 0;
    while count < places.len() {
        let (_, rest) = places.split_at(count);
        let run = run_of(rest, buffer.len() / 2);
        if let Err(fault) = copy_run(dir, from, to, run, buffer) {
            return Err(fault);
        }
        count += run.places.len();
    }
    Ok(())
}

// Adds the bytes at the places of a run.
fn copy_run<D: Dir>(
    dir: &mut D,
    from: FileNo,
    to: FileNo,
    run: Run<'_>,
    buffer: &mut [u8],
) -> Result<(), PieceError>
    requires source { IsSome (D.opened dir.old from) }
    requires open { IsSome (D.opened dir.old to) }
    requires room { places_room run.places.now ≤ D.bytes_left dir.old to }
    requires some { 0 < length buffer.old }
    requires run { IsRun (length buffer.old / 2) run }
    ensures adds { Adds D.is_honest D.history D.opened D.bytes_left D.fault_count from to
        (places_room run.entry.places.now) (λ seen. CanTake seen run.entry.places.now)
        (λ seen. bytes_at seen run.entry.places.now) dir.old dir.new result }
    ensures len { length buffer.new ≡ length buffer.old }
{
    if run.places.len() == 1 {
        let place = run.places[0];
        return copy(dir, from, to, place.at(), place.length(), buffer);
    }
    copy_span(dir, from, to, run, buffer)
}

// Adds the bytes at the places of a run. One half of the buffer takes the span, and the other what
// is added of it.
fn copy_span<D: Dir>(
    dir: &mut D,
    from: FileNo,
    to: FileNo,
    run: Run<'_>,
    buffer: &mut [u8],
) -> Result<(), PieceError>
    requires source { IsSome (D.opened dir.old from) }
    requires open { IsSome (D.opened dir.old to) }
    requires room { places_room run.places.now ≤ D.bytes_left dir.old to }
    requires span { LieInSpan run.at run.span run.places.now }
    requires small { run.span ≤ length buffer.old / 2 }
    ensures adds { Adds D.is_honest D.history D.opened D.bytes_left D.fault_count from to
        (places_room run.entry.places.now) (λ seen. CanTake seen run.entry.places.now)
        (λ seen. bytes_at seen run.entry.places.now) dir.old dir.new result }
    ensures len { length buffer.new ≡ length buffer.old }
{
    let half = buffer.len() / 2;
    let (window, packed) = buffer.split_at_mut(half);
    match read_span(dir, from, run, window, 0, packed) {
        Ok(end) => {
            let (bytes, _) = packed.split_at(end);
            add_told(dir, to, bytes)
        }
        Err(fault) => Err(fault),
    }
}

// Adds so many bytes of the source from a place on, no more at once than the buffer has.
fn copy<D: Dir>(
    dir: &mut D,
    from: FileNo,
    to: FileNo,
    at: u64,
    count: u64,
    buffer: &mut [u8],
) -> Result<(), PieceError>
    requires source { IsSome (D.opened dir.old from) }
    requires open { IsSome (D.opened dir.old to) }
    requires room { count ≤ D.bytes_left dir.old to }
    requires some { 0 < length buffer.old }
    ensures adds { Adds D.is_honest D.history D.opened D.bytes_left D.fault_count from to count
        (λ seen. HasPart seen at count) (λ seen. part_of seen at count) dir.old dir.new result }
    ensures len { length buffer.new ≡ length buffer.old }
{
    if at.checked_add(count).is_none() {
        return Err(PieceError::Short);
    }
    let mut done: u64 = 0;
    while done < count {
        let most = buffer.len() as u64;
        let next = most.min(count - done);
        let (part, _) = buffer.split_at_mut(next as usize);
        if let Err(fault) = copy_part(dir, from, to, at + done, part) {
            return Err(fault);
        }
        done += next;
    }
    Ok(())
}

// Adds as many bytes of the source from a place on as there is room in `part`.
fn copy_part<D: Dir>(
    dir: &mut D,
    from: FileNo,
    to: FileNo,
    at: u64,
    part: &mut [u8],
) -> Result<(), PieceError>
    requires source { IsSome (D.opened dir.old from) }
    requires open { IsSome (D.opened dir.old to) }
    requires room { length part.old ≤ D.bytes_left dir.old to }
    ensures adds { Adds D.is_honest D.history D.opened D.bytes_left D.fault_count from to
        (length part.old) (λ seen. HasPart seen at (length part.old))
        (λ seen. part_of seen at (length part.old)) dir.old dir.new result }
    ensures len { length part.new ≡ length part.old }
{
    match read_exact(dir, from, at, part) {
        Ok(()) => add_told(dir, to, part),
        Err(fault) => Err(fault),
    }
}
