//! Bytes at places of a file are read, one place behind another. No memory is asked for.

ghost use Rattle.std.specs.Prelude.{◌≡◌, ◌+◌, ◌≤◌, IsSome, length, IfOk};
ghost use Rattle.disk_files.specs.declared.dir.FileNo.{FileNo};
ghost use Rattle.chunk_journal.specs.Places.{bytes_at, bytes_from};
ghost use Rattle.file_pieces.specs.Pieces.{CanTake, HasPart, places_room};
ghost use Rattle.file_pieces.specs.Reading.{Reads, ReadsOn};
ghost use Rattle.file_pieces.specs.Runs.{IsRun, LieInSpan};

use crate::error::PieceError;
use crate::packing::pack;
use crate::reading::read_exact;
use crate::runs::{Run, run_of};
use chunk_journal::Extent;
use disk_files::{Dir, FileNo};

/// Reads the bytes at these places of an open file, one behind another. The disk stays as it is.
/// Places that lie near one another are read at once, by no more bytes than `window` has.
///
/// `Fault`: the device failed. `Short`: the file ends before a place does. After an error nothing
/// is known of what `into` holds.
pub fn read_places<D: Dir>(
    dir: &mut D,
    file: FileNo,
    places: &[Extent],
    window: &mut [u8],
    into: &mut [u8],
) -> Result<(), PieceError>
    requires open { IsSome (D.opened dir.old file) }
    requires fits { length into.old ≡ places_room places.now }
    ensures reads { Reads D.is_honest D.history D.opened D.bytes_left D.fault_count file
        (λ seen. CanTake seen places.now)
        (λ seen. into.new ≡ bytes_at seen places.now) dir.old dir.new result }
    ensures len { length into.new ≡ length into.old }
{
    let mut count: usize = 0;
    let mut end: usize = 0;
    while count < places.len() {
        let (_, rest) = places.split_at(count);
        let run = run_of(rest, window.len());
        match read_run(dir, file, run, window, end, into) {
            Ok(behind) => end = behind,
            Err(fault) => return Err(fault),
        }
        count += run.places.len();
    }
    Ok(())
}

// Reads the bytes at the places of a run to behind the first so many of `into`, and says where they
// end.
fn read_run<D: Dir>(
    dir: &mut D,
    file: FileNo,
    run: Run<'_>,
    window: &mut [u8],
    done: usize,
    into: &mut [u8],
) -> Result<usize, PieceError>
    requires open { IsSome (D.opened dir.old file) }
    requires run { IsRun (length window.old) run }
    requires fits { done + places_room run.places.now ≤ length into.old }
    ensures end { IfOk result (λ end. end ≡ done + places_room run.entry.places.now) }
    ensures reads { Reads D.is_honest D.history D.opened D.bytes_left D.fault_count file
        (λ seen. CanTake seen run.entry.places.now)
        (λ seen. ReadsOn done (places_room run.entry.places.now)
        (bytes_at seen run.entry.places.now) into.old into.new) dir.old dir.new result }
    ensures len { length into.new ≡ length into.old }
    ensures window_len { length window.new ≡ length window.old }
{
    if run.places.len() == 1 {
        return read_place(dir, file, run.places[0], done, into);
    }
    read_span(dir, file, run, window, done, into)
}

// Reads the bytes at a place to behind the first so many of `into`, and says where they end.
fn read_place<D: Dir>(
    dir: &mut D,
    file: FileNo,
    place: Extent,
    done: usize,
    into: &mut [u8],
) -> Result<usize, PieceError>
    requires open { IsSome (D.opened dir.old file) }
    requires fits { done + place.length ≤ length into.old }
    ensures end { IfOk result (λ end. end ≡ done + place.length) }
    ensures reads { Reads D.is_honest D.history D.opened D.bytes_left D.fault_count file
        (λ seen. HasPart seen place.at place.length)
        (λ seen. ReadsOn done place.length (bytes_from seen place) into.old into.new) dir.old
        dir.new result }
    ensures len { length into.new ≡ length into.old }
{
    let count = place.length() as usize;
    let (_, behind) = into.split_at_mut(done);
    let (part, _) = behind.split_at_mut(count);
    match read_exact(dir, file, place.at(), part) {
        Ok(()) => Ok(done + count),
        Err(fault) => Err(fault),
    }
}

/// Reads the span of a run, and puts the bytes at its places behind the first so many of `into`.
/// Says where they end.
pub(crate) fn read_span<D: Dir>(
    dir: &mut D,
    file: FileNo,
    run: Run<'_>,
    window: &mut [u8],
    done: usize,
    into: &mut [u8],
) -> Result<usize, PieceError>
    requires open { IsSome (D.opened dir.old file) }
    requires span { LieInSpan run.at run.span run.places.now }
    requires small { run.span ≤ length window.old }
    requires fits { done + places_room run.places.now ≤ length into.old }
    ensures end { IfOk result (λ end. end ≡ done + places_room run.entry.places.now) }
    ensures reads { Reads D.is_honest D.history D.opened D.bytes_left D.fault_count file
        (λ seen. CanTake seen run.entry.places.now)
        (λ seen. ReadsOn done (places_room run.entry.places.now)
        (bytes_at seen run.entry.places.now) into.old into.new) dir.old dir.new result }
    ensures len { length into.new ≡ length into.old }
    ensures window_len { length window.new ≡ length window.old }
{
    let (part, _) = window.split_at_mut(run.span as usize);
    match read_exact(dir, file, run.at, part) {
        Ok(()) => Ok(pack(part, run.at, run.places, done, into)),
        Err(fault) => Err(fault),
    }
}
