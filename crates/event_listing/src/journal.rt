//! The events that a journal holds live.

ghost use Rattle.std.specs.Prelude.{◌≡◌, ◌<◌, length, IfSome};
ghost use Rattle.event_listing.specs.Live.{is_readable, PrintsChunk, PrintsJournal, PrintsLive};
ghost use Rattle.folder_listing.specs.Findings.{IsInJournal, IsSealedIn};
ghost use Rattle.folder_listing.specs.Placed.{known_at};

use crate::choice::Choice;
use crate::form::Form;
use crate::output::Output;
use crate::sink::{End, print_pieces};
use crate::stop::Stop;
use chunk_journal::{Extent, Outline, Outlined};
use folder_listing::{FoundJournal, FrontReader, PlacesReader, ReadAt, found_by};
use msgpack_bytes::prefix_free;
use program_text::PIECE;
use std::alloc::{AllocError, Allocator};
use std::io::Write;

/// What is found at the end of a journal.
#[derive(Clone, Copy)]
pub(crate) enum JournalEnd {
    /// It is sealed: its whole records have so many bytes, and so many stand behind them.
    Sealed { at: u64, behind: u64 },
    /// Its whole records end before a Seal: an opening passes it over.
    Unsealed,
    /// Something stands in it that no buffer writes.
    Damaged,
}

impl JournalEnd {
    /// Whether the journal is read to its end.
    pub(crate) fn is_sound(self) -> bool
        ensures { result ≡ is_readable self }
    {
        !matches!(self, JournalEnd::Damaged)
    }
}

/// Prints the chosen events that a journal holds live: its chunks by rising serial, and the events
/// of each in their order. It reads the journal twice: what its live chunks are, and then their
/// entries at their places.
pub(crate) fn print_journal<A: Allocator + Copy, B: Allocator, R: ReadAt, W: Write>(
    alloc: A,
    choice: &Choice<B>,
    file: &R,
    out: &mut Output<W, A>,
) -> Result<JournalEnd, Stop>
    ensures { PrintsJournal choice.now (R.bytes_of file.now) out.old out.new result }
{
    let mut front = FrontReader::new(file);
    match found_by(alloc, Outline::new(alloc), &mut front) {
        Ok(found) => print_found(alloc, choice, found, file, out),
        Err(AllocError) => Err(Stop::Memory),
    }
}

// Prints the chosen events that a journal holds live in which this is found.
fn print_found<A: Allocator + Copy, B: Allocator, R: ReadAt, W: Write>(
    alloc: A,
    choice: &Choice<B>,
    found: FoundJournal<A>,
    file: &R,
    out: &mut Output<W, A>,
) -> Result<JournalEnd, Stop>
    ensures { IfSome (R.bytes_of file.now) (λ bytes. IsInJournal bytes found)
        → PrintsJournal choice.now (R.bytes_of file.now) out.old out.new result }
{
    match found {
        FoundJournal::Sealed { outlined, torn } => {
            print_sealed(alloc, choice, &outlined, torn, file, out)
        }
        FoundJournal::Unsealed => Ok(JournalEnd::Unsealed),
        FoundJournal::Damaged => Ok(JournalEnd::Damaged),
        FoundJournal::Unread => Err(Stop::Read),
    }
}

// The same of a journal that is sealed, and of which so many bytes are torn.
fn print_sealed<A: Allocator + Copy, B: Allocator, R: ReadAt, W: Write>(
    alloc: A,
    choice: &Choice<B>,
    outlined: &Outlined<A>,
    torn: u64,
    file: &R,
    out: &mut Output<W, A>,
) -> Result<JournalEnd, Stop>
    ensures { IfSome (R.bytes_of file.now) (λ bytes. IsSealedIn bytes outlined.now torn)
        → PrintsJournal choice.now (R.bytes_of file.now) out.old out.new result }
{
    match print_live(alloc, choice, outlined, file, out) {
        Ok(()) => Ok(JournalEnd::Sealed {
            at: outlined.used,
            behind: torn,
        }),
        Err(stop) => Err(stop),
    }
}

// Prints the chosen events of live chunks, whose entries lie at these places of the file.
fn print_live<A: Allocator + Copy, B: Allocator, R: ReadAt, W: Write>(
    alloc: A,
    choice: &Choice<B>,
    outlined: &Outlined<A>,
    file: &R,
    out: &mut Output<W, A>,
) -> Result<(), Stop>
    ensures { PrintsLive choice.now outlined.now.chunks outlined.now.places
        (R.bytes_of file.now) out.old out.new result }
{
    match Vec::from_elem(alloc, 0, PIECE) {
        Ok(mut piece) => print_chunks(alloc, choice, outlined, &mut piece, file, out),
        Err(AllocError) => Err(Stop::Memory),
    }
}

// The same, by pieces of this length.
fn print_chunks<A: Allocator + Copy, B: Allocator, R: ReadAt, W: Write>(
    alloc: A,
    choice: &Choice<B>,
    outlined: &Outlined<A>,
    piece: &mut [u8],
    file: &R,
    out: &mut Output<W, A>,
) -> Result<(), Stop>
    requires { 0 < length piece.old }
    ensures { PrintsLive choice.now outlined.now.chunks outlined.now.places
        (R.bytes_of file.now) out.old out.new result }
{
    // Called for its law alone, as `stays_stored` below.
    prefix_free();
    let live = outlined.chunks.live();
    for (serial, chunk) in live {
        chunk.stays_stored();
        let places = outlined.places.at(*serial);
        if let Err(stop) = print_chunk(alloc, choice, chunk.tag(), places, piece, file, out) {
            return Err(stop);
        }
    }
    Ok(())
}

// Prints the chosen events of a chunk that has this tag, and whose entries lie at these places of
// the file. The file isn't read to its end where something else stands there.
fn print_chunk<A: Allocator + Copy, B: Allocator, R: ReadAt, W: Write>(
    alloc: A,
    choice: &Choice<B>,
    tag: &[u8],
    places: &[Extent],
    piece: &mut [u8],
    file: &R,
    out: &mut Output<W, A>,
) -> Result<(), Stop>
    requires { 0 < length piece.old }
    ensures { PrintsChunk choice.now tag.now
        (known_at (R.bytes_of file.now) places.now 0) out.old out.new result }
{
    let mut entries = PlacesReader::new(file, places);
    match print_pieces(alloc, choice, Form::Under(tag), piece, &mut entries, out) {
        Ok(End::Ended { behind: 0, .. }) => Ok(()),
        Ok(_) => Err(Stop::Read),
        Err(stop) => Err(stop),
    }
}
