//! A journal, counted: of its bytes are held a piece, a record or an entry that isn't whole, and
//! what the live chunks are with the places of their entries.

ghost use Rattle.std.specs.Prelude.{◌≡◌, IfOk, IfSome};
ghost use Rattle.buffer_state.specs.Shown.{seen};
ghost use Rattle.chunk_journal.specs.Places.{ArePlaced};
ghost use Rattle.folder_counts.specs.Counts.{one_chunk, state_counts};
ghost use Rattle.folder_counts.specs.Findings.{IsInJournal};
ghost use Rattle.folder_counts.specs.Tallies.{IsOldestIn, IsOldestLive};
ghost use Rattle.folder_listing.specs.Findings.{IsInJournal as IsOutlineIn, IsSealedIn};
ghost use Rattle.folder_listing.specs.Placed.{known_at};

use crate::buffers::Found;
use crate::counts::{ChunkCounts, NO_CHUNKS};
use crate::events::{Held, Oldest, earlier};
use crate::instant::instant_at;
use crate::spelling::Stored;
use buffer_state::{ChunkFacts, Chunks, LiveChunks, Stage};
use chunk_journal::{Extent, Outline, Outlined};
use folder_listing::{
    FeedStop, FoundJournal, FrontReader, OpenPlaced, PlacesReader, ReadAt, found_by,
};
use msgpack_bytes::prefix_free;
use std::alloc::{AllocError, Allocator};

/// What is found in the journal of this name, counted. The error is want of memory.
pub(crate) fn count_journal<A: Allocator + Copy, O: OpenPlaced>(
    alloc: A,
    name: &str,
    files: &O,
) -> Result<Found, AllocError>
    ensures { IfOk result
        (λ found. IfSome (O.text_of files.now name.now) (λ bytes. IsInJournal bytes found)) }
{
    match files.open_placed(name) {
        Ok(file) => count_file(alloc, &file),
        Err(e) => match FeedStop::of_reader(&e) {
            FeedStop::Memory => Err(AllocError),
            _ => Ok(Found::Unread),
        },
    }
}

// What is found in a journal, counted. It reads the file twice: what its live chunks are, and then
// their entries at their places. The error is want of memory.
fn count_file<A: Allocator + Copy, R: ReadAt>(alloc: A, file: &R) -> Result<Found, AllocError>
    ensures { IfOk result
        (λ found. IfSome (R.bytes_of file.now) (λ bytes. IsInJournal bytes found)) }
{
    let mut front = FrontReader::new(file);
    let found = found_by(alloc, Outline::new(alloc), &mut front)?;
    count_found(alloc, found, file)
}

// The same of a journal in which this is found.
fn count_found<A: Allocator + Copy, R: ReadAt>(
    alloc: A,
    found: FoundJournal<A>,
    file: &R,
) -> Result<Found, AllocError>
    ensures { IfSome (R.bytes_of file.now) (λ bytes. IsOutlineIn bytes found)
        → IfOk result (λ counts. IfSome (R.bytes_of file.now) (λ bytes. IsInJournal bytes counts)) }
{
    match found {
        FoundJournal::Sealed { outlined, torn } => count_sealed(alloc, &outlined, torn, file),
        FoundJournal::Unsealed => Ok(Found::Unsealed),
        FoundJournal::Damaged => Ok(Found::Damaged),
        FoundJournal::Unread => Ok(Found::Unread),
    }
}

// The same of a journal that is sealed, and of which so many bytes are torn.
fn count_sealed<A: Allocator + Copy, R: ReadAt>(
    alloc: A,
    outlined: &Outlined<A>,
    torn: u64,
    file: &R,
) -> Result<Found, AllocError>
    ensures { IfSome (R.bytes_of file.now) (λ bytes. IsSealedIn bytes outlined.now torn)
        → IfOk result (λ counts. IfSome (R.bytes_of file.now) (λ bytes. IsInJournal bytes counts)) }
{
    let oldest = oldest_live(alloc, outlined, file)?;
    match oldest {
        Oldest::Known(nanos) => Ok(Found::Chunks {
            chunks: count_chunks(&outlined.chunks)?,
            torn,
            next: outlined.chunks.next(),
            oldest: instant_at(nanos),
        }),
        Oldest::Unread => Ok(Found::Unread),
    }
}

// The time of the oldest event of live chunks, whose entries lie at these places of the file. The
// error is want of memory.
fn oldest_live<A: Allocator + Copy, R: ReadAt>(
    alloc: A,
    outlined: &Outlined<A>,
    file: &R,
) -> Result<Oldest, AllocError>
    ensures { IfOk result (λ oldest. IfSome (R.bytes_of file.now)
        (λ bytes. ArePlaced bytes outlined.now.places outlined.now.chunks
        → IsOldestLive outlined.now.chunks oldest)) }
{
    // Called for its law alone, as `stays_stored` below.
    prefix_free();
    let mut oldest = None;
    let live = outlined.chunks.live();
    for (serial, chunk) in live {
        chunk.stays_stored();
        let places = outlined.places.at(*serial);
        match oldest_at(alloc, places, file)? {
            Oldest::Known(nanos) => oldest = earlier(oldest, nanos),
            Oldest::Unread => return Ok(Oldest::Unread),
        }
    }
    Ok(Oldest::Known(oldest))
}

// The same of one chunk. It isn't read to its end where something else than entries stands there.
fn oldest_at<A: Allocator + Copy, R: ReadAt>(
    alloc: A,
    places: &[Extent],
    file: &R,
) -> Result<Oldest, AllocError>
    ensures { IfOk result
        (λ oldest. IfSome (known_at (R.bytes_of file.now) places.now 0)
        (λ bytes. IsOldestIn bytes oldest)) }
{
    let mut entries = PlacesReader::new(file, places);
    let found = found_by(alloc, Held::new(alloc, Stored), &mut entries)?;
    Ok(found.oldest())
}

// The live chunks, counted. The error is want of memory for a number of 2^64 or more.
fn count_chunks<A: Allocator + Copy>(chunks: &Chunks<A>) -> Result<ChunkCounts, AllocError>
    ensures { IfOk result (λ counts. counts ≡ state_counts chunks.now) }
{
    let mut counts = NO_CHUNKS;
    for facts in LiveChunks::of(chunks).iter() {
        counts = counts.plus(one_chunk(facts))?;
    }
    Ok(counts)
}

// A chunk, counted.
fn one_chunk(facts: ChunkFacts<'_>) -> ChunkCounts
    ensures { result ≡ one_chunk (seen facts.entry) }
{
    let (staged, queued) = match facts.stage {
        Stage::Staged => (1, 0),
        Stage::Queued | Stage::Claimed => (0, 1),
    };
    ChunkCounts {
        staged,
        queued,
        entries: facts.count as u64,
        bytes: facts.size as u64,
    }
}
