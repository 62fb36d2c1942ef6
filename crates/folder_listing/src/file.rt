//! A file, listed: what the bytes of a journal mean, as far as whole records stand there, and how
//! many events a sink's file holds.

ghost use Rattle.std.specs.Prelude.{◌≡◌, ◌-◌, ◌++◌, map, string_bytes, true, IfOk, OnOk};
ghost use Rattle.std.specs.List.{flat_map};
ghost use Rattle.buffer_state.specs.Shown.{numbered_facts, seen};
ghost use Rattle.folder_listing.specs.Files.{Finding, Damaged, Holds, Means, Unread, Unsealed, chunk_line, kind_text, stage_text, IsContentOf, IsIn, IsMeaningOf, IsShown, IsShownAs};
ghost use Rattle.folder_listing.specs.declared.kind.Kind.TheVariants.{Journal, Sink};

use crate::kind::{DataFile, Kind};
use buffer_state::{ChunkFacts, Chunks, LiveChunks, Stage};
use chunk_journal::{ReplayError, Replayed, replay};
use program_text::{Open, ReadFault, read_named};
use sink_series::{EventCount, count_events};
use std::alloc::{AllocError, Allocator};

/// Lines of a file, and whether it could be read and isn't damaged.
#[derive(Drop)]
pub(crate) struct FileLines<A: Allocator> {
    pub lines: Vec<u8, A>,
    pub is_sound: bool,
}

/// The lines of this file.
pub(crate) fn list_file<A: Allocator + Copy, B: Allocator, O: Open>(
    alloc: A,
    file: &DataFile<B>,
    files: &O,
) -> Result<FileLines<A>, AllocError>
    ensures { IfOk result
        (λ listed. IsShown (O.text_of files.now) file.now.kind
        (string_bytes file.now.name) listed.lines.items listed.is_sound) }
{
    list_named(alloc, file.kind, file.name.as_str(), files)
}

// The lines of the file of this kind and name.
fn list_named<A: Allocator + Copy, O: Open>(
    alloc: A,
    kind: Kind,
    name: &str,
    files: &O,
) -> Result<FileLines<A>, AllocError>
    ensures { IfOk result
        (λ listed. IsShown (O.text_of files.now) kind name.now listed.lines.items listed.is_sound) }
{
    match read_named(alloc, name, files) {
        Ok(text) => list_text(alloc, kind, name, &text),
        Err(ReadFault::Memory) => Err(AllocError),
        Err(ReadFault::Read) => unread_lines(alloc, kind, name),
    }
}

// The lines of the file of this kind and name, which has these bytes.
fn list_text<A: Allocator + Copy>(
    alloc: A,
    kind: Kind,
    name: &str,
    bytes: &[u8],
) -> Result<FileLines<A>, AllocError>
    ensures { IfOk result
        (λ listed. (finding : Finding) × IsIn kind bytes.now finding
        × IsShownAs kind name.now finding listed.lines.items listed.is_sound) }
{
    match kind {
        Kind::Journal => list_journal(alloc, name, bytes),
        Kind::Sink => list_events(alloc, name, bytes),
    }
}

// The lines of the journal of this name, which has these bytes.
fn list_journal<A: Allocator + Copy>(
    alloc: A,
    name: &str,
    bytes: &[u8],
) -> Result<FileLines<A>, AllocError>
    ensures { IfOk result
        (λ listed. (finding : Finding) × IsMeaningOf bytes.now finding
        × IsShownAs Journal name.now finding listed.lines.items listed.is_sound) }
{
    let length = bytes.len();
    match replay(alloc, bytes) {
        Ok(replayed) => list_chunks(alloc, name, length, &replayed),
        Err(ReplayError::NotSealed) => unsealed_lines(alloc, name),
        Err(ReplayError::BadRecord) => damaged_lines(alloc, name),
        Err(ReplayError::Memory) => Err(AllocError),
    }
}

// The line of the sink's file of this name, which has these bytes.
fn list_events<A: Allocator + Copy>(
    alloc: A,
    name: &str,
    bytes: &[u8],
) -> Result<FileLines<A>, AllocError>
    ensures { IfOk result
        (λ listed. (finding : Finding) × IsContentOf bytes.now finding
        × IsShownAs Sink name.now finding listed.lines.items listed.is_sound) }
{
    let counted = count_events(alloc, bytes)?;
    event_line(alloc, name, counted)
}

// The line of a sink's file of so many events.
fn event_line<A: Allocator + Copy>(
    alloc: A,
    name: &str,
    counted: EventCount,
) -> Result<FileLines<A>, AllocError>
    ensures { IfOk result
        (λ listed. IsShownAs Sink name.now
        (Holds counted.events counted.torn) listed.lines.items listed.is_sound) }
{
    let EventCount { events, torn } = counted;
    let line = format!(in alloc; "sink {name} events {events} torn {torn}\n")?;
    Ok(FileLines {
        lines: line.into_bytes(),
        is_sound: true,
    })
}

// The line of a file that isn't read.
fn unread_lines<A: Allocator + Copy>(
    alloc: A,
    kind: Kind,
    name: &str,
) -> Result<FileLines<A>, AllocError>
    ensures { IfOk result
        (λ listed. IsShownAs kind name.now Unread listed.lines.items listed.is_sound) }
{
    let kind = kind_text(kind);
    let line = format!(in alloc; "{kind} {name} unread\n")?;
    Ok(FileLines {
        lines: line.into_bytes(),
        is_sound: false,
    })
}

// What a file is called.
fn kind_text(kind: Kind) -> &'static str
    ensures { result.now ≡ kind_text kind }
{
    match kind {
        Kind::Journal => "journal",
        Kind::Sink => "sink",
    }
}

// The line of a journal that ends before a Seal.
fn unsealed_lines<A: Allocator + Copy>(alloc: A, name: &str) -> Result<FileLines<A>, AllocError>
    ensures { IfOk result
        (λ listed. IsShownAs Journal name.now Unsealed listed.lines.items listed.is_sound) }
{
    let line = format!(in alloc; "journal {name} unsealed\n")?;
    Ok(FileLines {
        lines: line.into_bytes(),
        is_sound: true,
    })
}

// The line of a journal that is damaged.
fn damaged_lines<A: Allocator + Copy>(alloc: A, name: &str) -> Result<FileLines<A>, AllocError>
    ensures { IfOk result
        (λ listed. IsShownAs Journal name.now Damaged listed.lines.items listed.is_sound) }
{
    let line = format!(in alloc; "journal {name} damaged\n")?;
    Ok(FileLines {
        lines: line.into_bytes(),
        is_sound: false,
    })
}

// The lines of a journal that is sealed, and has so many bytes.
fn list_chunks<A: Allocator + Copy>(
    alloc: A,
    name: &str,
    length: usize,
    replayed: &Replayed<A>,
) -> Result<FileLines<A>, AllocError>
    ensures { IfOk result
        (λ listed. IsShownAs Journal name.now
        (Means replayed.now.chunks (length - replayed.now.used)) listed.lines.items
        listed.is_sound) }
{
    let total = LiveChunks::of(&replayed.chunks).total();
    let torn = length.saturating_sub(replayed.used);
    let front = format!(in alloc; "journal {name} bytes {total} torn {torn}\n")?;
    let mut lines = front.into_bytes();
    put_chunks(alloc, &mut lines, &replayed.chunks)?;
    Ok(FileLines {
        lines,
        is_sound: true,
    })
}

// Adds the lines of live chunks, by rising serial.
fn put_chunks<A: Allocator + Copy>(
    alloc: A,
    lines: &mut Vec<u8, A>,
    chunks: &Chunks<A>,
) -> Result<(), AllocError>
    ensures { OnOk result
        (lines.new.items ≡ lines.old.items ++ flat_map chunk_line
        (map numbered_facts chunks.now.chunks)) }
{
    for facts in LiveChunks::of(chunks).iter() {
        put_chunk(alloc, lines, facts)?;
    }
    Ok(())
}

// Adds the line of a chunk.
fn put_chunk<A: Allocator + Copy>(
    alloc: A,
    lines: &mut Vec<u8, A>,
    facts: ChunkFacts<'_>,
) -> Result<(), AllocError>
    ensures { OnOk result (lines.new.items ≡ lines.old.items ++ chunk_line (seen facts.entry)) }
{
    let ChunkFacts {
        serial,
        tag,
        count,
        size,
        stage,
    } = facts;
    let stage = stage_text(stage);
    let front = format!(in alloc; "chunk {serial} {stage} ")?;
    let behind = format!(in alloc; " {count} entries {size} bytes\n")?;
    lines.extend_from_slice(front.as_bytes())?;
    lines.extend_from_slice(tag)?;
    lines.extend_from_slice(behind.as_bytes())
}

// A chunk's state. No journal says that a chunk is claimed.
fn stage_text(stage: Stage) -> &'static str
    ensures { result.now ≡ stage_text stage }
{
    match stage {
        Stage::Staged => "staged",
        Stage::Queued => "queued",
        Stage::Claimed => "claimed",
    }
}
