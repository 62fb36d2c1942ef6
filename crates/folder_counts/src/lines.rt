//! The lines of a folder: those of buffers and sinks, and of what they hold together.

ghost use Rattle.std.specs.Prelude.{◌≡◌, ◌++◌, [], cond, decimal, IfOk, OnOk};
ghost use Rattle.std.specs.List.{flat_map};
ghost use Rattle.program_text.specs.Lines.{line};
ghost use Rattle.folder_counts.specs.Limits.{is_above};
ghost use Rattle.folder_counts.specs.Lines.{
  buffer_line,
  flaw_line,
  over_lines,
  sink_line,
  sink_lines,
  time_field,
  total_line,
  total_of,
  with_chunks,
  with_found,
};
ghost use Rattle.folder_counts.specs.Texts.{status_lines};

use crate::buffers::{Buffer, Found};
use crate::counts::{ChunkCounts, NO_CHUNKS, SinkCounts};
use crate::folder::FolderCounts;
use crate::instant::Instant;
use crate::limits::{Limits, is_above};
use crate::outputs::Output;
use crate::outputs_lines::put_outputs;
use crate::pieces::{Piece, put_pieces};
use crate::sinks::Sink;
use crate::times::put_instant;
use std::alloc::{AllocError, Allocator};

/// A line for each buffer, each sink and each output, one for all buffers together, and one for
/// each limit that a buffer is above. The error is want of memory, also for a number of 2^64 or
/// more.
pub(crate) fn status_lines<A: Allocator + Copy>(
    alloc: A,
    limits: Limits,
    folder: &FolderCounts<'_, A>,
    outputs: &[Output<'_>],
) -> Result<Vec<u8, A>, AllocError>
    ensures { IfOk result (λ lines. lines.items ≡ status_lines limits folder.now outputs.now) }
{
    let mut lines = Vec::new(alloc);
    put_buffers(alloc, &mut lines, folder.buffers())?;
    put_sinks(alloc, &mut lines, folder.sinks())?;
    put_outputs(alloc, &mut lines, folder.buffers(), outputs)?;
    put_total(alloc, &mut lines, folder.buffers())?;
    put_overs(alloc, &mut lines, limits, folder.buffers())?;
    Ok(lines)
}

// Adds the lines of these buffers.
fn put_buffers<A: Allocator + Copy>(
    alloc: A,
    lines: &mut Vec<u8, A>,
    buffers: &[Buffer<'_>],
) -> Result<(), AllocError>
    ensures { OnOk result (lines.new.items ≡ lines.old.items ++ flat_map buffer_line buffers.now) }
{
    for buffer in buffers {
        put_buffer(alloc, lines, buffer)?;
    }
    Ok(())
}

// Adds the line of a buffer.
fn put_buffer<A: Allocator + Copy>(
    alloc: A,
    lines: &mut Vec<u8, A>,
    buffer: &Buffer<'_>,
) -> Result<(), AllocError>
    ensures { OnOk result (lines.new.items ≡ lines.old.items ++ buffer_line buffer.now) }
{
    let path = buffer.path().as_bytes();
    put_pieces(alloc, lines, &[Piece::Text(b"buffer "), Piece::Text(path)])?;
    put_found(alloc, lines, buffer.found())?;
    lines.extend_from_slice(b"\n")
}

// Adds what is found in a journal.
fn put_found<A: Allocator + Copy>(
    alloc: A,
    line: &mut Vec<u8, A>,
    found: Found,
) -> Result<(), AllocError>
    ensures { OnOk result (line.new.items ≡ with_found line.old.items found) }
{
    match found {
        Found::Chunks {
            chunks,
            torn,
            next,
            oldest,
        } => put_whole(alloc, line, chunks, torn, next, oldest),
        Found::Unsealed => line.extend_from_slice(b" unsealed"),
        Found::Damaged => line.extend_from_slice(b" damaged"),
        Found::Unread => line.extend_from_slice(b" unread"),
    }
}

// Adds what is found in a journal that is whole.
fn put_whole<A: Allocator + Copy>(
    alloc: A,
    line: &mut Vec<u8, A>,
    chunks: ChunkCounts,
    torn: u64,
    next: u64,
    oldest: Option<Instant>,
) -> Result<(), AllocError>
    ensures { OnOk result
        (line.new.items ≡ with_found line.old.items (Found.Chunks chunks torn next oldest)) }
{
    put_chunks(alloc, line, chunks)?;
    put_pieces(
        alloc,
        line,
        &[
            Piece::Text(b" torn "),
            Piece::Number(torn),
            Piece::Text(b" next "),
            Piece::Number(next),
        ],
    )?;
    put_time(alloc, line, b" oldest event ", oldest)
}

/// Adds a word and an instant; nothing where there is none.
pub(crate) fn put_time<A: Allocator + Copy>(
    alloc: A,
    line: &mut Vec<u8, A>,
    word: &[u8],
    instant: Option<Instant>,
) -> Result<(), AllocError>
    ensures { OnOk result (line.new.items ≡ line.old.items ++ time_field word.now instant) }
{
    let Some(instant) = instant else {
        return Ok(());
    };
    line.extend_from_slice(word)?;
    put_instant(alloc, line, instant)
}

// Adds what chunks count to.
fn put_chunks<A: Allocator + Copy>(
    alloc: A,
    line: &mut Vec<u8, A>,
    chunks: ChunkCounts,
) -> Result<(), AllocError>
    ensures { OnOk result (line.new.items ≡ with_chunks line.old.items chunks) }
{
    put_pieces(
        alloc,
        line,
        &[
            Piece::Text(b" staged "),
            Piece::Number(chunks.staged),
            Piece::Text(b" queued "),
            Piece::Number(chunks.queued),
            Piece::Text(b" entries "),
            Piece::Number(chunks.entries),
            Piece::Text(b" bytes "),
            Piece::Number(chunks.bytes),
        ],
    )
}

// Adds the lines of these sinks.
fn put_sinks<A: Allocator + Copy>(
    alloc: A,
    lines: &mut Vec<u8, A>,
    sinks: &[Sink<'_>],
) -> Result<(), AllocError>
    ensures { OnOk result (lines.new.items ≡ lines.old.items ++ flat_map sink_lines sinks.now) }
{
    for sink in sinks {
        put_sink(alloc, lines, sink)?;
    }
    Ok(())
}

// Adds the line of a sink, and behind it those that say that some of its files are damaged, or
// aren't read.
fn put_sink<A: Allocator + Copy>(
    alloc: A,
    lines: &mut Vec<u8, A>,
    sink: &Sink<'_>,
) -> Result<(), AllocError>
    ensures { OnOk result (lines.new.items ≡ lines.old.items ++ sink_lines sink.now) }
{
    let counts = sink.counts();
    put_sink_line(alloc, lines, sink)?;
    put_flaw(alloc, lines, sink.path(), b" damaged ", counts.damaged)?;
    put_flaw(alloc, lines, sink.path(), b" unread ", counts.unread)
}

// Adds the line of a sink.
fn put_sink_line<A: Allocator + Copy>(
    alloc: A,
    lines: &mut Vec<u8, A>,
    sink: &Sink<'_>,
) -> Result<(), AllocError>
    ensures { OnOk result (lines.new.items ≡ lines.old.items ++ sink_line sink.now) }
{
    let counts = sink.counts();
    put_pieces(
        alloc,
        lines,
        &[
            Piece::Text(b"sink "),
            Piece::Text(sink.path().as_bytes()),
            Piece::Text(b" files "),
            Piece::Number(counts.files),
            Piece::Text(b" events "),
            Piece::Number(counts.events),
            Piece::Text(b" bytes "),
            Piece::Number(counts.bytes),
            Piece::Text(b" torn "),
            Piece::Number(counts.torn),
            Piece::Text(b" newest "),
            Piece::Text(sink.newest().as_bytes()),
        ],
    )?;
    put_time(alloc, lines, b" newest event ", counts.newest_event)?;
    lines.extend_from_slice(b"\n")
}

// Adds the line that says of how many files of a sink this is true; nothing where there are none.
fn put_flaw<'a, A: Allocator + Copy>(
    alloc: A,
    lines: &mut Vec<u8, A>,
    name: &'a str,
    word: &'a [u8],
    files: u64,
) -> Result<(), AllocError>
    ensures { OnOk result (lines.new.items ≡ lines.old.items ++ flaw_line name.now word.now files) }
{
    put_above(alloc, lines, b"sink ", name, word, Some(0), files)
}

// Adds the line of what these buffers hold together.
fn put_total<A: Allocator + Copy>(
    alloc: A,
    lines: &mut Vec<u8, A>,
    buffers: &[Buffer<'_>],
) -> Result<(), AllocError>
    ensures { OnOk result (lines.new.items ≡ lines.old.items ++ total_line buffers.now) }
{
    let sum = total_of(buffers)?;
    lines.extend_from_slice(b"total")?;
    put_chunks(alloc, lines, sum)?;
    lines.extend_from_slice(b"\n")
}

/// What these buffers hold together. The error is want of memory for a number of 2^64 or more.
pub(crate) fn total_of(buffers: &[Buffer<'_>]) -> Result<ChunkCounts, AllocError>
    ensures { IfOk result (λ sum. sum ≡ total_of buffers.now) }
{
    let mut sum = NO_CHUNKS;
    for buffer in buffers {
        sum = sum.plus(buffer.chunks())?;
    }
    Ok(sum)
}

// Adds the lines of the limits that these buffers are above.
fn put_overs<A: Allocator + Copy>(
    alloc: A,
    lines: &mut Vec<u8, A>,
    limits: Limits,
    buffers: &[Buffer<'_>],
) -> Result<(), AllocError>
    ensures { OnOk result (lines.new.items
        ≡ lines.old.items ++ flat_map (over_lines limits) buffers.now) }
{
    for buffer in buffers {
        put_over(alloc, lines, limits, buffer)?;
    }
    Ok(())
}

// Adds those of one buffer.
fn put_over<A: Allocator + Copy>(
    alloc: A,
    lines: &mut Vec<u8, A>,
    limits: Limits,
    buffer: &Buffer<'_>,
) -> Result<(), AllocError>
    ensures { OnOk result (lines.new.items ≡ lines.old.items ++ over_lines limits buffer.now) }
{
    let path = buffer.path();
    let chunks = buffer.chunks();
    let number = chunks.number()?;
    let age = limits.age(buffer.oldest());
    put_above(
        alloc,
        lines,
        b"over ",
        path,
        b" bytes ",
        limits.bytes,
        chunks.bytes,
    )?;
    put_above(
        alloc,
        lines,
        b"over ",
        path,
        b" chunks ",
        limits.chunks,
        number,
    )?;
    put_above(
        alloc,
        lines,
        b"over ",
        path,
        b" age ",
        limits.most_age(),
        age,
    )
}

// Adds the line of a number that is above its limit, by what it is of, a word and a name, and by
// another word; nothing of another number.
fn put_above<'a, A: Allocator + Copy>(
    alloc: A,
    lines: &mut Vec<u8, A>,
    front: &'a [u8],
    name: &'a str,
    word: &'a [u8],
    most: Option<u64>,
    number: u64,
) -> Result<(), AllocError>
    ensures { OnOk result (lines.new.items ≡ lines.old.items
        ++ cond (is_above most number) (line (front.now ++ name.now ++ word.now ++ decimal number))
        []) }
{
    if !is_above(most, number) {
        return Ok(());
    }
    put_pieces(
        alloc,
        lines,
        &[
            Piece::Text(front),
            Piece::Text(name.as_bytes()),
            Piece::Text(word),
            Piece::Number(number),
            Piece::Text(b"\n"),
        ],
    )
}
