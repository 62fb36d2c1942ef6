//! What a folder holds, as a JSON object (RFC 8259).

ghost use Rattle.std.specs.Prelude.{◌≡◌, fold, IfOk, OnOk};
ghost use Rattle.folder_counts.specs.Object.{
  state_word,
  with_above,
  with_buffer,
  with_buffers,
  with_list,
  with_member,
  with_number,
  with_numbers,
  with_over,
  with_overs,
  with_sink,
  with_sinks,
  with_time,
  with_total,
  with_word,
  Becomes,
};
ghost use Rattle.folder_counts.specs.Texts.{status_object, with_folder, with_status};

use crate::buffers::{Buffer, Found};
use crate::counts::{ChunkCounts, SinkCounts};
use crate::folder::FolderCounts;
use crate::instant::Instant;
use crate::limits::{Limits, is_above};
use crate::lines::total_of;
use crate::outputs::Output;
use crate::outputs_object::put_outputs;
use crate::sinks::Sink;
use crate::times::seconds_text;
use json::Writer;
use std::alloc::{AllocError, Allocator};

/// The object, in a line. The error is want of memory, also for a number of 2^64 or more.
pub(crate) fn status_object<A: Allocator + Copy>(
    alloc: A,
    limits: Limits,
    folder: &FolderCounts<'_, A>,
    outputs: &[Output<'_>],
) -> Result<Vec<u8, A>, AllocError>
    ensures { IfOk result (λ text. text.items ≡ status_object limits folder.now outputs.now) }
{
    let mut writer = Writer::new(Vec::new(alloc));
    put_status(alloc, &mut writer, limits, folder, outputs)?;
    let mut text = writer.into_inner();
    text.extend_from_slice(b"\n")?;
    Ok(text)
}

// Writes the object.
fn put_status<A: Allocator + Copy>(
    alloc: A,
    writer: &mut Writer<A>,
    limits: Limits,
    folder: &FolderCounts<'_, A>,
    outputs: &[Output<'_>],
) -> Result<(), AllocError>
    ensures { OnOk result (Becomes writer.old writer.new
        (with_status writer.old.tokens limits folder.now outputs.now)) }
{
    writer.begin_object()?;
    put_folder(alloc, writer, limits, folder, outputs)?;
    writer.end_object()
}

// Writes its members.
fn put_folder<A: Allocator + Copy>(
    alloc: A,
    writer: &mut Writer<A>,
    limits: Limits,
    folder: &FolderCounts<'_, A>,
    outputs: &[Output<'_>],
) -> Result<(), AllocError>
    ensures { OnOk result (Becomes writer.old writer.new
        (with_folder writer.old.tokens limits folder.now outputs.now)) }
{
    let buffers = folder.buffers();
    put_buffers(alloc, writer, buffers)?;
    put_sinks(alloc, writer, folder.sinks())?;
    put_outputs(alloc, writer, buffers, outputs)?;
    put_total(writer, buffers)?;
    put_overs(writer, limits, buffers)
}

/// What objects are written of.
#[derive(Clone, Copy)]
pub(crate) enum Member<'a> {
    /// An object begins.
    Begin,
    /// A member of this name, whose value is this number.
    Number(&'a str, u64),
    /// A member of this name, whose value is this text.
    Word(&'a str, &'a str),
    /// The object ends.
    End,
}

/// Writes these, one behind another.
pub(crate) fn put_all<A: Allocator>(
    writer: &mut Writer<A>,
    members: &[Member<'_>],
) -> Result<(), AllocError>
    ensures { OnOk result (Becomes writer.old writer.new
        (fold with_member writer.old.tokens members.now)) }
{
    for member in members {
        put_member(writer, *member)?;
    }
    Ok(())
}

// Writes one of them.
fn put_member<A: Allocator>(writer: &mut Writer<A>, member: Member<'_>) -> Result<(), AllocError>
    ensures { OnOk result (Becomes writer.old writer.new
        (with_member writer.old.tokens member.entry)) }
{
    match member {
        Member::Begin => writer.begin_object(),
        Member::Number(key, number) => put_number(writer, key, number),
        Member::Word(key, word) => put_word(writer, key, word),
        Member::End => writer.end_object(),
    }
}

/// Writes a member whose value is this number.
pub(crate) fn put_number<A: Allocator>(
    writer: &mut Writer<A>,
    key: &str,
    number: u64,
) -> Result<(), AllocError>
    ensures { OnOk result (Becomes writer.old writer.new
        (with_number writer.old.tokens key.now number)) }
{
    writer.key(key)?;
    writer.u64(number)
}

// Writes a member whose value is this text.
fn put_word<A: Allocator>(writer: &mut Writer<A>, key: &str, word: &str) -> Result<(), AllocError>
    ensures { OnOk result (Becomes writer.old writer.new
        (with_word writer.old.tokens key.now word.now)) }
{
    writer.key(key)?;
    writer.string(word)
}

/// Begins the member with a list.
pub(crate) fn begin_list<A: Allocator>(writer: &mut Writer<A>, key: &str) -> Result<(), AllocError>
    ensures { OnOk result (Becomes writer.old writer.new
        (with_list writer.old.tokens key.now)) }
{
    writer.key(key)?;
    writer.begin_array()
}

// Writes the member with all buffers.
fn put_buffers<A: Allocator + Copy>(
    alloc: A,
    writer: &mut Writer<A>,
    buffers: &[Buffer<'_>],
) -> Result<(), AllocError>
    ensures { OnOk result (Becomes writer.old writer.new
        (with_buffers writer.old.tokens buffers.now)) }
{
    begin_list(writer, "buffers")?;
    put_each_buffer(alloc, writer, buffers)?;
    writer.end_array()
}

// Writes the objects of these buffers.
fn put_each_buffer<A: Allocator + Copy>(
    alloc: A,
    writer: &mut Writer<A>,
    buffers: &[Buffer<'_>],
) -> Result<(), AllocError>
    ensures { OnOk result (Becomes writer.old writer.new
        (fold with_buffer writer.old.tokens buffers.now)) }
{
    for buffer in buffers {
        put_buffer(alloc, writer, buffer)?;
    }
    Ok(())
}

// Writes the object of a buffer.
fn put_buffer<A: Allocator + Copy>(
    alloc: A,
    writer: &mut Writer<A>,
    buffer: &Buffer<'_>,
) -> Result<(), AllocError>
    ensures { OnOk result (Becomes writer.old writer.new
        (with_buffer writer.old.tokens buffer.now)) }
{
    let found = buffer.found();
    put_all(
        writer,
        &[
            Member::Begin,
            Member::Word("name", buffer.path()),
            Member::Word("state", state_word(found)),
        ],
    )?;
    put_numbers(alloc, writer, found)?;
    writer.end_object()
}

// Writes the members of the numbers that are found in a journal; nothing where it isn't whole.
fn put_numbers<A: Allocator + Copy>(
    alloc: A,
    writer: &mut Writer<A>,
    found: Found,
) -> Result<(), AllocError>
    ensures { OnOk result (Becomes writer.old writer.new (with_numbers writer.old.tokens found)) }
{
    match found {
        Found::Chunks {
            chunks,
            torn,
            next,
            oldest,
        } => put_whole(alloc, writer, chunks, torn, next, oldest),
        Found::Unsealed | Found::Damaged | Found::Unread => Ok(()),
    }
}

// Writes the members of the numbers that are found in a journal that is whole.
fn put_whole<A: Allocator + Copy>(
    alloc: A,
    writer: &mut Writer<A>,
    chunks: ChunkCounts,
    torn: u64,
    next: u64,
    oldest: Option<Instant>,
) -> Result<(), AllocError>
    ensures { OnOk result (Becomes writer.old writer.new
        (with_numbers writer.old.tokens (Found.Chunks chunks torn next oldest))) }
{
    put_all(
        writer,
        &[
            Member::Number("staged", chunks.staged),
            Member::Number("queued", chunks.queued),
            Member::Number("entries", chunks.entries),
            Member::Number("bytes", chunks.bytes),
            Member::Number("torn", torn),
            Member::Number("next", next),
        ],
    )?;
    put_time(alloc, writer, "oldest_event", oldest)
}

/// Writes a member whose value is this instant, in seconds since the beginning of 1970 with nine
/// places behind the point; nothing where there is none.
pub(crate) fn put_time<A: Allocator + Copy>(
    alloc: A,
    writer: &mut Writer<A>,
    key: &str,
    instant: Option<Instant>,
) -> Result<(), AllocError>
    ensures { OnOk result (Becomes writer.old writer.new
        (with_time writer.old.tokens key.now instant)) }
{
    let Some(instant) = instant else {
        return Ok(());
    };
    let seconds = seconds_text(alloc, instant.nanos)?;
    writer.key(key)?;
    writer.number(seconds.as_str())
}

// The word for what is found in a journal.
fn state_word(found: Found) -> &'static str
    ensures { result.now ≡ state_word found }
{
    match found {
        Found::Chunks { .. } => "whole",
        Found::Unsealed => "unsealed",
        Found::Damaged => "damaged",
        Found::Unread => "unread",
    }
}

// Writes the member with all sinks.
fn put_sinks<A: Allocator + Copy>(
    alloc: A,
    writer: &mut Writer<A>,
    sinks: &[Sink<'_>],
) -> Result<(), AllocError>
    ensures { OnOk result (Becomes writer.old writer.new (with_sinks writer.old.tokens sinks.now)) }
{
    begin_list(writer, "sinks")?;
    put_each_sink(alloc, writer, sinks)?;
    writer.end_array()
}

// Writes the objects of these sinks.
fn put_each_sink<A: Allocator + Copy>(
    alloc: A,
    writer: &mut Writer<A>,
    sinks: &[Sink<'_>],
) -> Result<(), AllocError>
    ensures { OnOk result (Becomes writer.old writer.new
        (fold with_sink writer.old.tokens sinks.now)) }
{
    for sink in sinks {
        put_sink(alloc, writer, sink)?;
    }
    Ok(())
}

// Writes the object of a sink.
fn put_sink<A: Allocator + Copy>(
    alloc: A,
    writer: &mut Writer<A>,
    sink: &Sink<'_>,
) -> Result<(), AllocError>
    ensures { OnOk result (Becomes writer.old writer.new (with_sink writer.old.tokens sink.now)) }
{
    let counts = sink.counts();
    put_all(
        writer,
        &[
            Member::Begin,
            Member::Word("name", sink.path()),
            Member::Number("files", counts.files),
            Member::Number("events", counts.events),
            Member::Number("bytes", counts.bytes),
            Member::Number("torn", counts.torn),
            Member::Number("damaged", counts.damaged),
            Member::Number("unread", counts.unread),
            Member::Word("newest", sink.newest()),
        ],
    )?;
    put_time(alloc, writer, "newest_event", counts.newest_event)?;
    writer.end_object()
}

// Writes the member with what all buffers hold together.
fn put_total<A: Allocator>(writer: &mut Writer<A>, buffers: &[Buffer<'_>]) -> Result<(), AllocError>
    ensures { OnOk result (Becomes writer.old writer.new
        (with_total writer.old.tokens buffers.now)) }
{
    let sum = total_of(buffers)?;
    writer.key("total")?;
    put_all(
        writer,
        &[
            Member::Begin,
            Member::Number("staged", sum.staged),
            Member::Number("queued", sum.queued),
            Member::Number("entries", sum.entries),
            Member::Number("bytes", sum.bytes),
            Member::End,
        ],
    )
}

// Writes the member with the limits that buffers are above.
fn put_overs<A: Allocator>(
    writer: &mut Writer<A>,
    limits: Limits,
    buffers: &[Buffer<'_>],
) -> Result<(), AllocError>
    ensures { OnOk result (Becomes writer.old writer.new
        (with_overs writer.old.tokens limits buffers.now)) }
{
    begin_list(writer, "over")?;
    put_each_over(writer, limits, buffers)?;
    writer.end_array()
}

// Writes the objects of the limits that these buffers are above.
fn put_each_over<A: Allocator>(
    writer: &mut Writer<A>,
    limits: Limits,
    buffers: &[Buffer<'_>],
) -> Result<(), AllocError>
    ensures { OnOk result (Becomes writer.old writer.new
        (fold (with_over limits) writer.old.tokens buffers.now)) }
{
    for buffer in buffers {
        put_over(writer, limits, buffer)?;
    }
    Ok(())
}

// Writes those of one buffer.
fn put_over<A: Allocator>(
    writer: &mut Writer<A>,
    limits: Limits,
    buffer: &Buffer<'_>,
) -> Result<(), AllocError>
    ensures { OnOk result (Becomes writer.old writer.new
        (with_over limits writer.old.tokens buffer.now)) }
{
    let path = buffer.path();
    let chunks = buffer.chunks();
    let number = chunks.number()?;
    let age = limits.age(buffer.oldest());
    put_above(writer, path, "bytes", limits.bytes, chunks.bytes)?;
    put_above(writer, path, "chunks", limits.chunks, number)?;
    put_above(writer, path, "age", limits.most_age(), age)
}

// Writes the object of a number that is above its limit; nothing of another.
fn put_above<'a, A: Allocator>(
    writer: &mut Writer<A>,
    name: &'a str,
    key: &'a str,
    most: Option<u64>,
    number: u64,
) -> Result<(), AllocError>
    ensures { OnOk result (Becomes writer.old writer.new
        (with_above writer.old.tokens name.now key.now most number)) }
{
    if !is_above(most, number) {
        return Ok(());
    }
    put_all(
        writer,
        &[
            Member::Begin,
            Member::Word("name", name),
            Member::Number(key, number),
            Member::End,
        ],
    )
}
