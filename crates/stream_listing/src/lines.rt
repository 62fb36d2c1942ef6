//! The lines of a listing.

ghost use Rattle.std.specs.Prelude.{◌≡◌, ◌++◌, ◌∷◌, [], ℕ, List, OnOk, OnErr, codes, Some};
ghost use Rattle.hex.specs.Hex.{encode_lower};
ghost use Rattle.event_modes.specs.Reading.{meaning};
ghost use Rattle.event_modes.specs.Stream.{Sent};
ghost use Rattle.program_text.specs.Lines.{line};
ghost use Rattle.stream_listing.specs.Listing.{message_line, entry_line, answer_lines, arrival_lines, KeepsFront};

use event_modes::{Message, put_ack};
use program_text::put_hex;
use std::alloc::{AllocError, Allocator};

/// Adds the lines of a message. An `Err` adds none.
pub fn put_message<A: Allocator + Copy>(
    alloc: A,
    lines: &mut Vec<u8, A>,
    message: &Message<A>,
) -> Result<(), AllocError>
    ensures ok { OnOk result
        (lines.new.items ≡ lines.old.items ++ arrival_lines (Sent (meaning message.now))) }
    ensures err { OnErr result (lines.new.items ≡ lines.old.items) }
{
    let whole = lines.len();
    let put = put_parts(alloc, lines, message);
    if put.is_err() {
        lines.truncate(whole);
    }
    put
}

// Adds the lines of a message. An `Err` may leave some of them, behind what was there.
fn put_parts<A: Allocator + Copy>(
    alloc: A,
    lines: &mut Vec<u8, A>,
    message: &Message<A>,
) -> Result<(), AllocError>
    ensures ok { OnOk result
        (lines.new.items ≡ lines.old.items ++ arrival_lines (Sent (meaning message.now))) }
    ensures err { OnErr result (KeepsFront lines.old.items lines.new.items) }
{
    put_message_line(alloc, lines, &message.tag, message.entries.count())?;
    for entry in message.entries.iter() {
        put_entry_line(lines, entry)?;
    }
    match &message.ack {
        Some(item) => put_answer_line(alloc, lines, item),
        None => Ok(()),
    }
}

// Adds the first line of a message.
fn put_message_line<A: Allocator + Copy>(
    alloc: A,
    lines: &mut Vec<u8, A>,
    tag: &[u8],
    count: usize,
) -> Result<(), AllocError>
    ensures ok { OnOk result (lines.new.items ≡ lines.old.items ++ message_line tag.now count) }
    ensures err { OnErr result (KeepsFront lines.old.items lines.new.items) }
{
    let count = format!(in alloc; " {count}\n")?;
    lines.extend_from_slice(b"message ")?;
    if tag.is_empty() {
        lines.extend_from_slice(b"-")?;
    } else {
        put_hex(lines, tag)?;
    }
    lines.extend_from_slice(count.as_bytes())
}

// Adds the line of an entry.
fn put_entry_line<A: Allocator>(lines: &mut Vec<u8, A>, entry: &[u8]) -> Result<(), AllocError>
    ensures ok { OnOk result (lines.new.items ≡ lines.old.items ++ entry_line entry.now) }
    ensures err { OnErr result (KeepsFront lines.old.items lines.new.items) }
{
    lines.extend_from_slice(b"entry ")?;
    put_hex(lines, entry)?;
    lines.extend_from_slice(b"\n")
}

// Adds the line of the acknowledgement of a chunk's item.
fn put_answer_line<A: Allocator + Copy>(
    alloc: A,
    lines: &mut Vec<u8, A>,
    item: &[u8],
) -> Result<(), AllocError>
    ensures ok { OnOk result (lines.new.items ≡ lines.old.items ++ answer_lines (Some item.now)) }
    ensures err { OnErr result (KeepsFront lines.old.items lines.new.items) }
{
    let mut acknowledgement = Vec::new(alloc);
    put_ack(&mut acknowledgement, item)?;
    lines.extend_from_slice(b"answer ")?;
    put_hex(lines, &acknowledgement)?;
    lines.extend_from_slice(b"\n")
}
