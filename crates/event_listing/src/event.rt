//! An event as an object of three members.

ghost use Rattle.std.specs.Prelude.{◌≡◌, ◌++◌, ℕ, List, IfOk, OnOk};
ghost use Rattle.event_modes.specs.Rows.{IsStored};
ghost use Rattle.event_listing.specs.Events.{IsEventJson, IsEventLine, IsTimeOf};
ghost use Rattle.event_listing.specs.Walking.{Adds};

use crate::item::put_item;
use crate::text::put_text;
use crate::time::{nanoseconds_of, put_time};
use crate::walk::first_item;
use json::Writer;
use std::alloc::{AllocError, Allocator};

/// Adds the line of an event to lines, which it takes and gives back: an object with its `tag`, its
/// `time` and its `record`, and a line feed. `entry` is a stored entry: `92`, the time's bytes and
/// the record's.
///
/// The only error is want of memory; the lines are gone then.
pub fn put_event<A: Allocator + Copy>(
    alloc: A,
    lines: Vec<u8, A>,
    tag: &[u8],
    entry: &[u8],
) -> Result<Vec<u8, A>, AllocError>
    requires { IsStored entry.now }
    ensures { IfOk result
        (λ all. (line : List ℕ) × IsEventLine tag.now entry.now line
        × (all.items ≡ lines.items ++ line)) }
{
    let mut writer = Writer::new(lines);
    put_members(alloc, &mut writer, tag, entry)?;
    let mut all = writer.into_inner();
    all.push(b'\n')?;
    Ok(all)
}

/// The time of an event, in nanoseconds since the beginning of 1970. `entry` is a stored entry, as
/// above.
pub fn time_of(entry: &[u8]) -> i128
    requires { IsStored entry.now }
    ensures { IsTimeOf entry.now result }
{
    nanoseconds_of(first_item(entry.split_at(1).1, 2).item)
}

// Writes the object of an event.
fn put_members<A: Allocator + Copy>(
    alloc: A,
    writer: &mut Writer<A>,
    tag: &[u8],
    entry: &[u8],
) -> Result<(), AllocError>
    requires { IsStored entry.now }
    ensures { OnOk result (Adds (IsEventJson tag.now entry.now) writer.old writer.new) }
{
    let time = first_item(entry.split_at(1).1, 2);
    let fields = first_item(time.rest, 1);
    writer.begin_object()?;
    writer.key("tag")?;
    put_text(alloc, writer, tag)?;
    writer.key("time")?;
    put_time(alloc, writer, time.item)?;
    writer.key("record")?;
    put_item(alloc, writer, fields.item)?;
    writer.end_object()
}
