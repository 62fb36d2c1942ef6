//! Records as they are written.

ghost use Rattle.std.specs.Prelude.{◌≡◌, ◌≤◌, ◌<◌, ◌+◌, ◌^◌, ◌++◌, ℕ, List, length, OnOk, OnErr, vec_len, vec_capacity};
ghost use Rattle.event_modes.specs.Message.{longest_tag};
ghost use Rattle.chunk_journal.specs.Records.{Append, append_fixed, append_head, numbered, body_of, record_bytes, longest_body, IsRecord};
ghost use Rattle.chunk_journal.specs.Reading.{framed};
ghost use Rattle.chunk_journal.specs.Spelled.{record_of, HasShortTag};

use crate::record::{APPEND_KIND, PURGE_KIND, QUEUE_KIND, Record, SEAL_KIND};
use event_modes::Entries;
use std::alloc::{AllocError, Allocator};

// A record's length has so many bytes.
const LENGTH_SIZE: usize = 4;

// An Append has so many bytes behind its length beside its tag and its entries: the kind, the
// serial, the tag's length and the entries' count.
const APPEND_FIXED: usize = 15;

/// Appends a record: a length of four bytes, the kind, and the fields, each number with its highest
/// byte first. Asks for a tag of at most 1,024 bytes and for at most 16,777,216 bytes behind the
/// length.
///
/// The error is want of memory, comes only where `out` had no room, and leaves `out` as it was.
pub fn put_record<A: Allocator, B: Allocator>(
    out: &mut Vec<u8, A>,
    item: &Record<'_, B>,
) -> Result<(), AllocError>
    requires tag { HasShortTag (record_of item.now) }
    requires short { length (body_of (record_of item.now)) ≤ longest_body }
    ensures ok { OnOk result (out.new.items ≡ out.old.items ++ record_bytes (record_of item.now)) }
    ensures err { OnErr result (out.new.items ≡ out.old.items) }
    ensures full { OnErr result (vec_capacity out.old
        < vec_len out.old + length (record_bytes (record_of item.now))) }
    ensures kept { vec_capacity out.old ≤ vec_capacity out.new }
    // What is written is read again.
    ensures means { IsRecord (record_of item.now) }
{
    match item {
        Record::Seal { next } => put_numbered(out, SEAL_KIND, *next),
        Record::Append {
            serial,
            tag,
            entries,
        } => put_append(out, *serial, tag, entries),
        Record::Queue { serial } => put_numbered(out, QUEUE_KIND, *serial),
        Record::Purge { serial } => put_numbered(out, PURGE_KIND, *serial),
    }
}

fn put_numbered<A: Allocator>(out: &mut Vec<u8, A>, kind: u8, number: u64) -> Result<(), AllocError>
    ensures ok { OnOk result (out.new.items ≡ out.old.items ++ framed (numbered kind number)) }
    ensures err { OnErr result (out.new.items ≡ out.old.items) }
    ensures full { OnErr result
        (vec_capacity out.old < vec_len out.old + length (framed (numbered kind number))) }
    ensures kept { vec_capacity out.old ≤ vec_capacity out.new }
    ensures fits { number < 2 ^ 64 }
{
    let [a, b, c, d, e, f, g, h] = number.to_be_bytes();
    out.extend_from_slice(&[0, 0, 0, 9, kind, a, b, c, d, e, f, g, h])
}

fn put_append<A: Allocator, B: Allocator>(
    out: &mut Vec<u8, A>,
    serial: u64,
    tag: &[u8],
    entries: &Entries<B>,
) -> Result<(), AllocError>
    requires tag { length tag.now ≤ longest_tag }
    requires short { length (body_of (Append serial tag.now entries.now)) ≤ longest_body }
    ensures ok { OnOk result
        (out.new.items ≡ out.old.items ++ record_bytes (Append serial tag.now entries.now)) }
    ensures err { OnErr result (out.new.items ≡ out.old.items) }
    ensures full { OnErr result (vec_capacity out.old
        < vec_len out.old + length (record_bytes (Append serial tag.now entries.now))) }
    ensures kept { vec_capacity out.old ≤ vec_capacity out.new }
    ensures means { IsRecord (Append serial tag.now entries.now) }
{
    let stored = entries.as_bytes();
    out.reserve(LENGTH_SIZE + APPEND_FIXED + tag.len() + stored.len())?;
    write_append_head(out, serial, tag, entries.count(), stored.len());
    write(out, stored);
    Ok(())
}

/// Appends what an Append has before its entries, which are so many and have so many bytes.
/// Asks for a tag of at most 1,024 bytes, for at most 16,777,216 bytes behind the length, and for
/// no more entries than bytes.
///
/// The error is want of memory, comes only where `out` had no room, and leaves `out` as it was.
pub fn put_append_head<A: Allocator>(
    out: &mut Vec<u8, A>,
    serial: u64,
    tag: &[u8],
    count: usize,
    size: usize,
) -> Result<(), AllocError>
    requires tag { length tag.now ≤ longest_tag }
    requires short { append_fixed + length tag.now + size ≤ longest_body }
    requires count { count ≤ size }
    ensures ok { OnOk result
        (out.new.items ≡ out.old.items ++ append_head serial tag.now count size) }
    ensures err { OnErr result (out.new.items ≡ out.old.items) }
    ensures full { OnErr result (vec_capacity out.old
        < vec_len out.old + length (append_head serial tag.now count size)) }
    ensures kept { vec_capacity out.old ≤ vec_capacity out.new }
{
    out.reserve(LENGTH_SIZE + APPEND_FIXED + tag.len())?;
    write_append_head(out, serial, tag, count, size);
    Ok(())
}

// The same, where there is room for it.
fn write_append_head<A: Allocator>(
    out: &mut Vec<u8, A>,
    serial: u64,
    tag: &[u8],
    count: usize,
    size: usize,
)
    requires tag { length tag.now ≤ longest_tag }
    requires short { append_fixed + length tag.now + size ≤ longest_body }
    requires count { count ≤ size }
    requires room { vec_len out.old + (4 + append_fixed + length tag.now) ≤ vec_capacity out.old }
    ensures items { out.new.items ≡ out.old.items ++ append_head serial tag.now count size }
    ensures len { vec_len out.new ≡ vec_len out.old + (4 + append_fixed + length tag.now) }
    ensures kept { vec_capacity out.old ≤ vec_capacity out.new }
{
    let length = APPEND_FIXED + tag.len() + size;
    write(out, &(length as u32).to_be_bytes());
    out.push_reserved(APPEND_KIND);
    write(out, &serial.to_be_bytes());
    write(out, &(tag.len() as u16).to_be_bytes());
    write(out, tag);
    write(out, &(count as u32).to_be_bytes());
}

// Appends bytes for which there is room.
fn write<A: Allocator>(out: &mut Vec<u8, A>, bytes: &[u8])
    requires { vec_len out.old + length bytes.now ≤ vec_capacity out.old }
    ensures items { out.new.items ≡ out.old.items ++ bytes.now }
    ensures len { vec_len out.new ≡ vec_len out.old + length bytes.now }
    ensures kept { vec_capacity out.old ≤ vec_capacity out.new }
{
    if out.extend_from_slice(bytes).is_err() {
        unreachable!();
    }
}
