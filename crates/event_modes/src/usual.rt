//! Messages of one event and entries that are spelled as clients usually do, told by a few bytes.

ghost use Rattle.std.specs.Prelude.{◌≡◌, ◌++◌, ◌≤◌, length, drop, IfSome, IsTrue};
ghost use Rattle.msgpack_bytes.specs.Item.{IsItemWithin};
ghost use Rattle.event_modes.specs.Rows.{IsStored};
ghost use Rattle.event_modes.specs.Usual.{BeginsStr, BeginsMap, BeginsEvent, IsOneEvent};

use crate::entry::ENTRY_HEADER;

/// What a message of one event says that has no option.
#[derive(Clone, Copy)]
pub struct Usual<'a> {
    /// The content of the tag.
    pub tag: &'a [u8],
    /// The time and the record, one behind the other.
    pub event: &'a [u8],
}

/// What the message says, where its parts are spelled as clients usually do. Any other item is for
/// the walk over its elements.
pub fn usual_of(item: &[u8]) -> Option<Usual<'_>>
    requires { IsItemWithin item.now }
    ensures { IfSome result (λ usual. IsOneEvent item.now usual.tag.now usual.event.now) }
{
    if item[0] != 0x93 {
        return None;
    }
    let (_, elements) = item.split_at(1);
    let (tag, event) = short_str(elements)?;
    if begins_event(event) {
        Some(Usual { tag, event })
    } else {
        None
    }
}

/// Whether an entry is spelled as it is stored, and its time and record begin as clients usually
/// spell them. Any other entry is for the walk over its elements.
pub fn is_usual_entry(entry: &[u8]) -> bool
    requires { IsItemWithin entry.now }
    ensures { IsTrue result → IsStored entry.now }
{
    if entry[0] != ENTRY_HEADER {
        return false;
    }
    let (_, event) = entry.split_at(1);
    begins_event(event)
}

// The content of the str of at most 255 bytes that the bytes begin with, and what is behind it.
fn short_str(bytes: &[u8]) -> Option<(&[u8], &[u8])>
    ensures { IfSome result (λ found. BeginsStr bytes.now found.0.now found.1.now) }
{
    if bytes.len() < 2 {
        return None;
    }
    let first = bytes[0];
    if 0xa0 <= first && first <= 0xbf {
        return cut(bytes, 1, usize::from(first - 0xa0));
    }
    if first == 0xd9 {
        return cut(bytes, 2, usize::from(bytes[1]));
    }
    None
}

// So many bytes from `start` on, and what is behind them.
#[inline(always)]
fn cut(bytes: &[u8], start: usize, size: usize) -> Option<(&[u8], &[u8])>
    requires { start ≤ length bytes.now }
    ensures { IfSome result
        (λ found. (length found.0.now ≡ size)
        × (drop start bytes.now ≡ found.0.now ++ found.1.now)) }
{
    let (_, rest) = bytes.split_at(start);
    if rest.len() < size {
        return None;
    }
    Some(rest.split_at(size))
}

// Whether an EventTime of ten bytes, or seconds of four or in one byte, stand there, and behind
// them the first byte of a map.
fn begins_event(bytes: &[u8]) -> bool
    ensures { IsTrue result → BeginsEvent bytes.now }
{
    if bytes.len() > 10 && bytes[0] == 0xd7 && bytes[1] == 0 {
        return begins_map(bytes[10]);
    }
    if bytes.len() > 5 && bytes[0] == 0xce {
        return begins_map(bytes[5]);
    }
    if bytes.len() > 1 && bytes[0] < 0x80 {
        return begins_map(bytes[1]);
    }
    false
}

#[inline(always)]
fn begins_map(first: u8) -> bool
    ensures { IsTrue result → BeginsMap first }
{
    0x80 <= first && first <= 0x8f || first == 0xde
}
