//! The events that the bytes of a sink's file hold.

ghost use Rattle.std.specs.Prelude.{◌≡◌, ℕ, ◌≤◌, List, ◌∷◌, ◌++◌, length, IfOk, IsSomeAnd, MatchOption};
ghost use Rattle.event_modes.specs.Entry.{entry_header};
ghost use Rattle.event_modes.specs.Message.{longest_tag};
ghost use Rattle.sink_series.specs.Events.{Event, IsEvent, item_of, BeginsNone, Holds, Counts};

use crate::event::SinkEvent;
use crate::writing::put_front;
use event_modes::{ENTRY_HEADER, Entries, LONGEST_TAG};
use msgpack_bytes::{array_of, next_item, next_text};
use std::alloc::{AllocError, Allocator};

/// What the bytes of a sink's file hold, counted.
#[derive(Clone, Copy, PartialEq, Eq)]
pub struct EventCount {
    /// How many events they hold.
    pub events: usize,
    /// How many bytes stand behind the last of these: no whole item begins there.
    pub torn: usize,
}

/// Counts the content of the bytes. The error is want of memory.
pub fn count_events<A: Allocator + Copy>(alloc: A, bytes: &[u8]) -> Result<EventCount, AllocError>
    ensures { IfOk result (λ counted. Counts bytes.now counted.events counted.torn) }
{
    let mut count = 0;
    let mut rest = bytes;
    while let Some(first) = next_event(alloc, rest)? {
        count += 1;
        rest = first.1;
    }
    Ok(EventCount {
        events: count,
        torn: rest.len(),
    })
}

/// The content of the bytes.
pub(crate) fn read_events<A: Allocator + Copy>(
    alloc: A,
    bytes: &[u8],
) -> Result<Vec<SinkEvent<A>, A>, AllocError>
    ensures { IfOk result (λ events. Holds bytes.now events.items) }
{
    let mut events = Vec::new(alloc);
    let mut rest = bytes;
    while let Some(first) = next_event(alloc, rest)? {
        let (event, behind) = first;
        events.push(event)?;
        rest = behind;
    }
    Ok(events)
}

/// The event whose item the bytes begin with, and what is behind it; none where no event's item is
/// whole there. What is read counts where it would be written so. The error is want of memory.
pub fn next_event<'a, A: Allocator + Copy>(
    alloc: A,
    bytes: &'a [u8],
) -> Result<Option<(SinkEvent<A>, &'a [u8])>, AllocError>
    ensures { IfOk result (λ found. MatchOption found (BeginsNone bytes.now)
        (λ first. IsEvent first.0 × (bytes.now ≡ item_of first.0 ++ first.1.now))) }
{
    let Some((tag, body)) = parts_of(bytes) else {
        return Ok(None);
    };
    let Some(event) = event_of(alloc, tag, body)? else {
        return Ok(None);
    };
    match behind_item(alloc, bytes, event.tag(), event.entry())? {
        Some(rest) => Ok(Some((event, rest))),
        None => Ok(None),
    }
}

// What is behind the item of this event, where the bytes begin with it. The entry isn't copied for
// it.
fn behind_item<'a, A: Allocator>(
    alloc: A,
    bytes: &'a [u8],
    tag: &[u8],
    entry: &[u8],
) -> Result<Option<&'a [u8]>, AllocError>
    requires tag { length tag.now ≤ longest_tag }
    requires entry { 1 ≤ length entry.now }
    ensures { let item = item_of (record { tag = tag.now; entry = entry.now }) in
        IfOk result (λ found. MatchOption found ((rest : List ℕ) → bytes.now ≡ item ++ rest → ⊥)
        (λ rest. bytes.now ≡ item ++ rest.now)) }
{
    let mut front = Vec::new(alloc);
    put_front(&mut front, tag)?;
    let Some(content) = bytes.strip_prefix(front.as_slice()) else {
        return Ok(None);
    };
    Ok(content.strip_prefix(entry.split_at(1).1))
}

// The tag, and the time with the record, of the item that the bytes begin with.
fn parts_of(bytes: &[u8]) -> Option<(&[u8], &[u8])>
    ensures { (event : Event) (rest : List ℕ) → IsEvent event → bytes.now ≡ item_of event ++ rest
        → IsSomeAnd result (λ found. (found.0.now ≡ event.tag)
        × (entry_header ∷ found.1.now ≡ event.entry)) }
{
    let behind = array_of(bytes, 3)?;
    let (tag, content) = next_text(behind)?;
    let (_, after) = next_item(content)?;
    let (_, rest) = next_item(after)?;
    Some((tag, content.split_at(content.len() - rest.len()).0))
}

// The event of a tag, and of a time with a record, if it is one.
fn event_of<A: Allocator + Copy>(
    alloc: A,
    tag: &[u8],
    body: &[u8],
) -> Result<Option<SinkEvent<A>>, AllocError>
    ensures { IfOk result
        (λ found. MatchOption found
        (IsEvent (record { tag = tag.now; entry = entry_header ∷ body.now }) → ⊥)
        (λ event. IsEvent event
        × (event ≡ record { tag = tag.now; entry = entry_header ∷ body.now }))) }
{
    if tag.len() > LONGEST_TAG {
        return Ok(None);
    }
    let mut entry = Vec::with_capacity(alloc, 1 + body.len())?;
    entry.push(ENTRY_HEADER)?;
    entry.extend_from_slice(body)?;
    match Entries::read(alloc, &entry, 1)? {
        None => Ok(None),
        Some(_stored) => {
            let tag = Vec::from_slice(alloc, tag)?;
            Ok(Some(SinkEvent { tag, entry }))
        }
    }
}
