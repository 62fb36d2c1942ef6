//! Entries and events: copies of them, and whether one is among others.

ghost use Rattle.std.specs.Prelude.{◌≡◌, ◌↔◌, IfOk, IfSome, IsTrue, Contains};
ghost use Rattle.step_lines.specs.Texts.{texts_of};
ghost use Rattle.custody_store.specs.Buffers.{events_of};
ghost use Rattle.custody_store.specs.Contents.{event_of, stored_events};

use std::alloc::{AllocError, Allocator};

/// An entry under its tag.
#[derive(Drop)]
pub struct Event<A: Allocator> {
    /// The bytes of the tag.
    pub tag: Vec<u8, A>,
    /// The bytes of the entry.
    pub entry: Vec<u8, A>,
}

/// Copies of the texts, in their order.
pub fn copy_texts<A: Allocator + Copy>(
    alloc: A,
    texts: &[Vec<u8, A>],
) -> Result<Vec<Vec<u8, A>, A>, AllocError>
    ensures { IfOk result (λ copies. texts_of copies.items ≡ texts_of texts.now) }
{
    let mut copies = Vec::new(alloc);
    for text in texts {
        let copy = Vec::from_slice(alloc, text.as_slice())?;
        copies.push(copy)?;
    }
    Ok(copies)
}

/// The texts as events of this tag, in their order.
pub fn copy_events<A: Allocator + Copy>(
    alloc: A,
    tag: &[u8],
    texts: &[Vec<u8, A>],
) -> Result<Vec<Event<A>, A>, AllocError>
    ensures { IfOk result
        (λ events. stored_events events.items ≡ events_of tag.now (texts_of texts.now)) }
{
    let mut events = Vec::new(alloc);
    for text in texts {
        let event = Event {
            tag: Vec::from_slice(alloc, tag)?,
            entry: Vec::from_slice(alloc, text.as_slice())?,
        };
        events.push(event)?;
    }
    Ok(events)
}

/// Whether the text is among the texts.
pub fn has_text<A: Allocator>(texts: &[Vec<u8, A>], text: &[u8]) -> bool
    ensures { IsTrue result ↔ Contains (texts_of texts.now) text.now }
{
    for one in texts {
        if one.as_slice() == text {
            return true;
        }
    }
    false
}

/// Whether the entry is among the events under this tag.
pub(crate) fn has_event<A: Allocator>(events: &[Event<A>], tag: &[u8], entry: &[u8]) -> bool
    ensures { IsTrue result
        ↔ Contains (stored_events events.now) (record { tag = tag.now; entry = entry.now }) }
{
    for event in events {
        if is_event(event, tag, entry) {
            return true;
        }
    }
    false
}

/// The tag under which the entry is at this place among the events, if it is.
pub(crate) fn tag_among<'a, A: Allocator>(
    events: &'a [Event<A>],
    index: usize,
    entry: &[u8],
) -> Option<&'a [u8]>
    ensures { IfSome result
        (λ tag. Contains (stored_events events.now) (record { tag = tag.now; entry = entry.now })) }
{
    let event = events.get(index)?;
    if event.entry.as_slice() == entry {
        Some(event.tag.as_slice())
    } else {
        None
    }
}

// Whether it is this event.
fn is_event<A: Allocator>(event: &Event<A>, tag: &[u8], entry: &[u8]) -> bool
    ensures { IsTrue result ↔ (event_of event.now ≡ record { tag = tag.now; entry = entry.now }) }
{
    event.tag.as_slice() == tag && event.entry.as_slice() == entry
}
