//! The first event that bytes hold, printed.

ghost use Rattle.std.specs.Prelude.{◌≡◌, ◌≤◌, ◌++◌, ℕ, List, length, IfOk, MatchOption};
ghost use Rattle.event_modes.specs.Message.{longest_tag};
ghost use Rattle.event_modes.specs.Rows.{IsStored};
ghost use Rattle.event_listing.specs.Forms.{form_of, BeginsNoEntry, Items, Under};
ghost use Rattle.event_listing.specs.Lines.{IsPrintedOf, TakesFirst};

use crate::choice::Choice;
use crate::event::{put_event, time_of};
use crate::form::Form;
use event_modes::{Entries, LONGEST_TAG};
use msgpack_bytes::next_item;
use sink_series::next_event;
use std::alloc::{AllocError, Allocator};

/// Lines, and what is behind the event that was printed last.
#[derive(Drop)]
pub(crate) struct Taken<'a, A: Allocator> {
    /// The lines.
    pub(crate) lines: Vec<u8, A>,
    /// What is behind the event; none where no event's bytes are whole.
    pub(crate) behind: Option<&'a [u8]>,
}

/// Adds what is printed of the event that the bytes begin with to lines, which it takes and gives
/// back. The error is want of memory.
pub(crate) fn take_first<'a, A: Allocator + Copy, B: Allocator>(
    alloc: A,
    choice: &Choice<B>,
    form: Form<'_>,
    lines: Vec<u8, A>,
    bytes: &'a [u8],
) -> Result<Taken<'a, A>, AllocError>
    ensures { IfOk result
        (λ taken. TakesFirst
        (form_of form.entry) choice.now bytes.now taken.behind lines.items taken.lines.items) }
{
    match form {
        Form::Items => take_item(alloc, choice, lines, bytes),
        Form::Under(tag) => take_entry(alloc, choice, tag, lines, bytes),
    }
}

// The same in a sink.
fn take_item<'a, A: Allocator + Copy, B: Allocator>(
    alloc: A,
    choice: &Choice<B>,
    lines: Vec<u8, A>,
    bytes: &'a [u8],
) -> Result<Taken<'a, A>, AllocError>
    ensures { IfOk result
        (λ taken. TakesFirst Items choice.now bytes.now taken.behind lines.items
        taken.lines.items) }
{
    let Some(first) = next_event(alloc, bytes)? else {
        return Ok(Taken {
            lines,
            behind: None,
        });
    };
    let (event, behind) = first;
    let lines = put_chosen(alloc, choice, lines, event.tag(), event.entry())?;
    Ok(Taken {
        lines,
        behind: Some(behind),
    })
}

// The same in a chunk that has this tag.
fn take_entry<'a, A: Allocator + Copy, B: Allocator>(
    alloc: A,
    choice: &Choice<B>,
    tag: &[u8],
    lines: Vec<u8, A>,
    bytes: &'a [u8],
) -> Result<Taken<'a, A>, AllocError>
    ensures { IfOk result
        (λ taken. TakesFirst
        (Under tag.now) choice.now bytes.now taken.behind lines.items taken.lines.items) }
{
    if tag.len() > LONGEST_TAG {
        return Ok(Taken {
            lines,
            behind: None,
        });
    }
    let Some(first) = next_entry(alloc, bytes)? else {
        return Ok(Taken {
            lines,
            behind: None,
        });
    };
    let (entry, behind) = first;
    let lines = put_chosen(alloc, choice, lines, tag, entry)?;
    Ok(Taken {
        lines,
        behind: Some(behind),
    })
}

// The stored entry that the bytes begin with, and what is behind it; none where none is whole
// there. The error is want of memory.
fn next_entry<'a, A: Allocator>(
    alloc: A,
    bytes: &'a [u8],
) -> Result<Option<(&'a [u8], &'a [u8])>, AllocError>
    ensures { IfOk result (λ found. MatchOption found (BeginsNoEntry bytes.now)
        (λ first. IsStored first.0.now × (bytes.now ≡ first.0.now ++ first.1.now))) }
{
    let Some((entry, behind)) = next_item(bytes) else {
        return Ok(None);
    };
    match Entries::read(alloc, entry, 1)? {
        None => Ok(None),
        Some(_stored) => Ok(Some((entry, behind))),
    }
}

// Adds what is printed of an event to lines, which it takes and gives back. The error is want of
// memory.
fn put_chosen<A: Allocator + Copy, B: Allocator>(
    alloc: A,
    choice: &Choice<B>,
    lines: Vec<u8, A>,
    tag: &[u8],
    entry: &[u8],
) -> Result<Vec<u8, A>, AllocError>
    requires short { length tag.now ≤ longest_tag }
    requires stored { IsStored entry.now }
    ensures { IfOk result
        (λ all. (text : List ℕ)
        × IsPrintedOf choice.now (record { tag = tag.now; entry = entry.now }) text
        × (all.items ≡ lines.items ++ text)) }
{
    let nanos = time_of(entry);
    if choice.takes(alloc, tag, nanos)? {
        let all = put_event(alloc, lines, tag, entry)?;
        Ok(all)
    } else {
        Ok(lines)
    }
}
