//! The search for the messages that passed an entry on to where it is kept: one more, until there
//! is none.

ghost use Rattle.std.specs.Prelude.{◌↔◌, ℕ, IfOk, IsTrue};
ghost use Rattle.custody_store.specs.Branches.{buffers_of, EachKeeps};
ghost use Rattle.custody_store.specs.Searches.{AreSettled, IsDone, IsNewOrDone, IsNext};

use crate::branch::Seen;
use crate::{Book, Places};
use relay_net::Net;
use std::alloc::{AllocError, Allocator};

/// Whether an event of a message with this tag, sent to this host and port, comes to a buffer, and
/// each buffer that it comes to keeps the entry: has it in a live chunk or in its sink, or was
/// given an acknowledgement of a message with it whose events are kept so. It goes through all
/// messages once for each that is found to be kept. The only error is want of memory.
pub fn each_branch_keeps<A: Allocator + Copy>(
    alloc: A,
    net: &Net<A>,
    places: &Places<A>,
    book: &Book<A>,
    host: &[u8],
    port: u16,
    tag: &[u8],
    entry: &[u8],
) -> Result<bool, AllocError>
    ensures { IfOk result
        (λ yes. IsTrue yes ↔ EachKeeps net.now (buffers_of places.now) book.now.messages
        (record { host = host.now; port = port }) tag.now entry.now) }
{
    let seen = Seen {
        alloc,
        net,
        places,
        book,
        entry,
    };
    let kept = settle(&seen)?;
    seen.each_keeps(host, port, tag, &kept)
}

// The numbers of the messages that passed the entry on to where it is kept.
fn settle<A: Allocator + Copy>(seen: &Seen<'_, A>) -> Result<Vec<usize, A>, AllocError>
    ensures settled { IfOk result
        (λ kept. AreSettled seen.now.net.now
        (buffers_of seen.now.places.now) seen.now.book.now.messages seen.now.entry.now kept.items) }
    ensures all { IfOk result
        (λ kept. (number : ℕ)
        → IsDone seen.now.net.now
        (buffers_of seen.now.places.now) seen.now.book.now.messages seen.now.entry.now kept.items
        number) }
{
    let mut kept = Vec::new(seen.alloc);
    let mut next = next_settled(seen, &kept)?;
    while let Some(number) = next {
        kept.push(number)?;
        next = next_settled(seen, &kept)?;
    }
    Ok(kept)
}

// The number of a message besides those of these numbers that passed the entry on to where it is
// kept, as far as those are known to have done so.
fn next_settled<A: Allocator + Copy>(
    seen: &Seen<'_, A>,
    kept: &[usize],
) -> Result<Option<usize>, AllocError>
    ensures { IfOk result
        (IsNext seen.now.net.now
        (buffers_of seen.now.places.now) seen.now.book.now.messages seen.now.entry.now kept.now) }
{
    for number in 0..seen.book.message_count() {
        if is_new(seen, kept, number)? {
            return Ok(Some(number));
        }
    }
    Ok(None)
}

// Whether the message of this number is such a one. Where it isn't, it is among these, or didn't do
// so as far as is known.
fn is_new<A: Allocator + Copy>(
    seen: &Seen<'_, A>,
    kept: &[usize],
    number: usize,
) -> Result<bool, AllocError>
    ensures { IfOk result
        (IsNewOrDone seen.now.net.now
        (buffers_of seen.now.places.now) seen.now.book.now.messages seen.now.entry.now kept.now
        number) }
{
    if kept.contains(&number) {
        return Ok(false);
    }
    match seen.book.message(number) {
        Some(message) => seen.is_settled(message, kept),
        None => Ok(false),
    }
}
