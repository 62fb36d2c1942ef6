//! The tags under which something is held.

ghost use Rattle.std.specs.Prelude.{◌≡◌, List, ℕ, OnOk};
ghost use Rattle.step_lines.specs.Texts.{texts_of};
ghost use Rattle.custody_store.specs.Contents.{buffer_of};
ghost use Rattle.custody_store.specs.Tags.{Covers, OfOne, IsTagOfSlot, HoldsUnder};

use crate::buffer::Buffer;
use crate::chunk::Chunk;
use crate::event::{Event, has_text};
use crate::places::Place;
use std::alloc::{AllocError, Allocator};

// Adds the tag, unless it is there.
fn add_tag<A: Allocator + Copy>(tags: &mut Vec<Vec<u8, A>, A>, tag: &[u8]) -> Result<(), AllocError>
    ensures { OnOk result
        (Covers (λ t. t ≡ tag.now) (texts_of tags.old.items) (texts_of tags.new.items)) }
{
    if has_text(tags.as_slice(), tag) {
        return Ok(());
    }
    let copy = Vec::from_slice(*tags.allocator(), tag)?;
    tags.push(copy)?;
    Ok(())
}

/// Adds the tags of the chunks.
pub(crate) fn add_chunk_tags<A: Allocator + Copy>(
    tags: &mut Vec<Vec<u8, A>, A>,
    chunks: &[Option<Chunk<A>>],
) -> Result<(), AllocError>
    ensures { OnOk result
        (Covers (OfOne IsTagOfSlot chunks.now) (texts_of tags.old.items)
        (texts_of tags.new.items)) }
{
    for slot in chunks {
        add_slot_tag(tags, slot)?;
    }
    Ok(())
}

// Adds the tag of the chunk, if there is one.
fn add_slot_tag<A: Allocator + Copy>(
    tags: &mut Vec<Vec<u8, A>, A>,
    slot: &Option<Chunk<A>>,
) -> Result<(), AllocError>
    ensures { OnOk result
        (Covers (IsTagOfSlot slot.now) (texts_of tags.old.items) (texts_of tags.new.items)) }
{
    match slot {
        Some(chunk) => add_tag(tags, chunk.tag.as_bytes()),
        None => Ok(()),
    }
}

/// Adds the tags of the events.
pub(crate) fn add_event_tags<A: Allocator + Copy>(
    tags: &mut Vec<Vec<u8, A>, A>,
    events: &[Event<A>],
) -> Result<(), AllocError>
    ensures { OnOk result
        (Covers (OfOne (λ event t. event.tag.items ≡ t) events.now) (texts_of tags.old.items)
        (texts_of tags.new.items)) }
{
    for event in events {
        add_tag(tags, event.tag.as_slice())?;
    }
    Ok(())
}

/// Adds the tags under which the relays' buffers or their sinks hold something.
pub(crate) fn add_place_tags<A: Allocator + Copy>(
    tags: &mut Vec<Vec<u8, A>, A>,
    places: &[Place<A>],
) -> Result<(), AllocError>
    ensures { OnOk result
        (Covers (OfOne (λ place t. OfOne
        (λ buffer u. HoldsUnder (buffer_of buffer) u) place.buffers.items t) places.now)
        (texts_of tags.old.items) (texts_of tags.new.items)) }
{
    for place in places {
        add_buffer_tags(tags, place.buffers.as_slice())?;
    }
    Ok(())
}

// The same of these buffers.
fn add_buffer_tags<A: Allocator + Copy>(
    tags: &mut Vec<Vec<u8, A>, A>,
    buffers: &[Buffer<A>],
) -> Result<(), AllocError>
    ensures { OnOk result
        (Covers (OfOne (λ buffer t. HoldsUnder (buffer_of buffer) t) buffers.now)
        (texts_of tags.old.items) (texts_of tags.new.items)) }
{
    for buffer in buffers {
        buffer.add_tags(tags)?;
    }
    Ok(())
}
