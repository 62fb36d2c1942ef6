//! Chunks: events of one tag that wait to be delivered together.

ghost use Rattle.std.specs.Prelude.{map, ◌≡◌, ◌≤◌, ℕ, length, option_map, None, Some, IfOk, IfSome, OnOk, OnErr, IsTrue, ◌↔◌, IsSomeAnd};
ghost use Rattle.std.specs.Option.{ForSome, option_and_then};
ghost use Rattle.step_lines.specs.Texts.{texts_of};
ghost use Rattle.custody_store.specs.Buffers.{IsInChunk, is_queued};
ghost use Rattle.custody_store.specs.Contents.{chunk_at, stored_events, longer, look_of, parts_of};
ghost use Rattle.custody_store.specs.Copies.{copied_parts};
ghost use Rattle.custody_store.specs.Marks.{stage_at as restored, kept_at as to_keep, restaged, evident, sent_on, is_since, first_of, slot_from, IsSlotBelow};

use crate::event::{Event, copy_events, copy_texts, has_text};
use std::alloc::{AllocError, Allocator};
use tag_pattern::Tag;

/// What a chunk waits for.
#[derive(Clone, Copy, Debug, PartialEq, Eq)]
pub enum Stage {
    /// It still grows.
    Staged,
    /// It is to be claimed.
    Queued,
    /// It is being delivered.
    Claimed,
}

/// What may be asked of a live chunk.
#[derive(Clone, Copy, PartialEq, Eq)]
pub struct Look {
    /// What it waits for.
    pub stage: Stage,
    /// Since its relay's last restart there was evidence that it is delivered.
    pub evidence: bool,
    /// Since its relay's last restart it was forwarded.
    pub forwarded: bool,
    /// How many entries it has.
    pub count: usize,
}

/// A stage, where a claim tells in which generation it came: a later one ends it.
#[derive(Clone, Copy)]
pub(crate) enum Kept {
    Staged,
    Queued,
    Claimed(usize),
}

/// A live chunk. Evidence, and that it was forwarded, are kept with the generation in which they
/// came: a later one ends them.
#[derive(Drop)]
pub(crate) struct Chunk<A: Allocator> {
    pub tag: Tag<A>,
    pub entries: Vec<Vec<u8, A>, A>,
    pub stage: Kept,
    pub evidence: Option<usize>,
    pub forwarded: Option<usize>,
}

/// The stage as it is in this generation.
pub(crate) fn stage_at(kept: Kept, now: usize) -> Stage
    ensures { result ≡ restored now kept }
{
    match kept {
        Kept::Staged => Stage::Staged,
        Kept::Queued => Stage::Queued,
        Kept::Claimed(since) => {
            if since == now {
                Stage::Claimed
            } else {
                Stage::Queued
            }
        }
    }
}

/// The stage, kept in this generation.
pub(crate) fn kept_at(stage: Stage, now: usize) -> Kept
    ensures { result ≡ to_keep now stage }
{
    match stage {
        Stage::Staged => Kept::Staged,
        Stage::Queued => Kept::Queued,
        Stage::Claimed => Kept::Claimed(now),
    }
}

/// Whether the mark is of this generation.
pub(crate) fn is_marked(mark: Option<usize>, now: usize) -> bool
    ensures { result ≡ is_since now mark }
{
    match mark {
        Some(since) => since == now,
        None => false,
    }
}

/// Puts the chunk, if there is one, into this stage.
pub(crate) fn restage<A: Allocator>(slot: &mut Option<Chunk<A>>, kept: Kept)
    ensures { slot.new ≡ option_map (restaged kept) slot.old }
{
    if let Some(chunk) = slot {
        chunk.stage = kept;
    }
}

/// Marks the chunk, if there is one, as forwarded in this generation.
pub(crate) fn mark_forwarded<A: Allocator>(slot: &mut Option<Chunk<A>>, now: usize)
    ensures { slot.new ≡ option_map (sent_on now) slot.old }
{
    if let Some(chunk) = slot {
        chunk.forwarded = Some(now);
    }
}

/// Gives the chunk, if there is one, evidence in this generation.
pub(crate) fn prove_delivered<A: Allocator>(slot: &mut Option<Chunk<A>>, now: usize)
    ensures { slot.new ≡ option_map (evident now) slot.old }
{
    if let Some(chunk) = slot {
        chunk.evidence = Some(now);
    }
}

/// Whether there is a staged chunk of this tag, in this generation.
pub(crate) fn is_staged_of<A: Allocator>(slot: &Option<Chunk<A>>, tag: &[u8], now: usize) -> bool
    ensures { IsTrue result
        ↔ IsSomeAnd (slot_from now slot.now)
        (λ chunk. (chunk.stage ≡ Stage.Staged) × (chunk.tag ≡ tag.now)) }
{
    match slot {
        Some(chunk) => stage_at(chunk.stage, now) == Stage::Staged && chunk.tag.as_bytes() == tag,
        None => false,
    }
}

/// Whether there is a chunk, and it is queued in this generation.
pub(crate) fn waits<A: Allocator>(slot: &Option<Chunk<A>>, now: usize) -> bool
    ensures { result ≡ is_queued (slot_from now slot.now) }
{
    match slot {
        Some(chunk) => stage_at(chunk.stage, now) == Stage::Queued,
        None => false,
    }
}

/// Whether the chunk, if there is one, has the entry under this tag.
pub(crate) fn has_entry<A: Allocator>(slot: &Option<Chunk<A>>, tag: &[u8], entry: &[u8]) -> bool
    ensures { (now : ℕ) → IsTrue result
        ↔ IsSomeAnd (slot_from now slot.now)
        (λ chunk. IsInChunk chunk (record { tag = tag.now; entry = entry.now })) }
{
    match slot {
        Some(chunk) => chunk.tag.as_bytes() == tag && has_text(chunk.entries.as_slice(), entry),
        None => false,
    }
}

/// Whether one of the chunks has the entry under this tag.
pub(crate) fn have_entry<A: Allocator>(
    chunks: &[Option<Chunk<A>>],
    tag: &[u8],
    entry: &[u8],
) -> bool
    ensures { (now : ℕ) → IsTrue result
        ↔ ((serial : ℕ) × IsSomeAnd (chunk_at (map (slot_from now) chunks.now) serial)
        (λ chunk. IsInChunk chunk (record { tag = tag.now; entry = entry.now }))) }
{
    for slot in chunks {
        if has_entry(slot, tag, entry) {
            return true;
        }
    }
    false
}

/// The chunk's tag, if the entry is at this place among its entries.
pub(crate) fn tag_in<'a, A: Allocator>(
    slot: &'a Option<Chunk<A>>,
    index: usize,
    entry: &[u8],
) -> Option<&'a [u8]>
    ensures { IfSome result
        (λ tag. (now : ℕ) → IsSomeAnd (slot_from now slot.now)
        (λ chunk. IsInChunk chunk (record { tag = tag.now; entry = entry.now }))) }
{
    let Some(chunk) = slot else {
        return None;
    };
    if chunk.entries.get(index)?.as_slice() == entry {
        Some(chunk.tag.as_bytes())
    } else {
        None
    }
}

/// As far as the chunk, if there is one, is asked for in this generation.
pub(crate) fn look_at<A: Allocator>(slot: &Option<Chunk<A>>, now: usize) -> Option<Look>
    ensures { result ≡ option_map look_of (slot_from now slot.now) }
{
    match slot {
        Some(chunk) => Some(Look {
            stage: stage_at(chunk.stage, now),
            evidence: is_marked(chunk.evidence, now),
            forwarded: is_marked(chunk.forwarded, now),
            count: chunk.entries.len(),
        }),
        None => None,
    }
}

/// A copy of what a chunk delivers.
#[derive(Drop)]
pub struct Copied<A: Allocator> {
    /// Its tag.
    pub tag: Tag<A>,
    /// Its entries, in their order.
    pub entries: Vec<Vec<u8, A>, A>,
}

/// A copy of the chunk, if there is one.
pub(crate) fn copy_of<A: Allocator + Copy>(
    alloc: A,
    slot: &Option<Chunk<A>>,
) -> Result<Option<Copied<A>>, AllocError>
    ensures { IfOk result
        (λ copied. (now : ℕ)
        → option_map copied_parts copied ≡ option_map parts_of (slot_from now slot.now)) }
{
    match slot {
        Some(chunk) => Ok(Some(Copied {
            tag: chunk.tag.copied(alloc)?,
            entries: copy_texts(alloc, chunk.entries.as_slice())?,
        })),
        None => Ok(None),
    }
}

/// Moves the entries to the chunk's end, if there is one. An `Err` changes nothing.
pub(crate) fn extend<A: Allocator>(
    slot: &mut Option<Chunk<A>>,
    entries: &mut Vec<Vec<u8, A>, A>,
) -> Result<(), AllocError>
    ensures ok { OnOk result
        ((now : ℕ) → slot_from now slot.new
        ≡ option_and_then (longer (texts_of entries.old.items)) (slot_from now slot.old)) }
    ensures marks { (count : ℕ) → IsSlotBelow count slot.old → IsSlotBelow count slot.new }
    ensures err { OnErr result ((now : ℕ) → slot_from now slot.new ≡ slot_from now slot.old) }
{
    if let Some(chunk) = slot {
        chunk.entries.append(entries)?;
    }
    Ok(())
}

/// Lets the chunk go, if there is one.
pub(crate) fn remove<A: Allocator>(slot: &mut Option<Chunk<A>>)
    ensures { slot.new ≡ None }
{
    *slot = None;
}

/// The first entries of the chunk, so many of them, as events. None where there is no chunk.
pub(crate) fn first_events<A: Allocator + Copy>(
    alloc: A,
    slot: &Option<Chunk<A>>,
    count: usize,
) -> Result<Vec<Event<A>, A>, AllocError>
    requires { ForSome slot.now (λ chunk. count ≤ length chunk.entries.items) }
    ensures { IfOk result (λ events. stored_events events.items ≡ first_of slot.now count) }
{
    match slot {
        Some(chunk) => copy_events(alloc, chunk.tag.as_bytes(), &chunk.entries[..count]),
        None => Ok(Vec::new(alloc)),
    }
}
