//! The message or the heartbeat that bytes begin with, or why there is none.

ghost use Rattle.std.specs.Prelude.{◌≡◌, ◌∷◌, ℕ, List, option_map, IfOk, MatchResult};
ghost use Rattle.msgpack_bytes.specs.Item.{IsItemWithin};
ghost use Rattle.msgpack_bytes.specs.Answers.{IsScanned};
ghost use Rattle.msgpack_bytes.specs.Kinds.{IsNil};
ghost use Rattle.event_modes.specs.Entry.{entry_header};
ghost use Rattle.event_modes.specs.Message.{IsTag, IsMessage};
ghost use Rattle.event_modes.specs.Faults.{ItemFault};
ghost use Rattle.event_modes.specs.Rows.{IsStored};
ghost use Rattle.event_modes.specs.Usual.{one_event};
ghost use Rattle.event_modes.specs.Ahead.{IsGiven};
ghost use Rattle.event_modes.specs.Places.{Finds};
ghost use Rattle.event_modes.specs.Pairs.{bytes_of};
ghost use Rattle.event_modes.specs.Reading.{Answer, meaning, answer_of, Answers, AnswersItem};

use crate::ahead::Ahead;
use crate::entries::entries_of;
use crate::fault::{FeedError, ModeFault};
use crate::item::is_nil;
use crate::message::{Entries, Message, Read};
use crate::option::ack_of;
use crate::places::places_of;
use crate::usual::{Usual, usual_of};
use msgpack_bytes::{Scan, scan, str_or_bin};
use std::alloc::{AllocError, Allocator};

/// How many bytes a tag has at most. A message with a longer one is refused.
pub const LONGEST_TAG: usize = 1024;

/// Reads the message or the heartbeat that the bytes begin with (Forward Protocol Specification v1,
/// "Message Modes").
///
/// The answer is the only one that holds of the bytes. An `Err` comes only where there was no
/// memory.
pub fn read<A: Allocator + Copy>(alloc: A, bytes: &[u8]) -> Result<Read<A>, AllocError>
    ensures right { IfOk result (λ found. Answers bytes.now (answer_of found)) }
    ensures only { (other : Answer) → Answers bytes.now other
        → IfOk result (λ found. other ≡ answer_of found) }
{
    read_scanned(alloc, bytes, scan(bytes, 0))
}

/// Reads the same of bytes of which some were scanned before. What was scanned is kept, with an
/// `Err` too.
pub(crate) fn read_on<A: Allocator + Copy>(
    alloc: A,
    ahead: &mut Ahead,
    bytes: &[u8],
) -> Result<Read<A>, AllocError>
    requires { IsGiven ahead.old bytes.now }
    ensures right { IfOk result (λ found. Answers bytes.now (answer_of found)) }
    ensures given { IsGiven ahead.new bytes.now }
{
    let found = ahead.scan(bytes);
    read_scanned(alloc, bytes, found)
}

// Reads the same where the scan found this.
fn read_scanned<A: Allocator + Copy>(
    alloc: A,
    bytes: &[u8],
    found: Scan,
) -> Result<Read<A>, AllocError>
    requires { IsScanned bytes.now 0 found }
    ensures { IfOk result (λ found. Answers bytes.now (answer_of found)) }
{
    match found {
        Scan::End(end) => read_item(alloc, bytes.split_at(end).0),
        Scan::Need => Ok(Read::Need),
        Scan::Bad(fault) => Ok(Read::Bad(ModeFault::Bytes(fault))),
    }
}

fn read_item<A: Allocator + Copy>(alloc: A, item: &[u8]) -> Result<Read<A>, AllocError>
    requires { IsItemWithin item.now }
    ensures { IfOk result (λ found. AnswersItem item.now (answer_of found)) }
{
    if is_nil(item) {
        return Ok(Read::Heartbeat(item.len()));
    }
    match message_of(alloc, item) {
        Ok(message) => Ok(Read::Message(message, item.len())),
        Err(FeedError::Fault(fault)) => Ok(Read::Bad(fault)),
        Err(FeedError::Memory) => Err(AllocError),
    }
}

fn message_of<A: Allocator + Copy>(alloc: A, item: &[u8]) -> Result<Message<A>, FeedError>
    requires item { IsItemWithin item.now }
    requires some { IsNil item.now → ⊥ }
    ensures { Finds (λ found. IsMessage item.now (meaning found)) (ItemFault item.now) result }
{
    match usual_of(item) {
        Some(usual) => Ok(copied(alloc, usual)?),
        None => walked(alloc, item),
    }
}

// The same message, with the bytes that it keeps.
fn copied<A: Allocator + Copy>(alloc: A, usual: Usual<'_>) -> Result<Message<A>, AllocError>
    requires { IsStored (entry_header ∷ usual.event.now) }
    ensures { IfOk result
        (λ found. meaning found ≡ one_event usual.entry.tag.now usual.entry.event.now) }
{
    Ok(Message {
        tag: Vec::from_slice(alloc, usual.tag)?,
        entries: Entries::of_event(alloc, usual.event)?,
        ack: None,
    })
}

// The message, by a walk over its elements.
fn walked<A: Allocator + Copy>(alloc: A, item: &[u8]) -> Result<Message<A>, FeedError>
    requires item { IsItemWithin item.now }
    requires some { IsNil item.now → ⊥ }
    ensures { Finds (λ found. IsMessage item.now (meaning found)) (ItemFault item.now) result }
{
    let Some(places) = places_of(item) else {
        return Err(FeedError::Fault(ModeFault::NotAMessage));
    };
    let tag = tag_of(places.tag)?;
    let entries = entries_of(alloc, places.carried)?;
    let ack = ack_of(places.option)?;
    Ok(Message {
        tag: Vec::from_slice(alloc, tag)?,
        entries,
        ack: copy_of(alloc, ack)?,
    })
}

fn tag_of(tag: &[u8]) -> Result<&[u8], ModeFault>
    requires { IsItemWithin tag.now }
    ensures { MatchResult result (λ content. IsTag tag.now content.now)
        (λ fault. (fault ≡ ModeFault.BadTag) × ((content : List ℕ) → IsTag tag.now content → ⊥)) }
{
    let Some(content) = str_or_bin(tag) else {
        return Err(ModeFault::BadTag);
    };
    if content.len() > LONGEST_TAG {
        return Err(ModeFault::BadTag);
    }
    Ok(content)
}

fn copy_of<A: Allocator>(alloc: A, item: Option<&[u8]>) -> Result<Option<Vec<u8, A>>, AllocError>
    ensures { IfOk result (λ copy. option_map (λ v. v.items) copy ≡ bytes_of item.entry) }
{
    match item {
        Some(item) => Ok(Some(Vec::from_slice(alloc, item)?)),
        None => Ok(None),
    }
}
