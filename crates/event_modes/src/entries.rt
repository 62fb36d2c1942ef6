//! The events that a message carries, as they are stored.

ghost use Rattle.std.specs.Prelude.{◌≡◌, ◌++◌, ◌⊎◌, ℕ, List, MatchResult, IsTrue, ◌↔◌};
ghost use Rattle.msgpack_bytes.specs.Item.{IsItemWithin};
ghost use Rattle.msgpack_bytes.specs.Containers.{IsArray};
ghost use Rattle.event_modes.specs.Message.{Carrier, Single, Forward, Packed, Carries};
ghost use Rattle.event_modes.specs.Faults.{CarriedFault, EntryFault, PackedEnd};
ghost use Rattle.event_modes.specs.Rows.{IsAdded, IsStored, SomeEntries};
ghost use Rattle.event_modes.specs.Places.{carrier_of, CanCarry, Finds};

use crate::entry::{ENTRY_HEADER, entry_of, event_of};
use crate::fault::{FeedError, ModeFault};
use crate::item::array_of;
use crate::message::Entries;
use crate::places::Carried;
use crate::usual::is_usual_entry;
use msgpack_bytes::{Scan, scan};
use std::alloc::Allocator;

/// The events in their order, or the first fault in them.
pub fn entries_of<A: Allocator>(alloc: A, carried: Carried<'_>) -> Result<Entries<A>, FeedError>
    requires { CanCarry (carrier_of carried) }
    ensures { Finds (Carries (carrier_of carried.entry))
        (CarriedFault (carrier_of carried.entry)) result }
{
    match carried {
        Carried::Single { time, fields } => single(alloc, time, fields),
        Carried::Forward(array) => forward(alloc, array),
        Carried::Packed(content) => packed(alloc, content),
    }
}

fn single<A: Allocator>(alloc: A, time: &[u8], fields: &[u8]) -> Result<Entries<A>, FeedError>
    requires { CanCarry (Single time.now fields.now) }
    ensures { Finds (Carries (Single time.now fields.now))
        (CarriedFault (Single time.now fields.now)) result }
{
    event_of(time, fields)?;
    let mut entries = Entries::new(alloc);
    entries.push(time, fields)?;
    Ok(entries)
}

fn forward<A: Allocator>(alloc: A, array: &[u8]) -> Result<Entries<A>, FeedError>
    requires { CanCarry (Forward array.now) }
    ensures { Finds (Carries (Forward array.now)) (CarriedFault (Forward array.now)) result }
{
    let mut entries = Entries::new(alloc);
    let Some(mut items) = array_of(array) else {
        unreachable!();
    };
    while let Some(entry) = items.next() {
        add(&mut entries, entry)?;
    }
    Ok(entries)
}

fn packed<A: Allocator>(alloc: A, content: &[u8]) -> Result<Entries<A>, FeedError>
    ensures { Finds (Carries (Packed content.now)) (CarriedFault (Packed content.now)) result }
{
    let mut entries = Entries::new(alloc);
    let mut rest = content;
    while !rest.is_empty() {
        let (entry, behind) = packed_entry(rest)?;
        add(&mut entries, entry)?;
        rest = behind;
    }
    Ok(entries)
}

// Adds the event of an entry, as it is stored.
fn add<A: Allocator>(entries: &mut Entries<A>, entry: &[u8]) -> Result<(), FeedError>
    requires { IsItemWithin entry.now }
    ensures { Finds (λ _. IsAdded entry.now entries.old entries.new)
        (EntryFault entry.now) result }
{
    if is_usual_entry(entry) {
        entries.push_stored(entry)?;
        return Ok(());
    }
    let event = entry_of(entry)?;
    entries.push(event.time, event.fields)?;
    Ok(())
}

// The next of packed entries, and what is behind it. Nesting is counted anew for each.
fn packed_entry(rest: &[u8]) -> Result<(&[u8], &[u8]), ModeFault>
    ensures { MatchResult result
        (λ found. IsItemWithin found.0.now × (rest.now ≡ found.0.now ++ found.1.now))
        (PackedEnd rest.now) }
{
    match scan(rest, 0) {
        Scan::End(end) => Ok(rest.split_at(end)),
        Scan::Need => Err(ModeFault::TornPacked),
        Scan::Bad(fault) => Err(ModeFault::Bytes(fault)),
    }
}

/// Whether the bytes are so many stored entries and nothing else.
pub fn are_stored(bytes: &[u8], count: usize) -> bool
    ensures { IsTrue result ↔ SomeEntries count bytes.now }
{
    let mut rest = bytes;
    let mut left = count;
    while !rest.is_empty() {
        let Ok((entry, behind)) = packed_entry(rest) else {
            return false;
        };
        if left == 0 {
            return false;
        }
        if !is_stored(entry) {
            return false;
        }
        rest = behind;
        left -= 1;
    }
    left == 0
}

fn is_stored(entry: &[u8]) -> bool
    requires { IsItemWithin entry.now }
    ensures { IsTrue result ↔ IsStored entry.now }
{
    entry[0] == ENTRY_HEADER && entry_of(entry).is_ok()
}
