//! The option of a message, and the pairs of a map.

ghost use Rattle.std.specs.Prelude.{◌≡◌, ℕ, List, IsTrue, ◌↔◌, MatchOption, MatchResult, IfSome};
ghost use Rattle.std.specs.List.{AllByRecursion};
ghost use Rattle.msgpack_bytes.specs.Item.{IsItemWithin};
ghost use Rattle.msgpack_bytes.specs.Kinds.{IsText};
ghost use Rattle.msgpack_bytes.specs.Containers.{Pair, pair_items};
ghost use Rattle.msgpack_bytes.specs.Names.{HasNoKey};
ghost use Rattle.event_modes.specs.Options.{IsChunk, IsUncompressed, IsFit, IsOption};
ghost use Rattle.event_modes.specs.Pairs.{ArePairs, pair_of, bytes_of};
ghost use Rattle.event_modes.specs.Lasts.{IsLast};
ghost use Rattle.event_modes.specs.Faults.{PairFault, OptionFault, FirstBad};

use crate::fault::ModeFault;
use crate::item::{is_nil, map_of};
use crate::items::Items;
use msgpack_bytes::{is_text, str_or_bin};

/// The most bytes of a chunk's item.
const LONGEST_CHUNK: usize = 1024;

/// The item that the option asks to be acknowledged, after each of its pairs was examined.
pub fn ack_of(option: Option<&[u8]>) -> Result<Option<&[u8]>, ModeFault>
    requires { IfSome option (λ bytes. IsItemWithin bytes.now) }
    ensures { MatchResult result
        (λ ack. IsOption (bytes_of option.entry) (bytes_of ack))
        (OptionFault (bytes_of option.entry)) }
{
    let Some(option) = option else {
        return Ok(None);
    };
    if is_nil(option) {
        return Ok(None);
    }
    let Some(pairs) = map_of(option) else {
        return Err(ModeFault::BadOption);
    };
    examine(pairs)?;
    let Some(pairs) = map_of(option) else {
        return Err(ModeFault::BadOption);
    };
    let Some(last) = last_value(pairs, b"chunk") else {
        return Ok(None);
    };
    if is_nil(last.value) {
        return Ok(None);
    }
    Ok(Some(last.value))
}

// The first bad pair.
fn examine(items: Items<'_>) -> Result<(), ModeFault>
    requires { ArePairs items }
    ensures { (pairs : List Pair) → items.entry ≡ pair_items pairs
        → MatchResult result (λ _. AllByRecursion IsFit pairs)
        (λ fault. FirstBad IsFit (PairFault fault) pairs) }
{
    let mut items = items;
    while let Some(key) = items.next() {
        let Some(value) = items.next() else {
            break;
        };
        examine_pair(key, value)?;
    }
    Ok(())
}

fn examine_pair(key: &[u8], value: &[u8]) -> Result<(), ModeFault>
    requires key { IsItemWithin key.now }
    requires value { IsItemWithin value.now }
    ensures { MatchResult result (λ _. IsFit (pair_of key.now value.now))
        (λ fault. PairFault fault (pair_of key.now value.now)) }
{
    if is_text(key, b"chunk") && !is_chunk(value) {
        return Err(ModeFault::BadOption);
    }
    if is_text(key, b"compressed") && !is_uncompressed(value) {
        return Err(ModeFault::Compressed);
    }
    Ok(())
}

fn is_chunk(value: &[u8]) -> bool
    requires { IsItemWithin value.now }
    ensures { IsTrue result ↔ IsChunk value.now }
{
    is_nil(value) || str_or_bin(value).is_some() && value.len() <= LONGEST_CHUNK
}

fn is_uncompressed(value: &[u8]) -> bool
    requires { IsItemWithin value.now }
    ensures { IsTrue result ↔ IsUncompressed value.now }
{
    is_nil(value) || is_text(value, b"text")
}

/// The value of the last key of a name.
#[derive(Clone, Copy)]
pub struct LastValue<'a> {
    pub value: &'a [u8],
    /// How many bytes stand behind it in the map.
    pub behind: usize,
}

/// The value of the last key of this name.
pub fn last_value<'a>(items: Items<'a>, name: &[u8]) -> Option<LastValue<'a>>
    requires { ArePairs items }
    ensures { (pairs : List Pair) → items.entry ≡ pair_items pairs
        → MatchOption result (HasNoKey name.now pairs) (IsLast name.now pairs) }
{
    let mut items = items;
    let mut last = None;
    while let Some(key) = items.next() {
        let Some(value) = items.next() else {
            break;
        };
        if is_text(key, name) {
            last = Some(LastValue {
                value,
                behind: items.bytes_left(),
            });
        }
    }
    last
}
