//! The parts of an item, as slices of it.

ghost use Rattle.std.specs.Prelude.{◌≡◌, ◌↔◌, ℕ, ℤ, List, MatchOption, IsTrue};
ghost use Rattle.msgpack_bytes.specs.Item.{IsItemWithin};
ghost use Rattle.msgpack_bytes.specs.Kinds.{IsNil, IsInteger};
ghost use Rattle.msgpack_bytes.specs.Containers.{Pair, pair_items, IsArray, IsMap};
ghost use Rattle.event_modes.specs.Pairs.{ArePairs};
ghost use Rattle.event_modes.specs.Entry.{IsTime, IsEventTime, IsRecord};

use crate::items::Items;
use msgpack_bytes::{Head, head};

/// The items of an array.
pub fn array_of(item: &[u8]) -> Option<Items<'_>>
    requires { IsItemWithin item.now }
    ensures { MatchOption result ((items : List (List ℕ)) → IsArray items item.now → ⊥)
        (λ items. IsArray items item.now) }
{
    match head(item, 0)? {
        Head::Array { count, next } => Some(Items::new(item.split_at(next).1, count as usize)),
        _ => None,
    }
}

/// The keys and values of a map, one after another.
pub fn map_of(item: &[u8]) -> Option<Items<'_>>
    requires { IsItemWithin item.now }
    ensures { MatchOption result ((pairs : List Pair) → IsMap pairs item.now → ⊥)
        (λ items. (pairs : List Pair) × IsMap pairs item.now × (items ≡ pair_items pairs)
        × ArePairs items) }
{
    match head(item, 0)? {
        Head::Map { count, next } => Some(Items::new(item.split_at(next).1, 2 * count as usize)),
        _ => None,
    }
}

/// Whether the item is a nil.
pub fn is_nil(item: &[u8]) -> bool
    ensures { IsTrue result ↔ IsNil item.now }
{
    item.len() == 1 && item[0] == 0xc0
}

/// An integer or an EventTime, whose ext has one of two headers.
pub fn is_time(item: &[u8]) -> bool
    requires { IsItemWithin item.now }
    ensures { IsTrue result ↔ IsTime item.now }
{
    is_event_time(item) || is_integer(item)
}

fn is_integer(item: &[u8]) -> bool
    requires { IsItemWithin item.now }
    ensures { IsTrue result ↔ ((seconds : ℤ) × IsInteger item.now seconds) }
{
    match head(item, 0) {
        Some(head) => matches!(head, Head::Int(_)),
        None => false,
    }
}

fn is_event_time(item: &[u8]) -> bool
    ensures { IsTrue result ↔ IsEventTime item.now }
{
    match item {
        [0xd7, 0, rest @ ..] => rest.len() == 8,
        [0xc7, 8, 0, rest @ ..] => rest.len() == 8,
        _ => false,
    }
}

/// Whether the item is a record.
pub fn is_record(item: &[u8]) -> bool
    requires { IsItemWithin item.now }
    ensures { IsTrue result ↔ IsRecord item.now }
{
    map_of(item).is_some()
}
