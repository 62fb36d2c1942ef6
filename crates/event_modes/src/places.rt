//! The places of a message, and what stands there, as slices of it.

ghost use Rattle.std.specs.Prelude.{◌≡◌, ◌<◌, ◌⊎◌, ℕ, List, [], ◌∷◌, length, MatchOption};
ghost use Rattle.msgpack_bytes.specs.Item.{IsItemWithin};
ghost use Rattle.msgpack_bytes.specs.Containers.{IsArray};
ghost use Rattle.event_modes.specs.Message.{Frame, IsFrame};
ghost use Rattle.event_modes.specs.Places.{elements_list, carrier_of, frame_of, IsBulk, IsNoBulk};

use crate::item::array_of;
use crate::items::Items;
use msgpack_bytes::str_or_bin;

/// What carries the events of a message.
#[derive(Clone, Copy)]
pub enum Carried<'a> {
    Single { time: &'a [u8], fields: &'a [u8] },
    Forward(&'a [u8]),
    Packed(&'a [u8]),
}

/// What stands where.
#[derive(Clone, Copy)]
pub struct Places<'a> {
    pub tag: &'a [u8],
    pub carried: Carried<'a>,
    pub option: Option<&'a [u8]>,
}

/// The elements of an array that can be a message.
#[derive(Clone, Copy)]
pub enum Elements<'a> {
    Two(&'a [u8], &'a [u8]),
    Three(&'a [u8], &'a [u8], &'a [u8]),
    Four(&'a [u8], &'a [u8], &'a [u8], &'a [u8]),
}

fn elements_of(item: &[u8]) -> Option<Elements<'_>>
    requires { IsItemWithin item.now }
    ensures { MatchOption result
        ((items : List (List ℕ)) → IsArray items item.now → (length items < 2) ⊎ (4 < length items))
        (λ found. IsArray (elements_list found) item.now) }
{
    let mut items = array_of(item)?;
    let Some(first) = items.next() else {
        return None;
    };
    let Some(second) = items.next() else {
        return None;
    };
    elements_behind(first, second, items)
}

// The elements where those behind the second are these.
fn elements_behind<'a>(first: &'a [u8], second: &'a [u8], items: Items<'a>) -> Option<Elements<'a>>
    ensures { MatchOption result (2 < length items.entry)
        (λ found. elements_list found ≡ first.now ∷ second.now ∷ items.entry) }
{
    let mut items = items;
    let Some(third) = items.next() else {
        return Some(Elements::Two(first, second));
    };
    let Some(fourth) = items.next() else {
        return Some(Elements::Three(first, second, third));
    };
    if items.len() > 0 {
        return None;
    }
    Some(Elements::Four(first, second, third, fourth))
}

// The second element alone decides the mode.
fn bulk_of(second: &[u8]) -> Option<Carried<'_>>
    requires { IsItemWithin second.now }
    ensures { MatchOption result (IsNoBulk second.now)
        (λ carried. IsBulk second.now (carrier_of carried)) }
{
    if array_of(second).is_some() {
        return Some(Carried::Forward(second));
    }
    Some(Carried::Packed(str_or_bin(second)?))
}

/// The places of the mode that the item is of, if it is of one.
pub fn places_of(item: &[u8]) -> Option<Places<'_>>
    requires { IsItemWithin item.now }
    ensures { MatchOption result ((frame : Frame) → IsFrame item.now frame → ⊥)
        (λ places. IsFrame item.now (frame_of places)) }
{
    match elements_of(item)? {
        Elements::Two(tag, second) => {
            let carried = bulk_of(second)?;
            Some(Places {
                tag,
                carried,
                option: None,
            })
        }
        Elements::Three(tag, second, third) => Some(match bulk_of(second) {
            Some(carried) => Places {
                tag,
                carried,
                option: Some(third),
            },
            None => Places {
                tag,
                carried: Carried::Single {
                    time: second,
                    fields: third,
                },
                option: None,
            },
        }),
        Elements::Four(tag, second, third, fourth) => match bulk_of(second) {
            Some(_) => None,
            None => Some(Places {
                tag,
                carried: Carried::Single {
                    time: second,
                    fields: third,
                },
                option: Some(fourth),
            }),
        },
    }
}
