//! Items one after another, and pairs of them.

ghost use Rattle.std.specs.Prelude.{◌≡◌, ◌<◌, ◌-◌, ◌*◌, ◌∷◌, ◌++◌, length, Some};
ghost use Rattle.msgpack_bytes.specs.declared.answers.Head.TheVariants.{Array, Map};
ghost use Rattle.msgpack_bytes.specs.Answers.{IsHead};
ghost use Rattle.msgpack_bytes.specs.Containers.{IsArray, IsMap};
ghost use Rattle.msgpack_bytes.specs.Item.{IsItemWithin};
ghost use Rattle.event_modes.specs.Rows.{items_of, AreItems};
ghost use Rattle.event_listing.specs.Walking.{pairs_of};

use msgpack_bytes::next_item;

/// The first of items, and what is behind it.
#[derive(Clone, Copy)]
pub(crate) struct FirstItem<'a> {
    pub item: &'a [u8],
    pub rest: &'a [u8],
}

/// The first of pairs, and what is behind it.
#[derive(Clone, Copy)]
pub(crate) struct FirstPair<'a> {
    pub key: &'a [u8],
    pub value: &'a [u8],
    pub rest: &'a [u8],
}

/// The items of an array that has this head.
pub(crate) fn array_items(item: &[u8], count: u32, next: usize) -> &[u8]
    requires item { IsItemWithin item.now }
    requires head { IsHead item.now 0 (Some (Array count next)) }
    ensures items { AreItems count result.now }
    ensures array { IsArray (items_of count result.now) item.now }
    ensures shorter { length result.now < length item.now }
{
    item.split_at(next).1
}

/// The pairs of a map that has this head.
pub(crate) fn map_pairs(item: &[u8], count: u32, next: usize) -> &[u8]
    requires item { IsItemWithin item.now }
    requires head { IsHead item.now 0 (Some (Map count next)) }
    ensures items { AreItems (2 * count) result.now }
    ensures map { IsMap (pairs_of count result.now) item.now }
    ensures shorter { length result.now < length item.now }
{
    item.split_at(next).1
}

/// The first of so many items that the bytes are.
pub(crate) fn first_item(bytes: &[u8], count: usize) -> FirstItem<'_>
    requires some { 0 < count }
    requires items { AreItems count bytes.now }
    ensures item { IsItemWithin result.item.now }
    ensures whole { bytes.now ≡ result.item.now ++ result.rest.now }
    ensures first { items_of count bytes.now
        ≡ result.item.now ∷ items_of (count - 1) result.rest.now }
    ensures left { AreItems (count - 1) result.rest.now }
{
    match next_item(bytes) {
        Some((item, rest)) => FirstItem { item, rest },
        None => unreachable!(),
    }
}

/// The first of so many pairs that the bytes are.
pub(crate) fn first_pair(bytes: &[u8], count: usize) -> FirstPair<'_>
    requires some { 0 < count }
    requires few { 2 * count < 18446744073709551616 }
    requires items { AreItems (2 * count) bytes.now }
    ensures key { IsItemWithin result.key.now }
    ensures value { IsItemWithin result.value.now }
    ensures whole { bytes.now ≡ result.key.now ++ (result.value.now ++ result.rest.now) }
    ensures first { pairs_of count bytes.now
        ≡ record { key = result.key.now; value = result.value.now } ∷ pairs_of
        (count - 1) result.rest.now }
    ensures left { AreItems (2 * (count - 1)) result.rest.now }
{
    let first = first_item(bytes, 2 * count);
    let second = first_item(first.rest, 2 * count - 1);
    FirstPair {
        key: first.item,
        value: second.item,
        rest: second.rest,
    }
}
