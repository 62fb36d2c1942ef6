//! Items one after another, as slices.

ghost use Rattle.std.specs.Prelude.{◌≡◌, ◌<◌, ◌++◌, length};
ghost use Rattle.std.specs.List.{concat};
ghost use Rattle.msgpack_bytes.specs.Item.{IsItemWithin};
ghost use Rattle.event_modes.specs.Rows.{items_of, AreItems};

use msgpack_bytes::{Scan, scan};
use std::marker::Model;

// The first of so many items, and what is behind it. The last one is all that is there, so it isn't
// scanned.
fn first_item(bytes: &[u8], count: usize) -> (&[u8], &[u8])
    requires some { 0 < count }
    requires items { AreItems count bytes.now }
    ensures item { IsItemWithin result.0.now }
    ensures whole { bytes.now ≡ result.0.now ++ result.1.now }
{
    if count == 1 {
        return bytes.split_at(bytes.len());
    }
    match scan(bytes, 0) {
        Scan::End(end) => bytes.split_at(end),
        _ => unreachable!(),
    }
}

/// Items that stand one after another, each as its bytes. Contracts see the list of those that are
/// left.
#[derive(Drop)]
pub struct Items<'a> {
    bytes: &'a [u8],
    count: usize,
}

impl<'a> Model for Items<'a> {
    ghost use Rattle.std.specs.Prelude.{List, ℕ};
    ghost use Rattle.event_modes.specs.Rows.{items_of, AreItems};

    ghost Value = { List (List ℕ) };

    ghost view = { λ s. items_of s.count s.bytes.now };

    ghost invariant = { λ s. AreItems s.count s.bytes.now };
}

impl<'a> Items<'a> {
    /// The items that lie in these bytes, so many of them.
    pub(crate) fn new(bytes: &'a [u8], count: usize) -> Self
        requires { AreItems count bytes.now }
        ensures { result ≡ items_of count bytes.now }
    {
        Items { bytes, count }
    }

    /// How many bytes are left.
    pub fn bytes_left(&self) -> usize
        ensures { result ≡ length (concat self.now) }
    {
        self.bytes.len()
    }

    /// How many are left.
    pub fn len(&self) -> usize
        ensures { result ≡ length self.now }
    {
        self.count
    }
}

impl<'a> Iterator for Items<'a> {
    type Item = &'a [u8];

    ghost use Rattle.std.specs.Iterator.{YieldsFirstRef, item_count};

    ghost next_gives = { YieldsFirstRef (λ s. s) };

    ghost remaining = { item_count (λ s. s) };

    fn next(&mut self) -> Option<&'a [u8]> {
        if self.count == 0 {
            return None;
        }
        let (item, others) = first_item(self.bytes, self.count);
        self.bytes = others;
        self.count -= 1;
        Some(item)
    }
}
