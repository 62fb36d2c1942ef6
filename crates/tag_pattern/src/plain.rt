//! Plain patterns: patterns without groups.

ghost use Rattle.std.specs.Prelude.{◌≡◌, ◌≤◌, length, vec_len};
ghost use Rattle.tag_pattern.specs.Items.{items_of};

use crate::item::PatternItem;
use std::alloc::Allocator;
use std::marker::Model;

/// A pattern without groups: at most 32 items. To contracts it is the list of its items.
pub struct Plain<A: Allocator> {
    items: Vec<PatternItem<Vec<u8, A>>, A>,
}

// By hand, so that crates above don't prove again how its parts end.
impl<A: Allocator> Drop for Plain<A> {
    fn drop(self) {
        let Plain { items: _ } = self;
    }
}

impl<A: Allocator> Model for Plain<A> {
    ghost use Rattle.std.specs.Prelude.{◌≤◌, List, length};
    ghost use Rattle.tag_pattern.specs.Items.{Item, items_of};

    ghost Value = { List Item };

    ghost view = { λ plain. items_of plain.items.items };

    ghost invariant = { λ plain. length plain.items.items ≤ 32 };
}

impl<A: Allocator> Plain<A> {
    /// The pattern of these items.
    pub fn new(items: Vec<PatternItem<Vec<u8, A>>, A>) -> Plain<A>
        requires { vec_len items ≤ 32 }
        ensures { result ≡ items_of items.items }
    {
        Plain { items }
    }

    /// The pattern's items: at most 32.
    pub fn items(&self) -> &[PatternItem<Vec<u8, A>>]
        ensures items { items_of result.now ≡ self.now }
        ensures limit { length result.now ≤ 32 }
    {
        &self.items
    }
}
