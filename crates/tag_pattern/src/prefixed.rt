//! Plain patterns with a prefix in front.

ghost use Rattle.std.specs.Prelude.{◌≡◌, ◌++◌, ◌↔◌, ℕ, List, map, IfOk, OnOk, IsTrue};
ghost use Rattle.tag_pattern.specs.Items.{items_of};
ghost use Rattle.tag_pattern.specs.Parts.{parts_of};
ghost use Rattle.tag_pattern.specs.Patterns.{Fits, IsTagOf};
ghost use Rattle.tag_pattern.specs.Prefixes.{prefixed_items, IsSameBehind};
ghost use Rattle.tag_pattern.specs.declared.item.PatternItem.TheVariants.{Literal};

use crate::cut::first_piece;
use crate::item::{PatternItem, copied_item};
use crate::plain::Plain;
use crate::prefix::Prefix;
use crate::row::{Relation, compare};
use std::alloc::{AllocError, Allocator};
use std::marker::Model;

/// A plain pattern with a prefix in front, of any number of items. To contracts it is the list of
/// its items.
pub struct PrefixedPlain<A: Allocator> {
    items: Vec<PatternItem<Vec<u8, A>>, A>,
}

// By hand, so that crates above don't prove again how its parts end.
impl<A: Allocator> Drop for PrefixedPlain<A> {
    fn drop(self) {
        let PrefixedPlain { items: _ } = self;
    }
}

impl<A: Allocator> Model for PrefixedPlain<A> {
    ghost use Rattle.std.specs.Prelude.{List};
    ghost use Rattle.tag_pattern.specs.Items.{Item, items_of};

    ghost Value = { List Item };

    ghost view = { λ plain. items_of plain.items.items };
}

impl<A: Allocator> PrefixedPlain<A> {
    /// The pattern's items.
    pub fn items(&self) -> &[PatternItem<Vec<u8, A>>]
        ensures { items_of result.now ≡ self.now }
    {
        &self.items
    }

    /// Whether it fits a plain pattern: then each of its tags is one of that pattern's. It takes no
    /// memory.
    pub fn fits<B: Allocator>(&self, other: &Plain<B>) -> bool
        ensures fits { IsTrue result ↔ Fits self.now other.now }
        ensures subset { IsTrue result → (tag : List ℕ) → IsTagOf self.now tag
            → IsTagOf other.now tag }
    {
        compare(Relation::Fits, &self.items, other.items())
    }
}

impl<A: Allocator> Plain<A> {
    /// The pattern with the prefix's parts in front, each as a literal, in memory of its own. The
    /// limit on the number of items doesn't count here. A tag is one of the pattern's exactly where
    /// the prefixed tag is one of the result's.
    pub fn prefixed<B: Allocator + Copy, C: Allocator>(
        &self,
        alloc: B,
        prefix: &Prefix<C>,
    ) -> Result<PrefixedPlain<B>, AllocError>
        ensures items { IfOk result (λ plain. plain ≡ prefixed_items prefix.now self.now) }
        ensures law { IfOk result (λ plain. IsSameBehind prefix.now self.now plain) }
    {
        let mut items = Vec::new(alloc);
        push_literals(alloc, &mut items, prefix.as_bytes())?;
        push_copies(alloc, &mut items, self.items())?;
        Ok(PrefixedPlain { items })
    }
}

// Appends the parts of a text, each as a literal.
fn push_literals<A: Allocator + Copy>(
    alloc: A,
    items: &mut Vec<PatternItem<Vec<u8, A>>, A>,
    text: &[u8],
) -> Result<(), AllocError>
    ensures { OnOk result
        (items_of items.new.items ≡ items_of items.old.items ++ map Literal (parts_of text.now)) }
{
    let mut rest = Some(text);
    while let Some(ahead) = rest {
        let (part, behind) = first_piece(ahead, b'.');
        items.push(PatternItem::Literal(Vec::from_slice(alloc, part)?))?;
        rest = behind;
    }
    Ok(())
}

// Appends copies of items.
fn push_copies<A: Allocator + Copy, B: Allocator>(
    alloc: A,
    items: &mut Vec<PatternItem<Vec<u8, A>>, A>,
    others: &[PatternItem<Vec<u8, B>>],
) -> Result<(), AllocError>
    ensures { OnOk result
        (items_of items.new.items ≡ items_of items.old.items ++ items_of others.now) }
{
    for other in others {
        items.push(copied_item(alloc, other)?)?;
    }
    Ok(())
}
