//! The items of which a plain pattern is made.

ghost use Rattle.std.specs.Prelude.{◌≡◌, IfOk};
ghost use Rattle.tag_pattern.specs.Items.{item_of};

use std::alloc::{AllocError, Allocator};

/// One item of a plain pattern. `Text` is how a literal is kept.
#[derive(Clone, Copy, PartialEq, Eq)]
pub enum PatternItem<Text> {
    /// This one part.
    Literal(Text),
    /// `*`: any one part.
    AnyPart,
    /// `**`: any number of parts, none among them.
    AnyParts,
}

/// The item, in memory of its own.
pub fn copied_item<A: Allocator, B: Allocator>(
    alloc: A,
    item: &PatternItem<Vec<u8, B>>,
) -> Result<PatternItem<Vec<u8, A>>, AllocError>
    ensures { IfOk result (λ copy. item_of copy ≡ item_of item.now) }
{
    Ok(match item {
        PatternItem::Literal(text) => PatternItem::Literal(Vec::from_slice(alloc, text)?),
        PatternItem::AnyPart => PatternItem::AnyPart,
        PatternItem::AnyParts => PatternItem::AnyParts,
    })
}
