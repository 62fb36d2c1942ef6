//! Plain patterns: copied, with a prefix in front, widened, and as text.

use std::alloc::{AllocError, Allocator};
use tag_pattern::{PatternItem, Plain, Prefix, copied_item};

/// The items of a pattern.
pub(crate) type Items<A> = Vec<PatternItem<Vec<u8, A>>, A>;

/// The most items of a plain pattern.
const MOST_ITEMS: usize = 32;

/// The pattern, in memory of its own.
pub(crate) fn copied<A: Allocator + Copy>(
    alloc: A,
    pattern: &Plain<A>,
) -> Result<Plain<A>, AllocError> {
    copy_of(alloc, pattern.items())
}

/// The pattern with the prefix's parts in front; `**` where that has too many items.
pub(crate) fn prefixed<A: Allocator + Copy>(
    alloc: A,
    prefix: &Prefix<A>,
    pattern: &Plain<A>,
) -> Result<Plain<A>, AllocError> {
    let longer = pattern.prefixed(alloc, prefix)?;
    copy_of(alloc, longer.items())
}

/// The pattern with `**` in front, unless it begins with that: it has each tag that a prefix makes
/// of one of the pattern's.
pub(crate) fn widened<A: Allocator + Copy>(
    alloc: A,
    pattern: &Plain<A>,
) -> Result<Plain<A>, AllocError> {
    let mut items = Vec::new(alloc);
    if !begins_with_any(pattern) {
        items.push(PatternItem::AnyParts)?;
    }
    push_items(alloc, &mut items, pattern.items())?;
    plain_of(alloc, items)
}

/// The pattern `**`.
pub(crate) fn any_tag<A: Allocator + Copy>(alloc: A) -> Result<Plain<A>, AllocError> {
    let mut items = Vec::new(alloc);
    items.push(PatternItem::AnyParts)?;
    Ok(Plain::new(items))
}

/// Appends the pattern's text behind a space: its parts, with dots between them.
pub(crate) fn put_pattern<A: Allocator>(
    out: &mut Vec<u8, A>,
    pattern: &Plain<A>,
) -> Result<(), AllocError> {
    let mut between = b" ";
    for item in pattern.items() {
        out.extend_from_slice(between)?;
        out.extend_from_slice(text_of(item))?;
        between = b".";
    }
    Ok(())
}

// The item's text.
fn text_of<A: Allocator>(item: &PatternItem<Vec<u8, A>>) -> &[u8] {
    match item {
        PatternItem::Literal(text) => text,
        PatternItem::AnyPart => b"*",
        PatternItem::AnyParts => b"**",
    }
}

// Whether the pattern's first item is `**`.
fn begins_with_any<A: Allocator>(pattern: &Plain<A>) -> bool {
    matches!(pattern.items().first(), Some(PatternItem::AnyParts))
}

// The pattern of copies of these items; `**` where there are too many.
fn copy_of<A: Allocator + Copy>(
    alloc: A,
    items: &[PatternItem<Vec<u8, A>>],
) -> Result<Plain<A>, AllocError> {
    let mut own = Vec::new(alloc);
    push_items(alloc, &mut own, items)?;
    plain_of(alloc, own)
}

// The pattern of these items; `**` where there are too many.
fn plain_of<A: Allocator + Copy>(alloc: A, items: Items<A>) -> Result<Plain<A>, AllocError> {
    if items.len() <= MOST_ITEMS {
        Ok(Plain::new(items))
    } else {
        any_tag(alloc)
    }
}

// Appends copies of items.
fn push_items<A: Allocator + Copy>(
    alloc: A,
    items: &mut Items<A>,
    others: &[PatternItem<Vec<u8, A>>],
) -> Result<(), AllocError> {
    for other in others {
        items.push(copied_item(alloc, other)?)?;
    }
    Ok(())
}
