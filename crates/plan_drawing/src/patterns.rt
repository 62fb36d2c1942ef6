//! Patterns in the rows of a picture.

use std::alloc::{AllocError, Allocator};
use tag_pattern::{PatternItem, Plain};

// How many patterns are shown in a row.
const MOST_PATTERNS: usize = 4;

/// Adds each pattern behind a space, as long as there are few; `count` goes on with each.
pub(crate) fn put_patterns<A: Allocator>(
    out: &mut Vec<u8, A>,
    patterns: &[Plain<A>],
    count: &mut usize,
) -> Result<(), AllocError> {
    for pattern in patterns {
        if *count < MOST_PATTERNS {
            put_pattern(out, pattern)?;
        } else if *count == MOST_PATTERNS {
            out.extend_from_slice(b" ..")?;
        }
        *count = count.saturating_add(1);
    }
    Ok(())
}

// Adds the pattern's text behind a space: its parts, with dots between them.
fn put_pattern<A: Allocator>(out: &mut Vec<u8, A>, pattern: &Plain<A>) -> Result<(), AllocError> {
    let mut between = b" ";
    for item in pattern.items() {
        out.extend_from_slice(between)?;
        out.extend_from_slice(text_of(item))?;
        between = b".";
    }
    Ok(())
}

fn text_of<A: Allocator>(item: &PatternItem<Vec<u8, A>>) -> &[u8] {
    match item {
        PatternItem::Literal(text) => text,
        PatternItem::AnyPart => b"*",
        PatternItem::AnyParts => b"**",
    }
}
