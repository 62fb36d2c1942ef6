//! Numbers of patterns, under which it is noted where they stand. Different patterns may have one
//! number, so what is found by it is a hint: it is tried, and nothing rests on it.

use std::alloc::Allocator;
use std::hash::{FoldHasher, Hasher};
use tag_pattern::{PatternItem, Plain};

/// The number of a pattern of this site, with this prefix in front if there is one: that of the
/// text of both.
pub(crate) fn number_of<A: Allocator>(
    site: ((usize, usize), usize),
    prefix: Option<&[u8]>,
    pattern: &Plain<A>,
) -> u64 {
    let mut hasher = FoldHasher::default();
    hasher.write_usize(site.0.0);
    hasher.write_usize(site.0.1);
    hasher.write_usize(site.1);
    if let Some(prefix) = prefix {
        put_part(&mut hasher, prefix);
    }
    for item in pattern.items() {
        match item {
            PatternItem::Literal(text) => put_part(&mut hasher, text),
            PatternItem::AnyPart => put_part(&mut hasher, b"*"),
            PatternItem::AnyParts => put_part(&mut hasher, b"**"),
        }
    }
    hasher.finish()
}

// Adds these bytes and a dot, one after another, so that a prefix of several parts counts as these
// parts.
fn put_part(hasher: &mut FoldHasher, bytes: &[u8]) {
    for byte in bytes {
        hasher.write_u8(*byte);
    }
    hasher.write_u8(b'.');
}
