//! The parts of an item, each with what is behind it.

ghost use Rattle.std.specs.Prelude.{◌≡◌, ◌↔◌, ℕ, List, ◌++◌, Bool, IsTrue, IfSome, IsSomeAnd, MatchOption};
ghost use Rattle.msgpack_bytes.specs.Item.{IsItemWithin};
ghost use Rattle.msgpack_bytes.specs.Kinds.{IsText, IsBool, IsArrayHeader, IsMapHeader};

use crate::answers::{Head, Scan};
use crate::heads::head;
use crate::whole::scan;

/// Whether the bytes are one whole item.
pub fn is_item(bytes: &[u8]) -> bool
    ensures { IsTrue result ↔ IsItemWithin bytes.now }
{
    match scan(bytes, 0) {
        Scan::End(end) => end == bytes.len(),
        _ => false,
    }
}

/// The item that the bytes begin with, and what is behind it.
pub fn next_item(bytes: &[u8]) -> Option<(&[u8], &[u8])>
    ensures right { IfSome result (λ found. IsItemWithin found.0.now
        × (bytes.now ≡ found.0.now ++ found.1.now)) }
    ensures only { (front back : List ℕ) → IsItemWithin front → bytes.now ≡ front ++ back
        → IsSomeAnd result (λ found. (found.0.now ≡ front) × (found.1.now ≡ back)) }
{
    match scan(bytes, 0) {
        Scan::End(end) => Some(bytes.split_at(end)),
        _ => None,
    }
}

/// The content of the str or bin that the bytes begin with, and what is behind it.
pub fn next_text(bytes: &[u8]) -> Option<(&[u8], &[u8])>
    ensures right { IfSome result (λ found. (front : List ℕ) × IsText front found.0.now
        × (bytes.now ≡ front ++ found.1.now)) }
    ensures only { (front content back : List ℕ) → IsText front content → bytes.now ≡ front ++ back
        → IsSomeAnd result (λ found. (found.0.now ≡ content) × (found.1.now ≡ back)) }
{
    match head(bytes, 0)? {
        Head::Str { start, end } => Some((&bytes[start..end], bytes.split_at(end).1)),
        Head::Bin { start, end } => Some((&bytes[start..end], bytes.split_at(end).1)),
        _ => None,
    }
}

/// The bool that the bytes begin with, and what is behind it.
pub fn next_bool(bytes: &[u8]) -> Option<(bool, &[u8])>
    ensures right { IfSome result (λ found. (front : List ℕ) × IsBool found.0 front
        × (bytes.now ≡ front ++ found.1.now)) }
    ensures only { (value : Bool) (front back : List ℕ) → IsBool value front
        → bytes.now ≡ front ++ back
        → IsSomeAnd result (λ found. (found.0 ≡ value) × (found.1.now ≡ back)) }
{
    match head(bytes, 0)? {
        Head::Bool(value) => Some((value, bytes.split_at(1).1)),
        _ => None,
    }
}

/// What is behind the header of an array of so many items.
pub fn array_of(bytes: &[u8], size: u32) -> Option<&[u8]>
    ensures right { IfSome result (λ inner. (header : List ℕ) × IsArrayHeader size header
        × (bytes.now ≡ header ++ inner.now)) }
    ensures only { (header inner : List ℕ) → IsArrayHeader size header → bytes.now ≡ header ++ inner
        → IsSomeAnd result (λ found. found.now ≡ inner) }
{
    match head(bytes, 0)? {
        Head::Array { count, next } if count == size => Some(bytes.split_at(next).1),
        _ => None,
    }
}

/// How many pairs a map has, and what is behind its header.
pub fn map_of(bytes: &[u8]) -> Option<(u32, &[u8])>
    ensures right { IfSome result (λ found. (header : List ℕ) × IsMapHeader found.0 header
        × (bytes.now ≡ header ++ found.1.now)) }
    ensures only { (count : ℕ) (header inner : List ℕ) → IsMapHeader count header
        → bytes.now ≡ header ++ inner
        → IsSomeAnd result (λ found. (found.0 ≡ count) × (found.1.now ≡ inner)) }
{
    match head(bytes, 0)? {
        Head::Map { count, next } => Some((count, bytes.split_at(next).1)),
        _ => None,
    }
}

/// The content of an item that is a str or a bin.
pub fn str_or_bin(item: &[u8]) -> Option<&[u8]>
    ensures right { MatchOption result ((content : List ℕ) → IsText item.now content → ⊥)
        (λ content. IsText item.now content.now) }
    ensures only { (content : List ℕ) → IsText item.now content
        → IsSomeAnd result (λ found. found.now ≡ content) }
{
    let (content, rest) = next_text(item)?;
    if rest.is_empty() { Some(content) } else { None }
}

/// What is behind the str or bin of this content that the bytes begin with.
pub fn after_text<'a>(bytes: &'a [u8], content: &[u8]) -> Option<&'a [u8]>
    ensures right { IfSome result (λ rest. (front : List ℕ) × IsText front content.now
        × (bytes.now ≡ front ++ rest.now)) }
    ensures only { (front back : List ℕ) → IsText front content.now → bytes.now ≡ front ++ back
        → IsSomeAnd result (λ rest. rest.now ≡ back) }
{
    let (found, rest) = next_text(bytes)?;
    if found == content { Some(rest) } else { None }
}

/// Whether the item is a str or a bin of this content.
pub fn is_text(item: &[u8], content: &[u8]) -> bool
    ensures { IsTrue result ↔ IsText item.now content.now }
{
    match after_text(item, content) {
        Some(rest) => rest.is_empty(),
        None => false,
    }
}
