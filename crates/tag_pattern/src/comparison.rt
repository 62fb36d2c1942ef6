//! Which tags a plain pattern matches, and how two patterns compare.

ghost use Rattle.std.specs.Prelude.{◌≡◌, ℕ, ◌↔◌, false, IsTrue, List};
ghost use Rattle.std.specs.Option.{option_copied};
ghost use Rattle.tag_pattern.specs.Patterns.{IsTagOf, Fits, Meets};
ghost use Rattle.tag_pattern.specs.Prefixes.{entered_items};

use crate::plain::Plain;
use crate::prefix::Prefix;
use crate::row::{Relation, compare, last_row, row_of, row_of_parts};
use crate::tag::Tag;
use std::alloc::Allocator;

/// Whether the pattern matches the tag (Fluentd, "Config File Syntax", "How Do Match Patterns
/// Work?").
///
/// It takes no memory, and goes over the tag once, from its end, with one answer for each rest of
/// the pattern.
pub fn matches<A: Allocator, B: Allocator>(pattern: &Plain<A>, tag: &Tag<B>) -> bool
    ensures { IsTrue result ↔ IsTagOf pattern.now tag.now }
{
    let items = pattern.items();
    row_of_parts(tag.as_bytes(), items, last_row(Relation::Fits, items))[0]
}

/// Whether the first pattern fits the second, by the rules of the relation: then each of its tags
/// is one of the second's. It takes no memory, and at most 33 times 33 steps.
pub fn fits<A: Allocator, B: Allocator>(pattern: &Plain<A>, other: &Plain<B>) -> bool
    ensures fits { IsTrue result ↔ Fits pattern.now other.now }
    ensures subset { IsTrue result → (tag : List ℕ) → IsTagOf pattern.now tag
        → IsTagOf other.now tag }
{
    compare(Relation::Fits, pattern.items(), other.items())
}

/// Whether the first pattern, with the prefix in front if there is one, fits the second. It takes
/// no memory.
pub fn fits_entered<A: Allocator, B: Allocator, C: Allocator>(
    prefix: Option<&Prefix<A>>,
    pattern: &Plain<B>,
    other: &Plain<C>,
) -> bool
    ensures { IsTrue result
        ↔ Fits (entered_items (option_copied prefix.entry) pattern.now) other.now }
{
    match prefix {
        Some(prefix) => {
            let others = other.items();
            let row = row_of(Relation::Fits, pattern.items(), others);
            row_of_parts(prefix.as_bytes(), others, row)[0]
        }
        None => fits(pattern, other),
    }
}

/// Whether the patterns don't meet, by the rules of the relation: then they have no common tag.
/// It takes no memory, and at most 33 times 33 steps.
pub fn apart<A: Allocator, B: Allocator>(pattern: &Plain<A>, other: &Plain<B>) -> bool
    ensures apart { IsTrue result ↔ (¬ Meets pattern.now other.now) }
    ensures meet { (result ≡ false) ↔ Meets pattern.now other.now }
    ensures none_common { IsTrue result → (tag : List ℕ) → IsTagOf pattern.now tag
        → IsTagOf other.now tag → ⊥ }
{
    !compare(Relation::Meets, pattern.items(), other.items())
}
