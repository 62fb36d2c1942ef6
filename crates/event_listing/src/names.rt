//! Keys of maps that can be names of members.

ghost use Rattle.std.specs.Prelude.{◌≡◌, ◌*◌, ◌↔◌, ◌<◌, ℕ, List, IsTrue, MatchOption};
ghost use Rattle.std.specs.List.{AllByRecursion};
ghost use Rattle.msgpack_bytes.specs.Item.{IsItemWithin};
ghost use Rattle.event_modes.specs.Rows.{AreItems};
ghost use Rattle.event_listing.specs.Json.{IsName, IsNamed, IsUnmarked};
ghost use Rattle.event_listing.specs.Walking.{pairs_of};

use crate::walk::first_pair;
use msgpack_bytes::{Head, head};
use std::str;

/// Whether the key of each of so many pairs can be a name.
pub(crate) fn have_names(pairs: &[u8], count: usize) -> bool
    requires few { 2 * count < 18446744073709551616 }
    requires items { AreItems (2 * count) pairs.now }
    ensures { IsTrue result ↔ AllByRecursion IsNamed (pairs_of count pairs.now) }
{
    let mut rest = pairs;
    let mut left = count;
    while left > 0 {
        let first = first_pair(rest, left);
        if name_of(first.key).is_none() {
            return false;
        }
        rest = first.rest;
        left -= 1;
    }
    true
}

/// The name that a key can be.
pub(crate) fn name_of(key: &[u8]) -> Option<&str>
    requires { IsItemWithin key.now }
    ensures { MatchOption result ((name : List ℕ) → IsName key.now name → ⊥)
        (λ name. IsName key.now name.now) }
{
    match head(key, 0) {
        None => None,
        Some(found) => match found {
            Head::Str { start, end } => unmarked(&key[start..end]),
            _ => None,
        },
    }
}

// The text that the content of a str is, unless it begins with a dollar sign.
fn unmarked(content: &[u8]) -> Option<&str>
    ensures { MatchOption result (IsUnmarked content.now → ⊥)
        (λ name. IsUnmarked content.now × (name.now ≡ content.now)) }
{
    match content {
        [b'$', ..] => None,
        _ => str::from_utf8(content).ok(),
    }
}
