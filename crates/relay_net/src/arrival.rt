//! Where events come in under an end of a tag that is looked for.

ghost use Rattle.std.specs.Prelude.{◌≡◌, ◌↔◌, ◌≤◌, ◌∷◌, Some, length, Any, Contains, IsTrue};
ghost use Rattle.std.specs.Option.{option_copied};
ghost use Rattle.tag_pattern.specs.Parts.{dot, most_tag_bytes};
ghost use Rattle.tag_pattern.specs.Prefixes.{entered_tag, prefixed_tag};
ghost use Rattle.relay_net.specs.Arrivals.{IsArrival};

use crate::{Entrance, Net};
use std::alloc::Allocator;
use tag_pattern::Prefix;

/// Where an event comes in, and how many bytes of the tag that is looked for stand in front of what
/// it bears there.
#[derive(Clone, Copy)]
pub(crate) struct Arrival {
    pub at: Entrance,
    pub offset: usize,
}

/// Whether the arrival is among these.
pub(crate) fn is_among(found: &[Arrival], arrival: Arrival) -> bool
    ensures { IsTrue result ↔ Contains found.now arrival }
{
    for one in found {
        if is_same(*one, arrival) {
            return true;
        }
    }
    false
}

/// Whether one of them has nothing in front.
pub(crate) fn has_whole(found: &[Arrival]) -> bool
    ensures { IsTrue result ↔ Any (λ arrival. arrival.offset ≡ 0) found.now }
{
    for one in found {
        if one.offset == 0 {
            return true;
        }
    }
    false
}

fn is_same(one: Arrival, other: Arrival) -> bool
    ensures { IsTrue result ↔ (one ≡ other) }
{
    one.at.relay == other.at.relay && one.at.scope == other.at.scope && one.offset == other.offset
}

/// Where a message with this tag, sent to this host and port, comes in, if its events then bear an
/// end of the wanted tag.
pub(crate) fn comes_in<A: Allocator + Copy>(
    net: &Net<A>,
    host: &[u8],
    port: u16,
    tag: &[u8],
    wanted: &[u8],
) -> Option<Arrival>
    requires { length tag.now ≤ most_tag_bytes }
    ensures { (arrival : Arrival) → (result ≡ Some arrival)
        ↔ IsArrival net.now wanted.now (record { host = host.now; port = port }) tag.now arrival }
{
    let at = net.entrance(host, port)?;
    let prefix = net.prefix(host, port);
    let length = entered_length(prefix, tag);
    if length > wanted.len() {
        return None;
    }
    let offset = wanted.len() - length;
    let (_, rest) = wanted.split_at(offset);
    if !is_entered(rest, prefix, tag) {
        return None;
    }
    Some(Arrival { at, offset })
}

// The length of the tag with the prefix in front, if there is one.
fn entered_length<A: Allocator>(prefix: Option<&Prefix<A>>, tag: &[u8]) -> usize
    requires { length tag.now ≤ most_tag_bytes }
    ensures { result ≡ length (entered_tag (option_copied prefix.entry) tag.now) }
{
    match prefix {
        Some(prefix) => prefix.as_bytes().len() + 1 + tag.len(),
        None => tag.len(),
    }
}

// Whether the text is the tag with the prefix in front, if there is one.
fn is_entered<A: Allocator>(text: &[u8], prefix: Option<&Prefix<A>>, tag: &[u8]) -> bool
    ensures { IsTrue result ↔ (text.now ≡ entered_tag (option_copied prefix.entry) tag.now) }
{
    match prefix {
        Some(prefix) => is_prefixed(text, prefix.as_bytes(), tag),
        None => text == tag,
    }
}

// Whether the text is the front, a dot and the tag.
fn is_prefixed(text: &[u8], front: &[u8], tag: &[u8]) -> bool
    ensures { IsTrue result ↔ (text.now ≡ prefixed_tag front.now tag.now) }
{
    if text.len() <= front.len() {
        return false;
    }
    let (before, behind) = text.split_at(front.len());
    if !is_text(before, front) {
        return false;
    }
    is_behind_dot(behind, tag)
}

// Whether the text is a dot and the tag.
fn is_behind_dot(text: &[u8], tag: &[u8]) -> bool
    ensures { IsTrue result ↔ (text.now ≡ dot ∷ tag.now) }
{
    if text.is_empty() || text[0] != b'.' {
        return false;
    }
    let (_, behind) = text.split_at(1);
    is_text(behind, tag)
}

fn is_text(one: &[u8], other: &[u8]) -> bool
    ensures { IsTrue result ↔ (one.now ≡ other.now) }
{
    one == other
}
