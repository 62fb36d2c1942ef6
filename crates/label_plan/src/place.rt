//! Where the match stands that a name means.

ghost use Rattle.std.specs.Prelude.{◌≡◌, IfOk, IfErr, List, option_map};
ghost use Rattle.relay_net.specs.Network.{place_among};
ghost use Rattle.relay_net.specs.declared.node.Client.{Client};
ghost use Rattle.plan_lines.specs.Parts.{plan_of};
ghost use Rattle.plan_lines.specs.Plans.{network, scope_at};
ghost use Rattle.label_plan.specs.Changes.{match_in};
ghost use Rattle.label_plan.specs.OneByOne.{IsMeant, IsRefusedAt};

use crate::error::DropError;
use crate::name::DropName;
use plan_lines::{PlanParts, scope_of};
use relay_net::Node;
use std::alloc::Allocator;

/// Where a match stands, and its line.
#[derive(Clone, Copy)]
pub struct MatchPlace {
    /// The place of the relay in the plan, counted from 0.
    pub place: usize,
    /// The place of the scope in the relay, counted from 0; the main scope is 0.
    pub scope: usize,
    /// The place of the match in the scope, counted from 0.
    pub rule: usize,
    /// The line that opens it in the configuration, counted from 1.
    pub line: usize,
}

/// Where the match of these parts stands that the name means, which has this place among names.
pub(crate) fn place_in<A: Allocator>(
    parts: &PlanParts<A>,
    name: &DropName<'_>,
    at: usize,
) -> Result<MatchPlace, DropError>
    ensures meant { IfOk result (IsMeant (plan_of parts.now).net name.now) }
    ensures refused { IfErr result (IsRefusedAt (plan_of parts.now).net name.now at) }
{
    place_of(&parts.relays, name, at)
}

/// Where the match of these relays stands that the name means, which has this place among names. An
/// error says what isn't there.
pub fn place_of<A: Allocator>(
    relays: &[Node<A>],
    name: &DropName<'_>,
    at: usize,
) -> Result<MatchPlace, DropError>
    ensures meant { (clients : List (Client A))
        → IfOk result (IsMeant (network relays.now clients) name.now) }
    ensures refused { (clients : List (Client A))
        → IfErr result (IsRefusedAt (network relays.now clients) name.now at) }
{
    let Some(place) = relay_place(relays, name.relay) else {
        return Err(DropError::NoRelay(at));
    };
    let Some(scope) = scope_place(relays, place, name.scope) else {
        return Err(DropError::NoScope(at));
    };
    let Some(line) = match_line(relays, place, scope, name.index) else {
        return Err(DropError::NoMatch(at));
    };
    Ok(MatchPlace {
        place,
        scope,
        rule: name.index,
        line,
    })
}

// The place of the relay that the number means: of equal numbers the first.
fn relay_place<A: Allocator>(relays: &[Node<A>], number: u32) -> Option<usize>
    ensures { result ≡ place_among relays.now number }
{
    relays.iter().position(|node| node.number == number)
}

// The place of the scope that the word means, in the relay at this place.
fn scope_place<A: Allocator>(relays: &[Node<A>], place: usize, word: &str) -> Option<usize>
    ensures { result ≡ scope_at relays.now place word.now }
{
    match relays.get(place) {
        None => None,
        Some(node) => scope_of(&node.relay, word),
    }
}

// The line of the match with this place in this scope of the relay at this place, if it is there.
fn match_line<A: Allocator>(
    relays: &[Node<A>],
    place: usize,
    scope: usize,
    rule: usize,
) -> Option<usize>
    ensures { result ≡ option_map (λ found. found.line) (match_in relays.now place scope rule) }
{
    let node = relays.get(place)?;
    let within = node.relay.scopes.get(scope)?;
    let found = within.matches.get(rule)?;
    Some(found.line)
}
