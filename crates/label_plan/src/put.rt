//! The outputs of one match of a relay are put in place of those that it has; nothing else changes.

ghost use Rattle.std.specs.Prelude.{◌<◌, vec_len, slice_get};
ghost use Rattle.label_plan.specs.Changes.{ChangesAt, PutsOutputs, PutsInScope, PutsInNode, HasMatch, HasMatchIn, HasScope};

use crate::place::MatchPlace;
use relay_conf::{MatchRule, Output, Scope};
use relay_net::Node;
use std::alloc::Allocator;

/// Puts these outputs in place of those of the match there.
pub(crate) fn put_outputs<A: Allocator>(
    relays: &mut Vec<Node<A>, A>,
    at: MatchPlace,
    outputs: Vec<Output<A>, A>,
)
    requires relay { at.place < vec_len relays.old }
    requires scope { HasScope at.scope (slice_get relays.old.items at.place) }
    requires rule { HasMatchIn at.scope at.rule (slice_get relays.old.items at.place) }
    ensures { ChangesAt
        (PutsInNode at.scope at.rule outputs.items) at.place relays.old.items relays.new.items }
{
    put_in_scopes(
        &mut relays[at.place].relay.scopes,
        at.scope,
        at.rule,
        outputs,
    );
}

// In the scope with this place, for the match with that one.
fn put_in_scopes<A: Allocator>(
    scopes: &mut Vec<Scope<A>, A>,
    scope: usize,
    rule: usize,
    outputs: Vec<Output<A>, A>,
)
    requires scope { scope < vec_len scopes.old }
    requires rule { HasMatch rule (slice_get scopes.old.items scope) }
    ensures { ChangesAt (PutsInScope rule outputs.items) scope scopes.old.items scopes.new.items }
{
    put_in_matches(&mut scopes[scope].matches, rule, outputs);
}

// For the match with this place.
fn put_in_matches<A: Allocator>(
    matches: &mut Vec<MatchRule<A>, A>,
    rule: usize,
    outputs: Vec<Output<A>, A>,
)
    requires { rule < vec_len matches.old }
    ensures { ChangesAt (PutsOutputs outputs.items) rule matches.old.items matches.new.items }
{
    matches[rule].outputs = outputs;
}
