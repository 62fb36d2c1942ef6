//! Where a match or one of its outputs stands in the configurations of a network.

ghost use Rattle.std.specs.Prelude.{◌≡◌};
ghost use Rattle.loss_rules.specs.Sites.{line_of as line_of_output, matches_at as matches_there, scope_count_of};

use relay_conf::{MatchRule, Output};
use relay_net::Net;
use std::alloc::Allocator;

/// Where a match stands, or one of its outputs.
#[derive(Clone, Copy, PartialEq, Eq)]
pub(crate) struct Site {
    /// The place of the relay in the plan, counted from 0.
    pub place: usize,
    /// The place of the scope in the relay, counted from 0; the main scope is 0.
    pub scope: usize,
    /// The place of the match in the scope, counted from 0.
    pub rule: usize,
    /// The place of the output in the match, counted from 0.
    pub output: usize,
}

/// The line of the output: that of its `<store>`, or of its `<match>` without a copy.
pub fn line_of<A: Allocator>(output: &Output<A>) -> usize
    ensures { result ≡ line_of_output output.now }
{
    match output {
        Output::Null { line } => *line,
        Output::Relabel { target: _, line } => *line,
        Output::Forward { settings: _, line } => *line,
        Output::File { settings: _, line } => *line,
    }
}

/// The matches of this scope of the relay at this place: none, where there is no such scope.
pub(crate) fn matches_at<A: Allocator + Copy>(
    net: &Net<A>,
    place: usize,
    scope: usize,
) -> &[MatchRule<A>]
    ensures { result.now ≡ matches_there net.now place scope }
{
    let Some(node) = net.relays().get(place) else {
        return &[];
    };
    match node.relay.scopes.get(scope) {
        Some(found) => &found.matches,
        None => &[],
    }
}

/// How many scopes the relay at this place has.
pub(crate) fn scope_count<A: Allocator + Copy>(net: &Net<A>, place: usize) -> usize
    ensures { result ≡ scope_count_of net.now place }
{
    match net.relays().get(place) {
        Some(node) => node.relay.scopes.len(),
        None => 0,
    }
}
