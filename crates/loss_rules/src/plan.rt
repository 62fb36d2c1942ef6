//! The rules on a plan's own lines: clients are labelled, labels are matched, reaches cover.

ghost use Rattle.std.specs.Prelude.{◌≡◌, ◌↔◌, [], IfOk, IsTrue, All, Any, IsSomeAnd, length, slice_get};
ghost use Rattle.loss_rules.specs.Everywhere.{AreInPlan, BreaksAtClient, BreaksAtLabel};
ghost use Rattle.loss_rules.specs.Matches.{AreCovered};
ghost use Rattle.loss_rules.specs.Rules.{ClientsAreLabelled, IsLabelledClient, LabelsAreMatched, IsMatchedLabel, FitsMatch, ReachesCover, IsCoveredLabel, IsCovered};

use crate::answer::Place;
use crate::by_site::{Labels, Reaches};
use crate::fitting::{all_fit_label, fits_any, fits_reach};
use crate::label::Label;
use crate::ordered::{plan_places, put_in_order};
use crate::requirement::add_unless;
use crate::site::{Site, matches_at};
use relay_conf::MatchRule;
use relay_net::Net;
use std::alloc::{AllocError, Allocator};
use tag_pattern::{Plain, apart};

/// Each line of a client with a pattern that fits no label of the scope that its source leads into,
/// with the source's prefix in front.
/// The lines are those of the network's clients. Each pattern of a client is compared with those of
/// the labels of that scope. The only error is want of memory.
pub fn clients_are_labelled<A: Allocator + Copy, B: Allocator + Copy>(
    alloc: B,
    net: &Net<A>,
    client_lines: &[usize],
    labels: &Labels<'_, A>,
) -> Result<Vec<Place, B>, AllocError>
    requires { length client_lines.now ≡ length net.now.clients }
    ensures listed { IfOk result
        (λ places. AreInPlan
        (BreaksAtClient net.now client_lines.now (IsLabelledClient net.now labels.now))
        places.items) }
    ensures kept { IfOk result
        (λ places. places.items ≡ [] → ClientsAreLabelled net.now labels.now) }
{
    let mut lines = Vec::new(alloc);
    for (number, line) in client_lines.iter().enumerate() {
        add_unless(is_labelled(net, labels, number), *line, &mut lines)?;
    }
    put_in_order(&mut lines);
    plan_places(alloc, &lines)
}

/// Each line of a label with a pattern that fits no pattern of a match of its scope.
/// Each pattern of a label is compared with those of all matches of its scope. The only error is
/// want of memory.
pub fn labels_are_matched<A: Allocator + Copy, B: Allocator + Copy>(
    alloc: B,
    net: &Net<A>,
    labels: &[Label<A>],
) -> Result<Vec<Place, B>, AllocError>
    ensures listed { IfOk result
        (λ places. AreInPlan (BreaksAtLabel labels.now (IsMatchedLabel net.now)) places.items) }
    ensures kept { IfOk result (λ places. places.items ≡ [] → LabelsAreMatched net.now labels.now) }
{
    let mut lines = Vec::new(alloc);
    for label in labels {
        add_unless(all_matched(net, label), label.line, &mut lines)?;
    }
    put_in_order(&mut lines);
    plan_places(alloc, &lines)
}

/// Each line of a label with a pattern that has something in common with a match, up to and with
/// the first match that it fits, which the reaches of that match don't cover. A pattern that fits
/// no match asks for nothing.
/// For each pattern of a label and each pattern of a match of its scope the reaches of that match
/// are gone through. The only error is want of memory.
pub fn reaches_cover<A: Allocator + Copy, B: Allocator + Copy>(
    alloc: B,
    net: &Net<A>,
    labels: &[Label<A>],
    reaches: &Reaches<'_, A>,
) -> Result<Vec<Place, B>, AllocError>
    ensures listed { IfOk result
        (λ places. AreInPlan
        (BreaksAtLabel labels.now (IsCoveredLabel net.now reaches.now)) places.items) }
    ensures kept { IfOk result
        (λ places. places.items ≡ [] → ReachesCover net.now labels.now reaches.now) }
{
    let mut lines = Vec::new(alloc);
    for label in labels {
        add_unless(all_covered(net, reaches, label), label.line, &mut lines)?;
    }
    put_in_order(&mut lines);
    plan_places(alloc, &lines)
}

// Whether each pattern of the client of this number fits a label of the scope that its source leads
// into.
fn is_labelled<A: Allocator + Copy>(net: &Net<A>, labels: &Labels<'_, A>, number: usize) -> bool
    ensures { IsTrue result
        ↔ IsSomeAnd (slice_get net.now.clients number) (IsLabelledClient net.now labels.now) }
{
    let (Some(client), Some(host)) = (net.client(number), net.client_host(number)) else {
        return false;
    };
    match net.entrance(host, client.port) {
        Some(scope) => {
            let prefix = net.prefix(host, client.port);
            all_fit_label(labels, scope, prefix, &client.patterns)
        }
        None => false,
    }
}

// Whether each pattern of the label fits a pattern of a match of its scope.
fn all_matched<A: Allocator + Copy>(net: &Net<A>, label: &Label<A>) -> bool
    ensures { IsTrue result ↔ IsMatchedLabel net.now label.now }
{
    let matches = matches_at(net, label.place, label.scope);
    for pattern in &label.patterns {
        if !is_matched(matches, pattern) {
            return false;
        }
    }
    true
}

// Whether the pattern fits a pattern of one of the matches.
fn is_matched<A: Allocator>(matches: &[MatchRule<A>], pattern: &Plain<A>) -> bool
    ensures { IsTrue result ↔ Any (FitsMatch pattern.now) matches.now }
{
    for found in matches {
        if fits_any(pattern, &found.patterns) {
            return true;
        }
    }
    false
}

// Whether the reaches cover what each pattern of the label has in common with the matches of its
// scope.
fn all_covered<A: Allocator + Copy>(
    net: &Net<A>,
    reaches: &Reaches<'_, A>,
    label: &Label<A>,
) -> bool
    ensures { IsTrue result ↔ IsCoveredLabel net.now reaches.now label.now }
{
    let matches = matches_at(net, label.place, label.scope);
    let at = Site {
        place: label.place,
        scope: label.scope,
        rule: 0,
        output: 0,
    };
    for pattern in &label.patterns {
        if !reaches_cover_label(matches, reaches, at, pattern) {
            return false;
        }
    }
    true
}

// Whether the reaches cover what the label's pattern has in common with these matches, those of the
// site's scope, up to and with the first that it fits.
fn reaches_cover_label<A: Allocator + Copy>(
    matches: &[MatchRule<A>],
    reaches: &Reaches<'_, A>,
    at: Site,
    pattern: &Plain<A>,
) -> bool
    ensures { IsTrue result ↔ AreCovered matches.now reaches.now at.place at.scope pattern.now }
{
    let mut covered = true;
    for (rule, found) in matches.iter().enumerate() {
        let here = Site {
            place: at.place,
            scope: at.scope,
            rule,
            output: 0,
        };
        covered = covered && is_match_covered(reaches, here, pattern, &found.patterns);
        if fits_any(pattern, &found.patterns) {
            return covered;
        }
    }
    true
}

// Whether the reaches of the match at this site cover what the label's pattern has in common with
// each of the match's.
fn is_match_covered<A: Allocator + Copy>(
    reaches: &Reaches<'_, A>,
    at: Site,
    label: &Plain<A>,
    patterns: &[Plain<A>],
) -> bool
    ensures { IsTrue result
        ↔ All (IsCovered reaches.now at.place at.scope at.rule label.now) patterns.now }
{
    for pattern in patterns {
        if !is_pattern_covered(reaches, at, label, pattern) {
            return false;
        }
    }
    true
}

// Whether the label's pattern and this one of the match have nothing in common, or one of them fits
// a reach of the match.
fn is_pattern_covered<A: Allocator + Copy>(
    reaches: &Reaches<'_, A>,
    at: Site,
    label: &Plain<A>,
    pattern: &Plain<A>,
) -> bool
    ensures { IsTrue result
        ↔ IsCovered reaches.now at.place at.scope at.rule label.now pattern.now }
{
    if apart(pattern, label) {
        return true;
    }
    let label_fits = fits_reach(reaches, at, label);
    if label_fits {
        return true;
    }
    fits_reach(reaches, at, pattern)
}
