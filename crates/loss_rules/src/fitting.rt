//! Whether patterns fit the labels and reaches of a plan.

ghost use Rattle.std.specs.Prelude.{◌≡◌, ◌↔◌, None, IsTrue, Any, All};
ghost use Rattle.std.specs.Option.{option_copied};
ghost use Rattle.tag_pattern.specs.Patterns.{Fits};
ghost use Rattle.tag_pattern.specs.Prefixes.{entered_items};
ghost use Rattle.loss_rules.specs.Labels.{FitsLabelWith, FitsReach, IsReached, EachReach};

use crate::by_site::{Labels, Reaches};
use crate::site::Site;
use relay_net::Entrance;
use std::alloc::Allocator;
use tag_pattern::{Plain, Prefix, fits, fits_entered};

/// Whether the pattern fits one of the others.
pub fn fits_any<A: Allocator>(pattern: &Plain<A>, others: &[Plain<A>]) -> bool
    ensures { IsTrue result ↔ Any (Fits pattern.now) others.now }
{
    for other in others {
        if fits(pattern, other) {
            return true;
        }
    }
    false
}

// Whether the pattern, with the prefix in front if there is one, fits one of the others.
fn fits_any_entered<A: Allocator>(
    prefix: Option<&Prefix<A>>,
    pattern: &Plain<A>,
    others: &[Plain<A>],
) -> bool
    ensures { IsTrue result
        ↔ Any (Fits (entered_items (option_copied prefix.entry) pattern.now)) others.now }
{
    for other in others {
        if fits_entered(prefix, pattern, other) {
            return true;
        }
    }
    false
}

// Whether the pattern, with the prefix in front if there is one, fits one of the list at this
// place, if there is one.
fn fits_at<A: Allocator>(
    prefix: Option<&Prefix<A>>,
    pattern: &Plain<A>,
    lists: &[&[Plain<A>]],
    place: usize,
) -> bool
    ensures { IsTrue result
        → Any (λ list. Any (Fits (entered_items (option_copied prefix.entry) pattern.now))
        list.now) lists.now }
{
    match lists.get(place) {
        Some(others) => fits_any_entered(prefix, pattern, others),
        None => false,
    }
}

/// Whether the pattern, with the prefix in front if there is one, fits a label of this scope. Where
/// it may stand is looked at first.
pub(crate) fn fits_label<A: Allocator + Copy>(
    labels: &Labels<'_, A>,
    scope: Entrance,
    prefix: Option<&Prefix<A>>,
    pattern: &Plain<A>,
) -> bool
    ensures { IsTrue result
        ↔ FitsLabelWith labels.now scope.relay scope.scope
        (option_copied prefix.entry) pattern.now }
{
    let hint = labels.hint(scope, prefix, pattern);
    if fits_at(prefix, pattern, labels.at(scope), hint) {
        return true;
    }
    for patterns in labels.at(scope) {
        if fits_any_entered(prefix, pattern, patterns) {
            return true;
        }
    }
    false
}

/// Whether each of the patterns, with the prefix in front if there is one, fits a label of this
/// scope.
pub(crate) fn all_fit_label<A: Allocator + Copy>(
    labels: &Labels<'_, A>,
    scope: Entrance,
    prefix: Option<&Prefix<A>>,
    patterns: &[Plain<A>],
) -> bool
    ensures { IsTrue result
        ↔ All (FitsLabelWith labels.now scope.relay scope.scope (option_copied prefix.entry))
        patterns.now }
{
    for pattern in patterns {
        if !fits_label(labels, scope, prefix, pattern) {
            return false;
        }
    }
    true
}

// Whether the pattern fits one of the list at this place, if there is one.
fn fits_any_at<A: Allocator>(pattern: &Plain<A>, lists: &[&[Plain<A>]], place: usize) -> bool
    ensures { IsTrue result → Any (λ list. Any (Fits pattern.now) list.now) lists.now }
{
    match lists.get(place) {
        Some(others) => fits_any(pattern, others),
        None => false,
    }
}

/// Whether the pattern fits a reach of the match at this site. Where it may stand is looked at
/// first.
pub(crate) fn fits_reach<A: Allocator + Copy>(
    reaches: &Reaches<'_, A>,
    at: Site,
    pattern: &Plain<A>,
) -> bool
    ensures { IsTrue result ↔ FitsReach reaches.now at.place at.scope at.rule pattern.now }
{
    let hint = reaches.hint(at, pattern);
    if fits_any_at(pattern, reaches.at(at), hint) {
        return true;
    }
    for patterns in reaches.at(at) {
        if fits_any(pattern, patterns) {
            return true;
        }
    }
    false
}

/// Whether the match at this site has a reach.
pub(crate) fn is_reached<A: Allocator + Copy>(reaches: &Reaches<'_, A>, at: Site) -> bool
    ensures { IsTrue result ↔ IsReached reaches.now at.place at.scope at.rule }
{
    !reaches.at(at).is_empty()
}

/// Whether each reach of the match at this site, with the prefix in front if there is one, fits a
/// label of this scope.
pub(crate) fn reaches_fit_label<A: Allocator + Copy>(
    labels: &Labels<'_, A>,
    reaches: &Reaches<'_, A>,
    at: Site,
    scope: Entrance,
    prefix: Option<&Prefix<A>>,
) -> bool
    ensures { IsTrue result
        ↔ EachReach reaches.now at.place at.scope at.rule
        (FitsLabelWith labels.now scope.relay scope.scope (option_copied prefix.entry)) }
{
    for patterns in reaches.at(at) {
        if !all_fit_label(labels, scope, prefix, patterns) {
            return false;
        }
    }
    true
}

/// No prefix: what relabels put in front of tags. The labels are there for how long it is lent.
pub(crate) fn no_prefix<'b, A: Allocator>(labels: &'b Labels<'_, A>) -> Option<&'b Prefix<A>>
    ensures { option_copied result ≡ None }
{
    let _ = labels;
    None
}
