//! A relay's matches, as far as the ways of its events depend on them.

ghost use Rattle.std.specs.Prelude.{◌≡◌, ◌↔◌, IfOk, IsTrue, MatchOption, map, List};
ghost use Rattle.std.specs.List.{filter_map};
ghost use Rattle.std.specs.Option.{option_copied};
ghost use Rattle.route_graph.specs.Table.{Rule, hop_of, rule_of, rules_of};
ghost use Rattle.route_graph.specs.Ways.{HaveTag, IsTakenBy};

use crate::hop::Hop;
use relay_conf::{MatchRule, Output, Scope};
use std::alloc::{AllocError, Allocator};
use std::marker::Model;
use tag_pattern::{Plain, Tag, copied_item, matches};

/// A match: its patterns, and where its outputs take an event.
#[derive(Drop)]
pub(crate) struct RouteRule<A: Allocator> {
    patterns: Vec<Plain<A>, A>,
    hops: Vec<Hop, A>,
}

impl<A: Allocator> Model for RouteRule<A> {
    ghost use Rattle.route_graph.specs.Table.{Rule};

    ghost Value = { Rule };

    ghost view = { λ rule. record { patterns = rule.patterns.items; hops = rule.hops.items } };
}

impl<A: Allocator> RouteRule<A> {
    /// Where its outputs take an event, in the order of the text.
    pub fn hops(&self) -> &[Hop]
        ensures { result.now ≡ self.now.hops }
    {
        &self.hops
    }

    /// Whether one of its patterns has the tag.
    pub fn takes<B: Allocator>(&self, tag: &Tag<B>) -> bool
        ensures { IsTrue result ↔ HaveTag self.now.patterns tag.now }
    {
        have_tag(&self.patterns, tag)
    }
}

impl<A: Allocator + Copy> RouteRule<A> {
    // A match, in memory of its own.
    fn copied<B: Allocator>(alloc: A, rule: &MatchRule<B>) -> Result<RouteRule<A>, AllocError>
        ensures { IfOk result (λ made. made ≡ rule_of rule.now) }
    {
        Ok(RouteRule {
            patterns: copied_plains(alloc, &rule.patterns)?,
            hops: hops_of_outputs(alloc, &rule.outputs)?,
        })
    }
}

/// The matches of a scope.
#[derive(Drop)]
pub(crate) struct RouteScope<A: Allocator> {
    rules: Vec<RouteRule<A>, A>,
}

impl<A: Allocator> Model for RouteScope<A> {
    ghost use Rattle.std.specs.Prelude.{List};
    ghost use Rattle.route_graph.specs.Table.{Rule};

    ghost Value = { List Rule };

    ghost view = { λ scope. scope.rules.items };
}

impl<A: Allocator> RouteScope<A> {
    /// The first match one of whose patterns has the tag.
    pub fn taker<B: Allocator>(&self, tag: &Tag<B>) -> Option<&RouteRule<A>>
        ensures { MatchOption (option_copied result)
            ((rule : Rule) → ¬ IsTakenBy self.now tag.now rule)
            (IsTakenBy self.now tag.now) }
    {
        for rule in &self.rules {
            if rule.takes(tag) {
                return Some(rule);
            }
        }
        None
    }
}

impl<A: Allocator + Copy> RouteScope<A> {
    /// The matches of a scope, in memory of their own.
    pub fn copied<B: Allocator>(alloc: A, scope: &Scope<B>) -> Result<RouteScope<A>, AllocError>
        ensures { IfOk result (λ made. made ≡ rules_of scope.now) }
    {
        let mut rules = Vec::with_capacity(alloc, scope.matches.len())?;
        for rule in &scope.matches {
            rules.push(RouteRule::copied(alloc, rule)?)?;
        }
        Ok(RouteScope { rules })
    }
}

/// Whether one of the patterns has the tag.
pub fn have_tag<A: Allocator, B: Allocator>(patterns: &[Plain<A>], tag: &Tag<B>) -> bool
    ensures { IsTrue result ↔ HaveTag patterns.now tag.now }
{
    for pattern in patterns {
        if matches(pattern, tag) {
            return true;
        }
    }
    false
}

// Where the outputs take an event, in their order.
fn hops_of_outputs<A: Allocator + Copy, B: Allocator>(
    alloc: A,
    outputs: &[Output<B>],
) -> Result<Vec<Hop, A>, AllocError>
    ensures { IfOk result (λ hops. hops.items ≡ filter_map hop_of outputs.now) }
{
    let mut hops = Vec::new(alloc);
    for output in outputs {
        if let Some(hop) = taken_hop(output) {
            hops.push(hop)?;
        }
    }
    Ok(hops)
}

// Where the output takes an event, unless it lets it go.
fn taken_hop<A: Allocator>(output: &Output<A>) -> Option<Hop>
    ensures { result ≡ hop_of output.now }
{
    match output {
        Output::Null { line: _ } => None,
        Output::Relabel { target, line: _ } => Some(Hop::Scope(*target)),
        Output::Forward { settings, line: _ } => Some(Hop::Buffer(settings.number)),
        Output::File { settings, line: _ } => Some(Hop::Buffer(settings.number)),
    }
}

// The patterns, in memory of their own.
fn copied_plains<A: Allocator + Copy, B: Allocator>(
    alloc: A,
    plains: &[Plain<B>],
) -> Result<Vec<Plain<A>, A>, AllocError>
    ensures { IfOk result (λ copies. copies.items ≡ plains.now) }
{
    let mut copies = Vec::with_capacity(alloc, plains.len())?;
    for plain in plains {
        copies.push(copied_plain(alloc, plain)?)?;
    }
    Ok(copies)
}

// The pattern, in memory of its own.
fn copied_plain<A: Allocator + Copy, B: Allocator>(
    alloc: A,
    plain: &Plain<B>,
) -> Result<Plain<A>, AllocError>
    ensures { IfOk result (λ copy. copy ≡ plain.now) }
{
    let items = plain.items();
    let mut copies = Vec::with_capacity(alloc, items.len())?;
    for item in items {
        copies.push(copied_item(alloc, item)?)?;
    }
    Ok(Plain::new(copies))
}
