//! The routes of a relay, and the search for an event's way along them.

ghost use Rattle.std.specs.Prelude.{◌≡◌, IfOk, MatchOption};
ghost use Rattle.std.specs.Option.{option_copied};
ghost use Rattle.route_graph.specs.Listing.{IsWay, HasLeaves, HasEachOnce};
ghost use Rattle.route_graph.specs.Table.{Rule, table_of};
ghost use Rattle.route_graph.specs.Walks.{AreHopsFrom};
ghost use Rattle.route_graph.specs.Ways.{IsTakenBy, rules_at};

use crate::hop::Hop;
use crate::table::{RouteRule, RouteScope};
use crate::visit::{LeafSearch, Mark, Step};
use crate::way::Way;
use relay_conf::{Relay, ScopeNo};
use std::alloc::{AllocError, Allocator};
use std::marker::Model;
use tag_pattern::Tag;

/// The scopes, matches and outputs of a relay, as far as the ways of its events depend on them. To
/// contracts it is that table.
pub struct Routes<A: Allocator> {
    scopes: Vec<RouteScope<A>, A>,
}

// By hand, so that crates above don't prove again how its parts end.
impl<A: Allocator> Drop for Routes<A> {
    fn drop(self) {
        let Routes { scopes: _ } = self;
    }
}

impl<A: Allocator> Model for Routes<A> {
    ghost use Rattle.route_graph.specs.Table.{Table};

    ghost Value = { Table };

    ghost view = { λ routes. routes.scopes.items };
}

impl<A: Allocator + Copy> Routes<A> {
    /// The routes of this relay, in memory of their own.
    pub fn new<B: Allocator>(alloc: A, relay: &Relay<B>) -> Result<Routes<A>, AllocError>
        ensures { IfOk result (λ routes. routes ≡ table_of relay.now) }
    {
        let mut scopes = Vec::with_capacity(alloc, relay.scopes.len())?;
        for scope in &relay.scopes {
            scopes.push(RouteScope::copied(alloc, scope)?)?;
        }
        Ok(Routes { scopes })
    }

    /// The way of an event with this tag that comes into this scope. From a scope that isn't there
    /// it reaches nothing.
    ///
    /// Each scope that is reached is gone through once, and each of its patterns compared with the
    /// tag once at most, so copies of relabels cost no more than the outputs that they have, each
    /// with a look into a set of the buffers found before.
    pub fn way<B: Allocator>(&self, scope: ScopeNo, tag: &Tag<B>) -> Result<Way<A>, AllocError>
        ensures way { IfOk result (IsWay self.now tag.now scope.0) }
        ensures leaves { IfOk result (HasLeaves self.now tag.now scope.0) }
        ensures once { IfOk result HasEachOnce }
    {
        let mut visit = LeafSearch::begin(*self.scopes.allocator(), self.scopes.len(), scope)?;
        while let Some(step) = visit.next() {
            match step {
                Step::Leave(left) => visit.leave(left),
                Step::Take(hop) => match hop {
                    Hop::Buffer(buffer) => visit.add(buffer)?,
                    Hop::Scope(target) => match visit.mark(target) {
                        Mark::Done => {}
                        Mark::Open => return Ok(Way::Loop),
                        Mark::New => visit.enter(target, self.hops_from(target, tag))?,
                    },
                },
            }
        }
        Ok(Way::Leaves(visit.into_found()))
    }

    // Where an event with this tag that comes into the scope is handed to.
    fn hops_from<B: Allocator>(&self, scope: ScopeNo, tag: &Tag<B>) -> &[Hop]
        ensures { AreHopsFrom self.now tag.now scope.0 result.now }
    {
        match self.taker(scope, tag) {
            Some(rule) => rule.hops(),
            None => &[],
        }
    }

    // The match of the scope that takes an event with this tag.
    fn taker<B: Allocator>(&self, scope: ScopeNo, tag: &Tag<B>) -> Option<&RouteRule<A>>
        ensures { MatchOption (option_copied result)
            ((rule : Rule) → ¬ IsTakenBy (rules_at self.now scope.0) tag.now rule)
            (IsTakenBy (rules_at self.now scope.0) tag.now) }
    {
        let found = self.scopes.get(scope.0)?;
        found.taker(tag)
    }
}
