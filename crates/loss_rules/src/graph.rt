//! The relabels of a relay's reached matches, as a graph of its scopes.

ghost use Rattle.std.specs.Prelude.{◌≡◌, ◌<◌, ◌↔◌, ℕ, ◌++◌, length, Contains, IfOk, OnOk, IsTrue};
ghost use Rattle.std.specs.List.{filter_map};
ghost use Rattle.route_graph.specs.Chains.{Chain};
ghost use Rattle.loss_rules.specs.Everywhere.{AreLines};
ghost use Rattle.loss_rules.specs.Lines.{AddsLines};
ghost use Rattle.loss_rules.specs.Graphs.{relabel_of, relabels_at, Leads, IsGraphOf, IsOnCycle, IsOnCycleFrom};
ghost use Rattle.loss_rules.specs.Rules.{HasReachedRelabel};

use crate::by_site::Reaches;
use crate::fitting::is_reached;
use crate::ordered::put_in_order;
use crate::relabel::{Relabel, as_relabel};
use crate::site::{Site, matches_at, scope_count};
use crate::visit::ScopeSearch;
use relay_conf::Output;
use relay_net::Net;
use std::alloc::{AllocError, Allocator};
use std::marker::Model;

/// The relabels of one scope. To contracts it is their list.
#[derive(Drop)]
pub(crate) struct ScopeRelabels<A: Allocator> {
    relabels: Vec<Relabel, A>,
}

impl<A: Allocator> Model for ScopeRelabels<A> {
    ghost use Rattle.std.specs.Prelude.{List};
    ghost use Rattle.loss_rules.specs.declared.relabel.Relabel.{Relabel};

    ghost Value = { List Relabel };

    ghost view = { λ scope. scope.relabels.items };
}

impl<A: Allocator> ScopeRelabels<A> {
    // Those of the reached matches of this scope.
    fn new<B: Allocator + Copy>(
        alloc: A,
        net: &Net<B>,
        place: usize,
        scope: usize,
        reaches: &Reaches<'_, B>,
    ) -> Result<ScopeRelabels<A>, AllocError>
        ensures { IfOk result
            (λ found. (target line : ℕ) → Contains found (record { target = target; line = line })
            ↔ HasReachedRelabel net.now reaches.now place scope target line) }
    {
        let mut found = ScopeRelabels {
            relabels: Vec::new(alloc),
        };
        for (rule, taker) in matches_at(net, place, scope).iter().enumerate() {
            let at = Site {
                place,
                scope,
                rule,
                output: 0,
            };
            if is_reached(reaches, at) {
                found.add(&taker.outputs)?;
            }
        }
        Ok(found)
    }

    // The relabels, in the order in which they were added.
    fn relabels(&self) -> &[Relabel]
        ensures { result.now ≡ self.now }
    {
        &self.relabels
    }

    // Adds the relabels among these outputs.
    fn add<B: Allocator>(&mut self, outputs: &[Output<B>]) -> Result<(), AllocError>
        ensures { OnOk result (self.new ≡ self.old ++ filter_map relabel_of outputs.now) }
    {
        for output in outputs {
            if let Some(relabel) = as_relabel(output) {
                self.relabels.push(relabel)?;
            }
        }
        Ok(())
    }
}

/// The relabels of the reached matches of a relay. To contracts it is the list of them for each
/// scope of the relay.
#[derive(Drop)]
pub(crate) struct RelabelGraph<A: Allocator> {
    scopes: Vec<ScopeRelabels<A>, A>,
}

impl<A: Allocator> Model for RelabelGraph<A> {
    ghost use Rattle.std.specs.Prelude.{List};
    ghost use Rattle.loss_rules.specs.declared.relabel.Relabel.{Relabel};

    ghost Value = { List (List Relabel) };

    ghost view = { λ graph. graph.scopes.items };
}

impl<A: Allocator + Copy> RelabelGraph<A> {
    /// The relabels of the reached matches of the relay at this place. Each of its matches is
    /// looked up among the reaches.
    pub fn new<B: Allocator + Copy>(
        alloc: A,
        net: &Net<B>,
        place: usize,
        reaches: &Reaches<'_, B>,
    ) -> Result<RelabelGraph<A>, AllocError>
        ensures { IfOk result (IsGraphOf net.now reaches.now place) }
    {
        let mut scopes = Vec::new(alloc);
        for scope in 0..scope_count(net, place) {
            scopes.push(ScopeRelabels::new(alloc, net, place, scope, reaches)?)?;
        }
        Ok(RelabelGraph { scopes })
    }

    /// The lines of the relabels on a cycle, in rising order.
    pub fn cycle_lines(&self) -> Result<Vec<usize, A>, AllocError>
        ensures { IfOk result (λ lines. AreLines (IsOnCycle self.now) lines.items) }
    {
        let mut lines = Vec::new(*self.scopes.allocator());
        for scope in 0..self.scopes.len() {
            self.add_lines_from(scope, &mut lines)?;
        }
        put_in_order(&mut lines);
        Ok(lines)
    }

    // Adds the lines of the relabels of the scope whose targets lead back to it.
    fn add_lines_from(&self, scope: usize, lines: &mut Vec<usize, A>) -> Result<(), AllocError>
        requires { scope < length self.now }
        ensures { OnOk result
            (AddsLines (IsOnCycleFrom self.now scope) lines.old.items lines.new.items) }
    {
        for relabel in self.relabels(scope) {
            if self.leads(relabel.target, scope)? {
                lines.push(relabel.line)?;
            }
        }
        Ok(())
    }

    // Whether a chain of relabels, which may be empty, leads from the one scope to the other.
    fn leads(&self, start: usize, last: usize) -> Result<bool, AllocError>
        requires { last < length self.now }
        ensures { IfOk result (λ found. IsTrue found ↔ Chain (Leads self.now) start last) }
    {
        let mut visit = ScopeSearch::begin(*self.scopes.allocator(), self.scopes.len(), start)?;
        while let Some(scope) = visit.next() {
            if !visit.is_marked(scope) {
                visit.mark(scope);
                visit.follow(self.relabels(scope))?;
            }
        }
        Ok(visit.is_marked(last))
    }

    // The relabels of the scope. One that isn't there has none.
    fn relabels(&self, scope: usize) -> &[Relabel]
        ensures { result.now ≡ relabels_at self.now scope }
    {
        match self.scopes.get(scope) {
            Some(found) => found.relabels(),
            None => &[],
        }
    }
}
