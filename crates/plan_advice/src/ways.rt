//! The lines of a plan by which tags come to a place.

use crate::flow::match_of;
use loss_rules::Reach;
use plan_lines::Plan;
use relay_conf::{Output, Server};
use relay_net::{Client, Entrance, Node};
use std::alloc::{AllocError, Allocator};

// How many lines are looked for at most.
const MOST_LINES: usize = 24;

/// Lines of a plan by which tags come to some scopes: those of their labels, of clients that send
/// to them, and of reaches that lead there, and so for the scopes of these reaches in their turn.
/// Nearer lines stand first.
#[derive(Drop)]
pub(crate) struct Ways<'a, A: Allocator> {
    plan: &'a Plan<A>,
    scopes: Vec<Entrance, A>,
    lines: Vec<usize, A>,
}

impl<'a, A: Allocator + Copy> Ways<'a, A> {
    /// No lines.
    pub fn new(alloc: A, plan: &'a Plan<A>) -> Ways<'a, A> {
        Ways {
            plan,
            scopes: Vec::new(alloc),
            lines: Vec::new(alloc),
        }
    }

    /// Adds the reaches of the match with this index of the scope, and what leads to the scope.
    pub fn add_match(&mut self, at: Entrance, index: usize) -> Result<(), AllocError> {
        let plan = self.plan;
        for reach in plan.reaches() {
            if scope_of(reach) == at && reach.rule == index {
                self.add_line(reach.line)?;
            }
        }
        self.add_scope(at)
    }

    /// Adds a scope, unless it is there.
    pub fn add_scope(&mut self, at: Entrance) -> Result<(), AllocError> {
        if !self.scopes.contains(&at) {
            self.scopes.push(at)?;
        }
        Ok(())
    }

    // Adds a line, unless it is there or there are enough.
    fn add_line(&mut self, line: usize) -> Result<(), AllocError> {
        if self.lines.len() < MOST_LINES && !self.lines.contains(&line) {
            self.lines.push(line)?;
        }
        Ok(())
    }

    /// The lines, nearer ones first: some where there are many.
    pub fn into_lines(mut self) -> Result<Vec<usize, A>, AllocError> {
        self.go_back()?;
        Ok(self.lines)
    }

    // Adds what leads to one scope after another.
    fn go_back(&mut self) -> Result<(), AllocError> {
        for next in 0..MOST_LINES {
            let Some(here) = self.scopes.get(next).copied() else {
                return Ok(());
            };
            self.add_labels(here)?;
            self.add_clients(here)?;
            self.add_reaches(here)?;
        }
        Ok(())
    }

    // Adds the lines of the scope's labels.
    fn add_labels(&mut self, here: Entrance) -> Result<(), AllocError> {
        let plan = self.plan;
        for label in plan.labels() {
            if label.place == here.relay && label.scope == here.scope {
                self.add_line(label.line)?;
            }
        }
        Ok(())
    }

    // Adds the lines of the clients that send to a source of the scope.
    fn add_clients(&mut self, here: Entrance) -> Result<(), AllocError> {
        let plan = self.plan;
        let Some(node) = plan.net().relays().get(here.relay) else {
            return Ok(());
        };
        for (number, client) in plan.net().clients().iter().enumerate() {
            if sends_to(client, node, here.scope) {
                let line = plan.client_lines().get(number).copied().unwrap_or(0);
                self.add_line(line)?;
            }
        }
        Ok(())
    }

    // Adds the lines of the reaches that lead to the scope, and their scopes.
    fn add_reaches(&mut self, here: Entrance) -> Result<(), AllocError> {
        let plan = self.plan;
        for reach in plan.reaches() {
            if leads_to(plan, reach, here) {
                self.add_line(reach.line)?;
                self.add_scope(scope_of(reach))?;
            }
        }
        Ok(())
    }
}

// The scope of the match of a reach.
fn scope_of<A: Allocator>(reach: &Reach<A>) -> Entrance {
    Entrance {
        relay: reach.place,
        scope: reach.scope,
    }
}

// Whether the client sends to a source of this scope of the relay.
fn sends_to<A: Allocator>(client: &Client<A>, node: &Node<A>, scope: usize) -> bool {
    client.relay == node.number && enters(node, client.port, scope)
}

// Whether the relay has a source with this port that leads to the scope.
fn enters<A: Allocator>(node: &Node<A>, port: u16, scope: usize) -> bool {
    for source in &node.relay.sources {
        if source.port == port && source.label.0 == scope {
            return true;
        }
    }
    false
}

// Whether an output of the match of the reach leads to the scope.
fn leads_to<A: Allocator + Copy>(plan: &Plan<A>, reach: &Reach<A>, here: Entrance) -> bool {
    let Some(there) = plan.net().relays().get(here.relay) else {
        return false;
    };
    let Some(found) = match_of(plan, reach) else {
        return false;
    };
    for output in &found.outputs {
        if goes_to(output, reach.place, there, here) {
            return true;
        }
    }
    false
}

// Whether the output of the relay at this place goes to the scope of that relay.
fn goes_to<A: Allocator>(
    output: &Output<A>,
    place: usize,
    there: &Node<A>,
    here: Entrance,
) -> bool {
    match output {
        Output::Relabel { target, .. } => place == here.relay && target.0 == here.scope,
        Output::Forward { settings, .. } => reach_scope(&settings.servers, there, here.scope),
        _ => false,
    }
}

// Whether one of the servers is a source of the relay that leads to the scope.
fn reach_scope<A: Allocator>(servers: &[Server<A>], there: &Node<A>, scope: usize) -> bool {
    for server in servers {
        if server.host.as_str() == there.host.as_str() && enters(there, server.port, scope) {
            return true;
        }
    }
    false
}
