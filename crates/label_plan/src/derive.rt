//! Labels and reaches, derived from what the clients send: a worklist of labels, each of which is
//! taken through the matches of its scope once. What is derived here is only proposed: that it
//! closes the plan is decided by the rules' own deciders, of what was written.

use crate::lines::{put_label, put_reach};
use crate::manner::Manner;
use crate::pattern::{any_tag, copied, prefixed, widened};
use crate::stock::{Stock, matches_at};
use crate::task::{FIRST, Gate, Origin, Task, has_passed};
use loss_rules::fits_any;
use plan_lines::{Plan, Reach};
use relay_conf::{MatchRule, Output, Server};
use relay_net::{Client, Entrance, Net};
use std::alloc::{AllocError, Allocator};
use tag_pattern::{Plain, Prefix, apart, fits, fits_entered};

/// The most labels that are taken through their scopes.
const MOST_LABELS: usize = 65_536;

/// The lines that the plan lacks; nothing where there are too many labels.
pub(crate) fn derived<A: Allocator + Copy>(
    alloc: A,
    plan: &Plan<A>,
    manner: Manner,
) -> Result<Option<Vec<u8, A>>, AllocError> {
    let mut deriver = Deriver {
        alloc,
        net: plan.net(),
        manner,
        stock: Stock::new(alloc),
        tasks: Vec::new(alloc),
        lines: Vec::new(alloc),
    };
    if deriver.derive(plan)? {
        Ok(Some(deriver.lines))
    } else {
        Ok(None)
    }
}

// What was derived so far.
#[derive(Drop)]
struct Deriver<'a, A: Allocator> {
    alloc: A,
    net: &'a Net<A>,
    manner: Manner,
    stock: Stock<A>,
    tasks: Vec<Task<A>, A>,
    lines: Vec<u8, A>,
}

impl<'a, A: Allocator + Copy> Deriver<'a, A> {
    // Takes in what the plan has, and what its clients send, and then label after label through its
    // scope. No, where there are too many labels.
    fn derive(&mut self, plan: &Plan<A>) -> Result<bool, AllocError> {
        self.take_labels(plan)?;
        self.take_reaches(plan)?;
        self.spread_reaches(plan)?;
        self.take_clients()?;
        self.take_all()
    }

    // Takes in the labels that the plan has.
    fn take_labels(&mut self, plan: &Plan<A>) -> Result<(), AllocError> {
        for label in plan.labels() {
            let at = Entrance {
                relay: label.place,
                scope: label.scope,
            };
            self.keep_given(at, &label.patterns)?;
        }
        Ok(())
    }

    // Takes in labels of this scope that the plan has.
    fn keep_given(&mut self, at: Entrance, patterns: &[Plain<A>]) -> Result<(), AllocError> {
        for pattern in patterns {
            self.keep_label(at, pattern, true, FIRST)?;
        }
        Ok(())
    }

    // Takes in the reaches that the plan has.
    fn take_reaches(&mut self, plan: &Plan<A>) -> Result<(), AllocError> {
        for reach in plan.reaches() {
            let at = Entrance {
                relay: reach.place,
                scope: reach.scope,
            };
            self.stock.keep_reaches(at, reach.rule, &reach.patterns)?;
        }
        Ok(())
    }

    // Follows the reaches that the plan has.
    fn spread_reaches(&mut self, plan: &Plan<A>) -> Result<(), AllocError> {
        for reach in plan.reaches() {
            self.spread_reach(reach)?;
        }
        Ok(())
    }

    // Follows this reach.
    fn spread_reach(&mut self, reach: &Reach<A>) -> Result<(), AllocError> {
        let at = Entrance {
            relay: reach.place,
            scope: reach.scope,
        };
        let Some(found) = matches_at(self.net, at).get(reach.rule) else {
            return Ok(());
        };
        for pattern in &reach.patterns {
            self.spread(at, &found.outputs, pattern, FIRST)?;
        }
        Ok(())
    }

    // Labels what the clients send.
    fn take_clients(&mut self) -> Result<(), AllocError> {
        let net = self.net;
        for (number, client) in net.clients().iter().enumerate() {
            if let Some(host) = net.client_host(number) {
                self.take_client(host, client)?;
            }
        }
        Ok(())
    }

    // Labels what the client sends to this host.
    fn take_client(&mut self, host: &[u8], client: &Client<A>) -> Result<(), AllocError> {
        for pattern in &client.patterns {
            self.enter(host, client.port, pattern, FIRST)?;
        }
        Ok(())
    }

    // Takes label after label through its scope; no, where there are too many.
    fn take_all(&mut self) -> Result<bool, AllocError> {
        for next in 0..MOST_LABELS {
            if next >= self.tasks.len() {
                return Ok(true);
            }
            self.take(next)?;
        }
        Ok(false)
    }

    // Adds the line of this task's label, if it is new, and takes it through its scope.
    fn take(&mut self, number: usize) -> Result<(), AllocError> {
        let Some(task) = self.tasks.get(number) else {
            return Ok(());
        };
        let at = task.at;
        let pattern = copied(self.alloc, &task.pattern)?;
        let origin = Origin {
            from: Some(number),
            gate: None,
            widenings: task.origin.widenings,
        };
        if !task.is_given {
            put_label(self.alloc, &mut self.lines, self.net, at, &pattern)?;
        }
        self.take_through(at, &pattern, origin)
    }

    // Takes the pattern of a label of this scope through its matches, up to the first that it fits.
    fn take_through(
        &mut self,
        at: Entrance,
        pattern: &Plain<A>,
        origin: Origin,
    ) -> Result<(), AllocError> {
        for (rule, found) in matches_at(self.net, at).iter().enumerate() {
            if fits_any(pattern, &found.patterns) {
                return self.reach(at, rule, found, pattern, origin);
            }
            self.meet(at, rule, found, pattern, origin)?;
        }
        Ok(())
    }

    // Takes the label's pattern to a match that it doesn't fit, by each pattern of the match that
    // it meets.
    fn meet(
        &mut self,
        at: Entrance,
        rule: usize,
        found: &MatchRule<A>,
        label: &Plain<A>,
        origin: Origin,
    ) -> Result<(), AllocError> {
        for other in &found.patterns {
            if !apart(other, label)
                && !self.stock.knows_reach(at, rule, label)
                && !self.stock.knows_reach(at, rule, other)
            {
                let narrower = narrower(self.net, self.manner, at, &found.outputs, label, other);
                self.reach(at, rule, found, narrower, origin)?;
            }
        }
        Ok(())
    }

    // Adds a reach of the match, unless it fits one, and follows it.
    fn reach(
        &mut self,
        at: Entrance,
        rule: usize,
        found: &MatchRule<A>,
        pattern: &Plain<A>,
        origin: Origin,
    ) -> Result<(), AllocError> {
        if self.stock.knows_reach(at, rule, pattern) {
            return Ok(());
        }
        self.stock.keep_reach(at, rule, pattern)?;
        put_reach(self.alloc, &mut self.lines, self.net, at, rule, pattern)?;
        self.spread(at, &found.outputs, pattern, origin)
    }

    // Labels the scopes to which these outputs, those of a match of the scope, send the pattern's
    // tags.
    fn spread(
        &mut self,
        at: Entrance,
        outputs: &[Output<A>],
        pattern: &Plain<A>,
        origin: Origin,
    ) -> Result<(), AllocError> {
        for output in outputs {
            match output {
                Output::Relabel { target, line: _ } => {
                    let target = Entrance {
                        relay: at.relay,
                        scope: target.0,
                    };
                    self.label(target, pattern, origin)?;
                }
                Output::Forward { settings, line: _ } => {
                    self.enter_all(&settings.servers, pattern, origin)?;
                }
                _ => {}
            }
        }
        Ok(())
    }

    // Labels the scopes into which the sources lead that these servers are.
    fn enter_all(
        &mut self,
        servers: &[Server<A>],
        pattern: &Plain<A>,
        origin: Origin,
    ) -> Result<(), AllocError> {
        for server in servers {
            self.enter(server.host.as_bytes(), server.port, pattern, origin)?;
        }
        Ok(())
    }

    // Labels the scope into which the source with this address leads.
    fn enter(
        &mut self,
        host: &[u8],
        port: u16,
        pattern: &Plain<A>,
        origin: Origin,
    ) -> Result<(), AllocError> {
        let net = self.net;
        let Some(at) = net.entrance(host, port) else {
            return Ok(());
        };
        match net.prefix(host, port) {
            None => self.label(at, pattern, origin),
            Some(prefix) => {
                let gate = Gate {
                    relay: at.relay,
                    port,
                };
                self.enter_gate(at, gate, prefix, pattern, origin)
            }
        }
    }

    // Labels the scope behind a source with a prefix. What comes through it for a second time on
    // its way, and fits no label there, is widened: by `**` in place of the prefix, and then to
    // `**`.
    fn enter_gate(
        &mut self,
        at: Entrance,
        gate: Gate,
        prefix: &Prefix<A>,
        pattern: &Plain<A>,
        origin: Origin,
    ) -> Result<(), AllocError> {
        let longer = prefixed(self.alloc, prefix, pattern)?;
        if self.stock.knows_label(at, &longer) {
            return Ok(());
        }
        let comes_back = has_passed(&self.tasks, origin.from, gate);
        let here = Origin {
            from: origin.from,
            gate: Some(gate),
            widenings: if comes_back { 1 } else { origin.widenings },
        };
        if self.manner.widest || (comes_back && origin.widenings > 0) {
            self.label_any(at, here)
        } else if comes_back {
            self.label_wider(at, pattern, here)
        } else {
            self.label(at, &longer, here)
        }
    }

    // Adds the label `**` of the scope, unless it fits one.
    fn label_any(&mut self, at: Entrance, origin: Origin) -> Result<(), AllocError> {
        let any = any_tag(self.alloc)?;
        self.label(at, &any, origin)
    }

    // Adds a label of the scope, the pattern with `**` in place of a prefix, unless it fits one.
    fn label_wider(
        &mut self,
        at: Entrance,
        pattern: &Plain<A>,
        origin: Origin,
    ) -> Result<(), AllocError> {
        let wider = widened(self.alloc, pattern)?;
        self.label(at, &wider, origin)
    }

    // Adds a label of the scope, unless it fits one.
    fn label(
        &mut self,
        at: Entrance,
        pattern: &Plain<A>,
        origin: Origin,
    ) -> Result<(), AllocError> {
        if self.stock.knows_label(at, pattern) {
            return Ok(());
        }
        self.keep_label(at, pattern, false, origin)
    }

    // Keeps a label, to be taken through its scope.
    fn keep_label(
        &mut self,
        at: Entrance,
        pattern: &Plain<A>,
        is_given: bool,
        origin: Origin,
    ) -> Result<(), AllocError> {
        self.stock.keep_label(at, pattern)?;
        self.tasks.push(Task {
            at,
            pattern: copied(self.alloc, pattern)?,
            is_given,
            origin,
        })?;
        Ok(())
    }
}

// The narrower of a label's and a match's pattern. Where neither fits the other, it is the one that
// all targets of these outputs, those of a match of the scope, have a match for, and else the
// preferred one.
fn narrower<'p, A: Allocator + Copy>(
    net: &Net<A>,
    manner: Manner,
    at: Entrance,
    outputs: &[Output<A>],
    label: &'p Plain<A>,
    other: &'p Plain<A>,
) -> &'p Plain<A> {
    if fits(other, label) {
        return other;
    }
    let label_goes_on = all_match(net, at, outputs, label);
    let is_label = if label_goes_on == all_match(net, at, outputs, other) {
        manner.prefers_label
    } else {
        label_goes_on
    };
    if is_label { label } else { other }
}

// Whether each scope to which one of these outputs, those of a match of the scope, sends the
// pattern's tags has a match that they fit.
fn all_match<A: Allocator + Copy>(
    net: &Net<A>,
    at: Entrance,
    outputs: &[Output<A>],
    pattern: &Plain<A>,
) -> bool {
    for output in outputs {
        if !has_match(net, at, output, pattern) {
            return false;
        }
    }
    true
}

// Whether each scope to which the output, that of a match of the scope, sends the pattern's tags
// has a match that they fit.
fn has_match<A: Allocator + Copy>(
    net: &Net<A>,
    at: Entrance,
    output: &Output<A>,
    pattern: &Plain<A>,
) -> bool {
    match output {
        Output::Relabel { target, line: _ } => {
            let target = Entrance {
                relay: at.relay,
                scope: target.0,
            };
            fits_match(matches_at(net, target), pattern)
        }
        Output::Forward { settings, line: _ } => are_taken(net, &settings.servers, pattern),
        _ => true,
    }
}

// Whether the pattern fits one of the matches.
fn fits_match<A: Allocator>(matches: &[MatchRule<A>], pattern: &Plain<A>) -> bool {
    for found in matches {
        if fits_any(pattern, &found.patterns) {
            return true;
        }
    }
    false
}

// Whether the scope into which each of the servers leads has a match that the pattern fits there.
fn are_taken<A: Allocator + Copy>(net: &Net<A>, servers: &[Server<A>], pattern: &Plain<A>) -> bool {
    for server in servers {
        if !is_taken(net, server, pattern) {
            return false;
        }
    }
    true
}

// Whether the pattern, with the prefix in front if there is one, fits a match of the scope.
fn is_matched<A: Allocator + Copy>(
    net: &Net<A>,
    at: Entrance,
    prefix: Option<&Prefix<A>>,
    pattern: &Plain<A>,
) -> bool {
    for found in matches_at(net, at) {
        if fits_any_entered(prefix, pattern, &found.patterns) {
            return true;
        }
    }
    false
}

// Whether the pattern, with the prefix in front if there is one, fits one of the others.
fn fits_any_entered<A: Allocator>(
    prefix: Option<&Prefix<A>>,
    pattern: &Plain<A>,
    others: &[Plain<A>],
) -> bool {
    for other in others {
        if fits_entered(prefix, pattern, other) {
            return true;
        }
    }
    false
}

// Whether the scope into which the server leads has a match that the pattern fits there.
fn is_taken<A: Allocator + Copy>(net: &Net<A>, server: &Server<A>, pattern: &Plain<A>) -> bool {
    let host = server.host.as_bytes();
    match net.entrance(host, server.port) {
        Some(at) => is_matched(net, at, net.prefix(host, server.port), pattern),
        None => true,
    }
}
