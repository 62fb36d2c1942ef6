//! A plan that was read: its network, its labels and reaches, and its duty.

ghost use Rattle.std.specs.Prelude.{◌≡◌, length, IfOk, IfErr};
ghost use Rattle.loss_rules.specs.Sites.{BuffersAreDistinct};
ghost use Rattle.plan_lines.specs.Faults.{IsRefusal};
ghost use Rattle.plan_lines.specs.Forms.{confs_named};
ghost use Rattle.plan_lines.specs.Parts.{plan_of, IsWhole};
ghost use Rattle.plan_lines.specs.Plans.{texts, IsPlanOf};

use crate::error::PlanError;
use crate::parts::PlanParts;
use loss_rules::{Duty, Label, Reach, RelayLine};
use relay_net::Net;
use std::alloc::{AllocError, Allocator};
use std::marker::Model;

/// A network of relays with its clients, the tags that may reach each scope and each match, and
/// what is asked of matches. To contracts it is what the rules of a network speak of.
pub struct Plan<A: Allocator> {
    net: Net<A>,
    relay_lines: Vec<RelayLine<A>, A>,
    client_lines: Vec<usize, A>,
    labels: Vec<Label<A>, A>,
    reaches: Vec<Reach<A>, A>,
    duty: Duty,
}

// By hand, so that crates above don't prove again how its parts end.
impl<A: Allocator> Drop for Plan<A> {
    fn drop(self) {
        let Plan {
            net: _,
            relay_lines: _,
            client_lines: _,
            labels: _,
            reaches: _,
            duty: _,
        } = self;
    }
}

impl<A: Allocator> Model for Plan<A> {
    ghost use Rattle.std.specs.Prelude.{◌≡◌, length};
    ghost use Rattle.loss_rules.specs.Breaks.{Subject};
    ghost use Rattle.loss_rules.specs.Sites.{BuffersAreDistinct};

    ghost Value = { Subject A };

    ghost view = { λ plan. record {
      net = plan.net;
      relay_lines = plan.relay_lines.items;
      client_lines = plan.client_lines.items;
      labels = plan.labels.items;
      reaches = plan.reaches.items;
      duty = plan.duty;
    } };

    ghost invariant = { λ plan. (length plan.relay_lines.items ≡ length plan.net.relays)
        × (length plan.client_lines.items ≡ length plan.net.clients)
        × BuffersAreDistinct plan.net };
}

impl<A: Allocator + Copy> Plan<A> {
    /// Reads a plan, of which these are the configurations that it names: one for each name that
    /// `conf_names` gives, in their order. Lines are UTF-8 and end with LF, a CR before it is
    /// dropped; their fields are parted by spaces and tabs. Empty lines and lines that begin with
    /// `#` say nothing, and each other line is one of these:
    ///
    /// - `relay NUMBER HOST FOLDER CONF`: a relay. The number is at most 4,294,967,295; of equal
    ///   ones the first is meant. The folder is letters, digits, `_` and `-`.
    /// - `client NUMBER PORT PATTERN ..`: clients that send tags of these patterns to that source.
    /// - `label NUMBER SCOPE PATTERN ..`: tags that may reach the scope; `.` is the main scope.
    /// - `reach NUMBER SCOPE INDEX PATTERN ..`: tags that may reach the match of the scope, counted
    ///   from 0.
    /// - `duty any` or `duty every`: whether one output of each reached match has to keep, or each.
    ///   The last one counts; without one it is `any`.
    ///
    /// A relay stands before those that name it. An error is that of the first line that can't
    /// stand where it does: one of another form, then a bad number, a fault of its configuration,
    /// something that isn't there, and a bad pattern. The only other error is `Memory`.
    pub fn read(alloc: A, net: &[u8], confs: &[Vec<u8, A>]) -> Result<Plan<A>, PlanError>
        requires { length confs.now ≡ length (confs_named net.now) }
        ensures plan { IfOk result (λ plan. IsPlanOf net.now (texts confs.now) plan) }
        ensures refused { IfErr result (IsRefusal A net.now (texts confs.now)) }
    {
        let parts = PlanParts::read(alloc, net, confs)?;
        Ok(Plan::of_parts(alloc, parts)?)
    }

    /// The plan that these parts are. The only error is want of memory.
    pub fn of_parts(alloc: A, parts: PlanParts<A>) -> Result<Plan<A>, AllocError>
        requires { IsWhole (plan_of parts) }
        ensures { IfOk result (λ plan. plan ≡ plan_of parts) }
    {
        let PlanParts {
            relays,
            relay_lines,
            clients,
            client_lines,
            labels,
            reaches,
            duty,
        } = parts;
        match Net::new(alloc, relays, clients) {
            Ok(net) => Ok(Plan {
                net,
                relay_lines,
                client_lines,
                labels,
                reaches,
                duty,
            }),
            Err(_refused) => Err(AllocError),
        }
    }

    /// The network: its relays and its clients, in the order of their lines. No two outputs of a
    /// relay share a buffer.
    pub fn net(&self) -> &Net<A>
        ensures net { result.now ≡ self.now.net }
        ensures distinct { BuffersAreDistinct self.now.net }
    {
        &self.net
    }

    /// The folder and the line of each relay of the network.
    pub fn relay_lines(&self) -> &[RelayLine<A>]
        ensures lines { result.now ≡ self.now.relay_lines }
        ensures counted { length self.now.relay_lines ≡ length self.now.net.relays }
    {
        &self.relay_lines
    }

    /// The line of each client of the network, counted from 1.
    pub fn client_lines(&self) -> &[usize]
        ensures lines { result.now ≡ self.now.client_lines }
        ensures counted { length self.now.client_lines ≡ length self.now.net.clients }
    {
        &self.client_lines
    }

    /// The tags that may reach scopes, in the order of the lines.
    pub fn labels(&self) -> &[Label<A>]
        ensures { result.now ≡ self.now.labels }
    {
        &self.labels
    }

    /// The tags that may reach matches, in the order of the lines.
    pub fn reaches(&self) -> &[Reach<A>]
        ensures { result.now ≡ self.now.reaches }
    {
        &self.reaches
    }

    /// What is asked of each reached match.
    pub fn duty(&self) -> Duty
        ensures { result ≡ self.now.duty }
    {
        self.duty
    }
}
