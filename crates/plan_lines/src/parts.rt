//! What the lines of a plan say, as parts that can be changed before a plan is made of them.

ghost use Rattle.std.specs.Prelude.{◌≡◌, length, IfOk, IfErr};
ghost use Rattle.plan_lines.specs.Drafts.{draft_of};
ghost use Rattle.plan_lines.specs.Faults.{IsRefusal};
ghost use Rattle.plan_lines.specs.Forms.{confs_named};
ghost use Rattle.plan_lines.specs.Parts.{plan_of as plan_of_parts, IsWhole};
ghost use Rattle.plan_lines.specs.Plans.{texts, IsPlanOf};

use crate::draft::Draft;
use crate::error::PlanError;
use loss_rules::{Duty, Label, Reach, RelayLine};
use relay_net::{Client, Node};
use std::alloc::Allocator;
use text_lines::lines;

/// What the lines of a plan say, each kind in the order of its lines. `Plan::of_parts` makes a plan
/// of it.
#[derive(Drop)]
pub struct PlanParts<A: Allocator> {
    /// The relays.
    pub relays: Vec<Node<A>, A>,
    /// The folder and the line of each relay.
    pub relay_lines: Vec<RelayLine<A>, A>,
    /// The clients.
    pub clients: Vec<Client<A>, A>,
    /// The line of each client, counted from 1.
    pub client_lines: Vec<usize, A>,
    /// The tags that may reach scopes.
    pub labels: Vec<Label<A>, A>,
    /// The tags that may reach matches.
    pub reaches: Vec<Reach<A>, A>,
    /// What is asked of each reached match.
    pub duty: Duty,
}

impl<A: Allocator + Copy> PlanParts<A> {
    /// Reads what `Plan::read` reads, and gives the same errors.
    pub fn read(alloc: A, net: &[u8], confs: &[Vec<u8, A>]) -> Result<PlanParts<A>, PlanError>
        requires { length confs.now ≡ length (confs_named net.now) }
        ensures plan { IfOk result
            (λ parts. IsPlanOf net.now (texts confs.now) (plan_of_parts parts)) }
        ensures whole { IfOk result (λ parts. IsWhole (plan_of_parts parts)) }
        ensures refused { IfErr result (IsRefusal A net.now (texts confs.now)) }
    {
        let lines = lines(alloc, net)?;
        let all = lines.as_slice();
        let mut draft = Draft::new(alloc);
        for at in 0..all.len() {
            match draft.add(alloc, at + 1, all[at], confs) {
                Ok(()) => {}
                Err(error) => return Err(error),
            }
        }
        Ok(parts_of(draft))
    }
}

// What the lines say that were read.
fn parts_of<A: Allocator + Copy>(draft: Draft<A>) -> PlanParts<A>
    ensures { plan_of_parts result ≡ draft_of draft }
{
    let Draft {
        relays,
        relay_lines,
        clients,
        client_lines,
        labels,
        reaches,
        duty,
    } = draft;
    PlanParts {
        relays: relays.into_nodes(),
        relay_lines,
        clients,
        client_lines,
        labels,
        reaches,
        duty,
    }
}
