//! The rules on a relay's own matches and outputs: reached matches keep, relabels are labelled.

ghost use Rattle.std.specs.Prelude.{◌≡◌, ◌↔◌, ℕ, [], IfOk, IsTrue, All, Any};
ghost use Rattle.loss_rules.specs.Everywhere.{AreInConf, BreaksAtMatch, BreaksAtOutput};
ghost use Rattle.loss_rules.specs.Labels.{IsReached};
ghost use Rattle.loss_rules.specs.Rules.{ReachedMatchesDo, DoesDuty, KeepsOrRelabels, RelabelsAreLabelled, IsLabelledRelabel};
ghost use Rattle.loss_rules.specs.Sites.{RelabelsTo};

use crate::answer::Place;
use crate::by_site::{Labels, Reaches};
use crate::fitting::{is_reached, no_prefix, reaches_fit_label};
use crate::label::Duty;
use crate::requirement::{OfOutputs, Requirement, add_unless, broken_places};
use crate::site::Site;
use relay_conf::{MatchRule, Output};
use relay_net::{Entrance, Net, keeps};
use std::alloc::{AllocError, Allocator};

/// Each match that has a reach, and neither an output that keeps nor a relabel; or, under the duty
/// every, an output that is none of these. For each match its reaches are looked up once. The only
/// error is want of memory.
pub fn reached_matches_keep<'a, 'b, A: Allocator + Copy, B: Allocator + Copy>(
    alloc: B,
    net: &Net<A>,
    duty: Duty,
    reaches: &'a Reaches<'b, A>,
) -> Result<Vec<Place, B>, AllocError>
    ensures listed { IfOk result
        (λ places. AreInConf net.now
        (BreaksAtMatch net.now
        (λ place scope rule found. IsReached reaches.now place scope rule → DoesDuty duty found))
        places.items) }
    ensures kept { IfOk result
        (λ places. places.items ≡ [] → ReachedMatchesDo net.now duty reaches.now) }
{
    broken_places(alloc, net, &KeepsIfReached { duty, reaches })
}

/// Each relabel with a reach of its match that fits no label of the relabel's target.
/// For each relabel each pattern of its match's reaches is compared with those of the target's
/// labels. The only error is want of memory.
pub fn relabels_are_labelled<'a, 'b, A: Allocator + Copy, B: Allocator + Copy>(
    alloc: B,
    net: &Net<A>,
    labels: &'a Labels<'b, A>,
    reaches: &'a Reaches<'b, A>,
) -> Result<Vec<Place, B>, AllocError>
    ensures listed { IfOk result
        (λ places. AreInConf net.now
        (BreaksAtOutput net.now
        (λ place scope rule output found. IsLabelledRelabel labels.now reaches.now place scope rule
        found)) places.items) }
    ensures kept { IfOk result
        (λ places. places.items ≡ [] → RelabelsAreLabelled net.now labels.now reaches.now) }
{
    broken_places(alloc, net, &OfOutputs(RelabelsToLabel { labels, reaches }))
}

// The match does what is asked of it, if it has a reach.
#[derive(Drop)]
struct KeepsIfReached<'a, 'b, A: Allocator> {
    duty: Duty,
    reaches: &'a Reaches<'b, A>,
}

impl<A: Allocator + Copy> Requirement<MatchRule<A>> for KeepsIfReached<'_, '_, A> {
    ghost use Rattle.std.specs.Prelude.{◌≡◌};
    ghost use Rattle.loss_rules.specs.Labels.{IsReached};
    ghost use Rattle.loss_rules.specs.Rules.{DoesDuty};

    ghost keeps = { λ asked at found. IsReached asked.reaches.now at.place at.scope at.rule
        → DoesDuty asked.duty found };

    ghost breaks = { λ asked at found line. (found.line ≡ line)
        × ¬ (IsReached asked.reaches.now at.place at.scope at.rule → DoesDuty asked.duty found) };

    fn add_lines<B: Allocator + Copy>(
        &self,
        at: Site,
        found: &MatchRule<A>,
        lines: &mut Vec<usize, B>,
    ) -> Result<(), AllocError> {
        let kept = !is_reached(self.reaches, at) || does_duty(self.duty, found);
        add_unless(kept, found.line, lines)
    }
}

// Each reach of the output's match fits a label of the scope that the output sends events on to, if
// it is a relabel.
#[derive(Drop)]
struct RelabelsToLabel<'a, 'b, A: Allocator> {
    labels: &'a Labels<'b, A>,
    reaches: &'a Reaches<'b, A>,
}

impl<A: Allocator + Copy> Requirement<Output<A>> for RelabelsToLabel<'_, '_, A> {
    ghost use Rattle.std.specs.Prelude.{◌≡◌};
    ghost use Rattle.loss_rules.specs.Rules.{IsLabelledRelabel};
    ghost use Rattle.loss_rules.specs.Sites.{line_of};

    ghost keeps = { λ asked at found. IsLabelledRelabel asked.labels.now asked.reaches.now at.place
        at.scope at.rule found };

    ghost breaks = { λ asked at found line. (line_of found ≡ line)
        × ¬ IsLabelledRelabel asked.labels.now asked.reaches.now at.place at.scope at.rule found };

    fn add_lines<B: Allocator + Copy>(
        &self,
        at: Site,
        found: &Output<A>,
        lines: &mut Vec<usize, B>,
    ) -> Result<(), AllocError> {
        let Output::Relabel { target, line } = found else {
            return Ok(());
        };
        let scope = Entrance {
            relay: at.place,
            scope: target.0,
        };
        let none = no_prefix(self.labels);
        let kept = reaches_fit_label(self.labels, self.reaches, at, scope, none);
        add_unless(kept, *line, lines)
    }
}

// Whether the match does what is asked of it.
fn does_duty<A: Allocator>(duty: Duty, found: &MatchRule<A>) -> bool
    ensures { IsTrue result ↔ DoesDuty duty found.now }
{
    let one = keep_or_relabel(&found.outputs);
    match duty {
        Duty::Any => one,
        Duty::Every => one && all_keep_or_relabel(&found.outputs),
    }
}

// Whether each of the outputs keeps, or sends events on to another scope.
fn all_keep_or_relabel<A: Allocator>(outputs: &[Output<A>]) -> bool
    ensures { IsTrue result
        ↔ All KeepsOrRelabels outputs.now }
{
    for output in outputs {
        if !keeps_or_relabels(output) {
            return false;
        }
    }
    true
}

// Whether one of the outputs keeps, or sends events on to another scope.
fn keep_or_relabel<A: Allocator>(outputs: &[Output<A>]) -> bool
    ensures { IsTrue result
        ↔ Any KeepsOrRelabels outputs.now }
{
    for output in outputs {
        if keeps_or_relabels(output) {
            return true;
        }
    }
    false
}

// Whether the output keeps, or sends events on to another scope.
fn keeps_or_relabels<A: Allocator>(output: &Output<A>) -> bool
    ensures { IsTrue result ↔ KeepsOrRelabels output.now }
{
    keeps(output) || is_relabel(output)
}

// Whether the output sends events on to another scope.
fn is_relabel<A: Allocator>(output: &Output<A>) -> bool
    ensures { IsTrue result ↔ ((scope : ℕ) × RelabelsTo output.now scope) }
{
    match output {
        Output::Relabel { target: _, line: _ } => true,
        _ => false,
    }
}
