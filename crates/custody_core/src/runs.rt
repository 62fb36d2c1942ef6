//! Lists of steps, taken one after another, and the headline: what holds after each list.

ghost use Rattle.std.specs.Prelude.{◌≡◌, IfOk, IfErr};
ghost use Rattle.custody_core.specs.Custody.{EachBranchKeeps, NothingIsLost, NothingIsMadeUp};
ghost use Rattle.custody_core.specs.Onward.{AreHeldOnward};
ghost use Rattle.custody_steps.specs.Steps.{Steps, IsRefusedAt};
ghost use Rattle.custody_steps.specs.World.{initial_world};
ghost use Rattle.custody_steps.specs.WorldOf.{net_of};
ghost use Rattle.loss_rules.specs.Breaks.{Subject, AreKeepingRulesKept};
ghost use Rattle.loss_rules.specs.Sites.{BuffersAreDistinct};
ghost use Rattle.loss_rules.specs.declared.label.Duty.TheVariants.{Every};

use custody_steps::{StepFault, World};
use relay_net::Net;
use std::alloc::Allocator;
use step_lines::Step;

/// Takes the steps one after another, from the network before the first step. An `Err` has the
/// number of the first step that is refused, counted from 1, and why.
///
/// After every list of steps whatever a sink holds a client sent, under a tag that becomes the
/// sink's where sources put prefixes in front of it. In every network that obeys the rules on
/// labels, for some labels and reaches, and whose relays number each output's buffer once, each
/// event that was acknowledged to a client is then in a live chunk of a buffer or in a sink, under
/// such a tag and with its bytes unchanged.
/// What was acknowledged, to chunks too, is held by sinks and by chunks of buffers that keep, which
/// are staged or rank above the chunk that sent it: a chunk's rank is the place of the first step
/// that queues it.
/// Where the rules hold under the duty that each output of a reached match keeps or is a relabel,
/// each buffer that the event comes to keeps it, or what it was forwarded to does.
pub fn run<'n, A: Allocator + Copy>(
    alloc: A,
    net: &'n Net<A>,
    steps: &[Step<A>],
) -> Result<World<'n, A>, (usize, StepFault)>
    ensures net { IfOk result (λ w. net_of w ≡ net.now) }
    ensures taken { IfOk result (λ w. Steps net.now initial_world steps.now w.shown.world) }
    ensures refused { IfErr result (λ e. IsRefusedAt net.now steps.now e.0 e.1) }
    ensures labelled_nothing_is_lost { (s : Subject A) → s.net ≡ net.now
        → BuffersAreDistinct net.now → AreKeepingRulesKept s
        → IfOk result (λ w. NothingIsLost net.now w.shown.world) }
    ensures held_onward { (s : Subject A) → s.net ≡ net.now
        → BuffersAreDistinct net.now → AreKeepingRulesKept s
        → IfOk result (λ w. AreHeldOnward net.now steps.now w.shown.world) }
    ensures each_branch_keeps { (s : Subject A) → s.net ≡ net.now
        → BuffersAreDistinct net.now → AreKeepingRulesKept s → s.duty ≡ Every
        → IfOk result (λ w. EachBranchKeeps net.now w.shown.world) }
    ensures nothing_is_made_up { IfOk result (λ w. NothingIsMadeUp net.now w.shown.world) }
{
    let mut world = World::new(alloc, net);
    for (place, step) in steps.iter().enumerate() {
        if let Err(fault) = world.step(step) {
            return Err((place + 1, fault));
        }
    }
    // Where there is no memory for it, what is asked later is looked for without.
    let _ = world.collect();
    Ok(world)
}
