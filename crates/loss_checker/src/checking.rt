//! The checker's answer to a plan.

ghost use Rattle.std.specs.Prelude.{◌≡◌, IfOk};
ghost use Rattle.loss_rules.specs.Breaks.{IsAnswer};
ghost use Rattle.loss_checker.specs.Broken.{answer_of};

use crate::broken::{BrokenRule, broken_rules};
use loss_rules::Answer;
use plan_lines::Plan;
use std::alloc::{AllocError, Allocator};

/// Whether each rule holds of the plan; or else the first rule that is broken, in the order of
/// `Rule`, and where it is broken first: by lines of the plan, or by relays in the order of the
/// plan and then by lines of their configurations. It takes the time and the memory of
/// `broken_rules`. The only error is want of memory.
pub fn check<A: Allocator + Copy>(alloc: A, plan: &Plan<A>) -> Result<Answer, AllocError>
    ensures { IfOk result (IsAnswer plan.now) }
{
    let broken = broken_rules(alloc, plan)?;
    Ok(first_answer(&broken))
}

// The answer where these are the broken rules.
fn first_answer<A: Allocator>(broken: &[BrokenRule<A>]) -> Answer
    ensures { result ≡ answer_of broken.now }
{
    match broken.first() {
        None => Answer::Yes,
        Some(one) => Answer::No {
            rule: one.rule,
            place: one.place,
        },
    }
}
