//! A plan is labelled, and then asked for its broken rules.

ghost use Rattle.std.specs.Prelude.{◌≡◌, [], length, true, false, IfOk, IfErr, IfSome};
ghost use Rattle.label_plan.specs.Plans.{IsNoDroppedPlan};
ghost use Rattle.plan_lines.specs.Faults.{IsRefusal};
ghost use Rattle.plan_lines.specs.Forms.{confs_named};
ghost use Rattle.plan_lines.specs.Plans.{texts};
ghost use Rattle.loss_checker.specs.Broken.{AreBrokenRules};
ghost use Rattle.label_plan.specs.Checks.{AreChecked, IsLabelledCheck};

use crate::error::DroppedPlanError;
use crate::labelled::{dropped_plan, labelled_dropping};
use crate::name::DropName;
use crate::plan::plan_with_drops;
use loss_checker::{BrokenRule, broken_rules};
use plan_lines::{Plan, PlanError};
use std::alloc::{AllocError, Allocator};

/// A plan with the labels and reaches that it lacked, and which of its rules are broken.
pub struct LabelledCheck<A: Allocator> {
    /// The plan's text: the given one with the lines that were added behind it, or the given one
    /// itself where none were found.
    pub text: Vec<u8, A>,
    /// The plan of this text.
    pub plan: Plan<A>,
    /// Whether the text is as `labelled_text` answers it; else it is the given one.
    pub is_labelled: bool,
    /// The rules of the plan that are broken, in their order, each with every place where it is.
    pub broken: Vec<BrokenRule<A>, A>,
}

// By hand, so that crates above don't prove again how its parts end.
impl<A: Allocator> Drop for LabelledCheck<A> {
    fn drop(self) {
        let LabelledCheck {
            text: _,
            plan: _,
            is_labelled: _,
            broken: _,
        } = self;
    }
}

/// Labels the plan of these texts as `labelled_text` does, and says which of its rules are broken
/// then. Where no labels are found, the plan's own lines are asked. The configurations are those
/// that the plan names, in their order. An error is the plan's own, or want of memory.
pub fn check_labelled<A: Allocator + Copy>(
    alloc: A,
    net: &[u8],
    confs: &[Vec<u8, A>],
) -> Result<LabelledCheck<A>, PlanError>
    requires { length confs.now ≡ length (confs_named net.now) }
    ensures checked { IfOk result
        (λ found. IsLabelledCheck A
        (texts confs.now) [] net.now found.is_labelled found.text.items found.plan
        found.broken.items) }
    ensures refused { IfErr result (IsRefusal A net.now (texts confs.now)) }
{
    match check_dropping(alloc, net, confs, &[]) {
        Ok(found) => Ok(found),
        Err(DroppedPlanError::Plan(error)) => Err(error),
        // There is no name, so memory ran out.
        Err(DroppedPlanError::Drop(_)) => Err(PlanError::Memory),
    }
}

/// The same of the plan at whose named matches events may be let go, as `labelled_dropping` labels
/// it: in place of the outputs of each such match stands a sink that keeps, and the rules are those
/// of that plan. An error is the plan's own, or else that of the first name that means no match.
pub fn check_dropping<A: Allocator + Copy>(
    alloc: A,
    net: &[u8],
    confs: &[Vec<u8, A>],
    drops: &[DropName<'_>],
) -> Result<LabelledCheck<A>, DroppedPlanError>
    requires { length confs.now ≡ length (confs_named net.now) }
    ensures checked { IfOk result
        (λ found. IsLabelledCheck A
        (texts confs.now) drops.now net.now found.is_labelled found.text.items found.plan
        found.broken.items) }
    ensures refused { IfErr result (IsNoDroppedPlan A net.now (texts confs.now) drops.now) }
{
    let plan = plan_with_drops(alloc, net, confs, drops)?;
    match labelled_check(alloc, net, confs, drops, &plan)? {
        Some(found) => Ok(found),
        None => Ok(given_check(alloc, net, plan)?),
    }
}

// The plan with its labels and reaches, if they are found, and its broken rules.
fn labelled_check<A: Allocator + Copy>(
    alloc: A,
    net: &[u8],
    confs: &[Vec<u8, A>],
    drops: &[DropName<'_>],
    plan: &Plan<A>,
) -> Result<Option<LabelledCheck<A>>, AllocError>
    ensures { IfOk result
        (λ found. IfSome found
        (λ found. IsLabelledCheck A
        (texts confs.now) drops.now net.now found.is_labelled found.text.items found.plan
        found.broken.items)) }
{
    match labelled_dropping(alloc, net, confs, drops, plan)? {
        Some(text) => checked(alloc, text, confs, drops),
        None => Ok(None),
    }
}

// The plan that the given text says, and its broken rules.
fn given_check<A: Allocator + Copy>(
    alloc: A,
    net: &[u8],
    plan: Plan<A>,
) -> Result<LabelledCheck<A>, AllocError>
    ensures { IfOk result
        (λ found. (found.is_labelled ≡ false) × (found.text.items ≡ net.now)
        × (found.plan ≡ plan) × AreBrokenRules plan found.broken.items) }
{
    let broken = broken_rules(alloc, &plan)?;
    let text = Vec::from_slice(alloc, net)?;
    Ok(LabelledCheck {
        text,
        plan,
        is_labelled: false,
        broken,
    })
}

// The plan of the text, if it says one, and its broken rules. It is a labelled one.
fn checked<A: Allocator + Copy>(
    alloc: A,
    text: Vec<u8, A>,
    confs: &[Vec<u8, A>],
    drops: &[DropName<'_>],
) -> Result<Option<LabelledCheck<A>>, AllocError>
    ensures { IfOk result
        (λ found. IfSome found
        (λ found. (found.text ≡ text) × (found.is_labelled ≡ true)
        × AreChecked (texts confs.now) drops.now text.items found.plan found.broken.items)) }
{
    let Some(plan) = dropped_plan(alloc, &text, confs, drops)? else {
        return Ok(None);
    };
    let broken = broken_rules(alloc, &plan)?;
    Ok(Some(LabelledCheck {
        text,
        plan,
        is_labelled: true,
        broken,
    }))
}
