//! The plan that texts say, at whose named matches events may be let go.

ghost use Rattle.std.specs.Prelude.{◌≡◌, length, IfOk, IfErr};
ghost use Rattle.plan_lines.specs.Forms.{confs_named};
ghost use Rattle.plan_lines.specs.Plans.{texts};
ghost use Rattle.label_plan.specs.Plans.{IsDroppedPlanOf, IsNoDroppedPlan};

use crate::drops::with_drops;
use crate::error::DroppedPlanError;
use crate::name::DropName;
use plan_lines::{Plan, PlanParts};
use std::alloc::Allocator;

/// Reads a plan as `Plan::read` does, of which these are the configurations that it names, and lets
/// events go at the named matches, as `with_drops` does. An error is that of the plan; where there
/// is none, that of the first name that means no match.
pub fn plan_with_drops<A: Allocator + Copy>(
    alloc: A,
    net: &[u8],
    confs: &[Vec<u8, A>],
    drops: &[DropName<'_>],
) -> Result<Plan<A>, DroppedPlanError>
    requires { length confs.now ≡ length (confs_named net.now) }
    ensures plan { IfOk result (IsDroppedPlanOf net.now (texts confs.now) drops.now) }
    ensures refused { IfErr result (IsNoDroppedPlan A net.now (texts confs.now) drops.now) }
{
    let parts = PlanParts::read(alloc, net, confs)?;
    let changed = with_drops(alloc, parts, drops)?;
    Ok(Plan::of_parts(alloc, changed)?)
}
