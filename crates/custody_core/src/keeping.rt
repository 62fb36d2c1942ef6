//! Whether an acknowledged event is kept as a plan asks.

ghost use Rattle.std.specs.Prelude.{◌↔◌, slice_get, IfOk, IsSomeAnd, IsTrue};
ghost use Rattle.custody_core.specs.Custody.{IsKeptAs};
ghost use Rattle.custody_steps.specs.WorldOf.{net_of};

use custody_steps::World;
use loss_rules::Duty;
use std::alloc::{AllocError, Allocator};

/// Whether an event of this number, counted from 0, was acknowledged to a client and is kept as is
/// asked: under the duty any held under a tag that it may bear, under the duty every kept along
/// each branch of its way. The only error is want of memory.
pub fn is_kept_as<A: Allocator + Copy>(
    world: &World<'_, A>,
    duty: Duty,
    number: usize,
) -> Result<bool, AllocError>
    ensures { IfOk result
        (λ yes. IsTrue yes ↔ IsSomeAnd (slice_get world.now.shown.world.acknowledged number)
        (IsKeptAs duty (net_of world.now) world.now.shown.world)) }
{
    match duty {
        Duty::Any => Ok(world.kept(number)?.unwrap_or(false)),
        Duty::Every => Ok(world.kept_every(number)?.unwrap_or(false)),
    }
}
