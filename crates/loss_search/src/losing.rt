//! Whether steps lose an acknowledged event. Of a text it is said only where it is so.

ghost use Rattle.std.specs.Prelude.{◌≡◌, ◌≢◌, ◌↔◌, false, IfOk, IfSome, IsSome, IsTrue};
ghost use Rattle.custody_steps.specs.WorldOf.{net_of};
ghost use Rattle.loss_search.specs.Losses.{HasLost, IsLosingText, Loses};

use custody_core::{Step, StepFault, StepsError, World, is_kept_as, run};
use loss_rules::Duty;
use relay_net::Net;
use std::alloc::{AllocError, Allocator};

/// The text, if `text_loses_event` says that it loses an event: whoever says so of what this gives
/// says it of the very text that was tried. The only error is want of memory.
pub fn if_losing_text<A: Allocator + Copy>(
    alloc: A,
    net: &Net<A>,
    duty: Duty,
    text: Vec<u8, A>,
) -> Result<Option<Vec<u8, A>>, AllocError>
    ensures { IfOk result
        (λ found. IfSome found (λ tried. (tried ≡ text) × IsLosingText duty net.now tried.items)) }
{
    if text_loses_event(alloc, net, duty, &text)? {
        Ok(Some(text))
    } else {
        Ok(None)
    }
}

// Whether the network takes each of the steps of the text, and then an event that was acknowledged
// to a client isn't kept as is asked: then `replay` takes them, and lists the event as lost. The
// only error is want of memory.
fn text_loses_event<A: Allocator + Copy>(
    alloc: A,
    net: &Net<A>,
    duty: Duty,
    text: &[u8],
) -> Result<bool, AllocError>
    ensures { IfOk result (λ yes. IsTrue yes → IsLosingText duty net.now text.now) }
{
    match Step::read_all(alloc, text) {
        Ok(steps) => loses_event(alloc, net, duty, &steps),
        Err(StepsError::BadLine(_)) => Ok(false),
        Err(StepsError::Memory) => Err(AllocError),
    }
}

/// The steps, where they lose an event, and only there, as `loses_event` says. The only error is
/// want of memory.
pub(crate) fn if_losing<A: Allocator + Copy>(
    alloc: A,
    net: &Net<A>,
    duty: Duty,
    steps: Vec<Step<A>, A>,
) -> Result<Option<Vec<Step<A>, A>>, AllocError>
    ensures right { IfOk result
        (λ found. IfSome found (λ tried. (tried ≡ steps) × Loses duty net.now tried.items)) }
    ensures only { IfOk result (λ found. Loses duty net.now steps.items → IsSome found) }
{
    if loses_event(alloc, net, duty, &steps)? {
        Ok(Some(steps))
    } else {
        Ok(None)
    }
}

/// Whether the network takes each of the steps, and then an event that was acknowledged to a client
/// isn't kept as is asked. The only error is want of memory.
pub(crate) fn loses_event<A: Allocator + Copy>(
    alloc: A,
    net: &Net<A>,
    duty: Duty,
    steps: &[Step<A>],
) -> Result<bool, AllocError>
    ensures { IfOk result (λ yes. IsTrue yes ↔ Loses duty net.now steps.now) }
{
    match run(alloc, net, steps) {
        Ok(world) => has_lost(&world, duty),
        Err((_, fault)) => refused(fault),
    }
}

// Steps of which one is refused lose nothing; but for want of memory, which says nothing of them.
fn refused(fault: StepFault) -> Result<bool, AllocError>
    ensures { IfOk result (λ yes. (yes ≡ false) × (fault ≢ StepFault.Memory)) }
{
    match fault {
        StepFault::NoSuch | StepFault::NotAllowed => Ok(false),
        StepFault::Memory => Err(AllocError),
    }
}

// Whether one of the events that were acknowledged isn't kept as is asked.
fn has_lost<A: Allocator + Copy>(world: &World<'_, A>, duty: Duty) -> Result<bool, AllocError>
    ensures { IfOk result
        (λ yes. IsTrue yes ↔ HasLost duty (net_of world.now) world.now.shown.world) }
{
    for number in 0..world.acknowledged().len() {
        if !is_kept_as(world, duty, number)? {
            return Ok(true);
        }
    }
    Ok(false)
}
