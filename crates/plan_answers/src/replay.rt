//! The listing of steps that are taken in a network.

ghost use Rattle.std.specs.Prelude.{◌≡◌, ◌++◌, ◌↔◌, ℕ, Bool, List, string_bytes, IfOk, IfSome, IsTrue, OnOk, cond, count_by, flat_map, not, zip, ◌==◌, codes, decimal};
ghost use Rattle.std.specs.List.{AllZip};
ghost use Rattle.custody_core.specs.Custody.{IsKeptAs};
ghost use Rattle.custody_store.specs.Contents.{event_of};
ghost use Rattle.custody_steps.specs.WorldOf.{net_of};
ghost use Rattle.loss_rules.specs.Breaks.{IsAnswer};
ghost use Rattle.loss_rules.specs.declared.answer.Answer.{Answer};
ghost use Rattle.plan_answers.specs.Replays.{fate_line, IsCodeOf, IsWorldListing, IsReplayed};
ghost use Rattle.hex.specs.Hex.{encode_lower};
ghost use Rattle.program_text.specs.Lines.{line};

use custody_core::{Event, Step, StepFault, StepsError, World, is_kept_as, run};
use loss_checker::{Duty, Plan};
use program_text::{Status, put_hex};
use std::alloc::{AllocError, Allocator};

/// Lines to be printed, and the status that goes with them.
#[derive(Drop)]
pub struct Said<A: Allocator> {
    pub lines: Vec<u8, A>,
    pub status: Status,
}

/// Takes the steps of the text, one after another, in the plan's network before its first step, and
/// lists what becomes of the events that they acknowledge; or which step is refused first; or which
/// line is of no step's form. The only error is want of memory. An event is lost where it isn't
/// kept as the plan asks. Whichever answer the plan has, steps are taken, and the clause is told
/// it; under a yes nothing is lost.
pub fn replay<A: Allocator + Copy>(
    alloc: A,
    plan: &Plan<A>,
    text: &[u8],
) -> Result<Said<A>, AllocError>
    ensures { (found : Answer) → IsAnswer plan.now found
        → IfOk result (λ said. IsReplayed plan.now found text.now said.lines.items said.status) }
{
    let steps = match Step::read_all(alloc, text) {
        Ok(steps) => steps,
        Err(StepsError::BadLine(line)) => return list_bad_line(alloc, line),
        Err(StepsError::Memory) => return Err(AllocError),
    };
    match run(alloc, plan.net(), &steps) {
        Ok(world) => list_world(alloc, &world, plan.duty(), steps.len()),
        Err((step, fault)) => list_refusal(alloc, step, fault),
    }
}

// The line of a text with a line that is of no step's form.
fn list_bad_line<A: Allocator + Copy>(alloc: A, number: usize) -> Result<Said<A>, AllocError>
    ensures { IfOk result
        (λ said. (said.lines.items ≡ line (codes "fault S3 line " ++ decimal number))
        × (said.status ≡ Status.Usage)) }
{
    let text = format!(in alloc; "fault S3 line {number}\n")?;
    let lines = Vec::from_slice(alloc, text.as_bytes())?;
    Ok(Said {
        lines,
        status: Status::Usage,
    })
}

// The code of a refusal; want of memory has none.
fn refusal_code(fault: StepFault) -> Option<&'static str>
    ensures { IfSome result (λ code. IsCodeOf fault code.now) }
{
    match fault {
        StepFault::NoSuch => Some("S1"),
        StepFault::NotAllowed => Some("S2"),
        StepFault::Memory => None,
    }
}

// The line of a refused step.
fn list_refusal<A: Allocator + Copy>(
    alloc: A,
    step: usize,
    fault: StepFault,
) -> Result<Said<A>, AllocError>
    ensures { IfOk result (λ said. (code : List ℕ) × IsCodeOf fault code
        × (said.lines.items ≡ line (codes "refused step " ++ decimal step ++ codes " " ++ code))
        × (said.status ≡ Status.No)) }
{
    let Some(code) = refusal_code(fault) else {
        return Err(AllocError);
    };
    let front = format!(in alloc; "refused step {step} ")?;
    let mut lines = Vec::from_slice(alloc, front.as_bytes())?;
    lines.extend_from_slice(code.as_bytes())?;
    lines.extend_from_slice(b"\n")?;
    Ok(Said {
        lines,
        status: Status::No,
    })
}

// Lists what became of the events that were acknowledged in so many steps.
fn list_world<A: Allocator + Copy>(
    alloc: A,
    world: &World<'_, A>,
    duty: Duty,
    steps: usize,
) -> Result<Said<A>, AllocError>
    ensures { IfOk result
        (λ said. IsWorldListing duty (net_of world.now)
        world.now.shown.world steps said.lines.items said.status) }
{
    let mut said = list_fates(alloc, world, duty)?;
    let lost = said.lost;
    let acknowledged = world.acknowledged().len();
    let summary = summary(alloc, steps, acknowledged, lost)?;
    said.lines.extend_from_slice(summary.as_bytes())?;
    Ok(Said {
        lines: said.lines,
        status: status_of_loss(lost),
    })
}

// The last line.
fn summary<A: Allocator>(
    alloc: A,
    steps: usize,
    acknowledged: usize,
    lost: usize,
) -> Result<String<A>, AllocError>
    ensures { IfOk result
        (λ text. string_bytes text
        ≡ line (codes "steps " ++ decimal steps ++ codes " acknowledged " ++ decimal acknowledged
        ++ codes " lost " ++ decimal lost)) }
{
    format!(in alloc; "steps {steps} acknowledged {acknowledged} lost {lost}\n")
}

// The status where so many events are lost.
fn status_of_loss(lost: usize) -> Status
    ensures { result ≡ cond (lost == 0) Status.Done Status.No }
{
    if lost == 0 { Status::Done } else { Status::No }
}

// The lines of events, and how many of these are lost.
#[derive(Drop)]
struct Fates<A: Allocator> {
    lines: Vec<u8, A>,
    lost: usize,
}

// Lists what became of the events that were acknowledged.
fn list_fates<A: Allocator + Copy>(
    alloc: A,
    world: &World<'_, A>,
    duty: Duty,
) -> Result<Fates<A>, AllocError>
    ensures { IfOk result (λ listed. (held : List Bool)
        × AllZip (λ told is_held. IsTrue is_held
        ↔ IsKeptAs duty (net_of world.now) world.now.shown.world told)
        world.now.shown.world.acknowledged held
        × (listed.lines.items ≡ flat_map fate_line (zip world.now.shown.world.acknowledged held))
        × (listed.lost ≡ count_by not held)) }
{
    let mut lines = Vec::new(alloc);
    let mut lost = 0usize;
    let events = world.acknowledged();
    for (number, told) in events.iter().enumerate() {
        let is_held = is_kept_as(world, duty, number)?;
        put_fate(&mut lines, &told.event, is_held)?;
        if !is_held {
            lost += 1;
        }
    }
    Ok(Fates { lines, lost })
}

// Adds the line of an event.
fn put_fate<A: Allocator>(
    lines: &mut Vec<u8, A>,
    event: &Event<A>,
    is_held: bool,
) -> Result<(), AllocError>
    ensures { OnOk result
        (lines.new.items ≡ lines.old.items
        ++ line (cond is_held (codes "held ") (codes "lost ") ++ (event_of event.now).tag
        ++ codes " " ++ encode_lower (event_of event.now).entry)) }
{
    let fate = if is_held { "held " } else { "lost " };
    lines.extend_from_slice(fate.as_bytes())?;
    lines.extend_from_slice(&event.tag)?;
    lines.extend_from_slice(b" ")?;
    put_hex(lines, &event.entry)?;
    lines.extend_from_slice(b"\n")
}
