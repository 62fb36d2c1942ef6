//! What is said of a plan for which the checker answers no.

ghost use Rattle.std.specs.Prelude.{◌≡◌, false, IfOk, IfSome, IsTrue};
ghost use Rattle.loss_search.specs.Losses.{IsLosingText};

use crate::front::Subject;
use crate::near::near_patterns;
use crate::site::Texts;
use crate::story::{Story, put_note};
use crate::words::loses_events;
use loss_rules::{Place, Rule};
use loss_search::{find, if_losing_text};
use plan_lines::Plan;
use std::alloc::{AllocError, Allocator};
use step_lines::Step;

/// What is said of a broken rule.
#[derive(Drop)]
pub struct Explained<A: Allocator> {
    /// Lines that begin with `#`, and steps.
    pub lines: Vec<u8, A>,
    /// Whether there are steps, which lose an acknowledged event.
    pub has_loss: bool,
}

/// Says of a rule that is broken at this place, as `check` answers of the plan of these texts, and
/// at these others: what it asks for, the line where it is broken, what to change, by which lines
/// of the plan tags come there, and each other line where it is broken; each line begins with `#`.
/// For a rule that sees to it that nothing is lost, steps follow that lose an acknowledged event in
/// the network of the plan, or a line that says that none were found.
///
/// All lines together are a text of steps, as `replay` takes it. The only error is want of memory.
pub fn explain<A: Allocator + Copy>(
    alloc: A,
    plan: &Plan<A>,
    texts: &Texts<'_, A>,
    rule: Rule,
    place: Place,
    others: &[Place],
) -> Result<Explained<A>, AllocError>
    ensures { IfOk result
        (λ said. IsTrue said.has_loss → IsLosingText plan.now.duty plan.now.net said.lines.items) }
{
    let subject = Subject {
        alloc,
        plan,
        texts,
        rule,
        place,
    };
    let front = subject.front(others)?;
    if !loses_events(rule) {
        return Ok(Explained {
            lines: front,
            has_loss: false,
        });
    }
    match losing_lines(alloc, plan, texts, place, &front)? {
        Some(lines) => Ok(Explained {
            lines,
            has_loss: true,
        }),
        None => without_steps(front),
    }
}

// What is said with steps behind it, if some are found that lose an event.
fn losing_lines<A: Allocator + Copy>(
    alloc: A,
    plan: &Plan<A>,
    texts: &Texts<'_, A>,
    place: Place,
    front: &[u8],
) -> Result<Option<Vec<u8, A>>, AllocError>
    ensures { IfOk result
        (λ found. IfSome found (λ lines. IsLosingText plan.now.duty plan.now.net lines.items)) }
{
    let near = near_patterns(alloc, plan, place)?;
    match find(alloc, plan.net(), plan.duty(), &near)? {
        Some(steps) => with_steps(alloc, plan, texts, front, &steps),
        None => Ok(None),
    }
}

// What is said with these steps behind it, if the network takes all of that as steps that lose an
// event.
fn with_steps<A: Allocator + Copy>(
    alloc: A,
    plan: &Plan<A>,
    texts: &Texts<'_, A>,
    front: &[u8],
    steps: &[Step<A>],
) -> Result<Option<Vec<u8, A>>, AllocError>
    ensures { IfOk result
        (λ found. IfSome found (λ lines. IsLosingText plan.now.duty plan.now.net lines.items)) }
{
    let mut lines = Vec::from_slice(alloc, front)?;
    put_note(
        &mut lines,
        b"So an acknowledged event is lost in this network:",
    )?;
    let story = Story {
        alloc,
        plan,
        texts,
        steps,
    };
    story.put(&mut lines)?;
    match if_losing_text(alloc, plan.net(), plan.duty(), lines)? {
        Some(lines) => Ok(Some(lines)),
        None => Ok(None),
    }
}

// What is said where no steps were found.
fn without_steps<A: Allocator>(front: Vec<u8, A>) -> Result<Explained<A>, AllocError>
    ensures { IfOk result (λ said. said.has_loss ≡ false) }
{
    let mut lines = front;
    put_note(
        &mut lines,
        b"No steps were found that lose an event. It isn't shown either that none do.",
    )?;
    Ok(Explained {
        lines,
        has_loss: false,
    })
}
