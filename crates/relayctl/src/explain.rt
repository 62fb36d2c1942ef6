//! The word `explain`: the checker's answer to a plan, at whose named matches events may go, or the
//! plan's fault, with what it means and what mends it.

ghost use Rattle.std.specs.Prelude.{◌≡◌, ◌++◌, flat_map, IfOk};
ghost use Rattle.loss_rules.specs.Breaks.{IsAnswer};
ghost use Rattle.program_text.specs.Plans.{plan_fault_line};
ghost use Rattle.relayctl.specs.Explaining.{last_line as last_line_of, IsExplanation, PrintsExplanation, SaysAnswer, SaysFault, SaysFaults};

use crate::drops::{put_drops, say_missing};
use label_plan::{DropError, DropName, DroppedPlanError, plan_with_drops};
use loss_checker::{Answer, Plan, PlanError, check, conf_names};
use plan_advice::{Texts, explain, explain_fault};
use program_text::{
    CountedRead, Open, PlanStop, ReadFault, Status, print_plan_stop, put_last, read_confs,
    read_whole,
};
use std::alloc::{AllocError, Allocator};
use std::io::Write;

/// Prints the checker's answer to the plan that `net` gives, by this name in what is printed, at
/// whose named matches events may go on purpose: in place of the outputs of each stands a sink that
/// keeps. Behind a yes it prints the matches at which events may go; behind a no what the broken
/// rule means, what mends it, and steps that lose an acknowledged event, where some were found. Or
/// it prints the plan's first fault, and what that means and what mends it, or which of the names
/// mean no match. Each text is read whole before a fault of the plan is looked for.
pub fn run_explain<A: Allocator + Copy, R: CountedRead, O: Open, W: Write>(
    alloc: A,
    name: &str,
    net: &mut R,
    files: &O,
    drops: &[DropName<'_>],
    out: &mut W,
) -> Status
    ensures { PrintsExplanation A (R.remaining net.old) (O.text_of files.now) drops.now
        (W.contents out.old) (W.contents out.new) result }
{
    match explain_read(alloc, name, net, files, drops) {
        Ok(said) => put_last(out, &said.lines, said.status),
        Err(fault) => print_plan_stop(alloc, PlanStop::Unread(fault), out),
    }
}

/// Lines, and the status that they mean.
#[derive(Drop)]
pub(crate) struct Said<A: Allocator> {
    pub lines: Vec<u8, A>,
    pub status: Status,
}

// What is said of the texts that are read.
fn explain_read<A: Allocator + Copy, R: CountedRead, O: Open>(
    alloc: A,
    name: &str,
    net: &mut R,
    files: &O,
    drops: &[DropName<'_>],
) -> Result<Said<A>, ReadFault>
    ensures { IfOk result
        (λ said. IsExplanation A (R.remaining net.old)
        (O.text_of files.now) drops.now said.lines.items said.status) }
{
    let text = read_whole(alloc, net)?;
    let names = conf_names(alloc, &text)?;
    let confs = read_confs(alloc, &names, files)?;
    let texts = Texts {
        plan_name: name,
        plan: &text,
        own_lines: usize::MAX,
        added_name: name,
        conf_names: &names,
        confs: &confs,
    };
    match plan_with_drops(alloc, &text, &confs, drops) {
        Ok(plan) => Ok(say_plan(alloc, &plan, &texts, drops)?),
        Err(DroppedPlanError::Plan(PlanError::Memory)) => Err(ReadFault::Memory),
        Err(DroppedPlanError::Drop(DropError::Memory)) => Err(ReadFault::Memory),
        Err(DroppedPlanError::Plan(fault)) => Ok(say_fault(alloc, &texts, fault)?),
        Err(DroppedPlanError::Drop(_)) => Ok(say_missing(alloc, &text, &confs, drops)?),
    }
}

// What is said of a plan: the line of the checker's answer, behind a yes what may go at the named
// matches, and behind a no what explains it.
fn say_plan<A: Allocator + Copy>(
    alloc: A,
    plan: &Plan<A>,
    texts: &Texts<'_, A>,
    drops: &[DropName<'_>],
) -> Result<Said<A>, AllocError>
    ensures { IfOk result
        (λ said. (found : Answer) × IsAnswer plan.now found
        × SaysAnswer drops.now plan.now found said.lines.items said.status) }
{
    let answer = check(alloc, plan)?;
    let mut lines = format!(in alloc; "{answer}\n")?.into_bytes();
    let Answer::No { rule, place } = answer else {
        put_drops(alloc, plan, texts, drops, &mut lines)?;
        return Ok(Said {
            lines,
            status: Status::Done,
        });
    };
    let said = explain(alloc, plan, texts, rule, place, &[])?;
    lines.extend_from_slice(&said.lines)?;
    lines.extend_from_slice(last_line(said.has_loss).as_bytes())?;
    Ok(Said {
        lines,
        status: Status::No,
    })
}

/// The line that says whether those before it are steps that lose an event.
pub(crate) fn last_line(has_loss: bool) -> &'static str
    ensures { result.now ≡ last_line_of has_loss }
{
    if has_loss {
        "# relaynet replay of these lines lists what they lose\n"
    } else {
        "# there are no steps here\n"
    }
}

/// What is said of a plan's fault: its line, and what explains it.
pub(crate) fn say_fault<A: Allocator + Copy>(
    alloc: A,
    texts: &Texts<'_, A>,
    fault: PlanError,
) -> Result<Said<A>, AllocError>
    ensures { IfOk result (λ said. SaysFault fault said.lines.items said.status) }
{
    say_faults(alloc, texts, fault, &[], "")
}

/// The same of a plan's first fault and of further ones: a line for each, behind these what
/// explains each, and at the end these words.
pub(crate) fn say_faults<A: Allocator + Copy>(
    alloc: A,
    texts: &Texts<'_, A>,
    first: PlanError,
    further: &[PlanError],
    last: &str,
) -> Result<Said<A>, AllocError>
    ensures { IfOk result (λ said. SaysFaults first further.now said.lines.items said.status) }
{
    let mut lines = fault_lines(alloc, first, further)?;
    let mut notes = fault_notes(alloc, texts, first, further)?;
    notes.extend_from_slice(last.as_bytes())?;
    lines.extend_from_slice(&notes)?;
    Ok(Said {
        lines,
        status: Status::Usage,
    })
}

// The lines of a plan's faults.
fn fault_lines<A: Allocator + Copy>(
    alloc: A,
    first: PlanError,
    further: &[PlanError],
) -> Result<Vec<u8, A>, AllocError>
    ensures { IfOk result
        (λ lines. lines.items ≡ plan_fault_line first ++ flat_map plan_fault_line further.now) }
{
    let mut lines = format!(in alloc; "fault {first}\n")?.into_bytes();
    for fault in further {
        let line = format!(in alloc; "fault {fault}\n")?.into_bytes();
        lines.extend_from_slice(&line)?;
    }
    Ok(lines)
}

// What explains each of them.
fn fault_notes<A: Allocator + Copy>(
    alloc: A,
    texts: &Texts<'_, A>,
    first: PlanError,
    further: &[PlanError],
) -> Result<Vec<u8, A>, AllocError> {
    let mut notes = explain_fault(alloc, texts, first)?;
    for fault in further {
        notes.extend_from_slice(&explain_fault(alloc, texts, *fault)?)?;
    }
    Ok(notes)
}
