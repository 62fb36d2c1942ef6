//! A plan is read whole and the checker's line printed; behind an answer steps are taken, and their
//! listing is printed.

ghost use Rattle.std.specs.Prelude.{◌≡◌, ◌≤◌, ◌+◌, string_bytes, IfOk, IfErr};
ghost use Rattle.loss_rules.specs.Breaks.{IsAnswer};
ghost use Rattle.plan_answers.specs.Networks.{answer_line, answer_status, joined_status, AreReplayed, IsAnswered, PrintsCheck, PrintsReplay};
ghost use Rattle.program_text.specs.Plans.{IsPlanStop};

use crate::replay::{Said, replay};
use loss_checker::{Answer, Plan, check};
use program_text::{
    CountedRead, Open, OutputFault, PlanStop, ReadFault, Status, print_plan_stop, put_all,
    put_last, read_plan, read_whole, unread_line,
};
use std::alloc::Allocator;
use std::io::Write;

/// Prints what the checker says of the plan that `net` gives, with the configurations that it
/// names: its answer, or the plan's first fault. Each text is read whole before a fault of the plan
/// is looked for, by 16,777,216 calls of its reader at most.
pub fn run_check<A: Allocator + Copy, R: CountedRead, O: Open, W: Write>(
    alloc: A,
    net: &mut R,
    files: &O,
    out: &mut W,
) -> Status
    ensures printed { PrintsCheck A (R.remaining net.old) (O.text_of files.now)
        (W.contents out.old) (W.contents out.new) result }
    ensures calls { R.calls net.new ≤ R.calls net.old + 16777216 }
{
    match read_checked(alloc, net, files) {
        Ok(checked) => put_last(out, checked.line.as_bytes(), status_of(checked.answer)),
        Err(stop) => print_plan_stop(alloc, stop, out),
    }
}

/// Prints what `run_check` does. Where that is an answer, it takes the steps that `steps` gives in
/// the plan's network, and prints what becomes of the events that were acknowledged, or why a step
/// isn't taken; nothing of the steps is read before. In the world that the steps lead to, whatever
/// a sink holds a client sent; where the answer is yes, each event that was acknowledged is held
/// under a tag that it may bear, and kept along each branch of its way if the plan asks for that.
/// So behind a yes each is printed as held.
///
/// Each of the two readers is called 16,777,216 times at most.
pub fn run_replay<A: Allocator + Copy, R: CountedRead, S: CountedRead, O: Open, W: Write>(
    alloc: A,
    net: &mut R,
    steps: &mut S,
    files: &O,
    out: &mut W,
) -> Status
    ensures printed { PrintsReplay A (R.remaining net.old) (O.text_of files.now)
        (S.remaining steps.old) (W.contents out.old) (W.contents out.new) result }
    ensures net_calls { R.calls net.new ≤ R.calls net.old + 16777216 }
    ensures step_calls { S.calls steps.new ≤ S.calls steps.old + 16777216 }
{
    let checked = match read_checked(alloc, net, files) {
        Ok(checked) => checked,
        Err(stop) => return print_plan_stop(alloc, stop, out),
    };
    if let Err(OutputFault) = put_all(out, checked.line.as_bytes()) {
        return Status::Usage;
    }
    match replay_read(alloc, &checked.plan, steps) {
        Ok(said) => put_last(out, &said.lines, joined(checked.answer, said.status)),
        Err(fault) => put_last(out, unread_line(fault).as_bytes(), Status::Usage),
    }
}

// A plan, the checker's answer, and the line of that.
#[derive(Drop)]
struct Checked<A: Allocator> {
    plan: Plan<A>,
    answer: Answer,
    line: String<A>,
}

// The plan of the texts that are read, and the checker's answer.
fn read_checked<A: Allocator + Copy, R: CountedRead, O: Open>(
    alloc: A,
    net: &mut R,
    files: &O,
) -> Result<Checked<A>, PlanStop>
    ensures answered { IfOk result
        (λ checked. IsAnswered A (R.remaining net.old)
        (O.text_of files.now) checked.plan checked.answer) }
    ensures line { IfOk result (λ checked. string_bytes checked.line ≡ answer_line checked.answer) }
    ensures stop { IfErr result (IsPlanStop A (R.remaining net.old) (O.text_of files.now)) }
    ensures calls { R.calls net.new ≤ R.calls net.old + 16777216 }
{
    let plan = read_plan(alloc, net, files)?;
    let answer = check(alloc, &plan)?;
    let line = format!(in alloc; "{answer}\n")?;
    Ok(Checked { plan, answer, line })
}

// What becomes of the steps that are read, in the network of the plan, whichever answer the plan
// has.
fn replay_read<A: Allocator + Copy, S: CountedRead>(
    alloc: A,
    plan: &Plan<A>,
    steps: &mut S,
) -> Result<Said<A>, ReadFault>
    ensures replayed { (found : Answer) → IsAnswer plan.now found
        → IfOk result (λ said. AreReplayed plan.now found
        (S.remaining steps.old) said.lines.items said.status) }
    ensures calls { S.calls steps.new ≤ S.calls steps.old + 16777216 }
{
    let text = read_whole(alloc, steps)?;
    let said = replay(alloc, plan, &text)?;
    Ok(said)
}

// The status of an answer.
fn status_of(answer: Answer) -> Status
    ensures { result ≡ answer_status answer }
{
    match answer {
        Answer::Yes => Status::Done,
        Answer::No { .. } => Status::No,
    }
}

// The status of an answer and of steps: a no stays one.
fn joined(answer: Answer, after: Status) -> Status
    ensures { result ≡ joined_status answer after }
{
    match (answer, after) {
        (Answer::No { .. }, Status::Done) => Status::No,
        (_, after) => after,
    }
}
