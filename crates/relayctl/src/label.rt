//! The word `label`: a plan with the labels and reaches that it lacks.

ghost use Rattle.std.specs.Prelude.{IfOk, IfErr, IfSome};
ghost use Rattle.program_text.specs.Plans.{IsPlanStop};
ghost use Rattle.relayctl.specs.Labels.{IsLabelledPlan, IsWithoutLabels, PrintsFreshLabels, PrintsLabels};

use label_plan::{labelled_text, without_labels};
use loss_checker::conf_names;
use program_text::{
    CountedRead, Open, PlanStop, ReadFault, Status, plan_stop, print_plan_stop, put_last,
    read_confs, read_whole,
};
use std::alloc::Allocator;
use std::io::Write;

/// Prints the plan that `net` gives with the labels and reaches that it lacks, each as a line
/// behind its own; or that no such lines were found, or the plan's first fault. Each text is read
/// whole before a fault of the plan is looked for.
pub fn run_label<A: Allocator + Copy, R: CountedRead, O: Open, W: Write>(
    alloc: A,
    net: &mut R,
    files: &O,
    out: &mut W,
) -> Status
    ensures { PrintsLabels A (R.remaining net.old) (O.text_of files.now) (W.contents out.old)
        (W.contents out.new) result }
{
    match label_read(alloc, net, files) {
        Ok(Some(text)) => put_last(out, &text, Status::Done),
        Ok(None) => put_last(out, b"no labels\n", Status::No),
        Err(stop) => print_plan_stop(alloc, stop, out),
    }
}

/// The same of the plan without its own labels and reaches.
pub fn run_fresh_label<A: Allocator + Copy, R: CountedRead, O: Open, W: Write>(
    alloc: A,
    net: &mut R,
    files: &O,
    out: &mut W,
) -> Status
    ensures { PrintsFreshLabels A (R.remaining net.old) (O.text_of files.now) (W.contents out.old)
        (W.contents out.new) result }
{
    match fresh_read(alloc, net) {
        Ok(text) => run_label(alloc, &mut text.as_slice(), files, out),
        Err(fault) => print_plan_stop(alloc, PlanStop::Unread(fault), out),
    }
}

// The text of the plan that is read, without its labels and reaches.
fn fresh_read<A: Allocator + Copy, R: CountedRead>(
    alloc: A,
    net: &mut R,
) -> Result<Vec<u8, A>, ReadFault>
    ensures { IfOk result (IsWithoutLabels (R.remaining net.old)) }
{
    let text = read_whole(alloc, net)?;
    Ok(without_labels(alloc, &text)?)
}

// The text of the plan that is read, with the labels and reaches that it lacks.
fn label_read<A: Allocator + Copy, R: CountedRead, O: Open>(
    alloc: A,
    net: &mut R,
    files: &O,
) -> Result<Option<Vec<u8, A>>, PlanStop>
    ensures labelled { IfOk result
        (λ found. IfSome found
        (λ text. IsLabelledPlan A (R.remaining net.old) (O.text_of files.now) text.items)) }
    ensures stop { IfErr result (IsPlanStop A (R.remaining net.old) (O.text_of files.now)) }
{
    let text = read_whole(alloc, net)?;
    let names = conf_names(alloc, &text)?;
    let confs = read_confs(alloc, &names, files)?;
    match labelled_text(alloc, &text, &confs) {
        Ok(found) => Ok(found),
        Err(fault) => Err(plan_stop(fault)),
    }
}
