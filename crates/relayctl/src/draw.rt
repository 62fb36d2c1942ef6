//! The word `draw`: a picture of a plan with the labels and reaches that it lacks.

ghost use Rattle.std.specs.Prelude.{◌≡◌, length};
ghost use Rattle.plan_lines.specs.Forms.{confs_named};

use crate::explain::{Said, say_fault};
use label_plan::{LabelledCheck, check_labelled};
use loss_checker::{PlanError, conf_names};
use plan_advice::Texts;
use plan_drawing::{draw_dot, draw_text};
use program_text::{
    CountedRead, Open, PlanStop, ReadFault, Status, print_plan_stop, put_last, read_confs,
    read_whole,
};
use std::alloc::{AllocError, Allocator};
use std::io::Write;
use text_lines::lines;

/// How a plan is drawn.
#[derive(Clone, Copy, PartialEq, Eq)]
pub enum Drawing {
    /// As a tree of text.
    Tree,
    /// In Graphviz's language.
    Dot,
}

/// Labels the plan that `net` gives, by this name in what is printed, and prints a picture of it,
/// in which each place where a rule is broken has a mark. Of a fault it says so in `faults`. Each
/// text is read whole before a fault of the plan is looked for.
pub fn run_draw<A: Allocator + Copy, R: CountedRead, O: Open, W: Write, F: Write>(
    alloc: A,
    name: &str,
    drawing: Drawing,
    net: &mut R,
    files: &O,
    out: &mut W,
    faults: &mut F,
) -> Status {
    match draw_read(alloc, name, drawing, net, files) {
        Ok(Ok(picture)) => put_last(out, &picture, Status::Done),
        Ok(Err(said)) => put_last(faults, &said.lines, said.status),
        Err(fault) => print_plan_stop(alloc, PlanStop::Unread(fault), faults),
    }
}

// A picture, or what is said of the plan's fault.
type Drawn<A> = Result<Vec<u8, A>, Said<A>>;

// A plan's text with its name, and its configurations with theirs.
#[derive(Clone, Copy)]
struct Given<'a, A: Allocator> {
    name: &'a str,
    text: &'a [u8],
    conf_names: &'a [&'a str],
    confs: &'a [Vec<u8, A>],
}

// The picture of the texts that are read, or what is said of the plan's fault.
fn draw_read<A: Allocator + Copy, R: CountedRead, O: Open>(
    alloc: A,
    name: &str,
    drawing: Drawing,
    net: &mut R,
    files: &O,
) -> Result<Drawn<A>, ReadFault> {
    let text = read_whole(alloc, net)?;
    draw_plan(alloc, name, drawing, &text, files)
}

// The same of the plan of this text.
fn draw_plan<A: Allocator + Copy, O: Open>(
    alloc: A,
    name: &str,
    drawing: Drawing,
    text: &[u8],
    files: &O,
) -> Result<Drawn<A>, ReadFault> {
    let names = conf_names(alloc, text)?;
    let confs = read_confs(alloc, &names, files)?;
    let given = Given {
        name,
        text,
        conf_names: &names,
        confs: &confs,
    };
    Ok(draw_given(alloc, drawing, given)?)
}

// The picture of this plan, or what is said of its fault. The error is want of memory.
fn draw_given<A: Allocator + Copy>(
    alloc: A,
    drawing: Drawing,
    given: Given<'_, A>,
) -> Result<Drawn<A>, AllocError>
    requires { length given.confs.now ≡ length (confs_named given.text.now) }
{
    match check_labelled(alloc, given.text, given.confs) {
        Ok(checked) => draw_checked(alloc, drawing, given, &checked),
        Err(PlanError::Memory) => Err(AllocError),
        Err(fault) => refused(alloc, given, fault),
    }
}

// The picture of the plan with the lines that it lacked.
fn draw_checked<A: Allocator + Copy>(
    alloc: A,
    drawing: Drawing,
    given: Given<'_, A>,
    checked: &LabelledCheck<A>,
) -> Result<Drawn<A>, AllocError> {
    let texts = Texts {
        plan_name: given.name,
        plan: &checked.text,
        own_lines: lines(alloc, given.text)?.len(),
        added_name: "label",
        conf_names: given.conf_names,
        confs: given.confs,
    };
    let picture = match drawing {
        Drawing::Tree => draw_text(alloc, &checked.plan, &texts, &checked.broken),
        Drawing::Dot => draw_dot(alloc, &checked.plan, &texts, &checked.broken),
    };
    match picture {
        Ok(picture) => Ok(Ok(picture)),
        Err(none) => Err(none),
    }
}

// What is said of the plan's fault.
fn refused<A: Allocator + Copy>(
    alloc: A,
    given: Given<'_, A>,
    fault: PlanError,
) -> Result<Drawn<A>, AllocError> {
    let texts = Texts {
        plan_name: given.name,
        plan: given.text,
        own_lines: usize::MAX,
        added_name: given.name,
        conf_names: given.conf_names,
        confs: given.confs,
    };
    match say_fault(alloc, &texts, fault) {
        Ok(said) => Ok(Err(said)),
        Err(none) => Err(none),
    }
}
