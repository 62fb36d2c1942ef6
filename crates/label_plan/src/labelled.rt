//! The text of a plan with the lines that it lacks.

ghost use Rattle.std.specs.Prelude.{◌≡◌, ◌↔◌, IfOk, IfErr, IfSome, IsTrue, length, option_map, ◌⊎◌};
ghost use Rattle.label_plan.specs.Plans.{IsDroppedPlanOf};
ghost use Rattle.plan_lines.specs.Faults.{IsRefusal};
ghost use Rattle.plan_lines.specs.Forms.{confs_named};
ghost use Rattle.plan_lines.specs.Plans.{texts};
ghost use Rattle.label_plan.specs.Labelling.{IsLabelled, IsLabelledDropping};
ghost use Rattle.label_plan.specs.Lines.{OnlyAdds};

use crate::certificate::{is_closed, is_kept, only_adds};
use crate::derive::derived;
use crate::error::{DropError, DroppedPlanError};
use crate::manner::Manner;
use crate::name::DropName;
use crate::plan::plan_with_drops;
use plan_lines::{Plan, PlanError, conf_names};
use std::alloc::{AllocError, Allocator};

/// The text of a plan with the labels and reaches that it lacks, each as a line behind its own; its
/// own lines stay as they are. Where it lacks none, that is the text itself. The configurations are
/// those that the plan names, in their order.
///
/// What clients send is labelled, each label is taken through the matches of its scope up to the
/// first that it fits, under the narrower of the two patterns, and each reach goes on to relabels
/// and servers. Where neither pattern fits the other, it is the one that the targets have matches
/// for, and else the label's; where a rule that keeps events is broken by that, and isn't by the
/// match's, it is the match's. What comes through a source with a prefix for a second time on its
/// way, and fits no label behind it, is widened: first by `**` in place of the prefix, and then to
/// `**`.
///
/// Each line that comes out is derived once, and compared with those of its scope or match that
/// begin with the same literal parts; the rules are then decided of the whole, as `check` does.
///
/// It answers no text where no lines close the plan: two relays have one number, so that the second
/// can't be named in a line; or what a name or a pattern is can't be written as a word of a line;
/// or there are more than 65,536 labels, also where each prefix is taken as `**`. An error is the
/// plan's own, or want of memory.
pub fn labelled_text<A: Allocator + Copy>(
    alloc: A,
    net: &[u8],
    confs: &[Vec<u8, A>],
) -> Result<Option<Vec<u8, A>>, PlanError>
    requires { length confs.now ≡ length (confs_named net.now) }
    ensures labelled { IfOk result
        (λ found. IfSome found (λ text. IsLabelled A (texts confs.now) net.now text.items)) }
    ensures refused { IfErr result (IsRefusal A net.now (texts confs.now)) }
{
    let plan = Plan::read(alloc, net, confs)?;
    Ok(labelled_dropping(alloc, net, confs, &[], &plan)?)
}

/// The same of the plan at whose named matches events may be let go: its labels and reaches are
/// found from `plan`, which is that one, and they close the plan that the text says with these
/// matches let go. Behind a relabel or a server of such a match none is found.
///
/// It answers no text also where a name means no match. The only error is want of memory.
pub(crate) fn labelled_dropping<A: Allocator + Copy>(
    alloc: A,
    net: &[u8],
    confs: &[Vec<u8, A>],
    drops: &[DropName<'_>],
    plan: &Plan<A>,
) -> Result<Option<Vec<u8, A>>, AllocError>
    ensures { IfOk result
        (λ found. IfSome found
        (λ text. IsLabelledDropping A (texts confs.now) drops.now net.now text.items)) }
{
    let narrow = preferred(alloc, net, confs, drops, plan, false)?;
    if narrow.is_some() {
        return Ok(text_of(narrow));
    }
    let wide = preferred(alloc, net, confs, drops, plan, true)?;
    Ok(text_of(wide))
}

// A text that closes the plan.
#[derive(Drop)]
struct Candidate<A: Allocator> {
    text: Vec<u8, A>,
    // Whether the other rules hold of it too that depend on labels and reaches.
    is_kept: bool,
}

// The text, if there is one.
fn text_of<A: Allocator>(attempt: Option<Candidate<A>>) -> Option<Vec<u8, A>>
    ensures { result ≡ option_map (λ found. found.text) attempt }
{
    match attempt {
        Some(attempt) => Some(attempt.text),
        None => None,
    }
}

// The labels' patterns are preferred, unless that breaks a rule, and the matches' patterns break
// none.
fn preferred<A: Allocator + Copy>(
    alloc: A,
    net: &[u8],
    confs: &[Vec<u8, A>],
    drops: &[DropName<'_>],
    plan: &Plan<A>,
    widest: bool,
) -> Result<Option<Candidate<A>>, AllocError>
    ensures { IfOk result
        (λ found. IfSome found
        (λ found. IsLabelledDropping A (texts confs.now) drops.now net.now found.text.items)) }
{
    let by_label = Manner {
        prefers_label: true,
        widest,
    };
    let one = attempt(alloc, net, confs, drops, plan, by_label)?;
    if keeps(&one) {
        return Ok(one);
    }
    let by_match = Manner {
        prefers_label: false,
        widest,
    };
    let two = attempt(alloc, net, confs, drops, plan, by_match)?;
    Ok(better(one, two))
}

// Whether there is one, and the other rules hold of it.
fn keeps<A: Allocator>(attempt: &Option<Candidate<A>>) -> bool {
    match attempt {
        Some(found) => found.is_kept,
        None => false,
    }
}

// The second one where it keeps the other rules, or there is no first.
fn better<A: Allocator>(
    one: Option<Candidate<A>>,
    two: Option<Candidate<A>>,
) -> Option<Candidate<A>>
    ensures { (result ≡ one) ⊎ (result ≡ two) }
{
    if one.is_none() || keeps(&two) {
        two
    } else {
        one
    }
}

// The text with what is derived in this manner, if that closes the plan.
fn attempt<A: Allocator + Copy>(
    alloc: A,
    net: &[u8],
    confs: &[Vec<u8, A>],
    drops: &[DropName<'_>],
    plan: &Plan<A>,
    manner: Manner,
) -> Result<Option<Candidate<A>>, AllocError>
    ensures { IfOk result
        (λ found. IfSome found
        (λ found. IsLabelledDropping A (texts confs.now) drops.now net.now found.text.items)) }
{
    let Some(lines) = derived(alloc, plan, manner)? else {
        return Ok(None);
    };
    let text = joined(alloc, net, &lines)?;
    if !only_adds(alloc, net, &text)? {
        return Ok(None);
    }
    certified(alloc, net, text, confs, drops)
}

// The text with the lines behind its own.
fn joined<A: Allocator>(alloc: A, net: &[u8], lines: &[u8]) -> Result<Vec<u8, A>, AllocError> {
    let mut text = Vec::from_slice(alloc, net)?;
    if !lines.is_empty() {
        text.push(b'\n')?;
        text.extend_from_slice(lines)?;
    }
    Ok(text)
}

// The text, if it is that of a plan that is closed, once events are let go at the named matches.
fn certified<A: Allocator + Copy>(
    alloc: A,
    net: &[u8],
    text: Vec<u8, A>,
    confs: &[Vec<u8, A>],
    drops: &[DropName<'_>],
) -> Result<Option<Candidate<A>>, AllocError>
    requires { OnlyAdds net.now text.items }
    ensures { IfOk result
        (λ found. IfSome found
        (λ found. IsLabelledDropping A (texts confs.now) drops.now net.now found.text.items)) }
{
    let _ = net;
    let Some(plan) = dropped_plan(alloc, &text, confs, drops)? else {
        return Ok(None);
    };
    if !is_closed(alloc, &plan)? {
        return Ok(None);
    }
    let is_kept = is_kept(alloc, &plan)?;
    Ok(Some(Candidate { text, is_kept }))
}

/// The plan that the text says, once events are let go at the named matches, if it names as many
/// configurations as there are and says one. The only error is want of memory.
pub(crate) fn dropped_plan<A: Allocator + Copy>(
    alloc: A,
    text: &[u8],
    confs: &[Vec<u8, A>],
    drops: &[DropName<'_>],
) -> Result<Option<Plan<A>>, AllocError>
    ensures { IfOk result
        (λ found. IfSome found (IsDroppedPlanOf text.now (texts confs.now) drops.now)) }
{
    if !names_as_many(alloc, text, confs.len())? {
        return Ok(None);
    }
    match plan_with_drops(alloc, text, confs, drops) {
        Ok(plan) => Ok(Some(plan)),
        Err(DroppedPlanError::Plan(PlanError::Memory)) => Err(AllocError),
        Err(DroppedPlanError::Drop(DropError::Memory)) => Err(AllocError),
        Err(_) => Ok(None),
    }
}

// Whether the text names this many configurations.
fn names_as_many<A: Allocator + Copy>(
    alloc: A,
    text: &[u8],
    count: usize,
) -> Result<bool, AllocError>
    ensures { IfOk result (λ same. IsTrue same → count ≡ length (confs_named text.now)) }
{
    Ok(conf_names(alloc, text)?.len() == count)
}
