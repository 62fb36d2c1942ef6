//! The broken rules of a plan as lines: every place where one is broken, and behind them what
//! explains each rule.

ghost use Rattle.std.specs.Prelude.{◌≡◌, ◌++◌, ◌∷◌, flat_map, length, IfOk, OnOk};
ghost use Rattle.plan_answers.specs.Networks.{answer_line};
ghost use Rattle.relayctl.specs.Checking.{all_no_lines, bytes_of, no_lines, AreExplained, SayBroken};
ghost use Rattle.relayctl.specs.Explaining.{IsLossOrNotes};

use crate::explain::last_line;
use loss_checker::{Answer, BrokenRule, Place, Plan, Rule};
use plan_advice::{Texts, explain};
use std::alloc::{AllocError, Allocator};

/// A line as `no K6 relay 2 line 5` for every place where a rule is broken, in the order of the
/// rules, and behind these what explains each rule, the shortest first. The only error is want of
/// memory.
pub(crate) fn list_broken<A: Allocator + Copy>(
    alloc: A,
    plan: &Plan<A>,
    texts: &Texts<'_, A>,
    broken: &[BrokenRule<A>],
) -> Result<Vec<u8, A>, AllocError>
    ensures { IfOk result (λ lines. SayBroken plan.now broken.now lines.items) }
{
    let mut lines = Vec::new(alloc);
    put_all_places(alloc, broken, &mut lines)?;
    let mut explained = explain_each(alloc, plan, texts, broken)?;
    explained.sort_by_key(|said| said.len())?;
    put_texts(&explained, &mut lines)?;
    Ok(lines)
}

// What explains each of the broken rules, in their order.
fn explain_each<A: Allocator + Copy>(
    alloc: A,
    plan: &Plan<A>,
    texts: &Texts<'_, A>,
    broken: &[BrokenRule<A>],
) -> Result<Vec<Vec<u8, A>, A>, AllocError>
    ensures { IfOk result (λ explained. AreExplained plan.now (length broken.now) explained.items) }
{
    let mut explained = Vec::new(alloc);
    for one in broken {
        explained.push(explain_one(alloc, plan, texts, one)?)?;
    }
    Ok(explained)
}

// What explains a broken rule, and the line that says whether there are steps.
fn explain_one<A: Allocator + Copy>(
    alloc: A,
    plan: &Plan<A>,
    texts: &Texts<'_, A>,
    one: &BrokenRule<A>,
) -> Result<Vec<u8, A>, AllocError>
    ensures { IfOk result (λ said. IsLossOrNotes plan.now said.items) }
{
    let said = explain(alloc, plan, texts, one.rule, one.place, &one.others)?;
    let mut lines = said.lines;
    lines.extend_from_slice(last_line(said.has_loss).as_bytes())?;
    Ok(lines)
}

// Adds these texts, one behind another.
fn put_texts<A: Allocator>(texts: &[Vec<u8, A>], lines: &mut Vec<u8, A>) -> Result<(), AllocError>
    ensures { OnOk result (lines.new.items ≡ lines.old.items ++ flat_map bytes_of texts.now) }
{
    for text in texts {
        lines.extend_from_slice(text)?;
    }
    Ok(())
}

// Adds the line of a no for every place where one of the rules is broken.
fn put_all_places<A: Allocator + Copy>(
    alloc: A,
    broken: &[BrokenRule<A>],
    lines: &mut Vec<u8, A>,
) -> Result<(), AllocError>
    ensures { OnOk result (lines.new.items ≡ lines.old.items ++ all_no_lines broken.now) }
{
    for one in broken {
        put_places(alloc, one, lines)?;
    }
    Ok(())
}

// Adds the line of a no for each place where the rule is broken.
fn put_places<A: Allocator + Copy>(
    alloc: A,
    one: &BrokenRule<A>,
    lines: &mut Vec<u8, A>,
) -> Result<(), AllocError>
    ensures { OnOk result
        (lines.new.items ≡ lines.old.items ++ no_lines one.now.rule
        (one.now.place ∷ one.now.others.items)) }
{
    put_place(alloc, one.rule, one.place, lines)?;
    for place in &one.others {
        put_place(alloc, one.rule, *place, lines)?;
    }
    Ok(())
}

// Adds the line of a no: the rule is broken at this place.
fn put_place<A: Allocator + Copy>(
    alloc: A,
    rule: Rule,
    place: Place,
    lines: &mut Vec<u8, A>,
) -> Result<(), AllocError>
    ensures { OnOk result
        (lines.new.items ≡ lines.old.items ++ answer_line (Answer.No rule place)) }
{
    let answer = Answer::No { rule, place };
    let line = format!(in alloc; "{answer}\n")?.into_bytes();
    lines.extend_from_slice(&line)?;
    Ok(())
}
