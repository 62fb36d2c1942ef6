//! Where in a picture the broken rules stand.

use crate::rows::{Kind, Row};
use loss_checker::BrokenRule;
use loss_rules::{Place, Rule};
use plan_lines::Plan;
use std::alloc::{AllocError, Allocator};

/// A rule that is broken, and a place where it is.
#[derive(Clone, Copy)]
pub(crate) struct Mark {
    pub rule: Rule,
    pub place: Place,
}

/// All places where rules are broken, in their order.
pub(crate) fn marks_of<A: Allocator + Copy>(
    alloc: A,
    broken: &[BrokenRule<A>],
) -> Result<Vec<Mark, A>, AllocError> {
    let mut marks = Vec::new(alloc);
    for one in broken {
        add_marks(one, &mut marks)?;
    }
    Ok(marks)
}

// Adds the places of a rule.
fn add_marks<A: Allocator>(
    one: &BrokenRule<A>,
    marks: &mut Vec<Mark, A>,
) -> Result<(), AllocError> {
    let rule = one.rule;
    marks.push(Mark {
        rule,
        place: one.place,
    })?;
    for place in &one.others {
        marks.push(Mark {
            rule,
            place: *place,
        })?;
    }
    Ok(())
}

/// Whether the row is what stands in this line, or what the line's label or reach is of.
pub(crate) fn is_at<A: Allocator + Copy>(plan: &Plan<A>, row: &Row<'_, A>, place: Place) -> bool {
    match place {
        Place::Plan { line } => is_of_plan_line(plan, row, line),
        Place::Conf { relay, line } => match plan.net().place(u64::from(relay)) {
            Some(at) => is_of_conf_line(row, at, line),
            None => false,
        },
    }
}

// Whether the row stands in this line of the plan, or a label or a reach of it does.
fn is_of_plan_line<A: Allocator + Copy>(plan: &Plan<A>, row: &Row<'_, A>, line: usize) -> bool {
    match &row.kind {
        Kind::Client(_) | Kind::Relay(_) => row.line == line,
        Kind::Scope(_) => has_label(plan, row, line),
        Kind::Match => has_reach(plan, row, line),
        _ => false,
    }
}

// Whether a label of the scope stands in this line.
fn has_label<A: Allocator + Copy>(plan: &Plan<A>, row: &Row<'_, A>, line: usize) -> bool {
    for label in plan.labels() {
        if label.line == line && label.place == row.place && label.scope == row.scope {
            return true;
        }
    }
    false
}

// Whether a reach of the match stands in this line.
fn has_reach<A: Allocator + Copy>(plan: &Plan<A>, row: &Row<'_, A>, line: usize) -> bool {
    for reach in plan.reaches() {
        let there = reach.place == row.place && reach.scope == row.scope && reach.rule == row.index;
        if there && reach.line == line {
            return true;
        }
    }
    false
}

// Whether the row stands in this line of the configuration of the relay at this place.
fn is_of_conf_line<A: Allocator>(row: &Row<'_, A>, relay: usize, line: usize) -> bool {
    match &row.kind {
        Kind::Client(_) | Kind::Relay(_) | Kind::Scope(_) => false,
        _ => row.place == relay && row.line == line,
    }
}
