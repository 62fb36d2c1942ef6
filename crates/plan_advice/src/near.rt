//! The patterns that stand where a rule is broken.

use crate::site::match_at;
use loss_rules::Place;
use plan_lines::Plan;
use relay_net::Entrance;
use std::alloc::{AllocError, Allocator};
use tag_pattern::Plain;

// Patterns that are lent.
type Lent<'a, A> = Vec<&'a Plain<A>, A>;

/// The patterns of the client or the label in this line of the plan, or those of the match that
/// this line of a configuration is in and of its reaches.
pub(crate) fn near_patterns<A: Allocator + Copy>(
    alloc: A,
    plan: &Plan<A>,
    place: Place,
) -> Result<Lent<'_, A>, AllocError> {
    let mut near = Vec::new(alloc);
    match place {
        Place::Plan { line } => add_of_line(plan, line, &mut near)?,
        Place::Conf { .. } => add_of_match(plan, place, &mut near)?,
    }
    Ok(near)
}

// Adds the patterns of the client or the label in this line of the plan.
fn add_of_line<'a, A: Allocator + Copy>(
    plan: &'a Plan<A>,
    line: usize,
    near: &mut Lent<'a, A>,
) -> Result<(), AllocError> {
    for (number, client) in plan.net().clients().iter().enumerate() {
        if plan.client_lines().get(number) == Some(&line) {
            add(&client.patterns, near)?;
        }
    }
    add_of_label(plan, line, near)
}

// Adds the patterns of the label in this line of the plan.
fn add_of_label<'a, A: Allocator + Copy>(
    plan: &'a Plan<A>,
    line: usize,
    near: &mut Lent<'a, A>,
) -> Result<(), AllocError> {
    for label in plan.labels() {
        if label.line == line {
            add(&label.patterns, near)?;
        }
    }
    Ok(())
}

// Adds the patterns of the match, and of its reaches.
fn add_of_match<'a, A: Allocator + Copy>(
    plan: &'a Plan<A>,
    place: Place,
    near: &mut Lent<'a, A>,
) -> Result<(), AllocError> {
    let Some(found) = match_at(plan, place) else {
        return Ok(());
    };
    add(&found.rule.patterns, near)?;
    for reach in plan.reaches() {
        let at = Entrance {
            relay: reach.place,
            scope: reach.scope,
        };
        if at == found.at && reach.rule == found.index {
            add(&reach.patterns, near)?;
        }
    }
    Ok(())
}

// Adds these.
fn add<'a, A: Allocator>(
    patterns: &'a [Plain<A>],
    near: &mut Lent<'a, A>,
) -> Result<(), AllocError> {
    for pattern in patterns {
        near.push(pattern)?;
    }
    Ok(())
}
