//! Lines of the plan by which no event goes.

use crate::flow::{match_of, meet};
use crate::notes::Notes;
use crate::pieces::Piece;
use crate::warned_plan::WarnedPlan;
use loss_rules::Reach;
use plan_lines::Plan;
use std::alloc::{AllocError, Allocator};

/// Adds what is said of each `reach` of the plan that has no tag in common with its match, as one
/// that was written for another configuration; in the order of the plan. The only error is want of
/// memory.
pub(crate) fn put_stale<A: Allocator + Copy>(
    about: &WarnedPlan<'_, A>,
    notes: &mut Notes<A>,
) -> Result<(), AllocError> {
    for reach in about.plan.reaches() {
        if is_stale(about.plan, reach) {
            put_reach(about, reach, notes)?;
        }
    }
    Ok(())
}

// Whether no tag is of the reach and of its match.
fn is_stale<A: Allocator + Copy>(plan: &Plan<A>, reach: &Reach<A>) -> bool {
    match match_of(plan, reach) {
        Some(found) => !meet(&reach.patterns, &found.patterns),
        None => false,
    }
}

// Adds what is said of this one.
fn put_reach<A: Allocator + Copy>(
    about: &WarnedPlan<'_, A>,
    reach: &Reach<A>,
    notes: &mut Notes<A>,
) -> Result<(), AllocError> {
    let words =
        b"no event goes by this line: it has no tag in common with its match. Take it out, or write it as the configurations ask for.";
    notes.put_warning(about, &[Piece::Text(words)])?;
    notes.put_plan_line(about, reach.line)?;
    match match_of(about.plan, reach) {
        Some(found) => notes.put_place(about, reach.place, found.line),
        None => Ok(()),
    }
}
