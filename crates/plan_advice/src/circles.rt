//! Relays that forward to one another in a circle.

use crate::flow::{Numbers, Steps, flow, match_of};
use crate::links::{Link, relays_ahead};
use crate::notes::Notes;
use crate::peeling::{between_circles, reversed};
use crate::pieces::Piece;
use crate::search::{Search, is_marked, next_of, put_mark};
use crate::warned_plan::WarnedPlan;
use loss_rules::line_of;
use relay_conf::{MatchRule, Output};
use std::alloc::{AllocError, Allocator};

/// Warns of each circle of forwards, with each relay that is on it once; these are the servers that
/// lead to relays of the plan. The only error is want of memory.
pub(crate) fn put_circles<A: Allocator + Copy>(
    about: &WarnedPlan<'_, A>,
    links: &[Link<'_, A>],
    notes: &mut Notes<A>,
) -> Result<(), AllocError> {
    let relays = relays_ahead(about.alloc, about.plan.net().relays().len(), links)?;
    let open = between_circles(about.alloc, &relays, &reversed(about.alloc, &relays)?)?;
    put_along(about, &flow(about, Steps::All, &open)?, notes)
}

// Warns of each circle of these steps.
fn put_along<A: Allocator + Copy>(
    about: &WarnedPlan<'_, A>,
    flow: &[Numbers<A>],
    notes: &mut Notes<A>,
) -> Result<(), AllocError> {
    let back = reversed(about.alloc, flow)?;
    let mut open = between_circles(about.alloc, flow, &back)?;
    put_open(about, flow, &back, &mut open, notes)
}

// Warns of each circle that some of those with a mark are on, and takes the marks of those on it.
fn put_open<A: Allocator + Copy>(
    about: &WarnedPlan<'_, A>,
    flow: &[Numbers<A>],
    back: &[Numbers<A>],
    open: &mut [bool],
    notes: &mut Notes<A>,
) -> Result<(), AllocError> {
    let mut ahead = Search::new(about.alloc, flow.len())?;
    let mut behind = Search::new(about.alloc, flow.len())?;
    for start in 0..flow.len() {
        if is_marked(open, start) {
            ahead.onward(flow, next_of(flow, start))?;
            behind.onward(back, &[start])?;
            put_circle(about, start, &ahead, &behind, open, notes)?;
        }
    }
    Ok(())
}

// Warns of the circle that this reach is on, if it is on one, and takes the marks of those on it:
// of those ahead of it, from which one comes to it.
fn put_circle<A: Allocator + Copy>(
    about: &WarnedPlan<'_, A>,
    start: usize,
    ahead: &Search<A>,
    behind: &Search<A>,
    open: &mut [bool],
    notes: &mut Notes<A>,
) -> Result<(), AllocError> {
    if !ahead.has(start) {
        return Ok(());
    }
    let words =
        b"relays forward to one another in a circle: an event may go round for ever, and be taken anew each time.";
    notes.put_warning(about, &[Piece::Text(words)])?;
    for place in 0..about.plan.net().relays().len() {
        if let Some(line) = line_on(about, place, ahead, behind) {
            notes.put_place(about, place, line)?;
        }
    }
    for number in 0..open.len() {
        if ahead.has(number) && behind.has(number) {
            put_mark(open, number, false);
        }
    }
    Ok(())
}

// The first line of the relay at this place that forwards on the circle.
fn line_on<A: Allocator + Copy>(
    about: &WarnedPlan<'_, A>,
    place: usize,
    ahead: &Search<A>,
    behind: &Search<A>,
) -> Option<usize> {
    for number in about.reaches_of(place) {
        if ahead.has(*number)
            && behind.has(*number)
            && let Some(reach) = about.plan.reaches().get(*number)
            && let Some(line) = forward_in(match_of(about.plan, reach))
        {
            return Some(line);
        }
    }
    None
}

// The line of the first output of the match that forwards.
fn forward_in<A: Allocator>(found: Option<&MatchRule<A>>) -> Option<usize> {
    let Some(found) = found else {
        return None;
    };
    for output in &found.outputs {
        if let Output::Forward { .. } = output {
            return Some(line_of(output));
        }
    }
    None
}
