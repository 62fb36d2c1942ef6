//! What may be on a circle: steps that come from nowhere are taken away, again and again, and those
//! that lead nowhere.

use crate::flow::Numbers;
use crate::search::{is_marked, next_of, put_mark};
use crate::warned_plan::{add_number, no_numbers};
use std::alloc::{AllocError, Allocator};

/// The same steps, each from its end to its beginning. The only error is want of memory.
pub(crate) fn reversed<A: Allocator + Copy>(
    alloc: A,
    flow: &[Numbers<A>],
) -> Result<Vec<Numbers<A>, A>, AllocError> {
    let mut back = no_numbers(alloc, flow.len())?;
    for (number, next) in flow.iter().enumerate() {
        add_back(&mut back, next, number)?;
    }
    Ok(back)
}

// Adds the number to those next to each of these.
fn add_back<A: Allocator>(
    back: &mut [Numbers<A>],
    ends: &[usize],
    number: usize,
) -> Result<(), AllocError> {
    for end in ends {
        add_number(back, *end, number)?;
    }
    Ok(())
}

/// Of each whether it is on a circle, or one comes to it from a circle and from it to a circle. The
/// only error is want of memory.
pub(crate) fn between_circles<A: Allocator + Copy>(
    alloc: A,
    flow: &[Numbers<A>],
    back: &[Numbers<A>],
) -> Result<Vec<bool, A>, AllocError> {
    let mut between = behind_circles(alloc, flow)?;
    let ahead = behind_circles(alloc, back)?;
    for number in 0..ahead.len() {
        if !is_marked(&ahead, number) {
            put_mark(&mut between, number, false);
        }
    }
    Ok(between)
}

// Of each whether it is on a circle, or one comes to it from a circle: what is left where those to
// which no step leads are taken away with their own steps, again and again.
fn behind_circles<A: Allocator + Copy>(
    alloc: A,
    flow: &[Numbers<A>],
) -> Result<Vec<bool, A>, AllocError> {
    let mut counts = counts(alloc, flow)?;
    let mut free = free(alloc, &counts)?;
    let mut left = vec![in alloc; true; flow.len()]?;
    for at in 0..flow.len() {
        let Some(number) = free.get(at).copied() else {
            break;
        };
        put_mark(&mut left, number, false);
        take_steps(next_of(flow, number), &mut counts, &mut free)?;
    }
    Ok(left)
}

// How many steps lead to each.
fn counts<A: Allocator + Copy>(alloc: A, flow: &[Numbers<A>]) -> Result<Vec<usize, A>, AllocError> {
    let mut counts = vec![in alloc; 0; flow.len()]?;
    for next in flow {
        add_steps(next, &mut counts);
    }
    Ok(counts)
}

// Counts a step to each of these.
fn add_steps(ends: &[usize], counts: &mut [usize]) {
    for end in ends {
        if let Some(count) = counts.get_mut(*end) {
            *count = count.saturating_add(1);
        }
    }
}

// Those to which no step leads.
fn free<A: Allocator + Copy>(alloc: A, counts: &[usize]) -> Result<Numbers<A>, AllocError> {
    let mut free = Vec::new(alloc);
    for (number, count) in counts.iter().enumerate() {
        if *count == 0 {
            free.push(number)?;
        }
    }
    Ok(free)
}

// Takes a step to each of these away; those to which none leads any more are free.
fn take_steps<A: Allocator>(
    ends: &[usize],
    counts: &mut [usize],
    free: &mut Numbers<A>,
) -> Result<(), AllocError> {
    for end in ends {
        if let Some(count) = counts.get_mut(*end) {
            if *count == 1 {
                free.push(*end)?;
            }
            *count = count.saturating_sub(1);
        }
    }
    Ok(())
}
