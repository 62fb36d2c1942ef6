//! A run that is wrong, with as few acts as are found.

use crate::runs::Drawn;
use std::alloc::{AllocError, Global};
use std::sync::Wait;
use std::time::Clock;

// How often all acts are gone through, one after another.
const ROUNDS: u32 = 8;

/// What is printed of the run of this seed, where it is wrong: of one with fewer acts, and their
/// numbers.
pub fn run_shorter<R: Wait + Clock>(
    rt: &R,
    alloc: Global,
    seed: u64,
) -> Result<Option<String>, AllocError> {
    let drawn = Drawn::new(alloc, seed)?;
    let all = drawn.acts(alloc)?;
    if drawn.wrong_with(rt, alloc, &all)?.is_none() {
        return Ok(None);
    }
    let acts = shorten(rt, alloc, &drawn, all)?;
    told_shorter(rt, alloc, &drawn, &acts)
}

// What is printed of the run that has these acts alone, with their numbers.
fn told_shorter<R: Wait + Clock>(
    rt: &R,
    alloc: Global,
    drawn: &Drawn,
    acts: &[u64],
) -> Result<Option<String>, AllocError> {
    match drawn.told_with(rt, alloc, acts)? {
        Some(told) => Ok(Some(format!(in alloc; "{told}\n== acts\n{acts:?}")?)),
        None => Ok(None),
    }
}

// Leaves out of the acts of a run that is wrong those without which it is wrong too: first those
// at the end, then one after another, until none can be left out.
fn shorten<R: Wait + Clock>(
    rt: &R,
    alloc: Global,
    drawn: &Drawn,
    acts: Vec<u64>,
) -> Result<Vec<u64>, AllocError> {
    let mut acts = acts;
    let count = beginning(rt, alloc, drawn, &acts)?;
    acts.truncate(count);
    for _ in 0..ROUNDS {
        let before = acts.len();
        acts = thinned(rt, alloc, drawn, acts)?;
        if acts.len() == before {
            return Ok(acts);
        }
    }
    Ok(acts)
}

// With how many of the acts, from the first on, the run is wrong.
fn beginning<R: Wait + Clock>(
    rt: &R,
    alloc: Global,
    drawn: &Drawn,
    acts: &[u64],
) -> Result<usize, AllocError> {
    for count in 0..acts.len() {
        if drawn.wrong_with(rt, alloc, &acts[..count])?.is_some() {
            return Ok(count);
        }
    }
    Ok(acts.len())
}

// Leaves out each act without which the run is wrong too, from the last to the first.
fn thinned<R: Wait + Clock>(
    rt: &R,
    alloc: Global,
    drawn: &Drawn,
    acts: Vec<u64>,
) -> Result<Vec<u64>, AllocError> {
    let mut acts = acts;
    for at in (0..acts.len()).rev() {
        let fewer = without(alloc, &acts, at)?;
        if drawn.wrong_with(rt, alloc, &fewer)?.is_some() {
            acts = fewer;
        }
    }
    Ok(acts)
}

// The acts without the one at this place.
fn without(alloc: Global, acts: &[u64], at: usize) -> Result<Vec<u64>, AllocError> {
    let mut fewer = Vec::new(alloc);
    for (place, act) in acts.iter().enumerate() {
        if place != at {
            fewer.push(*act)?;
        }
    }
    Ok(fewer)
}
