//! What is warned of.

use crate::flow::Numbers;
use crate::site::Texts;
use plan_lines::Plan;
use std::alloc::{AllocError, Allocator};

/// A plan, the texts that it was read from, and for each of its relays the numbers of the relay's
/// reaches.
#[derive(Drop)]
pub(crate) struct WarnedPlan<'a, A: Allocator> {
    pub alloc: A,
    pub plan: &'a Plan<A>,
    pub texts: &'a Texts<'a, A>,
    reaches: Vec<Numbers<A>, A>,
}

impl<'a, A: Allocator + Copy> WarnedPlan<'a, A> {
    /// This plan, of these texts. The only error is want of memory.
    pub fn new(
        alloc: A,
        plan: &'a Plan<A>,
        texts: &'a Texts<'a, A>,
    ) -> Result<WarnedPlan<'a, A>, AllocError> {
        Ok(WarnedPlan {
            alloc,
            plan,
            texts,
            reaches: by_relay(alloc, plan)?,
        })
    }

    /// The numbers of the reaches of the relay at this place, counted from 0 in the order of the
    /// plan.
    pub fn reaches_of(&self, place: usize) -> &[usize] {
        match self.reaches.get(place) {
            Some(numbers) => numbers.as_slice(),
            None => &[],
        }
    }
}

// For each relay of the plan the numbers of its reaches.
fn by_relay<A: Allocator + Copy>(
    alloc: A,
    plan: &Plan<A>,
) -> Result<Vec<Numbers<A>, A>, AllocError> {
    let mut found = no_numbers(alloc, plan.net().relays().len())?;
    for (number, reach) in plan.reaches().iter().enumerate() {
        add_number(&mut found, reach.place, number)?;
    }
    Ok(found)
}

/// So many lists without a number. The only error is want of memory.
pub(crate) fn no_numbers<A: Allocator + Copy>(
    alloc: A,
    count: usize,
) -> Result<Vec<Numbers<A>, A>, AllocError> {
    let mut lists = Vec::new(alloc);
    for _ in 0..count {
        lists.push(Vec::new(alloc))?;
    }
    Ok(lists)
}

/// Adds a number to those at this place. The only error is want of memory.
pub(crate) fn add_number<A: Allocator>(
    found: &mut [Numbers<A>],
    place: usize,
    number: usize,
) -> Result<(), AllocError> {
    match found.get_mut(place) {
        Some(here) => Ok(here.push(number)?),
        None => Ok(()),
    }
}
