//! Lines in their order, and the places that they are.

ghost use Rattle.std.specs.Prelude.{◌≡◌, ◌↔◌, ◌++◌, ℕ, Contains, IfOk, OnOk};
ghost use Rattle.std.specs.List.Sorted.{IsStrictlyIncreasing};
ghost use Rattle.loss_rules.specs.Everywhere.{conf_places, plan_places as places_of_plan};

use crate::answer::Place;
use std::alloc::{AllocError, Allocator};

/// Puts the lines in rising order, each once.
pub(crate) fn put_in_order<B: Allocator>(lines: &mut Vec<usize, B>)
    ensures rise { IsStrictlyIncreasing lines.new.items }
    ensures same { (line : ℕ) → Contains lines.new.items line ↔ Contains lines.old.items line }
{
    lines.sort_unstable();
    lines.dedup();
}

/// The places of these lines of the plan. The only error is want of memory.
pub(crate) fn plan_places<B: Allocator>(
    alloc: B,
    lines: &[usize],
) -> Result<Vec<Place, B>, AllocError>
    ensures { IfOk result (λ places. places.items ≡ places_of_plan lines.now) }
{
    let mut places = Vec::new(alloc);
    for line in lines {
        places.push(Place::Plan { line: *line })?;
    }
    Ok(places)
}

/// Adds the places of these lines of the configuration of the relay with this number. The only
/// error is want of memory.
pub(crate) fn put_conf_places<B: Allocator>(
    relay: u32,
    lines: &[usize],
    places: &mut Vec<Place, B>,
) -> Result<(), AllocError>
    ensures { OnOk result (places.new.items ≡ places.old.items ++ conf_places relay lines.now) }
{
    for line in lines {
        places.push(Place::Conf { relay, line: *line })?;
    }
    Ok(())
}
