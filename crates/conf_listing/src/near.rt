//! The known name that is nearest to one that isn't known.

use crate::place::Place;
use crate::rules::{Group, inside_of, moved_from};
use crate::tables::ANYWHERE;
use std::alloc::{AllocError, Allocator};
use strsim::levenshtein;

// How many edits a name may be away.
const MOST_EDITS: usize = 3;

/// The name that is nearest to this one among those that may stand in the place, if one is near.
pub(crate) fn nearest<A: Allocator + Copy>(
    alloc: A,
    place: Place,
    name: &str,
) -> Result<Option<&'static str>, AllocError> {
    let mut best = Best {
        name: None,
        edits: MOST_EDITS.min(name.len() / 2).saturating_add(1),
    };
    best.try_groups(alloc, name, inside_of(place).groups)?;
    best.try_groups(alloc, name, &ANYWHERE)?;
    for renamed in moved_from(place) {
        best.try_name(alloc, name, renamed.old)?;
    }
    Ok(best.name)
}

// The nearest name so far.
#[derive(Drop)]
struct Best {
    name: Option<&'static str>,
    // How many edits it is away; another has to be nearer.
    edits: usize,
}

impl Best {
    // Takes each of these names that is nearer to the name than all before it.
    fn try_groups<A: Allocator + Copy>(
        &mut self,
        alloc: A,
        name: &str,
        groups: &'static [Group],
    ) -> Result<(), AllocError> {
        for group in groups {
            for known in group.names {
                self.try_name(alloc, name, known)?;
            }
        }
        Ok(())
    }

    // Takes a known name, if it is nearer to the name.
    fn try_name<A: Allocator + Copy>(
        &mut self,
        alloc: A,
        name: &str,
        known: &'static str,
    ) -> Result<(), AllocError> {
        let edits = levenshtein(alloc, name, known)?;
        if edits < self.edits {
            self.edits = edits;
            self.name = Some(known);
        }
        Ok(())
    }
}
