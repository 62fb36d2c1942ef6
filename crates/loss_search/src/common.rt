//! A tag that two patterns have in common.

use crate::tags::tag_of_parts;
use std::alloc::{AllocError, Allocator};
use tag_pattern::{PatternItem, Tag};

// How many spots two patterns have at most: each has 32 items.
const MOST_SPOTS: usize = 33 * 33;

// How far two patterns are gone through along a tag: so many items of each, from which other spot,
// and by which part of the tag, if by one.
#[derive(Clone, Copy)]
struct Spot<'p> {
    first: usize,
    second: usize,
    before: usize,
    part: Option<&'p [u8]>,
}

// The items of a pattern.
type Items<'p, A> = &'p [PatternItem<Vec<u8, A>>];

/// A tag of both patterns, if there is one that isn't empty: one with as few parts as can be, and
/// this for each that both leave open.
pub(crate) fn common_tag<'p, A: Allocator + Copy>(
    alloc: A,
    first: Items<'p, A>,
    second: Items<'p, A>,
    open: &'p [u8],
) -> Result<Option<Tag<A>>, AllocError> {
    let mut spots = Vec::new(alloc);
    spots.push(Spot {
        first: 0,
        second: 0,
        before: 0,
        part: None,
    })?;
    for next in 0..MOST_SPOTS {
        let Some(here) = spots.get(next).copied() else {
            return Ok(None);
        };
        if here.first == first.len() && here.second == second.len() {
            return tag_to(alloc, &spots, next);
        }
        add_next(&mut spots, next, here, first, second, open)?;
    }
    Ok(None)
}

// Adds the spots that follow this one, which has this number.
fn add_next<'p, A: Allocator>(
    spots: &mut Vec<Spot<'p>, A>,
    number: usize,
    here: Spot<'p>,
    first: Items<'p, A>,
    second: Items<'p, A>,
    open: &'p [u8],
) -> Result<(), AllocError> {
    let one = first.get(here.first);
    let other = second.get(here.second);
    if let Some(PatternItem::AnyParts) = one {
        add(spots, here.first + 1, here.second, number, None)?;
    }
    if let Some(PatternItem::AnyParts) = other {
        add(spots, here.first, here.second + 1, number, None)?;
    }
    let (Some(one), Some(other)) = (one, other) else {
        return Ok(());
    };
    match common_part(one, other, open) {
        Some(part) => add(
            spots,
            behind(here.first, one),
            behind(here.second, other),
            number,
            Some(part),
        ),
        None => Ok(()),
    }
}

// Adds a spot, unless it is there.
fn add<'p, A: Allocator>(
    spots: &mut Vec<Spot<'p>, A>,
    first: usize,
    second: usize,
    before: usize,
    part: Option<&'p [u8]>,
) -> Result<(), AllocError> {
    for spot in spots.iter() {
        if spot.first == first && spot.second == second {
            return Ok(());
        }
    }
    spots.push(Spot {
        first,
        second,
        before,
        part,
    })?;
    Ok(())
}

// How many items are gone through once this one, behind so many, has taken a part.
fn behind<A: Allocator>(items: usize, item: &PatternItem<Vec<u8, A>>) -> usize {
    match item {
        PatternItem::AnyParts => items,
        _ => items.saturating_add(1),
    }
}

// A part that both items take, if there is one: this where both leave it open.
fn common_part<'p, A: Allocator>(
    one: &'p PatternItem<Vec<u8, A>>,
    other: &'p PatternItem<Vec<u8, A>>,
    open: &'p [u8],
) -> Option<&'p [u8]> {
    match (one, other) {
        (PatternItem::Literal(text), PatternItem::Literal(same)) => {
            if text.as_slice() == same.as_slice() {
                Some(text)
            } else {
                None
            }
        }
        (PatternItem::Literal(text), _) => Some(text),
        (_, PatternItem::Literal(text)) => Some(text),
        _ => Some(open),
    }
}

// The tag along the spots that lead to the one of this number, if it is one.
fn tag_to<A: Allocator + Copy>(
    alloc: A,
    spots: &[Spot<'_>],
    number: usize,
) -> Result<Option<Tag<A>>, AllocError> {
    let mut parts: Vec<&[u8], A> = Vec::new(alloc);
    let mut at = number;
    for _ in 0..spots.len() {
        let Some(spot) = spots.get(at) else {
            return Ok(None);
        };
        if let Some(part) = spot.part {
            parts.push(part)?;
        }
        at = spot.before;
    }
    parts.reverse();
    tag_of_parts(alloc, &parts)
}
