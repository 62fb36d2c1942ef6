//! What is known so far: the labels of each scope, and the reaches of each match.

use crate::pattern::copied;
use relay_conf::MatchRule;
use relay_net::{Entrance, Net};
use std::alloc::{AllocError, Allocator};
use std::collections::BTreeMap;
use std::hash::{FoldHasher, Hasher};
use tag_pattern::{PatternItem, Plain, fits};

// Where a pattern stands: a scope, and a match there whose reaches are meant, or none where the
// scope's labels are.
#[derive(Clone, Copy)]
struct Spot {
    at: Entrance,
    rule: Option<usize>,
}

// A pattern that stands there.
#[derive(Drop)]
struct Known<A: Allocator> {
    spot: Spot,
    pattern: Plain<A>,
}

// Patterns, by the number of where they stand and of the literal parts that they begin with.
type ByFront<A> = BTreeMap<u64, Vec<Known<A>, A>, A>;

/// The labels of each scope of a network, and the reaches of each of its matches, as far as they
/// are known. Patterns are looked up by the literal parts that they begin with, so that those
/// aren't compared which begin otherwise: a pattern fits one alone whose parts it begins with.
#[derive(Drop)]
pub(crate) struct Stock<A: Allocator> {
    alloc: A,
    known: ByFront<A>,
}

impl<A: Allocator + Copy> Stock<A> {
    /// Nothing is known.
    pub fn new(alloc: A) -> Stock<A> {
        Stock {
            alloc,
            known: BTreeMap::new(alloc),
        }
    }

    /// Whether the pattern fits a label of this scope.
    pub fn knows_label(&self, at: Entrance, pattern: &Plain<A>) -> bool {
        is_known(&self.known, Spot { at, rule: None }, pattern)
    }

    /// Whether the pattern fits a reach of the match at this place in the scope.
    pub fn knows_reach(&self, at: Entrance, rule: usize, pattern: &Plain<A>) -> bool {
        let rule = Some(rule);
        is_known(&self.known, Spot { at, rule }, pattern)
    }

    /// Keeps a label of this scope.
    pub fn keep_label(&mut self, at: Entrance, pattern: &Plain<A>) -> Result<(), AllocError> {
        keep(
            self.alloc,
            &mut self.known,
            Spot { at, rule: None },
            pattern,
        )
    }

    /// Keeps a reach of the match at this place in the scope.
    pub fn keep_reach(
        &mut self,
        at: Entrance,
        rule: usize,
        pattern: &Plain<A>,
    ) -> Result<(), AllocError> {
        let rule = Some(rule);
        keep(self.alloc, &mut self.known, Spot { at, rule }, pattern)
    }

    /// Keeps these reaches of the match at this place in the scope.
    pub fn keep_reaches(
        &mut self,
        at: Entrance,
        rule: usize,
        patterns: &[Plain<A>],
    ) -> Result<(), AllocError> {
        for pattern in patterns {
            self.keep_reach(at, rule, pattern)?;
        }
        Ok(())
    }
}

// Whether the pattern fits one that stands there.
fn is_known<A: Allocator>(known: &ByFront<A>, spot: Spot, pattern: &Plain<A>) -> bool {
    let mut front = front_at(spot);
    if fits_one(known, front.finish(), spot, pattern) {
        return true;
    }
    for item in pattern.items() {
        let PatternItem::Literal(text) = item else {
            return false;
        };
        put_part(&mut front, text);
        if fits_one(known, front.finish(), spot, pattern) {
            return true;
        }
    }
    false
}

// Whether the pattern fits one that stands there, of those with this number.
fn fits_one<A: Allocator>(known: &ByFront<A>, front: u64, spot: Spot, pattern: &Plain<A>) -> bool {
    match known.get(&front) {
        Some(others) => fits_there(others, spot, pattern),
        None => false,
    }
}

// Whether the pattern fits one of these that stands there.
fn fits_there<A: Allocator>(others: &[Known<A>], spot: Spot, pattern: &Plain<A>) -> bool {
    for other in others {
        if is_same(other.spot, spot) && fits(pattern, &other.pattern) {
            return true;
        }
    }
    false
}

// Whether both are one.
fn is_same(one: Spot, two: Spot) -> bool {
    one.at == two.at && one.rule == two.rule
}

// Keeps the pattern there.
fn keep<A: Allocator + Copy>(
    alloc: A,
    known: &mut ByFront<A>,
    spot: Spot,
    pattern: &Plain<A>,
) -> Result<(), AllocError> {
    let front = front_of(spot, pattern);
    let pattern = copied(alloc, pattern)?;
    put(alloc, known, front, Known { spot, pattern })
}

// Keeps it under this number.
fn put<A: Allocator + Copy>(
    alloc: A,
    known: &mut ByFront<A>,
    front: u64,
    new: Known<A>,
) -> Result<(), AllocError> {
    if let Some(others) = known.get_mut(&front) {
        return Ok(others.push(new)?);
    }
    let mut first = Vec::new(alloc);
    first.push(new)?;
    known.insert(front, first)?;
    Ok(())
}

// The number of where the pattern stands and of the literal parts that it begins with.
fn front_of<A: Allocator>(spot: Spot, pattern: &Plain<A>) -> u64 {
    let mut front = front_at(spot);
    for item in pattern.items() {
        match item {
            PatternItem::Literal(text) => put_part(&mut front, text),
            _ => return front.finish(),
        }
    }
    front.finish()
}

// That of no parts.
fn front_at(spot: Spot) -> FoldHasher {
    let mut front = FoldHasher::default();
    front.write_usize(spot.at.relay);
    front.write_usize(spot.at.scope);
    front.write_usize(spot.rule.unwrap_or(usize::MAX));
    front
}

// Adds a part.
fn put_part(front: &mut FoldHasher, part: &[u8]) {
    front.write(part);
    front.write_u8(b'.');
}

/// The matches of this scope; none, where there is no such scope.
pub(crate) fn matches_at<A: Allocator + Copy>(net: &Net<A>, at: Entrance) -> &[MatchRule<A>] {
    let Some(node) = net.relays().get(at.relay) else {
        return &[];
    };
    match node.relay.scopes.get(at.scope) {
        Some(found) => &found.matches,
        None => &[],
    }
}
