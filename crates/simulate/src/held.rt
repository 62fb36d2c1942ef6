//! The chunks that workers have claimed.

use crate::chunks::Name;
use crate::parts::{Hold, Parts};
use ack_receipt::Evidence;
use std::alloc::Global;
use std::sync::Wait;

/// A chunk that a worker has claimed, and its name.
pub struct Held<H> {
    pub name: Name,
    pub hold: H,
}

impl<H: Hold> Held<H> {
    // Gives it back.
    fn give_back<R: Wait>(self, rt: &R) {
        let Held { name: _, hold } = self;
        hold.give_back(rt);
    }
}

/// Claims the first chunk that is queued in this buffer of the relay with this number; nothing
/// where there is none, or no memory.
pub fn claim<R: Wait, P: Parts>(
    rt: &R,
    parts: &P,
    relay: u32,
    buffer: usize,
) -> Option<Held<P::Hold>> {
    match parts.claim(rt, buffer) {
        Some(hold) => Some(named(relay, buffer, hold)),
        None => None,
    }
}

// A claimed chunk with its name.
fn named<H: Hold>(relay: u32, buffer: usize, hold: H) -> Held<H> {
    let serial = hold.claim().serial();
    Held {
        name: Name {
            relay,
            buffer,
            serial,
        },
        hold,
    }
}

// The place of the claim of this chunk.
fn place_of<H>(all: &[Held<H>], name: Name) -> Option<usize> {
    for (at, held) in all.iter().enumerate() {
        if held.name.is(name) {
            return Some(at);
        }
    }
    None
}

/// The claim of this chunk.
pub fn held_of<H>(all: &[Held<H>], name: Name) -> Option<&H> {
    match all.get(place_of(all, name)?) {
        Some(held) => Some(&held.hold),
        None => None,
    }
}

/// The chunk of the claim at this place.
pub fn name_at<H>(all: &[Held<H>], at: usize) -> Option<Name> {
    match all.get(at) {
        Some(held) => Some(held.name),
        None => None,
    }
}

/// A chunk that the workers of this relay have claimed.
pub fn first_of<H>(all: &[Held<H>], relay: u32) -> Option<Name> {
    for held in all {
        if held.name.relay == relay {
            return Some(held.name);
        }
    }
    None
}

/// Takes the claim of this chunk.
pub fn take_held<H>(all: &mut Vec<Held<H>>, name: Name) -> Option<H> {
    let at = place_of(all, name)?;
    if at >= all.len() {
        return None;
    }
    let Held { name: _, hold } = all.swap_remove(at);
    Some(hold)
}

/// Keeps this claim; where there is no memory for it, it is given back.
pub fn keep<R: Wait, H: Hold>(rt: &R, all: &mut Vec<Held<H>>, held: Held<H>) {
    if let Err(failed) = all.push(held) {
        failed.value.give_back(rt);
    }
}

/// Gives a claim back, if it is there.
pub fn give_back<R: Wait, H: Hold>(rt: &R, all: &mut Vec<Held<H>>, name: Name) -> bool {
    match take_held(all, name) {
        Some(hold) => {
            hold.give_back(rt);
            true
        }
        None => false,
    }
}

/// Gives these claims back.
pub fn give_all_back<R: Wait, H: Hold>(rt: &R, all: Vec<Held<H>>) {
    let mut rest = all.into_iter();
    while let Some(held) = rest.next() {
        held.give_back(rt);
    }
    rest.destroy_empty();
}

/// Lets the chunk of this claim go on this evidence; `false` where its buffer refuses: then it is
/// given back.
pub fn purge<R: Wait, H: Hold>(rt: &R, hold: H, evidence: Evidence<Global>) -> bool {
    match hold.offer(rt, evidence) {
        Ok(()) => true,
        Err((hold, evidence)) => {
            evidence.waste();
            hold.give_back(rt);
            false
        }
    }
}

/// Offers a claimed chunk an evidence that it may not go on; `None` where it does.
pub fn misuse<R: Wait, H: Hold>(
    rt: &R,
    all: &mut Vec<Held<H>>,
    name: Name,
    evidence: Evidence<Global>,
) -> Option<Evidence<Global>> {
    let Some(hold) = take_held(all, name) else {
        return Some(evidence);
    };
    match hold.offer(rt, evidence) {
        Ok(()) => None,
        Err((hold, evidence)) => {
            keep(rt, all, Held { name, hold });
            Some(evidence)
        }
    }
}
