//! Deliveries are begun, and room is made for answers.

use crate::parts::{Alone, Part, in_memory};
use crate::refusals::reading::tell_message;
use crate::refusals::told::Told;
use crate::refusals::trial::{Refuses, Trial, each_asks, requests_of};
use crate::shelves::{LEAF, message};
use ack_receipt::{Delivery, Numbers, Reserved, Unbegun};
use event_modes::Message;
use std::alloc::{AllocError, AllocFailed, Allocator};
use std::mem::replace;
use std::process::Abort;

// Under which tag a delivery is begun.
#[derive(Clone, Copy)]
enum Under {
    Own,
    Other,
}

// What a delivery is begun of, or the delivery.
enum Beginning<A: Allocator> {
    Parts(Unbegun<A>),
    Begun(Delivery<A>),
    Nothing,
}

struct Desk<A: Allocator> {
    heap: A,
    beginning: Beginning<A>,
}

fn tell_parts<A: Allocator>(parts: &Unbegun<A>, told: &mut Told) {
    told.number(parts.number.get());
    tell_message(&parts.message, told);
    told.number(parts.leaves.len() as u64);
}

fn tell_delivery<A: Allocator>(delivery: &Delivery<A>, told: &mut Told) {
    told.number(delivery.number());
    told.bytes(delivery.tag());
    told.bytes(delivery.entries().as_bytes());
}

fn parts<A: Allocator + Copy>(heap: A) -> Option<Unbegun<A>> {
    let (Some(number), Ok(leaves)) = (Numbers::new().draw(), Vec::from_slice(heap, &[LEAF, LEAF]))
    else {
        return None;
    };
    match message(heap, b'a', 1) {
        Some(message) => Some(Unbegun {
            number,
            message,
            leaves,
        }),
        None => None,
    }
}

fn begin<A: Allocator + Copy>(
    heap: A,
    parts: Unbegun<A>,
    under: Under,
) -> Result<Delivery<A>, AllocFailed<Unbegun<A>>> {
    let Unbegun {
        number,
        message,
        leaves,
    } = parts;
    match under {
        Under::Own => Delivery::begin(heap, number, message, leaves),
        Under::Other => Delivery::begin_as(heap, number, message, b"other", leaves),
    }
}

// Begins the delivery. What comes of it, and its answer.
fn try_to_begin<A: Allocator + Copy>(
    heap: A,
    parts: Unbegun<A>,
    under: Under,
) -> (Beginning<A>, Result<(), AllocError>) {
    match begin(heap, parts, under) {
        Ok(delivery) => (Beginning::Begun(delivery), Ok(())),
        Err(failed) => (Beginning::Parts(failed.value), Err(AllocError)),
    }
}

impl<A: Allocator + Copy> Trial<A, Under> for Desk<A> {
    fn made(heap: A, _call: Under, _behind: usize) -> Option<Self> {
        match parts(heap) {
            Some(parts) => Some(Desk {
                heap,
                beginning: Beginning::Parts(parts),
            }),
            None => None,
        }
    }

    fn call(&mut self, call: Under, _told: &mut Told) -> Result<(), AllocError> {
        let (beginning, answer) = match replace(&mut self.beginning, Beginning::Nothing) {
            Beginning::Parts(parts) => try_to_begin(self.heap, parts, call),
            other => (other, Ok(())),
        };
        end(replace(&mut self.beginning, beginning));
        answer
    }

    fn show(&mut self, told: &mut Told) {
        match &self.beginning {
            Beginning::Parts(parts) => tell_parts(parts, told),
            Beginning::Begun(delivery) => tell_delivery(delivery, told),
            Beginning::Nothing => told.number(66_666),
        }
    }

    fn close(self, _told: &mut Told) {
        let Desk { heap: _, beginning } = self;
        end(beginning);
    }
}

fn end<A: Allocator>(beginning: Beginning<A>) {
    match beginning {
        Beginning::Begun(delivery) => {
            let _ = delivery.abandon();
        }
        Beginning::Parts(_) | Beginning::Nothing => {}
    }
}

// Room is made for the answer to a message.
struct Asked<A: Allocator> {
    heap: A,
    message: Message<A>,
}

impl<A: Allocator + Copy> Trial<A, ()> for Asked<A> {
    fn made(heap: A, _call: (), _behind: usize) -> Option<Self> {
        match message(heap, b'a', 1) {
            Some(message) => Some(Asked { heap, message }),
            None => None,
        }
    }

    fn call(&mut self, _call: (), told: &mut Told) -> Result<(), AllocError> {
        match Reserved::for_message(self.heap, &self.message) {
            Ok(reserved) => told.number(u64::from(reserved.answer().is_none())),
            Err(AllocError) => return Err(AllocError),
        }
        Ok(())
    }

    fn show(&mut self, told: &mut Told) {
        tell_message(&self.message, told);
    }

    fn close(self, _told: &mut Told) {
        let Asked {
            heap: _,
            message: _,
        } = self;
    }
}

static UNDER: [Under; 2] = [Under::Own, Under::Other];

static ONCE: [usize; 1] = [0];

/// Whether each asks for memory.
pub fn deliveries_ask<R: Abort, H: Refuses>(rt: &R, heap: H) -> bool {
    each_asks::<R, H, Under, Desk<H>>(rt, heap, &UNDER, &ONCE, 2)
}

#[test]
fn deliveries(rt: HostRuntime) {
    assert!(rt; in_memory(&rt, rt.alloc(), Part::Alone(Alone::Deliveries)));
}

/// Whether room for an answer asks for memory.
pub fn rooms_ask<R: Abort, H: Refuses>(rt: &R, heap: H) -> bool {
    requests_of::<R, H, (), Asked<H>>(rt, heap, (), 0) > 2
}

#[test]
fn rooms(rt: HostRuntime) {
    assert!(rt; in_memory(&rt, rt.alloc(), Part::Alone(Alone::Rooms)));
}
