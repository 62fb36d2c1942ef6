//! Each call of a script of a buffer, and an opening behind each.

use crate::devices::NewDir;
use crate::parts::{InFolder, Part, in_memory};
use crate::refusals::acts::{tell_answer, tell_buffer};
use crate::refusals::opening::{Call, Opened, Site};
use crate::refusals::told::Told;
use crate::refusals::trial::{Refuses, requests_of};
use crate::script::{Act, count_of, open, played, take};
use buffer_store::{Buffer, BufferFault, RENEWED_PAST_IN_MEMORY};
use disk_files::Dir;
use event_modes::Entries;
use std::alloc::{AllocError, Allocator};
use std::process::Abort;

// Chunks of which one grows are queued, claimed, given back, purged and dropped. The journal is
// renewed with chunks in each stage, and with few. Each append is of another number of entries.
static SCRIPT: [Act; 36] = [
    Act::Stage(b'a', 1),
    Act::Append(b'b', 2),
    Act::Stage(b'c', 3),
    Act::Append(b'd', 4),
    Act::Body(0),
    Act::Enqueue(0),
    Act::Claim,
    Act::Renew,
    Act::Purge(0),
    Act::Stage(b'e', 5),
    Act::Append(b'f', 6),
    Act::Append(b'f', 7),
    Act::Stage(b'f', 8),
    Act::Append(b'f', 9),
    Act::Stage(b'f', 10),
    Act::Sync,
    Act::Enqueue(1),
    Act::Enqueue(2),
    Act::Enqueue(3),
    Act::Enqueue(4),
    Act::Claim,
    Act::Claim,
    Act::GiveBack(2),
    Act::Renew,
    Act::DropOldest,
    Act::Purge(1),
    Act::Body(5),
    Act::Stage(b'a', 11),
    Act::Append(b'f', 12),
    Act::Enqueue(5),
    Act::Claim,
    Act::Renew,
    Act::Purge(3),
    Act::Append(b'b', 13),
    Act::DropOldest,
    Act::Body(7),
];

fn act_at(place: usize) -> Act {
    match SCRIPT.get(place) {
        Some(act) => *act,
        None => Act::Sync,
    }
}

impl<A: Allocator + Copy, D: Dir + Drop> Opened<A, D> for Buffer<D, A> {
    fn opened(heap: A, dir: D) -> Result<Buffer<D, A>, (bool, D)> {
        match open(heap, dir, RENEWED_PAST_IN_MEMORY) {
            Ok(buffer) => Ok(buffer),
            Err((fault, dir)) => Err((fault != BufferFault::Memory, dir)),
        }
    }

    fn played(heap: A, dir: D, place: usize) -> Option<Buffer<D, A>> {
        played(heap, dir, SCRIPT.split_at(place.min(SCRIPT.len())).0)
    }

    fn count_at(place: usize) -> usize {
        count_of(act_at(place))
    }

    fn take(&mut self, place: usize, some: &Entries<A>, told: &mut Told) -> Result<(), AllocError> {
        tell_answer(take(self, some, act_at(place)), told)
    }

    fn show(&mut self, told: &mut Told) {
        tell_buffer(self, told);
    }

    fn into_dir(self) -> D {
        Buffer::into_dir(self)
    }
}

// The kinds of calls that take memory, and the others.
const KINDS: u8 = 7;

// Of which kind a call is.
fn kind_of(act: Act) -> u8 {
    match act {
        Act::Stage(..) => 0,
        Act::Append(..) => 1,
        Act::Enqueue(_) => 2,
        Act::Purge(_) => 3,
        Act::DropOldest => 4,
        Act::Renew => 5,
        Act::Body(_) => 6,
        _ => KINDS,
    }
}

// How many requests the calls of this kind make.
fn requests_of_kind<R: Abort, H: Refuses, D: NewDir<H>>(rt: &R, heap: H, kind: u8) -> u64 {
    let mut requests = 0u64;
    for (place, act) in SCRIPT.iter().enumerate() {
        if kind_of(*act) == kind {
            let more = requests_of::<R, H, Call, Site<H, D, Buffer<D, H>>>(
                rt,
                heap,
                Call::Next,
                place,
            );
            requests = requests.saturating_add(more);
        }
    }
    requests
}

/// Whether each kind of call that takes memory asks for it, and no other.
pub fn calls_ask<R: Abort, H: Refuses, D: NewDir<H>>(rt: &R, heap: H) -> bool {
    for kind in 0..KINDS {
        if requests_of_kind::<R, H, D>(rt, heap, kind) == 0 {
            return false;
        }
    }
    requests_of_kind::<R, H, D>(rt, heap, KINDS) == 0
}

#[test]
fn calls(rt: HostRuntime) {
    assert!(rt; in_memory(&rt, rt.alloc(), Part::InFolder(InFolder::Calls)));
}

// The places of the script before which the folder is opened.
static PLACES: [usize; 4] = [0, 1, 7, 25];

/// Whether each opening asks for memory.
pub fn openings_ask<R: Abort, H: Refuses, D: NewDir<H>>(rt: &R, heap: H) -> bool {
    for place in &PLACES {
        if requests_of::<R, H, Call, Site<H, D, Buffer<D, H>>>(rt, heap, Call::Open, *place) == 0 {
            return false;
        }
    }
    true
}

#[test]
fn openings(rt: HostRuntime) {
    assert!(rt; in_memory(&rt, rt.alloc(), Part::InFolder(InFolder::Openings)));
}
