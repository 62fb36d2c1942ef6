//! Each call of a script of a shared buffer, and audits of its book.

use crate::devices::NewDir;
use crate::parts::{InFolder, Part, in_memory};
use crate::refusals::acts::tell_answer;
use crate::refusals::shop::{
    Books, Hands, append, append_pending, audit, body, claim, end, purge, redeem, settle, tell,
    tell_books,
};
use crate::refusals::told::Told;
use crate::refusals::trial::{Refuses, Trial, requests_of};
use crate::script::done;
use crate::shelves::eager_in;
use ack_receipt::SharedBuffer;
use buffer_store::BufferFault;
use disk_files::Dir;
use std::alloc::{AllocError, Allocator};
use std::process::Abort;
use std::sync::Wait;

// A call of a shared buffer. A tag has one byte.
#[derive(Clone, Copy)]
enum Act {
    Append(u8),
    Pend(u8),
    Redeem,
    Enqueue(u64),
    Claim,
    Body,
    Purge,
    DropOldest,
    Renew,
    Settle,
}

// Chunks grow and wait for receipts; they are queued, claimed, read, purged and dropped. In the end
// a line of the book is closed.
static SCRIPT: [Act; 38] = [
    Act::Append(b'a'),
    Act::Append(b'a'),
    Act::Append(b'b'),
    Act::Pend(b'b'),
    Act::Pend(b'c'),
    Act::Redeem,
    Act::Append(b'd'),
    Act::Append(b'd'),
    Act::Append(b'd'),
    Act::Append(b'd'),
    Act::Append(b'e'),
    Act::Pend(b'e'),
    Act::Pend(b'e'),
    Act::Pend(b'e'),
    Act::Pend(b'f'),
    Act::Pend(b'f'),
    Act::Append(b'f'),
    Act::Append(b'f'),
    Act::Enqueue(0),
    Act::Redeem,
    Act::Enqueue(1),
    Act::Enqueue(2),
    Act::Enqueue(3),
    Act::Enqueue(4),
    Act::Claim,
    Act::Body,
    Act::Purge,
    Act::Claim,
    Act::Claim,
    Act::Body,
    Act::Purge,
    Act::DropOldest,
    Act::Append(b'a'),
    Act::Append(b'a'),
    Act::Enqueue(5),
    Act::Renew,
    Act::DropOldest,
    Act::Settle,
];

fn take<R: Wait + Abort, A: Allocator + Copy, D: Dir>(
    rt: &R,
    shelf: &SharedBuffer<D, A>,
    hands: &mut Hands<A>,
    act: Act,
    told: &mut Told,
) -> Result<u64, BufferFault> {
    match act {
        Act::Append(_) => append(rt, shelf, hands),
        Act::Pend(_) => append_pending(rt, shelf, hands),
        Act::Redeem => redeem(rt, shelf, hands),
        Act::Enqueue(serial) => done(shelf.enqueue(rt, serial)),
        Act::Claim => claim(rt, shelf, hands),
        Act::Body => body(rt, shelf, hands, told),
        Act::Purge => purge(rt, shelf, hands),
        Act::DropOldest => shelf.drop_oldest(rt),
        Act::Renew => done(shelf.renew(rt)),
        Act::Settle => settle(rt, shelf, hands),
    }
}

// The tag of what a call appends.
fn tag_of(act: Act) -> u8 {
    match act {
        Act::Append(tag) | Act::Pend(tag) => tag,
        _ => b'x',
    }
}

fn act_at(place: usize) -> Act {
    match SCRIPT.get(place) {
        Some(act) => *act,
        None => Act::Redeem,
    }
}

// Whether the calls before this place are answered, and the one there is prepared.
fn goes_to<R: Wait + Abort, A: Allocator + Copy, D: Dir>(
    rt: &R,
    shelf: &SharedBuffer<D, A>,
    hands: &mut Hands<A>,
    place: usize,
) -> bool {
    for act in SCRIPT.split_at(place.min(SCRIPT.len())).0 {
        if !hands.prepare(tag_of(*act), 1)
            || take(rt, shelf, hands, *act, &mut Told::new()).is_err()
        {
            return false;
        }
    }
    hands.prepare(tag_of(act_at(place)), 2)
}

// A shared buffer behind the calls before a place of the script, what is in one's hands, and the
// call there.
struct Trying<'r, R, A: Allocator, D: Dir> {
    rt: &'r R,
    act: Act,
    shelf: SharedBuffer<D, A>,
    hands: Hands<A>,
}

// A shared buffer in a new folder, behind the calls before this place. Its chunks go once they are
// written, or are dropped.
fn played<'r, R: Wait + Abort, A: Allocator + Copy, D: NewDir<A>>(
    rt: &'r R,
    heap: A,
    place: usize,
) -> Option<Trying<'r, R, A, D>> {
    let Some(shelf) = eager_in(heap, D::made(heap)) else {
        return None;
    };
    let mut hands = Hands::new(heap);
    if goes_to(rt, &shelf, &mut hands, place) {
        return Some(Trying {
            rt,
            act: act_at(place),
            shelf,
            hands,
        });
    }
    tell_books(end(rt, shelf, hands), &mut Told::new());
    None
}

impl<'r, R: Wait + Abort, A: Allocator + Copy, D: NewDir<A>> Trial<A, &'r R>
    for Trying<'r, R, A, D> {
    fn made(heap: A, rt: &'r R, behind: usize) -> Option<Self> {
        played(rt, heap, behind)
    }

    fn call(&mut self, rt: &'r R, told: &mut Told) -> Result<(), AllocError> {
        tell_answer(take(rt, &self.shelf, &mut self.hands, self.act, told), told)
    }

    fn show(&mut self, told: &mut Told) {
        tell(self.rt, &self.shelf, &self.hands, told);
    }

    fn close(self, told: &mut Told) {
        let Trying {
            rt,
            act: _,
            shelf,
            hands,
        } = self;
        tell_books(end(rt, shelf, hands), told);
    }
}

// The books behind the calls before a place, if what is left accounts for them.
fn whole_at<R: Wait + Abort, A: Allocator + Copy, D: NewDir<A>>(
    rt: &R,
    heap: A,
    place: usize,
) -> Option<Books<A, D>> {
    let Some(books) = books_at(rt, heap, place) else {
        return None;
    };
    if audit(&books) == Ok(true) {
        return Some(books);
    }
    tell_books(books, &mut Told::new());
    None
}

// The books behind the calls before a place.
fn books_at<R: Wait + Abort, A: Allocator + Copy, D: NewDir<A>>(
    rt: &R,
    heap: A,
    place: usize,
) -> Option<Books<A, D>> {
    match played(rt, heap, place) {
        Some(
            Trying {
                rt: _,
                act: _,
                shelf,
                hands,
            },
        ) => Some(end(rt, shelf, hands)),
        None => None,
    }
}

// An audit behind the calls before a place.
impl<'r, R: Wait + Abort, A: Allocator + Copy, D: NewDir<A>> Trial<A, &'r R> for Books<A, D> {
    fn made(heap: A, rt: &'r R, behind: usize) -> Option<Self> {
        whole_at(rt, heap, behind)
    }

    fn call(&mut self, _rt: &'r R, told: &mut Told) -> Result<(), AllocError> {
        match audit(self) {
            Ok(accounts) => told.number(u64::from(accounts)),
            Err(AllocError) => return Err(AllocError),
        }
        Ok(())
    }

    fn show(&mut self, _told: &mut Told) {}

    fn close(self, told: &mut Told) {
        tell_books(self, told);
    }
}

// How many requests the call at this place makes.
fn requests_at<R: Wait + Abort, H: Refuses, D: NewDir<H>>(rt: &R, heap: H, place: usize) -> u64 {
    requests_of::<R, H, &R, Trying<'_, R, H, D>>(rt, heap, rt, place)
}

/// Whether the calls of the script ask for memory more than thirty times.
pub fn calls_ask<R: Wait + Abort, H: Refuses, D: NewDir<H>>(rt: &R, heap: H) -> bool {
    let mut requests = 0u64;
    for place in 0..SCRIPT.len() {
        requests = requests.saturating_add(requests_at::<R, H, D>(rt, heap, place));
    }
    requests > 30
}

#[test]
fn calls(rt: HostRuntime) {
    assert!(rt; in_memory(&rt, rt.alloc(), Part::InFolder(InFolder::SharedCalls)));
}

// Places of the script behind which there is an audit; all of it, and a line is closed then.
static AUDITS: [usize; 3] = [12, 13, 38];

/// Whether audits ask for memory.
pub fn audits_ask<R: Wait + Abort, H: Refuses, D: NewDir<H>>(rt: &R, heap: H) -> bool {
    for place in &AUDITS {
        if requests_of::<R, H, &R, Books<H, D>>(rt, heap, rt, *place) == 0 {
            return false;
        }
    }
    true
}

#[test]
fn audits(rt: HostRuntime) {
    assert!(rt; in_memory(&rt, rt.alloc(), Part::InFolder(InFolder::SharedAudits)));
}
