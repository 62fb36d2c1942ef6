//! What is in one's hands beside a shared buffer: what was appended to it, and what was claimed
//! from it.

use crate::refusals::acts::tell_facts;
use crate::refusals::files::tell_left;
use crate::refusals::told::Told;
use crate::shelves::{begun, give_up_all, pending_of, receipt_of, spend_all};
use ack_receipt::{
    AuditError, Claim, Closed, Delivery, Evidence, Numbers, Pending, PurgeFault, RedeemFault,
    SharedBuffer, Stub,
};
use buffer_store::BufferFault;
use disk_files::Dir;
use std::alloc::{AllocError, Allocator};
use std::mem::replace;
use std::process::Abort;
use std::sync::Wait;

/// A delivery that isn't appended yet, appends that wait for receipts, what was claimed last, and
/// what is left of deliveries.
pub struct Hands<A: Allocator> {
    heap: A,
    numbers: Numbers,
    next: Option<Delivery<A>>,
    waiting: Vec<Pending<A>, A>,
    claim: Option<Claim<A>>,
    stubs: Vec<Stub<A>, A>,
}

// Fewer serials than this are given.
const SERIALS: u64 = 20;

fn give_back<R: Wait + Abort, A: Allocator + Copy, D: Dir>(
    rt: &R,
    shelf: &SharedBuffer<D, A>,
    claim: Option<Claim<A>>,
) {
    if let Some(claim) = claim {
        if claim.leaf() != shelf.leaf() {
            panic!(rt; "a claim of another buffer");
        }
        shelf.give_back(rt, claim);
    }
}

fn abandon<A: Allocator>(delivery: Option<Delivery<A>>) {
    if let Some(delivery) = delivery {
        let _ = delivery.abandon();
    }
}

fn fault_of_redeem(fault: RedeemFault) -> BufferFault {
    match fault {
        RedeemFault::Buffer(fault) => fault,
        RedeemFault::Stranger => BufferFault::Gone,
    }
}

fn fault_of_purge(fault: PurgeFault) -> BufferFault {
    match fault {
        PurgeFault::Buffer(fault) => fault,
        PurgeFault::Stranger => BufferFault::Gone,
    }
}

fn serial_of<A: Allocator>(claim: &Option<Claim<A>>) -> u64 {
    match claim {
        Some(claim) => claim.serial(),
        None => u64::MAX,
    }
}

impl<A: Allocator + Copy> Hands<A> {
    /// Nothing.
    pub fn new(heap: A) -> Hands<A> {
        Hands {
            heap,
            numbers: Numbers::new(),
            next: None,
            waiting: Vec::new(heap),
            claim: None,
            stubs: Vec::new(heap),
        }
    }

    /// Begins the delivery that comes next, with so many entries, and makes the room that the hands
    /// themselves need for a call. It says whether there was memory for it.
    pub fn prepare(&mut self, tag: u8, count: usize) -> bool {
        if self.waiting.reserve(1).is_err() || self.stubs.reserve(8).is_err() {
            return false;
        }
        let delivery = begun(self.heap, &mut self.numbers, tag, count);
        let is_begun = delivery.is_some();
        abandon(replace(&mut self.next, delivery));
        is_begun
    }
}

/// Appends the delivery that comes next. It stays where that is refused.
pub fn append<R: Wait, A: Allocator + Copy, D: Dir>(
    rt: &R,
    shelf: &SharedBuffer<D, A>,
    hands: &mut Hands<A>,
) -> Result<u64, BufferFault> {
    let Some(delivery) = &hands.next else {
        return Err(BufferFault::Gone);
    };
    match receipt_of(rt, shelf, delivery) {
        Ok(receipt) => {
            let serial = receipt.serial();
            let _ = hands.stubs.push(receipt.spend());
            abandon(hands.next.take());
            Ok(serial)
        }
        Err(fault) => Err(fault),
    }
}

// An append waits for its receipt.
fn keep<R: Wait, A: Allocator + Copy, D: Dir>(
    rt: &R,
    shelf: &SharedBuffer<D, A>,
    waiting: &mut Vec<Pending<A>, A>,
    pending: Pending<A>,
) {
    if let Err(failed) = waiting.push(pending) {
        let _ = shelf.give_up(rt, failed.value);
    }
}

/// The same without a sync: the append waits for its receipt.
pub fn append_pending<R: Wait, A: Allocator + Copy, D: Dir>(
    rt: &R,
    shelf: &SharedBuffer<D, A>,
    hands: &mut Hands<A>,
) -> Result<u64, BufferFault> {
    let Some(delivery) = &hands.next else {
        return Err(BufferFault::Gone);
    };
    match pending_of(rt, shelf, delivery) {
        Ok(pending) => {
            let serial = pending.serial();
            abandon(hands.next.take());
            keep(rt, shelf, &mut hands.waiting, pending);
            Ok(serial)
        }
        Err(fault) => Err(fault),
    }
}

/// Redeems all that wait.
pub fn redeem<R: Wait, A: Allocator + Copy, D: Dir>(
    rt: &R,
    shelf: &SharedBuffer<D, A>,
    hands: &mut Hands<A>,
) -> Result<u64, BufferFault> {
    let waiting = replace(&mut hands.waiting, Vec::new(hands.heap));
    match shelf.redeem(rt, waiting) {
        Ok(receipts) => Ok(spend_all(receipts, &mut hands.stubs)),
        Err((fault, waiting)) => {
            let none = replace(&mut hands.waiting, waiting);
            give_up_all(rt, shelf, none);
            Err(fault_of_redeem(fault))
        }
    }
}

/// Claims the next chunk; one that was claimed before is given back.
pub fn claim<R: Wait + Abort, A: Allocator + Copy, D: Dir>(
    rt: &R,
    shelf: &SharedBuffer<D, A>,
    hands: &mut Hands<A>,
) -> Result<u64, BufferFault> {
    match shelf.claim(rt) {
        Ok(found) => {
            let serial = serial_of(&found);
            give_back(rt, shelf, replace(&mut hands.claim, found));
            Ok(serial)
        }
        Err(AllocError) => Err(BufferFault::Memory),
    }
}

/// Reads the entries of what is claimed.
pub fn body<R: Wait, A: Allocator + Copy, D: Dir>(
    rt: &R,
    shelf: &SharedBuffer<D, A>,
    hands: &Hands<A>,
    told: &mut Told,
) -> Result<u64, BufferFault> {
    let Some(claim) = &hands.claim else {
        return Err(BufferFault::Gone);
    };
    match shelf.body(rt, claim) {
        Ok(entries) => {
            told.bytes(entries.as_bytes());
            Ok(entries.count() as u64)
        }
        Err(fault) => Err(fault),
    }
}

/// Lets what is claimed go, as written.
pub fn purge<R: Wait + Abort, A: Allocator + Copy, D: Dir>(
    rt: &R,
    shelf: &SharedBuffer<D, A>,
    hands: &mut Hands<A>,
) -> Result<u64, BufferFault> {
    let Some(claim) = hands.claim.take() else {
        return Err(BufferFault::Gone);
    };
    let evidence = Evidence::written(&claim);
    match shelf.purge(rt, claim, evidence) {
        Ok(()) => Ok(0),
        Err((fault, claim, evidence)) => {
            evidence.waste();
            give_back(rt, shelf, replace(&mut hands.claim, Some(claim)));
            Err(fault_of_purge(fault))
        }
    }
}

/// Settles what is left of the last delivery, and lets it go.
pub fn settle<R: Wait, A: Allocator + Copy, D: Dir>(
    rt: &R,
    shelf: &SharedBuffer<D, A>,
    hands: &mut Hands<A>,
) -> Result<u64, BufferFault> {
    let Some(stub) = hands.stubs.pop() else {
        return Err(BufferFault::Gone);
    };
    match shelf.settle(rt, &stub) {
        Ok(()) => Ok(stub.delivery),
        Err(_) => Err(BufferFault::Gone),
    }
}

/// Tells which chunks there are, whether the buffer has failed, and what is in one's hands.
pub fn tell<R: Wait, A: Allocator + Copy, D: Dir>(
    rt: &R,
    shelf: &SharedBuffer<D, A>,
    hands: &Hands<A>,
    told: &mut Told,
) {
    for serial in 0..SERIALS {
        told.number(u64::from(shelf.is_live(rt, serial)));
    }
    told.number(u64::from(shelf.has_failed(rt)));
    told.number(hands.waiting.len() as u64);
    told.number(u64::from(hands.next.is_some()));
    told.number(u64::from(hands.claim.is_some()));
}

/// Ends the sharing, with what is in one's hands.
pub fn end<R: Wait + Abort, A: Allocator + Copy, D: Dir>(
    rt: &R,
    shelf: SharedBuffer<D, A>,
    hands: Hands<A>,
) -> Books<A, D> {
    let Hands {
        heap,
        numbers: _,
        next,
        waiting,
        claim,
        stubs,
    } = hands;
    abandon(next);
    give_back(rt, &shelf, claim);
    give_up_all(rt, &shelf, waiting);
    Books {
        heap,
        closed: shelf.close(),
        stubs,
    }
}

/// A buffer that was shared, with its book, and what is left of its deliveries.
pub struct Books<A: Allocator, D: Dir> {
    heap: A,
    closed: Closed<D, A>,
    stubs: Vec<Stub<A>, A>,
}

fn tell_chunks<A: Allocator + Copy, D: Dir>(closed: &Closed<D, A>, told: &mut Told) {
    for serial in 0..SERIALS {
        if let Some(facts) = closed.chunks().facts(serial) {
            tell_facts(&facts, told);
        }
    }
}

/// Whether what is left accounts for the book.
pub fn audit<A: Allocator + Copy, D: Dir>(books: &Books<A, D>) -> Result<bool, AllocError> {
    match books.closed.audit(books.heap, &books.stubs) {
        Ok(()) => Ok(true),
        Err(AuditError::Fault(_)) => Ok(false),
        Err(AuditError::Memory) => Err(AllocError),
    }
}

/// Tells the chunks, whether what is left accounts for the book, and the folder's files.
pub fn tell_books<A: Allocator + Copy, D: Dir + Drop>(books: Books<A, D>, told: &mut Told) {
    told.number(u64::from(matches!(audit(&books), Ok(true))));
    let Books {
        heap,
        closed,
        stubs: _,
    } = books;
    tell_chunks(&closed, told);
    tell_left(heap, closed.into_dir(), told);
}
