//! Shared buffers for the tests, and deliveries to them.

use crate::script::{entries, open};
use ack_receipt::{Basis, Delivery, Leaf, Numbers, Pending, Receipt, SharedBuffer, Stub, Takes};
use buffer_store::BufferFault;
use disk_files::Dir;
use event_modes::Message;
use std::alloc::Allocator;
use std::sync::Wait;

/// The name of a shared buffer.
pub const LEAF: Leaf = Leaf {
    relay: 1,
    buffer: 0,
};

/// A shared buffer in this folder, whose journal is renewed wherever it is twice as long as what it
/// keeps. Its chunks go once they are written, or are dropped.
pub fn eager_in<A: Allocator + Copy, D: Dir + Drop>(
    alloc: A,
    dir: D,
) -> Option<SharedBuffer<D, A>> {
    let takes = Takes {
        basis: Basis::Written,
        expires: false,
        drops: true,
    };
    match open(alloc, dir, 0) {
        Ok(buffer) => Some(SharedBuffer::new(alloc, buffer, LEAF, takes)),
        Err((_fault, _dir)) => None,
    }
}

/// A message of this tag, with so many entries, which asks for an answer.
pub fn message<A: Allocator + Copy>(alloc: A, tag: u8, count: usize) -> Option<Message<A>> {
    let (Ok(tag), Ok(ack)) = (
        Vec::from_slice(alloc, &[tag]),
        Vec::from_slice(alloc, b"\xa2c1"),
    ) else {
        return None;
    };
    match entries(alloc, count) {
        Some(entries) => Some(Message {
            tag,
            entries,
            ack: Some(ack),
        }),
        None => None,
    }
}

// The next delivery of this message to the buffer.
fn begun_of<A: Allocator + Copy>(
    alloc: A,
    numbers: &mut Numbers,
    message: Message<A>,
) -> Option<Delivery<A>> {
    let (Some(number), Ok(leaves)) = (numbers.draw(), Vec::from_slice(alloc, &[LEAF])) else {
        return None;
    };
    match Delivery::begin(alloc, number, message, leaves) {
        Ok(delivery) => Some(delivery),
        Err(_) => None,
    }
}

/// The next delivery of a message of this tag, with so many entries.
pub fn begun<A: Allocator + Copy>(
    alloc: A,
    numbers: &mut Numbers,
    tag: u8,
    count: usize,
) -> Option<Delivery<A>> {
    match message(alloc, tag, count) {
        Some(message) => begun_of(alloc, numbers, message),
        None => None,
    }
}

/// The receipt of a delivery that is appended; one of no entries isn't.
pub fn receipt_of<R: Wait, A: Allocator + Copy, D: Dir>(
    rt: &R,
    shelf: &SharedBuffer<D, A>,
    delivery: &Delivery<A>,
) -> Result<Receipt<A>, BufferFault> {
    if delivery.entries().count() == 0 {
        return Err(BufferFault::Gone);
    }
    shelf.append(rt, delivery)
}

/// The same without a sync.
pub fn pending_of<R: Wait, A: Allocator + Copy, D: Dir>(
    rt: &R,
    shelf: &SharedBuffer<D, A>,
    delivery: &Delivery<A>,
) -> Result<Pending<A>, BufferFault> {
    if delivery.entries().count() == 0 {
        return Err(BufferFault::Gone);
    }
    shelf.append_pending(rt, delivery)
}

/// Ends what waits.
pub fn give_up_all<R: Wait, A: Allocator + Copy, D: Dir>(
    rt: &R,
    shelf: &SharedBuffer<D, A>,
    waiting: Vec<Pending<A>, A>,
) {
    let mut rest = waiting.into_iter();
    while let Some(pending) = rest.next() {
        shelf.give_up(rt, pending);
    }
    rest.destroy_empty();
}

/// Ends receipts, of which stubs are left, and says the sum of their chunks' serials.
pub fn spend_all<A: Allocator + Copy>(
    receipts: Vec<Receipt<A>, A>,
    stubs: &mut Vec<Stub<A>, A>,
) -> u64 {
    let mut rest = receipts.into_iter();
    let mut sum = 0u64;
    while let Some(receipt) = rest.next() {
        sum = sum.saturating_add(receipt.serial());
        let _ = stubs.push(receipt.spend());
    }
    rest.destroy_empty();
    sum
}
