//! Calls of shared buffers of which no clause says what they did, and the one sync of a list.

use crate::devices::OnDevice;
use crate::parts::{Part, in_memory};
use crate::refusals::shop::{Hands, append, append_pending, end, redeem, tell_books};
use crate::refusals::told::Told;
use crate::shelves::eager_in;
use ack_receipt::SharedBuffer;
use buffer_store::BufferFault;
use disk_files::Dir;
use std::alloc::Allocator;
use std::process::Abort;
use std::sync::Wait;

// What is done with a shared buffer.
#[derive(Clone, Copy)]
enum Doing {
    // Its only chunk is queued and dropped, and its journal, which is long then, is written anew.
    Renewal,
    // So many appends wait, and are redeemed as one list.
    List(u64),
}

// Whether chunk 0 goes once it is queued, and not before.
fn is_dropped<R: Wait, A: Allocator + Copy, D: Dir>(rt: &R, shelf: &SharedBuffer<D, A>) -> bool {
    shelf.drop_oldest(rt) == Err(BufferFault::Gone)
        && shelf.enqueue(rt, 0).is_ok()
        && shelf.is_live(rt, 0)
        && shelf.drop_oldest(rt) == Ok(0)
        && !shelf.is_live(rt, 0)
}

// Whether the device fails as the journal is written anew, and that is told.
fn fails<R: Wait, A: Allocator + Copy, D: Dir>(rt: &R, shelf: &SharedBuffer<D, A>) -> bool {
    !shelf.has_failed(rt) && shelf.renew(rt) == Err(BufferFault::Fault) && shelf.has_failed(rt)
}

// Whether the device fails only then, behind the append and the drop of a chunk.
fn fails_late<R: Wait, A: Allocator + Copy, D: Dir>(
    rt: &R,
    shelf: &SharedBuffer<D, A>,
    hands: &mut Hands<A>,
) -> bool {
    hands.prepare(b'a', 1)
        && append(rt, shelf, hands).is_ok()
        && is_dropped(rt, shelf)
        && fails(rt, shelf)
}

// Whether so many appends wait.
fn wait<R: Wait, A: Allocator + Copy, D: Dir>(
    rt: &R,
    shelf: &SharedBuffer<D, A>,
    hands: &mut Hands<A>,
    count: u64,
) -> bool {
    for _ in 0..count {
        if !hands.prepare(b'a', 1) || append_pending(rt, shelf, hands).is_err() {
            return false;
        }
    }
    true
}

// Whether it goes so.
fn goes<R: Wait, A: Allocator + Copy, D: Dir>(
    rt: &R,
    shelf: &SharedBuffer<D, A>,
    hands: &mut Hands<A>,
    doing: Doing,
) -> bool {
    match doing {
        Doing::Renewal => fails_late(rt, shelf, hands),
        Doing::List(count) => { wait(rt, shelf, hands, count) && redeem(rt, shelf, hands).is_ok() }
    }
}

// The same of a shared buffer in this folder.
fn goes_in<R: Wait + Abort, A: Allocator + Copy, D: Dir + Drop>(
    rt: &R,
    alloc: A,
    dir: D,
    doing: Doing,
) -> bool {
    let Some(shelf) = eager_in(alloc, dir) else {
        return false;
    };
    let mut hands = Hands::new(alloc);
    let goes = goes(rt, &shelf, &mut hands, doing);
    tell_books(end(rt, shelf, hands), &mut Told::new());
    goes
}

// Behind how many of the first calls of its device, of which one fails, it goes so.
fn times<R: Wait + Abort, A: Allocator + Copy, D: OnDevice<A>>(
    rt: &R,
    alloc: A,
    doing: Doing,
) -> u64 {
    let mut times = 0u64;
    for passes in 0..40u64 {
        if goes_in(rt, alloc, D::made(alloc).on_device(passes), doing) {
            times = times.saturating_add(1);
        }
    }
    times
}

/// Whether a device that fails as a journal is written anew is told.
pub fn renewal_fails<R: Wait + Abort, A: Allocator + Copy, D: OnDevice<A>>(
    rt: &R,
    alloc: A,
) -> bool {
    times::<R, A, D>(rt, alloc, Doing::Renewal) > 0
}

// What is queued can be dropped, once; a journal that is long is written anew, and a buffer knows
// that it failed.
#[test]
fn a_chunk_is_dropped_and_a_journal_renewed(rt: HostRuntime) {
    assert!(rt; in_memory(&rt, rt.alloc(), Part::Renewal));
}

/// Whether the lists of one append and of three take as many calls behind the appends.
pub fn take_one_sync<R: Wait + Abort, A: Allocator + Copy, D: OnDevice<A>>(
    rt: &R,
    alloc: A,
) -> bool {
    let one = times::<R, A, D>(rt, alloc, Doing::List(1));
    let three = times::<R, A, D>(rt, alloc, Doing::List(3));
    three > 0 && one.checked_sub(three) == Some(2)
}

// A list takes one sync, whatever its length: each append is one call more, of which none may fail.
#[test]
fn a_list_takes_one_sync(rt: HostRuntime) {
    assert!(rt; in_memory(&rt, rt.alloc(), Part::OneSync));
}
