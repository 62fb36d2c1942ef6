//! What is looked for in a folder that a stop left.

use crate::puts::put;
use crate::stops::playing::{entry, open};
use crate::stops::script::{Known, SERIALS, Table};
use buffer_state::Stage;
use buffer_store::Buffer;
use disk_files::Dir;
use std::alloc::Allocator;

/// What is wrong.
#[derive(Clone, Copy, Debug)]
pub enum Wrong {
    /// A call was answered otherwise than it ought to be.
    Answer,
    /// The folder doesn't open.
    Unopened,
    /// The serial of a chunk that was claimed is given again.
    FreeSerial,
    /// An entry that was synced is gone, and its chunk wasn't removed.
    Gone,
    /// A chunk whose queueing answered isn't queued.
    NotQueued,
    /// A chunk has another tag, or other entries.
    Content,
    /// The next append isn't taken, or has another serial than the next.
    NextAppend,
    /// Of two generations another one counts than ought to.
    Generation,
    /// A sink lacks an event that was answered for, or has another one.
    Events,
}

fn tag_of<A: Allocator + Copy, D: Dir>(buffer: &Buffer<D, A>, serial: u64) -> Option<u8> {
    match buffer.chunks().facts(serial)?.tag {
        [tag] => Some(*tag),
        _ => None,
    }
}

// Whether these are the first of the numbers.
fn are_first(items: &[u8], numbers: &[u8]) -> bool {
    for (item, number) in items.chunks_exact(3).zip(numbers) {
        if item.get(1) != Some(number) {
            return false;
        }
    }
    true
}

// Whether the chunk has the entries that were synced, and of the others a beginning.
fn has_entries<A: Allocator + Copy, D: Dir>(
    buffer: &mut Buffer<D, A>,
    serial: u64,
    known: &Known,
) -> bool {
    match buffer.body(serial) {
        Ok(body) => known.synced.max(1) <= body.count()
            && body.count() <= known.begun
            && are_first(body.as_bytes(), &known.numbers),
        Err(_) => false,
    }
}

// What is wrong with a chunk that is there.
fn wrong_there<A: Allocator + Copy, D: Dir>(
    buffer: &mut Buffer<D, A>,
    serial: u64,
    known: &Known,
    stage: Stage,
) -> Option<Wrong> {
    if tag_of(buffer, serial) != Some(known.tag) || !has_entries(buffer, serial, known) {
        return Some(Wrong::Content);
    }
    if known.is_queued && stage != Stage::Queued {
        return Some(Wrong::NotQueued);
    }
    None
}

// What is wrong with the chunk of this serial.
fn wrong_chunk<A: Allocator + Copy, D: Dir>(
    buffer: &mut Buffer<D, A>,
    serial: u64,
    known: &Known,
) -> Option<Wrong> {
    if known.was_claimed && buffer.chunks().next_serial() <= serial {
        return Some(Wrong::FreeSerial);
    }
    match buffer.chunks().stage(serial) {
        None if known.synced > 0 && !known.may_be_gone => Some(Wrong::Gone),
        None => None,
        Some(stage) => wrong_there(buffer, serial, known, stage),
    }
}

fn wrong_chunks<A: Allocator + Copy, D: Dir>(
    buffer: &mut Buffer<D, A>,
    table: &Table,
) -> Option<Wrong> {
    for serial in 0..SERIALS {
        let known = table.known(serial)?;
        let wrong = wrong_chunk(buffer, serial, &known);
        if wrong.is_some() {
            return wrong;
        }
    }
    None
}

// Whether the next append takes the next serial.
fn goes_on<A: Allocator + Copy, D: Dir>(alloc: A, buffer: &mut Buffer<D, A>) -> bool {
    let next = buffer.chunks().next_serial();
    match entry(alloc, 99) {
        Ok(some) => put(buffer, b"z", &some, true) == Ok(next),
        Err(_) => false,
    }
}

/// What is wrong in this folder, if anything is.
pub fn wrong_in<A: Allocator + Copy, D: Dir + Drop>(
    alloc: A,
    dir: D,
    table: &Table,
) -> Option<Wrong> {
    match open(alloc, dir) {
        Ok(mut buffer) => {
            let wrong = wrong_with(alloc, &mut buffer, table);
            drop(buffer.into_dir());
            wrong
        }
        Err(_) => Some(Wrong::Unopened),
    }
}

// What is wrong with this buffer.
fn wrong_with<A: Allocator + Copy, D: Dir>(
    alloc: A,
    buffer: &mut Buffer<D, A>,
    table: &Table,
) -> Option<Wrong> {
    let wrong = wrong_chunks(buffer, table);
    if wrong.is_none() && !goes_on(alloc, buffer) {
        return Some(Wrong::NextAppend);
    }
    wrong
}
