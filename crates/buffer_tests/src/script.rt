//! Steps of a buffer as rows of a table, so that each call is proved once and a test is data.

use buffer_state::{Limits, Stage};
use buffer_store::{Appended, Buffer, BufferFault, RENEWED_PAST_IN_MEMORY, Settings};
use disk_files::Dir;
use event_modes::Entries;
use std::alloc::Allocator;

/// Limits that no test meets.
pub const WIDE: Limits = Limits {
    chunk: u64::MAX,
    total: u64::MAX,
};

/// A call of a buffer. A tag has one byte, and each entry is the same.
#[derive(Clone, Copy)]
pub enum Act {
    /// So many entries of this tag, which aren't synced.
    Stage(u8, usize),
    /// So many entries of this tag.
    Append(u8, usize),
    Sync,
    Enqueue(u64),
    Claim,
    GiveBack(u64),
    Purge(u64),
    DropOldest,
    Renew,
    /// The entries of a chunk.
    Body(u64),
}

/// An entry: a time and an empty record.
pub const ENTRY: &[u8] = b"\x92\x01\x80";

/// So many entries of three bytes.
pub fn entries<A: Allocator + Copy>(alloc: A, count: usize) -> Option<Entries<A>> {
    let Ok(Some(one)) = Entries::read(alloc, ENTRY, 1) else {
        return None;
    };
    let mut all = Entries::new(alloc);
    for _ in 0..count {
        if all.append(&one).is_err() {
            return None;
        }
    }
    Some(all)
}

/// How many entries a step appends; one where it appends none.
pub fn count_of(step: Act) -> usize {
    match step {
        Act::Stage(_, count) | Act::Append(_, count) => count,
        _ => 1,
    }
}

/// What a call is answered by: nothing but that it was done.
pub fn done(told: Result<(), BufferFault>) -> Result<u64, BufferFault> {
    match told {
        Ok(()) => Ok(0),
        Err(fault) => Err(fault),
    }
}

// The serial of what was appended.
fn serial_of(put: Result<Appended, BufferFault>) -> Result<u64, BufferFault> {
    match put {
        Ok(put) => Ok(put.serial),
        Err(fault) => Err(fault),
    }
}

// Appends entries, and syncs them or not.
fn add<A: Allocator + Copy, D: Dir>(
    buffer: &mut Buffer<D, A>,
    tag: u8,
    some: &Entries<A>,
    is_synced: bool,
) -> Result<u64, BufferFault> {
    if some.count() == 0 {
        return Err(BufferFault::Gone);
    }
    if is_synced {
        serial_of(buffer.append(&[tag], some))
    } else {
        serial_of(buffer.stage(&[tag], some))
    }
}

fn claim<A: Allocator + Copy, D: Dir>(buffer: &mut Buffer<D, A>) -> Result<u64, BufferFault> {
    match buffer.claim() {
        Some(serial) => Ok(serial),
        None => Err(BufferFault::Gone),
    }
}

// Gives back a chunk that is claimed.
fn give_back<A: Allocator + Copy, D: Dir>(
    buffer: &mut Buffer<D, A>,
    serial: u64,
) -> Result<u64, BufferFault> {
    if buffer.chunks().stage(serial) != Some(Stage::Claimed) {
        return Err(BufferFault::Gone);
    }
    buffer.give_back(serial);
    Ok(serial)
}

fn body<A: Allocator + Copy, D: Dir>(
    buffer: &mut Buffer<D, A>,
    serial: u64,
) -> Result<u64, BufferFault> {
    match buffer.body(serial) {
        Ok(entries) => Ok(entries.count() as u64),
        Err(fault) => Err(fault),
    }
}

/// Takes the buffer through a step, with the entries that it appends: a serial or a number of
/// entries, where it has such an answer.
pub fn take<A: Allocator + Copy, D: Dir>(
    buffer: &mut Buffer<D, A>,
    some: &Entries<A>,
    step: Act,
) -> Result<u64, BufferFault> {
    match step {
        Act::Stage(tag, _) => add(buffer, tag, some, false),
        Act::Append(tag, _) => add(buffer, tag, some, true),
        Act::Sync => done(buffer.sync()),
        Act::Enqueue(serial) => done(buffer.enqueue(serial)),
        Act::Claim => claim(buffer),
        Act::GiveBack(serial) => give_back(buffer, serial),
        Act::Purge(serial) => done(buffer.purge(serial)),
        Act::DropOldest => buffer.drop_oldest(),
        Act::Renew => done(buffer.renew()),
        Act::Body(serial) => body(buffer, serial),
    }
}

// Whether a step isn't refused.
fn is_taken<A: Allocator + Copy, D: Dir>(alloc: A, buffer: &mut Buffer<D, A>, step: Act) -> bool {
    match entries(alloc, count_of(step)) {
        Some(some) => take(buffer, &some, step).is_ok(),
        None => false,
    }
}

// The same of each step; those behind one that is refused aren't taken.
fn are_taken<A: Allocator + Copy, D: Dir>(
    alloc: A,
    buffer: &mut Buffer<D, A>,
    steps: &[Act],
) -> bool {
    for step in steps {
        if !is_taken(alloc, buffer, *step) {
            return false;
        }
    }
    true
}

/// Opens the buffer in this folder, whose journal is to be renewed past so many bytes. A folder
/// that doesn't open is handed back with its fault.
pub fn open<D: Dir, A: Allocator + Copy>(
    alloc: A,
    dir: D,
    renewed_past: u64,
) -> Result<Buffer<D, A>, (BufferFault, D)> {
    let settings = Settings {
        limits: WIDE,
        renewed_past,
    };
    Buffer::open(alloc, dir, b"buf", settings)
}

/// The buffer in this folder behind these steps, none of which is refused.
pub fn played<A: Allocator + Copy, D: Dir + Drop>(
    alloc: A,
    dir: D,
    steps: &[Act],
) -> Option<Buffer<D, A>> {
    let Ok(mut buffer) = open(alloc, dir, RENEWED_PAST_IN_MEMORY) else {
        return None;
    };
    if are_taken(alloc, &mut buffer, steps) {
        return Some(buffer);
    }
    None
}
