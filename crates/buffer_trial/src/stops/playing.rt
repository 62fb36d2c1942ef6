//! A buffer is taken through acts, and what is known of its chunks is noted.

use crate::puts::put;
use crate::stops::script::{Act, SERIALS, Table};
use buffer_state::{Limits, Stage};
use buffer_store::{Buffer, BufferFault, RENEWED_PAST_IN_MEMORY, Settings};
use disk_files::Dir;
use event_modes::Entries;
use std::alloc::Allocator;

const SETTINGS: Settings = Settings {
    limits: Limits {
        chunk: u64::MAX,
        total: u64::MAX,
    },
    renewed_past: RENEWED_PAST_IN_MEMORY,
};

/// Opens the buffer in this folder. A folder that doesn't open is handed back with its fault.
pub fn open<A: Allocator + Copy, D: Dir>(
    alloc: A,
    dir: D,
) -> Result<Buffer<D, A>, (BufferFault, D)> {
    Buffer::open(alloc, dir, b"buf", SETTINGS)
}

/// The entry of this number.
pub fn entry<A: Allocator + Copy>(alloc: A, number: u8) -> Result<Entries<A>, BufferFault> {
    match Entries::read(alloc, &[0x92, number, 0x80], 1) {
        Ok(Some(some)) => Ok(some),
        _ => Err(BufferFault::Memory),
    }
}

// The answer without the serial.
fn done(answer: Result<u64, BufferFault>) -> Result<(), BufferFault> {
    match answer {
        Ok(_) => Ok(()),
        Err(fault) => Err(fault),
    }
}

// A call was answered so that syncs all that was begun.
fn synced(table: &mut Table, answer: Result<(), BufferFault>) -> Result<(), BufferFault> {
    if answer.is_ok() {
        table.sync();
    }
    answer
}

// An append that the device fails may be there.
fn grow<A: Allocator + Copy, D: Dir>(
    alloc: A,
    buffer: &mut Buffer<D, A>,
    table: &mut Table,
    tag: u8,
    number: u8,
    is_synced: bool,
) -> Result<(), BufferFault> {
    let some = entry(alloc, number)?;
    let serial = buffer.plan(&[tag], &some)?;
    table.begin(serial, tag, number);
    let put = done(put(buffer, &[tag], &some, is_synced));
    if is_synced { synced(table, put) } else { put }
}

// The chunk of this serial was queued, with a sync.
fn queued(
    table: &mut Table,
    serial: u64,
    answer: Result<(), BufferFault>,
) -> Result<(), BufferFault> {
    if answer.is_ok() {
        table.queue(serial);
    }
    synced(table, answer)
}

fn claim<A: Allocator + Copy, D: Dir>(buffer: &mut Buffer<D, A>, table: &mut Table) {
    if let Some(serial) = buffer.claim() {
        table.claim(serial);
    }
}

fn give_back<A: Allocator + Copy, D: Dir>(buffer: &mut Buffer<D, A>, serial: u64) {
    if buffer.chunks().stage(serial) == Some(Stage::Claimed) {
        buffer.give_back(serial);
    }
}

// A removal that the device fails may have been told.
fn purge<A: Allocator + Copy, D: Dir>(
    buffer: &mut Buffer<D, A>,
    table: &mut Table,
    serial: u64,
) -> Result<(), BufferFault> {
    if !buffer.has_failed() {
        table.let_go(serial);
    }
    buffer.purge(serial)
}

// The least serial of a queued chunk.
fn oldest<A: Allocator + Copy, D: Dir>(buffer: &Buffer<D, A>) -> Option<u64> {
    for serial in 0..SERIALS {
        if buffer.chunks().stage(serial) == Some(Stage::Queued) {
            return Some(serial);
        }
    }
    None
}

fn drop_oldest<A: Allocator + Copy, D: Dir>(
    buffer: &mut Buffer<D, A>,
    table: &mut Table,
) -> Result<(), BufferFault> {
    if let Some(serial) = oldest(buffer)
        && !buffer.has_failed()
    {
        table.let_go(serial);
    }
    done(buffer.drop_oldest())
}

fn take<A: Allocator + Copy, D: Dir>(
    alloc: A,
    buffer: &mut Buffer<D, A>,
    table: &mut Table,
    act: Act,
) -> Result<(), BufferFault> {
    match act {
        Act::Stage(tag, number) => grow(alloc, buffer, table, tag, number, false),
        Act::Append(tag, number) => grow(alloc, buffer, table, tag, number, true),
        Act::Sync => synced(table, buffer.sync()),
        Act::Enqueue(serial) => queued(table, serial, buffer.enqueue(serial)),
        Act::Claim => {
            claim(buffer, table);
            Ok(())
        }
        Act::GiveBack(serial) => {
            give_back(buffer, serial);
            Ok(())
        }
        Act::Purge(serial) => purge(buffer, table, serial),
        Act::DropOldest => drop_oldest(buffer, table),
        Act::Renew => synced(table, buffer.renew()),
    }
}

// Whether a call is answered as it ought to be by a buffer that had failed, or by one that hadn't.
fn is_right(had_failed: bool, act: Act, answer: Result<(), BufferFault>) -> bool {
    match answer {
        Ok(()) => !had_failed || matches!(act, Act::Claim | Act::GiveBack(_)),
        Err(BufferFault::Failed) => had_failed,
        Err(BufferFault::Fault) => !had_failed,
        Err(_) => false,
    }
}

/// Takes the buffer through the acts, and says whether each was answered as it ought to be: behind
/// a fault each call that writes is refused.
pub fn play<A: Allocator + Copy, D: Dir>(
    alloc: A,
    buffer: &mut Buffer<D, A>,
    table: &mut Table,
    acts: &[Act],
) -> bool {
    let mut is_well = true;
    for act in acts {
        let had_failed = buffer.has_failed();
        let answer = take(alloc, buffer, table, *act);
        let fails_now = answer == Err(BufferFault::Fault);
        is_well = is_well && is_right(had_failed, *act, answer);
        is_well = is_well && buffer.has_failed() == (had_failed || fails_now);
    }
    is_well
}
