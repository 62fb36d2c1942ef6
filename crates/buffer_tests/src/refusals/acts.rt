//! What a buffer shows, and answers.

use crate::refusals::told::Told;
use buffer_state::{ChunkFacts, Stage};
use buffer_store::{Buffer, BufferFault};
use disk_files::Dir;
use std::alloc::{AllocError, Allocator};

/// Tells an answer. The error is want of memory; another fault is told.
pub fn tell_answer(answer: Result<u64, BufferFault>, told: &mut Told) -> Result<(), AllocError> {
    match answer {
        Ok(number) => told.number(number),
        Err(BufferFault::Memory) => return Err(AllocError),
        Err(_) => told.number(77_777),
    }
    Ok(())
}

/// Tells what is shown of a chunk.
pub fn tell_facts(facts: &ChunkFacts<'_>, told: &mut Told) {
    told.number(facts.serial);
    told.bytes(facts.tag);
    told.number(facts.count as u64);
    told.number(facts.size as u64);
    told.number(match facts.stage {
        Stage::Staged => 0,
        Stage::Queued => 1,
        Stage::Claimed => 2,
    });
}

// Fewer serials than this are given.
const SERIALS: u64 = 10;

// Tells a chunk and its entries, if there is one of this serial.
fn tell_chunk<A: Allocator + Copy, D: Dir>(
    buffer: &mut Buffer<D, A>,
    serial: u64,
    told: &mut Told,
) {
    if let Some(facts) = buffer.chunks().facts(serial) {
        tell_facts(&facts, told);
    }
    if let Ok(body) = buffer.body(serial) {
        told.bytes(body.as_bytes());
    }
}

/// Tells what a buffer shows: its chunks and their entries, the first of its queue, and whether
/// something isn't synced or failed.
pub fn tell_buffer<A: Allocator + Copy, D: Dir>(buffer: &mut Buffer<D, A>, told: &mut Told) {
    let chunks = buffer.chunks();
    told.number(chunks.next_serial());
    told.number(chunks.total().min(99_999) as u64);
    told.number(chunks.first().unwrap_or(u64::MAX));
    told.number(u64::from(buffer.has_failed()));
    told.number(u64::from(buffer.has_staged()));
    for serial in 0..SERIALS {
        tell_chunk(buffer, serial, told);
    }
}
