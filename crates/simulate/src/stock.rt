//! The chunks of a relay that was opened again are held against what was told.

use crate::chunks::{Chunk, Chunks, Stage};
use crate::held::{Held, claim, give_all_back};
use crate::judge::Judge;
use crate::machine::Machine;
use crate::parts::{Hold, Parts, Task};
use crate::site::Site;
use std::alloc::{AllocError, Global};
use std::mem;
use std::sync::Wait;

/// Goes through the chunks of a relay that was opened, and takes steps out that the stop lost:
/// whether there were any.
pub fn take_stock<R: Wait, P: Parts, M: Machine>(
    rt: &R,
    alloc: Global,
    site: &mut Site<P>,
    judge: &mut Judge<M>,
) -> Result<bool, AllocError> {
    match &mut site.open {
        Some(open) => go_through(rt, alloc, open, &mut site.chunks, judge),
        None => Ok(false),
    }
}

// The same of these chunks and parts.
fn go_through<R: Wait, P: Parts, M: Machine>(
    rt: &R,
    alloc: Global,
    open: &mut P,
    chunks: &mut Chunks,
    judge: &mut Judge<M>,
) -> Result<bool, AllocError> {
    let mut undone = keep_all(rt, alloc, open, chunks, judge)?;
    open.tend(rt, Task::Queue);
    for buffer in 0..open.count_buffers() {
        undone = look_into(rt, alloc, open, chunks, judge, buffer)? || undone;
    }
    Ok(undone)
}

// What is known of its chunks behind the stop is kept: whether some of it is lost.
fn keep_all<R: Wait, P: Parts, M: Machine>(
    rt: &R,
    alloc: Global,
    open: &P,
    chunks: &mut Chunks,
    judge: &mut Judge<M>,
) -> Result<bool, AllocError> {
    let mut undone = false;
    let all = mem::replace(&mut chunks.all, Vec::new(alloc));
    for chunk in all {
        let mut chunk = chunk;
        let fate = fate_of(rt, open, judge, &mut chunk)?;
        undone = undone || fate.is_undone;
        match fate.restart {
            Some(serial) => chunks.restart_at(chunk.name.buffer, serial),
            None => chunks.all.push(chunk)?,
        }
    }
    Ok(undone)
}

// What becomes of a chunk behind a stop.
#[derive(Clone, Copy)]
struct Fate {
    // What was told of it is lost.
    is_undone: bool,
    // The next serial of its buffer is this one at most, as it isn't there.
    restart: Option<u64>,
}

// What becomes of a chunk behind the stop, which is wrong where it is lost and may not be.
fn fate_of<R: Wait, P: Parts, M: Machine>(
    rt: &R,
    open: &P,
    judge: &mut Judge<M>,
    chunk: &mut Chunk,
) -> Result<Fate, AllocError> {
    let (buffer, serial) = (chunk.name.buffer, chunk.name.serial);
    let mut fate = Fate {
        is_undone: false,
        restart: None,
    };
    if open.settings(buffer).is_in_memory {
        fate.restart = Some(0);
    } else if open.is_live(rt, buffer, serial) {
        fate.is_undone = come_back(judge, chunk)?;
    } else if !matches!(chunk.stage, Stage::Gone) {
        fate = Fate {
            is_undone: true,
            restart: Some(serial),
        };
        lose(judge, chunk)?;
    }
    Ok(fate)
}

// A chunk is there, and isn't claimed any more: whether it went before, which is wrong where a sync
// was told behind that.
fn come_back<M: Machine>(judge: &mut Judge<M>, chunk: &mut Chunk) -> Result<bool, AllocError> {
    match chunk.stage {
        Stage::Staged | Stage::Queued => Ok(false),
        Stage::Claimed => {
            chunk.stage = Stage::Queued;
            Ok(false)
        }
        Stage::Gone => {
            chunk.stage = Stage::Queued;
            judge.take_out(chunk.went);
            if chunk.is_synced {
                judge.fail_chunk(chunk.name, "comes back")?;
            }
            Ok(true)
        }
    }
}

// A chunk isn't there, which is wrong where one of its appends was synced.
fn lose<M: Machine>(judge: &mut Judge<M>, chunk: &Chunk) -> Result<(), AllocError> {
    take_out_from(judge, chunk, 0);
    if chunk.may_be_lost() {
        return Ok(());
    }
    judge.fail_chunk(chunk.name, "is lost")
}

// Takes out the appends of the chunk from this one on; with the first of them that it was queued.
fn take_out_from<M: Machine>(judge: &mut Judge<M>, chunk: &Chunk, from: usize) {
    for append in chunk.appends.iter().skip(from) {
        judge.take_out(append.line);
    }
    if from == 0
        && let Some(line) = chunk.queued
    {
        judge.take_out(line);
    }
}

// Reads each chunk of a buffer, and gives it back: whether some of its appends are lost.
fn look_into<R: Wait, P: Parts, M: Machine>(
    rt: &R,
    alloc: Global,
    open: &P,
    chunks: &mut Chunks,
    judge: &mut Judge<M>,
    buffer: usize,
) -> Result<bool, AllocError> {
    let mut all = Vec::new(alloc);
    claim_all(rt, open, chunks.relay, buffer, &mut all);
    let looked = look_at_all(rt, chunks, judge, buffer, &all);
    give_all_back(rt, all);
    looked
}

// Claims all that is queued.
fn claim_all<R: Wait, P: Parts>(
    rt: &R,
    open: &P,
    relay: u32,
    buffer: usize,
    all: &mut Vec<Held<P::Hold>>,
) {
    for _ in 0..10_000u32 {
        if all.reserve(1).is_err() {
            return;
        }
        match claim(rt, open, relay, buffer) {
            Some(held) => all.push_reserved(held),
            None => return,
        }
    }
}

// Looks at what was claimed of a buffer: whether some of its appends are lost.
fn look_at_all<R: Wait, H: Hold, M: Machine>(
    rt: &R,
    chunks: &mut Chunks,
    judge: &mut Judge<M>,
    buffer: usize,
    all: &[Held<H>],
) -> Result<bool, AllocError> {
    let mut undone = false;
    if all.len() != chunks.tally(buffer).count {
        judge.fail_buffer(chunks.relay, buffer, "hasn't all its chunks in its queue")?;
    }
    for held in all {
        undone = look_at_claim(rt, chunks, judge, buffer, &held.hold)? || undone;
    }
    Ok(undone)
}

// Looks at the chunk of a claim: whether a stop lost some of it. It has no bytes where they can't
// be read.
fn look_at_claim<R: Wait, H: Hold, M: Machine>(
    rt: &R,
    chunks: &mut Chunks,
    judge: &mut Judge<M>,
    buffer: usize,
    hold: &H,
) -> Result<bool, AllocError> {
    let claim = hold.claim();
    let name = chunks.name(buffer, claim.serial());
    match chunks.find(name) {
        Some(chunk) if chunk.tag.as_slice() == claim.tag() => match hold.body(rt) {
            Some(entries) => look_at(judge, chunk, entries.as_bytes()),
            None => look_at(judge, chunk, &[]),
        },
        _ => {
            judge.fail_chunk(name, "was never told")?;
            Ok(false)
        }
    }
}

// Holds what was found of a chunk against what was told: whether a stop lost some of it.
fn look_at<M: Machine>(
    judge: &mut Judge<M>,
    chunk: &mut Chunk,
    bytes: &[u8],
) -> Result<bool, AllocError> {
    match chunk.found(bytes) {
        Some(count) if !matches!(chunk.stage, Stage::Gone) => {
            let is_whole = count >= chunk.appends.len();
            take_out_from(judge, chunk, count);
            chunk.appends.truncate(count);
            Ok(!is_whole)
        }
        _ => {
            judge.fail_chunk(chunk.name, "holds something else")?;
            Ok(false)
        }
    }
}
