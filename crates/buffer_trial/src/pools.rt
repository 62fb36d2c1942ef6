//! Workers at a shared buffer in memory, with a courier that does nothing, and claims while many
//! chunks wait.

use crate::puts::put;
use ack_receipt::{Basis, Evidence, Leaf, SharedBuffer, Takes};
use buffer_state::Limits;
use buffer_store::{Buffer, BufferFault, RENEWED_PAST_IN_MEMORY, Settings};
use disk_files::Dir;
use event_modes::Entries;
use flush_pool::{CarryFault, ClaimView, Courier, OpenGate, Retries, run_pool};
use retry_waits::RetrySettings;
use std::alloc::Global;
use std::io::Print;
use std::sync::Wait;
use std::sync::atomic::{AtomicBool, AtomicU64, Ordering};
use std::thread::Threads;
use std::time::{Clock, Instant};

const LEAF: Leaf = Leaf {
    relay: 1,
    buffer: 0,
};

const SETTINGS: Settings = Settings {
    limits: Limits {
        chunk: 8_388_608,
        total: 536_870_912,
    },
    renewed_past: RENEWED_PAST_IN_MEMORY,
};

const RETRIES: RetrySettings = RetrySettings {
    wait: 1,
    exponential_backoff_base: 2,
    max_interval: None,
    max_times: None,
    timeout: 259_200,
    forever: true,
};

// A buffer in a folder of any kind: over one in memory all that is said of it would be in view at
// each call.
type Shelf<D> = SharedBuffer<D, Global>;

// Carries nothing anywhere, and stops the workers at the last chunk.
#[derive(Clone, Copy)]
struct Idle<'a> {
    left: &'a AtomicU64,
    stop: &'a AtomicBool,
}

impl<'a, R: Wait, D: Dir> Courier<R, D, Global> for Idle<'a> {
    fn carry(
        &self,
        _rt: &R,
        chunk: &ClaimView<'_, D, Global>,
    ) -> Result<Evidence<Global>, CarryFault> {
        if self.left.fetch_sub(1, Ordering::SeqCst) <= 1 {
            self.stop.store(true, Ordering::SeqCst);
        }
        Ok(Evidence::written(chunk.claim()))
    }
}

// Appends these entries so many times, and queues each chunk.
fn put_all<D: Dir>(
    buffer: &mut Buffer<D, Global>,
    entries: &Entries<Global>,
    chunks: u64,
) -> Result<(), BufferFault> {
    for _ in 0..chunks {
        let serial = put(buffer, b"bench", entries, true)?;
        buffer.enqueue(serial)?;
    }
    Ok(())
}

// A buffer in this folder with so many queued chunks of one entry.
fn filled<D: Dir + Drop>(alloc: Global, dir: D, chunks: u64) -> Option<Shelf<D>> {
    let Ok(Some(entries)) = Entries::read(alloc, &[0x92, 0x01, 0x80], 1) else {
        return None;
    };
    let Ok(mut buffer) = Buffer::open(alloc, dir, b"bench", SETTINGS) else {
        return None;
    };
    if put_all(&mut buffer, &entries, chunks).is_err() {
        return None;
    }
    let takes = Takes {
        basis: Basis::Written,
        expires: false,
        drops: false,
    };
    Some(SharedBuffer::new(alloc, buffer, LEAF, takes))
}

// Prints how many of so many are done in a second that began then.
fn print_speed<R: Clock + Print>(rt: &R, start: Instant, count: u64, what: &str) -> bool {
    let Ok(time) = start.elapsed(rt) else {
        return false;
    };
    let speed = u128::from(count) * 1_000_000 / time.as_micros().max(1);
    println!(rt; "{speed} {what} a second").is_ok()
}

// Whether so many workers purge so many queued chunks of this buffer.
fn purge_all<R: Wait + Clock + Threads + Sync, D: Dir + Send>(
    rt: &R,
    alloc: Global,
    shelf: &Shelf<D>,
    workers: usize,
    chunks: u64,
) -> bool {
    let (left, stop) = (AtomicU64::new(chunks), AtomicBool::new(chunks == 0));
    let courier = Idle {
        left: &left,
        stop: &stop,
    };
    let retries = Retries::new(alloc, RETRIES);
    match run_pool(rt, workers, shelf, &courier, &OpenGate, &retries, &stop) {
        Ok(worked) => worked.purged == chunks,
        Err(_) => false,
    }
}

// Whether so often a chunk is claimed and given back.
fn claim_all<R: Wait, D: Dir>(rt: &R, shelf: &Shelf<D>, count: u64) -> bool {
    for _ in 0..count {
        let Ok(Some(claim)) = shelf.claim(rt) else {
            return false;
        };
        shelf.give_back(rt, claim);
    }
    true
}

// Purges so many queued chunks of a buffer in this folder by so many workers, and says how fast.
fn purge<R: Wait + Clock + Threads + Print + Sync, D: Dir + Drop + Send>(
    rt: &R,
    alloc: Global,
    dir: D,
    workers: usize,
    chunks: u64,
) -> bool {
    let Some(shelf) = filled(alloc, dir, chunks) else {
        return false;
    };
    let Ok(start) = Instant::now(rt) else {
        return false;
    };
    purge_all(rt, alloc, &shelf, workers, chunks) && print_speed(rt, start, chunks, "purges")
}

// Claims and gives back so often while so many chunks are queued, and says how fast.
fn claim<R: Wait + Clock + Print, D: Dir + Drop>(
    rt: &R,
    alloc: Global,
    dir: D,
    chunks: u64,
    count: u64,
) -> bool {
    let Some(shelf) = filled(alloc, dir, chunks) else {
        return false;
    };
    let Ok(start) = Instant::now(rt) else {
        return false;
    };
    claim_all(rt, &shelf, count) && print_speed(rt, start, count, "claims")
}

// A number of decimal digits below 65,536.
fn number(word: &str) -> Option<u16> {
    word.parse().ok()
}

/// What becomes of these words, in this folder: whether all went well, if they ask for something.
pub fn answer<R: Wait + Clock + Threads + Print + Sync, D: Dir + Drop + Send>(
    rt: &R,
    alloc: Global,
    dir: D,
    words: &[String],
) -> Option<bool> {
    let [word, first, second] = words else {
        return None;
    };
    let (Some(first), Some(second)) = (number(first), number(second)) else {
        return None;
    };
    let thousands = 1_000 * u64::from(second);
    match word.as_str() {
        "purge" => Some(purge(rt, alloc, dir, usize::from(first), thousands)),
        "claim" => Some(claim(rt, alloc, dir, 1_000 * u64::from(first), thousands)),
        _ => None,
    }
}
