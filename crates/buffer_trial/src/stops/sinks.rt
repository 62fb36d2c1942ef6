//! A sink over a device that fails, and each stop behind it.

use crate::stops::looking::Wrong;
use crate::stops::runs::{Found, Run, Stopping};
use disk_files::Dir;
use event_modes::{Entries, LONGEST_TAG};
use sink_series::{Series, SeriesFault, SinkEvent, Stored};
use std::alloc::Allocator;

// Entries that are written in one call: their tag, their bytes, and how many they are.
struct Write {
    tag: &'static [u8],
    entries: &'static [u8],
    count: usize,
}

static WRITES: [Write; 5] = [
    Write {
        tag: b"a",
        entries: b"\x92\x01\x80",
        count: 1,
    },
    Write {
        tag: b"a.b",
        entries: b"\x92\x02\x80\x92\x03\x80",
        count: 2,
    },
    Write {
        tag: b"a",
        entries: b"\x92\x04\x80\x92\x05\x80\x92\x06\x80",
        count: 3,
    },
    Write {
        tag: b"b",
        entries: b"",
        count: 0,
    },
    Write {
        tag: b"b",
        entries: b"\x92\x07\x80",
        count: 1,
    },
];

/// How many of these are written in an earlier file, on a device that fails nothing.
pub const EARLIER: usize = 2;

// All events, in order: the tag and the entry's number of each.
static EVENTS: [(&[u8], u8); 7] = [
    (b"a", 1),
    (b"a.b", 2),
    (b"a.b", 3),
    (b"a", 4),
    (b"a", 5),
    (b"a", 6),
    (b"b", 7),
];

/// The files of the sink.
pub static NAMES: [&[u8]; 2] = [b"out.0000000001.sink", b"out.0000000002.sink"];

fn opened<A: Allocator + Copy, D: Dir>(alloc: A, dir: D) -> Result<Series<D, A>, (SeriesFault, D)> {
    Series::open(alloc, dir, b"out")
}

// Whether a receipt names the sink, the tag and the entries.
fn is_receipt<A: Allocator + Copy>(stored: &Stored<A>, write: &Write) -> bool {
    stored.path() == b"out".as_slice()
        && stored.tag() == write.tag
        && stored.entries().as_bytes() == write.entries
}

// Writes, and says why not, or that the receipt is wrong.
fn put_entries<A: Allocator + Copy, D: Dir>(
    series: &mut Series<D, A>,
    write: &Write,
    entries: &Entries<A>,
) -> Result<(), SeriesFault> {
    if write.tag.len() > LONGEST_TAG {
        return Err(SeriesFault::Memory);
    }
    match series.write_all_entries(write.tag, entries) {
        Ok(stored) if is_receipt(&stored, write) => Ok(()),
        Ok(_) => Err(SeriesFault::Memory),
        Err(fault) => Err(fault),
    }
}

// The same with the entries that are read first.
fn put<A: Allocator + Copy, D: Dir>(
    alloc: A,
    series: &mut Series<D, A>,
    write: &Write,
) -> Result<(), SeriesFault> {
    match Entries::read(alloc, write.entries, write.count) {
        Ok(Some(entries)) => put_entries(series, write, &entries),
        _ => Err(SeriesFault::Memory),
    }
}

// How many events were answered for, and how many were begun; whether each call was answered as it
// ought to be, and whether none failed.
#[derive(Clone, Copy)]
struct Went {
    stored: usize,
    begun: usize,
    is_well: bool,
    is_whole: bool,
}

impl Went {
    fn new() -> Went {
        Went {
            stored: 0,
            begun: 0,
            is_well: true,
            is_whole: true,
        }
    }

    // Whether a sink that holds so many events, if its events are those, holds what was answered
    // for, and of the rest that was begun a beginning.
    fn is_held(&self, held: Option<usize>) -> bool {
        match held {
            Some(count) => self.is_well && self.stored <= count && count <= self.begun,
            None => false,
        }
    }

    // A write was answered so: behind one that the device failed none is taken.
    fn note(&mut self, count: usize, answer: Result<(), SeriesFault>) {
        match answer {
            Ok(()) => {
                self.is_well = self.is_well && self.is_whole;
                self.begun = self.begun.saturating_add(count);
                self.stored = self.begun;
            }
            Err(SeriesFault::Fault) => {
                self.is_well = self.is_well && self.is_whole;
                self.begun = self.begun.saturating_add(count);
                self.is_whole = false;
            }
            Err(SeriesFault::Failed) => self.is_well = self.is_well && !self.is_whole,
            Err(_) => self.is_well = false,
        }
    }
}

fn put_all<A: Allocator + Copy, D: Dir>(
    alloc: A,
    series: &mut Series<D, A>,
    went: &mut Went,
    writes: &[Write],
) {
    for write in writes {
        let answer = put(alloc, series, write);
        went.note(write.count, answer);
    }
}

// Opens the sink, and writes. The folder as it is left.
fn sit<A: Allocator + Copy, D: Dir>(alloc: A, dir: D, went: &mut Went, writes: &[Write]) -> D {
    match opened(alloc, dir) {
        Ok(mut series) => {
            put_all(alloc, &mut series, went, writes);
            series.into_dir()
        }
        Err((fault, dir)) => {
            went.is_well = went.is_well && fault == SeriesFault::Fault;
            went.is_whole = false;
            dir
        }
    }
}

// The folder that a run leaves, whose calls fail in the second opening.
fn left<A: Allocator + Copy, D: Stopping<A>>(alloc: A, run: &Run, went: &mut Went) -> D {
    let (earlier, later) = WRITES.split_at(run.before.min(WRITES.len()));
    let dir = sit(alloc, D::made(alloc), went, earlier);
    let dir = sit(alloc, run.on_device(dir), went, later);
    run.stopped::<A, D>(dir)
}

/// The folder that a run leaves.
pub fn folder<A: Allocator + Copy, D: Stopping<A>>(alloc: A, run: &Run) -> D {
    left(alloc, run, &mut Went::new())
}

// Whether an event has this tag, and an entry of this number.
fn is_event<A: Allocator + Copy>(event: &SinkEvent<A>, tag: &[u8], number: u8) -> bool {
    event.tag() == tag && event.entry() == [0x92, number, 0x80].as_slice()
}

// Whether these are the first of all events, in order.
fn are_first<A: Allocator + Copy>(events: &[SinkEvent<A>]) -> bool {
    for (event, (tag, number)) in events.iter().zip(&EVENTS) {
        if !is_event(event, tag, *number) {
            return false;
        }
    }
    true
}

// How many events the sink holds, if they are the first of all.
fn held<A: Allocator + Copy, D: Dir>(series: &mut Series<D, A>) -> Option<usize> {
    match series.content() {
        Ok(events) if are_first(&events) => Some(events.len()),
        _ => None,
    }
}

// How many events the sink in this folder holds, if it opens.
fn held_in<A: Allocator + Copy, D: Dir + Drop>(alloc: A, dir: D) -> Option<usize> {
    match opened(alloc, dir) {
        Ok(mut series) => {
            let held = held(&mut series);
            drop(series.into_dir());
            held
        }
        Err(_) => None,
    }
}

/// What a run comes to: the sink is to hold what was answered for, and of the rest that was begun a
/// beginning.
pub fn found<A: Allocator + Copy, D: Stopping<A>>(alloc: A, run: &Run) -> Found {
    let mut went = Went::new();
    let dir: D = left(alloc, run, &mut went);
    let is_right = went.is_held(held_in(alloc, dir));
    Found {
        wrong: if is_right { None } else { Some(Wrong::Events) },
        is_whole: went.is_whole,
    }
}
