//! A sink that stays open: that its next files are begun and the older ones closed, and that it
//! takes entries again behind a failure.

use crate::devices::OnDevice;
use crate::folders::count_in;
use crate::parts::{Part, in_memory};
use crate::real::{Real, on_disk};
use crate::script::entries;
use disk_files::Dir;
use event_modes::Entries;
use sink_series::{FileLimits, Rotation, Series};
use std::alloc::Allocator;

const LIMITS: FileLimits = FileLimits {
    bytes: 6,
    millis: 1_000,
    pause: 50,
};

// How many entries a sink took, and whether it took the last.
#[derive(Clone, Copy)]
struct Taken {
    count: usize,
    is_last: bool,
}

// Writes an entry at each of these times: what is taken, and the folder then.
fn write_each<A: Allocator + Copy, D: Dir>(
    sink: Rotation<D, A>,
    one: &Entries<A>,
    times: &[u64],
) -> (Taken, D) {
    let mut sink = sink;
    let mut taken = Taken {
        count: 0,
        is_last: false,
    };
    for time in times {
        let (next, stored) = sink.write_all_entries(*time, b"a", one);
        sink = next;
        taken.is_last = stored.is_ok();
        taken.count = taken.count.saturating_add(usize::from(taken.is_last));
    }
    (taken, sink.into_dir())
}

// The same of entries of three bytes and a new sink in this folder.
fn written<A: Allocator + Copy, D: Dir + Drop>(
    alloc: A,
    dir: D,
    times: &[u64],
) -> Option<(Taken, D)> {
    let Some(one) = entries(alloc, 1) else {
        return None;
    };
    match Rotation::open(alloc, dir, b"out", LIMITS, 0) {
        Ok(sink) => Some(write_each(sink, &one, times)),
        Err(_) => None,
    }
}

// How many events a sink has; none where it can't be read.
fn events_in<A: Allocator + Copy, D: Dir>(series: &mut Series<D, A>) -> usize {
    match series.content() {
        Ok(events) => events.len(),
        Err(_) => 0,
    }
}

// The same of the sink in this folder, and the folder then.
fn read_in<A: Allocator + Copy, D: Dir + Drop>(alloc: A, dir: D) -> Option<(usize, D)> {
    match Series::open(alloc, dir, b"out") {
        Ok(mut series) => {
            let events = events_in(&mut series);
            Some((events, series.into_dir()))
        }
        Err(_) => None,
    }
}

// Whether the sink in this folder has so many events or more.
fn has_at_least<A: Allocator + Copy, D: Dir + Drop>(alloc: A, dir: D, count: usize) -> bool {
    match read_in(alloc, dir) {
        Some((events, _)) => count <= events,
        None => false,
    }
}

// Whether a sink on a device that fails one call, behind so many, takes entries again after the
// pause, and has all that it took. True too where it can't be opened.
fn recovers<A: Allocator + Copy, D: OnDevice<A>>(alloc: A, passes: u64) -> bool {
    let device = D::made(alloc).on_device(passes);
    match written(alloc, device, &[0, 1, 2, 49, 60, 120, 180]) {
        Some((taken, device)) => {
            has_at_least(alloc, D::off_device(device), taken.count)
                && taken.is_last
                && 3 <= taken.count
        }
        None => true,
    }
}

/// Whether sinks do, whichever call fails.
pub fn recover<A: Allocator + Copy, D: OnDevice<A>>(alloc: A) -> bool {
    for passes in 0..16 {
        if !recovers::<A, D>(alloc, passes) {
            return false;
        }
    }
    true
}

#[test]
fn takes_entries_again(rt: HostRuntime) {
    assert!(rt; in_memory(&rt, rt.alloc(), Part::Recovery));
}

// Sixteen files, each begun a second behind the one before.
static EACH_SECOND: [u64; 16] = [
    0, 1_000, 2_000, 3_000, 4_000, 5_000, 6_000, 7_000, 8_000, 9_000, 10_000, 11_000, 12_000,
    13_000, 14_000, 15_000,
];

// Whether a folder has fewer files than these.
fn has_fewer<A: Allocator + Copy, D: Dir>(alloc: A, dir: &mut D, most: usize) -> bool {
    match count_in(alloc, dir) {
        Some(count) => count < most,
        None => false,
    }
}

// Whether sixteen events are read in this folder, and fewer files than these are open then.
fn is_read<A: Allocator + Copy, D: Dir + Drop>(
    alloc: A,
    dir: D,
    open: &mut D,
    most: usize,
) -> bool {
    match read_in(alloc, dir) {
        Some((events, dir)) => {
            let is_read = events == 16 && has_fewer(alloc, open, most);
            drop(dir);
            is_read
        }
        None => false,
    }
}

// Whether sixteen files come of sixteen writes to a sink in this folder, and fewer files than these
// are open then, and once all are read.
fn stay_closed<A: Allocator + Copy, D: Dir + Drop>(
    alloc: A,
    dir: D,
    open: &mut D,
    most: usize,
) -> bool {
    match written(alloc, dir, &EACH_SECOND) {
        Some((_, mut dir)) => {
            let is_written = count_in(alloc, &mut dir) == Some(16) && has_fewer(alloc, open, most);
            is_read(alloc, dir, open, most) && is_written
        }
        None => false,
    }
}

/// Whether it is so in this folder, where the other one has a file for each that is open. Tests
/// beside this one may open some files.
pub fn are_closed<A: Allocator + Copy, D: Dir + Drop>(alloc: A, dir: D, open: &mut D) -> bool {
    match count_in(alloc, open) {
        Some(before) => stay_closed(alloc, dir, open, before.saturating_add(8)),
        None => false,
    }
}

static CLOSING: [(&str, Real); 1] = [("sink_closing_test", Real::Closing)];

#[test]
fn older_files_are_closed(rt: HostRuntime) {
    assert!(rt; on_disk(&rt, "sink_closing_test", &CLOSING));
}
