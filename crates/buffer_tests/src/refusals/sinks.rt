//! A sink is opened, written to and read.

use crate::devices::NewDir;
use crate::parts::{InFolder, Part, in_memory};
use crate::refusals::opening::{Call, Opened, Site};
use crate::refusals::told::Told;
use crate::refusals::trial::{Refuses, requests_of};
use disk_files::Dir;
use event_modes::Entries;
use sink_series::{Series, SeriesFault, Stored};
use std::alloc::{AllocError, Allocator};
use std::process::Abort;

fn tell_stored<A: Allocator>(stored: &Stored<A>, told: &mut Told) {
    told.bytes(stored.path());
    told.bytes(stored.tag());
    told.bytes(stored.entries().as_bytes());
}

fn write<A: Allocator + Copy, D: Dir>(
    series: &mut Series<D, A>,
    entries: &Entries<A>,
    told: &mut Told,
) -> Result<(), SeriesFault> {
    match series.write_all_entries(b"tag", entries) {
        Ok(stored) => {
            tell_stored(&stored, told);
            Ok(())
        }
        Err(fault) => Err(fault),
    }
}

fn read<A: Allocator + Copy, D: Dir>(
    series: &mut Series<D, A>,
    told: &mut Told,
) -> Result<(), SeriesFault> {
    match series.content() {
        Ok(events) => {
            for event in &events {
                told.bytes(event.tag());
                told.bytes(event.entry());
            }
            Ok(())
        }
        Err(fault) => Err(fault),
    }
}

// Whether so many writes succeed, of an entry each.
fn are_written<A: Allocator + Copy, D: Dir>(
    series: &mut Series<D, A>,
    one: &Entries<A>,
    writes: usize,
) -> bool {
    for _ in 0..writes {
        if series.write_all_entries(b"tag", one).is_err() {
            return false;
        }
    }
    true
}

// A sink in this folder with so many writes of this entry.
fn sink_of<A: Allocator + Copy, D: Dir + Drop>(
    heap: A,
    dir: D,
    one: &Entries<A>,
    writes: usize,
) -> Option<Series<D, A>> {
    let Ok(mut series) = Series::open(heap, dir, b"out") else {
        return None;
    };
    if are_written(&mut series, one, writes) {
        return Some(series);
    }
    None
}

// What is answered; another fault than want of memory is told.
fn answered(answer: Result<(), SeriesFault>, told: &mut Told) -> Result<(), AllocError> {
    match answer {
        Ok(()) => {}
        Err(SeriesFault::Memory) => return Err(AllocError),
        Err(_) => told.number(77_777),
    }
    Ok(())
}

// The script reads and writes, by turns: so many writes come before a place of it.
fn writes_before(place: usize) -> usize {
    place / 2
}

impl<A: Allocator + Copy, D: Dir + Drop> Opened<A, D> for Series<D, A> {
    fn opened(heap: A, dir: D) -> Result<Series<D, A>, (bool, D)> {
        match Series::open(heap, dir, b"out") {
            Ok(series) => Ok(series),
            Err((fault, dir)) => Err((fault != SeriesFault::Memory, dir)),
        }
    }

    fn played(heap: A, dir: D, place: usize) -> Option<Series<D, A>> {
        match Entries::read(heap, b"\x92\x07\x81\xa1k\xa1v", 1) {
            Ok(Some(one)) => sink_of(heap, dir, &one, writes_before(place)),
            _ => None,
        }
    }

    fn count_at(_place: usize) -> usize {
        2
    }

    fn take(&mut self, place: usize, some: &Entries<A>, told: &mut Told) -> Result<(), AllocError> {
        let answer = if place % 2 == 0 {
            read(self, told)
        } else {
            write(self, some, told)
        };
        answered(answer, told)
    }

    fn show(&mut self, told: &mut Told) {
        let _ = read(self, told);
    }

    fn into_dir(self) -> D {
        Series::into_dir(self)
    }
}

// Whether this asks for memory at each of these places of the script.
fn asks<R: Abort, H: Refuses, D: NewDir<H>>(rt: &R, heap: H, call: Call, places: &[usize]) -> bool {
    for place in places {
        if requests_of::<R, H, Call, Site<H, D, Series<D, H>>>(rt, heap, call, *place) == 0 {
            return false;
        }
    }
    true
}

// Reads and writes behind no write, one, four, six and nine.
static CALLS: [usize; 10] = [0, 1, 2, 3, 8, 9, 12, 13, 18, 19];

/// Whether each call does.
pub fn calls_ask<R: Abort, H: Refuses, D: NewDir<H>>(rt: &R, heap: H) -> bool {
    asks::<R, H, D>(rt, heap, Call::Next, &CALLS)
}

#[test]
fn calls(rt: HostRuntime) {
    assert!(rt; in_memory(&rt, rt.alloc(), Part::InFolder(InFolder::SinkCalls)));
}

// Openings behind no write, one and nine.
static OPENINGS: [usize; 3] = [0, 2, 18];

/// Whether each opening does.
pub fn openings_ask<R: Abort, H: Refuses, D: NewDir<H>>(rt: &R, heap: H) -> bool {
    asks::<R, H, D>(rt, heap, Call::Open, &OPENINGS)
}

#[test]
fn openings(rt: HostRuntime) {
    assert!(rt; in_memory(&rt, rt.alloc(), Part::InFolder(InFolder::SinkOpenings)));
}
