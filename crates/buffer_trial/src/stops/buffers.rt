//! A buffer over a device that fails, and each stop behind it.

use crate::stops::looking::{Wrong, wrong_in};
use crate::stops::playing::{open, play};
use crate::stops::runs::{Found, Run, Stopping};
use crate::stops::script::{Act, SCRIPT, Table};
use buffer_store::BufferFault;
use disk_files::Dir;
use std::alloc::Allocator;

/// The generations of the journal.
pub static NAMES: [&[u8]; 5] = [
    b"buf.0000000001.journal",
    b"buf.0000000002.journal",
    b"buf.0000000003.journal",
    b"buf.0000000004.journal",
    b"buf.0000000005.journal",
];

// Whether each act was answered as it ought to be, and whether none was refused.
#[derive(Clone, Copy)]
struct Went {
    is_well: bool,
    is_whole: bool,
}

impl Went {
    fn new() -> Went {
        Went {
            is_well: true,
            is_whole: true,
        }
    }

    fn note(&mut self, is_well: bool, is_whole: bool) {
        self.is_well = self.is_well && is_well;
        self.is_whole = self.is_whole && is_whole;
    }
}

// Opens the buffer in the folder, and takes it through the acts, if there are any. The folder as
// they leave it.
fn sit<A: Allocator + Copy, D: Dir>(
    alloc: A,
    dir: D,
    went: &mut Went,
    table: &mut Table,
    acts: &[Act],
) -> D {
    if acts.is_empty() {
        return dir;
    }
    match open(alloc, dir) {
        Ok(mut buffer) => {
            let is_well = play(alloc, &mut buffer, table, acts);
            went.note(is_well, !buffer.has_failed());
            buffer.into_dir()
        }
        Err((fault, dir)) => {
            went.note(fault == BufferFault::Fault, false);
            dir
        }
    }
}

// The folder behind these acts on the run's device, and behind its stop.
fn failed<A: Allocator + Copy, D: Stopping<A>>(
    alloc: A,
    dir: D,
    run: &Run,
    went: &mut Went,
    table: &mut Table,
    acts: &[Act],
) -> D {
    let dir = sit(alloc, run.on_device(dir), went, table, acts);
    run.stopped::<A, D>(dir)
}

// The folder that a run leaves: behind the first acts, the last of which syncs, and the others, in
// which calls fail.
fn left<A: Allocator + Copy, D: Stopping<A>>(
    alloc: A,
    run: &Run,
    went: &mut Went,
    table: &mut Table,
) -> D {
    let (before, acts) = SCRIPT.split_at(run.before.min(SCRIPT.len()));
    let dir = sit(alloc, D::made(alloc), went, table, before);
    failed(alloc, dir, run, went, table, acts)
}

/// The folder that a run leaves.
pub fn folder<A: Allocator + Copy, D: Stopping<A>>(alloc: A, run: &Run) -> D {
    left(alloc, run, &mut Went::new(), &mut Table::new())
}

/// What a run comes to.
pub fn found<A: Allocator + Copy, D: Stopping<A>>(alloc: A, run: &Run) -> Found {
    let (mut went, mut table) = (Went::new(), Table::new());
    let dir: D = left(alloc, run, &mut went, &mut table);
    let wrong = wrong_in(alloc, dir, &table);
    Found {
        wrong: if went.is_well {
            wrong
        } else {
            Some(Wrong::Answer)
        },
        is_whole: went.is_whole,
    }
}
