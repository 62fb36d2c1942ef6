//! What a stop leaves of a buffer, and the generation that an opening takes.

use crate::devices::OnDevice;
use crate::folders::{has_one, put_file};
use crate::parts::{Part, in_memory};
use crate::script::{Act, count_of, entries, open, take};
use buffer_state::Stage;
use buffer_store::{Buffer, BufferFault, RENEWED_PAST_IN_MEMORY};
use disk_files::{Dir, Keep};
use std::alloc::Allocator;

// A step, and its answer.
type Row = (Act, Result<u64, BufferFault>);

// Steps of a buffer in a new folder, how much a stop behind them keeps, and what there is when it
// is opened again: the next serial and the stage of chunk 0; and its steps then.
struct Course {
    before: &'static [Row],
    keep: Keep,
    next: u64,
    stage: Option<Stage>,
    behind: &'static [Row],
}

const STAGED: &[Row] = &[(Act::Stage(b'a', 1), Ok(0)), (Act::Stage(b'a', 1), Ok(0))];

const PURGED: &[Row] = &[
    (Act::Stage(b'a', 1), Ok(0)),
    (Act::Stage(b'a', 1), Ok(0)),
    (Act::Enqueue(0), Ok(0)),
    (Act::Claim, Ok(0)),
    (Act::Purge(0), Ok(0)),
];

static COURSES: [Course; 6] = [
    // What isn't synced goes, or stays.
    Course {
        before: STAGED,
        keep: Keep::Least,
        next: 0,
        stage: None,
        behind: &[(Act::Claim, Err(BufferFault::Gone))],
    },
    Course {
        before: STAGED,
        keep: Keep::Greatest,
        next: 1,
        stage: Some(Stage::Staged),
        behind: &[(Act::Body(0), Ok(2))],
    },
    // What is synced stays.
    Course {
        before: &[
            (Act::Stage(b'a', 1), Ok(0)),
            (Act::Stage(b'a', 1), Ok(0)),
            (Act::Sync, Ok(0)),
        ],
        keep: Keep::Least,
        next: 1,
        stage: Some(Stage::Staged),
        behind: &[
            (Act::Body(0), Ok(2)),
            (Act::Body(1), Err(BufferFault::Gone)),
        ],
    },
    // A purge isn't synced: the chunk is queued again, or gone; its serial doesn't come back.
    Course {
        before: PURGED,
        keep: Keep::Least,
        next: 1,
        stage: Some(Stage::Queued),
        behind: &[(Act::Claim, Ok(0)), (Act::Body(0), Ok(2))],
    },
    Course {
        before: PURGED,
        keep: Keep::Greatest,
        next: 1,
        stage: None,
        behind: &[(Act::Append(b'a', 1), Ok(1))],
    },
    // The oldest chunk goes first.
    Course {
        before: &[
            (Act::Append(b'a', 1), Ok(0)),
            (Act::Append(b'b', 1), Ok(1)),
            (Act::Enqueue(7), Err(BufferFault::Gone)),
            (Act::Enqueue(0), Ok(0)),
            (Act::Enqueue(1), Ok(0)),
        ],
        keep: Keep::Least,
        next: 2,
        stage: Some(Stage::Queued),
        behind: &[
            (Act::DropOldest, Ok(0)),
            (Act::DropOldest, Ok(1)),
            (Act::DropOldest, Err(BufferFault::Gone)),
        ],
    },
];

// Whether a step is answered so.
fn is_answered<A: Allocator + Copy, D: Dir>(
    alloc: A,
    buffer: &mut Buffer<D, A>,
    row: &Row,
) -> bool {
    match entries(alloc, count_of(row.0)) {
        Some(some) => take(buffer, &some, row.0) == row.1,
        None => false,
    }
}

// Whether each is; those behind one that isn't aren't taken.
fn are_answered<A: Allocator + Copy, D: Dir>(
    alloc: A,
    buffer: &mut Buffer<D, A>,
    rows: &[Row],
) -> bool {
    for row in rows {
        if !is_answered(alloc, buffer, row) {
            return false;
        }
    }
    true
}

// Whether a buffer has this next serial, and its chunk 0 is at this stage.
fn has<A: Allocator + Copy, D: Dir>(
    buffer: &Buffer<D, A>,
    next: u64,
    stage: Option<Stage>,
) -> bool {
    let chunks = buffer.chunks();
    chunks.next_serial() == next && chunks.stage(0) == stage
}

// Whether a buffer in this folder, which was stopped, is left so.
fn is_left<A: Allocator + Copy, D: Dir + Drop>(alloc: A, dir: D, course: &Course) -> bool {
    let Ok(mut buffer) = open(alloc, dir, RENEWED_PAST_IN_MEMORY) else {
        return false;
    };
    has(&buffer, course.next, course.stage) && are_answered(alloc, &mut buffer, course.behind)
}

// Whether a buffer in this folder, which is new, goes so.
fn goes<A: Allocator + Copy, D: OnDevice<A>>(alloc: A, dir: D, course: &Course) -> bool {
    let Ok(mut buffer) = open(alloc, dir, RENEWED_PAST_IN_MEMORY) else {
        return false;
    };
    let are_answered = are_answered(alloc, &mut buffer, course.before);
    let is_left = is_left(alloc, buffer.into_dir().stopped(course.keep), course);
    are_answered && is_left
}

/// Whether buffers go through each of the courses.
pub fn are_left<A: Allocator + Copy, D: OnDevice<A>>(alloc: A) -> bool {
    for course in &COURSES {
        if !goes(alloc, D::made(alloc), course) {
            return false;
        }
    }
    true
}

#[test]
fn what_a_stop_leaves(rt: HostRuntime) {
    assert!(rt; in_memory(&rt, rt.alloc(), Part::Stops));
}

// A Seal of serial 1.
const SEALED: &[u8] = b"\0\0\0\x09\x01\0\0\0\0\0\0\0\x01";

// What the second generation of a journal has beside a first one, which has that Seal, and what an
// opening writes as the third.
static GENERATIONS: [(&[u8], &[u8]); 3] = [
    (b"", SEALED),
    (b"\0\0\0\x09\x01\0\0\0\0\0\0\0", SEALED),
    (
        b"\0\0\0\x09\x01\0\0\0\0\0\0\0\x02",
        b"\0\0\0\x09\x01\0\0\0\0\0\0\0\x02",
    ),
];

// Whether a buffer in this folder, which gets both, writes the third, which stands alone then.
fn is_written<A: Allocator + Copy, D: Dir + Drop>(
    alloc: A,
    dir: D,
    second: &[u8],
    third: &[u8],
) -> bool {
    let mut dir = dir;
    let are_put = put_file(&mut dir, b"buf.0000000001.journal", SEALED).is_ok()
        && put_file(&mut dir, b"buf.0000000002.journal", second).is_ok();
    let Ok(buffer) = open(alloc, dir, RENEWED_PAST_IN_MEMORY) else {
        return false;
    };
    let mut left = buffer.into_dir();
    has_one(alloc, &mut left, b"buf.0000000003.journal", third) && are_put
}

/// Whether openings write what they are to.
pub fn are_written<A: Allocator + Copy, D: OnDevice<A>>(alloc: A) -> bool {
    for (second, third) in &GENERATIONS {
        if !is_written(alloc, D::made(alloc), second, third) {
            return false;
        }
    }
    true
}

#[test]
fn the_last_sealed_generation_is_taken(rt: HostRuntime) {
    assert!(rt; in_memory(&rt, rt.alloc(), Part::Generations));
}
