//! Buffers: what they tell their journals, and files of the last number.

use crate::devices::NewDir;
use crate::folders::{has_one, put_file};
use crate::parts::{Part, in_memory};
use crate::script::{Act, open, played};
use buffer_store::{BufferFault, RENEWED_PAST_IN_MEMORY};
use disk_files::Dir;
use sink_series::{Series, SeriesFault};
use std::alloc::Allocator;

// What a buffer tells its journal, and the one file that is left then.
struct Told {
    steps: &'static [Act],
    name: &'static [u8],
    bytes: &'static [u8],
}

static TOLD: [Told; 2] = [
    // A Seal of 0, one entry for chunk 0 of tag `a`, its Queue, and its Purge.
    Told {
        steps: &[
            Act::Append(b'a', 1),
            Act::Enqueue(0),
            Act::Claim,
            Act::Purge(0),
        ],
        name: b"buf.0000000001.journal",
        bytes: b"\0\0\0\x09\x01\0\0\0\0\0\0\0\0\0\0\0\x13\x02\0\0\0\0\0\0\0\0\0\x01a\0\0\0\x01\x92\x01\x80\0\0\0\x09\x03\0\0\0\0\0\0\0\0\0\0\0\x09\x04\0\0\0\0\0\0\0\0",
    },
    // A new generation begins with what is live, and then has the Seal of the next serial.
    Told {
        steps: &[Act::Append(b'a', 1), Act::Enqueue(0), Act::Renew],
        name: b"buf.0000000002.journal",
        bytes: b"\0\0\0\x13\x02\0\0\0\0\0\0\0\0\0\x01a\0\0\0\x01\x92\x01\x80\0\0\0\x09\x03\0\0\0\0\0\0\0\0\0\0\0\x09\x01\0\0\0\0\0\0\0\x01",
    },
];

// Whether the buffer in this folder, which is empty, tells that.
fn is_told<A: Allocator + Copy, D: Dir + Drop>(alloc: A, dir: D, told: &Told) -> bool {
    match played(alloc, dir, told.steps) {
        Some(buffer) => {
            let mut dir = buffer.into_dir();
            has_one(alloc, &mut dir, told.name, told.bytes)
        }
        None => false,
    }
}

/// Whether buffers tell each.
pub fn are_told<A: Allocator + Copy, D: NewDir<A>>(alloc: A) -> bool {
    for told in &TOLD {
        if !is_told(alloc, D::made(alloc), told) {
            return false;
        }
    }
    true
}

#[test]
fn records_are_spelled_so(rt: HostRuntime) {
    assert!(rt; in_memory(&rt, rt.alloc(), Part::Records));
}

// A new folder, which gets an empty file of this name.
fn with_file<A: Allocator + Copy, D: NewDir<A>>(alloc: A, name: &[u8]) -> D {
    let mut dir = D::made(alloc);
    let _ = put_file(&mut dir, name, b"");
    dir
}

// Whether no buffer opens in this folder, since there is no further number.
fn is_last_journal<A: Allocator + Copy, D: Dir + Drop>(alloc: A, dir: D) -> bool {
    matches!(
        open(alloc, dir, RENEWED_PAST_IN_MEMORY),
        Err((BufferFault::LastSerial, _))
    )
}

// Whether no sink does.
fn is_last_sink<A: Allocator + Copy, D: Dir + Drop>(alloc: A, dir: D) -> bool {
    matches!(
        Series::open(alloc, dir, b"out"),
        Err((SeriesFault::LastNumber, _))
    )
}

/// Whether neither opens behind its file of the last number.
pub fn are_last<A: Allocator + Copy, D: NewDir<A>>(alloc: A) -> bool {
    is_last_journal(alloc, with_file::<A, D>(alloc, b"buf.4294967295.journal"))
        && is_last_sink(alloc, with_file::<A, D>(alloc, b"out.4294967295.sink"))
}

#[test]
fn last_numbers(rt: HostRuntime) {
    assert!(rt; in_memory(&rt, rt.alloc(), Part::LastNumbers));
}
