//! Two generations of a journal, of which the newer is cut, and each stop of an opening over them.

use crate::stops::looking::Wrong;
use crate::stops::playing::open;
use crate::stops::runs::{Found, Run, Stopping};
use buffer_state::Stage;
use buffer_store::{Buffer, BufferFault};
use disk_files::{Dir, DirError, Writing};
use std::alloc::Allocator;

// An entry of chunk 0 of tag `a`, and a Seal of 1.
static OLDER: &[u8] =
    b"\0\0\0\x13\x02\0\0\0\0\0\0\0\0\0\x01a\0\0\0\x01\x92\x01\x80\0\0\0\x09\x01\0\0\0\0\0\0\0\x01";

/// The newer generation: an entry of chunk 4 of tag `b`, and a Seal of 5.
pub static NEWER: &[u8] =
    b"\0\0\0\x13\x02\0\0\0\0\0\0\0\x04\0\x01b\0\0\0\x01\x92\x02\x80\0\0\0\x09\x01\0\0\0\0\0\0\0\x05";

fn put<D: Dir>(dir: &mut D, name: &[u8], bytes: &[u8]) -> Result<(), DirError> {
    let file = dir.create(name, bytes.len())?;
    dir.append(file, bytes, Writing::Through)?;
    dir.sync(file)
}

// A folder with both, of which the newer has this length.
fn both<A: Allocator + Copy, D: Stopping<A>>(alloc: A, length: usize) -> Result<D, DirError> {
    let mut dir = D::made(alloc);
    let (newer, _) = NEWER.split_at(length.min(NEWER.len()));
    put(&mut dir, b"buf.0000000001.journal", OLDER)?;
    put(&mut dir, b"buf.0000000002.journal", newer)?;
    Ok(dir)
}

// Whether the buffer has the chunk of the one generation that counts, and nothing else.
fn has_one<A: Allocator + Copy, D: Dir>(buffer: &mut Buffer<D, A>, is_newer: bool) -> bool {
    let (serial, item, next): (u64, &[u8], u64) = if is_newer {
        (4, b"\x92\x02\x80", 5)
    } else {
        (0, b"\x92\x01\x80", 1)
    };
    let chunks = buffer.chunks();
    if chunks.next_serial() != next
        || chunks.total() != 3
        || chunks.stage(serial) != Some(Stage::Staged)
    {
        return false;
    }
    match buffer.body(serial) {
        Ok(body) => body.as_bytes() == item,
        Err(_) => false,
    }
}

// Whether a folder has the file of this generation alone.
fn is_alone<A: Allocator + Copy, D: Dir>(alloc: A, dir: &mut D, name: &[u8]) -> bool {
    match dir.list(alloc) {
        Ok(names) => match names.as_slice() {
            [only] => only.as_bytes() == name,
            _ => false,
        },
        Err(_) => false,
    }
}

// Whether the folder opens to the generation that counts, and has this one alone then.
fn opens<A: Allocator + Copy, D: Dir + Drop>(
    alloc: A,
    dir: D,
    is_newer: bool,
    left: Option<&[u8]>,
) -> bool {
    let Ok(mut buffer) = open(alloc, dir) else {
        return false;
    };
    let has_one = has_one(&mut buffer, is_newer);
    let mut dir = buffer.into_dir();
    has_one
        && match left {
            Some(name) => is_alone(alloc, &mut dir, name),
            None => true,
        }
}

// The folder behind an opening in which no call of the device fails, or one does. It answers
// whether one did.
fn opened<A: Allocator + Copy, D: Dir>(alloc: A, dir: D) -> (Option<BufferFault>, D) {
    match open(alloc, dir) {
        Ok(buffer) => (None, buffer.into_dir()),
        Err((fault, dir)) => (Some(fault), dir),
    }
}

/// Whether the newer generation of this length counts where its Seal is whole, else the older one;
/// generation 3 then stands alone.
pub fn is_renewed<A: Allocator + Copy, D: Stopping<A>>(alloc: A, length: usize) -> bool {
    let third = b"buf.0000000003.journal".as_slice();
    match both::<A, D>(alloc, length) {
        Ok(dir) => opens(alloc, dir, length == NEWER.len(), Some(third)),
        Err(_) => false,
    }
}

// What an opening of this folder on the run's device comes to, and what is found behind its stop.
fn found_in<A: Allocator + Copy, D: Stopping<A>>(alloc: A, dir: D, run: &Run) -> Found {
    let (fault, dir) = opened(alloc, run.on_device(dir));
    let left = run.stopped::<A, D>(dir);
    let is_right = opens(alloc, left, run.before == NEWER.len(), None);
    let is_well = fault.is_none() || fault == Some(BufferFault::Fault);
    Found {
        wrong: if is_right && is_well {
            None
        } else {
            Some(Wrong::Generation)
        },
        is_whole: fault.is_none(),
    }
}

/// What a run comes to, before which the newer generation has so many bytes: the same one counts.
pub fn found<A: Allocator + Copy, D: Stopping<A>>(alloc: A, run: &Run) -> Found {
    match both::<A, D>(alloc, run.before) {
        Ok(dir) => found_in::<A, D>(alloc, dir, run),
        Err(_) => Found {
            wrong: Some(Wrong::Answer),
            is_whole: false,
        },
    }
}
