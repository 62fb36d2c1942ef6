//! The text of a line.

use crate::slot::Pending;
use jiff::Timestamp;
use std::alloc::{AllocError, Allocator};

/// A line that says this of the place with this name, so many seconds after 1970 began. The error
/// is want of memory.
pub fn line_of<A: Allocator + Copy>(
    alloc: A,
    second: u64,
    name: &str,
    pending: &Pending,
) -> Result<String<A>, AllocError> {
    let time = time_of(second);
    let name = shown(alloc, name)?;
    let text = pending.notice.text();
    if pending.left_out == 0 {
        return format!(in alloc; "{time} {name}: {text}\n");
    }
    let left_out = pending.left_out;
    format!(in alloc; "{time} {name}: {text} ({left_out} more left out)\n")
}

// The name without characters that would end a line, or write over it.
fn shown<A: Allocator + Copy>(alloc: A, name: &str) -> Result<String<A>, AllocError> {
    let mut shown = String::new(alloc);
    for c in name.chars() {
        shown.push(if c.is_control() { '?' } else { c })?;
    }
    Ok(shown)
}

// So many seconds after 1970 began; the beginning where that is no time.
fn time_of(second: u64) -> Timestamp {
    match i64::try_from(second) {
        Ok(second) => Timestamp::from_second(second).unwrap_or(Timestamp::UNIX_EPOCH),
        Err(_) => Timestamp::UNIX_EPOCH,
    }
}
