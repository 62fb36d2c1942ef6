//! What folders have.

use crate::refusals::told::Told;
use disk_files::{Dir, DirError, FileName};
use numbered_files::read_file;
use std::alloc::Allocator;

fn tell_file<A: Allocator + Copy, D: Dir>(
    heap: A,
    dir: &mut D,
    name: &[u8],
    told: &mut Told,
) -> Result<(), DirError> {
    let file = dir.open(name)?;
    let bytes = read_file(heap, dir, file)?;
    told.bytes(name);
    told.bytes(&bytes);
    Ok(())
}

fn tell_named<A: Allocator + Copy, D: Dir>(
    heap: A,
    dir: &mut D,
    names: &[FileName<A>],
    told: &mut Told,
) -> Result<(), DirError> {
    for name in names {
        tell_file(heap, dir, name.as_bytes(), told)?;
    }
    Ok(())
}

// Tells the files of a folder: their names and their bytes.
fn tell_files<A: Allocator + Copy, D: Dir>(
    heap: A,
    dir: &mut D,
    told: &mut Told,
) -> Result<(), DirError> {
    let names = dir.list(heap)?;
    tell_named(heap, dir, &names, told)
}

/// Tells what is left in a folder: its files, their names and their bytes.
pub fn tell_left<A: Allocator + Copy, D: Dir + Drop>(heap: A, dir: D, told: &mut Told) {
    let mut dir = dir;
    if tell_files(heap, &mut dir, told).is_err() {
        told.number(88_888);
    }
}
