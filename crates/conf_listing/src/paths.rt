//! Names of files in a relay's folder, in place of ways through folders.

use crate::lines::joined;
use conf_values::is_path;
use std::alloc::{AllocError, Allocator};

/// The names that were given out so far to files of one kind.
#[derive(Drop)]
pub(crate) struct FileNames<A: Allocator> {
    taken: Vec<Vec<u8, A>, A>,
}

// The longest part of a way that becomes a name: what is put behind it still fits.
const MOST_BYTES: usize = 40;

impl<A: Allocator + Copy> FileNames<A> {
    pub fn new(alloc: A) -> FileNames<A> {
        FileNames {
            taken: Vec::new(alloc),
        }
    }

    /// A name of its own for the files at this way: the last part of the way, with `_` in place of
    /// what no name has, and a number behind it where that name is taken.
    pub fn give(&mut self, alloc: A, way: &[u8]) -> Result<Vec<u8, A>, AllocError> {
        let own = own_name(alloc, way)?;
        let name = self.untaken(alloc, &own)?;
        self.taken.push(Vec::from_slice(alloc, &name)?)?;
        Ok(name)
    }

    // The name, with a number behind it if it is taken.
    fn untaken(&self, alloc: A, name: &[u8]) -> Result<Vec<u8, A>, AllocError> {
        for number in 1..u32::MAX {
            let other = numbered(alloc, name, number)?;
            if !is_listed(&self.taken, &other) {
                return Ok(other);
            }
        }
        Vec::from_slice(alloc, name)
    }
}

// The name with a number behind it: the first has none.
fn numbered<A: Allocator + Copy>(
    alloc: A,
    name: &[u8],
    number: u32,
) -> Result<Vec<u8, A>, AllocError> {
    if number == 1 {
        return Vec::from_slice(alloc, name);
    }
    let behind = format!(in alloc; "_{number}")?;
    joined(alloc, front(name), behind.as_bytes())
}

/// Whether the name is one of these.
pub(crate) fn is_listed<A: Allocator>(names: &[Vec<u8, A>], name: &[u8]) -> bool {
    for one in names {
        if one.as_slice() == name {
            return true;
        }
    }
    false
}

// The name that the way itself gives.
fn own_name<A: Allocator + Copy>(alloc: A, way: &[u8]) -> Result<Vec<u8, A>, AllocError> {
    if is_path(way) {
        return Vec::from_slice(alloc, way);
    }
    let name = as_name(alloc, front(last_part(way)))?;
    if is_path(&name) {
        return Ok(name);
    }
    joined(alloc, b"files", &name)
}

// A text with `_` in place of what no name has.
fn as_name<A: Allocator>(alloc: A, text: &[u8]) -> Result<Vec<u8, A>, AllocError> {
    let mut name = Vec::new(alloc);
    for byte in text {
        name.push(if is_name_byte(*byte) { *byte } else { b'_' })?;
    }
    Ok(name)
}

// The beginning of a name, to which something may be added.
fn front(name: &[u8]) -> &[u8] {
    name.split_at(name.len().min(MOST_BYTES)).0
}

// The part of a way that names no folder: what stands behind the last `/` that something stands
// behind.
fn last_part(way: &[u8]) -> &[u8] {
    let mut part = way;
    for at in 0..way.len() {
        if way[at] != b'/' && (at == 0 || way[at - 1] == b'/') {
            part = first_part(way.split_at(at).1);
        }
    }
    part
}

// What stands before the first `/`.
fn first_part(way: &[u8]) -> &[u8] {
    for at in 0..way.len() {
        if way[at] == b'/' {
            return way.split_at(at).0;
        }
    }
    way
}

fn is_name_byte(byte: u8) -> bool {
    byte.is_ascii_alphanumeric() || matches!(byte, b'_' | b'-' | b'.')
}
