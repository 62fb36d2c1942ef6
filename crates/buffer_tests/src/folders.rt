//! Folders of the system.

ghost use Rattle.std.specs.Prelude.{IsSome};

use crate::real::{Real, on_disk};
use disk_files::{Dir, DirError, FileName, FileNo, Writing};
use numbered_files::read_file;
use std::alloc::Allocator;

// Whether one of these is this name.
fn has_name<A: Allocator>(names: &[FileName<A>], name: &[u8]) -> bool {
    for other in names {
        if other.as_bytes() == name {
            return true;
        }
    }
    false
}

// Whether the folder lists this name.
fn is_listed<A: Allocator + Copy, D: Dir>(alloc: A, dir: &mut D, name: &[u8]) -> bool {
    match dir.list(alloc) {
        Ok(names) => has_name(&names, name),
        Err(_) => false,
    }
}

// Whether the file has four bytes, of which three read as they were written.
fn reads_back<D: Dir>(dir: &mut D, name: &[u8]) -> Result<bool, DirError> {
    let file = dir.open(name)?;
    let mut into = [9u8; 4];
    let read = dir.read_at(file, 1, &mut into)?;
    Ok(read == 3 && into == [98, 99, 100, 9])
}

/// Adds a file of this name and these bytes.
pub fn put_file<D: Dir>(dir: &mut D, name: &[u8], bytes: &[u8]) -> Result<(), DirError> {
    let file = dir.create(name, bytes.len())?;
    dir.append(file, bytes, Writing::Through)
}

fn bytes_of<A: Allocator + Copy, D: Dir>(
    alloc: A,
    dir: &mut D,
    name: &[u8],
) -> Result<Vec<u8, A>, DirError> {
    let file = dir.open(name)?;
    read_file(alloc, dir, file)
}

// Whether the file of this name has these bytes.
fn reads_as<A: Allocator + Copy, D: Dir>(alloc: A, dir: &mut D, name: &[u8], want: &[u8]) -> bool {
    match bytes_of(alloc, dir, name) {
        Ok(bytes) => bytes.as_slice() == want,
        Err(_) => false,
    }
}

/// How many files a folder has.
pub fn count_in<A: Allocator + Copy, D: Dir>(alloc: A, dir: &mut D) -> Option<usize> {
    match dir.list(alloc) {
        Ok(names) => Some(names.len()),
        Err(_) => None,
    }
}

/// Whether a folder has one file of this name and these bytes, and nothing else.
pub fn has_one<A: Allocator + Copy, D: Dir>(
    alloc: A,
    dir: &mut D,
    name: &[u8],
    bytes: &[u8],
) -> bool {
    count_in(alloc, dir) == Some(1) && reads_as(alloc, dir, name, bytes)
}

// What is done to a file of some name.
#[derive(Clone, Copy)]
enum Act {
    Create,
    Open,
    Append(&'static [u8]),
    Hold(&'static [u8]),
    Sync,
    Close,
    Remove,
}

// A name, what is done to its file, and why not.
type Row = (&'static [u8], Act, Option<DirError>);

fn create<D: Dir>(dir: &mut D, name: &[u8]) -> Option<DirError> {
    dir.create(name, 0).err()
}

// Adds bytes to an open file.
fn append<D: Dir>(dir: &mut D, file: FileNo, bytes: &[u8], writing: Writing) -> Result<(), DirError>
    requires { IsSome (D.opened dir.old file) }
{
    dir.reserve(file, bytes.len())?;
    dir.append(file, bytes, writing)
}

// Opens a file, and does this to it.
fn do_to<D: Dir>(dir: &mut D, name: &[u8], act: Act) -> Result<(), DirError> {
    let file = dir.open(name)?;
    match act {
        Act::Create | Act::Open => {}
        Act::Append(bytes) => return append(dir, file, bytes, Writing::Through),
        Act::Hold(bytes) => return append(dir, file, bytes, Writing::Back),
        Act::Sync => return dir.sync(file),
        Act::Close => dir.close(file),
        Act::Remove => return dir.remove(file),
    }
    Ok(())
}

fn do_act<D: Dir>(dir: &mut D, name: &[u8], act: Act) -> Option<DirError> {
    match act {
        Act::Create => create(dir, name),
        other => do_to(dir, name, other).err(),
    }
}

// Whether the folder answers each row as it says.
fn answers<D: Dir>(dir: &mut D, rows: &[Row]) -> bool {
    for (name, done, refused) in rows {
        if do_act(dir, name, *done) != *refused {
            return false;
        }
    }
    true
}

static BEGUN: [Row; 4] = [
    (b"a.journal", Act::Create, None),
    (b"a.journal", Act::Append(b"ab"), None),
    (b"a.journal", Act::Append(b"cd"), None),
    (b"a.journal", Act::Sync, None),
];

// A folder of the system gets one file more, and counts what it refuses. What was held back is in
// its place, whichever call hands it over: a sync, a close, an append that is handed over at once,
// or one to another file.
static REAL: [Row; 19] = [
    (b"a.journal", Act::Remove, None),
    (b"b.sink", Act::Create, None),
    (b"b.sink", Act::Append(b"h"), None),
    (b"b.sink", Act::Hold(b"e"), None),
    (b"b.sink", Act::Hold(b"l"), None),
    (b"b.sink", Act::Sync, None),
    (b"b.sink", Act::Hold(b"l"), None),
    (b"b.sink", Act::Close, None),
    (b"b.sink", Act::Hold(b"o"), None),
    (b"b.sink", Act::Append(b", "), None),
    (b"c.sink", Act::Create, None),
    (b"b.sink", Act::Hold(b"you"), None),
    (b"c.sink", Act::Hold(b"gone"), None),
    (b"c.sink", Act::Remove, None),
    (b"b.sink", Act::Sync, None),
    (b"b.sink", Act::Create, Some(DirError::NameTaken)),
    (b"a.journal", Act::Open, Some(DirError::NoSuchFile)),
    (b"x/y", Act::Create, Some(DirError::Fault)),
    (b"\xff", Act::Open, Some(DirError::Fault)),
];

/// Whether this folder, which is empty, takes each call and answers so.
pub fn is_real<A: Allocator + Copy, D: Dir>(alloc: A, dir: &mut D) -> bool {
    answers(dir, &BEGUN)
        && is_listed(alloc, dir, b"a.journal")
        && reads_back(dir, b"a.journal") == Ok(true)
        && answers(dir, &REAL)
        && dir.faults() == 4
}

// A folder that isn't there fails, and says so.
static MISSING: [Row; 2] = [
    (b"a", Act::Create, Some(DirError::Fault)),
    (b"a", Act::Open, Some(DirError::NoSuchFile)),
];

/// Whether this folder does.
pub fn is_missing<A: Allocator + Copy, D: Dir>(alloc: A, dir: &mut D) -> bool {
    answers(dir, &MISSING) && count_in(alloc, dir).is_none() && dir.faults() == 3
}

// A folder fails once it is removed, takes each call when it is made again, and has what is left of
// them then, none of which is a folder.
static MADE: [(&str, Real); 4] = [
    ("disk_files_test/made", Real::Missing),
    ("disk_files_test/made", Real::Empty),
    ("disk_files_test/made/b.sink/x", Real::Refused),
    ("disk_files_test/made", Real::Left),
];

#[test]
fn real_files(rt: HostRuntime) {
    assert!(rt; on_disk(&rt, "disk_files_test", &MADE));
}

// Makes a file and removes it, and says where it stood.
fn come_and_go<D: Dir>(dir: &mut D) -> Result<FileNo, DirError> {
    let file = dir.create(b"a", 0)?;
    dir.remove(file)?;
    Ok(file)
}

// Opens a file, which is there, and closes it, and says where it stood.
fn open_and_close<D: Dir>(dir: &mut D) -> Result<FileNo, DirError> {
    let file = dir.open(b"b")?;
    dir.close(file);
    Ok(file)
}

// Whether both stand at the first place.
fn stay<D: Dir>(dir: &mut D) -> bool {
    come_and_go(dir) == Ok(FileNo(0)) && open_and_close(dir) == Ok(FileNo(0))
}

/// Whether both do two thousand times, which is more than a process may have open, in a folder in
/// which a file was made and closed.
pub fn stay_in_place<D: Dir>(dir: &mut D) -> bool {
    if !answers(dir, &CLOSED) {
        return false;
    }
    for _ in 0..2000u32 {
        if !stay(dir) {
            return false;
        }
    }
    true
}

static CLOSED: [Row; 2] = [(b"b", Act::Create, None), (b"b", Act::Close, None)];

static PLACES: [(&str, Real); 1] = [("disk_places_test", Real::Places)];

#[test]
fn files_that_are_gone_leave_their_places(rt: HostRuntime) {
    assert!(rt; on_disk(&rt, "disk_places_test", &PLACES));
}
