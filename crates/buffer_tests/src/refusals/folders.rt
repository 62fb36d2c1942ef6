//! Files are made, opened, given room and listed in a folder in memory, and read whole.

use crate::devices::NewDir;
use crate::parts::{InFolder, Part, in_memory};
use crate::refusals::files::tell_left;
use crate::refusals::told::Told;
use crate::refusals::trial::{Refuses, Trial, each_asks, requests_behind};
use disk_files::{Dir, DirError, FileName, Writing};
use numbered_files::{Family, numbers, read_file};
use std::alloc::{AllocError, Allocator};
use std::process::Abort;

// A call of a folder, or one that looks into it.
#[derive(Clone, Copy)]
enum Act {
    Create,
    Open,
    Reserve,
    List,
    Numbers,
    Read,
    Name,
    NameOf,
}

// All but an opening: a folder in memory opens its files without a request.
static ACTS: [Act; 7] = [
    Act::Create,
    Act::Reserve,
    Act::List,
    Act::Numbers,
    Act::Read,
    Act::Name,
    Act::NameOf,
];

fn family() -> Family<'static> {
    Family {
        path: b"buf",
        kind: b"sink",
    }
}

fn listed<A: Allocator + Copy, D: Dir>(
    heap: A,
    dir: &mut D,
    told: &mut Told,
) -> Result<(), DirError> {
    for name in &dir.list(heap)? {
        told.bytes(name.as_bytes());
    }
    Ok(())
}

fn numbered<A: Allocator + Copy, D: Dir>(
    heap: A,
    dir: &mut D,
    told: &mut Told,
) -> Result<(), DirError> {
    for number in &numbers(heap, dir, family())? {
        told.number(u64::from(*number));
    }
    Ok(())
}

fn reserved<D: Dir>(dir: &mut D) -> Result<(), DirError> {
    let file = dir.open(b"buf.0000000001.sink")?;
    Ok(dir.reserve(file, 40)?)
}

fn read<A: Allocator + Copy, D: Dir>(
    heap: A,
    dir: &mut D,
    told: &mut Told,
) -> Result<(), DirError> {
    let file = dir.open(b"buf.0000000001.sink")?;
    told.bytes(&read_file(heap, dir, file)?);
    Ok(())
}

fn created<D: Dir>(dir: &mut D, name: &[u8], room: usize) -> Result<(), DirError> {
    dir.create(name, room)?;
    Ok(())
}

fn opened<D: Dir>(dir: &mut D) -> Result<(), DirError> {
    dir.open(b"buf.0000000001.sink")?;
    Ok(())
}

fn tell_name<A: Allocator>(heap: A, told: &mut Told) -> Result<(), DirError> {
    told.bytes(FileName::from_slice(heap, b"new")?.as_bytes());
    Ok(())
}

fn tell_name_of<A: Allocator + Copy>(heap: A, told: &mut Told) -> Result<(), DirError> {
    told.bytes(&family().name(heap, 7)?);
    Ok(())
}

fn take<A: Allocator + Copy, D: Dir>(
    heap: A,
    dir: &mut D,
    act: Act,
    told: &mut Told,
) -> Result<(), DirError> {
    match act {
        Act::Create => created(dir, b"new", 9),
        Act::Open => opened(dir),
        Act::Reserve => reserved(dir),
        Act::List => listed(heap, dir, told),
        Act::Numbers => numbered(heap, dir, told),
        Act::Read => read(heap, dir, told),
        Act::Name => tell_name(heap, told),
        Act::NameOf => tell_name_of(heap, told),
    }
}

struct Folder<A, D> {
    heap: A,
    dir: D,
}

// Further files of a folder.
static NAMES: [&[u8]; 7] = [
    b"buf.0000000002.sink",
    b"buf.0000000003.sink",
    b"buf.0000000004.sink",
    b"buf.0000000005.sink",
    b"buf.0000000006.sink",
    b"buf.0000000007.sink",
    b"buf.0000000008.sink",
];

// The first file.
fn begin<D: Dir>(dir: &mut D) -> Result<(), DirError> {
    let first = dir.create(b"buf.0000000001.sink", 9)?;
    dir.append(first, b"nine byte", Writing::Through)
}

// The first file, and so many further ones.
fn fill<D: Dir>(dir: &mut D, files: usize) -> Result<(), DirError> {
    for name in NAMES.iter().take(files) {
        created(dir, name, 0)?;
    }
    begin(dir)
}

impl<A: Allocator + Copy, D: NewDir<A>> Trial<A, Act> for Folder<A, D> {
    // A folder with a file, and so many further ones.
    fn made(heap: A, _act: Act, behind: usize) -> Option<Self> {
        let mut dir = D::made(heap);
        match fill(&mut dir, behind) {
            Ok(()) => Some(Folder { heap, dir }),
            Err(_) => None,
        }
    }

    fn call(&mut self, act: Act, told: &mut Told) -> Result<(), AllocError> {
        match take(self.heap, &mut self.dir, act, told) {
            Ok(()) => {}
            Err(DirError::Memory) => return Err(AllocError),
            Err(_) => told.number(77_777),
        }
        Ok(())
    }

    fn show(&mut self, told: &mut Told) {
        told.number(self.dir.faults());
    }

    fn close(self, told: &mut Told) {
        let Folder { heap, dir } = self;
        tell_left(heap, dir, told);
    }
}

// A folder with some of these numbers of further files has room for one more, and with others not.
static FILES: [usize; 5] = [0, 2, 3, 6, 7];

/// Whether all calls ask for memory, but for an opening.
pub fn ask<R: Abort, H: Refuses, D: NewDir<H>>(rt: &R, heap: H) -> bool {
    let _ = requests_behind::<R, H, Act, Folder<H, D>>(rt, heap, Act::Open, &FILES);
    each_asks::<R, H, Act, Folder<H, D>>(rt, heap, &ACTS, &FILES, 2)
}

#[test]
fn calls(rt: HostRuntime) {
    assert!(rt; in_memory(&rt, rt.alloc(), Part::InFolder(InFolder::Folders)));
}
