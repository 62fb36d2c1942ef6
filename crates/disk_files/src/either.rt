//! A folder of one of two kinds.

use crate::{Dir, DirError, FileName, FileNo, Writing};
use std::alloc::{AllocError, Allocator};

/// A folder of one of two kinds: what holds of the folder that it has holds of it.
pub enum EitherDir<L, R> {
    /// A folder of the first kind.
    Left(L),
    /// A folder of the second kind.
    Right(R),
}

// By hand, so that crates above don't prove again how its parts end.
impl<L: Drop, R: Drop> Drop for EitherDir<L, R> {
    fn drop(self) {
        match self {
            EitherDir::Left(_) | EitherDir::Right(_) => {}
        }
    }
}

impl<L: Dir, R: Dir> Dir for EitherDir<L, R> {
    ghost use Rattle.disk_files.specs.declared.either.EitherDir.TheVariants.{Left, Right};

    ghost is_honest = { elim [ Left d ↦ L.is_honest d | Right d ↦ R.is_honest d ] };

    ghost history = { elim [ Left d ↦ L.history d | Right d ↦ R.history d ] };

    ghost fails_after = { elim [ Left d ↦ L.fails_after d | Right d ↦ R.fails_after d ] };

    ghost opened = { elim [ Left d ↦ L.opened d | Right d ↦ R.opened d ] };

    ghost bytes_left = { elim [ Left d ↦ L.bytes_left d | Right d ↦ R.bytes_left d ] };

    ghost fault_count = { elim [ Left d ↦ L.fault_count d | Right d ↦ R.fault_count d ] };

    ghost reads_stay = { elim [ Left d ↦ L.reads_stay d | Right d ↦ R.reads_stay d ] };

    fn create(&mut self, name: &[u8], room: usize) -> Result<FileNo, DirError> {
        match self {
            EitherDir::Left(dir) => dir.create(name, room),
            EitherDir::Right(dir) => dir.create(name, room),
        }
    }

    fn open(&mut self, name: &[u8]) -> Result<FileNo, DirError> {
        match self {
            EitherDir::Left(dir) => dir.open(name),
            EitherDir::Right(dir) => dir.open(name),
        }
    }

    fn reserve(&mut self, file: FileNo, room: usize) -> Result<(), AllocError> {
        match self {
            EitherDir::Left(dir) => dir.reserve(file, room),
            EitherDir::Right(dir) => dir.reserve(file, room),
        }
    }

    fn list<B: Allocator + Copy>(&mut self, alloc: B) -> Result<Vec<FileName<B>, B>, DirError> {
        match self {
            EitherDir::Left(dir) => dir.list(alloc),
            EitherDir::Right(dir) => dir.list(alloc),
        }
    }

    fn append(&mut self, file: FileNo, bytes: &[u8], writing: Writing) -> Result<(), DirError> {
        match self {
            EitherDir::Left(dir) => dir.append(file, bytes, writing),
            EitherDir::Right(dir) => dir.append(file, bytes, writing),
        }
    }

    fn sync(&mut self, file: FileNo) -> Result<(), DirError> {
        match self {
            EitherDir::Left(dir) => dir.sync(file),
            EitherDir::Right(dir) => dir.sync(file),
        }
    }

    fn read_at(&mut self, file: FileNo, at: usize, into: &mut [u8]) -> Result<usize, DirError> {
        match self {
            EitherDir::Left(dir) => dir.read_at(file, at, into),
            EitherDir::Right(dir) => dir.read_at(file, at, into),
        }
    }

    fn length(&mut self, file: FileNo) -> Result<usize, DirError> {
        match self {
            EitherDir::Left(dir) => dir.length(file),
            EitherDir::Right(dir) => dir.length(file),
        }
    }

    fn close(&mut self, file: FileNo) {
        match self {
            EitherDir::Left(dir) => dir.close(file),
            EitherDir::Right(dir) => dir.close(file),
        }
    }

    fn remove(&mut self, file: FileNo) -> Result<(), DirError> {
        match self {
            EitherDir::Left(dir) => dir.remove(file),
            EitherDir::Right(dir) => dir.remove(file),
        }
    }

    fn faults(&self) -> u64 {
        match self {
            EitherDir::Left(dir) => dir.faults(),
            EitherDir::Right(dir) => dir.faults(),
        }
    }

    fn was_removed(&self, name: &[u8]) -> bool {
        match self {
            EitherDir::Left(dir) => dir.was_removed(name),
            EitherDir::Right(dir) => dir.was_removed(name),
        }
    }
}
