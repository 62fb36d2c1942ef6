//! A folder that comes back to its shelf when it is let go.

use crate::disk::{Device, Disk, Stop};
use disk_files::{Dir, DirError, FileName, FileNo, Writing};
use std::alloc::{AllocError, Allocator, Global};
use std::cell::Cell;
use std::rc::Rc;

/// A folder that comes home when it is let go, in whatever way, and is as it was left there.
pub trait Lendable: Dir {
    /// Where a folder is while nobody has it.
    type Home: Drop;

    /// One with no folder.
    fn new_home(alloc: Global) -> Result<Self::Home, AllocError>;

    /// The same one.
    fn share(home: &Self::Home) -> Result<Self::Home, AllocError>;

    /// The folder that is there is what this stop leaves of it, over a device that doesn't fail.
    fn stop_at(home: &Self::Home, stop: Stop);

    /// The folder that is there, or an empty one, over this device. It comes home there.
    fn lend(alloc: Global, home: Self::Home, device: Device) -> Self;

    /// What a stop leaves of it, over a device that doesn't fail.
    fn stopped(self, stop: Stop) -> Self;
}

/// Where a folder is while nobody has it.
#[derive(Drop)]
pub struct Home<D> {
    place: Rc<Cell<Option<D>>>,
}

impl<D: Drop> Home<D> {
    // Takes the folder, if it is there.
    fn take(&self) -> Option<D> {
        self.place.replace(None)
    }

    // The folder is there.
    fn put(&self, dir: D) {
        self.place.set(Some(dir));
    }
}

/// A folder that somebody has, with where it comes home.
pub struct Lent<D> {
    dir: D,
    home: Home<D>,
}

impl<D: Drop> Drop for Lent<D> {
    fn drop(self) {
        let Lent { dir, home } = self;
        home.put(dir);
    }
}

impl<D: Disk + Drop> Lendable for Lent<D> {
    type Home = Home<D>;

    fn new_home(alloc: Global) -> Result<Home<D>, AllocError> {
        Ok(Home {
            place: Rc::new(alloc, Cell::new(None))?,
        })
    }

    fn share(home: &Home<D>) -> Result<Home<D>, AllocError> {
        Ok(Home {
            place: home.place.clone()?,
        })
    }

    fn stop_at(home: &Home<D>, stop: Stop) {
        if let Some(dir) = home.take() {
            home.put(dir.stopped(stop));
        }
    }

    fn lend(alloc: Global, home: Home<D>, device: Device) -> Lent<D> {
        let dir = match home.take() {
            Some(dir) => dir,
            None => D::fresh(alloc),
        };
        Lent {
            dir: dir.over(device),
            home,
        }
    }

    fn stopped(self, stop: Stop) -> Lent<D> {
        let Lent { dir, home } = self;
        Lent {
            dir: dir.stopped(stop),
            home,
        }
    }
}

impl<D: Dir> Dir for Lent<D> {
    ghost is_honest = { λ l. D.is_honest l.dir };

    ghost history = { λ l. D.history l.dir };

    ghost fails_after = { λ l. D.fails_after l.dir };

    ghost opened = { λ l. D.opened l.dir };

    ghost bytes_left = { λ l. D.bytes_left l.dir };

    ghost fault_count = { λ l. D.fault_count l.dir };

    ghost reads_stay = { λ l. D.reads_stay l.dir };

    fn create(&mut self, name: &[u8], room: usize) -> Result<FileNo, DirError> {
        self.dir.create(name, room)
    }

    fn open(&mut self, name: &[u8]) -> Result<FileNo, DirError> {
        self.dir.open(name)
    }

    fn reserve(&mut self, file: FileNo, room: usize) -> Result<(), AllocError> {
        self.dir.reserve(file, room)
    }

    fn list<B: Allocator + Copy>(&mut self, alloc: B) -> Result<Vec<FileName<B>, B>, DirError> {
        self.dir.list(alloc)
    }

    fn append(&mut self, file: FileNo, bytes: &[u8], writing: Writing) -> Result<(), DirError> {
        self.dir.append(file, bytes, writing)
    }

    fn sync(&mut self, file: FileNo) -> Result<(), DirError> {
        self.dir.sync(file)
    }

    fn read_at(&mut self, file: FileNo, at: usize, into: &mut [u8]) -> Result<usize, DirError> {
        self.dir.read_at(file, at, into)
    }

    fn length(&mut self, file: FileNo) -> Result<usize, DirError> {
        self.dir.length(file)
    }

    fn close(&mut self, file: FileNo) {
        self.dir.close(file);
    }

    fn remove(&mut self, file: FileNo) -> Result<(), DirError> {
        self.dir.remove(file)
    }

    fn faults(&self) -> u64 {
        self.dir.faults()
    }

    fn was_removed(&self, name: &[u8]) -> bool {
        self.dir.was_removed(name)
    }
}
