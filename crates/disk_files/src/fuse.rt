//! A folder whose device fails at a chosen call.

ghost use Rattle.std.specs.Prelude.{◌≡◌, ◌≢◌, ◌⊎◌, ◌↔◌, ℕ, ◌+◌, ◌-◌, ◌^◌, ◌≤◌, List, min, true, false, Some, None, OnOk, OnErr};
ghost use Rattle.disk_files.specs.Fuse.{blows, next_of};
ghost use Rattle.disk_files.specs.Faults.{Rises};

use crate::{Dir, DirError, FileName, FileNo, Writing};
use std::alloc::{AllocError, Allocator};

#[derive(Clone, Copy, PartialEq, Eq)]
enum Fails {
    All,
    One,
    Nothing,
}

/// A folder over another, whose device fails at a chosen call. Each call counts but `reserve`,
/// `close`, `faults` and `was_removed`, which touch no device. A call that fails here isn't passed
/// on, so it changes nothing.
pub struct Fuse<D> {
    inner: D,
    fails: Fails,
    passes: u64,
    failed: u64,
}

// By hand, so that crates above don't prove again how its parts end.
impl<D: Drop> Drop for Fuse<D> {
    fn drop(self) {
        let Fuse {
            inner: _,
            fails: _,
            passes: _,
            failed: _,
        } = self;
    }
}

impl<D: Dir> Fuse<D> {
    ghost use Rattle.disk_files.specs.Fuse.{inner_of, all_after, one_after};

    /// Passes so many calls on, and fails all later ones.
    pub fn after(inner: D, passes: u64) -> Fuse<D>
        ensures inner { inner_of result ≡ inner }
        ensures failing { ⟦<Fuse<D> as Dir>⟧.fails_after result
            ≡ all_after passes (D.fails_after inner) }
        ensures faults { ⟦<Fuse<D> as Dir>⟧.fault_count result
            ≡ min (D.fault_count inner) (2 ^ 64 - 1) }
    {
        Fuse {
            inner,
            fails: Fails::All,
            passes,
            failed: 0,
        }
    }

    /// Passes so many calls on, fails one, and passes all later ones.
    pub fn once(inner: D, passes: u64) -> Fuse<D>
        ensures inner { inner_of result ≡ inner }
        ensures failing { ⟦<Fuse<D> as Dir>⟧.fails_after result
            ≡ one_after passes (D.fails_after inner) }
        ensures faults { ⟦<Fuse<D> as Dir>⟧.fault_count result
            ≡ min (D.fault_count inner) (2 ^ 64 - 1) }
    {
        Fuse {
            inner,
            fails: Fails::One,
            passes,
            failed: 0,
        }
    }

    /// The folder below, as it stands.
    pub fn into_inner(self) -> D
        ensures { result ≡ inner_of self }
    {
        let Fuse {
            inner,
            fails: _,
            passes: _,
            failed: _,
        } = self;
        inner
    }

    // Lets a call pass, or fails it.
    fn pass(&mut self) -> Result<(), DirError>
        ensures inner { self.new.inner ≡ self.old.inner }
        ensures ok { OnOk result (blows self.old.fails self.old.passes ≡ false) }
        ensures err { OnErr result (blows self.old.fails self.old.passes ≡ true) }
        ensures only { OnErr result (result ≡ Err DirError.Fault) }
        ensures passes { self.new.passes ≡ self.old.passes - 1 }
        ensures fails { OnOk result (self.new.fails ≡ self.old.fails) }
        ensures next { OnErr result (self.new.fails ≡ next_of self.old.fails) }
        ensures passed { OnOk result (self.new.failed ≡ self.old.failed) }
        ensures counted { OnErr result (self.new.failed ≡ min (self.old.failed + 1) (2 ^ 64 - 1)) }
    {
        if self.passes > 0 {
            self.passes -= 1;
            return Ok(());
        }
        if self.fails == Fails::Nothing {
            return Ok(());
        }
        if self.fails == Fails::One {
            self.fails = Fails::Nothing;
        }
        self.failed = self.failed.saturating_add(1);
        Err(DirError::Fault)
    }
}

impl<D: Dir> Dir for Fuse<D> {
    ghost use Rattle.std.specs.Prelude.{◌+◌, ◌-◌, ◌^◌, min};
    ghost use Rattle.disk_files.specs.Fuse.{failures};

    ghost is_honest = { λ f. D.is_honest f.inner };

    ghost history = { λ f. D.history f.inner };

    ghost fails_after = { λ f. failures f.fails f.passes (D.fails_after f.inner) };

    ghost opened = { λ f. D.opened f.inner };

    ghost bytes_left = { λ f. D.bytes_left f.inner };

    ghost fault_count = { λ f. min (D.fault_count f.inner + f.failed) (2 ^ 64 - 1) };

    ghost reads_stay = { λ f. D.reads_stay f.inner };

    fn create(&mut self, name: &[u8], room: usize) -> Result<FileNo, DirError> {
        self.pass()?;
        self.inner.create(name, room)
    }

    fn open(&mut self, name: &[u8]) -> Result<FileNo, DirError> {
        self.pass()?;
        self.inner.open(name)
    }

    fn reserve(&mut self, file: FileNo, room: usize) -> Result<(), AllocError> {
        self.inner.reserve(file, room)
    }

    fn list<B: Allocator + Copy>(&mut self, alloc: B) -> Result<Vec<FileName<B>, B>, DirError> {
        self.pass()?;
        self.inner.list(alloc)
    }

    fn append(&mut self, file: FileNo, bytes: &[u8], writing: Writing) -> Result<(), DirError> {
        self.pass()?;
        self.inner.append(file, bytes, writing)
    }

    fn sync(&mut self, file: FileNo) -> Result<(), DirError> {
        self.pass()?;
        self.inner.sync(file)
    }

    fn read_at(&mut self, file: FileNo, at: usize, into: &mut [u8]) -> Result<usize, DirError> {
        self.pass()?;
        self.inner.read_at(file, at, into)
    }

    fn length(&mut self, file: FileNo) -> Result<usize, DirError> {
        self.pass()?;
        self.inner.length(file)
    }

    fn close(&mut self, file: FileNo) {
        self.inner.close(file);
    }

    fn remove(&mut self, file: FileNo) -> Result<(), DirError> {
        self.pass()?;
        self.inner.remove(file)
    }

    fn faults(&self) -> u64 {
        self.inner.faults().saturating_add(self.failed)
    }

    fn was_removed(&self, name: &[u8]) -> bool {
        self.inner.was_removed(name)
    }
}
