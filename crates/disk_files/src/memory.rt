//! A folder in memory, which can be stopped at any moment.

ghost use Rattle.std.specs.Prelude.{◌≡◌, ◌==◌, ℕ, List, Some, None, cond, ◌+◌, ◌-◌, ◌≤◌, ◌++◌, [], ◌∷◌, length, take, drop, min, IfOk, false, slice_get, vec_len};
ghost use Rattle.disk_files.specs.declared.dir.FileNo.{FileNo};
ghost use Rattle.disk_files.specs.Disk.{SameDisk, reads, StopLeaves, after_stop};
ghost use Rattle.disk_files.specs.Moments.{now};
ghost use Rattle.disk_files.specs.Stop.{left_of, name_at};
ghost use Rattle.disk_files.specs.Stopped.{left_state};
ghost use Rattle.disk_files.specs.Table.{disk_of, IsSound, is_open_of, names_there};
ghost use Rattle.disk_files.specs.Faults.{Rises};

use crate::memory_file::{
    MemoryFile, cut_last, flush_at, grow_at, place_of, place_there, reserve_at, set_open_at,
    stop_each, sweep, unlink_at, was_removed_in,
};
use crate::past::Past;
use crate::{Dir, DirError, FileName, FileNo, Keep, Writing};
use std::alloc::{AllocError, Allocator};

/// A folder in memory, which keeps what was written as a disk does, and can be stopped at any
/// moment.
pub struct MemoryDir<A: Allocator> {
    alloc: A,
    files: Vec<MemoryFile<A>, A>,
    last: Option<usize>,
    past: Past<A>,
    faults: u64,
}

// By hand, so that crates above don't prove again how its parts end.
impl<A: Allocator> Drop for MemoryDir<A> {
    fn drop(self) {
        let MemoryDir {
            alloc: _,
            files: _,
            last: _,
            past: _,
            faults: _,
        } = self;
    }
}

impl<A: Allocator + Copy> MemoryDir<A> {
    ghost use Rattle.disk_files.specs.Memory.{IsHonest, disk, last_written};

    /// An empty folder.
    pub fn new(alloc: A) -> MemoryDir<A>
        ensures honest { IsHonest result }
        ensures empty { (name : List ℕ) → disk result name ≡ None }
        ensures faults { ⟦<MemoryDir<A> as Dir>⟧.fault_count result ≡ 0 }
    {
        MemoryDir {
            alloc,
            files: Vec::new(alloc),
            last: None,
            past: Past::new(),
            faults: 0,
        }
    }

    /// Stops the folder as a loss of power would, keeps so much of what wasn't certainly on the
    /// disk, and starts it again. What is left counts as synced, and no file is open.
    pub fn stop(self, keep: Keep) -> MemoryDir<A>
        ensures honest { IsHonest self → IsHonest result }
        ensures left { IsHonest self
            → SameDisk (disk result) (after_stop (left_of keep (last_written self) (disk self))) }
        ensures outcome { IsHonest self → StopLeaves (disk self) (reads (disk result)) }
        ensures settled { IsHonest self
            → SameDisk (disk result) (after_stop (reads (disk result))) }
        ensures closed { (file : FileNo) → ⟦<MemoryDir<A> as Dir>⟧.opened result file ≡ None }
    {
        let mut dir = self;
        dir.lose(keep);
        dir
    }

    // Loses what the stop doesn't keep.
    fn lose(&mut self, keep: Keep)
        ensures sound { IsSound self.old.files.items → IsSound self.new.files.items }
        ensures left { IsSound self.old.files.items → SameDisk (disk_of self.new.files.items)
            (after_stop (left_of keep (name_at self.old.files.items self.old.last)
            (disk_of self.old.files.items))) }
        ensures closed { (j : ℕ) → is_open_of (slice_get self.new.files.items j) ≡ false }
        ensures past { self.new.past ≡ [] }
        ensures last { self.new.last ≡ None }
    {
        match keep {
            Keep::Least => self.restart(true),
            Keep::Greatest => self.restart(false),
            Keep::Last(n) => {
                cut_last(&mut self.files, self.last, n);
                self.restart(false);
            }
        }
    }

    // Leaves of each file all, or only what is certainly there, and begins anew.
    fn restart(&mut self, least: bool)
        ensures sound { IsSound self.old.files.items → IsSound self.new.files.items }
        ensures left { IsSound self.old.files.items → (name : List ℕ)
            → disk_of self.new.files.items name
            ≡ left_state least (disk_of self.old.files.items name) }
        ensures closed { (j : ℕ) → is_open_of (slice_get self.new.files.items j) ≡ false }
        ensures past { self.new.past ≡ [] }
        ensures last { self.new.last ≡ None }
    {
        stop_each(&mut self.files, least);
        sweep(&mut self.files);
        self.last = None;
        self.past = Past::new();
    }

    // Counts a refusal.
    fn refuse(&mut self, error: DirError) -> DirError
        ensures same { result ≡ error }
        ensures files { self.new ≡ record self.old { faults = self.new.faults } }
        ensures later { self.old.faults ≤ self.new.faults }
        ensures counted { Rises self.old.faults self.new.faults }
    {
        self.faults = self.faults.saturating_add(1);
        error
    }

    // Keeps the files as they are for the proofs, before a change.
    fn note(&mut self)
        ensures { self.new ≡ record self.old { past = self.old.files.items ∷ self.old.past } }
    {
        self.past = self.past.then(&self.files);
    }
}

impl<A: Allocator + Copy> Dir for MemoryDir<A> {
    ghost use Rattle.std.specs.Prelude.{slice_get, false};
    ghost use Rattle.disk_files.specs.Table.{opened_of, room_of};
    ghost use Rattle.disk_files.specs.Memory.{IsHonest, history as history_now};

    ghost is_honest = { λ d. IsHonest d };

    ghost history = { λ d. history_now d };

    ghost fails_after = { λ _ _. false };

    ghost opened = { λ d file. opened_of (slice_get d.files.items file.0) };

    ghost bytes_left = { λ d file. room_of (slice_get d.files.items file.0) };

    ghost fault_count = { λ d. d.faults };

    ghost use Rattle.disk_files.specs.Readable.{reads_stay_of};

    ghost reads_stay = { λ d sound. reads_stay_of d.files.items d.past sound.0 };

    fn create(&mut self, name: &[u8], room: usize) -> Result<FileNo, DirError> {
        if place_of(&self.files, name).is_some() {
            return Err(self.refuse(DirError::NameTaken));
        }
        let file = MemoryFile::new(self.alloc, name, room)?;
        self.files.reserve(1)?;
        self.note();
        let at = self.files.len();
        self.files.push_reserved(file);
        Ok(FileNo(at))
    }

    fn open(&mut self, name: &[u8]) -> Result<FileNo, DirError> {
        match place_there(&self.files, name) {
            Some(at) => {
                set_open_at(&mut self.files, at, true);
                Ok(FileNo(at))
            }
            None => Err(self.refuse(DirError::NoSuchFile)),
        }
    }

    fn reserve(&mut self, file: FileNo, room: usize) -> Result<(), AllocError> {
        reserve_at(&mut self.files, file.0, room)
    }

    fn list<B: Allocator + Copy>(&mut self, alloc: B) -> Result<Vec<FileName<B>, B>, DirError> {
        Ok(names_of(alloc, &self.files)?)
    }

    fn append(&mut self, file: FileNo, bytes: &[u8], _: Writing) -> Result<(), DirError> {
        self.note();
        grow_at(&mut self.files, file.0, bytes);
        self.last = last_of(self.last, file.0, bytes);
        Ok(())
    }

    fn sync(&mut self, file: FileNo) -> Result<(), DirError> {
        self.note();
        flush_at(&mut self.files, file.0);
        Ok(())
    }

    fn read_at(&mut self, file: FileNo, at: usize, into: &mut [u8]) -> Result<usize, DirError> {
        Ok(copy_from(self.files[file.0].bytes(), at, into))
    }

    fn length(&mut self, file: FileNo) -> Result<usize, DirError> {
        Ok(self.files[file.0].bytes().len())
    }

    fn close(&mut self, file: FileNo) {
        set_open_at(&mut self.files, file.0, false);
    }

    fn remove(&mut self, file: FileNo) -> Result<(), DirError> {
        self.note();
        unlink_at(&mut self.files, file.0);
        Ok(())
    }

    fn faults(&self) -> u64 {
        self.faults
    }

    fn was_removed(&self, name: &[u8]) -> bool {
        was_removed_in(&self.files, name)
    }
}

// The place that was written to last, after these bytes were written to one.
fn last_of(last: Option<usize>, at: usize, bytes: &[u8]) -> Option<usize>
    ensures { result ≡ cond (length bytes.now == 0) last (Some at) }
{
    if bytes.is_empty() { last } else { Some(at) }
}

// The bytes from a place on, as far as there is room for them.
fn copy_from(bytes: &[u8], at: usize, into: &mut [u8]) -> usize
    ensures count { result ≡ min (length into.old) (length bytes.now - at) }
    ensures bytes { into.new ≡ take result (drop at bytes.now) ++ drop result into.old }
{
    if bytes.len() <= at {
        return 0;
    }
    let (_, rest) = bytes.split_at(at);
    let n = rest.len().min(into.len());
    into[..n].copy_from_slice(&rest[..n]);
    n
}

// The names of the files that weren't removed.
fn names_of<A: Allocator, B: Allocator + Copy>(
    alloc: B,
    files: &Vec<MemoryFile<A>, A>,
) -> Result<Vec<FileName<B>, B>, AllocError>
    ensures { IfOk result (λ names. names.items ≡ names_there files.now.items) }
{
    let mut names = Vec::new(alloc);
    for file in files {
        if file.is_there() {
            names.push(FileName::from_slice(alloc, file.name())?)?;
        }
    }
    Ok(names)
}
