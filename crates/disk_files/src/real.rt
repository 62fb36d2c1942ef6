//! A folder of the system.

ghost use Rattle.std.specs.Prelude.{◌≡◌, ◌≢◌, ◌⊎◌, ℕ, Err, ◌≤◌, ◌<◌, Some, None, IsSome, IfSome, Ok, IfOk, IfErr, OnErr, length, slice_get};
ghost use Rattle.disk_files.specs.declared.dir.FileNo.{FileNo};
ghost use Rattle.disk_files.specs.Faults.{HasCause, Rises};
ghost use Rattle.disk_files.specs.Real.{open_name};

use crate::{Dir, DirError, FileName, FileNo, Writing};
use std::alloc::{AllocError, AllocFailed, Allocator};
use std::fs::{DirEntry, OpenFile as _, OpenOptions};
use std::io::{ErrorKind, Write};
use std::os::unix::fs::FileExt;
use std::rt::Files;
use std::{fs, io};

/// How many bytes are held back at most before they are written.
const MOST_HELD: usize = 65_536;

#[derive(Drop)]
struct OpenFile<F, A: Allocator> {
    name: FileName<A>,
    path: String<A>,
    file: F,
    // The folder was synced since the file was made or opened, so that the file's own place in it
    // is on the disk.
    is_settled: bool,
}

/// A folder of the system. Nothing is proved of the bytes of its files: what a system call does
/// can't be stated.
pub struct RealDir<R: Files, A: Allocator> {
    rt: R,
    alloc: A,
    path: String<A>,
    files: Vec<Option<OpenFile<R::File, A>>, A>,
    // What was added to a file and isn't written yet, and the place of that file.
    held: Vec<u8, A>,
    holder: usize,
    faults: u64,
}

// By hand, so that crates above don't prove again how its parts end.
impl<R: Files + Drop, A: Allocator> Drop for RealDir<R, A>
where
    R::File: Drop,
{
    fn drop(self) {
        let RealDir {
            rt: _,
            alloc: _,
            path: _,
            files: _,
            held: _,
            holder: _,
            faults: _,
        } = self;
    }
}

impl<R, A> RealDir<R, A>
where
    R: Files + Alloc + Clone + Drop,
    R::File: FileExt + Drop,
    R::A: Clone,
    A: Allocator + Copy,
{
    /// The folder of this path, which is made, with those above it, where it isn't there. A refusal
    /// has the runtime again.
    ///
    /// `Memory` comes first, and makes nothing. `Fault`: it couldn't be made or synced, and some of
    /// those above it may be there.
    pub fn make(rt: R, alloc: A, path: &str) -> Result<RealDir<R, A>, (DirError, R)>
        ensures count { IfOk result (λ d. ⟦<RealDir<R, A> as Dir>⟧.fault_count d ≡ 0) }
        ensures value_returned { IfErr result (λ refused. refused.1 ≡ rt) }
        ensures only { IfErr result
            (λ refused. (refused.0 ≡ DirError.Memory) ⊎ (refused.0 ≡ DirError.Fault)) }
    {
        let Ok(kept) = String::from_str(alloc, path) else {
            return Err((DirError::Memory, rt));
        };
        if make_folder(&rt, path).is_err() {
            return Err((DirError::Fault, rt));
        }
        Ok(RealDir::at(rt, alloc, kept))
    }

    /// The folder of this path, which has to be there by the first call. The error is want of
    /// memory, and has the runtime again.
    pub fn new(rt: R, alloc: A, path: &str) -> Result<RealDir<R, A>, AllocFailed<R>>
        ensures count { IfOk result (λ d. ⟦<RealDir<R, A> as Dir>⟧.fault_count d ≡ 0) }
        ensures value_returned { IfErr result (λ failed. failed.value ≡ rt) }
    {
        match String::from_str(alloc, path) {
            Ok(path) => Ok(RealDir::at(rt, alloc, path)),
            Err(AllocError) => Err(AllocFailed { value: rt }),
        }
    }

    // The folder of this path, in which no file is open.
    fn at(rt: R, alloc: A, path: String<A>) -> RealDir<R, A>
        ensures { ⟦<RealDir<R, A> as Dir>⟧.fault_count result ≡ 0 }
    {
        RealDir {
            rt,
            alloc,
            path,
            files: Vec::new(alloc),
            held: Vec::new(alloc),
            holder: 0,
            faults: 0,
        }
    }

    // Counts a refusal.
    fn refuse(&mut self, error: DirError) -> DirError
        ensures same { result ≡ error }
        ensures files { self.new ≡ record self.old { faults = self.new.faults } }
        ensures later { self.old.faults ≤ self.new.faults }
        ensures counted { Rises self.old.faults self.new.faults }
    {
        self.faults = self.faults.saturating_add(1);
        error
    }

    // The path of a file; none for a name that is no text, or has a slash.
    fn path_of(&self, name: &[u8]) -> Result<Option<String<A>>, AllocError> {
        let Ok(name) = str::from_utf8(name) else {
            return Ok(None);
        };
        if name.contains('/') {
            return Ok(None);
        }
        let mut path = String::from_str(self.alloc, self.path.as_str())?;
        path.push('/')?;
        path.push_str(name)?;
        Ok(Some(path))
    }

    // Opens a file as told. An error of this kind is answered by `refusal`, any other by `Fault`.
    fn open_as(
        &mut self,
        how: &OpenOptions,
        name: &[u8],
        kind: ErrorKind,
        refusal: DirError,
    ) -> Result<FileNo, DirError>
        requires { refusal ≢ DirError.Memory }
        ensures opened { IfOk result
            (λ file. open_name (slice_get self.new.files.items file.0) ≡ Some name.now) }
        ensures others { (other : FileNo)
            → IsSome (open_name (slice_get self.old.files.items other.0))
            → open_name (slice_get self.new.files.items other.0)
            ≡ open_name (slice_get self.old.files.items other.0) }
        ensures cause { HasCause self.old.faults self.new.faults result }
        ensures only { OnErr result ((result ≡ Err DirError.Memory)
            ⊎ ((result ≡ Err DirError.Fault) ⊎ (result ≡ Err refusal))) }
    {
        let Ok(at) = free_place(&mut self.files) else {
            return Err(DirError::Memory);
        };
        match self.open_file(how, name, kind, refusal) {
            Ok(file) => Ok(put_at(&mut self.files, at, file)),
            Err(error) => Err(error),
        }
    }

    // The same, but for its place.
    fn open_file(
        &mut self,
        how: &OpenOptions,
        name: &[u8],
        kind: ErrorKind,
        refusal: DirError,
    ) -> Result<OpenFile<R::File, A>, DirError>
        requires { refusal ≢ DirError.Memory }
        ensures named { IfOk result (λ file. file.name ≡ name.now) }
        ensures files { self.new ≡ record self.old { faults = self.new.faults } }
        ensures cause { HasCause self.old.faults self.new.faults result }
        ensures only { OnErr result ((result ≡ Err DirError.Memory)
            ⊎ ((result ≡ Err DirError.Fault) ⊎ (result ≡ Err refusal))) }
    {
        match self.path_of(name) {
            Ok(Some(path)) => self.open_path(how, path, name, kind, refusal),
            Ok(None) => Err(self.refuse(DirError::Fault)),
            Err(AllocError) => Err(DirError::Memory),
        }
    }

    // The same, where this is the path of the file.
    fn open_path(
        &mut self,
        how: &OpenOptions,
        path: String<A>,
        name: &[u8],
        kind: ErrorKind,
        refusal: DirError,
    ) -> Result<OpenFile<R::File, A>, DirError>
        requires { refusal ≢ DirError.Memory }
        ensures named { IfOk result (λ file. file.name ≡ name.now) }
        ensures files { self.new ≡ record self.old { faults = self.new.faults } }
        ensures cause { HasCause self.old.faults self.new.faults result }
        ensures only { OnErr result ((result ≡ Err DirError.Memory)
            ⊎ ((result ≡ Err DirError.Fault) ⊎ (result ≡ Err refusal))) }
    {
        let Ok(name) = FileName::from_slice(self.alloc, name) else {
            return Err(DirError::Memory);
        };
        match how.open(&self.rt, path.as_str()) {
            Ok(file) => Ok(OpenFile {
                name,
                path,
                file,
                is_settled: false,
            }),
            Err(error) => self.refuse_as(error, kind, refusal),
        }
    }

    // Answers an error of this kind by `refusal`, and any other as `refuse_by`.
    fn refuse_as(
        &mut self,
        error: io::Error,
        kind: ErrorKind,
        refusal: DirError,
    ) -> Result<OpenFile<R::File, A>, DirError>
        requires { refusal ≢ DirError.Memory }
        ensures none { IfOk result (λ _. ⊥) }
        ensures files { self.new ≡ record self.old { faults = self.new.faults } }
        ensures cause { HasCause self.old.faults self.new.faults result }
        ensures only { OnErr result ((result ≡ Err DirError.Memory)
            ⊎ ((result ≡ Err DirError.Fault) ⊎ (result ≡ Err refusal))) }
    {
        if error.kind() == kind {
            return Err(self.refuse(refusal));
        }
        Err(self.refuse_by(error.kind()))
    }

    // What an error of the system is answered by, which is counted but for want of memory.
    fn refuse_by(&mut self, kind: ErrorKind) -> DirError
        ensures files { self.new ≡ record self.old { faults = self.new.faults } }
        ensures only { (result ≡ DirError.Memory) ⊎ (result ≡ DirError.Fault) }
        ensures cause { HasCause {T = Unit {0}} self.old.faults self.new.faults (Err result) }
    {
        if kind == ErrorKind::OutOfMemory {
            return DirError::Memory;
        }
        self.refuse(DirError::Fault)
    }

    // What the system answered. Its error is counted, and is a `Fault`.
    fn answer<T: Drop>(&mut self, answer: io::Result<T>) -> Result<T, DirError>
        ensures files { self.new ≡ record self.old { faults = self.new.faults } }
        ensures value { IfOk result (λ value. answer ≡ Ok value) }
        ensures cause { HasCause self.old.faults self.new.faults result }
        ensures only { OnErr result (result ≡ Err DirError.Fault) }
    {
        match answer {
            Ok(value) => Ok(value),
            Err(_) => Err(self.refuse(DirError::Fault)),
        }
    }

    // Holds bytes back for the file at a place, behind those that are held for it. `false` where
    // they are too many, or there is no memory for them: then they aren't held.
    fn hold(&mut self, at: usize, bytes: &[u8]) -> Result<bool, DirError>
        ensures files { (j : ℕ)
            → open_name (slice_get self.new.files.items j)
            ≡ open_name (slice_get self.old.files.items j) }
        ensures cause { HasCause self.old.faults self.new.faults result }
        ensures only { OnErr result (result ≡ Err DirError.Fault) }
    {
        if self.holder != at {
            self.write_held()?;
            self.holder = at;
        }
        Ok(bytes.len() < MOST_HELD && self.held.extend_from_slice(bytes).is_ok())
    }

    // Writes what is held back. After a `Fault` a beginning of it may be written, and none of it is
    // held.
    fn write_held(&mut self) -> Result<(), DirError>
        ensures files { (j : ℕ)
            → open_name (slice_get self.new.files.items j)
            ≡ open_name (slice_get self.old.files.items j) }
        ensures cause { HasCause self.old.faults self.new.faults result }
        ensures only { OnErr result (result ≡ Err DirError.Fault) }
    {
        let handed = self.hand_over();
        self.answer(handed)
    }

    // Hands what is held back to the system, and holds none of it any more.
    fn hand_over(&mut self) -> io::Result<()>
        ensures files { (j : ℕ)
            → open_name (slice_get self.new.files.items j)
            ≡ open_name (slice_get self.old.files.items j) }
        ensures faults { self.new.faults ≡ self.old.faults }
    {
        if self.held.is_empty() {
            return Ok(());
        }
        let written = write_there(&mut self.files, self.holder, &self.held);
        self.held.clear();
        written
    }

    // Adds bytes at the end of the open file at a place.
    fn add_at(&mut self, at: usize, bytes: &[u8], writing: Writing) -> Result<(), DirError>
        requires { IsSome (open_name (slice_get self.old.files.items at)) }
        ensures files { (j : ℕ)
            → open_name (slice_get self.new.files.items j)
            ≡ open_name (slice_get self.old.files.items j) }
        ensures cause { HasCause self.old.faults self.new.faults result }
        ensures only { OnErr result (result ≡ Err DirError.Fault) }
    {
        match writing {
            Writing::Back => self.add_back(at, bytes),
            Writing::Through => self.add_through(at, bytes),
        }
    }

    // The same, write-back.
    fn add_back(&mut self, at: usize, bytes: &[u8]) -> Result<(), DirError>
        requires { IsSome (open_name (slice_get self.old.files.items at)) }
        ensures files { (j : ℕ)
            → open_name (slice_get self.new.files.items j)
            ≡ open_name (slice_get self.old.files.items j) }
        ensures cause { HasCause self.old.faults self.new.faults result }
        ensures only { OnErr result (result ≡ Err DirError.Fault) }
    {
        if self.hold(at, bytes)? {
            self.write_full()
        } else {
            self.write_on(at, bytes)
        }
    }

    // The same, write-through: with what is held back, where something is.
    fn add_through(&mut self, at: usize, bytes: &[u8]) -> Result<(), DirError>
        requires { IsSome (open_name (slice_get self.old.files.items at)) }
        ensures files { (j : ℕ)
            → open_name (slice_get self.new.files.items j)
            ≡ open_name (slice_get self.old.files.items j) }
        ensures cause { HasCause self.old.faults self.new.faults result }
        ensures only { OnErr result (result ≡ Err DirError.Fault) }
    {
        if !self.held.is_empty() && self.hold(at, bytes)? {
            self.write_held()
        } else {
            self.write_on(at, bytes)
        }
    }

    // Writes what is held back, if that is much.
    fn write_full(&mut self) -> Result<(), DirError>
        ensures files { (j : ℕ)
            → open_name (slice_get self.new.files.items j)
            ≡ open_name (slice_get self.old.files.items j) }
        ensures cause { HasCause self.old.faults self.new.faults result }
        ensures only { OnErr result (result ≡ Err DirError.Fault) }
    {
        if self.held.len() < MOST_HELD {
            Ok(())
        } else {
            self.write_held()
        }
    }

    // Writes what is held back, and then bytes at the end of the open file at a place.
    fn write_on(&mut self, at: usize, bytes: &[u8]) -> Result<(), DirError>
        requires { IsSome (open_name (slice_get self.old.files.items at)) }
        ensures files { (j : ℕ)
            → open_name (slice_get self.new.files.items j)
            ≡ open_name (slice_get self.old.files.items j) }
        ensures cause { HasCause self.old.faults self.new.faults result }
        ensures only { OnErr result (result ≡ Err DirError.Fault) }
    {
        match self.write_held() {
            Ok(()) => {
                let written = write_at(&mut self.files, at, bytes);
                self.answer(written)
            }
            Err(error) => Err(error),
        }
    }

    // Writes what is held back, and syncs the bytes of the open file at a place.
    fn sync_written(&mut self, at: usize) -> Result<(), DirError>
        requires { IsSome (open_name (slice_get self.old.files.items at)) }
        ensures files { (j : ℕ)
            → open_name (slice_get self.new.files.items j)
            ≡ open_name (slice_get self.old.files.items j) }
        ensures cause { HasCause self.old.faults self.new.faults result }
        ensures only { OnErr result (result ≡ Err DirError.Fault) }
    {
        match self.write_held() {
            Ok(()) => {
                let synced = self.sync_bytes(at);
                self.answer(synced)
            }
            Err(error) => Err(error),
        }
    }

    // Syncs the bytes of the open file at a place. A settled one has only grown since: a later read
    // needs its bytes and its length alone.
    fn sync_bytes(&self, at: usize) -> io::Result<()>
        requires { IsSome (open_name (slice_get self.now.files.items at)) }
    {
        let open = open_at(&self.files, at);
        if open.is_settled {
            open.file.sync_data()
        } else {
            open.file.sync_all()
        }
    }

    // Syncs the folder, unless it was since the file at a place was made or opened.
    fn settle(&mut self, at: usize) -> Result<(), DirError>
        requires { IsSome (open_name (slice_get self.old.files.items at)) }
        ensures files { (j : ℕ)
            → open_name (slice_get self.new.files.items j)
            ≡ open_name (slice_get self.old.files.items j) }
        ensures cause { HasCause self.old.faults self.new.faults result }
        ensures only { OnErr result (result ≡ Err DirError.Fault) }
    {
        if !open_at(&self.files, at).is_settled {
            self.sync_folder()?;
            settle_at(&mut self.files, at);
        }
        Ok(())
    }

    // Writes what is held back, and removes the open file at a place, which stays open.
    fn remove_path(&mut self, at: usize) -> Result<(), DirError>
        requires { IsSome (open_name (slice_get self.old.files.items at)) }
        ensures files { (j : ℕ)
            → open_name (slice_get self.new.files.items j)
            ≡ open_name (slice_get self.old.files.items j) }
        ensures cause { HasCause self.old.faults self.new.faults result }
        ensures only { OnErr result (result ≡ Err DirError.Fault) }
    {
        match self.write_held() {
            Ok(()) => {
                let removed = fs::remove_file(&self.rt, open_at(&self.files, at).path.as_str());
                self.answer(removed)
            }
            Err(error) => Err(error),
        }
    }

    // The length of the open file at a place.
    fn length_at(&self, at: usize) -> io::Result<usize>
        requires { IsSome (open_name (slice_get self.now.files.items at)) }
    {
        Ok(open_at(&self.files, at).file.metadata()?.len() as usize)
    }

    // Syncs the folder itself, which holds the names of its files.
    fn sync_folder(&mut self) -> Result<(), DirError>
        ensures files { self.new ≡ record self.old { faults = self.new.faults } }
        ensures cause { HasCause self.old.faults self.new.faults result }
        ensures only { OnErr result (result ≡ Err DirError.Fault) }
    {
        let synced = sync_path(&self.rt, self.path.as_str());
        self.answer(synced)
    }
}

// Syncs the folder of a path.
fn sync_path(rt: &impl Files, path: &str) -> io::Result<()> {
    fs::open(rt, path)?.sync_all()
}

// Makes the folder of a path, and those above it, where they aren't there.
fn make_folder(rt: &impl Files, path: &str) -> io::Result<()> {
    for (end, byte) in path.as_bytes().iter().enumerate() {
        if *byte == b'/' && end > 0 {
            make_in(rt, &path[..end])?;
        }
    }
    make_in(rt, path)
}

// Makes the folder of a path in the one above it, which is synced then, so that a stop leaves the
// new one.
fn make_in(rt: &impl Files, path: &str) -> io::Result<()> {
    match fs::create_dir(rt, path) {
        Ok(()) => sync_path(rt, above(path)),
        Err(error) if error.kind() == ErrorKind::AlreadyExists => Ok(()),
        Err(error) => Err(error),
    }
}

// The path of the folder above that of a path.
fn above(path: &str) -> &str {
    match path.rsplit_once('/') {
        Some(("", _)) => "/",
        Some((above, _)) => above,
        None => ".",
    }
}

// A place where no file is open, one more where there is none.
fn free_place<F: Drop, A: Allocator>(
    files: &mut Vec<Option<OpenFile<F, A>>, A>,
) -> Result<usize, AllocError>
    ensures free { IfOk result (λ at. slice_get files.new.items at ≡ Some None) }
    ensures same { (j : ℕ)
        → open_name (slice_get files.new.items j) ≡ open_name (slice_get files.old.items j) }
{
    match first_free(files) {
        Some(at) => Ok(at),
        None => add_place(files),
    }
}

// The first place where no file is open.
fn first_free<F, A: Allocator>(files: &Vec<Option<OpenFile<F, A>>, A>) -> Option<usize>
    ensures { IfSome result (λ at. slice_get files.now.items at ≡ Some None) }
{
    for (at, place) in files.iter().enumerate() {
        match place {
            Some(_) => {}
            None => return Some(at),
        }
    }
    None
}

// One place more, where no file is open.
fn add_place<F: Drop, A: Allocator>(
    files: &mut Vec<Option<OpenFile<F, A>>, A>,
) -> Result<usize, AllocError>
    ensures free { IfOk result (λ at. slice_get files.new.items at ≡ Some None) }
    ensures same { (j : ℕ)
        → open_name (slice_get files.new.items j) ≡ open_name (slice_get files.old.items j) }
{
    let at = files.len();
    files.push(None)?;
    Ok(at)
}

// Puts an open file at a place where none is.
fn put_at<F: Drop, A: Allocator>(
    files: &mut Vec<Option<OpenFile<F, A>>, A>,
    at: usize,
    file: OpenFile<F, A>,
) -> FileNo
    requires { slice_get files.old.items at ≡ Some None }
    ensures here { open_name (slice_get files.new.items result.0) ≡ Some file.name }
    ensures others { (j : ℕ) → IsSome (open_name (slice_get files.old.items j))
        → open_name (slice_get files.new.items j) ≡ open_name (slice_get files.old.items j) }
{
    files[at] = Some(file);
    FileNo(at)
}

// The place of the open file of this name.
fn place_of<F, A: Allocator>(files: &Vec<Option<OpenFile<F, A>>, A>, name: &[u8]) -> Option<usize>
    ensures { IfSome result (λ at. open_name (slice_get files.now.items at) ≡ Some name.now) }
{
    for (at, place) in files.iter().enumerate() {
        if let Some(open) = place
            && open.name.as_bytes() == name
        {
            return Some(at);
        }
    }
    None
}

// The open file at a place.
fn open_at<F, A: Allocator>(files: &Vec<Option<OpenFile<F, A>>, A>, at: usize) -> &OpenFile<F, A>
    requires { IsSome (open_name (slice_get files.now.items at)) }
{
    match &files[at] {
        Some(open) => open,
        None => unreachable!(),
    }
}

// Writes to the end of the open file at a place.
fn write_at<F: Write, A: Allocator>(
    files: &mut Vec<Option<OpenFile<F, A>>, A>,
    at: usize,
    bytes: &[u8],
) -> io::Result<()>
    requires { IsSome (open_name (slice_get files.old.items at)) }
    ensures { (j : ℕ) → open_name (slice_get files.new.items j)
        ≡ open_name (slice_get files.old.items j) }
{
    match &mut files[at] {
        Some(open) => open.file.write_all(bytes),
        None => unreachable!(),
    }
}

// The same, where a file is open there.
fn write_there<F: Write, A: Allocator>(
    files: &mut Vec<Option<OpenFile<F, A>>, A>,
    at: usize,
    bytes: &[u8],
) -> io::Result<()>
    ensures { (j : ℕ) → open_name (slice_get files.new.items j)
        ≡ open_name (slice_get files.old.items j) }
{
    if at >= files.len() {
        return Ok(());
    }
    match &mut files[at] {
        Some(open) => open.file.write_all(bytes),
        None => Ok(()),
    }
}

// Notes that the folder was synced since the file at a place was made or opened.
fn settle_at<F, A: Allocator>(files: &mut Vec<Option<OpenFile<F, A>>, A>, at: usize)
    requires { IsSome (open_name (slice_get files.old.items at)) }
    ensures { (j : ℕ) → open_name (slice_get files.new.items j)
        ≡ open_name (slice_get files.old.items j) }
{
    match &mut files[at] {
        Some(open) => open.is_settled = true,
        None => unreachable!(),
    }
}

// Closes the file at a place.
fn close_at<F: Drop, A: Allocator>(files: &mut Vec<Option<OpenFile<F, A>>, A>, at: usize)
    requires { IsSome (open_name (slice_get files.old.items at)) }
    ensures closed { open_name (slice_get files.new.items at) ≡ None }
    ensures others { (j : ℕ) → j ≢ at
        → open_name (slice_get files.new.items j) ≡ open_name (slice_get files.old.items j) }
{
    files[at] = None;
}

impl<R, A> Dir for RealDir<R, A>
where
    R: Files + Alloc + Clone + Drop,
    R::File: FileExt + Drop,
    R::A: Clone,
    A: Allocator + Copy,
{
    ghost use Rattle.std.specs.Prelude.{◌-◌, ◌^◌, slice_get, false};
    ghost use Rattle.disk_files.specs.Real.{open_name, unknown};

    ghost is_honest = { λ _. ⊥ };

    ghost history = { λ _. unknown };

    ghost fails_after = { λ _ _. false };

    ghost opened = { λ d file. open_name (slice_get d.files.items file.0) };

    ghost bytes_left = { λ _ _. 2 ^ 64 - 1 };

    ghost fault_count = { λ d. d.faults };

    ghost reads_stay = { λ _ honest. absurd honest };

    fn create(&mut self, name: &[u8], _room: usize) -> Result<FileNo, DirError> {
        let mut how = OpenOptions::new();
        how.read(true).append(true).create_new(true);
        self.open_as(&how, name, ErrorKind::AlreadyExists, DirError::NameTaken)
    }

    fn open(&mut self, name: &[u8]) -> Result<FileNo, DirError> {
        if let Some(at) = place_of(&self.files, name) {
            return Ok(FileNo(at));
        }
        let mut how = OpenOptions::new();
        how.read(true).append(true);
        self.open_as(&how, name, ErrorKind::NotFound, DirError::NoSuchFile)
    }

    fn reserve(&mut self, _file: FileNo, _room: usize) -> Result<(), AllocError> {
        Ok(())
    }

    fn list<B: Allocator + Copy>(&mut self, alloc: B) -> Result<Vec<FileName<B>, B>, DirError> {
        match names_in(alloc, &self.rt, self.path.as_str()) {
            Ok(names) => Ok(names),
            Err(error) => Err(self.refuse_by(error.kind())),
        }
    }

    fn append(&mut self, file: FileNo, bytes: &[u8], writing: Writing) -> Result<(), DirError> {
        self.add_at(file.0, bytes, writing)
    }

    fn sync(&mut self, file: FileNo) -> Result<(), DirError> {
        match self.sync_written(file.0) {
            Ok(()) => self.settle(file.0),
            Err(error) => Err(error),
        }
    }

    fn read_at(&mut self, file: FileNo, at: usize, into: &mut [u8]) -> Result<usize, DirError> {
        match self.write_held() {
            Ok(()) => {
                let read = read_all(&open_at(&self.files, file.0).file, at, into);
                self.answer(read)
            }
            Err(error) => Err(error),
        }
    }

    fn length(&mut self, file: FileNo) -> Result<usize, DirError> {
        match self.write_held() {
            Ok(()) => {
                let length = self.length_at(file.0);
                self.answer(length)
            }
            Err(error) => Err(error),
        }
    }

    fn close(&mut self, file: FileNo) {
        // As uncertain as all that wasn't synced.
        let _ = self.hand_over();
        close_at(&mut self.files, file.0);
    }

    fn remove(&mut self, file: FileNo) -> Result<(), DirError> {
        match self.remove_path(file.0) {
            Ok(()) => {
                close_at(&mut self.files, file.0);
                Ok(())
            }
            Err(error) => Err(error),
        }
    }

    fn faults(&self) -> u64 {
        self.faults
    }

    fn was_removed(&self, _name: &[u8]) -> bool {
        false
    }
}

// The names in the folder of this path. A name that is no text is passed over: no call can name it.
fn names_in<B: Allocator + Copy, R: Files + Alloc + Clone + Drop>(
    alloc: B,
    rt: &R,
    path: &str,
) -> io::Result<Vec<FileName<B>, B>>
where
    R::A: Clone,
{
    let mut names = Vec::new(alloc);
    for entry in fs::read_dir(rt, path)? {
        take_entry(&mut names, entry)?;
    }
    Ok(names)
}

// Adds the name of an entry behind the others, if it is a text.
fn take_entry<B: Allocator + Copy, R: Files, E: Allocator>(
    names: &mut Vec<FileName<B>, B>,
    entry: io::Result<DirEntry<R, E>>,
) -> io::Result<()>
where
    R: Drop,
{
    match entry {
        Ok(entry) => add_name(names, entry.file_name().as_bytes()),
        Err(error) if error.kind() == ErrorKind::InvalidFilename => Ok(()),
        Err(error) => Err(error),
    }
}

// Adds a name behind the others.
fn add_name<B: Allocator + Copy>(names: &mut Vec<FileName<B>, B>, name: &[u8]) -> io::Result<()> {
    names.push(FileName::from_slice(*names.allocator(), name)?)?;
    Ok(())
}

// Reads from a place on, until the file or the room ends.
fn read_all<F: FileExt>(file: &F, at: usize, into: &mut [u8]) -> io::Result<usize>
    ensures { IfOk result (λ n. n ≤ length into.old) }
{
    let mut count = 0;
    for _ in 0..u64::MAX {
        match file.read_at(&mut into[count..], (at as u64).wrapping_add(count as u64)) {
            Ok(0) => return Ok(count),
            Ok(n) => count += n,
            Err(error) if error.kind() == ErrorKind::Interrupted => {}
            Err(error) => return Err(error),
        }
    }
    Err(io::Error::from(ErrorKind::TimedOut))
}
