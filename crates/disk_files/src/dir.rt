//! A folder as one value: the calls, and what each promises of the disk.

ghost use Rattle.std.specs.Prelude.{◌≡◌, ◌≢◌, ◌⊎◌, ◌↔◌, IsTrue, ℕ, ◌+◌, ◌-◌, ◌≤◌, List, ◌++◌, length, take, drop, min, Bool, Option, Some, None, IsSome, IfOk, OnOk, OnErr, IsErrOf, Contains};
ghost use Rattle.std.specs.List.{IsDistinct};
ghost use Rattle.std.specs.Str.{bytes_eq};
ghost use Rattle.disk_files.specs.Disk.{with_bytes, flushed, unlinked, SameDisk, Makes, Changes, reads, StopLeaves, WasRemoved};
ghost use Rattle.disk_files.specs.Moments.{History, now};
ghost use Rattle.disk_files.specs.Calls.{CallsDevice, LeavesAlone};
ghost use Rattle.disk_files.specs.declared.dir.FileNo.{FileNo};

use std::alloc::{AllocError, AllocFailed, Allocator};
use std::marker::Model;
use thiserror::Error;

/// An open file of a folder.
#[derive(Clone, Copy, PartialEq, Eq)]
pub struct FileNo(pub usize);

/// When bytes that are added to a file are handed to the system.
#[derive(Clone, Copy, PartialEq, Eq)]
pub enum Writing {
    /// Before the call returns: write-through.
    Through,
    /// With the next call for the folder that isn't such an append to the same file, at the latest:
    /// write-back. A process that is killed before takes them with it.
    Back,
}

/// Why a folder refuses a call.
#[derive(Clone, Copy, Debug, Drop, PartialEq, Eq, Error)]
pub enum DirError {
    #[error("out of memory")]
    Memory,
    #[error("the device failed")]
    Fault,
    #[error("no file has this name")]
    NoSuchFile,
    #[error("a file has, or had, this name")]
    NameTaken,
}

impl From<AllocError> for DirError {
    ghost use Rattle.std.specs.Prelude.{◌≡◌};
    ghost use Rattle.disk_files.specs.declared.dir.DirError.TheVariants.{Memory};

    ghost from_gives = { λ _ e. e ≡ Memory };

    fn from(_refused: AllocError) -> DirError {
        DirError::Memory
    }
}

impl<T: Drop> From<AllocFailed<T>> for DirError {
    ghost use Rattle.std.specs.Prelude.{◌≡◌};
    ghost use Rattle.disk_files.specs.declared.dir.DirError.TheVariants.{Memory};

    ghost from_gives = { λ _ e. e ≡ Memory };

    fn from(_refused: AllocFailed<T>) -> DirError {
        DirError::Memory
    }
}

/// The name of a file, which clauses see as its bytes.
#[derive(Drop)]
pub struct FileName<A: Allocator> {
    bytes: Vec<u8, A>,
}

impl<A: Allocator> Model for FileName<A> {
    ghost use Rattle.std.specs.Prelude.{List, ℕ};

    ghost Value = { List ℕ };

    ghost view = { λ n. n.bytes.items };
}

impl<A: Allocator> FileName<A> {
    /// A name of these bytes.
    pub fn from_slice(alloc: A, bytes: &[u8]) -> Result<FileName<A>, AllocError>
        ensures { IfOk result (λ name. name ≡ bytes.now) }
    {
        Ok(FileName {
            bytes: Vec::from_slice(alloc, bytes)?,
        })
    }

    /// The bytes of the name.
    pub fn as_bytes(&self) -> &[u8]
        ensures { result.now ≡ self.now }
    {
        self.bytes.as_slice()
    }
}

/// A folder, whole: its files, and the device under it.
///
/// A clause on bytes holds where the folder `is_honest`. Those on open files, on room and on the
/// count of refusals hold of every folder. A stop may come at any moment, also inside a call: what
/// it may leave is said of each moment's disk.
pub trait Dir {
    /// What is read is what was written, and a stop leaves no more and no less than the disk model
    /// says.
    /// Of a real folder this isn't known.
    ghost is_honest: { Self → Type 0 };

    /// The disk at each moment up to this one.
    ghost history: { Self → History };

    /// Whether the device fails the call that comes after so many more.
    ghost fails_after: { Self → ℕ → Bool };

    /// The name of an open file.
    ghost opened: { Self → FileNo → Option (List ℕ) };

    /// For how many more bytes an open file has room.
    ghost bytes_left: { Self → FileNo → ℕ };

    /// How many calls were refused for another reason than memory.
    ghost fault_count: { Self → ℕ };

    /// Makes an empty file, with room for so many bytes. `NameTaken`: a file has this name, or had
    /// it and was removed. After another error the file may be there all the same, but for
    /// `Memory`, which changes nothing.
    fn create(&mut self, name: &[u8], room: usize) -> Result<FileNo, DirError>
        ensures device { CallsDevice is_honest history fails_after fault_count self.old self.new
            result }
        ensures ok { is_honest self.old
            → OnOk result (Makes name.now (now (history self.old)) (now (history self.new))) }
        ensures err { is_honest self.old
            → OnErr result (SameDisk (now (history self.new)) (now (history self.old))
            ⊎ Makes name.now (now (history self.old)) (now (history self.new))) }
        ensures opened { IfOk result (λ file. opened self.new file ≡ Some name.now) }
        ensures others { (other : FileNo) → IsSome (opened self.old other)
            → opened self.new other ≡ opened self.old other }
        ensures room { IfOk result (λ file. room ≤ bytes_left self.new file) }
        ensures other_room { (other : FileNo) → IsSome (opened self.old other)
            → bytes_left self.old other ≤ bytes_left self.new other }
        ensures memory { is_honest self.old → IsErrOf result DirError.Memory
            → SameDisk (now (history self.new)) (now (history self.old)) }
        ensures taken { is_honest self.old → IsErrOf result DirError.NameTaken
            → IsSome (now (history self.old) name.now) }
        ensures never_missing { result ≢ Err DirError.NoSuchFile };

    /// Opens a file that is there. `NoSuchFile`: no file reads under this name. No error changes
    /// the disk.
    fn open(&mut self, name: &[u8]) -> Result<FileNo, DirError>
        ensures device { CallsDevice is_honest history fails_after fault_count self.old self.new
            result }
        ensures same { is_honest self.old
            → SameDisk (now (history self.new)) (now (history self.old)) }
        ensures ok { is_honest self.old
            → OnOk result (IsSome (reads (now (history self.old)) name.now)) }
        ensures opened { IfOk result (λ file. opened self.new file ≡ Some name.now) }
        ensures others { (other : FileNo) → IsSome (opened self.old other)
            → opened self.new other ≡ opened self.old other }
        ensures other_room { (other : FileNo) → IsSome (opened self.old other)
            → bytes_left self.old other ≤ bytes_left self.new other }
        ensures missing { is_honest self.old → IsErrOf result DirError.NoSuchFile
            → (reads (now (history self.old)) name.now ≡ None) }
        ensures never_taken { result ≢ Err DirError.NameTaken };

    /// Makes room for so many more bytes of an open file. The disk isn't touched, so a device's
    /// failure can't show here.
    fn reserve(&mut self, file: FileNo, room: usize) -> Result<(), AllocError>
        requires { IsSome (opened self.old file) }
        ensures alone { LeavesAlone is_honest history fault_count self.old self.new }
        ensures room { OnOk result (room ≤ bytes_left self.new file) }
        ensures opened { (other : FileNo) → opened self.new other ≡ opened self.old other }
        ensures other_room { (other : FileNo)
            → bytes_left self.old other ≤ bytes_left self.new other }
        ensures fault { is_honest self.old → (k : ℕ)
            → fails_after self.new k ≡ fails_after self.old k };

    /// The names of the files that are there, each once, in no certain order.
    fn list<B: Allocator + Copy>(&mut self, alloc: B) -> Result<Vec<FileName<B>, B>, DirError>
        ensures device { CallsDevice is_honest history fails_after fault_count self.old self.new
            result }
        ensures same { is_honest self.old
            → SameDisk (now (history self.new)) (now (history self.old)) }
        ensures names { is_honest self.old
            → IfOk result (λ names. (name : List ℕ)
            → (Contains names.items name ↔ IsSome (reads (now (history self.old)) name))) }
        ensures once { is_honest self.old → IfOk result (λ names. IsDistinct bytes_eq names.items) }
        ensures opened { (other : FileNo) → opened self.new other ≡ opened self.old other }
        ensures other_room { (other : FileNo)
            → bytes_left self.old other ≤ bytes_left self.new other }
        ensures only { OnErr result
            ((result ≡ Err DirError.Memory) ⊎ (result ≡ Err DirError.Fault)) };

    /// Adds bytes at an open file's end. After a `Fault` a beginning of them may be there.
    fn append(&mut self, file: FileNo, bytes: &[u8], writing: Writing) -> Result<(), DirError>
        requires open { IsSome (opened self.old file) }
        requires room { length bytes.now ≤ bytes_left self.old file }
        ensures device { CallsDevice is_honest history fails_after fault_count self.old self.new
            result }
        ensures ok { is_honest self.old → (name : List ℕ) → opened self.old file ≡ Some name
            → OnOk result (Changes name (with_bytes bytes.now) (now (history self.old))
            (now (history self.new))) }
        ensures err { is_honest self.old → (name : List ℕ) → opened self.old file ≡ Some name
            → OnErr result ((n : ℕ)
            × Changes name (with_bytes (take n bytes.now)) (now (history self.old))
            (now (history self.new))) }
        ensures opened { (other : FileNo) → opened self.new other ≡ opened self.old other }
        ensures room_left { bytes_left self.old file ≤ bytes_left self.new file + length bytes.now }
        ensures other_room { (other : FileNo) → other ≢ file
            → bytes_left self.old other ≤ bytes_left self.new other }
        ensures only { OnErr result (result ≡ Err DirError.Fault) };

    /// After its `Ok` each stop leaves the file, with all that was written to it. A `Fault` changes
    /// nothing.
    fn sync(&mut self, file: FileNo) -> Result<(), DirError>
        requires { IsSome (opened self.old file) }
        ensures device { CallsDevice is_honest history fails_after fault_count self.old self.new
            result }
        ensures ok { is_honest self.old → (name : List ℕ) → opened self.old file ≡ Some name
            → OnOk result (Changes name flushed (now (history self.old)) (now (history self.new))) }
        ensures err { is_honest self.old
            → OnErr result (SameDisk (now (history self.new)) (now (history self.old))) }
        ensures opened { (other : FileNo) → opened self.new other ≡ opened self.old other }
        ensures other_room { (other : FileNo)
            → bytes_left self.old other ≤ bytes_left self.new other }
        ensures only { OnErr result (result ≡ Err DirError.Fault) };

    /// Reads an open file from a place on, as far as the file and `into` reach, and says how many
    /// bytes these are. After a `Fault` nothing is known of what `into` holds.
    fn read_at(&mut self, file: FileNo, at: usize, into: &mut [u8]) -> Result<usize, DirError>
        requires { IsSome (opened self.old file) }
        ensures device { CallsDevice is_honest history fails_after fault_count self.old self.new
            result }
        ensures same { is_honest self.old
            → SameDisk (now (history self.new)) (now (history self.old)) }
        ensures count { is_honest self.old → (name bytes : List ℕ)
            → opened self.old file ≡ Some name → reads (now (history self.old)) name ≡ Some bytes
            → IfOk result (λ n. n ≡ min (length into.old) (length bytes - at)) }
        ensures bytes { is_honest self.old → (name bytes : List ℕ)
            → opened self.old file ≡ Some name → reads (now (history self.old)) name ≡ Some bytes
            → IfOk result (λ n. into.new ≡ take n (drop at bytes) ++ drop n into.old) }
        ensures within { IfOk result (λ n. n ≤ length into.old) }
        ensures opened { (other : FileNo) → opened self.new other ≡ opened self.old other }
        ensures other_room { (other : FileNo)
            → bytes_left self.old other ≤ bytes_left self.new other }
        ensures only { OnErr result (result ≡ Err DirError.Fault) };

    /// The length of an open file, in bytes.
    fn length(&mut self, file: FileNo) -> Result<usize, DirError>
        requires { IsSome (opened self.old file) }
        ensures device { CallsDevice is_honest history fails_after fault_count self.old self.new
            result }
        ensures same { is_honest self.old
            → SameDisk (now (history self.new)) (now (history self.old)) }
        ensures length { is_honest self.old → (name bytes : List ℕ)
            → opened self.old file ≡ Some name → reads (now (history self.old)) name ≡ Some bytes
            → IfOk result (λ n. n ≡ length bytes) }
        ensures opened { (other : FileNo) → opened self.new other ≡ opened self.old other }
        ensures other_room { (other : FileNo)
            → bytes_left self.old other ≤ bytes_left self.new other }
        ensures only { OnErr result (result ≡ Err DirError.Fault) };

    /// Closes an open file, however often it was opened. The disk isn't touched, so a device's
    /// failure can't show here: what wasn't synced is as uncertain as it was.
    fn close(&mut self, file: FileNo)
        requires { IsSome (opened self.old file) }
        ensures alone { LeavesAlone is_honest history fault_count self.old self.new }
        ensures closed { opened self.new file ≡ None }
        ensures others { (other : FileNo) → other ≢ file
            → opened self.new other ≡ opened self.old other }
        ensures other_room { (other : FileNo) → other ≢ file
            → bytes_left self.old other ≤ bytes_left self.new other }
        ensures fault { is_honest self.old
            → (k : ℕ) → fails_after self.new k ≡ fails_after self.old k };

    /// Removes an open file, and closes it. After a `Fault` it may have been removed.
    fn remove(&mut self, file: FileNo) -> Result<(), DirError>
        requires { IsSome (opened self.old file) }
        ensures device { CallsDevice is_honest history fails_after fault_count self.old self.new
            result }
        ensures ok { is_honest self.old → (name : List ℕ) → opened self.old file ≡ Some name
            → OnOk result (Changes name unlinked (now (history self.old))
            (now (history self.new))) }
        ensures err { is_honest self.old → (name : List ℕ) → opened self.old file ≡ Some name
            → OnErr result (SameDisk (now (history self.new)) (now (history self.old))
            ⊎ Changes name unlinked (now (history self.old)) (now (history self.new))) }
        ensures closed { OnOk result (opened self.new file ≡ None) }
        ensures others { (other : FileNo) → other ≢ file
            → opened self.new other ≡ opened self.old other }
        ensures other_room { (other : FileNo) → other ≢ file
            → bytes_left self.old other ≤ bytes_left self.new other }
        ensures only { OnErr result (result ≡ Err DirError.Fault) };

    /// How many calls were refused for another reason than memory, up to the greatest number of its
    /// type.
    fn faults(&self) -> u64
        ensures { result ≡ fault_count self.now };

    /// Whether a file of this name was removed, so that none can be made under it again. The device
    /// isn't touched. A folder of the system makes a removed name again, and answers no.
    fn was_removed(&self, name: &[u8]) -> bool
        ensures { is_honest self.now
            → (IsTrue result ↔ WasRemoved (now (history self.now)) name.now) };

    /// The folder as it reads is one that a stop may leave.
    ghost reads_stay: { (d : Self) → is_honest d
        → StopLeaves (now (history d)) (reads (now (history d))) };
}
