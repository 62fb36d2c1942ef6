//! A file of a folder in memory.

ghost use Rattle.std.specs.Prelude.{◌≡◌, ◌↔◌, IsTrue, ◌+◌, ◌≤◌, ◌<◌, true, false, not, List, ℕ, length, position, Some, None, IsSome, is_some, IfSome, IfNone, IfOk, OnOk, OnErr, slice_get, vec_len};
ghost use Rattle.std.specs.Str.{bytes_eq};
ghost use Rattle.disk_files.specs.Disk.{new_file, with_bytes, flushed, unlinked, read_of, after_stop, WasRemoved};
ghost use Rattle.disk_files.specs.declared.keep.Keep.TheVariants.{Last};
ghost use Rattle.disk_files.specs.Stop.{left_of, name_at};
ghost use Rattle.disk_files.specs.Stopped.{stopped, cut_to, left_state, StoppedTo, those_there};
ghost use Rattle.disk_files.specs.Table.{disk_of, IsSound, name_of, room_of, ChangesAt, SameOpen, SetsOpen};

use crate::FileName;
use std::alloc::{AllocError, Allocator};
use std::marker::Model;
use std::snapshot::Snapshot;

/// A file of a folder in memory. A removed one lets its bytes go: what was written to it is known
/// to the proofs alone.
#[derive(Drop)]
pub struct MemoryFile<A: Allocator> {
    name: FileName<A>,
    bytes: Vec<u8, A>,
    synced: usize,
    is_durable: bool,
    removed: Option<Snapshot<Vec<u8, A>>>,
    is_open: bool,
}

impl<A: Allocator> Model for MemoryFile<A> {
    ghost use Rattle.std.specs.Prelude.{◌-◌, vec_capacity, vec_len, is_some};
    ghost use Rattle.std.specs.Option.{option_map_or};
    ghost use Rattle.disk_files.specs.Entry.{Entry};

    ghost Value = { Entry };

    ghost view = { λ f. record {
      name = f.name;
      state = record {
        written = option_map_or (λ s. s.value.items) f.removed f.bytes.items;
        synced = f.synced;
        is_durable = f.is_durable;
        is_removed = is_some f.removed;
      };
      room = vec_capacity f.bytes - vec_len f.bytes;
      is_open = f.is_open;
    } };
}

impl<A: Allocator> MemoryFile<A> {
    /// An empty file of this name, with room for so many bytes, which is open.
    pub fn new(alloc: A, name: &[u8], room: usize) -> Result<MemoryFile<A>, AllocError>
    where
        A: Copy,
        ensures name { IfOk result (λ e. e.name ≡ name.now) }
        ensures state { IfOk result (λ e. e.state ≡ new_file) }
        ensures room { IfOk result (λ e. room ≤ e.room) }
        ensures opened { IfOk result (λ e. e.is_open ≡ true) }
    {
        let mut bytes = Vec::new(alloc);
        bytes.reserve(room)?;
        Ok(MemoryFile {
            name: FileName::from_slice(alloc, name)?,
            bytes,
            synced: 0,
            is_durable: false,
            removed: None,
            is_open: true,
        })
    }

    /// Whether the file has this name.
    pub fn is_named(&self, name: &[u8]) -> bool
        ensures { result ≡ bytes_eq self.now.name name.now }
    {
        self.name.as_bytes() == name
    }

    /// The bytes of its name.
    pub fn name(&self) -> &[u8]
        ensures { result.now ≡ self.now.name }
    {
        self.name.as_bytes()
    }

    /// Whether it was not removed.
    pub fn is_there(&self) -> bool
        ensures { result ≡ not self.now.state.is_removed }
    {
        self.removed.is_none()
    }

    /// All that was written to it, while it is there.
    pub fn bytes(&self) -> &[u8]
        requires { self.now.state.is_removed ≡ false }
        ensures { result.now ≡ self.now.state.written }
    {
        self.bytes.as_slice()
    }

    fn grow(&mut self, bytes: &[u8])
        requires there { self.old.state.is_removed ≡ false }
        requires room { length bytes.now ≤ self.old.room }
        ensures name { self.new.name ≡ self.old.name }
        ensures state { self.new.state ≡ with_bytes bytes.now self.old.state }
        ensures room { self.old.room ≤ self.new.room + length bytes.now }
        ensures open { self.new.is_open ≡ self.old.is_open }
    {
        if self.bytes.extend_from_slice(bytes).is_err() {
            unreachable!();
        }
    }

    fn flush(&mut self)
        requires there { self.old.state.is_removed ≡ false }
        ensures name { self.new.name ≡ self.old.name }
        ensures state { self.new.state ≡ flushed self.old.state }
        ensures room { self.old.room ≤ self.new.room }
        ensures open { self.new.is_open ≡ self.old.is_open }
    {
        self.synced = self.bytes.len();
        self.is_durable = true;
    }

    fn unlink(&mut self)
    where
        A: Copy,
        requires there { self.old.state.is_removed ≡ false }
        ensures name { self.new.name ≡ self.old.name }
        ensures state { self.new.state ≡ unlinked self.old.state }
        ensures open { self.new.is_open ≡ self.old.is_open }
    {
        self.removed = Some(Snapshot::of(&self.bytes));
        self.bytes = Vec::new(*self.bytes.allocator());
    }

    // What a stop leaves of it, all of which then counts as synced: all, or only what is certainly
    // there. It isn't open then.
    fn stop(&mut self, least: bool)
    where
        A: Copy,
        ensures name { self.new.name ≡ self.old.name }
        ensures state { self.new.state ≡ stopped least self.old.state }
        ensures closed { self.new.is_open ≡ false }
    {
        self.is_open = false;
        if self.removed.is_some() {
            return;
        }
        if least {
            if !self.is_durable {
                self.unlink();
                return;
            }
            self.bytes.truncate(self.synced);
        }
        self.flush();
    }

    // Cuts it to so many bytes, but to no fewer than are synced.
    fn cut(&mut self, n: usize)
        requires there { self.old.state.is_removed ≡ false }
        ensures name { self.new.name ≡ self.old.name }
        ensures state { self.new.state ≡ cut_to n self.old.state }
    {
        self.bytes.truncate(n.max(self.synced));
    }

    fn reserve(&mut self, room: usize) -> Result<(), AllocError>
        ensures name { self.new.name ≡ self.old.name }
        ensures state { self.new.state ≡ self.old.state }
        ensures more { self.old.room ≤ self.new.room }
        ensures room { OnOk result (room ≤ self.new.room) }
        ensures open { self.new.is_open ≡ self.old.is_open }
    {
        self.bytes.reserve(room)?;
        Ok(())
    }

    fn set_open(&mut self, is_open: bool)
        ensures name { self.new.name ≡ self.old.name }
        ensures state { self.new.state ≡ self.old.state }
        ensures room { self.new.room ≡ self.old.room }
        ensures open { self.new.is_open ≡ is_open }
    {
        self.is_open = is_open;
    }
}

/// The place of the file of this name, removed or not.
pub fn place_of<A: Allocator>(files: &Vec<MemoryFile<A>, A>, name: &[u8]) -> Option<usize>
    ensures { result ≡ position (λ e. bytes_eq e.name name.now) files.now.items }
{
    files.iter().position(|file| file.is_named(name))
}

/// The place of the file that reads under this name.
pub fn place_there<A: Allocator>(files: &Vec<MemoryFile<A>, A>, name: &[u8]) -> Option<usize>
    ensures found { IfSome result (λ at. name_of (slice_get files.now.items at) ≡ Some name.now) }
    ensures none { IsSound files.now.items
        → IfNone result (read_of (disk_of files.now.items name.now) ≡ None) }
{
    let at = place_of(files, name)?;
    if files[at].is_there() { Some(at) } else { None }
}

/// Whether the file of this name was removed.
pub fn was_removed_in<A: Allocator>(files: &Vec<MemoryFile<A>, A>, name: &[u8]) -> bool
    ensures { IsSound files.now.items
        → (IsTrue result ↔ WasRemoved (disk_of files.now.items) name.now) }
{
    match place_of(files, name) {
        Some(at) => !files[at].is_there(),
        None => false,
    }
}

/// Adds bytes to the file at a place.
pub fn grow_at<A: Allocator>(files: &mut Vec<MemoryFile<A>, A>, at: usize, bytes: &[u8])
    requires there { IsSome (name_of (slice_get files.old.items at)) }
    requires room { length bytes.now ≤ room_of (slice_get files.old.items at) }
    ensures changed { ChangesAt at (with_bytes bytes.now) files.old.items files.new.items }
    ensures room { room_of (slice_get files.old.items at)
        ≤ room_of (slice_get files.new.items at) + length bytes.now }
    ensures open { SameOpen files.old.items files.new.items }
{
    files[at].grow(bytes);
}

/// Counts all of the file at a place as synced.
pub fn flush_at<A: Allocator>(files: &mut Vec<MemoryFile<A>, A>, at: usize)
    requires there { IsSome (name_of (slice_get files.old.items at)) }
    ensures changed { ChangesAt at flushed files.old.items files.new.items }
    ensures room { room_of (slice_get files.old.items at) ≤ room_of (slice_get files.new.items at) }
    ensures open { SameOpen files.old.items files.new.items }
{
    files[at].flush();
}

/// Removes the file at a place.
pub fn unlink_at<A: Allocator + Copy>(files: &mut Vec<MemoryFile<A>, A>, at: usize)
    requires there { IsSome (name_of (slice_get files.old.items at)) }
    ensures changed { ChangesAt at unlinked files.old.items files.new.items }
    ensures open { SameOpen files.old.items files.new.items }
{
    files[at].unlink();
}

/// Whether a file stands at a place that wasn't removed.
pub fn is_there_at<A: Allocator>(files: &Vec<MemoryFile<A>, A>, at: usize) -> bool
    ensures { result ≡ is_some (name_of (slice_get files.now.items at)) }
{
    match files.get(at) {
        Some(file) => file.is_there(),
        None => false,
    }
}

/// Cuts the file at a place to so many bytes, but to no fewer than are synced.
pub fn cut_at<A: Allocator>(files: &mut Vec<MemoryFile<A>, A>, at: usize, n: usize)
    requires { IsSome (name_of (slice_get files.old.items at)) }
    ensures { ChangesAt at (cut_to n) files.old.items files.new.items }
{
    files[at].cut(n);
}

/// Cuts the file at the place that was written to last, if there is one, to so many bytes, but to
/// no fewer than are synced.
pub fn cut_last<A: Allocator>(files: &mut Vec<MemoryFile<A>, A>, last: Option<usize>, n: usize)
    ensures sound { IsSound files.old.items → IsSound files.new.items }
    ensures left { IsSound files.old.items → (name : List ℕ)
        → left_state false (disk_of files.new.items name)
        ≡ after_stop (left_of (Last n) (name_at files.old.items last) (disk_of files.old.items))
        name }
{
    let Some(at) = last else {
        return;
    };
    if is_there_at(files, at) {
        cut_at(files, at, n);
    }
}

/// Stops each file.
pub fn stop_each<A: Allocator + Copy>(files: &mut Vec<MemoryFile<A>, A>, least: bool)
    ensures { StoppedTo least (length files.old.items) files.old.items files.new.items }
{
    for file in files.iter_mut() {
        file.stop(least);
    }
}

/// Lets go of the files that were removed.
pub fn sweep<A: Allocator>(files: &mut Vec<MemoryFile<A>, A>)
    ensures { files.new.items ≡ those_there files.old.items }
{
    files.retain(|file| file.is_there());
}

/// Makes room for bytes of the file at a place.
pub fn reserve_at<A: Allocator>(
    files: &mut Vec<MemoryFile<A>, A>,
    at: usize,
    room: usize,
) -> Result<(), AllocError>
    requires there { IsSome (name_of (slice_get files.old.items at)) }
    ensures same { ChangesAt at (λ f. f) files.old.items files.new.items }
    ensures more { room_of (slice_get files.old.items at) ≤ room_of (slice_get files.new.items at) }
    ensures room { OnOk result (room ≤ room_of (slice_get files.new.items at)) }
    ensures open { SameOpen files.old.items files.new.items }
{
    files[at].reserve(room)
}

/// Opens or closes the file at a place.
pub fn set_open_at<A: Allocator>(files: &mut Vec<MemoryFile<A>, A>, at: usize, is_open: bool)
    requires there { IsSome (name_of (slice_get files.old.items at)) }
    ensures same { ChangesAt at (λ f. f) files.old.items files.new.items }
    ensures room { room_of (slice_get files.old.items at) ≤ room_of (slice_get files.new.items at) }
    ensures open { SetsOpen at is_open files.old.items files.new.items }
{
    files[at].set_open(is_open);
}
