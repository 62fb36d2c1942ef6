//! The generations below a new one: they are opened before it is begun, and removed once it is
//! synced.

ghost use Rattle.std.specs.Prelude.{◌≡◌, ◌⊎◌, ℕ, ◌<◌, ◌≤◌, ◌^◌, List, Some, None, IsSome, OnOk, OnErr, IfOk, Err};
ghost use Rattle.std.specs.Ordering.{nat_cmp};
ghost use Rattle.std.specs.BTreeMap.{get};
ghost use Rattle.disk_files.specs.Disk.{SameDisk, reads};
ghost use Rattle.disk_files.specs.Moments.{Elapses, LeavesOnly, now};
ghost use Rattle.disk_files.specs.Faults.{HasCause};
ghost use Rattle.disk_files.specs.declared.dir.FileNo.{FileNo};
ghost use Rattle.journal_files.specs.Folders.{journal_name};
ghost use Rattle.file_pieces.specs.Adding.{IsLeftOf};
ghost use Rattle.journal_files.specs.Pieces.{AreOlder, ChangesBelow, IsAbove, IsGoneBut};

use crate::pieces::generations;
use disk_files::{Dir, DirError, FileNo};
use numbered_files::numbers;
use std::alloc::Allocator;
use std::collections::BTreeMap;

/// The generations of a journal below a number, opened.
#[derive(Drop)]
pub(crate) struct Older<'a, A: Allocator> {
    path: &'a [u8],
    number: u32,
    files: BTreeMap<u32, FileNo, A>,
}

impl<'a, A: Allocator + Copy> Older<'a, A> {
    /// Opens the generations below this one. The disk stays as it is.
    pub(crate) fn open<D: Dir>(
        alloc: A,
        dir: &mut D,
        path: &'a [u8],
        number: u32,
    ) -> Result<Older<'a, A>, DirError>
        ensures honest { D.is_honest dir.old → D.is_honest dir.new }
        ensures time { D.is_honest dir.old → Elapses (D.history dir.old) (D.history dir.new) }
        ensures same { D.is_honest dir.old
            → SameDisk (now (D.history dir.new)) (now (D.history dir.old)) }
        ensures path { IfOk result (λ older. older.path.now ≡ path.now) }
        ensures number { IfOk result (λ older. older.number ≡ number) }
        ensures files { IfOk result
            (λ older. AreOlder path.now number (D.opened dir.new) older.files) }
        ensures all { D.is_honest dir.old → IfOk result (λ older. (n : ℕ) → 1 ≤ n → n < number
            → IsGoneBut path.now older.files (now (D.history dir.old)) n) }
        ensures others { (other : FileNo) → IsSome (D.opened dir.old other)
            → D.opened dir.new other ≡ D.opened dir.old other }
        ensures cause { HasCause (D.fault_count dir.old) (D.fault_count dir.new) result }
    {
        let mut rest = numbers(alloc, dir, generations(path))?;
        let mut files = BTreeMap::new(alloc);
        while let Some(next) = rest.pop_last() {
            open_below(alloc, dir, path, number, next, &mut files)?;
        }
        Ok(Older {
            path,
            number,
            files,
        })
    }

    /// Removes them. After a `Fault` some may be there.
    pub(crate) fn remove<D: Dir>(self, dir: &mut D) -> Result<(), DirError>
        requires files { AreOlder self.path.now self.number (D.opened dir.old) self.files }
        ensures honest { D.is_honest dir.old → D.is_honest dir.new }
        ensures elsewhere { D.is_honest dir.old
            → ChangesBelow self.entry.path.now self.entry.number (now (D.history dir.old))
            (now (D.history dir.new)) }
        ensures moments { D.is_honest dir.old → LeavesOnly (D.history dir.old) (D.history dir.new)
            (IsLeftOf (ChangesBelow self.entry.path.now self.entry.number
            (now (D.history dir.old)))) }
        ensures gone { D.is_honest dir.old → (n : ℕ) → n < 2 ^ 32
            → IsGoneBut self.entry.path.now self.entry.files (now (D.history dir.old)) n
            → OnOk result (reads (now (D.history dir.new)) (journal_name self.entry.path.now n)
            ≡ None) }
        ensures kept { (other : FileNo) (name : List ℕ)
            → IsAbove self.entry.path.now self.entry.number name
            → D.opened dir.old other ≡ Some name → D.opened dir.new other ≡ Some name }
        ensures cause { HasCause (D.fault_count dir.old) (D.fault_count dir.new) result }
        ensures only { OnErr result (result ≡ Err DirError.Fault) }
    {
        let mut files = self.files;
        while let Some((_, file)) = files.pop_last() {
            dir.remove(file)?;
        }
        Ok(())
    }
}

// Opens a generation if it is below this one, and adds it to the others.
fn open_below<A: Allocator + Copy, D: Dir>(
    alloc: A,
    dir: &mut D,
    path: &[u8],
    number: u32,
    next: u32,
    files: &mut BTreeMap<u32, FileNo, A>,
) -> Result<(), DirError>
    requires files { AreOlder path.now number (D.opened dir.old) files.old }
    ensures honest { D.is_honest dir.old → D.is_honest dir.new }
    ensures time { D.is_honest dir.old → Elapses (D.history dir.old) (D.history dir.new) }
    ensures same { D.is_honest dir.old
        → SameDisk (now (D.history dir.new)) (now (D.history dir.old)) }
    ensures files { OnOk result (AreOlder path.now number (D.opened dir.new) files.new) }
    ensures added { OnOk result (next < number → IsSome (get nat_cmp files.new next)) }
    ensures others { OnOk result
        ((n : ℕ) → IsSome (get nat_cmp files.old n) → IsSome (get nat_cmp files.new n)) }
    ensures stays_open { (other : FileNo) → IsSome (D.opened dir.old other)
        → D.opened dir.new other ≡ D.opened dir.old other }
    ensures cause { HasCause (D.fault_count dir.old) (D.fault_count dir.new) result }
{
    if next >= number {
        return Ok(());
    }
    let name = generations(path).name(alloc, next)?;
    let file = dir.open(&name)?;
    let _ = files.insert(next, file)?;
    Ok(())
}
