//! The files of a family that a folder has.

ghost use Rattle.std.specs.Prelude.{◌≡◌, ◌⊎◌, ◌↔◌, ℕ, ◌≤◌, List, Some, IsSome, IsTrue, IfOk, OnOk, OnErr, IsErrOf};
ghost use Rattle.std.specs.Ordering.{nat_cmp};
ghost use Rattle.std.specs.BTreeSet.{contains};
ghost use Rattle.disk_files.specs.Disk.{SameDisk, reads};
ghost use Rattle.disk_files.specs.Moments.{Elapses, now};
ghost use Rattle.disk_files.specs.Calls.{CallsDevice};
ghost use Rattle.disk_files.specs.Faults.{HasCause};
ghost use Rattle.disk_files.specs.declared.dir.FileNo.{FileNo};
ghost use Rattle.numbered_files.specs.Names.{IsNumber, IsNamed, IsThere};

use crate::family::Family;
use disk_files::{Dir, DirError, FileName, FileNo};
use std::alloc::{AllocError, Allocator};
use std::collections::BTreeSet;

/// The numbers from 1 on of the family's files that are there. The disk stays as it is.
/// The errors are `Memory` and `Fault`.
pub fn numbers<A: Allocator + Copy, D: Dir>(
    alloc: A,
    dir: &mut D,
    family: Family<'_>,
) -> Result<BTreeSet<u32, A>, DirError>
    ensures device { CallsDevice D.is_honest D.history D.fails_after D.fault_count dir.old dir.new
        result }
    ensures same { D.is_honest dir.old
        → SameDisk (now (D.history dir.new)) (now (D.history dir.old)) }
    ensures numbers { D.is_honest dir.old
        → IfOk result (λ found. (n : ℕ)
        → (IsTrue (contains nat_cmp found n)
        ↔ IsThere family.entry (reads (now (D.history dir.old))) n)) }
    ensures opened { (other : FileNo) → D.opened dir.new other ≡ D.opened dir.old other }
    ensures other_room { (other : FileNo)
        → D.bytes_left dir.old other ≤ D.bytes_left dir.new other }
    ensures only { OnErr result ((result ≡ Err DirError.Memory) ⊎ (result ≡ Err DirError.Fault)) }
{
    let names = dir.list(alloc)?;
    match numbers_in(alloc, family, &names) {
        Ok(found) => Ok(found),
        Err(_) => Err(DirError::Memory),
    }
}

// The numbers from 1 on that names of the family have.
fn numbers_in<A: Allocator + Copy, B: Allocator>(
    alloc: A,
    family: Family<'_>,
    names: &[FileName<B>],
) -> Result<BTreeSet<u32, A>, AllocError>
    ensures { IfOk result
        (λ found. (n : ℕ) →
        (IsTrue (contains nat_cmp found n) ↔ IsNamed family.entry names.now n)) }
{
    let mut found = BTreeSet::new(alloc);
    for name in names {
        take_in(&mut found, family, name.as_bytes())?;
    }
    Ok(found)
}

// Adds the number of a name, if it is one of the family, from 1 on.
fn take_in<A: Allocator + Copy>(
    found: &mut BTreeSet<u32, A>,
    family: Family<'_>,
    name: &[u8],
) -> Result<(), AllocError>
    ensures { OnOk result ((n : ℕ) → (IsTrue (contains nat_cmp found.new n)
        ↔ (IsTrue (contains nat_cmp found.old n) ⊎ IsNumber family.entry name.now n))) }
{
    let Some(number) = family.number(name) else {
        return Ok(());
    };
    if number == 0 {
        return Ok(());
    }
    found.insert(number)?;
    Ok(())
}

/// All the bytes of an open file. The disk stays as it is. The errors are `Memory` and `Fault`.
pub fn read_file<A: Allocator, D: Dir>(
    alloc: A,
    dir: &mut D,
    file: FileNo,
) -> Result<Vec<u8, A>, DirError>
    requires { IsSome (D.opened dir.old file) }
    ensures honest { D.is_honest dir.old → D.is_honest dir.new }
    ensures time { D.is_honest dir.old → Elapses (D.history dir.old) (D.history dir.new) }
    ensures same { D.is_honest dir.old
        → SameDisk (now (D.history dir.new)) (now (D.history dir.old)) }
    ensures bytes { D.is_honest dir.old → (name bytes : List ℕ)
        → D.opened dir.old file ≡ Some name → reads (now (D.history dir.old)) name ≡ Some bytes
        → IfOk result (λ found. found.items ≡ bytes) }
    ensures opened { (other : FileNo) → D.opened dir.new other ≡ D.opened dir.old other }
    ensures other_room { (other : FileNo)
        → D.bytes_left dir.old other ≤ D.bytes_left dir.new other }
    ensures cause { HasCause (D.fault_count dir.old) (D.fault_count dir.new) result }
    ensures only { OnErr result ((result ≡ Err DirError.Memory) ⊎ (result ≡ Err DirError.Fault)) }
{
    let len = dir.length(file)?;
    let mut bytes = vec![in alloc; 0u8; len]?;
    let read = dir.read_at(file, 0, &mut bytes)?;
    bytes.truncate(read);
    Ok(bytes)
}
