//! What stands at places of an open file.

ghost use Rattle.std.specs.Prelude.{◌≡◌, ℕ, ◌<◌, ◌^◌, List, Some, IsSome, length, IfOk, IsErrOf};
ghost use Rattle.std.specs.List.{AllByRecursion};
ghost use Rattle.disk_files.specs.Disk.{SameDisk, reads};
ghost use Rattle.disk_files.specs.Moments.{Elapses, now};
ghost use Rattle.disk_files.specs.declared.dir.FileNo.{FileNo};
ghost use Rattle.chunk_journal.specs.Places.{IsWithin, bytes_at};
ghost use Rattle.journal_files.specs.Faults.{HasReason};
ghost use Rattle.journal_files.specs.declared.error.JournalError.{JournalError};

use crate::error::JournalError;
use crate::pieces::PIECE;
use chunk_journal::Extent;
use disk_files::{Dir, FileNo};
use file_pieces::{read_places, room_at};
use std::alloc::Allocator;

/// The bytes at these places, joined. The disk stays as it is. `Damaged` where the file has fewer
/// bytes.
pub(crate) fn read_extents<A: Allocator + Copy, D: Dir>(
    alloc: A,
    dir: &mut D,
    file: FileNo,
    extents: &[Extent],
) -> Result<Vec<u8, A>, JournalError>
    requires { IsSome (D.opened dir.old file) }
    ensures honest { D.is_honest dir.old → D.is_honest dir.new }
    ensures time { D.is_honest dir.old → Elapses (D.history dir.old) (D.history dir.new) }
    ensures same { D.is_honest dir.old
        → SameDisk (now (D.history dir.new)) (now (D.history dir.old)) }
    ensures opened { (other : FileNo) → D.opened dir.new other ≡ D.opened dir.old other }
    ensures bytes { D.is_honest dir.old → (name seen : List ℕ) → D.opened dir.old file ≡ Some name
        → reads (now (D.history dir.old)) name ≡ Some seen → length seen < 2 ^ 64
        → AllByRecursion (IsWithin (length seen)) extents.now
        → IfOk result (λ bytes. bytes.items ≡ bytes_at seen extents.now) }
    ensures whole { D.is_honest dir.old → (name seen : List ℕ) → D.opened dir.old file ≡ Some name
        → reads (now (D.history dir.old)) name ≡ Some seen → length seen < 2 ^ 64
        → AllByRecursion (IsWithin (length seen)) extents.now
        → IsErrOf result JournalError.Damaged → ⊥ }
    ensures not_last { IsErrOf result JournalError.LastGeneration → ⊥ }
    ensures cause { HasReason (D.fault_count dir.old)
        (D.fault_count dir.new) result JournalError.Fault }
{
    let Some(size) = room_at(extents) else {
        return Err(JournalError::Memory);
    };
    let mut bytes = vec![in alloc; 0u8; size]?;
    let mut window = vec![in alloc; 0u8; window_for(extents)]?;
    read_places(dir, file, extents, &mut window, &mut bytes)?;
    Ok(bytes)
}

// How many bytes are read at once. One place alone is read straight into what is answered.
fn window_for(extents: &[Extent]) -> usize
    ensures { 0 < result }
{
    if extents.len() > 1 { PIECE } else { 1 }
}
