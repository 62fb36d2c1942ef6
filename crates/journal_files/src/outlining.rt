//! What the file of a generation means. It is read by pieces, and its entries aren't kept.

ghost use Rattle.std.specs.Prelude.{◌≡◌, ◌≢◌, ◌+◌, ◌<◌, ◌^◌, ◌++◌, ℕ, List, Some, None, Ok, Err, IsSome, IfSome, IfOk, OnOk, length};
ghost use Rattle.disk_files.specs.Disk.{SameDisk, reads};
ghost use Rattle.disk_files.specs.Moments.{Elapses, now};
ghost use Rattle.disk_files.specs.declared.dir.FileNo.{FileNo};
ghost use Rattle.chunk_journal.specs.Feeding.{IsAfter};
ghost use Rattle.chunk_journal.specs.Meaning.{EndsUnsealed, IsDamaged};
ghost use Rattle.chunk_journal.specs.Outlines.{IsOutlined};
ghost use Rattle.file_pieces.specs.Pieces.{HasPart, part_of};
ghost use Rattle.journal_files.specs.Faults.{HasReason};
ghost use Rattle.journal_files.specs.Found.{HasHeard};
ghost use Rattle.journal_files.specs.declared.error.JournalError.{JournalError};

use crate::error::JournalError;
use crate::pieces::PIECE;
use chunk_journal::{Outline, Outlined, ReplayError};
use disk_files::{Dir, FileNo};
use file_pieces::read_exact;
use std::alloc::Allocator;

/// All that the file has, fed to an outline. The disk stays as it is. `Damaged` too where the file
/// gets shorter.
pub(crate) fn feed_file<A: Allocator + Copy, D: Dir>(
    alloc: A,
    dir: &mut D,
    file: FileNo,
) -> Result<Outline<A>, JournalError>
    requires { IsSome (D.opened dir.old file) }
    ensures honest { D.is_honest dir.old → D.is_honest dir.new }
    ensures time { D.is_honest dir.old → Elapses (D.history dir.old) (D.history dir.new) }
    ensures same { D.is_honest dir.old
        → SameDisk (now (D.history dir.new)) (now (D.history dir.old)) }
    ensures opened { (other : FileNo) → D.opened dir.new other ≡ D.opened dir.old other }
    ensures heard { IfOk result HasHeard }
    ensures all { D.is_honest dir.old → (name bytes : List ℕ) → D.opened dir.old file ≡ Some name
        → reads (now (D.history dir.old)) name ≡ Some bytes
        → IfOk result (λ outline. IsAfter outline bytes) }
    ensures small { D.is_honest dir.old → (name bytes : List ℕ) → D.opened dir.old file ≡ Some name
        → reads (now (D.history dir.old)) name ≡ Some bytes → OnOk result (length bytes < 2 ^ 64) }
    ensures damaged { D.is_honest dir.old → (name bytes : List ℕ)
        → D.opened dir.old file ≡ Some name
        → reads (now (D.history dir.old)) name ≡ Some bytes → result ≡ Err JournalError.Damaged
        → IsDamaged bytes }
    ensures not_last { result ≢ Err JournalError.LastGeneration }
    ensures cause { HasReason (D.fault_count dir.old)
        (D.fault_count dir.new) result JournalError.Fault }
{
    let mut outline = Outline::new(alloc);
    let len = dir.length(file)? as u64;
    let most = len.min(PIECE as u64);
    let mut buffer = vec![in alloc; 0u8; most as usize]?;
    let mut done: u64 = 0;
    while done < len {
        let next = (buffer.len() as u64).min(len - done);
        let (part, _) = buffer.split_at_mut(next as usize);
        feed_part(dir, file, done, &mut outline, part)?;
        done += next;
    }
    Ok(outline)
}

// Feeds an outline what the file has from a place on, as far as `part` has room.
fn feed_part<A: Allocator + Copy, D: Dir>(
    dir: &mut D,
    file: FileNo,
    at: u64,
    outline: &mut Outline<A>,
    part: &mut [u8],
) -> Result<(), JournalError>
    requires open { IsSome (D.opened dir.old file) }
    requires few { outline.old.fed + length part.old < 2 ^ 64 }
    ensures honest { D.is_honest dir.old → D.is_honest dir.new }
    ensures time { D.is_honest dir.old → Elapses (D.history dir.old) (D.history dir.new) }
    ensures same { D.is_honest dir.old
        → SameDisk (now (D.history dir.new)) (now (D.history dir.old)) }
    ensures opened { (other : FileNo) → D.opened dir.new other ≡ D.opened dir.old other }
    ensures len { length part.new ≡ length part.old }
    ensures heard { HasHeard outline.old → OnOk result (HasHeard outline.new) }
    ensures fed { OnOk result (outline.new.fed ≡ outline.old.fed + length part.old) }
    ensures all { D.is_honest dir.old → (name bytes seen : List ℕ)
        → D.opened dir.old file ≡ Some name
        → reads (now (D.history dir.old)) name ≡ Some bytes → HasPart bytes at (length part.old)
        → IsAfter outline.old seen
        → OnOk result (IsAfter outline.new (seen ++ part_of bytes at (length part.old))) }
    ensures damaged { D.is_honest dir.old → (name bytes seen : List ℕ)
        → D.opened dir.old file ≡ Some name
        → reads (now (D.history dir.old)) name ≡ Some bytes → HasPart bytes at (length part.old)
        → IsAfter outline.old seen
        → result ≡ Err JournalError.Damaged → IsDamaged seen }
    ensures not_last { result ≢ Err JournalError.LastGeneration }
    ensures cause { HasReason (D.fault_count dir.old)
        (D.fault_count dir.new) result JournalError.Fault }
{
    read_exact(dir, file, at, part)?;
    match outline.feed(part) {
        Ok(()) => Ok(()),
        Err(ReplayError::BadRecord) => Err(JournalError::Damaged),
        Err(ReplayError::Memory | ReplayError::NotSealed) => Err(JournalError::Memory),
    }
}

/// What was fed means: nothing where it ends before a Seal.
pub(crate) fn meaning<A: Allocator + Copy>(
    outline: Outline<A>,
) -> Result<Option<Outlined<A>>, JournalError>
    ensures outlined { (seen : List ℕ) → IsAfter outline seen
        → IfOk result (λ found. IfSome found
        (λ outlined. IsOutlined seen outlined.chunks outlined.places outlined.used)) }
    ensures unsealed { (seen : List ℕ) → IsAfter outline seen → result ≡ Ok None
        → EndsUnsealed seen }
    ensures damaged { (seen : List ℕ) → IsAfter outline seen → result ≡ Err JournalError.Damaged
        → IsDamaged seen }
    ensures no_fault { result ≢ Err JournalError.Fault }
    ensures not_last { result ≢ Err JournalError.LastGeneration }
{
    match outline.finish() {
        Ok(outlined) => Ok(Some(outlined)),
        Err((ReplayError::NotSealed, _)) => Ok(None),
        Err((ReplayError::BadRecord, _)) => Err(JournalError::Damaged),
        Err((ReplayError::Memory, _)) => Err(JournalError::Memory),
    }
}
