//! The pieces in which a generation comes to stand beside the older ones, each a few calls of the
//! folder.

ghost use Rattle.std.specs.Prelude.{◌≡◌, ◌≢◌, ℕ, ◌+◌, ◌-◌, ◌*◌, ◌^◌, ◌<◌, ◌≤◌, List, [], ◌++◌, length, take, Some, None, IsSome, IfSome, OnOk, OnErr, IfOk, Err, IsErrOf};
ghost use Rattle.disk_files.specs.Disk.{SameDisk, Changes, reads};
ghost use Rattle.disk_files.specs.Moments.{Elapses, LeavesOnly, now};
ghost use Rattle.disk_files.specs.Faults.{HasCause};
ghost use Rattle.disk_files.specs.declared.dir.FileNo.{FileNo};
ghost use Rattle.buffer_state.specs.Steps.{settled, reopened};
ghost use Rattle.numbered_files.specs.Names.{file_name};
ghost use Rattle.journal_files.specs.Folders.{journal_name, OpensWithin};
ghost use Rattle.journal_files.specs.JournalLogs.{JournalLog, IsOfSome, new_generation, state_of};
ghost use Rattle.journal_files.specs.Views.{IsOpenIn, HasShortTags};
ghost use Rattle.journal_files.specs.Disks.{Keeps, Recovers, HasNoneFrom, HasAllBelow, HasNoGap};
ghost use Rattle.journal_files.specs.Leftovers.{IsGivenUp};
ghost use Rattle.file_pieces.specs.Adding.{IsLeftOf, Partly};
ghost use Rattle.file_pieces.specs.Pieces.{total_room};
ghost use Rattle.journal_files.specs.Sources.{CanGive, Fills, HasAnyNew, HasSource};
ghost use Rattle.journal_files.specs.Faults.{HasReason};
ghost use Rattle.journal_files.specs.declared.error.JournalError.{JournalError};
ghost use Rattle.journal_files.specs.Pieces.{AnswersFor, HasNew, IsTakenAway, IsUnfinished, IsSealing, sealed};

use crate::error::JournalError;
use crate::journal::Journal;
use crate::placing::Placing;
use crate::spelling::{Told, tell_chunks};
use buffer_state::Chunks;
use chunk_journal::Places;
use disk_files::{Dir, DirError, FileNo, Writing};
use file_pieces::{Piece, PieceError, add_pieces, room_of};
use numbered_files::Family;
use std::alloc::{AllocError, Allocator};

/// The files of a buffer's journal.
pub(crate) fn generations(path: &[u8]) -> Family<'_>
    ensures { (n : ℕ) → file_name result n ≡ journal_name path.now n }
{
    Family {
        path,
        kind: b"journal",
    }
}

/// Writes a generation that begins with these chunks, and syncs it. Their entries are copied from
/// the file that there is, where they lie at these places. All memory is asked for before the
/// folder is changed.
///
/// After an error the new file is removed again: it stays where the device failed in making it, or
/// fails in removing it too. After `Memory` nothing changed. `Damaged`: the file has fewer bytes
/// than that.
pub(crate) fn begin<A: Allocator + Copy, D: Dir>(
    alloc: A,
    dir: &mut D,
    path: &[u8],
    number: u32,
    chunks: &Chunks<A>,
    from: Option<FileNo>,
    places: &Places<A>,
) -> Result<Journal<A>, JournalError>
    requires tags { HasShortTags chunks.now }
    requires first { 1 ≤ number }
    requires source { IfSome from (λ file. IsSome (D.opened dir.old file)) }
    ensures honest { D.is_honest dir.old → D.is_honest dir.new }
    ensures ok { D.is_honest dir.old → HasNoneFrom path.now (now (D.history dir.old)) number
        → HasSource (D.opened dir.old) (now (D.history dir.old))
        (journal_name path.now number) from places.now chunks.now
        → IfOk result (λ journal. Keeps journal (now (D.history dir.new))
        (new_generation chunks.now)) }
    // A stop at any moment of the call leaves a folder that opens so.
    ensures moments { D.is_honest dir.old → (t : JournalLog)
        → Recovers path.now (now (D.history dir.old)) t
        → HasNoneFrom path.now (now (D.history dir.old)) number → IsOfSome t (reopened chunks.now)
        → HasSource (D.opened dir.old) (now (D.history dir.old))
        (journal_name path.now number) from places.now chunks.now
        → LeavesOnly (D.history dir.old) (D.history dir.new) (OpensWithin path.now t) }
    ensures gap { D.is_honest dir.old → HasNoneFrom path.now (now (D.history dir.old)) number
        → HasAllBelow path.now (now (D.history dir.old)) number
        → HasNoGap path.now (now (D.history dir.new)) }
    ensures left { D.is_honest dir.old
        → HasSource (D.opened dir.old) (now (D.history dir.old))
        (journal_name path.now number) from places.now chunks.now
        → OnErr result (IsGivenUp (D.fault_count dir.old) (D.fault_count dir.new)
        (journal_name path.now number) (now (D.history dir.old)) (now (D.history dir.new))) }
    ensures whole { D.is_honest dir.old
        → HasSource (D.opened dir.old) (now (D.history dir.old))
        (journal_name path.now number) from places.now chunks.now
        → IsErrOf result JournalError.Damaged → ⊥ }
    ensures not_last { IsErrOf result JournalError.LastGeneration → ⊥ }
    ensures there { D.is_honest dir.old
        → OnOk result (IsSome (reads (now (D.history dir.new)) (journal_name path.now number))) }
    ensures state { OnOk result
        (settled (state_of (new_generation chunks.now)) ≡ reopened chunks.now) }
    ensures memory { D.is_honest dir.old → IsErrOf result JournalError.Memory
        → SameDisk (now (D.history dir.new)) (now (D.history dir.old)) }
    ensures elsewhere { D.is_honest dir.old → (name : List ℕ) → name ≢ journal_name path.now number
        → now (D.history dir.new) name ≡ now (D.history dir.old) name }
    ensures path { IfOk result (λ journal. journal.path ≡ path.now) }
    ensures number { IfOk result (λ journal. journal.number ≡ number) }
    ensures open { IfOk result (λ journal. IsOpenIn journal (D.opened dir.new)) }
    ensures others { OnOk result ((other : FileNo) → IsSome (D.opened dir.old other)
        → D.opened dir.new other ≡ D.opened dir.old other) }
    ensures kept { (other : FileNo) (name : List ℕ) → D.opened dir.old other ≡ Some name
        → name ≢ journal_name path.now number
        → D.opened dir.new other ≡ Some name }
    ensures cause { HasReason (D.fault_count dir.old)
        (D.fault_count dir.new) result JournalError.Fault }
{
    let told = tell_chunks(alloc, chunks, places)?;
    let mut prepared = prepare(alloc, path, number, &told)?;
    let file = make(
        dir,
        &prepared.name,
        from,
        &told.pieces,
        told.seal.len(),
        &mut prepared.buffer,
    )?;
    match seal_with(dir, file, &told.seal) {
        Ok(()) => Ok(Journal {
            path: prepared.path,
            number,
            file,
            len: prepared.len,
            ready: Vec::new(alloc),
            places: told.places,
            placing: Placing::Stays,
        }),
        Err(refused) => Err(give_up(dir, file, JournalError::from(refused))),
    }
}

// What a generation is begun with beside what it tells: the memory that this takes, and how many
// bytes it will have.
#[derive(Drop)]
struct Prepared<A: Allocator> {
    path: Vec<u8, A>,
    name: Vec<u8, A>,
    buffer: Vec<u8, A>,
    len: u64,
}

// Makes that ready. The error is want of memory, of a number for the length too.
fn prepare<A: Allocator + Copy>(
    alloc: A,
    path: &[u8],
    number: u32,
    told: &Told<'_, A>,
) -> Result<Prepared<A>, AllocError>
    ensures path { IfOk result (λ prepared. prepared.path.items ≡ path.now) }
    ensures name { IfOk result (λ prepared. prepared.name.items ≡ journal_name path.now number) }
    ensures some { IfOk result (λ prepared. 0 < length prepared.buffer.items) }
    ensures len { IfOk result
        (λ prepared. prepared.len ≡ told.now.len + length told.now.seal.items) }
{
    let kept = Vec::from_slice(alloc, path)?;
    let name = generations(path).name(alloc, number)?;
    let buffer = vec![in alloc; 0u8; copied_at_once(told.len)]?;
    let len = whole_len(told)?;
    Ok(Prepared {
        path: kept,
        name,
        buffer,
        len,
    })
}

// Removes a file that isn't whole. What is answered is the refusal, or `Fault` where the device
// fails here.
fn give_up<D: Dir>(dir: &mut D, file: FileNo, refused: JournalError) -> JournalError
    requires open { IsSome (D.opened dir.old file) }
    ensures honest { D.is_honest dir.old → D.is_honest dir.new }
    ensures time { D.is_honest dir.old → Elapses (D.history dir.old) (D.history dir.new) }
    ensures gone { D.is_honest dir.old → (name : List ℕ) → D.opened dir.old file ≡ Some name
        → IsTakenAway (D.fault_count dir.old) (D.fault_count dir.new) name
        (now (D.history dir.old)) (now (D.history dir.new)) }
    ensures answer { AnswersFor (D.fault_count dir.old) (D.fault_count dir.new) refused result }
    ensures others { (other : FileNo) → other ≢ file
        → D.opened dir.new other ≡ D.opened dir.old other }
{
    match dir.remove(file) {
        Ok(()) => refused,
        Err(_) => JournalError::Fault,
    }
}

/// How many bytes are read at once, at most.
pub(crate) const PIECE: usize = 65_536;

// How many bytes are copied at once, where there are so many to be told.
fn copied_at_once(len: u64) -> usize
    ensures some { 0 < result }
    ensures most { result ≤ 65536 }
{
    (len.min(PIECE as u64) as usize).max(1)
}

// How many bytes these are with the Seal, if that is a number of 64 bits.
fn whole_len<A: Allocator>(told: &Told<'_, A>) -> Result<u64, AllocError>
    ensures { IfOk result (λ len. len ≡ told.now.len + length told.now.seal.items) }
{
    match told.len.checked_add(told.seal.len() as u64) {
        Some(len) => Ok(len),
        None => Err(AllocError),
    }
}

// Makes a file of these pieces, and with room for so many bytes more. A stop leaves some beginning
// of them, or no file. After an error the file is given up.
fn make<A: Allocator, D: Dir>(
    dir: &mut D,
    name: &[u8],
    from: Option<FileNo>,
    pieces: &[Piece<'_, A>],
    more: usize,
    buffer: &mut [u8],
) -> Result<FileNo, JournalError>
    requires source { IfSome from (λ file. IsSome (D.opened dir.old file)) }
    requires some { 0 < length buffer.old }
    ensures honest { D.is_honest dir.old → D.is_honest dir.new }
    ensures ok { D.is_honest dir.old → (bytes : List ℕ)
        → CanGive (D.opened dir.old) (now (D.history dir.old)) name.now from pieces.now bytes
        → OnOk result (HasNew name.now bytes (now (D.history dir.old)) (now (D.history dir.new))) }
    ensures left { D.is_honest dir.old → (bytes : List ℕ)
        → CanGive (D.opened dir.old) (now (D.history dir.old)) name.now from pieces.now bytes
        → OnErr result (IsGivenUp (D.fault_count dir.old) (D.fault_count dir.new) name.now
        (now (D.history dir.old)) (now (D.history dir.new))) }
    ensures moments { D.is_honest dir.old → (bytes : List ℕ)
        → CanGive (D.opened dir.old) (now (D.history dir.old)) name.now from pieces.now bytes
        → LeavesOnly (D.history dir.old) (D.history dir.new)
        (IsLeftOf (IsUnfinished name.now bytes (now (D.history dir.old)))) }
    ensures whole { D.is_honest dir.old → (bytes : List ℕ)
        → CanGive (D.opened dir.old) (now (D.history dir.old)) name.now from pieces.now bytes
        → IsErrOf result JournalError.Damaged → ⊥ }
    ensures not_last { IsErrOf result JournalError.LastGeneration → ⊥ }
    ensures any { D.is_honest dir.old
        → OnOk result (HasAnyNew name.now (now (D.history dir.old)) (now (D.history dir.new))) }
    ensures elsewhere { D.is_honest dir.old → (other : List ℕ) → other ≢ name.now
        → now (D.history dir.new) other ≡ now (D.history dir.old) other }
    ensures memory { D.is_honest dir.old → IsErrOf result JournalError.Memory
        → SameDisk (now (D.history dir.new)) (now (D.history dir.old)) }
    ensures opened { IfOk result (λ file. D.opened dir.new file ≡ Some name.now) }
    ensures others { OnOk result ((other : FileNo) → IsSome (D.opened dir.old other)
        → D.opened dir.new other ≡ D.opened dir.old other) }
    ensures kept { (other : FileNo) (own : List ℕ) → D.opened dir.old other ≡ Some own
        → own ≢ name.now
        → D.opened dir.new other ≡ Some own }
    ensures room { IfOk result (λ file. more ≤ D.bytes_left dir.new file) }
    ensures cause { HasReason (D.fault_count dir.old)
        (D.fault_count dir.new) result JournalError.Fault }
{
    let room = room_with(pieces, more)?;
    let file = dir.create(name, room)?;
    match fill(dir, from, file, pieces, buffer) {
        Ok(()) => Ok(file),
        Err(refused) => Err(give_up(dir, file, JournalError::from(refused))),
    }
}

// How much room the pieces need, and so many bytes more.
fn room_with<A: Allocator>(pieces: &[Piece<'_, A>], more: usize) -> Result<usize, AllocError>
    ensures { IfOk result (λ room. room ≡ total_room pieces.now + more) }
{
    let Some(room) = room_of(pieces) else {
        return Err(AllocError);
    };
    match room.checked_add(more) {
        Some(all) => Ok(all),
        None => Err(AllocError),
    }
}

// Adds the pieces, if there is a file that they are copied from.
fn fill<A: Allocator, D: Dir>(
    dir: &mut D,
    from: Option<FileNo>,
    to: FileNo,
    pieces: &[Piece<'_, A>],
    buffer: &mut [u8],
) -> Result<(), PieceError>
    requires source { IfSome from (λ file. IsSome (D.opened dir.old file)) }
    requires open { IsSome (D.opened dir.old to) }
    requires room { total_room pieces.now ≤ D.bytes_left dir.old to }
    requires some { 0 < length buffer.old }
    ensures { Fills D.is_honest D.history D.opened D.bytes_left D.fault_count from to pieces.now
        dir.old dir.new result }
{
    match from {
        Some(file) => add_pieces(dir, file, to, pieces, buffer),
        None => Ok(()),
    }
}

// Adds these bytes, and syncs the file.
fn seal_with<D: Dir>(dir: &mut D, file: FileNo, bytes: &[u8]) -> Result<(), DirError>
    requires open { IsSome (D.opened dir.old file) }
    requires room { length bytes.now ≤ D.bytes_left dir.old file }
    ensures honest { D.is_honest dir.old → D.is_honest dir.new }
    ensures ok { D.is_honest dir.old → (name : List ℕ) → D.opened dir.old file ≡ Some name
        → OnOk result (Changes name (sealed bytes.now) (now (D.history dir.old))
        (now (D.history dir.new))) }
    ensures err { D.is_honest dir.old → (name : List ℕ) → D.opened dir.old file ≡ Some name
        → OnErr result (Partly name bytes.now (now (D.history dir.old)) (now (D.history dir.new))) }
    ensures moments { D.is_honest dir.old → (name : List ℕ) → D.opened dir.old file ≡ Some name
        → LeavesOnly (D.history dir.old) (D.history dir.new)
        (IsLeftOf (IsSealing name bytes.now (now (D.history dir.old)))) }
    ensures opened { (other : FileNo) → D.opened dir.new other ≡ D.opened dir.old other }
    ensures cause { HasCause (D.fault_count dir.old) (D.fault_count dir.new) result }
    ensures only { OnErr result (result ≡ Err DirError.Fault) }
{
    dir.append(file, bytes, Writing::Through)?;
    dir.sync(file)
}
