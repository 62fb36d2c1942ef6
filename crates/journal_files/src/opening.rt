//! Opening a journal: what the folder means, and a new generation that says so.

ghost use Rattle.std.specs.Prelude.{◌≡◌, ◌≢◌, ◌⊎◌, ◌↔◌, ℕ, ◌+◌, ◌-◌, ◌^◌, ◌<◌, ◌≤◌, Some, None, false, Ok, IsSome, IsTrue, IfOk, IfErr, IfSome, Err};
ghost use Rattle.std.specs.Ordering.{nat_cmp};
ghost use Rattle.std.specs.BTreeSet.{contains};
ghost use Rattle.disk_files.specs.Disk.{SameDisk, WasRemoved, reads};
ghost use Rattle.disk_files.specs.Moments.{Elapses, now};
ghost use Rattle.buffer_state.specs.Steps.{reopened};
ghost use Rattle.journal_files.specs.Folders.{journal_name, Opens, IsDamagedFolder};
ghost use Rattle.journal_files.specs.Views.{HasShortTags};
ghost use Rattle.journal_files.specs.Faults.{HasReason};
ghost use Rattle.chunk_journal.specs.Meaning.{EndsUnsealed, IsDamaged};
ghost use Rattle.journal_files.specs.Found.{FindsSource, IsFound, IsLastTaken, IsMeant, IsSo};
ghost use Rattle.journal_files.specs.Openings.{OpensNext, IsFresh, IsRefused, LeavesFolder};
ghost use Rattle.journal_files.specs.declared.error.JournalError.{JournalError};

use crate::error::JournalError;
use crate::journal::Journal;
use crate::older::Older;
use crate::outlining::{feed_file, meaning};
use crate::pieces::{begin, generations};
use buffer_state::Chunks;
use chunk_journal::{Outlined, Places, answers_one_way};
use disk_files::{Dir, FileNo};
use numbered_files::numbers;
use std::alloc::{AllocError, Allocator};
use std::collections::BTreeSet;

/// An opened journal, and what it means.
#[derive(Drop)]
pub struct Opened<A: Allocator> {
    /// The generation that was begun for it.
    pub journal: Journal<A>,
    /// The live chunks and the next serial; the queue goes by rising serial.
    pub chunks: Chunks<A>,
}

impl<A: Allocator + Copy> Journal<A> {
    /// Opens the journal whose files' names begin with this path: takes the greatest generation
    /// that has a whole Seal, passing over those without one, writes what it means as the
    /// generation above the greatest there is, and above those that were removed since the folder
    /// was started, syncs it, and removes the older ones.
    ///
    /// `LastGeneration`: the greatest file there is is number 4,294,967,295; then none is read.
    /// `Damaged`: the greatest generation that isn't passed over has a whole record that can't
    /// stand there, or what is none. These two and `Memory` change nothing.
    /// After `Fault` the folder opens to what it opened to. It reads as before, since the new file
    /// is removed again, but where the device failed in making it or in removing it; or the new
    /// file is whole, and the device failed as older ones were removed.
    pub fn open<D: Dir>(alloc: A, dir: &mut D, path: &[u8]) -> Result<Opened<A>, JournalError>
        ensures opens { D.is_honest dir.old → IfOk result (λ opened.
            OpensNext path.now (now (D.history dir.old))
            (now (D.history dir.new)) opened.journal opened.chunks) }
        ensures fresh { IfOk result
            (λ opened. IsFresh path.now (D.opened dir.new) opened.journal opened.chunks) }
        ensures refused { D.is_honest dir.old → IfErr result (IsRefused path.now
            (D.fault_count dir.old) (D.fault_count dir.new) (now (D.history dir.old))
            (now (D.history dir.new))) }
        // A stop at any moment of the call, whatever it answers, leaves a folder that opens to what
        // one before the call could open to.
        ensures leaves { D.is_honest dir.old
            → LeavesFolder D.is_honest D.history path.now dir.old dir.new }
        ensures cause { HasReason (D.fault_count dir.old)
            (D.fault_count dir.new) result JournalError.Fault }
    {
        // Called for its law alone.
        answers_one_way();
        let found = find(alloc, dir, path)?;
        let number = found.greatest + 1;
        let older = Older::open(alloc, dir, path, number)?;
        let journal = begin(
            alloc,
            dir,
            path,
            number,
            &found.chunks,
            found.file,
            &found.places,
        )?;
        older.remove(dir)?;
        Ok(Opened {
            journal,
            chunks: found.chunks,
        })
    }
}

// What a folder means, where the entries lie in the open file that says so, if there is one, and
// the greatest number that is taken: that of a generation that is there or was removed, 0 where
// there is none. No file is read where the last is there.
#[derive(Drop)]
pub struct Found<A: Allocator> {
    chunks: Chunks<A>,
    places: Places<A>,
    file: Option<FileNo>,
    greatest: u32,
}

// What a generation means, and where the entries lie in its open file.
#[derive(Drop)]
struct Meant<A: Allocator> {
    outlined: Outlined<A>,
    file: FileNo,
}

fn find<A: Allocator + Copy, D: Dir>(
    alloc: A,
    dir: &mut D,
    path: &[u8],
) -> Result<Found<A>, JournalError>
    ensures honest { D.is_honest dir.old → D.is_honest dir.new }
    ensures time { D.is_honest dir.old → Elapses (D.history dir.old) (D.history dir.new) }
    ensures same { D.is_honest dir.old
        → SameDisk (now (D.history dir.new)) (now (D.history dir.old)) }
    ensures state { D.is_honest dir.old
        → IfOk result (λ found. Opens path.now (reads (now (D.history dir.old))) found.chunks) }
    ensures greatest { D.is_honest dir.old
        → IfOk result (λ found. IsLastTaken path.now (now (D.history dir.old)) found.greatest) }
    ensures source { D.is_honest dir.old
        → IfOk result (λ found. FindsSource (D.opened dir.new)
        (now (D.history dir.old)) path.now found.greatest found.file found.places found.chunks) }
    ensures open { IfOk result
        (λ found. IfSome found.file (λ file. IsSome (D.opened dir.new file))) }
    ensures tags { IfOk result (λ found. HasShortTags found.chunks) }
    ensures unclaimed { IfOk result (λ found. reopened found.chunks ≡ found.chunks) }
    ensures damaged { D.is_honest dir.old → (result ≡ Err JournalError.Damaged)
        → IsDamagedFolder path.now (reads (now (D.history dir.old))) }
    ensures last { D.is_honest dir.old → (result ≡ Err JournalError.LastGeneration)
        → IsSome (reads (now (D.history dir.old)) (journal_name path.now (2 ^ 32 - 1))) }
    ensures unread { D.is_honest dir.old
        → IsSome (reads (now (D.history dir.old)) (journal_name path.now (2 ^ 32 - 1)))
        → result ≢ Err JournalError.Damaged }
    ensures below { IfOk result (λ found. found.greatest < 2 ^ 32 - 1) }
    ensures cause { HasReason (D.fault_count dir.old)
        (D.fault_count dir.new) result JournalError.Fault }
{
    let mut found = search_folder(alloc, dir, path)?;
    let taken = last_taken(alloc, dir, path, found.greatest)?;
    found.greatest = taken;
    Ok(found)
}

// The same, with the greatest number of a generation that is there.
fn search_folder<A: Allocator + Copy, D: Dir>(
    alloc: A,
    dir: &mut D,
    path: &[u8],
) -> Result<Found<A>, JournalError>
    ensures honest { D.is_honest dir.old → D.is_honest dir.new }
    ensures time { D.is_honest dir.old → Elapses (D.history dir.old) (D.history dir.new) }
    ensures same { D.is_honest dir.old
        → SameDisk (now (D.history dir.new)) (now (D.history dir.old)) }
    ensures state { D.is_honest dir.old
        → IfOk result (λ found. Opens path.now (reads (now (D.history dir.old))) found.chunks) }
    ensures greatest { D.is_honest dir.old
        → IfOk result (λ found. IsFound path.now (reads (now (D.history dir.old))) found.greatest) }
    ensures source { D.is_honest dir.old
        → IfOk result (λ found. FindsSource (D.opened dir.new)
        (now (D.history dir.old)) path.now found.greatest found.file found.places found.chunks) }
    ensures open { IfOk result
        (λ found. IfSome found.file (λ file. IsSome (D.opened dir.new file))) }
    ensures tags { IfOk result (λ found. HasShortTags found.chunks) }
    ensures unclaimed { IfOk result (λ found. reopened found.chunks ≡ found.chunks) }
    ensures damaged { D.is_honest dir.old → (result ≡ Err JournalError.Damaged)
        → IsDamagedFolder path.now (reads (now (D.history dir.old))) }
    ensures last { D.is_honest dir.old → (result ≡ Err JournalError.LastGeneration)
        → IsSome (reads (now (D.history dir.old)) (journal_name path.now (2 ^ 32 - 1))) }
    ensures unread { D.is_honest dir.old
        → IsSome (reads (now (D.history dir.old)) (journal_name path.now (2 ^ 32 - 1)))
        → result ≢ Err JournalError.Damaged }
    ensures below { IfOk result (λ found. found.greatest < 2 ^ 32 - 1) }
    ensures cause { HasReason (D.fault_count dir.old)
        (D.fault_count dir.new) result JournalError.Fault }
{
    let mut rest = numbers(alloc, dir, generations(path))?;
    let greatest = greatest_of(&rest);
    if greatest == u32::MAX {
        return Err(JournalError::LastGeneration);
    }
    while let Some(number) = rest.pop_last() {
        if let Some(meant) = read_generation(alloc, dir, path, number)? {
            return Ok(found_so(meant, greatest));
        }
    }
    Ok(Found {
        chunks: Chunks::new(alloc),
        places: Places::new(alloc),
        file: None,
        greatest,
    })
}

// What this generation means was found.
fn found_so<A: Allocator>(meant: Meant<A>, greatest: u32) -> Found<A>
    ensures chunks { result.chunks ≡ meant.outlined.chunks }
    ensures places { result.places ≡ meant.outlined.places }
    ensures file { result.file ≡ Some meant.file }
    ensures greatest { result.greatest ≡ greatest }
{
    let Meant { outlined, file } = meant;
    let Outlined {
        chunks,
        places,
        used: _,
    } = outlined;
    Found {
        chunks,
        places,
        file: Some(file),
        greatest,
    }
}

// The greatest of the numbers, 0 where there is none.
fn greatest_of<A: Allocator>(numbers: &BTreeSet<u32, A>) -> u32
    ensures there { (result ≡ 0) ⊎ IsTrue (contains nat_cmp numbers.now result) }
    ensures above { (n : ℕ) → result < n → contains nat_cmp numbers.now n ≡ false }
{
    match numbers.last() {
        Some(number) => *number,
        None => 0,
    }
}

// The last number that is taken, where this is the greatest that is there: numbers of removed
// generations may follow it. The error is want of memory, or of a number.
fn last_taken<A: Allocator + Copy, D: Dir>(
    alloc: A,
    dir: &D,
    path: &[u8],
    there: u32,
) -> Result<u32, AllocError>
    requires { there < 2 ^ 32 - 1 }
    ensures from { IfOk result (λ taken. there ≤ taken) }
    ensures below { IfOk result (λ taken. taken < 2 ^ 32 - 1) }
    ensures removed { D.is_honest dir.now
        → IfOk result (λ taken. (taken ≡ there)
        ⊎ WasRemoved (now (D.history dir.now)) (journal_name path.now taken)) }
    ensures free { D.is_honest dir.now
        → IfOk result (λ taken. WasRemoved (now (D.history dir.now))
        (journal_name path.now (taken + 1)) → ⊥) }
{
    let mut taken = there;
    while taken < u32::MAX - 1 {
        if !was_removed(alloc, dir, path, taken + 1)? {
            return Ok(taken);
        }
        taken += 1;
    }
    Err(AllocError)
}

// Whether the generation of this number was removed. The error is want of memory.
fn was_removed<A: Allocator, D: Dir>(
    alloc: A,
    dir: &D,
    path: &[u8],
    number: u32,
) -> Result<bool, AllocError>
    ensures { D.is_honest dir.now
        → IfOk result (λ was. IsTrue was
        ↔ WasRemoved (now (D.history dir.now)) (journal_name path.now number)) }
{
    let name = generations(path).name(alloc, number)?;
    Ok(dir.was_removed(&name))
}

// What the generation of this number means: none where it ends before a Seal.
fn read_generation<A: Allocator + Copy, D: Dir>(
    alloc: A,
    dir: &mut D,
    path: &[u8],
    number: u32,
) -> Result<Option<Meant<A>>, JournalError>
    ensures honest { D.is_honest dir.old → D.is_honest dir.new }
    ensures time { D.is_honest dir.old → Elapses (D.history dir.old) (D.history dir.new) }
    ensures same { D.is_honest dir.old
        → SameDisk (now (D.history dir.new)) (now (D.history dir.old)) }
    ensures meant { D.is_honest dir.old → IfOk result (λ found. IfSome found (λ meant.
        IsMeant (reads (now (D.history dir.old)) (journal_name path.now number))
        meant.outlined.chunks meant.outlined.places)) }
    ensures unsealed { D.is_honest dir.old → result ≡ Ok None
        → IsSo (reads (now (D.history dir.old)) (journal_name path.now number)) EndsUnsealed }
    ensures damaged { D.is_honest dir.old → result ≡ Err JournalError.Damaged
        → IsSo (reads (now (D.history dir.old)) (journal_name path.now number)) IsDamaged }
    ensures open { IfOk result
        (λ found. IfSome found
        (λ meant. D.opened dir.new meant.file ≡ Some (journal_name path.now number))) }
    ensures tags { IfOk result
        (λ found. IfSome found (λ meant. HasShortTags meant.outlined.chunks)) }
    ensures unclaimed { IfOk result
        (λ found. IfSome found (λ meant. reopened meant.outlined.chunks ≡ meant.outlined.chunks)) }
    ensures not_last { result ≢ Err JournalError.LastGeneration }
    ensures cause { HasReason (D.fault_count dir.old)
        (D.fault_count dir.new) result JournalError.Fault }
{
    let name = generations(path).name(alloc, number)?;
    let file = dir.open(&name)?;
    let outline = feed_file(alloc, dir, file)?;
    match meaning(outline)? {
        Some(outlined) => Ok(Some(Meant { outlined, file })),
        None => Ok(None),
    }
}
