//! The files of a sink in a folder.

ghost use Rattle.std.specs.Prelude.{◌≡◌, ◌≢◌, ◌⊎◌, ◌↔◌, ℕ, ◌≤◌, Bool, List, ◌++◌, length, take, codes, Option, Some, None, IsSome, IsTrue, IfOk, IfErr, OnOk, OnErr, IsErrOf};
ghost use Rattle.std.specs.List.{AllByRecursion};
ghost use Rattle.std.specs.Ordering.{nat_cmp};
ghost use Rattle.std.specs.BTreeSet.{contains};
ghost use Rattle.disk_files.specs.Disk.{with_bytes, flushed, SameDisk, Makes, Changes, reads};
ghost use Rattle.disk_files.specs.Moments.{Elapses, LeavesOnly, now};
ghost use Rattle.disk_files.specs.Calls.{LeavesAlone};
ghost use Rattle.disk_files.specs.Faults.{HasCause as HasDirCause};
ghost use Rattle.disk_files.specs.declared.dir.FileNo.{FileNo};
ghost use Rattle.event_modes.specs.Message.{longest_tag};
ghost use Rattle.sink_series.specs.Events.{Event, IsEvent, run_of, under, Holds};
ghost use Rattle.sink_series.specs.Names.{sink_name, last_number};
ghost use Rattle.sink_series.specs.Folders.{HasFile, HoldsTo, IsNext, SinkHolds};
ghost use Rattle.sink_series.specs.Keeping.{file_with, IsSafe, StaysSafe, OthersStay, IsBeginning};
ghost use Rattle.sink_series.specs.Openings.{LeavesSafe, IsRefused};
ghost use Rattle.sink_series.specs.Faults.{HasCause};
ghost use Rattle.sink_series.specs.Still.{IsStill};

use crate::event::SinkEvent;
use crate::fault::SeriesFault;
use crate::reading::read_events;
use crate::stored::Prepared;
use disk_files::{Dir, DirError, FileNo, Writing};
use event_modes::Entries;
use numbered_files::{Family, numbers, read_file};
use std::alloc::{AllocError, Allocator};
use std::collections::BTreeSet;

/// A sink's newest file.
pub(crate) struct Newest<A: Allocator> {
    /// The sink's path.
    pub(crate) path: Vec<u8, A>,
    /// The number in the file's name.
    pub(crate) number: u32,
    /// The open file.
    pub(crate) file: FileNo,
}

// The files of the sink of this path.
fn sinks(path: &[u8]) -> Family<'_>
    ensures path { result.path.now ≡ path.now }
    ensures kind { result.kind.now ≡ codes "sink" }
{
    Family {
        path,
        kind: b"sink",
    }
}

// The name of a sink's file.
fn name_of<A: Allocator>(alloc: A, path: &[u8], number: u32) -> Result<Vec<u8, A>, AllocError>
    ensures { IfOk result (λ name. name.items ≡ sink_name path.now number) }
{
    sinks(path).name(alloc, number)
}

// The number of a sink's next file. The disk stays as it is.
fn next_number<A: Allocator + Copy, D: Dir>(
    alloc: A,
    dir: &mut D,
    path: &[u8],
) -> Result<u32, SeriesFault>
    ensures honest { D.is_honest dir.old → D.is_honest dir.new }
    ensures time { D.is_honest dir.old → Elapses (D.history dir.old) (D.history dir.new) }
    ensures same { D.is_honest dir.old
        → SameDisk (now (D.history dir.new)) (now (D.history dir.old)) }
    ensures next { D.is_honest dir.old
        → IfOk result (IsNext path.now (reads (now (D.history dir.old)))) }
    ensures range { IfOk result (λ n. (1 ≤ n) × (n ≤ last_number)) }
    ensures last { D.is_honest dir.old → IsErrOf result SeriesFault.LastNumber
        → IsSome (reads (now (D.history dir.old)) (sink_name path.now last_number)) }
    ensures cause { HasCause (D.fault_count dir.old) (D.fault_count dir.new) result }
    ensures never_failed { result ≢ Err SeriesFault.Failed }
{
    let found = numbers(alloc, dir, sinks(path))?;
    match found.last() {
        None => Ok(1),
        Some(greatest) => match greatest.checked_add(1) {
            None => Err(SeriesFault::LastNumber),
            Some(next) => Ok(next),
        },
    }
}

/// Makes a sink's next file. After a `Fault` it may be there all the same, and after another error
/// nothing changed.
pub(crate) fn make_next<A: Allocator + Copy, D: Dir>(
    alloc: A,
    dir: &mut D,
    path: &[u8],
) -> Result<Newest<A>, SeriesFault>
    ensures leaves { D.is_honest dir.old
        → LeavesSafe D.is_honest D.history path.now dir.old dir.new }
    ensures next { D.is_honest dir.old
        → IfOk result (λ newest. IsNext path.now (reads (now (D.history dir.old))) newest.number) }
    ensures made { D.is_honest dir.old
        → IfOk result (λ newest. Makes (sink_name path.now newest.number) (now (D.history dir.old))
        (now (D.history dir.new))) }
    ensures opened { IfOk result
        (λ newest. D.opened dir.new newest.file ≡ Some (sink_name path.now newest.number)) }
    ensures path { IfOk result (λ newest. newest.path.items ≡ path.now) }
    ensures range { IfOk result (λ newest. (1 ≤ newest.number) × (newest.number ≤ last_number)) }
    ensures refused { D.is_honest dir.old
        → IfErr result (IsRefused path.now (now (D.history dir.old)) (now (D.history dir.new))) }
    ensures cause { HasCause (D.fault_count dir.old) (D.fault_count dir.new) result }
    ensures never_failed { result ≢ Err SeriesFault.Failed }
{
    let own_path = Vec::from_slice(alloc, path)?;
    let number = next_number(alloc, dir, path)?;
    let name = name_of(alloc, path, number)?;
    let file = dir.create(&name, 0)?;
    Ok(Newest {
        path: own_path,
        number,
        file,
    })
}

/// Makes room for a write of entries under a tag to the file. The disk stays as it is.
pub(crate) fn prepare<A: Allocator + Copy, B: Allocator, D: Dir>(
    alloc: A,
    dir: &mut D,
    file: FileNo,
    path: &[u8],
    tag: &[u8],
    entries: &Entries<B>,
) -> Result<Prepared<A>, AllocError>
    requires tag { length tag.now ≤ longest_tag }
    requires open { IsSome (D.opened dir.old file) }
    ensures honest { D.is_honest dir.old → D.is_honest dir.new }
    ensures time { D.is_honest dir.old → Elapses (D.history dir.old) (D.history dir.new) }
    ensures same { D.is_honest dir.old
        → SameDisk (now (D.history dir.new)) (now (D.history dir.old)) }
    ensures stored { IfOk result
        (λ write. write.stored ≡ record { path = path.now; tag = tag.now; entries = entries.now }) }
    ensures bytes { IfOk result (λ write. write.bytes ≡ run_of (under tag.now entries.now)) }
    ensures events { OnOk result (AllByRecursion IsEvent (under tag.now entries.now)) }
    ensures room { IfOk result (λ write. length write.bytes ≤ D.bytes_left dir.new file) }
    ensures opened { (other : FileNo) → D.opened dir.new other ≡ D.opened dir.old other }
    ensures cause { D.fault_count dir.new ≡ D.fault_count dir.old }
{
    let write = Prepared::new(alloc, path, tag, entries)?;
    dir.reserve(file, write.bytes().len())?;
    Ok(write)
}

/// Adds bytes at a file's end and syncs it. After an error, which is a `Fault`, a beginning of them
/// may be there.
pub(crate) fn put_synced<D: Dir>(dir: &mut D, file: FileNo, bytes: &[u8]) -> Result<(), DirError>
    requires open { IsSome (D.opened dir.old file) }
    requires room { length bytes.now ≤ D.bytes_left dir.old file }
    ensures honest { D.is_honest dir.old → D.is_honest dir.new }
    // At each moment what was safe before is safe, each other file is as it was, and where the file
    // held events and nothing else, a stop leaves a beginning of these and those.
    ensures safe { D.is_honest dir.old → (own name : List ℕ) (events : List Event)
        → D.opened dir.old file ≡ Some own
        → IsSafe (now (D.history dir.old)) name events
        → StaysSafe (D.history dir.old) (D.history dir.new) name events }
    ensures others { D.is_honest dir.old → (own : List ℕ) → D.opened dir.old file ≡ Some own
        → OthersStay (D.history dir.old) (D.history dir.new) own }
    ensures moments { D.is_honest dir.old
        → (name : List ℕ) (begun events : List Event) (is_durable : Bool)
        → D.opened dir.old file ≡ Some name
        → now (D.history dir.old) name ≡ Some (file_with begun is_durable)
        → AllByRecursion IsEvent begun → AllByRecursion IsEvent events → bytes.now ≡ run_of events
        → LeavesOnly (D.history dir.old) (D.history dir.new)
        (λ folder. IsBeginning folder name (length begun) (begun ++ events)) }
    ensures ok { D.is_honest dir.old → (name : List ℕ) → D.opened dir.old file ≡ Some name
        → OnOk result (Changes name
        (λ f. flushed (with_bytes bytes.now f)) (now (D.history dir.old))
        (now (D.history dir.new))) }
    ensures err { D.is_honest dir.old → (name : List ℕ) → D.opened dir.old file ≡ Some name
        → OnErr result ((n : ℕ)
        × Changes name (with_bytes (take n bytes.now)) (now (D.history dir.old))
        (now (D.history dir.new))) }
    ensures opened { (other : FileNo) → D.opened dir.new other ≡ D.opened dir.old other }
    ensures cause { HasDirCause (D.fault_count dir.old) (D.fault_count dir.new) result }
    ensures only { OnErr result (result ≡ Err DirError.Fault) }
{
    dir.append(file, bytes, Writing::Through)?;
    dir.sync(file)
}

/// The content of a sink, whose own file stays open: the others are closed once they are read.
/// The disk stays as it is. The errors are `Memory` and `Fault`.
pub(crate) fn read_all<A: Allocator + Copy, D: Dir>(
    alloc: A,
    dir: &mut D,
    path: &[u8],
    own: FileNo,
) -> Result<Vec<SinkEvent<A>, A>, SeriesFault>
    ensures honest { D.is_honest dir.old → D.is_honest dir.new }
    ensures time { D.is_honest dir.old → Elapses (D.history dir.old) (D.history dir.new) }
    ensures same { D.is_honest dir.old
        → SameDisk (now (D.history dir.new)) (now (D.history dir.old)) }
    ensures content { D.is_honest dir.old
        → IfOk result (λ events. SinkHolds path.now
        (reads (now (D.history dir.old))) events.items) }
    ensures stays_open { IsSome (D.opened dir.old own)
        → D.opened dir.new own ≡ D.opened dir.old own }
    ensures cause { HasCause (D.fault_count dir.old) (D.fault_count dir.new) result }
    ensures only { OnErr result
        ((result ≡ Err SeriesFault.Memory) ⊎ (result ≡ Err SeriesFault.Fault)) }
{
    let found = numbers(alloc, dir, sinks(path))?;
    read_to(alloc, dir, path, own, &found, greatest_of(&found))
}

// A number that no number of the set is above.
fn greatest_of<A: Allocator>(numbers: &BTreeSet<u32, A>) -> u32
    ensures { (n : ℕ) → IsTrue (contains nat_cmp numbers.now n) → n ≤ result }
{
    match numbers.last() {
        Some(greatest) => *greatest,
        None => 0,
    }
}

// The content of the files up to this number, where those of the set are there.
fn read_to<A: Allocator + Copy, D: Dir>(
    alloc: A,
    dir: &mut D,
    path: &[u8],
    own: FileNo,
    numbers: &BTreeSet<u32, A>,
    to: u32,
) -> Result<Vec<SinkEvent<A>, A>, SeriesFault>
    ensures still { D.is_honest dir.old
        → D.is_honest dir.new × IsStill (D.history dir.old) (D.history dir.new) }
    ensures content { D.is_honest dir.old
        → ((n : ℕ) → (IsTrue (contains nat_cmp numbers.now n)
        ↔ HasFile path.now (reads (now (D.history dir.old))) n))
        → IfOk result (λ events. HoldsTo path.now
        (reads (now (D.history dir.old))) to events.items) }
    ensures stays_open { IsSome (D.opened dir.old own)
        → D.opened dir.new own ≡ D.opened dir.old own }
    ensures cause { HasCause (D.fault_count dir.old) (D.fault_count dir.new) result }
    ensures only { OnErr result
        ((result ≡ Err SeriesFault.Memory) ⊎ (result ≡ Err SeriesFault.Fault)) }
{
    let mut events = Vec::new(alloc);
    let mut number = 0;
    while number < to {
        number += 1;
        if numbers.contains(&number) {
            let mut found = read_number(alloc, dir, path, own, number)?;
            events.append(&mut found)?;
        }
    }
    Ok(events)
}

// The content of the file of this number, which is closed then, unless it is the sink's own.
fn read_number<A: Allocator + Copy, D: Dir>(
    alloc: A,
    dir: &mut D,
    path: &[u8],
    own: FileNo,
    number: u32,
) -> Result<Vec<SinkEvent<A>, A>, SeriesFault>
    ensures still { D.is_honest dir.old
        → D.is_honest dir.new × IsStill (D.history dir.old) (D.history dir.new) }
    ensures content { D.is_honest dir.old → (bytes : List ℕ)
        → reads (now (D.history dir.old)) (sink_name path.now number) ≡ Some bytes
        → IfOk result (λ events. Holds bytes events.items) }
    ensures stays_open { IsSome (D.opened dir.old own)
        → D.opened dir.new own ≡ D.opened dir.old own }
    ensures cause { HasCause (D.fault_count dir.old) (D.fault_count dir.new) result }
    ensures only { OnErr result
        ((result ≡ Err SeriesFault.Memory) ⊎ (result ≡ Err SeriesFault.Fault)) }
{
    let name = name_of(alloc, path, number)?;
    let file = dir.open(&name)?;
    let read = read_file(alloc, dir, file);
    close_other(dir, file, own);
    let bytes = read?;
    Ok(read_events(alloc, &bytes)?)
}

// Closes a file, unless it is the sink's own.
fn close_other<D: Dir>(dir: &mut D, file: FileNo, own: FileNo)
    requires { IsSome (D.opened dir.old file) }
    ensures alone { LeavesAlone D.is_honest D.history D.fault_count dir.old dir.new }
    ensures stays_open { D.opened dir.new own ≡ D.opened dir.old own }
{
    if file != own {
        dir.close(file);
    }
}
