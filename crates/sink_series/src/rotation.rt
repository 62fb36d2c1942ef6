//! A sink over several files.

ghost use Rattle.std.specs.Prelude.{ℕ, ◌≡◌, ◌≤◌, ◌↔◌, [], ◌++◌, length, true, None, Ok, IsSome, IfOk, OnOk, OnErr, MatchOption};
ghost use Rattle.disk_files.specs.Calls.{LeavesAlone};
ghost use Rattle.event_modes.specs.Message.{longest_tag};
ghost use Rattle.sink_series.specs.Closing.{Closes};
ghost use Rattle.sink_series.specs.Views.{StoredView, newest};
ghost use Rattle.sink_series.specs.RotationViews.{answers_of, files_of, newest_file, IsDue};
ghost use Rattle.std.specs.List.{concat};
ghost use Rattle.sink_series.specs.RotationKeeping.{dir_of, open_of, Answers, IsSameSink, KeepsAll, Stays, Turns};
ghost use Rattle.sink_series.specs.Steps.{BeginsIn, GoesOn, IsBegun, SameFile, Writes};
ghost use Rattle.sink_series.specs.Turning.{added, size_after, retry_after, retry_from};

use crate::closed::Closed;
use crate::limits::FileLimits;
use crate::{Series, SeriesFault, Stored};
use disk_files::Dir;
use event_modes::Entries;
use std::alloc::{AllocError, Allocator};
use std::marker::Model;
use std::snapshot::Snapshot;

/// The file that is open; or the folder alone, where none could be made.
#[derive(Drop)]
pub(crate) enum Files<D: Dir, A: Allocator> {
    Open(Series<D, A>),
    Shut(D),
}

/// The files of a sink, `PATH.NNNNNNNNNN.sink`, of which the next is begun once the newest is large
/// or old enough, or couldn't be written.
///
/// Opened over an honest folder, it keeps each answer that it gave in any of its files: at each
/// later moment a stop leaves its entries. This is part of the type, so it stands too where the
/// sink lies behind a lock.
pub struct Rotation<D: Dir, A: Allocator> {
    alloc: A,
    path: Vec<u8, A>,
    limits: FileLimits,
    files: Files<D, A>,
    closed: Closed<D, A>,
    opening: Snapshot<D>,
    size: u64,
    since: u64,
    retry: Option<u64>,
}

// By hand, so that crates above don't prove again how its parts end.
impl<D: Dir + Drop, A: Allocator> Drop for Rotation<D, A> {
    fn drop(self) {
        let Rotation {
            alloc: _,
            path: _,
            limits: _,
            files: _,
            closed: _,
            opening: _,
            size: _,
            since: _,
            retry: _,
        } = self;
    }
}

impl<D: Dir, A: Allocator> Model for Rotation<D, A> {
    ghost use Rattle.sink_series.specs.RotationViews.{RotationView};
    ghost use Rattle.sink_series.specs.RotationKeeping.{dir_of, open_of, IsRotating};

    ghost Value = { RotationView D };

    ghost view = { λ s. record {
      dir = dir_of s.files;
      opening = s.opening.value;
      path = s.path.items;
      limits = s.limits;
      closed = s.closed;
      open_one = open_of s.files;
      size = s.size;
      since = s.since;
      retry = s.retry;
    } };

    ghost invariant = { λ s. IsRotating D.is_honest D.history
        (record {
          dir = dir_of s.files;
          opening = s.opening.value;
          path = s.path.items;
          limits = s.limits;
          closed = s.closed;
          open_one = open_of s.files;
          size = s.size;
          since = s.since;
          retry = s.retry;
        }) };
}

impl<D: Dir, A: Allocator + Copy> Rotation<D, A> {
    /// Opens the sink of this path at this time, in milliseconds, and makes its next file.
    ///
    /// Each error hands the folder back: `Memory` and `LastNumber` as it was, `Fault` with the file
    /// made or not.
    pub fn open(
        alloc: A,
        dir: D,
        path: &[u8],
        limits: FileLimits,
        time: u64,
    ) -> Result<Rotation<D, A>, (SeriesFault, D)>
        ensures sink { IfOk result
            (λ sink. (sink.opening ≡ dir) × (sink.path ≡ path.now) × (sink.limits ≡ limits)) }
        ensures fresh { IfOk result (λ sink. answers_of sink ≡ []) }
    {
        let Ok(own_path) = Vec::from_slice(alloc, path) else {
            return Err((SeriesFault::Memory, dir));
        };
        let opening = Snapshot::of(&dir);
        let series = Series::open(alloc, dir, path)?;
        Ok(Rotation {
            alloc,
            path: own_path,
            limits,
            files: Files::Open(series),
            closed: Closed::new(),
            opening,
            size: 0,
            since: time,
            retry: None,
        })
    }

    /// The folder, with the newest file closed. The disk isn't touched, so what was kept stays so.
    pub fn into_dir(self) -> D
        ensures alone { LeavesAlone D.is_honest D.history D.fault_count self.dir result }
        ensures closes { MatchOption self.open_one (result ≡ self.dir)
            (λ series. Closes D.opened (newest series) self.dir result) }
        ensures kept { D.is_honest self.opening → KeepsAll D.is_honest D.history
            (record self { dir = result; closed = files_of self; open_one = None }) }
    {
        let Rotation {
            alloc: _,
            path: _,
            limits: _,
            files,
            closed,
            opening: _,
            size: _,
            since: _,
            retry: _,
        } = self;
        let (_, dir) = shut(files, closed);
        dir
    }

    /// Writes entries under a tag of at most 1,024 bytes, and syncs them, at this time in
    /// milliseconds. The receipt says that each later stop leaves them.
    ///
    /// Before that the next file is begun where it is due. `Memory` writes nothing. `Fault`: a
    /// beginning of the entries may be there, or the next file without any. `Failed`: the file
    /// can't be written, and it isn't time yet to begin the next. `LastNumber`: there is no next.
    pub fn write_all_entries<B: Allocator>(
        self,
        time: u64,
        tag: &[u8],
        entries: &Entries<B>,
    ) -> (Rotation<D, A>, Result<Stored<A>, SeriesFault>)
        requires { length tag.now ≤ longest_tag }
        ensures sink { IsSameSink self result.0 }
        ensures answers { Answers self result.0
            (record { path = self.path; tag = tag.now; entries = entries.now }) result.1 }
        ensures turns { IsDue self.limits self.size self.since self.retry time
            → Turns time self result.0 }
        ensures stays { (IsDue self.limits self.size self.since self.retry time → ⊥)
            → Stays self result.0 }
        // The bytes that are counted are those of the open file.
        ensures first { IsDue self.limits self.size self.since self.retry time
            → OnOk result.1 (result.0.size ≡ added 0 (length (concat entries.now))) }
        ensures further { (IsDue self.limits self.size self.since self.retry time → ⊥)
            → OnOk result.1 (result.0.size ≡ added self.size (length (concat entries.now))) }
    {
        let (sink, made) = self.made_ready(time);
        match made {
            Ok(()) => sink.put(tag, entries),
            Err(fault) => (sink, Err(fault)),
        }
    }

    // Begins the next file where it is due.
    fn made_ready(self, time: u64) -> (Rotation<D, A>, Result<(), SeriesFault>)
        ensures sink { IsSameSink self result.0 }
        ensures answers { answers_of result.0 ≡ answers_of self }
        ensures stays { (IsDue self.limits self.size self.since self.retry time → ⊥)
            → result ≡ (self, Ok tt) }
        ensures turns { IsDue self.limits self.size self.since self.retry time
            → Turns time self result.0 × (result.0.size ≡ 0) }
    {
        if self.is_due(time) {
            self.begin_next(time)
        } else {
            (self, Ok(()))
        }
    }

    // Whether the next file is to be begun.
    fn is_due(&self, time: u64) -> bool
        ensures { (result ≡ true)
            ↔ IsDue self.now.limits self.now.size self.now.since self.now.retry time }
    {
        match self.retry {
            Some(from) => from <= time,
            None => {
                let age = time.saturating_sub(self.since);
                self.size >= 1 && (self.limits.bytes <= self.size || self.limits.millis <= age)
            }
        }
    }

    // Closes the newest file and begins the next. After an error none is open, and the next is due
    // again: behind want of memory at once, else after the pause.
    fn begin_next(self, time: u64) -> (Rotation<D, A>, Result<(), SeriesFault>)
        ensures sink { IsSameSink self result.0 }
        ensures answers { answers_of result.0 ≡ answers_of self }
        ensures turns { Turns time self result.0 }
        ensures size { result.0.size ≡ 0 }
    {
        let Rotation {
            alloc,
            path,
            limits,
            files,
            closed,
            opening,
            size: _,
            since: _,
            retry: _,
        } = self;
        let (closed, dir) = shut(files, closed);
        let (files, done) = begin(alloc, dir, &path);
        let retry = match done {
            Ok(()) => None,
            Err(fault) => Some(retry_from(fault, time, limits.pause)),
        };
        let sink = Rotation {
            alloc,
            path,
            limits,
            files,
            closed,
            opening,
            size: 0,
            since: time,
            retry,
        };
        (sink, done)
    }

    // Writes to the newest file.
    fn put<B: Allocator>(
        self,
        tag: &[u8],
        entries: &Entries<B>,
    ) -> (Rotation<D, A>, Result<Stored<A>, SeriesFault>)
        requires { length tag.now ≤ longest_tag }
        ensures sink { IsSameSink self result.0 }
        ensures answers { Answers self result.0
            (record { path = self.path; tag = tag.now; entries = entries.now }) result.1 }
        ensures size { result.0.size ≡ size_after self.size result.1 (length (concat entries.now)) }
        ensures retry { result.0.retry
            ≡ retry_after self.retry result.1 (added self.since self.limits.pause) }
        ensures stays { Stays self result.0 }
    {
        let Rotation {
            alloc,
            path,
            limits,
            files,
            closed,
            opening,
            size,
            since,
            retry,
        } = self;
        let (files, put) = write(files, tag, entries);
        let sink = Rotation {
            alloc,
            path,
            limits,
            files,
            closed,
            opening,
            size: size_after(size, &put, entries),
            since,
            retry: retry_after(retry, &put, since.saturating_add(limits.pause)),
        };
        (sink, put)
    }
}

// Closes the file that is open. The disk isn't touched.
fn shut<D: Dir, A: Allocator>(files: Files<D, A>, closed: Closed<D, A>) -> (Closed<D, A>, D)
    ensures closed { result.0 ≡ newest_file (open_of files) ++ closed }
    ensures alone { LeavesAlone D.is_honest D.history D.fault_count (dir_of files) result.1 }
    ensures closes { MatchOption (open_of files) (result.1 ≡ dir_of files)
        (λ series. Closes D.opened (newest series) (dir_of files) result.1) }
{
    match files {
        Files::Open(series) => (closed.then(&series), series.into_dir()),
        Files::Shut(dir) => (closed, dir),
    }
}

// Begins the next file in this folder.
fn begin<D: Dir, A: Allocator + Copy>(
    alloc: A,
    dir: D,
    path: &[u8],
) -> (Files<D, A>, Result<(), SeriesFault>)
    ensures begins { D.is_honest dir → BeginsIn D.is_honest D.history dir result.0 }
    ensures begun { IsBegun dir path.now (open_of result.0) }
    ensures opened { OnOk result.1 (IsSome (open_of result.0)) }
    ensures shut { OnErr result.1 (open_of result.0 ≡ None) }
{
    match Series::open(alloc, dir, path) {
        Ok(series) => (Files::Open(series), Ok(())),
        Err((fault, dir)) => (Files::Shut(dir), Err(fault)),
    }
}

// Writes to the file that is open.
fn write<D: Dir, A: Allocator + Copy, B: Allocator>(
    files: Files<D, A>,
    tag: &[u8],
    entries: &Entries<B>,
) -> (Files<D, A>, Result<Stored<A>, SeriesFault>)
    requires { length tag.now ≤ longest_tag }
    ensures goes_on { GoesOn D.is_honest D.history files result.0 }
    ensures same { SameFile (open_of files) (open_of result.0) }
    ensures answers { Writes (open_of files) (open_of result.0) tag.now entries.now result.1 }
{
    match files {
        Files::Open(series) => {
            let mut series = series;
            let put = series.write_all_entries(tag, entries);
            (Files::Open(series), put)
        }
        Files::Shut(dir) => (Files::Shut(dir), Err(SeriesFault::Failed)),
    }
}

// The bytes of entries that a file has behind a write.
fn size_after<A: Allocator, B: Allocator>(
    size: u64,
    put: &Result<Stored<A>, SeriesFault>,
    entries: &Entries<B>,
) -> u64
    ensures { result ≡ size_after size put.now (length (concat entries.now)) }
{
    match put {
        Ok(_) => size.saturating_add(entries.as_bytes().len() as u64),
        Err(_) => size,
    }
}

// From when on the next file is due behind a write, where the file can't be written any more.
fn retry_after<A: Allocator>(
    retry: Option<u64>,
    put: &Result<Stored<A>, SeriesFault>,
    from: u64,
) -> Option<u64>
    ensures { result ≡ retry_after retry put.now from }
{
    match put {
        Err(SeriesFault::Fault) => Some(from),
        Ok(_) | Err(_) => retry,
    }
}

// From when on the next file is due again, behind a refusal at this time.
fn retry_from(fault: SeriesFault, time: u64, pause: u64) -> u64
    ensures { result ≡ retry_from fault time pause }
{
    match fault {
        SeriesFault::Memory => time,
        SeriesFault::Fault | SeriesFault::Failed | SeriesFault::LastNumber => {
            time.saturating_add(pause)
        }
    }
}
