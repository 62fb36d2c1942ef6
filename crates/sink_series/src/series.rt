//! The files of a sink, open for writing.

ghost use Rattle.std.specs.Prelude.{◌≡◌, ◌≢◌, ◌⊎◌, ◌↔◌, ℕ, ◌≤◌, List, [], ◌∷◌, ◌++◌, length, true, false, IsSome, IfOk, IfErr, OnOk, OnErr, IsErrOf};
ghost use Rattle.disk_files.specs.Disk.{kept_file, SameDisk, Makes, reads};
ghost use Rattle.disk_files.specs.Moments.{Elapses, LeavesOnly, now};
ghost use Rattle.disk_files.specs.Calls.{LeavesAlone};
ghost use Rattle.disk_files.specs.Faults.{Rises};
ghost use Rattle.event_modes.specs.Message.{longest_tag};
ghost use Rattle.sink_series.specs.Closing.{Closes};
ghost use Rattle.sink_series.specs.Events.{Event, run_of, under};
ghost use Rattle.sink_series.specs.Folders.{SinkHolds};
ghost use Rattle.sink_series.specs.Keeping.{IsSafe, StaysSafe, OthersStay, IsBeginning, Keeps};
ghost use Rattle.sink_series.specs.Openings.{folder_left, answer_of, IsFresh, OpensNext, LeavesSafe, IsRefused};
ghost use Rattle.sink_series.specs.Faults.{HasCause};

use crate::answers::Answers;
use crate::begun::Begun;
use crate::event::SinkEvent;
use crate::fault::SeriesFault;
use crate::files::{Newest, make_next, prepare, put_synced, read_all};
use crate::stored::Stored;
use disk_files::{Dir, FileNo};
use event_modes::Entries;
use std::alloc::Allocator;
use std::marker::Model;
use std::snapshot::Snapshot;

/// The files of a sink, `PATH.NNNNNNNNNN.sink`, from 1. Events go to the newest, which each opening
/// makes.
///
/// Opened over an honest folder, it keeps each of its answers: at each later moment a stop leaves
/// them, whatever was called since, also after a failure. This is part of the type, so it stands
/// too where the sink lies behind a lock.
pub struct Series<D: Dir, A: Allocator> {
    alloc: A,
    dir: D,
    path: Vec<u8, A>,
    number: u32,
    file: FileNo,
    begun: Begun<A>,
    answers: Answers<D, A>,
    opening: Snapshot<D>,
    has_failed: bool,
}

// By hand, so that crates above don't prove again how its parts end.
impl<D: Dir + Drop, A: Allocator> Drop for Series<D, A> {
    fn drop(self) {
        let Series {
            alloc: _,
            dir: _,
            path: _,
            number: _,
            file: _,
            begun: _,
            answers: _,
            opening: _,
            has_failed: _,
        } = self;
    }
}

impl<D: Dir, A: Allocator> Model for Series<D, A> {
    ghost use Rattle.sink_series.specs.Views.{SeriesView};
    ghost use Rattle.sink_series.specs.Events.{written_by};
    ghost use Rattle.sink_series.specs.Keeping.{IsOpen};

    ghost Value = { SeriesView D };

    ghost view = { λ s. record {
      dir = s.dir;
      opening = s.opening.value;
      path = s.path.items;
      number = s.number;
      begun = written_by s.begun;
      stored = s.answers;
      has_failed = s.has_failed;
    } };

    ghost invariant = { λ s. IsOpen D.is_honest D.history (D.opened s.dir s.file)
        (record {
          dir = s.dir;
          opening = s.opening.value;
          path = s.path.items;
          number = s.number;
          begun = written_by s.begun;
          stored = s.answers;
          has_failed = s.has_failed;
        }) };
}

impl<D: Dir, A: Allocator + Copy> Series<D, A> {
    ghost use Rattle.sink_series.specs.Views.{newest};

    /// Opens the sink of this path, and makes its next file, one above the greatest that is there.
    ///
    /// Each error hands the folder back: `Memory` and `LastNumber` as it was, `Fault` with the file
    /// made or not.
    pub fn open(alloc: A, dir: D, path: &[u8]) -> Result<Series<D, A>, (SeriesFault, D)>
        // It goes on in the sink's next file, and each answer stays.
        ensures opens { D.is_honest dir
            → IfOk result (OpensNext D.is_honest D.history dir path.now) }
        ensures fresh { IfOk result (IsFresh dir path.now) }
        ensures refused { D.is_honest dir → IfErr result (λ refused.
            IsRefused path.now (now (D.history dir)) (now (D.history refused.1)) refused.0) }
        ensures never_failed { IfErr result (λ refused. refused.0 ≢ SeriesFault.Failed) }
        // What a stop leaves at any moment is what a stop before the call could leave, but for an
        // empty file of the sink.
        ensures leaves { D.is_honest dir
            → LeavesSafe D.is_honest D.history path.now dir (folder_left result) }
        ensures cause { HasCause (D.fault_count dir) (D.fault_count (folder_left result))
            (answer_of result) }
    {
        let mut dir = dir;
        let opening = Snapshot::of(&dir);
        match make_next(alloc, &mut dir, path) {
            Ok(Newest { path, number, file }) => Ok(Series {
                alloc,
                dir,
                path,
                number,
                file,
                begun: Begun::new(),
                answers: Answers::new(),
                opening,
                has_failed: false,
            }),
            Err(fault) => Err((fault, dir)),
        }
    }

    /// Writes entries under a tag of at most 1,024 bytes, and syncs them. The receipt says that
    /// each later stop leaves them.
    ///
    /// `Failed`: a write failed before, and nothing is changed. `Memory` changes nothing. After a
    /// `Fault` a beginning of the entries may be there, and each later write answers `Failed`.
    pub fn write_all_entries<B: Allocator>(
        &mut self,
        tag: &[u8],
        entries: &Entries<B>,
    ) -> Result<Stored<A>, SeriesFault>
        requires { length tag.now ≤ longest_tag }
        ensures kept { D.is_honest self.old.opening → Keeps D.is_honest D.history self.new }
        ensures stored { IfOk result (λ stored.
            stored ≡ record { path = self.old.path; tag = tag.now; entries = entries.now }) }
        // After the answer the file holds what was begun in it, all of it synced.
        ensures written { D.is_honest self.old.opening → OnOk result
            (now (D.history self.new.dir) (newest self.new)
            ≡ Some (kept_file (run_of self.new.begun))) }
        // At each moment what was safe before is safe, each older file is as it was, and of what
        // was begun in the newest one a stop leaves a beginning with all that was begun before.
        ensures safe { D.is_honest self.old.opening → (name : List ℕ) (events : List Event)
            → IsSafe (now (D.history self.old.dir)) name events
            → StaysSafe (D.history self.old.dir) (D.history self.new.dir) name events }
        ensures others { D.is_honest self.old.opening
            → OthersStay (D.history self.old.dir) (D.history self.new.dir) (newest self.old) }
        ensures moments { D.is_honest self.old.opening → self.old.has_failed ≡ false
            → LeavesOnly (D.history self.old.dir) (D.history self.new.dir)
            (λ folder. IsBeginning folder (newest self.old) (length self.old.begun)
            (self.old.begun ++ under tag.now entries.now)) }
        ensures failed { IsErrOf result SeriesFault.Failed ↔ (self.old.has_failed ≡ true) }
        ensures answered { OnOk result (self.new ≡ record self.old {
          dir = self.new.dir;
          begun = self.old.begun ++ under tag.now entries.now;
          stored = record {
            stored = record { path = self.old.path; tag = tag.now; entries = entries.now };
            since = (D.history self.new.dir).moment;
          } ∷ self.old.stored;
        }) }
        ensures fault { IsErrOf result SeriesFault.Fault
            → (self.new ≡ record
            self.old {
              dir = self.new.dir;
              begun = self.old.begun ++ under tag.now entries.now;
              has_failed = true;
            }) }
        ensures refused { (result ≡ Err SeriesFault.Failed) ⊎ (result ≡ Err SeriesFault.Memory)
            → (self.new ≡ record self.old { dir = self.new.dir }) }
        ensures same { D.is_honest self.old.opening → (result ≡ Err SeriesFault.Failed)
            ⊎ (result ≡ Err SeriesFault.Memory)
            → SameDisk (now (D.history self.new.dir)) (now (D.history self.old.dir)) }
        ensures cause { HasCause (D.fault_count self.old.dir) (D.fault_count self.new.dir) result }
        ensures never_last { result ≢ Err SeriesFault.LastNumber }
    {
        if self.has_failed {
            return Err(SeriesFault::Failed);
        }
        let write = prepare(
            self.alloc,
            &mut self.dir,
            self.file,
            &self.path,
            tag,
            entries,
        )?;
        self.begun = self.begun.then(&write);
        match put_synced(&mut self.dir, self.file, write.bytes()) {
            Ok(()) => {
                let stored = write.into_stored();
                self.answers = self.answers.then(&stored, &self.dir);
                Ok(stored)
            }
            Err(error) => {
                self.has_failed = true;
                Err(error.into())
            }
        }
    }

    /// The events in all files of the sink, in order, in each file up to the first place where no
    /// item is whole. The errors are `Memory` and `Fault`, and change nothing.
    pub fn content(&mut self) -> Result<Vec<SinkEvent<A>, A>, SeriesFault>
        ensures kept { D.is_honest self.old.opening → Keeps D.is_honest D.history self.new }
        ensures time { D.is_honest self.old.opening
            → Elapses (D.history self.old.dir) (D.history self.new.dir) }
        ensures same { D.is_honest self.old.opening
            → SameDisk (now (D.history self.new.dir)) (now (D.history self.old.dir)) }
        ensures content { D.is_honest self.old.opening
            → IfOk result (λ events. SinkHolds self.old.path
            (reads (now (D.history self.old.dir))) events.items) }
        ensures series { self.new ≡ record self.old { dir = self.new.dir } }
        ensures cause { HasCause (D.fault_count self.old.dir) (D.fault_count self.new.dir) result }
        ensures only { OnErr result
            ((result ≡ Err SeriesFault.Memory) ⊎ (result ≡ Err SeriesFault.Fault)) }
    {
        read_all(self.alloc, &mut self.dir, &self.path, self.file)
    }
}

impl<D: Dir, A: Allocator> Series<D, A> {
    ghost use Rattle.sink_series.specs.Views.{newest};

    /// The folder, with the newest file closed. The disk isn't touched, so what was kept stays so.
    pub fn into_dir(self) -> D
        ensures alone { LeavesAlone D.is_honest D.history D.fault_count self.dir result }
        ensures closes { Closes D.opened (newest self) self.dir result }
        ensures kept { D.is_honest self.opening
            → Keeps D.is_honest D.history (record self { dir = result }) }
    {
        let Series {
            alloc: _,
            dir,
            path: _,
            number: _,
            file,
            begun: _,
            answers: _,
            opening: _,
            has_failed: _,
        } = self;
        let mut dir = dir;
        dir.close(file);
        dir
    }
}
