//! A buffer is opened: its chunks are what the journal in the folder means.

ghost use Rattle.std.specs.Prelude.{◌≡◌, false, Err, IfOk, IfErr};
ghost use Rattle.std.specs.Result.{MatchResult};
ghost use Rattle.disk_files.specs.Moments.{now};
ghost use Rattle.buffer_state.specs.Steps.{reopened, settled};
ghost use Rattle.journal_files.specs.Disks.{Keeps, HasNoGap};
ghost use Rattle.journal_files.specs.Faults.{HasReason};
ghost use Rattle.journal_files.specs.JournalLogs.{new_generation, state_of};
ghost use Rattle.journal_files.specs.Openings.{OpensNext, IsFresh, LeavesFolder};
ghost use Rattle.journal_files.specs.Views.{IsOpenIn, HasShortTags};
ghost use Rattle.buffer_store.specs.Buffers.{Held};
ghost use Rattle.buffer_store.specs.Openings.{IsSet, RefusesOpening};
ghost use Rattle.buffer_store.specs.declared.fault.BufferFault.{BufferFault};

use crate::buffer::Buffer;
use crate::fault::BufferFault;
use crate::log::Log;
use crate::settings::Settings;
use buffer_state::Chunks;
use disk_files::Dir;
use journal_files::{Journal, Opened};
use std::alloc::Allocator;
use std::snapshot::Snapshot;

impl<D: Dir, A: Allocator + Copy> Buffer<D, A> {
    /// Opens the buffer whose files' names begin with this path: its chunks are what the journal in
    /// the folder means. The queue goes by rising serial, and what was claimed is queued. The
    /// journal goes on in a new generation.
    ///
    /// Each refusal hands the folder back, and all but `Fault` change nothing. `LastSerial` is
    /// answered past the last generation. After `Fault` the folder opens to what it opened to, with
    /// or without a stop before; and it reads as before, since the new file is removed again, but
    /// where the device failed in making it or in removing it, or as older files were removed once
    /// the new one was whole.
    pub fn open(
        alloc: A,
        dir: D,
        path: &[u8],
        settings: Settings,
    ) -> Result<Buffer<D, A>, (BufferFault, D)>
        ensures opens { D.is_honest dir → IfOk result (λ buffer. OpensNext path.now
            (now (D.history dir)) (now (D.history buffer.dir)) buffer.journal buffer.chunks) }
        // No chunk is claimed, and the queue goes by rising serial.
        ensures fresh { IfOk result
            (λ buffer. IsFresh path.now (D.opened buffer.dir) buffer.journal buffer.chunks) }
        ensures set { IfOk result (IsSet dir settings) }
        ensures refused { IfErr result (λ refused. RefusesOpening (D.is_honest dir) path.now
            (D.fault_count dir) (D.fault_count refused.1) (now (D.history dir))
            (now (D.history refused.1)) refused.0) }
        // A stop at any moment of the call, whatever it answers, leaves a folder that opens to
        // what one before the call could open to.
        ensures leaves { D.is_honest dir
            → MatchResult result
            (λ buffer. LeavesFolder D.is_honest D.history path.now dir buffer.dir)
            (λ refused. LeavesFolder D.is_honest D.history path.now dir refused.1) }
        ensures cause { MatchResult result
            (λ buffer. D.fault_count buffer.dir ≡ D.fault_count dir)
            (λ refused. HasReason {T = Held D} (D.fault_count dir) (D.fault_count refused.1)
            (Err refused.0) BufferFault.Fault) }
    {
        let mut dir = dir;
        let start = Snapshot::of(&dir);
        match Journal::open(alloc, &mut dir, path) {
            Ok(Opened { journal, chunks }) => {
                Ok(opened(alloc, dir, start, journal, chunks, settings))
            }
            Err(refused) => Err((BufferFault::from(refused), dir)),
        }
    }
}

// The buffer of a journal that was just opened.
fn opened<D: Dir, A: Allocator + Copy>(
    alloc: A,
    dir: D,
    start: Snapshot<D>,
    journal: Journal<A>,
    chunks: Chunks<A>,
    settings: Settings,
) -> Buffer<D, A>
    requires open { IsOpenIn journal (D.opened dir) }
    requires tags { HasShortTags chunks }
    requires honest { D.is_honest start.value → D.is_honest dir }
    requires keeps { D.is_honest start.value → HasNoGap journal.path (now (D.history start.value))
        → Keeps journal (now (D.history dir)) (new_generation chunks) }
    requires means { settled (state_of (new_generation chunks)) ≡ reopened chunks }
    ensures { result ≡ record {
      dir = dir;
      journal = journal;
      chunks = chunks;
      limits = settings.limits;
      renewed_past = settings.renewed_past;
      failed = false;
      staged = false;
      start = start.value;
    } }
{
    let log = Log {
        dir,
        journal,
        failed: false,
        staged: false,
        start,
    };
    Buffer {
        log,
        alloc,
        chunks,
        settings,
    }
}
