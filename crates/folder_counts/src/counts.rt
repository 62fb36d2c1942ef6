//! Counts of chunks, of events, and of the files that hold them.

ghost use Rattle.std.specs.Prelude.{◌≡◌, ◌+◌, IfOk};
ghost use Rattle.folder_counts.specs.Counts.{chunks_sum, sinks_sum};
ghost use Rattle.folder_counts.specs.Limits.{chunks_of};

use crate::instant::{Instant, later_instant};
use std::alloc::AllocError;

/// Live chunks, counted.
#[derive(Clone, Copy)]
pub struct ChunkCounts {
    /// How many chunks still grow.
    pub staged: u64,
    /// How many wait for their delivery, or for its end.
    pub queued: u64,
    /// How many entries all of them have.
    pub entries: u64,
    /// How many bytes these entries have.
    pub bytes: u64,
}

/// No chunks.
pub const NO_CHUNKS: ChunkCounts = ChunkCounts {
    staged: 0,
    queued: 0,
    entries: 0,
    bytes: 0,
};

impl ChunkCounts {
    /// Both together. The error is want of memory for a number of 2^64 or more.
    pub fn plus(self, other: ChunkCounts) -> Result<ChunkCounts, AllocError>
        ensures { IfOk result (λ sum. sum ≡ chunks_sum self other) }
    {
        Ok(ChunkCounts {
            staged: plus(self.staged, other.staged)?,
            queued: plus(self.queued, other.queued)?,
            entries: plus(self.entries, other.entries)?,
            bytes: plus(self.bytes, other.bytes)?,
        })
    }

    /// How many chunks they are. The error is want of memory for a number of 2^64 or more.
    pub(crate) fn number(self) -> Result<u64, AllocError>
        ensures { IfOk result (λ number. number ≡ chunks_of self) }
    {
        plus(self.staged, self.queued)
    }
}

/// Files of sinks, counted.
#[derive(Clone, Copy)]
pub struct SinkCounts {
    /// How many files they are.
    pub files: u64,
    /// How many events those hold that are neither damaged nor unread.
    pub events: u64,
    /// How many bytes the items of these events have.
    pub bytes: u64,
    /// How many bytes stand behind them, in all of these files.
    pub torn: u64,
    /// How many files are damaged: more bytes stand behind their events than any event has.
    pub damaged: u64,
    /// How many files aren't read to their ends.
    pub unread: u64,
    /// When the newest of these events happened; none where there are no events.
    pub newest_event: Option<Instant>,
}

/// No files.
pub const NO_FILES: SinkCounts = SinkCounts {
    files: 0,
    events: 0,
    bytes: 0,
    torn: 0,
    damaged: 0,
    unread: 0,
    newest_event: None,
};

impl SinkCounts {
    /// Both together. The error is want of memory for a number of 2^64 or more.
    pub fn plus(self, other: SinkCounts) -> Result<SinkCounts, AllocError>
        ensures { IfOk result (λ sum. sum ≡ sinks_sum self other) }
    {
        Ok(SinkCounts {
            files: plus(self.files, other.files)?,
            events: plus(self.events, other.events)?,
            bytes: plus(self.bytes, other.bytes)?,
            torn: plus(self.torn, other.torn)?,
            damaged: plus(self.damaged, other.damaged)?,
            unread: plus(self.unread, other.unread)?,
            newest_event: later_instant(self.newest_event, other.newest_event),
        })
    }
}

/// The sum of both. The error is want of memory for a number of 2^64 or more.
pub(crate) fn plus(a: u64, b: u64) -> Result<u64, AllocError>
    ensures { IfOk result (λ sum. sum ≡ a + b) }
{
    match a.checked_add(b) {
        Some(sum) => Ok(sum),
        None => Err(AllocError),
    }
}
