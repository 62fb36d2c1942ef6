//! Limits of what a buffer holds, and what the status says of a folder.

ghost use Rattle.std.specs.Prelude.{◌≡◌};
ghost use Rattle.std.specs.List.{list_all, list_any};
ghost use Rattle.folder_counts.specs.Limits.{
  age_in,
  age_of,
  are_sound,
  chunks_of,
  has_passed,
  is_above,
  is_any_passed,
  is_sink_sound,
  is_sound,
  most_age,
  status_of,
};

use crate::buffers::Buffer;
use crate::counts::ChunkCounts;
use crate::folder::FolderCounts;
use crate::instant::Instant;
use crate::sinks::Sink;
use program_text::Status;
use std::alloc::Allocator;

/// How much a buffer may hold, queued and staged together; where there is no such number, any.
#[derive(Clone, Copy)]
pub struct Limits {
    /// The most bytes of entries.
    pub bytes: Option<u64>,
    /// The most chunks.
    pub chunks: Option<u64>,
    /// How old its oldest event may be.
    pub age: Option<AgeLimit>,
}

/// How old an event may be.
#[derive(Clone, Copy)]
pub struct AgeLimit {
    /// The most whole seconds.
    pub seconds: u64,
    /// The present time, in nanoseconds since the beginning of 1970.
    pub now: i128,
}

// So many nanoseconds are a second.
const SECOND: u128 = 1_000_000_000;

// The greatest age that is told apart.
const OLDEST: u128 = 18_446_744_073_709_551_615;

impl Limits {
    /// The most whole seconds that the oldest event of a buffer may be old.
    pub(crate) fn most_age(self) -> Option<u64>
        ensures { result ≡ most_age self }
    {
        match self.age {
            Some(limit) => Some(limit.seconds),
            None => None,
        }
    }

    /// How many whole seconds old an event of this time is, where that is asked; 0 where it isn't,
    /// or where there is no event.
    pub(crate) fn age(self, oldest: Option<Instant>) -> u64
        ensures { result ≡ age_in self oldest }
    {
        match self.age {
            Some(limit) => match oldest {
                Some(instant) => age_of(limit.now, instant.nanos),
                None => 0,
            },
            None => 0,
        }
    }
}

// How many whole seconds have passed since that time, at most 2^64 - 1; 0 where it is still to
// come.
fn age_of(now: i128, since: i128) -> u64
    ensures { result ≡ age_of now since }
{
    if since < now {
        (now.abs_diff(since) / SECOND).min(OLDEST) as u64
    } else {
        0
    }
}

/// Whether the number is above the limit.
pub(crate) fn is_above(most: Option<u64>, number: u64) -> bool
    ensures { result ≡ is_above most number }
{
    match most {
        Some(most) => most < number,
        None => false,
    }
}

/// The status that a folder means: `Usage` where a journal that counts, or a file of a sink, is
/// damaged or isn't read; else `No` where a buffer holds more than it may, or for longer; else
/// `Done`.
pub(crate) fn status_of<A: Allocator>(limits: Limits, folder: &FolderCounts<'_, A>) -> Status
    ensures { result ≡ status_of limits folder.now }
{
    if !is_sound(folder) {
        return Status::Usage;
    }
    if is_any_passed(limits, folder.buffers()) {
        Status::No
    } else {
        Status::Done
    }
}

// Whether all files that count are read, and none is damaged.
fn is_sound<A: Allocator>(folder: &FolderCounts<'_, A>) -> bool
    ensures { result ≡ are_sound folder.now }
{
    are_buffers_sound(folder.buffers()) && are_sinks_sound(folder.sinks())
}

// Whether the journals that count for these buffers are read, and not damaged.
fn are_buffers_sound(buffers: &[Buffer<'_>]) -> bool
    ensures { result ≡ list_all (λ buffer. is_sound buffer.found) buffers.now }
{
    buffers.iter().all(|buffer| buffer.is_sound())
}

// Whether the files of these sinks are read, and not damaged.
fn are_sinks_sound(sinks: &[Sink<'_>]) -> bool
    ensures { result ≡ list_all is_sink_sound sinks.now }
{
    sinks.iter().all(|sink| sink.is_sound())
}

// Whether one of these buffers holds more than it may, or for longer.
fn is_any_passed(limits: Limits, buffers: &[Buffer<'_>]) -> bool
    ensures { result ≡ is_any_passed limits buffers.now }
{
    buffers.iter().any(|buffer| has_passed(limits, buffer.chunks(), buffer.oldest()))
}

// Whether these chunks are more than a buffer may hold, or the oldest event in them, of this time,
// is older than it may be.
fn has_passed(limits: Limits, chunks: ChunkCounts, oldest: Option<Instant>) -> bool
    ensures { result ≡ has_passed limits chunks oldest }
{
    is_above(limits.bytes, chunks.bytes)
        || is_count_above(limits.chunks, chunks)
        || is_above(limits.most_age(), limits.age(oldest))
}

// Whether they are above the limit in number. A number of 2^64 or more is above any.
fn is_count_above(most: Option<u64>, chunks: ChunkCounts) -> bool
    ensures { result ≡ is_above most (chunks_of chunks) }
{
    match most {
        Some(most) => match chunks.staged.checked_add(chunks.queued) {
            Some(number) => most < number,
            None => true,
        },
        None => false,
    }
}
