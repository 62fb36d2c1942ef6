//! What a buffer has room for.

ghost use Rattle.std.specs.Prelude.{◌≡◌, ◌≤◌, ◌↔◌, IsTrue, cond};
ghost use Rattle.buffer_state.specs.State.{is_queued};
ghost use Rattle.buffer_store.specs.Room.{FitsBesideUnqueued, IsNearlyFull, queued_in};

use crate::buffer::Buffer;
use buffer_state::{ChunkFacts, LiveIter, Stage};
use disk_files::Dir;
use event_modes::Entries;
use std::alloc::Allocator;

impl<D: Dir, A: Allocator + Copy> Buffer<D, A> {
    /// Whether entries would fit, were as many queued chunks let go as that takes. Nothing changes.
    pub fn fits_beside_unqueued<B: Allocator>(&self, entries: &Entries<B>) -> bool
        ensures { IsTrue result
            ↔ FitsBesideUnqueued self.now.limits self.now.chunks entries.now }
    {
        let chunks = self.chunks();
        let all = chunks.total() + entries.as_bytes().len() as u128;
        frees(
            chunks.iter(),
            all.saturating_sub(self.settings.limits.total as u128),
        )
    }

    /// Whether its chunks take more than four fifths of what it takes.
    pub fn is_nearly_full(&self) -> bool
        ensures { IsTrue result ↔ IsNearlyFull self.now.limits self.now.chunks }
    {
        self.chunks().total() * 5 > self.settings.limits.total as u128 * 4
    }
}

// Whether the queued ones of these chunks have so many bytes of entries. Once they do, no more
// chunks are looked at.
fn frees<A: Allocator + Copy>(chunks: LiveIter<'_, A>, bytes: u128) -> bool
    ensures { IsTrue result ↔ (bytes ≤ queued_in chunks.entry) }
{
    let mut left = bytes;
    for chunk in chunks {
        if left == 0 {
            return true;
        }
        left = left.saturating_sub(freed_by(&chunk));
    }
    left == 0
}

// How many bytes of entries go with this chunk, if it is queued.
fn freed_by(chunk: &ChunkFacts<'_>) -> u128
    ensures { result ≡ cond (is_queued chunk.now.stage) chunk.now.size 0 }
{
    match chunk.stage {
        Stage::Queued => chunk.size as u128,
        Stage::Staged | Stage::Claimed => 0,
    }
}
