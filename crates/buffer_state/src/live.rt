//! What is shown of live chunks: all but their entries.

ghost use Rattle.std.specs.Prelude.{◌≡◌, ◌<◌, ◌^◌, IfSome, map, slice_get, option_map};
ghost use Rattle.buffer_state.specs.State.{chunk_at, total_size, IsAt};
ghost use Rattle.buffer_state.specs.Shown.{facts_of, numbered_facts, seen};
ghost use Rattle.buffer_state.specs.declared.chunk.Stage.TheVariants.{Queued};

use crate::chunk::{Chunk, Stage};
use crate::chunks::Chunks;
use std::alloc::Allocator;
use std::collections::btree_map;
use std::marker::Model;

/// What is shown of a live chunk.
#[derive(Clone, Copy)]
pub struct ChunkFacts<'a> {
    pub serial: u64,
    pub tag: &'a [u8],
    /// How many entries it has.
    pub count: usize,
    /// How many bytes its entries have.
    pub size: usize,
    pub stage: Stage,
}

/// The live chunks of a buffer without their entries, its next serial and the first of its queue.
/// Contracts see the whole state.
#[derive(Drop)]
pub struct LiveChunks<'a, A: Allocator> {
    chunks: &'a Chunks<A>,
}

impl<'a, A: Allocator> Model for LiveChunks<'a, A> {
    ghost use Rattle.buffer_state.specs.State.{State};

    ghost Value = { State };

    ghost view = { λ l. l.chunks.now };
}

impl<'a, A: Allocator + Copy> LiveChunks<'a, A> {
    /// What is shown of these.
    pub fn of(chunks: &'a Chunks<A>) -> Self
        ensures { result ≡ chunks.now }
    {
        LiveChunks { chunks }
    }

    /// The serial of the next new chunk.
    pub fn next_serial(&self) -> u64
        ensures { result ≡ self.now.next }
    {
        self.chunks.next()
    }

    /// The stage of the live chunk of this serial.
    pub fn stage(&self, serial: u64) -> Option<Stage>
        ensures { result ≡ option_map (λ chunk. chunk.stage) (chunk_at self.now serial) }
    {
        self.chunks.stage(serial)
    }

    /// What is shown of the live chunk of this serial.
    pub fn facts(&self, serial: u64) -> Option<ChunkFacts<'a>>
        ensures { option_map seen result ≡ option_map (facts_of serial) (chunk_at self.now serial) }
    {
        let chunk = self.chunks.chunk(serial)?;
        Some(facts(serial, chunk))
    }

    /// What is shown of each live chunk, by rising serial.
    pub fn iter(&self) -> LiveIter<'a, A>
        ensures { result ≡ map numbered_facts self.now.chunks }
    {
        LiveIter {
            rest: self.chunks.live().iter(),
        }
    }

    /// The first of the queue.
    pub fn first(&self) -> Option<u64>
        ensures first { result ≡ slice_get self.now.queue 0 }
        ensures queued { IfSome result (IsAt Queued self.now) }
    {
        self.chunks.first()
    }

    /// How many bytes of entries all live chunks have together.
    pub fn total(&self) -> u128
        ensures sum { result ≡ total_size self.now }
        ensures small { result < 2 ^ 88 }
    {
        self.chunks.total()
    }
}

fn facts<A: Allocator>(serial: u64, chunk: &Chunk<A>) -> ChunkFacts<'_>
    ensures { seen result ≡ facts_of serial chunk.now.chunk }
{
    ChunkFacts {
        serial,
        tag: chunk.tag(),
        count: chunk.count(),
        size: chunk.size(),
        stage: chunk.stage(),
    }
}

/// Live chunks one after another, without their entries. Contracts see what is left.
#[derive(Drop)]
pub struct LiveIter<'a, A: Allocator> {
    rest: btree_map::Iter<'a, u64, Chunk<A>>,
}

impl<'a, A: Allocator> Model for LiveIter<'a, A> {
    ghost use Rattle.std.specs.Prelude.{List, map};
    ghost use Rattle.buffer_state.specs.Slots.{chunks_in};
    ghost use Rattle.buffer_state.specs.Shown.{Facts, numbered_facts};

    ghost Value = { List Facts };

    ghost view = { λ l. map numbered_facts (chunks_in l.rest) };
}

impl<'a, A: Allocator> Iterator for LiveIter<'a, A> {
    type Item = ChunkFacts<'a>;

    ghost use Rattle.std.specs.Iterator.{YieldsFirstBy, item_count};
    ghost use Rattle.buffer_state.specs.Shown.{seen};

    ghost next_gives = { YieldsFirstBy seen (λ l. l) };

    ghost remaining = { item_count (λ l. l) };

    fn next(&mut self) -> Option<ChunkFacts<'a>> {
        let (serial, chunk) = self.rest.next()?;
        Some(facts(*serial, chunk))
    }
}
