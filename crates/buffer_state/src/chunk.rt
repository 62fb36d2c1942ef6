//! A live chunk: its tag, its stage, and how many entries and bytes it has.

ghost use Rattle.std.specs.Prelude.{◌≡◌, ◌+◌, ◌≤◌, length, IfOk};
ghost use Rattle.std.specs.List.{AllByRecursion};
ghost use Rattle.event_modes.specs.Rows.{IsStored};
ghost use Rattle.buffer_state.specs.State.{size, is_staged, is_queued};
ghost use Rattle.buffer_state.specs.Steps.{greatest_size};
ghost use Rattle.buffer_state.specs.Slots.{fresh, grown, put};

use crate::content::Content;
use event_modes::Entries;
use std::alloc::{AllocError, Allocator};
use std::marker::Model;

/// What a chunk waits for.
#[derive(Clone, Copy, Debug, PartialEq, Eq)]
pub enum Stage {
    /// It still grows.
    Staged,
    /// It is to be claimed.
    Queued,
    /// It is being delivered.
    Claimed,
}

/// A live chunk: stored entries of one tag. It knows how many they are and how many bytes they
/// have, and hasn't the bytes.
#[derive(Drop)]
pub struct Chunk<A: Allocator> {
    tag: Vec<u8, A>,
    count: usize,
    size: usize,
    content: Content<A>,
    stage: Stage,
}

impl<A: Allocator> Model for Chunk<A> {
    ghost use Rattle.buffer_state.specs.Slots.{Slot, AreKept};

    ghost Value = { Slot };

    ghost view = { λ c. record {
      chunk = record {
        tag = c.tag.items;
        entries = c.content;
        stage = c.stage;
      };
    } };

    ghost invariant = { λ c. AreKept c.count c.size c.content };
}

impl<A: Allocator> Chunk<A> {
    /// Its tag.
    pub fn tag(&self) -> &[u8]
        ensures { result.now ≡ self.now.chunk.tag }
    {
        self.tag.as_slice()
    }

    /// What it waits for.
    pub fn stage(&self) -> Stage
        ensures { result ≡ self.now.chunk.stage }
    {
        self.stage
    }

    /// Whether it still grows.
    pub(crate) fn is_staged(&self) -> bool
        ensures { result ≡ is_staged self.now.chunk.stage }
    {
        matches!(self.stage, Stage::Staged)
    }

    /// Whether it is to be claimed.
    pub(crate) fn is_queued(&self) -> bool
        ensures { result ≡ is_queued self.now.chunk.stage }
    {
        matches!(self.stage, Stage::Queued)
    }

    /// How many bytes its entries have.
    pub fn size(&self) -> usize
        ensures { result ≡ size self.now.chunk.entries }
    {
        self.size
    }

    /// How many entries it has.
    pub fn count(&self) -> usize
        ensures { result ≡ length self.now.chunk.entries }
    {
        self.count
    }

    /// Each of its entries is one that can be stored. The call does nothing: it stands for a
    /// theorem.
    pub fn stays_stored(&self)
        ensures { AllByRecursion IsStored self.now.chunk.entries }
    {
        let _content = &self.content;
    }

    /// Adds entries behind the others.
    pub(crate) fn grow(&mut self, entries: &Entries<A>)
        requires small { size self.old.chunk.entries + size entries.now ≤ greatest_size }
        ensures { self.new ≡ grown entries.now self.old }
    {
        self.size += entries.as_bytes().len();
        self.count += entries.count();
        self.content = self.content.then(entries);
    }

    /// Puts it into another stage.
    pub(crate) fn put(&mut self, stage: Stage)
        ensures { self.new ≡ put stage self.old }
    {
        self.stage = stage;
    }

    /// A staged chunk of these entries.
    pub(crate) fn new(alloc: A, tag: &[u8], entries: &Entries<A>) -> Result<Self, AllocError>
        ensures { IfOk result (λ chunk. chunk ≡ fresh tag.now entries.now) }
    {
        let tag = Vec::from_slice(alloc, tag)?;
        Ok(Chunk {
            tag,
            count: entries.count(),
            size: entries.as_bytes().len(),
            content: Content::of(entries),
            stage: Stage::Staged,
        })
    }
}
