//! Where the entries of live chunks lie in a journal.

ghost use Rattle.std.specs.Prelude.{◌≡◌, ◌↔◌, ◌-◌, ◌<◌, ◌++◌, [], ◌∷◌, None, IsSome, IfSome, OnOk, OnErr};
ghost use Rattle.chunk_journal.specs.Extents.{places_end, lengths_end};
ghost use Rattle.chunk_journal.specs.Places.{spot_at, places_at, extent_before, HasRoom, SamePlaces, AddsPlace, DropsPlaces};

use std::alloc::{AllocError, Allocator};
use std::collections::BTreeMap;
use std::marker::Model;

// A place begins below this one.
const PLACES_END: u64 = 1 << 40;
// It has fewer bytes than this.
const LENGTHS_END: u64 = 1 << 24;

/// Where bytes lie in a journal: the first of them, and how many. They begin below 2^40, and are
/// fewer than 2^24.
#[derive(Clone, Copy, PartialEq, Eq)]
pub struct Extent {
    // `at * 2^24 + length`, since a buffer keeps one for each append to a live chunk
    bits: u64,
}

impl Model for Extent {
    ghost use Rattle.std.specs.Prelude.{◌+◌, ◌*◌, ◌/◌, ◌%◌, ◌^◌};
    ghost use Rattle.std.proofs.lemmas.Nat.{shr_split};
    ghost use Rattle.chunk_journal.specs.Extents.{Stretch};

    ghost Value = { Stretch };

    ghost view = { λ e. record { at = e.bits / 2 ^ 24; length = e.bits % 2 ^ 24 } };

    ghost inverse = { λ s. record { bits = s.at * 2 ^ 24 + s.length } };

    ghost inverse_ok = { λ e _ i. record { bits = shr_split e.bits 24 i } };
}

impl Extent {
    /// So many bytes from this one on; none where they begin at 2^40 or behind it, or are 2^24 or
    /// more.
    pub fn new(at: u64, length: u64) -> Option<Extent>
        ensures some { IsSome result ↔ ((at < places_end) × (length < lengths_end)) }
        ensures right { IfSome result (λ extent. extent ≡ record { at = at; length = length }) }
    {
        if at >= PLACES_END || length >= LENGTHS_END {
            return None;
        }
        Some(Extent {
            bits: at * LENGTHS_END + length,
        })
    }

    /// The last so many bytes before this end, as `new`.
    pub fn before(end: u64, length: u64) -> Option<Extent>
        ensures some { IsSome result ↔ ((end - length < places_end) × (length < lengths_end)) }
        ensures right { IfSome result (λ extent. extent ≡ extent_before end length) }
    {
        Extent::new(end.saturating_sub(length), length)
    }

    /// Where they begin.
    pub fn at(self) -> u64
        ensures value { result ≡ self.at }
        ensures below { result < places_end }
    {
        self.bits / LENGTHS_END
    }

    /// How many they are.
    pub fn length(self) -> u64
        ensures value { result ≡ self.length }
        ensures below { result < lengths_end }
    {
        self.bits % LENGTHS_END
    }
}

// The places of one chunk's entries.
#[derive(Drop)]
struct Extents<A: Allocator> {
    items: Vec<Extent, A>,
}

impl<A: Allocator> Model for Extents<A> {
    ghost use Rattle.std.specs.Prelude.{◌-◌, vec_len, vec_capacity};
    ghost use Rattle.chunk_journal.specs.Places.{Spot};

    ghost Value = { Spot };

    ghost view = { λ e. record {
      extents = e.items.items;
      room = vec_capacity e.items - vec_len e.items;
    } };
}

impl<A: Allocator> Extents<A> {
    // None.
    fn new(alloc: A) -> Self
        ensures { result.extents ≡ [] }
    {
        Extents {
            items: Vec::new(alloc),
        }
    }

    fn as_slice(&self) -> &[Extent]
        ensures { result.now ≡ self.now.extents }
    {
        self.items.as_slice()
    }

    // Makes room for one more: where there is none, for an eighth more and not for twice as many,
    // since these are most of what a buffer keeps in memory.
    fn reserve(&mut self) -> Result<(), AllocError>
        ensures same { self.new.extents ≡ self.old.extents }
        ensures ok { OnOk result (0 < self.new.room) }
    {
        let len = self.items.len();
        if len < self.items.capacity() {
            return Ok(());
        }
        self.items.reserve_exact(1 + len / 8)
    }

    // One more, behind the others.
    fn push(&mut self, extent: Extent)
        requires { 0 < self.old.room }
        ensures { self.new.extents ≡ self.old.extents ++ extent ∷ [] }
    {
        self.items.push_reserved(extent);
    }
}

/// Where the entries of chunks lie in a journal, by the chunks' serials.
#[derive(Drop)]
pub struct Places<A: Allocator> {
    alloc: A,
    chunks: BTreeMap<u64, Extents<A>, A>,
}

impl<A: Allocator> Model for Places<A> {
    ghost use Rattle.chunk_journal.specs.Places.{Spots};

    ghost Value = { Spots };

    ghost view = { λ p. p.chunks.entries };
}

impl<A: Allocator + Copy> Places<A> {
    /// No places.
    pub fn new(alloc: A) -> Self
        ensures { result ≡ [] }
    {
        Places {
            alloc,
            chunks: BTreeMap::new(alloc),
        }
    }

    /// The places of this chunk's entries, in their order; none where there is no such chunk.
    pub fn at(&self, serial: u64) -> &[Extent]
        ensures { result.now ≡ places_at self.now serial }
    {
        match self.chunks.get(&serial) {
            None => &[],
            Some(extents) => extents.as_slice(),
        }
    }

    /// Makes room for one more place of this chunk. The error is want of memory.
    pub fn reserve(&mut self, serial: u64) -> Result<(), AllocError>
        ensures same { SamePlaces self.old self.new }
        ensures ok { OnOk result (HasRoom self.new serial) }
    {
        let Some(extents) = self.chunks.get_mut(&serial) else {
            return self.begin(serial);
        };
        extents.reserve()
    }

    // Makes room for the first place of a chunk.
    fn begin(&mut self, serial: u64) -> Result<(), AllocError>
        requires first { spot_at self.old serial ≡ None }
        ensures same { SamePlaces self.old self.new }
        ensures ok { OnOk result (HasRoom self.new serial) }
    {
        let mut extents = Extents::new(self.alloc);
        extents.reserve()?;
        let _ = self.chunks.insert(serial, extents)?;
        Ok(())
    }

    /// One more place of a chunk for which there is room, behind its others.
    pub fn add(&mut self, serial: u64, extent: Extent)
        requires { HasRoom self.old serial }
        ensures { AddsPlace serial extent self.old self.new }
    {
        let Some(extents) = self.chunks.get_mut(&serial) else {
            unreachable!();
        };
        extents.push(extent);
    }

    /// One more place of a chunk, behind its others. The error is want of memory, and leaves the
    /// places as they were.
    pub fn append(&mut self, serial: u64, extent: Extent) -> Result<(), AllocError>
        ensures ok { OnOk result (AddsPlace serial extent self.old self.new) }
        ensures err { OnErr result (SamePlaces self.old self.new) }
    {
        self.reserve(serial)?;
        self.add(serial, extent);
        Ok(())
    }

    /// Lets the places of a chunk go.
    pub fn remove(&mut self, serial: u64)
        ensures { DropsPlaces serial self.old self.new }
    {
        let _ = self.chunks.remove(&serial);
    }
}
