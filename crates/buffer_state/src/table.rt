//! Live chunks by their serials.

ghost use Rattle.std.specs.Prelude.{◌≡◌, false, ◌+◌, ◌≤◌, ◌<◌, ◌^◌, ◌++◌, [], ◌∷◌, IfSome, IsSome, IsSomeAnd, OnOk, OnErr, None, option_map};
ghost use Rattle.std.specs.List.{last_or, All, AllByRecursion};
ghost use Rattle.std.specs.Map.{keys_of, values_of, remove_entry};
ghost use Rattle.std.specs.Ordering.{nat_cmp};
ghost use Rattle.std.specs.BTreeMap.{is_at};
ghost use Rattle.buffer_state.specs.State.{size, is_staged};
ghost use Rattle.buffer_state.specs.Steps.{greatest_size};
ghost use Rattle.buffer_state.specs.Slots.{Slot, slot_at, changed_at, grown, put, fresh, slot_size, slots_size, staged_in, AreBelow};

use crate::chunk::{Chunk, Stage};
use crate::tags::TagIndex;
use event_modes::Entries;
use std::alloc::{AllocError, Allocator};
use std::collections::BTreeMap;
use std::marker::Model;

/// Live chunks by their serials, with how many bytes all have, and which are staged.
#[derive(Drop)]
pub(crate) struct Table<A: Allocator> {
    alloc: A,
    chunks: BTreeMap<u64, Chunk<A>, A>,
    tags: TagIndex<A>,
    total: u128,
}

impl<A: Allocator> Model for Table<A> {
    ghost use Rattle.std.specs.Prelude.{ℕ, List};
    ghost use Rattle.buffer_state.specs.Slots.{Slot};

    ghost Value = { List (ℕ × Slot) };

    ghost use Rattle.buffer_state.specs.Tables.{IsTable};

    ghost view = { λ t. t.chunks.entries };

    ghost invariant = { λ t. IsTable t.chunks.entries t.tags t.total };
}

impl<A: Allocator + Copy> Table<A> {
    /// No chunks.
    pub fn new(alloc: A) -> Self
        ensures { result ≡ [] }
    {
        Table {
            alloc,
            chunks: BTreeMap::new(alloc),
            tags: TagIndex::new(alloc),
            total: 0,
        }
    }

    /// The chunk of this serial.
    pub fn get(&self, serial: u64) -> Option<&Chunk<A>>
        ensures value { option_map (λ chunk. chunk.now) result ≡ slot_at self.now serial }
        ensures small { IfSome result (λ chunk. size chunk.now.chunk.entries ≤ greatest_size) }
    {
        self.chunks.get(&serial)
    }

    /// All of them, by rising serial.
    pub fn live(&self) -> &BTreeMap<u64, Chunk<A>, A>
        ensures all { result.now.entries ≡ self.now }
        ensures small { All (λ slot. slot_size slot ≤ greatest_size) (values_of self.now) }
    {
        &self.chunks
    }

    /// How many bytes of entries all have together.
    pub fn total(&self) -> u128
        ensures sum { result ≡ slots_size self.now }
        ensures small { result < 2 ^ 88 }
    {
        self.total
    }

    /// The greatest serial of a staged chunk of this tag.
    pub fn newest(&self, tag: &[u8]) -> Option<u64>
        ensures { result ≡ last_or None (staged_in self.now tag.now) }
    {
        self.tags.newest(tag)
    }

    /// A new chunk, whose serial is above all others. An `Err` changes nothing.
    pub fn add(&mut self, serial: u64, tag: &[u8], entries: &Entries<A>) -> Result<(), AllocError>
        requires last { AreBelow serial (keys_of self.old) }
        requires small { size entries.now ≤ greatest_size }
        ensures ok { OnOk result (self.new ≡ self.old ++ (serial, fresh tag.now entries.now) ∷ []) }
        ensures err { OnErr result (self.new ≡ self.old) }
    {
        let chunk = Chunk::new(self.alloc, tag, entries)?;
        let _ = self.chunks.insert(serial, chunk)?;
        if self.tags.add(self.alloc, tag, serial).is_err() {
            let _ = self.chunks.remove(&serial);
            return Err(AllocError);
        }
        // the sum stays small, since a map has fewer than 2^63 entries
        let _count = self.chunks.len();
        self.total += entries.as_bytes().len() as u128;
        Ok(())
    }

    /// Lets the chunk of this serial go.
    pub fn remove(&mut self, serial: u64)
        ensures { self.new ≡ remove_entry (is_at (nat_cmp serial)) self.old }
    {
        let Some(chunk) = self.chunks.remove(&serial) else {
            return;
        };
        self.total -= chunk.size() as u128;
        if chunk.is_staged() {
            self.tags.remove(chunk.tag(), serial);
        }
    }

    /// Adds entries to a chunk.
    pub fn grow(&mut self, serial: u64, entries: &Entries<A>)
        requires small { IsSomeAnd (slot_at self.old serial)
            (λ slot. slot_size slot + size entries.now ≤ greatest_size) }
        ensures { self.new ≡ changed_at serial (grown entries.now) self.old }
    {
        let Some(chunk) = self.chunks.get_mut(&serial) else {
            return;
        };
        chunk.grow(entries);
        self.total += entries.as_bytes().len() as u128;
    }

    /// Puts a chunk into another stage than staged.
    pub fn put(&mut self, serial: u64, stage: Stage)
        requires { is_staged stage ≡ false }
        ensures { self.new ≡ changed_at serial (put stage) self.old }
    {
        let Some(chunk) = self.chunks.get_mut(&serial) else {
            return;
        };
        if !chunk.is_staged() {
            chunk.put(stage);
            return;
        }
        self.tags.remove(chunk.tag(), serial);
        chunk.put(stage);
    }
}
