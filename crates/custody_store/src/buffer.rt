//! A buffer with the sink of its output.

ghost use Rattle.std.specs.Prelude.{◌≡◌, ◌<◌, ◌≤◌, ◌++◌, ◌==◌, [], ◌∷◌, ℕ, IsSome, OnOk, OnErr, IsSomeAnd, IfSome, IfNone, length, map, option_map, slice_get, slice_set, false, true, cond, Some, None, IfOk, take, IsTrue, ◌↔◌};
ghost use Rattle.std.specs.Option.{ForSome, option_map_or};
ghost use Rattle.step_lines.specs.Texts.{texts_of};
ghost use Rattle.custody_store.specs.Buffers.{events_of, CanTake, Holds, is_queued, none_queued_below};
ghost use Rattle.custody_store.specs.Contents.{buffer_of, chunk_at, flag_at, changed, look_of, empty_contents, stored_events, taken_in, restarted_chunks, parts_of, IsAnsweredToo};
ghost use Rattle.custody_store.specs.Copies.{copied_parts};
ghost use Rattle.custody_store.specs.Tags.{Covers, HoldsUnder};

use crate::chunk::{self, Chunk, Copied, Kept, Look, Stage};
use crate::event::{Event, copy_texts, has_event, tag_among};
use crate::spots::{Spot, Spots, add_chunk_spots};
use crate::tags::{add_chunk_tags, add_event_tags};
use std::alloc::{AllocError, Allocator};
use std::marker::Model;
use tag_pattern::Tag;

/// A buffer with the sink of its output. Serials count from 0; a chunk that went leaves its place
/// empty. It knows to which serials an acknowledgement was ever given, also before a restart. To
/// contracts it is these lists.
///
/// A restart costs nothing, but for what was in memory: claims, evidence and that a chunk was
/// forwarded are kept with a generation, and a restart begins a new one.
#[derive(Drop)]
pub struct Buffer<A: Allocator> {
    chunks: Vec<Option<Chunk<A>>, A>,
    sink: Vec<Event<A>, A>,
    answered: Vec<bool, A>,
    // one element for each change of a stage: a count that can't overflow
    claims: Vec<(), A>,
    generation: usize,
    // nothing below this serial is queued
    least: usize,
}

impl<A: Allocator> Model for Buffer<A> {
    ghost use Rattle.std.specs.Prelude.{length};
    ghost use Rattle.custody_store.specs.Contents.{Contents};
    ghost use Rattle.custody_store.specs.Marks.{contents_from, IsSound};

    ghost Value = { Contents };

    ghost view = { λ b. contents_from b.generation b.chunks.items b.sink.items b.answered.items };

    ghost invariant = { λ b. IsSound (length b.claims.items) b.generation b.least b.chunks.items };
}

impl<A: Allocator + Copy> Buffer<A> {
    /// Nothing was ever appended.
    pub fn new(alloc: A) -> Self
        ensures { result ≡ empty_contents }
    {
        Buffer {
            chunks: Vec::new(alloc),
            sink: Vec::new(alloc),
            answered: Vec::new(alloc),
            claims: Vec::new(alloc),
            generation: 0,
            least: 0,
        }
    }

    /// The live chunk of this serial, as far as it is asked for.
    pub fn look(&self, serial: usize) -> Option<Look>
        ensures { result ≡ option_map look_of (chunk_at self.now.chunks serial) }
    {
        match self.chunks.get(serial) {
            Some(slot) => chunk::look_at(slot, self.generation),
            None => None,
        }
    }

    /// The events in the sink, in the order in which they came.
    pub fn sink(&self) -> &[Event<A>]
        ensures { stored_events result.now ≡ self.now.sink }
    {
        self.sink.as_slice()
    }

    /// Whether the event is in a live chunk or in the sink. It looks at each of them.
    pub fn holds(&self, tag: &[u8], entry: &[u8]) -> bool
        ensures { IsTrue result
            ↔ Holds (buffer_of self.now) (record { tag = tag.now; entry = entry.now }) }
    {
        chunk::have_entry(self.chunks.as_slice(), tag, entry)
            || has_event(self.sink.as_slice(), tag, entry)
    }

    /// The tag under which the entry is in the live chunk of this serial, or without one in the
    /// sink, at this place in that; if it is there.
    pub(crate) fn tag_at(&self, serial: Option<usize>, index: usize, entry: &[u8]) -> Option<&[u8]>
        ensures { IfSome result
            (λ tag. Holds (buffer_of self.now) (record { tag = tag.now; entry = entry.now })) }
    {
        match serial {
            Some(serial) => chunk::tag_in(self.chunks.get(serial)?, index, entry),
            None => tag_among(self.sink.as_slice(), index, entry),
        }
    }

    /// Adds the spots of the entries that it or its sink holds, which is this buffer of the relay
    /// at this place.
    pub(crate) fn add_spots(
        &self,
        spots: &mut Spots<A>,
        place: usize,
        buffer: usize,
    ) -> Result<(), AllocError> {
        let alloc = *self.chunks.allocator();
        for (serial, slot) in self.chunks.iter().enumerate() {
            if let Some(chunk) = slot {
                add_chunk_spots(spots, alloc, place, buffer, serial, &chunk.entries)?;
            }
        }
        for (index, event) in self.sink.iter().enumerate() {
            let spot = Spot {
                place,
                buffer,
                serial: None,
                index,
            };
            spots.add(alloc, &event.entry, spot)?;
        }
        Ok(())
    }

    /// Adds the tags under which it or its sink holds something.
    pub(crate) fn add_tags(&self, tags: &mut Vec<Vec<u8, A>, A>) -> Result<(), AllocError>
        ensures { OnOk result
            (Covers (HoldsUnder (buffer_of self.now)) (texts_of tags.old.items)
            (texts_of tags.new.items)) }
    {
        add_chunk_tags(tags, self.chunks.as_slice())?;
        add_event_tags(tags, self.sink.as_slice())
    }

    /// Whether an event of this tag may be appended at this serial: to a staged chunk of the tag,
    /// or at the next.
    pub fn takes(&self, serial: usize, tag: &[u8]) -> bool
        ensures { IsTrue result ↔ CanTake (buffer_of self.now) tag.now serial }
    {
        if serial < self.chunks.len() {
            chunk::is_staged_of(&self.chunks[serial], tag, self.generation)
        } else {
            serial == self.chunks.len()
        }
    }

    /// Whether an acknowledgement was ever given to this serial.
    pub fn is_answered(&self, serial: usize) -> bool
        ensures { result ≡ flag_at self.now.answered serial }
    {
        match self.answered.get(serial) {
            Some(flag) => *flag,
            None => false,
        }
    }

    /// A copy of the live chunk of this serial, if there is one.
    pub fn copied(&self, serial: usize) -> Result<Option<Copied<A>>, AllocError>
        ensures { IfOk result
            (λ copied. option_map copied_parts copied
            ≡ option_map parts_of (chunk_at self.now.chunks serial)) }
    {
        match self.chunks.get(serial) {
            Some(slot) => chunk::copy_of(*self.chunks.allocator(), slot),
            None => Ok(None),
        }
    }

    /// Puts the live chunk of this serial into this stage. An `Err` changes nothing.
    pub fn restage(&mut self, serial: usize, stage: Stage) -> Result<(), AllocError>
        requires { serial < length self.old.chunks }
        ensures ok { OnOk result
            (self.new ≡ record self.old {
              chunks = changed self.old.chunks serial
                  (λ chunk. Some (record chunk { stage = stage }));
            }) }
        ensures err { OnErr result (self.new ≡ self.old) }
    {
        self.claims.push(())?;
        self.least = lesser(serial, self.least);
        let kept = chunk::kept_at(stage, self.generation);
        chunk::restage(&mut self.chunks[serial], kept);
        Ok(())
    }

    /// Gives the claimed chunk of this serial evidence that it is delivered.
    pub fn prove_delivered(&mut self, serial: usize)
        requires { IsSomeAnd (chunk_at self.old.chunks serial)
            (λ chunk. chunk.stage ≡ Stage.Claimed) }
        ensures { self.new ≡ record
            self.old {
              chunks = changed self.old.chunks serial
                  (λ chunk. Some (record chunk { evidence = true }));
            } }
    {
        chunk::prove_delivered(&mut self.chunks[serial], self.generation);
    }

    /// Marks the claimed chunk of this serial as forwarded.
    pub fn mark_forwarded(&mut self, serial: usize)
        requires { IsSomeAnd (chunk_at self.old.chunks serial)
            (λ chunk. chunk.stage ≡ Stage.Claimed) }
        ensures { self.new ≡ record
            self.old {
              chunks = changed self.old.chunks serial
                  (λ chunk. Some (record chunk { forwarded = true }));
            } }
    {
        chunk::mark_forwarded(&mut self.chunks[serial], self.generation);
    }

    /// Lets the live chunk of this serial go.
    pub fn remove(&mut self, serial: usize)
        requires { serial < length self.old.chunks }
        ensures { self.new ≡ record
            self.old { chunks = changed self.old.chunks serial (λ chunk. None) } }
    {
        chunk::remove(&mut self.chunks[serial]);
    }

    /// Stores the first entries of a chunk, so many of them, in the sink. An `Err` changes nothing.
    pub fn store_first(&mut self, serial: usize, count: usize) -> Result<(), AllocError>
        requires there { serial < length self.old.chunks }
        requires has { ForSome (chunk_at self.old.chunks serial)
            (λ chunk. count ≤ length chunk.entries) }
        ensures ok { OnOk result
            (self.new ≡ record self.old {
              sink = self.old.sink ++ option_map_or
                  (λ chunk. events_of chunk.tag (take count chunk.entries))
                  (chunk_at self.old.chunks serial) [];
            }) }
        ensures err { OnErr result (self.new ≡ self.old) }
    {
        let alloc = *self.sink.allocator();
        let mut events = chunk::first_events(alloc, &self.chunks[serial], count)?;
        self.sink.append(&mut events)?;
        Ok(())
    }

    // Adds entries to the live chunk of this serial. An `Err` changes nothing.
    fn grow(&mut self, serial: usize, entries: &[Vec<u8, A>]) -> Result<(), AllocError>
        requires { serial < length self.old.chunks }
        ensures ok { OnOk result
            (self.new ≡ record self.old {
              chunks = changed self.old.chunks serial
                  (λ chunk.
                  Some (record chunk { entries = chunk.entries ++ texts_of entries.now }));
            }) }
        ensures err { OnErr result (self.new ≡ self.old) }
    {
        let alloc = *self.chunks.allocator();
        let mut copies = copy_texts(alloc, entries)?;
        chunk::extend(&mut self.chunks[serial], &mut copies)?;
        Ok(())
    }

    // Puts entries into a new chunk, with the next serial. An `Err` changes nothing.
    fn add_chunk(&mut self, tag: &Tag<A>, entries: &[Vec<u8, A>]) -> Result<(), AllocError>
        ensures ok { OnOk result
            (self.new ≡ record self.old {
              chunks = self.old.chunks ++ Some
                  (record {
                    tag = tag.now;
                    entries = texts_of entries.now;
                    stage = Stage.Staged;
                    evidence = false;
                    forwarded = false;
                  }) ∷ [];
            }) }
        ensures err { OnErr result (self.new ≡ self.old) }
    {
        let alloc = *self.chunks.allocator();
        let added = Chunk {
            tag: tag.copied(alloc)?,
            entries: copy_texts(alloc, entries)?,
            stage: Kept::Staged,
            evidence: None,
            forwarded: None,
        };
        self.chunks.push(Some(added))?;
        Ok(())
    }

    /// Appends entries under their tag at this serial, which takes them. An `Err` changes nothing.
    pub fn take_in(
        &mut self,
        serial: usize,
        tag: &Tag<A>,
        entries: &[Vec<u8, A>],
    ) -> Result<(), AllocError>
        requires { CanTake (buffer_of self.old) tag.now serial }
        ensures ok { OnOk result
            (self.new ≡ record self.old {
              chunks = taken_in self.old.chunks serial tag.now
                  (texts_of entries.now);
            }) }
        ensures err { OnErr result (self.new ≡ self.old) }
    {
        if serial < self.chunks.len() {
            self.grow(serial, entries)
        } else {
            self.add_chunk(tag, entries)
        }
    }

    /// The least serial whose chunk is queued, if one is. It takes time for each serial that it
    /// passes, but passes none again until a chunk of lesser serial is queued or the relay starts
    /// again.
    pub fn oldest(&mut self) -> Option<usize>
        ensures same { self.new ≡ self.old }
        ensures some { IfSome result
            (λ serial. (serial < length self.old.chunks)
            × (is_queued (chunk_at self.old.chunks serial) ≡ true)
            × (none_queued_below serial (chunk_at self.old.chunks) ≡ true)) }
        ensures none { IfNone result
            ((serial : ℕ) → is_queued (chunk_at self.old.chunks serial) ≡ false) }
    {
        while self.least < self.chunks.len() {
            if chunk::waits(&self.chunks[self.least], self.generation) {
                return Some(self.least);
            }
            self.least += 1;
        }
        None
    }

    /// An acknowledgement is given to this serial. An `Err` changes nothing.
    pub fn answer(&mut self, serial: usize) -> Result<(), AllocError>
        ensures chunks { self.new.chunks ≡ self.old.chunks }
        ensures sink { self.new.sink ≡ self.old.sink }
        ensures ok { OnOk result (IsAnsweredToo self.old.answered serial self.new.answered) }
        ensures err { OnErr result
            ((s : ℕ) → flag_at self.new.answered s ≡ flag_at self.old.answered s) }
    {
        while self.answered.len() <= serial {
            self.answered.push(false)?;
        }
        self.answered[serial] = true;
        Ok(())
    }

    /// The relay stops and starts again: claimed chunks are queued, evidence and that a chunk was
    /// forwarded are forgotten. Chunks in memory are lost, and their serials begin anew.
    pub fn restart(&mut self, in_memory: bool)
        ensures { self.new ≡ record
            self.old { chunks = restarted_chunks in_memory self.old.chunks } }
    {
        if in_memory {
            self.lose_chunks()
        } else {
            self.begin_generation()
        }
    }

    // All chunks are lost, and serials begin anew.
    fn lose_chunks(&mut self)
        ensures { self.new ≡ record self.old { chunks = [] } }
    {
        self.chunks.clear();
        self.generation = self.claims.len();
        self.least = 0;
    }

    // What was claimed, delivered or forwarded so far is of an earlier generation from now on.
    fn begin_generation(&mut self)
        ensures { self.new ≡ record self.old { chunks = restarted_chunks false self.old.chunks } }
    {
        self.generation = self.claims.len();
        self.least = 0;
    }
}

// The lesser of two numbers.
fn lesser(a: usize, b: usize) -> usize
    ensures first { result ≤ a }
    ensures second { result ≤ b }
{
    if a < b { a } else { b }
}
