//! What each relay of a network has, by its place and the numbers of its buffers.

ghost use Rattle.std.specs.Prelude.{◌≡◌, ◌<◌, ◌≤◌, ◌++◌, ◌==◌, ◌&&◌, Some, None, [], ◌↔◌, ℕ, cond, IsSomeAnd, IsTrue, IfSome, IfNone, IfOk, OnOk, OnErr, take, length, option_map, true, false, Contains};
ghost use Rattle.std.specs.Option.{ForSome, option_map_or};
ghost use Rattle.step_lines.specs.Texts.{texts_of};
ghost use Rattle.custody_store.specs.Buffers.{Event, events_of, CanTake, Holds, is_queued, none_queued_below};
ghost use Rattle.custody_store.specs.Contents.{buffer_of, chunk_at, changed, look_of, flag_at, stored_events, taken_in, empty_contents, restarted_chunks, parts_of, contents_of, IsAnsweredToo};
ghost use Rattle.custody_store.specs.Copies.{copied_parts};

use crate::buffer::Buffer;
use crate::chunk::{Copied, Look, Stage};
use crate::event::Event as Stored;
use crate::spots::{Spot, Spots};
use crate::tags::add_place_tags;
use std::alloc::{AllocError, Allocator};
use tag_pattern::Tag;

// What a relay has. Its deliveries of a number below `closed` have ended.
#[derive(Drop)]
pub(crate) struct Place<A: Allocator> {
    pub buffers: Vec<Buffer<A>, A>,
    pub closed: usize,
}

ghost use Rattle.custody_store.specs.PlaceLists.{contents_in};

/// What the relays have, by their places and the numbers of their buffers: nothing, until there is
/// something.
#[derive(Drop)]
pub struct Places<A: Allocator> {
    list: Vec<Place<A>, A>,
}

impl<A: Allocator + Copy> Places<A> {
    ghost use Rattle.custody_store.specs.Places.{contents_at, closed_at, IsThere, IsChangedAt, AreSame, HoldAnywhere};

    /// Nothing was ever appended, and no relay started again.
    pub fn new(alloc: A) -> Self
        ensures contents { (p b : ℕ) → contents_at result p b ≡ empty_contents }
        ensures closed { (p : ℕ) → closed_at result p ≡ 0 }
    {
        Places {
            list: Vec::new(alloc),
        }
    }

    // The buffer, if there is one yet.
    fn buffer(&self, place: usize, buffer: usize) -> Option<&Buffer<A>>
        ensures some { IfSome result
            (λ b. IsThere self.now place buffer × (contents_at self.now place buffer ≡ b.now)) }
        ensures none { IfNone result (contents_at self.now place buffer ≡ empty_contents) }
    {
        match self.list.get(place) {
            Some(there) => there.buffers.get(buffer),
            None => None,
        }
    }

    /// The live chunk of this serial, as far as it is asked for.
    pub fn look(&self, place: usize, buffer: usize, serial: usize) -> Option<Look>
        ensures look { result
            ≡ option_map look_of (chunk_at (contents_at self.now place buffer).chunks serial) }
        ensures there { IfSome result (λ _. IsThere self.now place buffer) }
    {
        match self.buffer(place, buffer) {
            Some(found) => found.look(serial),
            None => None,
        }
    }

    /// Whether an event of this tag may be appended at this serial.
    pub fn takes(&self, place: usize, buffer: usize, serial: usize, tag: &[u8]) -> bool
        ensures { IsTrue result
            ↔ CanTake (buffer_of (contents_at self.now place buffer)) tag.now serial }
    {
        match self.buffer(place, buffer) {
            Some(found) => found.takes(serial, tag),
            None => serial == 0,
        }
    }

    /// Whether an acknowledgement was ever given to this id.
    pub fn is_answered(&self, place: usize, buffer: usize, serial: usize) -> bool
        ensures { result ≡ flag_at (contents_at self.now place buffer).answered serial }
    {
        match self.buffer(place, buffer) {
            Some(found) => found.is_answered(serial),
            None => false,
        }
    }

    /// A copy of the live chunk of this serial, if there is one.
    pub fn copied(
        &self,
        place: usize,
        buffer: usize,
        serial: usize,
    ) -> Result<Option<Copied<A>>, AllocError>
        ensures { IfOk result
            (λ copied. option_map copied_parts copied
            ≡ option_map parts_of (chunk_at (contents_at self.now place buffer).chunks serial)) }
    {
        match self.buffer(place, buffer) {
            Some(found) => found.copied(serial),
            None => Ok(None),
        }
    }

    /// What is in the sink of this buffer's output.
    pub fn sink(&self, place: usize, buffer: usize) -> &[Stored<A>]
        ensures { stored_events result.now ≡ (contents_at self.now place buffer).sink }
    {
        match self.buffer(place, buffer) {
            Some(found) => found.sink(),
            None => &[],
        }
    }

    /// Whether the event is in a live chunk of some buffer or in a sink. It looks at each of them.
    pub fn hold(&self, tag: &[u8], entry: &[u8]) -> bool
        ensures { IsTrue result
            ↔ HoldAnywhere self.now (record { tag = tag.now; entry = entry.now }) }
    {
        hold_any(self.list.as_slice(), tag, entry)
    }

    /// Whether the event is in a live chunk of this buffer, or in the sink of its output. It looks
    /// at each of them.
    pub fn holds(&self, place: usize, buffer: usize, tag: &[u8], entry: &[u8]) -> bool
        ensures { IsTrue result
            ↔ Holds (buffer_of (contents_at self.now place buffer))
            (record { tag = tag.now; entry = entry.now }) }
    {
        match self.buffer(place, buffer) {
            Some(found) => found.holds(tag, entry),
            None => false,
        }
    }

    /// Where all entries lie that buffers and sinks hold.
    pub fn spots(&self) -> Result<Spots<A>, AllocError> {
        let mut spots = Spots::new(*self.list.allocator());
        for (place, there) in self.list.iter().enumerate() {
            for (buffer, found) in there.buffers.iter().enumerate() {
                found.add_spots(&mut spots, place, buffer)?;
            }
        }
        Ok(spots)
    }

    /// The tag under which the entry is held at this spot, if it is held there.
    pub fn tag_at(&self, spot: Spot, entry: &[u8]) -> Option<&[u8]>
        ensures { IfSome result
            (λ tag. HoldAnywhere self.now (record { tag = tag.now; entry = entry.now })) }
    {
        let found = self.buffer(spot.place, spot.buffer)?;
        found.tag_at(spot.serial, spot.index, entry)
    }

    /// All tags under which something is held in a live chunk of some buffer or in a sink, and
    /// maybe others, each once.
    pub fn tags(&self) -> Result<Vec<Vec<u8, A>, A>, AllocError>
        ensures { IfOk result
            (λ tags. (event : Event) → HoldAnywhere self.now event
            → Contains (texts_of tags.items) event.tag) }
    {
        let mut tags = Vec::new(*self.list.allocator());
        add_place_tags(&mut tags, self.list.as_slice())?;
        Ok(tags)
    }

    /// Deliveries of a lesser number of the relay at this place have ended.
    pub fn closed(&self, place: usize) -> usize
        ensures { result ≡ closed_at self.now place }
    {
        match self.list.get(place) {
            Some(there) => there.closed,
            None => 0,
        }
    }

    /// Puts the live chunk of this serial into this stage. An `Err` changes nothing.
    pub fn restage(
        &mut self,
        place: usize,
        buffer: usize,
        serial: usize,
        stage: Stage,
    ) -> Result<(), AllocError>
        requires there { IsThere self.old place buffer }
        requires serial { serial < length (contents_at self.old place buffer).chunks }
        ensures ok { OnOk result
            (IsChangedAt self.old self.new place buffer
            (record (contents_at self.old place buffer) {
              chunks = changed
                  (contents_at self.old place buffer).chunks serial
                  (λ chunk. Some (record chunk { stage = stage }));
            })) }
        ensures err { OnErr result (AreSame self.old self.new) }
    {
        let there = &mut self.list[place];
        let found = &mut there.buffers[buffer];
        found.restage(serial, stage)
    }

    /// Gives the claimed chunk of this serial evidence that it is delivered.
    pub fn prove_delivered(&mut self, place: usize, buffer: usize, serial: usize)
        requires there { IsThere self.old place buffer }
        requires claimed { IsSomeAnd (chunk_at (contents_at self.old place buffer).chunks serial)
            (λ chunk. chunk.stage ≡ Stage.Claimed) }
        ensures { IsChangedAt self.old self.new place buffer
            (record (contents_at self.old place buffer) {
              chunks = changed
                  (contents_at self.old place buffer).chunks serial
                  (λ chunk. Some (record chunk { evidence = true }));
            }) }
    {
        let there = &mut self.list[place];
        let found = &mut there.buffers[buffer];
        found.prove_delivered(serial);
    }

    /// Marks the claimed chunk of this serial as forwarded.
    pub fn mark_forwarded(&mut self, place: usize, buffer: usize, serial: usize)
        requires there { IsThere self.old place buffer }
        requires claimed { IsSomeAnd (chunk_at (contents_at self.old place buffer).chunks serial)
            (λ chunk. chunk.stage ≡ Stage.Claimed) }
        ensures { IsChangedAt self.old self.new place buffer
            (record (contents_at self.old place buffer) {
              chunks = changed
                  (contents_at self.old place buffer).chunks serial
                  (λ chunk. Some (record chunk { forwarded = true }));
            }) }
    {
        let there = &mut self.list[place];
        let found = &mut there.buffers[buffer];
        found.mark_forwarded(serial);
    }

    /// Lets the live chunk of this serial go.
    pub fn remove(&mut self, place: usize, buffer: usize, serial: usize)
        requires there { IsThere self.old place buffer }
        requires serial { serial < length (contents_at self.old place buffer).chunks }
        ensures { IsChangedAt self.old self.new place buffer
            (record (contents_at self.old place buffer) {
              chunks = changed
                  (contents_at self.old place buffer).chunks serial (λ chunk. None);
            }) }
    {
        let there = &mut self.list[place];
        let found = &mut there.buffers[buffer];
        found.remove(serial);
    }

    /// Stores the first entries of a chunk, so many of them, in the sink. An `Err` changes nothing.
    pub fn store_first(
        &mut self,
        place: usize,
        buffer: usize,
        serial: usize,
        count: usize,
    ) -> Result<(), AllocError>
        requires there { IsThere self.old place buffer }
        requires serial { serial < length (contents_at self.old place buffer).chunks }
        requires has { ForSome (chunk_at (contents_at self.old place buffer).chunks serial)
            (λ chunk. count ≤ length chunk.entries) }
        ensures ok { OnOk result
            (IsChangedAt self.old self.new place buffer
            (record (contents_at self.old place buffer) {
              sink =
                  (contents_at self.old place buffer).sink ++ option_map_or
                  (λ chunk. events_of chunk.tag (take count chunk.entries))
                  (chunk_at (contents_at self.old place buffer).chunks serial) [];
            })) }
        ensures err { OnErr result (AreSame self.old self.new) }
    {
        let there = &mut self.list[place];
        let found = &mut there.buffers[buffer];
        found.store_first(serial, count)
    }

    /// Makes room for the buffer. An `Err` changes nothing either.
    pub fn make(&mut self, place: usize, buffer: usize) -> Result<(), AllocError>
        ensures there { OnOk result (IsThere self.new place buffer) }
        ensures same { AreSame self.old self.new }
    {
        self.make_place(place)?;
        widen(&mut self.list[place], buffer)
    }

    // Makes room for the relay. An `Err` changes nothing either.
    fn make_place(&mut self, place: usize) -> Result<(), AllocError>
        ensures there { OnOk result (place < length self.new.list.items) }
        ensures same { AreSame self.old self.new }
    {
        let alloc = *self.list.allocator();
        while self.list.len() <= place {
            let empty = Place {
                buffers: Vec::new(alloc),
                closed: 0,
            };
            self.list.push(empty)?;
        }
        Ok(())
    }

    /// Appends entries under their tag at this serial, which takes them. An `Err` changes nothing.
    pub fn take_in(
        &mut self,
        place: usize,
        buffer: usize,
        serial: usize,
        tag: &Tag<A>,
        entries: &[Vec<u8, A>],
    ) -> Result<(), AllocError>
        requires there { IsThere self.old place buffer }
        requires takes { CanTake (buffer_of (contents_at self.old place buffer)) tag.now serial }
        ensures ok { OnOk result
            (IsChangedAt self.old self.new place buffer
            (record (contents_at self.old place buffer) {
              chunks = taken_in
                  (contents_at self.old place buffer).chunks serial tag.now (texts_of entries.now);
            })) }
        ensures err { OnErr result (AreSame self.old self.new) }
    {
        let there = &mut self.list[place];
        let found = &mut there.buffers[buffer];
        found.take_in(serial, tag, entries)
    }

    /// The least serial whose chunk is queued, if one is. Nothing changes.
    pub fn oldest(&mut self, place: usize, buffer: usize) -> Option<usize>
        ensures same { AreSame self.old self.new }
        ensures there { IfSome result (λ _. IsThere self.new place buffer) }
        ensures some { IfSome result
            (λ serial. (serial < length (contents_at self.old place buffer).chunks)
            × (is_queued (chunk_at (contents_at self.old place buffer).chunks serial) ≡ true)
            × (none_queued_below serial (chunk_at (contents_at self.old place buffer).chunks)
            ≡ true)) }
        ensures none { IfNone result
            ((serial : ℕ) → is_queued (chunk_at (contents_at self.old place buffer).chunks serial)
            ≡ false) }
    {
        if self.buffer(place, buffer).is_none() {
            return None;
        }
        let there = &mut self.list[place];
        let found = &mut there.buffers[buffer];
        found.oldest()
    }

    /// An acknowledgement is given to this id. An `Err` changes nothing.
    pub fn answer(&mut self, place: usize, buffer: usize, serial: usize) -> Result<(), AllocError>
        requires there { IsThere self.old place buffer }
        ensures others { IsChangedAt self.old self.new place buffer
            (contents_at self.new place buffer) }
        ensures chunks { (contents_at self.new place buffer).chunks
            ≡ (contents_at self.old place buffer).chunks }
        ensures sink { (contents_at self.new place buffer).sink
            ≡ (contents_at self.old place buffer).sink }
        ensures ok { OnOk result
            (IsAnsweredToo (contents_at self.old place buffer).answered serial
            (contents_at self.new place buffer).answered) }
        ensures err { OnErr result
            ((s : ℕ) → flag_at (contents_at self.new place buffer).answered s
            ≡ flag_at (contents_at self.old place buffer).answered s) }
    {
        let there = &mut self.list[place];
        let found = &mut there.buffers[buffer];
        found.answer(serial)
    }

    /// How many buffers of the relay at this place there is room for.
    pub fn count(&self, place: usize) -> usize
        ensures there { (b : ℕ) → b < result → IsThere self.now place b }
        ensures empty { (b : ℕ) → result ≤ b → contents_at self.now place b ≡ empty_contents }
    {
        match self.list.get(place) {
            Some(there) => there.buffers.len(),
            None => 0,
        }
    }

    /// The relay of this buffer stops and starts again. All room is kept.
    pub fn restart(&mut self, place: usize, buffer: usize, in_memory: bool)
        requires there { IsThere self.old place buffer }
        ensures room { (b : ℕ) → IsThere self.old place b → IsThere self.new place b }
        ensures changed { IsChangedAt self.old self.new place buffer
            (record (contents_at self.old place buffer) {
              chunks = restarted_chunks in_memory
                  (contents_at self.old place buffer).chunks;
            }) }
    {
        let there = &mut self.list[place];
        let found = &mut there.buffers[buffer];
        found.restart(in_memory);
    }

    /// All deliveries of the relay at this place of a number below this have ended. An `Err`
    /// changes nothing.
    pub fn close(&mut self, place: usize, number: usize) -> Result<(), AllocError>
        ensures contents { (p b : ℕ) → contents_at self.new p b ≡ contents_at self.old p b }
        ensures ok { OnOk result
            ((p : ℕ) → closed_at self.new p ≡ cond (p == place) number (closed_at self.old p)) }
        ensures err { OnErr result ((p : ℕ) → closed_at self.new p ≡ closed_at self.old p) }
    {
        self.make_place(place)?;
        let there = &mut self.list[place];
        there.closed = number;
        Ok(())
    }
}

// Whether the event is in a live chunk of some buffer or in a sink.
fn hold_any<A: Allocator + Copy>(list: &[Place<A>], tag: &[u8], entry: &[u8]) -> bool
    ensures { IsTrue result
        ↔ ((p : ℕ) × (b : ℕ)
        × Holds (buffer_of (contents_in list.now p b))
        (record { tag = tag.now; entry = entry.now })) }
{
    for there in list {
        if holds_any(there.buffers.as_slice(), tag, entry) {
            return true;
        }
    }
    false
}

// Whether the event is in a live chunk of one of the buffers or in its sink.
fn holds_any<A: Allocator + Copy>(buffers: &[Buffer<A>], tag: &[u8], entry: &[u8]) -> bool
    ensures { IsTrue result
        ↔ ((b : ℕ) × Holds (buffer_of (contents_of buffers.now b))
        (record { tag = tag.now; entry = entry.now })) }
{
    for buffer in buffers {
        if buffer.holds(tag, entry) {
            return true;
        }
    }
    false
}

// Makes room for the buffer. An `Err` changes nothing either.
fn widen<A: Allocator + Copy>(place: &mut Place<A>, buffer: usize) -> Result<(), AllocError>
    ensures there { OnOk result (buffer < length place.new.buffers.items) }
    ensures contents { (b : ℕ)
        → contents_of place.new.buffers.items b ≡ contents_of place.old.buffers.items b }
    ensures closed { place.new.closed ≡ place.old.closed }
{
    let alloc = *place.buffers.allocator();
    while place.buffers.len() <= buffer {
        let empty = Buffer::new(alloc);
        place.buffers.push(empty)?;
    }
    Ok(())
}
