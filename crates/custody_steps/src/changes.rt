//! What a step changes: the live chunk that it names, the oldest of a buffer, and the answer to a
//! message.

ghost use Rattle.std.specs.Prelude.{◌≡◌, ◌↔◌, ◌≤◌, Some, None, IsSome, IsSomeAnd, IsTrue, IfSome, OnOk, OnErr, true, cond, length, take, slice_get};
ghost use Rattle.std.specs.Option.{ForSome};

use crate::found::Found;
use crate::world::World;
use custody_store::{Sender, Stage};
use std::alloc::{AllocError, Allocator};

impl<'n, A: Allocator + Copy> World<'n, A> {
    ghost use Rattle.custody_store.specs.Buffers.{without_oldest};
    ghost use Rattle.custody_steps.specs.Found.{chunk_of, with_found, stored_found};
    ghost use Rattle.custody_steps.specs.Steps.{HasQueued, IsAnswered, answered, with_answered};
    ghost use Rattle.custody_steps.specs.World.{with_buffer};
    ghost use Rattle.custody_steps.specs.WorldOf.{world_of, net_of};

    // Puts the chunk into this stage. An `Err` changes nothing.
    pub(crate) fn set_stage(&mut self, found: Found, stage: Stage) -> Result<(), AllocError>
        requires live { IsSome (chunk_of (world_of self.old) found) }
        ensures net { net_of self.new ≡ net_of self.old }
        ensures ok { OnOk result
            (world_of self.new ≡ with_found (world_of self.old) found
            (λ chunk. Some (record chunk { stage = stage }))) }
        ensures err { OnErr result (world_of self.new ≡ world_of self.old) }
    {
        self.places
            .restage(found.place, found.buffer, found.serial, stage)
    }

    // Gives the claimed chunk evidence that it is delivered.
    pub(crate) fn prove_delivered(&mut self, found: Found)
        requires claimed { IsSomeAnd (chunk_of (world_of self.old) found)
            (λ chunk. chunk.stage ≡ Stage.Claimed) }
        ensures net { net_of self.new ≡ net_of self.old }
        ensures world { world_of self.new
            ≡ with_found (world_of self.old) found
            (λ chunk. Some (record chunk { evidence = true })) }
    {
        self.places
            .prove_delivered(found.place, found.buffer, found.serial);
    }

    // The chunk goes.
    pub(crate) fn remove(&mut self, found: Found)
        requires live { IsSome (chunk_of (world_of self.old) found) }
        ensures net { net_of self.new ≡ net_of self.old }
        ensures world { world_of self.new ≡ with_found (world_of self.old) found (λ chunk. None) }
    {
        self.places.remove(found.place, found.buffer, found.serial);
    }

    // The first entries of the chunk, so many of them, are stored in the sink. An `Err` changes
    // nothing.
    pub(crate) fn store_first(&mut self, found: Found, count: usize) -> Result<(), AllocError>
        requires live { IsSome (chunk_of (world_of self.old) found) }
        requires has { ForSome (chunk_of (world_of self.old) found)
            (λ chunk. count ≤ length chunk.entries) }
        ensures net { net_of self.new ≡ net_of self.old }
        ensures ok { OnOk result
            (world_of self.new ≡ stored_found (world_of self.old) found (take count)) }
        ensures err { OnErr result (world_of self.new ≡ world_of self.old) }
    {
        self.places
            .store_first(found.place, found.buffer, found.serial, count)
    }

    // Whether an acknowledgement was ever given to the chunk's id.
    pub(crate) fn is_answered(&self, found: Found) -> bool
        ensures { IsTrue result
            ↔ IsAnswered (world_of self.now) found.place found.buffer found.serial }
    {
        self.places
            .is_answered(found.place, found.buffer, found.serial)
    }

    // The oldest queued chunk of the buffer goes, if there is one.
    pub(crate) fn remove_oldest(&mut self, place: usize, buffer: usize) -> bool
        ensures net { net_of self.new ≡ net_of self.old }
        ensures one { IsTrue result ↔ HasQueued ((world_of self.old).buffers place buffer) }
        ensures world { world_of self.new
            ≡ cond result (with_buffer (world_of self.old) place buffer without_oldest)
            (world_of self.old) }
    {
        let Some(serial) = self.places.oldest(place, buffer) else {
            return false;
        };
        self.places.remove(place, buffer, serial);
        true
    }

    // The message is acknowledged to its sender, and where that is a chunk, to its id. An `Err`
    // changes nothing.
    pub(crate) fn mark_answered(&mut self, message: usize, sender: Sender) -> Result<(), AllocError>
        requires { IsSomeAnd (slice_get (world_of self.old).messages message)
            (λ m. m.sender ≡ sender) }
        ensures net { net_of self.new ≡ net_of self.old }
        ensures ok { OnOk result (world_of self.new ≡ with_answered (world_of self.old) message) }
        ensures err { OnErr result (world_of self.new ≡ world_of self.old) }
    {
        let Sender::Chunk {
            place,
            buffer,
            serial,
        } = sender
        else {
            self.book.answer_outside(message);
            return Ok(());
        };
        self.places.make(place, buffer)?;
        self.places.answer(place, buffer, serial)?;
        self.book.answer_outside(message);
        Ok(())
    }

    // A relay acknowledges the message to its sender: where that is a client, its events are
    // acknowledged, once each. An `Err` changes nothing.
    pub(crate) fn answer(&mut self, message: usize, sender: Sender) -> Result<(), AllocError>
        requires { IsSomeAnd (slice_get (world_of self.old).messages message)
            (λ m. m.sender ≡ sender) }
        ensures net { net_of self.new ≡ net_of self.old }
        ensures ok { OnOk result
            (IfSome (slice_get (world_of self.old).messages message)
            (λ m. world_of self.new ≡ answered (world_of self.old) message m)) }
        ensures err { OnErr result (world_of self.new ≡ world_of self.old) }
    {
        match sender {
            Sender::Client { .. } => self.book.answer(message),
            Sender::Chunk { .. } => self.mark_answered(message, sender),
        }
    }
}
