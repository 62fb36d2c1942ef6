//! Whether an entry is kept where it comes to, as far as some messages are known to have passed it
//! on to where it is kept.

ghost use Rattle.std.specs.Prelude.{◌↔◌, ◌≢◌, [], All, IfOk, IsSomeAnd, IsTrue, slice_get, ℕ, ◌≡◌};
ghost use Rattle.custody_store.specs.Branches.{buffers_of, IsPassedOn};
ghost use Rattle.custody_store.specs.Searches.{EachSoFar, IsPassedAmong, IsSettled, KeepsSoFar};

use crate::entering::entered;
use crate::{Book, Message, Places, Sender, has_text};
use relay_conf::BufferNo;
use relay_net::Net;
use route_graph::Way;
use std::alloc::{AllocError, Allocator};
use tag_pattern::TagError;

/// What a network has, and what was sent in it, for the search for one entry.
#[derive(Drop)]
pub(crate) struct Seen<'a, A: Allocator> {
    pub alloc: A,
    pub net: &'a Net<A>,
    pub places: &'a Places<A>,
    pub book: &'a Book<A>,
    pub entry: &'a [u8],
}

impl<A: Allocator + Copy> Seen<'_, A> {
    /// Whether the message has the entry and was acknowledged, and passed it on to where it is
    /// kept, as far as the messages of these numbers are known to have done so.
    pub(crate) fn is_settled(
        &self,
        message: &Message<A>,
        kept: &[usize],
    ) -> Result<bool, AllocError>
        ensures { IfOk result
            (λ yes. IsTrue yes ↔ IsSettled self.now.net.now
            (buffers_of self.now.places.now) self.now.book.now.messages self.now.entry.now kept.now
            message.now) }
    {
        if !message.is_acknowledged() {
            return Ok(false);
        }
        if !has_text(message.entries(), self.entry) {
            return Ok(false);
        }
        let address = message.address();
        self.each_keeps(
            address.host(),
            address.port(),
            message.tag().as_bytes(),
            kept,
        )
    }

    /// Whether the event of a message with this tag, sent to this host and port, comes to a buffer,
    /// and each buffer that it comes to keeps the entry, as far as the messages of these numbers
    /// are known to have passed it on to where it is kept.
    pub(crate) fn each_keeps(
        &self,
        host: &[u8],
        port: u16,
        tag: &[u8],
        kept: &[usize],
    ) -> Result<bool, AllocError>
        ensures { IfOk result
            (λ yes. IsTrue yes ↔ EachSoFar self.now.net.now
            (buffers_of self.now.places.now) self.now.book.now.messages self.now.entry.now kept.now
            (record { host = host.now; port = port }) tag.now) }
    {
        let Some(at) = self.net.entrance(host, port) else {
            return Ok(false);
        };
        let borne = match entered(self.alloc, self.net, host, port, tag) {
            Ok(borne) => borne,
            Err(TagError::TagTooLong) => return Ok(false),
            Err(TagError::Memory) => return Err(AllocError),
        };
        match self.net.way(at, &borne)? {
            Way::Loop => Ok(false),
            Way::Leaves(leaves) => {
                Ok(self.leaves_keep(at.relay, &leaves, borne.as_bytes(), kept))
            }
        }
    }

    // Whether there are such buffers of the relay, and each keeps the entry under this tag, as far
    // as that is known.
    fn leaves_keep(&self, place: usize, leaves: &[BufferNo], tag: &[u8], kept: &[usize]) -> bool
        ensures { IsTrue result
            ↔ ((leaves.now ≢ [])
            × All (λ leaf. KeepsSoFar
            (buffers_of self.now.places.now) self.now.book.now.messages self.now.entry.now kept.now
            place leaf.0 tag.now) leaves.now) }
    {
        if leaves.is_empty() {
            return false;
        }
        self.all_keep(place, leaves, tag, kept)
    }

    // Whether each of these buffers does.
    fn all_keep(&self, place: usize, leaves: &[BufferNo], tag: &[u8], kept: &[usize]) -> bool
        ensures { IsTrue result
            ↔ All (λ leaf. KeepsSoFar
            (buffers_of self.now.places.now) self.now.book.now.messages self.now.entry.now kept.now
            place leaf.0 tag.now) leaves.now }
    {
        for leaf in leaves {
            if !self.leaf_keeps(place, leaf.0, tag, kept) {
                return false;
            }
        }
        true
    }

    // Whether the buffer keeps the entry under this tag, as far as that is known.
    fn leaf_keeps(&self, place: usize, buffer: usize, tag: &[u8], kept: &[usize]) -> bool
        ensures { IsTrue result
            ↔ KeepsSoFar (buffers_of self.now.places.now) self.now.book.now.messages
            self.now.entry.now kept.now place buffer tag.now }
    {
        self.places.holds(place, buffer, tag, self.entry)
            || self.is_passed_among(place, buffer, tag, kept)
    }

    // Whether one of the messages of these numbers was sent from the buffer with the entry under
    // this tag, and acknowledged.
    fn is_passed_among(&self, place: usize, buffer: usize, tag: &[u8], kept: &[usize]) -> bool
        ensures { IsTrue result
            ↔ IsPassedAmong self.now.book.now.messages self.now.entry.now kept.now place buffer
            tag.now }
    {
        for number in kept {
            if self.is_passed_in(*number, place, buffer, tag) {
                return true;
            }
        }
        false
    }

    // Whether the message of this number is there, was sent from the buffer with the entry under
    // this tag, and was acknowledged.
    fn is_passed_in(&self, number: usize, place: usize, buffer: usize, tag: &[u8]) -> bool
        ensures { IsTrue result
            ↔ IsSomeAnd (slice_get self.now.book.now.messages number)
            (IsPassedOn self.now.entry.now place buffer tag.now) }
    {
        match self.book.message(number) {
            Some(message) => is_passed_on(message, self.entry, place, buffer, tag),
            None => false,
        }
    }
}

// Whether the message was sent from this buffer with the entry under this tag, and acknowledged.
fn is_passed_on<A: Allocator>(
    message: &Message<A>,
    entry: &[u8],
    place: usize,
    buffer: usize,
    tag: &[u8],
) -> bool
    ensures { IsTrue result ↔ IsPassedOn entry.now place buffer tag.now message.now }
{
    if !message.is_acknowledged() {
        return false;
    }
    if !is_from(message.sender(), place, buffer) {
        return false;
    }
    message.tag().as_bytes() == tag && has_text(message.entries(), entry)
}

// Whether it was sent from a chunk of this buffer.
fn is_from(sender: Sender, place: usize, buffer: usize) -> bool
    ensures { IsTrue result
        ↔ ((serial : ℕ) × (sender ≡ Sender.Chunk place buffer serial)) }
{
    match sender {
        Sender::Client { number: _ } => false,
        Sender::Chunk {
            place: p,
            buffer: b,
            serial: _,
        } => p == place && b == buffer,
    }
}
