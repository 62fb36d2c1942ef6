//! Deliveries of messages to the buffers of a relay.

ghost use Rattle.std.specs.Prelude.{◌≡◌, ◌↔◌, ◌<◌, [], IfOk, OnOk, OnErr, IsTrue, Contains, true};
ghost use Rattle.custody_store.specs.Book.{appended_to_buffer, ended, with_room, less_room};

use relay_net::Entrance;
use std::alloc::{AllocError, Allocator};
use std::marker::Model;
use tag_pattern::Tag;

/// A delivery of a message, with the buffers of its relay that it was appended to.
#[derive(Drop)]
pub struct Delivery<A: Allocator> {
    message: usize,
    entrance: Entrance,
    tag: Tag<A>,
    appended: Vec<usize, A>,
    is_open: bool,
}

impl<A: Allocator> Model for Delivery<A> {
    ghost use Rattle.std.specs.Prelude.{◌-◌, vec_capacity, vec_len};
    ghost use Rattle.custody_store.specs.Book.{Opened};

    ghost Value = { Opened };

    ghost view = { λ d. record {
      delivery = record {
        message = d.message;
        entrance = d.entrance;
        tag = d.tag;
        appended = d.appended.items;
        is_open = d.is_open;
      };
      room = vec_capacity d.appended - vec_len d.appended;
    } };
}

impl<A: Allocator> Delivery<A> {
    /// An open delivery of the message that came in there, under this tag, with room for so many
    /// buffers.
    pub(crate) fn new(
        alloc: A,
        message: usize,
        entrance: Entrance,
        tag: Tag<A>,
        room: usize,
    ) -> Result<Delivery<A>, AllocError>
        ensures { IfOk result
            (λ d. d ≡ record {
              delivery = record {
                message = message;
                entrance = entrance;
                tag = tag;
                appended = [];
                is_open = true;
              };
              room = room;
            }) }
    {
        Ok(Delivery {
            message,
            entrance,
            tag,
            appended: Vec::with_capacity(alloc, room)?,
            is_open: true,
        })
    }

    /// The number of its message.
    pub fn message(&self) -> usize
        ensures { result ≡ self.now.delivery.message }
    {
        self.message
    }

    /// Where its message came in.
    pub fn entrance(&self) -> Entrance
        ensures { result ≡ self.now.delivery.entrance }
    {
        self.entrance
    }

    /// The tag that its events bear where it came in, under which they are appended.
    pub fn tag(&self) -> &Tag<A>
        ensures { result.now ≡ self.now.delivery.tag }
    {
        &self.tag
    }

    /// The buffers that it was appended to, in that order.
    pub fn appended(&self) -> &[usize]
        ensures { result.now ≡ self.now.delivery.appended }
    {
        self.appended.as_slice()
    }

    /// Whether it was appended to this buffer.
    pub fn has_appended(&self, buffer: usize) -> bool
        ensures { IsTrue result ↔ Contains self.now.delivery.appended buffer }
    {
        self.appended.contains(&buffer)
    }

    /// Whether nothing ended it by its number. (A restart of its relay ends it too, which is kept
    /// elsewhere.)
    pub fn is_open(&self) -> bool
        ensures { result ≡ self.now.delivery.is_open }
    {
        self.is_open
    }

    /// Makes room for one more buffer, if there is none. An `Err` changes nothing.
    pub(crate) fn make_room(&mut self) -> Result<(), AllocError>
        ensures ok { OnOk result (self.new ≡ record self.old { room = with_room self.old.room }) }
        ensures err { OnErr result (self.new ≡ self.old) }
    {
        self.appended.reserve_exact(1)
    }

    /// It was appended to this buffer, for which there is room.
    pub(crate) fn mark_appended(&mut self, buffer: usize)
        requires { 0 < self.old.room }
        ensures { self.new ≡ record {
          delivery = appended_to_buffer buffer self.old.delivery;
          room = less_room self.old.room;
        } }
    {
        self.appended.push_reserved(buffer);
    }

    /// It has ended.
    pub(crate) fn end(&mut self)
        ensures { self.new ≡ record self.old { delivery = ended self.old.delivery } }
    {
        self.is_open = false;
    }
}
