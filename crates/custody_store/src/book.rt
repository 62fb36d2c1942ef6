//! The book of a network: messages, deliveries and acknowledged events.

ghost use Rattle.std.specs.Prelude.{◌≡◌, ◌↔◌, ◌<◌, ◌++◌, [], ◌∷◌, false, true, length, map, option_map, slice_get, OnOk, OnErr, IsTrue, IsSomeAnd, Contains};
ghost use Rattle.std.specs.Option.{option_copied, option_map_or};
ghost use Rattle.step_lines.specs.Texts.{texts_of};
ghost use Rattle.custody_store.specs.Book.{empty_book, changed_at, acknowledged_message, events_told, told_events, appended_to_buffer, ended, with_room, less_room, HasRoom};

use crate::delivery::Delivery;
use crate::message::{Acknowledged, Message};
use crate::sender::Sender;
use relay_net::{Address, Entrance};
use std::alloc::{AllocError, Allocator};
use std::marker::Model;
use tag_pattern::Tag;

/// All messages that were ever sent in a network, all deliveries of them, and the events that were
/// acknowledged to clients. Messages and deliveries are numbered from 0. It knows no rule of the
/// network's steps.
#[derive(Drop)]
pub struct Book<A: Allocator> {
    messages: Vec<Message<A>, A>,
    deliveries: Vec<Delivery<A>, A>,
    acknowledged: Vec<Acknowledged<A>, A>,
}

impl<A: Allocator> Model for Book<A> {
    ghost use Rattle.custody_store.specs.Book as book;

    ghost Value = { book.Book };

    ghost view = { λ b. book.book_from b.messages.items b.deliveries.items
        (book.told_events b.acknowledged.items) };
}

impl<A: Allocator + Copy> Book<A> {
    /// Nothing was ever sent.
    pub fn new(alloc: A) -> Self
        ensures { result ≡ empty_book }
    {
        Book {
            messages: Vec::new(alloc),
            deliveries: Vec::new(alloc),
            acknowledged: Vec::new(alloc),
        }
    }

    /// How many messages were sent.
    pub fn message_count(&self) -> usize
        ensures { result ≡ length self.now.messages }
    {
        self.messages.len()
    }

    /// How many deliveries were opened.
    pub fn delivery_count(&self) -> usize
        ensures { result ≡ length self.now.deliveries }
    {
        self.deliveries.len()
    }

    /// The message of this number, if there is one.
    pub fn message(&self, number: usize) -> Option<&Message<A>>
        ensures { option_copied result ≡ slice_get self.now.messages number }
    {
        self.messages.get(number)
    }

    /// The delivery of this number, if there is one.
    pub fn delivery(&self, number: usize) -> Option<&Delivery<A>>
        ensures { option_map (λ d. d.delivery) (option_copied result)
            ≡ slice_get self.now.deliveries number }
    {
        self.deliveries.get(number)
    }

    /// The events that were acknowledged to clients, in that order.
    pub fn acknowledged(&self) -> &[Acknowledged<A>]
        ensures { told_events result.now ≡ self.now.acknowledged }
    {
        self.acknowledged.as_slice()
    }

    /// Whether the delivery of this number is there and was appended to this buffer.
    pub fn has_appended(&self, delivery: usize, buffer: usize) -> bool
        ensures { IsTrue result
            ↔ IsSomeAnd (slice_get self.now.deliveries delivery) (λ d. Contains d.appended buffer) }
    {
        match self.delivery(delivery) {
            Some(found) => found.has_appended(buffer),
            None => false,
        }
    }

    /// A message is sent to this address, with copies of the tag and the entries. An `Err` changes
    /// nothing.
    pub fn send(
        &mut self,
        sender: Sender,
        address: Address<A>,
        tag: &Tag<A>,
        entries: &[Vec<u8, A>],
    ) -> Result<(), AllocError>
        ensures ok { OnOk result
            (self.new ≡ record self.old {
              messages = self.old.messages ++ record {
                sender = sender;
                address = address;
                tag = tag.now;
                entries = texts_of entries.now;
                acknowledged = false;
              } ∷ [];
            }) }
        ensures err { OnErr result (self.new ≡ self.old) }
    {
        let alloc = *self.messages.allocator();
        let sent = Message::new(alloc, sender, address, tag, entries)?;
        self.messages.push(sent)?;
        Ok(())
    }

    /// A delivery of a message is opened where it comes in, under this tag, with room for so many
    /// buffers. An `Err` changes nothing.
    pub fn begin(
        &mut self,
        message: usize,
        entrance: Entrance,
        tag: Tag<A>,
        room: usize,
    ) -> Result<(), AllocError>
        ensures ok { OnOk result
            (self.new ≡ record self.old {
              deliveries = self.old.deliveries ++ record {
                message = message;
                entrance = entrance;
                tag = tag;
                appended = [];
                is_open = true;
              } ∷ [];
              room = self.old.room ++ room ∷ [];
            }) }
        ensures err { OnErr result (self.new ≡ self.old) }
    {
        let alloc = *self.messages.allocator();
        let opened = Delivery::new(alloc, message, entrance, tag, room)?;
        self.deliveries.push(opened)?;
        Ok(())
    }

    /// Makes room for one more buffer that the delivery is appended to, if it has none. An `Err`
    /// changes nothing.
    pub fn make_room(&mut self, delivery: usize) -> Result<(), AllocError>
        requires { delivery < length self.old.deliveries }
        ensures ok { OnOk result
            (self.new ≡ record self.old { room = changed_at self.old.room delivery with_room }) }
        ensures there { OnOk result (HasRoom self.new delivery) }
        ensures err { OnErr result (self.new ≡ self.old) }
    {
        let opened = &mut self.deliveries[delivery];
        opened.make_room()
    }

    /// The delivery was appended to this buffer, for which there is room.
    pub fn mark_appended(&mut self, delivery: usize, buffer: usize)
        requires { HasRoom self.old delivery }
        ensures { self.new ≡ record
            self.old {
              deliveries = changed_at self.old.deliveries delivery
                  (appended_to_buffer buffer);
              room = changed_at self.old.room delivery less_room;
            } }
    {
        let opened = &mut self.deliveries[delivery];
        opened.mark_appended(buffer);
    }

    /// The delivery ends.
    pub fn end(&mut self, delivery: usize)
        requires { delivery < length self.old.deliveries }
        ensures { self.new ≡ record
            self.old { deliveries = changed_at self.old.deliveries delivery ended } }
    {
        let opened = &mut self.deliveries[delivery];
        opened.end();
    }

    /// A relay of the network acknowledges the message to its sender. Where that is a client, its
    /// events are acknowledged, once each. An `Err` changes nothing.
    pub fn answer(&mut self, message: usize) -> Result<(), AllocError>
        requires { message < length self.old.messages }
        ensures ok { OnOk result
            (self.new ≡ record self.old {
              messages = changed_at self.old.messages message
                  acknowledged_message;
              acknowledged = self.old.acknowledged ++ option_map_or events_told
                  (slice_get self.old.messages message) [];
            }) }
        ensures err { OnErr result (self.new ≡ self.old) }
    {
        let alloc = *self.messages.allocator();
        let mut events = self.messages[message].events_told(alloc)?;
        self.acknowledged.append(&mut events)?;
        let sent = &mut self.messages[message];
        sent.acknowledge();
        Ok(())
    }

    /// The message is acknowledged to its sender, outside what clients are told: by somebody
    /// outside the network, or to a relay. No event becomes acknowledged to a client by that, and
    /// it takes no memory.
    pub fn answer_outside(&mut self, message: usize)
        requires { message < length self.old.messages }
        ensures { self.new ≡ record
            self.old { messages = changed_at self.old.messages message acknowledged_message } }
    {
        let marked = &mut self.messages[message];
        marked.acknowledge();
    }
}
