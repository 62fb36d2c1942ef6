//! Messages that were sent, and the events of those that were acknowledged to clients.

ghost use Rattle.std.specs.Prelude.{◌≡◌, IfOk, true, false};
ghost use Rattle.step_lines.specs.Texts.{texts_of};
ghost use Rattle.custody_store.specs.Book.{acknowledged_message, events_told, told_events, told_to};

use crate::sender::Sender;
use crate::{Event, copy_texts};
use relay_net::Address;
use std::alloc::{AllocError, Allocator};
use std::marker::Model;
use tag_pattern::Tag;

/// An event that was acknowledged to a client, under the tag that the client sent.
#[derive(Drop)]
pub struct Acknowledged<A: Allocator> {
    /// The number of the client.
    pub client: usize,
    /// The event.
    pub event: Event<A>,
}

/// A message that was sent to an address. An acknowledgement of it was given to its sender, or not
/// yet.
#[derive(Drop)]
pub struct Message<A: Allocator> {
    sender: Sender,
    address: Address<A>,
    tag: Tag<A>,
    entries: Vec<Vec<u8, A>, A>,
    acknowledged: bool,
}

impl<A: Allocator> Model for Message<A> {
    ghost use Rattle.step_lines.specs.Texts.{texts_of};
    ghost use Rattle.custody_store.specs.Book as book;

    ghost Value = { book.Message };

    ghost view = { λ message. record {
      sender = message.sender;
      address = message.address;
      tag = message.tag;
      entries = texts_of message.entries.items;
      acknowledged = message.acknowledged;
    } };
}

impl<A: Allocator> Message<A> {
    /// A message with copies of these, not acknowledged yet.
    pub(crate) fn new(
        alloc: A,
        sender: Sender,
        address: Address<A>,
        tag: &Tag<A>,
        entries: &[Vec<u8, A>],
    ) -> Result<Message<A>, AllocError>
    where
        A: Copy,
        ensures { IfOk result
            (λ message. message
            ≡ record {
              sender = sender;
              address = address;
              tag = tag.now;
              entries = texts_of entries.now;
              acknowledged = false;
            }) }
    {
        Ok(Message {
            sender,
            address,
            tag: tag.copied(alloc)?,
            entries: copy_texts(alloc, entries)?,
            acknowledged: false,
        })
    }

    /// Who sent it.
    pub fn sender(&self) -> Sender
        ensures { result ≡ self.now.sender }
    {
        self.sender
    }

    /// Where it was sent to.
    pub fn address(&self) -> &Address<A>
        ensures { result.now ≡ self.now.address }
    {
        &self.address
    }

    /// The tag of its events.
    pub fn tag(&self) -> &Tag<A>
        ensures { result.now ≡ self.now.tag }
    {
        &self.tag
    }

    /// Its entries, in their order.
    pub fn entries(&self) -> &[Vec<u8, A>]
        ensures { texts_of result.now ≡ self.now.entries }
    {
        self.entries.as_slice()
    }

    /// Whether an acknowledgement of it was given to its sender.
    pub fn is_acknowledged(&self) -> bool
        ensures { result ≡ self.now.acknowledged }
    {
        self.acknowledged
    }

    /// An acknowledgement of it is given to its sender.
    pub(crate) fn acknowledge(&mut self)
        ensures { self.new ≡ acknowledged_message self.old }
    {
        self.acknowledged = true;
    }

    /// Copies of the events that an acknowledgement tells its client: none, where it is no
    /// client's, or was acknowledged.
    pub(crate) fn events_told(&self, alloc: A) -> Result<Vec<Acknowledged<A>, A>, AllocError>
    where
        A: Copy,
        ensures { IfOk result (λ events. told_events events.items ≡ events_told self.now) }
    {
        match self.sender {
            Sender::Client { number } if !self.acknowledged => {
                copy_told(alloc, number, self.tag.as_bytes(), self.entries.as_slice())
            }
            _ => Ok(Vec::new(alloc)),
        }
    }
}

// The entries as events that this client was told, in their order.
fn copy_told<A: Allocator + Copy>(
    alloc: A,
    client: usize,
    tag: &[u8],
    entries: &[Vec<u8, A>],
) -> Result<Vec<Acknowledged<A>, A>, AllocError>
    ensures { IfOk result
        (λ events. told_events events.items ≡ told_to client tag.now (texts_of entries.now)) }
{
    let mut events = Vec::new(alloc);
    for entry in entries {
        let event = Event {
            tag: Vec::from_slice(alloc, tag)?,
            entry: Vec::from_slice(alloc, entry.as_slice())?,
        };
        events.push(Acknowledged { client, event })?;
    }
    Ok(events)
}
