//! Room for the answer to a message, made before anything of it is stored.

ghost use Rattle.std.specs.Prelude.{◌≡◌, Some, None, length, IfOk, MatchOption, option_map};
ghost use Rattle.event_modes.specs.Reading.{meaning};
ghost use Rattle.ack_receipt.specs.Reservations.{asked_of, answer_to};

use book_audit::Leaf;
use event_modes::{Message, put_ack};
use std::alloc::{AllocError, Allocator};
use std::marker::Model;

/// How many bytes of an acknowledgement stand before the item that it repeats.
const HEAD_LEN: usize = 5;

/// Room for the answer to one message. Contracts see what it is for (the message's tag, how many
/// entries it has, and the item that is to be repeated) and, once it is filled, the answer's bytes,
/// the tag under which the message is stored, and the leaves that store it.
pub struct Reserved<A: Allocator> {
    tag: Vec<u8, A>,
    count: usize,
    ack: Option<Vec<u8, A>>,
    answer: Vec<u8, A>,
    // None while the room is empty.
    stored: Option<StoredAs<A>>,
}

// By hand, so that crates above don't prove again how its parts end.
impl<A: Allocator> Drop for Reserved<A> {
    fn drop(self) {
        let Reserved {
            tag: _,
            count: _,
            ack: _,
            answer: _,
            stored: _,
        } = self;
    }
}

/// Under which tag and in which buffers a message is stored.
#[derive(Drop)]
struct StoredAs<A: Allocator> {
    tag: Vec<u8, A>,
    leaves: Vec<Leaf, A>,
}

impl<A: Allocator> Model for Reserved<A> {
    ghost use Rattle.std.specs.Prelude.{◌≡◌, ◌≤◌, [], length, vec_capacity, option_map, None};
    ghost use Rattle.ack_receipt.specs.Reservations.{Reservation, answer_to};

    ghost Value = { Reservation };

    ghost view = { λ r. record {
      asked = record {
        tag = r.tag.items;
        count = r.count;
        ack = option_map (λ item. item.items) r.ack;
      };
      filled = option_map
          (λ stored. record {
            bytes = r.answer.items;
            tag = stored.tag.items;
            leaves = stored.leaves.items;
          }) r.stored;
    } };

    // While it is empty, there is room for the whole answer.
    ghost invariant = { λ r. r.stored ≡ None → (r.answer.items ≡ [])
        × (length (answer_to (option_map (λ item. item.items) r.ack)) ≤ vec_capacity r.answer) };
}

impl<A: Allocator + Copy> Reserved<A> {
    /// Room for the answer to this message, empty. The error is want of memory.
    pub fn for_message(alloc: A, message: &Message<A>) -> Result<Self, AllocError>
        ensures { IfOk result
            (λ reserved. reserved
            ≡ record { asked = asked_of (meaning message.now); filled = None }) }
    {
        let tag = Vec::from_slice(alloc, &message.tag)?;
        let ack = match &message.ack {
            Some(item) => Some(Vec::from_slice(alloc, item)?),
            None => None,
        };
        let answer = Vec::with_capacity(alloc, answer_len(&ack))?;
        Ok(Reserved {
            tag,
            count: message.entries.count(),
            ack,
            answer,
            stored: None,
        })
    }
}

impl<A: Allocator> Reserved<A> {
    /// The answer's bytes, none where the sender asked for none; `None` while the room is empty.
    pub fn answer(&self) -> Option<&[u8]>
        ensures { MatchOption result (self.now.filled ≡ None)
            (λ bytes. option_map (λ answer. answer.bytes) self.now.filled ≡ Some bytes.now) }
    {
        match &self.stored {
            Some(_) => Some(&self.answer),
            None => None,
        }
    }

    /// The buffers that store the message; `None` while the room is empty.
    pub fn leaves(&self) -> Option<&[Leaf]>
        ensures { MatchOption result (self.now.filled ≡ None)
            (λ leaves. option_map (λ answer. answer.leaves) self.now.filled ≡ Some leaves.now) }
    {
        match &self.stored {
            Some(stored) => Some(&stored.leaves),
            None => None,
        }
    }

    /// The tag under which the message is stored; `None` while the room is empty.
    pub fn tag(&self) -> Option<&[u8]>
        ensures { MatchOption result (self.now.filled ≡ None)
            (λ tag. option_map (λ answer. answer.tag) self.now.filled ≡ Some tag.now) }
    {
        match &self.stored {
            Some(stored) => Some(&stored.tag),
            None => None,
        }
    }

    /// Writes the answer to a message that these buffers store under this tag.
    pub(crate) fn fill(&mut self, tag: Vec<u8, A>, leaves: Vec<Leaf, A>)
        requires { self.old.filled ≡ None }
        ensures { self.new ≡ record
            self.old {
              filled = Some
                  (record {
                    bytes = answer_to self.old.asked.ack;
                    tag = tag.items;
                    leaves = leaves.items;
                  });
            } }
    {
        if let Some(item) = &self.ack {
            // There is room.
            let _ = put_ack(&mut self.answer, item);
        }
        self.stored = Some(StoredAs { tag, leaves });
    }
}

// How many bytes the answer has.
fn answer_len<A: Allocator>(ack: &Option<Vec<u8, A>>) -> usize
    ensures { result ≡ length (answer_to (option_map (λ item. item.items) ack.now)) }
{
    match ack {
        Some(item) => HEAD_LEN + item.len(),
        None => 0,
    }
}
