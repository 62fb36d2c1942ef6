//! A message on its way to the buffers that have to store it.

ghost use Rattle.std.specs.Prelude.{◌≡◌, ◌≤◌, ◌+◌, ◌++◌, ◌↔◌, [], ◌∷◌, Some, None, map, option_map, Contains, IsTrue, IsOk, IfOk, IfErr, OnOk, OnErr, All, vec_len, vec_capacity};
ghost use Rattle.event_modes.specs.Reading.{meaning};
ghost use Rattle.ack_receipt.specs.Deliveries.{HasEachReceipt, IsAdded, IsFor, IsReceived, part_of, tag_or};
ghost use Rattle.ack_receipt.specs.Reservations.{asked_of, answer_of};

use crate::locked::Receipt;
use crate::number::DeliveryNo;
use crate::reserved::Reserved;
use book_audit::{BookFault, Leaf, Part, Stub};
use event_modes::{Entries, Message};
use std::alloc::{AllocError, AllocFailed, Allocator};
use std::marker::Model;

/// An open delivery, which waits for a receipt of each of its leaves. It can be neither copied nor
/// dropped: it ends by `acknowledge` or `abandon`. Contracts see an `OpenDelivery`.
pub struct Delivery<A: Allocator> {
    number: DeliveryNo,
    message: Message<A>,
    // None is the message's own.
    tag: Option<Vec<u8, A>>,
    leaves: Vec<Leaf, A>,
    receipts: Vec<Receipt<A>, A>,
    // Empty, with room for each receipt's part.
    parts: Vec<Part, A>,
}

impl<A: Allocator> Model for Delivery<A> {
    ghost use Rattle.std.specs.Prelude.{◌≡◌, ◌≤◌, [], vec_len, vec_capacity, option_map};
    ghost use Rattle.event_modes.specs.Reading.{meaning};
    ghost use Rattle.ack_receipt.specs.Deliveries.{OpenDelivery, tag_or};
    ghost use Rattle.ack_receipt.specs.Holding.{IsHeld};

    ghost Value = { OpenDelivery };

    ghost view = { λ d. record {
      number = d.number;
      message = meaning d.message;
      tag = tag_or (meaning d.message) (option_map (λ tag. tag.items) d.tag);
      leaves = d.leaves.items;
      receipts = d.receipts.items;
    } };

    // The receipts are of this delivery, each of another leaf, so that each leaf's receipt and part
    // have room.
    ghost invariant = { λ d. ∥ IsHeld d.number d.leaves.items d.receipts.items ∥₁
        × (vec_len d.receipts ≤ vec_len d.leaves) × (vec_len d.leaves ≤ vec_capacity d.receipts)
        × (vec_len d.leaves ≤ vec_capacity d.parts) × (d.parts.items ≡ []) };
}

/// What a delivery would have been, had there been memory.
#[derive(Drop)]
pub struct Unbegun<A: Allocator> {
    pub number: DeliveryNo,
    pub message: Message<A>,
    pub leaves: Vec<Leaf, A>,
}

impl<A: Allocator + Copy> Delivery<A> {
    /// Opens the delivery of a message to these leaves, with room for a receipt and a part of each.
    /// Its entries are appended under the message's tag.
    ///
    /// The error is want of memory, and hands everything back.
    pub fn begin(
        alloc: A,
        number: DeliveryNo,
        message: Message<A>,
        leaves: Vec<Leaf, A>,
    ) -> Result<Delivery<A>, AllocFailed<Unbegun<A>>>
        ensures opens { IfOk result
            (λ d. d ≡ record {
              number = number;
              message = meaning message;
              tag = (meaning message).tag;
              leaves = leaves.items;
              receipts = [];
            }) }
        ensures back { IfErr result
            (λ failed. failed.value
            ≡ record { number = number; message = message; leaves = leaves }) }
    {
        begin_under(alloc, number, message, None, leaves)
    }

    /// The same, with entries that are appended under this tag in place of the message's own. The
    /// message stays the one that is answered.
    ///
    /// The error is want of memory, and hands everything but the tag back.
    pub fn begin_as(
        alloc: A,
        number: DeliveryNo,
        message: Message<A>,
        tag: &[u8],
        leaves: Vec<Leaf, A>,
    ) -> Result<Delivery<A>, AllocFailed<Unbegun<A>>>
        ensures opens { IfOk result
            (λ d. d ≡ record {
              number = number;
              message = meaning message;
              tag = tag.now;
              leaves = leaves.items;
              receipts = [];
            }) }
        ensures back { IfErr result
            (λ failed. failed.value
            ≡ record { number = number; message = message; leaves = leaves }) }
    {
        let Ok(tag) = Vec::from_slice(alloc, tag) else {
            let value = Unbegun {
                number,
                message,
                leaves,
            };
            return Err(AllocFailed { value });
        };
        begin_under(alloc, number, message, Some(tag), leaves)
    }
}

// Opens a delivery whose entries are appended under this tag, or the message's own.
fn begin_under<A: Allocator + Copy>(
    alloc: A,
    number: DeliveryNo,
    message: Message<A>,
    tag: Option<Vec<u8, A>>,
    leaves: Vec<Leaf, A>,
) -> Result<Delivery<A>, AllocFailed<Unbegun<A>>>
    ensures opens { IfOk result
        (λ d. d ≡ record {
          number = number;
          message = meaning message;
          tag = tag_or (meaning message) (option_map (λ tag. tag.items) tag);
          leaves = leaves.items;
          receipts = [];
        }) }
    ensures back { IfErr result
        (λ failed. failed.value ≡ record { number = number; message = message; leaves = leaves }) }
{
    let Ok((receipts, parts)) = room_for(alloc, leaves.len()) else {
        let value = Unbegun {
            number,
            message,
            leaves,
        };
        return Err(AllocFailed { value });
    };
    Ok(Delivery {
        number,
        message,
        tag,
        leaves,
        receipts,
        parts,
    })
}

impl<A: Allocator> Delivery<A> {
    /// Adds a receipt behind the others. It takes no memory.
    ///
    /// The errors hand both back as they were. `BookFault::Stranger` comes exactly where the
    /// receipt is of another delivery, or of a buffer that this one doesn't go to;
    /// `BookFault::Double` exactly where it isn't a stranger and a receipt of its buffer was added
    /// already.
    pub fn add(
        mut self,
        receipt: Receipt<A>,
    ) -> Result<Delivery<A>, (BookFault, Delivery<A>, Receipt<A>)>
        ensures when { IsOk result ↔ (IsFor self receipt × ¬ IsAdded self receipt) }
        ensures added { IfOk result
            (λ delivery. delivery ≡ record self { receipts = self.receipts ++ receipt ∷ [] }) }
        ensures stranger { IfErr result
            (λ refused. (refused.0 ≡ BookFault.Stranger) ↔ (¬ IsFor self receipt)) }
        ensures double { IfErr result
            (λ refused. (refused.0 ≡ BookFault.Double)
            ↔ (IsFor self receipt × IsAdded self receipt)) }
        ensures back { IfErr result (λ refused. (refused.1 ≡ self) × (refused.2 ≡ receipt)) }
    {
        if !self.is_for(&receipt) {
            return Err((BookFault::Stranger, self, receipt));
        }
        if has_receipt(&self.receipts, self.number.get(), receipt.leaf()) {
            return Err((BookFault::Double, self, receipt));
        }
        self.receipts.push_reserved(receipt);
        Ok(self)
    }

    /// Answers the message, where each leaf has given a receipt, into the empty room that was made
    /// for it.
    /// It takes no memory.
    ///
    /// `BookFault::Missing` comes exactly where a leaf's receipt is missing; it hands the delivery
    /// back, and leaves it and the room as they were.
    pub fn acknowledge(
        self,
        reserved: &mut Reserved<A>,
    ) -> Result<Stub<A>, (BookFault, Delivery<A>)>
        requires empty { reserved.old.filled ≡ None }
        requires made { reserved.old.asked ≡ asked_of self.message }
        ensures when { IsOk result ↔ HasEachReceipt self }
        ensures stub { IfOk result
            (λ stub. (stub.delivery ≡ self.number) × (stub.parts ≡ map part_of self.receipts)) }
        ensures answer { OnOk result
            (reserved.new ≡ record reserved.old { filled = Some (answer_of self) }) }
        ensures missing { IfErr result
            (λ refused. (refused.0 ≡ BookFault.Missing) × (refused.1 ≡ self)) }
        ensures kept { OnErr result (reserved.new ≡ reserved.old) }
    {
        if !self.has_each_receipt() {
            return Err((BookFault::Missing, self));
        }
        let (stub, tag, leaves) = self.end();
        reserved.fill(tag, leaves);
        Ok(stub)
    }

    /// Ends the delivery without an answer. It takes no memory.
    pub fn abandon(self) -> Stub<A>
        ensures number { result.delivery ≡ self.number }
        ensures parts { result.parts ≡ map part_of self.receipts }
    {
        let (stub, _, _) = self.end();
        stub
    }

    // Whether the receipt is of this delivery and of one of its leaves.
    fn is_for(&self, receipt: &Receipt<A>) -> bool
        ensures { IsTrue result ↔ IsFor self.now receipt.now }
    {
        receipt.delivery() == self.number.get() && has_leaf(&self.leaves, receipt.leaf())
    }

    fn has_each_receipt(&self) -> bool
        ensures { IsTrue result ↔ HasEachReceipt self.now }
    {
        have_receipts(&self.leaves, self.number.get(), &self.receipts)
    }

    /// The number of the delivery.
    pub fn number(&self) -> u64
        ensures { result ≡ self.now.number }
    {
        self.number.get()
    }

    /// The content of the tag that its entries are appended under.
    pub fn tag(&self) -> &[u8]
        ensures { result.now ≡ self.now.tag }
    {
        match &self.tag {
            Some(tag) => tag,
            None => &self.message.tag,
        }
    }

    /// The message's entries.
    pub fn entries(&self) -> &Entries<A>
        ensures { result.now ≡ self.now.message.entries }
    {
        &self.message.entries
    }

    // What is left, the tag, and the leaves.
    fn end(self) -> (Stub<A>, Vec<u8, A>, Vec<Leaf, A>)
        ensures number { result.0.delivery ≡ self.number }
        ensures parts { result.0.parts ≡ map part_of self.receipts }
        ensures tag { result.1.items ≡ self.tag }
        ensures leaves { result.2.items ≡ self.leaves }
    {
        let Delivery {
            number,
            message,
            tag,
            leaves,
            receipts,
            parts,
        } = self;
        let Message {
            tag: own,
            entries: _,
            ack: _,
        } = message;
        let tag = match tag {
            Some(tag) => tag,
            None => own,
        };
        let stub = Stub {
            delivery: number.get(),
            parts: spend(receipts, parts),
        };
        (stub, tag, leaves)
    }
}

// Empty lists with room for so many receipts and their parts.
fn room_for<A: Allocator + Copy>(
    alloc: A,
    count: usize,
) -> Result<(Vec<Receipt<A>, A>, Vec<Part, A>), AllocError>
    ensures { IfOk result
        (λ lists. (lists.0.items ≡ []) × (lists.1.items ≡ []) × (count ≤ vec_capacity lists.0)
        × (count ≤ vec_capacity lists.1)) }
{
    let parts = Vec::with_capacity(alloc, count)?;
    // What may hold receipts can't be dropped, so it comes last.
    let receipts = Vec::with_capacity(alloc, count)?;
    Ok((receipts, parts))
}

// Whether each of the leaves has one.
fn have_receipts<A: Allocator>(leaves: &[Leaf], number: u64, receipts: &[Receipt<A>]) -> bool
    ensures { IsTrue result ↔ All (IsReceived number receipts.now) leaves.now }
{
    leaves
        .iter()
        .all(|leaf| has_receipt(receipts, number, *leaf))
}

fn has_receipt<A: Allocator>(receipts: &[Receipt<A>], number: u64, leaf: Leaf) -> bool
    ensures { IsTrue result ↔ IsReceived number receipts.now leaf }
{
    receipts.iter().any(|receipt| receipt.is_of(number, leaf))
}

fn has_leaf(leaves: &[Leaf], leaf: Leaf) -> bool
    ensures { IsTrue result ↔ Contains leaves.now leaf }
{
    leaves.iter().any(|other| *other == leaf)
}

// Adds the parts of the receipts.
fn spend<A: Allocator>(receipts: Vec<Receipt<A>, A>, mut parts: Vec<Part, A>) -> Vec<Part, A>
    requires { vec_len parts + vec_len receipts ≤ vec_capacity parts }
    ensures { result.items ≡ parts.items ++ map part_of receipts.items }
{
    let mut rest = receipts.into_iter();
    while let Some(receipt) = rest.next() {
        parts.push_reserved(receipt.into_part());
    }
    rest.destroy_empty();
    parts
}
