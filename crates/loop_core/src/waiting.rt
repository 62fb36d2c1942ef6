//! A delivery that waits for its receipts.

ghost use Rattle.std.specs.Prelude.{◌≡◌, ◌++◌, ◌∷◌, [], None, false, map, Contains, IfOk, IfErr};
ghost use Rattle.ack_receipt.specs.Reservations.{asked_of};
ghost use Rattle.loop_core.specs.Collecting.{IsCollected, IsLeftOf, WaitsOnFor, those_later};
ghost use Rattle.loop_core.specs.Lanes.{AreAppended, EndsWith, KeepsLanes, listed_at};
ghost use Rattle.loop_core.specs.Waits.{HasEntries, awaited_by, left_of};
ghost use Rattle.relay_conf.specs.declared.output.BufferNo.{BufferNo};

use crate::lanes::Lanes;
use crate::unsettled::{Handed, Unsettled};
use ack_receipt::{Delivery, Reserved};
use disk_files::Dir;
use relay_conf::BufferNo;
use std::alloc::Allocator;
use std::marker::Model;
use std::sync::Wait;

/// A delivery whose entries were appended to each of its buffers, and the room for its answer.
pub struct Waiting<A: Allocator> {
    gathered: Gathered<A>,
    // Those whose receipts weren't there yet.
    buffers: Vec<BufferNo, A>,
}

impl<A: Allocator> Model for Waiting<A> {
    ghost use Rattle.loop_core.specs.Waits.{Waits};

    ghost Value = { Waits };

    ghost view = { λ w. record {
      awaited = w.gathered.awaited;
      receipts = w.gathered.receipts;
      buffers = w.buffers.items;
    } };
}

/// What became of a delivery.
pub enum Collected<A: Allocator> {
    /// It is acknowledged: this is the answer, and what is left.
    Answered(Reserved<A>, Unsettled<A>),
    /// It was abandoned: one of its buffers gave no receipt.
    Abandoned(Unsettled<A>),
    /// It waits for the next turn.
    Later(Waiting<A>),
}

impl<A: Allocator + Copy> Waiting<A> {
    /// Appends the delivery's entries to each of these buffers, which are its leaves in order, and
    /// waits for their receipts, with this room for its answer. No receipt came yet. Where a buffer
    /// refuses, the delivery is abandoned: none of the buffers has an append of it that waits for a
    /// receipt.
    pub fn begin<R: Wait, D: Dir + Drop>(
        rt: &R,
        lanes: &mut Lanes<D, A>,
        delivery: Delivery<A>,
        reserved: Reserved<A>,
        buffers: Vec<BufferNo, A>,
    ) -> Result<Self, Unsettled<A>>
        requires empty { reserved.filled ≡ None }
        requires made { reserved.asked ≡ asked_of delivery.message }
        requires entries { HasEntries delivery buffers.items }
        requires same { map (λ leaf. leaf.buffer) delivery.leaves
            ≡ map (λ buffer. buffer.0) buffers.items }
        ensures kept { KeepsLanes lanes.old lanes.new }
        ensures time { lanes.new.time ≡ lanes.old.time }
        ensures waits { IfOk result
            (λ waiting. waiting
            ≡ record {
              awaited = awaited_by delivery;
              receipts = delivery.receipts;
              buffers = buffers.items;
            }) }
        ensures appended { IfOk result
            (λ waiting. (buffer : BufferNo) → Contains buffers.items buffer
            → EndsWith delivery.number (listed_at lanes.new.waiting buffer)) }
        // One append of it waits in each of these buffers, and none in another.
        ensures each { IfOk result
            (λ _. AreAppended delivery.number buffers.items lanes.old.waiting lanes.new.waiting) }
        ensures undone { IfErr result (λ _. lanes.new.waiting ≡ lanes.old.waiting) }
        ensures left { IfErr result (λ left. left ≡ left_of delivery.number delivery.receipts) }
        ensures later { lanes.new.later ≡ lanes.old.later }
    {
        if lanes.append(rt, &buffers, &delivery) {
            let gathered = Gathered { delivery, reserved };
            return Ok(Waiting { gathered, buffers });
        }
        Err(Unsettled::abandoned(delivery))
    }

    /// Takes the receipts that are there, and acknowledges the delivery where all came; where a
    /// buffer gave none, the delivery is abandoned. It waits on where receipts come later, for
    /// those alone, or where it is to be `held` behind another.
    pub fn collect<R: Wait, D: Dir + Drop>(
        self,
        rt: &R,
        lanes: &mut Lanes<D, A>,
        held: bool,
    ) -> Collected<A>
        ensures is { IsCollected self.awaited result }
        ensures waits { WaitsOnFor held (those_later lanes.old.later self.buffers) result }
        ensures lanes { lanes.new ≡ lanes.old }
    {
        let Waiting {
            mut gathered,
            mut buffers,
        } = self;
        for buffer in &buffers {
            if !lanes.is_later(*buffer) {
                gathered = gathered.ask(rt, *buffer, lanes);
            }
        }
        keep_later(&mut buffers, lanes);
        if held || !buffers.is_empty() {
            return Collected::Later(Waiting { gathered, buffers });
        }
        gathered.finish()
    }

    /// Ends it without an answer.
    pub fn abandon(self) -> Unsettled<A>
        ensures { result ≡ left_of self.awaited.number self.receipts }
    {
        let Waiting {
            gathered,
            buffers: _,
        } = self;
        gathered.abandon()
    }
}

// Keeps those of the buffers whose receipts come later.
fn keep_later<D: Dir + Drop, A: Allocator + Copy>(
    buffers: &mut Vec<BufferNo, A>,
    lanes: &Lanes<D, A>,
)
    ensures { buffers.new.items ≡ those_later lanes.now.later buffers.old.items }
{
    buffers.retain(|buffer| lanes.is_later(*buffer));
}

// A delivery with the receipts that came, and the room for its answer.
struct Gathered<A: Allocator> {
    delivery: Delivery<A>,
    reserved: Reserved<A>,
}

impl<A: Allocator> Model for Gathered<A> {
    ghost use Rattle.std.specs.Prelude.{◌≡◌, None};
    ghost use Rattle.ack_receipt.specs.Reservations.{asked_of};
    ghost use Rattle.loop_core.specs.Waits.{Gathers, awaited_by};

    ghost Value = { Gathers };

    ghost view = { λ g. record {
      awaited = awaited_by g.delivery;
      receipts = g.delivery.receipts;
    } };

    // The room is empty, and for the answer to the delivery's message.
    ghost invariant = { λ g. (g.reserved.filled ≡ None)
        × (g.reserved.asked ≡ asked_of g.delivery.message) };
}

impl<A: Allocator + Copy> Gathered<A> {
    // Takes the receipt that this buffer has for the delivery, if it has one. Receipts that stand
    // before it are of deliveries that ended without them: they are spent.
    fn ask<R: Wait, D: Dir + Drop>(self, rt: &R, buffer: BufferNo, lanes: &mut Lanes<D, A>) -> Self
        ensures same { result.awaited ≡ self.awaited }
        ensures lanes { lanes.new ≡ lanes.old }
    {
        let mut gathered = self;
        'receipts: for _ in 0..lanes.ready(buffer) {
            let Some(receipt) = lanes.give(buffer) else {
                return gathered;
            };
            match gathered.with(receipt) {
                Ok(with) => return with,
                Err((without, receipt)) => {
                    lanes.settle(rt, receipt.spent());
                    gathered = without;
                }
            }
        }
        gathered
    }

    // With one receipt more; one that isn't the delivery's is handed back.
    fn with(self, receipt: Handed<A>) -> Result<Self, (Self, Handed<A>)>
        ensures ok { IfOk result (λ gathered. gathered.awaited ≡ self.awaited) }
        ensures receipts { IfOk result
            (λ gathered. gathered.receipts ≡ self.receipts ++ receipt ∷ []) }
        ensures err { IfErr result (λ refused. (refused.0 ≡ self) × (refused.1 ≡ receipt)) }
    {
        let Gathered { delivery, reserved } = self;
        match receipt.added_to(delivery) {
            Ok(delivery) => Ok(Gathered { delivery, reserved }),
            Err((delivery, receipt)) => Err((Gathered { delivery, reserved }, receipt)),
        }
    }

    // Ends it without an answer.
    fn abandon(self) -> Unsettled<A>
        ensures { result ≡ left_of self.awaited.number self.receipts }
    {
        let Gathered {
            delivery,
            reserved: _,
        } = self;
        Unsettled::abandoned(delivery)
    }

    // Every buffer was asked.
    fn finish(self) -> Collected<A>
        ensures is { IsCollected self.awaited result }
        ensures left { IsLeftOf self result }
        ensures ended { WaitsOnFor false [] result }
    {
        let Gathered {
            delivery,
            mut reserved,
        } = self;
        match delivery.acknowledge(&mut reserved) {
            Ok(stub) => Collected::Answered(reserved, Unsettled::answered(stub)),
            Err((_, delivery)) => Collected::Abandoned(Unsettled::abandoned(delivery)),
        }
    }
}
