//! Appends of deliveries: under the delivery's own number and tag, of its own entries.

ghost use Rattle.std.specs.Prelude.{◌≡◌, ◌<◌, true, false, length, Ok, Err, IfOk, OnOk, OnErr};
ghost use Rattle.book_audit.specs.Audits.{SameLines};
ghost use Rattle.ack_receipt.specs.Books.{Appends, IsWaiting, Steady, Unchanged, WritesLine};
ghost use Rattle.buffer_store.specs.declared.fault.BufferFault.{BufferFault};
ghost use Rattle.ack_receipt.specs.Redeeming.{line_of};
ghost use Rattle.buffer_store.specs.Room.{FitsBesideUnqueued};
ghost use Rattle.ack_receipt.specs.Room.{HasRoom};

use super::LockedBuffer;
use super::pending::Pending;
use super::receipt::Receipt;
use super::terms::Terms;
use crate::delivery::Delivery;
use crate::{Noted, Waits};
use buffer_store::BufferFault;
use disk_files::Dir;
use event_modes::Entries;
use std::alloc::Allocator;

impl<D: Dir, A: Allocator + Copy> LockedBuffer<D, A> {
    /// Whether an append of the delivery's entries would have room, and why it hasn't. Nothing
    /// changes. Where queued chunks may be dropped, those count as gone.
    ///
    /// The first of `Failed`, `TooLarge`, `Full` and `LastSerial` that applies.
    pub(crate) fn ask_room(
        &self,
        terms: &Terms<A>,
        delivery: &Delivery<A>,
    ) -> Result<(), BufferFault>
        ensures ok { OnOk result (HasRoom terms.now.takes self.now.buffer.limits
            self.now.buffer.chunks delivery.now.tag delivery.now.message.entries) }
        ensures full { result ≡ Err BufferFault.Full
            → HasRoom terms.now.takes self.now.buffer.limits
            self.now.buffer.chunks delivery.now.tag delivery.now.message.entries → ⊥ }
    {
        let entries = delivery.entries();
        match self.booked.plan(delivery.tag(), entries) {
            Ok(_) => Ok(()),
            Err(BufferFault::Full) => self.room_by_dropping(terms, entries),
            Err(fault) => Err(fault),
        }
    }

    // Whether a full buffer has room for entries once queued chunks are let go, where they may be.
    fn room_by_dropping(&self, terms: &Terms<A>, entries: &Entries<A>) -> Result<(), BufferFault>
        ensures ok { OnOk result ((terms.now.takes.drops ≡ true)
            × FitsBesideUnqueued self.now.buffer.limits self.now.buffer.chunks entries.now) }
        ensures full { OnErr result ((result ≡ Err BufferFault.Full)
            × ((terms.now.takes.drops ≡ true)
            → FitsBesideUnqueued self.now.buffer.limits self.now.buffer.chunks entries.now → ⊥)) }
    {
        if terms.takes.drops && self.booked.fits_beside_unqueued(entries) {
            Ok(())
        } else {
            Err(BufferFault::Full)
        }
    }

    /// Appends a delivery's entries under its tag, syncs them, and makes the receipt.
    ///
    /// The first of `Failed`, `TooLarge`, `Full`, `LastSerial`, `Memory` and `Fault` that applies.
    pub(crate) fn append(
        &mut self,
        terms: &Terms<A>,
        delivery: &Delivery<A>,
    ) -> Result<Receipt<A>, BufferFault>
        requires some { 0 < length delivery.now.message.entries }
        ensures number { IfOk result (λ receipt. receipt.delivery ≡ delivery.now.number) }
        ensures leaf { IfOk result (λ receipt. receipt.leaf ≡ terms.now.leaf) }
        ensures line { IfOk result (λ receipt. receipt.line ≡ length self.old.lines) }
        // The entries of the delivery, under its tag, and no others, where they were planned.
        ensures appended { IfOk result
            (λ receipt. Appends delivery.now.number receipt.serial delivery.now.tag
            delivery.now.message.entries self.old self.new) }
        ensures written { IfOk result
            (λ receipt. WritesLine (length self.old.appends)
            (record {
              delivery = delivery.now.number;
              serial = receipt.serial;
              count = length delivery.now.message.entries;
            }) self.old self.new) }
        // The append is synced, and all before it.
        ensures synced { OnOk result
            ((self.new.synced ≡ length self.new.appends) × (self.new.buffer.staged ≡ false)) }
        ensures same { OnErr result (Unchanged self.old self.new) }
        ensures steady { Steady self.old.buffer self.new.buffer result }
    {
        let tag = delivery.tag();
        let entries = delivery.entries();
        self.booked.plan(tag, entries)?;
        let room = Vec::with_capacity(self.alloc, 1)?;
        let Noted { serial, line } = self.booked.append(delivery.number(), tag, entries)?;
        Ok(Receipt {
            delivery: delivery.number(),
            leaf: terms.leaf,
            serial,
            line,
            room,
        })
    }

    /// The same without the sync: the receipt is redeemed later.
    pub(crate) fn append_pending(
        &mut self,
        terms: &Terms<A>,
        delivery: &Delivery<A>,
    ) -> Result<Pending<A>, BufferFault>
        requires some { 0 < length delivery.now.message.entries }
        ensures number { IfOk result (λ pending. pending.delivery ≡ delivery.now.number) }
        ensures leaf { IfOk result (λ pending. pending.leaf ≡ terms.now.leaf) }
        ensures appended { IfOk result
            (λ pending. Appends delivery.now.number pending.serial delivery.now.tag
            delivery.now.message.entries self.old self.new) }
        ensures waits { IfOk result
            (λ pending. IsWaiting self.new.waiting pending.place (line_of pending)) }
        // It has no receipt, and no line is closed.
        ensures lines { (self.new.lines ≡ self.old.lines)
            × SameLines self.old.pages self.new.pages }
        ensures same { OnErr result (Unchanged self.old self.new) }
        ensures steady { Steady self.old.buffer self.new.buffer result }
    {
        let tag = delivery.tag();
        let entries = delivery.entries();
        self.booked.plan(tag, entries)?;
        let room = Vec::with_capacity(self.alloc, 1)?;
        let Waits { serial, place } = self.booked.append_pending(delivery.number(), tag, entries)?;
        Ok(Pending {
            delivery: delivery.number(),
            leaf: terms.leaf,
            serial,
            count: entries.count() as u64,
            place,
            room,
        })
    }
}
