//! A buffer as the loop uses it.

ghost use Rattle.std.specs.Prelude.{◌≡◌, ◌<◌, ◌⊎◌, ◌↔◌, ◌++◌, [], false, true, length, IfErr, IfOk, IfNone, IsTrue, OnOk, OnErr};
ghost use Rattle.std.specs.Arc.{arc_value};
ghost use Rattle.std.specs.Option.{option_to_list};
ghost use Rattle.loop_core.specs.Lanes.{GetNone, HaveReceipts, IsAppended, KeepsLane, WaitOn, is_lost, undone};
ghost use Rattle.loop_core.specs.Schedules.{AreLeft, IsNoneDue, IsNoted};

use crate::schedule::Schedule;
use ack_receipt::{Delivery, Pending, Receipt, RedeemFault, SharedBuffer, Stub};
use buffer_store::BufferFault;
use disk_files::Dir;
use relay_notices::{Notice, Refusal, Teller};
use std::alloc::Allocator;
use std::marker::Model;
use std::mem;
use std::sync::{Arc, Wait};
use std::vec::IntoIter;

/// A buffer, its appends that wait for their receipts, the receipts that nobody took yet, and its
/// staged chunks.
///
/// Receipts are handed out in the order of the appends.
pub struct Lane<D: Dir, A: Allocator> {
    buffer: Arc<SharedBuffer<D, A>, A>,
    schedule: Schedule<A>,
    pendings: Vec<Pending<A>, A>,
    receipts: IntoIter<Receipt<A>, A>,
    // There was no memory for receipts.
    is_later: bool,
    // Tells of messages that it refuses, of chunks that it drops, and that it is nearly full.
    teller: Teller<A>,
    // It was nearly full when that was asked last.
    is_nearly_full: bool,
}

impl<D: Dir, A: Allocator> Model for Lane<D, A> {
    ghost use Rattle.std.specs.Arc.{arc_value};
    ghost use Rattle.std.specs.Vec.Iter.{into_iter_items};
    ghost use Rattle.loop_core.specs.Lanes.{LaneState};

    ghost Value = { LaneState A };

    ghost view = { λ l. record {
      terms = arc_value l.buffer;
      plan = l.schedule;
      waiting = l.pendings.items;
      receipts = into_iter_items l.receipts;
      later = l.is_later;
    } };
}

impl<D: Dir + Drop, A: Allocator + Copy> Lane<D, A> {
    /// Nothing was appended yet.
    pub fn new(alloc: A, buffer: Arc<SharedBuffer<D, A>, A>, schedule: Schedule<A>) -> Self
        ensures { result ≡ record {
          terms = arc_value buffer;
          plan = schedule;
          waiting = [];
          receipts = [];
          later = false;
        } }
    {
        Lane {
            buffer,
            schedule,
            pendings: Vec::new(alloc),
            receipts: Vec::new(alloc).into_iter(),
            is_later: false,
            teller: Teller::silent(),
            is_nearly_full: false,
        }
    }

    /// What it refuses and drops is told by this teller from now on.
    pub fn tell_by(&mut self, teller: Teller<A>)
        ensures { self.new ≡ self.old }
    {
        self.teller = teller;
    }

    /// The buffer.
    pub fn buffer(&self) -> &SharedBuffer<D, A>
        ensures { result.now ≡ self.now.terms }
    {
        &self.buffer
    }

    /// Whether appends wait for their receipts.
    pub fn has_pendings(&self) -> bool
        ensures { IsTrue result ↔ (0 < length self.now.waiting) }
    {
        !self.pendings.is_empty()
    }

    /// Whether there was no memory for the receipts: the appends wait for the next turn.
    pub fn is_later(&self) -> bool
        ensures { result ≡ self.now.later }
    {
        self.is_later
    }

    /// How many receipts nobody took yet.
    pub fn ready(&self) -> usize
        ensures { result ≡ length self.now.receipts }
    {
        self.receipts.len()
    }

    /// Whether the delivery's entries would have room, and why they haven't, which is told. Nothing
    /// changes.
    pub fn ask_room<R: Wait>(&self, rt: &R, delivery: &Delivery<A>) -> Result<(), BufferFault> {
        self.told(rt, self.buffer.ask_room(rt, delivery))
    }

    // What the buffer answered to a delivery; a refusal is told.
    fn told<R: Wait, T>(&self, rt: &R, answer: Result<T, BufferFault>) -> Result<T, BufferFault>
        ensures { result ≡ answer }
    {
        if let Err(fault) = &answer
            && let Some(refusal) = refusal_of(*fault)
        {
            self.teller.tell(rt, 0, Notice::NotTaken(refusal));
        }
        answer
    }

    /// Appends the delivery's entries, dropping the oldest chunks for them where the buffer may,
    /// and gives the serial of the chunk that has them: it is staged, if it wasn't before, since
    /// now. A refusal is told.
    ///
    /// An error leaves no append to be undone.
    pub fn append<R: Wait>(
        &mut self,
        rt: &R,
        delivery: &Delivery<A>,
        now: u64,
    ) -> Result<u64, BufferFault>
        requires { 0 < length delivery.now.message.entries }
        ensures kept { KeepsLane self.old self.new }
        ensures later { self.new.later ≡ self.old.later }
        ensures staged { IfOk result (λ serial. IsNoted serial now self.old.plan self.new.plan) }
        ensures err { OnErr result (self.new.plan.chunks ≡ self.old.plan.chunks) }
        ensures appended { IfOk result
            (λ serial. IsAppended delivery.now.number serial self.old.waiting self.new.waiting) }
        ensures none { OnErr result (self.new.waiting ≡ self.old.waiting) }
        ensures receipts { self.new.receipts ≡ self.old.receipts }
    {
        self.schedule.reserve()?;
        self.pendings.reserve(1)?;
        let put = append_to(rt, &self.buffer, &self.teller, delivery);
        let pending = self.told(rt, put)?;
        let serial = pending.serial();
        self.schedule.note(serial, now);
        self.pendings.push_reserved(pending);
        Ok(serial)
    }

    /// The last append gets no receipt.
    pub fn undo<R: Wait>(&mut self, rt: &R)
        ensures { self.new ≡ record self.old { waiting = undone self.old.waiting } }
    {
        if let Some(pending) = self.pendings.pop() {
            self.buffer.give_up(rt, pending);
        }
    }

    /// Queues the chunks that are to be queued now, and no others.
    ///
    /// The error is want of memory, or that of the device: what is left is queued later.
    pub fn queue_due<R: Wait>(&mut self, rt: &R, now: u64) -> Result<(), BufferFault>
        ensures kept { KeepsLane self.old self.new }
        ensures rest { self.new ≡ record self.old { plan = self.new.plan } }
        ensures chunks { AreLeft self.old.plan.mode self.old.plan.interval now
            self.new.plan.chunks self.old.plan.chunks }
        ensures none { OnOk result (IsNoneDue now self.new.plan) }
    {
        'chunks: for _ in rt.forever() {
            let Some(serial) = self.schedule.due(now) else {
                return Ok(());
            };
            match self.buffer.enqueue_shown(rt, serial) {
                Ok(unstaged) => self.schedule.forget_first(unstaged),
                Err(fault) => return Err(fault),
            }
        }
        unreachable!()
    }

    /// Makes receipts of the appends, in their order, by one sync where one is needed. Receipts
    /// that nobody took before are of deliveries that ended without them: they are spent. Without
    /// memory the appends wait for the next turn.
    ///
    /// The error is that of the device: the appends get no receipts. So it is where one of them
    /// isn't of this buffer, which doesn't come: each of the appends waits in the buffer's book.
    pub fn redeem<R: Wait>(&mut self, rt: &R) -> Result<(), BufferFault>
        ensures terms { self.new.terms ≡ self.old.terms }
        ensures plan { self.new.plan ≡ self.old.plan }
        ensures ok { OnOk result (HaveReceipts self.old self.new ⊎ WaitOn self.old self.new) }
        ensures err { OnErr result (GetNone self.new) }
        // That they get none isn't passed over: the fault ends the relay.
        ensures told { IfErr result (λ fault. is_lost fault ≡ true) }
    {
        let alloc = *self.pendings.allocator();
        self.keep(rt, Vec::new(alloc));
        self.is_later = false;
        if self.pendings.is_empty() {
            return Ok(());
        }
        self.note_room(rt);
        let list = mem::replace(&mut self.pendings, Vec::new(alloc));
        match self.buffer.redeem(rt, list) {
            Ok(receipts) => {
                self.keep(rt, receipts);
                Ok(())
            }
            Err((RedeemFault::Buffer(BufferFault::Memory), list)) => {
                give_up(rt, &self.buffer, mem::replace(&mut self.pendings, list));
                self.is_later = true;
                Ok(())
            }
            Err((RedeemFault::Buffer(fault), list)) => {
                give_up(rt, &self.buffer, list);
                Err(fault)
            }
            Err((RedeemFault::Stranger, list)) => {
                give_up(rt, &self.buffer, list);
                Err(BufferFault::Failed)
            }
        }
    }

    // Tells that the buffer is nearly full, where it wasn't when that was asked last.
    fn note_room<R: Wait>(&mut self, rt: &R)
        ensures { self.new ≡ self.old }
    {
        let is_nearly_full = self.buffer.is_nearly_full(rt);
        if is_nearly_full && !self.is_nearly_full {
            self.teller.tell(rt, 0, Notice::NearlyFull);
        }
        self.is_nearly_full = is_nearly_full;
    }

    // These receipts are to be handed out, and no others: those are spent.
    fn keep<R: Wait>(&mut self, rt: &R, receipts: Vec<Receipt<A>, A>)
        ensures { self.new ≡ record self.old { receipts = receipts.items } }
    {
        let mut others = mem::replace(&mut self.receipts, receipts.into_iter());
        while let Some(receipt) = others.next() {
            let stub = receipt.spend();
            self.settle(rt, &stub);
        }
        others.destroy_empty();
    }

    /// The receipt of the first append of those that nobody took it of yet; `None` where there is
    /// none.
    pub fn give(&mut self) -> Option<Receipt<A>>
        ensures first { self.old.receipts ≡ option_to_list result ++ self.new.receipts }
        ensures none { IfNone result (self.old.receipts ≡ []) }
        ensures rest { self.new ≡ record self.old { receipts = self.new.receipts } }
    {
        self.receipts.next()
    }

    /// What a delivery left is accounted for in the buffer's book.
    ///
    /// The book refuses only a line that isn't of its own or isn't open, and a line that is named
    /// twice. Neither comes: each line is written for one receipt, which can't be copied and ends
    /// in one stub, and a stub has one part of a buffer.
    pub fn settle<R: Wait>(&self, rt: &R, stub: &Stub<A>) {
        let _ = self.buffer.settle(rt, stub);
    }

    /// Writes the buffer's journal anew, where it has grown. What there is no memory for is done
    /// later.
    ///
    /// The error is that of the device, `Damaged` where the journal hasn't the bytes that were
    /// told, or `LastSerial` past the last generation.
    pub fn renew<R: Wait>(&self, rt: &R) -> Result<(), BufferFault> {
        match self.buffer.renew(rt) {
            Err(BufferFault::Memory) => Ok(()),
            answer => answer,
        }
    }

    /// Ends what waits.
    pub fn end<R: Wait>(self, rt: &R) {
        let Lane {
            buffer,
            schedule: _,
            pendings,
            receipts,
            is_later: _,
            teller: _,
            is_nearly_full: _,
        } = self;
        give_up(rt, &buffer, pendings);
        let mut rest = receipts;
        while let Some(receipt) = rest.next() {
            let _ = buffer.settle(rt, &receipt.spend());
        }
        rest.destroy_empty();
    }
}

// Appends, dropping the oldest chunks until the append fits, where the buffer may and that helps.
// What is dropped is told.
fn append_to<R: Wait, D: Dir, A: Allocator + Copy>(
    rt: &R,
    buffer: &SharedBuffer<D, A>,
    teller: &Teller<A>,
    delivery: &Delivery<A>,
) -> Result<Pending<A>, BufferFault>
    requires { 0 < length delivery.now.message.entries }
    ensures { IfOk result (λ pending. pending.delivery ≡ delivery.now.number) }
{
    match buffer.append_pending(rt, delivery) {
        Err(BufferFault::Full) if buffer.takes().drops => {}
        answer => return answer,
    }
    buffer.ask_room(rt, delivery)?;
    for _ in rt.forever() {
        drop_one(rt, buffer, teller)?;
        match buffer.append_pending(rt, delivery) {
            Err(BufferFault::Full) => {}
            answer => return answer,
        }
    }
    Err(BufferFault::Full)
}

// Drops the oldest queued chunk. `Full` where none is queued.
fn drop_one<R: Wait, D: Dir, A: Allocator + Copy>(
    rt: &R,
    buffer: &SharedBuffer<D, A>,
    teller: &Teller<A>,
) -> Result<(), BufferFault> {
    match buffer.drop_oldest(rt) {
        Ok(_) => {
            teller.tell(rt, 0, Notice::Dropped);
            Ok(())
        }
        Err(BufferFault::Gone) => Err(BufferFault::Full),
        Err(fault) => Err(fault),
    }
}

// What is told of a message that a buffer refuses with this. A fault of its device is told once,
// when the relay ends.
fn refusal_of(fault: BufferFault) -> Option<Refusal> {
    match fault {
        BufferFault::Full => Some(Refusal::Full),
        BufferFault::TooLarge => Some(Refusal::TooLarge),
        BufferFault::Memory => Some(Refusal::Memory),
        BufferFault::Gone
        | BufferFault::Fault
        | BufferFault::Failed
        | BufferFault::LastSerial
        | BufferFault::Damaged => None,
    }
}

// These appends get no receipts.
fn give_up<R: Wait, D: Dir, A: Allocator + Copy>(
    rt: &R,
    buffer: &SharedBuffer<D, A>,
    pendings: Vec<Pending<A>, A>,
) {
    let mut rest = pendings.into_iter();
    while let Some(pending) = rest.next() {
        buffer.give_up(rt, pending);
    }
    rest.destroy_empty();
}
