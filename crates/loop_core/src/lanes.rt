//! The buffers of a relay, as its loop uses them.

ghost use Rattle.std.specs.Prelude.{◌≡◌, ◌≢◌, ◌<◌, ◌≤◌, ◌+◌, ◌++◌, ◌∷◌, ◌↔◌, [], None, false, length, slice_set, Any, Contains, IfOk, IfSome, IsFalse, IsSome, IsTrue, OnErr, OnOk};
ghost use Rattle.relay_conf.specs.declared.output.BufferNo.{BufferNo};
ghost use Rattle.loop_core.specs.Lanes.{AppendsWait, AreAppended, AreQueued, AreRedeemedAt, EndsWith, IsAppendedAt, IsNoneDueAt, IsNotedAt, IsOneElse, IsUntouched, KeepsLanes, fault_after, is_lost as is_lost_fault, later_at, listed_at, undone};
ghost use Rattle.loop_core.specs.Waits.{HasEntries};

use crate::lane::Lane;
use crate::unsettled::{Handed, Unsettled};
use ack_receipt::{Delivery, Stub};
use buffer_store::BufferFault;
use disk_files::Dir;
use relay_conf::BufferNo;
use relay_notices::Teller;
use std::alloc::{AllocError, Allocator};
use std::marker::Model;
use std::sync::Wait;

/// The buffers of a relay, by their numbers, and what is left of the deliveries that ended.
pub struct Lanes<D: Dir, A: Allocator> {
    lanes: Vec<Lane<D, A>, A>,
    // In milliseconds since one fixed start.
    time: u64,
    // What is left of deliveries, where it is kept; else the buffers' books account for it at once.
    stubs: Option<Vec<Stub<A>, A>>,
    // The first fault of a device.
    fault: Option<BufferFault>,
    // Something that was to be queued wasn't.
    is_short: bool,
}

impl<D: Dir, A: Allocator> Model for Lanes<D, A> {
    ghost use Rattle.std.specs.Prelude.{◌-◌, map, vec_len, vec_capacity};
    ghost use Rattle.loop_core.specs.Lanes.{LanesState};

    ghost Value = { LanesState A };

    ghost view = { λ l. record {
      terms = map (λ lane. lane.terms) l.lanes.items;
      plans = map (λ lane. lane.plan) l.lanes.items;
      waiting = map (λ lane. lane.waiting) l.lanes.items;
      later = map (λ lane. lane.later) l.lanes.items;
      room = vec_capacity l.lanes - vec_len l.lanes;
      fault = l.fault;
      time = l.time;
      short = l.is_short;
    } };
}

impl<D: Dir + Drop, A: Allocator + Copy> Lanes<D, A> {
    /// No buffers yet, and room for so many. The error is want of memory.
    pub fn with_capacity(alloc: A, count: usize) -> Result<Self, AllocError>
        ensures none { IfOk result
            (λ lanes. lanes ≡ record {
              terms = [];
              plans = [];
              waiting = [];
              later = [];
              room = lanes.room;
              fault = None;
              time = 0;
              short = false;
            }) }
        ensures room { IfOk result (λ lanes. count ≤ lanes.room) }
    {
        let lanes = Vec::with_capacity(alloc, count)?;
        Ok(Lanes {
            lanes,
            time: 0,
            stubs: None,
            fault: None,
            is_short: false,
        })
    }

    /// Adds a buffer, for which there is room; it has the next number.
    pub fn add(&mut self, lane: Lane<D, A>)
        requires { 0 < self.old.room }
        ensures room { self.new.room + 1 ≡ self.old.room }
        ensures terms { self.new.terms ≡ self.old.terms ++ lane.terms ∷ [] }
        ensures plans { self.new.plans ≡ self.old.plans ++ lane.plan ∷ [] }
        ensures waiting { self.new.waiting ≡ self.old.waiting ++ lane.waiting ∷ [] }
        ensures later { self.new.later ≡ self.old.later ++ lane.later ∷ [] }
        ensures fault { self.new.fault ≡ self.old.fault }
        ensures time { self.new.time ≡ self.old.time }
        ensures short { self.new.short ≡ self.old.short }
    {
        self.lanes.push_reserved(lane);
    }

    /// Keeps what is left of deliveries from now on.
    pub fn keep_stubs(&mut self, alloc: A)
        ensures { self.new ≡ self.old }
    {
        self.stubs = Some(Vec::new(alloc));
    }

    /// What the buffers refuse and drop is told by this teller from now on, whose places are the
    /// buffers, in their order.
    pub fn tell_by(&mut self, teller: &Teller<A>)
        ensures { self.new ≡ self.old }
    {
        for at in 0..self.lanes.len() {
            self.tell_by_at(at, teller);
        }
    }

    fn tell_by_at(&mut self, at: usize, teller: &Teller<A>)
        ensures { self.new ≡ self.old }
    {
        let Some(lane) = self.lanes.get_mut(at) else {
            return;
        };
        lane.tell_by(teller.from(at));
    }

    /// It is this time, in milliseconds since one fixed start.
    pub fn set_time(&mut self, now: u64)
        ensures { self.new ≡ record self.old { time = now } }
    {
        self.time = now;
    }

    /// Whether appends wait for their receipts.
    pub fn have_pendings(&self) -> bool
        ensures { IsTrue result ↔ AppendsWait self.now.waiting }
    {
        have_waiting(&self.lanes)
    }

    /// The first fault of a device, or of a journal that lost bytes, if there was one.
    pub fn fault(&self) -> Option<BufferFault>
        ensures { result ≡ self.now.fault }
    {
        self.fault
    }

    // What a buffer answered. The first fault is remembered that is the device's, or that bytes
    // which it was told are gone.
    fn heed<T>(&mut self, answer: Result<T, BufferFault>) -> Result<T, BufferFault>
        ensures same { result ≡ answer }
        ensures rest { self.new ≡ record self.old { fault = fault_after self.old.fault answer } }
    {
        if let Err(fault) = &answer
            && self.fault.is_none()
            && is_lost(*fault)
        {
            self.fault = Some(*fault);
        }
        answer
    }

    /// Appends the delivery's entries to each of these buffers, in their order. `false` where one
    /// refuses: then none of them has an append of the delivery that waits for a receipt; and where
    /// one of several has no room, no buffer has its entries.
    pub(crate) fn append<R: Wait>(
        &mut self,
        rt: &R,
        buffers: &[BufferNo],
        delivery: &Delivery<A>,
    ) -> bool
        requires { HasEntries delivery.now buffers.now }
        ensures kept { KeepsLanes self.old self.new }
        ensures time { self.new.time ≡ self.old.time }
        ensures later { self.new.later ≡ self.old.later }
        ensures appended { IsTrue result → (buffer : BufferNo) → Contains buffers.now buffer
            → EndsWith delivery.now.number (listed_at self.new.waiting buffer) }
        ensures each { IsTrue result
            → AreAppended delivery.now.number buffers.now self.old.waiting self.new.waiting }
        ensures undone { IsFalse result → self.new.waiting ≡ self.old.waiting }
    {
        // With one buffer the append itself asks.
        if buffers.len() > 1 && !self.have_room(rt, buffers, delivery) {
            return false;
        }
        self.append_each(rt, buffers, delivery)
    }

    // Whether each of these buffers has room for the delivery's entries. The first that has none
    // tells it.
    fn have_room<R: Wait>(&self, rt: &R, buffers: &[BufferNo], delivery: &Delivery<A>) -> bool {
        buffers
            .iter()
            .all(|buffer| self.has_room(rt, *buffer, delivery))
    }

    // The same of one. Where its device failed, the append itself finds that out.
    fn has_room<R: Wait>(&self, rt: &R, buffer: BufferNo, delivery: &Delivery<A>) -> bool {
        let Some(lane) = self.lanes.get(buffer.0) else {
            return true;
        };
        match lane.ask_room(rt, delivery) {
            Ok(()) => true,
            Err(fault) => is_lost(fault),
        }
    }

    // Appends to each of them, unless one refuses.
    fn append_each<R: Wait>(&mut self, rt: &R, buffers: &[BufferNo], delivery: &Delivery<A>) -> bool
        requires { HasEntries delivery.now buffers.now }
        ensures kept { KeepsLanes self.old self.new }
        ensures time { self.new.time ≡ self.old.time }
        ensures later { self.new.later ≡ self.old.later }
        ensures appended { IsTrue result → (buffer : BufferNo) → Contains buffers.now buffer
            → EndsWith delivery.now.number (listed_at self.new.waiting buffer) }
        ensures each { IsTrue result
            → AreAppended delivery.now.number buffers.now self.old.waiting self.new.waiting }
        ensures undone { IsFalse result → self.new.waiting ≡ self.old.waiting }
        // Behind an append of the delivery come others of it alone.
        ensures last { (buffer : BufferNo)
            → EndsWith delivery.now.number (listed_at self.old.waiting buffer)
            → EndsWith delivery.now.number (listed_at self.new.waiting buffer) }
    {
        let Some((first, others)) = buffers.split_first() else {
            return true;
        };
        let Ok(_) = self.append_to(rt, *first, delivery) else {
            return false;
        };
        if self.append_each(rt, others, delivery) {
            return true;
        }
        self.undo_at(rt, *first);
        false
    }

    // Appends to one of them, and gives the serial of the chunk that has the entries.
    fn append_to<R: Wait>(
        &mut self,
        rt: &R,
        buffer: BufferNo,
        delivery: &Delivery<A>,
    ) -> Result<u64, BufferFault>
        requires { 0 < length delivery.now.message.entries }
        ensures kept { KeepsLanes self.old self.new }
        ensures later { self.new.later ≡ self.old.later }
        ensures appended { IfOk result
            (λ serial. IsAppendedAt buffer delivery.now.number serial self.old.waiting
            self.new.waiting) }
        ensures none { OnErr result (self.new.waiting ≡ self.old.waiting) }
        ensures noted { IfOk result
            (λ serial. IsNotedAt buffer.0 serial self.old.time self.old.plans self.new.plans) }
        ensures time { self.new.time ≡ self.old.time }
        ensures short { self.new.short ≡ self.old.short }
        ensures fault { self.new.fault ≡ fault_after self.old.fault result }
    {
        let now = self.time;
        let Some(lane) = self.lanes.get_mut(buffer.0) else {
            return Err(BufferFault::Gone);
        };
        let answer = lane.append(rt, delivery, now);
        self.heed(answer)
    }

    // The last append to this one gets no receipt.
    fn undo_at<R: Wait>(&mut self, rt: &R, buffer: BufferNo)
        ensures { self.new ≡ record
            self.old {
              waiting = slice_set self.old.waiting buffer.0
                  (undone (listed_at self.old.waiting buffer));
            } }
    {
        let Some(lane) = self.lanes.get_mut(buffer.0) else {
            return;
        };
        lane.undo(rt);
    }

    /// Queues the chunks that are to be queued now. What there is no memory for is queued later,
    /// and so is what a device refuses.
    pub fn queue_due<R: Wait>(&mut self, rt: &R)
        ensures kept { KeepsLanes self.old self.new }
        ensures queued { AreQueued self.new }
        ensures rest { self.new
            ≡ record self.old {
              plans = self.new.plans;
              fault = self.new.fault;
              short = self.new.short;
            } }
    {
        self.is_short = false;
        for at in 0..self.lanes.len() {
            if self.queue_due_at(rt, at).is_err() {
                self.is_short = true;
            }
        }
    }

    fn queue_due_at<R: Wait>(&mut self, rt: &R, at: usize) -> Result<(), BufferFault>
        ensures kept { KeepsLanes self.old self.new }
        ensures none { OnOk result (IsNoneDueAt at self.old.time self.new.plans) }
        ensures others { IsOneElse at self.old.plans self.new.plans }
        ensures rest { self.new
            ≡ record self.old {
              plans = self.new.plans;
              fault = fault_after self.old.fault result;
            } }
    {
        let now = self.time;
        let Some(lane) = self.lanes.get_mut(at) else {
            return Ok(());
        };
        let answer = lane.queue_due(rt, now);
        self.heed(answer)
    }

    /// Makes receipts of all appends, by one sync for each buffer that needs one.
    pub fn redeem<R: Wait>(&mut self, rt: &R)
        ensures kept { KeepsLanes self.old self.new }
        ensures plans { self.new.plans ≡ self.old.plans }
        ensures time { (self.new.time ≡ self.old.time) × (self.new.short ≡ self.old.short) }
        ensures redeemed { (buffer : BufferNo) → AreRedeemedAt buffer self.old self.new }
    {
        for at in 0..self.lanes.len() {
            let _ = self.redeem_at(rt, at);
        }
    }

    fn redeem_at<R: Wait>(&mut self, rt: &R, at: usize) -> Result<(), BufferFault>
        ensures kept { KeepsLanes self.old self.new }
        ensures plans { self.new.plans ≡ self.old.plans }
        ensures time { (self.new.time ≡ self.old.time) × (self.new.short ≡ self.old.short) }
        // Where appends get no receipts, the fault is told.
        ensures told { OnErr result (IsSome self.new.fault) }
        ensures redeemed { (buffer : BufferNo) → buffer.0 ≡ at
            → AreRedeemedAt buffer self.old self.new }
        ensures others { (buffer : BufferNo) → buffer.0 ≢ at
            → IsUntouched buffer self.old self.new }
        ensures fault { self.new.fault ≡ fault_after self.old.fault result }
    {
        let Some(lane) = self.lanes.get_mut(at) else {
            return Ok(());
        };
        let answer = lane.redeem(rt);
        self.heed(answer)
    }

    /// Writes the journals anew that have grown.
    pub fn renew<R: Wait>(&mut self, rt: &R)
        ensures kept { KeepsLanes self.old self.new }
        ensures rest { self.new ≡ record self.old { fault = self.new.fault } }
    {
        for at in 0..self.lanes.len() {
            let _ = self.renew_at(rt, at);
        }
    }

    fn renew_at<R: Wait>(&mut self, rt: &R, at: usize) -> Result<(), BufferFault>
        ensures kept { KeepsLanes self.old self.new }
        ensures rest { self.new ≡ record self.old { fault = fault_after self.old.fault result } }
    {
        let Some(lane) = self.lanes.get(at) else {
            return Ok(());
        };
        let answer = lane.renew(rt);
        self.heed(answer)
    }

    /// Whether receipts of this buffer come later, since there was no memory for them.
    pub fn is_later(&self, buffer: BufferNo) -> bool
        ensures { result ≡ later_at self.now.later buffer }
    {
        match self.lanes.get(buffer.0) {
            Some(lane) => lane.is_later(),
            None => false,
        }
    }

    /// How many receipts of this buffer nobody took yet.
    pub fn ready(&self, buffer: BufferNo) -> usize {
        match self.lanes.get(buffer.0) {
            Some(lane) => lane.ready(),
            None => 0,
        }
    }

    /// The receipt of this buffer's first append of those that nobody took it of yet; `None` where
    /// there is none.
    pub fn give(&mut self, buffer: BufferNo) -> Option<Handed<A>>
        ensures { self.new ≡ self.old }
    {
        let Some(lane) = self.lanes.get_mut(buffer.0) else {
            return None;
        };
        Some(Handed::out(lane.give()?))
    }

    /// What is left of a delivery: it is kept, or accounted for in the books of its buffers, also
    /// where there is no memory to keep it.
    pub fn settle<R: Wait>(&mut self, rt: &R, left: Unsettled<A>)
        ensures { self.new ≡ self.old }
    {
        let Some(stub) = self.kept(left.into_stub()) else {
            return;
        };
        for part in &stub.parts {
            if let Some(lane) = self.lanes.get(part.buffer as usize) {
                lane.settle(rt, &stub);
            }
        }
    }

    // Keeps what is left of a delivery, or hands it back.
    fn kept(&mut self, stub: Stub<A>) -> Option<Stub<A>>
        ensures same { self.new ≡ self.old }
        ensures back { IfSome result (λ back. back ≡ stub) }
    {
        let Some(stubs) = &mut self.stubs else {
            return Some(stub);
        };
        match stubs.push(stub) {
            Ok(()) => None,
            Err(failed) => Some(failed.value),
        }
    }

    /// Ends what waits, and gives what is left of deliveries, where it was kept.
    pub fn end<R: Wait>(self, rt: &R) -> Option<Vec<Stub<A>, A>> {
        let Lanes {
            lanes,
            time: _,
            stubs,
            fault: _,
            is_short: _,
        } = self;
        let mut rest = lanes.into_iter();
        while let Some(lane) = rest.next() {
            lane.end(rt);
        }
        rest.destroy_empty();
        stubs
    }
}

// Whether appends to one of these wait for their receipts.
fn have_waiting<D: Dir + Drop, A: Allocator + Copy>(lanes: &[Lane<D, A>]) -> bool
    ensures { IsTrue result ↔ Any (λ lane. 0 < length lane.waiting) lanes.now }
{
    lanes.iter().any(|lane| lane.has_pendings())
}

// Whether a fault is the device's, or says that bytes which it was told are gone.
fn is_lost(fault: BufferFault) -> bool
    ensures { result ≡ is_lost_fault fault }
{
    match fault {
        BufferFault::Fault | BufferFault::Failed | BufferFault::Damaged => true,
        BufferFault::Full
        | BufferFault::TooLarge
        | BufferFault::Gone
        | BufferFault::LastSerial
        | BufferFault::Memory => false,
    }
}
