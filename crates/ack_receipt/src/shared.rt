//! A buffer that threads share.

ghost use Rattle.std.specs.Prelude.{◌≡◌, ◌<◌, true, length, IfOk, IfErr, IfSome, OnOk};
ghost use Rattle.ack_receipt.specs.Evidences.{IsFor};
ghost use Rattle.ack_receipt.specs.Redeeming.{AreReceiptsOf, IsUnredeemed};

use crate::bell::Bell;
use crate::delivery::Delivery;
use crate::fault::RedeemFault;
use crate::locked::{GivenBack, GivenUp, LockedBuffer, Pending, Receipt, Terms, Unstaged};
use crate::{Claim, Closed, Evidence, PurgeFault, Takes};
use book_audit::{BookFault, Leaf, Stub};
use buffer_store::{Buffer, BufferFault};
use disk_files::Dir;
use event_modes::Entries;
use std::alloc::{AllocError, Allocator};
use std::marker::Model;
use std::sync::{Mutex, Wait};
use std::time::Duration;

/// One lock over a buffer and its book. The buffer's name and what lets its chunks go lie outside
/// the lock, and never change: contracts see these `Terms`.
///
/// What the lock keeps, whoever shares it: the buffer's own facts, and the book's: each append
/// since is accounted for, each line of the book is of an append that is synced, and chunks leave
/// by `purge` and `drop_oldest` alone. No call holds the lock longer than its own step.
///
/// Beside the lock a bell rings for each chunk that is queued, so that workers can sleep until
/// then.
pub struct SharedBuffer<D: Dir, A: Allocator> {
    terms: Terms<A>,
    lock: Mutex<LockedBuffer<D, A>>,
    bell: Bell,
}

impl<D: Dir + Drop, A: Allocator> Drop for SharedBuffer<D, A> {
    fn drop(self) {
        let SharedBuffer {
            terms: _terms,
            lock: _lock,
            bell: _bell,
        } = self;
    }
}

impl<D: Dir, A: Allocator> Model for SharedBuffer<D, A> {
    ghost use Rattle.ack_receipt.specs.Terms.{Terms};

    ghost Value = { Terms A };

    ghost view = { λ s. s.terms };
}

impl<D: Dir, A: Allocator + Copy> SharedBuffer<D, A> {
    /// Shares a buffer under this name, whose chunks go so. Its book begins. It takes no memory.
    pub fn new(alloc: A, buffer: Buffer<D, A>, leaf: Leaf, takes: Takes<A>) -> SharedBuffer<D, A>
        ensures { result ≡ record { leaf = leaf; takes = takes } }
    {
        let (terms, locked) = LockedBuffer::new(alloc, buffer, leaf, takes);
        SharedBuffer {
            terms,
            lock: Mutex::new(locked),
            bell: Bell::new(),
        }
    }

    /// The buffer's name.
    pub fn leaf(&self) -> Leaf
        ensures { result ≡ self.now.leaf }
    {
        self.terms.leaf()
    }

    /// What lets its chunks go.
    pub fn takes(&self) -> &Takes<A>
        ensures { result.now ≡ self.now.takes }
    {
        self.terms.takes()
    }

    /// Whether an append of the delivery's entries would have room now, and why it hasn't. Nothing
    /// changes. Where queued chunks may be dropped, those count as gone.
    ///
    /// The first of `Failed`, `TooLarge`, `Full` and `LastSerial` that applies.
    pub fn ask_room<R: Wait>(&self, rt: &R, delivery: &Delivery<A>) -> Result<(), BufferFault> {
        self.lock.lock(rt).ask_room(&self.terms, delivery)
    }

    /// Whether its chunks take more than four fifths of what it takes.
    pub fn is_nearly_full<R: Wait>(&self, rt: &R) -> bool {
        self.lock.lock(rt).is_nearly_full()
    }

    /// Appends a delivery's entries under its tag, and syncs them. Asks for a message with entries.
    ///
    /// The first of `Failed`, `TooLarge`, `Full`, `LastSerial`, `Memory` and `Fault` that applies;
    /// `TooLarge` also for a tag of more than 1,024 bytes. But for `Fault` none changes the chunks
    /// or the book; after `Fault` the buffer has failed.
    pub fn append<R: Wait>(&self, rt: &R, delivery: &Delivery<A>) -> Result<Receipt<A>, BufferFault>
        requires { 0 < length delivery.now.message.entries }
        ensures number { IfOk result (λ receipt. receipt.delivery ≡ delivery.now.number) }
        ensures leaf { IfOk result (λ receipt. receipt.leaf ≡ self.now.leaf) }
    {
        self.lock.lock(rt).append(&self.terms, delivery)
    }

    /// The same without the sync: the receipt is redeemed later.
    pub fn append_pending<R: Wait>(
        &self,
        rt: &R,
        delivery: &Delivery<A>,
    ) -> Result<Pending<A>, BufferFault>
        requires { 0 < length delivery.now.message.entries }
        ensures number { IfOk result (λ pending. pending.delivery ≡ delivery.now.number) }
        ensures leaf { IfOk result (λ pending. pending.leaf ≡ self.now.leaf) }
    {
        self.lock.lock(rt).append_pending(&self.terms, delivery)
    }

    /// Makes the receipts of appends that wait for them, in the list's order, with one sync where
    /// one of them isn't synced yet, and none otherwise.
    ///
    /// The refusals hand the list back: `Stranger` where one is of another buffer; then `Failed`,
    /// `Memory` and `Fault`.
    pub fn redeem<R: Wait>(
        &self,
        rt: &R,
        pendings: Vec<Pending<A>, A>,
    ) -> Result<Vec<Receipt<A>, A>, (RedeemFault, Vec<Pending<A>, A>)>
        ensures ok { IfOk result
            (λ receipts. AreReceiptsOf self.now.leaf pendings.items receipts.items) }
        ensures back { IfErr result (λ refused. refused.1 ≡ pendings) }
        ensures only { IfErr result (λ refused. IsUnredeemed refused.0) }
    {
        self.lock.lock(rt).redeem(&self.terms, pendings)
    }

    /// Ends an append's wait for a receipt, and takes its note out of the book where it is of this
    /// buffer. Its entries stay in the buffer.
    pub fn give_up<R: Wait>(&self, rt: &R, pending: Pending<A>) -> GivenUp<A>
        ensures { result ≡ pending }
    {
        self.lock.lock(rt).give_up(&self.terms, pending)
    }

    /// Queues the staged chunk of this serial, and syncs the journal. One that sleeps until a chunk
    /// is queued is woken.
    ///
    /// The first of `Failed`, `Gone`, `LastSerial`, `Memory` and `Fault` that applies. None changes
    /// the chunks.
    pub fn enqueue<R: Wait>(&self, rt: &R, serial: u64) -> Result<(), BufferFault> {
        self.lock.lock(rt).enqueue(serial)?;
        self.bell.ring();
        Ok(())
    }

    /// The same, where what comes back shows that no chunk of this serial is staged any more. Where
    /// none was, it changes nothing, and shows it too.
    ///
    /// The first of `Failed`, `LastSerial`, `Memory` and `Fault` that applies.
    pub fn enqueue_shown<R: Wait>(&self, rt: &R, serial: u64) -> Result<Unstaged, BufferFault>
        ensures { IfOk result (λ shown. shown ≡ record { leaf = self.now.leaf; serial = serial }) }
    {
        let shown = self.lock.lock(rt).enqueue_shown(&self.terms, serial)?;
        self.bell.ring();
        Ok(shown)
    }

    /// How often a chunk was queued while it is shared, as far as `sleep_until_queued` asks for it.
    /// A call that finds nothing to queue may count too.
    pub fn times_queued(&self) -> u64 {
        self.bell.times()
    }

    /// Sleeps until a chunk is queued, where none was since that count, and no longer than this. It
    /// may return earlier. A chunk that is given back wakes nobody.
    pub fn sleep_until_queued<R: Wait>(&self, rt: &R, times: u64, most: Duration) {
        self.bell.sleep(rt, times, most);
    }

    /// Lets the queued chunk of least serial go, and gives its serial.
    ///
    /// The first of `Failed`, `Gone`, `Memory` and `Fault` that applies; `Gone` where nothing is
    /// queued, or where this buffer's chunks may not be dropped.
    pub fn drop_oldest<R: Wait>(&self, rt: &R) -> Result<u64, BufferFault>
        ensures { OnOk result (self.now.takes.drops ≡ true) }
    {
        self.lock.lock(rt).drop_oldest(&self.terms)
    }

    /// Goes on in a new generation of the journal, where it is long enough; else it does nothing.
    ///
    /// The first of `Failed`, `LastSerial`, `Memory`, `Fault` and `Damaged` that applies.
    pub fn renew<R: Wait>(&self, rt: &R) -> Result<(), BufferFault> {
        self.lock.lock(rt).renew()
    }

    /// Whether the device failed the buffer, so that it takes nothing and lets nothing go until it
    /// is opened again.
    pub fn has_failed<R: Wait>(&self, rt: &R) -> bool {
        self.lock.lock(rt).has_failed()
    }

    /// Whether the buffer has a chunk of this serial, staged, queued or claimed. Once it was let go
    /// it never has it again.
    pub fn is_live<R: Wait>(&self, rt: &R, serial: u64) -> bool {
        self.lock.lock(rt).is_live(serial)
    }

    /// Claims the first of the queue, if anything is queued. It goes on after a fault.
    ///
    /// The error is want of memory, and changes nothing.
    pub fn claim<R: Wait>(&self, rt: &R) -> Result<Option<Claim<A>>, AllocError>
        ensures { IfOk result (λ claim. IfSome claim (λ c. c.leaf ≡ self.now.leaf)) }
    {
        self.lock.lock(rt).claim(&self.terms)
    }

    /// The entries of a claimed chunk of this buffer, read from the journal: as many as the claim
    /// counts.
    ///
    /// `Gone` where the claim is of another buffer; then the first of `Failed`, `Gone`, `Memory`,
    /// `Fault` and `Damaged` that applies: `Gone` where no live chunk has the claim's serial, tag
    /// and count, `Fault` where a read failed, `Damaged` where the journal hasn't the bytes that
    /// were told. Each leaves the buffer as it was.
    pub fn body<R: Wait>(&self, rt: &R, claim: &Claim<A>) -> Result<Entries<A>, BufferFault>
        ensures own { OnOk result (claim.now.leaf ≡ self.now.leaf) }
        ensures counted { IfOk result (λ entries. length entries ≡ claim.now.count) }
    {
        self.lock.lock(rt).body(&self.terms, claim)
    }

    /// Lets the chunk of a claim go, on evidence that it may. The journal isn't synced, so that a
    /// stop may bring the chunk back, queued.
    ///
    /// `Stranger` where the claim is of another buffer, or the evidence names another chunk, or is
    /// of a kind that this buffer doesn't take, or is of another sink, tag or entries than the
    /// chunk's (in its place `Failed`, `Memory`, `Fault` or `Damaged` where the entries couldn't be
    /// read). Then the first of `Failed`, `Gone`, `Memory` and `Fault` that applies. Each refusal
    /// hands claim and evidence back.
    pub fn purge<R: Wait>(
        &self,
        rt: &R,
        claim: Claim<A>,
        evidence: Evidence<A>,
    ) -> Result<(), (PurgeFault, Claim<A>, Evidence<A>)>
        ensures serves { OnOk result (IsFor self.now.leaf self.now.takes claim evidence) }
        ensures back { IfErr result (λ refused. (refused.1 ≡ claim) × (refused.2 ≡ evidence)) }
    {
        self.lock.lock(rt).purge(&self.terms, claim, evidence)
    }

    /// Ends a claim of this buffer whose chunk wasn't delivered: the chunk goes to the end of the
    /// queue where it is claimed. It takes no memory.
    pub fn give_back<R: Wait>(&self, rt: &R, claim: Claim<A>)
        requires { claim.leaf ≡ self.now.leaf }
    {
        let _ = self.give_back_shown(rt, claim);
    }

    /// The same, where what comes back shows it.
    pub fn give_back_shown<R: Wait>(&self, rt: &R, claim: Claim<A>) -> GivenBack<A>
        requires { claim.leaf ≡ self.now.leaf }
        ensures { result ≡ claim }
    {
        self.lock.lock(rt).give_back(&self.terms, claim)
    }

    /// Closes the lines of the book that the stub's parts of this buffer name. It takes no memory.
    ///
    /// The errors, in this order, change nothing: `Stranger` where a part of this buffer isn't in
    /// the book; `Double` where a line is named that was settled before, or one is named twice.
    pub fn settle<R: Wait>(&self, rt: &R, stub: &Stub<A>) -> Result<(), BookFault> {
        self.lock.lock(rt).settle(&self.terms, stub)
    }

    /// Ends the sharing. It takes no memory.
    pub fn close(self) -> Closed<D, A>
        ensures { result.leaf ≡ self.leaf }
    {
        let SharedBuffer {
            terms,
            lock,
            bell: _,
        } = self;
        lock.into_inner().close(terms)
    }
}
