//! What lies behind the lock of a shared buffer. Each call is lent the buffer's terms, and takes
//! whole what it works on: a delivery, pending appends, a claim with its evidence, a stub. Receipts
//! and pending appends are made in this module's parts alone, and nobody outside is lent the book.

ghost use Rattle.std.specs.Prelude.{◌≡◌, ◌↔◌, ◌⊎◌, ◌+◌, [], ℕ, true, false, cond, length, Some, None, Ok, Err, IfOk, IfErr, IfSome, IsSome, IsSomeAnd, IsTrue, OnOk, OnErr, option_map, slice_get};
ghost use Rattle.std.specs.Ordering.{nat_cmp};
ghost use Rattle.std.specs.BTreeMap.{is_at};
ghost use Rattle.book_audit.specs.Audits.{AreInBook, Closes, IsAgain, Settles, lines_of};
ghost use Rattle.book_audit.specs.declared.fault.BookFault.{BookFault};
ghost use Rattle.buffer_state.specs.State.{IsAt, chunk_at};
ghost use Rattle.buffer_state.specs.Steps.{claimed, queued_last};
ghost use Rattle.buffer_state.specs.declared.chunk.Stage.TheVariants.{Claimed, Staged};
ghost use Rattle.buffer_store.specs.Durability.{BeganWell};
ghost use Rattle.buffer_store.specs.Room.{IsNearlyFull};
ghost use Rattle.ack_receipt.specs.Told.{counts_of};
ghost use Rattle.ack_receipt.specs.Books.{IsWaiting, Removes, Syncs, Unchanged, WantsRenewal, waiting_at};
ghost use Rattle.ack_receipt.specs.Claims.{IsCopied};
ghost use Rattle.ack_receipt.specs.Evidences.{CanCompare, IsFor, Serves, ShowsLike, to_drop};
ghost use Rattle.ack_receipt.specs.Redeeming.{IsRedeemable, line_of};

mod appending;
mod pending;
mod receipt;
mod redeeming;
mod shown;
mod terms;

use crate::{Booked, Claim, Closed, Evidence, PurgeFault, Takes};
use book_audit::{BookFault, Leaf, Stub};
use buffer_store::{Buffer, BufferFault};
use disk_files::Dir;
use event_modes::Entries;
pub use pending::Pending;
pub use receipt::Receipt;
pub use shown::{GivenBack, GivenUp, Unstaged};
use std::alloc::{AllocError, Allocator};
use std::marker::Model;
use std::snapshot::Snapshot;
pub(crate) use terms::Terms;

/// A buffer with its book, as the lock of a shared buffer keeps it. Contracts see the `Book`.
pub struct LockedBuffer<D: Dir, A: Allocator> {
    alloc: A,
    booked: Booked<D, A>,
}

// By hand, so that crates above don't prove again how its parts end.
impl<D: Dir + Drop, A: Allocator> Drop for LockedBuffer<D, A> {
    fn drop(self) {
        let LockedBuffer {
            alloc: _,
            booked: _,
        } = self;
    }
}

impl<D: Dir, A: Allocator> Model for LockedBuffer<D, A> {
    ghost use Rattle.ack_receipt.specs.Books.{Book};

    ghost Value = { Book D };

    ghost view = { λ b. b.booked };
}

impl<D: Dir, A: Allocator + Copy> LockedBuffer<D, A> {
    /// Locks a buffer up, and begins its book. It has this name from now on, and its chunks go so.
    pub(crate) fn new(
        alloc: A,
        buffer: Buffer<D, A>,
        leaf: Leaf,
        takes: Takes<A>,
    ) -> (Terms<A>, LockedBuffer<D, A>)
        ensures terms { result.0 ≡ record { leaf = leaf; takes = takes } }
        ensures buffer { result.1.buffer ≡ buffer }
        ensures first { result.1.first ≡ counts_of buffer.chunks }
        ensures none { (result.1.appends ≡ []) × (result.1.lines ≡ []) × (result.1.removed ≡ []) }
    {
        let booked = Booked::new(alloc, buffer);
        (Terms { leaf, takes }, LockedBuffer { alloc, booked })
    }

    /// Ends an append's wait for a receipt, and takes its note out of the book where it is of this
    /// buffer. Its entries stay in the buffer.
    pub(crate) fn give_up(&mut self, terms: &Terms<A>, pending: Pending<A>) -> GivenUp<A>
        ensures shown { result ≡ pending }
        ensures own { IsRedeemable terms.now.leaf self.old.waiting pending
            → (other : ℕ) → waiting_at self.new.waiting other
            ≡ cond (is_at (nat_cmp pending.place) other) None (waiting_at self.old.waiting other) }
        ensures stranger { (IsRedeemable terms.now.leaf self.old.waiting pending → ⊥)
            → self.new ≡ self.old }
        ensures rest { self.new ≡ record self.old { waiting = self.new.waiting } }
    {
        if pending.leaf == terms.leaf {
            self.booked.forget(pending.place, &pending.line());
        }
        let of = Snapshot::of(&pending);
        pending.give_up();
        GivenUp { of }
    }

    /// Queues the staged chunk of this serial, and syncs the journal. See `Booked::enqueue`.
    pub(crate) fn enqueue(&mut self, serial: u64) -> Result<(), BufferFault>
        ensures ok { OnOk result
            (self.new.buffer.chunks ≡ queued_last serial self.old.buffer.chunks) }
        ensures err { OnErr result (self.new.buffer.chunks ≡ self.old.buffer.chunks) }
        ensures book { self.new
            ≡ record self.old { buffer = self.new.buffer; synced = self.new.synced } }
        ensures syncs { Syncs self.old self.new }
    {
        self.booked.enqueue(serial)
    }

    /// The same, and shows that no chunk of this serial is staged any more. It changes nothing
    /// where none was.
    pub(crate) fn enqueue_shown(
        &mut self,
        terms: &Terms<A>,
        serial: u64,
    ) -> Result<Unstaged, BufferFault>
        ensures shown { IfOk result
            (λ shown. shown ≡ record { leaf = terms.now.leaf; serial = serial }) }
        ensures done { OnOk result
            ((self.new.buffer.chunks ≡ queued_last serial self.old.buffer.chunks)
            ⊎ ((IsAt Staged self.old.buffer.chunks serial → ⊥)
            × (self.new.buffer.chunks ≡ self.old.buffer.chunks))) }
        ensures err { OnErr result (self.new.buffer.chunks ≡ self.old.buffer.chunks) }
        ensures book { self.new
            ≡ record self.old { buffer = self.new.buffer; synced = self.new.synced } }
        ensures syncs { Syncs self.old self.new }
    {
        match self.booked.enqueue(serial) {
            Ok(()) | Err(BufferFault::Gone) => Ok(Unstaged {
                leaf: terms.leaf,
                serial,
            }),
            Err(fault) => Err(fault),
        }
    }

    /// Goes on in a new generation of the journal, where it is long enough; else it does nothing.
    /// See `Booked::renew`.
    pub(crate) fn renew(&mut self) -> Result<(), BufferFault>
        ensures chunks { self.new.buffer.chunks ≡ self.old.buffer.chunks }
        ensures book { self.new
            ≡ record self.old { buffer = self.new.buffer; synced = self.new.synced } }
        ensures syncs { Syncs self.old self.new }
        ensures idle { self.old.buffer.failed ≡ false → (WantsRenewal self.old.buffer → ⊥)
            → (result ≡ Ok tt) × (self.new ≡ self.old) }
        ensures number { WantsRenewal self.old.buffer
            → OnOk result (self.new.buffer.journal.number ≡ self.old.buffer.journal.number + 1) }
    {
        self.booked.renew()
    }

    /// Whether its chunks take more than four fifths of what it takes.
    pub(crate) fn is_nearly_full(&self) -> bool
        ensures { IsTrue result ↔ IsNearlyFull self.now.buffer.limits self.now.buffer.chunks }
    {
        self.booked.is_nearly_full()
    }

    /// Whether the device failed the buffer.
    pub(crate) fn has_failed(&self) -> bool
        ensures { result ≡ self.now.buffer.failed }
    {
        self.booked.has_failed()
    }

    /// Whether a chunk of this serial is live.
    pub(crate) fn is_live(&self, serial: u64) -> bool
        ensures { IsTrue result ↔ IsSome (chunk_at self.now.buffer.chunks serial) }
    {
        self.booked.chunks().stage(serial).is_some()
    }

    /// Claims the first of the queue, if anything is queued. The error is want of memory, and
    /// changes nothing.
    pub(crate) fn claim(&mut self, terms: &Terms<A>) -> Result<Option<Claim<A>>, AllocError>
        ensures first { IfOk result
            (λ claim. option_map (λ c. c.serial) claim ≡ slice_get self.old.buffer.chunks.queue 0) }
        ensures leaf { IfOk result (λ claim. IfSome claim (λ c. c.leaf ≡ terms.now.leaf)) }
        ensures copied { IfOk result
            (λ claim. IfSome claim (λ c. IsCopied c self.old.buffer.chunks)) }
        ensures state { OnOk result
            (self.new ≡ record self.old {
              buffer = record
                  self.old.buffer { chunks = claimed self.old.buffer.chunks };
            }) }
        ensures err { OnErr result (self.new ≡ self.old) }
    {
        self.booked.claim(terms.leaf)
    }

    /// The entries of a claimed chunk of this buffer, read from the journal. See `Booked::body`.
    pub(crate) fn body(
        &mut self,
        terms: &Terms<A>,
        claim: &Claim<A>,
    ) -> Result<Entries<A>, BufferFault>
        ensures own { OnOk result
            ((claim.now.leaf ≡ terms.now.leaf) × IsCopied claim.now self.old.buffer.chunks) }
        ensures entries { BeganWell D.is_honest D.history self.old.buffer
            → IfOk result (λ entries. IsSomeAnd (chunk_at self.old.buffer.chunks claim.now.serial)
            (λ chunk. entries ≡ chunk.entries)) }
        ensures counted { IfOk result (λ entries. length entries ≡ claim.now.count) }
        ensures rest { self.new
            ≡ record self.old { buffer = record self.old.buffer { dir = self.new.buffer.dir } } }
    {
        self.booked.body(terms.leaf, claim)
    }

    /// Ends a claim of this buffer whose chunk wasn't delivered: the chunk goes to the end of the
    /// queue where it is claimed, and else nothing changes.
    pub(crate) fn give_back(&mut self, terms: &Terms<A>, claim: Claim<A>) -> GivenBack<A>
        requires own { claim.leaf ≡ terms.now.leaf }
        ensures shown { result ≡ claim }
        ensures back { IsAt Claimed self.old.buffer.chunks claim.serial
            → self.new ≡ record
            self.old {
              buffer = record
                  self.old.buffer { chunks = queued_last claim.serial self.old.buffer.chunks };
            } }
        ensures other { (IsAt Claimed self.old.buffer.chunks claim.serial → ⊥)
            → self.new ≡ self.old }
        ensures ended { IsAt Claimed self.new.buffer.chunks claim.serial → ⊥ }
    {
        let of = Snapshot::of(&claim);
        self.booked.give_back(terms.leaf, claim);
        GivenBack { of }
    }

    /// Lets the chunk of a claim go, on evidence that it may, and notes that it is removed. See
    /// `Booked::purge`.
    pub(crate) fn purge(
        &mut self,
        terms: &Terms<A>,
        claim: Claim<A>,
        evidence: Evidence<A>,
    ) -> Result<(), (PurgeFault, Claim<A>, Evidence<A>)>
        ensures meant { OnOk result (IsFor terms.now.leaf terms.now.takes claim evidence) }
        ensures like { OnOk result (ShowsLike self.old.buffer.chunks claim.serial evidence) }
        ensures serves { CanCompare D.is_honest D.history self.old.buffer evidence
            → OnOk result (Serves terms.now.leaf terms.now.takes self.old.buffer.chunks claim
            evidence) }
        ensures removes { OnOk result (Removes claim.serial self.old self.new) }
        ensures back { IfErr result (λ refused. (refused.1 ≡ claim) × (refused.2 ≡ evidence)) }
        ensures same { OnErr result (Unchanged self.old self.new) }
    {
        self.booked.purge(terms.leaf, &terms.takes, claim, evidence)
    }

    /// Lets the queued chunk of least serial go where chunks may be dropped, notes that it is
    /// removed, and gives its serial. See `Booked::drop_oldest`.
    pub(crate) fn drop_oldest(&mut self, terms: &Terms<A>) -> Result<u64, BufferFault>
        ensures oldest { IfOk result
            (λ serial. to_drop terms.now.takes self.old.buffer.chunks ≡ Some serial) }
        ensures removes { IfOk result (λ serial. Removes serial self.old self.new) }
        ensures same { OnErr result (Unchanged self.old self.new) }
    {
        self.booked.drop_oldest(&terms.takes)
    }

    /// Closes the lines that the stub's parts of this buffer name. See `Booked::settle`.
    pub(crate) fn settle(&mut self, terms: &Terms<A>, stub: &Stub<A>) -> Result<(), BookFault>
        ensures ok { OnOk result (Settles terms.now.leaf self.old.pages stub.now) }
        ensures closed { OnOk result
            (Closes (lines_of terms.now.leaf stub.now.parts) self.old.pages self.new.pages) }
        ensures stranger { (result ≡ Err BookFault.Stranger)
            ↔ (¬ AreInBook terms.now.leaf self.old.pages stub.now) }
        ensures same { OnErr result (self.new ≡ self.old) }
        ensures rest { self.new ≡ record self.old { pages = self.new.pages } }
    {
        self.booked.settle(terms.leaf, stub)
    }

    /// The buffer with its book, which takes no steps any more.
    pub(crate) fn close(self, terms: Terms<A>) -> Closed<D, A>
        ensures { result ≡ record { leaf = terms.leaf; book = self } }
    {
        let LockedBuffer { alloc: _, booked } = self;
        let Terms { leaf, takes: _ } = terms;
        Closed::new(leaf, booked)
    }
}
