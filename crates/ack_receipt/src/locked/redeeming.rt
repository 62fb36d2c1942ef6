//! Receipts of appends that waited for them.

ghost use Rattle.std.specs.Prelude.{◌≡◌, ◌≢◌, ◌↔◌, ◌⊎◌, ◌<◌, ◌≤◌, [], ℕ, true, cond, length, vec_len, vec_capacity, All, None, Ok, Err, IfOk, IfErr, OnOk, OnErr, IsErr, IsTrue};
ghost use Rattle.std.specs.Ordering.{nat_cmp};
ghost use Rattle.std.specs.BTreeMap.{is_at};
ghost use Rattle.buffer_store.specs.declared.fault.BufferFault.{BufferFault};
ghost use Rattle.ack_receipt.specs.Books.{IsWaiting, Syncs, WritesLine, waiting_at};
ghost use Rattle.ack_receipt.specs.declared.fault.RedeemFault.{RedeemFault};
ghost use Rattle.ack_receipt.specs.Redeeming.{AreApart, AreBefore, AreReceiptsOf, AreWritten, CanRedeem, IsRedeemable, IsUnredeemed, line_of, origin_of, origin_of_pending};

use super::LockedBuffer;
use super::pending::Pending;
use super::receipt::Receipt;
use super::terms::Terms;
use crate::Booked;
use crate::fault::RedeemFault;
use book_audit::{Leaf, Line};
use buffer_store::BufferFault;
use disk_files::Dir;
use std::alloc::Allocator;

impl<D: Dir, A: Allocator + Copy> LockedBuffer<D, A> {
    /// Makes the receipts of appends that wait for them, in the list's order, with one sync where
    /// one of them isn't synced yet.
    ///
    /// The refusals hand the list back: `Stranger` exactly where an append is of another buffer,
    /// doesn't wait for a receipt in this book, or is named twice; then `Failed`, `Memory` and
    /// `Fault`.
    pub(crate) fn redeem(
        &mut self,
        terms: &Terms<A>,
        pendings: Vec<Pending<A>, A>,
    ) -> Result<Vec<Receipt<A>, A>, (RedeemFault, Vec<Pending<A>, A>)>
        ensures ok { IfOk result
            (λ receipts. AreReceiptsOf terms.now.leaf pendings.items receipts.items) }
        ensures written { IfOk result
            (λ receipts. AreWritten pendings.items receipts.items self.old.lines self.new.lines) }
        // Their appends are synced.
        ensures synced { OnOk result (AreBefore self.new.synced pendings.items) }
        ensures syncs { Syncs self.old self.new }
        ensures count { OnErr result (self.new.synced ≡ self.old.synced) }
        ensures chunks { self.new.buffer.chunks ≡ self.old.buffer.chunks }
        ensures appends { self.new.appends ≡ self.old.appends }
        // The device isn't touched where all of them are synced.
        ensures quiet { AreBefore self.old.synced pendings.items
            → self.new.buffer ≡ self.old.buffer }
        ensures stranger { IfErr result
            (λ refused. (refused.0 ≡ RedeemFault.Stranger)
            ↔ (CanRedeem terms.now.leaf self.old.waiting pendings.items → ⊥)) }
        ensures failed { IfErr result
            (λ refused. refused.0 ≡ RedeemFault.Buffer BufferFault.Failed
            → self.old.buffer.failed ≡ true) }
        // A failed buffer gives no receipts.
        ensures stopped { self.old.buffer.failed ≡ true → IsErr result }
        ensures back { IfErr result (λ refused. refused.1 ≡ pendings) }
        ensures only { IfErr result (λ refused. IsUnredeemed refused.0) }
        ensures lines { OnErr result (self.new.lines ≡ self.old.lines) }
    {
        if !are_waiting(&self.booked, terms.leaf, &pendings) || !are_apart(&pendings) {
            return Err((RedeemFault::Stranger, pendings));
        }
        if self.booked.has_failed() {
            return Err((RedeemFault::Buffer(BufferFault::Failed), pendings));
        }
        let Ok(receipts) = Vec::with_capacity(self.alloc, pendings.len()) else {
            return Err((RedeemFault::Buffer(BufferFault::Memory), pendings));
        };
        match sync_for(&mut self.booked, terms.leaf, &pendings) {
            Ok(()) => Ok(made(&mut self.booked, terms.leaf, pendings, receipts)),
            Err(fault) => {
                receipts.into_iter().destroy_empty();
                Err((RedeemFault::Buffer(fault), pendings))
            }
        }
    }
}

// Syncs the buffer, where one of these appends isn't synced.
fn sync_for<D: Dir, A: Allocator + Copy>(
    booked: &mut Booked<D, A>,
    leaf: Leaf,
    pendings: &[Pending<A>],
) -> Result<(), BufferFault>
    requires { All (IsRedeemable leaf booked.old.waiting) pendings.now }
    ensures synced { OnOk result (AreBefore booked.new.synced pendings.now) }
    ensures syncs { Syncs booked.old booked.new }
    ensures count { OnErr result (booked.new.synced ≡ booked.old.synced) }
    ensures chunks { booked.new.buffer.chunks ≡ booked.old.buffer.chunks }
    ensures rest { booked.new
        ≡ record booked.old { buffer = booked.new.buffer; synced = booked.new.synced } }
    ensures quiet { AreBefore booked.old.synced pendings.now
        → (result ≡ Ok tt) × (booked.new ≡ booked.old) }
    ensures only { OnErr result
        ((result ≡ Err BufferFault.Failed) ⊎ (result ≡ Err BufferFault.Fault)) }
    ensures failed { result ≡ Err BufferFault.Failed → booked.old.buffer.failed ≡ true }
{
    // What waits is an append of the book.
    let _ = booked.chunks();
    if are_before(booked.synced(), pendings) {
        return Ok(());
    }
    booked.sync()
}

// Whether they are among the first so many appends.
fn are_before<A: Allocator>(count: u64, pendings: &[Pending<A>]) -> bool
    ensures { IsTrue result ↔ AreBefore count pendings.now }
{
    pendings.iter().all(|pending| pending.place < count)
}

// Whether each of them waits for a receipt in the book of the buffer of this name.
fn are_waiting<D: Dir, A: Allocator + Copy>(
    booked: &Booked<D, A>,
    leaf: Leaf,
    pendings: &[Pending<A>],
) -> bool
    ensures { IsTrue result ↔ All (IsRedeemable leaf booked.now.waiting) pendings.now }
{
    pendings
        .iter()
        .all(|pending| is_redeemable(booked, leaf, pending))
}

fn is_redeemable<D: Dir, A: Allocator + Copy>(
    booked: &Booked<D, A>,
    leaf: Leaf,
    pending: &Pending<A>,
) -> bool
    ensures { IsTrue result ↔ IsRedeemable leaf booked.now.waiting pending.now }
{
    pending.leaf == leaf && booked.is_waiting(pending.place, &pending.line())
}

// Whether no two of them are one append.
fn are_apart<A: Allocator>(pendings: &[Pending<A>]) -> bool
    ensures { IsTrue result ↔ AreApart pendings.now }
{
    are_rising(pendings) || are_each_once(pendings)
}

// Whether their places rise.
fn are_rising<A: Allocator>(pendings: &[Pending<A>]) -> bool
    ensures { IsTrue result → AreApart pendings.now }
{
    let mut next = 0;
    for pending in pendings {
        if pending.place < next || pending.place == u64::MAX {
            return false;
        }
        next = pending.place + 1;
    }
    true
}

fn are_each_once<A: Allocator>(pendings: &[Pending<A>]) -> bool
    ensures { IsTrue result ↔ AreApart pendings.now }
{
    let mut rest = pendings;
    while let Some((pending, behind)) = rest.split_first() {
        if !is_apart(pending.place, behind) {
            return false;
        }
        rest = behind;
    }
    true
}

// Whether none of them has this place.
fn is_apart<A: Allocator>(place: u64, pendings: &[Pending<A>]) -> bool
    ensures { IsTrue result ↔ All (λ pending. place ≢ pending.place) pendings.now }
{
    pendings.iter().all(|pending| place != pending.place)
}

// Adds the receipts of appends that are synced.
#[tactic(auto, unfolding(crate::specs::Redeeming::numbers_from))]
fn made<D: Dir, A: Allocator + Copy>(
    booked: &mut Booked<D, A>,
    leaf: Leaf,
    pendings: Vec<Pending<A>, A>,
    mut receipts: Vec<Receipt<A>, A>,
) -> Vec<Receipt<A>, A>
    requires can { CanRedeem leaf booked.old.waiting pendings.items }
    requires synced { AreBefore booked.old.synced pendings.items }
    requires empty { receipts.items ≡ [] }
    requires room { vec_len pendings ≤ vec_capacity receipts }
    ensures made { AreReceiptsOf leaf pendings.items result.items }
    ensures written { AreWritten pendings.items result.items booked.old.lines booked.new.lines }
    ensures buffer { booked.new.buffer ≡ booked.old.buffer }
    ensures appends { booked.new.appends ≡ booked.old.appends }
    ensures synced { booked.new.synced ≡ booked.old.synced }
{
    let mut rest = pendings.into_iter();
    while let Some(pending) = rest.next() {
        receipts.push_reserved(receipt_of(booked, pending));
    }
    rest.destroy_empty();
    receipts
}

// The receipt of an append that is synced.
fn receipt_of<D: Dir, A: Allocator + Copy>(
    booked: &mut Booked<D, A>,
    pending: Pending<A>,
) -> Receipt<A>
    requires waits { IsWaiting booked.old.waiting pending.place (line_of pending) }
    requires synced { pending.place < booked.old.synced }
    ensures origin { origin_of result ≡ origin_of_pending pending }
    ensures line { result.line ≡ length booked.old.lines }
    ensures written { WritesLine pending.place (line_of pending) booked.old booked.new }
    ensures waiting { (other : ℕ)
        → waiting_at booked.new.waiting other
        ≡ cond (is_at (nat_cmp pending.place) other) None (waiting_at booked.old.waiting other) }
    ensures rest { booked.new
        ≡ record booked.old {
          lines = booked.new.lines;
          pages = booked.new.pages;
          waiting = booked.new.waiting;
        } }
{
    let Pending {
        delivery,
        leaf,
        serial,
        count,
        place,
        room,
    } = pending;
    let line = booked.redeem(
        place,
        Line {
            delivery,
            serial,
            count,
        },
    );
    Receipt {
        delivery,
        leaf,
        serial,
        line,
        room,
    }
}
