//! How chunks leave a buffer.

ghost use Rattle.std.specs.Prelude.{◌≡◌, ◌≢◌, ◌↔◌, ◌⊎◌, ◌≤◌, ◌++◌, ◌∷◌, [], ℕ, true, false, length, Some, None, Ok, Err, IfOk, IfErr, IfSome, IsSome, IsSomeAnd, OnOk, OnErr, IsTrue, option_map, slice_get};
ghost use Rattle.buffer_state.specs.State.{IsAt, chunk_at};
ghost use Rattle.buffer_state.specs.Steps.{claimed, queued_last};
ghost use Rattle.buffer_state.specs.declared.chunk.Stage.TheVariants.{Claimed};
ghost use Rattle.buffer_store.specs.Durability.{BeganWell};
ghost use Rattle.buffer_store.specs.declared.fault.BufferFault.{BufferFault};
ghost use Rattle.ack_receipt.specs.declared.book_fault.PurgeFault.{PurgeFault};
ghost use Rattle.ack_receipt.specs.Claims.{IsCopied};
ghost use Rattle.disk_files.specs.Faults.{Rises};
ghost use Rattle.ack_receipt.specs.Evidences.{CanCompare, IsFor, IsLike, IsUnread, IsWhole, RefusesPurge, Serves, ShowsLike, SparesBuffer, answer_of, stored_of, to_drop};
ghost use Rattle.ack_receipt.specs.Books.{Removes, Steady, Unchanged};

use super::Booked;
use crate::book_fault::PurgeFault;
use crate::claim::Claim;
use crate::evidence::Evidence;
use crate::takes::Takes;
use book_audit::Leaf;
use buffer_state::{LiveChunks, Stage};
use buffer_store::BufferFault;
use disk_files::Dir;
use event_modes::Entries;
use sink_series::Stored;
use std::alloc::{AllocError, Allocator};

impl<D: Dir, A: Allocator + Copy> Booked<D, A> {
    /// Claims the first of the queue, if anything is queued. The claim has the buffer's name and a
    /// copy of the chunk's tag. It writes nothing, and goes on after a fault. The book stays as it
    /// is.
    ///
    /// The error is want of memory, and changes nothing: the order of the queue stays too.
    pub fn claim(&mut self, leaf: Leaf) -> Result<Option<Claim<A>>, AllocError>
        ensures first { IfOk result
            (λ claim. option_map (λ c. c.serial) claim ≡ slice_get self.old.buffer.chunks.queue 0) }
        ensures leaf { IfOk result (λ claim. IfSome claim (λ c. c.leaf ≡ leaf)) }
        ensures copied { IfOk result
            (λ claim. IfSome claim (λ c. IsCopied c self.old.buffer.chunks)) }
        ensures taken { IfOk result
            (λ claim. IfSome claim (λ c. IsAt Claimed self.new.buffer.chunks c.serial)) }
        ensures state { OnOk result
            (self.new ≡ record self.old {
              buffer = record
                  self.old.buffer { chunks = claimed self.old.buffer.chunks };
            }) }
        ensures err { OnErr result (self.new ≡ self.old) }
    {
        let Some(serial) = self.buffer.chunks().first() else {
            return Ok(None);
        };
        let Some(facts) = self.buffer.chunks().facts(serial) else {
            return Ok(None);
        };
        let claim = Claim::of(self.alloc, leaf, serial, facts.tag, facts.count)?;
        let _ = self.buffer.claim();
        Ok(Some(claim))
    }

    /// The entries of a claimed chunk of this buffer, read from the journal: as many as the claim
    /// counts.
    ///
    /// `Gone` where the claim is of another buffer; then the first of `Failed`, `Gone`, `Memory`,
    /// `Fault` and `Damaged` that applies: `Gone` where no live chunk has the claim's serial, tag
    /// and count, `Fault` where a read failed, `Damaged` where the journal hasn't the bytes that
    /// were told. Each leaves the buffer as it was.
    pub fn body(&mut self, leaf: Leaf, claim: &Claim<A>) -> Result<Entries<A>, BufferFault>
        ensures own { OnOk result
            ((claim.now.leaf ≡ leaf) × IsCopied claim.now self.old.buffer.chunks) }
        ensures entries { BeganWell D.is_honest D.history self.old.buffer
            → IfOk result (λ entries. IsSomeAnd (chunk_at self.old.buffer.chunks claim.now.serial)
            (λ chunk. entries ≡ chunk.entries)) }
        // Over whatever folder there are as many as were appended.
        ensures counted { IfOk result (λ entries. length entries ≡ claim.now.count) }
        ensures failed { (result ≡ Err BufferFault.Failed)
            ↔ ((claim.now.leaf ≡ leaf) × (self.old.buffer.failed ≡ true)) }
        ensures gone { (result ≡ Err BufferFault.Gone)
            ↔ ((claim.now.leaf ≢ leaf)
            ⊎ ((self.old.buffer.failed ≡ false)
            × (IsCopied claim.now self.old.buffer.chunks → ⊥))) }
        ensures undamaged { BeganWell D.is_honest D.history self.old.buffer
            → result ≢ Err BufferFault.Damaged }
        ensures only { OnErr result
            ((result ≡ Err BufferFault.Failed)
            ⊎ ((result ≡ Err BufferFault.Gone) ⊎ ((result ≡ Err BufferFault.Memory)
            ⊎ ((result ≡ Err BufferFault.Fault) ⊎ (result ≡ Err BufferFault.Damaged))))) }
        ensures rest { self.new
            ≡ record self.old { buffer = record self.old.buffer { dir = self.new.buffer.dir } } }
        ensures cause { result ≡ Err BufferFault.Fault
            → Rises (D.fault_count self.old.buffer.dir) (D.fault_count self.new.buffer.dir) }
    {
        if claim.leaf() != leaf {
            return Err(BufferFault::Gone);
        }
        if self.buffer.has_failed() {
            return Err(BufferFault::Failed);
        }
        if !is_copied(claim, &self.buffer.chunks()) {
            return Err(BufferFault::Gone);
        }
        self.buffer.body(claim.serial())
    }

    /// Ends a claim of this buffer whose chunk wasn't delivered: the chunk goes to the end of the
    /// queue where it is claimed, and else nothing changes. It takes no memory, writes nothing, and
    /// goes on after a fault. The book stays as it is.
    pub fn give_back(&mut self, leaf: Leaf, claim: Claim<A>)
        requires own { claim.leaf ≡ leaf }
        ensures back { IsAt Claimed self.old.buffer.chunks claim.serial
            → self.new ≡ record
            self.old {
              buffer = record
                  self.old.buffer { chunks = queued_last claim.serial self.old.buffer.chunks };
            } }
        ensures other { (IsAt Claimed self.old.buffer.chunks claim.serial → ⊥)
            → self.new ≡ self.old }
        // No claim ends with its chunk still claimed.
        ensures ended { IsAt Claimed self.new.buffer.chunks claim.serial → ⊥ }
    {
        let is_own = claim.leaf() == leaf;
        prove!(is_own);
        let serial = claim.serial();
        claim.end();
        if is_claimed(&self.buffer.chunks(), serial) {
            self.buffer.give_back(serial);
        }
    }

    /// Lets the chunk of a claim go, on evidence that it may, and notes that it is removed. The
    /// journal isn't synced, so that a stop may bring the chunk back, queued.
    ///
    /// `Stranger` where the claim is of another buffer, or the evidence doesn't serve: it names
    /// another chunk, or is of a kind that isn't taken, or is of another sink, tag or entries than
    /// the live chunk's; in its place `Failed`, `Memory`, `Fault` or `Damaged` where the entries
    /// couldn't be read. Then the first of `Failed`, `Gone`, `Memory` and `Fault` that applies;
    /// `Gone` where the chunk isn't claimed. Each refusal hands claim and evidence back, and
    /// changes neither the chunks nor the book.
    pub fn purge(
        &mut self,
        leaf: Leaf,
        takes: &Takes<A>,
        claim: Claim<A>,
        evidence: Evidence<A>,
    ) -> Result<(), (PurgeFault, Claim<A>, Evidence<A>)>
        ensures meant { OnOk result (IsFor leaf takes.now claim evidence) }
        ensures like { OnOk result (ShowsLike self.old.buffer.chunks claim.serial evidence) }
        ensures serves { CanCompare D.is_honest D.history self.old.buffer evidence
            → OnOk result (Serves leaf takes.now self.old.buffer.chunks claim evidence) }
        ensures removes { OnOk result (Removes claim.serial self.old self.new) }
        ensures refused { RefusesPurge D.is_honest D.history D.fault_count leaf takes.now claim
            evidence
            self.old.buffer self.new.buffer (answer_of result) }
        ensures back { IfErr result (λ e. (e.1 ≡ claim) × (e.2 ≡ evidence)) }
        ensures same { OnErr result (Unchanged self.old self.new) }
        // Only a purge that may come to write can fail the buffer.
        ensures spares { SparesBuffer D.is_honest D.history leaf takes.now claim evidence
            self.old.buffer self.new.buffer (answer_of result) }
    {
        match self.serves(leaf, takes, &claim, &evidence) {
            Ok(true) => {}
            Ok(false) => return Err((PurgeFault::Stranger, claim, evidence)),
            Err(fault) => return Err((PurgeFault::Buffer(fault), claim, evidence)),
        }
        match self.let_go(claim.serial()) {
            Ok(()) => {
                claim.end();
                evidence.waste();
                Ok(())
            }
            Err(fault) => Err((PurgeFault::Buffer(fault), claim, evidence)),
        }
    }

    /// Lets the queued chunk of least serial go where chunks may be dropped, notes that it is
    /// removed, and gives its serial. The journal isn't synced.
    ///
    /// The first of `Failed`, `Gone`, `Memory` and `Fault` that applies; `Gone` where nothing is
    /// queued, or where this buffer's chunks may not be dropped. None changes the chunks or the
    /// book.
    pub fn drop_oldest(&mut self, takes: &Takes<A>) -> Result<u64, BufferFault>
        ensures oldest { IfOk result
            (λ serial. to_drop takes.now self.old.buffer.chunks ≡ Some serial) }
        ensures removes { IfOk result (λ serial. Removes serial self.old self.new) }
        ensures gone { (result ≡ Err BufferFault.Gone)
            ↔ ((self.old.buffer.failed ≡ false)
            × (to_drop takes.now self.old.buffer.chunks ≡ None)) }
        ensures only { self.old.buffer.failed ≡ false → (serial : ℕ)
            → to_drop takes.now self.old.buffer.chunks ≡ Some serial
            → OnErr result ((result ≡ Err BufferFault.Memory) ⊎ (result ≡ Err BufferFault.Fault)) }
        ensures same { OnErr result (Unchanged self.old self.new) }
        ensures steady { Steady self.old.buffer self.new.buffer result }
    {
        if self.buffer.has_failed() {
            return Err(BufferFault::Failed);
        }
        if !takes.drops {
            return Err(BufferFault::Gone);
        }
        // No serial is that of two chunks.
        self.buffer.stays_in_order();
        let serial = self.buffer.drop_oldest()?;
        self.past = self.past.then_removed(&serial);
        Ok(serial)
    }

    // Whether the evidence lets the claimed chunk go.
    fn serves(
        &mut self,
        leaf: Leaf,
        takes: &Takes<A>,
        claim: &Claim<A>,
        evidence: &Evidence<A>,
    ) -> Result<bool, BufferFault>
        ensures meant { IfOk result
            (λ serves. IsTrue serves → IsFor leaf takes.now claim.now evidence.now) }
        ensures like { IfOk result
            (λ serves. IsTrue serves
            → ShowsLike self.old.buffer.chunks claim.now.serial evidence.now) }
        ensures serves { CanCompare D.is_honest D.history self.old.buffer evidence.now
            → IfOk result (λ serves. IsTrue serves
            ↔ Serves leaf takes.now self.old.buffer.chunks claim.now evidence.now) }
        ensures astray { (IsFor leaf takes.now claim.now evidence.now → ⊥) → result ≡ Ok false }
        ensures read { OnErr result (IsSome (stored_of evidence.now) × IsUnread result) }
        ensures failed { result ≡ Err BufferFault.Failed → self.old.buffer.failed ≡ true }
        ensures stopped { self.old.buffer.failed ≡ true
            → OnErr result (result ≡ Err BufferFault.Failed) }
        ensures undamaged { CanCompare D.is_honest D.history self.old.buffer evidence.now
            → result ≢ Err BufferFault.Damaged }
        ensures rest { self.new
            ≡ record self.old { buffer = record self.old.buffer { dir = self.new.buffer.dir } } }
        ensures later { D.fault_count self.old.buffer.dir ≤ D.fault_count self.new.buffer.dir }
        ensures cause { result ≡ Err BufferFault.Fault
            → Rises (D.fault_count self.old.buffer.dir) (D.fault_count self.new.buffer.dir) }
    {
        if !evidence.is_for(leaf, takes, claim) {
            return Ok(false);
        }
        match evidence.stored_in_sink() {
            Some(stored) => self.is_stored(claim.serial(), stored),
            None => Ok(true),
        }
    }

    // Whether what is in a sink are the tag and the entries of the live chunk of this serial.
    fn is_stored(&mut self, serial: u64, stored: &Stored<A>) -> Result<bool, BufferFault>
        ensures whole { BeganWell D.is_honest D.history self.old.buffer
            → IfOk result (λ whole. IsTrue whole
            ↔ IsWhole self.old.buffer.chunks serial stored.now) }
        ensures like { IfOk result
            (λ whole. IsTrue whole → IsLike self.old.buffer.chunks serial stored.now) }
        ensures read { OnErr result (IsUnread result) }
        ensures failed { result ≡ Err BufferFault.Failed → self.old.buffer.failed ≡ true }
        ensures stopped { self.old.buffer.failed ≡ true
            → OnErr result (result ≡ Err BufferFault.Failed) }
        ensures undamaged { BeganWell D.is_honest D.history self.old.buffer
            → result ≢ Err BufferFault.Damaged }
        ensures rest { self.new
            ≡ record self.old { buffer = record self.old.buffer { dir = self.new.buffer.dir } } }
        ensures later { D.fault_count self.old.buffer.dir ≤ D.fault_count self.new.buffer.dir }
        ensures cause { result ≡ Err BufferFault.Fault
            → Rises (D.fault_count self.old.buffer.dir) (D.fault_count self.new.buffer.dir) }
    {
        let Some(facts) = self.buffer.chunks().facts(serial) else {
            return Ok(false);
        };
        if facts.tag != stored.tag() {
            return Ok(false);
        }
        let entries = self.buffer.body(serial)?;
        Ok(are_same(&entries, stored.entries()))
    }

    // Lets the claimed chunk of this serial go, and notes it.
    fn let_go(&mut self, serial: u64) -> Result<(), BufferFault>
        ensures removes { OnOk result (Removes serial self.old self.new) }
        ensures gone { (result ≡ Err BufferFault.Gone)
            ↔ ((self.old.buffer.failed ≡ false)
            × (IsAt Claimed self.old.buffer.chunks serial → ⊥)) }
        ensures only { self.old.buffer.failed ≡ false → IsAt Claimed self.old.buffer.chunks serial
            → OnErr result ((result ≡ Err BufferFault.Memory) ⊎ (result ≡ Err BufferFault.Fault)) }
        ensures same { OnErr result (Unchanged self.old self.new) }
        ensures steady { Steady self.old.buffer self.new.buffer result }
        ensures cause { result ≡ Err BufferFault.Fault
            → Rises (D.fault_count self.old.buffer.dir) (D.fault_count self.new.buffer.dir) }
    {
        // No serial is that of two chunks.
        self.buffer.stays_in_order();
        self.buffer.purge(serial)?;
        self.past = self.past.then_removed(&serial);
        Ok(())
    }
}

// Whether the chunk of this serial is live and claimed.
fn is_claimed<A: Allocator + Copy>(chunks: &LiveChunks<'_, A>, serial: u64) -> bool
    ensures { IsTrue result ↔ IsAt Claimed chunks.now serial }
{
    matches!(chunks.stage(serial), Some(Stage::Claimed))
}

// Whether the live chunk of the claim's serial has its tag, and as many entries as it counts.
fn is_copied<A: Allocator + Copy>(claim: &Claim<A>, chunks: &LiveChunks<'_, A>) -> bool
    ensures { IsTrue result ↔ IsCopied claim.now chunks.now }
{
    match chunks.facts(claim.serial()) {
        Some(facts) => facts.tag == claim.tag() && facts.count == claim.count(),
        None => false,
    }
}

// Whether the lists have the same entries.
fn are_same<A: Allocator, B: Allocator>(one: &Entries<A>, other: &Entries<B>) -> bool
    ensures { IsTrue result ↔ (one.now ≡ other.now) }
{
    one.count() == other.count() && one.as_bytes() == other.as_bytes()
}
