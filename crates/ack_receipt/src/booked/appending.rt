//! Appends, and the receipts for them.

ghost use Rattle.std.specs.Prelude.{◌≡◌, ◌≢◌, ◌↔◌, ◌⊎◌, ◌<◌, ◌≤◌, ◌+◌, ◌-◌, ◌^◌, ◌++◌, ◌∷◌, [], ℕ, true, false, cond, length, None, Ok, Err, IfOk, OnOk, OnErr, IsTrue};
ghost use Rattle.std.specs.Ordering.{nat_cmp};
ghost use Rattle.std.specs.BTreeMap.{is_at};
ghost use Rattle.event_modes.specs.Message.{longest_tag};
ghost use Rattle.book_audit.specs.Audits.{SameLines};
ghost use Rattle.buffer_state.specs.State.{chunk_at};
ghost use Rattle.buffer_state.specs.Steps.{CanAppend, planned};
ghost use Rattle.buffer_store.specs.declared.fault.BufferFault.{BufferFault};
ghost use Rattle.ack_receipt.specs.Books.{Appends, IsWaiting, RefusesAppend, SameBook, Steady, Syncs, Unchanged, WritesLine, waiting_at};

use super::Booked;
use crate::past::Written;
use book_audit::Line;
use buffer_store::BufferFault;
use disk_files::Dir;
use event_modes::{Entries, LONGEST_TAG};
use std::alloc::Allocator;

/// Where an append with a receipt is noted.
#[derive(Clone, Copy, PartialEq, Eq)]
pub struct Noted {
    /// The serial of the chunk that has the entries.
    pub serial: u64,
    /// The line of the book, counted from 0.
    pub line: u64,
}

/// Where an append that waits for a receipt is noted.
#[derive(Clone, Copy, PartialEq, Eq)]
pub struct Waits {
    /// The serial of the chunk that has the entries.
    pub serial: u64,
    /// The place among all appends, counted from 0.
    pub place: u64,
}

impl<D: Dir, A: Allocator + Copy> Booked<D, A> {
    /// Appends entries for a delivery to the newest staged chunk of their tag, or to a new chunk,
    /// syncs the journal, and writes a line of the book. Asks for at least one entry.
    ///
    /// The first of `Failed`, `TooLarge`, `Full`, `LastSerial`, `Memory` and `Fault` that applies;
    /// `TooLarge` also for a tag of more than 1,024 bytes. But for `Fault` none changes the chunks
    /// or the book.
    pub fn append(
        &mut self,
        delivery: u64,
        tag: &[u8],
        entries: &Entries<A>,
    ) -> Result<Noted, BufferFault>
        requires some { 0 < length entries.now }
        ensures noted { IfOk result
            (λ noted. Appends delivery noted.serial tag.now entries.now self.old self.new) }
        ensures line { IfOk result (λ noted. noted.line ≡ length self.old.lines) }
        ensures written { IfOk result
            (λ noted. WritesLine (length self.old.appends)
            (record { delivery = delivery; serial = noted.serial; count = length entries.now })
            self.old self.new) }
        ensures waiting { self.new.waiting ≡ self.old.waiting }
        // The append is synced, and all before it.
        ensures synced { OnOk result
            ((self.new.synced ≡ length self.new.appends) × (self.new.buffer.staged ≡ false)) }
        ensures same { OnErr result (Unchanged self.old self.new) }
        ensures refused { RefusesAppend tag.now entries.now self.old result }
        ensures steady { Steady self.old.buffer self.new.buffer result }
    {
        let serial = self.plan(tag, entries)?;
        self.lines.reserve(self.waiting.len() + 1)?;
        let line = Line {
            delivery,
            serial,
            count: entries.count() as u64,
        };
        self.buffer.append(tag, entries)?;
        let place = self.count;
        self.past = self.past.then_append(&line);
        self.past = self.past.then_line(&Written { place, line });
        self.count = place + 1;
        // All appends are synced now.
        self.past = self.past.then_synced(&self.buffer);
        self.synced = self.count;
        let line = self.lines.write_reserved(line);
        Ok(Noted { serial, line })
    }

    /// Appends entries for a delivery without a sync. What is appended waits for a receipt.
    pub fn append_pending(
        &mut self,
        delivery: u64,
        tag: &[u8],
        entries: &Entries<A>,
    ) -> Result<Waits, BufferFault>
        requires some { 0 < length entries.now }
        ensures noted { IfOk result
            (λ waits. Appends delivery waits.serial tag.now entries.now self.old self.new) }
        ensures number { IfOk result (λ waits. waits.place ≡ length self.old.appends) }
        ensures waits { IfOk result
            (λ waits. IsWaiting self.new.waiting waits.place
            (record { delivery = delivery; serial = waits.serial; count = length entries.now })) }
        // No line is written, and none is closed.
        ensures lines { (self.new.lines ≡ self.old.lines)
            × SameLines self.old.pages self.new.pages }
        ensures syncs { Syncs self.old self.new }
        ensures same { OnErr result (Unchanged self.old self.new) }
        ensures refused { RefusesAppend tag.now entries.now self.old result }
        ensures steady { Steady self.old.buffer self.new.buffer result }
    {
        let serial = self.plan(tag, entries)?;
        self.lines.reserve(self.waiting.len() + 1)?;
        let line = Line {
            delivery,
            serial,
            count: entries.count() as u64,
        };
        let place = self.count;
        if self.waiting.insert(place, line).is_err() {
            return Err(BufferFault::Memory);
        }
        if let Err(fault) = self.buffer.stage(tag, entries) {
            let _ = self.waiting.remove(&place);
            return Err(fault);
        }
        self.past = self.past.then_append(&line);
        self.count = place + 1;
        Ok(Waits { serial, place })
    }

    /// Whether the append of this place waits for a receipt, and is this one.
    pub fn is_waiting(&self, place: u64, line: &Line) -> bool
        ensures { IsTrue result ↔ IsWaiting self.now.waiting place line.now }
    {
        match self.waiting.get(&place) {
            Some(append) => append == line,
            None => false,
        }
    }

    /// How many of the appends are known to be synced: those before this place.
    pub fn synced(&self) -> u64
        ensures { result ≡ self.now.synced }
    {
        self.synced
    }

    /// Syncs the journal, where an append isn't synced.
    ///
    /// The first of `Failed` and `Fault` that applies. None changes the chunks or the book.
    pub fn sync(&mut self) -> Result<(), BufferFault>
        ensures chunks { self.new.buffer.chunks ≡ self.old.buffer.chunks }
        ensures book { self.new
            ≡ record self.old { buffer = self.new.buffer; synced = self.new.synced } }
        ensures synced { OnOk result
            ((self.new.synced ≡ length self.new.appends) × (self.new.buffer.staged ≡ false)) }
        ensures count { OnErr result (self.new.synced ≡ self.old.synced) }
        ensures syncs { Syncs self.old self.new }
        ensures only { OnErr result
            ((result ≡ Err BufferFault.Failed) ⊎ (result ≡ Err BufferFault.Fault)) }
        ensures steady { Steady self.old.buffer self.new.buffer result }
    {
        self.buffer.sync()?;
        self.note_synced();
        Ok(())
    }

    /// Writes the line of an append that waited for its receipt, and is synced; gives the line's
    /// number. It takes no memory.
    pub fn redeem(&mut self, place: u64, line: Line) -> u64
        requires waits { IsWaiting self.old.waiting place line }
        requires synced { place < self.old.synced }
        ensures number { result ≡ length self.old.lines }
        ensures written { WritesLine place line self.old self.new }
        ensures waiting { (other : ℕ)
            → waiting_at self.new.waiting other
            ≡ cond (is_at (nat_cmp place) other) None (waiting_at self.old.waiting other) }
        ensures rest { self.new
            ≡ record self.old {
              lines = self.new.lines;
              pages = self.new.pages;
              waiting = self.new.waiting;
            } }
    {
        let _ = self.waiting.remove(&place);
        self.past = self.past.then_line(&Written { place, line });
        self.lines.write_reserved(line)
    }

    /// Forgets that this append waits for a receipt, where it does. Its entries stay, and so does
    /// its note.
    pub fn forget(&mut self, place: u64, line: &Line)
        ensures forgotten { IsWaiting self.old.waiting place line.now
            → (other : ℕ) → waiting_at self.new.waiting other
            ≡ cond (is_at (nat_cmp place) other) None (waiting_at self.old.waiting other) }
        ensures stranger { (IsWaiting self.old.waiting place line.now → ⊥) → self.new ≡ self.old }
        ensures rest { self.new ≡ record self.old { waiting = self.new.waiting } }
    {
        if self.is_waiting(place, line) {
            let _ = self.waiting.remove(&place);
        }
    }

    /// The serial at which entries of this tag are to be appended.
    ///
    /// The first of `Failed`, `TooLarge`, `Full` and `LastSerial` that applies; `TooLarge` also for
    /// a tag of more than 1,024 bytes.
    pub fn plan<B: Allocator>(&self, tag: &[u8], entries: &Entries<B>) -> Result<u64, BufferFault>
        ensures place { IfOk result
            (λ serial. planned self.now.buffer.limits self.now.buffer.chunks tag.now entries.now
            ≡ Ok serial) }
        ensures can { IfOk result
            (λ serial. CanAppend self.now.buffer.chunks serial tag.now entries.now) }
        ensures near { IfOk result (λ serial. serial ≤ self.now.buffer.chunks.next) }
        ensures free { OnOk result
            (chunk_at self.now.buffer.chunks self.now.buffer.chunks.next ≡ None) }
        ensures going { OnOk result (self.now.buffer.failed ≡ false) }
        ensures short { OnOk result (length tag.now ≤ longest_tag) }
        ensures number { OnOk result (length self.now.appends < 2 ^ 64 - 1) }
        ensures failed { (result ≡ Err BufferFault.Failed) ↔ (self.now.buffer.failed ≡ true) }
        ensures refused { RefusesAppend tag.now entries.now self.now result }
        ensures quiet { result ≢ Err BufferFault.Fault }
    {
        if self.buffer.has_failed() {
            return Err(BufferFault::Failed);
        }
        if tag.len() > LONGEST_TAG {
            return Err(BufferFault::TooLarge);
        }
        let serial = self.buffer.plan(tag, entries)?;
        if self.count == u64::MAX {
            return Err(BufferFault::LastSerial);
        }
        Ok(serial)
    }
}
