//! A buffer with its book, and the calls that neither append nor let a chunk go.

ghost use Rattle.std.specs.Prelude.{◌≡◌, ◌≢◌, ◌↔◌, ◌⊎◌, ◌<◌, ◌≤◌, ◌+◌, [], true, false, length, All, Ok, Err, OnOk, OnErr, IsErrOf, IsTrue};
ghost use Rattle.book_audit.specs.Audits.{Accounts, AreInBook, AreOpenOnce, Closes, HasStranger, IsAgain, IsLeftOut, Settles, lines_named, lines_of};
ghost use Rattle.book_audit.specs.declared.fault.BookFault.{BookFault};
ghost use Rattle.book_audit.specs.declared.fault.AuditError.{AuditError};
ghost use Rattle.buffer_state.specs.State.{IsAt, chunk_at};
ghost use Rattle.buffer_state.specs.Steps.{queued_last};
ghost use Rattle.buffer_state.specs.declared.chunk.Stage.TheVariants.{Staged};
ghost use Rattle.buffer_store.specs.Durability.{BeganWell};
ghost use Rattle.buffer_store.specs.Room.{FitsBesideUnqueued, IsNearlyFull};
ghost use Rattle.buffer_store.specs.declared.fault.BufferFault.{BufferFault};
ghost use Rattle.ack_receipt.specs.Told.{counts_of};
ghost use Rattle.ack_receipt.specs.Books.{IsSound, Steady, Syncs, WantsRenewal};

mod appending;
mod leaving;

use crate::past::Past;
pub use appending::{Noted, Waits};
use book_audit::{AuditError, BookFault, Leaf, Line, OpenLines, Stub, audit};
use buffer_state::LiveChunks;
use buffer_store::{Buffer, BufferFault};
use disk_files::Dir;
use event_modes::Entries;
use std::alloc::{AllocError, Allocator};
use std::collections::BTreeMap;
use std::marker::Model;

/// A buffer with its book: a note of each append, a line for each receipt, and a note of each chunk
/// that was purged or dropped. Contracts see a `Book`. In memory are the open lines alone, and the
/// appends that wait for a receipt: the past is there for contracts.
#[derive(Drop)]
pub struct Booked<D: Dir, A: Allocator> {
    alloc: A,
    buffer: Buffer<D, A>,
    // how many appends there were
    count: u64,
    // how many of them are known to be synced
    synced: u64,
    lines: OpenLines<A>,
    // the appends that wait for a receipt, by their places among all
    waiting: BTreeMap<u64, Line, A>,
    past: Past<D, A>,
}

impl<D: Dir, A: Allocator> Model for Booked<D, A> {
    ghost use Rattle.std.specs.Prelude.{◌≡◌, length};
    ghost use Rattle.ack_receipt.specs.Books.{Book, IsSound, book_of};

    ghost Value = { Book D };

    ghost view = { λ b. book_of b.buffer b.past.first b.past.appends b.past.lines b.lines
        b.waiting.entries b.past.synced b.past.removed };

    ghost invariant = { λ b. (b.count ≡ length b.past.appends) × (b.synced ≡ b.past.synced)
        × IsSound (book_of b.buffer b.past.first b.past.appends b.past.lines b.lines
        b.waiting.entries b.past.synced b.past.removed) };
}

impl<D: Dir, A: Allocator + Copy> Booked<D, A> {
    /// Begins the book of a buffer.
    pub fn new(alloc: A, buffer: Buffer<D, A>) -> Booked<D, A>
        ensures buffer { result.buffer ≡ buffer }
        ensures first { result.first ≡ counts_of buffer.chunks }
        ensures none { (result.appends ≡ []) × (result.lines ≡ []) × (result.removed ≡ []) }
    {
        // Each live serial was given.
        buffer.stays_in_order();
        let past = Past::new(&buffer);
        Booked {
            alloc,
            buffer,
            count: 0,
            synced: 0,
            lines: OpenLines::new(alloc),
            waiting: BTreeMap::new(alloc),
            past,
        }
    }

    /// The live chunks, and the next serial.
    pub fn chunks(&self) -> LiveChunks<'_, A>
        ensures chunks { result ≡ self.now.buffer.chunks }
        // What the lock keeps: the book accounts for the chunks, and each line is of an append that
        // is synced.
        ensures sound { IsSound self.now }
    {
        self.buffer.chunks()
    }

    /// Whether entries would fit, were as many queued chunks let go as that takes. Nothing changes.
    pub fn fits_beside_unqueued<B: Allocator>(&self, entries: &Entries<B>) -> bool
        ensures { IsTrue result
            ↔ FitsBesideUnqueued self.now.buffer.limits self.now.buffer.chunks entries.now }
    {
        self.buffer.fits_beside_unqueued(entries)
    }

    /// Whether its chunks take more than four fifths of what it takes.
    pub fn is_nearly_full(&self) -> bool
        ensures { IsTrue result ↔ IsNearlyFull self.now.buffer.limits self.now.buffer.chunks }
    {
        self.buffer.is_nearly_full()
    }

    /// Whether the device failed the buffer.
    pub fn has_failed(&self) -> bool
        ensures { result ≡ self.now.buffer.failed }
    {
        self.buffer.has_failed()
    }

    /// Ends the book, and gives the folder as it stands.
    pub fn into_dir(self) -> D
        ensures { result ≡ self.buffer.dir }
    {
        let Booked {
            alloc: _,
            buffer,
            count: _,
            synced: _,
            lines: _,
            waiting: _,
            past: _,
        } = self;
        buffer.into_dir()
    }

    /// Queues the staged chunk of this serial, and syncs the journal.
    ///
    /// The first of `Failed`, `Gone`, `LastSerial`, `Memory` and `Fault` that applies. None changes
    /// the chunks.
    pub fn enqueue(&mut self, serial: u64) -> Result<(), BufferFault>
        ensures ok { OnOk result
            (self.new.buffer.chunks ≡ queued_last serial self.old.buffer.chunks) }
        ensures err { OnErr result (self.new.buffer.chunks ≡ self.old.buffer.chunks) }
        ensures book { self.new
            ≡ record self.old { buffer = self.new.buffer; synced = self.new.synced } }
        ensures syncs { Syncs self.old self.new }
        ensures count { OnErr result (self.new.synced ≡ self.old.synced) }
        ensures gone { (result ≡ Err BufferFault.Gone)
            ↔ ((self.old.buffer.failed ≡ false) × (IsAt Staged self.old.buffer.chunks serial → ⊥)) }
        ensures only { self.old.buffer.failed ≡ false → IsAt Staged self.old.buffer.chunks serial
            → OnErr result ((result ≡ Err BufferFault.Memory) ⊎ (result ≡ Err BufferFault.Fault)) }
        ensures steady { Steady self.old.buffer self.new.buffer result }
    {
        self.buffer.enqueue(serial)?;
        // The journal was synced, and all appends with it.
        self.note_synced();
        Ok(())
    }

    /// Goes on in a new generation of the journal, where the journal is long enough; else it does
    /// nothing. Chunks and book stay as they are.
    ///
    /// The first of `Failed`, `LastSerial`, `Memory`, `Fault` and `Damaged` that applies;
    /// `LastSerial` past the last generation, `Damaged` where the journal hasn't the bytes that
    /// were told. A failed buffer answers `Failed` also where nothing is to be done.
    pub fn renew(&mut self) -> Result<(), BufferFault>
        ensures chunks { self.new.buffer.chunks ≡ self.old.buffer.chunks }
        ensures book { self.new
            ≡ record self.old { buffer = self.new.buffer; synced = self.new.synced } }
        ensures syncs { Syncs self.old self.new }
        ensures count { OnErr result (self.new.synced ≡ self.old.synced) }
        ensures idle { self.old.buffer.failed ≡ false → (WantsRenewal self.old.buffer → ⊥)
            → (result ≡ Ok tt) × (self.new ≡ self.old) }
        ensures number { WantsRenewal self.old.buffer
            → OnOk result (self.new.buffer.journal.number ≡ self.old.buffer.journal.number + 1) }
        ensures only { OnErr result
            ((result ≡ Err BufferFault.Failed)
            ⊎ ((result ≡ Err BufferFault.LastSerial) ⊎ ((result ≡ Err BufferFault.Memory)
            ⊎ ((result ≡ Err BufferFault.Fault) ⊎ (result ≡ Err BufferFault.Damaged))))) }
        ensures undamaged { BeganWell D.is_honest D.history self.old.buffer
            → result ≢ Err BufferFault.Damaged }
        ensures steady { Steady self.old.buffer self.new.buffer result }
    {
        if self.buffer.has_failed() {
            return Err(BufferFault::Failed);
        }
        if !self.buffer.wants_renewal() {
            return Ok(());
        }
        self.buffer.renew()?;
        // The new generation is synced, and it tells all that is live.
        self.note_synced();
        Ok(())
    }

    /// Closes the lines that the stub's parts name: those of the buffer of this name. It takes no
    /// memory, and the buffer stays as it is.
    ///
    /// The errors, in this order, change nothing: `Stranger` exactly where a part of the buffer
    /// isn't in the book; `Double` where a line is named that was settled before, or one is named
    /// twice.
    pub fn settle<B: Allocator>(&mut self, leaf: Leaf, stub: &Stub<B>) -> Result<(), BookFault>
        ensures ok { OnOk result (Settles leaf self.old.pages stub.now) }
        ensures closed { OnOk result
            (Closes (lines_of leaf stub.now.parts) self.old.pages self.new.pages) }
        ensures stranger { (result ≡ Err BookFault.Stranger)
            ↔ (¬ AreInBook leaf self.old.pages stub.now) }
        ensures double { result ≡ Err BookFault.Double
            → AreInBook leaf self.old.pages stub.now
            × IsAgain self.old.pages (lines_of leaf stub.now.parts) }
        ensures only { result ≢ Err BookFault.Missing }
        ensures same { OnErr result (self.new ≡ self.old) }
        ensures rest { self.new ≡ record self.old { pages = self.new.pages } }
    {
        self.lines.settle(leaf, stub)
    }

    /// Whether the stubs account for the lines that are open: those of the buffer of this name. See
    /// `book_audit::audit`.
    pub fn audit<B: Allocator>(
        &self,
        alloc: A,
        leaf: Leaf,
        stubs: &[Stub<B>],
    ) -> Result<(), AuditError>
        ensures ok { OnOk result (Accounts leaf self.now.pages stubs.now) }
        ensures stranger { IsErrOf result (AuditError.Fault BookFault.Stranger)
            ↔ HasStranger leaf self.now.pages stubs.now }
        ensures double { IsErrOf result (AuditError.Fault BookFault.Double)
            → All (AreInBook leaf self.now.pages) stubs.now
            × IsAgain self.now.pages (lines_named leaf stubs.now) }
        ensures missing { IsErrOf result (AuditError.Fault BookFault.Missing)
            → All (AreInBook leaf self.now.pages) stubs.now
            × AreOpenOnce self.now.pages (lines_named leaf stubs.now)
            × IsLeftOut self.now.pages (lines_named leaf stubs.now) }
        ensures memory { IsErrOf result AuditError.Memory
            → All (AreInBook leaf self.now.pages) stubs.now }
    {
        audit(alloc, leaf, &self.lines, stubs)
    }

    // All appends are synced: the buffer has none that isn't.
    fn note_synced(&mut self)
        requires { self.old.buffer.staged ≡ false }
        ensures { self.new ≡ record self.old { synced = length self.old.appends } }
    {
        self.past = self.past.then_synced(&self.buffer);
        self.synced = self.count;
    }
}
