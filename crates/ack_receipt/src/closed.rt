//! A buffer with its book that takes no steps any more.

ghost use Rattle.std.specs.Prelude.{◌≡◌, ◌↔◌, All, OnOk, IsErrOf};
ghost use Rattle.book_audit.specs.Audits.{Accounts, AreInBook, AreOpenOnce, HasStranger, IsAgain, IsLeftOut, lines_named};
ghost use Rattle.book_audit.specs.declared.fault.BookFault.{BookFault};
ghost use Rattle.book_audit.specs.declared.fault.AuditError.{AuditError};

use crate::booked::Booked;
use book_audit::{AuditError, BookFault, Leaf, Stub};
use buffer_state::LiveChunks;
use disk_files::Dir;
use std::alloc::Allocator;
use std::marker::Model;

/// A buffer with its book that takes no steps any more. Contracts see its name, and the `Book` as
/// the last step left it.
pub struct Closed<D: Dir, A: Allocator> {
    leaf: Leaf,
    booked: Booked<D, A>,
}

// By hand, so that crates above don't prove again how its parts end.
impl<D: Dir + Drop, A: Allocator> Drop for Closed<D, A> {
    fn drop(self) {
        let Closed { leaf: _, booked: _ } = self;
    }
}

impl<D: Dir, A: Allocator> Model for Closed<D, A> {
    ghost use Rattle.ack_receipt.specs.Books.{Ended};

    ghost Value = { Ended D };

    ghost view = { λ c. record { leaf = c.leaf; book = c.booked } };
}

impl<D: Dir, A: Allocator + Copy> Closed<D, A> {
    /// The buffer of this name, with its book.
    pub fn new(leaf: Leaf, booked: Booked<D, A>) -> Closed<D, A>
        ensures { result ≡ record { leaf = leaf; book = booked } }
    {
        Closed { leaf, booked }
    }

    /// The live chunks, and the next serial.
    pub fn chunks(&self) -> LiveChunks<'_, A>
        ensures { result ≡ self.now.book.buffer.chunks }
    {
        self.booked.chunks()
    }

    /// Whether the stubs account for the lines that are still open: each part of this buffer names
    /// an open line that is the append of the stub's delivery to the part's chunk, and each open
    /// line is named once. Parts of other buffers are passed over.
    ///
    /// The errors, in this order: `Stranger` exactly where a part of this buffer isn't in the book;
    /// `Memory`; `Double` where a line is named that was settled before, or one is named twice;
    /// `Missing` where an open line isn't named.
    pub fn audit<B: Allocator>(&self, alloc: A, stubs: &[Stub<B>]) -> Result<(), AuditError>
        ensures ok { OnOk result (Accounts self.now.leaf self.now.book.pages stubs.now) }
        ensures stranger { IsErrOf result (AuditError.Fault BookFault.Stranger)
            ↔ HasStranger self.now.leaf self.now.book.pages stubs.now }
        ensures double { IsErrOf result (AuditError.Fault BookFault.Double)
            → All (AreInBook self.now.leaf self.now.book.pages) stubs.now
            × IsAgain self.now.book.pages (lines_named self.now.leaf stubs.now) }
        ensures missing { IsErrOf result (AuditError.Fault BookFault.Missing)
            → All (AreInBook self.now.leaf self.now.book.pages) stubs.now
            × AreOpenOnce self.now.book.pages (lines_named self.now.leaf stubs.now)
            × IsLeftOut self.now.book.pages (lines_named self.now.leaf stubs.now) }
        ensures memory { IsErrOf result AuditError.Memory
            → All (AreInBook self.now.leaf self.now.book.pages) stubs.now }
    {
        self.booked.audit(alloc, self.leaf, stubs)
    }

    /// The folder, as it stands.
    pub fn into_dir(self) -> D
        ensures { result ≡ self.book.buffer.dir }
    {
        let Closed { leaf: _, booked } = self;
        booked.into_dir()
    }
}
