//! The lines of a book that are open.

ghost use Rattle.std.specs.Prelude.{◌≡◌, ◌≢◌, ◌<◌, ◌≤◌, ◌+◌, ◌-◌, ◌^◌, ◌↔◌, [], ◌∷◌, ℕ, List, Ok, Err, true, false, All, Any, MatchBool, Contains, IsTrue, OnOk, OnErr, option_copied};
ghost use Rattle.std.specs.Map.{keys_of};
ghost use Rattle.std.specs.Ordering.{nat_cmp};
ghost use Rattle.std.specs.BTreeSet.{contains};
ghost use Rattle.book_audit.specs.Naming.{AddsOne};
ghost use Rattle.book_audit.specs.declared.fault.BookFault.{BookFault};
ghost use Rattle.book_audit.specs.Audits.{AreInBook, AreOpenOnce, Closes, IsAgain, IsInBook, SameLines, Settles, Writes, is_of, lines_of, open_at};

use crate::auditing::{Named, knows, knows_all};
use crate::fault::{AuditError, BookFault};
use crate::line::{Leaf, Line, Part, Stub};
use std::alloc::{AllocError, Allocator};
use std::collections::HashMap;
use std::hash::{BuildHasherDefault, FoldHasher};
use std::marker::Model;

/// The lines of a buffer's book that are still open, by their numbers. A line is open from its
/// append until its stub is settled; a settled line has no bytes. Contracts see `Pages`.
#[derive(Drop)]
pub struct OpenLines<A: Allocator> {
    count: u64,
    lines: HashMap<u64, Line, BuildHasherDefault<FoldHasher>, A>,
}

impl<A: Allocator> Model for OpenLines<A> {
    ghost use Rattle.std.specs.HashMap.{spare};
    ghost use Rattle.book_audit.specs.Audits.{Pages};

    ghost Value = { Pages };

    ghost view = { λ l. record { count = l.count; lines = l.lines.entries; room = spare l.lines } };
}

impl<A: Allocator + Copy> OpenLines<A> {
    /// No line.
    pub fn new(alloc: A) -> Self
        ensures count { result.count ≡ 0 }
        ensures none { result.lines ≡ [] }
    {
        OpenLines {
            count: 0,
            lines: HashMap::new(alloc),
        }
    }

    /// How many lines were written.
    pub fn count(&self) -> u64
        ensures { result ≡ self.now.count }
    {
        self.count
    }

    /// How many of them are open.
    pub fn open_count(&self) -> usize {
        self.lines.len()
    }

    /// The open line of this number.
    pub fn get(&self, number: u64) -> Option<&Line>
        ensures { option_copied result ≡ open_at self.now number }
    {
        self.lines.get(&number)
    }

    /// Makes room for so many lines. The lines stay as they are; the error is want of memory.
    pub fn reserve(&mut self, additional: usize) -> Result<(), AllocError>
        ensures same { SameLines self.old self.new }
        ensures room { OnOk result (additional ≤ self.new.room) }
        ensures kept { self.old.room ≤ self.new.room }
    {
        self.lines.reserve(additional)
    }

    /// Writes the next line, for which there is room, and gives its number.
    pub fn write_reserved(&mut self, line: Line) -> u64
        requires room { 0 < self.old.room }
        requires number { self.old.count < 2 ^ 64 - 1 }
        ensures number { result ≡ self.old.count }
        ensures written { Writes line self.old self.new }
        ensures room { self.old.room ≤ self.new.room + 1 }
    {
        let number = self.count;
        // There is room.
        let _ = self.lines.insert(number, line);
        self.count = number + 1;
        number
    }

    /// Closes the lines of this buffer's book that the stub's parts name. Parts of other buffers
    /// are passed over. It takes no memory.
    ///
    /// The errors, in this order, change nothing: `Stranger` exactly where a part of the buffer
    /// isn't in the book: no line of its number was written, or the open one is of another delivery
    /// or chunk; `Double` where a line is named that was settled before, or one is named twice.
    pub fn settle<B: Allocator>(&mut self, leaf: Leaf, stub: &Stub<B>) -> Result<(), BookFault>
        ensures ok { OnOk result (Settles leaf self.old stub.now) }
        ensures closed { OnOk result (Closes (lines_of leaf stub.now.parts) self.old self.new) }
        ensures stranger { (result ≡ Err BookFault.Stranger)
            ↔ (¬ AreInBook leaf self.old stub.now) }
        ensures double { result ≡ Err BookFault.Double
            → AreInBook leaf self.old stub.now × IsAgain self.old (lines_of leaf stub.now.parts) }
        ensures only { result ≢ Err BookFault.Missing }
        ensures same { OnErr result (self.new ≡ self.old) }
        ensures room { self.old.room ≤ self.new.room }
    {
        if !knows(self, leaf, stub) {
            return Err(BookFault::Stranger);
        }
        if !self.are_open_once(leaf, &stub.parts) {
            return Err(BookFault::Double);
        }
        self.close(leaf, &stub.parts);
        Ok(())
    }

    // Whether each line that parts of the buffer name is open, and named once.
    fn are_open_once(&self, leaf: Leaf, parts: &[Part]) -> bool
        ensures { MatchBool result (AreOpenOnce self.now (lines_of leaf parts.now))
            (IsAgain self.now (lines_of leaf parts.now)) }
    {
        let mut rest = parts;
        while let Some((part, behind)) = rest.split_first() {
            if !self.is_first(leaf, part, behind) {
                return false;
            }
            rest = behind;
        }
        true
    }

    // Whether the line that a part of the buffer names is open, and isn't named by the parts behind
    // it.
    fn is_first(&self, leaf: Leaf, part: &Part, behind: &[Part]) -> bool
        ensures { MatchBool result (AddsOne self.now leaf part.now behind.now)
            (IsAgain self.now (lines_of leaf (part.now ∷ behind.now))) }
    {
        if !part.is_of(leaf) {
            return true;
        }
        if self.get(part.line).is_none() {
            return false;
        }
        !names(leaf, behind, part.line)
    }

    // Closes the lines that parts of the buffer name.
    fn close(&mut self, leaf: Leaf, parts: &[Part])
        ensures closed { Closes (lines_of leaf parts.now) self.old self.new }
        ensures room { self.old.room ≤ self.new.room }
    {
        for part in parts {
            if part.is_of(leaf) {
                let _ = self.lines.remove(&part.line);
            }
        }
    }

    // Whether each open line is among those that are named.
    pub(crate) fn are_all_among(&self, named: &Named<A>) -> bool
        ensures { MatchBool result
            (All (λ line. contains nat_cmp named.now.lines line ≡ true) (keys_of self.now.lines))
            (Any (λ line. contains nat_cmp named.now.lines line ≡ false) (keys_of self.now.lines)) }
    {
        self.lines.keys().all(|number| named.has(*number))
    }
}

// Whether a part of the buffer names this line.
fn names(leaf: Leaf, parts: &[Part], line: u64) -> bool
    ensures { IsTrue result
        ↔ Any (λ part. (is_of leaf part ≡ true) × (part.line ≡ line)) parts.now }
{
    parts
        .iter()
        .any(|part| part.is_of(leaf) && part.line == line)
}
