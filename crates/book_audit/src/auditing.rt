//! Whether stubs account for the open lines of a buffer's book.

ghost use Rattle.std.specs.Prelude.{◌≡◌, ◌<◌, ◌↔◌, [], ◌∷◌, ◌++◌, ℕ, List, true, false, All, Any, IfOk, IsTrue, OnOk, IsErrOf, MatchBool};
ghost use Rattle.std.specs.Ordering.{nat_cmp};
ghost use Rattle.std.specs.BTreeSet.{contains};
ghost use Rattle.book_audit.specs.Naming.{AreNamed};
ghost use Rattle.book_audit.specs.Audits.{Pages, Accounts, AreInBook, AreOpenOnce, HasStranger, IsAgain, IsInBook, IsLeftOut, lines_named, lines_of, parts_of};

use crate::fault::{AuditError, BookFault};
use crate::line::{Leaf, Part, Stub};
use crate::pages::OpenLines;
use std::alloc::{AllocError, Allocator};
use std::collections::BTreeSet;

/// Whether the stubs account for the open lines of the book of this buffer: each of their parts of
/// the buffer names an open line that is the append of the stub's delivery to the part's chunk, and
/// each open line is named once. Parts of other buffers are passed over. It takes memory for the
/// numbers of the lines that are named.
///
/// The errors, in this order: `Stranger` exactly where a part of the buffer isn't in the book: no
/// line of its number was written, or the open one is of another delivery or chunk; `Memory`, where
/// there is no room; `Double` where a line is named that was settled before, or one is named twice;
/// `Missing` where an open line isn't named.
pub fn audit<A: Allocator + Copy, B: Allocator>(
    alloc: A,
    leaf: Leaf,
    pages: &OpenLines<A>,
    stubs: &[Stub<B>],
) -> Result<(), AuditError>
    ensures ok { OnOk result (Accounts leaf pages.now stubs.now) }
    ensures stranger { IsErrOf result (AuditError.Fault BookFault.Stranger)
        ↔ HasStranger leaf pages.now stubs.now }
    ensures double { IsErrOf result (AuditError.Fault BookFault.Double)
        → All (AreInBook leaf pages.now) stubs.now
        × IsAgain pages.now (lines_named leaf stubs.now) }
    ensures missing { IsErrOf result (AuditError.Fault BookFault.Missing)
        → All (AreInBook leaf pages.now) stubs.now
        × AreOpenOnce pages.now (lines_named leaf stubs.now)
        × IsLeftOut pages.now (lines_named leaf stubs.now) }
    ensures memory { IsErrOf result AuditError.Memory → All (AreInBook leaf pages.now) stubs.now }
{
    if !knows_all(pages, leaf, stubs) {
        return Err(AuditError::Fault(BookFault::Stranger));
    }
    let mut named = Named::new(alloc);
    if !named.add_all(pages, leaf, stubs)? {
        return Err(AuditError::Fault(BookFault::Double));
    }
    if !pages.are_all_among(&named) {
        return Err(AuditError::Fault(BookFault::Missing));
    }
    Ok(())
}

// Whether the parts of the buffer are all in its pages.
pub(crate) fn knows_all<A: Allocator + Copy, B: Allocator>(
    pages: &OpenLines<A>,
    leaf: Leaf,
    stubs: &[Stub<B>],
) -> bool
    ensures { MatchBool result (All (AreInBook leaf pages.now) stubs.now)
        (HasStranger leaf pages.now stubs.now) }
{
    stubs.iter().all(|stub| knows(pages, leaf, stub))
}

// The same of one stub.
pub(crate) fn knows<A: Allocator + Copy, B: Allocator>(
    pages: &OpenLines<A>,
    leaf: Leaf,
    stub: &Stub<B>,
) -> bool
    ensures { MatchBool result (AreInBook leaf pages.now stub.now)
        (Any (λ part. ¬ IsInBook pages.now stub.now.delivery part) (parts_of leaf stub.now)) }
{
    stub.parts.iter().all(|part| !part.is_of(leaf) || is_in_book(pages, stub.delivery, part))
}

fn is_in_book<A: Allocator + Copy>(pages: &OpenLines<A>, delivery: u64, part: &Part) -> bool
    ensures { IsTrue result ↔ IsInBook pages.now delivery part.now }
{
    if pages.count() <= part.line {
        return false;
    }
    match pages.get(part.line) {
        Some(line) => line.delivery == delivery && line.serial == part.serial,
        None => true,
    }
}

/// The lines that were named so far.
#[derive(Drop)]
pub(crate) struct Named<A: Allocator> {
    lines: BTreeSet<u64, A>,
}

impl<A: Allocator + Copy> Named<A> {
    // None.
    fn new(alloc: A) -> Self
        ensures { (pages : Pages) → AreNamed pages [] result.lines }
    {
        Named {
            lines: BTreeSet::new(alloc),
        }
    }

    // Whether the line was named.
    pub(crate) fn has(&self, line: u64) -> bool
        ensures { result ≡ contains nat_cmp self.now.lines line }
    {
        self.lines.contains(&line)
    }

    // Adds the lines that stubs name, up to the first that isn't open or was named; whether there
    // is no such line.
    fn add_all<B: Allocator>(
        &mut self,
        pages: &OpenLines<A>,
        leaf: Leaf,
        stubs: &[Stub<B>],
    ) -> Result<bool, AllocError>
        requires { AreNamed pages.now [] self.old.lines }
        ensures { IfOk result
            (λ added. MatchBool added
            (AreNamed pages.now (lines_named leaf stubs.now) self.new.lines)
            (IsAgain pages.now (lines_named leaf stubs.now))) }
    {
        for stub in stubs {
            if !self.add_parts(pages, leaf, &stub.parts)? {
                return Ok(false);
            }
        }
        Ok(true)
    }

    fn add_parts(
        &mut self,
        pages: &OpenLines<A>,
        leaf: Leaf,
        parts: &[Part],
    ) -> Result<bool, AllocError>
        ensures { (named : List ℕ) → AreNamed pages.now named self.old.lines
            → IfOk result (λ added. MatchBool added
            (AreNamed pages.now (named ++ lines_of leaf parts.now) self.new.lines)
            (IsAgain pages.now (named ++ lines_of leaf parts.now))) }
    {
        for part in parts {
            if part.is_of(leaf) && !self.add(pages, part.line)? {
                return Ok(false);
            }
        }
        Ok(true)
    }

    // Adds the line; whether it is open, and wasn't named.
    fn add(&mut self, pages: &OpenLines<A>, line: u64) -> Result<bool, AllocError>
        ensures { (named : List ℕ) → AreNamed pages.now named self.old.lines
            → IfOk result (λ added. MatchBool added
            (AreNamed pages.now (named ++ line ∷ []) self.new.lines)
            (IsAgain pages.now (named ++ line ∷ []))) }
    {
        if pages.get(line).is_none() {
            return Ok(false);
        }
        let added = self.lines.insert(line)?;
        Ok(added)
    }
}
