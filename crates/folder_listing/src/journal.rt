//! A journal, outlined: of its bytes are held a piece, a record that isn't whole, and what the live
//! chunks are with the places of their entries.

ghost use Rattle.std.specs.Prelude.{ℕ, List, IfOk};
ghost use Rattle.chunk_journal.specs.Feeding.{IsAfter};
ghost use Rattle.folder_listing.specs.Findings.{IsInJournal};

use crate::feeding::{Feed, FeedStop};
use chunk_journal::{Outline, Outlined, ReplayError};
use std::alloc::{AllocError, Allocator};

/// What is found in a journal.
#[derive(Drop)]
pub enum FoundJournal<A: Allocator> {
    /// It is sealed: what it means, and how many bytes are torn at its end.
    Sealed { outlined: Outlined<A>, torn: u64 },
    /// Its whole records end before a Seal.
    Unsealed,
    /// Something stands in it that no buffer writes.
    Damaged,
    /// It isn't read to its end.
    Unread,
}

impl<A: Allocator + Copy> Feed for Outline<A> {
    ghost use Rattle.chunk_journal.specs.Feeding.{IsAfter};
    ghost use Rattle.chunk_journal.specs.Meaning.{IsDamaged};
    ghost use Rattle.folder_listing.specs.Findings.{IsInJournal};

    type Finding = FoundJournal<A>;

    ghost is_after = { IsAfter };

    ghost is_damaged = { IsDamaged };

    ghost is_in = { IsInJournal };

    fn feed(&mut self, piece: &[u8]) -> Result<(), FeedStop> {
        if self.fed().checked_add(piece.len() as u64).is_none() {
            return Err(FeedStop::Unread);
        }
        match self.feed(piece) {
            Ok(()) => Ok(()),
            Err(ReplayError::BadRecord) => Err(FeedStop::Damaged),
            Err(ReplayError::Memory | ReplayError::NotSealed) => Err(FeedStop::Memory),
        }
    }

    fn finish(self) -> Result<FoundJournal<A>, AllocError> {
        outlined_in(self)
    }

    fn damaged() -> FoundJournal<A> {
        FoundJournal::Damaged
    }

    fn unread() -> FoundJournal<A> {
        FoundJournal::Unread
    }
}

// What is found in a journal that was fed. The error is want of memory.
fn outlined_in<A: Allocator + Copy>(outline: Outline<A>) -> Result<FoundJournal<A>, AllocError>
    ensures { (bytes : List ℕ) → IsAfter outline bytes
        → IfOk result (λ found. IsInJournal bytes found) }
{
    let fed = outline.fed();
    match outline.finish() {
        Ok(outlined) => {
            let torn = fed.saturating_sub(outlined.used);
            Ok(FoundJournal::Sealed { outlined, torn })
        }
        Err((ReplayError::NotSealed, _)) => Ok(FoundJournal::Unsealed),
        Err((ReplayError::BadRecord, _)) => Ok(FoundJournal::Damaged),
        Err((ReplayError::Memory, _)) => Err(AllocError),
    }
}
