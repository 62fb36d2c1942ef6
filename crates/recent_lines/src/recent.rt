//! The lines that were kept last.

ghost use Rattle.std.specs.Prelude.{◌≡◌, [], IfOk, OnErr};
ghost use Rattle.recent_lines.specs.Laws.{NoneGoesMissing};
ghost use Rattle.recent_lines.specs.Lines.{EndsALine};
ghost use Rattle.recent_lines.specs.Recent.{none_recent, IsTold, Keeps};

use crate::line::first_line;
use lru::{DefaultHasher, LruCache};
use sha2::{Digest, Sha256};
use std::alloc::{AllocError, Allocator};
use std::marker::Model;
use std::num::NonZeroUsize;

/// How many lines are remembered.
pub const MOST_RECENT: usize = 1_000_000;

/// The lines that were kept last, told by their SHA-256 digests.
#[derive(Drop)]
pub struct RecentLines<A: Allocator + Copy> {
    alloc: A,
    digests: LruCache<[u8; 32], (), DefaultHasher, A>,
}

impl<A: Allocator + Copy> Model for RecentLines<A> {
    ghost use Rattle.std.specs.Prelude.{map};
    ghost use Rattle.recent_lines.specs.Recent.{Recent};

    ghost Value = { Recent };

    ghost view = { λ r. record {
      most = r.digests.cap;
      digests = map (λ e. e.0) r.digests.entries;
    } };
}

impl<A: Allocator + Copy> RecentLines<A> {
    /// None yet. The error is want of memory.
    pub fn new(alloc: A) -> Result<RecentLines<A>, AllocError>
        ensures { IfOk result (λ recent. recent ≡ none_recent) }
    {
        let Some(most) = NonZeroUsize::new(MOST_RECENT) else {
            unreachable!()
        };
        let digests = LruCache::sparse(alloc, most)?;
        Ok(RecentLines { alloc, digests })
    }

    /// The lines of a text that repeat none of the lines kept last, one behind another in their
    /// order; each of them is remembered as kept. The error is want of memory; which lines are
    /// remembered then isn't said.
    pub fn keep(&mut self, text: &[u8]) -> Result<Vec<u8, A>, AllocError>
        requires { EndsALine text.now }
        ensures { IfOk result (λ kept. Keeps self.old text.now kept.items self.new) }
    {
        let mut kept = Vec::new(self.alloc);
        let mut rest = text;
        'lines: loop {
            let Some((line, behind)) = first_line(rest) else {
                return Ok(kept);
            };
            if self.is_new(line)? {
                kept.extend_from_slice(line)?;
            }
            rest = behind;
        }
    }

    // Whether a line repeats none of those kept last; it is remembered then. The error is want of
    // memory.
    fn is_new(&mut self, line: &[u8]) -> Result<bool, AllocError>
        ensures told { IfOk result (λ is. IsTold self.old line.now is self.new) }
        ensures same { OnErr result (self.new ≡ self.old) }
    {
        let digest = Sha256::digest(line);
        if self.digests.contains(&digest) {
            return Ok(false);
        }
        self.digests.put(digest, ())?;
        Ok(true)
    }
}

/// Of each line one of the same digest is kept, however many lines are kept: repeats alone are left
/// out.
pub fn none_goes_missing()
    ensures { NoneGoesMissing }
{}
