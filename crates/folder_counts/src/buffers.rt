//! Buffers, by the generations of their journals.

ghost use Rattle.std.specs.Prelude.{◌≡◌};
ghost use Rattle.folder_counts.specs.Groups.{is_unsealed, outranks};
ghost use Rattle.folder_counts.specs.Limits.{chunks_in, is_sound, oldest_in};

use crate::counts::{ChunkCounts, NO_CHUNKS};
use crate::instant::Instant;
use crate::parts::Part;
use std::alloc::AllocError;
use std::marker::Model;

/// What is found in a journal.
#[derive(Clone, Copy)]
pub enum Found {
    /// It is sealed: its live chunks, how many bytes are torn at its end, the next serial, and when
    /// the oldest event in the chunks happened; none where there are no events.
    Chunks {
        chunks: ChunkCounts,
        torn: u64,
        next: u64,
        oldest: Option<Instant>,
    },
    /// Its whole records end before a Seal.
    Unsealed,
    /// Something stands in it that no buffer writes.
    Damaged,
    /// It isn't read to its end.
    Unread,
}

/// A buffer, by the generation of its journal that counts: the greatest that isn't unsealed, where
/// there is one.
#[derive(Drop)]
pub struct Buffer<'a> {
    path: &'a str,
    file: &'a str,
    number: u32,
    found: Found,
}

impl<'a> Model for Buffer<'a> {
    ghost use Rattle.folder_counts.specs.Views.{BufferView};

    ghost Value = { BufferView };

    ghost view = { λ b. record {
      path = b.path.now;
      file = b.file.now;
      number = b.number;
      found = b.found;
    } };
}

impl<'a> Buffer<'a> {
    /// The buffer of this path, and what is found in the file of this name and number.
    pub(crate) fn new(path: &'a str, file: &'a str, number: u32, found: Found) -> Buffer<'a>
        ensures { result ≡ record {
          path = path.now;
          file = file.now;
          number = number;
          found = found;
        } }
    {
        Buffer {
            path,
            file,
            number,
            found,
        }
    }

    /// What the names of its journal begin with.
    pub fn path(&self) -> &'a str
        ensures { result.now ≡ self.now.path }
    {
        self.path
    }

    /// The name of the file.
    pub fn file(&self) -> &'a str
        ensures { result.now ≡ self.now.file }
    {
        self.file
    }

    /// What is found in it.
    pub fn found(&self) -> Found
        ensures { result ≡ self.now.found }
    {
        self.found
    }

    /// Its live chunks; none where no journal of it is whole.
    pub fn chunks(&self) -> ChunkCounts
        ensures { result ≡ chunks_in self.now.found }
    {
        match self.found {
            Found::Chunks { chunks, .. } => chunks,
            Found::Unsealed | Found::Damaged | Found::Unread => NO_CHUNKS,
        }
    }

    /// When the oldest event in these happened; none where there are no events.
    pub fn oldest(&self) -> Option<Instant>
        ensures { result ≡ oldest_in self.now.found }
    {
        match self.found {
            Found::Chunks { oldest, .. } => oldest,
            Found::Unsealed | Found::Damaged | Found::Unread => None,
        }
    }

    /// Whether its journal is read, and not damaged.
    pub fn is_sound(&self) -> bool
        ensures { result ≡ is_sound self.now.found }
    {
        matches!(self.found, Found::Chunks { .. } | Found::Unsealed)
    }

    // The same once more.
    fn same(&self) -> Buffer<'a>
        ensures { result ≡ self.now }
    {
        Buffer::new(self.path, self.file, self.number, self.found)
    }

    // Whether this generation counts in place of that one.
    fn outranks(&self, held: &Buffer<'_>) -> bool
        ensures { result ≡ outranks self.now held.now }
    {
        !is_unsealed(self.found) && (is_unsealed(held.found) || held.number < self.number)
    }
}

impl<'a> Part for Buffer<'a> {
    ghost use Rattle.folder_counts.specs.Groups.{newer};

    ghost path_of = { λ b. b.path };

    ghost both = { newer };

    fn path(&self) -> &str {
        self.path
    }

    fn joined(&self, next: &Buffer<'a>) -> Result<Buffer<'a>, AllocError> {
        if next.outranks(self) {
            Ok(next.same())
        } else {
            Ok(self.same())
        }
    }
}

// Whether a journal's records end before a Seal.
fn is_unsealed(found: Found) -> bool
    ensures { result ≡ is_unsealed found }
{
    matches!(found, Found::Unsealed)
}
