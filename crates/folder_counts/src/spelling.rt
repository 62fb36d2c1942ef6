//! How events are spelled in bytes, one after another.

ghost use Rattle.std.specs.Prelude.{◌≡◌, ◌++◌, IfOk, MatchOption};
ghost use Rattle.event_listing.specs.Forms.{BeginsNoEntry};
ghost use Rattle.event_modes.specs.Rows.{IsStored};

use event_listing::time_of;
use event_modes::Entries;
use msgpack_bytes::next_item;
use sink_series::next_event;
use std::alloc::{AllocError, Allocator};

/// The time of the event that bytes begin with, and what is behind it.
#[derive(Clone, Copy)]
pub(crate) struct First<'a> {
    /// In nanoseconds since the beginning of 1970.
    pub(crate) nanos: i128,
    pub(crate) behind: &'a [u8],
}

/// How events are spelled, one after another.
pub(crate) trait Spelling: Copy {
    ghost use Rattle.std.specs.Prelude.{IfOk, MatchOption};
    ghost use Rattle.event_listing.specs.Forms.{Form, BeginsNo};
    ghost use Rattle.folder_counts.specs.Tallies.{IsFirst};

    // what it is called in contracts
    ghost form: { Form };

    /// The event that the bytes begin with; none where none is whole there. The error is want of
    /// memory.
    fn first<'a, A: Allocator + Copy>(
        self,
        alloc: A,
        bytes: &'a [u8],
    ) -> Result<Option<First<'a>>, AllocError>
        ensures { IfOk result (λ found. MatchOption found (BeginsNo form bytes.now)
            (λ first. IsFirst form bytes.now first.nanos first.behind.now)) };
}

/// Each as an item of a sink.
#[derive(Clone, Copy)]
pub(crate) struct Items;

/// Each as its stored entry alone, as in a chunk.
#[derive(Clone, Copy)]
pub(crate) struct Stored;

impl Spelling for Items {
    ghost use Rattle.event_listing.specs.Forms.{Items as ItemsForm};

    ghost form = { ItemsForm };

    fn first<'a, A: Allocator + Copy>(
        self,
        alloc: A,
        bytes: &'a [u8],
    ) -> Result<Option<First<'a>>, AllocError> {
        match next_event(alloc, bytes)? {
            Some((event, behind)) => {
                let nanos = time_of(event.entry());
                Ok(Some(First { nanos, behind }))
            }
            None => Ok(None),
        }
    }
}

impl Spelling for Stored {
    ghost use Rattle.std.specs.Prelude.{[]};
    ghost use Rattle.event_listing.specs.Forms.{Under};

    ghost form = { Under [] };

    fn first<'a, A: Allocator + Copy>(
        self,
        alloc: A,
        bytes: &'a [u8],
    ) -> Result<Option<First<'a>>, AllocError> {
        let Some((entry, behind)) = next_stored(alloc, bytes)? else {
            return Ok(None);
        };
        let nanos = time_of(entry);
        Ok(Some(First { nanos, behind }))
    }
}

// The stored entry that the bytes begin with, and what is behind it; none where none is whole
// there. The error is want of memory.
fn next_stored<'a, A: Allocator>(
    alloc: A,
    bytes: &'a [u8],
) -> Result<Option<(&'a [u8], &'a [u8])>, AllocError>
    ensures { IfOk result (λ found. MatchOption found (BeginsNoEntry bytes.now)
        (λ first. IsStored first.0.now × (bytes.now ≡ first.0.now ++ first.1.now))) }
{
    let Some((entry, behind)) = next_item(bytes) else {
        return Ok(None);
    };
    match Entries::read(alloc, entry, 1)? {
        None => Ok(None),
        Some(_stored) => Ok(Some((entry, behind))),
    }
}
