//! The receipt for entries in a sink, and the write that it is made of.

ghost use Rattle.std.specs.Prelude.{◌≡◌, ◌≤◌, length, IfOk, OnOk};
ghost use Rattle.std.specs.List.{AllByRecursion};
ghost use Rattle.event_modes.specs.Message.{longest_tag};
ghost use Rattle.sink_series.specs.Events.{IsEvent, run_of, under};

use crate::writing::run_under;
use event_modes::Entries;
use std::alloc::{AllocError, Allocator};
use std::marker::Model;

/// Entries that are in a sink. It is made of the write that wrote them, once they are synced.
#[derive(Drop)]
pub struct Stored<A: Allocator> {
    path: Vec<u8, A>,
    tag: Vec<u8, A>,
    entries: Entries<A>,
}

impl<A: Allocator> Model for Stored<A> {
    ghost use Rattle.sink_series.specs.Views.{StoredView};

    ghost Value = { StoredView };

    ghost view = { λ s. record { path = s.path.items; tag = s.tag.items; entries = s.entries } };
}

impl<A: Allocator> Stored<A> {
    /// The path of the sink.
    pub fn path(&self) -> &[u8]
        ensures { result.now ≡ self.now.path }
    {
        &self.path
    }

    /// The content of the tag.
    pub fn tag(&self) -> &[u8]
        ensures { result.now ≡ self.now.tag }
    {
        &self.tag
    }

    /// The entries.
    pub fn entries(&self) -> &Entries<A>
        ensures { result.now ≡ self.now.entries }
    {
        &self.entries
    }
}

/// A write that has its room: what its receipt will say, and the items to be written.
#[derive(Drop)]
pub(crate) struct Prepared<A: Allocator> {
    path: Vec<u8, A>,
    tag: Vec<u8, A>,
    entries: Entries<A>,
    bytes: Vec<u8, A>,
}

impl<A: Allocator> Model for Prepared<A> {
    ghost use Rattle.sink_series.specs.Views.{WriteView};

    ghost Value = { WriteView };

    ghost view = { λ w. record {
      stored = record {
        path = w.path.items;
        tag = w.tag.items;
        entries = w.entries;
      };
      bytes = w.bytes.items;
    } };
}

impl<A: Allocator> Prepared<A> {
    /// Of entries under a tag, for the sink of this path.
    pub(crate) fn new<B: Allocator>(
        alloc: A,
        path: &[u8],
        tag: &[u8],
        entries: &Entries<B>,
    ) -> Result<Prepared<A>, AllocError>
    where
        A: Copy,
        requires { length tag.now ≤ longest_tag }
        ensures stored { IfOk result
            (λ write. write.stored
            ≡ record { path = path.now; tag = tag.now; entries = entries.now }) }
        ensures bytes { IfOk result (λ write. write.bytes ≡ run_of (under tag.now entries.now)) }
        ensures events { OnOk result (AllByRecursion IsEvent (under tag.now entries.now)) }
    {
        let mut copy = Entries::new(alloc);
        copy.append(entries)?;
        Ok(Prepared {
            path: Vec::from_slice(alloc, path)?,
            tag: Vec::from_slice(alloc, tag)?,
            entries: copy,
            bytes: run_under(alloc, tag, entries)?,
        })
    }

    /// The items.
    pub(crate) fn bytes(&self) -> &[u8]
        ensures { result.now ≡ self.now.bytes }
    {
        &self.bytes
    }

    /// The receipt, once the items are synced.
    pub(crate) fn into_stored(self) -> Stored<A>
        ensures { result ≡ self.stored }
    {
        let Prepared {
            path,
            tag,
            entries,
            bytes: _,
        } = self;
        Stored { path, tag, entries }
    }
}
