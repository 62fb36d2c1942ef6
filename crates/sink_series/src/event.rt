//! An event in a sink.

ghost use Rattle.std.specs.Prelude.{◌≡◌};

use std::alloc::Allocator;
use std::marker::Model;

/// An event in a sink: its tag, and its entry as it is stored.
#[derive(Drop)]
pub struct SinkEvent<A: Allocator> {
    pub(crate) tag: Vec<u8, A>,
    pub(crate) entry: Vec<u8, A>,
}

impl<A: Allocator> Model for SinkEvent<A> {
    ghost use Rattle.sink_series.specs.Events.{Event};

    ghost Value = { Event };

    ghost view = { λ e. record { tag = e.tag.items; entry = e.entry.items } };
}

impl<A: Allocator> SinkEvent<A> {
    /// The content of the tag.
    pub fn tag(&self) -> &[u8]
        ensures { result.now ≡ self.now.tag }
    {
        &self.tag
    }

    /// The entry: `92`, the time's bytes and the record's.
    pub fn entry(&self) -> &[u8]
        ensures { result.now ≡ self.now.entry }
    {
        &self.entry
    }
}
