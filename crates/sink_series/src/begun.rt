//! What was begun in a file, for the proofs alone.

ghost use Rattle.std.specs.Prelude.{◌≡◌, [], ◌∷◌};
ghost use Rattle.sink_series.specs.Events.{under};

use crate::stored::Prepared;
use std::alloc::Allocator;
use std::marker::Model;
use std::snapshot::Snapshot;

/// The writes that were begun in a file, the last first. A snapshot has no bytes, so at run time
/// there is no list.
#[derive(Drop)]
#[cycle(begun)]
pub struct Begun<A: Allocator> {
    link: Link<A>,
}

#[derive(Drop)]
#[cycle(begun)]
enum Link<A: Allocator> {
    Start,
    Then(Snapshot<Prepared<A>>, Snapshot<Begun<A>>),
}

impl<A: Allocator> Model for Begun<A> {
    ghost use Rattle.std.specs.Prelude.{List, length};
    ghost use Rattle.sink_series.specs.Events.{Event};

    ghost Value = { List (List Event) };

    ghost use Rattle.sink_series.specs.Begun.{writes_in};

    ghost view = { λ b. writes_in b.link };

    ghost size = { length };

    ghost use Rattle.std.proofs.Common.{arith};

    ghost size_decreases = { λ b h. Prim.grind arith };
}

impl<A: Allocator> Begun<A> {
    /// Nothing yet.
    pub fn new() -> Begun<A>
        ensures { result ≡ [] }
    {
        Begun { link: Link::Start }
    }

    /// These, and one write more.
    pub fn then(&self, write: &Prepared<A>) -> Begun<A>
        ensures { result ≡ under write.now.stored.tag write.now.stored.entries ∷ self.now }
    {
        Begun {
            link: Link::Then(Snapshot::of(write), Snapshot::of(self)),
        }
    }
}
