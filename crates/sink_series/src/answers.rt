//! What a sink answered, for the proofs alone.

ghost use Rattle.std.specs.Prelude.{◌≡◌, [], ◌∷◌};

use crate::stored::Stored;
use disk_files::Dir;
use std::alloc::Allocator;
use std::marker::Model;
use std::snapshot::Snapshot;

/// The receipts that a sink gave, each with the folder as it was then, the last first. A snapshot
/// has no bytes, so at run time there is no list.
#[derive(Drop)]
#[cycle(answers)]
pub struct Answers<D: Dir, A: Allocator> {
    link: Link<D, A>,
}

#[derive(Drop)]
#[cycle(answers)]
enum Link<D: Dir, A: Allocator> {
    Start,
    Then(Snapshot<Stored<A>>, Snapshot<D>, Snapshot<Answers<D, A>>),
}

impl<D: Dir, A: Allocator> Model for Answers<D, A> {
    ghost use Rattle.std.specs.Prelude.{List, length};
    ghost use Rattle.sink_series.specs.Views.{Answer};

    ghost Value = { List Answer };

    ghost use Rattle.sink_series.specs.Answers.{answers_in};

    ghost view = { λ a. answers_in D.history a.link };

    ghost size = { length };

    ghost use Rattle.std.proofs.Common.{arith};

    ghost size_decreases = { λ a h. Prim.grind arith };
}

impl<D: Dir, A: Allocator> Answers<D, A> {
    /// Nothing yet.
    pub fn new() -> Answers<D, A>
        ensures { result ≡ [] }
    {
        Answers { link: Link::Start }
    }

    /// These, and one receipt more, given while the folder is as it is.
    pub fn then(&self, stored: &Stored<A>, dir: &D) -> Answers<D, A>
        ensures { result ≡ record {
          stored = stored.now;
          since = (D.history dir.now).moment;
        } ∷ self.now }
    {
        Answers {
            link: Link::Then(Snapshot::of(stored), Snapshot::of(dir), Snapshot::of(self)),
        }
    }
}
