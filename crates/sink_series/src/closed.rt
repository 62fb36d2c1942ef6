//! The files of a sink that are closed, for the proofs alone.

ghost use Rattle.std.specs.Prelude.{◌≡◌, [], ◌∷◌};
ghost use Rattle.sink_series.specs.RotationViews.{file_of};

use crate::Series;
use disk_files::Dir;
use std::alloc::Allocator;
use std::marker::Model;
use std::snapshot::Snapshot;

/// The files that were closed, each with what was answered in it, the last first. A snapshot has no
/// bytes, so at run time there is no list.
#[derive(Drop)]
#[cycle(closed)]
pub struct Closed<D: Dir, A: Allocator> {
    link: Link<D, A>,
}

#[derive(Drop)]
#[cycle(closed)]
enum Link<D: Dir, A: Allocator> {
    Start,
    Then(Snapshot<Series<D, A>>, Snapshot<Closed<D, A>>),
}

impl<D: Dir, A: Allocator> Model for Closed<D, A> {
    ghost use Rattle.std.specs.Prelude.{List, length};
    ghost use Rattle.sink_series.specs.RotationViews.{FileView};

    ghost Value = { List FileView };

    ghost use Rattle.sink_series.specs.Closed.{files_in};

    ghost view = { λ c. files_in c.link };

    ghost size = { length };

    ghost use Rattle.std.proofs.Common.{arith};

    ghost size_decreases = { λ a h. Prim.grind arith };
}

impl<D: Dir, A: Allocator> Closed<D, A> {
    /// None yet.
    pub fn new() -> Closed<D, A>
        ensures { result ≡ [] }
    {
        Closed { link: Link::Start }
    }

    /// These, and the newest file of this sink.
    pub fn then(&self, series: &Series<D, A>) -> Closed<D, A>
        ensures { result ≡ file_of series.now ∷ self.now }
    {
        Closed {
            link: Link::Then(Snapshot::of(series), Snapshot::of(self)),
        }
    }
}
