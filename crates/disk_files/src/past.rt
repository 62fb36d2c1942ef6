//! What a folder in memory was, for the proofs alone.

ghost use Rattle.std.specs.Prelude.{◌≡◌, [], ◌∷◌};

use crate::memory_file::MemoryFile;
use std::alloc::Allocator;
use std::marker::Model;
use std::snapshot::Snapshot;

/// What the files were before each call that changed them, the last call first. A snapshot has no
/// bytes, so at run time there is no list, and a folder that runs for days costs what its files
/// cost.
#[derive(Drop)]
#[cycle(past)]
pub struct Past<A: Allocator> {
    link: Link<A>,
}

#[derive(Drop)]
#[cycle(past)]
enum Link<A: Allocator> {
    Start,
    Then(Snapshot<Vec<MemoryFile<A>, A>>, Snapshot<Past<A>>),
}

impl<A: Allocator> Model for Past<A> {
    ghost use Rattle.std.specs.Prelude.{List, length};
    ghost use Rattle.disk_files.specs.Entry.{Entry};

    ghost Value = { List (List Entry) };

    ghost use Rattle.disk_files.specs.Earlier.{tables};

    ghost view = { λ p. tables p.link };

    ghost size = { length };

    ghost use Rattle.std.proofs.Common.{arith};

    ghost size_decreases = { λ p h. Prim.grind arith };
}

impl<A: Allocator> Past<A> {
    /// No moment yet.
    pub fn new() -> Past<A>
        ensures { result ≡ [] }
    {
        Past { link: Link::Start }
    }

    /// The past with the files of one more moment.
    pub fn then(&self, files: &Vec<MemoryFile<A>, A>) -> Past<A>
        ensures { result ≡ files.now.items ∷ self.now }
    {
        Past {
            link: Link::Then(Snapshot::of(files), Snapshot::of(self)),
        }
    }
}
