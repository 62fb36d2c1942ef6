//! The entries of a chunk, for contracts alone.

ghost use Rattle.std.specs.Prelude.{◌≡◌, ◌++◌};

use event_modes::Entries;
use std::alloc::Allocator;
use std::marker::Model;
use std::snapshot::Snapshot;

/// Entries that were told one list after another. A snapshot has no bytes, so at run time there is
/// nothing of them: who needs the bytes reads them where they lie.
#[derive(Drop)]
pub(crate) struct Content<A: Allocator> {
    chain: Snapshot<Chain<A>>,
}

impl<A: Allocator> Model for Content<A> {
    ghost use Rattle.std.specs.Prelude.{ℕ, List};

    ghost Value = { List (List ℕ) };

    ghost view = { λ c. c.chain.value.entries };
}

// The entries that were told last, and the chain before them.
#[derive(Drop)]
#[cycle(chain)]
struct Chain<A: Allocator> {
    link: Link<A>,
}

#[derive(Drop)]
#[cycle(chain)]
enum Link<A: Allocator> {
    First(Snapshot<Entries<A>>),
    Then(Snapshot<Snapshot<Chain<A>>>, Snapshot<Entries<A>>),
}

impl<A: Allocator> Model for Chain<A> {
    ghost use Rattle.buffer_state.specs.Told.{Told};

    ghost Value = { Told };

    ghost use Rattle.buffer_state.specs.Contents.{told_by};

    ghost view = { λ c. told_by c.link };

    ghost size = { λ told. told.times };

    ghost use Rattle.std.proofs.Common.{arith};

    ghost size_decreases = { λ c h. Prim.grind arith };
}

impl<A: Allocator> Content<A> {
    /// These entries.
    pub fn of(entries: &Entries<A>) -> Self
        ensures { result ≡ entries.now }
    {
        Content {
            chain: Snapshot::of(&Chain {
                link: Link::First(Snapshot::of(entries)),
            }),
        }
    }

    /// These, and more entries behind them.
    pub fn then(&self, entries: &Entries<A>) -> Self
        ensures { result ≡ self.now ++ entries.now }
    {
        Content {
            chain: Snapshot::of(&Chain {
                link: Link::Then(Snapshot::of(&self.chain), Snapshot::of(entries)),
            }),
        }
    }
}
