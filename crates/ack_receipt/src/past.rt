//! What contracts remember of a buffer's book. It has no bytes for an append: a relay that runs for
//! months keeps no more than one that just began.

ghost use Rattle.std.specs.Prelude.{◌≡◌, ◌++◌, ◌∷◌, [], false, length, suc};
ghost use Rattle.ack_receipt.specs.Told.{counts_of};
ghost use Rattle.ack_receipt.specs.Past.{told_before};

use book_audit::Line;
use buffer_store::Buffer;
use disk_files::Dir;
use std::alloc::Allocator;
use std::marker::Model;
use std::snapshot::Snapshot;

/// A line of the book, as contracts see it: the place of its append, and what it says.
#[derive(Clone, Copy, PartialEq, Eq)]
pub struct Written {
    pub place: u64,
    pub line: Line,
}

/// What was told of appends, receipts, removals and syncs, in order.
pub struct Past<D: Dir, A: Allocator> {
    chain: Snapshot<Chain<D, A>>,
}

impl<D: Dir, A: Allocator> Drop for Past<D, A> {
    fn drop(self) {
        let Past { chain: _chain } = self;
    }
}

impl<D: Dir, A: Allocator> Model for Past<D, A> {
    ghost use Rattle.ack_receipt.specs.Told.{ToldPast};

    ghost Value = { ToldPast };

    ghost view = { λ p. p.chain.value };
}

/// What was told last, and the chain before it.
#[derive(Drop)]
#[cycle(chain)]
struct Chain<D: Dir, A: Allocator> {
    link: Link<D, A>,
}

#[derive(Drop)]
#[cycle(chain)]
enum Link<D: Dir, A: Allocator> {
    Began(Snapshot<Buffer<D, A>>),
    Appended(Snapshot<Snapshot<Chain<D, A>>>, Snapshot<Line>),
    Wrote(Snapshot<Snapshot<Chain<D, A>>>, Snapshot<Written>),
    Removed(Snapshot<Snapshot<Chain<D, A>>>, Snapshot<u64>),
    // The buffer at this moment.
    Synced(Snapshot<Snapshot<Chain<D, A>>>, Snapshot<Buffer<D, A>>),
}

impl<D: Dir, A: Allocator> Model for Chain<D, A> {
    ghost use Rattle.ack_receipt.specs.Told.{ToldPast};

    ghost Value = { ToldPast };

    ghost use Rattle.ack_receipt.specs.Past.{told_before};

    ghost view = { λ c. told_before c.link };

    ghost size = { λ told. told.times };

    ghost use Rattle.std.proofs.Common.{arith};

    ghost size_decreases = { λ c h. Prim.grind arith };
}

impl<D: Dir, A: Allocator> Past<D, A> {
    // What is told with this last.
    fn ending(link: Link<D, A>) -> Self
        ensures { result ≡ told_before link }
    {
        Past {
            chain: Snapshot::of(&Chain { link }),
        }
    }

    /// The book of this buffer begins.
    pub(crate) fn new(buffer: &Buffer<D, A>) -> Self
        ensures { result ≡ record {
          times = 0;
          first = counts_of buffer.now.chunks;
          appends = [];
          lines = [];
          removed = [];
          synced = 0;
        } }
    {
        Past::ending(Link::Began(Snapshot::of(buffer)))
    }

    /// This was appended too.
    pub(crate) fn then_append(&self, line: &Line) -> Self
        ensures { result ≡ record
            self.now { times = suc self.now.times; appends = self.now.appends ++ line.now ∷ [] } }
    {
        Past::ending(Link::Appended(Snapshot::of(&self.chain), Snapshot::of(line)))
    }

    /// An append got a receipt too.
    pub(crate) fn then_line(&self, written: &Written) -> Self
        ensures { result ≡ record
            self.now { times = suc self.now.times; lines = self.now.lines ++ written.now ∷ [] } }
    {
        Past::ending(Link::Wrote(Snapshot::of(&self.chain), Snapshot::of(written)))
    }

    /// The chunk of this serial was removed too.
    pub(crate) fn then_removed(&self, serial: &u64) -> Self
        ensures { result ≡ record
            self.now { times = suc self.now.times; removed = self.now.removed ++ serial.now ∷ [] } }
    {
        Past::ending(Link::Removed(Snapshot::of(&self.chain), Snapshot::of(serial)))
    }

    /// All that was appended is synced: this is the buffer of the book, at this moment.
    pub(crate) fn then_synced(&self, buffer: &Buffer<D, A>) -> Self
        requires { buffer.now.staged ≡ false }
        ensures { result ≡ record
            self.now { times = suc self.now.times; synced = length self.now.appends } }
    {
        Past::ending(Link::Synced(Snapshot::of(&self.chain), Snapshot::of(buffer)))
    }
}
