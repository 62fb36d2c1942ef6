//! What a worker did, for the proofs alone.

ghost use Rattle.std.specs.Prelude.{◌≡◌, [], ◌∷◌};
ghost use Rattle.flush_pool.specs.Diaries.{act_of};

use crate::fault::CarryFault;
use crate::retries::{Forgotten, Judgement, Noted};
use ack_receipt::{Claim, Evidence, GivenBack, PurgeFault};
use std::alloc::Allocator;
use std::marker::Model;
use std::snapshot::Snapshot;

/// One act of a worker. What shows that a lock was used stands in it where there is such a thing:
/// else the chunk's serial.
#[derive(Drop)]
pub(crate) enum Deed<A: Allocator> {
    Looked(bool),
    Unclaimed,
    Claimed(Snapshot<Claim<A>>),
    Judged(Judgement),
    Asked(u64, bool),
    Carried(u64, Snapshot<Evidence<A>>),
    NotCarried(u64, CarryFault),
    Checked(u64, bool),
    Purged(u64, Snapshot<Evidence<A>>),
    NotPurged(u64, Snapshot<Evidence<A>>, PurgeFault),
    Noted(Noted),
    NotNoted(u64),
    Forgot(Forgotten),
    GaveBack(GivenBack<A>),
}

/// What a worker did, the last first. A snapshot has no bytes, so at run time there is no list.
#[derive(Drop)]
#[cycle(diary)]
pub(crate) struct Diary<A: Allocator> {
    link: Link<A>,
}

#[derive(Drop)]
#[cycle(diary)]
enum Link<A: Allocator> {
    Start,
    Then(Snapshot<Deed<A>>, Snapshot<Diary<A>>),
}

impl<A: Allocator> Model for Diary<A> {
    ghost use Rattle.std.specs.Prelude.{List, length};
    ghost use Rattle.flush_pool.specs.Acts.{Act};

    ghost Value = { List Act };

    ghost use Rattle.flush_pool.specs.Diaries.{acts_in};

    ghost view = { λ d. acts_in d.link };

    ghost size = { length };

    ghost use Rattle.std.proofs.Common.{arith};

    ghost size_decreases = { λ d h. Prim.grind arith };
}

impl<A: Allocator> Diary<A> {
    /// Nothing yet.
    pub(crate) fn new() -> Diary<A>
        ensures { result ≡ [] }
    {
        Diary { link: Link::Start }
    }

    /// One act more.
    pub(crate) fn add(&mut self, deed: Deed<A>)
        ensures { self.new ≡ act_of deed ∷ self.old }
    {
        let link = Link::Then(Snapshot::of(&deed), Snapshot::of(self));
        *self = Diary { link };
    }
}
