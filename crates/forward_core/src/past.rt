//! What contracts remember of a session. It has no bytes for a message: a connection that lasts for
//! days costs no more than a new one.

ghost use Rattle.std.specs.Prelude.{◌≡◌, ◌++◌, ◌∷◌, [], map};
ghost use Rattle.forward_core.specs.Demands.{asked_in, wanted};

use crate::demand::Demand;
use ack_receipt::Reserved;
use std::alloc::Allocator;
use std::marker::Model;
use std::snapshot::Snapshot;

/// What each message asked for that was demanded to be delivered, in order.
#[derive(Drop)]
#[cycle(asked)]
pub struct AskedSoFar<A: Allocator> {
    link: AskedLink<A>,
}

#[derive(Drop)]
#[cycle(asked)]
enum AskedLink<A: Allocator> {
    Start,
    Then(Snapshot<AskedSoFar<A>>, Snapshot<Vec<Demand<A>, A>>),
}

impl<A: Allocator> Model for AskedSoFar<A> {
    ghost use Rattle.forward_core.specs.Told.{ToldAsked};

    ghost Value = { ToldAsked };

    ghost use Rattle.forward_core.specs.Past.{asked_before};

    ghost view = { λ a. asked_before a.link };

    ghost size = { λ told. told.times };

    ghost use Rattle.std.proofs.Common.{arith};

    ghost size_decreases = { λ a h. Prim.grind arith };
}

impl<A: Allocator> AskedSoFar<A> {
    /// No message was demanded yet.
    pub(crate) fn new() -> Self
        ensures { result.all ≡ [] }
    {
        AskedSoFar {
            link: AskedLink::Start,
        }
    }

    /// These were demanded too.
    pub(crate) fn then(&self, demands: &Vec<Demand<A>, A>) -> Self
        ensures { result.all ≡ self.now.all ++ asked_in (map wanted demands.now.items) }
    {
        AskedSoFar {
            link: AskedLink::Then(Snapshot::of(self), Snapshot::of(demands)),
        }
    }
}

/// The answers that were taken, in order.
#[derive(Drop)]
#[cycle(answers)]
pub struct TakenSoFar<A: Allocator> {
    link: TakenLink<A>,
}

#[derive(Drop)]
#[cycle(answers)]
enum TakenLink<A: Allocator> {
    Start,
    Then(Snapshot<TakenSoFar<A>>, Snapshot<Reserved<A>>),
}

impl<A: Allocator> Model for TakenSoFar<A> {
    ghost use Rattle.forward_core.specs.Told.{ToldAnswers};

    ghost Value = { ToldAnswers };

    ghost use Rattle.forward_core.specs.Past.{taken_before};

    ghost view = { λ t. taken_before t.link };

    ghost size = { λ told. told.times };

    ghost use Rattle.std.proofs.Common.{arith};

    ghost size_decreases = { λ t h. Prim.grind arith };
}

impl<A: Allocator> TakenSoFar<A> {
    /// No answer was taken yet.
    pub(crate) fn new() -> Self
        ensures { result.all ≡ [] }
    {
        TakenSoFar {
            link: TakenLink::Start,
        }
    }

    /// This one was taken too.
    pub(crate) fn then(&self, reserved: &Reserved<A>) -> Self
        ensures { result.all ≡ self.now.all ++ reserved.now ∷ [] }
    {
        TakenSoFar {
            link: TakenLink::Then(Snapshot::of(self), Snapshot::of(reserved)),
        }
    }
}
