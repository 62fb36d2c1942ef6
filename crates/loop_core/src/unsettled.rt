//! Receipts that are handed out, and what is left of deliveries, before it is accounted for.

ghost use Rattle.std.specs.Prelude.{◌≡◌, ◌++◌, ◌∷◌, [], IfErr, IfOk};
ghost use Rattle.loop_core.specs.Waits.{left_of};

use ack_receipt::{Delivery, Receipt, Stub};
use std::alloc::Allocator;
use std::marker::Model;

/// What is left of a delivery that ended: its number, and a part of each receipt that it held.
/// Contracts see a `Left`.
///
/// It can be neither copied nor dropped: `Lanes::settle` alone ends it.
pub struct Unsettled<A: Allocator>(Stub<A>);

impl<A: Allocator> Model for Unsettled<A> {
    ghost use Rattle.book_audit.specs.Stubs.{Left};

    ghost Value = { Left };

    ghost view = { λ u. u.0 };
}

impl<A: Allocator> Unsettled<A> {
    // Of a delivery that ends without an answer.
    pub(crate) fn abandoned(delivery: Delivery<A>) -> Self
        ensures { result ≡ left_of delivery.number delivery.receipts }
    {
        Unsettled(delivery.abandon())
    }

    // Of a delivery that was answered.
    pub(crate) fn answered(stub: Stub<A>) -> Self
        ensures { result ≡ stub }
    {
        Unsettled(stub)
    }

    // For `Lanes::settle` alone.
    pub(crate) fn into_stub(self) -> Stub<A>
        ensures { result ≡ self }
    {
        let Unsettled(stub) = self;
        stub
    }
}

/// A receipt that its buffer handed out. Contracts see an `Appended`.
///
/// It can be neither copied nor dropped: a delivery takes it, or it is settled.
pub struct Handed<A: Allocator>(Receipt<A>);

impl<A: Allocator> Model for Handed<A> {
    ghost use Rattle.ack_receipt.specs.Deliveries.{Appended};

    ghost Value = { Appended };

    ghost view = { λ h. h.0 };
}

impl<A: Allocator> Handed<A> {
    pub(crate) fn out(receipt: Receipt<A>) -> Self
        ensures { result ≡ receipt }
    {
        Handed(receipt)
    }

    // The delivery with this receipt behind its others; where it takes none of it, both come back.
    pub(crate) fn added_to(self, delivery: Delivery<A>) -> Result<Delivery<A>, (Delivery<A>, Self)>
        ensures added { IfOk result
            (λ with. with ≡ record delivery { receipts = delivery.receipts ++ self ∷ [] }) }
        ensures back { IfErr result (λ refused. (refused.0 ≡ delivery) × (refused.1 ≡ self)) }
    {
        let Handed(receipt) = self;
        match delivery.add(receipt) {
            Ok(with) => Ok(with),
            Err((_, delivery, receipt)) => Err((delivery, Handed(receipt))),
        }
    }

    // What is left of it, where no delivery takes it.
    pub(crate) fn spent(self) -> Unsettled<A>
        ensures { result ≡ left_of self.delivery (self ∷ []) }
    {
        let Handed(receipt) = self;
        Unsettled(receipt.spend())
    }
}
