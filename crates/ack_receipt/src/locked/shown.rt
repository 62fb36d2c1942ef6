//! What shows that a step was taken under the lock of a shared buffer. A caller who keeps it can
//! say so in a contract.

ghost use Rattle.std.specs.Prelude.{◌≡◌};

use super::pending::Pending;
use crate::Claim;
use book_audit::Leaf;
use std::alloc::Allocator;
use std::marker::Model;
use std::snapshot::Snapshot;

/// That a buffer has no staged chunk of this serial: it was queued, or none was staged. None is
/// staged under it again. Contracts see the buffer's name and the serial.
///
/// The call under the lock alone makes one, as it makes each of those below.
#[derive(Drop)]
pub struct Unstaged {
    pub(super) leaf: Leaf,
    pub(super) serial: u64,
}

impl Model for Unstaged {
    ghost use Rattle.ack_receipt.specs.Shown.{ChunkOf};

    ghost Value = { ChunkOf };

    ghost view = { λ s. record { leaf = s.leaf; serial = s.serial } };
}

/// That a claim was given back. Contracts see what they saw of the claim.
#[derive(Drop)]
pub struct GivenBack<A: Allocator> {
    pub(super) of: Snapshot<Claim<A>>,
}

impl<A: Allocator> Model for GivenBack<A> {
    ghost use Rattle.ack_receipt.specs.Claims.{Claimed};

    ghost Value = { Claimed };

    ghost view = { λ s. s.of.value };
}

/// That an append's wait for a receipt was ended, and its note taken out of the book. Contracts see
/// what they saw of the append.
#[derive(Drop)]
pub struct GivenUp<A: Allocator> {
    pub(super) of: Snapshot<Pending<A>>,
}

impl<A: Allocator> Model for GivenUp<A> {
    ghost use Rattle.ack_receipt.specs.Deliveries.{Pended};

    ghost Value = { Pended };

    ghost view = { λ s. s.of.value };
}
