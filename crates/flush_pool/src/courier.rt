//! Who carries chunks.

ghost use Rattle.std.specs.Prelude.{◌≡◌, Ok};

use crate::fault::CarryFault;
use crate::view::ClaimView;
use ack_receipt::Evidence;
use disk_files::Dir;
use std::alloc::Allocator;
use std::sync::Wait;

/// Carries chunks of a buffer to where they belong: to a sink, or to another relay. `R` is the
/// handle that it needs for that.
///
/// Several workers call it at once. No lock of the buffer is held while it works.
pub trait Courier<R: Wait, D: Dir, A: Allocator> {
    ghost use Rattle.ack_receipt.specs.Claims.{Claimed};
    ghost use Rattle.ack_receipt.specs.Evidences.{Shows};

    /// What is so where this courier gave this for the claimed chunk. Of one that says nothing of
    /// it, nothing is known; but nobody else says it in its place.
    ghost gives: { Self → Claimed → Shows → Type 0 } = { λ _ _ _. Unit {0} };

    /// Carries a claimed chunk, and gives what shows that it arrived. What it gave is looked at by
    /// the buffer, which takes no evidence of another chunk or kind.
    ///
    /// After an error the chunk stays in its buffer, whether it arrived or not.
    fn carry(&self, rt: &R, chunk: &ClaimView<'_, D, A>) -> Result<Evidence<A>, CarryFault>
        ensures { (shown : Shows) → result ≡ Ok shown → gives self.now chunk.now shown };
}
