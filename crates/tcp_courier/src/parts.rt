//! What a courier is given to keep.

ghost use Rattle.std.specs.Prelude.{◌≡◌};

use relay_sockets::Nonces;
use std::alloc::{AllocFailed, Allocator};
use std::sync::Arc;
use std::sync::atomic::AtomicBool;

/// What a courier is given to keep: salts, the flag that ends its waits, and what it connects by.
#[derive(Drop)]
pub struct CourierParts<N, A: Allocator> {
    pub nonces: Nonces,
    pub stop: Arc<AtomicBool, A>,
    pub dialer: Arc<N, A>,
}

/// There was no memory for a courier of these.
pub(crate) fn refused<N, A: Allocator>(
    nonces: Nonces,
    stop: Arc<AtomicBool, A>,
    dialer: Arc<N, A>,
) -> AllocFailed<CourierParts<N, A>>
    ensures { result.value ≡ record { nonces = nonces; stop = stop; dialer = dialer } }
{
    AllocFailed {
        value: CourierParts {
            nonces,
            stop,
            dialer,
        },
    }
}
