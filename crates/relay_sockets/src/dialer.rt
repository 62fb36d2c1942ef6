//! Connections that go out.

use crate::clock::Time;
use crate::wire::Wire;
use std::alloc::AllocError;

/// Why there is no connection to a server.
#[derive(Clone, Copy, PartialEq, Eq)]
pub enum Unreached {
    /// Its host has no address.
    NoAddress,
    /// It was refused: nothing listens there.
    Refused,
    /// It wasn't taken in time.
    Late,
    /// The system says something else, as that there is no way to the host.
    Other,
}

/// Connects to servers. Threads may share it.
pub trait Dialer: Time {
    ghost use Rattle.std.specs.Prelude.{◌≡◌, Bool, IfOk, is_ok};
    ghost use Rattle.relay_sockets.specs.Endpoints.{Endpoint, WentTo};
    ghost use Rattle.relay_sockets.specs.Traffics.{IsFresh};

    type Stream: Wire + Drop;

    // whether it is known which servers take a connection; of the system's sockets it isn't
    ghost is_known: { Self → Type 0 };

    // whether the server at an endpoint takes a connection
    ghost takes: { Self → Endpoint → Bool };

    /// A connection to the server at this host and port, at the first of its addresses that takes
    /// one before this time; or why there is none, at the last of them. The error is want of
    /// memory.
    fn connect(
        &self,
        host: &str,
        port: u16,
        until: u64,
    ) -> Result<Result<Self::Stream, Unreached>, AllocError>
        ensures went { IfOk result
            (λ found. IfOk found
            (λ stream. Self.Stream.origin stream
            ≡ WentTo (record { host = host.now; port = port }))) }
        ensures fresh { IfOk result
            (λ found. IfOk found (λ stream. IsFresh (Self.Stream.traffic stream))) }
        ensures known { is_known self.now
            → IfOk result (λ found. is_ok found
            ≡ takes self.now (record { host = host.now; port = port })) };
}
