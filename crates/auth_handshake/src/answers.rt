//! What the ends of a handshake answer.

ghost use Rattle.std.specs.Prelude.{◌≡◌};
ghost use Rattle.auth_handshake.specs.declared.answers.HeloError.TheVariants.{Memory};

use std::alloc::AllocError;

/// What is wrong with the other end's message. Each is printed by its code.
#[derive(Clone, Copy, Debug, Drop, PartialEq, Eq, thiserror::Error)]
pub enum HandshakeFault {
    /// `H1`: the server was sent what is no PING.
    #[error("H1")]
    NotPing,
    /// `H2`: the other end's digest is not the one that the shared key gives.
    #[error("H2")]
    WrongDigest,
    /// `H3`: the client was sent what is no HELO.
    #[error("H3")]
    NotHelo,
    /// `H4`: the client was sent what is no PONG.
    #[error("H4")]
    NotPong,
    /// `H5`: the client was sent a PONG of false.
    #[error("H5")]
    RefusedByServer,
}

/// What a server makes of an item that should be a PING.
#[derive(Clone, Copy, Drop, PartialEq, Eq)]
pub enum Ping {
    /// It is a PING, and the client has the shared key.
    Passed,
    /// It isn't one (`NotPing`), or its digest is wrong (`WrongDigest`).
    Refused(HandshakeFault),
}

/// Why a client took no HELO.
#[derive(Clone, Copy, Debug, Drop, PartialEq, Eq, thiserror::Error)]
pub enum HeloError {
    /// Want of memory.
    #[error("memory")]
    Memory,
    /// It isn't one (`NotHelo`).
    #[error("{0}")]
    Fault(HandshakeFault),
}

impl From<AllocError> for HeloError {
    ghost from_gives = { λ _ e. e ≡ Memory };

    fn from(_e: AllocError) -> HeloError {
        HeloError::Memory
    }
}
