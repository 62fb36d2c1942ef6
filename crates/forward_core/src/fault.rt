//! Why a session is over, and why a call was refused.

ghost use Rattle.std.specs.Prelude.{◌≡◌, Some};
ghost use Rattle.forward_core.specs.Printed.{code_of, error_text};
ghost use Rattle.forward_core.specs.declared.fault.SessionError.TheVariants.{Memory};

use auth_handshake::HandshakeFault;
use event_modes::ModeFault;
use std::alloc::{AllocError, AllocFailed};
use std::error::Error;
use std::fmt;

/// What ended a session. Each is printed by its code, and the reason's own code behind it.
#[derive(Clone, Copy, Debug, Drop, PartialEq, Eq)]
pub enum SessionFault {
    /// `Q1`: what came is no message, and no heartbeat.
    BadStream(ModeFault),
    /// `Q2`: the other end's part of the handshake is not what it should be.
    Handshake(HandshakeFault),
    /// `Q3`: what came is no acknowledgement.
    BadAck,
    /// `Q4`: the session was over before the call.
    Closed,
}

impl fmt::Display for SessionFault {
    ghost output = { λ fault. Some (code_of fault) };

    fn fmt<W: fmt::Write>(&self, f: &mut fmt::Formatter<W>) -> fmt::Result {
        match self {
            SessionFault::BadStream(fault) => write!(f, "Q1 {fault}"),
            SessionFault::Handshake(HandshakeFault::NotPing) => write!(f, "Q2 H1"),
            SessionFault::Handshake(HandshakeFault::WrongDigest) => write!(f, "Q2 H2"),
            SessionFault::Handshake(HandshakeFault::NotHelo) => write!(f, "Q2 H3"),
            SessionFault::Handshake(HandshakeFault::NotPong) => write!(f, "Q2 H4"),
            SessionFault::Handshake(HandshakeFault::RefusedByServer) => write!(f, "Q2 H5"),
            SessionFault::BadAck => write!(f, "Q3"),
            SessionFault::Closed => write!(f, "Q4"),
        }
    }
}

impl Error for SessionFault {}

/// Why a session took no bytes.
#[derive(Clone, Copy, Debug, Drop, PartialEq, Eq)]
pub enum SessionError {
    /// There was no memory.
    Memory,
    /// The session is over (`Closed`).
    Fault(SessionFault),
}

impl fmt::Display for SessionError {
    ghost output = { λ error. Some (error_text error) };

    fn fmt<W: fmt::Write>(&self, f: &mut fmt::Formatter<W>) -> fmt::Result {
        match self {
            SessionError::Memory => write!(f, "memory"),
            SessionError::Fault(fault) => write!(f, "{fault}"),
        }
    }
}

impl Error for SessionError {}

impl From<AllocError> for SessionError {
    ghost from_gives = { λ _ e. e ≡ Memory };

    fn from(_refused: AllocError) -> SessionError {
        SessionError::Memory
    }
}
