//! Why servers fail.

use flush_pool::CarryFault;
use forward_core::SessionFault;
use relay_notices::Failure;
use relay_sockets::Unreached;

/// How a server fails that takes no connection.
pub fn unreached(why: Unreached) -> Failure {
    match why {
        Unreached::NoAddress => Failure::NoAddress,
        Unreached::Refused => Failure::Refused,
        Unreached::Late => Failure::NoConnection,
        Unreached::Other => Failure::Unreachable,
    }
}

/// How a server fails that took the connection, where the carry failed so; `None` where that isn't
/// by the server.
pub fn failure_of(fault: CarryFault) -> Option<Failure> {
    match fault {
        CarryFault::NoServer => Some(Failure::Lost),
        CarryFault::Timeout => Some(Failure::NoAcknowledgement),
        CarryFault::Session(SessionFault::Handshake(_)) => Some(Failure::NoHandshake),
        CarryFault::Session(_) => Some(Failure::BadAnswer),
        CarryFault::Device | CarryFault::Memory => None,
    }
}
