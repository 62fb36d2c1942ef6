//! Listeners, and the connections that come in.

use crate::clock::Time;
use crate::wire::Wire;
use std::alloc::{AllocError, AllocFailed, Allocator};
use std::time::Duration;

/// Why a network refuses a call.
#[derive(Clone, Copy, Drop, PartialEq, Eq)]
pub enum NetFault {
    /// The address can't be had.
    Bind,
    /// The system reports nothing of sockets.
    Poll,
    /// There is no memory for it.
    Memory,
}

impl From<AllocError> for NetFault {
    ghost from_gives = { λ _ fault. fault ≡ Memory };

    ghost use Rattle.std.specs.Prelude.{◌≡◌};
    ghost use Rattle.relay_sockets.specs.declared.network.NetFault.TheVariants.{Memory};

    fn from(_refused: AllocError) -> NetFault {
        NetFault::Memory
    }
}

impl<T: Drop> From<AllocFailed<T>> for NetFault {
    ghost from_gives = { λ _ fault. fault ≡ Memory };

    ghost use Rattle.std.specs.Prelude.{◌≡◌};
    ghost use Rattle.relay_sockets.specs.declared.network.NetFault.TheVariants.{Memory};

    fn from(_refused: AllocFailed<T>) -> NetFault {
        NetFault::Memory
    }
}

/// What came of asking for a connection.
#[derive(Drop)]
pub enum Accepted<S> {
    /// This one.
    Stream(S),
    /// The call was interrupted, or the connection is gone: the next one may give one at once.
    Again,
    /// None waits: the network notes when one does.
    Empty,
    /// The system has no more sockets for now: one may wait.
    Refused,
}

/// What a note is of.
#[derive(Clone, Copy, PartialEq, Eq)]
pub enum Spot {
    /// The listener with this number.
    Listener(usize),
    /// The connection that is watched under this key.
    Stream(usize),
}

/// What the system says of a socket, once for each change. It is a hint, of which no clause speaks.
#[derive(Clone, Copy, PartialEq, Eq)]
pub struct Note {
    pub spot: Spot,
    /// A connection may wait, or bytes, or the end, may be read.
    pub is_readable: bool,
    /// Bytes may be written.
    pub is_writable: bool,
    /// Nothing comes any more, once what is there was read.
    pub is_ended: bool,
}

/// Listeners, and the connections that come in at them, for one thread that waits for all of them
/// at once.
pub trait Network: Time {
    ghost use Rattle.std.specs.Prelude.{◌≡◌, ℕ, List, [], ◌∷◌, ◌++◌, length, Option, None, Err, IfOk, IfSome, OnOk, OnErr, slice_get};
    ghost use Rattle.relay_sockets.specs.Endpoints.{Endpoint, CameAt, IsPortOf};
    ghost use Rattle.relay_sockets.specs.Traffics.{IsFresh};
    ghost use Rattle.relay_sockets.specs.Accepting.{IfStream};
    ghost use Rattle.relay_sockets.specs.declared.network.NetFault as declared;

    type Listener: Drop;

    type Stream: Wire + Drop;

    // why it refuses to wait, where it is known to; of the system's sockets it isn't
    ghost refusal: { Self → Option declared.NetFault } = { λ _. None };

    // the endpoints that were bound, by the numbers of their listeners
    ghost bound: { Self → List Endpoint };

    // the number of a listener
    ghost number: { Self.Listener → ℕ };

    /// Listens at the first address of this host, and this port.
    ///
    /// `Bind`: the address can't be had. `Poll`: the system reports nothing of the socket.
    /// `Memory`.
    fn bind(&mut self, host: &str, port: u16) -> Result<Self::Listener, NetFault>
        ensures ok { OnOk result
            (bound self.new ≡ bound self.old ++ record { host = host.now; port = port } ∷ []) }
        ensures number { IfOk result (λ listener. number listener ≡ length (bound self.old)) }
        ensures err { OnErr result (bound self.new ≡ bound self.old) }
        ensures time { Self.time self.new ≡ Self.time self.old };

    /// The port that the listener has: the one that was bound, or the one that the system chose
    /// where that is 0.
    fn port(&self, listener: &Self::Listener) -> u16
        ensures bound { IfSome (slice_get (bound self.now) (number listener.now))
            (IsPortOf result) };

    /// Takes the next connection that waits at this listener. No call on it waits.
    fn accept(&mut self, listener: &Self::Listener) -> Accepted<Self::Stream>
        ensures bound { bound self.new ≡ bound self.old }
        ensures time { Self.time self.new ≡ Self.time self.old }
        ensures came { IfStream result
            (λ stream. Self.Stream.origin stream ≡ CameAt (number listener.now)) }
        ensures fresh { IfStream result (λ stream. IsFresh (Self.Stream.traffic stream)) };

    /// Has a connection noted under this key from now on. `Poll`: the system reports nothing of it,
    /// or not under such a key.
    fn watch(&mut self, stream: &mut Self::Stream, key: usize) -> Result<(), NetFault>
        ensures bound { bound self.new ≡ bound self.old }
        ensures time { Self.time self.new ≡ Self.time self.old }
        ensures origin { Self.Stream.origin stream.new ≡ Self.Stream.origin stream.old }
        ensures bytes { Self.Stream.traffic stream.new ≡ Self.Stream.traffic stream.old };

    /// Closes a connection, and ends its notes.
    fn close(&mut self, stream: Self::Stream)
        ensures bound { bound self.new ≡ bound self.old }
        ensures time { Self.time self.new ≡ Self.time self.old };

    /// Waits for sockets, no longer than this, and notes which are ready. What was noted before
    /// goes.
    ///
    /// `Poll`: the system reports nothing. `Memory`.
    fn wait<B: Allocator>(
        &mut self,
        most: Duration,
        notes: &mut Vec<Note, B>,
    ) -> Result<(), NetFault>
        ensures bound { bound self.new ≡ bound self.old }
        ensures time { Self.time self.new ≡ Self.time self.old }
        ensures refused { IfSome (refusal self.old) (λ fault. result ≡ Err fault) };
}
