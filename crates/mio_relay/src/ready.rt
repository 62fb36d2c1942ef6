//! The ports of a relay that is ready.

ghost use Rattle.std.specs.Prelude.{◌≡◌, IfOk};
ghost use Rattle.mio_relay.specs.Connections.{AreListening, ArePortsOf, sources_in};

use crate::listener::Listener;
use relay_sockets::Network;
use std::alloc::{AllocError, Allocator};
use std::marker::Model;

/// The ports at which the sources of a relay take connections, in their order, where its buffers
/// are open too: no other crate makes them than by `BoundRelay::open`.
#[derive(Drop)]
pub struct ReadyPorts<A: Allocator> {
    ports: Vec<u16, A>,
}

impl<A: Allocator> Model for ReadyPorts<A> {
    ghost use Rattle.std.specs.Prelude.{List, ℕ};

    ghost Value = { List ℕ };

    ghost view = { λ r. r.ports.items };
}

impl<A: Allocator + Copy> ReadyPorts<A> {
    /// The ports of these listeners of a network: where 0 was asked for, the one that the system
    /// chose. The error is want of memory.
    pub(crate) fn of<N: Network>(
        alloc: A,
        network: &N,
        listeners: &[Listener<N, A>],
    ) -> Result<Self, AllocError>
        requires { AreListening (N.bound network.now) listeners.now }
        ensures { IfOk result (ArePortsOf (sources_in listeners.now)) }
    {
        let mut ports = Vec::with_capacity(alloc, listeners.len())?;
        for listener in listeners {
            ports.push(network.port(listener.socket()))?;
        }
        Ok(ReadyPorts { ports })
    }
}

impl<A: Allocator> ReadyPorts<A> {
    /// The ports.
    pub fn as_slice(&self) -> &[u16]
        ensures { result.now ≡ self.now }
    {
        &self.ports
    }
}
