//! What a relay listens on.

ghost use Rattle.std.specs.Prelude.{◌≡◌, ◌++◌, [], ◌∷◌, map, length, slice_get, string_bytes, IfOk, OnOk, IfSome, IsSomeAnd};
ghost use Rattle.std.specs.Arc.{arc_value};
ghost use Rattle.forward_core.specs.Handshakes.{IsHosted};
ghost use Rattle.forward_core.specs.Credentials.{credentials_in};
ghost use Rattle.mio_relay.specs.Faults.{of_network};
ghost use Rattle.mio_relay.specs.Connections.{AreListening, BeginsAt, served_as, sources_in};

use forward_core::{Security, security_of};
use loop_core::{LoopFault, Peer};
use relay_conf::{Security as Secret, Source};
use relay_ports::Inlet;
use relay_sockets::{NetFault, Network, Nonce};
use route_graph::Routes;
use std::alloc::{AllocError, Allocator};
use std::marker::Model;
use std::sync::Arc;

/// A source of the configuration: the socket that listens there, where its messages go, and what
/// its clients have to prove. Contracts see the socket's number, and the source.
pub struct Listener<N: Network, A: Allocator> {
    socket: N::Listener,
    bind: String<A>,
    port: u16,
    inlet: Arc<Inlet<A>, A>,
    secret: Option<Secret<A>>,
}

// By hand, so that crates above don't prove again how its parts end.
impl<N: Network, A: Allocator> Drop for Listener<N, A>
where
    N::Listener: Drop,
{
    fn drop(self) {
        let Listener {
            socket: _,
            bind: _,
            port: _,
            inlet: _,
            secret: _,
        } = self;
    }
}

impl<N: Network, A: Allocator> Model for Listener<N, A> {
    ghost use Rattle.std.specs.Prelude.{string_bytes};
    ghost use Rattle.std.specs.Arc.{arc_value};
    ghost use Rattle.forward_core.specs.Credentials.{credentials_of};
    ghost use Rattle.mio_relay.specs.Connections.{Hosted};

    ghost Value = { Hosted };

    ghost view = { λ l. record {
      number = N.number l.socket;
      source = record {
        endpoint = record { host = string_bytes l.bind; port = l.port };
        entry = arc_value l.inlet;
        asks = credentials_of l.secret;
      };
    } };
}

impl<N: Network, A: Allocator> Listener<N, A> {
    /// Its socket.
    pub fn socket(&self) -> &N::Listener
        ensures { N.number result.now ≡ self.now.number }
    {
        &self.socket
    }

    // What clients have to show in the handshake, if anything; `Err` where this end's name is too
    // long for one.
    fn security(&self) -> Result<Option<Security<'_>>, ()>
        ensures hosted { IfOk result IsHosted }
        ensures asks { IfOk result (λ security. credentials_in security ≡ self.now.source.asks) }
    {
        security_of(&self.secret)
    }
}

/// Why a network's refusal ends a relay's loop.
pub fn loop_fault(fault: NetFault) -> LoopFault
    ensures { result ≡ of_network fault }
{
    match fault {
        NetFault::Bind => LoopFault::Bind,
        NetFault::Poll => LoopFault::Poll,
        NetFault::Memory => LoopFault::Memory,
    }
}

/// Listens at each of the sources of the relay with this number, whose events go so, over a network
/// that has no listener yet.
///
/// `Bind` where an address can't be had, `Poll` where the system reports nothing of a socket, and
/// `Memory`.
pub fn listen<N: Network, A: Allocator + Copy>(
    alloc: A,
    network: &mut N,
    number: u32,
    routes: &Arc<Routes<A>, A>,
    sources: Vec<Source<A>, A>,
) -> Result<Vec<Listener<N, A>, A>, LoopFault>
    requires { N.bound network.old ≡ [] }
    ensures listening { IfOk result
        (λ listeners. AreListening (N.bound network.new) listeners.items) }
    ensures sources { IfOk result
        (λ listeners. sources_in listeners.items
        ≡ map (served_as number (arc_value routes.now)) sources.items) }
{
    let mut listeners = Vec::with_capacity(alloc, sources.len())?;
    let mut rest = sources.into_iter();
    while let Some(source) = rest.next() {
        let listener = listen_at(alloc, network, number, routes, source)?;
        listeners.push(listener)?;
    }
    Ok(listeners)
}

// Listens at one source.
fn listen_at<N: Network, A: Allocator + Copy>(
    alloc: A,
    network: &mut N,
    number: u32,
    routes: &Arc<Routes<A>, A>,
    source: Source<A>,
) -> Result<Listener<N, A>, LoopFault>
    ensures bound { OnOk result
        (N.bound network.new ≡ N.bound network.old
        ++ record { host = string_bytes source.bind; port = source.port } ∷ []) }
    ensures number { IfOk result (λ listener. listener.number ≡ length (N.bound network.old)) }
    ensures source { IfOk result
        (λ listener. listener.source ≡ served_as number (arc_value routes.now) source) }
{
    let Source {
        port,
        bind,
        label,
        prefix,
        security,
        line: _,
    } = source;
    let theirs = Arc::try_clone(routes)?;
    let inlet = Arc::new(alloc, Inlet::new(number, theirs, label, prefix))?;
    match network.bind(bind.as_str(), port) {
        Ok(socket) => Ok(Listener {
            socket,
            bind,
            port,
            inlet,
            secret: security,
        }),
        Err(fault) => Err(loop_fault(fault)),
    }
}

/// A session that begins with this nonce: it is of the source with this place, and its client has
/// to prove that source's key. `None` where there is no such source, or where its name is too long
/// for a handshake. The error is want of memory.
pub fn peer_at<N: Network, A: Allocator + Copy>(
    alloc: A,
    listeners: &[Listener<N, A>],
    place: usize,
    nonce: Nonce,
) -> Result<Option<Peer<A>>, AllocError>
    ensures { IfOk result
        (λ found. IfSome found
        (λ peer. IsSomeAnd (slice_get listeners.now place)
        (λ listener. BeginsAt listener.source nonce peer))) }
{
    let Some(listener) = listeners.get(place) else {
        return Ok(None);
    };
    let Ok(security) = listener.security() else {
        return Ok(None);
    };
    let peer = Peer::open(alloc, &listener.inlet, security, nonce.into_bytes())?;
    Ok(Some(peer))
}
