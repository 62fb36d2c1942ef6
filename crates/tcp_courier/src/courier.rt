//! Chunks that go to another relay.

ghost use Rattle.std.specs.Prelude.{◌≡◌, ◌⊎◌, ◌+◌, ◌<◌, ◌^◌, List, ℕ, IfErr, IfOk, IfSome, None, Some, length, map, option_map};
ghost use Rattle.std.specs.List.{position_from};
ghost use Rattle.std.specs.Arc.{arc_value};
ghost use Rattle.tcp_courier.specs.Carrying.{Delivers, IsToFirst, IsToOne, NamesChunk, endpoint_of, sender_of};
ghost use Rattle.tcp_courier.specs.Turns.{by_server, in_turn, place_in_turn, turn_after, turn_behind};
ghost use Rattle.tcp_courier.specs.Talks.{begun};
ghost use Rattle.relay_sockets.specs.Drawing.{IsDrawn};
ghost use Rattle.relay_sockets.specs.Traffics.{IsFresh};

use crate::exchange::deliver;
use crate::failures::{failure_of, unreached};
use crate::line::Line;
use crate::parts::{CourierParts, refused};
use ack_receipt::Evidence;
use disk_files::Dir;
use event_modes::{Entries, LONGEST_TAG};
use flush_pool::{CarryFault, ClaimView, Courier};
use forward_core::{ClientSession, secret_copy, security_of};
use relay_conf::{ForwardSettings, Security as Secret, Server};
use relay_notices::{Notice, Teller};
use relay_sockets::{Dialer, Endpoint, Nonces, Wire};
use std::alloc::{AllocError, AllocFailed, Allocator};
use std::marker::Model;
use std::sync::atomic::{AtomicBool, Ordering};
use std::sync::{Arc, Mutex, Wait};

/// How many bytes are read at once: the answers are short.
const PIECE: usize = 4_096;

/// With which of a courier's servers the next carry begins: with the one at this place of the list.
/// Past the end of the list it is the first.
#[derive(Clone, Copy, PartialEq, Eq)]
pub struct Turn {
    pub place: usize,
}

/// Sends chunks to the first of its servers that takes a connection, from the one whose turn it is
/// on, round, with one connection for each chunk. All threads that carry share the turn. Contracts
/// see what it connects by, its servers in listed order, the name and key that it shows in
/// handshakes, whether it asks for acknowledgements, and how long it waits.
pub struct TcpCourier<N, A: Allocator> {
    alloc: A,
    dialer: Arc<N, A>,
    servers: Vec<Endpoint<A>, A>,
    secret: Option<Secret<A>>,
    asks: bool,
    // In milliseconds.
    timeout: u64,
    stop: Arc<AtomicBool, A>,
    nonces: Mutex<Nonces>,
    turn: Mutex<Turn>,
    // Tells of its servers, in their order.
    teller: Teller<A>,
}

// By hand, so that crates above don't prove again how its parts end.
impl<N: Drop, A: Allocator> Drop for TcpCourier<N, A> {
    fn drop(self) {
        let TcpCourier {
            alloc: _,
            dialer: _,
            servers: _,
            secret: _,
            asks: _,
            timeout: _,
            stop: _,
            nonces: _,
            turn: _,
            teller: _,
        } = self;
    }
}

impl<N, A: Allocator> Model for TcpCourier<N, A> {
    ghost use Rattle.std.specs.Arc.{arc_value};
    ghost use Rattle.forward_core.specs.Credentials.{credentials_of};
    ghost use Rattle.tcp_courier.specs.Carrying.{Sender};

    ghost Value = { Sender N };

    ghost view = { λ c. record {
      dialer = arc_value c.dialer;
      servers = c.servers.items;
      shows = credentials_of c.secret;
      asks = c.asks;
      timeout = c.timeout;
    } };
}

/// A connection over which a chunk was carried, and what shows that.
pub struct Carried<S, A: Allocator> {
    pub stream: S,
    pub evidence: Evidence<A>,
}

impl<N: Dialer + Drop, A: Allocator + Copy> TcpCourier<N, A> {
    /// Sends as this output's settings say, over connections of this dialer, with salts from these.
    /// A carry that waits ends soon after `stop` is raised. The error is want of memory, and has
    /// again what was given.
    pub fn new<B: Allocator>(
        alloc: A,
        settings: &ForwardSettings<B>,
        nonces: Nonces,
        stop: Arc<AtomicBool, A>,
        dialer: Arc<N, A>,
    ) -> Result<TcpCourier<N, A>, AllocFailed<CourierParts<N, A>>>
        ensures sends { IfOk result
            (λ courier. courier ≡ sender_of settings.now (arc_value dialer)) }
        ensures value_returned { IfErr result
            (λ failed. failed.value ≡ record { nonces = nonces; stop = stop; dialer = dialer }) }
    {
        let Ok(servers) = endpoints_of(alloc, &settings.servers) else {
            return Err(refused(nonces, stop, dialer));
        };
        let Ok(secret) = secret_copy(alloc, &settings.security) else {
            return Err(refused(nonces, stop, dialer));
        };
        Ok(TcpCourier {
            alloc,
            dialer,
            servers,
            secret,
            asks: settings.require_ack_response,
            timeout: settings.ack_response_timeout.saturating_mul(1_000),
            stop,
            nonces: Mutex::new(nonces),
            turn: Mutex::new(Turn { place: 0 }),
            teller: Teller::silent(),
        })
    }

    /// It tells of its servers from now on, by this teller, of which the first place is the first
    /// server: which fails and why, and which works again.
    pub fn telling(mut self, teller: Teller<A>) -> TcpCourier<N, A>
        ensures { result ≡ self }
    {
        self.teller = teller;
        self
    }

    // A session of a connection that was made.
    fn session<R: Wait>(&self, rt: &R) -> Result<ClientSession<A>, CarryFault>
        ensures { IfOk result
            (λ session. (salt : List ℕ) × IsDrawn salt × (session ≡ begun self.now.shows salt)) }
    {
        let Ok(security) = security_of(&self.secret) else {
            return Err(CarryFault::NoServer);
        };
        let salt = self.nonces.lock(rt).draw();
        Ok(ClientSession::open(self.alloc, security, salt.into_bytes())?)
    }

    // A connection to the first server that takes one, from the one whose turn it is on, round.
    fn connect<R: Wait>(
        &self,
        rt: &R,
        turn: Turn,
        until: u64,
    ) -> Result<Option<Reached<N::Stream>>, AllocError>
        ensures one { IfOk result
            (λ found. IfSome found (λ r. IsToOne self.now.servers (N.Stream.origin r.stream))) }
        ensures within { IfOk result
            (λ found. IfSome found (λ r. r.place < length self.now.servers)) }
        ensures fresh { IfOk result
            (λ found. IfSome found (λ r. IsFresh (N.Stream.traffic r.stream))) }
        ensures first { N.is_known self.now.dialer
            → IfOk result (λ found. IsToFirst (N.takes self.now.dialer)
            (in_turn turn.place self.now.servers)
            (option_map (λ r. N.Stream.origin r.stream) found)) }
        ensures place { N.is_known self.now.dialer → IfOk result (λ found.
            option_map (λ r. r.place) found
            ≡ place_in_turn (N.takes self.now.dialer) self.now.servers turn.place) }
    {
        let at = turn.place.min(self.servers.len());
        let (before, behind) = self.servers.split_at(at);
        let teller = &self.teller;
        match first_of(rt, teller, &*self.dialer, behind, at, until)? {
            Some(reached) => Ok(Some(reached)),
            None => first_of(rt, teller, &*self.dialer, before, 0, until),
        }
    }

    // Sends a chunk, and gives what shows that it was acknowledged, or else written.
    fn send<R: Wait, D: Dir>(
        &self,
        rt: &R,
        stream: N::Stream,
        until: u64,
        chunk: &ClaimView<'_, D, A>,
        entries: &Entries<A>,
    ) -> Result<Carried<N::Stream, A>, CarryFault>
        requires fresh { IsFresh (N.Stream.traffic stream) }
        requires count { length entries.now ≡ chunk.now.count }
        ensures origin { IfOk result
            (λ carried. N.Stream.origin carried.stream ≡ N.Stream.origin stream) }
        ensures names { IfOk result
            (λ carried. NamesChunk self.now.asks chunk.now carried.evidence) }
        ensures delivers { IfOk result
            (λ carried. Delivers self.now chunk.now (N.Stream.traffic carried.stream)) }
    {
        if chunk.tag().len() > LONGEST_TAG || entries.as_bytes().len() > u32::MAX as usize {
            return Err(CarryFault::Device);
        }
        let mut session = self.session(rt)?;
        let mut piece = Vec::from_elem(self.alloc, 0, PIECE)?;
        let mut line = Line {
            clock: &*self.dialer,
            wire: stream,
            until,
            stop: &self.stop,
        };
        let evidence = deliver(
            &mut line,
            &mut session,
            &mut piece,
            chunk,
            entries,
            self.asks,
        )?;
        Ok(Carried {
            stream: line.wire,
            evidence,
        })
    }

    // Reads the chunk's entries, and sends them.
    fn read_and_send<R: Wait, D: Dir>(
        &self,
        rt: &R,
        stream: N::Stream,
        until: u64,
        chunk: &ClaimView<'_, D, A>,
    ) -> Result<Carried<N::Stream, A>, CarryFault>
        requires fresh { IsFresh (N.Stream.traffic stream) }
        ensures origin { IfOk result
            (λ carried. N.Stream.origin carried.stream ≡ N.Stream.origin stream) }
        ensures names { IfOk result
            (λ carried. NamesChunk self.now.asks chunk.now carried.evidence) }
        ensures delivers { IfOk result
            (λ carried. Delivers self.now chunk.now (N.Stream.traffic carried.stream)) }
    {
        let entries = chunk.entries(rt)?;
        self.send(rt, stream, until, chunk, &entries)
    }

    /// Connects to the first server that takes a connection, from the one whose turn it is on,
    /// round; only then reads the chunk. It shakes hands where there is a key, sends the chunk and,
    /// where the output requires it, waits for its acknowledgement. It gives the connection besides
    /// what shows that.
    ///
    /// Behind a server that took the connection and then failed the carry (`NoServer`, `Timeout`,
    /// `Session`) it is the turn of the next one of the list; else the turn stays.
    ///
    /// `NoServer`: no server took a connection, or it was lost. `Timeout`: the time for an answer
    /// has passed, or the relay stops. `Session`: what came is no part of a handshake, or no
    /// acknowledgement. `Device`: the chunk can't be read, or has more bytes than a message can.
    /// `Memory`.
    pub fn carry_over<R: Wait, D: Dir>(
        &self,
        rt: &R,
        chunk: &ClaimView<'_, D, A>,
        turn: &mut Turn,
    ) -> Result<Carried<N::Stream, A>, CarryFault>
        ensures one { IfOk result
            (λ carried. IsToOne self.now.servers (N.Stream.origin carried.stream)) }
        ensures first { N.is_known self.now.dialer
            → IfOk result (λ carried. IsToFirst (N.takes self.now.dialer)
            (in_turn turn.old.place self.now.servers)
            (Some (N.Stream.origin carried.stream))) }
        ensures delivers { IfOk result
            (λ carried. Delivers self.now chunk.now (N.Stream.traffic carried.stream)) }
        ensures names { IfOk result
            (λ carried. NamesChunk self.now.asks chunk.now carried.evidence) }
        // Where no server takes a connection, the chunk isn't read.
        ensures unread { N.is_known self.now.dialer
            → place_in_turn (N.takes self.now.dialer) self.now.servers turn.old.place ≡ None
            → IfErr result (λ fault. (fault ≡ CarryFault.NoServer) ⊎ (fault ≡ CarryFault.Memory)) }
        ensures turn { N.is_known self.now.dialer
            → turn.new.place ≡ turn_after
            (place_in_turn (N.takes self.now.dialer) self.now.servers turn.old.place)
            turn.old.place result }
    {
        let until = self.dialer.now_after(0).saturating_add(self.timeout);
        let Some(Reached { stream, place }) = self.connect(rt, *turn, until)? else {
            return Err(CarryFault::NoServer);
        };
        match self.read_and_send(rt, stream, until, chunk) {
            Ok(carried) => {
                self.teller.tell(rt, place, Notice::Works);
                Ok(carried)
            }
            Err(fault) => {
                self.tell_fault(rt, place, fault);
                turn.pass(place, fault);
                Err(fault)
            }
        }
    }

    // Tells of a carry that failed so at the server with this place, unless it was ended.
    fn tell_fault<R: Wait>(&self, rt: &R, place: usize, fault: CarryFault) {
        if self.stop.load(Ordering::SeqCst) {
            return;
        }
        if let Some(failure) = failure_of(fault) {
            self.teller.tell(rt, place, Notice::Fails(failure));
        }
    }
}

impl Turn {
    // The server at this place took the connection, and the carry failed so.
    fn pass(&mut self, place: usize, fault: CarryFault)
        requires { place + 1 < 2 ^ 64 }
        ensures { self.new.place ≡ turn_behind place self.old.place fault }
    {
        if is_of_server(fault) {
            self.place = place + 1;
        }
    }
}

// Whether a carry that fails so behind the connecting fails by its server.
fn is_of_server(fault: CarryFault) -> bool
    ensures { result ≡ by_server fault }
{
    match fault {
        CarryFault::NoServer | CarryFault::Timeout | CarryFault::Session(_) => true,
        CarryFault::Device | CarryFault::Memory => false,
    }
}

impl<R: Wait, D: Dir, N: Dialer + Drop, A: Allocator + Copy> Courier<R, D, A> for TcpCourier<N, A> {
    ghost use Rattle.tcp_courier.specs.Carrying.{IsSent};

    ghost gives = { IsSent N.Stream.origin N.Stream.traffic };

    /// Carries a chunk as `carry_over` does, by the turn that all threads share, and closes the
    /// connection.
    fn carry(&self, rt: &R, chunk: &ClaimView<'_, D, A>) -> Result<Evidence<A>, CarryFault> {
        let began = *self.turn.lock(rt);
        let mut turn = began;
        let carried = self.carry_over(rt, chunk, &mut turn);
        if turn != began {
            *self.turn.lock(rt) = turn;
        }
        let Carried { stream, evidence } = carried?;
        if self.asks {
            // All was answered, and nothing more is expected.
            stream.break_off();
        }
        Ok(evidence)
    }
}

// A connection that a server took, and the server's place in the list.
struct Reached<S> {
    stream: S,
    place: usize,
}

// A connection to the first of these servers that takes one; the first of them has this place in
// the list. Of those that take none it is told.
fn first_of<R: Wait, N: Dialer, A: Allocator + Copy>(
    rt: &R,
    teller: &Teller<A>,
    dialer: &N,
    servers: &[Endpoint<A>],
    from: usize,
    until: u64,
) -> Result<Option<Reached<N::Stream>>, AllocError>
    requires { from + length servers.now < 2 ^ 64 }
    ensures one { IfOk result
        (λ found. IfSome found (λ r. IsToOne servers.now (N.Stream.origin r.stream))) }
    ensures within { IfOk result
        (λ found. IfSome found (λ r. r.place < from + length servers.now)) }
    ensures fresh { IfOk result (λ found. IfSome found (λ r. IsFresh (N.Stream.traffic r.stream))) }
    ensures first { N.is_known dialer.now
        → IfOk result (λ found. IsToFirst (N.takes dialer.now) servers.now
        (option_map (λ r. N.Stream.origin r.stream) found)) }
    ensures place { N.is_known dialer.now
        → IfOk result (λ found. option_map (λ r. r.place) found
        ≡ position_from (N.takes dialer.now) from servers.now) }
{
    let mut place = from;
    for server in servers {
        match dialer.connect(server.host(), server.port(), until)? {
            Ok(stream) => return Ok(Some(Reached { stream, place })),
            Err(why) => teller.tell(rt, place, Notice::Fails(unreached(why))),
        }
        place += 1;
    }
    Ok(None)
}

// Where these servers are, in their order.
fn endpoints_of<A: Allocator + Copy, B: Allocator>(
    alloc: A,
    servers: &[Server<B>],
) -> Result<Vec<Endpoint<A>, A>, AllocError>
    ensures { IfOk result (λ endpoints. endpoints.items ≡ map endpoint_of servers.now) }
{
    let mut endpoints = Vec::with_capacity(alloc, servers.len())?;
    for server in servers {
        let endpoint = Endpoint::new(alloc, server.host.as_str(), server.port)?;
        endpoints.push(endpoint)?;
    }
    Ok(endpoints)
}
