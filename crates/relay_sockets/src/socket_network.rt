//! The system's sockets that come in. What the system does can't be stated: `listen_at` and
//! `take_from` are trusted to hand it the endpoint, and the listener, that are noted beside the
//! socket.

ghost use Rattle.std.specs.Prelude.{◌≡◌, [], IfOk};

use crate::address::resolve;
use crate::clock::{Time, now_after};
use crate::endpoint::Endpoint;
use crate::network::{Accepted, NetFault, Network, Note, Spot};
use crate::wire::{self, Moved, Wire};
use libc::net as c;
use mio::event::Event;
use mio::net::{TcpListener, TcpStream};
use mio::{Events, Interest, Poll, Registry, Token};
use std::alloc::Allocator;
use std::io::{ErrorKind, Read, Write};
use std::net::Net;
use std::os::fd::{AsRawFd, RawFd};
use std::time::{Clock, Duration};

/// How many events are taken from the system at once.
const EVENTS: usize = 1_024;

/// A listener's token is this and its number, and a connection's is its key.
const FIRST_LISTENER: usize = 1 << 32;

/// Listening sockets of the system, and what it reports. It notes the endpoint that each was bound
/// at.
pub struct SocketNetwork<R, A: Allocator> {
    rt: R,
    alloc: A,
    poll: Poll,
    events: Events<A>,
    bound: Vec<Endpoint<A>, A>,
}

// By hand, so that crates above don't prove again how its parts end.
impl<R: Drop, A: Allocator> Drop for SocketNetwork<R, A> {
    fn drop(self) {
        let SocketNetwork {
            rt: _,
            alloc: _,
            poll: _,
            events: _,
            bound: _,
        } = self;
    }
}

/// A listening socket, and its number.
pub struct SocketListener {
    socket: TcpListener,
    number: usize,
}

// By hand, so that crates above don't prove again how its parts end.
impl Drop for SocketListener {
    fn drop(self) {
        let SocketListener {
            socket: _,
            number: _,
        } = self;
    }
}

/// A connection that came in, the number of its listener, and what it answered last.
pub struct SocketWire {
    stream: TcpStream,
    listener: usize,
    // It took no byte for now when it was last written to.
    is_full: bool,
    // It was read until its other end had ended its sending.
    has_ended: bool,
}

// By hand, so that crates above don't prove again how its parts end.
impl Drop for SocketWire {
    fn drop(self) {
        let SocketWire {
            stream: _,
            listener: _,
            is_full: _,
            has_ended: _,
        } = self;
    }
}

impl<R: Net + Clock + Drop, A: Allocator + Copy> SocketNetwork<R, A> {
    /// With no listener yet. `Poll`: the system can't wait for sockets. `Memory`.
    pub fn new(rt: R, alloc: A) -> Result<SocketNetwork<R, A>, NetFault>
        ensures { IfOk result (λ network. ⟦<SocketNetwork<R, A> as Network>⟧.bound network ≡ []) }
    {
        let Ok(poll) = Poll::new(&rt) else {
            return Err(NetFault::Poll);
        };
        let events = Events::with_capacity(alloc, EVENTS)?;
        Ok(SocketNetwork {
            rt,
            alloc,
            poll,
            events,
            bound: Vec::new(alloc),
        })
    }
}

// TRUSTED: a socket that listens at this host and port, and is reported as the listener with this
// number.
fn listen_at(
    net: &impl Net,
    registry: &Registry,
    host: &str,
    port: u16,
    number: usize,
) -> Result<TcpListener, NetFault> {
    let Ok(Some(address)) = resolve(net, host, port) else {
        return Err(NetFault::Bind);
    };
    let Ok(mut socket) = TcpListener::bind(net, address) else {
        return Err(NetFault::Bind);
    };
    let Some(token) = FIRST_LISTENER.checked_add(number) else {
        return Err(NetFault::Bind);
    };
    match registry.register(&mut socket, Token(token), Interest::READABLE) {
        Ok(()) => Ok(socket),
        Err(_) => Err(NetFault::Poll),
    }
}

// TRUSTED: the next connection that waits at this socket.
fn take_from(socket: &TcpListener) -> Accepted<TcpStream> {
    match socket.accept() {
        Ok((stream, _)) => {
            // Small answers are sent at once; where the system refuses that, they are sent all the
            // same.
            let _ = stream.set_nodelay(true);
            keep_alive(stream.as_raw_fd());
            Accepted::Stream(stream)
        }
        Err(e) => match e.kind() {
            ErrorKind::WouldBlock => Accepted::Empty,
            ErrorKind::Interrupted | ErrorKind::ConnectionAborted => Accepted::Again,
            _ => Accepted::Refused,
        },
    }
}

// TRUSTED: has the system ask from time to time whether the other end of an idle connection is
// there still, so that one that is gone without a word is closed. Where the system refuses that, it
// isn't asked for.
fn keep_alive(fd: RawFd) {
    let mut on = [0u8; 16];
    on[..4].copy_from_slice(&1i32.to_ne_bytes());
    let _ = unsafe { c::setsockopt(fd, c::SOL_SOCKET, c::SO_KEEPALIVE, &on, 4) };
}

// The port that the system chose for a socket; 0 where it doesn't say which.
fn chosen_port(socket: &TcpListener) -> u16 {
    match socket.local_addr() {
        Ok(address) => address.port(),
        Err(_) => 0,
    }
}

// What the system says of a socket.
fn note_of(event: &Event) -> Note {
    let Token(token) = event.token();
    let spot = match token.checked_sub(FIRST_LISTENER) {
        Some(number) => Spot::Listener(number),
        None => Spot::Stream(token),
    };
    let is_ended = event.is_read_closed() || event.is_error();
    Note {
        spot,
        is_readable: event.is_readable() || is_ended,
        is_writable: event.is_writable() || event.is_error(),
        is_ended,
    }
}

impl<R: Clock, A: Allocator> Time for SocketNetwork<R, A> {
    fn now_after(&self, before: u64) -> u64 {
        now_after(&self.rt, before)
    }
}

impl<R: Net + Clock, A: Allocator + Copy> Network for SocketNetwork<R, A> {
    type Listener = SocketListener;

    type Stream = SocketWire;

    ghost bound = { λ n. n.bound.items };

    ghost number = { λ l. l.number };

    fn bind(&mut self, host: &str, port: u16) -> Result<SocketListener, NetFault> {
        let endpoint = Endpoint::new(self.alloc, host, port)?;
        self.bound.reserve(1)?;
        let number = self.bound.len();
        let socket = listen_at(&self.rt, self.poll.registry(), host, port, number)?;
        self.bound.push_reserved(endpoint);
        Ok(SocketListener { socket, number })
    }

    fn port(&self, listener: &SocketListener) -> u16 {
        match self.bound.get(listener.number) {
            Some(endpoint) if endpoint.port() != 0 => endpoint.port(),
            _ => chosen_port(&listener.socket),
        }
    }

    fn accept(&mut self, listener: &SocketListener) -> Accepted<SocketWire> {
        match take_from(&listener.socket) {
            Accepted::Stream(stream) => Accepted::Stream(SocketWire {
                stream,
                listener: listener.number,
                is_full: false,
                has_ended: false,
            }),
            Accepted::Again => Accepted::Again,
            Accepted::Empty => Accepted::Empty,
            Accepted::Refused => Accepted::Refused,
        }
    }

    fn watch(&mut self, stream: &mut SocketWire, key: usize) -> Result<(), NetFault> {
        if key >= FIRST_LISTENER {
            return Err(NetFault::Poll);
        }
        let both = Interest::READABLE | Interest::WRITABLE;
        let registry = self.poll.registry();
        match registry.register(&mut stream.stream, Token(key), both) {
            Ok(()) => Ok(()),
            Err(_) => Err(NetFault::Poll),
        }
    }

    fn close(&mut self, stream: SocketWire) {
        let mut closing = stream;
        // What the system refuses here, it ends itself when the stream is closed.
        let _ = self.poll.registry().deregister(&mut closing.stream);
    }

    fn wait<B: Allocator>(
        &mut self,
        most: Duration,
        notes: &mut Vec<Note, B>,
    ) -> Result<(), NetFault> {
        notes.clear();
        // Room first: what the system has reported it won't report again.
        notes.reserve(EVENTS)?;
        match self.poll.poll(&mut self.events, Some(most)) {
            Ok(()) => {}
            Err(e) if e.kind() == ErrorKind::Interrupted => return Ok(()),
            Err(_) => return Err(NetFault::Poll),
        }
        for event in &self.events {
            notes.push(note_of(event))?;
        }
        Ok(())
    }
}

impl Wire for SocketWire {
    ghost use Rattle.relay_sockets.specs.Endpoints.{CameAt};

    ghost origin = { λ w. CameAt w.listener };

    ghost refuses = { λ w. w.is_full };

    ghost has_ended = { λ w. w.has_ended };

    fn get(&mut self, piece: &mut [u8], _most: Duration) -> Moved {
        let mut stream = &self.stream;
        let got = wire::got(stream.read(piece));
        if let Moved::Ended = got {
            self.has_ended = true;
        }
        got
    }

    fn put(&mut self, bytes: &[u8], _most: Duration) -> Moved {
        let mut stream = &self.stream;
        let put = wire::put(stream.write(bytes));
        self.is_full = matches!(put, Moved::None);
        put
    }
}
