//! The system's sockets that go out. What the system does can't be stated: `dial` is trusted to
//! hand it the endpoint that is noted beside the socket, and `disconnect` to break a connection
//! off.

ghost use Rattle.relay_sockets.specs.Traffics.{IsReadFrom, IsReadOff, IsWrittenTo, taking, unknown_traffic};
ghost use Rattle.std.specs.Prelude.{ℕ, ◌≡◌, false, true};

use crate::clock::{Time, now_after};
use crate::dialer::{Dialer, Unreached};
use crate::endpoint::Endpoint;
use crate::wire::{self, Moved, Wire};
use libc::net as c;
use std::alloc::{AllocError, Allocator};
use std::io::{ErrorKind, Read, Write};
use std::net::{IpAddr, Net, OpenStream, SocketAddr, TcpStream, ToSocketAddrs};
use std::os::fd::{AsRawFd, RawFd};
use std::time::{Clock, Duration};

/// How long an address may take to accept a connection, in milliseconds, before the next one is
/// tried.
const LONGEST_CONNECT: u64 = 10_000;

/// How many bytes of an address of no family the system reads.
const NOWHERE_LEN: u32 = 16;

/// Connects by the system.
pub struct SystemDialer<R, A: Allocator> {
    rt: R,
    alloc: A,
}

// By hand, so that crates above don't prove again how its parts end.
impl<R: Drop, A: Allocator> Drop for SystemDialer<R, A> {
    fn drop(self) {
        let SystemDialer { rt: _, alloc: _ } = self;
    }
}

/// A connection that went out, and the endpoint that was asked for.
///
/// A read says nothing of what the stream took, and a write nothing of what it has to give; so
/// nothing of it is known over both.
pub struct SystemWire<S, A: Allocator> {
    stream: S,
    asked: Endpoint<A>,
    // It took no byte for now when it was last written to.
    is_full: bool,
}

// By hand, so that crates above don't prove again how its parts end.
impl<S: Drop, A: Allocator> Drop for SystemWire<S, A> {
    fn drop(self) {
        let SystemWire {
            stream: _,
            asked: _,
            is_full: _,
        } = self;
    }
}

impl<R: Net + Clock, A: Allocator + Copy> SystemDialer<R, A> {
    /// Over the sockets, and with the clock, of this handle.
    pub fn new(rt: R, alloc: A) -> SystemDialer<R, A> {
        SystemDialer { rt, alloc }
    }
}

// TRUSTED: a connection to this host and port, at the first of its addresses that takes one; or why
// there is none, at the last of them.
fn dial<R: Net + Clock>(rt: &R, host: &str, port: u16, until: u64) -> Result<R::Stream, Unreached> {
    if let Ok(ip) = host.parse::<IpAddr>() {
        return connect_to(rt, &SocketAddr::new(ip, port), until);
    }
    let Ok(addresses) = (host, port).to_socket_addrs(rt) else {
        return Err(Unreached::NoAddress);
    };
    let mut last = Unreached::NoAddress;
    for address in addresses {
        match connect_to(rt, &address, until) {
            Ok(stream) => return Ok(stream),
            Err(why) => last = why,
        }
    }
    Err(last)
}

// What the system says of a connection that it didn't make.
fn unreached(kind: ErrorKind) -> Unreached {
    match kind {
        ErrorKind::ConnectionRefused => Unreached::Refused,
        ErrorKind::TimedOut | ErrorKind::WouldBlock => Unreached::Late,
        _ => Unreached::Other,
    }
}

// TRUSTED: breaks a connection off by a reset. A connection to an address of no family ends one so
// on Linux, where std offers no SO_LINGER; where the system refuses it, the connection is closed as
// any other.
fn disconnect(fd: RawFd) {
    let nowhere = [0u8; c::_SS_SIZE];
    let _ = unsafe { c::connect(fd, &nowhere, NOWHERE_LEN) };
}

// How long the system is to wait: it takes no time of zero.
fn wait_of(most: Duration) -> Option<Duration> {
    Some(most.max(Duration::from_millis(1)))
}

// A connection to this address, if it takes one.
fn connect_to<R: Net + Clock>(
    rt: &R,
    address: &SocketAddr,
    until: u64,
) -> Result<R::Stream, Unreached> {
    let left = until.saturating_sub(now_after(rt, 0));
    let wait = Duration::from_millis(left.min(LONGEST_CONNECT).max(1));
    match TcpStream::connect_timeout(rt, address, wait) {
        Ok(stream) => Ok(stream),
        Err(error) => Err(unreached(error.kind())),
    }
}

impl<R: Clock, A: Allocator> Time for SystemDialer<R, A> {
    fn now_after(&self, before: u64) -> u64 {
        now_after(&self.rt, before)
    }
}

impl<R: Net + Clock, A: Allocator + Copy> Dialer for SystemDialer<R, A> {
    ghost use Rattle.std.specs.Prelude.{false};

    type Stream = SystemWire<R::Stream, A>;

    ghost is_known = { λ _. ⊥ };

    ghost takes = { λ _ _. false };

    fn connect(
        &self,
        host: &str,
        port: u16,
        until: u64,
    ) -> Result<Result<SystemWire<R::Stream, A>, Unreached>, AllocError> {
        let asked = Endpoint::new(self.alloc, host, port)?;
        match dial(&self.rt, host, port, until) {
            Ok(stream) => Ok(Ok(SystemWire {
                stream,
                asked,
                is_full: false,
            })),
            Err(why) => Ok(Err(why)),
        }
    }
}

impl<S: Read + Write + OpenStream + AsRawFd, A: Allocator> Wire for SystemWire<S, A> {
    ghost use Rattle.relay_sockets.specs.Endpoints.{WentTo};

    ghost origin = { λ w. WentTo w.asked };

    ghost refuses = { λ w. w.is_full };

    fn get(&mut self, piece: &mut [u8], most: Duration) -> Moved
        ensures origin { self.new.asked ≡ self.old.asked }
        ensures bytes { IsReadFrom unknown_traffic unknown_traffic piece.new result }
        ensures refuses { self.new.is_full ≡ self.old.is_full }
        ensures stream { IsReadOff (S.Read.remaining self.old.stream)
            (S.Read.remaining self.new.stream) piece.new result }
    {
        if self.stream.set_read_timeout(wait_of(most)).is_err() {
            return Moved::Broken;
        }
        wire::got(self.stream.read(piece))
    }

    fn put(&mut self, bytes: &[u8], most: Duration) -> Moved
        ensures origin { self.new.asked ≡ self.old.asked }
        ensures bytes { IsWrittenTo unknown_traffic unknown_traffic bytes.now result }
        ensures refused { result ≡ Moved.None → self.new.is_full ≡ true }
        ensures took { (n : ℕ) → result ≡ Moved.Some n → self.new.is_full ≡ false }
        ensures stream { IsWrittenTo (taking (S.Write.contents self.old.stream))
            (taking (S.Write.contents self.new.stream)) bytes.now result }
    {
        if self.stream.set_write_timeout(wait_of(most)).is_err() {
            return Moved::Broken;
        }
        let put = wire::put(self.stream.write(bytes));
        self.is_full = matches!(put, Moved::None);
        put
    }

    fn break_off(&self) {
        disconnect(self.stream.as_raw_fd());
    }
}
