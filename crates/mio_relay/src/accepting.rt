//! Connections that come in.

ghost use Rattle.std.specs.Prelude.{◌≡◌, IsSomeAnd, slice_get};
ghost use Rattle.relay_sockets.specs.Accepting.{IfStream};
ghost use Rattle.relay_sockets.specs.Endpoints.{CameAt};
ghost use Rattle.mio_relay.specs.Connections.{IsServed};
ghost use Rattle.mio_relay.specs.Loops.{Stays, TakesIn};

use crate::connection::{Connection, ConnectionParts};
use crate::connections::VacantKey;
use crate::in_loop::InLoop;
use crate::listener::{Listener, peer_at};
use disk_files::Dir;
use relay_sockets::{Accepted, Network};
use std::alloc::{AllocError, Allocator};
use std::sync::Wait;

impl<N: Network + Drop, D: Dir + Drop, A: Allocator + Copy> InLoop<N, D, A> {
    // Takes in the connections that wait.
    pub(crate) fn accept_all<R: Wait>(&mut self, rt: &R)
        ensures stays { Stays self.old self.new }
        ensures takes { TakesIn self.old self.new }
    {
        for place in 0..self.listeners.len() {
            self.accept_at(rt, place);
        }
    }

    // Takes in the connections that wait at one source, at most so many as a loop has.
    fn accept_at<R: Wait>(&mut self, rt: &R, place: usize)
        ensures stays { Stays self.old self.new }
        ensures takes { TakesIn self.old self.new }
    {
        for _ in 0..self.most {
            if !self.accept_one(rt, place) {
                return;
            }
        }
    }

    // Takes the next connection in that waits at one source; whether there may be more. Where the
    // loop has as many as it may, they wait there until one closes.
    fn accept_one<R: Wait>(&mut self, rt: &R, place: usize) -> bool
        ensures stays { Stays self.old self.new }
        ensures takes { TakesIn self.old self.new }
    {
        if self.connections.count() >= self.most {
            return false;
        }
        match self.next_at(place) {
            Accepted::Stream(stream) => {
                // Without memory the connection is closed at once.
                let _ = self.admit(rt, place, stream);
                true
            }
            Accepted::Again => true,
            Accepted::Empty => false,
            // The system has no more sockets for now: the next turn tries again.
            Accepted::Refused => false,
        }
    }

    // The next connection that waits at one source.
    fn next_at(&mut self, place: usize) -> Accepted<N::Stream>
        ensures came { IfStream result (λ stream. N.Stream.origin stream ≡ CameAt place) }
        ensures stays { Stays self.old self.new }
        ensures takes { TakesIn self.old self.new }
    {
        next_of(&mut self.network, &self.listeners, &mut self.ready, place)
    }

    // Takes a connection in that came to this source.
    fn admit<R: Wait>(&mut self, rt: &R, place: usize, stream: N::Stream) -> Result<(), AllocError>
        requires { N.Stream.origin stream ≡ CameAt place }
        ensures stays { Stays self.old self.new }
        ensures takes { TakesIn self.old self.new }
    {
        let Some(key) = self.connections.make_room()? else {
            return Ok(());
        };
        let mut stream = stream;
        if key.watch(&mut self.network, &mut stream).is_err() {
            return Ok(());
        }
        self.begin(rt, key, place, stream)
    }

    // Begins a connection that came to this source, at this key.
    fn begin<R: Wait>(
        &mut self,
        rt: &R,
        key: VacantKey,
        place: usize,
        stream: N::Stream,
    ) -> Result<(), AllocError>
        requires { N.Stream.origin stream ≡ CameAt place }
        ensures stays { Stays self.old self.new }
        ensures takes { TakesIn self.old self.new }
    {
        let nonce = self.nonces.draw();
        let Some(peer) = peer_at(self.alloc, &self.listeners, place, nonce)? else {
            return Ok(());
        };
        let time = self.time;
        self.put(rt, key, Connection::new(stream, peer, place, time));
        Ok(())
    }

    // Puts a connection that comes at this time at its key, where none is.
    fn put<R: Wait>(&mut self, rt: &R, key: VacantKey, connection: Connection<N::Stream, A>)
        requires served { IsServed self.old.sources connection }
        requires now { connection.came ≡ self.old.time }
        ensures stays { Stays self.old self.new }
        ensures takes { TakesIn self.old self.new }
    {
        if let Some(other) = self.connections.put(key, connection) {
            let ConnectionParts { stream: _, peer } = other.into_parts();
            peer.end(rt, &mut self.lanes);
        }
    }
}

// The next connection that waits at the source with this place, if some may wait there.
fn next_of<N: Network + Drop, A: Allocator>(
    network: &mut N,
    listeners: &[Listener<N, A>],
    ready: &mut [bool],
    place: usize,
) -> Accepted<N::Stream>
    ensures bound { N.bound network.new ≡ N.bound network.old }
    ensures time { N.time network.new ≡ N.time network.old }
    ensures came { IfStream result
        (λ stream. IsSomeAnd (slice_get listeners.now place)
        (λ listener. N.Stream.origin stream ≡ CameAt listener.number)) }
{
    if !matches!(ready.get(place), Some(true)) {
        return Accepted::Empty;
    }
    let Some(listener) = listeners.get(place) else {
        return Accepted::Empty;
    };
    let accepted = network.accept(listener.socket());
    note_accepted(&accepted, ready, place);
    accepted
}

// Notes that none waits at this source any more, where that was said.
fn note_accepted<S>(accepted: &Accepted<S>, ready: &mut [bool], place: usize) {
    if let Accepted::Empty = accepted
        && let Some(ready) = ready.get_mut(place)
    {
        *ready = false;
    }
}
