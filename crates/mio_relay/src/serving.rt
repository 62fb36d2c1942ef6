//! The connections of a loop: what is ready, read, answered, written and closed.

ghost use Rattle.std.specs.Prelude.{◌≡◌, ◌≤◌, ◌+◌, Err, length, IfErr, IfSome, OnOk};
ghost use Rattle.loop_core.specs.Lanes.{NoneLater};
ghost use Rattle.mio_relay.specs.Faults.{IsReason, of_network};
ghost use Rattle.mio_relay.specs.Holding.{ShedsMost, held_in, most_held};
ghost use Rattle.mio_relay.specs.Loops.{Rests, Stays, TakesIn};
ghost use Rattle.mio_relay.specs.Turning.{AreNumbered, at_key, EachKey, MayLose, StandOn};
ghost use Rattle.mio_relay.specs.Connections.{AreFlushed, AreFlushedBelow, AreInTime, AreInTimeBelow, AreSettled, AreSettledBelow, GoOn};

use crate::connection::{Connection, ConnectionParts, NoNumber};
use crate::connections::Connections;
use crate::holding::MOST_HELD;
use crate::in_loop::InLoop;
use crate::listener::loop_fault;
use disk_files::Dir;
use loop_core::LoopFault;
use relay_notices::{Notice, Teller};
use relay_sockets::{Network, Note, Spot, Wire};
use std::alloc::Allocator;
use std::sync::Wait;
use std::time::Duration;

/// How long a turn waits for sockets, in milliseconds.
const LONGEST_WAIT: u64 = 10;

impl<N: Network + Drop, D: Dir + Drop, A: Allocator + Copy> InLoop<N, D, A> {
    // Waits for sockets, unless some are known to be ready, and notes which are.
    pub(crate) fn wait(&mut self) -> Result<(), LoopFault>
        ensures stays { Stays self.old self.new }
        ensures came { IfErr result (IsReason self.new.lanes.fault) }
        ensures refused { IfSome self.old.refusal (λ fault. result ≡ Err (of_network fault)) }
        ensures stands { StandOn self.old.connections self.new.connections }
        ensures time { self.new.time ≡ self.old.time }
    {
        let most = if self.is_busy() { 0 } else { LONGEST_WAIT };
        match self
            .network
            .wait(Duration::from_millis(most), &mut self.notes)
        {
            Ok(()) => {
                self.note_all();
                Ok(())
            }
            Err(fault) => Err(loop_fault(fault)),
        }
    }

    // Whether a connection is known to have more to be read.
    fn is_busy(&self) -> bool {
        if self.lanes.have_pendings() {
            return false;
        }
        for key in 0..self.connections.key_end() {
            if self.connections.wants_reading(key) {
                return true;
            }
        }
        false
    }

    // Notes what the network said.
    fn note_all(&mut self)
        ensures stays { Stays self.old self.new }
        ensures stands { StandOn self.old.connections self.new.connections }
        ensures time { self.new.time ≡ self.old.time }
    {
        note_all(&self.notes, &mut self.ready, &mut self.connections);
    }

    // Reads what came from each connection, a few pieces at most. The error is that the numbers of
    // deliveries have run out.
    pub(crate) fn read_all<R: Wait>(&mut self, rt: &R) -> Result<(), NoNumber>
        ensures stays { Stays self.old self.new }
        ensures takes { TakesIn self.old self.new }
    {
        for key in 0..self.connections.key_end() {
            self.read_from(rt, key)?;
        }
        Ok(())
    }

    fn read_from<R: Wait>(&mut self, rt: &R, key: usize) -> Result<(), NoNumber>
        ensures stays { Stays self.old self.new }
        ensures takes { TakesIn self.old self.new }
        ensures numbered { OnOk result
            (AreNumbered self.old.numbers self.new.numbers (at_key self.old.connections key)
            (at_key self.new.connections key)) }
    {
        self.connections.read(
            key,
            rt,
            self.alloc,
            &mut self.piece,
            &mut self.lanes,
            &mut self.numbers,
        )
    }

    // Ends the deliveries that have what they wait for.
    pub(crate) fn settle_all<R: Wait>(&mut self, rt: &R)
        ensures stays { Stays self.old self.new }
        ensures takes { TakesIn self.old self.new }
        ensures lanes { self.new.lanes ≡ self.old.lanes }
        ensures settled { NoneLater self.old.lanes.later → AreSettled self.new.connections }
    {
        for key in 0..self.connections.key_end() {
            self.settle_at(rt, key);
        }
    }

    fn settle_at<R: Wait>(&mut self, rt: &R, key: usize)
        ensures stays { Stays self.old self.new }
        ensures takes { TakesIn self.old self.new }
        ensures lanes { self.new.lanes ≡ self.old.lanes }
        ensures keys { length self.new.connections ≡ length self.old.connections }
        ensures settled { NoneLater self.old.lanes.later → AreSettledBelow key self.old.connections
            → AreSettledBelow (key + 1) self.new.connections }
    {
        self.connections
            .settle(key, rt, self.alloc, &mut self.lanes);
    }

    // Writes what is outgoing.
    pub(crate) fn write_all<R: Wait>(&mut self, rt: &R)
        ensures stays { Stays self.old self.new }
        ensures takes { TakesIn self.old self.new }
        ensures lanes { self.new.lanes ≡ self.old.lanes }
        ensures settled { AreSettled self.old.connections → AreSettled self.new.connections }
        ensures flushed { AreFlushed self.new.connections }
    {
        for key in 0..self.connections.key_end() {
            self.write_to(rt, key);
        }
    }

    fn write_to<R: Wait>(&mut self, rt: &R, key: usize)
        ensures stays { Stays self.old self.new }
        ensures takes { TakesIn self.old self.new }
        ensures lanes { self.new.lanes ≡ self.old.lanes }
        ensures settled { AreSettled self.old.connections → AreSettled self.new.connections }
        ensures keys { length self.new.connections ≡ length self.old.connections }
        ensures flushed { AreFlushedBelow key self.old.connections
            → AreFlushedBelow (key + 1) self.new.connections }
    {
        self.connections.write(key, rt);
    }

    // Closes the connections that are over at this time.
    pub(crate) fn close_all<R: Wait>(&mut self, rt: &R)
        ensures stays { Stays self.old self.new }
        ensures loses { EachKey (MayLose self.old.time) self.old.connections self.new.connections }
        ensures rests { Rests self.old self.new }
        ensures time { self.new.time ≡ self.old.time }
        ensures in_time { AreInTime self.old.time self.new.connections }
    {
        for key in 0..self.connections.key_end() {
            self.close(rt, key);
        }
    }

    fn close<R: Wait>(&mut self, rt: &R, key: usize)
        ensures stays { Stays self.old self.new }
        ensures loses { EachKey (MayLose self.old.time) self.old.connections self.new.connections }
        ensures rests { Rests self.old self.new }
        ensures time { self.new.time ≡ self.old.time }
        ensures keys { length self.new.connections ≡ length self.old.connections }
        ensures in_time { AreInTimeBelow self.old.time key self.old.connections
            → AreInTimeBelow self.old.time (key + 1) self.new.connections }
    {
        if let Some(connection) = self.connections.take(key, self.time) {
            tell_closed(rt, &self.clients, &connection, self.time);
            let ConnectionParts { stream, peer } = connection.into_parts();
            self.network.close(stream);
            peer.end(rt, &mut self.lanes);
        }
    }

    // While connections hold too much of what isn't whole, breaks off the one that holds most of
    // it: the next turn closes it.
    pub(crate) fn shed<R: Wait>(&mut self, rt: &R)
        ensures stays { Stays self.old self.new }
        ensures stands { StandOn self.old.connections self.new.connections }
        ensures time { self.new.time ≡ self.old.time }
        ensures rests { Rests self.old self.new }
        ensures in_time { AreInTime self.old.time self.old.connections
            → AreInTime self.new.time self.new.connections }
        ensures held { held_in self.new.connections ≤ most_held }
    {
        for _ in rt.forever() {
            if self.connections.held() <= MOST_HELD {
                return;
            }
            self.shed_one();
        }
        unreachable!()
    }

    // Breaks off a connection that holds no less of what isn't whole than any other.
    fn shed_one(&mut self)
        ensures stays { Stays self.old self.new }
        ensures stands { StandOn self.old.connections self.new.connections }
        ensures time { self.new.time ≡ self.old.time }
        ensures rests { Rests self.old self.new }
        ensures in_time { AreInTime self.old.time self.old.connections
            → AreInTime self.new.time self.new.connections }
        ensures most { ShedsMost self.old.connections self.new.connections }
    {
        let key = self.connections.heaviest();
        self.connections.shed(key);
    }
}

// A connection is closed at this time: it is told, where there is something to tell.
fn tell_closed<R: Wait, S: Wire, A: Allocator + Copy>(
    rt: &R,
    clients: &Teller<A>,
    connection: &Connection<S, A>,
    time: u64,
) {
    if let Some(closing) = connection.why(time) {
        clients.tell(rt, connection.source(), Notice::Closed(closing));
    }
}

// Notes what the network said.
fn note_all<S: Wire + Drop, A: Allocator + Copy>(
    notes: &[Note],
    ready: &mut [bool],
    connections: &mut Connections<S, A>,
)
    ensures goes { GoOn connections.old connections.new }
    ensures stands { StandOn connections.old connections.new }
{
    for note in notes {
        note_one(note, ready, connections);
    }
}

// Notes what the network said of a listener or a connection.
fn note_one<S: Wire + Drop, A: Allocator + Copy>(
    note: &Note,
    ready: &mut [bool],
    connections: &mut Connections<S, A>,
)
    ensures goes { GoOn connections.old connections.new }
    ensures stands { StandOn connections.old connections.new }
{
    match note.spot {
        Spot::Listener(place) => {
            if let Some(ready) = ready.get_mut(place) {
                *ready = true;
            }
        }
        Spot::Stream(key) => {
            connections.note(key, note.is_readable, note.is_writable, note.is_ended);
        }
    }
}
