//! A client's connection: its stream, its session, and what is known of the stream.

ghost use Rattle.std.specs.Prelude.{ℕ, ◌≡◌, ◌≤◌, ◌+◌, ◌⊎◌, ◌↔◌, Err, IsErr, IsTrue, Ok, OnErr, OnOk, false, true, length, take};
ghost use Rattle.loop_core.specs.Lanes.{KeepsLanes, NoneLater};
ghost use Rattle.loop_core.specs.declared.fault.LoopFault.TheVariants as ends;
ghost use Rattle.mio_relay.specs.Holding.{held_by};
ghost use Rattle.mio_relay.specs.Connections.{AreReceived, Brings, ConnectionState, IsDone, IsFlushed, IsLate, IsReceived, IsSameConnection, IsSettled, IsWrittenOn, MayClose, MayRead, most_pieces};

use ack_receipt::Numbers;
use disk_files::Dir;
use loop_core::{Lanes, LoopFault, Peer};
use relay_notices::Closing;
use relay_sockets::{Moved, Wire};
use std::alloc::Allocator;
use std::marker::Model;
use std::sync::Wait;
use std::time::Duration;

/// The numbers of deliveries have run out.
///
/// It can be neither copied nor dropped: nothing else ends it than becoming the fault of a loop.
pub struct NoNumber(());

impl From<NoNumber> for LoopFault {
    ghost use Rattle.std.specs.Prelude.{◌≡◌};

    ghost from_gives = { λ _ e. e ≡ ends.NoNumber };

    fn from(none: NoNumber) -> LoopFault {
        let NoNumber(()) = none;
        LoopFault::NoNumber
    }
}

/// A connection with more bytes outgoing than this isn't read.
const MOST_OUTGOING: usize = 1_048_576;

/// How many pieces a turn reads from a connection; then the others have their turn.
const MOST_PIECES: usize = 4;

/// How long a client has to show the key, in milliseconds.
const TIME_FOR_PING: u64 = 10_000;

/// A client's stream with its session. Contracts see where and when the stream came in and what
/// went over it, the session, whether the stream failed, and whether it answered that it takes no
/// bytes for now, or that its client has ended its sending.
///
/// It is no `Drop`, as its session isn't: `into_parts` ends it.
pub struct Connection<S: Wire, A: Allocator> {
    stream: S,
    peer: Peer<A>,
    // Bytes may be there to be read.
    is_readable: bool,
    // The client sends nothing more, once what is there was read.
    is_read_closed: bool,
    // All was read that the client will ever send.
    has_ended: bool,
    // The stream takes no bytes for now.
    is_blocked: bool,
    // The stream failed.
    is_broken: bool,
    // The place of the source at which it came in: there it is told of.
    source: usize,
    // When it came in, by the time of the loop, in milliseconds.
    came: u64,
    // It held most of what isn't whole, of which there was too much.
    is_shed: bool,
}

impl<S: Wire, A: Allocator> Model for Connection<S, A> {
    ghost use Rattle.std.specs.Prelude.{◌≡◌, true};
    ghost use Rattle.mio_relay.specs.Connections.{ConnectionState};

    ghost Value = { ConnectionState };

    ghost view = { λ c. record {
      origin = S.origin c.stream;
      came = c.came;
      traffic = S.traffic c.stream;
      peer = c.peer;
      is_broken = c.is_broken;
      is_blocked = S.refuses c.stream;
      has_ended = S.has_ended c.stream;
    } };

    // What is known of the stream is what it answered.
    ghost invariant = { λ c. (c.is_blocked ≡ true → S.refuses c.stream ≡ true)
        × (c.has_ended ≡ true → S.has_ended c.stream ≡ true) };
}

/// What a connection was made of.
pub struct ConnectionParts<S: Wire, A: Allocator> {
    pub stream: S,
    pub peer: Peer<A>,
}

impl<S: Wire, A: Allocator + Copy> Connection<S, A> {
    /// A stream that was just accepted, with its session, at the source with this place, and at
    /// this time in milliseconds.
    pub fn new(stream: S, peer: Peer<A>, source: usize, time: u64) -> Self
        ensures { result ≡ record {
          origin = S.origin stream;
          came = time;
          traffic = S.traffic stream;
          peer = peer;
          is_broken = false;
          is_blocked = S.refuses stream;
          has_ended = S.has_ended stream;
        } }
    {
        Connection {
            stream,
            peer,
            is_readable: true,
            is_read_closed: false,
            has_ended: false,
            is_blocked: false,
            is_broken: false,
            source,
            came: time,
            is_shed: false,
        }
    }

    /// The place of the source at which it is told of.
    pub fn source(&self) -> usize {
        self.source
    }

    /// Why it is closed at this time, where the client is the cause.
    pub fn why(&self, time: u64) -> Option<Closing> {
        match self.peer.why() {
            Some(closing) => Some(closing),
            None if self.is_shed => Some(Closing::HeldMost),
            None if self.is_late(time) => Some(Closing::LateKey),
            None => None,
        }
    }

    /// The network says that bytes can be read, or the end; or that bytes can be written.
    pub fn note(&mut self, is_readable: bool, is_writable: bool, is_ended: bool)
        ensures { self.new ≡ self.old }
    {
        if is_readable {
            self.is_readable = true;
        }
        if is_ended {
            self.is_read_closed = true;
        }
        if is_writable {
            self.is_blocked = false;
        }
    }

    /// Whether a piece is to be read now.
    pub fn wants_reading(&self) -> bool
        ensures { result ≡ true → MayRead self.now }
    {
        self.is_readable
            && !self.has_ended
            && !self.is_broken
            && !self.peer.is_closing()
            && self.peer.outgoing().len() <= MOST_OUTGOING
    }

    /// Reads up to four pieces, while there are some, and has each received before the next one is
    /// read.
    ///
    /// The error is that the numbers of deliveries have run out. Where what came may be lost for
    /// want of memory, the connection is to be closed: its client is to send again.
    pub fn read<R: Wait, D: Dir + Drop>(
        &mut self,
        rt: &R,
        alloc: A,
        piece: &mut [u8],
        lanes: &mut Lanes<D, A>,
        numbers: &mut Numbers,
    ) -> Result<(), NoNumber>
        ensures same { IsSameConnection self.old self.new }
        ensures lanes { KeepsLanes lanes.old lanes.new }
        ensures time { lanes.new.time ≡ lanes.old.time }
        // Nothing is read of a connection that wants no reading.
        ensures only { MayRead self.old ⊎ ((result ≡ Ok tt) × (self.new ≡ self.old)) }
        // Each piece that came was received, in order, and no more than a turn has for one
        // connection.
        ensures received { OnOk result
            ((pieces : ℕ) × (pieces ≤ most_pieces) × AreReceived pieces self.old self.new) }
        // Each message that was demanded got its number, unless the connection is to be closed.
        ensures numbered { OnOk result
            ((numbers.new + length self.old.peer.session.asked
            ≡ numbers.old + length self.new.peer.session.asked)
            ⊎ (self.new.is_broken ≡ true)) }
        ensures drawn { numbers.old ≤ numbers.new }
    {
        for _pieces in 0..MOST_PIECES {
            if !self.wants_reading() {
                return Ok(());
            }
            self.receive_piece(rt, alloc, piece, lanes, numbers)?;
        }
        Ok(())
    }

    // Reads a piece, if there is one, and has it received.
    fn receive_piece<R: Wait, D: Dir + Drop>(
        &mut self,
        rt: &R,
        alloc: A,
        piece: &mut [u8],
        lanes: &mut Lanes<D, A>,
        numbers: &mut Numbers,
    ) -> Result<(), NoNumber>
        ensures same { IsSameConnection self.old self.new }
        ensures lanes { KeepsLanes lanes.old lanes.new }
        ensures time { lanes.new.time ≡ lanes.old.time }
        ensures received { OnOk result (IsReceived self.old self.new) }
        ensures numbered { OnOk result
            ((numbers.new + length self.old.peer.session.asked
            ≡ numbers.old + length self.new.peer.session.asked)
            ⊎ (self.new.is_broken ≡ true)) }
        ensures drawn { numbers.old ≤ numbers.new }
    {
        let n = self.read_piece(piece);
        if n == 0 {
            return Ok(());
        }
        let received = self
            .peer
            .receive(rt, alloc, piece.split_at(n).0, lanes, numbers);
        self.heed(received)
    }

    // What came of a piece. Where some of it may be lost, nothing more is read.
    fn heed(&mut self, received: Result<(), LoopFault>) -> Result<(), NoNumber>
        ensures rest { self.new ≡ record self.old { is_broken = self.new.is_broken } }
        ensures ended { received ≡ Err ends.NoNumber → IsErr result }
        ensures lost { OnErr received (OnOk result (self.new.is_broken ≡ true)) }
    {
        match received {
            Err(LoopFault::NoNumber) => Err(NoNumber(())),
            Err(_) => {
                self.is_broken = true;
                Ok(())
            }
            Ok(()) => Ok(()),
        }
    }

    // Reads a piece, and says how many bytes it has; 0 where there is none.
    fn read_piece(&mut self, piece: &mut [u8]) -> usize
        ensures came { Brings self.old self.new (take result piece.new) }
        ensures within { result ≤ length piece.new }
    {
        match self.stream.get(piece, Duration::ZERO) {
            Moved::Some(n) => {
                // A short piece is all that there is for now.
                self.is_readable = n >= piece.len() || self.is_read_closed;
                return n;
            }
            Moved::None => self.is_readable = false,
            Moved::Again => {}
            Moved::Ended => self.has_ended = true,
            Moved::Broken => self.is_broken = true,
        }
        0
    }

    /// How many bytes of what isn't whole it holds; none where it is broken, since it is to be
    /// closed.
    pub fn held_len(&self) -> usize
        ensures { result ≡ held_by self.now }
    {
        if self.is_broken {
            return 0;
        }
        self.peer.held_len()
    }

    /// It is broken off, since it holds most of what isn't whole, of which there is too much.
    pub fn shed(&mut self)
        ensures { self.new ≡ record self.old { is_broken = true } }
    {
        self.is_broken = true;
        self.is_shed = true;
    }

    /// Ends the deliveries that have what they wait for.
    pub fn settle<R: Wait, D: Dir + Drop>(&mut self, rt: &R, alloc: A, lanes: &mut Lanes<D, A>)
        ensures same { IsSameConnection self.old self.new }
        ensures lanes { lanes.new ≡ lanes.old }
        ensures settled { NoneLater lanes.old.later → IsSettled self.new }
    {
        self.peer.settle(rt, alloc, lanes);
    }

    /// Writes what is outgoing, until the stream takes no more.
    pub fn write<R: Wait>(&mut self, rt: &R)
        ensures same { IsSameConnection self.old self.new }
        ensures waits { self.new.peer.waits ≡ self.old.peer.waits }
        ensures written { IsWrittenOn self.old self.new }
        ensures done { IsFlushed self.new }
    {
        for _ in rt.forever() {
            if self.is_blocked || self.is_broken || self.peer.outgoing().is_empty() {
                return;
            }
            self.write_some();
        }
        unreachable!()
    }

    fn write_some(&mut self)
        ensures same { IsSameConnection self.old self.new }
        ensures waits { self.new.peer.waits ≡ self.old.peer.waits }
        ensures written { IsWrittenOn self.old self.new }
    {
        self.is_blocked = false;
        match self.stream.put(self.peer.outgoing(), Duration::ZERO) {
            Moved::Some(n) => self.peer.sent(n),
            Moved::None => self.is_blocked = true,
            Moved::Again => {}
            Moved::Ended | Moved::Broken => self.is_broken = true,
        }
    }

    /// Whether the connection is to be closed at this time, in milliseconds: it is done, or its
    /// client hasn't shown the key that it had ten seconds to show.
    pub fn is_over(&self, time: u64) -> bool
        ensures may { result ≡ true → MayClose time self.now }
        ensures late { result ≡ false → IsLate time self.now → ⊥ }
    {
        self.is_late(time) || self.is_done()
    }

    // Whether its client hasn't shown the key that it has to show, and the time for that is over.
    fn is_late(&self, time: u64) -> bool
        ensures { IsTrue result ↔ IsLate time self.now }
    {
        self.peer.awaits_ping() && time.saturating_sub(self.came) > TIME_FOR_PING
    }

    // Whether the stream failed; or nothing more is read, and all was written that the client
    // takes. A client that ended its own sending is waited for, for as long as it takes.
    fn is_done(&self) -> bool
        ensures { result ≡ true → IsDone self.now }
    {
        if self.peer.is_waiting() {
            return false;
        }
        if self.is_broken {
            return true;
        }
        if self.peer.is_closing() {
            return self.is_blocked || self.peer.outgoing().is_empty();
        }
        self.has_ended && self.peer.outgoing().is_empty()
    }

    /// The stream and the session, each to be ended.
    pub fn into_parts(self) -> ConnectionParts<S, A>
        ensures origin { S.origin result.stream ≡ self.origin }
        ensures peer { result.peer ≡ self.peer }
    {
        let Connection {
            stream,
            peer,
            is_readable: _,
            is_read_closed: _,
            has_ended: _,
            is_blocked: _,
            is_broken: _,
            source: _,
            came: _,
            is_shed: _,
        } = self;
        ConnectionParts { stream, peer }
    }
}
