//! A client's connection, without its socket.

ghost use Rattle.std.specs.Prelude.{◌≡◌, ◌≤◌, ◌<◌, ◌+◌, ◌⊎◌, ◌↔◌, ◌||◌, [], Bool, List, true, false, not, drop, length, map, vec_len, vec_capacity, All, Contains, None, IfOk, IfSome, OnOk, OnErr, IsTrue};
ghost use Rattle.ack_receipt.specs.Reservations.{Asked, asked_of};
ghost use Rattle.event_modes.specs.Reading.{meaning};
ghost use Rattle.loop_core.specs.Lanes.{KeepsLanes, NoneLater};
ghost use Rattle.loop_core.specs.Waits.{Awaited, HasEntries, awaited_by};
ghost use Rattle.loop_core.specs.Peers.{AreAmong, BecomeInOrder, Becomes, GoOnWaiting, IsEarned, IsFaithful, IsOwed, IsRead, IsTaken, OneMoreWaits, awaited_in, wants_close};
ghost use Rattle.std.specs.Arc.{arc_value};
ghost use Rattle.forward_core.specs.Handshakes.{IsHosted};
ghost use Rattle.forward_core.specs.Demands.{asked_in, wanted};
ghost use Rattle.forward_core.specs.Server.{IsAskedIn, Over, awaits_ping, initial_server};

use crate::fault::LoopFault;
use crate::{Collected, Lanes, Waiting};
use ack_receipt::{Delivery, DeliveryNo, Numbers, Reserved};
use disk_files::Dir;
use event_modes::{Message, ModeFault};
use forward_core::{Demand, Security, ServerSession, SessionError, SessionFault};
use relay_conf::BufferNo;
use relay_notices::Closing;
use relay_ports::{Branches, Inlet};
use std::alloc::{AllocError, Allocator};
use std::marker::Model;
use std::mem;
use std::sync::{Arc, Wait};

/// A client's session, the source that its messages come in at, and their deliveries that wait for
/// receipts, in order.
pub struct Peer<A: Allocator> {
    inlet: Arc<Inlet<A>, A>,
    session: ServerSession<A>,
    waiting: Vec<Waiting<A>, A>,
    // Nothing more is read.
    is_closing: bool,
    // Why, where the client is the cause.
    why: Option<Closing>,
}

impl<A: Allocator> Model for Peer<A> {
    ghost use Rattle.std.specs.Arc.{arc_value};
    ghost use Rattle.loop_core.specs.Peers.{PeerState, IsFaithful};

    ghost Value = { PeerState };

    ghost view = { λ p. record {
      entry = arc_value p.inlet;
      session = p.session;
      waits = p.waiting.items;
      closing = p.is_closing;
    } };

    ghost invariant = { λ p. IsFaithful
        (arc_value p.inlet) p.session.asked p.session.taken p.waiting.items };
}

impl<A: Allocator + Copy> Peer<A> {
    /// A connection to this source that was opened.
    ///
    /// The error is want of memory.
    pub fn open(
        alloc: A,
        inlet: &Arc<Inlet<A>, A>,
        security: Option<Security<'_>>,
        nonce: [u8; 16],
    ) -> Result<Peer<A>, AllocError>
        requires { IsHosted security }
        ensures { IfOk result
            (λ peer. peer ≡ record {
              entry = arc_value inlet.now;
              session = initial_server security.entry nonce;
              waits = [];
              closing = false;
            }) }
    {
        let session = ServerSession::open(alloc, security, nonce)?;
        let inlet = Arc::try_clone(inlet)?;
        Ok(Peer {
            inlet,
            session,
            waiting: Vec::new(alloc),
            is_closing: false,
            why: None,
        })
    }

    /// Takes a piece of what the client sent, and begins a delivery of each message that is whole
    /// now.
    ///
    /// A fault of the stream or the handshake ends the reading. `NoNumber`: the numbers of
    /// deliveries have run out. `Memory`: the connection is to be closed, since what came may be
    /// lost; what began before stands. After an error the session is as it was, or has read the
    /// piece: then of some of its messages no delivery began.
    pub fn receive<R: Wait, D: Dir + Drop>(
        &mut self,
        rt: &R,
        alloc: A,
        piece: &[u8],
        lanes: &mut Lanes<D, A>,
        numbers: &mut Numbers,
    ) -> Result<(), LoopFault>
        ensures entry { self.new.entry ≡ self.old.entry }
        ensures lanes { KeepsLanes lanes.old lanes.new }
        ensures time { lanes.new.time ≡ lanes.old.time }
        // No piece is passed over: it is read, unless the session met a fault before.
        ensures read { OnOk result (IsRead piece.now self.old.session self.new.session
            ⊎ ((self.old.session.phase ≡ Over) × (self.new.session ≡ self.old.session))) }
        ensures err { OnErr result ((self.new.session ≡ self.old.session)
            ⊎ IsRead piece.now self.old.session self.new.session) }
        // Each message that was demanded got its number.
        ensures numbered { OnOk result (numbers.new + length self.old.session.asked
            ≡ numbers.old + length self.new.session.asked) }
        // Whatever comes of it, the numbers don't go back.
        ensures drawn { numbers.old ≤ numbers.new }
        // After a fault of the stream or the handshake nothing more is read.
        ensures closes { OnOk result (self.new.session.phase ≡ Over → self.new.closing ≡ true) }
        ensures closed { self.old.closing ≡ true → self.new.closing ≡ true }
        ensures waits { GoOnWaiting self.old.waits self.new.waits }
    {
        let demands = match self.session.feed(piece) {
            Ok(demands) => demands,
            Err(SessionError::Memory) => return Err(LoopFault::Memory),
            Err(SessionError::Fault(_)) => {
                self.is_closing = true;
                return Ok(());
            }
        };
        self.deliver_all(rt, alloc, demands, lanes, numbers)
    }

    // Does what is demanded.
    fn deliver_all<R: Wait, D: Dir + Drop>(
        &mut self,
        rt: &R,
        alloc: A,
        demands: Vec<Demand<A>, A>,
        lanes: &mut Lanes<D, A>,
        numbers: &mut Numbers,
    ) -> Result<(), LoopFault>
        requires { All (λ demand. IsAskedIn self.old.session.asked (wanted demand)) demands.items }
        ensures entry { self.new.entry ≡ self.old.entry }
        ensures lanes { KeepsLanes lanes.old lanes.new }
        ensures time { lanes.new.time ≡ lanes.old.time }
        ensures session { self.new.session ≡ self.old.session }
        ensures numbered { OnOk result
            (numbers.new ≡ numbers.old + length (asked_in (map wanted demands.items))) }
        ensures drawn { numbers.old ≤ numbers.new }
        ensures closes { OnOk result
            (self.new.closing ≡ (self.old.closing || wants_close (map wanted demands.items))) }
        ensures closed { self.old.closing ≡ true → self.new.closing ≡ true }
        ensures waits { GoOnWaiting self.old.waits self.new.waits }
    {
        let mut rest = demands.into_iter();
        while let Some(demand) = rest.next() {
            match demand {
                Demand::Deliver(message) => self.deliver(rt, alloc, message, lanes, numbers)?,
                Demand::Close(fault) => self.close(fault),
            }
        }
        Ok(())
    }

    // Nothing more is read, for this fault of the client.
    fn close(&mut self, fault: SessionFault)
        ensures { self.new ≡ record self.old { closing = true } }
    {
        self.is_closing = true;
        self.why = Some(closing_of(fault));
    }

    // Begins the delivery of a message under a number of its own, unless its way is a loop. Where a
    // buffer refuses, it is abandoned.
    fn deliver<R: Wait, D: Dir + Drop>(
        &mut self,
        rt: &R,
        alloc: A,
        message: Message<A>,
        lanes: &mut Lanes<D, A>,
        numbers: &mut Numbers,
    ) -> Result<(), LoopFault>
        requires { Contains self.old.session.asked (asked_of (meaning message)) }
        ensures entry { self.new.entry ≡ self.old.entry }
        ensures session { self.new.session ≡ self.old.session }
        ensures lanes { KeepsLanes lanes.old lanes.new }
        ensures time { lanes.new.time ≡ lanes.old.time }
        ensures numbered { OnOk result (numbers.new ≡ numbers.old + 1) }
        ensures drawn { numbers.old ≤ numbers.new }
        ensures closing { self.new.closing ≡ self.old.closing }
        ensures waits { (self.new.waits ≡ self.old.waits)
            ⊎ OneMoreWaits self.old.waits self.new.waits }
    {
        let Some(number) = numbers.draw() else {
            return Err(LoopFault::NoNumber);
        };
        let waiting = &mut self.waiting;
        begin(rt, alloc, &self.inlet, number, message, waiting, lanes)
    }

    /// Answers, in the order of their messages, the deliveries that have all their receipts, and
    /// ends those that a buffer refused. Without memory for an answer, or to wait on, nothing more
    /// is read: the client is to send again.
    pub fn settle<R: Wait, D: Dir + Drop>(&mut self, rt: &R, alloc: A, lanes: &mut Lanes<D, A>)
        ensures entry { self.new.entry ≡ self.old.entry }
        ensures lanes { lanes.new ≡ lanes.old }
        // What waits on waited before: nothing, where no buffer's receipts come later.
        ensures waited { AreAmong (awaited_in self.old.waits) self.new.waits }
        ensures ended { NoneLater lanes.old.later → self.new.waits ≡ [] }
        // None is answered behind one that waits on, and none ends without an answer but where a
        // buffer refused it, or nothing more is read.
        ensures order { BecomeInOrder self.old.waits
            (record { left = []; session = self.old.session; closing = self.old.closing })
            (record {
              left = self.new.waits;
              session = self.new.session;
              closing = self.new.closing;
            }) }
        ensures closed { self.old.closing ≡ true → self.new.closing ≡ true }
    {
        let list = mem::replace(&mut self.waiting, Vec::new(alloc));
        let later = settle_all(
            rt,
            alloc,
            &self.inlet,
            &mut self.session,
            &mut self.is_closing,
            list,
            lanes,
        );
        let none = mem::replace(&mut self.waiting, later);
        none.destroy_empty();
    }

    /// What is to be sent.
    pub fn outgoing(&self) -> &[u8]
        ensures { result.now ≡ self.now.session.outgoing }
    {
        self.session.outgoing()
    }

    /// The first n bytes of what is outgoing were sent.
    pub fn sent(&mut self, n: usize)
        requires { n ≤ length self.old.session.outgoing }
        ensures { self.new ≡ record
            self.old {
              session = record
                  self.old.session { outgoing = drop n self.old.session.outgoing };
            } }
    {
        self.session.sent(n);
    }

    /// Whether nothing more is read: send what is outgoing, and close the connection.
    pub fn is_closing(&self) -> bool
        ensures { result ≡ self.now.closing }
    {
        self.is_closing
    }

    /// Why nothing more is read, where the client is the cause.
    pub fn why(&self) -> Option<Closing> {
        self.why
    }

    /// Whether its client hasn't shown the key that it has to show.
    pub fn awaits_ping(&self) -> bool
        ensures { result ≡ awaits_ping self.now.session.phase }
    {
        self.session.awaits_ping()
    }

    /// How many bytes it holds of what isn't whole.
    pub fn held_len(&self) -> usize
        ensures { result ≡ length self.now.session.held }
    {
        self.session.held_len()
    }

    /// Whether deliveries wait for receipts.
    pub fn is_waiting(&self) -> bool
        ensures { IsTrue result ↔ (0 < length self.now.waits) }
    {
        !self.waiting.is_empty()
    }

    /// Each answer that the session took names the tag and the buffers that its message had to be
    /// stored under and in, by the relay's matches and the connection's source. The call does
    /// nothing: it stands for what the type keeps.
    pub fn answers_are_earned(&self)
        ensures { All (IsEarned self.now.entry) self.now.session.taken }
    {
        let _ = &self.session;
    }

    /// Ends the connection; what waits is abandoned.
    pub fn end<R: Wait, D: Dir + Drop>(self, rt: &R, lanes: &mut Lanes<D, A>)
        ensures { lanes.new ≡ lanes.old }
    {
        let Peer {
            inlet: _,
            session: _,
            waiting,
            is_closing: _,
            why: _,
        } = self;
        abandon_all(rt, waiting, lanes);
    }
}

// What is told of a client whose session was ended by this fault.
fn closing_of(fault: SessionFault) -> Closing {
    match fault {
        SessionFault::BadStream(ModeFault::Compressed) => Closing::Compressed,
        SessionFault::Handshake(_) => Closing::WrongKey,
        SessionFault::BadStream(_) | SessionFault::BadAck | SessionFault::Closed => {
            Closing::BadStream
        }
    }
}

// Begins the delivery of a message that comes in here, unless its way is a loop. It waits behind
// the others, but where a buffer refuses it.
fn begin<R: Wait, D: Dir + Drop, A: Allocator + Copy>(
    rt: &R,
    alloc: A,
    inlet: &Inlet<A>,
    number: DeliveryNo,
    message: Message<A>,
    waiting: &mut Vec<Waiting<A>, A>,
    lanes: &mut Lanes<D, A>,
) -> Result<(), LoopFault>
    ensures lanes { KeepsLanes lanes.old lanes.new }
    ensures time { lanes.new.time ≡ lanes.old.time }
    ensures waits { (waiting.new.items ≡ waiting.old.items)
        ⊎ ((more : OneMoreWaits waiting.old.items waiting.new.items)
        × ((asked : List Asked) → Contains asked (asked_of (meaning message))
        → IsOwed inlet.now asked more.one)) }
{
    match inlet.branches(alloc, &message) {
        Ok(Some(branches)) => begin_to(rt, alloc, number, message, branches, waiting, lanes),
        Ok(None) => Ok(()),
        Err(_) => Err(LoopFault::Memory),
    }
}

// Begins the delivery of a message that goes there.
fn begin_to<R: Wait, D: Dir + Drop, A: Allocator + Copy>(
    rt: &R,
    alloc: A,
    number: DeliveryNo,
    message: Message<A>,
    branches: Branches<A>,
    waiting: &mut Vec<Waiting<A>, A>,
    lanes: &mut Lanes<D, A>,
) -> Result<(), LoopFault>
    requires entries { (0 < length message.entries) ⊎ (branches.buffers.items ≡ []) }
    requires same { map (λ leaf. leaf.buffer) branches.leaves.items
        ≡ map (λ buffer. buffer.0) branches.buffers.items }
    ensures lanes { KeepsLanes lanes.old lanes.new }
    ensures time { lanes.new.time ≡ lanes.old.time }
    ensures waits { (waiting.new.items ≡ waiting.old.items)
        ⊎ ((more : OneMoreWaits waiting.old.items waiting.new.items)
        × (more.one.awaited ≡ record {
          number = number;
          asked = asked_of (meaning message);
          tag = branches.tag;
          leaves = branches.leaves.items;
        })) }
{
    let Ok(reserved) = room_for(alloc, &message, waiting) else {
        return Err(LoopFault::Memory);
    };
    let Some((delivery, buffers)) = opened(alloc, number, message, branches) else {
        return Err(LoopFault::Memory);
    };
    store(rt, delivery, reserved, buffers, waiting, lanes);
    Ok(())
}

// Room for the answer to a message, and for its delivery to wait.
fn room_for<A: Allocator + Copy>(
    alloc: A,
    message: &Message<A>,
    waiting: &mut Vec<Waiting<A>, A>,
) -> Result<Reserved<A>, AllocError>
    ensures reserved { IfOk result
        (λ reserved. reserved
        ≡ record { asked = asked_of (meaning message.now); filled = None }) }
    ensures room { OnOk result (vec_len waiting.new < vec_capacity waiting.new) }
    ensures items { waiting.new.items ≡ waiting.old.items }
{
    let reserved = Reserved::for_message(alloc, message)?;
    waiting.reserve(1)?;
    Ok(reserved)
}

// The delivery of a message that goes there, and the buffers that have to store it.
fn opened<A: Allocator + Copy>(
    alloc: A,
    number: DeliveryNo,
    message: Message<A>,
    branches: Branches<A>,
) -> Option<(Delivery<A>, Vec<BufferNo, A>)>
    ensures delivery { IfSome result
        (λ opened. opened.0 ≡ record {
          number = number;
          message = meaning message;
          tag = branches.tag;
          leaves = branches.leaves.items;
          receipts = [];
        }) }
    ensures buffers { IfSome result (λ opened. opened.1 ≡ branches.buffers) }
{
    let Branches {
        tag,
        buffers,
        leaves,
    } = branches;
    match Delivery::begin_as(alloc, number, message, tag.as_bytes(), leaves) {
        Ok(delivery) => Some((delivery, buffers)),
        Err(_) => None,
    }
}

// Appends a delivery to these buffers, and lets it wait behind the others. Where a buffer refuses,
// it is abandoned.
fn store<R: Wait, D: Dir + Drop, A: Allocator + Copy>(
    rt: &R,
    delivery: Delivery<A>,
    reserved: Reserved<A>,
    buffers: Vec<BufferNo, A>,
    waiting: &mut Vec<Waiting<A>, A>,
    lanes: &mut Lanes<D, A>,
)
    requires reserved { reserved ≡ record { asked = asked_of delivery.message; filled = None } }
    requires entries { HasEntries delivery buffers.items }
    requires same { map (λ leaf. leaf.buffer) delivery.leaves
        ≡ map (λ buffer. buffer.0) buffers.items }
    requires room { vec_len waiting.old < vec_capacity waiting.old }
    ensures lanes { KeepsLanes lanes.old lanes.new }
    ensures time { lanes.new.time ≡ lanes.old.time }
    ensures waits { (waiting.new.items ≡ waiting.old.items)
        ⊎ ((more : OneMoreWaits waiting.old.items waiting.new.items)
        × (more.one.awaited ≡ awaited_by delivery)) }
{
    match Waiting::begin(rt, lanes, delivery, reserved, buffers) {
        Ok(one) => waiting.push_reserved(one),
        Err(stub) => lanes.settle(rt, stub),
    }
}

// Ends these deliveries without an answer.
fn abandon_all<R: Wait, D: Dir + Drop, A: Allocator + Copy>(
    rt: &R,
    list: Vec<Waiting<A>, A>,
    lanes: &mut Lanes<D, A>,
)
    ensures { lanes.new ≡ lanes.old }
{
    let mut rest = list.into_iter();
    while let Some(waiting) = rest.next() {
        lanes.settle(rt, waiting.abandon());
    }
    rest.destroy_empty();
}

// Settles these deliveries of a session whose messages come in here, and gives those that wait on.
// Where there was no memory for one of them, the connection is closing.
fn settle_all<R: Wait, D: Dir + Drop, A: Allocator + Copy>(
    rt: &R,
    alloc: A,
    inlet: &Inlet<A>,
    session: &mut ServerSession<A>,
    is_closing: &mut bool,
    list: Vec<Waiting<A>, A>,
    lanes: &mut Lanes<D, A>,
) -> Vec<Waiting<A>, A>
    requires { IsFaithful inlet.now session.old.asked session.old.taken list.items }
    ensures kept { IsFaithful inlet.now session.new.asked session.new.taken result.items }
    ensures lanes { lanes.new ≡ lanes.old }
    ensures waited { AreAmong (awaited_in list.items) result.items }
    ensures ended { NoneLater lanes.old.later → result.items ≡ [] }
    ensures order { BecomeInOrder list.items
        (record { left = []; session = session.old; closing = is_closing.old })
        (record { left = result.items; session = session.new; closing = is_closing.new }) }
    ensures closed { is_closing.old ≡ true → is_closing.new ≡ true }
{
    let mut later = Vec::new(alloc);
    let mut rest = list.into_iter();
    while let Some(waiting) = rest.next() {
        if !settle_one(rt, inlet, session, waiting, &mut later, lanes) {
            *is_closing = true;
        }
    }
    rest.destroy_empty();
    later
}

// Settles a delivery behind those that wait on, and says whether there was memory for its answer,
// or for it to wait on.
fn settle_one<R: Wait, D: Dir + Drop, A: Allocator + Copy>(
    rt: &R,
    inlet: &Inlet<A>,
    session: &mut ServerSession<A>,
    waiting: Waiting<A>,
    later: &mut Vec<Waiting<A>, A>,
    lanes: &mut Lanes<D, A>,
) -> bool
    requires owed { IsOwed inlet.now session.old.asked waiting }
    requires before { IsFaithful inlet.now session.old.asked session.old.taken later.old.items }
    ensures asked { session.new.asked ≡ session.old.asked }
    ensures kept { IsFaithful inlet.now session.new.asked session.new.taken later.new.items }
    ensures lanes { lanes.new ≡ lanes.old }
    ensures waited { (before : List Awaited) → AreAmong before later.old.items
        → Contains before waiting.awaited → AreAmong before later.new.items }
    ensures ended { NoneLater lanes.old.later → later.old.items ≡ [] → later.new.items ≡ [] }
    ensures becomes { (closing : Bool)
        → Becomes waiting (record {
          left = later.old.items;
          session = session.old;
          closing = closing;
        })
        (record {
          left = later.new.items;
          session = session.new;
          closing = closing || not result;
        }) }
{
    let held = !later.is_empty();
    match waiting.collect(rt, lanes, held) {
        Collected::Answered(reserved, stub) => {
            lanes.settle(rt, stub);
            answer(inlet, session, reserved)
        }
        Collected::Abandoned(stub) => {
            lanes.settle(rt, stub);
            true
        }
        Collected::Later(waiting) => match later.push(waiting) {
            Ok(()) => true,
            Err(failed) => {
                lanes.settle(rt, failed.value.abandon());
                false
            }
        },
    }
}

// Gives the session an answer, and says whether it took it: there may be no memory.
fn answer<A: Allocator + Copy>(
    inlet: &Inlet<A>,
    session: &mut ServerSession<A>,
    reserved: Reserved<A>,
) -> bool
    requires demanded { Contains session.old.asked reserved.asked }
    requires earned { IsEarned inlet.now reserved }
    ensures taken { result ≡ true → IsTaken reserved session.old session.new }
    ensures refused { result ≡ false → session.new ≡ session.old }
    ensures asked { session.new.asked ≡ session.old.asked }
    ensures kept { All (IsEarned inlet.now) session.old.taken
        → All (IsEarned inlet.now) session.new.taken }
{
    let _ = inlet.number();
    session.answer(reserved).is_ok()
}
