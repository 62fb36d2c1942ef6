//! The loop that takes messages in.

ghost use Rattle.std.specs.Prelude.{◌≡◌, ◌≤◌, [], Err, None, Ok, map, IfErr, IfOk, IfSome, OnOk};
ghost use Rattle.std.specs.Arc.{arc_value};
ghost use Rattle.loop_core.specs.Buffers.{AreBuffersOf};
ghost use Rattle.relay_ports.specs.Outputs.{outputs_in};
ghost use Rattle.relay_ports.specs.Setups.{CanRun};
ghost use Rattle.loop_core.specs.Lanes.{AppendsWait, AreQueued, NoneLater};
ghost use Rattle.mio_relay.specs.Connections.{AreFlushed, AreInTime, AreServed, AreSettled, sources_of};
ghost use Rattle.mio_relay.specs.Holding.{held_in, most_held};
ghost use Rattle.mio_relay.specs.Loops.{IsTimeAfter, OnlyLaterWait, Rests, Stays, TakesIn};
ghost use Rattle.mio_relay.specs.Turning.{AreTurned};
ghost use Rattle.mio_relay.specs.Faults.{IsReason, IsTold, fault_in, of_network, told_of};

use crate::bound::{BoundRelay, OpenRelay};
use crate::connection::NoNumber;
use crate::connections::Connections;
use crate::listener::{Listener, loop_fault};
use crate::stopping::Told;
use ack_receipt::{Numbers, SharedBuffer, Stub};
use buffer_store::BufferFault;
use disk_files::Dir;
use loop_core::{Folders, Lanes, LoopFault, SystemDir, SystemFolders};
use relay_conf::Relay;
use relay_notices::Teller;
use relay_ports::RelaySetup;
use relay_sockets::{Network, Nonces, Note, SocketNetwork};
use std::alloc::Allocator;
use std::marker::Model;
use std::net::Net;
use std::os::unix::fs::FileExt;
use std::random::RandomSource;
use std::rt::Files;
use std::sync::atomic::AtomicBool;
use std::sync::{Arc, Wait};
use std::time::Clock;

/// How many bytes are read from a connection at once.
pub(crate) const PIECE: usize = 65_536;

/// The sources of a relay, their connections, and the relay's buffers, over any network.
///
/// It is no `Drop`: `run` ends it.
pub struct InLoop<N: Network + Drop, D: Dir + Drop, A: Allocator> {
    pub(crate) alloc: A,
    pub(crate) network: N,
    pub(crate) listeners: Vec<Listener<N, A>, A>,
    // At which listeners connections may wait.
    pub(crate) ready: Vec<bool, A>,
    // What the network said last.
    pub(crate) notes: Vec<Note, A>,
    pub(crate) connections: Connections<N::Stream, A>,
    // How many connections it has at most.
    pub(crate) most: usize,
    pub(crate) piece: Vec<u8, A>,
    pub(crate) lanes: Lanes<D, A>,
    pub(crate) buffers: Vec<Arc<SharedBuffer<D, A>, A>, A>,
    pub(crate) numbers: Numbers,
    pub(crate) nonces: Nonces,
    // In milliseconds.
    pub(crate) time: u64,
    // The fault of a turn that ended it.
    pub(crate) fault: Option<LoopFault>,
    // Tells of clients, each at its source's place.
    pub(crate) clients: Teller<A>,
}

impl<N: Network + Drop, D: Dir + Drop, A: Allocator> Model for InLoop<N, D, A> {
    ghost use Rattle.std.specs.Prelude.{◌≡◌, map};
    ghost use Rattle.std.specs.Arc.{arc_value};
    ghost use Rattle.mio_relay.specs.Connections.{AreListening, AreServed, sources_in};
    ghost use Rattle.mio_relay.specs.Loops.{LoopState};

    ghost Value = { LoopState A };

    ghost view = { λ l. record {
      bound = N.bound l.network;
      sources = sources_in l.listeners.items;
      connections = l.connections;
      buffers = map (λ buffer. arc_value buffer) l.buffers.items;
      lanes = l.lanes;
      numbers = l.numbers;
      time = l.time;
      clock = N.time l.network;
      fault = l.fault;
      refusal = N.refusal l.network;
    } };

    // Each source is bound at its address, each connection is served as one of the source at whose
    // listener it came in, and the loop uses the relay's own buffers, in their order.
    ghost invariant = { λ l. AreListening (N.bound l.network) l.listeners.items
        × AreServed (sources_in l.listeners.items) l.connections
        × (l.lanes.terms ≡ map (λ buffer. arc_value buffer) l.buffers.items) };
}

/// What is left of a loop that ended: nothing else than `InLoop::run` makes it. Contracts see why
/// it ended.
pub struct Ended<A: Allocator> {
    stubs: Vec<Stub<A>, A>,
    fault: Option<LoopFault>,
}

// By hand, so that crates above don't prove again how its parts end.
impl<A: Allocator> Drop for Ended<A> {
    fn drop(self) {
        let Ended { stubs: _, fault: _ } = self;
    }
}

impl<A: Allocator> Model for Ended<A> {
    ghost use Rattle.std.specs.Prelude.{Option};
    ghost use Rattle.loop_core.specs.declared.fault.LoopFault.{LoopFault};

    ghost Value = { Option LoopFault };

    ghost view = { λ e. e.fault };
}

impl<A: Allocator> Ended<A> {
    /// Why it ended, unless it was told to.
    pub fn fault(&self) -> Option<LoopFault>
        ensures { result ≡ self.now }
    {
        self.fault
    }

    /// What is left of its deliveries, where it was kept.
    pub fn stubs(&self) -> &[Stub<A>] {
        &self.stubs
    }
}

impl<R, A> InLoop<SocketNetwork<R, A>, SystemDir<R, A>, A>
where
    R: Files + Net + Clock + RandomSource + Alloc + Clone + Drop,
    R::File: FileExt + Drop,
    R::A: Clone,
    A: Allocator + Copy,
{
    /// Listens at each source of the relay by the system's sockets, and then opens its buffers,
    /// those with files in the folder of this path, which is made where it isn't there.
    ///
    /// `Path`: two outputs share the path of their buffers, or of their sinks. `NoNumber`: a buffer
    /// hasn't the number of its place. `Bind`: an address can't be had. No file was touched then.
    /// `Buffer`: a buffer, or the folder, can't be opened. `Poll`: the system gives no sockets or
    /// no random bytes. `Memory`.
    pub fn open(
        rt: R,
        alloc: A,
        relay: Relay<A>,
        number: u32,
        path: &str,
    ) -> Result<Self, LoopFault>
        ensures sources { IfOk result (λ opened. opened.sources ≡ sources_of number relay) }
        ensures bound { IfOk result
            (λ opened. opened.bound ≡ map (λ source. source.endpoint) opened.sources) }
        ensures none { IfOk result (λ opened. opened.connections ≡ []) }
        ensures buffers { IfOk result
            (λ opened. AreBuffersOf number (outputs_in relay.scopes.items) opened.buffers) }
        ensures runs { IfOk result (λ _. CanRun (outputs_in relay.scopes.items)) }
    {
        let Ok(theirs) = rt.clone() else {
            return Err(LoopFault::Memory);
        };
        let folders = SystemFolders {
            rt: theirs,
            alloc,
            path,
        };
        InLoop::open_in(&rt, alloc, relay, number, &folders)
    }
}

impl<R, D: Dir + Drop, A> InLoop<SocketNetwork<R, A>, D, A>
where
    R: Net + Clock + RandomSource + Clone + Drop,
    A: Allocator + Copy,
{
    /// The same with buffers in these folders.
    pub fn open_in<F: Folders<D, A>>(
        rt: &R,
        alloc: A,
        relay: Relay<A>,
        number: u32,
        folders: &F,
    ) -> Result<Self, LoopFault>
        ensures sources { IfOk result (λ opened. opened.sources ≡ sources_of number relay) }
        ensures bound { IfOk result
            (λ opened. opened.bound ≡ map (λ source. source.endpoint) opened.sources) }
        ensures none { IfOk result (λ opened. opened.connections ≡ []) }
        ensures buffers { IfOk result
            (λ opened. AreBuffersOf number (outputs_in relay.scopes.items) opened.buffers) }
        ensures runs { IfOk result (λ _. CanRun (outputs_in relay.scopes.items)) }
    {
        let Ok(theirs) = rt.clone() else {
            return Err(LoopFault::Memory);
        };
        match SocketNetwork::new(theirs, alloc) {
            Ok(network) => InLoop::open_over(rt, alloc, network, relay, number, folders),
            Err(fault) => Err(loop_fault(fault)),
        }
    }
}

impl<N: Network + Drop, D: Dir + Drop, A: Allocator + Copy> InLoop<N, D, A> {
    /// The same over any network that has no listener yet.
    pub fn open_over<R: RandomSource, F: Folders<D, A>>(
        rt: &R,
        alloc: A,
        network: N,
        relay: Relay<A>,
        number: u32,
        folders: &F,
    ) -> Result<Self, LoopFault>
        requires { N.bound network ≡ [] }
        ensures sources { IfOk result (λ opened. opened.sources ≡ sources_of number relay) }
        ensures bound { IfOk result
            (λ opened. opened.bound ≡ map (λ source. source.endpoint) opened.sources) }
        ensures none { IfOk result (λ opened. opened.connections ≡ []) }
        ensures buffers { IfOk result
            (λ opened. AreBuffersOf number (outputs_in relay.scopes.items) opened.buffers) }
        ensures runs { IfOk result (λ _. CanRun (outputs_in relay.scopes.items)) }
    {
        let setup = RelaySetup::new(alloc, relay, number)?;
        let bound = BoundRelay::bind(rt, alloc, network, setup)?;
        let OpenRelay {
            turning,
            jobs: _,
            ports: _,
        } = bound.open(folders)?;
        Ok(turning)
    }

    /// Each connection is served as one of the source at whose listener it came in. The call does
    /// nothing: it stands for what the type keeps.
    pub fn are_served(&self)
        ensures { AreServed self.now.sources self.now.connections }
    {
        let _ = &self.network;
    }

    /// The buffers that messages are stored in are the relay's, in the order of their numbers. The
    /// call does nothing: it stands for what the type keeps.
    pub fn uses_its_buffers(&self)
        ensures { self.now.lanes.terms ≡ self.now.buffers }
    {
        let _ = &self.network;
    }

    /// The relay's buffers, in the order of their numbers, for the flush threads.
    pub fn buffers(&self) -> &[Arc<SharedBuffer<D, A>, A>]
        ensures { map (λ buffer. arc_value buffer) result.now ≡ self.now.buffers }
    {
        &self.buffers
    }

    /// The port of the source with this place: where it is 0, the one that the system chose.
    pub fn port(&self, place: usize) -> Option<u16> {
        let listener = self.listeners.get(place)?;
        Some(self.network.port(listener.socket()))
    }

    /// Keeps what is left of deliveries from now on, for an audit; else the buffers' books account
    /// for it at once.
    pub fn keep_stubs(&mut self)
        ensures { Stays self.old self.new }
    {
        self.lanes.keep_stubs(self.alloc);
    }

    /// From now on it is told of clients that are closed by what they sent, by this teller, whose
    /// places are the sources, in their order.
    pub fn tell_by(&mut self, clients: Teller<A>)
        ensures { self.new ≡ self.old }
    {
        self.clients = clients;
    }

    /// From now on it is told of messages that buffers refuse and of chunks that they drop, by this
    /// teller, whose places are the buffers, in their order.
    pub fn tell_of_buffers(&mut self, buffers: &Teller<A>)
        ensures { self.new ≡ self.old }
    {
        self.lanes.tell_by(buffers);
    }

    /// Waits for sockets for at most ten milliseconds, and does what is to be done: takes
    /// connections in, reads at most four pieces from each, appends each message's entries to its
    /// buffers, makes one sync for each buffer that needs one, and then answers.
    ///
    /// Each delivery that began is acknowledged or abandoned when it returns, but for those whose
    /// receipts there was no memory for: they wait for the next turn, in which nothing is read.
    /// After an error there is no further turn: `Buffer` where a buffer has a fault that ends it,
    /// `NoNumber` where the numbers of deliveries have run out, and `Poll` and `Memory` where the
    /// system reports nothing of sockets.
    pub fn turn<R: Wait>(&mut self, rt: &R) -> Result<(), LoopFault>
        requires { self.old.fault ≡ None }
        ensures stays { Stays self.old self.new }
        ensures settled { OnOk result
            (NoneLater self.new.lanes.later → AreSettled self.new.connections) }
        ensures faultless { OnOk result (self.new.lanes.fault ≡ None) }
        ensures came { IfErr result (IsReason self.new.lanes.fault) }
        ensures ended { self.new.fault ≡ fault_in result }
        // The loop's time is the network's, and the buffers know it. What is to be queued at this
        // time is, unless there was no memory for it or a device refused it.
        ensures queued { OnOk result (AreQueued self.new.lanes) }
        ensures timed { OnOk result (self.new.lanes.time ≡ self.new.time) }
        ensures clocked { OnOk result (IsTimeAfter self.old.clock self.old.time self.new.time) }
        // Each append has its receipt, but for those of buffers whose receipts come later.
        ensures redeemed { OnOk result (OnlyLaterWait self.new.lanes) }
        // What is outgoing was written, as far as the clients take it.
        ensures flushed { OnOk result (AreFlushed self.new.connections) }
        // No connection stands whose client should have shown the key before this time.
        ensures in_time { OnOk result (AreInTime self.new.time self.new.connections) }
        // Connections that aren't to be closed hold no more of what isn't whole than they may.
        ensures held { OnOk result (held_in self.new.connections ≤ most_held) }
        // Where the network refuses to wait, that is the error.
        ensures refused { IfSome self.old.refusal (λ fault. result ≡ Err (of_network fault)) }
        // Connections came in at this time, and went only where they might be closed at this time.
        ensures turned { AreTurned self.new.time self.old.connections self.new.connections }
    {
        let turned = self.turn_once(rt);
        self.fault = match &turned {
            Ok(()) => None,
            Err(fault) => Some(*fault),
        };
        turned
    }

    fn turn_once<R: Wait>(&mut self, rt: &R) -> Result<(), LoopFault>
        ensures stays { Stays self.old self.new }
        ensures settled { OnOk result
            (NoneLater self.new.lanes.later → AreSettled self.new.connections) }
        ensures faultless { OnOk result (self.new.lanes.fault ≡ None) }
        ensures came { IfErr result (IsReason self.new.lanes.fault) }
        ensures queued { OnOk result (AreQueued self.new.lanes) }
        ensures timed { OnOk result (self.new.lanes.time ≡ self.new.time) }
        ensures clocked { OnOk result (IsTimeAfter self.old.clock self.old.time self.new.time) }
        ensures redeemed { OnOk result (OnlyLaterWait self.new.lanes) }
        ensures flushed { OnOk result (AreFlushed self.new.connections) }
        ensures in_time { OnOk result (AreInTime self.new.time self.new.connections) }
        ensures held { OnOk result (held_in self.new.connections ≤ most_held) }
        ensures refused { IfSome self.old.refusal (λ fault. result ≡ Err (of_network fault)) }
        ensures turned { AreTurned self.new.time self.old.connections self.new.connections }
    {
        self.wait()?;
        self.set_time();
        self.accept_all(rt);
        let read = self.take_in(rt);
        self.store(rt);
        self.settle_all(rt);
        self.renew(rt);
        self.write_all(rt);
        self.close_all(rt);
        self.shed(rt);
        read?;
        match self.lanes.fault() {
            Some(fault) => Err(LoopFault::Buffer(fault)),
            None => Ok(()),
        }
    }

    fn set_time(&mut self)
        ensures stays { Stays self.old self.new }
        ensures same { self.new.connections ≡ self.old.connections }
        ensures timed { self.new.lanes.time ≡ self.new.time }
        ensures clocked { IsTimeAfter self.old.clock self.old.time self.new.time }
    {
        self.time = self.network.now_after(self.time);
        self.lanes.set_time(self.time);
    }

    // Reads what came, unless appends wait for their receipts.
    fn take_in<R: Wait>(&mut self, rt: &R) -> Result<(), NoNumber>
        ensures stays { Stays self.old self.new }
        ensures takes { TakesIn self.old self.new }
        ensures held { AppendsWait self.old.lanes.waiting
            → (result ≡ Ok tt) × (self.new ≡ self.old) }
    {
        if self.lanes.have_pendings() {
            return Ok(());
        }
        self.read_all(rt)
    }

    // Queues what is to be queued, and makes receipts of what was appended.
    #[tactic(auto, using(crate::proofs::Staying::only_later))]
    fn store<R: Wait>(&mut self, rt: &R)
        ensures stays { Stays self.old self.new }
        ensures takes { TakesIn self.old self.new }
        ensures queued { AreQueued self.new.lanes }
        ensures redeemed { OnlyLaterWait self.new.lanes }
    {
        self.lanes.queue_due(rt);
        self.lanes.redeem(rt);
    }

    fn renew<R: Wait>(&mut self, rt: &R)
        ensures stays { Stays self.old self.new }
        ensures takes { TakesIn self.old self.new }
        ensures rests { Rests self.old self.new }
    {
        self.lanes.renew(rt);
    }

    /// The fault of a turn that ended it, if one did.
    pub fn fault(&self) -> Option<LoopFault>
        ensures { result ≡ self.now.fault }
    {
        self.fault
    }

    /// Turns until the flag is set, or a fault comes; then ends what waits, without an answer. A
    /// buffer's fault that stands is told also where the flag is set.
    pub fn run<R: Wait>(self, rt: &R, stop: &AtomicBool) -> Ended<A>
        ensures { IsTold self.lanes.fault result }
    {
        let mut turning = self;
        let end = turning.go_on(rt, stop);
        turning.end(rt, end)
    }

    // Turns until the flag is seen set, unless a turn ended the loop before. The error is that of
    // the last turn.
    fn go_on<R: Wait>(&mut self, rt: &R, stop: &AtomicBool) -> Result<Told, LoopFault>
        ensures stays { Stays self.old self.new }
        ensures ended { IfSome self.old.fault
            (λ fault. (result ≡ Err fault) × (self.new ≡ self.old)) }
    {
        match self.fault {
            Some(fault) => Err(fault),
            None => self.turn_until(rt, stop),
        }
    }

    // Turns until the flag is seen set. The error is that of the last turn.
    fn turn_until<R: Wait>(&mut self, rt: &R, stop: &AtomicBool) -> Result<Told, LoopFault>
        requires { self.old.fault ≡ None }
        ensures stays { Stays self.old self.new }
        ensures came { IfErr result (IsReason self.new.lanes.fault) }
    {
        for _ in rt.forever() {
            if let Some(told) = Told::seen(stop) {
                return Ok(told);
            }
            self.turn(rt)?;
        }
        unreachable!()
    }

    fn end<R: Wait>(self, rt: &R, end: Result<Told, LoopFault>) -> Ended<A>
        ensures { result ≡ told_of self.lanes.fault end }
    {
        let InLoop {
            alloc,
            network: _,
            listeners: _,
            ready: _,
            notes: _,
            connections,
            most: _,
            piece: _,
            mut lanes,
            buffers: _,
            numbers: _,
            nonces: _,
            time: _,
            fault: _,
            clients: _,
        } = self;
        connections.end(rt, &mut lanes);
        let fault = told(end, lanes.fault());
        let stubs = match lanes.end(rt) {
            Some(stubs) => stubs,
            None => Vec::new(alloc),
        };
        Ended { stubs, fault }
    }
}

// What is told in the end: the first fault that came of a buffer, or else that of the last turn.
fn told(end: Result<Told, LoopFault>, first: Option<BufferFault>) -> Option<LoopFault>
    ensures { result ≡ told_of first end }
{
    match first {
        Some(fault) => Some(LoopFault::Buffer(fault)),
        None => match end {
            Err(fault) => Some(fault),
            Ok(_told) => None,
        },
    }
}
