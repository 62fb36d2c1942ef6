//! A relay whose sources are bound: no file of it was touched yet.

ghost use Rattle.std.specs.Prelude.{◌≡◌, [], None, map, IfOk};
ghost use Rattle.loop_core.specs.Buffers.{AreBuffersOf, ArePlaced, ArePlanned};
ghost use Rattle.mio_relay.specs.Connections.{ArePortsOf, served_as};

use crate::connections::Connections;
use crate::in_loop::{InLoop, PIECE};
use crate::limits::{descriptor_limit, most_connections};
use crate::listener::{Listener, listen};
use crate::ready::ReadyPorts;
use ack_receipt::Numbers;
use disk_files::Dir;
use loop_core::{DeliveryJob, Folders, LoopFault, RelayParts, open_all, parts_of};
use relay_notices::Teller;
use relay_ports::{BufferedOutput, RelaySetup, SetupParts};
use relay_sockets::{Network, Nonces};
use std::alloc::Allocator;
use std::marker::Model;
use std::random::RandomSource;

/// A relay that listens at each of its sources. Its buffers aren't open.
pub struct BoundRelay<N: Network + Drop, A: Allocator> {
    alloc: A,
    network: N,
    listeners: Vec<Listener<N, A>, A>,
    number: u32,
    outputs: Vec<BufferedOutput<A>, A>,
    nonces: Nonces,
}

// By hand, so that crates above don't prove again how its parts end.
impl<N: Network + Drop, A: Allocator> Drop for BoundRelay<N, A> {
    fn drop(self) {
        let BoundRelay {
            alloc: _,
            network: _,
            listeners: _,
            number: _,
            outputs: _,
            nonces: _,
        } = self;
    }
}

impl<N: Network + Drop, A: Allocator> Model for BoundRelay<N, A> {
    ghost use Rattle.mio_relay.specs.Connections.{AreListening, sources_in};
    ghost use Rattle.mio_relay.specs.Loops.{BoundState};

    ghost Value = { BoundState A };

    ghost view = { λ b. record {
      bound = N.bound b.network;
      sources = sources_in b.listeners.items;
      number = b.number;
      outputs = b.outputs.items;
    } };

    ghost invariant = { λ b. AreListening (N.bound b.network) b.listeners.items };
}

/// A relay that is ready, since its buffers are open: the loop that takes messages in, for each of
/// its buffered outputs what flush threads are given, and the ports of its sources.
pub struct OpenRelay<N: Network + Drop, D: Dir + Drop, A: Allocator> {
    pub turning: InLoop<N, D, A>,
    pub jobs: Vec<DeliveryJob<D, A>, A>,
    pub ports: ReadyPorts<A>,
}

impl<N: Network + Drop, A: Allocator + Copy> BoundRelay<N, A> {
    /// Listens at each source of the relay, over a network that has no listener yet.
    ///
    /// `Bind`: an address can't be had. `Poll`: the system reports nothing of sockets, or gives no
    /// random bytes. `Memory`.
    pub fn bind<R: RandomSource>(
        rt: &R,
        alloc: A,
        network: N,
        setup: RelaySetup<A>,
    ) -> Result<Self, LoopFault>
        requires { N.bound network ≡ [] }
        ensures sources { IfOk result
            (λ bound. bound.sources ≡ map (served_as setup.number setup.table) setup.sources) }
        ensures bound { IfOk result
            (λ bound. bound.bound ≡ map (λ source. source.endpoint) bound.sources) }
        ensures outputs { IfOk result
            (λ bound. (bound.number ≡ setup.number) × (bound.outputs ≡ setup.outputs)) }
    {
        let Ok(nonces) = Nonces::new(rt) else {
            return Err(LoopFault::Poll);
        };
        let SetupParts {
            number,
            routes,
            sources,
            outputs,
        } = setup.into_parts();
        let mut network = network;
        let listeners = listen(alloc, &mut network, number, &routes, sources)?;
        Ok(BoundRelay {
            alloc,
            network,
            listeners,
            number,
            outputs,
            nonces,
        })
    }

    /// Opens the buffers of its outputs, those with files in these folders.
    ///
    /// `Buffer`: a buffer, or the folders, can't be opened. `NoNumber`: a buffer has no number of
    /// 32 bits. `Memory`.
    pub fn open<D: Dir + Drop, F: Folders<D, A>>(
        self,
        folders: &F,
    ) -> Result<OpenRelay<N, D, A>, LoopFault>
        ensures sources { IfOk result
            (λ opened. (opened.turning.sources ≡ self.sources)
            × (opened.turning.bound ≡ self.bound)) }
        ensures none { IfOk result (λ opened. opened.turning.connections ≡ []) }
        ensures buffers { IfOk result
            (λ opened. AreBuffersOf self.number self.outputs opened.turning.buffers) }
        // Each job is of one output, with the buffer that the loop has for it.
        ensures jobs { IfOk result
            (λ opened. (map (λ job. job.output) opened.jobs.items ≡ self.outputs)
            × (map (λ job. job.terms) opened.jobs.items ≡ opened.turning.buffers)) }
        // The loop queues what is staged in these buffers when their outputs' settings say: what
        // was when they were opened, since then.
        ensures planned { IfOk result
            (λ opened. ArePlanned opened.turning.time opened.jobs.items
            opened.turning.lanes.plans) }
        ensures placed { IfOk result (λ opened. ArePlaced (F.place folders.now) opened.jobs.items) }
        ensures ports { IfOk result (λ opened. ArePortsOf self.sources opened.ports) }
        ensures fault { IfOk result (λ opened. opened.turning.lanes.fault ≡ None) }
    {
        let BoundRelay {
            alloc,
            network,
            listeners,
            number,
            outputs,
            nonces,
        } = self;
        let time = network.now_after(0);
        let opened = open_all(alloc, number, outputs, folders, time)?;
        let ready = Vec::from_elem(alloc, true, listeners.len())?;
        let piece = Vec::from_elem(alloc, 0, PIECE)?;
        let ports = ReadyPorts::of(alloc, &network, &listeners)?;
        let parts = parts_of(alloc, opened)?;
        let RelayParts {
            lanes,
            buffers,
            jobs,
        } = parts;
        let turning = InLoop {
            alloc,
            network,
            listeners,
            ready,
            notes: Vec::new(alloc),
            connections: Connections::new(alloc),
            most: most_connections(descriptor_limit()),
            piece,
            lanes,
            buffers,
            numbers: Numbers::new(),
            nonces,
            time,
            fault: None,
            clients: Teller::silent(),
        };
        Ok(OpenRelay {
            turning,
            jobs,
            ports,
        })
    }
}
