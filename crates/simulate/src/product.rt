//! The product's parts, as the network has them.
//!
//! This is the one place that names what they are made of: an open relay, its folders, and a
//! claimed chunk.

ghost use Rattle.std.specs.Prelude.{◌≡◌, length};
ghost use Rattle.std.specs.Arc.{arc_value};

use crate::closing::{close_buffers, close_sinks, end_lanes};
use crate::disk::{Devices, Stop};
use crate::lent::Lendable;
use crate::opened::Opened;
use crate::opening::open_relay;
use crate::parts::{Client, Failed, Hold, Parts, Server, Settings, SinkContent, Task, Way};
use crate::sending::Letter;
use crate::shelf::Shelf;
use ack_receipt::{Claim, Evidence, Numbers, SharedBuffer};
use disk_files::Dir;
use event_modes::{Entries, LONGEST_TAG, Message, Read, read};
use flush_pool::{ClaimView, Courier, SinkCourier};
use forward_core::{ClientSession, Heard};
use loop_core::{Lanes, Peer};
use relay_ports::Inlet;
use std::alloc::{AllocError, Global};
use std::sync::{Arc, Wait};
use std::time::Clock;

/// The folders of a relay with this number and configuration: its file buffers are on one shelf,
/// its sinks on another.
pub struct Folders<D: Lendable> {
    pub number: u32,
    pub conf: Vec<u8>,
    pub buffers: Shelf<D>,
    pub sinks: Shelf<D>,
}

impl<D: Lendable> Drop for Folders<D> {
    fn drop(self) {
        let Folders {
            number: _,
            conf: _,
            buffers: _,
            sinks: _,
        } = self;
    }
}

/// An output: what is looked at of its settings, and its sink, if it has one, with the sink's path.
pub struct Output<S> {
    settings: Settings,
    path: Vec<u8>,
    sink: Option<S>,
}

impl<S: Drop> Drop for Output<S> {
    fn drop(self) {
        let Output {
            settings: _,
            path: _,
            sink: _,
        } = self;
    }
}

impl<S> Output<S> {
    /// An output with these settings, whose sink is at this path.
    pub fn new(settings: Settings, path: Vec<u8>, sink: Option<S>) -> Output<S> {
        Output {
            settings,
            path,
            sink,
        }
    }

    /// Its sink, if it has one, and the sink's path.
    pub fn into_sink(self) -> (Vec<u8>, Option<S>) {
        let Output {
            settings: _,
            path,
            sink,
        } = self;
        (path, sink)
    }
}

/// An output whose sink is in such a folder.
pub type SinkOutput<D> = Output<SinkCourier<D, Global>>;

/// A relay that is open, over such folders.
pub type OpenRelay<D> = Opened<
    Lanes<D, Global>,
    Arc<SharedBuffer<D, Global>>,
    SinkOutput<D>,
    Arc<Inlet<Global>>,
>;

/// A claimed chunk, and the buffer that it is of.
pub struct Claimed<D: Lendable + Drop> {
    shared: Arc<SharedBuffer<D, Global>>,
    claim: Claim<Global>,
    ghost same: { claim.leaf ≡ (arc_value shared).leaf },
}

impl<D: Lendable + Drop> Claimed<D> {
    // What a courier is shown of it.
    fn view(&self) -> ClaimView<'_, D, Global> {
        ClaimView::new(&self.shared, &self.claim)
    }
}

impl<D: Lendable + Drop> Hold for Claimed<D> {
    fn claim(&self) -> &Claim<Global> {
        &self.claim
    }

    fn body<R: Wait>(&self, rt: &R) -> Option<Entries<Global>> {
        self.shared.body(rt, &self.claim).ok()
    }

    fn give_back<R: Wait>(self, rt: &R) {
        let Claimed { shared, claim } = self;
        shared.give_back(rt, claim);
    }

    fn offer<R: Wait>(
        self,
        rt: &R,
        evidence: Evidence<Global>,
    ) -> Result<(), (Self, Evidence<Global>)> {
        let Claimed { shared, claim } = self;
        match shared.purge(rt, claim, evidence) {
            Ok(()) => Ok(()),
            Err((_, claim, evidence)) => Err((Claimed { shared, claim }, evidence)),
        }
    }
}

impl Client for ClientSession<Global> {
    fn sending(alloc: Global, letter: &Letter<'_>) -> Result<Option<Self>, AllocError> {
        if letter.tag.len() > LONGEST_TAG || letter.entries.as_bytes().len() > u32::MAX as usize {
            return Ok(None);
        }
        let mut client = ClientSession::open(alloc, None, [0; 16])?;
        client.send(letter.tag, letter.entries, letter.id, letter.target.asks)?;
        Ok(Some(client))
    }

    fn unsent(&self) -> &[u8] {
        self.outgoing()
    }

    fn take_piece(&mut self, alloc: Global, most: usize) -> Result<Vec<u8>, AllocError> {
        let count = most.min(self.outgoing().len());
        let piece = Vec::from_slice(alloc, self.outgoing().split_at(count).0)?;
        self.sent(count);
        Ok(piece)
    }

    fn hear(&mut self, bytes: &[u8]) -> Result<Heard<Global>, AllocError> {
        self.feed(bytes)
    }
}

impl Server for Peer<Global> {
    fn awaits(&self) -> bool {
        self.is_waiting()
    }

    fn answer(&self) -> &[u8] {
        self.outgoing()
    }

    fn take_answer(&mut self, alloc: Global, most: usize) -> Result<Vec<u8>, AllocError> {
        let count = most.min(self.outgoing().len());
        let piece = Vec::from_slice(alloc, self.outgoing().split_at(count).0)?;
        self.sent(count);
        Ok(piece)
    }
}

impl<D: Lendable + Drop> Parts for OpenRelay<D> {
    type Folders = Folders<D>;

    type Client = ClientSession<Global>;

    type Server = Peer<Global>;

    type Hold = Claimed<D>;

    fn new_folders(alloc: Global, number: u32, conf: &[u8]) -> Result<Folders<D>, AllocError> {
        Ok(Folders {
            number,
            conf: Vec::from_slice(alloc, conf)?,
            buffers: Shelf::new(alloc),
            sinks: Shelf::new(alloc),
        })
    }

    fn open(
        alloc: Global,
        folders: &mut Folders<D>,
        devices: Devices,
    ) -> Result<Option<Self>, AllocError> {
        folders.buffers.set_device(devices.buffers);
        folders.sinks.set_device(devices.sinks);
        open_relay(alloc, folders)
    }

    fn stop_folders(folders: &Folders<D>, stop: Stop) {
        folders.buffers.stop(stop);
        folders.sinks.stop(stop.settled());
    }

    fn close<R: Wait>(
        self,
        rt: &R,
        alloc: Global,
        stop: Stop,
        failed: &mut Failed,
    ) -> Result<Option<Vec<SinkContent>>, AllocError> {
        let (lanes, buffers, outputs) = self.into_parts();
        failed.buffer = end_lanes(rt, lanes);
        failed.device = close_buffers(buffers, stop);
        close_sinks(alloc, outputs, stop.settled(), &mut failed.device)
    }

    fn end<R: Wait>(self, rt: &R) {
        let _ = self.into_lanes().end(rt);
    }

    fn has_fault(&self) -> bool {
        self.seen_lanes().fault().is_some()
    }

    fn tend<R: Wait>(&mut self, rt: &R, task: Task) {
        match task {
            Task::Queue => self.lanes().queue_due(rt),
            Task::Redeem => self.lanes().redeem(rt),
            Task::Renew => self.lanes().renew(rt),
        }
    }

    fn count_buffers(&self) -> usize {
        self.count()
    }

    fn settings(&self, buffer: usize) -> Settings {
        match self.output(buffer) {
            Some(output) => output.settings,
            None => Settings::NONE,
        }
    }

    fn is_live<R: Wait>(&self, rt: &R, buffer: usize, serial: u64) -> bool {
        match self.buffer(buffer) {
            Some(shared) => shared.is_live(rt, serial),
            None => false,
        }
    }

    fn claim<R: Wait>(&self, rt: &R, buffer: usize) -> Option<Claimed<D>> {
        match self.buffer(buffer) {
            Some(shared) => claim(rt, shared),
            None => None,
        }
    }

    fn drop_oldest<R: Wait>(&self, rt: &R, buffer: usize) -> Option<u64> {
        match self.buffer(buffer) {
            Some(shared) => shared.drop_oldest(rt).ok(),
            None => None,
        }
    }

    fn carry<R: Wait + Clock>(
        &self,
        rt: &R,
        buffer: usize,
        hold: &Claimed<D>,
    ) -> Option<Evidence<Global>> {
        match self.output(buffer) {
            Some(output) => carried(rt, &output.sink, &hold.view()),
            None => None,
        }
    }

    fn way(&self, alloc: Global, source: usize, bytes: &[u8]) -> Result<Way, AllocError> {
        way_in(alloc, self.inlet(source), bytes)
    }

    fn receive<R: Wait>(
        &mut self,
        rt: &R,
        alloc: Global,
        source: usize,
        server: &mut Option<Peer<Global>>,
        piece: &[u8],
    ) -> Result<bool, AllocError> {
        match self.entrance(source) {
            Some((inlet, lanes, numbers)) => {
                receive_at(rt, alloc, inlet, server, piece, lanes, numbers)
            }
            None => Ok(false),
        }
    }

    fn settle<R: Wait>(&mut self, rt: &R, alloc: Global, server: &mut Peer<Global>) {
        server.settle(rt, alloc, self.lanes());
    }

    fn hang_up<R: Wait>(&mut self, rt: &R, server: Peer<Global>) {
        server.end(rt, self.lanes());
    }

    fn spare(alloc: Global) -> Result<Self, AllocError> {
        let lanes = Lanes::with_capacity(alloc, 0)?;
        let (buffers, outputs, inlets) = (Vec::new(alloc), Vec::new(alloc), Vec::new(alloc));
        Ok(Opened::new(lanes, buffers, outputs, inlets))
    }
}

// Claims the first chunk that is queued in this buffer.
fn claim<R: Wait, D: Lendable + Drop>(
    rt: &R,
    shared: &Arc<SharedBuffer<D, Global>>,
) -> Option<Claimed<D>> {
    let shared = Arc::try_clone(shared).ok()?;
    match shared.claim(rt) {
        Ok(Some(claim)) => Some(Claimed { shared, claim }),
        _ => None,
    }
}

// The evidence of this sink, if there is one that carries the chunk.
fn carried<R: Wait, D: Dir, C: Courier<R, D, Global>>(
    rt: &R,
    sink: &Option<C>,
    chunk: &ClaimView<'_, D, Global>,
) -> Option<Evidence<Global>> {
    match sink {
        Some(sink) => sink.carry(rt, chunk).ok(),
        None => None,
    }
}

// Where a message goes that comes in here.
fn way_in(
    alloc: Global,
    inlet: Option<&Arc<Inlet<Global>>>,
    bytes: &[u8],
) -> Result<Way, AllocError> {
    match read(alloc, bytes)? {
        Read::Message(message, _) => way_of(alloc, inlet, &message),
        _ => Ok(Way::NoMessage),
    }
}

fn way_of(
    alloc: Global,
    inlet: Option<&Arc<Inlet<Global>>>,
    message: &Message<Global>,
) -> Result<Way, AllocError> {
    let Some(inlet) = inlet else {
        return Ok(Way::Nowhere);
    };
    match inlet.branches(alloc, message)? {
        Some(branches) => Ok(Way::Buffers(branches)),
        None => Ok(Way::Nowhere),
    }
}

// Some bytes come in here, by an end that opens where it isn't there.
fn receive_at<R: Wait, D: Lendable + Drop>(
    rt: &R,
    alloc: Global,
    inlet: &Arc<Inlet<Global>>,
    server: &mut Option<Peer<Global>>,
    piece: &[u8],
    lanes: &mut Lanes<D, Global>,
    numbers: &mut Numbers,
) -> Result<bool, AllocError> {
    if server.is_none() {
        open_at(rt, alloc, inlet, server, lanes)?;
    }
    match server {
        Some(peer) => Ok(peer.receive(rt, alloc, piece, lanes, numbers).is_ok()),
        None => Ok(false),
    }
}

// An end opens here; another that is there ends.
fn open_at<R: Wait, D: Lendable + Drop>(
    rt: &R,
    alloc: Global,
    inlet: &Arc<Inlet<Global>>,
    server: &mut Option<Peer<Global>>,
    lanes: &mut Lanes<D, Global>,
) -> Result<(), AllocError> {
    let peer = Peer::open(alloc, inlet, None, [0; 16])?;
    if let Some(other) = server.replace(peer) {
        other.end(rt, lanes);
    }
    Ok(())
}
