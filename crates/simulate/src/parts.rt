//! What the network has of a relay's parts, whatever they are made of.
//!
//! All that runs is written over these traits, so that none of it is proved over what the product's
//! parts are made of (`product`).

use crate::disk::{Devices, Stop};
use crate::sending::Letter;
use ack_receipt::{Claim, Evidence};
use event_modes::Entries;
use forward_core::Heard;
use relay_ports::Branches;
use sink_series::SinkEvent;
use std::alloc::{AllocError, Global};
use std::sync::Wait;
use std::time::Clock;

/// Where an output's chunks go.
#[derive(Clone, Copy)]
pub enum Aim {
    Nowhere,
    Sink,
    Relay(Target),
}

/// The relay at this place, by this source, with or without an acknowledgement.
#[derive(Clone, Copy)]
pub struct Target {
    pub to: usize,
    pub source: usize,
    pub asks: bool,
}

/// What is looked at of an output's settings.
#[derive(Clone, Copy)]
pub struct Settings {
    pub aim: Aim,
    pub is_in_memory: bool,
    /// The oldest chunks go where the buffer is full.
    pub drops_oldest: bool,
    /// Chunks are given up at some time.
    pub gives_up: bool,
    /// How many bytes the buffer takes.
    pub limit: u64,
}

impl Settings {
    /// Of an output that isn't there.
    pub const NONE: Settings = Settings {
        aim: Aim::Nowhere,
        is_in_memory: false,
        drops_oldest: false,
        gives_up: false,
        limit: u64::MAX,
    };

    /// Whether the buffer takes these two together.
    pub fn fits(self, size: usize, len: usize) -> bool {
        size.saturating_add(len) as u64 <= self.limit
    }
}

/// What is done in an open relay from time to time.
#[derive(Clone, Copy)]
pub enum Task {
    /// What is due is queued.
    Queue,
    /// Receipts are made.
    Redeem,
    /// Journals are written anew.
    Renew,
}

/// What failed of a relay before it was stopped: a buffer, or a device.
#[derive(Clone, Copy)]
pub struct Failed {
    pub buffer: bool,
    pub device: bool,
}

/// What a sink holds, by the number of its buffer.
pub struct SinkContent {
    pub buffer: usize,
    pub events: Vec<SinkEvent<Global>>,
}

impl Drop for SinkContent {
    fn drop(self) {
        let SinkContent {
            buffer: _,
            events: _,
        } = self;
    }
}

/// Where a relay's matches send a message.
#[derive(Drop)]
pub enum Way {
    /// It isn't one.
    NoMessage,
    Nowhere,
    Buffers(Branches<Global>),
}

/// A sender's end of a connection.
pub trait Client: Drop + Sized {
    /// One that has this message to send; `None` where it can't be sent.
    fn sending(alloc: Global, letter: &Letter<'_>) -> Result<Option<Self>, AllocError>;

    /// What of it is to be sent.
    fn unsent(&self) -> &[u8];

    /// Sends so many bytes of that at most.
    fn take_piece(&mut self, alloc: Global, most: usize) -> Result<Vec<u8>, AllocError>;

    /// Hears these bytes of an answer.
    fn hear(&mut self, bytes: &[u8]) -> Result<Heard<Global>, AllocError>;
}

/// A relay's end of a connection.
pub trait Server: Sized {
    /// Whether a delivery waits.
    fn awaits(&self) -> bool;

    /// What of an answer is under way.
    fn answer(&self) -> &[u8];

    /// Takes so many bytes of that at most.
    fn take_answer(&mut self, alloc: Global, most: usize) -> Result<Vec<u8>, AllocError>;
}

/// A chunk that a worker has claimed.
pub trait Hold: Sized {
    /// The claim.
    fn claim(&self) -> &Claim<Global>;

    /// The chunk's entries, if they can be read.
    fn body<R: Wait>(&self, rt: &R) -> Option<Entries<Global>>;

    /// Gives it back.
    fn give_back<R: Wait>(self, rt: &R);

    /// Lets the chunk go on this evidence; where its buffer refuses, both come back.
    fn offer<R: Wait>(
        self,
        rt: &R,
        evidence: Evidence<Global>,
    ) -> Result<(), (Self, Evidence<Global>)>;
}

/// The parts of a relay that is open.
pub trait Parts: Sized {
    /// What outlives its stops.
    type Folders: Drop;

    /// Who sends to it.
    type Client: Client;

    /// Its ends of connections.
    type Server: Server;

    /// Its chunks that are claimed.
    type Hold: Hold;

    /// The folders of a relay with this number and configuration that was never open.
    fn new_folders(alloc: Global, number: u32, conf: &[u8]) -> Result<Self::Folders, AllocError>;

    /// Opens it over such devices; `None` where it doesn't open. Then its folders are as that left
    /// them.
    fn open(
        alloc: Global,
        folders: &mut Self::Folders,
        devices: Devices,
    ) -> Result<Option<Self>, AllocError>;

    /// What a stop leaves of its folders, while it isn't open.
    fn stop_folders(folders: &Self::Folders, stop: Stop);

    /// Stops it, and says what failed, and what its sinks hold then; `None` where one can't be
    /// read.
    fn close<R: Wait>(
        self,
        rt: &R,
        alloc: Global,
        stop: Stop,
        failed: &mut Failed,
    ) -> Result<Option<Vec<SinkContent>>, AllocError>;

    /// Ends it.
    fn end<R: Wait>(self, rt: &R);

    /// Whether a journal has failed.
    fn has_fault(&self) -> bool;

    /// Does this.
    fn tend<R: Wait>(&mut self, rt: &R, task: Task);

    /// How many buffers it has.
    fn count_buffers(&self) -> usize;

    /// What is said of the output of a buffer.
    fn settings(&self, buffer: usize) -> Settings;

    /// Whether a buffer has a chunk of this serial.
    fn is_live<R: Wait>(&self, rt: &R, buffer: usize, serial: u64) -> bool;

    /// Claims the first chunk that is queued in a buffer; nothing where there is none, or no
    /// memory.
    fn claim<R: Wait>(&self, rt: &R, buffer: usize) -> Option<Self::Hold>;

    /// The oldest queued chunk of a buffer goes, where its output drops the oldest.
    fn drop_oldest<R: Wait>(&self, rt: &R, buffer: usize) -> Option<u64>;

    /// The evidence of a buffer's sink, if it has one that carries the chunk.
    fn carry<R: Wait + Clock>(
        &self,
        rt: &R,
        buffer: usize,
        hold: &Self::Hold,
    ) -> Option<Evidence<Global>>;

    /// Where a message goes that comes in at this source.
    fn way(&self, alloc: Global, source: usize, bytes: &[u8]) -> Result<Way, AllocError>;

    /// Some bytes come in at this source, by an end that opens where it isn't there; `false` where
    /// they aren't taken.
    fn receive<R: Wait>(
        &mut self,
        rt: &R,
        alloc: Global,
        source: usize,
        server: &mut Option<Self::Server>,
        piece: &[u8],
    ) -> Result<bool, AllocError>;

    /// Deliveries of a connection are answered if their receipts are there.
    fn settle<R: Wait>(&mut self, rt: &R, alloc: Global, server: &mut Self::Server);

    /// Ends an end of a connection.
    fn hang_up<R: Wait>(&mut self, rt: &R, server: Self::Server);

    /// A relay without buffers, where ends of connections end while no other is open.
    fn spare(alloc: Global) -> Result<Self, AllocError>;
}
