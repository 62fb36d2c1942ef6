//! The threads that deliver a relay's chunks.

ghost use Rattle.std.specs.Prelude.{◌≡◌, IfErr, IfOk};
ghost use Rattle.relay_run.specs.Loops.{IsCarried, placed_as, placed_in};
ghost use Rattle.relay_run.specs.Running.{IsCarrierOf, fault_of as fault_of_done};

use crate::flush_threads::FlushThreads;
use crate::voice::Voice;
use ack_receipt::Evidence;
use buffer_store::BufferFault;
use disk_files::{Dir, RealDir};
use flush_pool::{CarryFault, ClaimView, Courier, SinkCourier, Worked};
use loop_core::{DeliveryJob, LoopFault, PlacedDir, SystemDir, real_dir};
use relay_conf::FileSettings;
use relay_notices::{Notice, Teller};
use relay_ports::BufferedOutput;
use relay_sockets::{Dialer, Nonces, SystemDialer, Wire, now_after};
use sink_series::{FileLimits, Rotation, SeriesFault};
use std::alloc::Global;
use std::marker::Model;
use std::net::{Net, TcpListener, TcpStream};
use std::random::RandomSource;
use std::snapshot::Snapshot;
use std::sync::atomic::AtomicBool;
use std::sync::{Arc, Wait};
use std::thread::Threads;
use std::time::Clock;
use tcp_courier::TcpCourier;

/// Where a relay has its files: the folder of this path.
#[derive(Clone, Copy)]
pub struct Home<'a> {
    pub files: &'a HostRuntime,
    pub path: &'a str,
}

// What its couriers connect by.
type Connects = SystemDialer<HostRuntime, Global>;

/// A folder of the relay's buffers.
pub type Folder = SystemDir<HostRuntime, Global>;

// The folder of a sink.
type Placed = PlacedDir<RealDir<HostRuntime, Global>, Global>;

// A sink's next file is begun behind 1 GiB or a day; and a minute after the last one, where that
// can't be written.
const FILE_LIMITS: FileLimits = FileLimits {
    bytes: 1_073_741_824,
    millis: 86_400_000,
    pause: 60_000,
};

/// Carries chunks to servers, or to the files of a sink. Contracts see besides the folder as it was
/// made for the sink, with its path.
pub enum Carrier {
    Servers(TcpCourier<Connects, Global>),
    Sink {
        courier: SinkCourier<RealDir<HostRuntime, Global>, Global>,
        placed: Snapshot<Placed>,
    },
}

impl Drop for Carrier {
    fn drop(self) {
        match self {
            Carrier::Servers(_) => (),
            Carrier::Sink {
                courier: _,
                placed: _,
            } => (),
        }
    }
}

impl<R: Wait + Net + Clock, D: Dir> Courier<R, D, Global> for Carrier {
    ghost use Rattle.relay_run.specs.Running.{IsCarriedBy};

    ghost gives = { IsCarriedBy ⟦<<Connects as Dialer>::Stream as Wire>⟧.origin
        ⟦<<Connects as Dialer>::Stream as Wire>⟧.traffic };

    fn carry(
        &self,
        rt: &R,
        chunk: &ClaimView<'_, D, Global>,
    ) -> Result<Evidence<Global>, CarryFault> {
        match self {
            Carrier::Servers(courier) => courier.carry(rt, chunk),
            Carrier::Sink { courier, placed: _ } => courier.carry(rt, chunk),
        }
    }
}

/// What one thread has that starts an output's flush threads, and what carries its chunks.
/// Contracts see whose buffer it is, where that lies, and what carries its chunks.
pub struct Pool {
    threads: FlushThreads<Folder, Global>,
    carrier: Carrier,
    stop: Arc<AtomicBool>,
    // Tells of the buffer's chunks.
    teller: Teller<Global>,
}

impl Drop for Pool {
    fn drop(self) {
        let Pool {
            threads: _,
            carrier: _,
            stop: _,
            teller: _,
        } = self;
    }
}

impl Model for Pool {
    ghost use Rattle.relay_run.specs.Running.{PoolState};

    ghost Value = { PoolState };

    ghost view = { λ p. record {
      output = p.threads.output;
      terms = p.threads.terms;
      path = p.threads.path;
      carrier = p.carrier;
    } };
}

impl Pool {
    /// Makes what carries the chunks of this output: a courier to its servers, or its sink, which is
    /// opened in this folder. What is told of them is told at the places of the buffer's own number.
    ///
    /// `Buffer`: the sink's files can't be made. `Poll`: the system gives no random bytes.
    /// `Memory`.
    pub fn open<R: RandomSource + Wait>(
        rt: &R,
        home: Home<'_>,
        job: &DeliveryJob<Folder, Global>,
        stop: &Arc<AtomicBool>,
        voice: &Voice,
    ) -> Result<Pool, LoopFault>
        ensures job { IfOk result (λ pool. placed_in pool ≡ placed_as job.now) }
        ensures carrier { IfOk result (IsCarried home.entry.path.now) }
    {
        let number = job.output().number();
        Ok(Pool {
            threads: FlushThreads::of(job)?,
            carrier: carrier_of(rt, home, job.output(), stop, voice.of_carrier(number))?,
            stop: Arc::try_clone(stop)?,
            teller: voice.of_chunks(number),
        })
    }

    /// Delivers chunks until the relay stops, by as many threads as the output has. Where the
    /// buffer has failed, it stops the relay.
    pub fn run<R>(self, rt: &R) -> PoolEnd
    where
        R: Wait
            + Net<Listener = TcpListener, Stream = TcpStream>
            + Clock
            + Threads
            + AllocGlobal
            + Sync,
        ensures { result.pool ≡ self }
    {
        let of = Snapshot::of(&self);
        let (carrier, teller) = (&self.carrier, &self.teller);
        let (done, has_failed) = self
            .threads
            .deliver(rt, rt.alloc(), carrier, teller, &self.stop);
        PoolEnd {
            done,
            has_failed,
            of,
        }
    }
}

/// How a pool ended: with what its workers did, or with the fault of the first that has one.
/// Contracts see which pool it was.
#[derive(Drop)]
pub struct PoolEnd {
    done: Result<Worked, BufferFault>,
    // The buffer's journal couldn't be written.
    has_failed: bool,
    of: Snapshot<Pool>,
}

impl Model for PoolEnd {
    ghost use Rattle.relay_run.specs.Running.{HaveEnded, PoolEnded};

    ghost Value = { PoolEnded };

    ghost view = { λ e. record { pool = e.of.value; done = e.done } };

    // So ended this pool's workers.
    ghost invariant = { λ e.
        HaveEnded ⟦<<Connects as Dialer>::Stream as Wire>⟧.origin
        ⟦<<Connects as Dialer>::Stream as Wire>⟧.traffic
        (record { pool = e.of.value; done = e.done }) };
}

impl PoolEnd {
    /// Whether the journal of its buffer couldn't be written.
    pub fn has_failed(&self) -> bool {
        self.has_failed
    }

    /// The fault that it ended with.
    pub fn fault(&self) -> Option<LoopFault>
        ensures { result ≡ fault_of_done self.now.done }
    {
        match self.done {
            Ok(_) => None,
            Err(BufferFault::Memory) => Some(LoopFault::Memory),
            Err(fault) => Some(LoopFault::Buffer(fault)),
        }
    }
}

// What carries the chunks of this output.
fn carrier_of<R: RandomSource + Wait>(
    rt: &R,
    home: Home<'_>,
    output: &BufferedOutput<Global>,
    stop: &Arc<AtomicBool>,
    teller: Teller<Global>,
) -> Result<Carrier, LoopFault>
    ensures { IfOk result (IsCarrierOf home.entry.path.now output.now) }
{
    match output {
        BufferedOutput::Forward(settings) => {
            let Ok(nonces) = Nonces::new(rt) else {
                return Err(LoopFault::Poll);
            };
            let alloc = home.files.alloc();
            let dialer = Arc::new(alloc, Connects::new(copy_of(home.files)?, alloc))?;
            let theirs = Arc::try_clone(stop)?;
            let courier = TcpCourier::new(alloc, settings, nonces, theirs, dialer)?;
            Ok(Carrier::Servers(courier.telling(teller)))
        }
        BufferedOutput::File(settings) => sink_of(rt, home, settings, teller),
    }
}

/// A handle of one's own. The error is want of memory.
pub fn copy_of<R: Clone>(rt: &R) -> Result<R, LoopFault>
    ensures { IfErr result (λ fault. fault ≡ LoopFault.Memory) }
{
    match rt.clone() {
        Ok(theirs) => Ok(theirs),
        Err(_) => Err(LoopFault::Memory),
    }
}

// What carries chunks to the sink of these settings, which is opened in this folder.
fn sink_of<R: Wait>(
    rt: &R,
    home: Home<'_>,
    settings: &FileSettings<Global>,
    teller: Teller<Global>,
) -> Result<Carrier, LoopFault>
    ensures { IfOk result (IsCarrierOf home.entry.path.now (BufferedOutput.File settings.now)) }
{
    let alloc = home.files.alloc();
    let made = real_dir(copy_of(home.files)?, alloc, home.path)?;
    let placed = Snapshot::of(&made);
    let PlacedDir { dir, path: _ } = made;
    let time = now_after(home.files, 0);
    match Rotation::open(alloc, dir, settings.path.as_bytes(), FILE_LIMITS, time) {
        Ok(sink) => Ok(Carrier::Sink {
            courier: SinkCourier::new(sink).telling(teller),
            placed,
        }),
        Err((SeriesFault::Memory, _)) => Err(LoopFault::Memory),
        Err(_) => {
            teller.tell(rt, 0, Notice::SinkFailed);
            Err(LoopFault::Buffer(BufferFault::Fault))
        }
    }
}
