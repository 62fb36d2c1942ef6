//! A relay that runs: its loop, and for each output the threads that deliver its chunks.

ghost use Rattle.std.specs.Prelude.{◌≡◌, ◌++◌, All, IfErr, IfOk, OnOk, map};
ghost use Rattle.relay_run.specs.Loops.{Continues, IsCarried, placed_as, placed_in, relay_of, started_as};
ghost use Rattle.relay_run.specs.Running.{first_fault};
ghost use Rattle.relay_run.specs.Starting.{ready_lines};

use crate::flush::{Folder, Home, Pool, PoolEnd, copy_of};
use crate::held::{HeldFolder, OwnFolder};
use crate::voice::Voice;
use loop_core::{DeliveryJob, LoopFault, SystemFolders};
use mio_relay::{BoundRelay, Ended, InLoop, OpenRelay, ReadyPorts};
use relay_conf::BufferNo;
use relay_sockets::SocketNetwork;
use std::alloc::{AllocError, Allocator, Global};
use std::marker::Model;
use std::net::{Net, TcpListener, TcpStream};
use std::random::RandomSource;
use std::snapshot::Snapshot;
use std::sync::atomic::{AtomicBool, Ordering};
use std::sync::{Arc, Wait};
use std::thread;
use std::thread::{Promise, PromisedHandle, Threads};
use std::time::Clock;
use std::vec::IntoIter;

// The loop of a relay over the system's sockets.
type Turning<R> = InLoop<SocketNetwork<R, Global>, Folder, Global>;

/// A relay that is open: its loop, and what delivers the chunks of each of its outputs. Contracts
/// see also the ports of its sources.
pub struct Running<R: Net + Clock + Clone + Drop> {
    turning: Turning<R>,
    ports: ReadyPorts<Global>,
    pools: Vec<Pool>,
    // The lines that say that it is ready.
    ready: Vec<u8>,
    stop: Arc<AtomicBool>,
    held: HeldFolder,
}

impl<R: Net + Clock + Clone + Drop> Model for Running<R> {
    ghost use Rattle.std.specs.Prelude.{◌≡◌};
    ghost use Rattle.relay_run.specs.Loops.{RunningState};
    ghost use Rattle.relay_run.specs.Starting.{ready_lines};

    ghost Value = { RunningState };

    ghost view = { λ r. record { turning = r.turning; ports = r.ports; pools = r.pools.items } };

    ghost invariant = { λ r. r.ready.items ≡ ready_lines r.ports };
}

impl<R: Net + Clock + Clone + Drop> Running<R> {
    /// The lines that say at which ports its sources take connections.
    pub fn ready(&self) -> &[u8]
        ensures { result.now ≡ ready_lines self.now.ports }
    {
        &self.ready
    }
}

/// How a relay ended. Contracts see what ran, and with which faults.
#[derive(Drop)]
pub struct Ran<R: Net + Clock + Clone + Drop> {
    left: Ended<Global>,
    turned: Snapshot<Turning<R>>,
    ports: ReadyPorts<Global>,
    ends: Vec<PoolEnd>,
}

impl<R: Net + Clock + Clone + Drop> Model for Ran<R> {
    ghost use Rattle.relay_run.specs.Loops.{RanState};

    ghost Value = { RanState };

    ghost view = { λ r. record {
      turning = r.turned.value;
      ports = r.ports;
      fault = r.left;
      pools = r.ends.items;
    } };
}

impl<R: Net + Clock + Clone + Drop> Ran<R> {
    /// Why it ended, unless it was told to: a fault of the loop, or else the first of what
    /// delivered.
    pub fn fault(&self) -> Option<LoopFault>
        ensures { result ≡ first_fault self.now.fault self.now.pools }
    {
        first_of(self.left.fault(), &self.ends)
    }
}

impl<R: Net + Clock + Clone + Drop> Ran<R> {
    /// Tells of the journals that couldn't be written.
    pub(crate) fn tell_failed<H: Wait>(&self, rt: &H, voice: &Voice) {
        for (buffer, end) in self.ends.iter().enumerate() {
            if end.has_failed() {
                voice.tell_journal(rt, buffer);
            }
        }
    }
}

// This fault, or else that of the first pool that ended with one.
fn first_of(fault: Option<LoopFault>, ends: &[PoolEnd]) -> Option<LoopFault>
    ensures { result ≡ first_fault fault ends.now }
{
    let mut first = fault;
    for end in ends {
        first = first.or(end.fault());
    }
    first
}

// A thread that delivers an output's chunks ends as this pool's.
#[derive(Drop)]
struct EndsAs(Snapshot<Pool>);

impl Model for EndsAs {
    ghost use Rattle.relay_run.specs.Running.{PoolState};

    ghost Value = { PoolState };

    ghost view = { λ p. p.0.value };
}

impl Promise<PoolEnd> for EndsAs {
    ghost kept_by = { λ pool end. end.pool ≡ pool };
}

type Delivery = PromisedHandle<PoolEnd, EndsAs>;

impl<R> Running<R>
where
    R: Wait
        + Threads
        + Net<Listener = TcpListener, Stream = TcpStream>
        + Clock
        + RandomSource
        + AllocGlobal
        + Clone
        + Drop
        + Send
        + Sync
        + 'static,
{
    /// Opens the buffers of a relay that listens, and what delivers the chunks of each of its
    /// outputs, with files there.
    ///
    /// `Buffer`: a buffer, a sink, or the folders, can't be opened, or another relay has its files
    /// there. `NoNumber`: a buffer has no number of 32 bits. `Poll`: the system gives no random
    /// bytes. `Memory`.
    pub fn open(
        rt: &R,
        home: Home<'_>,
        bound: BoundRelay<SocketNetwork<R, Global>, Global>,
        voice: &Voice,
    ) -> Result<Self, LoopFault>
        ensures { IfOk result
            (λ running. Continues home.entry.path.now bound (relay_of running)) }
    {
        let OwnFolder { files, held, stop } = OwnFolder::take(rt.alloc(), home)?;
        let folders = SystemFolders {
            rt: files,
            alloc: rt.alloc(),
            path: home.path,
        };
        let OpenRelay {
            turning,
            jobs,
            ports,
        } = bound.open(&folders)?;
        match furnish(rt, home, jobs, ports.as_slice(), &stop, voice) {
            Ok((pools, ready)) => Ok(Running {
                turning,
                ports,
                pools,
                ready,
                stop,
                held,
            }),
            Err(fault) => {
                close(rt, turning, &stop);
                Err(fault)
            }
        }
    }

    /// Runs the loop and the pools until one of them has a fault. `Memory`: there is none for a
    /// thread.
    pub fn run(self, rt: &R, voice: &Voice) -> Result<Ran<R>, LoopFault>
        ensures ran { IfOk result (λ ran. started_as ran ≡ self) }
        ensures full { IfErr result (λ fault. fault ≡ LoopFault.Memory) }
    {
        let Running {
            turning,
            ports,
            pools,
            ready: _,
            stop,
            held: _held,
        } = self;
        let mut threads = Vec::new(rt.alloc());
        let started = start_all(rt, pools, &mut threads);
        if started.is_err() {
            stop.store(true, Ordering::SeqCst);
        }
        let mut turning = turning;
        turning.tell_by(voice.of_clients());
        turning.tell_of_buffers(&voice.of_chunks(BufferNo(0)));
        let turned = Snapshot::of(&turning);
        let left = turning.run(rt, &stop);
        stop.store(true, Ordering::SeqCst);
        let ends = join_all(rt, threads);
        started?;
        Ok(Ran {
            left,
            turned,
            ports,
            ends: ends?,
        })
    }
}

// Closes a loop that didn't run.
fn close<R: Wait + Net + Clock + Clone + Drop>(rt: &R, turning: Turning<R>, stop: &AtomicBool) {
    stop.store(true, Ordering::SeqCst);
    let _ = turning.run(rt, stop);
}

// What delivers the chunks of each output, and the lines that say that the sources are ready.
fn furnish<R: AllocGlobal + RandomSource + Wait>(
    rt: &R,
    home: Home<'_>,
    jobs: Vec<DeliveryJob<Folder, Global>>,
    ports: &[u16],
    stop: &Arc<AtomicBool>,
    voice: &Voice,
) -> Result<(Vec<Pool>, Vec<u8>), LoopFault>
    ensures jobs { IfOk result (λ made. map placed_in made.0.items ≡ map placed_as jobs.items) }
    ensures pools { IfOk result (λ made. All (IsCarried home.entry.path.now) made.0.items) }
    ensures ready { IfOk result (λ made. made.1.items ≡ ready_lines ports.now) }
{
    let pools = open_pools(rt, home, jobs, stop, voice)?;
    Ok((pools, ready_text(rt.alloc(), ports)?))
}

// What delivers the chunks of each output.
fn open_pools<R: AllocGlobal + RandomSource + Wait>(
    rt: &R,
    home: Home<'_>,
    jobs: Vec<DeliveryJob<Folder, Global>>,
    stop: &Arc<AtomicBool>,
    voice: &Voice,
) -> Result<Vec<Pool>, LoopFault>
    ensures jobs { IfOk result (λ pools. map placed_in pools.items ≡ map placed_as jobs.items) }
    ensures pools { IfOk result (λ pools. All (IsCarried home.entry.path.now) pools.items) }
{
    let mut pools = Vec::new(rt.alloc());
    let mut left = jobs.into_iter();
    while let Some(job) = left.next() {
        pools.push(Pool::open(rt, home, &job, stop, voice)?)?;
    }
    Ok(pools)
}

// The lines of sources that take connections at these ports.
fn ready_text<A: Allocator + Copy>(alloc: A, ports: &[u16]) -> Result<Vec<u8, A>, AllocError>
    ensures { IfOk result (λ text. text.items ≡ ready_lines ports.now) }
{
    let mut text = Vec::new(alloc);
    for port in ports {
        let line = format!(in alloc; "ready {port}\n")?;
        text.extend_from_slice(line.as_bytes())?;
    }
    Ok(text)
}

// Starts a thread for each pool. After a fault those before it run.
fn start_all<R>(rt: &R, pools: Vec<Pool>, threads: &mut Vec<Delivery>) -> Result<(), LoopFault>
where
    R: Wait
        + Threads
        + Net<Listener = TcpListener, Stream = TcpStream>
        + Clock
        + AllocGlobal
        + Clone
        + Drop
        + Send
        + Sync
        + 'static,
    ensures started { OnOk result
        (map (λ thread. thread.promise) threads.new.items
        ≡ map (λ thread. thread.promise) threads.old.items ++ pools.items) }
    ensures full { IfErr result (λ fault. fault ≡ LoopFault.Memory) }
{
    let mut left = pools.into_iter();
    while let Some(pool) = left.next() {
        threads.reserve(1)?;
        threads.push_reserved(start(rt, pool)?);
    }
    Ok(())
}

// Starts the thread of a pool. The error is want of memory for it.
fn start<R>(rt: &R, pool: Pool) -> Result<Delivery, LoopFault>
where
    R: Wait
        + Threads
        + Net<Listener = TcpListener, Stream = TcpStream>
        + Clock
        + AllocGlobal
        + Clone
        + Drop
        + Send
        + Sync
        + 'static,
    ensures started { IfOk result (λ thread. thread.promise ≡ pool) }
    ensures full { IfErr result (λ fault. fault ≡ LoopFault.Memory) }
{
    let theirs = copy_of(rt)?;
    let promise = EndsAs(Snapshot::of(&pool));
    match thread::spawn_with(rt, promise, move || pool.run(&theirs)) {
        Ok(thread) => Ok(thread),
        Err(_) => Err(LoopFault::Memory),
    }
}

// Waits for the threads to end. Where there is no memory for what they give, they have ended all
// the same.
fn join_all<R: Threads + AllocGlobal>(
    rt: &R,
    threads: Vec<Delivery>,
) -> Result<Vec<PoolEnd>, LoopFault>
    ensures ended { IfOk result
        (λ ends. map (λ end. end.pool) ends.items ≡ map (λ thread. thread.promise) threads.items) }
    ensures full { IfErr result (λ fault. fault ≡ LoopFault.Memory) }
{
    let mut ends = Vec::new(rt.alloc());
    let mut left = threads.into_iter();
    while let Some(thread) = left.next() {
        if ends.push(thread.join(rt)).is_err() {
            wait_for(rt, left);
            return Err(LoopFault::Memory);
        }
    }
    Ok(ends)
}

// Waits for these threads to end.
fn wait_for<R: Threads>(rt: &R, threads: IntoIter<Delivery>) {
    for thread in threads {
        let _ = thread.join(rt);
    }
}
