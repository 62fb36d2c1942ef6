//! Flush threads: a worker at a buffer until it is told to stop, and several at once.

ghost use denote.Param.Send.{IsSync, IsSend, Frees};
ghost use Rattle.std.specs.Prelude.{◌≡◌};
ghost use Rattle.flush_pool.specs.Acts.{at};
ghost use Rattle.flush_pool.specs.Rounds.{HasWorked, HaveWorked, both};

use crate::courier::Courier;
use crate::gate::Gate;
use crate::retries::Retries;
use crate::worked::Worked;
use crate::worker::Worker;
use ack_receipt::SharedBuffer;
use buffer_store::BufferFault;
use disk_files::Dir;
use std::alloc::Allocator;
use std::sync::Wait;
use std::sync::atomic::AtomicBool;
use std::thread::{Threads, join};
use std::time::Clock;

/// Delivers a buffer's chunks until `stop` is raised: claims one, has it carried, purges it on the
/// evidence that comes back or gives it back to be tried again, and so on. Several may work on one
/// buffer at once, with one `Retries`.
///
/// A chunk that waits after a failure is given back and the next is tried. A worker that finds none
/// to try sleeps until a chunk is queued, one that waits is due, or it is to stop; it looks for
/// that each ten milliseconds, and is woken at once where one is queued. A chunk whose retries are
/// over is let go where the buffer allows it. After a chunk was carried it is purged before `stop`
/// is looked at. `Worked` counts what this worker did: whole rounds, in each of which the chunk
/// that it claimed is purged, by what the courier gave for it or the end of its retries, or given
/// back.
///
/// `Failed`: the buffer's device failed before, and the buffer is to be opened again. `Memory`: a
/// growth was refused. Either ends the worker; its last chunk is given back, and what it did before
/// stands.
pub fn work<R: Wait + Clock, D: Dir, A: Allocator + Copy, C: Courier<R, D, A>, G: Gate>(
    rt: &R,
    buffer: &SharedBuffer<D, A>,
    courier: &C,
    gate: &G,
    retries: &Retries<A>,
    stop: &AtomicBool,
) -> Result<Worked, BufferFault>
    ensures { HasWorked G.lets C.gives (at buffer.now courier.now gate.now retries.now) result }
{
    Worker::new(rt, buffer, courier, gate, retries, stop).work()
}

/// Runs `work` in so many threads at once, and gives the sums of what they did. Where a thread
/// can't be made, its work is done when another has ended.
///
/// An error is that of the first worker that has one; the others go on until they end.
pub fn run_pool<
    R: Wait + Clock + Threads + Sync,
    D: Dir + Send,
    A: Allocator + Copy + Send + Sync,
    C: Courier<R, D, A> + Sync,
    G: Gate + Sync,
>(
    rt: &R,
    threads: usize,
    buffer: &SharedBuffer<D, A>,
    courier: &C,
    gate: &G,
    retries: &Retries<A>,
    stop: &AtomicBool,
) -> Result<Worked, BufferFault>
    ensures { HaveWorked G.lets C.gives
        (at buffer.now courier.now gate.now retries.now) threads result }
{
    if threads == 0 {
        return Ok(Worked::new());
    }
    let rest = threads - 1;
    let (one, others) = join(
        rt,
        || -> Result<Worked, BufferFault>
            ensures { HasWorked G.lets C.gives
                (at buffer.entry.now courier.entry.now gate.entry.now retries.entry.now) result }
        { work(rt, buffer, courier, gate, retries, stop) },
        || -> Result<Worked, BufferFault>
            requires { IsSync R.row × IsSend D.row × IsSend A.row × IsSync A.row × IsSync C.row
                × IsSync G.row × Frees A.Allocator A.dealloc_token }
            ensures { HaveWorked G.lets C.gives
                (at buffer.entry.now courier.entry.now gate.entry.now retries.entry.now) rest
                result }
        { run_pool(rt, rest, buffer, courier, gate, retries, stop) },
    );
    both_of(one, others)
}

// The counts of both, or the fault of the first that has one.
fn both_of(
    one: Result<Worked, BufferFault>,
    others: Result<Worked, BufferFault>,
) -> Result<Worked, BufferFault>
    ensures { result ≡ both one others }
{
    Ok(one?.and(others?))
}
