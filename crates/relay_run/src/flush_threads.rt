//! The flush threads of an output, wherever its buffer lies and whatever carries its chunks.

ghost use Rattle.std.specs.Prelude.{◌≡◌, IfOk};
ghost use Rattle.flush_pool.specs.declared.gate.OpenGate.{OpenGate};
ghost use Rattle.flush_pool.specs.Acts.{at};
ghost use Rattle.flush_pool.specs.Rounds.{HaveWorked};
ghost use Rattle.relay_ports.specs.Outputs.{settings_of};
ghost use Rattle.relay_run.specs.Running.{LetsAll};

use ack_receipt::SharedBuffer;
use buffer_store::BufferFault;
use disk_files::Dir;
use flush_pool::{Courier, OpenGate, Retries, Worked, run_pool};
use loop_core::DeliveryJob;
use relay_conf::RetrySettings;
use relay_notices::Teller;
use std::alloc::{AllocError, Allocator};
use std::marker::Model;
use std::snapshot::Snapshot;
use std::sync::atomic::{AtomicBool, Ordering};
use std::sync::{Arc, Wait};
use std::thread::Threads;
use std::time::Clock;

/// A buffer, how many threads deliver its chunks, and how they retry, as its output says. Contracts
/// see the job that it is made of.
pub(crate) struct FlushThreads<D: Dir + Drop, A: Allocator> {
    buffer: Arc<SharedBuffer<D, A>, A>,
    count: usize,
    retry: RetrySettings,
    of: Snapshot<DeliveryJob<D, A>>,
}

impl<D: Dir + Drop, A: Allocator> Drop for FlushThreads<D, A> {
    fn drop(self) {
        let FlushThreads {
            buffer: _,
            count: _,
            retry: _,
            of: _,
        } = self;
    }
}

impl<D: Dir + Drop, A: Allocator> Model for FlushThreads<D, A> {
    ghost use Rattle.std.specs.Prelude.{◌≡◌};
    ghost use Rattle.std.specs.Arc.{arc_value};
    ghost use Rattle.loop_core.specs.Owners.{Owned};
    ghost use Rattle.relay_ports.specs.Outputs.{settings_of};

    ghost Value = { Owned A };

    ghost view = { λ t. t.of.value };

    // It has the job's buffer, and as many threads and such retries as the job's output says.
    ghost invariant = { λ t. (arc_value t.buffer ≡ t.of.value.terms)
        × (t.count ≡ (settings_of t.of.value.output).flush_thread_count)
        × (t.retry ≡ (settings_of t.of.value.output).retry) };
}

impl<D: Dir + Drop, A: Allocator + Copy> FlushThreads<D, A> {
    /// Those of this job. The error is want of memory.
    pub(crate) fn of(job: &DeliveryJob<D, A>) -> Result<Self, AllocError>
        ensures { IfOk result (λ threads. threads ≡ job.now) }
    {
        let settings = job.output().buffer();
        Ok(FlushThreads {
            buffer: Arc::try_clone(job.buffer())?,
            count: settings.flush_thread_count,
            retry: settings.retry,
            of: Snapshot::of(job),
        })
    }
}

impl<D: Dir + Drop + Send, A: Allocator + Copy + Send + Sync> FlushThreads<D, A> {
    /// Delivers chunks until `stop` is raised, which it raises in the end. It answers what the
    /// threads did, and whether the buffer's journal couldn't be written.
    pub(crate) fn deliver<R, C>(
        &self,
        rt: &R,
        alloc: A,
        courier: &C,
        teller: &Teller<A>,
        stop: &AtomicBool,
    ) -> (Result<Worked, BufferFault>, bool)
    where
        R: Wait + Clock + Threads + Sync,
        C: Courier<R, D, A> + Sync,
        ensures { (gate : OpenGate) × HaveWorked LetsAll C.gives
            (at self.now.terms courier.now gate (settings_of self.now.output).retry)
            (settings_of self.now.output).flush_thread_count result.0 }
    {
        let retries = Retries::new(alloc, self.retry).telling(teller.another());
        let (buffer, count) = (&self.buffer, self.count);
        let done = run_pool(rt, count, buffer, courier, &OpenGate, &retries, stop);
        stop.store(true, Ordering::SeqCst);
        (done, self.buffer.has_failed(rt))
    }
}
