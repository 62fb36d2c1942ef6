//! A worker's rounds: each claims a chunk and settles it.

ghost use Rattle.std.specs.Prelude.{◌≡◌, ◌≢◌, ◌↔◌, [], Some, IsTrue};
ghost use Rattle.ack_receipt.specs.declared.book_fault.PurgeFault.{PurgeFault};
ghost use Rattle.flush_pool.specs.declared.fault.CarryFault.{CarryFault};
ghost use Rattle.flush_pool.specs.Acts.{Claimed, Judged, NotCarried, last};
ghost use Rattle.flush_pool.specs.declared.verdict.Verdict.TheVariants.{Try};
ghost use Rattle.flush_pool.specs.Laws.{HasFailed, IsEarned, ends_at_purge};
ghost use Rattle.flush_pool.specs.Rounds.{HasEnded, Holds, IsSettled, IsWorked};

use crate::acts::Outcome;
use crate::courier::Courier;
use crate::fault::CarryFault;
use crate::gate::Gate;
use crate::pass::{Seen, Watch};
use crate::verdict::Verdict;
use crate::worked::Worked;
use crate::worker::Worker;
use ack_receipt::{Claim, Evidence, PurgeFault};
use buffer_store::BufferFault;
use disk_files::Dir;
use std::alloc::Allocator;
use std::sync::Wait;
use std::time::Clock;

impl<'a, R, D, A, C, G> Worker<'a, R, D, A, C, G>
where
    R: Wait + Clock,
    D: Dir,
    A: Allocator + Copy,
    C: Courier<R, D, A>,
    G: Gate,
{
    /// Works until it is told to stop, and gives the counts of what it did. Each chunk that it
    /// claims is purged or given back before it looks at anything else. It sleeps where no chunk is
    /// queued, or where all that are wait. Asks for a worker that did nothing yet.
    ///
    /// `Memory` and `Failed` end it earlier. The chunk of that round is given back; what was done
    /// before stands.
    pub fn work(&mut self) -> Result<Worked, BufferFault>
        requires { self.old.acts ≡ [] }
        ensures post { self.new.post ≡ self.old.post }
        ensures worked { IsWorked G.lets C.gives self.new result }
    {
        let ended = self.go_on();
        self.stays_lawful();
        ended
    }

    // Rounds until it is told to stop, or has to end.
    fn go_on(&mut self) -> Result<Worked, BufferFault>
        requires { self.old.acts ≡ [] }
        ensures post { self.new.post ≡ self.old.post }
        ensures ended { HasEnded self.new.acts result }
    {
        let mut worked = Worked::new();
        let mut watch = Watch::new();
        for _ in self.handle().forever() {
            if self.is_stopped() {
                return Ok(worked);
            }
            let times = self.times_queued();
            match self.claim() {
                Ok(Some(claim)) => {
                    let serial = claim.serial();
                    match self.settle(claim) {
                        Ok(outcome) => {
                            worked = worked.with(outcome);
                            watch = self.watch_on(watch, serial, outcome, times);
                        }
                        Err(fault) => return Err(fault),
                    }
                }
                Ok(None) => {
                    self.rest(times);
                    watch = Watch::new();
                }
                Err(_) => return Err(BufferFault::Memory),
            }
        }
        unreachable!()
    }

    // What the worker knows of the queue behind this chunk, which was claimed at this count. Where
    // all that is queued waits, it sleeps first.
    fn watch_on(&self, watch: Watch, serial: u64, outcome: Outcome, times: u64) -> Watch {
        let Outcome::Waits(others) = outcome else {
            return watch.anew();
        };
        match watch.behind(serial, others, times) {
            Seen::Part(watch) => watch,
            Seen::All(times) => self.rest_behind(times, others.due),
        }
    }

    // Sleeps where all that was queued up to this count waits, or is in other workers' hands, and
    // one that waits is due or isn't. What is due then has gone from the buffer, or is with another
    // worker: so it looks again soon.
    fn rest_behind(&self, times: u64, due: bool) -> Watch {
        if due {
            self.rest(times);
            self.look_for_gone();
            return Watch::after(times);
        }
        if self.rest_on(times) {
            Watch::after(times)
        } else {
            Watch::new()
        }
    }

    // Purges a claimed chunk or gives it back, by its verdict.
    fn settle(&mut self, claim: Claim<A>) -> Result<Outcome, BufferFault>
        requires holds { Holds claim self.old }
        requires claimed { last self.old.acts ≡ Some (Claimed claim.serial) }
        ensures post { self.new.post ≡ self.old.post }
        ensures settled { IsSettled self.old.acts self.new.acts result }
    {
        let judged = self.judge(&claim);
        match judged.verdict() {
            Verdict::Wait => {
                self.give_back(claim);
                Ok(Outcome::Waits(judged.others()))
            }
            Verdict::GiveUp => {
                let evidence = Evidence::expired(&claim);
                let let_go = self.let_go(claim, evidence);
                self.tell_given_up(&let_go);
                let_go
            }
            Verdict::Try => self.deliver(claim),
        }
    }

    // Has a chunk carried, and purges it at once on what shows that it arrived.
    fn deliver(&mut self, claim: Claim<A>) -> Result<Outcome, BufferFault>
        requires holds { Holds claim self.old }
        requires tried { last self.old.acts ≡ Some (Judged claim.serial Try) }
        ensures post { self.new.post ≡ self.old.post }
        ensures settled { IsSettled self.old.acts self.new.acts result }
    {
        if !self.ask_gate(&claim) {
            return self.put_back(claim);
        }
        match self.carry(&claim) {
            Ok(evidence) => self.let_go(claim, evidence),
            Err(fault) => self.take_fault(claim, fault),
        }
    }

    // What becomes of a chunk whose courier failed. Where the buffer has failed, whose entries
    // can't be read then, the worker ends.
    fn take_fault(&mut self, claim: Claim<A>, fault: CarryFault) -> Result<Outcome, BufferFault>
        requires holds { Holds claim self.old }
        requires failed { last self.old.acts ≡ Some (NotCarried claim.serial fault) }
        ensures post { self.new.post ≡ self.old.post }
        ensures settled { IsSettled self.old.acts self.new.acts result }
    {
        if is_memory(fault) {
            self.give_back(claim);
            return Err(BufferFault::Memory);
        }
        if self.has_failed(&claim, fault) {
            self.give_back(claim);
            return Err(BufferFault::Failed);
        }
        self.put_back(claim)
    }

    // Purges a chunk on this evidence. What the buffer refuses counts as a failed delivery, but for
    // where the worker ends.
    fn let_go(&mut self, claim: Claim<A>, evidence: Evidence<A>) -> Result<Outcome, BufferFault>
        requires holds { Holds claim self.old }
        requires earned { IsEarned self.old.post.terms.leaf claim.serial evidence self.old.acts }
        ensures post { self.new.post ≡ self.old.post }
        ensures settled { IsSettled self.old.acts self.new.acts result }
    {
        let serial = claim.serial();
        let Err((fault, claim, evidence)) = self.purge(claim, evidence) else {
            self.forget(serial);
            return Ok(Outcome::Purged);
        };
        evidence.waste();
        match ending(fault) {
            Some(fault) => {
                self.give_back(claim);
                Err(fault)
            }
            None => self.put_back(claim),
        }
    }

    // Notes a failed delivery and gives the chunk back.
    fn put_back(&mut self, claim: Claim<A>) -> Result<Outcome, BufferFault>
        requires holds { Holds claim self.old }
        requires failed { HasFailed claim.serial self.old.acts }
        ensures post { self.new.post ≡ self.old.post }
        ensures settled { IsSettled self.old.acts self.new.acts result }
    {
        match self.note(&claim) {
            Ok(()) => {
                self.give_back(claim);
                Ok(Outcome::Failed)
            }
            Err(_) => {
                self.give_back(claim);
                Err(BufferFault::Memory)
            }
        }
    }
}

// Whether there was no memory.
fn is_memory(fault: CarryFault) -> bool
    ensures { IsTrue result ↔ (fault ≡ CarryFault.Memory) }
{
    matches!(fault, CarryFault::Memory)
}

// The fault that ends a worker whose purge was refused so.
fn ending(fault: PurgeFault) -> Option<BufferFault>
    ensures { result ≡ ends_at_purge fault }
{
    match fault {
        PurgeFault::Buffer(BufferFault::Memory) => Some(BufferFault::Memory),
        PurgeFault::Buffer(BufferFault::Failed) => Some(BufferFault::Failed),
        _ => None,
    }
}
