//! A worker at a shared buffer.

ghost use Rattle.std.specs.Prelude.{◌≡◌, ◌≢◌, true, false, Some};
ghost use Rattle.flush_pool.specs.Acts.{Looked, Claimed, Judged, Asked, NotCarried, Checked, Forgot, GaveBack, at, did, idle, last};
ghost use Rattle.flush_pool.specs.Answers.{IsClaimed, IsCarried, IsPurged, IsNoted};
ghost use Rattle.flush_pool.specs.Diaries.{act_of};
ghost use Rattle.flush_pool.specs.Laws.{AreLawful, HasFailed, IsEarned, IsToGoBack, IsVouched, May, WasPurged};
ghost use Rattle.flush_pool.specs.Rounds.{Holds, IsFree};
ghost use Rattle.flush_pool.specs.declared.fault.CarryFault.{CarryFault};
ghost use Rattle.flush_pool.specs.declared.verdict.Verdict.TheVariants.{Try};

use crate::acts::Outcome;
use crate::courier::Courier;
use crate::diary::{Deed, Diary};
use crate::fault::CarryFault;
use crate::gate::{Gate, passes};
use crate::retries::{Judgement, Retries};
use crate::view::ClaimView;
use ack_receipt::{Claim, Evidence, PurgeFault, SharedBuffer};
use buffer_store::BufferFault;
use disk_files::Dir;
use std::alloc::{AllocError, Allocator};
use std::marker::Model;
use std::snapshot::Snapshot;
use std::sync::Wait;
use std::sync::atomic::{AtomicBool, Ordering};
use std::time::{Clock, Duration};

/// For how many milliseconds a worker sleeps at most that finds nothing to do, before it looks
/// again.
const REST: u64 = 10;

/// How often it sleeps so at most where all that is queued waits, before it looks at each chunk
/// again: for ten seconds.
const RESTS: u32 = 1_000;

/// A worker at a shared buffer, with all that it shares with the others. Contracts see its post,
/// which is the buffer's name and what lets its chunks go, its courier, its gate and the settings
/// of its retries, and what this worker did there, one act after another: that is kept for the
/// proofs alone, and takes no memory. Each act stands where the laws let it stand: a call for it
/// asks so. What a courier gave, or a gate said, is that of the worker's own.
///
/// What an act answers isn't known from what this worker did, since others do the same at once.
pub struct Worker<'a, R: Wait, D: Dir, A: Allocator, C: Courier<R, D, A>, G: Gate> {
    rt: &'a R,
    buffer: &'a SharedBuffer<D, A>,
    courier: &'a C,
    gate: &'a G,
    retries: &'a Retries<A>,
    stop: &'a AtomicBool,
    diary: Diary<A>,
}

impl<'a, R: Wait, D: Dir, A: Allocator, C: Courier<R, D, A>, G: Gate> Model
    for Worker<'a, R, D, A, C, G> {
    ghost use Rattle.flush_pool.specs.Acts.{Place, at};
    ghost use Rattle.flush_pool.specs.Laws.{AreLawful};

    ghost Value = { Place A C G };

    ghost view = { λ s. record {
      post = at s.buffer.now s.courier.now s.gate.now s.retries.now;
      acts = s.diary;
    } };

    // Each act stands where it may, and its own courier, gate or retries answer for it.
    ghost invariant = { λ s. AreLawful G.lets C.gives
        (at s.buffer.now s.courier.now s.gate.now s.retries.now) s.diary };
}

impl<'a, R: Wait, D: Dir, A: Allocator, C: Courier<R, D, A>, G: Gate> Drop
    for Worker<'a, R, D, A, C, G> {
    fn drop(self) {
        let Worker {
            rt: _,
            buffer: _,
            courier: _,
            gate: _,
            retries: _,
            stop: _,
            diary: _,
        } = self;
    }
}

impl<'a, R, D, A, C, G> Worker<'a, R, D, A, C, G>
where
    R: Wait + Clock,
    D: Dir,
    A: Allocator + Copy,
    C: Courier<R, D, A>,
    G: Gate,
{
    /// A worker that did nothing yet, at this buffer, with this courier and gate. It stops where
    /// `stop` is raised.
    pub fn new(
        rt: &'a R,
        buffer: &'a SharedBuffer<D, A>,
        courier: &'a C,
        gate: &'a G,
        retries: &'a Retries<A>,
        stop: &'a AtomicBool,
    ) -> Self
        ensures { result ≡ idle (at buffer.now courier.now gate.now retries.now) }
    {
        Worker {
            rt,
            buffer,
            courier,
            gate,
            retries,
            stop,
            diary: Diary::new(),
        }
    }

    /// The handle by which this worker waits.
    pub(crate) fn handle(&self) -> &'a R {
        self.rt
    }

    // Writes down what it did just now, which may stand behind the rest.
    fn write(&mut self, deed: Deed<A>)
        requires may { May self.old.post.terms.leaf self.old.post.terms.takes self.old.acts
            (act_of deed) }
        requires vouched { IsVouched G.lets C.gives self.old.post (act_of deed) }
        ensures { self.new ≡ did (act_of deed) self.old }
    {
        self.diary.add(deed);
    }

    /// All that it did is by the laws. The call does nothing: it stands for a theorem.
    pub(crate) fn stays_lawful(&self)
        ensures { AreLawful G.lets C.gives self.now.post self.now.acts }
    {
        let _ = &self.diary;
    }

    /// Whether it is to end.
    pub(crate) fn is_stopped(&mut self) -> bool
        requires { IsFree self.old.acts }
        ensures { self.new ≡ did (Looked result) self.old }
    {
        let stop = self.stop.load(Ordering::SeqCst);
        self.write(Deed::Looked(stop));
        stop
    }

    /// Claims a queued chunk, if there is one. The error is want of memory.
    pub(crate) fn claim(&mut self) -> Result<Option<Claim<A>>, AllocError>
        requires { last self.old.acts ≡ Some (Looked false) }
        ensures { IsClaimed self.old self.new result }
    {
        match self.buffer.claim(self.rt) {
            Ok(Some(claim)) => {
                let deed = Deed::Claimed(Snapshot::of(&claim));
                self.write(deed);
                Ok(Some(claim))
            }
            Ok(None) => Ok(None),
            Err(fault) => {
                self.write(Deed::Unclaimed);
                Err(fault)
            }
        }
    }

    /// Asks what is to become of the chunk that was claimed.
    pub(crate) fn judge(&mut self, claim: &Claim<A>) -> Judgement
        requires { last self.old.acts ≡ Some (Claimed claim.now.serial) }
        ensures judged { self.new ≡ did (Judged claim.now.serial result.verdict) self.old }
        // By what its own buffer says of the end of retries.
        ensures expires { result.expires ≡ self.old.post.terms.takes.expires }
    {
        let judged = self
            .retries
            .judge(self.rt, self.buffer.takes().expires, claim.serial());
        self.write(Deed::Judged(judged));
        judged
    }

    /// Asks the gate whether the chunk may be carried, as often as it takes up to the limit.
    pub(crate) fn ask_gate(&mut self, claim: &Claim<A>) -> bool
        requires { last self.old.acts ≡ Some (Judged claim.now.serial Try) }
        ensures { self.new ≡ did (Asked claim.now.serial result) self.old }
    {
        let serial = claim.serial();
        let answer = passes(self.gate, serial);
        self.write(Deed::Asked(serial, answer));
        answer
    }

    /// Has the chunk carried, and gives what the courier gave. The buffer's lock isn't held.
    pub(crate) fn carry(&mut self, claim: &Claim<A>) -> Result<Evidence<A>, CarryFault>
        requires own { claim.now.leaf ≡ self.old.post.terms.leaf }
        requires passed { last self.old.acts ≡ Some (Asked claim.now.serial true) }
        ensures { IsCarried claim.now.serial self.old self.new result }
    {
        let chunk = ClaimView::new(self.buffer, claim);
        match self.courier.carry(self.rt, &chunk) {
            Ok(evidence) => {
                let deed = Deed::Carried(claim.serial(), Snapshot::of(&evidence));
                self.write(deed);
                Ok(evidence)
            }
            Err(fault) => {
                let deed = Deed::NotCarried(claim.serial(), fault);
                self.write(deed);
                Err(fault)
            }
        }
    }

    /// Whether the buffer has failed, whose chunks can neither be read nor purged then: it is asked
    /// after its courier failed so.
    pub(crate) fn has_failed(&mut self, claim: &Claim<A>, fault: CarryFault) -> bool
        requires failed { last self.old.acts ≡ Some (NotCarried claim.now.serial fault) }
        requires other { fault ≢ CarryFault.Memory }
        ensures { self.new ≡ did (Checked claim.now.serial result) self.old }
    {
        let _ = fault;
        let failed = self.buffer.has_failed(self.rt);
        let deed = Deed::Checked(claim.serial(), failed);
        self.write(deed);
        failed
    }

    /// Purges the chunk on this evidence. A refusal hands both back.
    pub(crate) fn purge(
        &mut self,
        claim: Claim<A>,
        evidence: Evidence<A>,
    ) -> Result<(), (PurgeFault, Claim<A>, Evidence<A>)>
        requires own { claim.leaf ≡ self.old.post.terms.leaf }
        requires earned { IsEarned self.old.post.terms.leaf claim.serial evidence self.old.acts }
        ensures { IsPurged claim evidence self.old self.new result }
    {
        let serial = claim.serial();
        let shown = Snapshot::of(&evidence);
        match self.buffer.purge(self.rt, claim, evidence) {
            Ok(()) => {
                self.write(Deed::Purged(serial, shown));
                Ok(())
            }
            Err((fault, claim, evidence)) => {
                let deed = Deed::NotPurged(serial, shown, fault);
                self.write(deed);
                Err((fault, claim, evidence))
            }
        }
    }

    /// Gives the chunk back to the queue.
    pub(crate) fn give_back(&mut self, claim: Claim<A>)
        requires holds { Holds claim self.old }
        requires done { IsToGoBack claim.serial self.old.acts }
        ensures { self.new ≡ did (GaveBack claim.serial) self.old }
    {
        let shown = self.buffer.give_back_shown(self.rt, claim);
        self.write(Deed::GaveBack(shown));
    }

    /// Notes that the chunk's delivery failed, and looks for chunks that failed and are gone. The
    /// error is want of memory.
    pub(crate) fn note(&mut self, claim: &Claim<A>) -> Result<(), AllocError>
        requires { HasFailed claim.now.serial self.old.acts }
        ensures { IsNoted claim.now.serial self.old self.new result }
    {
        match self.retries.note(self.rt, claim.serial()) {
            Ok(noted) => {
                self.write(Deed::Noted(noted));
                self.look_for_gone();
                Ok(())
            }
            Err(fault) => {
                self.write(Deed::NotNoted(claim.serial()));
                Err(fault)
            }
        }
    }

    /// Lets what is known of the failures of a chunk go that was purged just now.
    pub(crate) fn forget(&mut self, serial: u64)
        requires { WasPurged serial self.old.acts }
        ensures { self.new ≡ did (Forgot serial) self.old }
    {
        let forgotten = self.retries.forget(self.rt, serial);
        self.write(Deed::Forgot(forgotten));
    }

    /// It is told of a chunk that is gone, since its retries are over.
    pub(crate) fn tell_given_up(&self, let_go: &Result<Outcome, BufferFault>) {
        if let Ok(Outcome::Purged) = let_go {
            self.retries.tell_given_up(self.rt);
        }
    }

    /// How often a chunk was queued.
    pub(crate) fn times_queued(&self) -> u64 {
        self.buffer.times_queued()
    }

    /// Sleeps for a while, or until a chunk is queued, where none was since that count.
    pub(crate) fn rest(&self, times: u64) {
        let most = Duration::from_millis(REST);
        self.buffer.sleep_until_queued(self.rt, times, most);
    }

    /// Sleeps where all that was queued up to that count waits: until one that waits is due, a
    /// chunk is queued, or it is to stop. It gives no yes where none of these came for long.
    pub(crate) fn rest_on(&self, times: u64) -> bool {
        for _ in 0..RESTS {
            self.rest(times);
            if self.stop.load(Ordering::SeqCst)
                || self.times_queued() != times
                || self.retries.is_due(self.rt)
            {
                return true;
            }
        }
        false
    }

    /// Forgets failed chunks that the buffer has no more, a few at a time.
    pub(crate) fn look_for_gone(&self) {
        self.retries.look_for_gone(self.rt, self.buffer);
    }
}
