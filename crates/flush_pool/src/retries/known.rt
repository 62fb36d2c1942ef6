//! What is known of a buffer's failed chunks, behind the lock that its workers share, and what
//! shows that the lock was used.

ghost use Rattle.std.specs.Prelude.{◌≡◌, IfOk, OnErr, None, max, unwrap_or};
ghost use Rattle.std.specs.FinMap as map;
ghost use Rattle.retry_waits.specs.Failed.{noted};
ghost use Rattle.flush_pool.specs.Verdicts.{IsVerdict};

use crate::acts::Others;
use crate::verdict::{Verdict, judge};
use retry_waits::{Failures, RetrySettings};
use std::alloc::{AllocError, Allocator};
use std::collections::{BTreeSet, VecDeque};

/// The failures of a buffer's chunks.
#[derive(Drop)]
pub(super) struct Known<A: Allocator> {
    failures: Failures<A>,
    /// Each of those chunks, the one that was looked at longest ago first. Where there was no
    /// memory to say so, one is missing.
    turns: VecDeque<u64, A>,
    /// From when on each of those chunks that waits is to be looked at again, and its serial. One
    /// that is tried now isn't among them, and where there was no memory to say so, one is missing.
    due: BTreeSet<(u64, u64), A>,
    /// The latest time that a worker read, in milliseconds of the monotonic clock.
    latest: u64,
}

/// The verdict on the chunk of this serial. It is made under the lock alone, as are the two below.
#[derive(Clone, Copy)]
pub(crate) struct Judgement {
    serial: u64,
    expires: bool,
    verdict: Verdict,
    others: Others,
}

/// That a failure of the chunk of this serial was noted.
#[derive(Clone, Copy)]
pub(crate) struct Noted {
    serial: u64,
}

/// That what was known of the failures of the chunk of this serial is forgotten.
#[derive(Clone, Copy)]
pub(crate) struct Forgotten {
    serial: u64,
}

impl Judgement {
    /// What is to become of the chunk.
    pub(crate) fn verdict(&self) -> Verdict
        ensures { result ≡ self.now.verdict }
    {
        self.verdict
    }

    /// What was known of the buffer's failed chunks.
    pub(crate) fn others(&self) -> Others
        ensures { result ≡ self.now.others }
    {
        self.others
    }
}

impl<A: Allocator + Copy> Known<A> {
    /// No chunk has failed.
    pub(super) fn new(alloc: A) -> Self {
        Known {
            failures: Failures::new(alloc),
            turns: VecDeque::new(alloc),
            due: BTreeSet::new(alloc),
            latest: 0,
        }
    }

    /// What is to become of the chunk of this serial, at the time that was read, where its buffer
    /// lets chunks expire or doesn't.
    pub(super) fn judge(
        &mut self,
        settings: &RetrySettings,
        expires: bool,
        serial: u64,
        read: Option<u64>,
    ) -> Judgement
        ensures serial { result.serial ≡ serial }
        ensures expires { result.expires ≡ expires }
        ensures verdict { IsVerdict settings.now expires
            (map.get self.old.failures serial) self.new.latest result.verdict }
        ensures failed { result.others.failed ≡ map.len self.old.failures }
        ensures time { self.new.latest ≡ max self.old.latest (unwrap_or read 0) }
        ensures failures { self.new.failures ≡ self.old.failures }
    {
        self.latest = later(self.latest, read);
        let verdict = judge(settings, &self.failures, expires, serial, self.latest);
        if verdict != Verdict::Wait {
            self.end_wait(settings, serial);
        }
        Judgement {
            serial,
            expires,
            verdict,
            others: Others {
                failed: self.failures.chunk_count(),
                due: self.is_due(),
            },
        }
    }

    /// Whether a chunk that waits is due at this time, as far as that is known.
    pub(super) fn is_due_at(&mut self, read: Option<u64>) -> bool
        ensures { self.new.failures ≡ self.old.failures }
    {
        self.latest = later(self.latest, read);
        self.is_due()
    }

    // Whether one that waits is due at the latest time, as far as that is known.
    fn is_due(&self) -> bool {
        match self.due.first() {
            Some((due, _)) => *due <= self.latest,
            None => false,
        }
    }

    // The chunk of this serial waits no longer: it is tried, or it is gone.
    fn end_wait(&mut self, settings: &RetrySettings, serial: u64)
        ensures failures { self.new.failures ≡ self.old.failures }
        ensures time { self.new.latest ≡ self.old.latest }
    {
        if let Some(moment) = self.failures.look(settings, serial) {
            let _ = self.due.remove(&(moment, serial));
        }
    }

    // The chunk of this serial waits from now on, after its last failure.
    fn begin_wait(&mut self, settings: &RetrySettings, serial: u64)
        ensures failures { self.new.failures ≡ self.old.failures }
        ensures time { self.new.latest ≡ self.old.latest }
    {
        if let Some(moment) = self.failures.look(settings, serial) {
            let _ = self.due.insert((moment, serial));
        }
    }

    /// One failure more of the chunk of this serial, at the time that was read. The error comes
    /// only at its first failure.
    pub(super) fn note(
        &mut self,
        settings: &RetrySettings,
        serial: u64,
        read: Option<u64>,
    ) -> Result<Noted, AllocError>
        ensures serial { IfOk result (λ shown. shown.serial ≡ serial) }
        ensures ok { IfOk result
            (λ shown. self.new.failures
            ≡ map.insert self.old.failures serial
            (noted self.new.latest (map.get self.old.failures serial))) }
        ensures err { OnErr result (self.new.failures ≡ self.old.failures) }
        ensures first { OnErr result (map.get self.old.failures serial ≡ None) }
        ensures time { self.new.latest ≡ max self.old.latest (unwrap_or read 0) }
    {
        self.latest = later(self.latest, read);
        let count = self.failures.chunk_count();
        self.failures.note(serial, self.latest)?;
        if self.failures.chunk_count() > count {
            let _ = self.turns.push_back(serial);
        }
        self.begin_wait(settings, serial);
        Ok(Noted { serial })
    }

    /// Lets what is known of the failures of the chunk of this serial go.
    pub(super) fn forget(&mut self, settings: &RetrySettings, serial: u64) -> Forgotten
        ensures serial { result.serial ≡ serial }
        ensures forgotten { self.new.failures ≡ map.remove self.old.failures serial }
    {
        self.end_wait(settings, serial);
        self.failures.forget(serial);
        Forgotten { serial }
    }

    /// The chunk that was looked at longest ago, if there is one. It is looked at no more, unless
    /// it is put back.
    pub(super) fn next_turn(&mut self) -> Option<u64>
        ensures { self.new.failures ≡ self.old.failures }
    {
        self.turns.pop_front()
    }

    /// The chunk was looked at just now.
    pub(super) fn put_last(&mut self, serial: u64)
        ensures { self.new.failures ≡ self.old.failures }
    {
        let _ = self.turns.push_back(serial);
    }
}

/// The later of the last time known and the one that was read. A clock that can't be read leaves
/// the time where it is, so that no chunk is tried or given up too early.
fn later(latest: u64, read: Option<u64>) -> u64
    ensures { result ≡ max latest (unwrap_or read 0) }
{
    latest.max(read.unwrap_or(0))
}
