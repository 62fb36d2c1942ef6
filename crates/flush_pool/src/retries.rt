//! The failures of a buffer's chunks, as its workers share them.

ghost use Rattle.std.specs.Prelude.{◌≡◌, IfOk};
ghost use Rattle.flush_pool.specs.Verdicts.{IsVerdictBy};

mod known;

use ack_receipt::SharedBuffer;
use disk_files::Dir;
use known::Known;
pub(crate) use known::{Forgotten, Judgement, Noted};
use relay_notices::{Notice, Teller};
use retry_waits::RetrySettings;
use std::alloc::{AllocError, Allocator};
use std::marker::Model;
use std::sync::{Mutex, Wait};
use std::time::Clock;

/// For how many chunks a worker asks at each failure whether the buffer still has them.
const LOOKS: u8 = 2;

/// Which chunks of a buffer failed and when, for all its workers, and the settings by which they
/// wait and are given up. It knows a chunk from its first failure until a worker purges it. One
/// that left its buffer otherwise is forgotten too: each failure looks at the two known chunks that
/// were looked at longest ago, so what is kept is bounded by the chunks that the buffer has.
/// Contracts see the settings.
pub struct Retries<A: Allocator> {
    settings: RetrySettings,
    known: Mutex<Known<A>>,
    // Tells of the chunks of the buffer.
    teller: Teller<A>,
}

// By hand, so that crates above don't prove again how its parts end.
impl<A: Allocator> Drop for Retries<A> {
    fn drop(self) {
        let Retries {
            settings: _,
            known: _,
            teller: _,
        } = self;
    }
}

impl<A: Allocator> Model for Retries<A> {
    ghost use Rattle.retry_waits.specs.declared.settings.RetrySettings.{RetrySettings};

    ghost Value = { RetrySettings };

    ghost view = { λ r. r.settings };
}

impl<A: Allocator + Copy> Retries<A> {
    /// No chunk has failed.
    pub fn new(alloc: A, settings: RetrySettings) -> Self
        ensures { result ≡ settings }
    {
        Retries {
            settings,
            known: Mutex::new(Known::new(alloc)),
            teller: Teller::silent(),
        }
    }

    /// Workers tell by this teller, of which the first place is the buffer, of chunks that are
    /// given up.
    pub fn telling(mut self, teller: Teller<A>) -> Self
        ensures { result ≡ self }
    {
        self.teller = teller;
        self
    }

    /// A chunk was let go, since its retries are over: it is told.
    pub(crate) fn tell_given_up<R: Wait>(&self, rt: &R) {
        self.teller.tell(rt, 0, Notice::GivenUp);
    }

    /// Lets what is known of a chunk go.
    pub(crate) fn forget<R: Wait>(&self, rt: &R, serial: u64) -> Forgotten
        ensures { result.serial ≡ serial }
    {
        self.known.lock(rt).forget(&self.settings, serial)
    }

    /// Forgets those of the next chunks that the buffer has no more.
    pub(crate) fn look_for_gone<R: Wait, D: Dir>(&self, rt: &R, buffer: &SharedBuffer<D, A>) {
        for _ in 0..LOOKS {
            let Some(serial) = self.known.lock(rt).next_turn() else {
                return;
            };
            if buffer.is_live(rt, serial) {
                self.known.lock(rt).put_last(serial);
            } else {
                let _ = self.forget(rt, serial);
            }
        }
    }

    /// What is to become of the chunk of this serial now, where its buffer lets chunks expire or
    /// doesn't: by the settings, at some time, and by some failures, which lie behind the lock.
    pub(crate) fn judge<R: Wait + Clock>(&self, rt: &R, expires: bool, serial: u64) -> Judgement
        ensures serial { result.serial ≡ serial }
        ensures expires { result.expires ≡ expires }
        ensures verdict { IsVerdictBy self.now expires result.verdict }
    {
        let read = read_clock(rt);
        self.known
            .lock(rt)
            .judge(&self.settings, expires, serial, read)
    }

    /// Whether a chunk that waits may be tried now, as far as that is known.
    pub(crate) fn is_due<R: Wait + Clock>(&self, rt: &R) -> bool {
        let read = read_clock(rt);
        self.known.lock(rt).is_due_at(read)
    }

    /// The chunk of this serial has failed once more, now. The error changes nothing.
    pub(crate) fn note<R: Wait + Clock>(&self, rt: &R, serial: u64) -> Result<Noted, AllocError>
        ensures { IfOk result (λ shown. shown.serial ≡ serial) }
    {
        let read = read_clock(rt);
        self.known.lock(rt).note(&self.settings, serial, read)
    }
}

/// The monotonic clock in milliseconds, if it can be read.
pub(crate) fn read_clock<R: Clock>(rt: &R) -> Option<u64> {
    let since = rt.monotonic().ok()?;
    Some(u64::try_from(since.as_millis()).unwrap_or(u64::MAX))
}
