//! The failures of one chunk.

ghost use Rattle.std.specs.Prelude.{◌≡◌, ◌≤◌, ◌↔◌, IsTrue, Some};
ghost use Rattle.retry_waits.specs.Failed.{look_moment, moment_of, noted, over_moment, HasPassed, IsDue, IsOver};

use crate::settings::RetrySettings;
use crate::wait::retry_after;

/// How often a chunk's delivery failed, and when. Times are milliseconds since one fixed start.
#[derive(Clone, Copy)]
pub(crate) struct Failed {
    /// How often; it stays at the greatest u64.
    pub count: u64,
    /// When it failed first.
    pub first: u64,
    /// When it failed last.
    pub last: u64,
}

impl Failed {
    /// Those before, and one more now.
    pub(crate) fn noted(before: Option<Failed>, now: u64) -> Self
        ensures { result ≡ noted now before }
    {
        match before {
            Some(failed) => Failed {
                count: failed.count.saturating_add(1),
                last: now,
                ..failed
            },
            None => Failed {
                count: 1,
                first: now,
                last: now,
            },
        }
    }

    /// Whether it may be tried again.
    pub(crate) fn is_due(&self, settings: &RetrySettings, now: u64) -> bool
        requires counted { 1 ≤ self.now.count }
        ensures { IsTrue result ↔ IsDue settings.now (Some self.now) now }
    {
        has_passed(retry_after(settings, self.count), self.last, now)
    }

    /// From when on it is to be looked at again: it may be tried, or is to be given up.
    pub(crate) fn look(&self, settings: &RetrySettings) -> u64
        requires counted { 1 ≤ self.now.count }
        ensures { result ≡ look_moment settings.now self.now }
    {
        let due = moment_after(retry_after(settings, self.count), self.last);
        if settings.forever {
            return due;
        }
        due.min(self.over(settings))
    }

    // From when on its retries are over, where they don't go on for ever.
    fn over(&self, settings: &RetrySettings) -> u64
        ensures { result ≡ over_moment settings.now self.now }
    {
        match settings.max_times {
            Some(most) if self.count > most => 0,
            _ => moment_after(settings.timeout, self.first),
        }
    }

    /// Whether it is to be given up.
    pub(crate) fn is_over(&self, settings: &RetrySettings, now: u64) -> bool
        ensures { IsTrue result ↔ IsOver settings.now (Some self.now) now }
    {
        if settings.forever {
            return false;
        }
        has_passed(settings.timeout, self.first, now)
            || settings.max_times.is_some_and(|most| self.count > most)
    }
}

// The moment so many seconds after that, or the greatest u64.
fn moment_after(seconds: u64, since: u64) -> u64
    ensures { result ≡ moment_of seconds since }
{
    since.saturating_add(seconds.saturating_mul(1_000))
}

// Whether so many seconds have passed since then.
fn has_passed(seconds: u64, since: u64, now: u64) -> bool
    ensures { IsTrue result ↔ HasPassed seconds since now }
{
    u128::from(since) + 1_000 * u128::from(seconds) <= u128::from(now)
}
