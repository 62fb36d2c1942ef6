//! What is to become of a claimed chunk.

ghost use Rattle.std.specs.Prelude.{◌≡◌};
ghost use Rattle.std.specs.FinMap as map;
ghost use Rattle.flush_pool.specs.Verdicts.{IsVerdict};

use retry_waits::{Failures, RetrySettings};
use std::alloc::Allocator;

/// What is to become of a claimed chunk.
#[derive(Clone, Copy, PartialEq, Eq)]
pub(crate) enum Verdict {
    /// It is to be carried.
    Try,
    /// It waits after its last failure.
    Wait,
    /// It failed for too long or too often, and its buffer lets such a chunk go.
    GiveUp,
}

/// What is to become of the chunk of this serial, now. Times are milliseconds since one fixed
/// start.
/// Where the buffer lets no chunk expire, a chunk whose retries are over is tried like any other.
pub(crate) fn judge<A: Allocator + Copy>(
    settings: &RetrySettings,
    failures: &Failures<A>,
    expires: bool,
    serial: u64,
    now: u64,
) -> Verdict
    ensures { IsVerdict settings.now expires (map.get failures.now serial) now result }
{
    if expires && failures.is_over(settings, serial, now) {
        return Verdict::GiveUp;
    }
    if failures.is_due(settings, serial, now) {
        Verdict::Try
    } else {
        Verdict::Wait
    }
}
