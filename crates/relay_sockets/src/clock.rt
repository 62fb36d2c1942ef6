//! Time in milliseconds.

ghost use Rattle.std.specs.Prelude.{◌≤◌};

use std::time::Clock;

/// The monotonic clock in milliseconds, or the time before where it can't be read. It never goes
/// back.
pub fn now_after(rt: &impl Clock, before: u64) -> u64
    ensures { before ≤ result }
{
    match rt.monotonic() {
        Ok(since) => u64::try_from(since.as_millis())
            .unwrap_or(u64::MAX)
            .max(before),
        Err(_) => before,
    }
}

/// A clock in milliseconds, from an arbitrary start.
pub trait Time {
    ghost use Rattle.std.specs.Prelude.{◌≡◌, ◌≤◌, ℕ, Option, None, IfSome, max};

    // what time it is, where that is known
    ghost time: { Self → Option ℕ } = { λ _. None };

    /// What time it is, or the time before where that is later, or where it can't be read.
    fn now_after(&self, before: u64) -> u64
        ensures order { before ≤ result }
        ensures known { IfSome (time self.now) (λ now. result ≡ max now before) };
}
