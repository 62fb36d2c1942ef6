//! When events happened, as their senders say.

ghost use Rattle.std.specs.Prelude.{◌≡◌};
ghost use Rattle.folder_counts.specs.Instants.{later_instant, IsSameTime, IsShown};

use jiff_core::civil::DateTime;

// The first instant that is written as a date, 0000-01-01T00:00:00Z, in nanoseconds since the
// beginning of 1970.
const FIRST: i128 = -62_167_219_200_000_000_000;

/// An instant, as the time of an event says one.
#[derive(Clone, Copy)]
pub struct Instant {
    /// In nanoseconds since the beginning of 1970.
    pub nanos: i128,
    /// What a clock in UTC shows then; none where that is outside of the years 0 to 9999, which are
    /// those that RFC 3339 writes.
    pub shown: Option<DateTime>,
}

/// The instant of a time, where there is one.
pub(crate) fn instant_at(nanos: Option<i128>) -> Option<Instant>
    ensures { IsSameTime nanos result }
{
    match nanos {
        Some(nanos) => Some(instant_of(nanos)),
        None => None,
    }
}

// The instant so many nanoseconds after the beginning of 1970.
fn instant_of(nanos: i128) -> Instant
    ensures nanos { result.nanos ≡ nanos }
    ensures shown { IsShown result }
{
    if nanos < FIRST {
        return Instant { nanos, shown: None };
    }
    match DateTime::from_nanosecond(nanos) {
        Ok(shown) => Instant {
            nanos,
            shown: Some(shown),
        },
        Err(_) => Instant { nanos, shown: None },
    }
}

/// The later of both instants, where both are there.
pub(crate) fn later_instant(a: Option<Instant>, b: Option<Instant>) -> Option<Instant>
    ensures { result ≡ later_instant a b }
{
    match a {
        None => b,
        Some(first) => match b {
            None => a,
            Some(second) => { if first.nanos < second.nanos { b } else { a } }
        },
    }
}
