//! What is known of a place of which is told.

ghost use Rattle.std.specs.Prelude.{◌≡◌};
ghost use Rattle.relay_notices.specs.Telling.{counted, is_due, said, told};

use crate::notice::Notice;

/// For how long nothing more is said of a place behind a line, in milliseconds.
const QUIET: u64 = 10_000;

/// What is to be said of a place: the last notice, and how many before it are left out. That number
/// stays at the greatest u64.
#[derive(Clone, Copy, Debug, PartialEq, Eq)]
pub struct Pending {
    pub notice: Notice,
    pub left_out: u64,
}

/// How often it was told of a place that it works, and that it fails; each number stays at the
/// greatest u64. It fails where the last notice says so.
#[derive(Clone, Copy, Debug, PartialEq, Eq)]
pub struct Tally {
    pub is_failing: bool,
    pub failures: u64,
    pub works: u64,
}

/// What is known of a place: what is to be said of it, from when on something may be said, in
/// milliseconds, and how often it worked and failed.
#[derive(Clone, Copy, PartialEq, Eq)]
pub struct Slot {
    pub pending: Option<Pending>,
    pub due: u64,
    pub tally: Tally,
}

impl Tally {
    // The same with this notice.
    fn counted(self, notice: Notice) -> Tally
        ensures { result ≡ counted notice self }
    {
        if notice.is_good() {
            Tally {
                is_failing: false,
                failures: self.failures,
                works: self.works.saturating_add(1),
            }
        } else {
            Tally {
                is_failing: true,
                failures: self.failures.saturating_add(1),
                works: self.works,
            }
        }
    }
}

impl Slot {
    /// Nothing was told.
    pub(crate) const UNTOLD: Slot = Slot {
        pending: None,
        due: 0,
        tally: Tally {
            is_failing: false,
            failures: 0,
            works: 0,
        },
    };

    /// The same once this was told. That a place works is counted, and said only where it failed.
    pub(crate) fn told(self, notice: Notice) -> Slot
        ensures { result ≡ told notice self }
    {
        let tally = self.tally.counted(notice);
        if notice.is_good() && !self.tally.is_failing {
            return Slot { tally, ..self };
        }
        let left_out = match self.pending {
            Some(pending) => pending.left_out.saturating_add(1),
            None => 0,
        };
        Slot {
            pending: Some(Pending { notice, left_out }),
            due: self.due,
            tally,
        }
    }

    /// Whether something is to be said now.
    pub(crate) fn is_due(self, now: u64) -> bool
        ensures { result ≡ is_due now self }
    {
        self.pending.is_some() && self.due <= now
    }

    /// The same once it was said now.
    pub(crate) fn said(self, now: u64) -> Slot
        ensures { result ≡ said now self }
    {
        Slot {
            pending: None,
            due: now.saturating_add(QUIET),
            tally: self.tally,
        }
    }
}
