//! How many chunks workers dealt with.

ghost use Rattle.std.specs.Prelude.{◌≡◌};
ghost use Rattle.flush_pool.specs.Counts.{none, counted, added};

use crate::acts::Outcome;

/// How many chunks workers dealt with. Each number stays at the greatest u64.
#[derive(Clone, Copy, Debug, PartialEq, Eq)]
pub struct Worked {
    /// How many chunks were purged: delivered, or given up where that is allowed.
    pub purged: u64,
    /// How many deliveries failed, each time that one did.
    pub failed: u64,
}

impl Worked {
    /// Nothing yet.
    pub(crate) fn new() -> Self
        ensures { result ≡ none }
    {
        Worked {
            purged: 0,
            failed: 0,
        }
    }

    /// These, and one chunk more.
    pub(crate) fn with(self, outcome: Outcome) -> Self
        ensures { result ≡ counted outcome self }
    {
        match outcome {
            Outcome::Purged => Worked {
                purged: self.purged.saturating_add(1),
                ..self
            },
            Outcome::Failed => Worked {
                failed: self.failed.saturating_add(1),
                ..self
            },
            Outcome::Waits(_) => self,
        }
    }

    /// These, and those of another worker.
    pub(crate) fn and(self, other: Worked) -> Self
        ensures { result ≡ added self other }
    {
        Worked {
            purged: self.purged.saturating_add(other.purged),
            failed: self.failed.saturating_add(other.failed),
        }
    }
}
