//! A worker's pass over the chunks that wait, and what it knows of the queue by that.

ghost use Rattle.std.specs.Prelude.{◌≡◌, ◌↔◌, IsNone, IfSome};
ghost use Rattle.flush_pool.specs.Passes.{begun, EndsAt, gone_on, IsBehind};

use crate::acts::Others;

/// A pass over the chunks that wait: a worker gives each back and tries the next, until it has seen
/// all that can wait.
#[derive(Clone, Copy)]
pub(crate) struct Pass {
    /// The chunk that it began with.
    pub first: Option<u64>,
    /// How many chunks it gave back.
    pub chunks: u64,
}

impl Pass {
    /// Before its first chunk.
    pub(crate) fn new() -> Self
        ensures { result ≡ begun }
    {
        Pass {
            first: None,
            chunks: 0,
        }
    }

    /// The pass with one more chunk that waits, where so many chunks have failed; or none where it
    /// ends there: it has come back to its first chunk, or given back more than can wait. Several
    /// workers may hide a chunk from one another, so that it doesn't come back to the first: the
    /// count ends it then.
    pub(crate) fn then(self, serial: u64, failed: usize) -> Option<Pass>
        ensures ends { IsNone result ↔ EndsAt self serial failed }
        ensures goes_on { IfSome result (λ pass. pass ≡ gone_on self serial) }
    {
        let chunks = self.chunks.saturating_add(1);
        if self.first == Some(serial) || chunks > failed as u64 {
            return None;
        }
        Some(Pass {
            first: Some(self.first.unwrap_or(serial)),
            chunks,
        })
    }
}

/// What a worker knows of the queue. Counts are of how often a chunk was queued.
#[derive(Clone, Copy)]
pub(crate) struct Watch {
    /// Its pass over the chunks that wait.
    pub pass: Pass,
    /// The count when that pass began.
    pub began: u64,
    /// Of what was queued up to this count each chunk waits, or is in another worker's hands.
    pub all_wait: Option<u64>,
}

/// What a worker knows behind a chunk that waits.
#[derive(Clone, Copy)]
pub(crate) enum Seen {
    /// There may be chunks that can be tried.
    Part(Watch),
    /// Of what was queued up to this count each chunk waits, or is in another worker's hands.
    All(u64),
}

impl Watch {
    /// Nothing is known.
    pub(crate) fn new() -> Self {
        Watch {
            pass: Pass::new(),
            began: 0,
            all_wait: None,
        }
    }

    /// All that was queued up to this count waits, or is in another worker's hands.
    pub(crate) fn after(times: u64) -> Self {
        Watch {
            all_wait: Some(times),
            ..Watch::new()
        }
    }

    /// A pass begins anew.
    pub(crate) fn anew(self) -> Self {
        Watch {
            pass: Pass::new(),
            ..self
        }
    }

    /// What is known behind a chunk that waits, which was claimed at this count, and with it this
    /// of the others. A pass over all is spared where nothing was queued since the last one and no
    /// chunk that waits is due.
    pub(crate) fn behind(self, serial: u64, others: Others, times: u64) -> Seen
        ensures { IsBehind self serial others times result }
    {
        if self.all_wait == Some(times) && !others.due {
            return Seen::All(times);
        }
        let began = match self.pass.first {
            Some(_) => self.began,
            None => times,
        };
        match self.pass.then(serial, others.failed) {
            Some(pass) => Seen::Part(Watch {
                pass,
                began,
                all_wait: self.all_wait,
            }),
            None => Seen::All(began),
        }
    }
}
