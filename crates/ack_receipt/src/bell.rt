//! Who waits for a chunk is woken when one is queued.

use std::sync::Wait;
use std::sync::atomic::{AtomicU64, Ordering};
use std::time::Duration;

/// How often it rang, for those that sleep until it rings. No lock is held while they do.
#[derive(Drop)]
pub(crate) struct Bell {
    rung: AtomicU64,
}

impl Bell {
    /// It never rang.
    pub(crate) fn new() -> Bell {
        Bell {
            rung: AtomicU64::new(0),
        }
    }

    /// Rings, and wakes one that sleeps.
    pub(crate) fn ring(&self) {
        self.rung.fetch_add(1, Ordering::SeqCst);
        self.rung.wake_one();
    }

    /// How often it rang. The count begins again after 2^64.
    pub(crate) fn times(&self) -> u64 {
        self.rung.load(Ordering::SeqCst)
    }

    /// Sleeps until it rings, where it didn't since it had rung so often, and no longer than this.
    /// It may return earlier.
    pub(crate) fn sleep<R: Wait>(&self, rt: &R, times: u64, most: Duration) {
        self.rung
            .park_timeout(rt, (times & 0xffff_ffff) as u32, most);
    }
}
