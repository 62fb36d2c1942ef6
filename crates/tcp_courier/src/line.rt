//! A connection for a while.

ghost use Rattle.std.specs.Prelude.{◌≡◌};
ghost use Rattle.relay_sockets.specs.Traffics.{IsReadFrom, IsWrittenTo};

use relay_sockets::{Moved, Time, Wire};
use std::alloc::Allocator;
use std::sync::Arc;
use std::sync::atomic::{AtomicBool, Ordering};
use std::time::Duration;

/// How long a read or a write waits before the time, and whether to stop, is looked at, in
/// milliseconds.
const SLICE: u64 = 200;

/// A connection that is read and written up to a time.
#[derive(Drop)]
pub struct Line<'a, T, W, A: Allocator> {
    pub clock: &'a T,
    pub wire: W,
    /// By this clock, in milliseconds.
    pub until: u64,
    /// No more is waited for once it is raised.
    pub stop: &'a Arc<AtomicBool, A>,
}

impl<'a, T: Time, W: Wire, A: Allocator> Line<'a, T, W, A> {
    // How long the next read or write waits.
    fn slice(&self) -> Duration {
        let left = self.until.saturating_sub(self.clock.now_after(0));
        Duration::from_millis(left.min(SLICE).max(1))
    }

    /// Whether no more is waited for.
    pub fn is_late(&self) -> bool {
        self.stop.load(Ordering::SeqCst) || self.clock.now_after(0) >= self.until
    }

    /// Reads bytes into the piece, waiting for a little.
    pub fn get(&mut self, piece: &mut [u8]) -> Moved
        ensures origin { W.origin self.new.wire ≡ W.origin self.old.wire }
        ensures bytes { IsReadFrom (W.traffic self.old.wire)
            (W.traffic self.new.wire) piece.new result }
    {
        let most = self.slice();
        self.wire.get(piece, most)
    }

    /// Writes some of the bytes, waiting for a little.
    pub fn put(&mut self, bytes: &[u8]) -> Moved
        ensures origin { W.origin self.new.wire ≡ W.origin self.old.wire }
        ensures bytes { IsWrittenTo (W.traffic self.old.wire)
            (W.traffic self.new.wire) bytes.now result }
    {
        let most = self.slice();
        self.wire.put(bytes, most)
    }
}
