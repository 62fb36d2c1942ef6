//! When the staged chunks of a buffer are queued.

ghost use Rattle.std.specs.Prelude.{◌≡◌, ◌<◌, ◌-◌, ◌*◌, ◌^◌, ◌++◌, ◌∷◌, [], drop, min, slice_get, IfOk, IsSomeAnd, OnOk};
ghost use Rattle.loop_core.specs.Schedules.{due_in, noted, staged_at};

use ack_receipt::Unstaged;
use buffer_state::{LiveChunks, Stage};
use relay_conf::FlushMode;
use std::alloc::{AllocError, Allocator};
use std::collections::VecDeque;
use std::marker::Model;

/// A staged chunk, and since when it is there, in milliseconds since one fixed start.
#[derive(Clone, Copy, PartialEq, Eq)]
pub struct Staged {
    pub serial: u64,
    pub since: u64,
}

/// The staged chunks of a buffer, by rising serial, and when they are queued: at once, or when the
/// flush interval has passed since their first append (since the buffer's opening for chunks that
/// were there then).
#[derive(Drop)]
pub struct Schedule<A: Allocator> {
    mode: FlushMode,
    // In milliseconds.
    interval: u64,
    chunks: VecDeque<Staged, A>,
}

impl<A: Allocator> Model for Schedule<A> {
    ghost use Rattle.std.specs.Prelude.{◌-◌};
    ghost use Rattle.std.specs.VecDeque.{deque_len, deque_capacity};
    ghost use Rattle.loop_core.specs.Schedules.{Plan};

    ghost Value = { Plan };

    ghost view = { λ s. record {
      mode = s.mode;
      interval = s.interval;
      chunks = s.chunks.items;
      room = deque_capacity s.chunks - deque_len s.chunks;
    } };
}

impl<A: Allocator + Copy> Schedule<A> {
    /// The schedule of a buffer that is opened now and has these live chunks: each staged one, of
    /// whatever tag, is there since now. The interval is in seconds.
    ///
    /// The error is want of memory.
    pub fn of_staged(
        alloc: A,
        mode: FlushMode,
        interval: u64,
        chunks: &LiveChunks<'_, A>,
        now: u64,
    ) -> Result<Self, AllocError>
        ensures mode { IfOk result (λ schedule. schedule.mode ≡ mode) }
        ensures chunks { IfOk result (λ schedule. schedule.chunks ≡ staged_at now chunks.now) }
        ensures interval { IfOk result (λ schedule. schedule.interval
            ≡ min (interval * 1000) (2 ^ 64 - 1)) }
    {
        let mut schedule = Schedule::new(alloc, mode, interval);
        for shown in chunks.iter() {
            match shown.stage {
                Stage::Staged => {
                    schedule.reserve()?;
                    schedule.push(shown.serial, now);
                }
                Stage::Queued | Stage::Claimed => {}
            }
        }
        Ok(schedule)
    }
}

impl<A: Allocator> Schedule<A> {
    /// No chunk is staged. The interval is in seconds.
    pub fn new(alloc: A, mode: FlushMode, interval: u64) -> Self
        ensures mode { result.mode ≡ mode }
        ensures chunks { result.chunks ≡ [] }
        ensures interval { result.interval ≡ min (interval * 1000) (2 ^ 64 - 1) }
    {
        Schedule {
            mode,
            interval: interval.saturating_mul(1_000),
            chunks: VecDeque::new(alloc),
        }
    }

    /// Makes room for one chunk.
    pub fn reserve(&mut self) -> Result<(), AllocError>
        ensures room { OnOk result (0 < self.new.room) }
        ensures rest { self.new ≡ record self.old { room = self.new.room } }
    {
        self.chunks.reserve(1)
    }

    /// An append went to this chunk. The first one of a chunk is what counts; serials rise.
    pub fn note(&mut self, serial: u64, now: u64)
        requires { 0 < self.old.room }
        ensures chunks { self.new.chunks ≡ noted serial now self.old.chunks }
        ensures rest { self.new
            ≡ record self.old { chunks = self.new.chunks; room = self.new.room } }
    {
        let known = match self.chunks.back() {
            Some(last) => serial <= last.serial,
            None => false,
        };
        if !known {
            self.push(serial, now);
        }
    }

    // This chunk is staged too, and comes last.
    fn push(&mut self, serial: u64, now: u64)
        requires { 0 < self.old.room }
        ensures chunks { self.new.chunks
            ≡ self.old.chunks ++ record { serial = serial; since = now } ∷ [] }
        ensures rest { self.new
            ≡ record self.old { chunks = self.new.chunks; room = self.new.room } }
    {
        self.chunks
            .push_back_reserved(Staged { serial, since: now });
    }

    /// The first chunk, if it is to be queued now.
    pub fn due(&self, now: u64) -> Option<u64>
        ensures { result ≡ due_in self.now.mode self.now.interval now self.now.chunks }
    {
        let first = self.chunks.front()?;
        match self.mode {
            FlushMode::Immediate => Some(first.serial),
            FlushMode::Interval => {
                if now.saturating_sub(first.since) >= self.interval {
                    Some(first.serial)
                } else {
                    None
                }
            }
        }
    }

    /// The first chunk is this one, which is staged no more.
    pub fn forget_first(&mut self, unstaged: Unstaged)
        requires { IsSomeAnd (slice_get self.old.chunks 0)
            (λ first. first.serial ≡ unstaged.serial) }
        ensures chunks { self.new.chunks ≡ drop 1 self.old.chunks }
        ensures rest { self.new
            ≡ record self.old { chunks = self.new.chunks; room = self.new.room } }
    {
        let _ = (self.chunks.pop_front(), unstaged);
    }
}
