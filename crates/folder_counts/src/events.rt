//! A file that spells events, counted: of its bytes are held a piece and those of one event.

ghost use Rattle.std.specs.Prelude.{◌≡◌, ◌++◌, ◌≤◌, ℕ, List, [], Err, drop, length, IfOk, OnOk};
ghost use Rattle.event_listing.specs.Forms.{Items as ItemsForm, Under};
ghost use Rattle.folder_counts.specs.Findings.{IsInSink};
ghost use Rattle.folder_counts.specs.Tallies.{earlier, later, with_event, Adds, IsHeldAfter, IsInFile, IsOldestIn};

use crate::counts::{NO_FILES, SinkCounts, plus};
use crate::instant::instant_at;
use crate::spelling::Spelling;
use event_listing::LONGEST_ITEM;
use event_modes::drop_front;
use folder_listing::{Feed, FeedStop};
use std::alloc::{AllocError, Allocator};
use std::marker::Model;

// A sink's file that is damaged.
const DAMAGED_FILE: SinkCounts = SinkCounts {
    files: 1,
    damaged: 1,
    ..NO_FILES
};

// A sink's file that isn't read to its end.
const UNREAD_FILE: SinkCounts = SinkCounts {
    files: 1,
    unread: 1,
    ..NO_FILES
};

/// Events, counted.
#[derive(Clone, Copy)]
pub(crate) struct Tally {
    /// How many they are.
    pub(crate) events: u64,
    /// The time of the oldest, in nanoseconds since the beginning of 1970; none where there are no
    /// events.
    pub(crate) oldest: Option<i128>,
    /// The same of the newest.
    pub(crate) newest: Option<i128>,
}

// No events.
const NO_EVENTS: Tally = Tally {
    events: 0,
    oldest: None,
    newest: None,
};

/// What is found in a file that spells events.
#[derive(Clone, Copy)]
pub(crate) enum FoundEvents {
    /// It is read to its end: its events, how many bytes spell them, and how many stand behind
    /// them.
    Whole { tally: Tally, taken: u64, torn: u64 },
    /// It is damaged: more bytes stand behind its events than any event has.
    Damaged,
    /// It isn't read to its end.
    Unread,
}

/// The time of the oldest event of what was read, in nanoseconds since the beginning of 1970.
#[derive(Clone, Copy)]
pub(crate) enum Oldest {
    /// All was read; none where there are no events.
    Known(Option<i128>),
    /// It isn't read to its end.
    Unread,
}

impl FoundEvents {
    /// What a sink's file counts to in which this is found.
    pub(crate) fn counts(self) -> SinkCounts
        ensures { (bytes : List ℕ) → IsInFile ItemsForm bytes self → IsInSink bytes result }
    {
        match self {
            FoundEvents::Whole { tally, taken, torn } => SinkCounts {
                files: 1,
                events: tally.events,
                bytes: taken,
                torn,
                newest_event: instant_at(tally.newest),
                ..NO_FILES
            },
            FoundEvents::Damaged => DAMAGED_FILE,
            FoundEvents::Unread => UNREAD_FILE,
        }
    }

    /// The time of the oldest of a chunk's entries, where this is found in their bytes.
    pub(crate) fn oldest(self) -> Oldest
        ensures { (bytes : List ℕ) → IsInFile (Under []) bytes self → IsOldestIn bytes result }
    {
        match self {
            FoundEvents::Whole { tally, torn: 0, .. } => Oldest::Known(tally.oldest),
            FoundEvents::Whole { .. } | FoundEvents::Damaged | FoundEvents::Unread => {
                Oldest::Unread
            }
        }
    }
}

/// What is held of a file between two pieces, and what was counted before.
#[derive(Drop)]
pub(crate) struct Held<A: Allocator, S: Spelling> {
    alloc: A,
    spelling: S,
    tally: Tally,
    // How many bytes spell the events that were counted.
    taken: u64,
    // The bytes behind them, with which no event begins.
    bytes: Vec<u8, A>,
}

impl<A: Allocator, S: Spelling> Model for Held<A, S> {
    ghost use Rattle.folder_counts.specs.Tallies.{HeldView};

    ghost Value = { HeldView };

    ghost view = { λ h. record { tally = h.tally; taken = h.taken; bytes = h.bytes.items } };
}

impl<A: Allocator + Copy, S: Spelling> Held<A, S> {
    /// Before the first piece.
    pub(crate) fn new(alloc: A, spelling: S) -> Held<A, S>
        ensures { IsHeldAfter S.form result [] }
    {
        Held {
            alloc,
            spelling,
            tally: NO_EVENTS,
            taken: 0,
            bytes: Vec::new(alloc),
        }
    }

    // Takes the next piece: counts the events that end in it, and holds what is behind them. The
    // error is want of memory, also for a number of 2^64 or more.
    fn take(&mut self, piece: &[u8]) -> Result<(), AllocError>
        ensures { OnOk result ((seen : List ℕ) → IsHeldAfter S.form self.old seen
            → IsHeldAfter S.form self.new (seen ++ piece.now)) }
    {
        self.bytes.extend_from_slice(piece)?;
        let front = count_front(self.alloc, self.spelling, self.tally, &self.bytes)?;
        self.taken = plus(self.taken, front.used as u64)?;
        self.tally = front.tally;
        drop_front(&mut self.bytes, front.used);
        Ok(())
    }
}

impl<A: Allocator + Copy, S: Spelling + Drop> Feed for Held<A, S> {
    ghost use Rattle.folder_counts.specs.Tallies.{IsHeldAfter, IsInFile, IsLong};

    type Finding = FoundEvents;

    ghost is_after = { IsHeldAfter S.form };

    ghost is_damaged = { IsLong S.form };

    ghost is_in = { IsInFile S.form };

    fn feed(&mut self, piece: &[u8]) -> Result<(), FeedStop> {
        self.take(piece)?;
        if self.bytes.len() > LONGEST_ITEM {
            return Err(FeedStop::Damaged);
        }
        Ok(())
    }

    fn finish(self) -> Result<FoundEvents, AllocError> {
        Ok(FoundEvents::Whole {
            tally: self.tally,
            taken: self.taken,
            torn: self.bytes.len() as u64,
        })
    }

    fn damaged() -> FoundEvents {
        FoundEvents::Damaged
    }

    fn unread() -> FoundEvents {
        FoundEvents::Unread
    }
}

// Events, with those that bytes begin with.
#[derive(Clone, Copy)]
struct Front {
    tally: Tally,
    // How many bytes spell those.
    used: usize,
}

// The events before, with those that the bytes hold. The error is want of memory, also for a number
// of 2^64 or more.
fn count_front<A: Allocator + Copy, S: Spelling>(
    alloc: A,
    spelling: S,
    before: Tally,
    bytes: &[u8],
) -> Result<Front, AllocError>
    ensures all { IfOk result
        (λ front. Adds S.form before bytes.now front.tally (drop front.used bytes.now)) }
    ensures used { IfOk result (λ front. front.used ≤ length bytes.now) }
{
    let mut tally = before;
    let mut rest = bytes;
    'events: loop {
        match spelling.first(alloc, rest)? {
            Some(first) => {
                tally = tally.with(first.nanos)?;
                rest = first.behind;
            }
            None => break,
        }
    }
    Ok(Front {
        tally,
        used: bytes.len() - rest.len(),
    })
}

impl Tally {
    // With one event more, of this time. The error is want of memory for a number of 2^64 or more.
    fn with(self, nanos: i128) -> Result<Tally, AllocError>
        ensures { IfOk result (λ tally. tally ≡ with_event self nanos) }
    {
        Ok(Tally {
            events: plus(self.events, 1)?,
            oldest: earlier(self.oldest, Some(nanos)),
            newest: later(self.newest, Some(nanos)),
        })
    }
}

/// The earlier of both times, where both are there.
pub(crate) fn earlier(a: Option<i128>, b: Option<i128>) -> Option<i128>
    ensures { result ≡ earlier a b }
{
    match a {
        None => b,
        Some(first) => match b {
            None => a,
            Some(second) => Some(first.min(second)),
        },
    }
}

// The later of both times, where both are there.
fn later(a: Option<i128>, b: Option<i128>) -> Option<i128>
    ensures { result ≡ later a b }
{
    match a {
        None => b,
        Some(first) => match b {
            None => a,
            Some(second) => Some(first.max(second)),
        },
    }
}
