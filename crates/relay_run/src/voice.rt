//! What a relay says on standard error while it runs, by a thread of its own.

use crate::flush::{Home, copy_of};
use crate::state::StateFile;
use loop_core::LoopFault;
use relay_conf::{BufferNo, Relay};
use relay_notices::{Due, Ending, Notice, Notices, Teller, line_of};
use relay_places::{Places, places_of};
use relay_sockets::now_after;
use std::alloc::Global;
use std::sync::atomic::{AtomicBool, Ordering};
use std::sync::{Arc, Wait};
use std::thread;
use std::thread::Threads;
use std::time::{Clock, Duration};

/// For how long the thread sleeps before it looks again what is to be said, in milliseconds.
const REST: u64 = 100;

/// How often it is looked whether all was said, with ten milliseconds between: for a second.
const LOOKS: u32 = 100;

/// A relay's notices: who has something to tell tells it here, and a thread says it, and keeps the
/// file that tells of the outputs. So who tells never waits for standard error, or for a disk.
#[derive(Drop)]
pub(crate) struct Voice {
    notices: Arc<Notices<Global>>,
    places: Places<Global>,
    flags: Arc<Flags>,
}

// What the thread and who ends it tell each other.
#[derive(Drop)]
struct Flags {
    // The folder is the relay's own.
    is_open: AtomicBool,
    // Nothing more is told.
    is_over: AtomicBool,
    // All was said.
    is_done: AtomicBool,
}

impl Voice {
    /// Begins to say what is told of this relay, with files in this folder. `Memory`: there is none
    /// for the places' names, or for a thread.
    pub(crate) fn start<R>(
        rt: &R,
        home: Home<'_>,
        relay: &Relay<Global>,
    ) -> Result<Voice, LoopFault>
    where
        R: Wait + Threads + Clock + Eprint + AllocGlobal + Clone + Drop + Send + 'static,
    {
        let alloc = home.files.alloc();
        let (places, names) = places_of(alloc, relay, home.path)?;
        let state = StateFile::new(home, relay, &places)?;
        let notices = Arc::new(alloc, Notices::new(alloc, names)?)?;
        let flags = Arc::new(alloc, Flags::new())?;
        let voice = Voice {
            notices,
            places,
            flags,
        };
        voice.spawn(rt, state)?;
        if relay.sources.is_empty() {
            voice.notices.tell(rt, 0, Notice::NoSource);
        }
        Ok(voice)
    }

    // Starts the thread. It isn't joined: where nobody reads standard error, it may wait for ever.
    fn spawn<R>(&self, rt: &R, state: StateFile) -> Result<(), LoopFault>
    where
        R: Wait + Threads + Clock + Eprint + AllocGlobal + Clone + Drop + Send + 'static,
    {
        let theirs = copy_of(rt)?;
        let notices = Arc::try_clone(&self.notices)?;
        let flags = Arc::try_clone(&self.flags)?;
        match thread::spawn(rt, move || say_all(&theirs, &notices, &flags, state)) {
            Ok(_) => Ok(()),
            Err(_) => Err(LoopFault::Memory),
        }
    }

    /// The relay has its folder: what no journal tells is kept in a file there.
    pub(crate) fn keep_state(&self) {
        self.flags.is_open.store(true, Ordering::SeqCst);
    }

    /// Nothing more is told: waits until all is said, for a second at most.
    pub(crate) fn end<R: Clock>(self, rt: &R) {
        self.flags.is_over.store(true, Ordering::SeqCst);
        for _ in 0..LOOKS {
            if self.flags.is_done.load(Ordering::SeqCst) {
                return;
            }
            thread::sleep(rt, Duration::from_millis(10));
        }
    }

    /// The relay ends by this fault.
    pub(crate) fn tell_end<R: Wait>(&self, rt: &R, fault: LoopFault) {
        self.notices.tell(rt, 0, Notice::Ends(ending_of(fault)));
    }

    /// The journal of the buffer with this number can't be written.
    pub(crate) fn tell_journal<R: Wait>(&self, rt: &R, buffer: usize) {
        let place = self.places.journals(buffer);
        self.notices.tell(rt, place, Notice::JournalFailed);
    }

    /// Tells of the clients of the sources, in their order.
    pub(crate) fn of_clients(&self) -> Teller<Global> {
        self.teller(self.places.sources())
    }

    /// Tells of the chunks of the buffer with this number.
    pub(crate) fn of_chunks(&self, buffer: BufferNo) -> Teller<Global> {
        self.teller(self.places.chunks(buffer.0))
    }

    /// Tells of what carries the chunks of the buffer with this number: its servers, or its sink.
    pub(crate) fn of_carrier(&self, buffer: BufferNo) -> Teller<Global> {
        match self.places.carriers(buffer.0) {
            Some(places) => self.teller(places.first),
            None => Teller::silent(),
        }
    }

    fn teller(&self, first: usize) -> Teller<Global> {
        Teller::new(&self.notices, first)
    }
}

impl Flags {
    // It begins.
    fn new() -> Flags {
        Flags {
            is_open: AtomicBool::new(false),
            is_over: AtomicBool::new(false),
            is_done: AtomicBool::new(false),
        }
    }
}

// Says what is told until nothing more is, and keeps the file meanwhile.
fn say_all<R: Wait + Clock + Eprint + AllocGlobal>(
    rt: &R,
    notices: &Notices<Global>,
    flags: &Flags,
    state: StateFile,
) {
    let mut state = state;
    for _ in rt.forever() {
        let is_over = flags.is_over.load(Ordering::SeqCst);
        let now = if is_over { u64::MAX } else { now_after(rt, 0) };
        say_due(rt, notices, now);
        if flags.is_open.load(Ordering::SeqCst) {
            state.look(rt, notices, now, second_of(rt));
        }
        if is_over {
            flags.is_done.store(true, Ordering::SeqCst);
            return;
        }
        thread::sleep(rt, Duration::from_millis(REST));
    }
}

// Says what is to be said now, of each place at most once.
fn say_due<R: Wait + Clock + Eprint + AllocGlobal>(rt: &R, notices: &Notices<Global>, now: u64) {
    for _ in 0..notices.places() {
        let Some(due) = notices.take(rt, now) else {
            return;
        };
        say(rt, notices, &due);
    }
}

// Says this. Where it can't be written, or there is no memory for its line, it is passed over.
fn say<R: Clock + Eprint + AllocGlobal>(rt: &R, notices: &Notices<Global>, due: &Due) {
    let name = notices.name(due.place).unwrap_or("");
    if let Ok(line) = line_of(rt.alloc(), second_of(rt), name, &due.pending) {
        let _ = rt.eprint(line);
    }
}

// How many seconds have passed since 1970 began; 0 where the host has no time.
fn second_of(rt: &impl Clock) -> u64 {
    match rt.since_1970() {
        Ok(since) => since.as_secs(),
        Err(_) => 0,
    }
}

// What is told of a fault that ends a relay.
fn ending_of(fault: LoopFault) -> Ending {
    match fault {
        LoopFault::Bind => Ending::Bind,
        LoopFault::Path => Ending::Path,
        LoopFault::Poll => Ending::Poll,
        LoopFault::Buffer(_) => Ending::Buffer,
        LoopFault::NoNumber => Ending::NoNumber,
        LoopFault::Memory => Ending::Memory,
    }
}
