//! A buffer and a sink are stopped at each call of a device. It looks into each folder that may be
//! left, and says how many there were and how many were wrong.

mod buffers;
mod generations;
mod looking;
mod playing;
mod runs;
mod script;
mod sinks;

use disk_files::{Keep, MemoryDir};
use looking::Wrong;
use runs::{Found, Run, STOPS, Stopping, Tally, lengths};
use std::alloc::Allocator;
use std::io::Print;

// A script, writes, or an opening ask for fewer calls of the folder than this.
const MOST_CALLS: u64 = 90;

// What is stopped.
#[derive(Clone, Copy)]
enum Kind {
    // A buffer, behind the first acts of its script.
    Buffer,
    // The opening of a buffer over two generations of a journal, of which the newer is cut.
    Generations,
    // A sink, behind its first writes.
    Sink,
}

// What a run comes to.
fn found<A: Allocator + Copy, D: Stopping<A>>(alloc: A, kind: Kind, run: &Run) -> Found {
    match kind {
        Kind::Buffer => buffers::found::<A, D>(alloc, run),
        Kind::Generations => generations::found::<A, D>(alloc, run),
        Kind::Sink => sinks::found::<A, D>(alloc, run),
    }
}

// The least and the greatest length that a stop may leave of the file that was written to last; of
// an opening no length between them is tried.
fn ends<A: Allocator + Copy, D: Stopping<A>>(alloc: A, kind: Kind, run: &Run) -> (usize, usize) {
    let few = run.stopped_by(Keep::Last(0));
    let all = run.stopped_by(Keep::Greatest);
    match kind {
        Kind::Buffer => lengths(
            buffers::folder::<A, D>(alloc, &few),
            buffers::folder::<A, D>(alloc, &all),
            &buffers::NAMES,
        ),
        Kind::Generations => (0, 0),
        Kind::Sink => lengths(
            sinks::folder::<A, D>(alloc, &few),
            sinks::folder::<A, D>(alloc, &all),
            &sinks::NAMES,
        ),
    }
}

// Prints what is wrong behind a run. Where it can't be printed it is counted all the same.
fn tell<R: Print>(rt: &R, wrong: Wrong, run: &Run) {
    let Run {
        before,
        passes,
        is_alone,
        stop,
    } = *run;
    let _ = println!(rt; "{wrong:?} behind {before}, call {passes}, alone {is_alone}, {stop:?}");
}

// Looks at the folder that a run leaves, and says whether no call failed in it.
fn look<R: Print, A: Allocator + Copy, D: Stopping<A>>(
    rt: &R,
    alloc: A,
    tally: &mut Tally,
    kind: Kind,
    run: &Run,
) -> bool {
    let found = found::<A, D>(alloc, kind, run);
    if let Some(wrong) = found.wrong {
        tell(rt, wrong, run);
    }
    tally.count(found.wrong.is_some());
    found.is_whole
}

// Each stop behind calls of which some fail, and whether none failed.
fn stops<R: Print, A: Allocator + Copy, D: Stopping<A>>(
    rt: &R,
    alloc: A,
    tally: &mut Tally,
    kind: Kind,
    run: &Run,
) -> bool {
    let mut is_whole = false;
    for stop in &STOPS {
        is_whole = look::<R, A, D>(
            rt,
            alloc,
            tally,
            kind,
            &Run {
                stop: *stop,
                ..*run
            },
        );
    }
    let (least, most) = ends::<A, D>(alloc, kind, run);
    for kept in least..most {
        let run = run.stopped_by(Keep::Last(kept));
        look::<R, A, D>(rt, alloc, tally, kind, &run);
    }
    is_whole
}

// The same where a call fails with all behind it and, but for openings, where it fails alone.
fn faults<R: Print, A: Allocator + Copy, D: Stopping<A>>(
    rt: &R,
    alloc: A,
    tally: &mut Tally,
    kind: Kind,
    run: &Run,
) -> bool {
    let is_whole = stops::<R, A, D>(rt, alloc, tally, kind, run);
    if matches!(kind, Kind::Generations) {
        return is_whole;
    }
    let alone = Run {
        is_alone: true,
        ..*run
    };
    stops::<R, A, D>(rt, alloc, tally, kind, &alone) && is_whole
}

// The same of each call behind so much that is done before, until none fails.
fn calls<R: Print, A: Allocator + Copy, D: Stopping<A>>(
    rt: &R,
    alloc: A,
    tally: &mut Tally,
    kind: Kind,
    before: usize,
) {
    for passes in 0..MOST_CALLS {
        let run = Run::new(before, passes);
        if faults::<R, A, D>(rt, alloc, tally, kind, &run) {
            return;
        }
    }
}

// The same of openings, behind each length of the newer generation. Where no call fails the third
// one stands alone then.
fn openings<R: Print, A: Allocator + Copy, D: Stopping<A>>(rt: &R, alloc: A, tally: &mut Tally) {
    for length in 0..=generations::NEWER.len() {
        tally.count(!generations::is_renewed::<A, D>(alloc, length));
        calls::<R, A, D>(rt, alloc, tally, Kind::Generations, length);
    }
}

// The same of a buffer: from a new folder on, and from one in which the first acts were done.
fn acts<R: Print, A: Allocator + Copy, D: Stopping<A>>(rt: &R, alloc: A, tally: &mut Tally) {
    for before in [0, 13] {
        calls::<R, A, D>(rt, alloc, tally, Kind::Buffer, before);
    }
}

// What the word asks for.
fn tally_of<R: Print, A: Allocator + Copy, D: Stopping<A>>(
    rt: &R,
    alloc: A,
    word: &str,
) -> Option<Tally> {
    let mut tally = Tally::new();
    match word {
        "buffers" => acts::<R, A, D>(rt, alloc, &mut tally),
        "generations" => openings::<R, A, D>(rt, alloc, &mut tally),
        "sinks" => calls::<R, A, D>(rt, alloc, &mut tally, Kind::Sink, sinks::EARLIER),
        _ => return None,
    }
    Some(tally)
}

/// What becomes of these words: whether no folder is wrong, if they ask for something.
pub fn answer(rt: &HostRuntime, words: &[String]) -> Option<bool> {
    let [word] = words else {
        return None;
    };
    let tally = tally_of::<_, _, MemoryDir<_>>(rt, rt.alloc(), word)?;
    let is_told = println!(rt; "{} folders, {} wrong", tally.folders, tally.wrong).is_ok();
    Some(is_told && tally.wrong == 0)
}
