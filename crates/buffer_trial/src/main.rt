//! Tries buffers. ./test kills it at random moments and looks for each append that it had answered,
//! and has it stop a buffer and a sink at each call; bench/buffers and bench/pool time it.
//!
//!     buffer_trial append FOLDER
//!         appends one numbered entry after another, and prints each number after its `Ok`
//!     buffer_trial list FOLDER
//!         prints the numbers of all entries in live chunks
//!     buffer_trial fill FOLDER COUNT SIZE EACH
//!         appends so many entries of so many bytes, with one sync for each so many
//!     buffer_trial churn FOLDER COUNT SIZE
//!         appends so many, and queues, claims and purges each at once
//!     buffer_trial open FOLDER
//!         prints how many bytes of entries the live chunks have
//!     buffer_trial renew FOLDER
//!         renews the journal, and prints how many entries the first chunk has, read from it
//!     buffer_trial queue COUNT
//!         stages so many chunks of one tag in memory, and queues them
//!     buffer_trial stop buffers
//!         stops a buffer at each of its calls
//!     buffer_trial stop generations
//!         cuts the newer of two generations of a journal at each length
//!     buffer_trial stop sinks
//!         stops a sink at each of its calls
//!     buffer_trial pool purge WORKERS THOUSANDS
//!         purges so many thousand queued chunks by so many workers, and prints how many a second
//!     buffer_trial pool claim QUEUED THOUSANDS
//!         claims and gives back so many thousand times while so many thousand chunks are queued
//!
//! It ends with 1 where something is wrong, and with 2 where it isn't asked so.
#![tactic(auto)]

mod filling;
mod pools;
mod puts;
mod stops;

use disk_files::MemoryDir;
use std::process::ExitCode;
use std::{env, io};

// What becomes of words that ask for no threads: whether all is well, if they ask for something.
fn answer(rt: &HostRuntime, words: &[String]) -> Option<bool> {
    match words {
        [word, rest @ ..] if word.as_str() == "stop" => stops::answer(rt, rest),
        _ => filling::answer(rt, words),
    }
}

fn words(rt: &HostRuntime) -> io::Result<Vec<String>> {
    let words: Vec<String> = env::args(rt)?.collect(rt.alloc())?;
    Ok(words)
}

fn main(rt: HostRuntime) -> ExitCode {
    let Ok(words) = words(&rt) else {
        return ExitCode::from(2);
    };
    let is_well = match words.as_slice() {
        [_, word, rest @ ..] if word.as_str() == "pool" => {
            pools::answer(&rt, rt.alloc(), MemoryDir::new(rt.alloc()), rest)
        }
        [_, rest @ ..] => answer(&rt, rest),
        [] => None,
    };
    ExitCode::from(match is_well {
        Some(true) => 0,
        Some(false) => 1,
        None => 2,
    })
}
