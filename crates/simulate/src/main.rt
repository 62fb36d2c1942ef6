//! Runs drawn networks of relays in memory, with the proved machine of steps as the judge.
//!
//!     simulate SEED COUNT     so many runs, of this seed and those behind it
//!     simulate SEED shorter   the run of this seed; where it is wrong, with few acts
//!
//! It prints how many runs there were, and status 0. At the first that is wrong it prints the seed,
//! the plan, each configuration, and what is wrong with the steps so far, in the form that
//! `relaynet replay` takes: status 1. Status 2: other words, or no memory.
//!
//! In a run each choice is drawn, and each action is told to the machine. A relay is the product's
//! own parts over folders in memory, which outlive its stops, and a connection to it has no socket.
#![tactic(auto)]

mod arriving;
mod chunks;
mod closing;
mod dice;
mod disk;
mod drawing;
mod hearing;
mod held;
mod judge;
mod lent;
mod link;
mod machine;
mod opened;
mod opening;
mod parts;
mod playing;
mod product;
mod restarting;
mod run;
mod runs;
mod sending;
mod shelf;
mod shorter;
mod site;
mod stock;
mod storing;
mod text;
mod working;

use runs::run_all;
use shorter::run_shorter;
use std::process::ExitCode;
use std::sync::Wait;
use std::time::Clock;
use std::{env, io};

/// What is to be run.
#[derive(Clone, Copy)]
enum Asked {
    /// So many runs, of this seed and those behind it.
    Runs(u64, u64),
    /// The run of this seed, shorter where it is wrong.
    Shorter(u64),
}

// What the words ask for; `None` for other words.
fn read_words(rt: &HostRuntime) -> io::Result<Option<Asked>> {
    let words: Vec<String> = env::args(rt)?.collect(rt.alloc())?;
    let [_, seed, word] = words.as_slice() else {
        return Ok(None);
    };
    let Ok(seed) = seed.parse::<u64>() else {
        return Ok(None);
    };
    if word.as_str() == "shorter" {
        return Ok(Some(Asked::Shorter(seed)));
    }
    match word.parse::<u64>() {
        Ok(count) => Ok(Some(Asked::Runs(seed, count))),
        Err(_) => Ok(None),
    }
}

// Runs what is asked for, and prints how many runs there were, or what is wrong with one: the
// status.
fn run_asked<R: Wait + Clock + Print + AllocGlobal>(rt: &R, asked: Asked) -> io::Result<u8> {
    match asked {
        Asked::Runs(first, count) => show(rt, count, run_all(rt, rt.alloc(), first, count)?),
        Asked::Shorter(seed) => show(rt, 1, run_shorter(rt, rt.alloc(), seed)?),
    }
}

// Prints that so many runs went well, or what is wrong with one: the status.
fn show<R: Print>(rt: &R, count: u64, wrong: Option<String>) -> io::Result<u8> {
    match wrong {
        Some(text) => {
            println!(rt; "{text}")?;
            Ok(1)
        }
        None => {
            println!(rt; "{count} runs")?;
            Ok(0)
        }
    }
}

fn main(rt: HostRuntime) -> ExitCode {
    let status = match read_words(&rt) {
        Ok(Some(asked)) => run_asked(&rt, asked).unwrap_or(2),
        _ => 2,
    };
    ExitCode::from(status)
}
