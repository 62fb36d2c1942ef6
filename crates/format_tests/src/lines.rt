//! The texts of lines.

use relay_notices::{Closing, Ending, Failure, Notice, Pending, Refusal, line_of};
use std::alloc::Global;

// What each line begins with of a place `P` when 1970 begins.
const BEGINNING: &str = "1970-01-01T00:00:00Z P: ";

// Whether a line that leaves none out says this of such a place.
fn says(alloc: Global, notice: Notice, text: &str) -> bool {
    let pending = Pending {
        notice,
        left_out: 0,
    };
    match line_of(alloc, 0, "P", &pending) {
        Ok(line) => is_line(line.as_str(), text),
        Err(_) => false,
    }
}

fn is_line(line: &str, text: &str) -> bool {
    let Some(said) = line.strip_prefix(BEGINNING) else {
        return false;
    };
    said.strip_suffix("\n") == Some(text)
}

static TEXTS: [(Notice, &str); 16] = [
    (
        Notice::Fails(Failure::Refused),
        "fails: it refuses connections",
    ),
    (
        Notice::Fails(Failure::NoAddress),
        "fails: its host has no address",
    ),
    (
        Notice::Fails(Failure::NoAcknowledgement),
        "fails: no acknowledgement came in time",
    ),
    (
        Notice::Fails(Failure::Lost),
        "fails: it closed the connection",
    ),
    (Notice::Works, "works again"),
    (
        Notice::GivenUp,
        "a chunk was given up, since its retries are over",
    ),
    (
        Notice::NearlyFull,
        "its buffer is past 80 % of total_limit_size",
    ),
    (
        Notice::Dropped,
        "a queued chunk was dropped unsent, since its buffer is full",
    ),
    (
        Notice::NotTaken(Refusal::Full),
        "a message was refused, since its buffer is full; its client gets no answer",
    ),
    (
        Notice::NotTaken(Refusal::TooLarge),
        "a message was refused, since it is more than a chunk takes; its client gets no answer",
    ),
    (
        Notice::Closed(Closing::BadStream),
        "a client was closed, since what it sent is no message",
    ),
    (
        Notice::Closed(Closing::WrongKey),
        "a client was closed, since it didn't show the shared_key",
    ),
    (
        Notice::Closed(Closing::LateKey),
        "a client was closed, since it didn't show the shared_key within ten seconds",
    ),
    (
        Notice::Closed(Closing::HeldMost),
        "a client was closed, since messages that aren't whole take too much memory, and its own the most",
    ),
    (
        Notice::JournalFailed,
        "the journal of its buffer can't be written",
    ),
    (
        Notice::Ends(Ending::Bind),
        "ends: the address of a source can't be had",
    ),
];

fn all_say(alloc: Global) -> bool {
    for (notice, text) in &TEXTS {
        if !says(alloc, *notice, text) {
            return false;
        }
    }
    true
}

// What each notice says.
#[test]
fn notices_say_what_they_are(rt: HostRuntime) {
    assert!(rt; all_say(rt.alloc()));
}

static TIMES: [(u64, &str, u64, &str); 5] = [
    (
        0,
        "server h:1",
        0,
        "1970-01-01T00:00:00Z server h:1: works again\n",
    ),
    (
        951_827_696,
        "server h:1",
        1,
        "2000-02-29T12:34:56Z server h:1: works again (1 more left out)\n",
    ),
    (
        4_102_444_799,
        "source 0.0.0.0:24224",
        18_446_744_073_709_551_615,
        "2099-12-31T23:59:59Z source 0.0.0.0:24224: works again (18446744073709551615 more left out)\n",
    ),
    // A name ends no line, and writes over none.
    (
        0,
        "relay in a\nb\rc\u{1b}[2J",
        0,
        "1970-01-01T00:00:00Z relay in a?b?c?[2J: works again\n",
    ),
    // What is no time is the beginning of 1970.
    (
        18_446_744_073_709_551_615,
        "P",
        0,
        "1970-01-01T00:00:00Z P: works again\n",
    ),
];

// Whether the line of a place that works again, told so, is this.
fn is_told(alloc: Global, second: u64, name: &str, left_out: u64, text: &str) -> bool {
    let pending = Pending {
        notice: Notice::Works,
        left_out,
    };
    match line_of(alloc, second, name, &pending) {
        Ok(line) => line.as_str() == text,
        Err(_) => false,
    }
}

fn are_told(alloc: Global) -> bool {
    for (second, name, left_out, text) in &TIMES {
        if !is_told(alloc, *second, name, *left_out, text) {
            return false;
        }
    }
    true
}

// The time, the name, and how many are left out.
#[test]
fn lines_have_time_and_place(rt: HostRuntime) {
    assert!(rt; are_told(rt.alloc()));
}
