//! Waits up to their limits, and failures that are counted by chunk.

use retry_waits::{Failures, RetrySettings, retry_after};
use std::alloc::Global;

const SETTINGS: RetrySettings = RetrySettings {
    wait: 1,
    exponential_backoff_base: 2,
    max_interval: None,
    max_times: Some(2),
    timeout: 60,
    forever: false,
};

// How many failures, and after how many seconds the next try comes.
static WAITS: [(u64, u64); 4] = [
    (1, 1),
    (5, 16),
    (64, 9_223_372_036_854_775_808),
    (65, 18_446_744_073_709_551_615),
];

fn are_waits() -> bool {
    for (failures, wait) in &WAITS {
        if retry_after(&SETTINGS, *failures) != *wait {
            return false;
        }
    }
    true
}

const CAPPED: RetrySettings = RetrySettings {
    max_interval: Some(10),
    ..SETTINGS
};

#[test]
fn waits_grow_up_to_the_limits(rt: HostRuntime) {
    assert!(rt; are_waits() && retry_after(&CAPPED, 5) == 10);
}

// A failure at some millisecond, or a question at one, of chunk 7 or another, with its answer.
#[derive(Clone, Copy)]
enum Act {
    Fails(u64),
    IsDue(u64, u64, bool),
    IsOver(u64, bool),
    Counted(usize),
    Forget,
}

static ACTS: [Act; 15] = [
    Act::IsDue(7, 0, true),
    Act::Fails(1_000),
    Act::IsDue(7, 1_999, false),
    Act::IsDue(7, 2_000, true),
    Act::IsDue(8, 1_999, true),
    Act::Fails(2_000),
    Act::IsOver(60_999, false),
    Act::IsOver(61_000, true),
    Act::Fails(4_000),
    Act::IsOver(4_000, true),
    Act::Counted(1),
    Act::Forget,
    Act::Counted(0),
    Act::IsDue(7, 4_000, true),
    Act::IsOver(4_000, false),
];

fn goes(failures: &mut Failures<Global>, act: Act) -> bool {
    match act {
        Act::Fails(now) => failures.note(7, now).is_ok(),
        Act::IsDue(chunk, now, answer) => failures.is_due(&SETTINGS, chunk, now) == answer,
        Act::IsOver(now, answer) => failures.is_over(&SETTINGS, 7, now) == answer,
        Act::Counted(count) => failures.chunk_count() == count,
        Act::Forget => {
            failures.forget(7);
            true
        }
    }
}

fn all_go(alloc: Global) -> bool {
    let mut failures = Failures::new(alloc);
    for act in &ACTS {
        if !goes(&mut failures, *act) {
            return false;
        }
    }
    true
}

#[test]
fn failures_are_counted_by_chunk(rt: HostRuntime) {
    assert!(rt; all_go(rt.alloc()));
}
