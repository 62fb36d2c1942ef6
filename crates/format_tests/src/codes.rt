//! The codes by which faults are printed.

use custody_steps::StepFault;
use std::alloc::{AllocError, Global};
use std::fmt::Display;

static CODES: [(StepFault, &str); 3] = [
    (StepFault::NoSuch, "S1"),
    (StepFault::NotAllowed, "S2"),
    (StepFault::Memory, "memory"),
];

/// Whether a fault prints this code.
pub fn is_printed<F: Display>(alloc: Global, fault: &F, code: &str) -> bool {
    match format!(in alloc; "{fault}") {
        Ok(text) => text.as_str() == code,
        Err(AllocError) => false,
    }
}

/// Whether each of these faults prints its code.
pub fn are_printed<F: Display>(alloc: Global, rows: &[(F, &str)]) -> bool {
    for (fault, code) in rows {
        if !is_printed(alloc, fault, code) {
            return false;
        }
    }
    true
}

// What the fault of a step prints.
#[test]
fn faults_print_their_codes(rt: HostRuntime) {
    assert!(rt; are_printed(rt.alloc(), &CODES));
}
