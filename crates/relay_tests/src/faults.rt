//! The codes by which a courier's faults are printed.

use flush_pool::CarryFault;
use forward_core::SessionFault;
use std::alloc::{AllocError, Global};

static CODES: [(CarryFault, &str); 4] = [
    (CarryFault::NoServer, "X1"),
    (CarryFault::Timeout, "X2"),
    (CarryFault::Session(SessionFault::BadAck), "X3 Q3"),
    (CarryFault::Device, "X4"),
];

fn is_printed(alloc: Global, fault: CarryFault, code: &str) -> bool {
    match format!(in alloc; "{fault}") {
        Ok(text) => text.as_str() == code,
        Err(AllocError) => false,
    }
}

fn are_printed(alloc: Global) -> bool {
    for (fault, code) in &CODES {
        if !is_printed(alloc, *fault, code) {
            return false;
        }
    }
    true
}

#[test]
fn prints_faults_by_their_codes(rt: HostRuntime) {
    assert!(rt; are_printed(rt.alloc()));
}
