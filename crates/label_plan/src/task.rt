//! Labels that wait to be taken through the matches of their scope.

use relay_net::Entrance;
use std::alloc::Allocator;
use tag_pattern::Plain;

/// A source that puts a prefix in front: the place of its relay, and its port.
#[derive(Clone, Copy)]
pub(crate) struct Gate {
    pub relay: usize,
    pub port: u16,
}

/// How a label came to be.
#[derive(Clone, Copy)]
pub(crate) struct Origin {
    /// The task of the label that it comes from, if it comes from one.
    pub from: Option<usize>,
    /// The source through which it came in, if that has a prefix.
    pub gate: Option<Gate>,
    /// How often it was widened, and those that it comes from.
    pub widenings: usize,
}

/// A label that waits to be taken through the matches of its scope.
#[derive(Drop)]
pub(crate) struct Task<A: Allocator> {
    pub at: Entrance,
    pub pattern: Plain<A>,
    /// Whether the plan has it already.
    pub is_given: bool,
    pub origin: Origin,
}

/// That of what comes from no other label.
pub(crate) const FIRST: Origin = Origin {
    from: None,
    gate: None,
    widenings: 0,
};

/// Whether this task or one that it comes from came in through the gate.
pub(crate) fn has_passed<A: Allocator>(tasks: &[Task<A>], from: Option<usize>, gate: Gate) -> bool {
    let mut next = from;
    for _ in 0..tasks.len() {
        let Some(at) = next else {
            return false;
        };
        let Some(task) = tasks.get(at) else {
            return false;
        };
        if came_through(task.origin, gate) {
            return true;
        }
        next = task.origin.from;
    }
    false
}

// Whether what came to be so came in through the gate.
fn came_through(origin: Origin, gate: Gate) -> bool {
    match origin.gate {
        Some(found) => found.relay == gate.relay && found.port == gate.port,
        None => false,
    }
}
