//! How an output may let go of what was acknowledged.

use relay_conf::{Output, OverflowAction, Server};
use relay_net::{is_in_memory, settings};
use std::alloc::Allocator;

/// How an output may let go of a chunk that nobody has elsewhere.
#[derive(Clone, Copy, PartialEq, Eq)]
pub(crate) enum Weakness {
    /// A restart empties its buffer.
    Forgets,
    /// Its oldest chunk makes room.
    DropsOldest,
    /// It discards a chunk in the end.
    GivesUp,
    /// It sends a chunk once, and asks for no acknowledgement.
    SendsOnce,
    /// It hands a chunk on to a server, which may lose it.
    HandsOn,
    /// It lets go of nothing.
    Keeps,
}

/// The first of these that the output has: those of fewer steps stand first.
pub(crate) fn weakness_of<A: Allocator>(output: &Output<A>) -> Weakness {
    if is_in_memory(output) {
        return Weakness::Forgets;
    }
    match settings(output) {
        Some(found) if found.overflow_action == OverflowAction::DropOldestChunk => {
            Weakness::DropsOldest
        }
        Some(found) if !found.retry.forever => Weakness::GivesUp,
        _ => sending(output),
    }
}

// How an output whose buffer keeps may let go by what it sends.
fn sending<A: Allocator>(output: &Output<A>) -> Weakness {
    match output {
        Output::Forward { settings, .. } if settings.require_ack_response => Weakness::HandsOn,
        Output::Forward { .. } => Weakness::SendsOnce,
        _ => Weakness::Keeps,
    }
}

/// The servers that the output sends to.
pub(crate) fn servers<A: Allocator>(output: &Output<A>) -> &[Server<A>] {
    match output {
        Output::Forward { settings, .. } => &settings.servers,
        _ => &[],
    }
}
