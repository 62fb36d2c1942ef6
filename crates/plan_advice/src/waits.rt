//! Outputs that wait long for a server that is silent.

use crate::links::Forward;
use crate::notes::Notes;
use crate::pieces::Piece;
use crate::warned_plan::WarnedPlan;
use std::alloc::{AllocError, Allocator};

// The longest wait for an acknowledgement that isn't warned of, in seconds.
const LONG_WAIT: u64 = 60;

/// Warns of each output with several servers that waits for an acknowledgement for more than a
/// minute. The only error is want of memory.
pub(crate) fn put_waits<A: Allocator + Copy>(
    about: &WarnedPlan<'_, A>,
    forwards: &[Forward<'_, A>],
    notes: &mut Notes<A>,
) -> Result<(), AllocError> {
    for forward in forwards {
        let settings = forward.settings;
        if settings.servers.len() > 1 && settings.ack_response_timeout > LONG_WAIT {
            put_wait(about, forward, notes)?;
        }
    }
    Ok(())
}

// Adds the warning of this output.
fn put_wait<A: Allocator + Copy>(
    about: &WarnedPlan<'_, A>,
    forward: &Forward<'_, A>,
    notes: &mut Notes<A>,
) -> Result<(), AllocError> {
    notes.put_at(
        about,
        &[
            Piece::Text(
                b"a server that takes a connection and doesn't answer holds each chunk of this output for ",
            ),
            Piece::Number(forward.settings.ack_response_timeout),
            Piece::Text(b" seconds (ack_response_timeout), and no other server is tried."),
        ],
        &[(forward.place, forward.line)],
    )
}
