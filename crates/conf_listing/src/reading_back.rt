//! What is to be printed is read, as a relay would read it.

ghost use Rattle.std.specs.Prelude.{◌≡◌, Some, IfOk, IfErr};
ghost use Rattle.plan_lines.specs.Plans.{IsRelayOfText};
ghost use Rattle.program_text.specs.Stops.{IsConfStop};
ghost use Rattle.conf_listing.specs.Adapting.{AreOneKind, IsStopOfLines};

use crate::adapted::Adapted;
use conf_text::ConfFault;
use program_text::{ConfStop, read_relay};
use relay_conf::{Relay, RelayFault};
use std::alloc::Allocator;

/// The relay that the lines of an adapted configuration describe. Else why there is none, under the
/// line of the original that the line with the fault comes from.
pub(crate) fn read_back<A: Allocator + Copy>(
    alloc: A,
    adapted: &Adapted<A>,
    lines: &Vec<u8, A>,
) -> Result<Relay<A>, ConfStop>
    ensures relay { IfOk result (IsRelayOfText lines.now.items) }
    ensures stop { IfErr result (IsStopOfLines lines.now.items) }
{
    match read_relay(alloc, &mut lines.as_slice()) {
        Ok(relay) => Ok(relay),
        Err(stop) => Err(in_original(adapted, stop)),
    }
}

// The same fault, in the line of the original that its line comes from.
fn in_original<A: Allocator + Copy>(adapted: &Adapted<A>, stop: ConfStop) -> ConfStop
    ensures { AreOneKind stop result }
{
    match stop {
        ConfStop::Text(fault) => ConfStop::Text(ConfFault {
            kind: fault.kind,
            line: original_line(adapted, fault.line),
        }),
        ConfStop::Relay(fault) => ConfStop::Relay(RelayFault {
            kind: fault.kind,
            line: original_line(adapted, fault.line),
        }),
        ConfStop::Unread(fault) => ConfStop::Unread(fault),
    }
}

// The line of the original that a printed line comes from.
fn original_line<A: Allocator + Copy>(adapted: &Adapted<A>, line: usize) -> usize {
    adapted.original_line(line).unwrap_or(line)
}
