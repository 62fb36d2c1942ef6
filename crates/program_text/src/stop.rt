//! Why no relay, or no plan, is read, as a line that is printed.

ghost use Rattle.std.specs.Prelude.{◌≡◌, IfOk, string_bytes};
ghost use Rattle.program_text.specs.Lines.{unread_line as unread_line_of};
ghost use Rattle.program_text.specs.Plans.{PrintsPlanStop};
ghost use Rattle.program_text.specs.Stops.{stop_line as stop_line_of, PrintsConfStop};

use crate::plan_text::PlanStop;
use crate::relay_text::ConfStop;
use crate::{ReadFault, Status, put_last};
use std::alloc::{AllocError, Allocator};
use std::io::Write;

/// Prints why there is no relay, as a line. The status is that of a usage.
pub fn print_conf_stop<A: Allocator, W: Write>(alloc: A, stop: ConfStop, out: &mut W) -> Status
    ensures { PrintsConfStop stop (W.contents out.old) (W.contents out.new) result }
{
    match stop_line(alloc, stop) {
        Ok(line) => put_last(out, line.as_bytes(), Status::Usage),
        Err(AllocError) => put_last(out, b"fault memory\n", Status::Usage),
    }
}

/// The line that says why there is no relay. The only error is want of memory.
pub fn stop_line<A: Allocator>(alloc: A, stop: ConfStop) -> Result<String<A>, AllocError>
    ensures { IfOk result (λ line. string_bytes line ≡ stop_line_of stop) }
{
    match stop {
        ConfStop::Text(fault) => format!(in alloc; "fault {fault}\n"),
        ConfStop::Relay(fault) => format!(in alloc; "fault {fault}\n"),
        ConfStop::Unread(fault) => String::from_str(alloc, unread_line(fault)),
    }
}

/// Prints why there is no plan, as a line. The status is that of a usage.
pub fn print_plan_stop<A: Allocator, W: Write>(alloc: A, stop: PlanStop, out: &mut W) -> Status
    ensures { PrintsPlanStop stop (W.contents out.old) (W.contents out.new) result }
{
    match stop {
        PlanStop::Plan(fault) => match format!(in alloc; "fault {fault}\n") {
            Ok(line) => put_last(out, line.as_bytes(), Status::Usage),
            Err(AllocError) => put_last(
                out,
                unread_line(ReadFault::Memory).as_bytes(),
                Status::Usage,
            ),
        },
        PlanStop::Unread(fault) => put_last(out, unread_line(fault).as_bytes(), Status::Usage),
    }
}

/// The line that says why a text isn't read.
pub fn unread_line(fault: ReadFault) -> &'static str
    ensures { result.now ≡ unread_line_of fault }
{
    match fault {
        ReadFault::Memory => "fault memory\n",
        ReadFault::Read => "fault read\n",
    }
}
