//! Outputs in a JSON object (RFC 8259).

ghost use Rattle.std.specs.Prelude.{codes, fold, option_map, OnOk};
ghost use Rattle.folder_counts.specs.Object.{Becomes};
ghost use Rattle.folder_counts.specs.Outputs.{
  used_of,
  with_members,
  with_output,
  with_outputs,
  with_path,
  with_place,
  with_some,
  with_tries,
};

use crate::buffers::Buffer;
use crate::object::{Member, begin_list, put_all, put_number, put_time};
use crate::outputs::{Output, used_of};
use json::Writer;
use std::alloc::{AllocError, Allocator};

/// Writes the member with these outputs, whose buffers are among these; nothing where there are
/// none. The error is want of memory, also for a number of 2^64 or more.
pub(crate) fn put_outputs<A: Allocator + Copy>(
    alloc: A,
    writer: &mut Writer<A>,
    buffers: &[Buffer<'_>],
    outputs: &[Output<'_>],
) -> Result<(), AllocError>
    ensures { OnOk result (Becomes writer.old writer.new
        (with_outputs writer.old.tokens buffers.now outputs.now)) }
{
    if outputs.is_empty() {
        return Ok(());
    }
    begin_list(writer, "outputs")?;
    put_each_output(alloc, writer, buffers, outputs)?;
    writer.end_array()
}

// Writes the objects of these outputs.
fn put_each_output<A: Allocator + Copy>(
    alloc: A,
    writer: &mut Writer<A>,
    buffers: &[Buffer<'_>],
    outputs: &[Output<'_>],
) -> Result<(), AllocError>
    ensures { OnOk result (Becomes writer.old writer.new
        (fold (with_output buffers.now) writer.old.tokens outputs.now)) }
{
    for output in outputs {
        put_output(alloc, writer, buffers, output)?;
    }
    Ok(())
}

// Writes the object of an output.
fn put_output<A: Allocator + Copy>(
    alloc: A,
    writer: &mut Writer<A>,
    buffers: &[Buffer<'_>],
    output: &Output<'_>,
) -> Result<(), AllocError>
    ensures { OnOk result (Becomes writer.old writer.new
        (with_output buffers.now writer.old.tokens output.now)) }
{
    writer.begin_object()?;
    put_members(alloc, writer, buffers, output)?;
    writer.end_object()
}

// Writes the members of an output.
fn put_members<A: Allocator + Copy>(
    alloc: A,
    writer: &mut Writer<A>,
    buffers: &[Buffer<'_>],
    output: &Output<'_>,
) -> Result<(), AllocError>
    ensures { OnOk result (Becomes writer.old writer.new
        (with_members buffers.now writer.old.tokens output.now)) }
{
    put_place(writer, output)?;
    put_used(writer, buffers, output)?;
    put_tries(alloc, writer, output)
}

// Writes the members of where an output stands, its buffer, and the limit of that.
fn put_place<A: Allocator>(writer: &mut Writer<A>, output: &Output<'_>) -> Result<(), AllocError>
    ensures { OnOk result (Becomes writer.old writer.new
        (with_place writer.old.tokens output.now.state)) }
{
    let counts = output.counts();
    put_number(writer, "line", output.line())?;
    put_path(writer, output.path())?;
    put_number(writer, "limit", counts.limit)
}

// Writes the member whose value is the path of a buffer; null where it is in memory.
fn put_path<A: Allocator>(writer: &mut Writer<A>, path: Option<&str>) -> Result<(), AllocError>
    ensures { OnOk result (Becomes writer.old writer.new
        (with_path writer.old.tokens (option_map (λ text. text.now) path.entry))) }
{
    writer.key("buffer")?;
    match path {
        Some(path) => writer.string(path),
        None => writer.null(),
    }
}

// Writes the member of how many percent of its limit the buffer holds; nothing where that isn't
// known.
fn put_used<A: Allocator>(
    writer: &mut Writer<A>,
    buffers: &[Buffer<'_>],
    output: &Output<'_>,
) -> Result<(), AllocError>
    ensures { OnOk result (Becomes writer.old writer.new
        (with_some writer.old.tokens (codes "used") (used_of buffers.now output.now.state))) }
{
    match used_of(buffers, output)? {
        Some(percent) => put_number(writer, "used", percent),
        None => Ok(()),
    }
}

// Writes the members of what failed, what was delivered, and when the last delivery was.
fn put_tries<A: Allocator + Copy>(
    alloc: A,
    writer: &mut Writer<A>,
    output: &Output<'_>,
) -> Result<(), AllocError>
    ensures { OnOk result (Becomes writer.old writer.new
        (with_tries writer.old.tokens output.now)) }
{
    let counts = output.counts();
    put_all(
        writer,
        &[
            Member::Number("failing", counts.failing),
            Member::Number("failures", counts.failures),
            Member::Number("delivered", counts.delivered),
        ],
    )?;
    put_time(alloc, writer, "last_delivery", output.last())
}
