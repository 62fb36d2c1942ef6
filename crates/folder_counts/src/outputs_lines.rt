//! The lines of outputs.

ghost use Rattle.std.specs.Prelude.{◌≡◌, ◌++◌, codes, OnOk};
ghost use Rattle.std.specs.List.{flat_map};
ghost use Rattle.folder_counts.specs.Outputs.{
  number_field,
  output_line,
  place_field,
  with_deliveries,
  used_of,
};

use crate::buffers::Buffer;
use crate::lines::put_time;
use crate::outputs::{Output, used_of};
use crate::pieces::{Piece, put_pieces};
use output_state::OutputCounts;
use std::alloc::{AllocError, Allocator};

/// Adds the lines of these outputs, whose buffers are among these. The error is want of memory,
/// also for a number of 2^64 or more.
pub(crate) fn put_outputs<A: Allocator + Copy>(
    alloc: A,
    lines: &mut Vec<u8, A>,
    buffers: &[Buffer<'_>],
    outputs: &[Output<'_>],
) -> Result<(), AllocError>
    ensures { OnOk result (lines.new.items
        ≡ lines.old.items ++ flat_map (output_line buffers.now) outputs.now) }
{
    for output in outputs {
        put_output(alloc, lines, buffers, output)?;
    }
    Ok(())
}

// Adds the line of an output.
fn put_output<A: Allocator + Copy>(
    alloc: A,
    lines: &mut Vec<u8, A>,
    buffers: &[Buffer<'_>],
    output: &Output<'_>,
) -> Result<(), AllocError>
    ensures { OnOk result (lines.new.items
        ≡ lines.old.items ++ output_line buffers.now output.now) }
{
    put_place(alloc, lines, output)?;
    put_used(alloc, lines, buffers, output)?;
    put_deliveries(alloc, lines, output.counts())?;
    put_time(alloc, lines, b" last delivery ", output.last())?;
    lines.extend_from_slice(b"\n")
}

// Adds the beginning of the line: where the output stands, its buffer, and the limit of that.
fn put_place<A: Allocator + Copy>(
    alloc: A,
    line: &mut Vec<u8, A>,
    output: &Output<'_>,
) -> Result<(), AllocError>
    ensures { OnOk result (line.new.items ≡ line.old.items ++ place_field output.now.state) }
{
    let counts = output.counts();
    put_pieces(
        alloc,
        line,
        &[
            Piece::Text(b"output "),
            Piece::Number(output.line()),
            Piece::Text(b" buffer "),
            Piece::Text(output.buffer()),
            Piece::Text(b" limit "),
            Piece::Number(counts.limit),
        ],
    )
}

// Adds how many percent of that limit the buffer holds; nothing where that isn't known.
fn put_used<A: Allocator + Copy>(
    alloc: A,
    line: &mut Vec<u8, A>,
    buffers: &[Buffer<'_>],
    output: &Output<'_>,
) -> Result<(), AllocError>
    ensures { OnOk result (line.new.items
        ≡ line.old.items ++ number_field (codes " used ") (used_of buffers.now output.now.state)) }
{
    match used_of(buffers, output)? {
        Some(percent) => {
            put_pieces(
                alloc,
                line,
                &[Piece::Text(b" used "), Piece::Number(percent)],
            )
        }
        None => Ok(()),
    }
}

// Adds what failed and what was delivered.
fn put_deliveries<A: Allocator + Copy>(
    alloc: A,
    line: &mut Vec<u8, A>,
    counts: OutputCounts,
) -> Result<(), AllocError>
    ensures { OnOk result (line.new.items ≡ with_deliveries line.old.items counts) }
{
    put_pieces(
        alloc,
        line,
        &[
            Piece::Text(b" failing "),
            Piece::Number(counts.failing),
            Piece::Text(b" failures "),
            Piece::Number(counts.failures),
            Piece::Text(b" delivered "),
            Piece::Number(counts.delivered),
        ],
    )
}
