//! The rows of outputs are written.

ghost use Rattle.std.specs.Prelude.{◌≡◌, ◌∷◌, ◌++◌, decimal, OnOk};
ghost use Rattle.std.specs.List.{flat_map};
ghost use Rattle.output_state.specs.Rows.{head_text, numbers_in, row_text};

use crate::state::{OutputCounts, OutputState};
use std::alloc::{AllocError, Allocator};

/// The first line of the text: the words of the columns.
pub fn state_head() -> &'static [u8]
    ensures { result.now ≡ head_text }
{
    b"line buffer total_limit_size failing failures delivered last_delivery\n"
}

/// Adds the row of an output. The error is want of memory; then the text may end with a part of the
/// row.
pub fn put_state<A: Allocator + Copy>(
    alloc: A,
    text: &mut Vec<u8, A>,
    state: &OutputState<'_>,
) -> Result<(), AllocError>
    ensures { OnOk result (text.new.items ≡ text.old.items ++ row_text state.now) }
{
    let line = format!(in alloc; "{}", state.line())?;
    text.extend_from_slice(line.as_bytes())?;
    text.extend_from_slice(b" ")?;
    text.extend_from_slice(state.buffer())?;
    put_counts(alloc, text, state.counts())?;
    text.extend_from_slice(b"\n")
}

// Adds the numbers of an output, each behind a space.
fn put_counts<A: Allocator + Copy>(
    alloc: A,
    text: &mut Vec<u8, A>,
    counts: OutputCounts,
) -> Result<(), AllocError>
    ensures { OnOk result (text.new.items
        ≡ text.old.items ++ flat_map (λ n. 32 ∷ decimal n) (numbers_in counts)) }
{
    put_number(alloc, text, counts.limit)?;
    put_number(alloc, text, counts.failing)?;
    put_number(alloc, text, counts.failures)?;
    put_number(alloc, text, counts.delivered)?;
    put_number(alloc, text, counts.last)
}

// Adds a space and a number.
fn put_number<A: Allocator + Copy>(
    alloc: A,
    text: &mut Vec<u8, A>,
    number: u64,
) -> Result<(), AllocError>
    ensures { OnOk result (text.new.items ≡ text.old.items ++ 32 ∷ decimal number) }
{
    let digits = format!(in alloc; "{number}")?;
    text.extend_from_slice(b" ")?;
    text.extend_from_slice(digits.as_bytes())
}
