//! The rows of outputs are read.

ghost use Rattle.std.specs.Prelude.{◌≡◌, ◌==◌, map, IfOk};
ghost use Rattle.std.specs.List.{slice_split};
ghost use Rattle.output_state.specs.Rows.{
  counts_of,
  is_buffer,
  rows_in,
  state_of,
  state_of_words,
  states_in,
  whole_lines,
};

use crate::state::{OutputCounts, OutputState};
use crate::writing::state_head;
use conf_values::{is_path, whole_number};
use std::alloc::{AllocError, Allocator};

/// The outputs of a text, in its order, none where the text doesn't begin with `state_head`. Behind
/// that a line that is no row is passed over, and so is what stands behind the last LF. The error
/// is want of memory.
pub fn states_in<'t, A: Allocator + Copy>(
    alloc: A,
    text: &'t [u8],
) -> Result<Vec<OutputState<'t>, A>, AllocError>
    ensures { IfOk result (λ states. states.items ≡ states_in text.now) }
{
    let head = state_head();
    if text.starts_with(head) {
        rows_in(alloc, text.split_at(head.len()).1)
    } else {
        Ok(Vec::new(alloc))
    }
}

// The outputs of the lines that are rows.
fn rows_in<'t, A: Allocator + Copy>(
    alloc: A,
    text: &'t [u8],
) -> Result<Vec<OutputState<'t>, A>, AllocError>
    ensures { IfOk result (λ states. states.items ≡ rows_in text.now) }
{
    let lines = whole_lines(alloc, text)?;
    let mut states = Vec::new(alloc);
    for line in &lines {
        if let Some(state) = state_of(alloc, line)? {
            states.push(state)?;
        }
    }
    Ok(states)
}

// The lines of a text that end with LF.
fn whole_lines<'t, A: Allocator + Copy>(
    alloc: A,
    text: &'t [u8],
) -> Result<Vec<&'t [u8], A>, AllocError>
    ensures { IfOk result (λ lines. map (λ line. line.now) lines.items ≡ whole_lines text.now) }
{
    let mut lines = pieces(alloc, text, b'\n')?;
    lines.truncate(lines.len().saturating_sub(1));
    Ok(lines)
}

// The output of a line, if it is a row.
fn state_of<'t, A: Allocator + Copy>(
    alloc: A,
    line: &'t [u8],
) -> Result<Option<OutputState<'t>>, AllocError>
    ensures { IfOk result (λ state. state ≡ state_of line.now) }
{
    let words = pieces(alloc, line, b' ')?;
    Ok(state_of_words(words.as_slice()))
}

// What stands between the bytes of a text that are this one.
fn pieces<'t, A: Allocator + Copy>(
    alloc: A,
    text: &'t [u8],
    between: u8,
) -> Result<Vec<&'t [u8], A>, AllocError>
    ensures { IfOk result (λ pieces. map (λ piece. piece.now) pieces.items
        ≡ slice_split (λ b. b == between) text.now) }
{
    text.split(|byte| *byte == between).collect(alloc)
}

// The output of these words, if they are a row's.
fn state_of_words<'t>(words: &[&'t [u8]]) -> Option<OutputState<'t>>
    ensures { result ≡ state_of_words (map (λ word. word.now) words.now) }
{
    match words {
        [line, buffer, limit, failing, failures, delivered, last] if is_buffer(buffer) => {
            let line = whole_number(line)?;
            let counts = counts_of(limit, failing, failures, delivered, last)?;
            Some(OutputState::new(line, buffer, counts))
        }
        _ => None,
    }
}

// Whether the word is the path of a buffer's files, or `*`.
fn is_buffer(word: &[u8]) -> bool
    ensures { result ≡ is_buffer word.now }
{
    is_path(word) || word == b"*".as_slice()
}

// The numbers that these words spell.
fn counts_of(
    limit: &[u8],
    failing: &[u8],
    failures: &[u8],
    delivered: &[u8],
    last: &[u8],
) -> Option<OutputCounts>
    ensures { result ≡ counts_of limit.now failing.now failures.now delivered.now last.now }
{
    Some(OutputCounts {
        limit: whole_number(limit)?,
        failing: whole_number(failing)?,
        failures: whole_number(failures)?,
        delivered: whole_number(delivered)?,
        last: whole_number(last)?,
    })
}
