//! The lines of a text that need not be UTF-8.
#![tactic(auto)]

ghost use Rattle.std.specs.Prelude.{◌≡◌, ◌==◌, ◌<◌, map, length, IfOk, Some, slice_get};
ghost use Rattle.std.specs.List.{slice_split};
ghost use Rattle.std.specs.Str.Lines.{strip_carriage_return};
ghost use Rattle.text_lines.specs.Lines.{text_lines, lines_of_pieces};

use std::alloc::{AllocError, Allocator};

/// Texts that lie one after another in one text.
pub type Pieces<'t, A> = Vec<&'t [u8], A>;

/// The lines of a text, in order: it is cut at each LF, and a CR before an LF is dropped. What
/// stands behind the last LF is a line too, also where it is empty.
pub fn lines<'t, A: Allocator + Copy>(alloc: A, text: &'t [u8]) -> Result<Pieces<'t, A>, AllocError>
    ensures { IfOk result (λ lines. map (λ line. line.now) lines.items ≡ text_lines text.now) }
{
    let pieces = pieces(alloc, text)?;
    let mut lines = Vec::with_capacity(alloc, pieces.len())?;
    for at in 0..pieces.len() {
        lines.push(line_at(&pieces, at))?;
    }
    Ok(lines)
}

// The parts of a text between LFs.
fn pieces<'t, A: Allocator + Copy>(alloc: A, text: &'t [u8]) -> Result<Pieces<'t, A>, AllocError>
    ensures { IfOk result
        (λ pieces. map (λ piece. piece.now) pieces.items
        ≡ slice_split (λ byte. byte == 10) text.now) }
{
    text.split(|byte| *byte == b'\n').collect(alloc)
}

// The line that the piece at this place is.
fn line_at<'t>(pieces: &[&'t [u8]], at: usize) -> &'t [u8]
    requires { at < length pieces.now }
    ensures { slice_get (lines_of_pieces (map (λ piece. piece.now) pieces.now)) at
        ≡ Some result.now }
{
    if at + 1 < pieces.len() {
        without_return(pieces[at])
    } else {
        pieces[at]
    }
}

// The line without a CR at its end.
fn without_return(line: &[u8]) -> &[u8]
    ensures { result.now ≡ strip_carriage_return line.now }
{
    match line.split_last() {
        Some((last, front)) if *last == b'\r' => front,
        _ => line,
    }
}
