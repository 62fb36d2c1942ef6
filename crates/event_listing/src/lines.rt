//! The lines of the events that bytes hold.

ghost use Rattle.std.specs.Prelude.{◌≤◌, drop, length, IfOk};
ghost use Rattle.event_listing.specs.Forms.{form_of};
ghost use Rattle.event_listing.specs.Lines.{PrintsAll};
ghost use Rattle.recent_lines.specs.Lines.{EndsALine};

use crate::choice::Choice;
use crate::first::take_first;
use crate::form::Form;
use std::alloc::{AllocError, Allocator};

/// What is printed of the events that bytes hold.
#[derive(Drop)]
pub(crate) struct Printed<A: Allocator> {
    /// The lines.
    pub(crate) lines: Vec<u8, A>,
    /// How many bytes spell the events.
    pub(crate) used: usize,
}

/// What is printed of the events that the bytes hold. The error is want of memory.
pub(crate) fn print_held<A: Allocator + Copy, B: Allocator>(
    alloc: A,
    choice: &Choice<B>,
    form: Form<'_>,
    bytes: &[u8],
) -> Result<Printed<A>, AllocError>
    ensures all { IfOk result
        (λ printed. PrintsAll (form_of form.entry) choice.now bytes.now printed.lines.items
        (drop printed.used bytes.now)) }
    ensures lines { IfOk result (λ printed. EndsALine printed.lines.items) }
    ensures used { IfOk result (λ printed. printed.used ≤ length bytes.now) }
{
    let mut lines = Vec::new(alloc);
    let mut rest = bytes;
    'events: loop {
        let taken = take_first(alloc, choice, form, lines, rest)?;
        lines = taken.lines;
        match taken.behind {
            Some(behind) => rest = behind,
            None => break,
        }
    }
    Ok(Printed {
        lines,
        used: bytes.len() - rest.len(),
    })
}
