//! What is to be printed of a configuration, before it is known whether a relay reads it.

ghost use Rattle.std.specs.Prelude.{◌≡◌, map, string_bytes, IfOk};
ghost use Rattle.conf_text.specs.Views.{tree_of};
ghost use Rattle.conf_listing.specs.Printed.{printed_text};
ghost use Rattle.conf_listing.specs.Adapting.{IsDraft};
ghost use Rattle.conf_listing.specs.Lines.{AreLines, mark_note as mark_note_of};

use crate::adapted::Adapted;
use crate::adapting::adapt;
use conf_text::Element;
use program_text::ReadFault;
use std::alloc::{AllocError, Allocator};

/// An adapted configuration, with its lines; where not all is accepted, with lines that say what
/// isn't.
#[derive(Drop)]
pub(crate) struct Draft<A: Allocator> {
    pub adapted: Adapted<A>,
    pub is_accepted: bool,
    pub lines: Vec<u8, A>,
}

/// What is to be printed of these elements.
pub(crate) fn draft_of<A: Allocator + Copy, B: Allocator>(
    alloc: A,
    elements: &[Element<A>],
    has_mark: bool,
    accepted: &[String<B>],
) -> Result<Draft<A>, ReadFault>
    ensures { IfOk result (IsDraft (map tree_of elements.now) (map string_bytes accepted.now)) }
{
    let adapted = adapt(alloc, elements)?;
    let is_accepted = adapted.is_accepted(accepted);
    let lines = lines_of(alloc, &adapted, is_accepted, has_mark, accepted)?;
    Ok(Draft {
        adapted,
        is_accepted,
        lines,
    })
}

// The lines of an adapted configuration; where not all is accepted, lines that say what isn't.
fn lines_of<A: Allocator + Copy, B: Allocator>(
    alloc: A,
    adapted: &Adapted<A>,
    is_accepted: bool,
    has_mark: bool,
    accepted: &[String<B>],
) -> Result<Vec<u8, A>, AllocError>
    ensures { IfOk result (λ lines. AreLines is_accepted adapted.now.entries.items lines.items) }
{
    if !is_accepted {
        return adapted.undecided(alloc, accepted);
    }
    let mut lines = adapted.text(alloc)?;
    lines.extend_from_slice(mark_note(has_mark).as_bytes())?;
    Ok(lines)
}

// What is said of a byte order mark.
fn mark_note(has_mark: bool) -> &'static str
    ensures { result.now ≡ mark_note_of has_mark }
{
    if has_mark {
        "# line 1: its byte order mark is left out\n"
    } else {
        ""
    }
}
