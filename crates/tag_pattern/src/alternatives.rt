//! What stands in a slot of a pattern: the alternatives that commas part, each of the parts that
//! dots part.

ghost use Rattle.std.specs.Prelude.{◌≡◌, ◌==◌};
ghost use Rattle.std.specs.List.{list_any};
ghost use Rattle.tag_pattern.specs.Cuts.{choices_in, is_partial, most_parts};
ghost use Rattle.tag_pattern.specs.Parts.{parts_of};

use crate::cut::{first_piece, piece_count};

// Whether the part has a `*` in it and is neither `*` nor `**`.
fn is_partial(part: &[u8]) -> bool
    ensures { result ≡ is_partial part.now }
{
    part.contains(&b'*') && part != b"*".as_slice() && part != b"**".as_slice()
}

// Whether an alternative has such a part.
fn alternative_is_partial(alternative: &[u8]) -> bool
    ensures { result ≡ list_any is_partial (parts_of alternative.now) }
{
    let mut rest = Some(alternative);
    while let Some(text) = rest {
        let (part, behind) = first_piece(text, b'.');
        if is_partial(part) {
            return true;
        }
        rest = behind;
    }
    false
}

/// Whether a part of the slot has a `*` in it and is neither `*` nor `**`.
pub(crate) fn slot_is_partial(body: &[u8]) -> bool
    ensures { result ≡ list_any (λ parts. list_any is_partial parts) (choices_in body.now) }
{
    let mut rest = Some(body);
    while let Some(text) = rest {
        let (alternative, behind) = first_piece(text, b',');
        if alternative_is_partial(alternative) {
            return true;
        }
        rest = behind;
    }
    false
}

/// The most parts of an alternative of the slot.
pub(crate) fn most_parts(body: &[u8]) -> usize
    ensures { result ≡ most_parts (choices_in body.now) }
{
    let mut most = 0;
    let mut rest = Some(body);
    while let Some(text) = rest {
        let (alternative, behind) = first_piece(text, b',');
        most = most.max(piece_count(alternative, b'.'));
        rest = behind;
    }
    most
}
