//! What a pattern's text amounts to, before any plain pattern is made.

ghost use Rattle.std.specs.Prelude.{◌≡◌, List, MatchOption};
ghost use Rattle.tag_pattern.specs.Grammar.{Slot, IsPatternText};
ghost use Rattle.tag_pattern.specs.Survey.{Grows, IsWithin, Surveys};

use crate::alternatives::{most_parts, slot_is_partial};
use crate::cut::piece_count;
use crate::slots::first_slot;

/// How many plain patterns some slots stand for, and how many items the longest of them has.
#[derive(Clone, Copy)]
pub(crate) struct Size {
    plains: usize,
    items: usize,
}

/// What a pattern's text amounts to.
#[derive(Clone, Copy)]
pub(crate) struct Survey {
    /// Whether a part has a `*` in it and is neither `*` nor `**`.
    pub(crate) has_partial: bool,
    /// How many plain patterns it stands for. `None` where they are more than 64, or one has more
    /// than 32 items.
    pub(crate) plains: Option<usize>,
}

// The size with one more slot, or `None` where it is past the limits.
fn grown(size: Size, body: &[u8]) -> Option<Size>
    requires { IsWithin (Some size) }
    ensures grown { Grows size body.now result }
    ensures within { IsWithin result }
{
    let count = piece_count(body, b',');
    let most = most_parts(body);
    if count > 64 {
        return None;
    }
    if most > 32 {
        return None;
    }
    let plains = size.plains * count;
    let items = size.items + most;
    if plains > 64 {
        return None;
    }
    if items > 32 {
        return None;
    }
    Some(Size { plains, items })
}

// The size of what stood before a slot, with that slot.
fn next_size(size: Option<Size>, body: &[u8]) -> Option<Size>
    requires { IsWithin size }
    ensures grown { MatchOption size (result ≡ None) (λ s. Grows s body.now result) }
    ensures within { IsWithin result }
{
    match size {
        None => None,
        Some(size) => grown(size, body),
    }
}

/// What the text amounts to, or `None` where no slots spell it. It takes no memory, and goes over
/// the text once.
pub(crate) fn take_survey(text: &[u8]) -> Option<Survey>
    ensures { MatchOption result
        ((slots : List Slot) → IsPatternText slots text.now → ⊥)
        (λ survey. Surveys text.now survey) }
{
    let mut rest = Some(text);
    let mut has_partial = false;
    let mut size = Some(Size {
        plains: 1,
        items: 0,
    });
    while let Some(ahead) = rest {
        match first_slot(ahead) {
            None => return None,
            Some((body, behind)) => {
                let partial = slot_is_partial(body);
                has_partial = has_partial | partial;
                size = next_size(size, body);
                rest = behind;
            }
        }
    }
    let plains = match size {
        None => None,
        Some(size) => Some(size.plains),
    };
    Some(Survey {
        has_partial,
        plains,
    })
}
