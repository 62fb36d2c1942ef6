//! The slots of a pattern's text, one after the other.

ghost use Rattle.std.specs.Prelude.{List, ℕ, MatchOption};
ghost use Rattle.std.specs.Option.{option_copied};
ghost use Rattle.tag_pattern.specs.Cuts.{BeginsWithSlot, HasSlotFirst, IsBody, IsGroup};
ghost use Rattle.tag_pattern.specs.Grammar.{Slot, IsPatternText};

use crate::cut::{cut, has_empty_piece};

// What stands between an opening brace and its closing one, and what stands behind. `None` where it
// is no group.
fn group(text: &[u8]) -> Option<(&[u8], &[u8])>
    ensures { MatchOption result
        ((body after : List ℕ) → IsGroup text.now body after → ⊥)
        (λ found. IsGroup text.now found.0.now found.1.now) }
{
    let (body, back) = cut(text, b"{}");
    match back.split_first() {
        None => None,
        Some((mark, after)) => {
            if *mark != b'}' {
                return None;
            }
            if has_empty_piece(body, b',') {
                return None;
            }
            Some((body, after))
        }
    }
}

// What stands in the first slot, without its braces, and what stands behind it.
fn first_body(text: &[u8]) -> Option<(&[u8], &[u8])>
    ensures { MatchOption result
        ((slot : Slot) (rest : List ℕ) → HasSlotFirst text.now slot rest → ⊥)
        (λ found. IsBody text.now found.0.now found.1.now) }
{
    match text.split_first() {
        None => Some((text, text)),
        Some((first, inside)) => {
            if *first == b'{' {
                return group(inside);
            }
            Some(cut(text, b".,{}"))
        }
    }
}

/// What stands in the first slot, without its braces, and the text of the slots behind it, where
/// there are more. `None` where no slots spell the text.
pub(crate) fn first_slot(text: &[u8]) -> Option<(&[u8], Option<&[u8]>)>
    ensures { MatchOption result
        ((slots : List Slot) → IsPatternText slots text.now → ⊥)
        (λ found. BeginsWithSlot text.now found.0.now (option_copied found.1)) }
{
    match first_body(text) {
        None => None,
        Some((body, after)) => match after.split_first() {
            None => Some((body, None)),
            Some((mark, rest)) => {
                if *mark != b'.' {
                    return None;
                }
                Some((body, Some(rest)))
            }
        },
    }
}
