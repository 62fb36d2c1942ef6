//! One of the plain patterns for which a pattern's text stands.

ghost use Rattle.std.specs.Prelude.{◌≡◌, ◌<◌, ◌++◌, [], List, length, map, IfOk, OnOk, slice_index_or};
ghost use Rattle.tag_pattern.specs.Grammar.{Slot, IsPatternText, expansions, part_item};
ghost use Rattle.tag_pattern.specs.Items.{item_of, items_of};
ghost use Rattle.tag_pattern.specs.Parts.{parts_of};

use crate::cut::{first_piece, nth_piece, piece_count};
use crate::item::PatternItem;
use crate::slots::first_slot;
use std::alloc::{AllocError, Allocator};

// The item that a part's text spells.
fn read_item<A: Allocator>(alloc: A, part: &[u8]) -> Result<PatternItem<Vec<u8, A>>, AllocError>
    ensures { IfOk result (λ item. item_of item ≡ part_item part.now) }
{
    if part == b"*".as_slice() {
        return Ok(PatternItem::AnyPart);
    }
    if part == b"**".as_slice() {
        return Ok(PatternItem::AnyParts);
    }
    Ok(PatternItem::Literal(Vec::from_slice(alloc, part)?))
}

// Appends the items of an alternative's parts.
fn push_parts<A: Allocator + Copy>(
    alloc: A,
    items: &mut Vec<PatternItem<Vec<u8, A>>, A>,
    alternative: &[u8],
) -> Result<(), AllocError>
    ensures { OnOk result
        (items_of items.new.items
        ≡ items_of items.old.items ++ map part_item (parts_of alternative.now)) }
{
    let mut rest = Some(alternative);
    while let Some(ahead) = rest {
        let (part, behind) = first_piece(ahead, b'.');
        items.push(read_item(alloc, part)?)?;
        rest = behind;
    }
    Ok(())
}

/// The items of the plain pattern of this number, from 0, of the `plains` for which the text
/// stands.
pub(crate) fn expansion<A: Allocator + Copy>(
    alloc: A,
    text: &[u8],
    number: usize,
    plains: usize,
) -> Result<Vec<PatternItem<Vec<u8, A>>, A>, AllocError>
    requires { (slots : List Slot) × IsPatternText slots text.now
        × (plains ≡ length (expansions slots)) × (number < plains) }
    ensures { IfOk result
        (λ items. (slots : List Slot) → IsPatternText slots text.now
        → items_of items.items ≡ map part_item (slice_index_or (expansions slots) number [])) }
{
    let mut items = Vec::new(alloc);
    let mut rest = Some(text);
    let mut number = number;
    let mut left = plains;
    while let Some(ahead) = rest {
        match first_slot(ahead) {
            None => unreachable!(),
            Some((body, behind)) => {
                left /= piece_count(body, b',');
                let alternative = nth_piece(body, b',', number / left);
                push_parts(alloc, &mut items, alternative)?;
                number %= left;
                rest = behind;
            }
        }
    }
    Ok(items)
}
