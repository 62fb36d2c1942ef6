//! Two plain patterns are compared row by row, from their ends, and so is a tag with a pattern.

ghost use Rattle.std.specs.Prelude.{◌≡◌, ◌≤◌, [], ◌∷◌, length};
ghost use Rattle.tag_pattern.specs.Items.{item_of, items_of};
ghost use Rattle.tag_pattern.specs.Parts.{parts_of};
ghost use Rattle.tag_pattern.specs.Rows.{lent_item, Answers, IsCell, IsEndOfRow, IsEndOfColumn, IsRow, IsNextRow, IsRowOfParts};

use crate::item::PatternItem;
use std::alloc::Allocator;

/// Which relation of two patterns is asked for.
#[derive(Clone, Copy)]
pub(crate) enum Relation {
    Fits,
    Meets,
}

/// One answer for each rest of a pattern of at most 32 items, the empty rest among them.
pub(crate) type Row = [bool; 33];

// The item, with its literal lent.
fn lent<A: Allocator>(item: &PatternItem<Vec<u8, A>>) -> PatternItem<&[u8]>
    ensures { lent_item result ≡ item_of item.now }
{
    match item {
        PatternItem::Literal(text) => PatternItem::Literal(text.as_slice()),
        PatternItem::AnyPart => PatternItem::AnyPart,
        PatternItem::AnyParts => PatternItem::AnyParts,
    }
}

// The answer for two items and what stands behind them, where the first is to fit the second.
fn fits_cell(
    item: PatternItem<&[u8]>,
    other: PatternItem<&[u8]>,
    below: bool,
    right: bool,
    diagonal: bool,
) -> bool
    ensures { IsCell Relation.Fits (lent_item item.entry)
        (lent_item other.entry) below right diagonal result }
{
    match (item, other) {
        (_, PatternItem::AnyParts) => below | right,
        (PatternItem::Literal(text), PatternItem::Literal(same)) => (text == same) & diagonal,
        (PatternItem::Literal(_), PatternItem::AnyPart) => diagonal,
        (PatternItem::AnyPart, PatternItem::AnyPart) => diagonal,
        (PatternItem::AnyPart, PatternItem::Literal(_)) => false,
        (PatternItem::AnyParts, PatternItem::Literal(_)) => false,
        (PatternItem::AnyParts, PatternItem::AnyPart) => false,
    }
}

// The answer for two items and what stands behind them, where both are to meet.
fn meets_cell(
    item: PatternItem<&[u8]>,
    other: PatternItem<&[u8]>,
    below: bool,
    right: bool,
    diagonal: bool,
) -> bool
    ensures { IsCell Relation.Meets (lent_item item.entry)
        (lent_item other.entry) below right diagonal result }
{
    match (item, other) {
        (_, PatternItem::AnyParts) => below | right,
        (PatternItem::AnyParts, PatternItem::Literal(_)) => below | right,
        (PatternItem::AnyParts, PatternItem::AnyPart) => below | right,
        (PatternItem::Literal(text), PatternItem::Literal(same)) => (text == same) & diagonal,
        (PatternItem::Literal(_), PatternItem::AnyPart) => diagonal,
        (PatternItem::AnyPart, PatternItem::Literal(_)) => diagonal,
        (PatternItem::AnyPart, PatternItem::AnyPart) => diagonal,
    }
}

// The answer for two items and what stands behind them.
fn cell(
    relation: Relation,
    item: PatternItem<&[u8]>,
    other: PatternItem<&[u8]>,
    below: bool,
    right: bool,
    diagonal: bool,
) -> bool
    ensures { IsCell relation (lent_item item.entry)
        (lent_item other.entry) below right diagonal result }
{
    match relation {
        Relation::Fits => fits_cell(item, other, below, right, diagonal),
        Relation::Meets => meets_cell(item, other, below, right, diagonal),
    }
}

// The answer for an item and what stands behind it, with the empty pattern.
fn end_of_row(relation: Relation, item: PatternItem<&[u8]>, below: bool) -> bool
    ensures { IsEndOfRow relation (lent_item item.entry) below result }
{
    match (relation, item) {
        (Relation::Meets, PatternItem::AnyParts) => below,
        (_, _) => false,
    }
}

// The answer for the empty pattern, with an item and what stands behind it.
fn end_of_column(relation: Relation, other: PatternItem<&[u8]>, right: bool) -> bool
    ensures { IsEndOfColumn relation (lent_item other.entry) right result }
{
    match other {
        PatternItem::AnyParts => right,
        PatternItem::Literal(_) | PatternItem::AnyPart => false,
    }
}

/// Whether the relation holds of two patterns of at most 32 items.
pub(crate) fn compare<A: Allocator, B: Allocator>(
    relation: Relation,
    items: &[PatternItem<Vec<u8, A>>],
    others: &[PatternItem<Vec<u8, B>>],
) -> bool
    requires { length others.now ≤ 32 }
    ensures { Answers relation (items_of items.now) (items_of others.now) result }
{
    row_of(relation, items, others)[0]
}

/// The row of a pattern.
pub(crate) fn row_of<A: Allocator, B: Allocator>(
    relation: Relation,
    items: &[PatternItem<Vec<u8, A>>],
    others: &[PatternItem<Vec<u8, B>>],
) -> Row
    requires { length others.now ≤ 32 }
    ensures { IsRow relation (items_of items.now) (items_of others.now) result }
{
    let mut row = last_row(relation, others);
    for place in (0..items.len()).rev() {
        row = next_row(relation, lent(&items[place]), others, &row);
    }
    row
}

/// The row of a text's parts, each as a literal, and of what stands behind them, from the row of
/// what stands behind them.
pub(crate) fn row_of_parts<A: Allocator>(
    bytes: &[u8],
    others: &[PatternItem<Vec<u8, A>>],
    behind: Row,
) -> Row
    requires { length others.now ≤ 32 }
    ensures { IsRowOfParts (parts_of bytes.now) (items_of others.now) behind result }
{
    let mut row = behind;
    let mut end = bytes.len();
    for at in (0..bytes.len()).rev() {
        if bytes[at] == b'.' {
            let part = PatternItem::Literal(&bytes[at + 1..end]);
            row = next_row(Relation::Fits, part, others, &row);
            end = at;
        }
    }
    let first = PatternItem::Literal(&bytes[..end]);
    next_row(Relation::Fits, first, others, &row)
}

/// The row of the empty pattern.
pub(crate) fn last_row<A: Allocator>(relation: Relation, others: &[PatternItem<Vec<u8, A>>]) -> Row
    requires { length others.now ≤ 32 }
    ensures { IsRow relation [] (items_of others.now) result }
{
    let mut row = [false; 33];
    row[others.len()] = true;
    for place in (0..others.len()).rev() {
        let other = lent(&others[place]);
        row[place] = end_of_column(relation, other, row[place + 1]);
    }
    row
}

/// The row of an item and what stands behind it, from the row of what stands behind it.
pub(crate) fn next_row<A: Allocator>(
    relation: Relation,
    item: PatternItem<&[u8]>,
    others: &[PatternItem<Vec<u8, A>>],
    below: &Row,
) -> Row
    requires { length others.now ≤ 32 }
    ensures { IsNextRow relation (lent_item item.entry) (items_of others.now) below.now result }
{
    let mut row = [false; 33];
    row[others.len()] = end_of_row(relation, item, below[others.len()]);
    for place in (0..others.len()).rev() {
        let other = lent(&others[place]);
        row[place] = cell(
            relation,
            item,
            other,
            below[place],
            row[place + 1],
            below[place + 1],
        );
    }
    row
}
