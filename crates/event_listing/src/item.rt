//! Items, and those that stand in arrays and maps.

ghost use Rattle.std.specs.Prelude.{◌*◌, ◌<◌, length, Some, OnOk};
ghost use Rattle.std.specs.List.{AllByRecursion};
ghost use Rattle.msgpack_bytes.specs.Answers.{IsHead};
ghost use Rattle.msgpack_bytes.specs.Item.{IsItemWithin};
ghost use Rattle.event_modes.specs.Rows.{items_of, AreItems};
ghost use Rattle.event_listing.specs.Json.{IsJsonWithin, IsNamed, IsScalarJson};
ghost use Rattle.event_listing.specs.Walking.{pairs_of, Adds, IsArrayOf, IsMapOf, IsObjectOf, IsOfScalar, IsPairOf, IsPairsOf};

use crate::names::{have_names, name_of};
use crate::numbers::{put_float, put_integer};
use crate::text::{put_bytes, put_ext, put_text};
use crate::walk::{array_items, first_item, first_pair, map_pairs};
use json::Writer;
use msgpack_bytes::{Head, head};
use std::alloc::{AllocError, Allocator};

/// Writes the value that stands for an item. After an error a part of it may be written.
#[cycle(item)]
pub(crate) fn put_item<A: Allocator + Copy>(
    alloc: A,
    writer: &mut Writer<A>,
    item: &[u8],
) -> Result<(), AllocError>
    requires { IsItemWithin item.now }
    ensures { OnOk result (Adds (IsJsonWithin (length item.now) item.now) writer.old writer.new) }
{
    match head(item, 0) {
        Some(Head::Array { count, next }) => {
            let items = array_items(item, count, next);
            put_array(alloc, writer, items, count as usize)
        }
        Some(Head::Map { count, next }) => {
            let pairs = map_pairs(item, count, next);
            put_map(alloc, writer, pairs, count as usize)
        }
        Some(found) => put_scalar(alloc, writer, item, found),
        None => unreachable!(),
    }
}

// Writes the value that stands for a scalar, whose head this is.
fn put_scalar<A: Allocator + Copy>(
    alloc: A,
    writer: &mut Writer<A>,
    item: &[u8],
    found: Head,
) -> Result<(), AllocError>
    requires item { IsItemWithin item.now }
    requires head { IsHead item.now 0 (Some found) }
    requires scalar { IsOfScalar found }
    ensures { OnOk result (Adds (IsScalarJson item.now) writer.old writer.new) }
{
    match found {
        Head::Nil => writer.null(),
        Head::Bool(value) => writer.boolean(value),
        Head::Int(value) => put_integer(writer, item, value),
        Head::Float => put_float(writer, item),
        Head::Str { start, end } => put_text(alloc, writer, &item[start..end]),
        Head::Bin { start, end } => put_bytes(alloc, writer, "$bin", &item[start..end]),
        Head::Ext { kind, start, end } => put_ext(alloc, writer, kind, &item[start..end]),
        Head::Array { .. } | Head::Map { .. } => unreachable!(),
    }
}

// Writes an array of the items that these bytes are, so many.
#[cycle(item)]
fn put_array<A: Allocator + Copy>(
    alloc: A,
    writer: &mut Writer<A>,
    items: &[u8],
    count: usize,
) -> Result<(), AllocError>
    requires { AreItems count items.now }
    ensures { OnOk result
        (Adds (IsArrayOf (IsJsonWithin (length items.now)) (items_of count items.now)) writer.old
        writer.new) }
{
    writer.begin_array()?;
    let mut rest = items;
    let mut left = count;
    while left > 0 {
        let first = first_item(rest, left);
        put_item(alloc, writer, first.item)?;
        rest = first.rest;
        left -= 1;
    }
    writer.end_array()
}

// Writes a map of the pairs that these bytes are, so many.
#[cycle(item)]
fn put_map<A: Allocator + Copy>(
    alloc: A,
    writer: &mut Writer<A>,
    pairs: &[u8],
    count: usize,
) -> Result<(), AllocError>
    requires few { 2 * count < 18446744073709551616 }
    requires items { AreItems (2 * count) pairs.now }
    ensures { OnOk result
        (Adds (IsMapOf (IsJsonWithin (length pairs.now)) (pairs_of count pairs.now)) writer.old
        writer.new) }
{
    if have_names(pairs, count) {
        put_object(alloc, writer, pairs, count)
    } else {
        put_pairs(alloc, writer, pairs, count)
    }
}

// Writes an object whose members the pairs are.
#[cycle(item)]
fn put_object<A: Allocator + Copy>(
    alloc: A,
    writer: &mut Writer<A>,
    pairs: &[u8],
    count: usize,
) -> Result<(), AllocError>
    requires few { 2 * count < 18446744073709551616 }
    requires items { AreItems (2 * count) pairs.now }
    requires named { AllByRecursion IsNamed (pairs_of count pairs.now) }
    ensures { OnOk result
        (Adds (IsObjectOf (IsJsonWithin (length pairs.now)) (pairs_of count pairs.now)) writer.old
        writer.new) }
{
    writer.begin_object()?;
    let mut rest = pairs;
    let mut left = count;
    while left > 0 {
        let first = first_pair(rest, left);
        let Some(name) = name_of(first.key) else {
            unreachable!();
        };
        writer.key(name)?;
        put_item(alloc, writer, first.value)?;
        rest = first.rest;
        left -= 1;
    }
    writer.end_object()
}

// Writes an object with one member, an array of the pairs, each an array of its key and its value.
#[cycle(item)]
fn put_pairs<A: Allocator + Copy>(
    alloc: A,
    writer: &mut Writer<A>,
    pairs: &[u8],
    count: usize,
) -> Result<(), AllocError>
    requires few { 2 * count < 18446744073709551616 }
    requires items { AreItems (2 * count) pairs.now }
    ensures { OnOk result
        (Adds (IsPairsOf (IsJsonWithin (length pairs.now)) (pairs_of count pairs.now)) writer.old
        writer.new) }
{
    writer.begin_object()?;
    writer.key("$map")?;
    writer.begin_array()?;
    let mut rest = pairs;
    let mut left = count;
    while left > 0 {
        let first = first_pair(rest, left);
        put_pair(alloc, writer, first.key, first.value)?;
        rest = first.rest;
        left -= 1;
    }
    writer.end_array()?;
    writer.end_object()
}

// Writes an array of a key and its value.
#[cycle(item)]
fn put_pair<A: Allocator + Copy>(
    alloc: A,
    writer: &mut Writer<A>,
    key: &[u8],
    value: &[u8],
) -> Result<(), AllocError>
    requires key { IsItemWithin key.now }
    requires value { IsItemWithin value.now }
    ensures { OnOk result
        (Adds (IsPairOf (IsJsonWithin (length key.now))
        (IsJsonWithin (length value.now)) key.now value.now) writer.old writer.new) }
{
    writer.begin_array()?;
    put_item(alloc, writer, key)?;
    put_item(alloc, writer, value)?;
    writer.end_array()
}
