//! Texts that are made of pieces.

ghost use Rattle.std.specs.Prelude.{◌≡◌, ◌++◌, decimal, OnOk};
ghost use Rattle.std.specs.List.{flat_map};
ghost use Rattle.folder_counts.specs.Pieces.{escaped, piece_text};

use crate::times::put_seconds;
use std::alloc::{AllocError, Allocator};

/// A piece of a text.
#[derive(Clone, Copy)]
pub(crate) enum Piece<'a> {
    /// These bytes.
    Text(&'a [u8]),
    /// The value of a label, of these bytes.
    Value(&'a [u8]),
    /// This number.
    Number(u64),
    /// The seconds that so many nanoseconds are.
    Seconds(i128),
}

/// Adds these pieces, one behind another. The error is want of memory.
pub(crate) fn put_pieces<A: Allocator + Copy>(
    alloc: A,
    text: &mut Vec<u8, A>,
    pieces: &[Piece<'_>],
) -> Result<(), AllocError>
    ensures { OnOk result (text.new.items ≡ text.old.items ++ flat_map piece_text pieces.now) }
{
    for piece in pieces {
        put_piece(alloc, text, *piece)?;
    }
    Ok(())
}

// Adds a piece.
fn put_piece<A: Allocator + Copy>(
    alloc: A,
    text: &mut Vec<u8, A>,
    piece: Piece<'_>,
) -> Result<(), AllocError>
    ensures { OnOk result (text.new.items ≡ text.old.items ++ piece_text piece.entry) }
{
    match piece {
        Piece::Text(bytes) => text.extend_from_slice(bytes),
        Piece::Value(bytes) => put_escaped(text, bytes),
        Piece::Number(number) => put_number(alloc, text, number),
        Piece::Seconds(nanos) => put_seconds(alloc, text, nanos),
    }
}

// Adds a number.
fn put_number<A: Allocator + Copy>(
    alloc: A,
    text: &mut Vec<u8, A>,
    number: u64,
) -> Result<(), AllocError>
    ensures { OnOk result (text.new.items ≡ text.old.items ++ decimal number) }
{
    let digits = format!(in alloc; "{number}")?;
    text.extend_from_slice(digits.as_bytes())
}

// Adds the value of a label: with `\` in front of a quote and of `\`, and `\n` in place of a line
// feed.
fn put_escaped<A: Allocator>(text: &mut Vec<u8, A>, value: &[u8]) -> Result<(), AllocError>
    ensures { OnOk result (text.new.items ≡ text.old.items ++ flat_map escaped value.now) }
{
    for byte in value {
        put_byte(text, *byte)?;
    }
    Ok(())
}

// Adds a byte of it.
fn put_byte<A: Allocator>(text: &mut Vec<u8, A>, byte: u8) -> Result<(), AllocError>
    ensures { OnOk result (text.new.items ≡ text.old.items ++ escaped byte) }
{
    if byte == b'"' || byte == b'\\' {
        return text.extend_from_slice(&[b'\\', byte]);
    }
    if byte == b'\n' {
        text.extend_from_slice(b"\\n")
    } else {
        text.extend_from_slice(&[byte])
    }
}
