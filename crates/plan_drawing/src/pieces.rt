//! Texts that are put together from pieces.

use crate::escaping::put_quoted;
use std::alloc::{AllocError, Allocator};

/// A piece of a text.
#[derive(Clone, Copy)]
pub(crate) enum Piece<'a> {
    /// These bytes.
    Text(&'a [u8]),
    /// These bytes in quotes.
    Quoted(&'a [u8]),
    /// This number.
    Number(usize),
}

/// The text of these pieces.
pub(crate) fn joined<A: Allocator + Copy>(
    alloc: A,
    pieces: &[Piece<'_>],
) -> Result<Vec<u8, A>, AllocError> {
    let mut text = Vec::new(alloc);
    put_pieces(alloc, &mut text, pieces)?;
    Ok(text)
}

/// Adds these pieces, one behind another.
pub(crate) fn put_pieces<A: Allocator + Copy>(
    alloc: A,
    out: &mut Vec<u8, A>,
    pieces: &[Piece<'_>],
) -> Result<(), AllocError> {
    for piece in pieces {
        put_piece(alloc, out, *piece)?;
    }
    Ok(())
}

fn put_piece<A: Allocator + Copy>(
    alloc: A,
    out: &mut Vec<u8, A>,
    piece: Piece<'_>,
) -> Result<(), AllocError> {
    match piece {
        Piece::Text(text) => out.extend_from_slice(text),
        Piece::Quoted(text) => put_quoted(alloc, out, text),
        Piece::Number(number) => put_number(alloc, out, number),
    }
}

fn put_number<A: Allocator + Copy>(
    alloc: A,
    out: &mut Vec<u8, A>,
    number: usize,
) -> Result<(), AllocError> {
    let digits = format!(in alloc; "{number}")?;
    out.extend_from_slice(digits.as_bytes())
}

/// Adds a text, and numbers behind it, each behind a `_`: the name of a node.
pub(crate) fn put_id<A: Allocator + Copy>(
    alloc: A,
    out: &mut Vec<u8, A>,
    text: &[u8],
    numbers: &[usize],
) -> Result<(), AllocError> {
    out.extend_from_slice(text)?;
    for number in numbers {
        put_pieces(alloc, out, &[Piece::Text(b"_"), Piece::Number(*number)])?;
    }
    Ok(())
}
