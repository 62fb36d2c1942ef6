//! Texts that are put together from pieces.

use std::alloc::{AllocError, Allocator};

/// A piece of a text.
#[derive(Clone, Copy)]
pub(crate) enum Piece<'a> {
    /// These bytes.
    Text(&'a [u8]),
    /// This number.
    Number(u64),
}

/// The text of these pieces behind this one.
pub(crate) fn joined<A: Allocator + Copy>(
    alloc: A,
    front: &[u8],
    pieces: &[Piece<'_>],
) -> Result<Vec<u8, A>, AllocError> {
    let mut text = Vec::from_slice(alloc, front)?;
    put_pieces(alloc, &mut text, pieces)?;
    Ok(text)
}

/// Adds these pieces, one behind another.
pub(crate) fn put_pieces<A: Allocator + Copy>(
    alloc: A,
    out: &mut Vec<u8, A>,
    pieces: &[Piece<'_>],
) -> Result<(), AllocError> {
    for piece in pieces {
        put_piece(alloc, out, *piece)?;
    }
    Ok(())
}

fn put_piece<A: Allocator + Copy>(
    alloc: A,
    out: &mut Vec<u8, A>,
    piece: Piece<'_>,
) -> Result<(), AllocError> {
    match piece {
        Piece::Text(text) => out.extend_from_slice(text),
        Piece::Number(number) => put_number(alloc, out, number),
    }
}

fn put_number<A: Allocator + Copy>(
    alloc: A,
    out: &mut Vec<u8, A>,
    number: u64,
) -> Result<(), AllocError> {
    let digits = format!(in alloc; "{number}")?;
    out.extend_from_slice(digits.as_bytes())
}
