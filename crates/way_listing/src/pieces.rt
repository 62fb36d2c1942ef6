//! Texts that are made of pieces.

ghost use Rattle.std.specs.Prelude.{◌≡◌, ◌++◌, flat_map, IfOk, OnOk};

use std::alloc::{AllocError, Allocator};

/// Adds these pieces, one behind another.
pub(crate) fn put_three<'a, A: Allocator>(
    text: &mut Vec<u8, A>,
    first: &'a [u8],
    second: &'a [u8],
    third: &'a [u8],
) -> Result<(), AllocError>
    ensures { OnOk result
        (text.new.items ≡ text.old.items ++ first.now ++ second.now ++ third.now) }
{
    put_pieces(text, &[first, second, third])
}

/// These pieces, one behind another.
pub(crate) fn joined<'a, A: Allocator>(
    alloc: A,
    first: &'a [u8],
    second: &'a [u8],
    third: &'a [u8],
    fourth: &'a [u8],
    fifth: &'a [u8],
) -> Result<Vec<u8, A>, AllocError>
    ensures { IfOk result
        (λ text. text.items ≡ first.now ++ second.now ++ third.now ++ fourth.now ++ fifth.now) }
{
    let mut text = Vec::new(alloc);
    put_pieces(&mut text, &[first, second, third, fourth, fifth])?;
    Ok(text)
}

// Adds these pieces, one behind another.
fn put_pieces<A: Allocator>(text: &mut Vec<u8, A>, pieces: &[&[u8]]) -> Result<(), AllocError>
    ensures { OnOk result
        (text.new.items ≡ text.old.items ++ flat_map (λ piece. piece.now) pieces.now) }
{
    for piece in pieces {
        text.extend_from_slice(piece)?;
    }
    Ok(())
}
