//! Names in a picture: ASCII alone, and in quotes.

ghost use Rattle.std.specs.Prelude.{◌≡◌, ◌++◌, OnOk};
ghost use Rattle.std.specs.List.{flat_map};
ghost use Rattle.plan_drawing.specs.Escaping.{inside_quotes, quoted, shown};

use program_text::put_hex;
use std::alloc::{AllocError, Allocator};

/// Adds the bytes, each that is no printed character of ASCII as `\x` and two digits.
pub(crate) fn put_shown<A: Allocator>(text: &mut Vec<u8, A>, bytes: &[u8]) -> Result<(), AllocError>
    ensures { OnOk result (text.new.items ≡ text.old.items ++ flat_map shown bytes.now) }
{
    for byte in bytes {
        put_shown_byte(text, *byte)?;
    }
    Ok(())
}

// Adds the byte, or what stands for it.
fn put_shown_byte<A: Allocator>(text: &mut Vec<u8, A>, byte: u8) -> Result<(), AllocError>
    ensures { OnOk result (text.new.items ≡ text.old.items ++ shown byte) }
{
    if byte >= 32 && byte < 127 {
        text.extend_from_slice(&[byte])
    } else {
        text.extend_from_slice(b"\\x")?;
        put_hex(text, &[byte])
    }
}

/// Adds the bytes in quotes, as Graphviz reads them: with `\` in front of a quote or `\`, and ASCII
/// alone.
pub(crate) fn put_quoted<A: Allocator + Copy>(
    alloc: A,
    out: &mut Vec<u8, A>,
    bytes: &[u8],
) -> Result<(), AllocError>
    ensures { OnOk result (out.new.items ≡ out.old.items ++ quoted bytes.now) }
{
    let mut text = Vec::new(alloc);
    put_shown(&mut text, bytes)?;
    out.extend_from_slice(b"\"")?;
    put_inside_quotes(out, &text)?;
    out.extend_from_slice(b"\"")
}

// Adds the bytes with `\` in front of a quote or `\`.
fn put_inside_quotes<A: Allocator>(out: &mut Vec<u8, A>, bytes: &[u8]) -> Result<(), AllocError>
    ensures { OnOk result (out.new.items ≡ out.old.items ++ flat_map inside_quotes bytes.now) }
{
    for byte in bytes {
        put_inside(out, *byte)?;
    }
    Ok(())
}

// Adds the byte, with `\` in front where it needs one.
fn put_inside<A: Allocator>(text: &mut Vec<u8, A>, byte: u8) -> Result<(), AllocError>
    ensures { OnOk result (text.new.items ≡ text.old.items ++ inside_quotes byte) }
{
    if byte == b'"' || byte == b'\\' {
        text.extend_from_slice(&[b'\\', byte])
    } else {
        text.extend_from_slice(&[byte])
    }
}
