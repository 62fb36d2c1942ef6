//! Lines of a configuration.

ghost use Rattle.std.specs.Prelude.{◌≡◌, ◌++◌, OnOk};
ghost use Rattle.conf_listing.specs.Items.{heading_text};

use std::alloc::{AllocError, Allocator};

// Adds the blanks before a line in so many open sections.
fn put_indent<A: Allocator>(out: &mut Vec<u8, A>, depth: usize) -> Result<(), AllocError> {
    for _ in 0..depth {
        out.extend_from_slice(b"  ")?;
    }
    Ok(())
}

/// Adds these pieces, one behind another.
pub(crate) fn put_all<A: Allocator>(
    out: &mut Vec<u8, A>,
    pieces: &[&[u8]],
) -> Result<(), AllocError> {
    for piece in pieces {
        out.extend_from_slice(piece)?;
    }
    Ok(())
}

/// The first text with the second behind it.
pub(crate) fn joined<A: Allocator>(
    alloc: A,
    first: &[u8],
    second: &[u8],
) -> Result<Vec<u8, A>, AllocError> {
    let mut both = Vec::from_slice(alloc, first)?;
    both.extend_from_slice(second)?;
    Ok(both)
}

/// Adds these pieces behind the blanks of so many open sections.
pub(crate) fn put_within<A: Allocator>(
    out: &mut Vec<u8, A>,
    depth: usize,
    pieces: &[&[u8]],
) -> Result<(), AllocError> {
    put_indent(out, depth)?;
    put_all(out, pieces)
}

/// Adds what is said of a section or a parameter in this line of the original.
pub(crate) fn put_note<'a, A: Allocator + Copy>(
    out: &mut Vec<u8, A>,
    alloc: A,
    line: usize,
    subject: &'a [u8],
    note: &'a [u8],
) -> Result<(), AllocError> {
    let place = format!(in alloc; "line {line}, ")?;
    out.extend_from_slice(place.as_bytes())?;
    put_all(out, &[subject, b": ", note, b"\n"])
}

/// Adds a parameter's line.
pub(crate) fn put_setting<A: Allocator>(
    out: &mut Vec<u8, A>,
    depth: usize,
    name: &[u8],
    value: &[u8],
) -> Result<(), AllocError> {
    put_within(out, depth, &[name])?;
    put_value(out, value)?;
    out.extend_from_slice(b"\n")
}

/// Adds `<name argument>`.
pub(crate) fn put_opening<'a, A: Allocator>(
    out: &mut Vec<u8, A>,
    depth: usize,
    name: &'a [u8],
    argument: &'a [u8],
) -> Result<(), AllocError> {
    let blank = blank_before(argument);
    put_within(out, depth, &[b"<", name, blank, argument, b">\n"])
}

// The blank between a name and what stands behind it, if something does.
fn blank_before(text: &[u8]) -> &[u8] {
    if text.is_empty() {
        return b"";
    }
    b" "
}

/// Adds `<name argument>` without an end of the line.
pub(crate) fn put_heading<A: Allocator>(
    out: &mut Vec<u8, A>,
    name: &[u8],
    argument: &[u8],
) -> Result<(), AllocError>
    ensures { OnOk result (out.new.items ≡ out.old.items ++ heading_text name.now argument.now) }
{
    out.extend_from_slice(b"<")?;
    out.extend_from_slice(name)?;
    if !argument.is_empty() {
        out.extend_from_slice(b" ")?;
        out.extend_from_slice(argument)?;
    }
    out.extend_from_slice(b">")
}

/// Adds `</name>`.
pub(crate) fn put_end<A: Allocator>(
    out: &mut Vec<u8, A>,
    depth: usize,
    name: &[u8],
) -> Result<(), AllocError> {
    put_within(out, depth, &[b"</", name, b">\n"])
}

// Adds a value behind a blank, in quotes where it would be read as another without them; nothing of
// an empty one.
fn put_value<A: Allocator>(out: &mut Vec<u8, A>, value: &[u8]) -> Result<(), AllocError> {
    if value.is_empty() {
        return Ok(());
    }
    out.push(b' ')?;
    if has_control(value) {
        return put_quoted(out, b'"', value);
    }
    if is_plain(value) {
        return out.extend_from_slice(value);
    }
    put_quoted(out, b'\'', value)
}

// Whether a value is read as itself without quotes.
fn is_plain(value: &[u8]) -> bool {
    match value {
        [] => true,
        [first, ..] => {
            !matches!(*first, b'"' | b'\'' | b'#' | b' ')
                && value[value.len() - 1] != b' '
                && !has_pair(value, b' ', b'#')
        }
    }
}

/// Whether the second byte stands in the text right behind the first.
pub(crate) fn has_pair(text: &[u8], first: u8, second: u8) -> bool {
    for i in 1..text.len() {
        if text[i - 1] == first && text[i] == second {
            return true;
        }
    }
    false
}

// Whether a byte stands there that has an escape of its own.
fn has_control(value: &[u8]) -> bool {
    has_any_of(value, b"\n\r\t")
}

/// Whether one of these bytes stands in the text.
pub(crate) fn has_any_of(text: &[u8], bytes: &[u8]) -> bool {
    for byte in text {
        if bytes.contains(byte) {
            return true;
        }
    }
    false
}

// Adds a value between marks.
fn put_quoted<A: Allocator>(
    out: &mut Vec<u8, A>,
    mark: u8,
    value: &[u8],
) -> Result<(), AllocError> {
    out.push(mark)?;
    for byte in value {
        put_escaped(out, mark, *byte)?;
    }
    out.push(mark)?;
    Ok(())
}

// Adds a byte that stands between marks.
fn put_escaped<A: Allocator>(out: &mut Vec<u8, A>, mark: u8, byte: u8) -> Result<(), AllocError> {
    if byte == b'\\' || byte == mark {
        out.push(b'\\')?;
        out.push(byte)?;
        return Ok(());
    }
    if mark == b'"' {
        return put_control(out, byte);
    }
    out.push(byte)?;
    Ok(())
}

// Adds a byte between double quotes, by its escape where it has one.
fn put_control<A: Allocator>(out: &mut Vec<u8, A>, byte: u8) -> Result<(), AllocError> {
    match byte {
        b'\n' => out.extend_from_slice(b"\\n"),
        b'\r' => out.extend_from_slice(b"\\r"),
        b'\t' => out.extend_from_slice(b"\\t"),
        _ => out.extend_from_slice(&[byte]),
    }
}
