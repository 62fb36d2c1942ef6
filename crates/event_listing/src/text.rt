//! Texts and bytes.

ghost use Rattle.std.specs.Prelude.{◌≡◌, OnOk};
ghost use Rattle.event_listing.specs.Json.{base64_tokens, ext_tokens, ext_type, marked, IsTextJson};
ghost use Rattle.event_listing.specs.Walking.{Adds, Appends};

use base64::engine::general_purpose::STANDARD;
use json::Writer;
use std::alloc::{AllocError, Allocator};
use std::str;

/// Writes the content of a str: as a string where it is UTF-8, and else as its bytes.
pub(crate) fn put_text<A: Allocator + Copy>(
    alloc: A,
    writer: &mut Writer<A>,
    content: &[u8],
) -> Result<(), AllocError>
    ensures { OnOk result (Adds (IsTextJson content.now) writer.old writer.new) }
{
    match str::from_utf8(content) {
        Ok(text) => writer.string(text),
        Err(_) => put_bytes(alloc, writer, "$str", content),
    }
}

/// Writes an object with this one member, whose value is the bytes in base64.
pub(crate) fn put_bytes<A: Allocator + Copy>(
    alloc: A,
    writer: &mut Writer<A>,
    name: &str,
    content: &[u8],
) -> Result<(), AllocError>
    ensures { OnOk result
        (Appends writer.old writer.new (marked name.now (base64_tokens content.now))) }
{
    writer.begin_object()?;
    writer.key(name)?;
    put_base64(alloc, writer, content)?;
    writer.end_object()
}

/// Writes an extension whose type this byte is.
pub(crate) fn put_ext<A: Allocator + Copy>(
    alloc: A,
    writer: &mut Writer<A>,
    byte: u8,
    content: &[u8],
) -> Result<(), AllocError>
    ensures { OnOk result (Appends writer.old writer.new (ext_tokens byte content.now)) }
{
    writer.begin_object()?;
    writer.key("$ext")?;
    writer.begin_array()?;
    writer.i64(ext_type(byte))?;
    put_base64(alloc, writer, content)?;
    writer.end_array()?;
    writer.end_object()
}

// The type of an extension, whose byte this is.
fn ext_type(byte: u8) -> i64
    ensures { result ≡ ext_type byte }
{
    if byte < 128 {
        i64::from(byte)
    } else {
        i64::from(byte) - 256
    }
}

// Writes the bytes in base64, as a string.
fn put_base64<A: Allocator + Copy>(
    alloc: A,
    writer: &mut Writer<A>,
    content: &[u8],
) -> Result<(), AllocError>
    ensures { OnOk result (Appends writer.old writer.new (base64_tokens content.now)) }
{
    let text = STANDARD.encode(alloc, content)?;
    writer.string(&text)
}
