//! Numbers.

ghost use Rattle.std.specs.Prelude.{◌≡◌, ◌∷◌, [], length, OnOk};
ghost use Rattle.std.specs.Int.{w32, w64, from_be_bytes};
ghost use Rattle.std.specs.Fmt.{signed_decimal};
ghost use Rattle.json.specs.Token.{number};
ghost use Rattle.msgpack_bytes.specs.Kinds.{IsFloat, IsInteger};
ghost use Rattle.event_listing.specs.Json.{infinity, word_tokens, IsDoubleJson, IsScalarJson, IsSingleJson};
ghost use Rattle.event_listing.specs.Walking.{Adds, Appends};

use json::Writer;
use std::alloc::{AllocError, Allocator};

// The bit of the sign of a float of 4 bytes, and the bits of its infinity.
const SINGLE_SIGN: u32 = 0x8000_0000;

const SINGLE_MOST: u32 = 0x7f80_0000;

// Those of a float of 8 bytes.
const DOUBLE_SIGN: u64 = 0x8000_0000_0000_0000;

const DOUBLE_MOST: u64 = 0x7ff0_0000_0000_0000;

/// Writes the integer that an item of at most 9 bytes is, with all its digits.
pub(crate) fn put_integer<A: Allocator>(
    writer: &mut Writer<A>,
    item: &[u8],
    value: i128,
) -> Result<(), AllocError>
    requires { IsInteger item.now value }
    ensures { OnOk result (Appends writer.old writer.new (number (signed_decimal value) ∷ [])) }
{
    if let Ok(value) = i64::try_from(value) {
        return writer.i64(value);
    }
    match u64::try_from(value) {
        Ok(value) => writer.u64(value),
        Err(_) => unreachable!(),
    }
}

/// Writes the float that an item is.
pub(crate) fn put_float<A: Allocator>(writer: &mut Writer<A>, item: &[u8]) -> Result<(), AllocError>
    requires { IsFloat item.now }
    ensures { OnOk result (Adds (IsScalarJson item.now) writer.old writer.new) }
{
    let (_, content) = item.split_at(1);
    if content.len() == 4 {
        return put_single(writer, number_of(content));
    }
    put_double(writer, wide_number_of(content))
}

/// The number that four bytes are.
pub(crate) fn number_of(bytes: &[u8]) -> u32
    requires { length bytes.now ≡ 4 }
    ensures { result ≡ from_be_bytes w32 bytes.now }
{
    match *bytes {
        [a, b, c, d] => u32::from_be_bytes([a, b, c, d]),
        _ => unreachable!(),
    }
}

// The number that eight bytes are.
fn wide_number_of(bytes: &[u8]) -> u64
    requires { length bytes.now ≡ 8 }
    ensures { result ≡ from_be_bytes w64 bytes.now }
{
    match *bytes {
        [a, b, c, d, e, f, g, h] => u64::from_be_bytes([a, b, c, d, e, f, g, h]),
        _ => unreachable!(),
    }
}

// Writes the float of 4 bytes with these bits.
fn put_single<A: Allocator>(writer: &mut Writer<A>, bits: u32) -> Result<(), AllocError>
    ensures { OnOk result (Adds (IsSingleJson bits) writer.old writer.new) }
{
    if bits % SINGLE_SIGN > SINGLE_MOST {
        return put_word(writer, "NaN");
    }
    let value = f32::from_bits(bits);
    if value.is_finite() {
        return writer.float(value);
    }
    put_word(writer, infinity(bits < SINGLE_SIGN))
}

// Writes the float of 8 bytes with these bits.
fn put_double<A: Allocator>(writer: &mut Writer<A>, bits: u64) -> Result<(), AllocError>
    ensures { OnOk result (Adds (IsDoubleJson bits) writer.old writer.new) }
{
    if bits % DOUBLE_SIGN > DOUBLE_MOST {
        return put_word(writer, "NaN");
    }
    let value = f64::from_bits(bits);
    if value.is_finite() {
        return writer.float(value);
    }
    put_word(writer, infinity(bits < DOUBLE_SIGN))
}

// What an infinity is called.
fn infinity(is_above: bool) -> &'static str
    ensures { result.now ≡ infinity is_above }
{
    if is_above { "Infinity" } else { "-Infinity" }
}

// Writes a float that JSON has no number for.
fn put_word<A: Allocator>(writer: &mut Writer<A>, word: &str) -> Result<(), AllocError>
    ensures { OnOk result (Appends writer.old writer.new (word_tokens word.now)) }
{
    writer.begin_object()?;
    writer.key("$float")?;
    writer.string(word)?;
    writer.end_object()
}
