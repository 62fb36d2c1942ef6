//! Items and headers in their shortest spelling.

ghost use Rattle.std.specs.Int.{bytes_high_first};
ghost use Rattle.std.specs.Prelude.{◌≡◌, ◌+◌, ◌^◌, ◌<◌, ◌≤◌, ◌∷◌, ◌++◌, length, vec_len, vec_capacity, OnOk, OnErr};
ghost use Rattle.msgpack_bytes.specs.Spelling.{uint_of, str_of, bin_of, array_header_of, map_header_of, bool_of};

use std::alloc::{AllocError, Allocator};

/// Appends an integer.
///
/// The error is want of memory, and leaves `out` as it was.
pub fn put_uint<A: Allocator>(out: &mut Vec<u8, A>, value: u64) -> Result<(), AllocError>
    ensures ok { OnOk result (out.new.items ≡ out.old.items ++ uint_of value) }
    ensures err { OnErr result (out.new.items ≡ out.old.items) }
    ensures full { OnErr result (vec_capacity out.old
        < vec_len out.old + length (uint_of value)) }
    ensures kept { vec_capacity out.old ≤ vec_capacity out.new }
{
    match value {
        0..=0x7f => put(out, value as u8, 0, value, &[]),
        0x80..=0xff => put(out, 0xcc, 1, value, &[]),
        0x100..=0xffff => put(out, 0xcd, 2, value, &[]),
        0x1_0000..=0xffff_ffff => put(out, 0xce, 4, value, &[]),
        _ => put(out, 0xcf, 8, value, &[]),
    }
}

/// Appends a str with this content, which is not examined: it need not be UTF-8.
///
/// The error is want of memory, and leaves `out` as it was.
pub fn put_str<A: Allocator>(out: &mut Vec<u8, A>, content: &[u8]) -> Result<(), AllocError>
    requires { length content.now < 2 ^ 32 }
    ensures ok { OnOk result (out.new.items ≡ out.old.items ++ str_of content.now) }
    ensures err { OnErr result (out.new.items ≡ out.old.items) }
    ensures full { OnErr result (vec_capacity out.old
        < vec_len out.old + length (str_of content.now)) }
    ensures kept { vec_capacity out.old ≤ vec_capacity out.new }
{
    let len = content.len() as u64;
    match len {
        0..=31 => put(out, 0xa0 + len as u8, 0, len, content),
        32..=0xff => put(out, 0xd9, 1, len, content),
        0x100..=0xffff => put(out, 0xda, 2, len, content),
        _ => put(out, 0xdb, 4, len, content),
    }
}

/// Appends a bin with this content.
///
/// The error is want of memory, and leaves `out` as it was.
pub fn put_bin<A: Allocator>(out: &mut Vec<u8, A>, content: &[u8]) -> Result<(), AllocError>
    requires { length content.now < 2 ^ 32 }
    ensures ok { OnOk result (out.new.items ≡ out.old.items ++ bin_of content.now) }
    ensures err { OnErr result (out.new.items ≡ out.old.items) }
    ensures full { OnErr result (vec_capacity out.old
        < vec_len out.old + length (bin_of content.now)) }
    ensures kept { vec_capacity out.old ≤ vec_capacity out.new }
{
    let len = content.len() as u64;
    match len {
        0..=0xff => put(out, 0xc4, 1, len, content),
        0x100..=0xffff => put(out, 0xc5, 2, len, content),
        _ => put(out, 0xc6, 4, len, content),
    }
}

/// Appends the header of an array of `count` items; the caller appends these behind it.
///
/// The error is want of memory, and leaves `out` as it was.
pub fn put_array<A: Allocator>(out: &mut Vec<u8, A>, count: u32) -> Result<(), AllocError>
    ensures ok { OnOk result (out.new.items ≡ out.old.items ++ array_header_of count) }
    ensures err { OnErr result (out.new.items ≡ out.old.items) }
    ensures full { OnErr result (vec_capacity out.old
        < vec_len out.old + length (array_header_of count)) }
    ensures kept { vec_capacity out.old ≤ vec_capacity out.new }
{
    match count {
        0..=15 => put(out, 0x90 + count as u8, 0, 0, &[]),
        16..=0xffff => put(out, 0xdc, 2, u64::from(count), &[]),
        _ => put(out, 0xdd, 4, u64::from(count), &[]),
    }
}

/// Appends the header of a map of `count` keys and as many values; the caller appends each key
/// and its value behind it.
///
/// The error is want of memory, and leaves `out` as it was.
pub fn put_map<A: Allocator>(out: &mut Vec<u8, A>, count: u32) -> Result<(), AllocError>
    ensures ok { OnOk result (out.new.items ≡ out.old.items ++ map_header_of count) }
    ensures err { OnErr result (out.new.items ≡ out.old.items) }
    ensures full { OnErr result (vec_capacity out.old
        < vec_len out.old + length (map_header_of count)) }
    ensures kept { vec_capacity out.old ≤ vec_capacity out.new }
{
    match count {
        0..=15 => put(out, 0x80 + count as u8, 0, 0, &[]),
        16..=0xffff => put(out, 0xde, 2, u64::from(count), &[]),
        _ => put(out, 0xdf, 4, u64::from(count), &[]),
    }
}

/// Appends a bool.
///
/// The error is want of memory, and leaves `out` as it was.
pub fn put_bool<A: Allocator>(out: &mut Vec<u8, A>, value: bool) -> Result<(), AllocError>
    ensures ok { OnOk result (out.new.items ≡ out.old.items ++ bool_of value) }
    ensures err { OnErr result (out.new.items ≡ out.old.items) }
    ensures full { OnErr result (vec_capacity out.old
        < vec_len out.old + length (bool_of value)) }
    ensures kept { vec_capacity out.old ≤ vec_capacity out.new }
{
    put(out, if value { 0xc3 } else { 0xc2 }, 0, 0, &[])
}

// Appends a first byte, the lowest `width` bytes of a number, the highest first, and a content.
fn put<A: Allocator>(
    out: &mut Vec<u8, A>,
    first: u8,
    width: usize,
    number: u64,
    content: &[u8],
) -> Result<(), AllocError>
    requires width { width ≤ 8 }
    requires content { length content.now < 2 ^ 32 }
    ensures ok { OnOk result (out.new.items
        ≡ out.old.items ++ first ∷ (bytes_high_first width number ++ content.now)) }
    ensures err { OnErr result (out.new.items ≡ out.old.items) }
    ensures full { OnErr result (vec_capacity out.old
        < vec_len out.old + (1 + width + length content.now)) }
    ensures kept { vec_capacity out.old ≤ vec_capacity out.new }
{
    out.reserve(1 + width + content.len())?;
    out.push_reserved(first);
    out.extend_from_slice(&number.to_be_bytes()[8 - width..])?;
    out.extend_from_slice(content)?;
    Ok(())
}
