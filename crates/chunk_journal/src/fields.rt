//! The fields of a record: numbers with their highest byte first, and an Append's parts.

ghost use Rattle.std.specs.Prelude.{◌≡◌, length, option_map};
ghost use Rattle.std.specs.Int.{w16, w32, w64};
ghost use Rattle.chunk_journal.specs.Fields.{number_at, beside, parts_of, parts_from};

use event_modes::LONGEST_TAG;

/// An Append's fields: the serial, the tag, how many entries there should be, and their bytes.
#[derive(Clone, Copy)]
pub struct Parts<'a> {
    pub serial: u64,
    pub tag: &'a [u8],
    pub count: u32,
    pub stored: &'a [u8],
}

/// A number of two bytes at the front, and what is behind it.
pub fn u16_at(bytes: &[u8]) -> Option<(u16, &[u8])>
    ensures { option_map beside result ≡ number_at w16 bytes.now }
{
    if bytes.len() < 2 {
        return None;
    }
    let (front, rest) = bytes.split_at(2);
    Some((u16::from_be_bytes([front[0], front[1]]), rest))
}

/// A number of four bytes at the front, and what is behind it.
pub fn u32_at(bytes: &[u8]) -> Option<(u32, &[u8])>
    ensures { option_map beside result ≡ number_at w32 bytes.now }
{
    if bytes.len() < 4 {
        return None;
    }
    let (front, rest) = bytes.split_at(4);
    let number = u32::from_be_bytes([front[0], front[1], front[2], front[3]]);
    Some((number, rest))
}

/// A number of eight bytes at the front, and what is behind it.
pub fn u64_at(bytes: &[u8]) -> Option<(u64, &[u8])>
    ensures { option_map beside result ≡ number_at w64 bytes.now }
{
    if bytes.len() < 8 {
        return None;
    }
    let (front, rest) = bytes.split_at(8);
    let number = u64::from_be_bytes([
        front[0], front[1], front[2], front[3], front[4], front[5], front[6], front[7],
    ]);
    Some((number, rest))
}

/// The parts of an Append, of all the bytes behind its kind.
#[tactic(auto, unfolding(crate::specs::Fields::parts_from))]
pub fn split_fields(bytes: &[u8]) -> Option<Parts<'_>>
    ensures { option_map parts_of result ≡ parts_from bytes.now }
{
    let (serial, rest) = u64_at(bytes)?;
    let (tag_length, rest) = u16_at(rest)?;
    let tag_length = tag_length as usize;
    if tag_length > LONGEST_TAG || rest.len() < tag_length {
        return None;
    }
    let (tag, rest) = rest.split_at(tag_length);
    let (count, stored) = u32_at(rest)?;
    Some(Parts {
        serial,
        tag,
        count,
        stored,
    })
}
