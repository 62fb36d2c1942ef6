//! The table of first bytes (MessagePack specification, "Formats").

ghost use Rattle.std.specs.Prelude.{◌≡◌, IsTrue};
ghost use Rattle.msgpack_bytes.specs.Format.{shape_of};
ghost use Rattle.msgpack_bytes.specs.Reads.{IsFitShape};
ghost use Rattle.msgpack_bytes.specs.Steps.{IsSingle};

use crate::format::{Container, Kind, Shape};

/// What follows this first byte.
#[inline(always)]
#[tactic(auto, unfolding(crate::specs::Format::shape_of))]
pub fn shape(first: u8) -> Shape
    ensures row { result ≡ shape_of first }
    ensures fit { IsFitShape first result }
{
    match first {
        0x00..=0x7f => Shape::Fixed {
            kind: Kind::PositiveFixint,
            size: 0,
        },
        0x80..=0x8f => Shape::Holds {
            container: Container::Map,
            count: u32::from(first - 0x80),
        },
        0x90..=0x9f => Shape::Holds {
            container: Container::Array,
            count: u32::from(first - 0x90),
        },
        0xa0..=0xbf => Shape::Fixed {
            kind: Kind::Str,
            size: usize::from(first - 0xa0),
        },
        0xc0 => Shape::Fixed {
            kind: Kind::Nil,
            size: 0,
        },
        0xc1 => Shape::Never,
        0xc2 | 0xc3 => Shape::Fixed {
            kind: Kind::Bool,
            size: 0,
        },
        0xc4 => Shape::Sized {
            kind: Kind::Bin,
            width: 1,
            extra: 0,
        },
        0xc5 => Shape::Sized {
            kind: Kind::Bin,
            width: 2,
            extra: 0,
        },
        0xc6 => Shape::Sized {
            kind: Kind::Bin,
            width: 4,
            extra: 0,
        },
        0xc7 => Shape::Sized {
            kind: Kind::Ext,
            width: 1,
            extra: 1,
        },
        0xc8 => Shape::Sized {
            kind: Kind::Ext,
            width: 2,
            extra: 1,
        },
        0xc9 => Shape::Sized {
            kind: Kind::Ext,
            width: 4,
            extra: 1,
        },
        0xca => Shape::Fixed {
            kind: Kind::Float,
            size: 4,
        },
        0xcb => Shape::Fixed {
            kind: Kind::Float,
            size: 8,
        },
        0xcc => Shape::Fixed {
            kind: Kind::Unsigned,
            size: 1,
        },
        0xcd => Shape::Fixed {
            kind: Kind::Unsigned,
            size: 2,
        },
        0xce => Shape::Fixed {
            kind: Kind::Unsigned,
            size: 4,
        },
        0xcf => Shape::Fixed {
            kind: Kind::Unsigned,
            size: 8,
        },
        0xd0 => Shape::Fixed {
            kind: Kind::Signed,
            size: 1,
        },
        0xd1 => Shape::Fixed {
            kind: Kind::Signed,
            size: 2,
        },
        0xd2 => Shape::Fixed {
            kind: Kind::Signed,
            size: 4,
        },
        0xd3 => Shape::Fixed {
            kind: Kind::Signed,
            size: 8,
        },
        0xd4 => Shape::Fixed {
            kind: Kind::Ext,
            size: 2,
        },
        0xd5 => Shape::Fixed {
            kind: Kind::Ext,
            size: 3,
        },
        0xd6 => Shape::Fixed {
            kind: Kind::Ext,
            size: 5,
        },
        0xd7 => Shape::Fixed {
            kind: Kind::Ext,
            size: 9,
        },
        0xd8 => Shape::Fixed {
            kind: Kind::Ext,
            size: 17,
        },
        0xd9 => Shape::Sized {
            kind: Kind::Str,
            width: 1,
            extra: 0,
        },
        0xda => Shape::Sized {
            kind: Kind::Str,
            width: 2,
            extra: 0,
        },
        0xdb => Shape::Sized {
            kind: Kind::Str,
            width: 4,
            extra: 0,
        },
        0xdc => Shape::Counted {
            container: Container::Array,
            width: 2,
        },
        0xdd => Shape::Counted {
            container: Container::Array,
            width: 4,
        },
        0xde => Shape::Counted {
            container: Container::Map,
            width: 2,
        },
        0xdf => Shape::Counted {
            container: Container::Map,
            width: 4,
        },
        0xe0..=0xff => Shape::Fixed {
            kind: Kind::NegativeFixint,
            size: 0,
        },
    }
}

/// Whether the byte is an integer, a nil or a bool by itself.
#[inline(always)]
#[tactic(auto, unfolding(crate::specs::Format::shape_of))]
pub fn is_single(first: u8) -> bool
    ensures { IsTrue result → IsSingle (shape_of first) }
{
    if first < 0x80 || first >= 0xe0 {
        return true;
    }
    matches!(first, 0xc0 | 0xc2 | 0xc3)
}
