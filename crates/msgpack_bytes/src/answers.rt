//! What the readers of items answer, and why no item can begin with some bytes.

use std::fmt;

/// Why no item can begin with the bytes.
#[derive(Clone, Copy, Debug, Drop, PartialEq, Eq)]
pub enum MsgFault {
    /// The byte `c1`, which the format never uses, stands where an item begins.
    Reserved,
    /// An array or a map begins inside 64 others.
    TooDeep,
    /// Every item that begins so has more than 16,777,216 bytes.
    TooLong,
}

/// Writes the fault's code: `M1`, `M2` or `M3`, in the order above.
impl fmt::Display for MsgFault {
    ghost use Rattle.std.specs.Prelude.{Some};
    ghost use Rattle.msgpack_bytes.specs.Fault.{fault_code};

    ghost output = { λ fault. Some (fault_code fault) };

    fn fmt<W: fmt::Write>(&self, f: &mut fmt::Formatter<W>) -> fmt::Result {
        f.write_str(match self {
            MsgFault::Reserved => "M1",
            MsgFault::TooDeep => "M2",
            MsgFault::TooLong => "M3",
        })
    }
}

impl std::error::Error for MsgFault {}

/// Where the item at a place ends.
#[derive(Clone, Copy, Debug, Drop, PartialEq, Eq)]
pub enum Scan {
    /// The index behind the item's last byte.
    End(usize),
    /// The bytes are a proper beginning of an item, within the limits.
    Need,
    /// They are none, whatever follows.
    Bad(MsgFault),
}

/// Where an item ends whose bytes come in pieces.
#[derive(Clone, Copy, Debug, Drop, PartialEq, Eq)]
pub enum PieceScan {
    /// The index in this piece behind the item's last byte; 0 where it ended in an earlier one.
    End(usize),
    /// The bytes so far are a proper beginning of an item, within the limits.
    Need,
    /// They are none, whatever follows.
    Bad(MsgFault),
}

/// What stands at the front of an item; the numbers are indices into the bytes that were read.
#[derive(Clone, Copy, Debug, Drop, PartialEq, Eq)]
pub enum Head {
    Nil,
    Bool(bool),
    Int(i128),
    /// A float of 4 or 8 bytes, whose value is not looked at.
    Float,
    /// A text whose content is `start..end`.
    Str { start: usize, end: usize },
    /// Bytes whose content is `start..end`.
    Bin { start: usize, end: usize },
    /// An array of `count` items, of which the first begins at `next`.
    Array { count: u32, next: usize },
    /// A map of `count` keys and as many values, of which the first key begins at `next`.
    Map { count: u32, next: usize },
    /// An extension of this type, whose content is `start..end`.
    Ext { kind: u8, start: usize, end: usize },
}
