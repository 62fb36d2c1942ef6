//! Why bytes are no message.

ghost use Rattle.std.specs.Prelude.{◌≡◌, Some};
ghost use Rattle.event_modes.specs.Printed.{code_of, error_text};
ghost use Rattle.event_modes.specs.declared.fault.FeedError.TheVariants.{Memory, Fault};

use msgpack_bytes::MsgFault;
use std::alloc::AllocError;
use std::error::Error;
use std::fmt;

/// The first fault of what should be a message, in the order in which its parts are examined.
/// Each is printed by its code.
#[derive(Clone, Copy, Debug, PartialEq, Eq)]
pub enum ModeFault {
    /// `V1`: neither nil nor an array with the places of one of the modes.
    NotAMessage,
    /// `V2`: the tag is no str or bin of at most 1,024 bytes.
    BadTag,
    /// `V3`: a time is neither an integer nor an EventTime.
    BadTime,
    /// `V4`: a record is no map.
    BadRecord,
    /// `V5`: an entry is no array of two.
    BadEntry,
    /// `V6`: packed entries end inside an item.
    TornPacked,
    /// `V7`: the entries are compressed.
    Compressed,
    /// `V8`: the option is neither nil nor a map, or its chunk is none that can be acknowledged.
    BadOption,
    /// `V9`, and the reason's own code: no item can begin with the bytes.
    Bytes(MsgFault),
}

impl fmt::Display for ModeFault {
    ghost output = { λ f. Some (code_of f) };

    fn fmt<W: fmt::Write>(&self, f: &mut fmt::Formatter<W>) -> fmt::Result {
        f.write_str(match self {
            ModeFault::NotAMessage => "V1",
            ModeFault::BadTag => "V2",
            ModeFault::BadTime => "V3",
            ModeFault::BadRecord => "V4",
            ModeFault::BadEntry => "V5",
            ModeFault::TornPacked => "V6",
            ModeFault::Compressed => "V7",
            ModeFault::BadOption => "V8",
            ModeFault::Bytes(MsgFault::Reserved) => "V9 M1",
            ModeFault::Bytes(MsgFault::TooDeep) => "V9 M2",
            ModeFault::Bytes(MsgFault::TooLong) => "V9 M3",
        })
    }
}

impl Error for ModeFault {}

/// Why a feed gives nothing. Prints as its fault's code, or `memory`.
#[derive(Clone, Copy, Debug, PartialEq, Eq)]
pub enum FeedError {
    /// There was no memory, and nothing changed.
    Memory,
    /// The stream had this fault, and is read no further.
    Fault(ModeFault),
}

impl fmt::Display for FeedError {
    ghost output = { λ error. Some (error_text error) };

    fn fmt<W: fmt::Write>(&self, f: &mut fmt::Formatter<W>) -> fmt::Result {
        match self {
            FeedError::Memory => write!(f, "memory"),
            FeedError::Fault(fault) => write!(f, "{fault}"),
        }
    }
}

impl Error for FeedError {}

impl From<AllocError> for FeedError {
    ghost from_gives = { λ _ e. e ≡ Memory };

    fn from(_refused: AllocError) -> FeedError {
        FeedError::Memory
    }
}

impl From<ModeFault> for FeedError {
    ghost from_gives = { λ fault e. e ≡ Fault fault };

    fn from(fault: ModeFault) -> FeedError {
        FeedError::Fault(fault)
    }
}
