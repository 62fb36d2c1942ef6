//! Why a journal isn't replayed.

ghost use Rattle.std.specs.Prelude.{◌≡◌, Some};
ghost use Rattle.chunk_journal.specs.Printed.{text_of};
ghost use Rattle.chunk_journal.specs.declared.fault.ReplayError.TheVariants.{Memory};

use std::alloc::AllocError;
use std::error::Error;
use std::fmt;

/// Why a journal isn't replayed. A fault of the journal is printed by its code.
#[derive(Clone, Copy, Debug, PartialEq, Eq)]
pub enum ReplayError {
    /// There was no memory; or an outline's journal has 2^40 bytes (1 TB) or more, past which it
    /// keeps no places.
    Memory,
    /// `J1`: the journal ends before a Seal is whole, and nothing up to there is bad.
    NotSealed,
    /// `J2`: something whole is no record, or a record that can't stand there.
    BadRecord,
}

impl fmt::Display for ReplayError {
    ghost output = { λ e. Some (text_of e) };

    fn fmt<W: fmt::Write>(&self, f: &mut fmt::Formatter<W>) -> fmt::Result {
        match self {
            ReplayError::Memory => write!(f, "out of memory"),
            ReplayError::NotSealed => write!(f, "J1"),
            ReplayError::BadRecord => write!(f, "J2"),
        }
    }
}

impl Error for ReplayError {}

impl From<AllocError> for ReplayError {
    ghost from_gives = { λ _ e. e ≡ Memory };

    fn from(_refused: AllocError) -> ReplayError {
        ReplayError::Memory
    }
}
