//! Why a buffer refuses a call.

use buffer_state::AppendFault;
use journal_files::JournalError;
use std::alloc::AllocError;
use thiserror::Error;

/// Why a buffer refuses a call, printed by its code.
#[derive(Clone, Copy, Debug, Drop, PartialEq, Eq, Error)]
pub enum BufferFault {
    /// With the entries that are there, these are more than the buffer takes.
    #[error("B1")]
    Full,
    /// The entries alone are more than a chunk takes.
    #[error("B2")]
    TooLarge,
    /// The chunk isn't in the state that the call needs, or there is none.
    #[error("B3")]
    Gone,
    /// The device failed in this call. Where the call writes, each that comes after it answers
    /// `Failed`.
    #[error("B4")]
    Fault,
    /// The device failed before. The buffer is to be opened again.
    #[error("B5")]
    Failed,
    /// The serials have run out, or the generations of the journal.
    #[error("B6")]
    LastSerial,
    /// The journal has something whole that is no record, or that can't stand there; or it hasn't
    /// the bytes that were told.
    #[error("B7")]
    Damaged,
    /// There was no memory, or the journal has come to 2^40 bytes (1 TB), past which it keeps no
    /// places.
    #[error("out of memory")]
    Memory,
}

impl From<AllocError> for BufferFault {
    ghost use Rattle.std.specs.Prelude.{◌≡◌};
    ghost use Rattle.buffer_store.specs.declared.fault.BufferFault.TheVariants.{Memory};

    ghost from_gives = { λ _ e. e ≡ Memory };

    fn from(_refused: AllocError) -> BufferFault {
        BufferFault::Memory
    }
}

impl From<AppendFault> for BufferFault {
    ghost use Rattle.std.specs.Prelude.{◌≡◌};
    ghost use Rattle.buffer_store.specs.Refusals.{of_plan};

    ghost from_gives = { λ refused e. e ≡ of_plan refused };

    fn from(refused: AppendFault) -> BufferFault {
        match refused {
            AppendFault::TooLarge => BufferFault::TooLarge,
            AppendFault::Full => BufferFault::Full,
            AppendFault::LastSerial => BufferFault::LastSerial,
        }
    }
}

impl From<JournalError> for BufferFault {
    ghost use Rattle.std.specs.Prelude.{◌≡◌};
    ghost use Rattle.buffer_store.specs.Refusals.{of_journal};

    ghost from_gives = { λ refused e. e ≡ of_journal refused };

    fn from(refused: JournalError) -> BufferFault {
        match refused {
            JournalError::Memory => BufferFault::Memory,
            JournalError::Fault => BufferFault::Fault,
            JournalError::Damaged => BufferFault::Damaged,
            JournalError::LastGeneration => BufferFault::LastSerial,
        }
    }
}
