//! Why a call of a journal fails.

use disk_files::DirError;
use file_pieces::PieceError;
use std::alloc::{AllocError, AllocFailed};
use thiserror::Error;

/// Why a journal isn't opened, read or renewed. `Journal::body` never answers `LastGeneration`.
#[derive(Clone, Copy, Debug, Drop, PartialEq, Eq, Error)]
pub enum JournalError {
    /// There was no memory, or entries in the journal begin 2^40 bytes (1 TB) or more behind its
    /// beginning.
    #[error("out of memory")]
    Memory,
    /// The device failed.
    #[error("the device failed")]
    Fault,
    /// A generation has something whole that is no record, or that can't stand there; or it has
    /// fewer bytes than were told.
    #[error("the journal is damaged")]
    Damaged,
    /// There is a generation 4,294,967,295, and none may come behind it.
    #[error("the last generation was reached")]
    LastGeneration,
}

impl From<AllocError> for JournalError {
    ghost use Rattle.std.specs.Prelude.{◌≡◌};
    ghost use Rattle.journal_files.specs.declared.error.JournalError.TheVariants.{Memory};

    ghost from_gives = { λ _ e. e ≡ Memory };

    fn from(_refused: AllocError) -> JournalError {
        JournalError::Memory
    }
}

impl<T: Drop> From<AllocFailed<T>> for JournalError {
    ghost use Rattle.std.specs.Prelude.{◌≡◌};
    ghost use Rattle.journal_files.specs.declared.error.JournalError.TheVariants.{Memory};

    ghost from_gives = { λ _ e. e ≡ Memory };

    fn from(_refused: AllocFailed<T>) -> JournalError {
        JournalError::Memory
    }
}

impl From<DirError> for JournalError {
    ghost use Rattle.std.specs.Prelude.{◌≡◌};
    ghost use Rattle.journal_files.specs.Faults.{dir_error};

    ghost from_gives = { λ refused e. e ≡ dir_error refused };

    fn from(refused: DirError) -> JournalError {
        match refused {
            DirError::Memory => JournalError::Memory,
            _ => JournalError::Fault,
        }
    }
}

impl From<PieceError> for JournalError {
    ghost use Rattle.std.specs.Prelude.{◌≡◌};
    ghost use Rattle.journal_files.specs.Faults.{piece_error};

    ghost from_gives = { λ refused e. e ≡ piece_error refused };

    fn from(refused: PieceError) -> JournalError {
        match refused {
            PieceError::Fault => JournalError::Fault,
            PieceError::Short => JournalError::Damaged,
        }
    }
}
