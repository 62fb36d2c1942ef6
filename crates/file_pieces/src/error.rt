//! Why bytes aren't read or added.

use disk_files::DirError;
use thiserror::Error;

/// Why bytes aren't read or added.
#[derive(Clone, Copy, Debug, Drop, PartialEq, Eq, Error)]
pub enum PieceError {
    /// The device failed.
    #[error("the device failed")]
    Fault,
    /// The file that is read has fewer bytes.
    #[error("the file is too short")]
    Short,
}

impl From<DirError> for PieceError {
    ghost use Rattle.std.specs.Prelude.{◌≡◌};
    ghost use Rattle.file_pieces.specs.declared.error.PieceError.TheVariants.{Fault};

    ghost from_gives = { λ _ e. e ≡ Fault };

    fn from(_refused: DirError) -> PieceError {
        PieceError::Fault
    }
}
