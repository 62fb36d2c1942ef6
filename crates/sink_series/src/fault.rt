//! Why a sink's files refuse a call.

use disk_files::DirError;
use std::alloc::AllocError;
use thiserror::Error;

/// Why a sink's files refuse a call. A fault of the sink is printed by its code.
#[derive(Clone, Copy, Debug, Drop, PartialEq, Eq, Error)]
pub enum SeriesFault {
    #[error("out of memory")]
    Memory,
    /// `F1`: the folder's device failed.
    #[error("F1")]
    Fault,
    /// `F2`: a write failed before; the sink has to be opened again.
    #[error("F2")]
    Failed,
    /// `F3`: the file of the last number is there.
    #[error("F3")]
    LastNumber,
}

impl From<AllocError> for SeriesFault {
    ghost use Rattle.std.specs.Prelude.{◌≡◌};
    ghost use Rattle.sink_series.specs.declared.fault.SeriesFault.TheVariants.{Memory};

    ghost from_gives = { λ _ e. e ≡ Memory };

    fn from(_refused: AllocError) -> SeriesFault {
        SeriesFault::Memory
    }
}

impl From<DirError> for SeriesFault {
    ghost use Rattle.std.specs.Prelude.{◌≡◌};
    ghost use Rattle.sink_series.specs.Faults.{fault_of};

    ghost from_gives = { λ error e. e ≡ fault_of error };

    fn from(error: DirError) -> SeriesFault {
        match error {
            DirError::Memory => SeriesFault::Memory,
            DirError::Fault | DirError::NoSuchFile | DirError::NameTaken => SeriesFault::Fault,
        }
    }
}
