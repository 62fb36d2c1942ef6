//! Why a relay isn't one that can run.

use std::alloc::{AllocError, AllocFailed};
use thiserror::Error;

/// Why a relay can't run as it was read.
#[derive(Clone, Copy, Debug, Drop, PartialEq, Eq, Error)]
pub enum SetupFault {
    /// Two of its outputs share the path of their buffers, or of their sinks.
    #[error("two outputs share a path")]
    Path,
    /// A buffer has another number than its place, or none of 32 bits.
    #[error("a buffer has no number of its own")]
    Number,
    /// There was no memory.
    #[error("out of memory")]
    Memory,
}

impl From<AllocError> for SetupFault {
    ghost use Rattle.std.specs.Prelude.{◌≡◌};
    ghost use Rattle.relay_ports.specs.declared.fault.SetupFault.TheVariants.{Memory};

    ghost from_gives = { λ _ e. e ≡ Memory };

    fn from(_refused: AllocError) -> SetupFault {
        SetupFault::Memory
    }
}

impl<T: Drop> From<AllocFailed<T>> for SetupFault {
    ghost use Rattle.std.specs.Prelude.{◌≡◌};
    ghost use Rattle.relay_ports.specs.declared.fault.SetupFault.TheVariants.{Memory};

    ghost from_gives = { λ _ e. e ≡ Memory };

    fn from(_refused: AllocFailed<T>) -> SetupFault {
        SetupFault::Memory
    }
}
