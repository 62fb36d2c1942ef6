//! Why a relay's loop ends.

ghost use Rattle.std.specs.Prelude.{◌≡◌};

use buffer_store::BufferFault;
use relay_ports::SetupFault;
use std::alloc::{AllocError, AllocFailed};
use thiserror::Error;

/// Why a relay's loop can't be opened, or ends. Each is printed by its name.
#[derive(Clone, Copy, Debug, Drop, PartialEq, Eq, Error)]
pub enum LoopFault {
    /// The relay can't listen at the address of one of its sources.
    #[error("Bind")]
    Bind,
    /// Two outputs of the relay share the path of their buffers, or of their sinks.
    #[error("Path")]
    Path,
    /// The system can't wait for sockets.
    #[error("Poll")]
    Poll,
    /// A buffer's device failed, and the buffer is to be opened again; or it can't be opened.
    #[error("Buffer")]
    Buffer(BufferFault),
    /// The numbers of deliveries have run out; or a buffer hasn't the number of its place, which
    /// none has of a relay that was read.
    #[error("NoNumber")]
    NoNumber,
    /// There was no memory.
    #[error("Memory")]
    Memory,
}

impl From<AllocError> for LoopFault {
    ghost use Rattle.std.specs.Prelude.{◌≡◌};
    ghost use Rattle.loop_core.specs.declared.fault.LoopFault.TheVariants.{Memory};

    ghost from_gives = { λ _ e. e ≡ Memory };

    fn from(_refused: AllocError) -> LoopFault {
        LoopFault::Memory
    }
}

impl<T: Drop> From<AllocFailed<T>> for LoopFault {
    ghost use Rattle.std.specs.Prelude.{◌≡◌};
    ghost use Rattle.loop_core.specs.declared.fault.LoopFault.TheVariants.{Memory};

    ghost from_gives = { λ _ e. e ≡ Memory };

    fn from(_refused: AllocFailed<T>) -> LoopFault {
        LoopFault::Memory
    }
}

impl From<SetupFault> for LoopFault {
    ghost use Rattle.std.specs.Prelude.{◌≡◌};
    ghost use Rattle.loop_core.specs.Faults.{of_setup};

    ghost from_gives = { λ fault e. e ≡ of_setup fault };

    fn from(fault: SetupFault) -> LoopFault {
        match fault {
            SetupFault::Path => LoopFault::Path,
            SetupFault::Number => LoopFault::NoNumber,
            SetupFault::Memory => LoopFault::Memory,
        }
    }
}
