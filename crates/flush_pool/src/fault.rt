//! Why a chunk wasn't carried.

ghost use Rattle.std.specs.Prelude.{◌≡◌};

use buffer_store::BufferFault;
use forward_core::SessionFault;
use sink_series::SeriesFault;
use std::alloc::AllocError;
use thiserror::Error;

/// Why a chunk wasn't carried to where it belongs. Each is printed by its code; the chunk stays in
/// its buffer.
#[derive(Clone, Copy, Debug, Drop, PartialEq, Eq, Error)]
pub enum CarryFault {
    /// `X1`: no server could be reached.
    #[error("X1")]
    NoServer,
    /// `X2`: what shows that the chunk arrived didn't come in time.
    #[error("X2")]
    Timeout,
    /// `X3` and the session's own code: the other end said what it shouldn't.
    #[error("X3 {0}")]
    Session(SessionFault),
    /// `X4`: the sink's device failed, or that of the buffer when the chunk was read.
    #[error("X4")]
    Device,
    /// There was no memory.
    #[error("out of memory")]
    Memory,
}

impl From<AllocError> for CarryFault {
    ghost use Rattle.std.specs.Prelude.{◌≡◌};
    ghost use Rattle.flush_pool.specs.declared.fault.CarryFault.TheVariants.{Memory};

    ghost from_gives = { λ _ e. e ≡ Memory };

    fn from(_refused: AllocError) -> CarryFault {
        CarryFault::Memory
    }
}

impl From<BufferFault> for CarryFault {
    ghost use Rattle.std.specs.Prelude.{◌≡◌};
    ghost use Rattle.flush_pool.specs.Faults.{of_buffer};

    ghost from_gives = { λ fault e. e ≡ of_buffer fault };

    fn from(fault: BufferFault) -> CarryFault {
        match fault {
            BufferFault::Memory => CarryFault::Memory,
            _ => CarryFault::Device,
        }
    }
}

impl From<SeriesFault> for CarryFault {
    ghost use Rattle.std.specs.Prelude.{◌≡◌};
    ghost use Rattle.flush_pool.specs.Faults.{of_sink};

    ghost from_gives = { λ fault e. e ≡ of_sink fault };

    fn from(fault: SeriesFault) -> CarryFault {
        match fault {
            SeriesFault::Memory => CarryFault::Memory,
            SeriesFault::Fault | SeriesFault::Failed | SeriesFault::LastNumber => {
                CarryFault::Device
            }
        }
    }
}
