//! Why a step is refused.

use std::alloc::AllocError;
use thiserror::Error;

/// Why a step is refused.
#[derive(Clone, Copy, Debug, Drop, PartialEq, Eq, Error)]
pub enum StepFault {
    /// The step names something that isn't there.
    #[error("S1")]
    NoSuch,
    /// What the step names is there, and the step's condition fails.
    #[error("S2")]
    NotAllowed,
    /// Memory ran out.
    #[error("memory")]
    Memory,
}

impl From<AllocError> for StepFault {
    ghost use Rattle.std.specs.Prelude.{◌≡◌};
    ghost use Rattle.custody_steps.specs.declared.fault.StepFault.TheVariants.{Memory};

    ghost from_gives = { λ _ e. e ≡ Memory };

    fn from(_refused: AllocError) -> StepFault {
        StepFault::Memory
    }
}
