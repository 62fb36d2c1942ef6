//! Why a purge is refused.

use buffer_store::BufferFault;
use std::error::Error;
use std::fmt;

/// Why a claimed chunk isn't let go.
#[derive(Clone, Copy, Debug, PartialEq, Eq)]
pub enum PurgeFault {
    /// `A1`: the evidence names another chunk, or is of a kind that the buffer doesn't take, or is
    /// of another sink, tag or entries.
    Stranger,
    /// What the buffer answers, by its code.
    Buffer(BufferFault),
}

impl fmt::Display for PurgeFault {
    fn fmt<W: fmt::Write>(&self, f: &mut fmt::Formatter<W>) -> fmt::Result {
        match self {
            PurgeFault::Stranger => write!(f, "A1"),
            PurgeFault::Buffer(fault) => write!(f, "{fault}"),
        }
    }
}

impl Error for PurgeFault {}

impl From<BufferFault> for PurgeFault {
    ghost use Rattle.std.specs.Prelude.{◌≡◌};
    ghost use Rattle.ack_receipt.specs.declared.book_fault.PurgeFault.TheVariants.{Buffer};

    ghost from_gives = { λ fault e. e ≡ Buffer fault };

    fn from(fault: BufferFault) -> PurgeFault {
        PurgeFault::Buffer(fault)
    }
}
