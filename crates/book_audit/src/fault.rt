//! Why receipts, stubs and evidence are refused.

use std::alloc::AllocError;
use std::error::Error;
use std::fmt;

/// Why a call on a delivery, its receipts or what is left of them refuses. It is printed by its
/// code.
#[derive(Clone, Copy, Debug, PartialEq, Eq)]
pub enum BookFault {
    /// `A1`: a receipt of another delivery or buffer; evidence of another chunk or of a kind that
    /// isn't taken; a stub whose append isn't in the book.
    Stranger,
    /// `A2`: what is there once already.
    Double,
    /// `A3`: a leaf without a receipt; an append without a stub.
    Missing,
}

impl fmt::Display for BookFault {
    ghost use Rattle.std.specs.Prelude.{Some};
    ghost use Rattle.book_audit.specs.Printed.{code_of};

    ghost output = { λ fault. Some (code_of fault) };

    fn fmt<W: fmt::Write>(&self, f: &mut fmt::Formatter<W>) -> fmt::Result {
        match self {
            BookFault::Stranger => write!(f, "A1"),
            BookFault::Double => write!(f, "A2"),
            BookFault::Missing => write!(f, "A3"),
        }
    }
}

impl Error for BookFault {}

/// Why an audit gives no account.
#[derive(Clone, Copy, PartialEq, Eq)]
pub enum AuditError {
    /// The stubs don't account for the book.
    Fault(BookFault),
    /// Want of memory.
    Memory,
}

impl From<AllocError> for AuditError {
    ghost use Rattle.book_audit.specs.declared.fault.AuditError.TheVariants.{Memory};
    ghost use Rattle.std.specs.Prelude.{◌≡◌};

    ghost from_gives = { λ _ e. e ≡ Memory };

    fn from(_e: AllocError) -> AuditError {
        AuditError::Memory
    }
}
