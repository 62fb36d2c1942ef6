//! Why a text is no configuration.

use std::alloc::{AllocError, AllocFailed};
use std::error::Error;
use std::fmt;

/// What is wrong. Prints its code, `C1` to `C6` in the order below.
#[derive(Clone, Copy, Debug, PartialEq, Eq)]
pub enum FaultKind {
    /// A section that never ends; the line is that of the innermost open one.
    OpenSection,
    /// An end that isn't the innermost open section's, or with none open.
    WrongEnd,
    /// A value in quotes that doesn't close, has another escape than the listed ones or embedded
    /// code, or has something else than a comment behind it.
    BadQuote,
    /// A name that isn't one, or a section line that doesn't end with `>`.
    BadName,
    /// The text isn't UTF-8; the line is that of the first bad byte.
    NotUtf8,
    /// A ninth section inside eight open ones.
    TooDeep,
}

impl fmt::Display for FaultKind {
    ghost use Rattle.std.specs.Prelude.{Some};
    ghost use Rattle.conf_text.specs.Printed.{fault_code};

    ghost output = { λ kind. Some (fault_code kind) };

    fn fmt<W: fmt::Write>(&self, f: &mut fmt::Formatter<W>) -> fmt::Result {
        f.write_str(match self {
            FaultKind::OpenSection => "C1",
            FaultKind::WrongEnd => "C2",
            FaultKind::BadQuote => "C3",
            FaultKind::BadName => "C4",
            FaultKind::NotUtf8 => "C5",
            FaultKind::TooDeep => "C6",
        })
    }
}

/// What is wrong, and in which line, from 1. Prints as `C1 line 3`.
#[derive(Clone, Copy, Debug, PartialEq, Eq)]
pub struct ConfFault {
    pub kind: FaultKind,
    pub line: usize,
}

impl fmt::Display for ConfFault {
    ghost use Rattle.std.specs.Prelude.{Some};
    ghost use Rattle.conf_text.specs.Printed.{fault_text};

    ghost output = { λ fault. Some (fault_text fault) };

    fn fmt<W: fmt::Write>(&self, f: &mut fmt::Formatter<W>) -> fmt::Result {
        let kind = self.kind;
        let line = self.line;
        write!(f, "{kind} line {line}")
    }
}

impl Error for ConfFault {}

/// Why a configuration wasn't read. Prints as its fault, or `memory`.
#[derive(Clone, Copy, Debug, PartialEq, Eq)]
pub enum ConfError {
    /// Memory ran out.
    Memory,
    /// The text has this fault.
    Fault(ConfFault),
}

impl fmt::Display for ConfError {
    ghost use Rattle.std.specs.Prelude.{Some};
    ghost use Rattle.conf_text.specs.Printed.{error_text};

    ghost output = { λ error. Some (error_text error) };

    fn fmt<W: fmt::Write>(&self, f: &mut fmt::Formatter<W>) -> fmt::Result {
        match self {
            ConfError::Memory => f.write_str("memory"),
            ConfError::Fault(fault) => write!(f, "{fault}"),
        }
    }
}

impl Error for ConfError {}

impl From<AllocError> for ConfError {
    ghost use Rattle.std.specs.Prelude.{◌≡◌};
    ghost use Rattle.conf_text.specs.declared.fault.ConfError.TheVariants.{Memory};

    ghost from_gives = { λ _ e. e ≡ Memory };

    fn from(_refused: AllocError) -> ConfError {
        ConfError::Memory
    }
}

impl<T: Drop> From<AllocFailed<T>> for ConfError {
    ghost use Rattle.std.specs.Prelude.{◌≡◌};
    ghost use Rattle.conf_text.specs.declared.fault.ConfError.TheVariants.{Memory};

    ghost from_gives = { λ _ e. e ≡ Memory };

    fn from(_refused: AllocFailed<T>) -> ConfError {
        ConfError::Memory
    }
}
