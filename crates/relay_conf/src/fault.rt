//! Why a configuration is no relay's.

use std::alloc::{AllocError, AllocFailed};
use std::error::Error;
use std::fmt;

/// What is wrong. Prints its code, `G1` to `G7` in the order below.
#[derive(Clone, Copy, Debug, PartialEq, Eq)]
pub enum RelayFaultKind {
    /// A section of a name that doesn't belong where it stands.
    UnknownSection,
    /// A parameter that its section doesn't have.
    UnknownParameter,
    /// A value, a label's name or a pattern that isn't of its form.
    BadValue,
    /// A type, a parameter or a section that must be there and isn't.
    Missing,
    /// Something that Fluentd has and this project doesn't.
    OutOfProfile,
    /// A label that no section has.
    NoSuchLabel,
    /// A label that an earlier section has.
    DoubleName,
}

impl fmt::Display for RelayFaultKind {
    ghost use Rattle.std.specs.Prelude.{Some};
    ghost use Rattle.relay_conf.specs.Printed.{fault_code};

    ghost output = { λ kind. Some (fault_code kind) };

    fn fmt<W: fmt::Write>(&self, f: &mut fmt::Formatter<W>) -> fmt::Result {
        f.write_str(match self {
            RelayFaultKind::UnknownSection => "G1",
            RelayFaultKind::UnknownParameter => "G2",
            RelayFaultKind::BadValue => "G3",
            RelayFaultKind::Missing => "G4",
            RelayFaultKind::OutOfProfile => "G5",
            RelayFaultKind::NoSuchLabel => "G6",
            RelayFaultKind::DoubleName => "G7",
        })
    }
}

/// What is wrong, and in which line, from 1. Prints as `G3 line 3`.
#[derive(Clone, Copy, Debug, PartialEq, Eq)]
pub struct RelayFault {
    pub kind: RelayFaultKind,
    pub line: usize,
}

impl fmt::Display for RelayFault {
    ghost use Rattle.std.specs.Prelude.{Some};
    ghost use Rattle.relay_conf.specs.Printed.{fault_text};

    ghost output = { λ fault. Some (fault_text fault) };

    fn fmt<W: fmt::Write>(&self, f: &mut fmt::Formatter<W>) -> fmt::Result {
        let kind = self.kind;
        let line = self.line;
        write!(f, "{kind} line {line}")
    }
}

impl Error for RelayFault {}

/// Why a relay wasn't read. Prints as its fault, or `memory`.
#[derive(Clone, Copy, Debug, PartialEq, Eq)]
pub enum RelayError {
    /// Memory ran out.
    Memory,
    /// The configuration has this fault.
    Fault(RelayFault),
}

impl fmt::Display for RelayError {
    ghost use Rattle.std.specs.Prelude.{Some};
    ghost use Rattle.relay_conf.specs.Printed.{error_text};

    ghost output = { λ error. Some (error_text error) };

    fn fmt<W: fmt::Write>(&self, f: &mut fmt::Formatter<W>) -> fmt::Result {
        match self {
            RelayError::Memory => f.write_str("memory"),
            RelayError::Fault(fault) => write!(f, "{fault}"),
        }
    }
}

impl Error for RelayError {}

impl From<AllocError> for RelayError {
    ghost use Rattle.std.specs.Prelude.{◌≡◌};
    ghost use Rattle.relay_conf.specs.declared.fault.RelayError.TheVariants.{Memory};

    ghost from_gives = { λ _ e. e ≡ Memory };

    fn from(_refused: AllocError) -> RelayError {
        RelayError::Memory
    }
}

impl<T: Drop> From<AllocFailed<T>> for RelayError {
    ghost use Rattle.std.specs.Prelude.{◌≡◌};
    ghost use Rattle.relay_conf.specs.declared.fault.RelayError.TheVariants.{Memory};

    ghost from_gives = { λ _ e. e ≡ Memory };

    fn from(_refused: AllocFailed<T>) -> RelayError {
        RelayError::Memory
    }
}
