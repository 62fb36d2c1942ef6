//! Why a plan wasn't read.

ghost use Rattle.std.specs.Prelude.{Some};
ghost use Rattle.std.specs.Fmt.{DisplaysOnOk};
ghost use Rattle.plan_lines.specs.Printed.{coded, error_text};
ghost use Rattle.plan_lines.specs.declared.error.PlanError.TheVariants.{BadText, BadRelay};

use conf_text::ConfFault;
use relay_conf::RelayFault;
use std::alloc::{AllocError, AllocFailed};
use std::error::Error;
use std::fmt;

/// Why a plan wasn't read. Lines of the plan are counted from 1. Prints its code and its line, as
/// `N1 line 3`, and behind them a configuration's own fault, as `N5 line 1 G3 line 3`; or `memory`.
#[derive(Clone, Copy, PartialEq, Eq)]
pub enum PlanError {
    /// A line of none of the forms, or one that isn't UTF-8.
    BadLine(usize),
    /// A relay's number, a port or an index that is no number, or is past its greatest one.
    BadNumber(usize),
    /// A pattern that isn't one.
    BadPattern(usize),
    /// A relay, a scope, a match or a source that isn't there, or a relay whose line comes later.
    NoSuch(usize),
    /// A relay whose configuration isn't the text of one.
    BadText(usize, ConfFault),
    /// A relay whose configuration has this fault.
    BadRelay(usize, RelayFault),
    /// Memory ran out.
    Memory,
}

impl fmt::Display for PlanError {
    ghost use Rattle.std.specs.Prelude.{Some};
    ghost use Rattle.plan_lines.specs.Printed.{error_text};

    ghost output = { λ error. Some (error_text error) };

    fn fmt<W: fmt::Write>(&self, f: &mut fmt::Formatter<W>) -> fmt::Result {
        match self {
            PlanError::BadLine(line) => put_coded(f, "N1", *line),
            PlanError::BadNumber(line) => put_coded(f, "N2", *line),
            PlanError::BadPattern(line) => put_coded(f, "N3", *line),
            PlanError::NoSuch(line) => put_coded(f, "N4", *line),
            PlanError::BadText(line, fault) => put_text_fault(f, *line, fault),
            PlanError::BadRelay(line, fault) => put_relay_fault(f, *line, fault),
            PlanError::Memory => f.write_str("memory"),
        }
    }
}

// As it is displayed.
impl fmt::Debug for PlanError {
    fn fmt<W: fmt::Write>(&self, f: &mut fmt::Formatter<W>) -> fmt::Result {
        fmt::Display::fmt(self, f)
    }
}

// Prints a code and a line, as `N1 line 3`.
fn put_coded<W: fmt::Write>(f: &mut fmt::Formatter<W>, code: &str, line: usize) -> fmt::Result
    ensures { DisplaysOnOk W.write_str_gives f.old result (Some (coded code.now line)) f.new }
{
    write!(f, "{code} line {line}")
}

// Prints the line of a relay, and what is wrong with its configuration's text.
fn put_text_fault<W: fmt::Write>(
    f: &mut fmt::Formatter<W>,
    line: usize,
    fault: &ConfFault,
) -> fmt::Result
    ensures { DisplaysOnOk W.write_str_gives f.old result
        (Some (error_text (BadText line fault.now))) f.new }
{
    write!(f, "N5 line {line} {fault}")
}

// Prints the line of a relay, and what is wrong with what its configuration says.
fn put_relay_fault<W: fmt::Write>(
    f: &mut fmt::Formatter<W>,
    line: usize,
    fault: &RelayFault,
) -> fmt::Result
    ensures { DisplaysOnOk W.write_str_gives f.old result
        (Some (error_text (BadRelay line fault.now))) f.new }
{
    write!(f, "N5 line {line} {fault}")
}

impl Error for PlanError {}

impl From<AllocError> for PlanError {
    ghost use Rattle.std.specs.Prelude.{◌≡◌};
    ghost use Rattle.plan_lines.specs.declared.error.PlanError.TheVariants.{Memory};

    ghost from_gives = { λ _ e. e ≡ Memory };

    fn from(_refused: AllocError) -> PlanError {
        PlanError::Memory
    }
}

impl<T: Drop> From<AllocFailed<T>> for PlanError {
    ghost use Rattle.std.specs.Prelude.{◌≡◌};
    ghost use Rattle.plan_lines.specs.declared.error.PlanError.TheVariants.{Memory};

    ghost from_gives = { λ _ e. e ≡ Memory };

    fn from(_refused: AllocFailed<T>) -> PlanError {
        PlanError::Memory
    }
}
