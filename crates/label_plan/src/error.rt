//! Why a name isn't read, and why a plan isn't changed.

use plan_lines::PlanError;
use std::alloc::{AllocError, AllocFailed};
use std::error::Error;
use std::fmt;

/// A text isn't `RELAY:SCOPE:INDEX`, and prints that.
#[derive(Clone, Copy)]
pub struct NameError;

impl fmt::Display for NameError {
    ghost use Rattle.std.specs.Prelude.{Some};
    ghost use Rattle.label_plan.specs.Printed.{name_error_text};

    ghost output = { λ error. Some name_error_text };

    fn fmt<W: fmt::Write>(&self, f: &mut fmt::Formatter<W>) -> fmt::Result {
        f.write_str("not RELAY:SCOPE:INDEX")
    }
}

// As it is displayed.
impl fmt::Debug for NameError {
    fn fmt<W: fmt::Write>(&self, f: &mut fmt::Formatter<W>) -> fmt::Result {
        fmt::Display::fmt(self, f)
    }
}

impl Error for NameError {}

/// Why a plan isn't changed. Names are counted from 0, in the order in which they are given; prints
/// what is missing, without that place.
#[derive(Clone, Copy)]
pub enum DropError {
    /// No relay of the plan has the number of the name at this place.
    NoRelay(usize),
    /// The relay has no scope of this name.
    NoScope(usize),
    /// The scope has no match with this index.
    NoMatch(usize),
    /// Memory ran out.
    Memory,
}

impl fmt::Display for DropError {
    ghost use Rattle.std.specs.Prelude.{Some};
    ghost use Rattle.label_plan.specs.Printed.{error_text};

    ghost output = { λ error. Some (error_text error) };

    fn fmt<W: fmt::Write>(&self, f: &mut fmt::Formatter<W>) -> fmt::Result {
        f.write_str(match self {
            DropError::NoRelay(_) => "no relay of the plan has this number",
            DropError::NoScope(_) => "the relay has no such scope",
            DropError::NoMatch(_) => "the scope has no match with this index",
            DropError::Memory => "memory",
        })
    }
}

// As it is displayed.
impl fmt::Debug for DropError {
    fn fmt<W: fmt::Write>(&self, f: &mut fmt::Formatter<W>) -> fmt::Result {
        fmt::Display::fmt(self, f)
    }
}

impl Error for DropError {}

impl From<AllocError> for DropError {
    ghost use Rattle.std.specs.Prelude.{◌≡◌};
    ghost use Rattle.label_plan.specs.declared.error.DropError.TheVariants.{Memory};

    ghost from_gives = { λ _ e. e ≡ Memory };

    fn from(_refused: AllocError) -> DropError {
        DropError::Memory
    }
}

impl<T: Drop> From<AllocFailed<T>> for DropError {
    ghost use Rattle.std.specs.Prelude.{◌≡◌};
    ghost use Rattle.label_plan.specs.declared.error.DropError.TheVariants.{Memory};

    ghost from_gives = { λ _ e. e ≡ Memory };

    fn from(_refused: AllocFailed<T>) -> DropError {
        DropError::Memory
    }
}

/// Why texts and names give no plan.
#[derive(Clone, Copy)]
pub enum DroppedPlanError {
    /// The texts say no plan, or memory ran out.
    Plan(PlanError),
    /// A name means no match of the plan, or memory ran out.
    Drop(DropError),
}

impl fmt::Display for DroppedPlanError {
    ghost use Rattle.std.specs.Prelude.{Some};
    ghost use Rattle.label_plan.specs.Printed.{plan_error_text};

    ghost output = { λ error. Some (plan_error_text error) };

    fn fmt<W: fmt::Write>(&self, f: &mut fmt::Formatter<W>) -> fmt::Result {
        match self {
            DroppedPlanError::Plan(error) => fmt::Display::fmt(error, f),
            DroppedPlanError::Drop(error) => fmt::Display::fmt(error, f),
        }
    }
}

// As it is displayed.
impl fmt::Debug for DroppedPlanError {
    fn fmt<W: fmt::Write>(&self, f: &mut fmt::Formatter<W>) -> fmt::Result {
        fmt::Display::fmt(self, f)
    }
}

impl Error for DroppedPlanError {}

impl From<PlanError> for DroppedPlanError {
    ghost use Rattle.std.specs.Prelude.{◌≡◌};
    ghost use Rattle.label_plan.specs.declared.error.DroppedPlanError.TheVariants.{Plan};

    ghost from_gives = { λ error e. e ≡ Plan error };

    fn from(error: PlanError) -> DroppedPlanError {
        DroppedPlanError::Plan(error)
    }
}

impl From<DropError> for DroppedPlanError {
    ghost use Rattle.std.specs.Prelude.{◌≡◌};
    ghost use Rattle.label_plan.specs.declared.error.DroppedPlanError.TheVariants.{Drop};

    ghost from_gives = { λ error e. e ≡ Drop error };

    fn from(error: DropError) -> DroppedPlanError {
        DroppedPlanError::Drop(error)
    }
}

impl From<AllocError> for DroppedPlanError {
    ghost use Rattle.std.specs.Prelude.{◌≡◌};
    ghost use Rattle.plan_lines.specs.declared.error.PlanError.TheVariants.{Memory};
    ghost use Rattle.label_plan.specs.declared.error.DroppedPlanError.TheVariants.{Plan};

    ghost from_gives = { λ _ e. e ≡ Plan Memory };

    fn from(_refused: AllocError) -> DroppedPlanError {
        DroppedPlanError::Plan(PlanError::Memory)
    }
}
