//! The plan of a network of relays, read from its text and from the configurations that it names.
#![tactic(auto)]

mod draft;
mod error;
mod form;
mod laws;
mod names;
mod parts;
mod plan;
mod relays;

pub use draft::scope_of;
pub use error::PlanError;
pub use form::relay_number;
pub use laws::{has_one_fault, is_plan_or_fault, says_one_plan};
pub use loss_rules::{Label, Reach, RelayLine};
pub use names::conf_names;
pub use parts::PlanParts;
pub use plan::Plan;
