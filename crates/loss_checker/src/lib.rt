//! The loss checker: whether each rule holds of a plan, so that its network loses no event that was
//! acknowledged, or else the first rule that is broken, and where; and every rule that is broken.
#![tactic(auto)]

mod broken;
mod checking;

pub use broken::{BrokenRule, broken_rules};
pub use checking::check;
pub use loss_rules::{Answer, Duty, Place, Rule};
pub use plan_lines::{Plan, PlanError, conf_names};
