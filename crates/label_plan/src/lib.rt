//! The labels and reaches that a plan lacks, found from its configurations and written as lines
//! behind its own; and which rules are broken then.
#![tactic(auto)]

mod certificate;
mod checking;
mod derive;
mod drops;
mod error;
mod fresh;
mod labelled;
mod laws;
mod lines;
mod manner;
mod name;
mod numeral;
mod pattern;
mod place;
mod plan;
mod put;
mod sink;
mod stock;
mod task;

pub use checking::{LabelledCheck, check_dropping, check_labelled};
pub use drops::with_drops;
pub use error::{DropError, DroppedPlanError, NameError};
pub use fresh::without_labels;
pub use labelled::labelled_text;
pub use laws::{dropped_matches_do, events_end_in_sinks};
pub use name::DropName;
pub use place::{MatchPlace, place_of};
pub use plan::plan_with_drops;
