//! The rules under which a network of relays loses no event that was acknowledged, and each place
//! where one is broken.
#![tactic(auto)]

mod addresses;
mod answer;
mod by_site;
mod cycle;
mod fitting;
mod graph;
mod hint;
mod label;
mod laws;
mod ordered;
mod outputs;
mod paths;
mod plan;
mod printed;
mod relabel;
mod requirement;
mod servers;
mod site;
mod text;
mod visit;

pub use addresses::addresses_are_distinct;
pub use answer::{Answer, Place, Rule};
pub use by_site::{Labels, Reaches};
pub use cycle::no_relabel_cycle;
pub use fitting::fits_any;
pub use label::{Duty, Label, Reach, RelayLine};
pub use laws::{each_plan_has_one_answer, labelled_leaves_keep, labelled_tags_are_safe};
pub use outputs::{reached_matches_keep, relabels_are_labelled};
pub use paths::{buffer_path, paths_are_distinct, sink_path};
pub use plan::{clients_are_labelled, labels_are_matched, reaches_cover};
pub use servers::{forwards_are_labelled, servers_are_sources};
pub use site::line_of;
