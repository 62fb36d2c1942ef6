//! The text of a Fluentd configuration, read into elements.
#![tactic(auto)]

mod element;
mod fault;
mod form;
mod laws;
mod quoted;
mod reading;
mod section;
mod text;

pub use element::{Element, Pair};
pub use fault::{ConfError, ConfFault, FaultKind};
pub use laws::{
    each_text_has_one_reading, lines_are_read, quotes_keep_values, written_elements_are_read,
};
pub use reading::read;
