//! Steps of a network of relays, and how they are read from a text.
#![tactic(auto)]

mod laws;
mod lines;
mod step;

pub use laws::{each_line_says_one_thing, each_text_has_one_reading};
pub use lines::StepsError;
pub use step::{ChunkName, Step};
