//! The forms of a configuration's values. Nothing here takes memory.
#![tactic(auto)]

mod amount;
mod laws;
mod number;
mod word;

pub use amount::{seconds, size};
pub use laws::values_are_digits_times_units;
pub use number::{port, whole_number};
pub use word::{boolean, has_slash, is_host_name, is_label_name, is_path};
