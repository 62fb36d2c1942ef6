//! Tags and the match patterns of Fluentd's configuration.
#![tactic(auto)]

mod alternatives;
mod comparison;
mod cut;
mod expansion;
mod item;
mod laws;
mod pattern;
mod plain;
mod prefix;
mod prefixed;
mod row;
mod slots;
mod survey;
mod tag;

pub use comparison::{apart, fits, fits_entered, matches};
pub use item::{PatternItem, copied_item};
pub use laws::{
    common_tag_meets, fits_is_subset, parts_are_unique, prefixed_tags_are_of_prefixed,
    slots_are_unique,
};
pub use pattern::{Pattern, PatternError};
pub use plain::Plain;
pub use prefix::{Prefix, PrefixError, is_prefix};
pub use prefixed::PrefixedPlain;
pub use tag::{MOST_TAG_BYTES, Tag, TagError};
