//! The word `adapt`: a configuration as it runs in Fluentd, printed in the form that a relay reads.
#![tactic(auto)]

mod adapt;
mod adapted;
mod adapting;
mod amounts;
mod conf;
mod confs;
mod decision;
mod draft;
mod labels;
mod lines;
mod maker;
mod mark;
mod near;
mod notes;
mod openings;
mod outcome;
mod paths;
mod patterns;
mod place;
mod reading_back;
mod rules;
mod tables;
mod values;

pub use adapt::run_adapt;
pub use adapted::{Adapted, Entry, Names, Row};
pub use conf::adapt_conf;
pub use confs::{AdaptedConfs, ConfTexts, StoppedConfs, adapt_confs};
pub use decision::Decision;
pub use outcome::{AdaptedConf, ConfText};
