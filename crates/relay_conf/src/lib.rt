//! A relay's configuration as values: what it listens on, and where its events go; and the first
//! thing in one that may not stand there.
#![tactic(auto)]

mod buffer;
mod configuration;
mod defaults;
mod element;
mod examine;
mod fault;
mod form;
mod labels;
mod output;
mod outputs;
mod pattern_words;
mod patterns;
mod reading;
mod relay;
mod rows;
mod section;
mod settings;
mod target;
mod values;

pub use buffer::{BufferKind, BufferSettings, FlushMode, OverflowAction};
pub use defaults::DEFAULT_BIND;
pub use element::{argument_of, line_of, pairs_of};
pub use fault::{RelayError, RelayFault, RelayFaultKind};
pub use output::{BufferNo, FileSettings, ForwardSettings, Output, Server};
pub use pattern_words::words;
pub use relay::{MatchRule, Relay, Scope, ScopeNo, Security, Source};
pub use retry_waits::RetrySettings;
