//! What a plan says beside its network: labels, reaches, the duty, and a line for each relay.

use std::alloc::Allocator;
use tag_pattern::Plain;

/// The tags that may reach a scope, as one line of a plan says. Several labels of one scope add up.
#[derive(Drop)]
pub struct Label<A: Allocator> {
    /// The place of the relay in the plan, counted from 0.
    pub place: usize,
    /// The place of the scope in the relay, counted from 0; the main scope is 0.
    pub scope: usize,
    /// The tags, as patterns with their groups written out.
    pub patterns: Vec<Plain<A>, A>,
    /// The line in the plan, counted from 1.
    pub line: usize,
}

/// The tags that may reach a match, as one line of a plan says. Several reaches of one match add
/// up.
#[derive(Drop)]
pub struct Reach<A: Allocator> {
    /// The place of the relay in the plan, counted from 0.
    pub place: usize,
    /// The place of the scope in the relay, counted from 0; the main scope is 0.
    pub scope: usize,
    /// The place of the match in the scope, counted from 0.
    pub rule: usize,
    /// The tags, as patterns with their groups written out.
    pub patterns: Vec<Plain<A>, A>,
    /// The line in the plan, counted from 1.
    pub line: usize,
}

/// What a plan asks of each match that is reached.
#[derive(Clone, Copy, PartialEq, Eq)]
pub enum Duty {
    /// One of its outputs keeps what the match takes, or sends it on to another scope.
    Any,
    /// Each of its outputs does.
    Every,
}

/// What a plan says of a relay beside its number, host and configuration.
#[derive(Drop)]
pub struct RelayLine<A: Allocator> {
    /// The folder of its buffers and sinks: letters, digits, `_` and `-`.
    pub folder: String<A>,
    /// The line in the plan, counted from 1.
    pub line: usize,
}
