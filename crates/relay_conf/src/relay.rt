//! A relay: its sources, and its scopes with their matches.

use crate::output::Output;
use std::alloc::Allocator;
use tag_pattern::{Plain, Prefix};

/// The place of a scope in its relay, counted from 0; the main scope is 0.
#[derive(Clone, Copy, PartialEq, Eq)]
pub struct ScopeNo(pub usize);

/// One relay, as its configuration describes it.
#[derive(Drop)]
pub struct Relay<A: Allocator> {
    /// Where it listens, in the order of the text.
    pub sources: Vec<Source<A>, A>,
    /// The main scope, then one for each label, in the order of the text.
    pub scopes: Vec<Scope<A>, A>,
}

/// A place that listens for the Forward Protocol (Fluentd, in_forward).
#[derive(Drop)]
pub struct Source<A: Allocator> {
    /// The port it listens on, from 1.
    pub port: u16,
    /// The local address it listens on.
    pub bind: String<A>,
    /// The scope that its events enter.
    pub label: ScopeNo,
    /// What is put in front of the tags of its events, with a dot, if anything (this project's
    /// profile).
    pub prefix: Option<Prefix<A>>,
    /// What its clients must prove in the handshake, if anything.
    pub security: Option<Security<A>>,
    /// The line that opens it, counted from 1.
    pub line: usize,
}

/// One end of the handshake (Forward Protocol v1, "Handshake Messages").
pub struct Security<A: Allocator> {
    /// The name that this end gives itself: at most 1,024 bytes.
    pub self_hostname: String<A>,
    /// The secret that both ends know.
    pub shared_key: String<A>,
}

// By hand, so that crates above don't prove again how its parts end.
impl<A: Allocator> Drop for Security<A> {
    fn drop(self) {
        let Security {
            self_hostname: _,
            shared_key: _,
        } = self;
    }
}

/// A list of matches that an event goes through until one takes it.
#[derive(Drop)]
pub struct Scope<A: Allocator> {
    /// Empty for the main scope, else the label with its `@`.
    pub name: String<A>,
    /// Its matches, in the order of the text.
    pub matches: Vec<MatchRule<A>, A>,
}

/// A match takes an event whose tag one of its patterns has.
#[derive(Drop)]
pub struct MatchRule<A: Allocator> {
    /// Its patterns, with their groups written out.
    pub patterns: Vec<Plain<A>, A>,
    /// Where the event goes: one output, or those of a copy.
    pub outputs: Vec<Output<A>, A>,
    /// The line that opens it, counted from 1.
    pub line: usize,
}
