//! Where the outputs of a relay stand, by the numbers of their buffers.

ghost use Rattle.std.specs.Prelude.{◌≡◌, ℕ, Some, None, [], ◌∷◌, cond, slice_get, IfOk, OnOk};
ghost use Rattle.std.specs.Option.{option_and_then, option_copied, option_or};
ghost use Rattle.relay_conf.specs.Buffers.{buffer_number};
ghost use Rattle.relay_net.specs.Outputs.{is_numbered};

use crate::output;
use relay_conf::{MatchRule, Output, Relay, Scope};
use std::alloc::{AllocError, Allocator};
use std::collections::BTreeMap;

/// Where an output stands in its relay: its scope, the match in that scope and its place in that
/// match, each counted from 0.
#[derive(Clone, Copy)]
pub(crate) struct OutputPlace {
    scope: usize,
    rule: usize,
    output: usize,
}

impl OutputPlace {
    ghost use Rattle.relay_net.specs.Index.{output_in};

    /// The output that stands there.
    pub fn output<A: Allocator>(self, relay: &Relay<A>) -> Option<&Output<A>>
        ensures { option_copied result ≡ output_in relay.now self }
    {
        match relay.scopes.get(self.scope) {
            Some(scope) => self.output_within(scope),
            None => None,
        }
    }

    // The output that stands there, in its scope.
    fn output_within<A: Allocator>(self, scope: &Scope<A>) -> Option<&Output<A>>
        ensures { option_copied result
            ≡ option_and_then (λ rule. slice_get rule.outputs.items self.output)
            (slice_get scope.now.matches.items self.rule) }
    {
        match scope.matches.get(self.rule) {
            Some(rule) => rule.outputs.get(self.output),
            None => None,
        }
    }
}

/// Where the outputs of a relay stand, by the numbers of their buffers.
#[derive(Drop)]
pub(crate) struct OutputIndex<A: Allocator> {
    places: BTreeMap<usize, OutputPlace, A>,
}

impl<A: Allocator + Copy> OutputIndex<A> {
    ghost use Rattle.relay_net.specs.Index.{place_in, among_outputs, among_rules, among_scopes, IsIndexOf};

    /// The index of this relay.
    pub fn new<B: Allocator>(alloc: A, relay: &Relay<B>) -> Result<OutputIndex<A>, AllocError>
        ensures { IfOk result (λ index. IsIndexOf index relay.now) }
    {
        let mut index = OutputIndex {
            places: BTreeMap::new(alloc),
        };
        index.add_scopes(&relay.scopes)?;
        Ok(index)
    }

    /// Where the output with this buffer stands.
    pub fn place(&self, buffer: usize) -> Option<OutputPlace>
        ensures { result ≡ place_in self.now buffer }
    {
        self.places.get(&buffer).copied()
    }

    // Adds the outputs of all scopes.
    fn add_scopes<B: Allocator>(&mut self, scopes: &[Scope<B>]) -> Result<(), AllocError>
        ensures { OnOk result
            ((buffer : ℕ) → place_in self.new buffer
            ≡ option_or (place_in self.old buffer) (among_scopes 0 scopes.now buffer)) }
    {
        for (place, scope) in scopes.iter().enumerate() {
            self.add_rules(place, &scope.matches)?;
        }
        Ok(())
    }

    // Adds the outputs of these matches, which are those of the scope.
    fn add_rules<B: Allocator>(
        &mut self,
        scope: usize,
        rules: &[MatchRule<B>],
    ) -> Result<(), AllocError>
        ensures { OnOk result
            ((buffer : ℕ) → place_in self.new buffer
            ≡ option_or (place_in self.old buffer) (among_rules scope 0 rules.now buffer)) }
    {
        for (place, rule) in rules.iter().enumerate() {
            self.add_outputs(scope, place, &rule.outputs)?;
        }
        Ok(())
    }

    // Adds these outputs, which are those of the match.
    fn add_outputs<B: Allocator>(
        &mut self,
        scope: usize,
        rule: usize,
        outputs: &[Output<B>],
    ) -> Result<(), AllocError>
        ensures { OnOk result
            ((buffer : ℕ) → place_in self.new buffer
            ≡ option_or (place_in self.old buffer)
            (among_outputs scope rule 0 outputs.now buffer)) }
    {
        for (place, found) in outputs.iter().enumerate() {
            if let Some(number) = output::buffer_number(found) {
                let there = OutputPlace {
                    scope,
                    rule,
                    output: place,
                };
                self.add(number, there)?;
            }
        }
        Ok(())
    }

    // Adds an output, unless there is one with this number.
    fn add(&mut self, number: usize, place: OutputPlace) -> Result<(), AllocError>
        ensures { OnOk result
            ((buffer : ℕ) → place_in self.new buffer
            ≡ option_or (place_in self.old buffer)
            (cond (is_numbered (Some number) buffer) (Some place) None)) }
    {
        if !self.places.contains_key(&number) {
            let _ = self.places.insert(number, place)?;
        }
        Ok(())
    }
}
