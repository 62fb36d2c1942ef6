//! The outputs of a relay that have buffers.

ghost use Rattle.std.specs.Prelude.{◌≡◌, ◌++◌, map, option_map, IfOk, OnOk};
ghost use Rattle.relay_places.specs.Outputs.{
  has_buffer,
  line_of,
  of_rule,
  of_scope,
  outputs_of,
  settings_of,
};

use relay_conf::{BufferSettings, MatchRule, Output, Relay, Scope};
use std::alloc::{AllocError, Allocator};

/// The outputs of a relay that have buffers, in the order of the text. The error is want of memory.
pub(crate) fn outputs_of<'r, A: Allocator + Copy>(
    alloc: A,
    relay: &'r Relay<A>,
) -> Result<Vec<&'r Output<A>, A>, AllocError>
    ensures { IfOk result (λ all. map (λ found. found.now) all.items ≡ outputs_of relay.now) }
{
    let mut all = Vec::new(alloc);
    for scope in &relay.scopes {
        put_scope(&mut all, scope)?;
    }
    Ok(all)
}

// Adds those of a scope.
fn put_scope<'r, A: Allocator>(
    all: &mut Vec<&'r Output<A>, A>,
    scope: &'r Scope<A>,
) -> Result<(), AllocError>
    ensures { OnOk result (map (λ found. found.now) all.new.items
        ≡ map (λ found. found.now) all.old.items ++ of_scope scope.now) }
{
    for rule in &scope.matches {
        put_rule(all, rule)?;
    }
    Ok(())
}

// Adds those of a match.
fn put_rule<'r, A: Allocator>(
    all: &mut Vec<&'r Output<A>, A>,
    rule: &'r MatchRule<A>,
) -> Result<(), AllocError>
    ensures { OnOk result (map (λ found. found.now) all.new.items
        ≡ map (λ found. found.now) all.old.items ++ of_rule rule.now) }
{
    for output in &rule.outputs {
        if has_buffer(output) {
            all.push(output)?;
        }
    }
    Ok(())
}

// Whether an output has a buffer.
fn has_buffer<A: Allocator>(output: &Output<A>) -> bool
    ensures { result ≡ has_buffer output.now }
{
    match output {
        Output::Null { line: _ } | Output::Relabel { target: _, line: _ } => false,
        Output::Forward {
            settings: _,
            line: _,
        }
        | Output::File {
            settings: _,
            line: _,
        } => true,
    }
}

/// The line where an output begins, counted from 1.
pub(crate) fn line_of<A: Allocator>(output: &Output<A>) -> usize
    ensures { result ≡ line_of output.now }
{
    match output {
        Output::Null { line } => *line,
        Output::Relabel { target: _, line } => *line,
        Output::Forward { settings: _, line } => *line,
        Output::File { settings: _, line } => *line,
    }
}

/// The settings of an output's buffer; `None` where it has no buffer.
pub(crate) fn settings_of<A: Allocator>(output: &Output<A>) -> Option<&BufferSettings<A>>
    ensures { option_map (λ found. found.now) result ≡ settings_of output.now }
{
    match output {
        Output::Null { line: _ } | Output::Relabel { target: _, line: _ } => None,
        Output::Forward { settings, line: _ } => Some(&settings.buffer),
        Output::File { settings, line: _ } => Some(&settings.buffer),
    }
}
