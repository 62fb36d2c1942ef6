//! A sink that keeps, whose buffer and paths no output of the relay has.

ghost use Rattle.std.specs.Prelude.{◌≡◌, IfOk};
ghost use Rattle.std.specs.List.{list_all};
ghost use Rattle.std.specs.Option.{option_copied};
ghost use Rattle.label_plan.specs.Clashes.{clash as clash_of, are_apart, same_number as same_number_of, same_path as same_path_of, is_free_rule, is_free_scope, is_free as is_free_of, IsOwnSink};
ghost use Rattle.label_plan.specs.Sinks.{IsKeepingSink};

use loss_rules::{buffer_path, sink_path};
use relay_conf::{BufferNo, BufferSettings, FileSettings, MatchRule, Output, Relay, Scope};
use relay_net::buffer_number;
use std::alloc::{AllocError, Allocator};

/// One output, under this line: a sink that keeps, whose number and paths no output of the relay
/// has. The numbers are tried one after the other, so memory runs out before they do.
pub(crate) fn own_sink<A: Allocator + Copy>(
    alloc: A,
    relay: &Relay<A>,
    line: usize,
) -> Result<Vec<Output<A>, A>, AllocError>
    ensures { IfOk result (λ outputs. IsOwnSink relay.now line outputs.items) }
{
    for number in 0..usize::MAX {
        let sink = sink_of(alloc, number, line)?;
        if is_free(relay, &sink) {
            let mut outputs = Vec::new(alloc);
            outputs.push(sink)?;
            return Ok(outputs);
        }
    }
    Err(AllocError)
}

// The sink with this number, under this line: it keeps what comes, in files, for ever.
fn sink_of<A: Allocator + Copy>(
    alloc: A,
    number: usize,
    line: usize,
) -> Result<Output<A>, AllocError>
    ensures { IfOk result (IsKeepingSink line) }
{
    let path = format!(in alloc; "dropped-{number}")?;
    let settings = FileSettings {
        path: format!(in alloc; "dropped-{number}")?,
        buffer: BufferSettings::keeping(path),
        number: BufferNo(number),
    };
    Ok(Output::File { settings, line })
}

// Whether no output of the relay clashes with this one.
fn is_free<A: Allocator>(relay: &Relay<A>, sink: &Output<A>) -> bool
    ensures { result ≡ is_free_of relay.now sink.now }
{
    relay.scopes.iter().all(|scope| is_free_in(scope, sink))
}

// The same of the outputs of a scope.
fn is_free_in<A: Allocator>(scope: &Scope<A>, sink: &Output<A>) -> bool
    ensures { result ≡ is_free_scope sink.now scope.now }
{
    scope
        .matches
        .iter()
        .all(|found| is_free_of_match(found, sink))
}

// The same of the outputs of a match.
fn is_free_of_match<A: Allocator>(found: &MatchRule<A>, sink: &Output<A>) -> bool
    ensures { result ≡ is_free_rule sink.now found.now }
{
    are_all_apart(&found.outputs, sink)
}

// Whether none of the outputs clashes with this one.
fn are_all_apart<A: Allocator>(outputs: &[Output<A>], sink: &Output<A>) -> bool
    ensures { result ≡ list_all (λ other. are_apart other sink.now) outputs.now }
{
    for other in outputs {
        if !are_apart(other, sink) {
            return false;
        }
    }
    true
}

// Whether the outputs don't clash.
#[tactic(auto, unfolding(crate::specs::Clashes::are_apart))]
fn are_apart<A: Allocator>(one: &Output<A>, two: &Output<A>) -> bool
    ensures { result ≡ are_apart one.now two.now }
{
    !clash(one, two)
}

// Whether the outputs have one buffer's number, or share a path.
fn clash<A: Allocator>(one: &Output<A>, two: &Output<A>) -> bool
    ensures { result ≡ clash_of one.now two.now }
{
    same_number(buffer_number(one), buffer_number(two))
        || same_path(buffer_path(one), buffer_path(two))
        || same_path(sink_path(one), sink_path(two))
}

// Whether there are two numbers, and they are the same.
fn same_number(one: Option<usize>, two: Option<usize>) -> bool
    ensures { result ≡ same_number_of one two }
{
    match (one, two) {
        (Some(one), Some(two)) => one == two,
        _ => false,
    }
}

// Whether there are two paths, and they are the same.
fn same_path(one: Option<&[u8]>, two: Option<&[u8]>) -> bool
    ensures { result ≡ same_path_of (option_copied one.entry) (option_copied two.entry) }
{
    match (one, two) {
        (Some(one), Some(two)) => one == two,
        _ => false,
    }
}
