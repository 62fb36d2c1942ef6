//! The outputs that have buffers.

ghost use Rattle.std.specs.Prelude.{◌≡◌, ◌++◌, IfOk, OnOk};
ghost use Rattle.std.specs.List.{flat_map};
ghost use Rattle.relay_ports.specs.Outputs.{
  buffered as as_buffered,
  number_of,
  outputs_in,
  settings_of,
  AreTakesOf,
};
ghost use Rattle.relay_ports.specs.Parts.{listed, of_rule, of_scope};

use ack_receipt::{Basis, Takes};
use relay_conf::{
    BufferNo, BufferSettings, FileSettings, ForwardSettings, MatchRule, Output, OverflowAction,
    Scope,
};
use std::alloc::{AllocError, Allocator};

/// An output that has a buffer, with all that its configuration says.
#[derive(Drop)]
pub enum BufferedOutput<A: Allocator> {
    /// It sends to further relays (Fluentd, out_forward).
    Forward(ForwardSettings<A>),
    /// It stores in a sink.
    File(FileSettings<A>),
}

impl<A: Allocator> BufferedOutput<A> {
    /// Its buffer's settings.
    pub fn buffer(&self) -> &BufferSettings<A>
        ensures { result.now ≡ settings_of self.now }
    {
        match self {
            BufferedOutput::Forward(settings) => &settings.buffer,
            BufferedOutput::File(settings) => &settings.buffer,
        }
    }

    /// The number of its buffer in the relay.
    pub fn number(&self) -> BufferNo
        ensures { result.0 ≡ number_of self.now }
    {
        match self {
            BufferedOutput::Forward(settings) => settings.number,
            BufferedOutput::File(settings) => settings.number,
        }
    }
}

/// What lets a chunk of the output's buffer go: an acknowledgement where the output requires one,
/// the sink's files where it writes these, and else that the chunk was sent. The error is want of
/// memory.
pub fn takes_of<A: Allocator, B: Allocator>(
    alloc: B,
    output: &BufferedOutput<A>,
) -> Result<Takes<B>, AllocError>
    ensures { IfOk result (AreTakesOf output.now) }
{
    let buffer = output.buffer();
    let basis = match output {
        BufferedOutput::Forward(settings) => {
            if settings.require_ack_response {
                Basis::Acknowledged
            } else {
                Basis::Written
            }
        }
        BufferedOutput::File(settings) => {
            Basis::Stored(Vec::from_slice(alloc, settings.path.as_bytes())?)
        }
    };
    Ok(Takes {
        basis,
        expires: !buffer.retry.forever,
        drops: buffer.overflow_action == OverflowAction::DropOldestChunk,
    })
}

/// The outputs of these scopes that have buffers, each whole, in the order of the text. The error
/// is want of memory.
pub fn buffered_outputs<A: Allocator + Copy>(
    alloc: A,
    scopes: Vec<Scope<A>, A>,
) -> Result<Vec<BufferedOutput<A>, A>, AllocError>
    ensures { IfOk result (λ all. all.items ≡ outputs_in scopes.items) }
{
    let mut all = Vec::new(alloc);
    let mut rest = scopes.into_iter();
    while let Some(scope) = rest.next() {
        add_scope(&mut all, scope)?;
    }
    Ok(all)
}

// Adds those of this scope.
fn add_scope<A: Allocator>(
    all: &mut Vec<BufferedOutput<A>, A>,
    scope: Scope<A>,
) -> Result<(), AllocError>
    ensures { OnOk result (all.new.items ≡ all.old.items ++ of_scope scope) }
{
    let Scope { name: _, matches } = scope;
    let mut rest = matches.into_iter();
    while let Some(rule) = rest.next() {
        add_rule(all, rule)?;
    }
    Ok(())
}

// Adds those of this match.
fn add_rule<A: Allocator>(
    all: &mut Vec<BufferedOutput<A>, A>,
    rule: MatchRule<A>,
) -> Result<(), AllocError>
    ensures { OnOk result (all.new.items ≡ all.old.items ++ of_rule rule) }
{
    let MatchRule {
        patterns: _,
        outputs,
        line: _,
    } = rule;
    let mut rest = outputs.into_iter();
    while let Some(output) = rest.next() {
        add_output(all, output)?;
    }
    Ok(())
}

// Adds this output, if it has a buffer.
fn add_output<A: Allocator>(
    all: &mut Vec<BufferedOutput<A>, A>,
    output: Output<A>,
) -> Result<(), AllocError>
    ensures { OnOk result (all.new.items ≡ all.old.items ++ listed output) }
{
    if let Some(output) = buffered(output) {
        all.push(output)?;
    }
    Ok(())
}

// The output, if it has a buffer.
fn buffered<A: Allocator>(output: Output<A>) -> Option<BufferedOutput<A>>
    ensures { result ≡ as_buffered output }
{
    match output {
        Output::Null { line: _ } => None,
        Output::Relabel { target: _, line: _ } => None,
        Output::Forward { settings, line: _ } => Some(BufferedOutput::Forward(settings)),
        Output::File { settings, line: _ } => Some(BufferedOutput::File(settings)),
    }
}
