//! What an output does with its chunks: whether it forwards, stores, gives up, or drops the oldest.

ghost use Rattle.std.specs.Prelude.{◌↔◌, IsTrue};
ghost use Rattle.custody_steps.specs.Steps.{Forwards, Stores, GivesUp, DropsOldest};

use relay_conf::{Output, OverflowAction};
use relay_net::settings;
use std::alloc::Allocator;

/// Whether the output sends to further relays, and asks them for acknowledgements or doesn't, as is
/// said.
pub(crate) fn forwards<A: Allocator>(output: &Output<A>, asks: bool) -> bool
    ensures { IsTrue result ↔ Forwards asks output.now }
{
    match output {
        Output::Forward { settings, .. } => settings.require_ack_response == asks,
        _ => false,
    }
}

/// Whether the output stores into a sink.
pub(crate) fn stores<A: Allocator>(output: &Output<A>) -> bool
    ensures { IsTrue result ↔ Stores output.now }
{
    matches!(output, Output::File { .. })
}

/// Whether the output gives a chunk up in the end.
pub(crate) fn gives_up<A: Allocator>(output: &Output<A>) -> bool
    ensures { IsTrue result ↔ GivesUp output.now }
{
    match settings(output) {
        Some(settings) => !settings.retry.forever,
        None => false,
    }
}

/// Whether the output lets its oldest chunk go where its buffer is full.
pub(crate) fn drops_oldest<A: Allocator>(output: &Output<A>) -> bool
    ensures { IsTrue result ↔ DropsOldest output.now }
{
    match settings(output) {
        Some(settings) => settings.overflow_action == OverflowAction::DropOldestChunk,
        None => false,
    }
}
