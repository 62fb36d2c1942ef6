//! What an output's settings say.

ghost use Rattle.std.specs.Prelude.{◌≡◌, ◌↔◌, IsTrue, is_none, slice_get};
ghost use Rattle.std.specs.Option.{option_copied};
ghost use Rattle.relay_conf.specs.Buffers.{buffer_number};
ghost use Rattle.relay_net.specs.Outputs.{settings_of, servers_of, has_memory, KeepsChunks, keeps_chunks as chunks_kept, Keeps};
ghost use Rattle.relay_conf.specs.BufferSection.{kind_view};

use relay_conf::{BufferKind, BufferSettings, Output, OverflowAction, Server};
use std::alloc::Allocator;

/// The number of the output's buffer, if it has one.
pub fn buffer_number<A: Allocator>(output: &Output<A>) -> Option<usize>
    ensures { result ≡ buffer_number output.now }
{
    match output {
        Output::Null { line: _ } => None,
        Output::Relabel { target: _, line: _ } => None,
        Output::Forward { settings, line: _ } => Some(settings.number.0),
        Output::File { settings, line: _ } => Some(settings.number.0),
    }
}

/// The settings of the output's buffer, if it has one.
pub fn settings<A: Allocator>(output: &Output<A>) -> Option<&BufferSettings<A>>
    ensures { option_copied result ≡ settings_of output.now }
{
    match output {
        Output::Null { line: _ } => None,
        Output::Relabel { target: _, line: _ } => None,
        Output::Forward { settings, line: _ } => Some(&settings.buffer),
        Output::File { settings, line: _ } => Some(&settings.buffer),
    }
}

/// The server of this number, counted from 0, that the output sends to.
pub fn server<A: Allocator>(output: &Output<A>, number: usize) -> Option<&Server<A>>
    ensures { option_copied result ≡ slice_get (servers_of output.now) number }
{
    match output {
        Output::Forward { settings, line: _ } => settings.servers.get(number),
        _ => None,
    }
}

/// Whether the output has a buffer whose chunks are in memory.
pub fn is_in_memory<A: Allocator>(output: &Output<A>) -> bool
    ensures { result ≡ has_memory output.now }
{
    match settings(output) {
        Some(found) => is_memory(&found.kind),
        None => false,
    }
}

/// Whether the output lets go of nothing before it is delivered: its buffer is a file, retries for
/// ever and refuses what comes where it is full, and it asks for acknowledgements where it
/// forwards.
pub fn keeps<A: Allocator>(output: &Output<A>) -> bool
    ensures { IsTrue result ↔ Keeps output.now }
{
    match output {
        Output::Null { line: _ } => false,
        Output::Relabel { target: _, line: _ } => false,
        Output::Forward { settings, line: _ } => {
            keeps_chunks(&settings.buffer) && settings.require_ack_response
        }
        Output::File { settings, line: _ } => keeps_chunks(&settings.buffer),
    }
}

/// Whether the buffer lets no chunk go before it is delivered.
pub fn keeps_chunks<A: Allocator>(settings: &BufferSettings<A>) -> bool
    ensures keeps { result ≡ chunks_kept settings.now }
    ensures means { IsTrue result ↔ KeepsChunks settings.now }
{
    match (&settings.kind, settings.overflow_action) {
        (BufferKind::File { .. }, OverflowAction::ThrowException) => settings.retry.forever,
        _ => false,
    }
}

/// Whether the chunks are in memory.
fn is_memory<A: Allocator>(kind: &BufferKind<A>) -> bool
    ensures { result ≡ is_none (kind_view kind.now) }
{
    match kind {
        BufferKind::Memory => true,
        BufferKind::File { .. } => false,
    }
}
