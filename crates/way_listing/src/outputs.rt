//! The outputs that have a relay's buffers, and how they are printed.

ghost use Rattle.std.specs.Prelude.{◌≡◌, ◌++◌, OnOk};
ghost use Rattle.std.specs.List.{find, flat_map};
ghost use Rattle.std.specs.Option.{option_copied};
ghost use Rattle.relay_net.specs.Network.{output_of};
ghost use Rattle.relay_conf.specs.Buffers.{buffer_number};
ghost use Rattle.relay_net.specs.Outputs.{is_numbered};
ghost use Rattle.way_listing.specs.Outputs.{buffer_text, output_text, outputs_in, server_text};

use crate::pieces::put_three;
use relay_conf::{BufferNo, Output, Relay, Scope, Server};
use std::alloc::{AllocError, Allocator};

/// Adds the text of the output that has this buffer.
pub(crate) fn put_buffer<A: Allocator + Copy, B: Allocator>(
    alloc: A,
    line: &mut Vec<u8, A>,
    relay: &Relay<B>,
    buffer: BufferNo,
) -> Result<(), AllocError>
    ensures { OnOk result (line.new.items ≡ line.old.items ++ buffer_text relay.now buffer.0) }
{
    match output_of(relay, buffer) {
        Some(output) => put_output(alloc, line, output),
        None => Ok(()),
    }
}

/// Adds ` file` and the path, or ` forward` and each server; nothing of an output without a buffer.
pub fn put_output<A: Allocator + Copy, B: Allocator>(
    alloc: A,
    line: &mut Vec<u8, A>,
    output: &Output<B>,
) -> Result<(), AllocError>
    ensures { OnOk result (line.new.items ≡ line.old.items ++ output_text output.now) }
{
    match output {
        Output::Null { line: _ } => Ok(()),
        Output::Relabel { target: _, line: _ } => Ok(()),
        Output::File { settings, line: _ } => {
            put_three(line, b" file ", settings.path.as_bytes(), b"")
        }
        Output::Forward { settings, line: _ } => {
            line.extend_from_slice(b" forward")?;
            put_servers(alloc, line, &settings.servers)
        }
    }
}

// Adds each server behind a space.
fn put_servers<A: Allocator + Copy, B: Allocator>(
    alloc: A,
    line: &mut Vec<u8, A>,
    servers: &[Server<B>],
) -> Result<(), AllocError>
    ensures { OnOk result (line.new.items ≡ line.old.items ++ flat_map server_text servers.now) }
{
    for server in servers {
        put_server(alloc, line, server)?;
    }
    Ok(())
}

// Adds a space, and the server's host and port.
fn put_server<A: Allocator + Copy, B: Allocator>(
    alloc: A,
    line: &mut Vec<u8, A>,
    server: &Server<B>,
) -> Result<(), AllocError>
    ensures { OnOk result (line.new.items ≡ line.old.items ++ server_text server.now) }
{
    let port = server.port;
    let behind = format!(in alloc; ":{port}")?;
    put_three(line, b" ", server.host.as_bytes(), behind.as_bytes())
}

// The output that has this buffer.
fn output_of<A: Allocator>(relay: &Relay<A>, buffer: BufferNo) -> Option<&Output<A>>
    ensures { option_copied result ≡ output_of relay.now buffer.0 }
{
    for scope in &relay.scopes {
        if let Some(output) = in_scope(scope, buffer) {
            return Some(output);
        }
    }
    None
}

// The output of the scope that has this buffer.
fn in_scope<A: Allocator>(scope: &Scope<A>, buffer: BufferNo) -> Option<&Output<A>>
    ensures { option_copied result
        ≡ find (λ output. is_numbered (buffer_number output) buffer.0) (outputs_in scope.now) }
{
    for rule in &scope.matches {
        if let Some(output) = among(&rule.outputs, buffer) {
            return Some(output);
        }
    }
    None
}

// The output among these that has this buffer.
fn among<A: Allocator>(outputs: &[Output<A>], buffer: BufferNo) -> Option<&Output<A>>
    ensures { option_copied result
        ≡ find (λ output. is_numbered (buffer_number output) buffer.0) outputs.now }
{
    for output in outputs {
        if has_buffer(output, buffer) {
            return Some(output);
        }
    }
    None
}

// Whether the output has this buffer.
fn has_buffer<A: Allocator>(output: &Output<A>, buffer: BufferNo) -> bool
    ensures { result ≡ is_numbered (buffer_number output.now) buffer.0 }
{
    match output {
        Output::Null { line: _ } => false,
        Output::Relabel { target: _, line: _ } => false,
        Output::Forward { settings, line: _ } => settings.number.0 == buffer.0,
        Output::File { settings, line: _ } => settings.number.0 == buffer.0,
    }
}
