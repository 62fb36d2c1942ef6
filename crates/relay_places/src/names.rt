//! The names of a relay's places.

ghost use Rattle.std.specs.Prelude.{◌≡◌, ◌++◌, [], ◌∷◌, map, string_bytes, IfOk, OnOk};
ghost use Rattle.relay_places.specs.Names.{
  carrier_names,
  output_name,
  relay_name,
  server_name,
  sink_name,
  source_name,
};

use crate::outputs::line_of;
use relay_conf::{FileSettings, Output, Server, Source};
use std::alloc::{AllocError, Allocator};

/// The names of the places before all carriers: the relay with files in this folder, its sources,
/// the chunks of its outputs, and their journals. The error is want of memory.
pub(crate) fn names_before<A: Allocator + Copy>(
    alloc: A,
    sources: &[Source<A>],
    outputs: &[&Output<A>],
    folder: &str,
) -> Result<Vec<String<A>, A>, AllocError>
    ensures { IfOk result (λ names. map string_bytes names.items
        ≡ relay_name folder.now ∷ map source_name sources.now
        ++ map output_name (map (λ found. found.now) outputs.now)
        ++ map output_name (map (λ found. found.now) outputs.now)) }
{
    let mut names = sources_names(alloc, sources, folder)?;
    put_outputs(alloc, outputs, &mut names)?;
    put_outputs(alloc, outputs, &mut names)?;
    Ok(names)
}

// The names of the relay and of its sources.
fn sources_names<A: Allocator + Copy>(
    alloc: A,
    sources: &[Source<A>],
    folder: &str,
) -> Result<Vec<String<A>, A>, AllocError>
    ensures { IfOk result (λ names. map string_bytes names.items
        ≡ relay_name folder.now ∷ map source_name sources.now) }
{
    let mut names = Vec::new(alloc);
    names.push(relay_name(alloc, folder)?)?;
    put_sources(alloc, sources, &mut names)?;
    Ok(names)
}

// Adds the names of sources.
fn put_sources<A: Allocator + Copy>(
    alloc: A,
    sources: &[Source<A>],
    names: &mut Vec<String<A>, A>,
) -> Result<(), AllocError>
    ensures { OnOk result (map string_bytes names.new.items
        ≡ map string_bytes names.old.items ++ map source_name sources.now) }
{
    for source in sources {
        names.push(source_name(alloc, source)?)?;
    }
    Ok(())
}

// Adds the names of outputs.
fn put_outputs<A: Allocator + Copy>(
    alloc: A,
    outputs: &[&Output<A>],
    names: &mut Vec<String<A>, A>,
) -> Result<(), AllocError>
    ensures { OnOk result (map string_bytes names.new.items
        ≡ map string_bytes names.old.items
        ++ map output_name (map (λ found. found.now) outputs.now)) }
{
    for output in outputs {
        names.push(output_name(alloc, output)?)?;
    }
    Ok(())
}

/// Adds the names of what carries an output's chunks: its servers, or its sink in this folder. The
/// error is want of memory; then some of them may be there.
pub(crate) fn put_carriers_of<A: Allocator + Copy>(
    alloc: A,
    output: &Output<A>,
    folder: &str,
    names: &mut Vec<String<A>, A>,
) -> Result<(), AllocError>
    ensures { OnOk result (map string_bytes names.new.items
        ≡ map string_bytes names.old.items ++ carrier_names folder.now output.now) }
{
    match output {
        Output::Null { line: _ } | Output::Relabel { target: _, line: _ } => Ok(()),
        Output::Forward { settings, line: _ } => put_servers(alloc, &settings.servers, names),
        Output::File { settings, line: _ } => put_sink(alloc, settings, folder, names),
    }
}

// Adds the names of servers.
fn put_servers<A: Allocator + Copy>(
    alloc: A,
    servers: &[Server<A>],
    names: &mut Vec<String<A>, A>,
) -> Result<(), AllocError>
    ensures { OnOk result (map string_bytes names.new.items
        ≡ map string_bytes names.old.items ++ map server_name servers.now) }
{
    for server in servers {
        names.push(server_name(alloc, server)?)?;
    }
    Ok(())
}

// Adds the name of a sink.
fn put_sink<A: Allocator + Copy>(
    alloc: A,
    settings: &FileSettings<A>,
    folder: &str,
    names: &mut Vec<String<A>, A>,
) -> Result<(), AllocError>
    ensures { OnOk result (map string_bytes names.new.items
        ≡ map string_bytes names.old.items ++ sink_name folder.now settings.now ∷ []) }
{
    names.push(sink_name(alloc, settings, folder)?)?;
    Ok(())
}

fn relay_name<A: Allocator + Copy>(alloc: A, folder: &str) -> Result<String<A>, AllocError>
    ensures { IfOk result (λ name. string_bytes name ≡ relay_name folder.now) }
{
    format!(in alloc; "relay in {folder}")
}

fn source_name<A: Allocator + Copy>(alloc: A, source: &Source<A>) -> Result<String<A>, AllocError>
    ensures { IfOk result (λ name. string_bytes name ≡ source_name source.now) }
{
    let (bind, port) = (source.bind.as_str(), source.port);
    format!(in alloc; "source {bind}:{port}")
}

fn output_name<A: Allocator + Copy>(alloc: A, output: &Output<A>) -> Result<String<A>, AllocError>
    ensures { IfOk result (λ name. string_bytes name ≡ output_name output.now) }
{
    let line = line_of(output);
    format!(in alloc; "output of line {line}")
}

fn server_name<A: Allocator + Copy>(alloc: A, server: &Server<A>) -> Result<String<A>, AllocError>
    ensures { IfOk result (λ name. string_bytes name ≡ server_name server.now) }
{
    let (host, port) = (server.host.as_str(), server.port);
    format!(in alloc; "server {host}:{port}")
}

fn sink_name<A: Allocator + Copy>(
    alloc: A,
    settings: &FileSettings<A>,
    folder: &str,
) -> Result<String<A>, AllocError>
    ensures { IfOk result (λ name. string_bytes name ≡ sink_name folder.now settings.now) }
{
    let sink = settings.path.as_str();
    format!(in alloc; "sink {sink} in {folder}")
}
