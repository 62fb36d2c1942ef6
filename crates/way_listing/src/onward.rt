//! In which messages the events of a message go on.

ghost use Rattle.std.specs.Prelude.{◌≡◌, OnOk};
ghost use Rattle.relay_net.specs.Network.{address_of_server};
ghost use Rattle.relay_net.specs.Outputs.{servers_of};
ghost use Rattle.relay_net.specs.Routed.{SendsTo};
ghost use Rattle.way_listing.specs.Sendings.{Adds, GoesOn, Through, sending};

use crate::sent::{Sent, add};
use crate::ways::entered;
use relay_conf::{BufferNo, Output, Server};
use relay_net::Net;
use route_graph::Way;
use std::alloc::{AllocError, Allocator};

/// Adds the messages in which the events of this one may go on, to those that are there.
pub(crate) fn onward<A: Allocator + Copy>(
    alloc: A,
    net: &Net<A>,
    here: &Sent<A>,
    found: &mut Vec<Sent<A>, A>,
) -> Result<(), AllocError>
    ensures { OnOk result (Adds (GoesOn net.now here.now) found.old.items found.new.items) }
{
    let Some(at) = net.entrance(here.host(), here.port()) else {
        return Ok(());
    };
    let prefix = net.prefix(here.host(), here.port());
    let Some(tag) = entered(alloc, prefix, here.tag())? else {
        return Ok(());
    };
    match net.way(at, &tag)? {
        Way::Loop => Ok(()),
        Way::Leaves(leaves) => send_all(alloc, net, at.relay, &leaves, tag.as_bytes(), found),
    }
}

// Adds those that these buffers of the relay send under this tag.
fn send_all<A: Allocator + Copy>(
    alloc: A,
    net: &Net<A>,
    place: usize,
    leaves: &[BufferNo],
    tag: &[u8],
    found: &mut Vec<Sent<A>, A>,
) -> Result<(), AllocError>
    ensures { OnOk result
        (Adds (Through (λ leaf next. SendsTo net.now place leaf.0 next.address
        × (next.tag ≡ tag.now)) leaves.now) found.old.items found.new.items) }
{
    for leaf in leaves {
        send(alloc, net, place, leaf.0, tag, found)?;
    }
    Ok(())
}

// Adds those that this buffer of the relay sends under this tag.
fn send<A: Allocator + Copy>(
    alloc: A,
    net: &Net<A>,
    place: usize,
    buffer: usize,
    tag: &[u8],
    found: &mut Vec<Sent<A>, A>,
) -> Result<(), AllocError>
    ensures { OnOk result
        (Adds (λ next. SendsTo net.now place buffer next.address × (next.tag ≡ tag.now))
        found.old.items found.new.items) }
{
    match net.output(place, buffer) {
        Some(output) => send_to(alloc, servers(output), tag, found),
        None => Ok(()),
    }
}

// Adds those to these servers.
fn send_to<A: Allocator + Copy>(
    alloc: A,
    servers: &[Server<A>],
    tag: &[u8],
    found: &mut Vec<Sent<A>, A>,
) -> Result<(), AllocError>
    ensures { OnOk result
        (Adds (Through (λ server next. sending (address_of_server server) tag.now ≡ next)
        servers.now) found.old.items found.new.items) }
{
    for server in servers {
        add(alloc, server.host.as_bytes(), server.port, tag, found)?;
    }
    Ok(())
}

// The servers that the output sends to.
fn servers<A: Allocator>(output: &Output<A>) -> &[Server<A>]
    ensures { result.now ≡ servers_of output.now }
{
    match output {
        Output::Forward { settings, .. } => &settings.servers,
        _ => &[],
    }
}
