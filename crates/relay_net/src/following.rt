//! Where an event goes on to from an arrival.

ghost use Rattle.std.specs.Prelude.{◌≡◌, ◌≤◌, Some, length, drop, OnOk};
ghost use Rattle.relay_net.specs.Network.{address_of_server};
ghost use Rattle.relay_net.specs.Outputs.{servers_of};
ghost use Rattle.tag_pattern.specs.Parts.{most_tag_bytes};
ghost use Rattle.relay_net.specs.Arrivals.{Grows, Through, IsArrival, IsSentOn, IsNext};

use crate::Net;
use crate::arrival::{Arrival, comes_in, is_among};
use relay_conf::{BufferNo, Output, Server};
use route_graph::Way;
use std::alloc::{AllocError, Allocator};
use tag_pattern::{Tag, TagError};

/// Adds where an event goes on to from here, to those that are there.
pub(crate) fn follow<A: Allocator + Copy>(
    alloc: A,
    net: &Net<A>,
    wanted: &[u8],
    here: Arrival,
    found: &mut Vec<Arrival, A>,
) -> Result<(), AllocError>
    requires within { here.offset ≤ length wanted.now }
    requires short { length wanted.now ≤ most_tag_bytes }
    ensures { OnOk result (Grows (IsNext net.now wanted.now here) found.old.items found.new.items) }
{
    let (_, borne) = wanted.split_at(here.offset);
    let tag = match Tag::read(alloc, borne) {
        Ok(tag) => tag,
        Err(TagError::TagTooLong) => return Ok(()),
        Err(TagError::Memory) => return Err(AllocError),
    };
    match net.way(here.at, &tag)? {
        Way::Loop => Ok(()),
        Way::Leaves(leaves) => follow_buffers(net, wanted, here.at.relay, &leaves, borne, found),
    }
}

// The same through one of these buffers of the relay, under this tag.
fn follow_buffers<A: Allocator + Copy>(
    net: &Net<A>,
    wanted: &[u8],
    place: usize,
    leaves: &[BufferNo],
    tag: &[u8],
    found: &mut Vec<Arrival, A>,
) -> Result<(), AllocError>
    requires { length tag.now ≤ most_tag_bytes }
    ensures { OnOk result
        (Grows (Through (λ leaf. IsSentOn net.now wanted.now place leaf.0 tag.now) leaves.now)
        found.old.items found.new.items) }
{
    for leaf in leaves {
        follow_buffer(net, wanted, place, leaf.0, tag, found)?;
    }
    Ok(())
}

// The same through this buffer of the relay, under this tag.
fn follow_buffer<A: Allocator + Copy>(
    net: &Net<A>,
    wanted: &[u8],
    place: usize,
    buffer: usize,
    tag: &[u8],
    found: &mut Vec<Arrival, A>,
) -> Result<(), AllocError>
    requires { length tag.now ≤ most_tag_bytes }
    ensures { OnOk result
        (Grows (IsSentOn net.now wanted.now place buffer tag.now) found.old.items found.new.items) }
{
    match net.output(place, buffer) {
        Some(output) => follow_servers(net, wanted, servers(output), tag, found),
        None => Ok(()),
    }
}

// The same to these servers.
fn follow_servers<A: Allocator + Copy>(
    net: &Net<A>,
    wanted: &[u8],
    servers: &[Server<A>],
    tag: &[u8],
    found: &mut Vec<Arrival, A>,
) -> Result<(), AllocError>
    requires { length tag.now ≤ most_tag_bytes }
    ensures { OnOk result
        (Grows (Through (λ server. IsArrival net.now wanted.now (address_of_server server) tag.now)
        servers.now) found.old.items found.new.items) }
{
    for server in servers {
        add(
            found,
            comes_in(net, server.host.as_bytes(), server.port, tag, wanted),
        )?;
    }
    Ok(())
}

/// Adds the arrival, if there is one, unless it is there.
pub(crate) fn add<A: Allocator>(
    found: &mut Vec<Arrival, A>,
    arrival: Option<Arrival>,
) -> Result<(), AllocError>
    ensures { OnOk result (Grows (λ other. arrival ≡ Some other) found.old.items found.new.items) }
{
    if let Some(arrival) = arrival {
        if !is_among(found, arrival) {
            found.push(arrival)?;
        }
    }
    Ok(())
}

// The servers that the output sends to.
fn servers<A: Allocator>(output: &Output<A>) -> &[Server<A>]
    ensures { result.now ≡ servers_of output.now }
{
    match output {
        Output::Forward { settings, .. } => &settings.servers,
        _ => &[],
    }
}
