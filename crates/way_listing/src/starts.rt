//! The messages with which clients begin.

ghost use Rattle.std.specs.Prelude.{◌≡◌, [], map, slice_get, string_bytes, IfOk, OnOk};
ghost use Rattle.way_listing.specs.Sendings.{Adds, IsOfClient, IsSentUnder, Sends, Through};

use crate::sent::{Sent, add};
use relay_net::{Client, Net};
use route_graph::have_tag;
use std::alloc::{AllocError, Allocator};
use tag_pattern::{Tag, TagError};

/// The messages with these tags that clients of the network send.
pub(crate) fn starts<A: Allocator + Copy, B: Allocator>(
    alloc: A,
    net: &Net<A>,
    tags: &[String<B>],
) -> Result<Vec<Sent<A>, A>, AllocError>
    ensures { IfOk result
        (λ found. Adds (IsOfClient net.now (map string_bytes tags.now)) [] found.items) }
{
    let mut found = Vec::new(alloc);
    for (number, client) in net.clients().iter().enumerate() {
        of_number(alloc, net, number, client, tags, &mut found)?;
    }
    Ok(found)
}

// Adds those that this client sends, who has this number.
fn of_number<A: Allocator + Copy, B: Allocator>(
    alloc: A,
    net: &Net<A>,
    number: usize,
    client: &Client<A>,
    tags: &[String<B>],
    found: &mut Vec<Sent<A>, A>,
) -> Result<(), AllocError>
    requires { slice_get net.now.clients number ≡ Some client.now }
    ensures { OnOk result
        (Adds (Sends net.now (map string_bytes tags.now) client.now) found.old.items
        found.new.items) }
{
    match net.client_host(number) {
        Some(host) => of_client(alloc, client, host, tags, found),
        None => Ok(()),
    }
}

// Adds those that this client sends, to this host.
fn of_client<A: Allocator + Copy, B: Allocator>(
    alloc: A,
    client: &Client<A>,
    host: &[u8],
    tags: &[String<B>],
    found: &mut Vec<Sent<A>, A>,
) -> Result<(), AllocError>
    ensures { OnOk result
        (Adds (Through (IsSentUnder client.now.patterns.items
        (record { host = host.now; port = client.now.port })) (map string_bytes tags.now))
        found.old.items found.new.items) }
{
    for tag in tags {
        of_tag(alloc, client, host, tag.as_bytes(), found)?;
    }
    Ok(())
}

// Adds the one with this tag, if the client sends it.
fn of_tag<A: Allocator + Copy>(
    alloc: A,
    client: &Client<A>,
    host: &[u8],
    tag: &[u8],
    found: &mut Vec<Sent<A>, A>,
) -> Result<(), AllocError>
    ensures { OnOk result
        (Adds (IsSentUnder client.now.patterns.items
        (record { host = host.now; port = client.now.port }) tag.now) found.old.items
        found.new.items) }
{
    let read = match Tag::read(alloc, tag) {
        Ok(read) => read,
        Err(TagError::TagTooLong) => return Ok(()),
        Err(TagError::Memory) => return Err(AllocError),
    };
    if have_tag(&client.patterns, &read) {
        return add(alloc, host, client.port, tag, found);
    }
    Ok(())
}
