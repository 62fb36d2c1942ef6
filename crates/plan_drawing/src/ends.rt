//! Where messages to an address come in, and how scopes are named.

use plan_lines::Plan;
use relay_net::{Client, Entrance, Node};
use std::alloc::Allocator;

/// Where messages to an address come in.
#[derive(Drop)]
pub(crate) struct End<'a, A: Allocator> {
    /// The relay and the scope.
    pub at: Entrance,
    /// The place of the source in the relay.
    pub source: usize,
    /// The port of the source.
    pub port: u16,
    /// The relay.
    pub node: &'a Node<A>,
}

/// Where messages to this host and port come in, if anywhere.
pub(crate) fn end_of<'a, A: Allocator + Copy>(
    plan: &'a Plan<A>,
    host: &[u8],
    port: u16,
) -> Option<End<'a, A>> {
    let net = plan.net();
    let Some(at) = net.entrance(host, port) else {
        return None;
    };
    match net.relays().get(at.relay) {
        Some(node) => end_in(node, at, port),
        None => None,
    }
}

// Where messages to this port of the relay come in.
fn end_in<A: Allocator>(node: &Node<A>, at: Entrance, port: u16) -> Option<End<'_, A>> {
    for (number, source) in node.relay.sources.iter().enumerate() {
        if source.port == port {
            return Some(End {
                at,
                source: number,
                port,
                node,
            });
        }
    }
    None
}

/// Where the messages of this client come in.
pub(crate) fn end_of_client<'a, A: Allocator + Copy>(
    plan: &'a Plan<A>,
    client: &Client<A>,
    number: usize,
) -> Option<End<'a, A>> {
    match plan.net().client_host(number) {
        Some(host) => end_of(plan, host, client.port),
        None => None,
    }
}

/// The name of a relay's scope: `top`, or the label.
pub(crate) fn scope_name<A: Allocator>(node: &Node<A>, scope: usize) -> &[u8] {
    match node.relay.scopes.get(scope) {
        Some(found) if scope > 0 => found.name.as_bytes(),
        _ => b"top",
    }
}
