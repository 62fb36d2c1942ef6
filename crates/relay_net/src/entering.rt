//! Where clients and messages come in.

ghost use Rattle.std.specs.Prelude.{◌≡◌, [], string_bytes};
ghost use Rattle.std.specs.Option.{option_copied, option_map_or};
ghost use Rattle.relay_net.specs.Network.{all_enter, enters, node_of, source_of_port};

use crate::node::{Client, Node};
use relay_conf::{Relay, Source};
use std::alloc::Allocator;

/// Whether each client sends to a source: the relay that its number means has one of its port.
pub fn enter<A: Allocator>(relays: &[Node<A>], clients: &[Client<A>]) -> bool
    ensures { result ≡ all_enter relays.now clients.now }
{
    clients.iter().all(|client| enters_one(relays, client))
}

// Whether the relay that the client's number means has a source of its port.
fn enters_one<A: Allocator>(relays: &[Node<A>], client: &Client<A>) -> bool
    ensures { result ≡ enters relays.now client.now }
{
    match node_of_number(relays, client.relay) {
        Some(node) => source_of(&node.relay, client.port).is_some(),
        None => false,
    }
}

/// The host of the relay that this number means, empty where it means none.
pub(crate) fn host<A: Allocator>(relays: &[Node<A>], number: u32) -> &[u8]
    ensures { result.now
        ≡ option_map_or (λ node. string_bytes node.host) (node_of relays.now number) [] }
{
    match node_of_number(relays, number) {
        Some(node) => node.host.as_bytes(),
        None => &[],
    }
}

// The relay that this number means.
fn node_of_number<A: Allocator>(relays: &[Node<A>], number: u32) -> Option<&Node<A>>
    ensures { option_copied result ≡ node_of relays.now number }
{
    relays.iter().find(|node| node.number == number)
}

/// The first source of the relay with this port.
pub(crate) fn source_of<A: Allocator>(relay: &Relay<A>, port: u16) -> Option<&Source<A>>
    ensures { option_copied result ≡ source_of_port relay.now port }
{
    relay.sources.iter().find(|source| source.port == port)
}
