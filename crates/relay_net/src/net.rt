//! A network: its relays and its clients, and what is asked of them.

ghost use Rattle.std.specs.Prelude.{◌≡◌, true, IfOk, IfErr, IfSome, IsSome, option_map, slice_get, ℕ};
ghost use Rattle.std.specs.Option.{option_copied};
ghost use Rattle.route_graph.specs.Listing.{IsWay, HasLeaves, HasEachOnce};
ghost use Rattle.relay_net.specs.Network.{place_of, entrance, prefix_at, address_of_client, all_enter, output_at, is_in_memory, first_source};
ghost use Rattle.relay_net.specs.Ways.{table_at};

use crate::address::Entrance;
use crate::entering::{host, source_of};
use crate::lookup::{Lookup, lookups_of};
use crate::node::{Client, Node};
use crate::output;
use crate::sources::SourceIndex;
use relay_conf::{Output, ScopeNo, Source};
use route_graph::Way;
use std::alloc::{AllocError, Allocator};
use std::marker::Model;
use tag_pattern::{Prefix, Tag};

/// A network: its relays and its clients, each in the order of the plan. To contracts it is these
/// two lists.
///
/// Beside them it keeps, for each relay, its routes and where its outputs stand, and the first
/// relay with a source of each address, so that no step of the network looks through a
/// configuration for an output or a way, or through the relays for an address.
pub struct Net<A: Allocator> {
    alloc: A,
    relays: Vec<Node<A>, A>,
    clients: Vec<Client<A>, A>,
    lookups: Vec<Lookup<A>, A>,
    sources: SourceIndex<A>,
}

// By hand, so that crates above don't prove again how its parts end.
impl<A: Allocator> Drop for Net<A> {
    fn drop(self) {
        let Net {
            alloc: _,
            relays: _,
            clients: _,
            lookups: _,
            sources: _,
        } = self;
    }
}

impl<A: Allocator> Model for Net<A> {
    ghost use Rattle.std.specs.Prelude.{◌≡◌, true};
    ghost use Rattle.relay_net.specs.Network.{Network, all_enter};

    ghost Value = { Network A };

    ghost use Rattle.relay_net.specs.Lookups.{AreLookups};
    ghost use Rattle.relay_net.specs.Sources.{IsSourceIndex};

    ghost view = { λ net. record { relays = net.relays.items; clients = net.clients.items } };

    ghost invariant = { λ net. (all_enter net.relays.items net.clients.items ≡ true)
        × AreLookups net.lookups.items net.relays.items
        × IsSourceIndex net.sources net.relays.items };
}

/// Memory ran out: the relays and the clients that no network was made of.
#[derive(Drop)]
pub struct Refused<A: Allocator> {
    /// The relays.
    pub relays: Vec<Node<A>, A>,
    /// The clients.
    pub clients: Vec<Client<A>, A>,
}

impl<A: Allocator + Copy> Net<A> {
    /// The network of these relays and clients, each of whom sends to a source, as `enter` says.
    /// The only error is want of memory; it hands relays and clients back.
    pub fn new(
        alloc: A,
        relays: Vec<Node<A>, A>,
        clients: Vec<Client<A>, A>,
    ) -> Result<Net<A>, Refused<A>>
        requires { all_enter relays.items clients.items ≡ true }
        ensures relays { IfOk result (λ net. net.relays ≡ relays.items) }
        ensures clients { IfOk result (λ net. net.clients ≡ clients.items) }
        ensures relays_back { IfErr result (λ refused. refused.relays ≡ relays) }
        ensures clients_back { IfErr result (λ refused. refused.clients ≡ clients) }
    {
        let Ok(lookups) = lookups_of(alloc, &relays) else {
            return Err(Refused { relays, clients });
        };
        match SourceIndex::new(alloc, &relays) {
            Ok(sources) => Ok(Net {
                alloc,
                relays,
                clients,
                lookups,
                sources,
            }),
            Err(_) => Err(Refused { relays, clients }),
        }
    }

    /// The relays, in the order of the plan.
    pub fn relays(&self) -> &[Node<A>]
        ensures { result.now ≡ self.now.relays }
    {
        &self.relays
    }

    /// The clients, in the order of the plan.
    pub fn clients(&self) -> &[Client<A>]
        ensures { result.now ≡ self.now.clients }
    {
        &self.clients
    }

    /// The client of this number.
    pub fn client(&self, number: usize) -> Option<&Client<A>>
        ensures { option_copied result ≡ slice_get self.now.clients number }
    {
        self.clients.get(number)
    }

    /// The host that this client sends to: that of the relay that its number means.
    pub fn client_host(&self, number: usize) -> Option<&[u8]>
        ensures { option_copied result
            ≡ option_map (λ client. (address_of_client self.now client).host)
            (slice_get self.now.clients number) }
    {
        let client = self.clients.get(number)?;
        Some(host(&self.relays, client.relay))
    }

    /// Each client's address is that of a source. This does nothing: it stands for its clause.
    pub fn clients_enter(&self)
        ensures { (number : ℕ)
            → IfSome (slice_get self.now.clients number)
            (λ client. IsSome (entrance self.now (address_of_client self.now client))) }
    {
        let _ = &self.relays;
    }

    /// The place of the relay that the number means: of equal numbers the first.
    pub fn place(&self, number: u64) -> Option<usize>
        ensures { result ≡ place_of self.now number }
    {
        self.relays
            .iter()
            .position(|node| u64::from(node.number) == number)
    }

    /// Where a message to this host and port comes in: at the first source with that address, in
    /// the order of the relays and then of their sources.
    pub fn entrance(&self, host: &[u8], port: u16) -> Option<Entrance>
        ensures { result ≡ entrance self.now (record { host = host.now; port = port }) }
    {
        match self.source(host, port) {
            Some((relay, source)) => Some(Entrance {
                relay,
                scope: source.label.0,
            }),
            None => None,
        }
    }

    /// What is put in front of the tags of messages to this host and port: the prefix of the first
    /// source with that address.
    pub fn prefix(&self, host: &[u8], port: u16) -> Option<&Prefix<A>>
        ensures { option_copied result
            ≡ prefix_at self.now (record { host = host.now; port = port }) }
    {
        match self.source(host, port) {
            Some((_, source)) => source.prefix.as_ref(),
            None => None,
        }
    }

    // The first source with this host and port, and the place of its relay before it.
    fn source(&self, host: &[u8], port: u16) -> Option<(usize, &Source<A>)>
        ensures { option_map (λ found. (found.0, found.1.now)) result
            ≡ first_source 0 self.now.relays (record { host = host.now; port = port }) }
    {
        let Some(place) = self.sources.place(host, port) else {
            return None;
        };
        let Some(node) = self.relays.get(place) else {
            return None;
        };
        match source_of(&node.relay, port) {
            Some(source) => Some((place, source)),
            None => None,
        }
    }

    /// The output with this buffer of the relay at this place: of equal numbers the first. No
    /// configuration is looked through for it.
    pub fn output(&self, place: usize, buffer: usize) -> Option<&Output<A>>
        ensures { option_copied result ≡ output_at self.now place buffer }
    {
        let Some(node) = self.relays.get(place) else {
            return None;
        };
        match self.lookups.get(place) {
            Some(lookup) => lookup.output(&node.relay, buffer),
            None => None,
        }
    }

    /// Whether the chunks of this buffer of the relay at this place are in memory; where there is
    /// no such buffer they aren't.
    pub fn is_in_memory(&self, place: usize, buffer: usize) -> bool
        ensures { result ≡ is_in_memory self.now place buffer }
    {
        match self.output(place, buffer) {
            Some(found) => output::is_in_memory(found),
            None => false,
        }
    }

    /// The way of an event with this tag that comes in there: a loop, or the buffers that it
    /// reaches, each once, in the order first reached. From an entrance whose relay or scope isn't
    /// there it reaches nothing.
    pub fn way<B: Allocator>(&self, at: Entrance, tag: &Tag<B>) -> Result<Way<A>, AllocError>
        ensures way { IfOk result (IsWay (table_at self.now at.relay) tag.now at.scope) }
        ensures leaves { IfOk result (HasLeaves (table_at self.now at.relay) tag.now at.scope) }
        ensures once { IfOk result HasEachOnce }
    {
        match self.lookups.get(at.relay) {
            Some(lookup) => lookup.routes.way(ScopeNo(at.scope), tag),
            None => Ok(Way::Leaves(Vec::new(self.alloc))),
        }
    }
}
