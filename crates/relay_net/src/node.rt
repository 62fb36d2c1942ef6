//! Relays of a network, and those who send to them.

use relay_conf::Relay;
use std::alloc::Allocator;
use tag_pattern::Plain;

/// A relay of the network.
#[derive(Drop)]
pub struct Node<A: Allocator> {
    /// Its number. Of relays with equal numbers the first is meant.
    pub number: u32,
    /// The host of its sources' addresses.
    pub host: String<A>,
    /// What it does.
    pub relay: Relay<A>,
}

/// Those who send to one source.
#[derive(Drop)]
pub struct Client<A: Allocator> {
    /// The number of their relay.
    pub relay: u32,
    /// The port of their source.
    pub port: u16,
    /// The tags that they send.
    pub patterns: Vec<Plain<A>, A>,
}
