//! Which relay is the first with a source of an address.

ghost use Rattle.std.specs.Prelude.{◌≡◌, ◌==◌, ◌&&◌, ℕ, Some, None, cond, IfOk, OnOk};
ghost use Rattle.std.specs.BTreeMap.{get};
ghost use Rattle.std.specs.Option.{option_or};
ghost use Rattle.std.specs.Ordering.{nat_cmp};
ghost use Rattle.std.specs.Str.{bytes_eq};
ghost use Rattle.relay_net.specs.Addresses.{Address};

use crate::node::Node;
use std::alloc::{AllocError, Allocator};
use std::collections::BTreeMap;

/// The place of the first relay with a source of each address: by its host, and then by its port.
/// Each call takes steps by the logarithm of the number of addresses.
#[derive(Drop)]
pub(crate) struct SourceIndex<A: Allocator> {
    hosts: BTreeMap<Vec<u8, A>, BTreeMap<u16, usize, A>, A>,
}

impl<A: Allocator + Copy> SourceIndex<A> {
    ghost use Rattle.relay_net.specs.Sources.{first_place, among_nodes, has_source, IsSourceIndex};

    /// The index of these relays' sources. The only error is want of memory.
    pub fn new<B: Allocator>(alloc: A, nodes: &[Node<B>]) -> Result<SourceIndex<A>, AllocError>
        ensures { IfOk result (λ index. IsSourceIndex index nodes.now) }
    {
        let mut index = SourceIndex {
            hosts: BTreeMap::new(alloc),
        };
        for (place, node) in nodes.iter().enumerate() {
            index.add_node(alloc, node, place)?;
        }
        Ok(index)
    }

    /// The place of the first relay with a source of this host and port.
    pub fn place(&self, host: &[u8], port: u16) -> Option<usize>
        ensures { result ≡ first_place self.now (record { host = host.now; port = port }) }
    {
        let ports = self.hosts.get(host)?;
        ports.get(&port).copied()
    }

    // Adds the sources of the relay, which is at this place, but for addresses that are there.
    fn add_node<B: Allocator>(
        &mut self,
        alloc: A,
        node: &Node<B>,
        place: usize,
    ) -> Result<(), AllocError>
        ensures { OnOk result
            ((other : Address) → first_place self.new other
            ≡ option_or (first_place self.old other)
            (cond (has_source node.now other) (Some place) None)) }
    {
        for source in &node.relay.sources {
            self.add(alloc, node.host.as_bytes(), source.port, place)?;
        }
        Ok(())
    }

    // Adds an address with the place of its relay, unless it is there.
    fn add(&mut self, alloc: A, host: &[u8], port: u16, place: usize) -> Result<(), AllocError>
        ensures { OnOk result
            ((other : Address) → first_place self.new other
            ≡ option_or (first_place self.old other)
            (cond (bytes_eq host.now other.host && (port == other.port)) (Some place) None)) }
    {
        if let Some(ports) = self.hosts.get_mut(host) {
            add_port(ports, port, place)?;
            return Ok(());
        }
        let mut ports = BTreeMap::new(alloc);
        add_port(&mut ports, port, place)?;
        let key = Vec::from_slice(alloc, host)?;
        self.hosts.insert(key, ports)?;
        Ok(())
    }
}

// Adds a port with the place of its relay, unless it is there.
fn add_port<A: Allocator + Copy>(
    ports: &mut BTreeMap<u16, usize, A>,
    port: u16,
    place: usize,
) -> Result<(), AllocError>
    ensures { OnOk result
        ((other : ℕ) → get nat_cmp ports.new other
        ≡ option_or (get nat_cmp ports.old other) (cond (port == other) (Some place) None)) }
{
    if !ports.contains_key(&port) {
        let _ = ports.insert(port, place)?;
    }
    Ok(())
}
