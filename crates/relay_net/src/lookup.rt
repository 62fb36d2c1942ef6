//! What is made once for each relay of a network: its routes, and where its outputs stand.

ghost use Rattle.std.specs.Prelude.{◌≡◌, IfOk};
ghost use Rattle.std.specs.Option.{option_and_then, option_copied};

use crate::index::OutputIndex;
use crate::node::Node;
use relay_conf::{Output, Relay};
use route_graph::Routes;
use std::alloc::{AllocError, Allocator};

/// The routes of a relay, and where its outputs stand.
#[derive(Drop)]
pub(crate) struct Lookup<A: Allocator> {
    pub routes: Routes<A>,
    pub outputs: OutputIndex<A>,
}

impl<A: Allocator + Copy> Lookup<A> {
    ghost use Rattle.relay_net.specs.Index.{output_in, place_in};
    ghost use Rattle.relay_net.specs.Lookups.{IsLookup};

    /// What is looked up for this relay.
    pub fn new<B: Allocator>(alloc: A, relay: &Relay<B>) -> Result<Lookup<A>, AllocError>
        ensures { IfOk result (λ lookup. IsLookup lookup relay.now) }
    {
        Ok(Lookup {
            routes: Routes::new(alloc, relay)?,
            outputs: OutputIndex::new(alloc, relay)?,
        })
    }

    /// The output with this buffer, of the relay that this was made for.
    pub fn output<'a, B: Allocator>(
        &self,
        relay: &'a Relay<B>,
        buffer: usize,
    ) -> Option<&'a Output<B>>
        ensures { option_copied result
            ≡ option_and_then (output_in relay.now) (place_in self.now.outputs buffer) }
    {
        match self.outputs.place(buffer) {
            Some(place) => place.output(relay),
            None => None,
        }
    }
}

ghost use Rattle.relay_net.specs.Lookups.{AreLookups};

/// What is looked up for each of these relays.
pub(crate) fn lookups_of<A: Allocator + Copy>(
    alloc: A,
    nodes: &[Node<A>],
) -> Result<Vec<Lookup<A>, A>, AllocError>
    ensures { IfOk result (λ lookups. AreLookups lookups.items nodes.now) }
{
    let mut lookups = Vec::with_capacity(alloc, nodes.len())?;
    for node in nodes {
        lookups.push(Lookup::new(alloc, &node.relay)?)?;
    }
    Ok(lookups)
}
