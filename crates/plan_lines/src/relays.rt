//! The relays of a plan that is read, looked up by their numbers.

ghost use Rattle.std.specs.Prelude.{◌≡◌, [], ◌∷◌, ◌++◌, ℕ, ◌==◌, Some, None, cond, OnOk, OnErr};
ghost use Rattle.std.specs.BTreeMap.{get};
ghost use Rattle.std.specs.Option.{option_copied, option_or};
ghost use Rattle.std.specs.Ordering.{nat_cmp};
ghost use Rattle.relay_net.specs.Network.{node_of, place_among};

use relay_net::Node;
use std::alloc::{AllocError, Allocator};
use std::collections::BTreeMap;
use std::marker::Model;

/// Relays in the order of their lines. Each call takes steps by the logarithm of how many there
/// are. To contracts it is their list.
#[derive(Drop)]
pub(crate) struct Relays<A: Allocator> {
    nodes: Vec<Node<A>, A>,
    places: BTreeMap<u32, usize, A>,
}

impl<A: Allocator> Model for Relays<A> {
    ghost use Rattle.std.specs.Prelude.{◌≡◌, ℕ, List};
    ghost use Rattle.std.specs.BTreeMap.{get};
    ghost use Rattle.std.specs.Ordering.{nat_cmp};
    ghost use Rattle.relay_net.specs.Network.{place_among};
    ghost use Rattle.relay_net.specs.declared.node.Node.{Node};

    ghost Value = { List (Node A) };

    ghost view = { λ relays. relays.nodes.items };

    ghost invariant = { λ relays. (number : ℕ)
        → get nat_cmp relays.places number ≡ place_among relays.nodes.items number };
}

impl<A: Allocator + Copy> Relays<A> {
    /// No relays.
    pub fn new(alloc: A) -> Relays<A>
        ensures { result ≡ [] }
    {
        Relays {
            nodes: Vec::new(alloc),
            places: BTreeMap::new(alloc),
        }
    }

    /// Adds a relay behind the others. The only error is want of memory.
    pub fn add(&mut self, node: Node<A>) -> Result<(), AllocError>
        ensures { OnOk result (self.new ≡ self.old ++ node ∷ []) }
    {
        self.nodes.reserve(1)?;
        note(&mut self.places, node.number, self.nodes.len())?;
        self.nodes.push_reserved(node);
        Ok(())
    }

    /// The relays.
    pub fn nodes(&self) -> &[Node<A>]
        ensures { result.now ≡ self.now }
    {
        &self.nodes
    }

    /// The relays, for good.
    pub fn into_nodes(self) -> Vec<Node<A>, A>
        ensures { result.items ≡ self }
    {
        self.nodes
    }

    /// The place of the relay that the number means: of equal numbers the first.
    pub fn place(&self, number: u32) -> Option<usize>
        ensures { result ≡ place_among self.now number }
    {
        self.places.get(&number).copied()
    }

    /// The relay that the number means: of equal numbers the first.
    pub fn node(&self, number: u32) -> Option<&Node<A>>
        ensures { option_copied result ≡ node_of self.now number }
    {
        match self.place(number) {
            Some(place) => self.nodes.get(place),
            None => None,
        }
    }
}

// Notes that the relay with this number stands at this place, unless one with the number stands
// before it.
fn note<A: Allocator + Copy>(
    places: &mut BTreeMap<u32, usize, A>,
    number: u32,
    place: usize,
) -> Result<(), AllocError>
    ensures noted { OnOk result
        ((other : ℕ) → get nat_cmp places.new other
        ≡ option_or (get nat_cmp places.old other) (cond (number == other) (Some place) None)) }
    ensures stays { OnErr result
        ((other : ℕ) → get nat_cmp places.new other ≡ get nat_cmp places.old other) }
{
    if !places.contains_key(&number) {
        let _ = places.insert(number, place)?;
    }
    Ok(())
}
