//! The rule on relabels of reached matches, and those of them that are on a cycle.

ghost use Rattle.std.specs.Prelude.{◌≡◌, [], IfOk};
ghost use Rattle.loss_rules.specs.Everywhere.{AreInConf, BreaksAtOutput};
ghost use Rattle.loss_rules.specs.Rules.{IsOnNoCycle, NoRelabelCycle};

use crate::answer::Place;
use crate::by_site::Reaches;
use crate::graph::RelabelGraph;
use crate::ordered::put_conf_places;
use relay_net::Net;
use std::alloc::{AllocError, Allocator};

/// Each relabel on a cycle: a relabel of a reached match from whose target a chain of such
/// relabels, which may be empty, leads back to its own scope.
///
/// For each such relabel all that its target leads to is gone through, so the time of a relay grows
/// by the number of its relabels, times that of its relabels and scopes; and each of its matches is
/// looked up among the reaches. The memory that is taken holds the scopes and the relabels of one
/// relay at a time. The only error is want of memory.
pub fn no_relabel_cycle<A: Allocator + Copy, B: Allocator + Copy>(
    alloc: A,
    net: &Net<B>,
    reaches: &Reaches<'_, B>,
) -> Result<Vec<Place, A>, AllocError>
    ensures listed { IfOk result
        (λ places. AreInConf net.now
        (BreaksAtOutput net.now
        (λ place scope rule output relabel. IsOnNoCycle net.now reaches.now place scope rule
        relabel)) places.items) }
    ensures kept { IfOk result (λ places. places.items ≡ [] → NoRelabelCycle net.now reaches.now) }
{
    let mut places = Vec::new(alloc);
    for (place, node) in net.relays().iter().enumerate() {
        let graph = RelabelGraph::new(alloc, net, place, reaches)?;
        let lines = graph.cycle_lines()?;
        put_conf_places(node.number, &lines, &mut places)?;
    }
    Ok(places)
}
