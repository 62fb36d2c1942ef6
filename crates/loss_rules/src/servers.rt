//! The rules on servers: they are sources, and what is forwarded to them is labelled.

ghost use Rattle.std.specs.Prelude.{◌≡◌, [], IfOk, IsSome};
ghost use Rattle.relay_net.specs.Network.{entrance, address_of_server};
ghost use Rattle.loss_rules.specs.Everywhere.{AreInConf, BreaksAtServer};
ghost use Rattle.loss_rules.specs.Rules.{ServersAreSources, ForwardsAreLabelled, IsLabelledServer};

use crate::answer::Place;
use crate::by_site::{Labels, Reaches};
use crate::fitting::reaches_fit_label;
use crate::requirement::{OfOutputs, OfServers, Requirement, add_unless, broken_places};
use crate::site::Site;
use relay_conf::Server;
use relay_net::Net;
use std::alloc::{AllocError, Allocator};

/// Each server whose address is that of no source of the plan. Each server is looked for once. The
/// only error is want of memory.
pub fn servers_are_sources<A: Allocator + Copy, B: Allocator + Copy>(
    alloc: B,
    net: &Net<A>,
) -> Result<Vec<Place, B>, AllocError>
    ensures listed { IfOk result
        (λ places. AreInConf net.now
        (BreaksAtServer net.now
        (λ place scope rule server. IsSome (entrance net.now (address_of_server server))))
        places.items) }
    ensures kept { IfOk result (λ places. places.items ≡ [] → ServersAreSources net.now) }
{
    broken_places(alloc, net, &OfOutputs(OfServers(IsSource { net })))
}

/// Each server with a reach of its match that fits no label of the scope that the server leads
/// into, with the prefix in front that the server's source has.
/// For each server each pattern of its match's reaches is compared with those of the labels of that
/// scope. The only error is want of memory.
pub fn forwards_are_labelled<'a, 'b, A: Allocator + Copy, B: Allocator + Copy>(
    alloc: B,
    net: &'a Net<A>,
    labels: &'a Labels<'b, A>,
    reaches: &'a Reaches<'b, A>,
) -> Result<Vec<Place, B>, AllocError>
    ensures listed { IfOk result
        (λ places. AreInConf net.now
        (BreaksAtServer net.now
        (λ place scope rule server. IsLabelledServer net.now labels.now reaches.now place scope
        rule (address_of_server server))) places.items) }
    ensures kept { IfOk result
        (λ places. places.items ≡ [] → ForwardsAreLabelled net.now labels.now reaches.now) }
{
    broken_places(
        alloc,
        net,
        &OfOutputs(OfServers(LeadsToLabel {
            net,
            labels,
            reaches,
        })),
    )
}

// The server's address is that of a source.
#[derive(Drop)]
struct IsSource<'a, A: Allocator> {
    net: &'a Net<A>,
}

impl<A: Allocator + Copy> Requirement<Server<A>> for IsSource<'_, A> {
    ghost use Rattle.std.specs.Prelude.{◌≡◌, IsSome};
    ghost use Rattle.relay_net.specs.Network.{entrance, address_of_server};

    ghost keeps = { λ asked at server. IsSome (entrance asked.net.now (address_of_server server)) };

    ghost breaks = { λ asked at server line. (server.line ≡ line)
        × ¬ IsSome (entrance asked.net.now (address_of_server server)) };

    fn add_lines<B: Allocator + Copy>(
        &self,
        at: Site,
        found: &Server<A>,
        lines: &mut Vec<usize, B>,
    ) -> Result<(), AllocError> {
        let _ = at;
        let kept = self
            .net
            .entrance(found.host.as_bytes(), found.port)
            .is_some();
        add_unless(kept, found.line, lines)
    }
}

// Each reach of the server's match fits a label of the scope that the server leads into.
#[derive(Drop)]
struct LeadsToLabel<'a, 'b, A: Allocator> {
    net: &'a Net<A>,
    labels: &'a Labels<'b, A>,
    reaches: &'a Reaches<'b, A>,
}

impl<A: Allocator + Copy> Requirement<Server<A>> for LeadsToLabel<'_, '_, A> {
    ghost use Rattle.std.specs.Prelude.{◌≡◌};
    ghost use Rattle.relay_net.specs.Network.{address_of_server};
    ghost use Rattle.loss_rules.specs.Rules.{IsLabelledServer};

    ghost keeps = { λ asked at server. IsLabelledServer asked.net.now asked.labels.now
        asked.reaches.now at.place at.scope at.rule (address_of_server server) };

    ghost breaks = { λ asked at server line. (server.line ≡ line)
        × ¬ IsLabelledServer asked.net.now asked.labels.now asked.reaches.now at.place at.scope
        at.rule (address_of_server server) };

    fn add_lines<B: Allocator + Copy>(
        &self,
        at: Site,
        found: &Server<A>,
        lines: &mut Vec<usize, B>,
    ) -> Result<(), AllocError> {
        let Some(scope) = self.net.entrance(found.host.as_bytes(), found.port) else {
            return Ok(());
        };
        let prefix = self.net.prefix(found.host.as_bytes(), found.port);
        let kept = reaches_fit_label(self.labels, self.reaches, at, scope, prefix);
        add_unless(kept, found.line, lines)
    }
}
