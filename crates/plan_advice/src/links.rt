//! The outputs of a plan that forward, and the sources that their servers lead to.

use crate::flow::Numbers;
use crate::warned_plan::{WarnedPlan, add_number, no_numbers};
use plan_lines::Plan;
use relay_conf::{ForwardSettings, Output, Server, Source};
use std::alloc::{AllocError, Allocator};

/// How many outputs of a relay are looked at.
pub(crate) const MOST_OUTPUTS: usize = 65_536;

/// An output that forwards: the place of its relay in the plan, its line, and how it forwards.
#[derive(Drop)]
pub(crate) struct Forward<'a, A: Allocator> {
    pub place: usize,
    pub line: usize,
    pub settings: &'a ForwardSettings<A>,
}

/// A server of such an output, with what is said of the output, and the source of the plan that it
/// leads to, with the place of that one's relay.
#[derive(Drop)]
pub(crate) struct Link<'a, A: Allocator> {
    pub place: usize,
    pub line: usize,
    pub settings: &'a ForwardSettings<A>,
    pub server: &'a Server<A>,
    pub to: usize,
    pub source: &'a Source<A>,
}

/// The outputs of the plan that forward, in its order. The only error is want of memory.
pub(crate) fn forwards<'a, A: Allocator + Copy>(
    about: &WarnedPlan<'a, A>,
) -> Result<Vec<Forward<'a, A>, A>, AllocError> {
    let mut found = Vec::new(about.alloc);
    for place in 0..about.plan.net().relays().len() {
        add_forwards(about.plan, place, &mut found)?;
    }
    Ok(found)
}

// Adds those of the relay at this place.
fn add_forwards<'a, A: Allocator + Copy>(
    plan: &'a Plan<A>,
    place: usize,
    found: &mut Vec<Forward<'a, A>, A>,
) -> Result<(), AllocError> {
    for number in 0..MOST_OUTPUTS {
        let Some(output) = plan.net().output(place, number) else {
            return Ok(());
        };
        if let Output::Forward { settings, line } = output {
            found.push(Forward {
                place,
                line: *line,
                settings,
            })?;
        }
    }
    Ok(())
}

/// The servers of these outputs that lead to a source of the plan, in that order. The only error is
/// want of memory.
pub(crate) fn links<'a, A: Allocator + Copy>(
    about: &WarnedPlan<'a, A>,
    forwards: &[Forward<'a, A>],
) -> Result<Vec<Link<'a, A>, A>, AllocError> {
    let mut found = Vec::new(about.alloc);
    for from in forwards {
        add_links(about.plan, from, &mut found)?;
    }
    Ok(found)
}

/// For each relay of a network of so many those that it forwards to by these servers, by their
/// places. The only error is want of memory.
pub(crate) fn relays_ahead<A: Allocator + Copy>(
    alloc: A,
    count: usize,
    links: &[Link<'_, A>],
) -> Result<Vec<Numbers<A>, A>, AllocError> {
    let mut ahead = no_numbers(alloc, count)?;
    for link in links {
        add_number(&mut ahead, link.place, link.to)?;
    }
    Ok(ahead)
}

// Adds those of this output.
fn add_links<'a, A: Allocator + Copy>(
    plan: &'a Plan<A>,
    from: &Forward<'a, A>,
    found: &mut Vec<Link<'a, A>, A>,
) -> Result<(), AllocError> {
    for server in &from.settings.servers {
        if let Some(link) = link_of(plan, from, server) {
            found.push(link)?;
        }
    }
    Ok(())
}

// The server with the source that it leads to: the first with its address.
fn link_of<'a, A: Allocator + Copy>(
    plan: &'a Plan<A>,
    from: &Forward<'a, A>,
    server: &'a Server<A>,
) -> Option<Link<'a, A>> {
    let net = plan.net();
    let Some(entrance) = net.entrance(server.host.as_bytes(), server.port) else {
        return None;
    };
    let Some(node) = net.relays().get(entrance.relay) else {
        return None;
    };
    match source_with(&node.relay.sources, server.port) {
        Some(source) => Some(Link {
            place: from.place,
            line: from.line,
            settings: from.settings,
            server,
            to: entrance.relay,
            source,
        }),
        None => None,
    }
}

// The first of these sources with this port.
fn source_with<A: Allocator>(sources: &[Source<A>], port: u16) -> Option<&Source<A>> {
    for source in sources {
        if source.port == port {
            return Some(source);
        }
    }
    None
}
