//! Where the events of a plan's reaches go on.

use crate::search::is_marked;
use crate::site::matches_of;
use crate::warned_plan::WarnedPlan;
use loss_rules::Reach;
use plan_lines::Plan;
use relay_conf::{MatchRule, Output, Server};
use relay_net::Entrance;
use std::alloc::{AllocError, Allocator};
use tag_pattern::{Plain, Prefix, apart, copied_item};

// The most items of a pattern.
const MOST_ITEMS: usize = 32;

/// Numbers of reaches, counted from 0 in the order of the plan.
pub(crate) type Numbers<A> = Vec<usize, A>;

/// The steps that are looked at.
#[derive(Clone, Copy)]
pub(crate) enum Steps {
    /// Forwards and relabels.
    All,
    /// Relabels.
    Relabels,
}

/// For each reach of the plan those that its events may come to by one of these steps; none for
/// those of relays without a mark here. The only error is want of memory.
pub(crate) fn flow<A: Allocator + Copy>(
    about: &WarnedPlan<'_, A>,
    steps: Steps,
    relays: &[bool],
) -> Result<Vec<Numbers<A>, A>, AllocError> {
    let mut flow = Vec::new(about.alloc);
    for reach in about.plan.reaches() {
        flow.push(if is_marked(relays, reach.place) {
            next_of(about, steps, reach)?
        } else {
            Vec::new(about.alloc)
        })?;
    }
    Ok(flow)
}

/// The match of the reach.
pub(crate) fn match_of<'a, A: Allocator + Copy>(
    plan: &'a Plan<A>,
    reach: &Reach<A>,
) -> Option<&'a MatchRule<A>> {
    matches_of(plan, reach.place, reach.scope).get(reach.rule)
}

// Those that the events of this reach may come to.
fn next_of<A: Allocator + Copy>(
    about: &WarnedPlan<'_, A>,
    steps: Steps,
    reach: &Reach<A>,
) -> Result<Numbers<A>, AllocError> {
    let mut next = Vec::new(about.alloc);
    if let Some(found) = match_of(about.plan, reach) {
        for output in &found.outputs {
            add_of_output(about, steps, reach, output, &mut next)?;
        }
    }
    Ok(next)
}

// Adds those that they may come to by this output.
fn add_of_output<A: Allocator + Copy>(
    about: &WarnedPlan<'_, A>,
    steps: Steps,
    reach: &Reach<A>,
    output: &Output<A>,
    next: &mut Numbers<A>,
) -> Result<(), AllocError> {
    match output {
        Output::Relabel { target, line: _ } => {
            let at = Entrance {
                relay: reach.place,
                scope: target.0,
            };
            add_at(about, at, &reach.patterns, next)
        }
        Output::Forward { settings, line: _ } => match steps {
            Steps::All => add_of_servers(about, reach, &settings.servers, next),
            Steps::Relabels => Ok(()),
        },
        _ => Ok(()),
    }
}

/// Adds those that the events of the reach may come to behind these servers. The only error is want
/// of memory.
pub(crate) fn add_of_servers<A: Allocator + Copy>(
    about: &WarnedPlan<'_, A>,
    reach: &Reach<A>,
    servers: &[Server<A>],
    next: &mut Numbers<A>,
) -> Result<(), AllocError> {
    for server in servers {
        add_of_server(about, reach, server, next)?;
    }
    Ok(())
}

// Adds those that they may come to behind this server.
fn add_of_server<A: Allocator + Copy>(
    about: &WarnedPlan<'_, A>,
    reach: &Reach<A>,
    server: &Server<A>,
    next: &mut Numbers<A>,
) -> Result<(), AllocError> {
    let net = about.plan.net();
    let host = server.host.as_bytes();
    let Some(at) = net.entrance(host, server.port) else {
        return Ok(());
    };
    match net.prefix(host, server.port) {
        None => add_at(about, at, &reach.patterns, next),
        Some(prefix) => match entered_all(about.alloc, prefix, &reach.patterns)? {
            Some(patterns) => add_at(about, at, &patterns, next),
            None => Ok(()),
        },
    }
}

// Adds those of this scope that have a tag of these patterns.
fn add_at<A: Allocator + Copy>(
    about: &WarnedPlan<'_, A>,
    at: Entrance,
    patterns: &[Plain<A>],
    next: &mut Numbers<A>,
) -> Result<(), AllocError> {
    for number in about.reaches_of(at.relay) {
        if let Some(reach) = about.plan.reaches().get(*number)
            && reach.scope == at.scope
            && meet(patterns, &reach.patterns)
        {
            next.push(*number)?;
        }
    }
    Ok(())
}

/// Whether a tag is of one of these patterns and of one of the others.
pub(crate) fn meet<A: Allocator>(patterns: &[Plain<A>], others: &[Plain<A>]) -> bool {
    for pattern in patterns {
        if meets(pattern, others) {
            return true;
        }
    }
    false
}

// Whether a tag is of the pattern and of one of the others.
fn meets<A: Allocator>(pattern: &Plain<A>, others: &[Plain<A>]) -> bool {
    for other in others {
        if !apart(pattern, other) {
            return true;
        }
    }
    false
}

// The patterns with the prefix in front; none where one of them is too long then.
fn entered_all<A: Allocator + Copy>(
    alloc: A,
    prefix: &Prefix<A>,
    patterns: &[Plain<A>],
) -> Result<Option<Vec<Plain<A>, A>>, AllocError> {
    let mut all = Vec::new(alloc);
    for pattern in patterns {
        let Some(entered) = entered(alloc, prefix, pattern)? else {
            return Ok(None);
        };
        all.push(entered)?;
    }
    Ok(Some(all))
}

// The pattern with the prefix in front; none where it is too long then.
fn entered<A: Allocator + Copy>(
    alloc: A,
    prefix: &Prefix<A>,
    pattern: &Plain<A>,
) -> Result<Option<Plain<A>>, AllocError> {
    let prefixed = pattern.prefixed(alloc, prefix)?;
    let mut items = Vec::new(alloc);
    for item in prefixed.items() {
        items.push(copied_item(alloc, item)?)?;
    }
    if items.len() > MOST_ITEMS {
        return Ok(None);
    }
    Ok(Some(Plain::new(items)))
}
