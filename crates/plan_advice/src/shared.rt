//! Configurations that several relays of a plan have.

use crate::flow::Numbers;
use crate::links::Link;
use crate::notes::Notes;
use crate::pieces::Piece;
use crate::warned_plan::WarnedPlan;
use std::alloc::{AllocError, Allocator};
use std::collections::BTreeMap;

// How many of such relays are shown.
const MOST_SHOWN: usize = 3;

// The relays that have a configuration, by their places, and whether an output has some of them as
// its servers, and others not.
#[derive(Drop)]
struct Alike<A: Allocator> {
    places: Numbers<A>,
    are_parted: bool,
}

// The relays of each configuration, by its name.
type ByName<'t, A> = BTreeMap<&'t str, Alike<A>, A>;

/// Warns of each configuration, by the order of the names, that several relays have which aren't
/// all servers of the same outputs, as a hub and its spare are: where a line of the plan was copied
/// and its file's name was left, the wrong relay was looked at. These are the plan's links. The
/// only error is want of memory.
pub(crate) fn put_shared<A: Allocator + Copy>(
    about: &WarnedPlan<'_, A>,
    links: &[Link<'_, A>],
    notes: &mut Notes<A>,
) -> Result<(), AllocError> {
    let mut found = by_name(about)?;
    part_all(about, links, &mut found)?;
    for (name, alike) in &found {
        if alike.are_parted {
            put_name(about, name, &alike.places, notes)?;
        }
    }
    Ok(())
}

// The relays of each configuration; of no output it was seen yet which of them are its servers.
fn by_name<'t, A: Allocator + Copy>(
    about: &WarnedPlan<'t, A>,
) -> Result<ByName<'t, A>, AllocError> {
    let mut found = BTreeMap::new(about.alloc);
    for (place, name) in about.texts.conf_names.iter().enumerate() {
        add_place(about.alloc, &mut found, name, place)?;
    }
    Ok(found)
}

// Adds the relay at this place, which has the configuration of this name.
fn add_place<'t, A: Allocator + Copy>(
    alloc: A,
    found: &mut ByName<'t, A>,
    name: &'t str,
    place: usize,
) -> Result<(), AllocError> {
    if let Some(alike) = found.get_mut(name) {
        return Ok(alike.places.push(place)?);
    }
    let alike = Alike {
        places: Vec::from_slice(alloc, &[place])?,
        are_parted: false,
    };
    found.insert(name, alike)?;
    Ok(())
}

// Looks at the servers of each output; those of one stand together.
fn part_all<'t, A: Allocator + Copy>(
    about: &WarnedPlan<'t, A>,
    links: &[Link<'_, A>],
    found: &mut ByName<'t, A>,
) -> Result<(), AllocError> {
    let mut servers = Vec::new(about.alloc);
    let mut output = None;
    for link in links {
        let next = Some((link.place, link.line));
        if next != output {
            part(about, &servers, found);
            servers.clear();
            output = next;
        }
        servers.push(link.to)?;
    }
    part(about, &servers, found);
    Ok(())
}

// Notes the relays of each configuration of which some are among these servers of an output, and
// some aren't.
fn part<'t, A: Allocator + Copy>(
    about: &WarnedPlan<'t, A>,
    servers: &[usize],
    found: &mut ByName<'t, A>,
) {
    for server in servers {
        if let Some(name) = about.texts.conf_names.get(*server)
            && let Some(alike) = found.get_mut(name)
            && !are_among(&alike.places, servers)
        {
            alike.are_parted = true;
        }
    }
}

// Whether each of these relays is one of the servers.
fn are_among(places: &[usize], servers: &[usize]) -> bool {
    for place in places {
        if !servers.contains(place) {
            return false;
        }
    }
    true
}

// Adds the warning of this configuration, with the plan's lines of the first of its relays.
fn put_name<A: Allocator + Copy>(
    about: &WarnedPlan<'_, A>,
    name: &str,
    places: &[usize],
    notes: &mut Notes<A>,
) -> Result<(), AllocError> {
    notes.put_warning(
        about,
        &[
            Piece::Number(places.len() as u64),
            Piece::Text(b" relays have one configuration, "),
            Piece::Text(name.as_bytes()),
            Piece::Text(
                b", and an output has but some of them as its servers: where they aren't meant to be alike, a line of the plan names the wrong file.",
            ),
        ],
    )?;
    for place in places.iter().take(MOST_SHOWN) {
        if let Some(relay) = about.plan.relay_lines().get(*place) {
            notes.put_plan_line(about, relay.line)?;
        }
    }
    Ok(())
}
