//! What becomes of sections.

use crate::decision::Decision;
use crate::place::{OutputKind, Place};
use crate::rules::{inside_of, is_among};
use conf_text::Element;
use std::alloc::Allocator;

/// What becomes of a section, by its name, its type and where it stands.
#[derive(Clone, Copy)]
pub(crate) enum Becomes {
    /// It stands as this section.
    Is(Place),
    /// It stands as this section, with the argument that the profile has for it.
    Adapted(Place),
    /// It is a match or a store of a type that no relay has.
    Null,
    /// It is left out with the section that it stands in.
    Gone,
    /// It has no bearing on loss, and is left out.
    Harmless,
    /// It is left out, if that is accepted.
    Decided(Decision),
    /// It isn't known there.
    Unknown,
}

impl Becomes {
    /// What the section is.
    pub fn place(self) -> Place {
        match self {
            Becomes::Is(place) | Becomes::Adapted(place) => place,
            _ => Place::LeftOut,
        }
    }
}

/// What says what becomes of a section of a known name.
#[derive(Clone, Copy)]
pub(crate) enum Opening {
    /// Its name alone.
    Named(Becomes),
    /// The type of what takes events in.
    Source,
    /// The type of what events go out to.
    Output,
    /// Whether its connections are plain.
    Transport,
}

/// A section that may stand in a place.
pub(crate) struct Section {
    pub name: &'static str,
    pub opening: Opening,
}

/// What becomes of a section in this place.
pub(crate) fn opening_of<A: Allocator>(parent: Place, element: &Element<A>) -> Becomes {
    match parent {
        Place::LeftOut => Becomes::Gone,
        Place::Passed => Becomes::Is(Place::Passed),
        _ => known_opening(inside_of(parent).sections, element),
    }
}

// What becomes of a section where these may stand.
fn known_opening<A: Allocator>(sections: &[Section], element: &Element<A>) -> Becomes {
    for section in sections {
        if section.name == element.name.as_str() {
            return opened(section.opening, element);
        }
    }
    Becomes::Unknown
}

// What becomes of a section, where this says it.
fn opened<A: Allocator>(opening: Opening, element: &Element<A>) -> Becomes {
    match opening {
        Opening::Named(becomes) => becomes,
        Opening::Source => source(kind_of(element)),
        Opening::Output => output(kind_of(element)),
        Opening::Transport => transport(element.argument.as_bytes()),
    }
}

// A section that takes events in. One without a type is left for the reader to refuse.
fn source(kind: Option<&[u8]>) -> Becomes {
    match kind {
        None => Becomes::Is(Place::Passed),
        Some(kind) if kind == b"forward".as_slice() => Becomes::Is(Place::Source),
        Some(kind) if is_among(&WATCHERS, kind) => Becomes::Harmless,
        Some(_) => Becomes::Decided(Decision::SourceType),
    }
}

// Types of sources that show what Fluentd does, and take no events in.
static WATCHERS: [&str; 5] = [
    "monitor_agent",
    "debug_agent",
    "prometheus",
    "prometheus_monitor",
    "prometheus_output_monitor",
];

// A match or a store. One without a type is left for the reader to refuse.
fn output(kind: Option<&[u8]>) -> Becomes {
    match kind {
        None => Becomes::Adapted(Place::Passed),
        Some(kind) => match OutputKind::named(kind) {
            Some(kind) => Becomes::Adapted(Place::Output(kind)),
            None => Becomes::Null,
        },
    }
}

// How a source's connections are protected.
fn transport(argument: &[u8]) -> Becomes {
    if argument == b"tcp".as_slice() {
        return Becomes::Harmless;
    }
    Becomes::Decided(Decision::Tls)
}

// The type of a section, by the last line that says one.
fn kind_of<A: Allocator>(element: &Element<A>) -> Option<&[u8]> {
    let mut found = None;
    for pair in &element.pairs {
        let name = pair.name.as_str();
        if name == "@type" || name == "type" {
            found = Some(pair.value.as_bytes());
        }
    }
    found
}
