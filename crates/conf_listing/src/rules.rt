//! What may become of a parameter.

use crate::decision::Decision;
use crate::openings::Section;
use crate::place::{OutputKind, Place};
use crate::tables::{
    ANYWHERE, BUFFER, COPY, FILE, FORWARD, LABEL, NOTHING, NULL, OLD_BUFFER, OLD_NAMES, RELABEL,
    SECURITY, SERVER, SOURCE, TOP,
};

/// What becomes of a parameter, by its name and place.
#[derive(Clone, Copy)]
pub(crate) enum Rule {
    /// It stands with the value that it has.
    Kept,
    /// The label that events go to.
    Target,
    /// The name of a sink's files.
    SinkPath,
    /// The name of a buffer's files.
    BufferPath,
    /// A number of bytes.
    Size,
    /// A number of seconds.
    Time,
    /// A number without a fraction.
    Number,
    /// When a chunk is queued.
    FlushMode,
    /// How waits grow.
    RetryType,
    /// What follows where a buffer is full.
    Overflow,
    /// Where a buffer's chunks are.
    BufferType,
    /// It has no bearing on loss, and is left out.
    Harmless,
    /// The same at these values; any other is decided.
    HarmlessAt(&'static [&'static str], Decision),
    /// It is decided.
    Decided(Decision),
}

/// Parameters of which the same becomes.
pub(crate) struct Group {
    pub names: &'static [&'static str],
    pub rule: Rule,
}

/// What may stand in a place, beside what may stand anywhere.
pub(crate) struct Inside {
    pub sections: &'static [Section],
    pub groups: &'static [Group],
}

/// A parameter that has another name in the profile.
pub(crate) struct Renamed {
    pub old: &'static str,
    pub new: &'static str,
}

/// What becomes of a parameter of this name in this place; `None`: it isn't known there.
pub(crate) fn rule_at(place: Place, name: &[u8]) -> Option<Rule> {
    match rule_in(&ANYWHERE, name) {
        Some(rule) => Some(rule),
        None => rule_in(inside_of(place).groups, name),
    }
}

/// What may stand in a place, beside what may stand anywhere.
pub(crate) fn inside_of(place: Place) -> &'static Inside {
    match place {
        Place::Top => &TOP,
        Place::Label => &LABEL,
        Place::Source => &SOURCE,
        Place::Server => &SERVER,
        Place::Security => &SECURITY,
        Place::Buffer => &BUFFER,
        Place::Output(OutputKind::Forward) => &FORWARD,
        Place::Output(OutputKind::File) => &FILE,
        Place::Output(OutputKind::Copy) => &COPY,
        Place::Output(OutputKind::Relabel) => &RELABEL,
        Place::Output(OutputKind::Null) => &NULL,
        Place::Outside | Place::Passed | Place::LeftOut => &NOTHING,
    }
}

/// The name in a `<buffer>` of what once stood in the output itself; `None`: it is no such name.
pub(crate) fn buffer_name(place: Place, name: &[u8]) -> Option<&'static str> {
    new_name(moved_from(place), name)
}

/// What once stood in a place, and has since stood in the `<buffer>` in it.
pub(crate) fn moved_from(place: Place) -> &'static [Renamed] {
    match place {
        Place::Output(OutputKind::Forward) | Place::Output(OutputKind::File) => &OLD_BUFFER,
        _ => &[],
    }
}

/// The name that a parameter has since got in the same section, if it is an old one.
pub(crate) fn since_named(place: Place, name: &[u8]) -> Option<&'static str> {
    if matches!(place, Place::Buffer) && name == b"retry_limit".as_slice() {
        return Some("retry_max_times");
    }
    new_name(&OLD_NAMES, name)
}

// The new name of a parameter that has one.
fn new_name(renamed: &'static [Renamed], name: &[u8]) -> Option<&'static str> {
    for one in renamed {
        if one.old.as_bytes() == name {
            return Some(one.new);
        }
    }
    None
}

// What becomes of a parameter of this name, if one of the groups has it.
fn rule_in(groups: &'static [Group], name: &[u8]) -> Option<Rule> {
    for group in groups {
        if is_among(group.names, name) {
            return Some(group.rule);
        }
    }
    None
}

/// Whether the text is one of the words.
pub(crate) fn is_among(words: &[&'static str], text: &[u8]) -> bool {
    for word in words {
        if word.as_bytes() == text {
            return true;
        }
    }
    false
}
