//! The sections of a configuration are examined, each with all that is in it.

ghost use Rattle.std.specs.Prelude.{◌≡◌, ◌&&◌, map, IfOk, codes, ◌||◌, not, []};
ghost use Rattle.std.specs.List.{list_any};
ghost use Rattle.std.specs.Option.{option_copied};
ghost use Rattle.conf_text.specs.Views.{setting, tree_of};
ghost use Rattle.conf_text.specs.Trees.{trees};
ghost use Rattle.relay_conf.specs.Elements.{heading_of, settings_of, value_of, is_named, lacks};
ghost use Rattle.relay_conf.specs.Findings.{Examines};
ghost use Rattle.relay_conf.specs.Examined.{found_if, needs_type, section_of, settings_found, front_found, opening_found, tree_found};
ghost use Rattle.relay_conf.specs.Sections.{output_profile, profile_of};
ghost use Rattle.std.specs.Str.{bytes_eq};

use crate::buffer::has_files;
use crate::element::{argument_of, children_of, is_named, line_of, name_of, pairs_of, value_of};
use crate::fault::{RelayError, RelayFault, RelayFaultKind};
use crate::form::{OutputType, output_type, store_type};
use crate::pattern_words::examine_patterns;
use crate::section::{Opening, Section, opening_in, refusal, setting_fault};
use conf_text::{Element, Pair};
use conf_values::is_label_name;
use std::alloc::Allocator;

/// Goes through an element that stands in a section, and all that is in it. An error is the first
/// fault, or that memory ran out.
pub(crate) fn examine_element<A: Allocator + Copy>(
    alloc: A,
    parent: Section,
    element: &Element<A>,
) -> Result<(), RelayError>
    ensures { Examines (tree_found parent (tree_of element.now)) result }
{
    let section = examine_front(alloc, opening_in(parent, name_of(element)), element)?;
    for child in &element.children {
        examine_element(alloc, section, child)?;
    }
    fault_if(
        section_lacks(section, pairs_of(element), children_of(element)),
        RelayFaultKind::Missing,
        line_of(element),
    )
}

// Goes through an element before its children, and says which section it is.
fn examine_front<A: Allocator + Copy>(
    alloc: A,
    opening: Option<Opening>,
    element: &Element<A>,
) -> Result<Section, RelayError>
    ensures found { Examines
        (front_found opening (heading_of (tree_of element.now))
        (settings_of (tree_of element.now))) result }
    ensures section { IfOk result
        (λ s. s ≡ section_of opening
        (value_of (codes "@type") (settings_of (tree_of element.now)))) }
{
    let pairs = pairs_of(element);
    examine_opening(alloc, opening, element)?;
    fault_if(
        lacks_type(opening, pairs),
        RelayFaultKind::Missing,
        line_of(element),
    )?;
    let section = section_of(opening, value_of(pairs, "@type"));
    examine_settings(section, pairs)?;
    Ok(section)
}

// Goes through the way an element opens.
fn examine_opening<A: Allocator + Copy>(
    alloc: A,
    opening: Option<Opening>,
    element: &Element<A>,
) -> Result<(), RelayError>
    ensures { Examines (opening_found opening (heading_of (tree_of element.now))) result }
{
    let argument = argument_of(element);
    let line = line_of(element);
    match opening {
        None => fault_if(true, refusal(name_of(element)), line),
        Some(Opening::Match) => examine_patterns(alloc, argument, line),
        Some(Opening::Plain(Section::Label)) => fault_if(
            !is_label_name(argument.as_bytes()),
            RelayFaultKind::BadValue,
            line,
        ),
        Some(Opening::Plain(Section::Buffer)) => fault_if(
            !is_chunk_key(argument),
            RelayFaultKind::OutOfProfile,
            line,
        ),
        Some(_) => Ok(()),
    }
}

// Goes through the parameters of a section.
fn examine_settings<A: Allocator>(section: Section, pairs: &[Pair<A>]) -> Result<(), RelayError>
    ensures { Examines (settings_found section (map setting pairs.now)) result }
{
    for pair in pairs {
        if let Some(kind) = setting_fault(section, pair.name.as_str(), pair.value.as_str()) {
            return Err(RelayError::Fault(RelayFault {
                kind,
                line: pair.line,
            }));
        }
    }
    Ok(())
}

/// A fault of this line, where the test holds.
pub(crate) fn fault_if(wrong: bool, kind: RelayFaultKind, line: usize) -> Result<(), RelayError>
    ensures { Examines (found_if wrong kind line) result }
{
    if wrong {
        return Err(RelayError::Fault(RelayFault { kind, line }));
    }
    Ok(())
}

// Whether the argument of a buffer names no other chunk key than the tag.
fn is_chunk_key(argument: &str) -> bool
    ensures { result ≡ (bytes_eq argument.now [] || bytes_eq argument.now (codes "tag")) }
{
    argument == "" || argument == "tag"
}

// Whether a section that opens so must have a type, and has none.
fn lacks_type<A: Allocator>(opening: Option<Opening>, pairs: &[Pair<A>]) -> bool
    ensures { result ≡ (needs_type opening && lacks (codes "@type") (map setting pairs.now)) }
{
    needs_type(opening) && lacks(pairs, "@type")
}

// Whether a section that opens so must have a type.
fn needs_type(opening: Option<Opening>) -> bool
    ensures { result ≡ needs_type opening }
{
    match opening {
        Some(Opening::Match) | Some(Opening::Store) | Some(Opening::Plain(Section::Source)) => true,
        _ => false,
    }
}

// The section that an opening and a last type make.
fn section_of(opening: Option<Opening>, kind: Option<&str>) -> Section
    ensures { result ≡ section_of opening (option_copied kind.entry) }
{
    match (opening, kind) {
        (Some(Opening::Plain(section)), _) => section,
        (Some(Opening::Match), Some(kind)) => Section::Match(output_type(kind)),
        (Some(Opening::Store), Some(kind)) => Section::Store(store_type(kind)),
        _ => Section::Passed,
    }
}

// Whether a section lacks what it must have.
fn section_lacks<A: Allocator>(section: Section, pairs: &[Pair<A>], children: &[Element<A>]) -> bool
    ensures { result
        ≡ (profile_of section).lacks (map setting pairs.now) (map tree_of children.now) }
{
    match section {
        Section::Server => lacks(pairs, "host"),
        Section::Security => lacks(pairs, "self_hostname") || lacks(pairs, "shared_key"),
        Section::Buffer => has_files(pairs) && lacks(pairs, "path"),
        Section::Match(Some(kind)) | Section::Store(Some(kind)) => {
            output_lacks(kind, pairs, children)
        }
        _ => false,
    }
}

fn output_lacks<A: Allocator>(kind: OutputType, pairs: &[Pair<A>], children: &[Element<A>]) -> bool
    ensures { result
        ≡ (output_profile kind).lacks (map setting pairs.now) (map tree_of children.now) }
{
    match kind {
        OutputType::Forward => lacks_child(children, "server"),
        OutputType::File => lacks(pairs, "path"),
        OutputType::Copy => lacks_child(children, "store"),
        OutputType::Relabel => lacks(pairs, "@label"),
        OutputType::Null => false,
    }
}

fn lacks<A: Allocator>(pairs: &[Pair<A>], name: &str) -> bool
    ensures { result ≡ lacks name.now (map setting pairs.now) }
{
    value_of(pairs, name).is_none()
}

fn lacks_child<A: Allocator>(children: &[Element<A>], name: &str) -> bool
    ensures { result ≡ not (list_any (is_named name.now) (map tree_of children.now)) }
{
    for child in children {
        if is_named(child, name) {
            return false;
        }
    }
    true
}
