//! The labels of a configuration, and where they are named.

ghost use Rattle.std.specs.Prelude.{◌≡◌, ◌&&◌, not, map, take, codes};
ghost use Rattle.std.specs.List.{flat_map};
ghost use Rattle.std.specs.Str.{bytes_eq};
ghost use Rattle.conf_text.specs.Views.{setting, tree_of};
ghost use Rattle.relay_conf.specs.Elements.{heading_of, is_named};
ghost use Rattle.relay_conf.specs.Findings.{Examines};
ghost use Rattle.relay_conf.specs.Labels.{has_label, target_found, tree_targets, double_found, labels_from};

use crate::element::{argument_of, is_named, line_of, name_of, pairs_of};
use crate::examine::fault_if;
use crate::fault::{RelayError, RelayFaultKind};
use conf_text::{Element, Pair};
use std::alloc::Allocator;

/// Goes through the labels of a configuration. An error is the first fault.
pub(crate) fn examine_labels<A: Allocator>(elements: &[Element<A>]) -> Result<(), RelayError>
    ensures { Examines (labels_from (map tree_of elements.now) 0 (map tree_of elements.now)) result }
{
    for i in 0..elements.len() {
        let element = &elements[i];
        examine_name(elements.split_at(i).0, element)?;
        examine_targets(elements, element)?;
    }
    Ok(())
}

// A label's section has another label than those before it.
fn examine_name<A: Allocator>(before: &[Element<A>], element: &Element<A>) -> Result<(), RelayError>
    ensures { Examines (double_found (map tree_of before.now) (tree_of element.now)) result }
{
    fault_if(
        is_named(element, "label") && has_label(before, argument_of(element)),
        RelayFaultKind::DoubleName,
        line_of(element),
    )
}

// Goes through the labels that are named in an element.
fn examine_targets<A: Allocator>(
    elements: &[Element<A>],
    element: &Element<A>,
) -> Result<(), RelayError>
    ensures { Examines (tree_targets (map tree_of elements.now) (tree_of element.now)) result }
{
    if is_named(element, "system") {
        return Ok(());
    }
    examine_pairs(elements, pairs_of(element))?;
    for child in &element.children {
        examine_targets(elements, child)?;
    }
    Ok(())
}

// Goes through the labels that are named in parameters.
fn examine_pairs<A: Allocator>(elements: &[Element<A>], pairs: &[Pair<A>]) -> Result<(), RelayError>
    ensures { Examines
        (flat_map (target_found (map tree_of elements.now)) (map setting pairs.now)) result }
{
    for pair in pairs {
        examine_pair(elements, pair)?;
    }
    Ok(())
}

fn examine_pair<A: Allocator>(elements: &[Element<A>], pair: &Pair<A>) -> Result<(), RelayError>
    ensures { Examines (target_found (map tree_of elements.now) (setting pair.now)) result }
{
    fault_if(
        pair.name.as_str() == "@label" && !has_label(elements, pair.value.as_str()),
        RelayFaultKind::NoSuchLabel,
        pair.line,
    )
}

// Whether some section has this label.
fn has_label<A: Allocator>(elements: &[Element<A>], name: &str) -> bool
    ensures { result ≡ has_label name.now (map tree_of elements.now) }
{
    for element in elements {
        if is_label_of(element, name) {
            return true;
        }
    }
    false
}

fn is_label_of<A: Allocator>(element: &Element<A>, name: &str) -> bool
    ensures { result
        ≡ (is_named (codes "label") (tree_of element.now)
        && bytes_eq (heading_of (tree_of element.now)).argument name.now) }
{
    is_named(element, "label") && argument_of(element) == name
}
