//! A whole configuration is examined: its sections first, and then its labels.

ghost use Rattle.std.specs.Prelude.{◌≡◌, ⊤, map, IfOk, IfErr, MatchResult};
ghost use Rattle.conf_text.specs.Views.{tree_of};
ghost use Rattle.conf_text.specs.Trees.{trees};
ghost use Rattle.relay_conf.specs.declared.section.Section.TheVariants as sections;
ghost use Rattle.relay_conf.specs.Findings.{Examines};
ghost use Rattle.relay_conf.specs.Examined.{trees_found};
ghost use Rattle.relay_conf.specs.Faults.{all_found, HasFault, HasNoFault, IsRefusal};

use crate::examine::examine_element;
use crate::fault::{RelayError, RelayFault};
use crate::labels::examine_labels;
use crate::section::Section;
use conf_text::Element;
use std::alloc::Allocator;

/// Goes through the elements of a configuration. An error is the first fault, or that memory ran
/// out.
///
/// Sections are gone through in the order of the text: a section's name and argument, its type, its
/// parameters, its children, and then what it lacks. Labels come after all others, in the order of
/// the text.
pub fn examine_elements<A: Allocator + Copy>(
    alloc: A,
    elements: &[Element<A>],
) -> Result<(), RelayError>
    // What passes has no fault.
    ensures faultless { IfOk result (λ _. HasNoFault (map tree_of elements.now)) }
    // What is refused has that fault, and it is the first, or memory ran out.
    ensures refused { IfErr result (λ e. IsRefusal (map tree_of elements.now) e) }
    // Elements with a fault don't pass.
    ensures fault { (f : RelayFault) → HasFault (map tree_of elements.now) f
        → IfOk result (λ _. ⊥) }
    // Elements without a fault pass, unless memory runs out.
    ensures only { HasNoFault (map tree_of elements.now)
        → MatchResult result (λ _. ⊤) (λ e. e ≡ RelayError.Memory) }
{
    examine_all(alloc, elements)
}

// Sections first, and then labels.
fn examine_all<A: Allocator + Copy>(alloc: A, elements: &[Element<A>]) -> Result<(), RelayError>
    ensures { Examines (all_found (map tree_of elements.now)) result }
{
    examine_sections(alloc, elements)?;
    examine_labels(elements)
}

fn examine_sections<A: Allocator + Copy>(
    alloc: A,
    elements: &[Element<A>],
) -> Result<(), RelayError>
    ensures { Examines (trees_found sections.Top (trees (map tree_of elements.now))) result }
{
    for element in elements {
        examine_element(alloc, Section::Top, element)?;
    }
    Ok(())
}
