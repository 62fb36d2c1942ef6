//! A configuration's elements, read into the relay that they describe.

ghost use Rattle.std.specs.Prelude.{◌≡◌, ◌++◌, ⊤, map, filter, codes, IfOk, IfErr, MatchResult};
ghost use Rattle.std.specs.List.{AllZip};
ghost use Rattle.conf_text.specs.Views.{tree_of};
ghost use Rattle.relay_conf.specs.Elements.{is_named};
ghost use Rattle.relay_conf.specs.Faults.{HasFault, HasNoFault, IsRefusal};
ghost use Rattle.relay_conf.specs.Described.{IsSourceOf};
ghost use Rattle.relay_conf.specs.Relays.{IsRelayOf};
ghost use Rattle.relay_conf.specs.Buffers.{HaveOwnBuffers};

use crate::configuration::examine_elements;
use crate::defaults::{DEFAULT_BIND, DEFAULT_PORT};
use crate::element::{children_of, is_named, line_of, pairs_of, value_of};
use crate::fault::{RelayError, RelayFault};
use crate::outputs::{label_scopes, matches_in};
use crate::relay::{Relay, Scope, Source};
use crate::settings::security_in;
use crate::target::target;
use crate::values::{port_or, prefix, text_or};
use conf_text::Element;
use std::alloc::{AllocError, Allocator};

impl<A: Allocator + Copy> Relay<A> {
    /// The relay that the elements of a configuration describe: each value is that of its last
    /// line, or the default, and an output without a buffer section has a buffer of defaults.
    ///
    /// An error is the first fault, or that memory ran out. Sections are gone through in the order
    /// of the text: a section's name and argument, its type, its parameters, its children, and then
    /// what it lacks. Labels come after all others, in the order of the text.
    pub fn read(alloc: A, elements: &[Element<A>]) -> Result<Relay<A>, RelayError>
        // What is read has no fault, and is the relay that the elements describe.
        ensures faultless { IfOk result (λ _. HasNoFault (map tree_of elements.now)) }
        ensures meaning { IfOk result (λ relay. IsRelayOf (map tree_of elements.now) relay) }
        // Each buffer is that of one output.
        ensures own_buffers { IfOk result (λ relay. HaveOwnBuffers relay) }
        // What is refused has that fault, and it is the first, or memory ran out.
        ensures refused { IfErr result (λ e. IsRefusal (map tree_of elements.now) e) }
        // Elements with a fault aren't read.
        ensures fault { (f : RelayFault) → HasFault (map tree_of elements.now) f
            → IfOk result (λ _. ⊥) }
        // Elements without a fault are read, unless memory runs out.
        ensures only { HasNoFault (map tree_of elements.now)
            → MatchResult result (λ _. ⊤) (λ e. e ≡ RelayError.Memory) }
    {
        examine_elements(alloc, elements)?;
        Ok(filled(alloc, elements)?)
    }
}

// The relay of a configuration without faults.
fn filled<A: Allocator + Copy>(alloc: A, elements: &[Element<A>]) -> Result<Relay<A>, AllocError>
    ensures { IfOk result (λ relay. IsRelayOf (map tree_of elements.now) relay) }
{
    let main = Scope {
        name: String::new(alloc),
        matches: matches_in(alloc, elements, elements, 0)?,
    };
    let mut scopes = label_scopes(alloc, elements)?;
    scopes.insert(0, main)?;
    Ok(Relay {
        sources: sources(alloc, elements)?,
        scopes,
    })
}

// The sources of a configuration.
fn sources<A: Allocator + Copy>(
    alloc: A,
    elements: &[Element<A>],
) -> Result<Vec<Source<A>, A>, AllocError>
    ensures { IfOk result
        (λ found. AllZip (λ t s. IsSourceOf (map tree_of elements.now) t s)
        (filter (is_named (codes "source")) (map tree_of elements.now)) found.items) }
{
    let mut found = Vec::new(alloc);
    for element in elements {
        if is_named(element, "source") {
            found.push(source(alloc, elements, element)?)?;
        }
    }
    Ok(found)
}

fn source<A: Allocator + Copy>(
    alloc: A,
    elements: &[Element<A>],
    element: &Element<A>,
) -> Result<Source<A>, AllocError>
    ensures { IfOk result
        (λ s. IsSourceOf (map tree_of elements.now) (tree_of element.now) s) }
{
    let pairs = pairs_of(element);
    Ok(Source {
        port: port_or(pairs, "port", DEFAULT_PORT),
        bind: text_or(alloc, pairs, "bind", DEFAULT_BIND)?,
        label: target(elements, value_of(pairs, "@label")),
        prefix: prefix(alloc, pairs, "add_tag_prefix")?,
        security: security_in(alloc, children_of(element))?,
        line: line_of(element),
    })
}
