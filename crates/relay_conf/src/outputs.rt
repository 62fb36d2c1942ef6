//! Outputs, matches and scopes, filled from elements, with their buffers numbered in the order of
//! the text.

ghost use Rattle.std.specs.Prelude.{◌≡◌, ◌&&◌, ◌||◌, map, filter, IfOk, codes, string_bytes, ◌+◌, if◌then◌else◌};
ghost use Rattle.std.specs.List.{AllZip};
ghost use Rattle.conf_text.specs.Views.{setting, tree_of};
ghost use Rattle.relay_conf.specs.Elements.{children_of, is_named};
ghost use Rattle.relay_conf.specs.Meaning.{kind_of, is_buffered, has_buffer, tree_buffers, numbered};
ghost use Rattle.relay_conf.specs.Copies.{is_copy, outputs_in};
ghost use Rattle.relay_conf.specs.Described.{IsForwardOf, IsFileOf, IsOutputOf};
ghost use Rattle.relay_conf.specs.Examined.{words_of};
ghost use Rattle.relay_conf.specs.Relays.{AreOfWords, IsMatchOf, IsScopeOf};

use crate::buffer::buffer_in;
use crate::defaults::{DEFAULT_ACK_RESPONSE_TIMEOUT, DEFAULT_REQUIRE_ACK_RESPONSE};
use crate::element::{argument_of, children_of, is_named, line_of, pairs_of, value_of};
use crate::form::{OutputType, output_type};
use crate::output::{BufferNo, FileSettings, ForwardSettings, Output};
use crate::patterns::patterns;
use crate::relay::{MatchRule, Scope};
use crate::settings::{security_in, servers};
use crate::target::target;
use crate::values::{flag_or, text_or, time_or};
use conf_text::{Element, Pair};
use std::alloc::{AllocError, Allocator};

fn forward<A: Allocator + Copy>(
    alloc: A,
    element: &Element<A>,
    number: usize,
) -> Result<ForwardSettings<A>, AllocError>
    ensures { IfOk result (λ f. IsForwardOf number (tree_of element.now) f) }
{
    let pairs = pairs_of(element);
    let children = children_of(element);
    Ok(ForwardSettings {
        servers: servers(alloc, children)?,
        require_ack_response: flag_or(pairs, "require_ack_response", DEFAULT_REQUIRE_ACK_RESPONSE),
        ack_response_timeout: time_or(pairs, "ack_response_timeout", DEFAULT_ACK_RESPONSE_TIMEOUT),
        security: security_in(alloc, children)?,
        buffer: buffer_in(alloc, children)?,
        number: BufferNo(number),
    })
}

fn file<A: Allocator + Copy>(
    alloc: A,
    element: &Element<A>,
    number: usize,
) -> Result<FileSettings<A>, AllocError>
    ensures { IfOk result (λ f. IsFileOf number (tree_of element.now) f) }
{
    Ok(FileSettings {
        path: text_or(alloc, pairs_of(element), "path", "")?,
        buffer: buffer_in(alloc, children_of(element))?,
        number: BufferNo(number),
    })
}

// The type of an output, by its last line.
fn kind_of<A: Allocator>(pairs: &[Pair<A>]) -> Option<OutputType>
    ensures { result ≡ kind_of (map setting pairs.now) }
{
    match value_of(pairs, "@type") {
        None => None,
        Some(kind) => output_type(kind),
    }
}

// An output, whose buffer has this number.
fn output<A: Allocator + Copy>(
    alloc: A,
    elements: &[Element<A>],
    element: &Element<A>,
    number: usize,
) -> Result<Output<A>, AllocError>
    ensures { IfOk result
        (λ o. IsOutputOf (map tree_of elements.now) number (tree_of element.now) o) }
{
    let pairs = pairs_of(element);
    let line = line_of(element);
    match kind_of(pairs) {
        Some(OutputType::Forward) => Ok(Output::Forward {
            settings: forward(alloc, element, number)?,
            line,
        }),
        Some(OutputType::File) => Ok(Output::File {
            settings: file(alloc, element, number)?,
            line,
        }),
        Some(OutputType::Relabel) => Ok(Output::Relabel {
            target: target(elements, value_of(pairs, "@label")),
            line,
        }),
        _ => Ok(Output::Null { line }),
    }
}

// How many outputs with a buffer are in an element. An error is that they are past all numbers.
fn buffers_in<A: Allocator>(element: &Element<A>) -> Result<usize, AllocError>
    ensures { IfOk result (λ n. n ≡ tree_buffers (tree_of element.now)) }
{
    if is_named(element, "system") {
        return Ok(0);
    }
    let mut count = own_buffers(element);
    for child in &element.children {
        count = sum(count, buffers_in(child)?)?;
    }
    Ok(count)
}

fn own_buffers<A: Allocator>(element: &Element<A>) -> usize
    ensures { result ≡ (if has_buffer (tree_of element.now) then 1 else 0) }
{
    let is_output = is_named(element, "match") || is_named(element, "store");
    if is_output && is_buffered(kind_of(pairs_of(element))) {
        1
    } else {
        0
    }
}

fn is_buffered(kind: Option<OutputType>) -> bool
    ensures { result ≡ is_buffered kind }
{
    match kind {
        Some(OutputType::Forward) | Some(OutputType::File) => true,
        _ => false,
    }
}

fn is_copy(kind: Option<OutputType>) -> bool
    ensures { result ≡ is_copy kind }
{
    match kind {
        Some(OutputType::Copy) => true,
        _ => false,
    }
}

// The number of the first buffer behind an element. An error is that it is past all numbers.
fn number_behind<A: Allocator>(number: usize, element: &Element<A>) -> Result<usize, AllocError>
    ensures { IfOk result (λ n. n ≡ number + tree_buffers (tree_of element.now)) }
{
    sum(number, buffers_in(element)?)
}

// The sum of two counts. An error is that it is past all numbers.
fn sum(a: usize, b: usize) -> Result<usize, AllocError>
    ensures { IfOk result (λ n. n ≡ a + b) }
{
    match a.checked_add(b) {
        None => Err(AllocError),
        Some(n) => Ok(n),
    }
}

// The outputs of a match, of which the first buffer has this number.
fn outputs<A: Allocator + Copy>(
    alloc: A,
    elements: &[Element<A>],
    element: &Element<A>,
    first: usize,
) -> Result<Vec<Output<A>, A>, AllocError>
    ensures { IfOk result
        (λ os. AllZip (λ p o. IsOutputOf (map tree_of elements.now) p.0 p.1 o)
        (outputs_in first (tree_of element.now)) os.items) }
{
    if is_copy(kind_of(pairs_of(element))) {
        return stores(alloc, elements, children_of(element), first);
    }
    let mut one = Vec::new(alloc);
    one.push(output(alloc, elements, element, first)?)?;
    Ok(one)
}

// The outputs of a copy's stores, of which the first buffer has this number.
fn stores<A: Allocator + Copy>(
    alloc: A,
    elements: &[Element<A>],
    children: &[Element<A>],
    first: usize,
) -> Result<Vec<Output<A>, A>, AllocError>
    ensures { IfOk result
        (λ os. AllZip (λ p o. IsOutputOf (map tree_of elements.now) p.0 p.1 o)
        (numbered (codes "store") first (map tree_of children.now)) os.items) }
{
    let mut outputs = Vec::new(alloc);
    let mut number = first;
    for child in children {
        if is_named(child, "store") {
            outputs.push(output(alloc, elements, child, number)?)?;
        }
        number = number_behind(number, child)?;
    }
    Ok(outputs)
}

// A match, of whose outputs the first buffer has this number.
fn match_rule<A: Allocator + Copy>(
    alloc: A,
    elements: &[Element<A>],
    element: &Element<A>,
    first: usize,
) -> Result<MatchRule<A>, AllocError>
    ensures { IfOk result
        (λ rule. IsMatchOf (map tree_of elements.now) first (tree_of element.now) rule) }
{
    Ok(MatchRule {
        patterns: patterns(alloc, argument_of(element))?,
        outputs: outputs(alloc, elements, element, first)?,
        line: line_of(element),
    })
}

/// The matches among some elements, of whose outputs the first buffer has this number.
pub(crate) fn matches_in<A: Allocator + Copy>(
    alloc: A,
    elements: &[Element<A>],
    among: &[Element<A>],
    first: usize,
) -> Result<Vec<MatchRule<A>, A>, AllocError>
    ensures { IfOk result
        (λ rules. AllZip (λ p rule. IsMatchOf (map tree_of elements.now) p.0 p.1 rule)
        (numbered (codes "match") first (map tree_of among.now)) rules.items) }
{
    let mut rules = Vec::new(alloc);
    let mut number = first;
    for element in among {
        if is_named(element, "match") {
            rules.push(match_rule(alloc, elements, element, number)?)?;
        }
        number = number_behind(number, element)?;
    }
    Ok(rules)
}

// A label's scope, of whose outputs the first buffer has this number.
fn scope<A: Allocator + Copy>(
    alloc: A,
    elements: &[Element<A>],
    element: &Element<A>,
    first: usize,
) -> Result<Scope<A>, AllocError>
    ensures { IfOk result
        (λ scope. IsScopeOf (map tree_of elements.now) first (tree_of element.now) scope) }
{
    Ok(Scope {
        name: String::from_str(alloc, argument_of(element))?,
        matches: matches_in(alloc, elements, children_of(element), first)?,
    })
}

/// The scopes of the labels.
pub(crate) fn label_scopes<A: Allocator + Copy>(
    alloc: A,
    elements: &[Element<A>],
) -> Result<Vec<Scope<A>, A>, AllocError>
    ensures { IfOk result
        (λ scopes. AllZip (λ p scope. IsScopeOf (map tree_of elements.now) p.0 p.1 scope)
        (numbered (codes "label") 0 (map tree_of elements.now)) scopes.items) }
{
    let mut scopes = Vec::new(alloc);
    let mut number = 0;
    for element in elements {
        if is_named(element, "label") {
            scopes.push(scope(alloc, elements, element, number)?)?;
        }
        number = number_behind(number, element)?;
    }
    Ok(scopes)
}
