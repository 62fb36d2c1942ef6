//! Labels and reaches as lines of a plan.

use crate::pattern::put_pattern;
use relay_net::{Entrance, Net, Node};
use std::alloc::{AllocError, Allocator};
use tag_pattern::Plain;

/// Appends the line of a label.
pub(crate) fn put_label<A: Allocator + Copy>(
    alloc: A,
    out: &mut Vec<u8, A>,
    net: &Net<A>,
    at: Entrance,
    pattern: &Plain<A>,
) -> Result<(), AllocError> {
    out.extend_from_slice(b"label")?;
    put_scope(alloc, out, net, at)?;
    put_pattern(out, pattern)?;
    out.extend_from_slice(b"\n")
}

/// Appends the line of a reach.
pub(crate) fn put_reach<A: Allocator + Copy>(
    alloc: A,
    out: &mut Vec<u8, A>,
    net: &Net<A>,
    at: Entrance,
    rule: usize,
    pattern: &Plain<A>,
) -> Result<(), AllocError> {
    out.extend_from_slice(b"reach")?;
    put_scope(alloc, out, net, at)?;
    put_number(alloc, out, rule)?;
    put_pattern(out, pattern)?;
    out.extend_from_slice(b"\n")
}

// Appends the relay's number and the scope, each behind a space.
fn put_scope<A: Allocator + Copy>(
    alloc: A,
    out: &mut Vec<u8, A>,
    net: &Net<A>,
    at: Entrance,
) -> Result<(), AllocError> {
    let Some(node) = net.relays().get(at.relay) else {
        return Ok(());
    };
    put_number(alloc, out, node.number as usize)?;
    out.extend_from_slice(b" ")?;
    out.extend_from_slice(scope_word(node, at.scope))
}

// Appends the number behind a space.
fn put_number<A: Allocator + Copy>(
    alloc: A,
    out: &mut Vec<u8, A>,
    number: usize,
) -> Result<(), AllocError> {
    let digits = format!(in alloc; " {number}")?;
    out.extend_from_slice(digits.as_bytes())
}

// The word that names the scope of the relay.
fn scope_word<A: Allocator>(node: &Node<A>, scope: usize) -> &[u8] {
    match node.relay.scopes.get(scope) {
        Some(found) if scope > 0 => found.name.as_bytes(),
        _ => b".",
    }
}
