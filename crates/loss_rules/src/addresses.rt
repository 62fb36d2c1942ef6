//! The rule on what relays are known by: numbers, folders and the addresses of sources are
//! distinct.

ghost use Rattle.std.specs.Prelude.{◌≡◌, ◌↔◌, ◌<◌, ◌≤◌, ℕ, [], List, ◌++◌, IfOk, OnOk, IsTrue, Any, Some, length};
ghost use Rattle.relay_conf.specs.declared.relay.Source.{Source};
ghost use Rattle.loss_rules.specs.Breaks.{BreaksAtSource};
ghost use Rattle.loss_rules.specs.Everywhere.{AreLines, AreTwice, IsOwnPlace};
ghost use Rattle.loss_rules.specs.declared.answer.Place.{Place};
ghost use Rattle.loss_rules.specs.Lines.{HoldsBefore};
ghost use Rattle.loss_rules.specs.Addresses.{HasAddress};
ghost use Rattle.loss_rules.specs.Rules.{AddressesAreDistinct, IsNewTo, RelayIsNew, SourceIsNew, source_in};

use crate::answer::Place;
use crate::label::RelayLine;
use crate::ordered::{put_conf_places, put_in_order};
use crate::requirement::add_unless;
use crate::text::is_same_text;
use relay_conf::Source;
use relay_net::{Net, Node};
use std::alloc::{AllocError, Allocator};

/// Each relay with the number or the folder of one before it, and each source with the address of
/// one before it: a relay's line of the plan, then its sources, then the next relay. The lines are
/// those of the network's relays. Each relay is compared with those before it, and each source with
/// theirs. The only error is want of memory.
pub fn addresses_are_distinct<A: Allocator + Copy, B: Allocator + Copy>(
    alloc: B,
    net: &Net<A>,
    relay_lines: &[RelayLine<A>],
) -> Result<Vec<Place, B>, AllocError>
    requires { length relay_lines.now ≡ length net.now.relays }
    ensures listed { IfOk result (λ places. AreTwice net.now relay_lines.now places.items) }
    ensures kept { IfOk result
        (λ places. places.items ≡ [] → AddressesAreDistinct net.now relay_lines.now) }
{
    let mut places = Vec::new(alloc);
    for (place, node) in net.relays().iter().enumerate() {
        put_own_place(net, relay_lines, place, &mut places)?;
        let lines = source_lines(alloc, net, place)?;
        put_conf_places(node.number, &lines, &mut places)?;
    }
    Ok(places)
}

// Adds the line of the relay at this place, unless it has another number than each before it, and
// another folder.
fn put_own_place<A: Allocator + Copy, B: Allocator>(
    net: &Net<A>,
    lines: &[RelayLine<A>],
    place: usize,
    places: &mut Vec<Place, B>,
) -> Result<(), AllocError>
    requires relay { place < length net.now.relays }
    requires line { place < length lines.now }
    ensures { OnOk result
        ((own : List Place) × IsOwnPlace net.now lines.now place own
        × (places.new.items ≡ places.old.items ++ own)) }
{
    if !relay_is_new(net, lines, place) {
        let line = lines[place].line;
        places.push(Place::Plan { line })?;
    }
    Ok(())
}

// Whether the relay at this place has another number than each before it, and another folder.
fn relay_is_new<A: Allocator + Copy>(net: &Net<A>, lines: &[RelayLine<A>], place: usize) -> bool
    requires relay { place < length net.now.relays }
    requires line { place < length lines.now }
    ensures { IsTrue result ↔ RelayIsNew net.now lines.now place }
{
    for before in 0..place {
        if !is_new_to(net, lines, before, place) {
            return false;
        }
    }
    true
}

// Whether the relay at this place has another number than the one before it, and another folder.
fn is_new_to<A: Allocator + Copy>(
    net: &Net<A>,
    lines: &[RelayLine<A>],
    before: usize,
    place: usize,
) -> bool
    requires before { before < place }
    requires relay { place < length net.now.relays }
    requires line { place < length lines.now }
    ensures { IsTrue result ↔ IsNewTo net.now lines.now place before }
{
    let relays = net.relays();
    if relays[before].number == relays[place].number {
        return false;
    }
    !is_same_text(
        lines[before].folder.as_bytes(),
        lines[place].folder.as_bytes(),
    )
}

// The lines of sources of the relay at this place that have the address of one before, in rising
// order.
fn source_lines<A: Allocator + Copy, B: Allocator>(
    alloc: B,
    net: &Net<A>,
    place: usize,
) -> Result<Vec<usize, B>, AllocError>
    requires { place < length net.now.relays }
    ensures lines { IfOk result (λ lines. AreLines (BreaksAtSource net.now place) lines.items) }
    ensures kept { IfOk result
        (λ lines. lines.items ≡ [] → (source : ℕ) → SourceIsNew net.now place source) }
{
    let mut lines = Vec::new(alloc);
    let node = &net.relays()[place];
    for (number, source) in node.relay.sources.iter().enumerate() {
        let is_new = source_is_new(net, place, number);
        add_unless(is_new, source.line, &mut lines)?;
    }
    put_in_order(&mut lines);
    Ok(lines)
}

// Whether the source of this number of the relay at this place has another address than each before
// it.
fn source_is_new<A: Allocator + Copy>(net: &Net<A>, place: usize, number: usize) -> bool
    requires { (source : Source A) × (source_in net.now place number ≡ Some source) }
    ensures { IsTrue result ↔ SourceIsNew net.now place number }
{
    let node = &net.relays()[place];
    let source = &node.relay.sources[number];
    if is_taken_before(net.relays(), place, node.host.as_bytes(), source.port) {
        return false;
    }
    !is_port_before(&node.relay.sources, number, source.port)
}

// Whether a relay before this place has a source with this address.
fn is_taken_before<A: Allocator>(relays: &[Node<A>], place: usize, host: &[u8], port: u16) -> bool
    requires { place ≤ length relays.now }
    ensures { IsTrue result ↔ HoldsBefore (HasAddress host.now port) relays.now place }
{
    for before in 0..place {
        if has_address(&relays[before], host, port) {
            return true;
        }
    }
    false
}

// Whether a source before this place has this port.
fn is_port_before<A: Allocator>(sources: &[Source<A>], place: usize, port: u16) -> bool
    requires { place ≤ length sources.now }
    ensures { IsTrue result ↔ HoldsBefore (λ source. source.port ≡ port) sources.now place }
{
    for before in 0..place {
        if sources[before].port == port {
            return true;
        }
    }
    false
}

// Whether the relay has a source with this address.
fn has_address<A: Allocator>(node: &Node<A>, host: &[u8], port: u16) -> bool
    ensures { IsTrue result ↔ HasAddress host.now port node.now }
{
    is_same_text(node.host.as_bytes(), host) && has_port(&node.relay.sources, port)
}

// Whether one of the sources has this port.
fn has_port<A: Allocator>(sources: &[Source<A>], port: u16) -> bool
    ensures { IsTrue result ↔ Any (λ source. source.port ≡ port) sources.now }
{
    for source in sources {
        if source.port == port {
            return true;
        }
    }
    false
}
