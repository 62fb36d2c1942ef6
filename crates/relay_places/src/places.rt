//! The places of a relay that notices are told of.

ghost use Rattle.std.specs.Prelude.{
  ◌≡◌,
  ◌+◌,
  ◌-◌,
  ◌^◌,
  ◌<◌,
  ◌++◌,
  length,
  map,
  min,
  slice_get,
  string_bytes,
  IfOk,
  OnOk,
};
ghost use Rattle.std.specs.List.{flat_map};
ghost use Rattle.relay_places.specs.Names.{carrier_names, place_names};
ghost use Rattle.relay_places.specs.Places.{
  ArePlacesOf,
  chunk_place,
  journal_place,
  source_place,
  spans_from,
};

use crate::names::{names_before, put_carriers_of};
use crate::outputs::outputs_of;
use relay_conf::{Output, Relay};
use std::alloc::{AllocError, Allocator};
use std::marker::Model;

/// The places of what carries an output's chunks, its servers or its sink: the first, and the one
/// behind the last.
#[derive(Clone, Copy)]
pub struct Carriers {
    /// The first place.
    pub first: usize,
    /// The place behind the last.
    pub end: usize,
}

/// Where the places of a relay stand in the list of their names: the relay itself, with its folder,
/// its sources, the chunks of each of its outputs that has a buffer, the journals of these buffers,
/// and the servers or the sink of each of these outputs, all in the order of the text. Contracts
/// see how many sources there are, and the places of each output's servers or sink.
pub struct Places<A: Allocator> {
    // How many there are.
    sources: usize,
    // Of each output that has a buffer.
    carriers: Vec<Carriers, A>,
}

// By hand, so that crates above don't prove again how its parts end.
impl<A: Allocator> Drop for Places<A> {
    fn drop(self) {
        let Places {
            sources: _,
            carriers: _,
        } = self;
    }
}

impl<A: Allocator> Model for Places<A> {
    ghost use Rattle.std.specs.Prelude.{◌+◌, ◌^◌, ◌<◌, length};
    ghost use Rattle.relay_places.specs.Places.{PlacesView};

    ghost Value = { PlacesView };

    ghost view = { λ p. record { sources = p.sources; spans = p.carriers.items } };

    ghost invariant = { λ p. 1 + p.sources + length p.carriers.items + length p.carriers.items
        < 2 ^ 64 };
}

impl<A: Allocator> Places<A> {
    /// The place of the first source; the others follow in their order.
    pub fn sources(&self) -> usize
        ensures { result ≡ source_place 0 }
    {
        1
    }

    /// The place of the chunks of the output with this number, among those that have buffers, from
    /// 0; of what is no output `usize::MAX` at most.
    pub fn chunks(&self, output: usize) -> usize
        ensures of_output { output < length self.now.spans → result ≡ chunk_place self.now output }
        ensures capped { result ≡ min (chunk_place self.now output) (2 ^ 64 - 1) }
    {
        (1 + self.sources).saturating_add(output)
    }

    /// The place of the journal of the output with this number, among those that have buffers, from
    /// 0; of what is no output `usize::MAX` at most.
    pub fn journals(&self, output: usize) -> usize
        ensures of_output { output < length self.now.spans
            → result ≡ journal_place self.now output }
        ensures capped { result ≡ min (journal_place self.now output) (2 ^ 64 - 1) }
    {
        (1 + self.sources + self.carriers.len()).saturating_add(output)
    }

    /// The places of the servers, or of the sink, of the output with this number, among those that
    /// have buffers, from 0; `None` of what is no output.
    pub fn carriers(&self, output: usize) -> Option<Carriers>
        ensures { result ≡ slice_get self.now.spans output }
    {
        self.carriers.get(output).copied()
    }

    /// Those of all outputs that have buffers.
    pub(crate) fn all_carriers(&self) -> &[Carriers]
        ensures { result.now ≡ self.now.spans }
    {
        &self.carriers
    }
}

/// The places of a relay with files in this folder, and their names. The error is want of memory.
pub fn places_of<A: Allocator + Copy>(
    alloc: A,
    relay: &Relay<A>,
    folder: &str,
) -> Result<(Places<A>, Vec<String<A>, A>), AllocError>
    ensures names { IfOk result
        (λ made. map string_bytes made.1.items ≡ place_names folder.now relay.now) }
    ensures places { IfOk result (λ made. ArePlacesOf relay.now made.0) }
{
    let outputs = outputs_of(alloc, relay)?;
    let mut names = names_before(alloc, &relay.sources, &outputs, folder)?;
    let carriers = put_carriers(alloc, &outputs, folder, &mut names)?;
    let sources = relay.sources.len();
    Ok((Places { sources, carriers }, names))
}

// Adds the names of what carries the chunks of these outputs, and gives the places of each.
fn put_carriers<A: Allocator + Copy>(
    alloc: A,
    outputs: &[&Output<A>],
    folder: &str,
    names: &mut Vec<String<A>, A>,
) -> Result<Vec<Carriers, A>, AllocError>
    ensures names { OnOk result (map string_bytes names.new.items ≡ map string_bytes names.old.items
        ++ flat_map (carrier_names folder.now) (map (λ found. found.now) outputs.now)) }
    ensures spans { IfOk result (λ spans. spans.items
        ≡ spans_from (length names.old.items) (map (λ found. found.now) outputs.now)) }
{
    let mut spans = Vec::new(alloc);
    for output in outputs {
        let first = names.len();
        put_carriers_of(alloc, output, folder, names)?;
        let end = names.len();
        spans.push(Carriers { first, end })?;
    }
    Ok(spans)
}
