//! That the places of a relay have their names.

ghost use Rattle.relay_places.specs.Laws.{PlacesHaveTheirNames};

use std::alloc::Allocator;

/// The place of a relay, of a source, and of the chunks and the journal of an output has its name,
/// and the places of an output's carriers have the names of its servers, in their order, or of its
/// sink. This does nothing: it stands for its clause.
pub fn places_have_their_names<A: Allocator>()
    ensures { PlacesHaveTheirNames A }
{}
