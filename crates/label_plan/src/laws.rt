//! Why a sink of its own may stand in place of a match's outputs.

ghost use Rattle.label_plan.specs.Laws.{EventsEndInSinks, DroppedMatchesDo};

use std::alloc::Allocator;

/// Each event that a match takes ends in the sink that stands in place of its outputs: that is the
/// only leaf of its way, which is no loop, and it keeps. This does nothing: it stands for its
/// clause.
pub fn events_end_in_sinks<A: Allocator>()
    ensures { EventsEndInSinks A }
{}

/// A match with such a sink does what a plan asks of reached matches, under either duty. This does
/// nothing: it stands for its clause.
pub fn dropped_matches_do<A: Allocator>()
    ensures { DroppedMatchesDo A }
{}
