//! What holds of the definitions alone. These functions do nothing: each stands for its clause.

ghost use Rattle.route_graph.specs.Laws.{WalkReachesLeaves, WalkIsNoLoop, TakerIsUnique, WalkIsUnique};

/// At most one match takes an event.
pub fn taker_is_unique()
    ensures { TakerIsUnique }
{}

/// The walk of an event reaches its leaves, and nothing else.
pub fn walk_reaches_leaves()
    ensures { WalkReachesLeaves }
{}

/// An event that has a walk has no loop.
pub fn walk_is_no_loop()
    ensures { WalkIsNoLoop }
{}

/// An event has one walk at most, and so one list of buffers first reached.
pub fn walk_is_unique()
    ensures { WalkIsUnique }
{}
