//! What holds of every message and every stream.

ghost use Rattle.event_modes.specs.Laws.{MeansOne, IsNeverBoth, ReadsOneWay};

/// An item means at most one message.
pub fn means_one()
    ensures { MeansOne }
{}

/// A heartbeat is no message.
pub fn never_both()
    ensures { IsNeverBoth }
{}

/// There is one way to read bytes as a stream.
pub fn reads_one_way()
    ensures { ReadsOneWay }
{}
