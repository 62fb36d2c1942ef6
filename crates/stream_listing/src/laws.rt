//! What holds of every listing.

ghost use Rattle.stream_listing.specs.Laws.{EndsWithFault, HasOneListing, StandsForGood};

/// A hex text has one listing, and one status.
pub fn one_listing()
    ensures { HasOneListing }
{}

/// A fault of a stream stands where the bytes are neither none nor the beginning of an item, and
/// begin with no message and no heartbeat. It is one, and stays, whatever follows.
pub fn stands_for_good()
    ensures { StandsForGood }
{}

/// Where bytes are neither none nor the beginning of an item, and begin with no message and no
/// heartbeat, a fault stands: it can't be that there is none.
pub fn ends_with_fault()
    ensures { EndsWithFault }
{}
