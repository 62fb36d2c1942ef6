//! The rules by their names, where one is broken, and what the checker answers.

/// The rules, in the order in which they are looked at.
#[derive(Clone, Copy, PartialEq, Eq)]
pub enum Rule {
    /// Relays' numbers, their folders and the addresses of their sources are distinct.
    AddressesAreDistinct,
    /// Each server is a source of the plan.
    ServersAreSources,
    /// Each pattern of a client fits a label of its source's scope.
    ClientsAreLabelled,
    /// Each label fits a pattern of some match of its scope.
    LabelsAreMatched,
    /// Of each match, up to and with the first that a label fits, the reaches cover what label and
    /// match may have in common.
    ReachesCover,
    /// Each reached match has an output that keeps, or a relabel; under the duty every each of its
    /// outputs is one of these.
    ReachedMatchesKeep,
    /// Each reach of a match with a relabel fits a label of the relabel's target.
    RelabelsAreLabelled,
    /// Each reach of a match that forwards fits a label of each server's scope.
    ForwardsAreLabelled,
    /// Within a relay the paths of buffers are distinct, and those of sinks.
    PathsAreDistinct,
    /// Relabels of reached matches don't come back to a scope.
    NoRelabelCycle,
}

/// Where a rule is broken.
#[derive(Clone, Copy, PartialEq, Eq)]
pub enum Place {
    /// In this line of the plan, counted from 1.
    Plan { line: usize },
    /// In this line, counted from 1, of the configuration of the relay with this number.
    Conf { relay: u32, line: usize },
}

/// What the checker answers.
#[derive(Clone, Copy, PartialEq, Eq)]
pub enum Answer {
    /// Every rule holds.
    Yes,
    /// This is the first rule that is broken, and here it is broken first.
    No { rule: Rule, place: Place },
}
