//! The rules in words, as docs/CHECKING.md has them.

use loss_rules::Rule;

/// What holds where the rule is kept.
pub fn meaning(rule: Rule) -> &'static str {
    match rule {
        Rule::AddressesAreDistinct => {
            "relays' numbers, their folders and the addresses (host and port) of their sources are distinct"
        }
        Rule::ServersAreSources => "each server's host and port is a source of the plan",
        Rule::ClientsAreLabelled => {
            "each pattern of a client, with its source's prefix in front, fits a label of the source's scope"
        }
        Rule::LabelsAreMatched => "each label fits a pattern of some match of its scope",
        Rule::ReachesCover => {
            "of each match up to and with the first that a label fits: each of its patterns has nothing in common with the label, or the label or the pattern fits a reach of the match"
        }
        Rule::ReachedMatchesKeep => {
            "each reached match has an output that keeps, or a relabel; under `duty every` besides each of its outputs keeps, or is a relabel"
        }
        Rule::RelabelsAreLabelled => {
            "each reach of a match with a relabel fits a label of the relabel's target"
        }
        Rule::ForwardsAreLabelled => {
            "each reach of a match that forwards, with the prefix of the source that a server is in front, fits a label of that source's scope"
        }
        Rule::PathsAreDistinct => {
            "within a relay the paths of file buffers are distinct, and so are those of sinks"
        }
        Rule::NoRelabelCycle => "no cycle of relabels of reached matches",
    }
}

/// What to change where the rule is broken.
pub fn advice(rule: Rule) -> &'static str {
    match rule {
        Rule::AddressesAreDistinct => "give each its own",
        Rule::ServersAreSources => {
            "write the receiving relay into the plan, or mend host or port; hosts are compared as texts"
        }
        Rule::ClientsAreLabelled => {
            "add a `label` line with that pattern, prefixed, for the scope"
        }
        Rule::LabelsAreMatched => {
            "end the scope with a match that takes the rest, or narrow the label"
        }
        Rule::ReachesCover => { "add a `reach` line for each match that takes some of these tags" }
        Rule::ReachedMatchesKeep => "make an output keep, under `duty every` each of them",
        Rule::RelabelsAreLabelled => "add a `label` line for the target",
        Rule::ForwardsAreLabelled => "add a `label` line for the receiving relay, prefixed",
        Rule::PathsAreDistinct => "give each its own",
        Rule::NoRelabelCycle => {
            "take the relabel out: an event whose way is a loop is never acknowledged"
        }
    }
}

/// Whether an event may be lost where the rule is broken, by some steps. The others see to it that
/// no two relays, buffers or sinks are taken for one, or that an event's delivery begins.
pub(crate) fn loses_events(rule: Rule) -> bool {
    match rule {
        Rule::AddressesAreDistinct => false,
        Rule::PathsAreDistinct => false,
        Rule::NoRelabelCycle => false,
        _ => true,
    }
}

/// Whether a `label` or a `reach` line mends it where the rule is broken.
pub(crate) fn asks_for_lines(rule: Rule) -> bool {
    match rule {
        Rule::ClientsAreLabelled => true,
        Rule::ReachesCover => true,
        Rule::RelabelsAreLabelled => true,
        Rule::ForwardsAreLabelled => true,
        _ => false,
    }
}
