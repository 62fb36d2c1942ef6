//! Every rule that is broken of a plan, and every place where it is: all rules are asked, whatever
//! the others answer.

ghost use Rattle.std.specs.Prelude.{◌≡◌, ◌+◌, [], IfOk, OnOk};
ghost use Rattle.loss_rules.specs.Breaks.{IsKept, rule_number};
ghost use Rattle.loss_rules.specs.Everywhere.{AreBrokenPlaces};
ghost use Rattle.loss_checker.specs.Broken.{AreBrokenBefore, AreBrokenRules};

use loss_rules::{
    Labels, Place, Reaches, Rule, addresses_are_distinct, clients_are_labelled,
    forwards_are_labelled, labels_are_matched, no_relabel_cycle, paths_are_distinct,
    reached_matches_keep, reaches_cover, relabels_are_labelled, servers_are_sources,
};
use plan_lines::Plan;
use std::alloc::{AllocError, Allocator};

/// A rule that is broken, and every place where it is: by lines of the plan, or by relays in the
/// order of the plan and then by lines of their configurations.
#[derive(Drop)]
pub struct BrokenRule<A: Allocator> {
    /// The rule.
    pub rule: Rule,
    /// The first place where it is broken.
    pub place: Place,
    /// The other places where it is broken, in their order.
    pub others: Vec<Place, A>,
}

/// The rules that don't hold of the plan, in the order of `Rule`, each with all places where it is
/// broken; the first place of the first of them is what `check` answers.
///
/// Labels and reaches are looked up by their scope and their match. A pattern is compared first
/// with one that is spelled like it, where there is one, and else with all of the scope, so that
/// the time may grow as the square of a scope's length; hosts and numbers of relays are gone
/// through for each that is named. Memory is needed for what labels and reaches are looked up in,
/// to look for a cycle of relabels, and for the places. The only error is want of it.
pub fn broken_rules<A: Allocator + Copy>(
    alloc: A,
    plan: &Plan<A>,
) -> Result<Vec<BrokenRule<A>, A>, AllocError>
    ensures { IfOk result (λ found. AreBrokenRules plan.now found.items) }
{
    let labels = Labels::new(alloc, plan.labels())?;
    let reaches = Reaches::new(alloc, plan.reaches())?;
    let mut found = Vec::new(alloc);
    ask_ends(alloc, plan, &labels, &mut found)?;
    ask_matches(alloc, plan, &reaches, &mut found)?;
    ask_outputs(alloc, plan, &labels, &reaches, &mut found)?;
    let cycle = no_relabel_cycle(alloc, plan.net(), &reaches)?;
    note(plan, Rule::NoRelabelCycle, cycle, &mut found)?;
    Ok(found)
}

// Adds the rules of addresses, servers and clients that are broken.
fn ask_ends<A: Allocator + Copy>(
    alloc: A,
    plan: &Plan<A>,
    labels: &Labels<'_, A>,
    found: &mut Vec<BrokenRule<A>, A>,
) -> Result<(), AllocError>
    requires labels { labels.now ≡ plan.now.labels }
    requires before { AreBrokenBefore plan.now 1 found.old.items }
    ensures { OnOk result
        (AreBrokenBefore plan.now (rule_number Rule.LabelsAreMatched) found.new.items) }
{
    let net = plan.net();
    let addresses = addresses_are_distinct(alloc, net, plan.relay_lines())?;
    note(plan, Rule::AddressesAreDistinct, addresses, found)?;
    let servers = servers_are_sources(alloc, net)?;
    note(plan, Rule::ServersAreSources, servers, found)?;
    let clients = clients_are_labelled(alloc, net, plan.client_lines(), labels)?;
    note(plan, Rule::ClientsAreLabelled, clients, found)
}

// Adds the rules of labelled and reached matches that are broken.
fn ask_matches<A: Allocator + Copy>(
    alloc: A,
    plan: &Plan<A>,
    reaches: &Reaches<'_, A>,
    found: &mut Vec<BrokenRule<A>, A>,
) -> Result<(), AllocError>
    requires reaches { reaches.now ≡ plan.now.reaches }
    requires before { AreBrokenBefore plan.now (rule_number Rule.LabelsAreMatched)
        found.old.items }
    ensures { OnOk result
        (AreBrokenBefore plan.now (rule_number Rule.RelabelsAreLabelled) found.new.items) }
{
    let net = plan.net();
    let list = plan.labels();
    let matched = labels_are_matched(alloc, net, list)?;
    note(plan, Rule::LabelsAreMatched, matched, found)?;
    let covered = reaches_cover(alloc, net, list, reaches)?;
    note(plan, Rule::ReachesCover, covered, found)?;
    let kept = reached_matches_keep(alloc, net, plan.duty(), reaches)?;
    note(plan, Rule::ReachedMatchesKeep, kept, found)
}

// Adds the rules of outputs that are broken.
fn ask_outputs<'a, 'b, A: Allocator + Copy>(
    alloc: A,
    plan: &'a Plan<A>,
    labels: &'a Labels<'b, A>,
    reaches: &'a Reaches<'b, A>,
    found: &mut Vec<BrokenRule<A>, A>,
) -> Result<(), AllocError>
    requires labels { labels.now ≡ plan.now.labels }
    requires reaches { reaches.now ≡ plan.now.reaches }
    requires before { AreBrokenBefore plan.now (rule_number Rule.RelabelsAreLabelled)
        found.old.items }
    ensures { OnOk result
        (AreBrokenBefore plan.now (rule_number Rule.NoRelabelCycle) found.new.items) }
{
    let net = plan.net();
    let relabels = relabels_are_labelled(alloc, net, labels, reaches)?;
    note(plan, Rule::RelabelsAreLabelled, relabels, found)?;
    let forwards = forwards_are_labelled(alloc, net, labels, reaches)?;
    note(plan, Rule::ForwardsAreLabelled, forwards, found)?;
    let paths = paths_are_distinct(alloc, net)?;
    note(plan, Rule::PathsAreDistinct, paths, found)
}

// Adds the rule, if there are places where it is broken.
fn note<A: Allocator>(
    plan: &Plan<A>,
    rule: Rule,
    broken: Vec<Place, A>,
    found: &mut Vec<BrokenRule<A>, A>,
) -> Result<(), AllocError>
    requires before { AreBrokenBefore plan.now (rule_number rule) found.old.items }
    requires holds { broken.items ≡ [] → IsKept plan.now rule }
    requires listed { AreBrokenPlaces plan.now rule broken.items }
    ensures { OnOk result (AreBrokenBefore plan.now (rule_number rule + 1) found.new.items) }
{
    let mut others = broken;
    if others.is_empty() {
        return Ok(());
    }
    let place = others.remove(0);
    found.push(BrokenRule {
        rule,
        place,
        others,
    })?;
    Ok(())
}
