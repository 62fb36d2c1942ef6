//! What a plan with more lines has to be: the given plan with labels and reaches added, of which
//! the rules on these hold.

ghost use Rattle.std.specs.Prelude.{◌≡◌, ◌≤◌, IfOk, IsTrue, All, map, length, take};
ghost use Rattle.label_plan.specs.Labelling.{IsClosed};
ghost use Rattle.label_plan.specs.Lines.{IsLabelLine, OnlyAdds, are_label_words};
ghost use Rattle.relay_conf.specs.Examined.{words_of};

use loss_rules::{
    Label, Labels, Reaches, clients_are_labelled, forwards_are_labelled, labels_are_matched,
    no_relabel_cycle, reached_matches_keep, reaches_cover, relabels_are_labelled,
};
use plan_lines::Plan;
use relay_conf::words;
use relay_net::Net;
use std::alloc::{AllocError, Allocator};
use std::str;
use text_lines::lines;

/// Whether the text has the lines of the given one, and behind them labels and reaches alone.
pub(crate) fn only_adds<A: Allocator + Copy>(
    alloc: A,
    given: &[u8],
    text: &[u8],
) -> Result<bool, AllocError>
    ensures { IfOk result (λ only. IsTrue only → OnlyAdds given.now text.now) }
{
    let own = lines(alloc, given)?;
    let all = lines(alloc, text)?;
    if all.len() < own.len() || !begin_with(&all, &own) {
        return Ok(false);
    }
    are_label_lines(alloc, all.split_at(own.len()).1)
}

// Whether the lines begin with these others.
fn begin_with(all: &[&[u8]], own: &[&[u8]]) -> bool
    requires { length own.now ≤ length all.now }
    ensures { IsTrue result
        → take (length own.now) (map (λ line. line.now) all.now) ≡ map (λ line. line.now) own.now }
{
    for at in 0..own.len() {
        if all[at] != own[at] {
            return false;
        }
    }
    true
}

// Whether each of the lines is empty or says a label or a reach, if it says anything.
fn are_label_lines<A: Allocator + Copy>(alloc: A, lines: &[&[u8]]) -> Result<bool, AllocError>
    ensures { IfOk result (λ only. IsTrue only → All (λ line. IsLabelLine line.now) lines.now) }
{
    for line in lines {
        if !is_label_line(alloc, line)? {
            return Ok(false);
        }
    }
    Ok(true)
}

// Whether the line is empty or says a label or a reach, if it says anything.
fn is_label_line<A: Allocator + Copy>(alloc: A, line: &[u8]) -> Result<bool, AllocError>
    ensures { IfOk result (λ only. IsTrue only → IsLabelLine line.now) }
{
    match str::from_utf8(line) {
        Ok(text) => Ok(are_label_words(&words(alloc, text)?)),
        Err(_) => Ok(false),
    }
}

// Whether there are no words, or the first of them is `label` or `reach`.
fn are_label_words(words: &[&str]) -> bool
    ensures { result ≡ are_label_words (map (λ word. word.now) words.now) }
{
    match words.first() {
        Some(word) => *word == "label" || *word == "reach",
        None => true,
    }
}

/// Whether the rules on clients, coverage, relabels and forwards hold of the plan. The only error
/// is want of memory.
pub(crate) fn is_closed<A: Allocator + Copy>(alloc: A, plan: &Plan<A>) -> Result<bool, AllocError>
    ensures { IfOk result
        (λ closed. IsTrue closed → IsClosed plan.now.net plan.now.labels plan.now.reaches) }
{
    let list = plan.labels();
    let labels = Labels::new(alloc, list)?;
    let reaches = Reaches::new(alloc, plan.reaches())?;
    is_closed_by(
        alloc,
        plan.net(),
        plan.client_lines(),
        list,
        &labels,
        &reaches,
    )
}

// Whether these rules hold of a network with the clients of these lines, and of the labels, also as
// they are looked up, and reaches.
fn is_closed_by<'a, 'b, A: Allocator + Copy>(
    alloc: A,
    net: &'a Net<A>,
    client_lines: &[usize],
    list: &[Label<A>],
    labels: &'a Labels<'b, A>,
    reaches: &'a Reaches<'b, A>,
) -> Result<bool, AllocError>
    requires clients { length client_lines.now ≡ length net.now.clients }
    requires same { labels.now ≡ list.now }
    ensures { IfOk result (λ closed. IsTrue closed → IsClosed net.now labels.now reaches.now) }
{
    let clients = clients_are_labelled(alloc, net, client_lines, labels)?;
    if !clients.is_empty() {
        return Ok(false);
    }
    let covered = reaches_cover(alloc, net, list, reaches)?;
    if !covered.is_empty() {
        return Ok(false);
    }
    let relabels = relabels_are_labelled(alloc, net, labels, reaches)?;
    if !relabels.is_empty() {
        return Ok(false);
    }
    let forwards = forwards_are_labelled(alloc, net, labels, reaches)?;
    Ok(forwards.is_empty())
}

/// Whether the other rules hold of the plan that depend on its labels and reaches.
pub(crate) fn is_kept<A: Allocator + Copy>(alloc: A, plan: &Plan<A>) -> Result<bool, AllocError> {
    let net = plan.net();
    let reaches = Reaches::new(alloc, plan.reaches())?;
    Ok(
        labels_are_matched(alloc, net, plan.labels())?.is_empty()
            && reached_matches_keep(alloc, net, plan.duty(), &reaches)?.is_empty()
            && no_relabel_cycle(alloc, net, &reaches)?.is_empty(),
    )
}
