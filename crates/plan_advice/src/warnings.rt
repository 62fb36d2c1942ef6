//! All warnings of a plan.

ghost use Rattle.std.specs.Prelude.{◌≡◌, OnErr, OnOk};
ghost use Rattle.plan_advice.specs.Notes.{AddsNotes};

use crate::circles::put_circles;
use crate::hosts::put_hosts;
use crate::keys::put_keys;
use crate::limits::put_limits;
use crate::links::{Forward, Link, forwards, links};
use crate::notes::Notes;
use crate::shared::put_shared;
use crate::site::Texts;
use crate::stale::put_stale;
use crate::waits::put_waits;
use crate::warned_plan::WarnedPlan;
use plan_lines::Plan;
use std::alloc::{AllocError, Allocator};

/// Adds to the lines what may keep events of this plan from arriving, or let them arrive for ever,
/// though none is lost: circles of forwards, keys that differ, sources that their own machine alone
/// reaches, buffers that are too small for what is sent to them, long waits for a silent server,
/// configurations that several relays have, and reaches that have nothing in common with their
/// matches. Each line begins with `#`; where there is nothing to warn of, none is added. The only
/// error is want of memory, which leaves the lines as they were.
pub fn put_warnings<A: Allocator + Copy>(
    alloc: A,
    plan: &Plan<A>,
    texts: &Texts<'_, A>,
    lines: &mut Vec<u8, A>,
) -> Result<(), AllocError>
    ensures notes { OnOk result (AddsNotes lines.old.items lines.new.items) }
    ensures unchanged { OnErr result (lines.new.items ≡ lines.old.items) }
{
    let about = WarnedPlan::new(alloc, plan, texts)?;
    let mut notes = Notes::new(alloc);
    put_all(&about, &mut notes)?;
    lines.extend_from_slice(notes.bytes())
}

/// Adds to the lines what `put_warnings` says of reaches that have nothing in common with their
/// matches, and nothing else: labels that were derived from such a line may be what breaks a rule.
/// Each line begins with `#`. The only error is want of memory, which leaves the lines as they
/// were.
pub fn put_stale_reaches<A: Allocator + Copy>(
    alloc: A,
    plan: &Plan<A>,
    texts: &Texts<'_, A>,
    lines: &mut Vec<u8, A>,
) -> Result<(), AllocError>
    ensures notes { OnOk result (AddsNotes lines.old.items lines.new.items) }
    ensures unchanged { OnErr result (lines.new.items ≡ lines.old.items) }
{
    let about = WarnedPlan::new(alloc, plan, texts)?;
    let mut notes = Notes::new(alloc);
    put_stale(&about, &mut notes)?;
    lines.extend_from_slice(notes.bytes())
}

// Adds the warnings, one kind after another, each in the order of the plan.
fn put_all<A: Allocator + Copy>(
    about: &WarnedPlan<'_, A>,
    notes: &mut Notes<A>,
) -> Result<(), AllocError> {
    put_of_forwards(about, &forwards(about)?, notes)?;
    put_stale(about, notes)
}

// Adds those of these outputs that forward.
fn put_of_forwards<A: Allocator + Copy>(
    about: &WarnedPlan<'_, A>,
    forwards: &[Forward<'_, A>],
    notes: &mut Notes<A>,
) -> Result<(), AllocError> {
    put_of_links(about, forwards, &links(about, forwards)?, notes)
}

// Adds those of these outputs, whose links are these.
fn put_of_links<A: Allocator + Copy>(
    about: &WarnedPlan<'_, A>,
    forwards: &[Forward<'_, A>],
    links: &[Link<'_, A>],
    notes: &mut Notes<A>,
) -> Result<(), AllocError> {
    put_circles(about, links, notes)?;
    put_keys(about, links, notes)?;
    put_hosts(about, links, notes)?;
    put_limits(about, forwards, notes)?;
    put_waits(about, forwards, notes)?;
    put_shared(about, links, notes)
}
