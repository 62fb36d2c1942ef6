//! Every fault of a plan and of its configurations: behind the first one those that are left where
//! the lines of earlier ones are blank.

ghost use Rattle.std.specs.Prelude.{◌≡◌, All, IfOk, IfSome, OnOk};
ghost use Rattle.plan_lines.specs.Faults.{IsRefusal};
ghost use Rattle.plan_lines.specs.Plans.{texts as texts_of};
ghost use Rattle.relayctl.specs.Faults.{IsFaultLeft};

use crate::blanks::{Blank, Rest, is_blank, last_of_section, left};
use loss_checker::{PlanError, conf_names};
use plan_lines::Plan;
use relay_conf::{RelayFault, RelayFaultKind, words};
use std::alloc::{AllocError, Allocator};
use std::str;
use text_lines::lines;

// The most faults that are looked for.
const MOST_FAULTS: usize = 256;

/// The faults of a plan behind this one, its first, in the order of its lines: each is the first
/// fault of the plan with blanks in place of what has the faults before it. That is the line of the
/// plan, or that of its configuration, with the section that begins there, or all of a
/// configuration whose text can't be read. What follows from these blanks alone isn't answered. At
/// most 255 are. The only error is want of memory.
pub(crate) fn further_faults<A: Allocator + Copy>(
    alloc: A,
    net: &[u8],
    confs: &[Vec<u8, A>],
    first: PlanError,
) -> Result<Vec<PlanError, A>, AllocError>
    ensures { IfOk result (λ found. All (IsFaultLeft A net.now (texts_of confs.now)) found.items) }
{
    let conf_lines = conf_lines(alloc, net)?;
    let mut found = Vec::new(alloc);
    let mut blanks = Vec::new(alloc);
    add_faults(
        alloc,
        net,
        confs,
        &conf_lines,
        first,
        &mut blanks,
        &mut found,
    )?;
    Ok(found)
}

// Adds the faults behind this one, where these lines of the plan name configurations and nothing is
// blank yet.
fn add_faults<A: Allocator + Copy>(
    alloc: A,
    net: &[u8],
    confs: &[Vec<u8, A>],
    conf_lines: &[usize],
    first: PlanError,
    blanks: &mut Vec<Blank, A>,
    found: &mut Vec<PlanError, A>,
) -> Result<(), AllocError>
    requires { All (IsFaultLeft A net.now (texts_of confs.now)) found.old.items }
    ensures { OnOk result (All (IsFaultLeft A net.now (texts_of confs.now)) found.new.items) }
{
    let mut last = first;
    for _ in 1..MOST_FAULTS {
        blanks.push(blank_of(alloc, confs, conf_lines, last)?)?;
        let Some(next) = next_fault(alloc, net, confs, conf_lines, blanks)? else {
            return Ok(());
        };
        if next == last {
            return Ok(());
        }
        if is_own(alloc, net, confs, conf_lines, blanks, next)? {
            found.push(next)?;
        }
        last = next;
    }
    Ok(())
}

// The first fault of the texts with these blanks; none where they are a plan.
fn next_fault<A: Allocator + Copy>(
    alloc: A,
    net: &[u8],
    confs: &[Vec<u8, A>],
    conf_lines: &[usize],
    blanks: &[Blank],
) -> Result<Option<PlanError>, AllocError>
    ensures { IfOk result (λ found. IfSome found (IsFaultLeft A net.now (texts_of confs.now))) }
{
    let rest = left(alloc, net, confs, conf_lines, blanks)?;
    fault_of(alloc, &rest)
}

// The first fault of what is left.
fn fault_of<A: Allocator + Copy>(alloc: A, rest: &Rest<A>) -> Result<Option<PlanError>, AllocError>
    ensures { IfOk result
        (λ found. IfSome found
        (λ fault. IsRefusal A rest.now.net.items (texts_of rest.now.confs.items) fault)) }
{
    if conf_names(alloc, &rest.net)?.len() != rest.confs.len() {
        return Ok(None);
    }
    match Plan::read(alloc, &rest.net, &rest.confs) {
        Ok(_) => Ok(None),
        Err(PlanError::Memory) => Err(AllocError),
        Err(fault) => Ok(Some(fault)),
    }
}

// The lines of a plan that name configurations, in their order.
fn conf_lines<A: Allocator + Copy>(alloc: A, net: &[u8]) -> Result<Vec<usize, A>, AllocError> {
    let mut found = Vec::new(alloc);
    for (at, line) in lines(alloc, net)?.iter().enumerate() {
        if !conf_names(alloc, line)?.is_empty() {
            found.push(at + 1)?;
        }
    }
    Ok(found)
}

// What is blank behind this fault.
fn blank_of<A: Allocator + Copy>(
    alloc: A,
    confs: &[Vec<u8, A>],
    conf_lines: &[usize],
    fault: PlanError,
) -> Result<Blank, AllocError> {
    match fault {
        PlanError::BadLine(line)
        | PlanError::BadNumber(line)
        | PlanError::BadPattern(line)
        | PlanError::NoSuch(line) => Ok(Blank {
            conf: None,
            from: line,
            to: line,
        }),
        PlanError::BadText(line, _) => Ok(Blank {
            conf: place_of(conf_lines, line),
            from: 1,
            to: usize::MAX,
        }),
        PlanError::BadRelay(line, fault) => {
            let conf = place_of(conf_lines, line);
            let from = fault.line;
            let to = last_of(alloc, confs, conf, from)?;
            Ok(Blank { conf, from, to })
        }
        PlanError::Memory => Ok(Blank {
            conf: None,
            from: 0,
            to: 0,
        }),
    }
}

// The place of the configuration that this line of the plan names.
fn place_of(conf_lines: &[usize], line: usize) -> Option<usize> {
    conf_lines.iter().position(|other| *other == line)
}

// The last line of the section of this configuration that begins in this line.
fn last_of<A: Allocator + Copy>(
    alloc: A,
    confs: &[Vec<u8, A>],
    conf: Option<usize>,
    from: usize,
) -> Result<usize, AllocError> {
    match conf.and_then(|place| confs.get(place)) {
        Some(text) => last_of_section(alloc, text, from),
        None => Ok(from),
    }
}

// Whether the fault doesn't follow from the blanks alone.
fn is_own<A: Allocator + Copy>(
    alloc: A,
    net: &[u8],
    confs: &[Vec<u8, A>],
    conf_lines: &[usize],
    blanks: &[Blank],
    fault: PlanError,
) -> Result<bool, AllocError> {
    match fault {
        PlanError::NoSuch(line) => Ok(!names_a_changed_relay(
            alloc, net, conf_lines, blanks, line,
        )?),
        PlanError::BadRelay(line, fault) => {
            is_own_of_conf(alloc, confs, place_of(conf_lines, line), blanks, fault)
        }
        _ => Ok(true),
    }
}

// The same of a fault of this configuration: what a section lacks may be blank, and so may a label.
fn is_own_of_conf<A: Allocator + Copy>(
    alloc: A,
    confs: &[Vec<u8, A>],
    conf: Option<usize>,
    blanks: &[Blank],
    fault: RelayFault,
) -> Result<bool, AllocError> {
    match fault.kind {
        RelayFaultKind::Missing => {
            let to = last_of(alloc, confs, conf, fault.line)?;
            Ok(!is_blank(blanks, conf, fault.line, to))
        }
        RelayFaultKind::NoSuchLabel => {
            for blank in blanks {
                if blank.conf == conf && begins_a_label(alloc, confs, conf, blank.from)? {
                    return Ok(false);
                }
            }
            Ok(true)
        }
        _ => Ok(true),
    }
}

// Whether a section of a label begins in this line of the configuration.
fn begins_a_label<A: Allocator + Copy>(
    alloc: A,
    confs: &[Vec<u8, A>],
    conf: Option<usize>,
    line: usize,
) -> Result<bool, AllocError> {
    match conf.and_then(|place| confs.get(place)) {
        Some(text) => Ok(
            line_at(alloc, text, line)?
                .trim_ascii_start()
                .starts_with(b"<label"),
        ),
        None => Ok(false),
    }
}

// Whether this line of the plan names a relay whose own line is blank, or something of its
// configuration.
fn names_a_changed_relay<A: Allocator + Copy>(
    alloc: A,
    net: &[u8],
    conf_lines: &[usize],
    blanks: &[Blank],
    line: usize,
) -> Result<bool, AllocError> {
    let one = line_at(alloc, net, line)?;
    for blank in blanks {
        let relay_line = match blank.conf {
            Some(place) => conf_lines.get(place).copied().unwrap_or(0),
            None => blank.from,
        };
        let other = line_at(alloc, net, relay_line)?;
        if other.trim_ascii_start().starts_with(b"relay") && have_one_number(alloc, one, other)? {
            return Ok(true);
        }
    }
    Ok(false)
}

// This line of a text, counted from 1; empty where it has none.
fn line_at<'t, A: Allocator + Copy>(
    alloc: A,
    text: &'t [u8],
    line: usize,
) -> Result<&'t [u8], AllocError> {
    match lines(alloc, text)?.get(line.wrapping_sub(1)) {
        Some(found) => Ok(found),
        None => Ok(&[]),
    }
}

// Whether two lines have the same number behind their first words.
fn have_one_number<A: Allocator + Copy>(
    alloc: A,
    one: &[u8],
    other: &[u8],
) -> Result<bool, AllocError> {
    let (Ok(one), Ok(other)) = (str::from_utf8(one), str::from_utf8(other)) else {
        return Ok(false);
    };
    Ok(words(alloc, one)?.get(1) == words(alloc, other)?.get(1))
}
