//! Blanks in place of lines of a plan's texts.

ghost use Rattle.std.specs.Prelude.{◌≡◌, ◌++◌, ◌∷◌, [], ℕ, List, IfOk, OnOk};
ghost use Rattle.plan_lines.specs.Plans.{texts as texts_of};
ghost use Rattle.relayctl.specs.Faults.{AreLeft, IsBlanked, IsByteOrBlank};

use std::alloc::{AllocError, Allocator};
use text_lines::lines;

/// What is left of the text of a plan, and of those of the configurations that it names, in their
/// order.
#[derive(Drop)]
pub(crate) struct Rest<A: Allocator> {
    pub net: Vec<u8, A>,
    pub confs: Vec<Vec<u8, A>, A>,
}

/// Lines that are blank, counted from 1, from the one to the other: of the configuration at this
/// place, or of the plan.
#[derive(Clone, Copy, PartialEq, Eq)]
pub(crate) struct Blank {
    pub conf: Option<usize>,
    pub from: usize,
    pub to: usize,
}

/// Whether one of these is of this configuration, or of the plan, and of one of these lines at
/// least.
pub(crate) fn is_blank(blanks: &[Blank], conf: Option<usize>, from: usize, to: usize) -> bool {
    for blank in blanks {
        if blank.conf == conf && blank.from <= to && from <= blank.to {
            return true;
        }
    }
    false
}

/// The texts of a plan with these blanks. Configurations that only a blank line names aren't there;
/// the lines that name them are given. The only error is want of memory.
pub(crate) fn left<A: Allocator + Copy>(
    alloc: A,
    net: &[u8],
    confs: &[Vec<u8, A>],
    conf_lines: &[usize],
    blanks: &[Blank],
) -> Result<Rest<A>, AllocError>
    ensures net { IfOk result (λ rest. IsBlanked net.now rest.net.items) }
    ensures confs { IfOk result (λ rest. AreLeft (texts_of confs.now) (texts_of rest.confs.items)) }
{
    Ok(Rest {
        net: blanked(alloc, net, None, blanks)?,
        confs: confs_left(alloc, confs, conf_lines, blanks)?,
    })
}

// The configurations with these blanks.
fn confs_left<A: Allocator + Copy>(
    alloc: A,
    confs: &[Vec<u8, A>],
    conf_lines: &[usize],
    blanks: &[Blank],
) -> Result<Vec<Vec<u8, A>, A>, AllocError>
    ensures { IfOk result (λ all. AreLeft (texts_of confs.now) (texts_of all.items)) }
{
    let mut all = Vec::new(alloc);
    for place in 0..confs.len() {
        put_left(alloc, &confs[place], place, conf_lines, blanks, &mut all)?;
    }
    Ok(all)
}

// Adds this configuration, which is at this place, with these blanks, unless it is gone.
fn put_left<A: Allocator + Copy>(
    alloc: A,
    conf: &[u8],
    place: usize,
    conf_lines: &[usize],
    blanks: &[Blank],
    all: &mut Vec<Vec<u8, A>, A>,
) -> Result<(), AllocError>
    ensures { OnOk result
        ((before : List (List ℕ)) → AreLeft before (texts_of all.old.items)
        → AreLeft (before ++ conf.now ∷ []) (texts_of all.new.items)) }
{
    if is_gone(conf_lines, place, blanks) {
        return Ok(());
    }
    all.push(blanked(alloc, conf, Some(place), blanks)?)?;
    Ok(())
}

// Whether the line of the plan that names the configuration at this place is blank.
fn is_gone(conf_lines: &[usize], place: usize, blanks: &[Blank]) -> bool {
    match conf_lines.get(place) {
        Some(line) => is_blank(blanks, None, *line, *line),
        None => false,
    }
}

// The text of this configuration, or of the plan, with these blanks.
fn blanked<A: Allocator + Copy>(
    alloc: A,
    text: &[u8],
    conf: Option<usize>,
    blanks: &[Blank],
) -> Result<Vec<u8, A>, AllocError>
    ensures { IfOk result (λ all. IsBlanked text.now all.items) }
{
    let own = own_blanks(alloc, conf, blanks)?;
    let mut all = Vec::new(alloc);
    let mut line = 1usize;
    for byte in text {
        all.push(byte_left(*byte, is_blank(&own, conf, line, line)))?;
        line = line_behind(line, *byte);
    }
    Ok(all)
}

// The line in which a byte stands behind one of this line.
fn line_behind(line: usize, byte: u8) -> usize {
    if byte == b'\n' {
        line.saturating_add(1)
    } else {
        line
    }
}

// Those of this configuration, or of the plan.
fn own_blanks<A: Allocator>(
    alloc: A,
    conf: Option<usize>,
    blanks: &[Blank],
) -> Result<Vec<Blank, A>, AllocError> {
    let mut own = Vec::new(alloc);
    for blank in blanks {
        if blank.conf == conf {
            own.push(*blank)?;
        }
    }
    Ok(own)
}

// The byte, or a blank in its place; a line feed stays.
fn byte_left(byte: u8, is_blank: bool) -> u8
    ensures { IsByteOrBlank byte result }
{
    if is_blank && byte != b'\n' {
        b' '
    } else {
        byte
    }
}

/// The last line of the section of a configuration that begins in this line; the line itself, where
/// none does. The only error is want of memory.
pub(crate) fn last_of_section<A: Allocator + Copy>(
    alloc: A,
    conf: &[u8],
    from: usize,
) -> Result<usize, AllocError> {
    let mut depth = 0usize;
    for (at, line) in lines(alloc, conf)?.iter().enumerate() {
        if at + 1 < from {
            continue;
        }
        let text = line.trim_ascii_start();
        if text.starts_with(b"</") {
            depth = depth.saturating_sub(1);
        } else if text.starts_with(b"<") {
            depth = depth.saturating_add(1);
        }
        if depth == 0 {
            return Ok(at + 1);
        }
    }
    Ok(from)
}
