//! Matches at which events may go on purpose: their names as words, what is said of them behind a
//! yes, and where names mean no match.

ghost use Rattle.std.specs.Prelude.{◌≡◌, ◌++◌, ℕ, List, length, map, IfOk, OnOk};
ghost use Rattle.label_plan.specs.Printed.{error_text};
ghost use Rattle.plan_lines.specs.Forms.{confs_named};
ghost use Rattle.plan_lines.specs.Plans.{texts as texts_of};
ghost use Rattle.program_text.specs.Listings.{AreListed as AreLines};
ghost use Rattle.relayctl.specs.Dropping.{drop_fault, drops_head as drops_head_of, name_text, AddsDrops, AreReadOrMisspelt, IsMisspeltLine, IsMissing, IsMissingLine, IsSaidOf, PrintsMisspelt};

use crate::explain::Said;
use label_plan::{DropError, DropName, NameError, place_of};
use loss_checker::Plan;
use plan_advice::Texts;
use program_text::{Status, put_last};
use std::alloc::{AllocError, Allocator};
use std::io::Write;

/// Names of matches that were read, or that some of the words are none.
#[derive(Drop)]
pub enum DropNames<'t, A: Allocator> {
    /// All are names.
    Read(Vec<DropName<'t>, A>),
    /// Some are none.
    Misspelt,
}

/// Adds the lines of a text that stand for names of matches, without blanks round them: all but
/// empty ones and those that begin with `#`.
pub fn add_listed<A: Allocator + Copy>(
    alloc: A,
    text: &str,
    words: &mut Vec<String<A>, A>,
) -> Result<(), AllocError> {
    for line in text.lines() {
        let word = line.trim();
        if !word.is_empty() && !word.as_bytes().starts_with(b"#") {
            words.push(format!(in alloc; "{word}")?)?;
        }
    }
    Ok(())
}

/// Reads the names of matches. The only error is want of memory.
pub fn read_names<'t, A: Allocator>(
    alloc: A,
    words: &[&'t str],
) -> Result<DropNames<'t, A>, AllocError>
    ensures { IfOk result (AreReadOrMisspelt words.now) }
{
    let mut names = Vec::new(alloc);
    for word in words {
        match DropName::read(word) {
            Ok(name) => names.push(name)?,
            Err(NameError) => return Ok(DropNames::Misspelt),
        }
    }
    Ok(DropNames::Read(names))
}

/// Prints of each of the words that is no name of a match that it is none.
pub fn print_misspelt<A: Allocator + Copy, F: Write>(
    alloc: A,
    words: &[&str],
    faults: &mut F,
) -> Status
    ensures { PrintsMisspelt (map (λ word. word.now) words.now) (F.contents faults.old)
        (F.contents faults.new) result }
{
    match misspelt_lines(alloc, words) {
        Ok(lines) => put_last(faults, &lines, Status::Usage),
        Err(AllocError) => put_last(faults, b"fault memory\n", Status::Usage),
    }
}

// The lines of the words that are no names.
fn misspelt_lines<A: Allocator + Copy>(alloc: A, words: &[&str]) -> Result<Vec<u8, A>, AllocError>
    ensures { IfOk result
        (λ lines. AreLines IsMisspeltLine (map (λ word. word.now) words.now) lines.items) }
{
    let mut lines = Vec::new(alloc);
    for word in words {
        let line = misspelt_line(alloc, word)?;
        lines.extend_from_slice(&line)?;
    }
    Ok(lines)
}

// The line of a word that is no name; nothing of one that is.
fn misspelt_line<A: Allocator + Copy>(alloc: A, word: &str) -> Result<Vec<u8, A>, AllocError>
    ensures { IfOk result (λ line. IsMisspeltLine word.now line.items) }
{
    match DropName::read(word) {
        Ok(_) => Ok(Vec::new(alloc)),
        Err(NameError) => {
            Ok(format!(in alloc; "fault drop {word}: {NameError}\n")?.into_bytes())
        }
    }
}

/// What is said where names mean no match of the plan that these texts say: a line for each such
/// name. The only error is want of memory.
pub(crate) fn say_missing<A: Allocator + Copy>(
    alloc: A,
    text: &[u8],
    confs: &[Vec<u8, A>],
    names: &[DropName<'_>],
) -> Result<Said<A>, AllocError>
    requires { length confs.now ≡ length (confs_named text.now) }
    ensures { IfOk result
        (λ said. IsMissing A text.now (texts_of confs.now) names.now said.lines.items said.status) }
{
    // The plan was read before, and a name is known to mean no match of it.
    let Ok(plan) = Plan::read(alloc, text, confs) else {
        return Err(AllocError);
    };
    let lines = missing_lines(alloc, &plan, names)?;
    if lines.is_empty() {
        return Err(AllocError);
    }
    let status = Status::Usage;
    Ok(Said { lines, status })
}

// The lines of the names that mean no match of the plan.
fn missing_lines<A: Allocator + Copy>(
    alloc: A,
    plan: &Plan<A>,
    names: &[DropName<'_>],
) -> Result<Vec<u8, A>, AllocError>
    ensures { IfOk result (λ lines. AreLines (IsMissingLine plan.now) names.now lines.items) }
{
    let mut lines = Vec::new(alloc);
    for name in names {
        let line = missing_line(alloc, plan, name)?;
        lines.extend_from_slice(&line)?;
    }
    Ok(lines)
}

// The line of a name that means no match; nothing of one that means one.
fn missing_line<A: Allocator + Copy>(
    alloc: A,
    plan: &Plan<A>,
    name: &DropName<'_>,
) -> Result<Vec<u8, A>, AllocError>
    ensures { IfOk result (λ line. IsMissingLine plan.now name.now line.items) }
{
    match place_of(plan.net().relays(), name, 0) {
        Ok(_) => Ok(Vec::new(alloc)),
        Err(DropError::Memory) => Err(AllocError),
        Err(why) => Ok(fault_line(alloc, name, why)?),
    }
}

// The line that says why a name means no match.
fn fault_line<A: Allocator>(
    alloc: A,
    name: &DropName<'_>,
    why: DropError,
) -> Result<Vec<u8, A>, AllocError>
    ensures { IfOk result (λ line. line.items ≡ drop_fault (name_text name.now) (error_text why)) }
{
    Ok(format!(in alloc; "fault drop {name}: {why}\n")?.into_bytes())
}

/// Adds what may go: for each of the names the line of its match, and a line in front of these;
/// nothing where there are no names.
pub(crate) fn put_drops<A: Allocator + Copy>(
    alloc: A,
    plan: &Plan<A>,
    texts: &Texts<'_, A>,
    names: &[DropName<'_>],
    lines: &mut Vec<u8, A>,
) -> Result<(), AllocError>
    ensures { OnOk result (AddsDrops plan.now names.now lines.old.items lines.new.items) }
{
    if names.is_empty() {
        return Ok(());
    }
    lines.extend_from_slice(drops_head().as_bytes())?;
    for name in names {
        put_drop(alloc, plan, texts, name, lines)?;
    }
    Ok(())
}

// The line in front of what may go.
fn drops_head() -> &'static str
    ensures { result.now ≡ drops_head_of }
{
    "# What comes to these matches may go:\n"
}

// Adds the line of the match that the name means.
fn put_drop<A: Allocator + Copy>(
    alloc: A,
    plan: &Plan<A>,
    texts: &Texts<'_, A>,
    name: &DropName<'_>,
    lines: &mut Vec<u8, A>,
) -> Result<(), AllocError>
    ensures { OnOk result
        ((said : List ℕ) × IsSaidOf plan.now name.now said
        × (lines.new.items ≡ lines.old.items ++ said)) }
{
    match place_of(plan.net().relays(), name, 0) {
        Ok(at) => {
            let words = format!(in alloc; "  {name} in")?;
            texts
                .conf_site(at.place, at.line)
                .put(alloc, lines, words.as_str())
        }
        Err(_) => Ok(()),
    }
}
