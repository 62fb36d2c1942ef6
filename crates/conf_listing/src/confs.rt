//! All configurations of a plan are adapted.

ghost use Rattle.std.specs.Prelude.{◌≡◌, ◌++◌, ◌<◌, true, length, map, string_bytes, IfNone, IfOk, IfSome, OnOk};
ghost use Rattle.std.specs.List.{list_any};
ghost use Rattle.plan_lines.specs.Plans.{texts as texts_of};
ghost use Rattle.conf_listing.specs.Networks.{is_faulty, is_stopped, name_line, AddsListing, AreAdaptedConfs, AreOutcomes, AreStopped, AreTextsOf};

use crate::adapted::{Names, put_accepting};
use crate::conf::adapt_conf;
use crate::outcome::AdaptedConf;
use program_text::stop_line;
use std::alloc::{AllocError, Allocator};

/// What becomes of the configurations of a plan.
#[derive(Drop)]
pub enum AdaptedConfs<A: Allocator> {
    /// A relay reads what stands for each of them.
    Texts(ConfTexts<A>),
    /// Some of them have no such text.
    Stopped(StoppedConfs<A>),
}

/// Adapted configurations, in the order of the given ones.
#[derive(Drop)]
pub struct ConfTexts<A: Allocator> {
    /// The texts, as `relayctl adapt` prints them.
    pub texts: Vec<Vec<u8, A>, A>,
    /// The same with the name of the given configuration, and the line there, behind each line.
    pub noted: Vec<Vec<u8, A>, A>,
}

/// What is said of configurations, of which some isn't adapted.
#[derive(Drop)]
pub struct StoppedConfs<A: Allocator> {
    /// For each that isn't adapted a line with its name, and behind it its fault, or what isn't
    /// accepted; and at the end what would accept all that isn't.
    pub lines: Vec<u8, A>,
    /// Whether one of them has a fault.
    pub has_fault: bool,
}

/// Adapts each of the configurations with these names, as `adapt_conf` does by itself. The only
/// error is want of memory.
pub fn adapt_confs<A: Allocator + Copy, B: Allocator>(
    alloc: A,
    names: &[&str],
    confs: &[Vec<u8, A>],
    accepted: &[String<B>],
) -> Result<AdaptedConfs<A>, AllocError>
    requires { length names.now ≡ length confs.now }
    ensures { IfOk result
        (AreAdaptedConfs A (map (λ name. name.now) names.now) (texts_of confs.now)
        (map string_bytes accepted.now)) }
{
    let outcomes = adapt_each(alloc, confs, accepted)?;
    match texts_in(alloc, &outcomes)? {
        Some(texts) => {
            let noted = noted_in(alloc, names, &outcomes)?;
            Ok(AdaptedConfs::Texts(ConfTexts { texts, noted }))
        }
        None => Ok(AdaptedConfs::Stopped(stopped(alloc, names, &outcomes, accepted)?)),
    }
}

// What becomes of each.
fn adapt_each<A: Allocator + Copy, B: Allocator>(
    alloc: A,
    confs: &[Vec<u8, A>],
    accepted: &[String<B>],
) -> Result<Vec<AdaptedConf<A>, A>, AllocError>
    ensures { IfOk result
        (λ outcomes. AreOutcomes A (texts_of confs.now)
        (map string_bytes accepted.now) outcomes.items) }
{
    let mut outcomes = Vec::new(alloc);
    for conf in confs {
        outcomes.push(adapt_conf(alloc, conf, accepted)?)?;
    }
    Ok(outcomes)
}

// The texts of all of them, unless one has none.
fn texts_in<A: Allocator + Copy>(
    alloc: A,
    outcomes: &[AdaptedConf<A>],
) -> Result<Option<Vec<Vec<u8, A>, A>>, AllocError>
    ensures texts { IfOk result
        (λ found. IfSome found (λ texts. AreTextsOf outcomes.now (texts_of texts.items))) }
    ensures stopped { IfOk result
        (λ found. IfNone found (list_any is_stopped outcomes.now ≡ true)) }
{
    let mut texts = Vec::new(alloc);
    for outcome in outcomes {
        match outcome {
            AdaptedConf::Text(found) => texts.push(Vec::from_slice(alloc, &found.text)?)?,
            AdaptedConf::Undecided(_) | AdaptedConf::Faulty(_) => return Ok(None),
        }
    }
    Ok(Some(texts))
}

// The texts, each with the lines that it comes from.
fn noted_in<A: Allocator + Copy>(
    alloc: A,
    names: &[&str],
    outcomes: &[AdaptedConf<A>],
) -> Result<Vec<Vec<u8, A>, A>, AllocError>
    requires { length names.now ≡ length outcomes.now }
{
    let mut noted = Vec::new(alloc);
    for at in 0..outcomes.len() {
        if let AdaptedConf::Text(found) = &outcomes[at] {
            noted.push(found.rows.noted_text(alloc, names[at])?)?;
        }
    }
    Ok(noted)
}

// What is said of those that have no text.
fn stopped<A: Allocator + Copy, B: Allocator>(
    alloc: A,
    names: &[&str],
    outcomes: &[AdaptedConf<A>],
    accepted: &[String<B>],
) -> Result<StoppedConfs<A>, AllocError>
    requires { length names.now ≡ length outcomes.now }
    ensures { IfOk result
        (λ found. AreStopped
        (map (λ name. name.now) names.now) outcomes.now found.lines.items found.has_fault) }
{
    let mut lines = Vec::new(alloc);
    let mut accepting = Vec::new(alloc);
    for at in 0..outcomes.len() {
        put_outcome(
            alloc,
            names[at],
            &outcomes[at],
            accepted,
            &mut lines,
            &mut accepting,
        )?;
    }
    let behind = accepting_line(alloc, &accepting)?;
    lines.extend_from_slice(&behind)?;
    let has_fault = is_any_faulty(outcomes);
    Ok(StoppedConfs { lines, has_fault })
}

// The line that says what would accept all things of these names, if there are some.
fn accepting_line<A: Allocator + Copy>(
    alloc: A,
    names: &[&[u8]],
) -> Result<Vec<u8, A>, AllocError> {
    let mut line = Vec::new(alloc);
    if !names.is_empty() {
        put_accepting(names, &mut line)?;
    }
    Ok(line)
}

// Adds what is said of one of them: nothing where it has a text. Of what isn't accepted the names
// are added that would accept it.
fn put_outcome<'a, A: Allocator + Copy, B: Allocator>(
    alloc: A,
    name: &str,
    outcome: &'a AdaptedConf<A>,
    accepted: &[String<B>],
    lines: &mut Vec<u8, A>,
    accepting: &mut Names<'a, A>,
) -> Result<(), AllocError>
    ensures { OnOk result (AddsListing name.now outcome.now lines.old.items lines.new.items) }
{
    match outcome {
        AdaptedConf::Text(_) => Ok(()),
        AdaptedConf::Undecided(found) => {
            let mut words = Vec::new(alloc);
            found
                .rows
                .put_undecided(alloc, accepted, &mut words, accepting)?;
            put_named(name, &words, lines)
        }
        AdaptedConf::Faulty(stop) => {
            let line = stop_line(alloc, *stop)?;
            put_named(name, line.as_bytes(), lines)
        }
    }
}

// Adds a line with the name, and these lines behind it.
fn put_named<A: Allocator>(
    name: &str,
    words: &[u8],
    lines: &mut Vec<u8, A>,
) -> Result<(), AllocError>
    ensures { OnOk result (lines.new.items ≡ lines.old.items ++ (name_line name.now ++ words.now)) }
{
    lines.extend_from_slice(name.as_bytes())?;
    lines.extend_from_slice(b":\n")?;
    lines.extend_from_slice(words)
}

// Whether one of them has a fault.
fn is_any_faulty<A: Allocator>(outcomes: &[AdaptedConf<A>]) -> bool
    ensures { result ≡ list_any is_faulty outcomes.now }
{
    for outcome in outcomes {
        if has_fault(outcome) {
            return true;
        }
    }
    false
}

// Whether it has a fault.
fn has_fault<A: Allocator>(outcome: &AdaptedConf<A>) -> bool
    ensures { result ≡ is_faulty outcome.now }
{
    match outcome {
        AdaptedConf::Faulty(_) => true,
        AdaptedConf::Text(_) | AdaptedConf::Undecided(_) => false,
    }
}
