//! What the words of the command line ask for.

use crate::draw::Drawing;
use crate::events::{EventWords, event_words};
use crate::status::{StatusWords, status_words};
use std::alloc::{AllocError, Allocator};

/// What the program is asked to do; a path is taken from the working folder.
#[derive(Drop)]
pub enum Word<'a, A: Allocator> {
    /// Say what it can be asked.
    Help,
    /// Say the version.
    Version,
    /// Label the plan of a network, and say of each rule that is broken then what it means.
    Check(CheckWords<'a, A>),
    /// Label the plan of a network, at this path.
    Label(&'a str),
    /// Label it without its own labels and reaches.
    LabelFresh(&'a str),
    /// Explain the checker's answer to a plan.
    Explain(CheckWords<'a, A>),
    /// Draw the plan of a network, at this path.
    Draw(&'a str, Drawing),
    /// Say where these tags go under the configuration at this path.
    Ways(&'a str, &'a [String]),
    /// Say where these tags go through the relays of the plan at this path.
    PlanWays(&'a str, &'a [String]),
    /// Adapt the configuration at this path to the profile; `--accept` and a name, again and again,
    /// say what is accepted.
    Adapt(&'a str, &'a [String]),
    /// Show what the journals in the data folder at this path hold.
    Show(&'a str),
    /// Count what the journals and sinks in a data folder hold.
    Status(StatusWords<'a>),
    /// Print events that sinks and journals hold.
    Events(EventWords<'a, A>),
}

/// Which plan is checked or explained, and how.
#[derive(Drop)]
pub struct CheckWords<'a, A: Allocator> {
    /// The path of the plan.
    pub net: &'a str,
    /// Whether its configurations are adapted.
    pub adapts: bool,
    /// What is accepted of them.
    pub accepted: Vec<String<A>, A>,
    /// At which matches events may go on purpose: what stands behind each `--drop`.
    pub drops: Vec<&'a str, A>,
    /// The paths of files with such names: what stands behind each `--drops`.
    pub lists: Vec<&'a str, A>,
}

/// Reads the words, of which the first is the program's own name. `None` where they ask for nothing
/// that there is. The only error is want of memory.
pub fn read_word<A: Allocator + Copy>(
    alloc: A,
    words: &[String],
) -> Result<Option<Word<'_, A>>, AllocError> {
    let [_, first, behind @ ..] = words else {
        return Ok(None);
    };
    match first.as_str() {
        "check" => check_word(alloc, behind),
        "explain" => explain_word(alloc, behind),
        "events" => events_word(alloc, behind),
        first => Ok(other_word(first, behind)),
    }
}

// The same of a word that asks for neither a check, an explanation nor events, and of those behind
// it.
fn other_word<'a, A: Allocator>(first: &str, behind: &'a [String]) -> Option<Word<'a, A>> {
    match first {
        "label" => label_word(behind),
        "draw" => draw_word(behind),
        "ways" => ways_word(behind),
        "adapt" => adapt_word(behind),
        "show" => show_word(behind),
        "status" => status_word(behind),
        "--help" if behind.is_empty() => Some(Word::Help),
        "--version" if behind.is_empty() => Some(Word::Version),
        _ => None,
    }
}

// Reads what stands behind `show`: a path.
fn show_word<A: Allocator>(words: &[String]) -> Option<Word<'_, A>> {
    match only_path(words) {
        Some(path) => Some(Word::Show(path)),
        None => None,
    }
}

// Reads what stands behind `status`.
fn status_word<A: Allocator>(words: &[String]) -> Option<Word<'_, A>> {
    match status_words(words) {
        Some(asked) => Some(Word::Status(asked)),
        None => None,
    }
}

// Reads what stands behind `events`.
fn events_word<A: Allocator + Copy>(
    alloc: A,
    words: &[String],
) -> Result<Option<Word<'_, A>>, AllocError> {
    match event_words(alloc, words)? {
        Some(asked) => Ok(Some(Word::Events(asked))),
        None => Ok(None),
    }
}

// What an option of `check` or `explain` waits for.
#[derive(Clone, Copy, PartialEq, Eq)]
enum Awaited {
    // Nothing: none stands in front.
    Nothing,
    // The name of what is accepted.
    Accepted,
    // The name of a match.
    Match,
    // The path of a file with names of matches.
    List,
}

// What was read so far of the words behind `check` or `explain`.
#[derive(Drop)]
struct CheckReader<'a, A: Allocator> {
    alloc: A,
    net: Option<&'a str>,
    adapts: bool,
    accepted: Vec<String<A>, A>,
    drops: Vec<&'a str, A>,
    lists: Vec<&'a str, A>,
    awaited: Awaited,
}

// Reads what stands behind `check`, in any order: a path, `--adapt`, `--drop` and a match as often
// as wanted, so `--drops` and the path of a file of matches, and so `--accept` and a name, where
// `--adapt` is there.
fn check_word<A: Allocator + Copy>(
    alloc: A,
    words: &[String],
) -> Result<Option<Word<'_, A>>, AllocError> {
    match plan_words(alloc, words)? {
        Some(asked) => Ok(Some(Word::Check(asked))),
        None => Ok(None),
    }
}

// Reads what stands behind `explain`: the same without `--adapt`.
fn explain_word<A: Allocator + Copy>(
    alloc: A,
    words: &[String],
) -> Result<Option<Word<'_, A>>, AllocError> {
    match plan_words(alloc, words)? {
        Some(asked) if !asked.adapts => Ok(Some(Word::Explain(asked))),
        _ => Ok(None),
    }
}

// Reads the words behind `check`.
fn plan_words<A: Allocator + Copy>(
    alloc: A,
    words: &[String],
) -> Result<Option<CheckWords<'_, A>>, AllocError> {
    let mut reader = CheckReader {
        alloc,
        net: None,
        adapts: false,
        accepted: Vec::new(alloc),
        drops: Vec::new(alloc),
        lists: Vec::new(alloc),
        awaited: Awaited::Nothing,
    };
    for word in words {
        if !reader.take(word)? {
            return Ok(None);
        }
    }
    Ok(reader.finish())
}

impl<'a, A: Allocator + Copy> CheckReader<'a, A> {
    // Takes the next word; false where it can't stand here.
    fn take(&mut self, word: &'a str) -> Result<bool, AllocError> {
        match self.awaited {
            Awaited::Nothing => return Ok(self.begin(word)),
            Awaited::Accepted => self.accepted.push(format!(in self.alloc; "{word}")?)?,
            Awaited::Match => self.drops.push(word)?,
            Awaited::List => self.lists.push(word)?,
        }
        self.awaited = Awaited::Nothing;
        Ok(true)
    }

    // Takes a word behind none that waits for one.
    fn begin(&mut self, word: &'a str) -> bool {
        match word {
            "--accept" => self.awaited = Awaited::Accepted,
            "--drop" => self.awaited = Awaited::Match,
            "--drops" => self.awaited = Awaited::List,
            "--adapt" if !self.adapts => self.adapts = true,
            path if !is_option(path) && self.net.is_none() => self.net = Some(path),
            _ => return false,
        }
        true
    }

    // What was asked; none where something is missing.
    fn finish(self) -> Option<CheckWords<'a, A>> {
        if self.awaited != Awaited::Nothing || (!self.adapts && !self.accepted.is_empty()) {
            return None;
        }
        Some(CheckWords {
            net: self.net?,
            adapts: self.adapts,
            accepted: self.accepted,
            drops: self.drops,
            lists: self.lists,
        })
    }
}

// Reads what stands behind `label`: a path, and `--fresh` in front of it or behind it.
fn label_word<A: Allocator>(words: &[String]) -> Option<Word<'_, A>> {
    let (net, options) = flagged("--fresh", words)?;
    match options {
        Some([]) => Some(Word::LabelFresh(net)),
        Some(_) => None,
        None => Some(Word::Label(only_path(words)?)),
    }
}

// Reads what stands behind `draw`: a path, and `--dot` in front of it or behind it.
fn draw_word<A: Allocator>(words: &[String]) -> Option<Word<'_, A>> {
    let (net, options) = flagged("--dot", words)?;
    match options {
        Some([]) => Some(Word::Draw(net, Drawing::Dot)),
        Some(_) => None,
        None => Some(Word::Draw(only_path(words)?, Drawing::Tree)),
    }
}

// Reads what stands behind `ways`: a path, behind `--plan` where it is that of a plan, and tags.
fn ways_word<A: Allocator>(words: &[String]) -> Option<Word<'_, A>> {
    match words {
        [option, net, tags @ ..] if option.as_str() == "--plan" => Some(Word::PlanWays(net, tags)),
        [conf, tags @ ..] if !is_option(conf) => Some(Word::Ways(conf, tags)),
        _ => None,
    }
}

// Reads what stands behind `adapt`: a path, and what is accepted.
fn adapt_word<A: Allocator>(words: &[String]) -> Option<Word<'_, A>> {
    match words {
        [conf, accepted @ ..] if are_accepting(accepted) => Some(Word::Adapt(conf, accepted)),
        _ => None,
    }
}

// The path that these words are; none where they are something else.
fn only_path(words: &[String]) -> Option<&str> {
    match words {
        [path] if !is_option(path) => Some(path),
        _ => None,
    }
}

// The path that stands beside this option, the one or the other first, and the words behind both;
// with no such words, and the first word, where the option isn't there. None where there is no
// path.
fn flagged<'a>(option: &str, words: &'a [String]) -> Option<(&'a str, Option<&'a [String]>)> {
    match words {
        [one, path, others @ ..] if one.as_str() == option && !is_option(path) => {
            Some((path, Some(others)))
        }
        [path, two, others @ ..] if two.as_str() == option && !is_option(path) => {
            Some((path, Some(others)))
        }
        [path, ..] => Some((path, None)),
        [] => None,
    }
}

// Whether the word begins as options do.
fn is_option(word: &str) -> bool {
    word.as_bytes().starts_with(b"--")
}

// Whether the words are `--accept` and a name, again and again.
fn are_accepting(words: &[String]) -> bool {
    let mut is_name = false;
    for word in words {
        if !is_name && word.as_str() != "--accept" {
            return false;
        }
        is_name = !is_name;
    }
    !is_name
}
