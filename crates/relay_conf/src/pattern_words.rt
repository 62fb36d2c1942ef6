//! The patterns in a match's argument.

ghost use Rattle.std.specs.Prelude.{◌≡◌, ◌∷◌, [], ◌++◌, map, IfOk, OnOk, length, ◌==◌};
ghost use Rattle.std.specs.List.{list_any};
ghost use Rattle.relay_conf.specs.Findings.{Examines, a_pattern};
ghost use Rattle.relay_conf.specs.Examined.{words_of, tab_words, patterns_found, begins_with_slash};

use crate::fault::{RelayError, RelayFault, RelayFaultKind};
use std::alloc::{AllocError, Allocator};
use tag_pattern::{Pattern, PatternError};

// A list of texts that are lent.
type Words<'t, A> = Vec<&'t str, A>;

/// Goes through a match's patterns. An error is the first fault, or that memory ran out.
pub(crate) fn examine_patterns<A: Allocator + Copy>(
    alloc: A,
    argument: &str,
    line: usize,
) -> Result<(), RelayError>
    ensures { Examines (patterns_found (words_of argument.now) line) result }
{
    let words = words(alloc, argument)?;
    if words.is_empty() || has_slash_first(&words) {
        return Err(RelayError::Fault(RelayFault {
            kind: RelayFaultKind::OutOfProfile,
            line,
        }));
    }
    are_patterns(alloc, &words, line)
}

// Whether one of the words begins with `/`.
fn has_slash_first(words: &[&str]) -> bool
    ensures { result ≡ list_any begins_with_slash (map (λ word. word.now) words.now) }
{
    for word in words {
        if begins_with_slash(word) {
            return true;
        }
    }
    false
}

fn begins_with_slash(word: &str) -> bool
    ensures { result ≡ begins_with_slash word.now }
{
    match word.as_bytes() {
        [] => false,
        [first, ..] => *first == b'/',
    }
}

// Whether each of the words is a pattern. An error is the first that isn't, or that memory ran out.
fn are_patterns<A: Allocator + Copy>(
    alloc: A,
    words: &[&str],
    line: usize,
) -> Result<(), RelayError>
    ensures { Examines
        (map (λ word. a_pattern word line) (map (λ word. word.now) words.now)) result }
{
    for word in words {
        is_pattern(alloc, word, line)?;
    }
    Ok(())
}

fn is_pattern<A: Allocator + Copy>(alloc: A, word: &str, line: usize) -> Result<(), RelayError>
    ensures { Examines (a_pattern word.now line ∷ []) result }
{
    match Pattern::read(alloc, word) {
        Ok(_plains) => Ok(()),
        Err(PatternError::Memory) => Err(RelayError::Memory),
        Err(_) => Err(RelayError::Fault(RelayFault {
            kind: RelayFaultKind::BadValue,
            line,
        })),
    }
}

/// The words of a text: what spaces and tabs separate, lent from it. The error is want of memory.
pub fn words<A: Allocator + Copy>(alloc: A, text: &str) -> Result<Words<'_, A>, AllocError>
    ensures { IfOk result (λ words. map (λ word. word.now) words.items ≡ words_of text.now) }
{
    let mut words = Vec::new(alloc);
    for part in text.split(' ') {
        push_words(&mut words, part)?;
    }
    Ok(words)
}

// What tabs separate.
fn push_words<'t, A: Allocator>(words: &mut Words<'t, A>, part: &'t str) -> Result<(), AllocError>
    ensures { OnOk result
        (map (λ word. word.now) words.new.items
        ≡ map (λ word. word.now) words.old.items ++ tab_words part.now) }
{
    for word in part.split('\t') {
        if !word.is_empty() {
            words.push(word)?;
        }
    }
    Ok(())
}
