//! The plain patterns of a match's argument.

ghost use Rattle.std.specs.Prelude.{map, IfOk};
ghost use Rattle.relay_conf.specs.Examined.{words_of};
ghost use Rattle.relay_conf.specs.PatternWords.{AreOfWord};
ghost use Rattle.relay_conf.specs.Relays.{AreOfWords};

use crate::pattern_words::words;
use std::alloc::{AllocError, Allocator};
use tag_pattern::{Pattern, Plain};

/// The plain patterns of a match's argument, whose words are patterns.
pub(crate) fn patterns<A: Allocator + Copy>(
    alloc: A,
    argument: &str,
) -> Result<Vec<Plain<A>, A>, AllocError>
    ensures { IfOk result (λ plains. AreOfWords (words_of argument.now) plains.items) }
{
    let words = words(alloc, argument)?;
    plains_of(alloc, &words)
}

fn plains_of<A: Allocator + Copy>(alloc: A, words: &[&str]) -> Result<Vec<Plain<A>, A>, AllocError>
    ensures { IfOk result (λ plains. AreOfWords (map (λ word. word.now) words.now) plains.items) }
{
    let mut plains = Vec::new(alloc);
    for word in words {
        let mut more = plains_of_word(alloc, word)?;
        plains.append(&mut more)?;
    }
    Ok(plains)
}

// The plain patterns of a word. A word that is no pattern was refused before.
fn plains_of_word<A: Allocator + Copy>(alloc: A, word: &str) -> Result<Vec<Plain<A>, A>, AllocError>
    ensures { IfOk result (λ plains. AreOfWord word.now plains.items) }
{
    match Pattern::read(alloc, word) {
        Ok(plains) => Ok(plains),
        Err(_) => Err(AllocError),
    }
}
