//! Words that tags of a network are made of.

use crate::tags::ANY_PART;
use relay_net::Net;
use std::alloc::{AllocError, Allocator};
use tag_pattern::{PatternItem, Plain};

// How many words tags are made of at most, beside the empty one.
const MOST_WORDS: usize = 9;

/// The patterns of all matches of the network.
pub(crate) fn patterns_of<A: Allocator + Copy>(
    alloc: A,
    net: &Net<A>,
) -> Result<Vec<&Plain<A>, A>, AllocError> {
    let mut found = Vec::new(alloc);
    for node in net.relays() {
        for scope in &node.relay.scopes {
            for rule in &scope.matches {
                add_patterns(&mut found, &rule.patterns)?;
            }
        }
    }
    Ok(found)
}

// Adds these patterns.
fn add_patterns<'n, A: Allocator>(
    found: &mut Vec<&'n Plain<A>, A>,
    patterns: &'n [Plain<A>],
) -> Result<(), AllocError> {
    for pattern in patterns {
        found.push(pattern)?;
    }
    Ok(())
}

/// Words that stand in the patterns of the clients, and in these, each once, behind one for what
/// they leave open: some, where there are many.
pub(crate) fn words_of<'n, A: Allocator + Copy>(
    alloc: A,
    net: &'n Net<A>,
    patterns: &[&'n Plain<A>],
) -> Result<Vec<&'n [u8], A>, AllocError> {
    let mut words: Vec<&'n [u8], A> = Vec::new(alloc);
    words.push(ANY_PART)?;
    for sender in net.clients() {
        for pattern in &sender.patterns {
            add_words(&mut words, pattern)?;
        }
    }
    for pattern in patterns {
        add_words(&mut words, pattern)?;
    }
    Ok(words)
}

// Adds the words of the pattern.
fn add_words<'n, A: Allocator>(
    words: &mut Vec<&'n [u8], A>,
    pattern: &'n Plain<A>,
) -> Result<(), AllocError> {
    for item in pattern.items() {
        if let PatternItem::Literal(text) = item {
            add_word(words, text)?;
        }
    }
    Ok(())
}

// Adds the word, unless it is empty or there, or there are enough.
fn add_word<'n, A: Allocator>(
    words: &mut Vec<&'n [u8], A>,
    word: &'n [u8],
) -> Result<(), AllocError> {
    if !word.is_empty() && words.len() < MOST_WORDS && !words.contains(&word) {
        words.push(word)?;
    }
    Ok(())
}
