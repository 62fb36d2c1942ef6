//! The patterns of a match.

use crate::decision::Decision;
use crate::lines::{has_any_of, has_pair};
use crate::notes::Notes;
use std::alloc::{AllocError, Allocator};
use tag_pattern::{Pattern, PatternError};

/// The patterns in a match's argument; those that the profile doesn't have made wider.
pub(crate) fn patterns<A: Allocator + Copy>(
    alloc: A,
    argument: &str,
    notes: &mut Notes<A>,
) -> Result<Vec<u8, A>, AllocError> {
    let mut found = Vec::new(alloc);
    for word in argument.split_whitespace() {
        put_pattern(alloc, word, notes, &mut found)?;
    }
    if found.is_empty() {
        notes.say(&[b"a match without a pattern takes each tag"])?;
        return Vec::from_slice(alloc, b"**");
    }
    Ok(found)
}

// Adds a pattern behind those that were found.
fn put_pattern<A: Allocator + Copy>(
    alloc: A,
    word: &str,
    notes: &mut Notes<A>,
    found: &mut Vec<u8, A>,
) -> Result<(), AllocError> {
    if !found.is_empty() {
        found.extend_from_slice(b" ")?;
    }
    let pattern = one_pattern(alloc, word, notes)?;
    found.extend_from_slice(&pattern)
}

// A pattern, made wider where the profile doesn't have it.
fn one_pattern<A: Allocator + Copy>(
    alloc: A,
    word: &str,
    notes: &mut Notes<A>,
) -> Result<Vec<u8, A>, AllocError> {
    if word.as_bytes().first() == Some(&b'/') {
        notes.decide(alloc, Decision::Regex)?;
        return Vec::from_slice(alloc, b"**");
    }
    if is_pattern(alloc, word)? {
        return Vec::from_slice(alloc, word.as_bytes());
    }
    notes.decide(alloc, Decision::Glob)?;
    widened(alloc, word.as_bytes())
}

// Whether the profile has the pattern.
fn is_pattern<A: Allocator + Copy>(alloc: A, word: &str) -> Result<bool, AllocError> {
    match Pattern::read(alloc, word) {
        Ok(_) => Ok(true),
        Err(PatternError::Memory) => Err(AllocError),
        Err(_) => Ok(false),
    }
}

// A pattern each part of which is a word, `*` or `**`, and which has all tags of this one.
fn widened<A: Allocator + Copy>(alloc: A, word: &[u8]) -> Result<Vec<u8, A>, AllocError> {
    let mut found = Vec::new(alloc);
    let mut part = Vec::new(alloc);
    let mut braces = 0usize;
    for byte in word {
        put_byte(*byte, braces, &mut part, &mut found)?;
        braces = braces_behind(braces, *byte);
    }
    found.extend_from_slice(wide_part(&part))?;
    Ok(found)
}

// Adds a byte to the part; or, where it ends the part, that to what was found.
fn put_byte<A: Allocator>(
    byte: u8,
    braces: usize,
    part: &mut Vec<u8, A>,
    found: &mut Vec<u8, A>,
) -> Result<(), AllocError> {
    if byte == b'.' && braces == 0 {
        found.extend_from_slice(wide_part(part))?;
        found.extend_from_slice(b".")?;
        part.clear();
    } else {
        part.push(byte)?;
    }
    Ok(())
}

// How many braces are open behind a byte.
fn braces_behind(braces: usize, byte: u8) -> usize {
    match byte {
        b'{' => braces.saturating_add(1),
        b'}' => braces.saturating_sub(1),
        _ => braces,
    }
}

// A part, or what stands for each part or parts that it may take.
fn wide_part(part: &[u8]) -> &[u8] {
    if !has_any_of(part, b"*{},.") {
        return part;
    }
    if part.contains(&b'.') || has_pair(part, b'*', b'*') {
        return b"**";
    }
    b"*"
}
