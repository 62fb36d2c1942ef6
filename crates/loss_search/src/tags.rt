//! Tags that an event of a network may have.

use crate::common::common_tag;
use std::alloc::{AllocError, Allocator};
use tag_pattern::{PatternItem, Plain, Tag, TagError, matches};

/// What stands for a part that a pattern leaves open.
pub(crate) const ANY_PART: &[u8] = b"x";

/// What stands there too, since a part may be empty.
pub(crate) const EMPTY_PART: &[u8] = b"";

// How many tags are tried at most for one pattern and some others.
const MOST_TAGS: usize = 4_096;

/// Tags, each once.
#[derive(Drop)]
pub(crate) struct Tags<A: Allocator> {
    pub found: Vec<Tag<A>, A>,
}

impl<A: Allocator + Copy> Tags<A> {
    /// No tags.
    pub fn new(alloc: A) -> Tags<A> {
        Tags {
            found: Vec::new(alloc),
        }
    }

    /// Adds tags of the pattern, with this for each part that it leaves open: one with a part where
    /// it may have any number of them, and one with none there.
    pub fn add_of(&mut self, alloc: A, pattern: &Plain<A>, open: &[u8]) -> Result<(), AllocError> {
        self.add(tag_of(alloc, pattern.items(), open, true)?)?;
        self.add(tag_of(alloc, pattern.items(), open, false)?)
    }

    /// Adds tags that the pattern has in common with the other, and with what is left of that
    /// without its first parts, where prefixes may stand; with this for each part that they leave
    /// open.
    pub fn add_common(
        &mut self,
        alloc: A,
        pattern: &Plain<A>,
        other: &Plain<A>,
        open: &[u8],
    ) -> Result<(), AllocError> {
        let items = other.items();
        for first in 0..items.len() {
            let (_, rest) = items.split_at(first);
            let full = tag_of(alloc, rest, open, true)?;
            self.add(full.filter(|tag| matches(pattern, tag)))?;
            self.add(common_tag(alloc, pattern.items(), rest, open)?)?;
        }
        Ok(())
    }

    /// Adds the tags of the pattern that are up to three of these words, each as a part: those with
    /// an empty part, or those without.
    pub fn add_of_words(
        &mut self,
        alloc: A,
        pattern: &Plain<A>,
        words: &[&[u8]],
        has_empty: bool,
    ) -> Result<(), AllocError> {
        for first in words {
            self.add_of_parts(alloc, pattern, &[*first], has_empty)?;
            for second in words {
                self.add_of_parts(alloc, pattern, &[*first, *second], has_empty)?;
                for third in words {
                    self.add_of_parts(alloc, pattern, &[*first, *second, *third], has_empty)?;
                }
            }
        }
        Ok(())
    }

    // Adds the tag of these parts, if it is the pattern's, and has an empty part as is asked.
    fn add_of_parts(
        &mut self,
        alloc: A,
        pattern: &Plain<A>,
        parts: &[&[u8]],
        has_empty: bool,
    ) -> Result<(), AllocError> {
        if has_empty != parts.iter().any(|part| part.is_empty()) {
            return Ok(());
        }
        let tag = tag_of_parts(alloc, parts)?;
        self.add(tag.filter(|tag| matches(pattern, tag)))
    }

    // Adds the tag, if there is one, unless it is there or there are enough.
    fn add(&mut self, tag: Option<Tag<A>>) -> Result<(), AllocError> {
        if let Some(tag) = tag {
            if self.found.len() < MOST_TAGS && !self.has(&tag) {
                self.found.push(tag)?;
            }
        }
        Ok(())
    }

    // Whether the tag is among them.
    fn has(&self, tag: &Tag<A>) -> bool {
        for other in &self.found {
            if other.as_bytes() == tag.as_bytes() {
                return true;
            }
        }
        false
    }
}

// The tag of these items, with this for each part that they leave open, and in place of any number
// of parts with one or none, if it is one and not empty.
fn tag_of<A: Allocator + Copy>(
    alloc: A,
    items: &[PatternItem<Vec<u8, A>>],
    open: &[u8],
    has_one: bool,
) -> Result<Option<Tag<A>>, AllocError> {
    let mut parts: Vec<&[u8], A> = Vec::new(alloc);
    for item in items {
        match item {
            PatternItem::Literal(text) => parts.push(text.as_slice())?,
            PatternItem::AnyPart => parts.push(open)?,
            PatternItem::AnyParts if has_one => parts.push(open)?,
            PatternItem::AnyParts => (),
        }
    }
    tag_of_parts(alloc, &parts)
}

/// The tag of these parts, if they are one and not empty: steps have no field for an empty tag.
pub(crate) fn tag_of_parts<A: Allocator + Copy>(
    alloc: A,
    parts: &[&[u8]],
) -> Result<Option<Tag<A>>, AllocError> {
    let mut bytes = Vec::new(alloc);
    for (number, part) in parts.iter().enumerate() {
        if number > 0 {
            bytes.extend_from_slice(b".")?;
        }
        bytes.extend_from_slice(part)?;
    }
    if bytes.is_empty() {
        return Ok(None);
    }
    match Tag::read(alloc, &bytes) {
        Ok(tag) => Ok(Some(tag)),
        Err(TagError::TagTooLong) => Ok(None),
        Err(TagError::Memory) => Err(AllocError),
    }
}
