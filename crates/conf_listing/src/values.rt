//! What becomes of the values of parameters.

use crate::amounts::{Unit, amount};
use crate::decision::Decision;
use crate::labels::target;
use crate::lines::put_setting;
use crate::notes::{HARMLESS, Notes};
use crate::paths::FileNames;
use crate::rules::{Rule, is_among};
use conf_text::Element;
use std::alloc::{AllocError, Allocator};

/// What is known while values are adapted.
#[derive(Drop)]
pub(crate) struct Values<'a, A: Allocator> {
    pub alloc: A,
    /// The whole original.
    pub elements: &'a [Element<A>],
    /// The names of sinks that were given out.
    pub sinks: FileNames<A>,
    /// The names of buffers that were given out.
    pub buffers: FileNames<A>,
}

impl<A: Allocator + Copy> Values<'_, A> {
    /// Adds the line of a parameter with this name and value, by its rule; what is said of it goes
    /// to the notes.
    pub fn put(
        &mut self,
        depth: usize,
        rule: Rule,
        name: &[u8],
        value: &[u8],
        notes: &mut Notes<A>,
        lines: &mut Vec<u8, A>,
    ) -> Result<(), AllocError> {
        match rule {
            Rule::HarmlessAt(values, decision) if !is_among(values, value) => {
                notes.leave_out(self.alloc, decision)
            }
            Rule::Decided(decision) => notes.leave_out(self.alloc, decision),
            Rule::Harmless | Rule::HarmlessAt(_, _) => notes.say(&[HARMLESS]),
            Rule::RetryType if value == b"periodic".as_slice() => put_periodic(depth, notes, lines),
            Rule::Overflow if value == b"block".as_slice() => {
                notes.decide(self.alloc, Decision::Block)?;
                put_setting(lines, depth, name, b"throw_exception")
            }
            _ => {
                let found = self.written(rule, value)?;
                put_changed(depth, name, value, &found, notes, lines)
            }
        }
    }

    // The form in which the profile has a value.
    fn written(&mut self, rule: Rule, value: &[u8]) -> Result<Vec<u8, A>, AllocError> {
        let alloc = self.alloc;
        match rule {
            Rule::Target => target(alloc, self.elements, value),
            Rule::SinkPath => self.sinks.give(alloc, value),
            Rule::BufferPath => self.buffers.give(alloc, value),
            Rule::Size if conf_values::size(value).is_none() => counted(alloc, value, Unit::Bytes),
            Rule::Time if conf_values::seconds(value).is_none() => {
                counted(alloc, value, Unit::Seconds)
            }
            Rule::Number if conf_values::whole_number(value).is_none() => {
                counted(alloc, value, Unit::One)
            }
            _ => Vec::from_slice(alloc, word_for(rule, value)),
        }
    }
}

// Waits that stay the same are those that are multiplied by 1.
fn put_periodic<A: Allocator + Copy>(
    depth: usize,
    notes: &mut Notes<A>,
    lines: &mut Vec<u8, A>,
) -> Result<(), AllocError> {
    notes.say(&[b"`periodic` waits stay the same: their base is 1"])?;
    put_setting(lines, depth, b"retry_exponential_backoff_base", b"1")
}

// Adds the line of a parameter whose value has another form, which is said where it differs.
fn put_changed<A: Allocator + Copy>(
    depth: usize,
    name: &[u8],
    value: &[u8],
    found: &[u8],
    notes: &mut Notes<A>,
    lines: &mut Vec<u8, A>,
) -> Result<(), AllocError> {
    if found != value {
        notes.say(&[b"it was `", value, b"`"])?;
    }
    put_setting(lines, depth, name, found)
}

// The amount that a text spells, in the profile's form; what spells none stands as it was.
fn counted<A: Allocator + Copy>(
    alloc: A,
    value: &[u8],
    unit: Unit,
) -> Result<Vec<u8, A>, AllocError> {
    match amount(alloc, value, unit)? {
        Some(text) => Ok(text),
        None => Vec::from_slice(alloc, value),
    }
}

// The profile's word for a word of Fluentd.
fn word_for(rule: Rule, value: &[u8]) -> &[u8] {
    match rule {
        Rule::FlushMode => renamed(b"lazy", b"default", value),
        Rule::Overflow => renamed(b"exception", b"throw_exception", value),
        Rule::BufferType => renamed(b"file_single", b"file", value),
        _ => value,
    }
}

// The new word, if the value is the old one; else the value.
fn renamed<'a>(old: &[u8], new: &'a [u8], value: &'a [u8]) -> &'a [u8] {
    if value == old {
        return new;
    }
    value
}
