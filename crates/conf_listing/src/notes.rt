//! What is said of a row.

ghost use Rattle.std.specs.Prelude.{◌≡◌, IfOk};
ghost use Rattle.conf_listing.specs.Items.{item, item_of};

use crate::adapted::Row;
use crate::decision::Decision;
use crate::lines::{put_note, put_within};
use crate::paths::is_listed;
use std::alloc::{AllocError, Allocator};

/// What is said of what stands in a section that is left out.
pub(crate) const GONE: &[u8] = b"left out with the section round it";

/// What is said of what is left out, where nothing is lost by that.
pub(crate) const HARMLESS: &[u8] = b"left out, it has no bearing on loss";

/// What is said of a section or a parameter, and by which names it has to be accepted.
#[derive(Drop)]
pub(crate) struct Notes<A: Allocator> {
    pub said: Vec<u8, A>,
    pub decisions: Vec<Vec<u8, A>, A>,
}

impl<A: Allocator + Copy> Notes<A> {
    /// Nothing is said.
    pub fn new(alloc: A) -> Notes<A> {
        Notes {
            said: Vec::new(alloc),
            decisions: Vec::new(alloc),
        }
    }

    /// Says this behind what was said.
    pub fn say(&mut self, words: &[&[u8]]) -> Result<(), AllocError> {
        if !self.said.is_empty() {
            self.said.extend_from_slice(b"; ")?;
        }
        for word in words {
            put_shown(&mut self.said, word)?;
        }
        Ok(())
    }

    /// Says that something changes what the relay does, once.
    pub fn decide(&mut self, alloc: A, decision: Decision) -> Result<(), AllocError> {
        if is_listed(&self.decisions, decision.name().as_bytes()) {
            return Ok(());
        }
        self.ask(alloc, decision.name().as_bytes())?;
        self.say(&[decision.sentence().as_bytes()])
    }

    /// Says that it is left out, if that is accepted.
    pub fn leave_out(&mut self, alloc: A, decision: Decision) -> Result<(), AllocError> {
        self.say(&[b"left out"])?;
        self.decide(alloc, decision)
    }

    /// Says that it is left out, as nothing of its name is known there, if that is accepted.
    pub fn leave_unknown(&mut self, alloc: A, name: &[u8], kind: &[u8]) -> Result<(), AllocError> {
        self.ask(alloc, name)?;
        self.say(&[b"left out, no such ", kind, b" is known here"])
    }

    // Has it accepted by this name.
    fn ask(&mut self, alloc: A, name: &[u8]) -> Result<(), AllocError> {
        self.decisions.push(Vec::from_slice(alloc, name)?)?;
        Ok(())
    }

    /// The row of which this is said, with these lines behind a comment.
    pub fn into_row(
        self,
        alloc: A,
        depth: usize,
        line: usize,
        subject: Vec<u8, A>,
        lines: &[u8],
    ) -> Result<Row<A>, AllocError>
        ensures { IfOk result (λ row. item_of row ≡ item line subject.items) }
    {
        let mut text = Vec::new(alloc);
        if !self.said.is_empty() {
            self.put_comment(alloc, depth, line, &subject, &mut text)?;
        }
        text.extend_from_slice(lines)?;
        Ok(Row {
            line,
            subject,
            note: self.said,
            decisions: self.decisions,
            text,
        })
    }

    // Adds a comment that says it.
    fn put_comment(
        &self,
        alloc: A,
        depth: usize,
        line: usize,
        subject: &[u8],
        out: &mut Vec<u8, A>,
    ) -> Result<(), AllocError> {
        put_within(out, depth, &[b"# "])?;
        put_note(out, alloc, line, subject, &self.said)
    }
}

// Adds a text of any bytes to a line.
fn put_shown<A: Allocator>(out: &mut Vec<u8, A>, text: &[u8]) -> Result<(), AllocError> {
    for byte in text {
        out.push(if *byte < b' ' { b' ' } else { *byte })?;
    }
    Ok(())
}
