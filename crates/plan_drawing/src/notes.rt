//! What stands behind the rows of a picture, before it is escaped: lines, tags, and what keeps.

use crate::patterns::put_patterns;
use crate::pieces::{Piece, joined};
use crate::rows::{Kind, Row};
use crate::sheet::Sheet;
use relay_conf::Output;
use relay_net::keeps;
use std::alloc::{AllocError, Allocator};

impl<'a, A: Allocator + Copy> Sheet<'a, A> {
    /// What is said of the row, if anything.
    pub fn note(&self, row: &Row<'a, A>) -> Result<Vec<u8, A>, AllocError> {
        match &row.kind {
            Kind::Client(_) | Kind::Relay(_) => self.line_note(b"plan line ", row.line),
            Kind::Source(_) => self.line_note(b"line ", row.line),
            Kind::Scope(_) => self.scope_note(row),
            Kind::Match => self.match_note(row),
            Kind::Output(output) => Vec::from_slice(self.alloc, output_note(*output)),
            Kind::Server(_) => Ok(Vec::new(self.alloc)),
        }
    }

    fn line_note(&self, text: &'static [u8], line: usize) -> Result<Vec<u8, A>, AllocError> {
        joined(self.alloc, &[Piece::Text(text), Piece::Number(line)])
    }

    // The tags of the scope's labels.
    fn scope_note(&self, row: &Row<'a, A>) -> Result<Vec<u8, A>, AllocError> {
        let tags = self.label_tags(row)?;
        self.said_of(b"may get", &tags, b"no label")
    }

    // The tags of the match's reaches.
    fn match_note(&self, row: &Row<'a, A>) -> Result<Vec<u8, A>, AllocError> {
        let tags = self.reach_tags(row)?;
        self.said_of(b"reached by", &tags, b"not reached")
    }

    // The tags of the scope's labels, each behind a space.
    fn label_tags(&self, row: &Row<'a, A>) -> Result<Vec<u8, A>, AllocError> {
        let mut tags = Vec::new(self.alloc);
        let mut count = 0;
        for label in self.plan.labels() {
            if label.place == row.place && label.scope == row.scope {
                put_patterns(&mut tags, &label.patterns, &mut count)?;
            }
        }
        Ok(tags)
    }

    /// The tags of the match's reaches, each behind a space.
    pub fn reach_tags(&self, row: &Row<'a, A>) -> Result<Vec<u8, A>, AllocError> {
        let mut tags = Vec::new(self.alloc);
        let mut count = 0;
        for reach in self.plan.reaches() {
            if reach.place == row.place && reach.scope == row.scope && reach.rule == row.index {
                put_patterns(&mut tags, &reach.patterns, &mut count)?;
            }
        }
        Ok(tags)
    }

    // The words and the tags behind them; other words where there are none.
    fn said_of(
        &self,
        words: &'static [u8],
        tags: &[u8],
        none: &'static [u8],
    ) -> Result<Vec<u8, A>, AllocError> {
        let said = if tags.is_empty() { none } else { words };
        joined(self.alloc, &[Piece::Text(said), Piece::Text(tags)])
    }
}

/// Whether the output keeps; nothing of a relabel.
pub(crate) fn output_note<A: Allocator>(output: &Output<A>) -> &'static [u8] {
    match output {
        Output::Relabel { .. } => b"",
        _ if keeps(output) => b"keeps",
        _ => b"doesn't keep",
    }
}
