//! The picture as a tree of text.

ghost use Rattle.std.specs.Prelude.{◌≤◌};

use crate::escaping::put_shown;
use crate::marks::{Mark, is_at, marks_of};
use crate::rows::{Kind, Row, rows_of};
use crate::sheet::Sheet;
use loss_checker::BrokenRule;
use plan_advice::Texts;
use plan_lines::Plan;
use std::alloc::{AllocError, Allocator};

// Where what is said of a row begins.
const NOTE_COLUMN: usize = 48;

/// The plan as lines of text: each client and where it comes in, then each relay with its sources
/// and scopes, the matches of a scope with the tags that reach them, and each output with whether
/// it keeps and where its servers lead. Behind the line of what stands in a line where a rule is
/// broken there is a mark, `! K6 is broken here`; what is broken elsewhere is marked at the end.
///
/// Only printed characters of ASCII are shown as they are. Each row is compared with each broken
/// place. The only error is want of memory.
pub fn draw_text<A: Allocator + Copy>(
    alloc: A,
    plan: &Plan<A>,
    texts: &Texts<'_, A>,
    broken: &[BrokenRule<A>],
) -> Result<Vec<u8, A>, AllocError> {
    let rows = rows_of(alloc, plan)?;
    let marks = marks_of(alloc, broken)?;
    Sheet::new(alloc, plan, texts, &rows, &marks).text()
}

impl<'a, A: Allocator + Copy> Sheet<'a, A> {
    // The picture.
    fn text(&self) -> Result<Vec<u8, A>, AllocError> {
        let mut out = Vec::new(self.alloc);
        self.put_rows(&mut out)?;
        self.put_others(&mut out)?;
        Ok(out)
    }

    // Adds the line of each row, and behind that where a client comes in, and marks.
    fn put_rows(&self, out: &mut Vec<u8, A>) -> Result<(), AllocError> {
        for row in self.rows {
            self.put_row(out, row)?;
            self.put_entry(out, row)?;
            self.put_marks(out, row)?;
        }
        Ok(())
    }

    // Adds the line of the row.
    fn put_row(&self, out: &mut Vec<u8, A>, row: &Row<'a, A>) -> Result<(), AllocError> {
        let words = self.words(row)?;
        let note = self.note(row)?;
        put_line(out, depth_of(row), &words, &note)
    }

    // Adds the line that says where a client comes in.
    fn put_entry(&self, out: &mut Vec<u8, A>, row: &Row<'a, A>) -> Result<(), AllocError> {
        let Kind::Client(client) = &row.kind else {
            return Ok(());
        };
        let entry = self.entry_words(row.place, *client)?;
        put_line(out, 2, &entry, b"")
    }

    // Adds a line for each rule that is broken at the row.
    fn put_marks(&self, out: &mut Vec<u8, A>, row: &Row<'a, A>) -> Result<(), AllocError> {
        for mark in self.marks {
            if is_at(self.plan, row, mark.place) {
                self.put_mark(out, *mark, depth_of(row) + 2)?;
            }
        }
        Ok(())
    }

    // Adds the line of a rule that is broken at a row.
    fn put_mark(&self, out: &mut Vec<u8, A>, mark: Mark, depth: usize) -> Result<(), AllocError> {
        let Mark { rule, place } = mark;
        let words = format!(in self.alloc; "! {rule} is broken here")?;
        let note = format!(in self.alloc; "{place}")?;
        put_line(out, depth, words.as_bytes(), note.as_bytes())
    }

    // Adds a line for each rule that is broken at no row.
    fn put_others(&self, out: &mut Vec<u8, A>) -> Result<(), AllocError> {
        for mark in self.marks {
            if self.is_nowhere(*mark) {
                self.put_other(out, *mark)?;
            }
        }
        Ok(())
    }

    // Adds the line of a rule that is broken at no row.
    fn put_other(&self, out: &mut Vec<u8, A>, mark: Mark) -> Result<(), AllocError> {
        let Mark { rule, place } = mark;
        let words = format!(in self.alloc; "! {rule} {place}")?;
        put_line(out, 0, words.as_bytes(), b"")
    }
}

// How many spaces are in front of the row.
fn depth_of<A: Allocator>(row: &Row<'_, A>) -> usize
    ensures { result ≤ 8 }
{
    match &row.kind {
        Kind::Client(_) | Kind::Relay(_) => 0,
        Kind::Source(_) | Kind::Scope(_) => 2,
        Kind::Match => 4,
        Kind::Output(_) => 6,
        Kind::Server(_) => 8,
    }
}

// Adds a line: spaces, the words, and the note in its column.
fn put_line<A: Allocator>(
    out: &mut Vec<u8, A>,
    depth: usize,
    words: &[u8],
    note: &[u8],
) -> Result<(), AllocError> {
    let start = out.len();
    put_spaces(out, start, depth)?;
    put_shown(out, words)?;
    if !note.is_empty() {
        put_spaces(out, start, NOTE_COLUMN)?;
        out.extend_from_slice(b"  ")?;
        put_shown(out, note)?;
    }
    out.extend_from_slice(b"\n")
}

// Adds spaces up to this column of the line that starts there.
fn put_spaces<A: Allocator>(
    out: &mut Vec<u8, A>,
    start: usize,
    column: usize,
) -> Result<(), AllocError> {
    let end = start.saturating_add(column).max(out.len());
    out.resize(end, b' ')
}
