//! An adapted configuration, piece by piece.

ghost use Rattle.std.specs.Prelude.{◌≡◌, map, string_bytes, IfOk};
ghost use Rattle.std.specs.List.{list_all};
ghost use Rattle.conf_listing.specs.Printed.{all_accepted, entry_accepted, entry_text, is_among, printed_text};

use crate::lines::{put_all, put_note};
use std::alloc::{AllocError, Allocator};

/// A section or a parameter of the original, and what stands for it.
#[derive(Drop)]
pub struct Row<A: Allocator> {
    /// Its line in the original, from 1; 0 for all that stands outside every section.
    pub line: usize,
    /// `<name argument>` of a section, the name of a parameter.
    pub subject: Vec<u8, A>,
    /// What is said of it; nothing where it stands as it was.
    pub note: Vec<u8, A>,
    /// The names by which it has to be accepted; none where what the relay does stays the same.
    pub decisions: Vec<Vec<u8, A>, A>,
    /// The lines that stand for it, behind a comment where something is said of it.
    pub text: Vec<u8, A>,
}

/// A piece of an adapted configuration.
#[derive(Drop)]
pub enum Entry<A: Allocator> {
    /// It stands for a section or a parameter of the original.
    Of(Row<A>),
    /// Lines at the end of a section, which stand for none: a section that is added, and the end
    /// itself.
    End {
        /// The line of the section's opening in the original.
        line: usize,
        /// The lines.
        text: Vec<u8, A>,
    },
}

/// An adapted configuration: its pieces, in the order in which they are printed.
#[derive(Drop)]
pub struct Adapted<A: Allocator> {
    pub entries: Vec<Entry<A>, A>,
}

impl<A: Allocator + Copy> Adapted<A> {
    /// The text of the configuration.
    pub fn text(&self, alloc: A) -> Result<Vec<u8, A>, AllocError>
        ensures { IfOk result (λ text. text.items ≡ printed_text self.now.entries.items) }
    {
        let mut text = Vec::new(alloc);
        for entry in &self.entries {
            text.extend_from_slice(text_of(entry))?;
        }
        Ok(text)
    }

    /// Whether all that has to be accepted is, by names among these words.
    pub fn is_accepted<B: Allocator>(&self, accepted: &[String<B>]) -> bool
        ensures { result ≡ all_accepted (map string_bytes accepted.now) self.now.entries.items }
    {
        for entry in &self.entries {
            if !is_entry_accepted(entry, accepted) {
                return false;
            }
        }
        true
    }

    /// A line for each thing that has to be accepted and isn't, and behind them what would accept
    /// them all.
    pub fn undecided<B: Allocator>(
        &self,
        alloc: A,
        accepted: &[String<B>],
    ) -> Result<Vec<u8, A>, AllocError> {
        let mut lines = Vec::new(alloc);
        let mut names = Vec::new(alloc);
        self.put_undecided(alloc, accepted, &mut lines, &mut names)?;
        put_accepting(&names, &mut lines)?;
        Ok(lines)
    }

    /// Adds a line for each thing that has to be accepted and isn't, and to the names each that
    /// would accept one and isn't among them.
    pub fn put_undecided<'a, B: Allocator>(
        &'a self,
        alloc: A,
        accepted: &[String<B>],
        lines: &mut Vec<u8, A>,
        names: &mut Names<'a, A>,
    ) -> Result<(), AllocError> {
        for entry in &self.entries {
            if let Entry::Of(row) = entry {
                put_row(alloc, row, accepted, lines, names)?;
            }
        }
        Ok(())
    }

    /// The text of the configuration; behind each of its lines stands in brackets the line of the
    /// original that it comes from, under this name.
    pub fn noted_text(&self, alloc: A, name: &str) -> Result<Vec<u8, A>, AllocError> {
        let mut text = Vec::new(alloc);
        for entry in &self.entries {
            let line = line_of(entry);
            let note = format!(in alloc; " ({name}, line {line})\n")?;
            put_noted(text_of(entry), note.as_bytes(), &mut text)?;
        }
        Ok(text)
    }

    /// The line of the original that a line of the text comes from, both from 1: that of its row,
    /// and at the end of a section that of the section. `None`: the text has no such line.
    pub fn original_line(&self, line: usize) -> Option<usize> {
        let mut last = 0usize;
        for entry in &self.entries {
            last = last.saturating_add(lines_in(text_of(entry)));
            if line <= last {
                return Some(line_of(entry));
            }
        }
        None
    }
}

// The line of the original that an entry comes from.
fn line_of<A: Allocator>(entry: &Entry<A>) -> usize {
    match entry {
        Entry::Of(row) => row.line,
        Entry::End { line, text: _ } => *line,
    }
}

// The lines that an entry prints.
fn text_of<A: Allocator>(entry: &Entry<A>) -> &[u8]
    ensures { result.now ≡ entry_text entry.now }
{
    match entry {
        Entry::Of(row) => &row.text,
        Entry::End { line: _, text } => text,
    }
}

// How many lines end in the text.
fn lines_in(text: &[u8]) -> usize {
    let mut lines = 0usize;
    for byte in text {
        if *byte == b'\n' {
            lines = lines.saturating_add(1);
        }
    }
    lines
}

/// Names that are lent.
pub type Names<'a, A> = Vec<&'a [u8], A>;

/// Adds the line that says what would accept all things of these names. The only error is want of
/// memory.
pub fn put_accepting<A: Allocator>(
    names: &[&[u8]],
    lines: &mut Vec<u8, A>,
) -> Result<(), AllocError> {
    lines.extend_from_slice(b"accept by")?;
    for name in names {
        put_all(lines, &[b" --accept ", name])?;
    }
    lines.extend_from_slice(b"\n")
}

// Adds the lines, each with this note in place of its end.
fn put_noted<A: Allocator>(
    lines: &[u8],
    note: &[u8],
    text: &mut Vec<u8, A>,
) -> Result<(), AllocError> {
    for byte in lines {
        if *byte == b'\n' {
            text.extend_from_slice(note)?;
        } else {
            text.push(*byte)?;
        }
    }
    Ok(())
}

// Adds a line for each name by which a row isn't accepted, and each such name that isn't there.
fn put_row<'a, A: Allocator + Copy, B: Allocator>(
    alloc: A,
    row: &'a Row<A>,
    accepted: &[String<B>],
    lines: &mut Vec<u8, A>,
    names: &mut Names<'a, A>,
) -> Result<(), AllocError> {
    for decision in &row.decisions {
        if !is_named(accepted, decision) {
            put_line(alloc, row, decision, lines)?;
            add_name(decision, names)?;
        }
    }
    Ok(())
}

// Adds a name, unless it is there.
fn add_name<'a, A: Allocator>(name: &'a [u8], names: &mut Names<'a, A>) -> Result<(), AllocError> {
    for one in names.iter() {
        if *one == name {
            return Ok(());
        }
    }
    names.push(name)?;
    Ok(())
}

// Adds the line of a row that has to be accepted by this name.
fn put_line<A: Allocator + Copy>(
    alloc: A,
    row: &Row<A>,
    name: &[u8],
    lines: &mut Vec<u8, A>,
) -> Result<(), AllocError> {
    put_all(lines, &[b"undecided ", name, b" "])?;
    put_note(lines, alloc, row.line, &row.subject, &row.note)
}

// Whether all that has to be accepted of an entry is.
fn is_entry_accepted<A: Allocator, B: Allocator>(entry: &Entry<A>, accepted: &[String<B>]) -> bool
    ensures { result ≡ entry_accepted (map string_bytes accepted.now) entry.now }
{
    match entry {
        Entry::Of(row) => are_named(accepted, &row.decisions),
        Entry::End { line: _, text: _ } => true,
    }
}

// Whether each of the wanted names is among these.
fn are_named<A: Allocator, B: Allocator>(names: &[String<B>], wanted: &[Vec<u8, A>]) -> bool
    ensures { result ≡ list_all
        (λ name. is_among (map string_bytes names.now) name.items) wanted.now }
{
    for name in wanted {
        if !is_named(names, name) {
            return false;
        }
    }
    true
}

// Whether a name is among these.
fn is_named<B: Allocator>(names: &[String<B>], name: &[u8]) -> bool
    ensures { result ≡ is_among (map string_bytes names.now) name.now }
{
    for one in names {
        if one.as_bytes() == name {
            return true;
        }
    }
    false
}
