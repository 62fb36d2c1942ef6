//! The lines of warnings.

ghost use Rattle.std.specs.Prelude.{◌≡◌, ℕ, All, IfOk};
ghost use Rattle.plan_advice.specs.Notes.{AreNotes, IsNote};

use crate::pieces::{Piece, joined};
use crate::site::Site;
use crate::warned_plan::WarnedPlan;
use std::alloc::{AllocError, Allocator};
use std::marker::Model;

/// Lines that each begin with `#`. To contracts it is their bytes.
#[derive(Drop)]
pub(crate) struct Notes<A: Allocator> {
    bytes: Vec<u8, A>,
}

impl<A: Allocator> Model for Notes<A> {
    ghost use Rattle.std.specs.Prelude.{ℕ, List};
    ghost use Rattle.plan_advice.specs.Notes.{AreNotes};

    ghost Value = { List ℕ };

    ghost view = { λ notes. notes.bytes.items };

    ghost invariant = { λ notes. AreNotes notes.bytes.items };
}

impl<A: Allocator + Copy> Notes<A> {
    /// No lines.
    #[tactic(auto, using(crate::proofs::Adding::no_notes))]
    pub fn new(alloc: A) -> Notes<A> {
        Notes {
            bytes: Vec::new(alloc),
        }
    }

    /// The lines' bytes.
    pub fn bytes(&self) -> &[u8]
        ensures bytes { result.now ≡ self.now }
        ensures notes { AreNotes result.now }
    {
        &self.bytes
    }

    /// Adds a warning's sentence, of these pieces. The only error is want of memory.
    pub fn put_warning(
        &mut self,
        about: &WarnedPlan<'_, A>,
        words: &[Piece<'_>],
    ) -> Result<(), AllocError> {
        let text = joined(about.alloc, b" warning: ", words)?;
        self.put(about.alloc, &text)
    }

    /// Adds a warning's sentence, and where that is, as `put_place` does: places of relays, and
    /// lines of their configurations. The only error is want of memory.
    pub fn put_at(
        &mut self,
        about: &WarnedPlan<'_, A>,
        words: &[Piece<'_>],
        sites: &[(usize, usize)],
    ) -> Result<(), AllocError> {
        self.put_warning(about, words)?;
        for (place, line) in sites {
            self.put_place(about, *place, *line)?;
        }
        Ok(())
    }

    /// Adds where that is: this line of the configuration of the relay at this place, and what
    /// stands there.
    pub fn put_place(
        &mut self,
        about: &WarnedPlan<'_, A>,
        place: usize,
        line: usize,
    ) -> Result<(), AllocError> {
        self.put_site(about.alloc, &about.texts.conf_site(place, line))
    }

    /// Adds where that is: this line of the plan, and what stands there.
    pub fn put_plan_line(
        &mut self,
        about: &WarnedPlan<'_, A>,
        line: usize,
    ) -> Result<(), AllocError> {
        self.put_site(about.alloc, &about.texts.plan_site(line))
    }

    // Adds a line of a text: its name, its number, and what stands there.
    fn put_site(&mut self, alloc: A, site: &Site<'_>) -> Result<(), AllocError> {
        let shown = site.line_text(alloc)?;
        let text = joined(
            alloc,
            b"   ",
            &[
                Piece::Text(site.name.as_bytes()),
                Piece::Text(b", line "),
                Piece::Number(site.line as u64),
                Piece::Text(b": "),
                Piece::Text(shown),
            ],
        )?;
        self.put(alloc, &text)
    }

    // Adds a line of this text; a line feed in it becomes a blank.
    #[tactic(auto, using(crate::proofs::Adding::note_added))]
    fn put(&mut self, alloc: A, text: &[u8]) -> Result<(), AllocError> {
        let line = note(alloc, text)?;
        self.bytes.extend_from_slice(&line)
    }
}

// The line of this text behind a `#`; a line feed in the text becomes a blank.
fn note<A: Allocator + Copy>(alloc: A, text: &[u8]) -> Result<Vec<u8, A>, AllocError>
    ensures { IfOk result (λ line. IsNote line.items) }
{
    let mut line = Vec::new(alloc);
    line.push(b'#')?;
    line.extend_from_slice(&unbroken(alloc, text)?)?;
    line.push(b'\n')?;
    Ok(line)
}

// The text, with a blank in place of each line feed.
fn unbroken<A: Allocator + Copy>(alloc: A, text: &[u8]) -> Result<Vec<u8, A>, AllocError>
    ensures { IfOk result (λ text. All (λ (byte : ℕ). ¬ (byte ≡ 10)) text.items) }
{
    let mut whole = Vec::new(alloc);
    for byte in text {
        whole.push(no_line_feed(*byte))?;
    }
    Ok(whole)
}

// The byte, or a blank for a line feed.
fn no_line_feed(byte: u8) -> u8
    ensures { ¬ (result ≡ 10) }
{
    if byte == b'\n' { b' ' } else { byte }
}
