//! Where lines are written.

ghost use Rattle.std.specs.Prelude.{◌≡◌, None, Some, IfOk};
ghost use Rattle.event_listing.specs.Shown.{IsPut, IsWritten};
ghost use Rattle.recent_lines.specs.Lines.{EndsALine};
ghost use Rattle.recent_lines.specs.Recent.{none_recent};

use crate::stop::Stop;
use program_text::{OutputFault, put_all};
use recent_lines::RecentLines;
use std::alloc::{AllocError, Allocator};
use std::io::Write;
use std::marker::Model;

/// A writer of lines: of all, or of those that repeat none of the lines written last.
#[derive(Drop)]
pub struct Output<W: Write, A: Allocator + Copy> {
    writer: W,
    recent: Option<RecentLines<A>>,
}

impl<W: Write, A: Allocator + Copy> Model for Output<W, A> {
    ghost use Rattle.event_listing.specs.Shown.{Shown};

    ghost Value = { Shown };

    ghost view = { λ o. record { written = W.contents o.writer; recent = o.recent } };
}

impl<W: Write, A: Allocator + Copy> Output<W, A> {
    /// Every line is written.
    pub fn all(writer: W) -> Output<W, A>
        ensures { result ≡ record { written = W.contents writer; recent = None } }
    {
        Output {
            writer,
            recent: None,
        }
    }

    /// A line is written unless it repeats one of the last that were, of which
    /// `recent_lines::MOST_RECENT` are remembered by their digests. The error is want of memory.
    pub fn unique(alloc: A, writer: W) -> Result<Output<W, A>, AllocError>
    where
        W: Drop,
        ensures { IfOk result
            (λ output. output ≡ record { written = W.contents writer; recent = Some none_recent }) }
    {
        let recent = RecentLines::new(alloc)?;
        Ok(Output {
            writer,
            recent: Some(recent),
        })
    }

    /// Writes the lines of a text, or those of them that repeat none. `Memory` comes where nothing
    /// was written, `Output` where the writer failed, and `Read` never.
    pub(crate) fn put(&mut self, text: &[u8]) -> Result<(), Stop>
        requires { EndsALine text.now }
        ensures { IsPut self.old self.new text.now result }
    {
        match &mut self.recent {
            None => write_all(&mut self.writer, text),
            Some(recent) => match recent.keep(text) {
                Ok(kept) => write_all(&mut self.writer, &kept),
                Err(AllocError) => Err(Stop::Memory),
            },
        }
    }
}

// Writes all the bytes.
fn write_all<W: Write>(out: &mut W, bytes: &[u8]) -> Result<(), Stop>
    ensures { IsWritten (W.contents out.old) (W.contents out.new) bytes.now result }
{
    match put_all(out, bytes) {
        Ok(()) => Ok(()),
        Err(OutputFault) => Err(Stop::Output),
    }
}
