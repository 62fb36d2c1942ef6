//! Output that is written whole.

ghost use Rattle.std.specs.Prelude.{◌≡◌, ◌<◌, ◌⊎◌, ℕ, List, [], length, OnOk, OnErr};
ghost use Rattle.program_text.specs.Output.{TakesPart};
ghost use Rattle.program_text.specs.declared.status.Status.TheVariants.{Usage};

use crate::status::Status;
use std::io::{ErrorKind, Write};

/// The writer failed.
#[derive(Clone, Copy, PartialEq, Eq)]
pub struct OutputFault;

/// Writes all the bytes. A writer that fails has a beginning of them, and not the rest.
/// `write_all` doesn't say what a writer has that failed.
pub fn put_all<W: Write>(out: &mut W, bytes: &[u8]) -> Result<(), OutputFault>
    ensures ok { OnOk result (TakesPart (W.contents out.old) (W.contents out.new) bytes.now []) }
    ensures err { OnErr result ((unseen : List ℕ) × (0 < length unseen)
        × TakesPart (W.contents out.old) (W.contents out.new) bytes.now unseen) }
{
    let mut rest = bytes;
    for _ in 0..u64::MAX {
        if rest.is_empty() {
            return Ok(());
        }
        match out.write(rest) {
            Ok(0) => return Err(OutputFault),
            Ok(n) => rest = rest.split_at(n).1,
            Err(e) if e.kind() == ErrorKind::Interrupted => (),
            Err(_) => return Err(OutputFault),
        }
    }
    if rest.is_empty() {
        return Ok(());
    }
    Err(OutputFault)
}

/// Writes a last line, and ends with the status; with that of a usage where the writer fails.
pub fn put_last<W: Write>(out: &mut W, line: &[u8], status: Status) -> Status
    ensures { (unseen : List ℕ)
        × TakesPart (W.contents out.old) (W.contents out.new) line.now unseen
        × (((result ≡ status) × (unseen ≡ [])) ⊎ ((result ≡ Usage) × (0 < length unseen))) }
{
    match put_all(out, line) {
        Ok(()) => status,
        Err(OutputFault) => Status::Usage,
    }
}
