//! Texts that are read whole.

ghost use Rattle.std.specs.Prelude.{◌≡◌, ◌≢◌, ◌<◌, ◌≤◌, ◌+◌, length, IfOk};
ghost use Rattle.std.specs.IoError.{error_kind};
ghost use Rattle.program_text.specs.Texts.{IsTextOf};

use crate::counted::CountedRead;
use crate::opening::Open;
use std::alloc::{AllocError, AllocFailed, Allocator};
use std::io;
use std::io::ErrorKind;

/// How often a reader is called at most. One that hasn't ended then is one that fails.
pub const MOST_READS: u32 = 16_777_216;

/// How many bytes are read at once, so that a long text takes but few reads.
pub const PIECE: usize = 65_536;

/// How many bytes a text that is read whole has at most: 1 GiB. One that goes on is one whose
/// reader fails.
pub const MOST_BYTES: usize = 1_073_741_824;

/// Why a text isn't read.
#[derive(Clone, Copy, PartialEq, Eq)]
pub enum ReadFault {
    /// Memory ran out.
    Memory,
    /// The reader failed.
    Read,
}

impl ReadFault {
    /// Why a text isn't read whose reader failed so, or couldn't be had. A file that is opened when
    /// it is first read may want memory for its path then.
    pub fn of(error: &io::Error) -> ReadFault
        ensures memory { error_kind error.now ≡ ErrorKind.OutOfMemory → result ≡ ReadFault.Memory }
        ensures read { error_kind error.now ≢ ErrorKind.OutOfMemory → result ≡ ReadFault.Read }
    {
        match error.kind() {
            ErrorKind::OutOfMemory => ReadFault::Memory,
            _ => ReadFault::Read,
        }
    }
}

impl From<AllocError> for ReadFault {
    ghost use Rattle.std.specs.Prelude.{◌≡◌};
    ghost use Rattle.program_text.specs.declared.reading.ReadFault.TheVariants.{Memory};

    ghost from_gives = { λ _ fault. fault ≡ Memory };

    fn from(_: AllocError) -> ReadFault {
        ReadFault::Memory
    }
}

impl<T: Drop> From<AllocFailed<T>> for ReadFault {
    ghost use Rattle.std.specs.Prelude.{◌≡◌};
    ghost use Rattle.program_text.specs.declared.reading.ReadFault.TheVariants.{Memory};

    ghost from_gives = { λ _ fault. fault ≡ Memory };

    fn from(_: AllocFailed<T>) -> ReadFault {
        ReadFault::Memory
    }
}

/// The text of this name.
pub fn read_named<A: Allocator + Copy, O: Open>(
    alloc: A,
    name: &str,
    files: &O,
) -> Result<Vec<u8, A>, ReadFault>
    ensures { IfOk result (λ text. IsTextOf (O.text_of files.now name.now) text.items) }
{
    match files.open(name) {
        Ok(mut reader) => read_whole(alloc, &mut reader),
        Err(e) => Err(ReadFault::of(&e)),
    }
}

/// All that the reader has left, up to `MOST_BYTES`; it is called `MOST_READS` times at most.
pub fn read_whole<A: Allocator + Copy, R: CountedRead>(
    alloc: A,
    input: &mut R,
) -> Result<Vec<u8, A>, ReadFault>
    ensures whole { IfOk result (λ text. IsTextOf (R.remaining input.old) text.items) }
    ensures bound { IfOk result (λ text. length text.items ≤ 1073741824) }
    ensures calls { R.calls input.new ≤ R.calls input.old + 16777216 }
{
    let mut piece = Vec::from_elem(alloc, 0, PIECE)?;
    read_pieces(alloc, &mut piece, input)
}

// All that the reader has left, read by pieces of this length.
fn read_pieces<A: Allocator + Copy, R: CountedRead>(
    alloc: A,
    piece: &mut [u8],
    input: &mut R,
) -> Result<Vec<u8, A>, ReadFault>
    requires { 0 < length piece.old }
    ensures whole { IfOk result (λ text. IsTextOf (R.remaining input.old) text.items) }
    ensures bound { IfOk result (λ text. length text.items ≤ 1073741824) }
    ensures calls { R.calls input.new ≤ R.calls input.old + 16777216 }
{
    let mut text = Vec::new(alloc);
    for _ in 0..MOST_READS {
        match input.read(piece) {
            Ok(0) => return Ok(text),
            Ok(n) if n > MOST_BYTES - text.len() => return Err(ReadFault::Read),
            Ok(n) => text.extend_from_slice(&piece[..n])?,
            Err(e) if e.kind() == ErrorKind::Interrupted => (),
            Err(e) => return Err(ReadFault::of(&e)),
        }
    }
    Err(ReadFault::Read)
}
