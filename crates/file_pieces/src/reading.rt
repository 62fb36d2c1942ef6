//! So many bytes of a file from one place on.

ghost use Rattle.std.specs.Prelude.{◌≡◌, ◌≤◌, ◌-◌, List, ℕ, Some, IsSome, length, OnOk};
ghost use Rattle.disk_files.specs.Disk.{reads};
ghost use Rattle.disk_files.specs.Moments.{now};
ghost use Rattle.disk_files.specs.declared.dir.FileNo.{FileNo};
ghost use Rattle.file_pieces.specs.Pieces.{part_of, HasPart};
ghost use Rattle.file_pieces.specs.Reading.{Reads};

use crate::error::PieceError;
use disk_files::{Dir, FileNo};

/// Reads so many bytes of an open file, from a place on, as `into` has. The disk stays as it is.
///
/// `Fault`: the device failed. `Short`: the file ends before. After an error nothing is known of
/// what `into` holds.
pub fn read_exact<D: Dir>(
    dir: &mut D,
    file: FileNo,
    at: u64,
    into: &mut [u8],
) -> Result<(), PieceError>
    requires { IsSome (D.opened dir.old file) }
    ensures reads { Reads D.is_honest D.history D.opened D.bytes_left D.fault_count file
        (λ seen. HasPart seen at (length into.old))
        (λ seen. into.new ≡ part_of seen at (length into.old)) dir.old dir.new result }
    // What is answered was there.
    ensures there { D.is_honest dir.old → (name seen : List ℕ) → D.opened dir.old file ≡ Some name
        → reads (now (D.history dir.old)) name ≡ Some seen
        → OnOk result (length into.old ≤ length seen - at) }
    ensures len { length into.new ≡ length into.old }
{
    let read = dir.read_at(file, at as usize, into)?;
    if read < into.len() {
        return Err(PieceError::Short);
    }
    Ok(())
}
