//! The files of a relay's data folder, one after another.

ghost use Rattle.std.specs.Prelude.{◌≡◌, map, IfOk};
ghost use Rattle.folder_listing.specs.Files.{named_of, shown_status, AreShown, PrintsShown};

use crate::file::{FileLines, list_file};
use crate::kind::DataFile;
use program_text::{Open, Status, put_last};
use std::alloc::{AllocError, Allocator};
use std::io::Write;

/// Prints what these files hold, in their order: of each a line, and behind that of a journal one
/// for each chunk. The status is `No` where one couldn't be read or is damaged; the others are
/// listed all the same.
pub fn run_show<A: Allocator + Copy, B: Allocator, O: Open, W: Write>(
    alloc: A,
    listed: &[DataFile<B>],
    files: &O,
    out: &mut W,
) -> Status
    ensures { PrintsShown (O.text_of files.now) (map named_of listed.now) (W.contents out.old)
        (W.contents out.new) result }
{
    match list_files(alloc, listed, files) {
        Ok(all) => put_last(out, &all.lines, status_of(all.is_sound)),
        Err(AllocError) => put_last(out, b"fault memory\n", Status::Usage),
    }
}

// The lines of these files, and whether all are sound.
fn list_files<A: Allocator + Copy, B: Allocator, O: Open>(
    alloc: A,
    listed: &[DataFile<B>],
    files: &O,
) -> Result<FileLines<A>, AllocError>
    ensures { IfOk result
        (λ all. AreShown (O.text_of files.now)
        (map named_of listed.now) all.lines.items all.is_sound) }
{
    let mut lines = Vec::new(alloc);
    let mut is_sound = true;
    for file in listed {
        let one = list_file(alloc, file, files)?;
        lines.extend_from_slice(&one.lines)?;
        is_sound = is_sound && one.is_sound;
    }
    Ok(FileLines { lines, is_sound })
}

// The status where all files are sound, and where not.
fn status_of(is_sound: bool) -> Status
    ensures { result ≡ shown_status is_sound }
{
    if is_sound { Status::Done } else { Status::No }
}
