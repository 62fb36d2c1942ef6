//! The version of the programs.

ghost use Rattle.program_text.specs.Version.{version_line as version_line_of, PrintsVersion};
ghost use Rattle.std.specs.Prelude.{◌≡◌, string_bytes, IfOk};

use crate::output::put_last;
use crate::status::Status;
use std::alloc::{AllocError, Allocator};
use std::io::Write;

/// The version of all programs of this repository.
pub const VERSION: &str = "0.1.0";

/// Prints the name of a program and the version, as a line; where there is no memory for it, that
/// is said.
pub fn print_version<A: Allocator, W: Write>(alloc: A, name: &str, out: &mut W) -> Status
    ensures { PrintsVersion name.now VERSION.now (W.contents out.old) (W.contents out.new) result }
{
    match version_line(alloc, name) {
        Ok(line) => put_last(out, line.as_bytes(), Status::Done),
        Err(AllocError) => put_last(out, b"fault memory\n", Status::Usage),
    }
}

// The line.
fn version_line<A: Allocator>(alloc: A, name: &str) -> Result<String<A>, AllocError>
    ensures { IfOk result (λ line. string_bytes line ≡ version_line_of name.now VERSION.now) }
{
    let mut line = String::from_str(alloc, name)?;
    line.push_str(" ")?;
    line.push_str(VERSION)?;
    line.push_str("\n")?;
    Ok(line)
}
