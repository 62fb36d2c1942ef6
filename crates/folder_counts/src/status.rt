//! The word `status`: what a data folder holds, counted and printed.

ghost use Rattle.std.specs.Prelude.{◌≡◌, map, option_map, IfOk};
ghost use Rattle.folder_listing.specs.Files.{named_of};
ghost use Rattle.folder_counts.specs.Outputs.{state_name, AreOutputs, AreOutputsOf};
ghost use Rattle.folder_counts.specs.Status.{text_of, IsSaid, IsTextOfSome, PrintsStatus};

use crate::folder::{FolderCounts, count_folder};
use crate::limits::{Limits, status_of};
use crate::lines::status_lines;
use crate::metrics::status_metrics;
use crate::object::status_object;
use crate::outputs::{Output, outputs_of, state_text};
use folder_listing::{DataFile, OpenPlaced};
use program_text::{Status, put_last};
use std::alloc::{AllocError, Allocator};
use std::io::Write;

/// In which form a folder's status is printed.
#[derive(Clone, Copy)]
pub enum Form {
    /// Lines of text.
    Lines,
    /// A JSON object (RFC 8259).
    Object,
    /// Samples in the text format 0.0.4 of Prometheus.
    Metrics,
}

/// Prints what these files hold, in this form: each buffer and each sink, in the order of their
/// names, what the relay's own file `relay.status` says of its outputs, what all buffers hold
/// together, and which are above a limit. Where that file isn't read, there are no outputs. The
/// status is `Usage` where
/// a journal that counts, or a file of a sink, is damaged or isn't read; else `No` where a buffer
/// is above a limit. It is `Usage` too where memory runs out, also for a number of 2^64 or more,
/// and where the writer fails.
pub fn run_status<A: Allocator + Copy, B: Allocator, O: OpenPlaced, W: Write>(
    alloc: A,
    listed: &[DataFile<B>],
    files: &O,
    limits: Limits,
    form: Form,
    out: &mut W,
) -> Status
    ensures { PrintsStatus (O.text_of files.now) (map named_of listed.now) limits form
        (W.contents out.old) (W.contents out.new) result }
{
    match say_status(alloc, listed, files, limits, form) {
        Ok(said) => put_last(out, &said.text, said.status),
        Err(AllocError) => put_last(out, b"fault memory\n", Status::Usage),
    }
}

// A text, and the status with which it is printed.
#[derive(Drop)]
struct Said<A: Allocator> {
    text: Vec<u8, A>,
    status: Status,
}

// What is printed of these files. The error is want of memory.
fn say_status<A: Allocator + Copy, B: Allocator, O: OpenPlaced>(
    alloc: A,
    listed: &[DataFile<B>],
    files: &O,
    limits: Limits,
    form: Form,
) -> Result<Said<A>, AllocError>
    ensures { IfOk result (λ said. IsSaid (O.text_of files.now) (map named_of listed.now) limits
        form said.text.items said.status) }
{
    let mut folder = count_folder(alloc, listed, files)?;
    folder.sort();
    let text = whole_text(alloc, files, limits, form, &folder)?;
    let status = status_of(limits, &folder);
    Ok(Said { text, status })
}

// The text of a folder, and of what its relay says of its outputs in a file there, in this form.
// The error is want of memory.
fn whole_text<A: Allocator + Copy, O: OpenPlaced>(
    alloc: A,
    files: &O,
    limits: Limits,
    form: Form,
    folder: &FolderCounts<'_, A>,
) -> Result<Vec<u8, A>, AllocError>
    ensures { IfOk result (λ text. IsTextOfSome (AreOutputs (O.text_of files.now state_name)) limits
        form folder.now text.items) }
{
    let state = state_text(alloc, files)?;
    text_beside(alloc, limits, form, folder, &state)
}

// The same, where this is what the file says.
fn text_beside<A: Allocator + Copy>(
    alloc: A,
    limits: Limits,
    form: Form,
    folder: &FolderCounts<'_, A>,
    state: &Option<Vec<u8, A>>,
) -> Result<Vec<u8, A>, AllocError>
    ensures { IfOk result
        (λ text. IsTextOfSome (AreOutputsOf (option_map (λ text. text.items) state.now)) limits
        form folder.now text.items) }
{
    let outputs = outputs_of(alloc, state)?;
    text_of(alloc, limits, form, folder, &outputs)
}

// The text of a folder and of its relay's outputs, in this form. The error is want of memory.
fn text_of<A: Allocator + Copy>(
    alloc: A,
    limits: Limits,
    form: Form,
    folder: &FolderCounts<'_, A>,
    outputs: &[Output<'_>],
) -> Result<Vec<u8, A>, AllocError>
    ensures { IfOk result (λ text. text.items ≡ text_of limits form folder.now outputs.now) }
{
    match form {
        Form::Lines => status_lines(alloc, limits, folder, outputs),
        Form::Object => status_object(alloc, limits, folder, outputs),
        Form::Metrics => status_metrics(alloc, folder, outputs),
    }
}
