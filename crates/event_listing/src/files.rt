//! The files of sinks and journals, one after another.

ghost use Rattle.std.specs.Prelude.{◌≡◌, map};
ghost use Rattle.folder_listing.specs.Files.{named_of};
ghost use Rattle.folder_listing.specs.declared.kind.Kind.TheVariants.{Journal, Sink};
ghost use Rattle.event_listing.specs.Files.{status_of, PrintsEvents, PrintsNamed};
ghost use Rattle.event_listing.specs.Forms.{Items};
ghost use Rattle.event_listing.specs.Live.{PrintsJournal};
ghost use Rattle.event_listing.specs.Reading.{PrintsFile};

use crate::choice::Choice;
use crate::journal::{JournalEnd, print_journal};
use crate::notes::{note_end, note_journal, note_stop, note_unread};
use crate::output::Output;
use crate::sink::{End, print_sink};
use crate::stop::Stop;
use folder_listing::{DataFile, Kind, OpenPlaced};
use program_text::{Open, Status};
use std::alloc::Allocator;
use std::io::Write;

/// Prints the chosen events of these files, in the files' order: a line of JSON for each, of which
/// the output may leave out those that repeat others. Of a sink's file come those that it holds, in
/// its own order; of a journal those that it holds live, which a relay still has to deliver that
/// opens it: its chunks by rising serial, and the events of each in their order.
///
/// On `notes` stands how many bytes are behind the events or the records of a file, where there are
/// some: a write under way, or one that a stop cut; and of a journal that it is unsealed, which has
/// no events. A sink's file is damaged where more stands there than any event has, and read no
/// further; a journal where something stands that no buffer writes, and none of its events is
/// printed. The status is `No` where a file is damaged or isn't read to its end; the others are
/// printed all the same. It is `Usage` where memory ran out or the writer failed: nothing more is
/// printed then.
///
/// A file is read in pieces of 65,536 bytes, a journal twice. Of one file at a time are held: a
/// piece, the bytes of one event or record (at most 16,779,264), and the lines of the events that
/// end in the piece; of a journal besides what its live chunks are and where their entries lie.
pub fn run_events<
    A: Allocator + Copy,
    B: Allocator,
    C: Allocator,
    O: OpenPlaced,
    W: Write,
    V: Write,
>(
    alloc: A,
    choice: &Choice<B>,
    listed: &[DataFile<C>],
    files: &O,
    out: &mut Output<W, A>,
    notes: &mut V,
) -> Status
    ensures { PrintsEvents (O.text_of files.now) choice.now (map named_of listed.now)
        (out.old, out.new) (V.contents notes.old, V.contents notes.new) result }
{
    let mut is_sound = true;
    for file in listed {
        let name = file.name.as_str();
        match print_named(alloc, choice, file.kind, name, files, out, notes) {
            Ok(one) => is_sound = is_sound && one,
            Err(stop) => return note_stop(stop, notes),
        }
    }
    status_of(is_sound)
}

// The status where all files are sound, and where not.
fn status_of(is_sound: bool) -> Status
    ensures { result ≡ status_of is_sound }
{
    if is_sound { Status::Done } else { Status::No }
}

// Prints the chosen events of the file of this kind and name, and says what stands behind them. It
// answers whether the file is read to its end.
fn print_named<A: Allocator + Copy, B: Allocator, O: OpenPlaced, W: Write, V: Write>(
    alloc: A,
    choice: &Choice<B>,
    kind: Kind,
    name: &str,
    files: &O,
    out: &mut Output<W, A>,
    notes: &mut V,
) -> Result<bool, Stop>
    ensures { PrintsNamed kind (O.text_of files.now name.now) choice.now name.now
        (out.old, out.new) (V.contents notes.old, V.contents notes.new) result }
{
    match kind {
        Kind::Sink => print_sinks_file(alloc, choice, name, files, out, notes),
        Kind::Journal => print_journals_file(alloc, choice, name, files, out, notes),
    }
}

// The same of the file of a sink.
fn print_sinks_file<A: Allocator + Copy, B: Allocator, O: Open, W: Write, V: Write>(
    alloc: A,
    choice: &Choice<B>,
    name: &str,
    files: &O,
    out: &mut Output<W, A>,
    notes: &mut V,
) -> Result<bool, Stop>
    ensures { PrintsNamed Sink (O.text_of files.now name.now) choice.now name.now
        (out.old, out.new) (V.contents notes.old, V.contents notes.new) result }
{
    match print_file(alloc, choice, name, files, out) {
        Ok(end) => {
            note_end(alloc, name, end, notes);
            Ok(end.is_sound())
        }
        Err(Stop::Read) => {
            note_unread(alloc, name, notes);
            Ok(false)
        }
        Err(stop) => Err(stop),
    }
}

// The same of a journal.
fn print_journals_file<A: Allocator + Copy, B: Allocator, O: OpenPlaced, W: Write, V: Write>(
    alloc: A,
    choice: &Choice<B>,
    name: &str,
    files: &O,
    out: &mut Output<W, A>,
    notes: &mut V,
) -> Result<bool, Stop>
    ensures { PrintsNamed Journal (O.text_of files.now name.now) choice.now name.now
        (out.old, out.new) (V.contents notes.old, V.contents notes.new) result }
{
    match open_journal(alloc, choice, name, files, out) {
        Ok(end) => {
            note_journal(alloc, name, end, notes);
            Ok(end.is_sound())
        }
        Err(Stop::Read) => {
            note_unread(alloc, name, notes);
            Ok(false)
        }
        Err(stop) => Err(stop),
    }
}

// Prints the chosen events of the sink's file of this name.
fn print_file<A: Allocator + Copy, B: Allocator, O: Open, W: Write>(
    alloc: A,
    choice: &Choice<B>,
    name: &str,
    files: &O,
    out: &mut Output<W, A>,
) -> Result<End, Stop>
    ensures { PrintsFile Items choice.now (O.text_of files.now name.now) out.old out.new result }
{
    match files.open(name) {
        Ok(mut reader) => print_sink(alloc, choice, &mut reader, out),
        Err(e) => Err(Stop::of_reader(&e)),
    }
}

// Prints the chosen events that the journal of this name holds live.
fn open_journal<A: Allocator + Copy, B: Allocator, O: OpenPlaced, W: Write>(
    alloc: A,
    choice: &Choice<B>,
    name: &str,
    files: &O,
    out: &mut Output<W, A>,
) -> Result<JournalEnd, Stop>
    ensures { PrintsJournal choice.now (O.text_of files.now name.now) out.old out.new result }
{
    match files.open_placed(name) {
        Ok(file) => print_journal(alloc, choice, &file, out),
        Err(e) => Err(Stop::of_reader(&e)),
    }
}
