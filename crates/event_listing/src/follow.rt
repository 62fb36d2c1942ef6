//! Sinks' files that grow, printed in passes.

ghost use Rattle.std.specs.Prelude.{◌≡◌, OnErr, string_bytes};
ghost use Rattle.folder_listing.specs.Placed.{known_from};
ghost use Rattle.event_listing.specs.Forms.{Items};
ghost use Rattle.event_listing.specs.Passes.{DoPassesJoin, EndsPass, PrintsPass, ended_at};
ghost use Rattle.event_listing.specs.Reading.{PrintsFile};

use crate::choice::Choice;
use crate::notes::{note_end, note_stop, note_unread};
use crate::output::Output;
use crate::rest::FileRest;
use crate::sink::{End, print_sink};
use crate::stop::Stop;
use folder_listing::{FrontReader, OpenPlaced};
use program_text::Status;
use std::alloc::Allocator;
use std::io::Write;
use std::marker::Model;

/// Whether a sink's file may still grow.
#[derive(Clone, Copy, PartialEq, Eq)]
pub enum Growth {
    /// It may: what stands behind its last whole event may be one that is being written.
    Open,
    /// It doesn't, since the sink has a later file.
    Ended,
}

/// A sink's file that is printed in passes. Contracts see its name, and the place up to which it
/// was printed.
#[derive(Drop)]
pub struct FollowedFile<A: Allocator> {
    name: String<A>,
    at: u64,
}

impl<A: Allocator> Model for FollowedFile<A> {
    ghost use Rattle.std.specs.Prelude.{string_bytes};
    ghost use Rattle.event_listing.specs.Passes.{Followed};

    ghost Value = { Followed };

    ghost view = { λ f. record { name = string_bytes f.name; at = f.at } };
}

impl<A: Allocator> FollowedFile<A> {
    /// The file of this name, of which nothing was printed yet.
    pub fn new(name: String<A>) -> FollowedFile<A>
        ensures { result ≡ record { name = string_bytes name; at = 0 } }
    {
        FollowedFile { name, at: 0 }
    }
}

impl<A: Allocator + Copy> FollowedFile<A> {
    /// Prints the chosen events that stand behind those that were printed before, up to the last
    /// whole one: the next pass goes on there. Of a file that has ended it says on `notes` how many
    /// bytes stand behind that place, if any do.
    ///
    /// The error is `No` where the file is damaged or isn't read to its end, and `Usage` where
    /// memory ran out or the writer failed; what it is stands on `notes`, and events in front may
    /// have been printed. The next pass goes on from where this one did.
    pub fn pass<B: Allocator, O: OpenPlaced, W: Write, V: Write>(
        &mut self,
        alloc: A,
        choice: &Choice<B>,
        growth: Growth,
        files: &O,
        out: &mut Output<W, A>,
        notes: &mut V,
    ) -> Result<(), Status>
        ensures printed { PrintsPass (O.text_of files.now self.old.name) choice.now self.old.name
            self.old.at growth (out.old, out.new) (V.contents notes.old, V.contents notes.new)
            (ended_at self.new.at result) }
        ensures name { self.new.name ≡ self.old.name }
        ensures refused { OnErr result (self.new ≡ self.old) }
    {
        self.at = print_pass(
            alloc,
            choice,
            self.name.as_str(),
            self.at,
            growth,
            files,
            out,
            notes,
        )?;
        Ok(())
    }
}

// A pass over the file of this name from this place on. It gives the place where it ended, behind
// the last whole event.
fn print_pass<A: Allocator + Copy, B: Allocator, O: OpenPlaced, W: Write, V: Write>(
    alloc: A,
    choice: &Choice<B>,
    name: &str,
    at: u64,
    growth: Growth,
    files: &O,
    out: &mut Output<W, A>,
    notes: &mut V,
) -> Result<u64, Status>
    ensures { PrintsPass (O.text_of files.now name.now) choice.now name.now at growth
        (out.old, out.new) (V.contents notes.old, V.contents notes.new) result }
{
    match print_rest(alloc, choice, name, at, files, out) {
        Ok(end) => end_pass(alloc, name, at, growth, end, notes),
        Err(Stop::Read) => {
            note_unread(alloc, name, notes);
            Err(Status::No)
        }
        Err(stop) => Err(note_stop(stop, notes)),
    }
}

// Prints the chosen events that stand in the sink's file of this name from this place on.
fn print_rest<A: Allocator + Copy, B: Allocator, O: OpenPlaced, W: Write>(
    alloc: A,
    choice: &Choice<B>,
    name: &str,
    at: u64,
    files: &O,
    out: &mut Output<W, A>,
) -> Result<End, Stop>
    ensures { PrintsFile Items choice.now
        (known_from (O.text_of files.now name.now) at) out.old out.new result }
{
    match files.open_placed(name) {
        Ok(file) => {
            let rest = FileRest::new(&file, at);
            print_sink(alloc, choice, &mut FrontReader::new(&rest), out)
        }
        Err(e) => Err(Stop::of_reader(&e)),
    }
}

// Ends a pass over the file of this name from this place on, behind which events end so.
fn end_pass<A: Allocator, V: Write>(
    alloc: A,
    name: &str,
    at: u64,
    growth: Growth,
    end: End,
    notes: &mut V,
) -> Result<u64, Status>
    ensures { EndsPass name.now at growth end (V.contents notes.old, V.contents notes.new) result }
{
    match end {
        End::Ended { at: used, behind } => match at.checked_add(used) {
            Some(next) => {
                if growth == Growth::Ended {
                    note_end(alloc, name, End::Ended { at: next, behind }, notes);
                }
                Ok(next)
            }
            None => {
                note_unread(alloc, name, notes);
                Err(Status::No)
            }
        },
        End::Damaged { at: used } => {
            let at = at.saturating_add(used);
            note_end(alloc, name, End::Damaged { at }, notes);
            Err(Status::No)
        }
    }
}

/// Passes over a file, each from where the one before it ended, print together what one pass prints
/// over the file as it is in the end: no event is passed over, and none comes twice.
pub fn passes_join()
    ensures { DoPassesJoin }
{}
