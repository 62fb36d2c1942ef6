//! Bytes that spell events, as a sink's file, read in pieces.

ghost use Rattle.std.specs.Prelude.{◌≡◌, ◌<◌, ◌++◌, [], length};
ghost use Rattle.event_listing.specs.Forms.{form_of, Items};
ghost use Rattle.event_listing.specs.Reading.{is_ended, PrintsFile, PrintsPiece};

use crate::choice::Choice;
use crate::form::Form;
use crate::lines::print_held;
use crate::output::Output;
use crate::stop::Stop;
use event_modes::drop_front;
use program_text::{CountedRead, MOST_READS, PIECE};
use std::alloc::{AllocError, Allocator};
use std::io::{ErrorKind, Write};

/// The most bytes that the item of an event has: its first byte, its tag as a str, and its time and
/// record.
pub const LONGEST_ITEM: usize = 16_779_264;

/// Where the events of a file end.
#[derive(Clone, Copy)]
pub(crate) enum End {
    /// The file is read to its end: its events have so many bytes, and so many stand behind them.
    Ended { at: u64, behind: usize },
    /// The file is read no further: its events have so many bytes, and no event begins behind them,
    /// whatever follows.
    Damaged { at: u64 },
}

impl End {
    /// Whether the file is read to its end.
    pub(crate) fn is_sound(self) -> bool
        ensures { result ≡ is_ended self }
    {
        matches!(self, End::Ended { .. })
    }
}

/// Prints the chosen events that a sink's file holds, in their order. It holds a piece, the bytes
/// of one event, and the lines of those that end in the piece.
pub(crate) fn print_sink<A: Allocator + Copy, B: Allocator, R: CountedRead, W: Write>(
    alloc: A,
    choice: &Choice<B>,
    input: &mut R,
    out: &mut Output<W, A>,
) -> Result<End, Stop>
    ensures { PrintsFile Items choice.now (R.remaining input.old) out.old out.new result }
{
    match Vec::from_elem(alloc, 0, PIECE) {
        Ok(mut piece) => print_pieces(alloc, choice, Form::Items, &mut piece, input, out),
        Err(AllocError) => Err(Stop::Memory),
    }
}

/// Prints the chosen events that are spelled so in what the reader has left, by pieces of this
/// length. It holds the bytes of one event, and the lines of those that end in the piece.
pub(crate) fn print_pieces<A: Allocator + Copy, B: Allocator, R: CountedRead, W: Write>(
    alloc: A,
    choice: &Choice<B>,
    form: Form<'_>,
    piece: &mut [u8],
    input: &mut R,
    out: &mut Output<W, A>,
) -> Result<End, Stop>
    requires { 0 < length piece.old }
    ensures { PrintsFile (form_of form.entry) choice.now
        (R.remaining input.old) out.old out.new result }
{
    let mut held = Held::new(alloc);
    for _ in 0..MOST_READS {
        match input.read(piece) {
            Ok(0) => {
                return Ok(End::Ended {
                    at: held.at,
                    behind: held.bytes.len(),
                });
            }
            Ok(n) => {
                if let Err(stop) = held.print(choice, form, &piece[..n], out) {
                    return Err(stop);
                }
                if held.bytes.len() > LONGEST_ITEM {
                    return Ok(End::Damaged { at: held.at });
                }
            }
            Err(e) if e.kind() == ErrorKind::Interrupted => (),
            Err(e) => return Err(Stop::of_reader(&e)),
        }
    }
    Err(Stop::Read)
}

// What is held of a file between two pieces.
#[derive(Drop)]
struct Held<A: Allocator> {
    alloc: A,
    // How many bytes were taken off before.
    at: u64,
    // The bytes behind them, with which no event begins.
    bytes: Vec<u8, A>,
}

impl<A: Allocator + Copy> Held<A> {
    fn new(alloc: A) -> Held<A>
        ensures at { result.at ≡ 0 }
        ensures bytes { result.bytes.items ≡ [] }
    {
        Held {
            alloc,
            at: 0,
            bytes: Vec::new(alloc),
        }
    }

    // Prints the chosen events that are whole with the next piece, and takes all of these off. A
    // file has fewer than 2^64 bytes.
    fn print<B: Allocator, W: Write>(
        &mut self,
        choice: &Choice<B>,
        form: Form<'_>,
        piece: &[u8],
        out: &mut Output<W, A>,
    ) -> Result<(), Stop>
        ensures { PrintsPiece (form_of form.entry) choice.now
            (self.old.at, self.old.bytes.items ++ piece.now)
            (self.new.at, self.new.bytes.items) out.old out.new result }
    {
        if let Err(AllocError) = self.bytes.extend_from_slice(piece) {
            return Err(Stop::Memory);
        }
        let Ok(printed) = print_held(self.alloc, choice, form, &self.bytes) else {
            return Err(Stop::Memory);
        };
        if let Err(stop) = out.put(&printed.lines) {
            return Err(stop);
        }
        let Some(at) = self.at.checked_add(printed.used as u64) else {
            return Err(Stop::Read);
        };
        drop_front(&mut self.bytes, printed.used);
        self.at = at;
        Ok(())
    }
}
