//! A hex text is read by pieces, and each message in it is listed as soon as it is whole.

ghost use Rattle.std.specs.Prelude.{◌≡◌, ◌<◌, ◌≤◌, ◌+◌, ◌++◌, ℕ, List, [], length, None, MatchResult};
ghost use Rattle.std.specs.List.{flat_map};
ghost use Rattle.event_modes.specs.Stream.{Arrival, Splits};
ghost use Rattle.stream_listing.specs.Listing.{arrival_lines, PrintsListing};
ghost use Rattle.stream_listing.specs.Decoding.{IsHeld, StopsAt, Lists, IsLast, IsLastAtEnd, PrintsLast};

use crate::hex_text::{HexFault, HexText};
use crate::lines::put_message;
use event_modes::{Feed, FeedError, ModeFault, Next};
use program_text::{
    CountedRead, MOST_READS, OutputFault, PIECE, ReadFault, Status, put_all, put_last,
};
use std::alloc::{AllocError, Allocator};
use std::io;
use std::io::{ErrorKind, Write};

/// Lists the messages of a hex text: the lines of each as soon as it is whole.
///
/// The reader is called `MOST_READS` times at most. The status is `Done` at the end of the text,
/// `No` after a fault of the stream, and `Usage` after bad hex, and where memory ran out or the
/// reader or the writer failed.
pub fn run_decode<A: Allocator + Copy, R: CountedRead, W: Write>(
    alloc: A,
    input: &mut R,
    out: &mut W,
) -> Status
    ensures printed { PrintsListing (R.remaining input.old) (W.contents out.old)
        (W.contents out.new) result }
    ensures calls { R.calls input.new ≤ R.calls input.old + 16777216 }
{
    match Vec::from_elem(alloc, 0, PIECE) {
        Ok(mut piece) => decode_pieces(alloc, &mut piece, input, out),
        Err(AllocError) => end(alloc, Stop::Memory, out),
    }
}

// Why nothing more is read.
#[derive(Drop)]
enum Stop {
    // The text is no hex.
    Hex,
    // The bytes begin no message.
    Stream(ModeFault),
    Memory,
    // The reader failed.
    Read,
}

impl Stop {
    // Why nothing more is read where the reader failed so: it may at any place of the text.
    fn of_reader(error: &io::Error) -> Stop
        ensures { (left held : List ℕ) → StopsAt result left held }
    {
        match ReadFault::of(error) {
            ReadFault::Memory => Stop::Memory,
            ReadFault::Read => Stop::Read,
        }
    }
}

impl From<AllocError> for Stop {
    ghost use Rattle.stream_listing.specs.declared.decode.Stop.TheVariants.{Memory};

    ghost from_gives = { λ _ stop. stop ≡ Memory };

    fn from(_: AllocError) -> Stop {
        Stop::Memory
    }
}

// What is kept between two pieces of the text; the two buffers only save growing them anew.
#[derive(Drop)]
struct Decoder<A: Allocator> {
    alloc: A,
    hex: HexText,
    feed: Feed<A>,
    bytes: Vec<u8, A>,
    lines: Vec<u8, A>,
}

impl<A: Allocator + Copy> Decoder<A> {
    fn new(alloc: A) -> Decoder<A>
        ensures hex { result.hex ≡ [] }
        ensures held { result.feed.held ≡ [] }
        ensures fault { result.feed.fault ≡ None }
    {
        Decoder {
            alloc,
            hex: HexText::new(),
            feed: Feed::new(alloc),
            bytes: Vec::new(alloc),
            lines: Vec::new(alloc),
        }
    }

    // Collects the lines of what is whole with the next piece of the text.
    fn list(&mut self, piece: &[u8]) -> Result<(), Stop>
        requires { self.old.feed.fault ≡ None }
        ensures { Lists self.old.hex self.old.feed piece.now self.new.lines.items result
            self.new.hex self.new.feed }
    {
        self.lines.clear();
        self.bytes.clear();
        match self.hex.read(piece, &mut self.bytes) {
            Ok(()) => self.list_bytes(),
            Err(HexFault::Broken) => {
                self.list_bytes()?;
                Err(Stop::Hex)
            }
            Err(HexFault::Memory) => Err(Stop::Memory),
        }
    }

    // Adds the lines of what is whole with the bytes of the piece.
    fn list_bytes(&mut self) -> Result<(), Stop>
        requires { self.old.feed.fault ≡ None }
        ensures lines { (arrivals : List Arrival) × (held : List ℕ)
            × Splits (self.old.feed.held ++ self.old.bytes.items) arrivals held
            × (self.new.lines.items ≡ self.old.lines.items ++ flat_map arrival_lines arrivals)
            × MatchResult result (λ _. IsHeld [] held [] self.new.feed)
            (λ stop. StopsAt stop [] held) }
        ensures hex { self.new.hex ≡ self.old.hex }
    {
        match self.feed.feed(&self.bytes) {
            Ok(()) => list_arrivals(self.alloc, &mut self.feed, &mut self.lines),
            Err(FeedError::Memory) => Err(Stop::Memory),
            Err(FeedError::Fault(fault)) => Err(Stop::Stream(fault)),
        }
    }

    // Ends the text.
    fn finish<W: Write>(&self, out: &mut W) -> Status
        ensures { PrintsLast (IsLastAtEnd self.now.hex self.now.feed.held) (W.contents out.old)
            (W.contents out.new) result }
    {
        if !self.hex.is_whole() {
            return end(self.alloc, Stop::Hex, out);
        }
        let rest = self.feed.held_len();
        if rest == 0 {
            return Status::Done;
        }
        match format!(in self.alloc; "rest {rest}\n") {
            Ok(line) => put_last(out, line.as_bytes(), Status::Done),
            Err(AllocError) => end(self.alloc, Stop::Memory, out),
        }
    }
}

// Takes off what is whole, and adds the lines of it.
fn list_arrivals<A: Allocator + Copy>(
    alloc: A,
    feed: &mut Feed<A>,
    lines: &mut Vec<u8, A>,
) -> Result<(), Stop>
    ensures { (arrivals : List Arrival) × (held : List ℕ)
        × Splits feed.old.held arrivals held
        × (lines.new.items ≡ lines.old.items ++ flat_map arrival_lines arrivals)
        × MatchResult result (λ _. IsHeld [] held [] feed.new)
        (λ stop. StopsAt stop [] held) }
{
    loop {
        match feed.next()? {
            Next::Message(message) => put_message(alloc, lines, &message)?,
            Next::Heartbeat => lines.extend_from_slice(b"heartbeat\n")?,
            Next::Need => return Ok(()),
            Next::Bad(fault) => return Err(Stop::Stream(fault)),
        }
    }
}

// Writes the last line after a stop.
fn end<A: Allocator, W: Write>(alloc: A, stop: Stop, out: &mut W) -> Status
    ensures { PrintsLast (IsLast stop) (W.contents out.old) (W.contents out.new) result }
{
    match stop {
        Stop::Hex => put_last(out, b"fault hex\n", Status::Usage),
        Stop::Stream(fault) => match format!(in alloc; "fault {fault}\n") {
            Ok(line) => put_last(out, line.as_bytes(), Status::No),
            Err(AllocError) => put_last(out, b"fault memory\n", Status::Usage),
        },
        Stop::Memory => put_last(out, b"fault memory\n", Status::Usage),
        Stop::Read => put_last(out, b"fault read\n", Status::Usage),
    }
}

// Lists what comes in pieces.
fn decode_pieces<A: Allocator + Copy, R: CountedRead, W: Write>(
    alloc: A,
    piece: &mut [u8],
    input: &mut R,
    out: &mut W,
) -> Status
    requires { 0 < length piece.old }
    ensures printed { PrintsListing (R.remaining input.old) (W.contents out.old)
        (W.contents out.new) result }
    ensures calls { R.calls input.new ≤ R.calls input.old + 16777216 }
{
    let mut decoder = Decoder::new(alloc);
    for _ in 0..MOST_READS {
        match input.read(piece) {
            Ok(0) => return decoder.finish(out),
            Ok(n) => {
                let listed = decoder.list(&piece[..n]);
                if let Err(OutputFault) = put_all(out, &decoder.lines) {
                    return Status::Usage;
                }
                if let Err(stop) = listed {
                    return end(alloc, stop, out);
                }
            }
            Err(e) if e.kind() == ErrorKind::Interrupted => (),
            Err(e) => return end(alloc, Stop::of_reader(&e), out),
        }
    }
    end(alloc, Stop::Read, out)
}
