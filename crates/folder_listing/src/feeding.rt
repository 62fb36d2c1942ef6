//! A file that is read in pieces.

ghost use Rattle.std.specs.Prelude.{◌≡◌, ◌≢◌, ◌<◌, ◌++◌, [], Err, IfOk, IfSome, OnOk, length};

use program_text::{CountedRead, MOST_READS, Open, PIECE, ReadFault};
use std::alloc::{AllocError, Allocator};
use std::io;
use std::io::ErrorKind;

/// Why a file isn't read to its end.
#[derive(Clone, Copy, PartialEq, Eq)]
pub enum FeedStop {
    /// It is damaged, whatever follows.
    Damaged,
    /// Its reader failed.
    Unread,
    /// Memory ran out.
    Memory,
}

impl From<AllocError> for FeedStop {
    ghost use Rattle.std.specs.Prelude.{◌≡◌};
    ghost use Rattle.folder_listing.specs.declared.feeding.FeedStop.TheVariants.{Memory};

    ghost from_gives = { λ _ stop. stop ≡ Memory };

    fn from(_: AllocError) -> FeedStop {
        FeedStop::Memory
    }
}

impl FeedStop {
    /// Why a file isn't read to its end whose reader failed so, or couldn't be had.
    pub fn of_reader(error: &io::Error) -> FeedStop
        ensures { result ≢ FeedStop.Damaged }
    {
        match ReadFault::of(error) {
            ReadFault::Memory => FeedStop::Memory,
            ReadFault::Read => FeedStop::Unread,
        }
    }
}

/// What takes the pieces of a file, one after another, and says in the end what is found in it.
pub trait Feed: Sized {
    ghost use Rattle.std.specs.Prelude.{List, ℕ};

    /// What is found in a file.
    type Finding;

    // these bytes were fed
    ghost is_after: { Self → List ℕ → Type 0 };

    // a file of these bytes is damaged
    ghost is_damaged: { List ℕ → Type 0 };

    // this is found in a file of these bytes
    ghost is_in: { List ℕ → Self.Finding → Type 0 };

    /// Takes the next piece. `Damaged` where what was fed is damaged, whatever follows.
    fn feed(&mut self, piece: &[u8]) -> Result<(), FeedStop>
        ensures fed { OnOk result
            ((seen : List ℕ) → is_after self.old seen → is_after self.new (seen ++ piece.now)) }
        ensures damaged { (seen more : List ℕ) → is_after self.old seen
            → result ≡ Err FeedStop.Damaged → is_damaged ((seen ++ piece.now) ++ more) };

    /// What is found in a file that was fed whole. The error is want of memory.
    fn finish(self) -> Result<Self::Finding, AllocError>
        ensures { (bytes : List ℕ) → is_after self bytes
            → IfOk result (λ found. is_in bytes found) };

    /// What is found in a file that is damaged.
    fn damaged() -> Self::Finding
        ensures { (bytes : List ℕ) → is_damaged bytes → is_in bytes result };

    /// What is found in a file that isn't read to its end.
    fn unread() -> Self::Finding
        ensures { (bytes : List ℕ) → is_in bytes result };
}

/// What is found in the file of this name. The error is want of memory.
pub fn found_in<A: Allocator, F: Feed + Drop, O: Open>(
    alloc: A,
    fed: F,
    name: &str,
    files: &O,
) -> Result<F::Finding, AllocError>
    requires { F.is_after fed [] }
    ensures { IfOk result (λ found. IfSome (O.text_of files.now name.now)
        (λ bytes. F.is_in bytes found)) }
{
    match files.open(name) {
        Ok(mut reader) => found_by(alloc, fed, &mut reader),
        Err(e) => match FeedStop::of_reader(&e) {
            FeedStop::Memory => Err(AllocError),
            _ => Ok(F::unread()),
        },
    }
}

/// What is found in the file that the reader has left. The error is want of memory.
pub fn found_by<A: Allocator, F: Feed + Drop, R: CountedRead>(
    alloc: A,
    fed: F,
    input: &mut R,
) -> Result<F::Finding, AllocError>
    requires { F.is_after fed [] }
    ensures { IfOk result (λ found. IfSome (R.remaining input.old) (λ bytes. F.is_in bytes found)) }
{
    let mut fed = fed;
    match feed_all(alloc, &mut fed, input) {
        Ok(()) => fed.finish(),
        Err(FeedStop::Damaged) => Ok(F::damaged()),
        Err(FeedStop::Unread) => Ok(F::unread()),
        Err(FeedStop::Memory) => Err(AllocError),
    }
}

// Feeds all that the reader has left, in pieces of 65,536 bytes.
fn feed_all<A: Allocator, F: Feed, R: CountedRead>(
    alloc: A,
    fed: &mut F,
    input: &mut R,
) -> Result<(), FeedStop>
    requires { F.is_after fed.old [] }
    ensures whole { OnOk result (IfSome (R.remaining input.old) (F.is_after fed.new)) }
    ensures damaged { result ≡ Err FeedStop.Damaged → IfSome (R.remaining input.old) F.is_damaged }
{
    let mut piece = Vec::from_elem(alloc, 0, PIECE)?;
    feed_pieces(&mut piece, fed, input)
}

// The same, in pieces of this length.
fn feed_pieces<F: Feed, R: CountedRead>(
    piece: &mut [u8],
    fed: &mut F,
    input: &mut R,
) -> Result<(), FeedStop>
    requires room { 0 < length piece.old }
    requires start { F.is_after fed.old [] }
    ensures whole { OnOk result (IfSome (R.remaining input.old) (F.is_after fed.new)) }
    ensures damaged { result ≡ Err FeedStop.Damaged → IfSome (R.remaining input.old) F.is_damaged }
{
    for _ in 0..MOST_READS {
        match input.read(piece) {
            Ok(0) => return Ok(()),
            Ok(n) => {
                if let Err(stop) = fed.feed(&piece[..n]) {
                    return Err(stop);
                }
            }
            Err(e) if e.kind() == ErrorKind::Interrupted => (),
            Err(e) => return Err(FeedStop::of_reader(&e)),
        }
    }
    Err(FeedStop::Unread)
}
