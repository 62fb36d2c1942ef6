//! Readers whose calls are counted.

ghost use Rattle.std.specs.Prelude.{◌≤◌, ◌+◌, ℕ, List, Option, None};
ghost use Rattle.std.specs.Io.{ReadsAtMost};
ghost use Rattle.std.specs.Io.KnownBytes.{ReadConsumes};

use std::io;
use std::io::{Read, Stdin};

/// A reader of which clauses can say how often it is called. So whatever the reader is, also one
/// that never ends, they say how often at most.
pub trait CountedRead {
    // the bytes that calls will give from here on, where they are known
    ghost remaining: { Self → Option (List ℕ) } = { λ _. None };

    // how often it was called, where it counts that
    ghost calls: { Self → ℕ } = { λ _. 0 };

    /// Reads into the front of the piece, and gives how many bytes it read: none at the end, and
    /// where the piece has no room.
    fn read(&mut self, piece: &mut [u8]) -> io::Result<usize>
        ensures bound { ReadsAtMost result piece.new }
        ensures bytes { ReadConsumes (remaining self.old) (remaining self.new) result piece.new }
        ensures counted { calls self.new ≤ calls self.old + 1 };
}

impl CountedRead for Stdin {
    fn read(&mut self, piece: &mut [u8]) -> io::Result<usize> {
        Read::read(self, piece)
    }
}

impl CountedRead for &[u8] {
    ghost use Rattle.std.specs.Prelude.{Some};

    ghost remaining = { λ bytes. Some bytes.now };

    fn read(&mut self, piece: &mut [u8]) -> io::Result<usize> {
        Read::read(self, piece)
    }
}
