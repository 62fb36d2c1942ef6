//! Files whose bytes are read from any place on.

ghost use Rattle.std.specs.Prelude.{◌≡◌, IfOk, IfSome};
ghost use Rattle.std.specs.Io.{ReadsAtMost};
ghost use Rattle.folder_listing.specs.Placed.{Gives};

use program_text::Open;
use std::io;

/// A file whose bytes are read from any place on.
pub trait ReadAt {
    ghost use Rattle.std.specs.Prelude.{List, ℕ, Option, None};

    // its bytes, where they are known
    ghost bytes_of: { Self → Option (List ℕ) } = { λ _. None };

    /// Reads into the front of the piece what stands in the file from this byte on, and gives how
    /// many bytes it read: none at the file's end or behind it, and where the piece has no room.
    fn read_at(&self, at: u64, piece: &mut [u8]) -> io::Result<usize>
        ensures bound { ReadsAtMost result piece.new }
        ensures bytes { IfOk result
            (λ n. IfSome (bytes_of self.now) (λ bytes. Gives bytes at n piece.new)) };
}

/// Opens files by their names, to be read from any place on.
pub trait OpenPlaced: Open {
    /// What reads a file.
    type Placed: ReadAt + Drop;

    /// The file of this name. An error says that it can't be read.
    fn open_placed(&self, name: &str) -> io::Result<Self::Placed>
        ensures { IfOk result
            (λ file. Self.Placed.bytes_of file ≡ Self.text_of self.now name.now) };
}

impl ReadAt for &[u8] {
    ghost use Rattle.std.specs.Prelude.{Some};

    ghost bytes_of = { λ bytes. Some bytes.now };

    fn read_at(&self, at: u64, piece: &mut [u8]) -> io::Result<usize> {
        let rest = self.split_at(self.len().min(at as usize)).1;
        let n = rest.len().min(piece.len());
        piece.split_at_mut(n).0.copy_from_slice(rest.split_at(n).0);
        Ok(n)
    }
}
