//! Texts that are opened by their names.

ghost use Rattle.std.specs.Prelude.{◌≡◌, IfOk};

use crate::counted::CountedRead;
use std::io;

/// Opens the configurations that a plan names.
pub trait Open {
    ghost use Rattle.std.specs.Prelude.{List, ℕ, Option};

    // what the text of each name is, where that is known
    ghost text_of: { Self → List ℕ → Option (List ℕ) };

    /// What reads a text.
    type Reader: CountedRead + Drop;

    /// A reader of the text of this name, from its beginning. An error says that it can't be read.
    fn open(&self, name: &str) -> io::Result<Self::Reader>
        ensures { IfOk result
            (λ reader. Self.Reader.remaining reader ≡ text_of self.now name.now) };
}
