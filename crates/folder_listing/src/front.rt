//! A file that is read from its front on.

ghost use Rattle.std.specs.Prelude.{◌≡◌};
ghost use Rattle.folder_listing.specs.Placed.{known_from};

use crate::placed::ReadAt;
use program_text::CountedRead;
use std::io;
use std::io::ErrorKind;

/// Reads a file from its front on.
#[derive(Drop)]
pub struct FrontReader<'a, R> {
    file: &'a R,
    // how many bytes were read
    at: u64,
}

impl<'a, R: ReadAt> FrontReader<'a, R> {
    /// At the front of this file.
    pub fn new(file: &'a R) -> FrontReader<'a, R>
        ensures file { result.file.now ≡ file.now }
        ensures at { result.at ≡ 0 }
    {
        FrontReader { file, at: 0 }
    }
}

impl<R: ReadAt> CountedRead for FrontReader<'_, R> {
    ghost use Rattle.folder_listing.specs.Placed.{known_from};

    ghost remaining = { λ r. known_from (R.bytes_of r.file.now) r.at };

    fn read(&mut self, piece: &mut [u8]) -> io::Result<usize> {
        match self.file.read_at(self.at, piece) {
            Ok(n) => match self.at.checked_add(n as u64) {
                Some(at) => {
                    self.at = at;
                    Ok(n)
                }
                None => Err(io::Error::from(ErrorKind::InvalidData)),
            },
            Err(e) => Err(e),
        }
    }
}
