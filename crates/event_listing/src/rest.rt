//! A file from a place on.

ghost use Rattle.std.specs.Prelude.{◌≡◌};

use folder_listing::ReadAt;
use std::io;
use std::io::ErrorKind;

/// What stands in a file from a place on, as a file of its own.
#[derive(Drop)]
pub(crate) struct FileRest<'a, R> {
    file: &'a R,
    at: u64,
}

impl<'a, R: ReadAt> FileRest<'a, R> {
    /// What stands in this file from this place on.
    pub(crate) fn new(file: &'a R, at: u64) -> FileRest<'a, R>
        ensures file { result.file.now ≡ file.now }
        ensures at { result.at ≡ at }
    {
        FileRest { file, at }
    }
}

impl<R: ReadAt> ReadAt for FileRest<'_, R> {
    ghost use Rattle.folder_listing.specs.Placed.{known_from};

    ghost bytes_of = { λ r. known_from (R.bytes_of r.file.now) r.at };

    fn read_at(&self, at: u64, piece: &mut [u8]) -> io::Result<usize> {
        match self.at.checked_add(at) {
            Some(place) => self.file.read_at(place, piece),
            None => Err(io::Error::from(ErrorKind::InvalidData)),
        }
    }
}
