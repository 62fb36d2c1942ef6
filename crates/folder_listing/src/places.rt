//! The bytes at places of a file, read one behind another.

ghost use Rattle.std.specs.Prelude.{◌≡◌, ◌∷◌, ◌<◌, List, [], length, MatchOption};
ghost use Rattle.chunk_journal.specs.declared.places.Extent.{Extent};
ghost use Rattle.folder_listing.specs.Placed.{SameLeft};

use crate::placed::ReadAt;
use chunk_journal::Extent;
use program_text::CountedRead;
use std::io;
use std::io::ErrorKind;

/// Reads the bytes at places of a file, one behind another.
#[derive(Drop)]
pub struct PlacesReader<'a, R> {
    file: &'a R,
    // those that aren't read to their ends
    places: &'a [Extent],
    // how many bytes of the first were read
    done: u64,
}

impl<'a, R: ReadAt> PlacesReader<'a, R> {
    /// In front of the bytes at these places.
    pub fn new(file: &'a R, places: &'a [Extent]) -> PlacesReader<'a, R>
        ensures file { result.file.now ≡ file.now }
        ensures places { result.places.now ≡ places.now }
        ensures done { result.done ≡ 0 }
    {
        PlacesReader {
            file,
            places,
            done: 0,
        }
    }

    // The place that is read on, of which something is left; none where nothing is left.
    fn here(&mut self) -> Option<Extent>
        ensures same { SameLeft (self.old.places.now) self.old.done
            (self.new.places.now) self.new.done }
        ensures file { self.new.file ≡ self.old.file }
        ensures place { MatchOption result (self.new.places.now ≡ [])
            (λ place. ((others : List Extent) × (self.new.places.now ≡ place ∷ others))
            × (self.new.done < place.length)) }
    {
        while let [place, others @ ..] = self.places {
            if self.done < place.length() {
                return Some(*place);
            }
            self.places = others;
            self.done = 0;
        }
        None
    }
}

impl<R: ReadAt> CountedRead for PlacesReader<'_, R> {
    ghost use Rattle.folder_listing.specs.Placed.{known_at};

    ghost remaining = { λ r. known_at (R.bytes_of r.file.now) r.places.now r.done };

    fn read(&mut self, piece: &mut [u8]) -> io::Result<usize> {
        let Some(place) = self.here() else {
            return Ok(0);
        };
        let left = place.length() - self.done;
        let room = piece.len().min(left as usize);
        let (front, _) = piece.split_at_mut(room);
        if front.is_empty() {
            return Ok(0);
        }
        match self.file.read_at(place.at() + self.done, front) {
            Ok(0) => Err(io::Error::from(ErrorKind::UnexpectedEof)),
            Ok(n) => {
                self.done += n as u64;
                Ok(n)
            }
            Err(e) => Err(e),
        }
    }
}
