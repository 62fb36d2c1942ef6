//! Bytes at places are put one behind another.

ghost use Rattle.std.specs.Prelude.{◌≡◌, ◌+◌, ◌≤◌, List, ℕ, length};
ghost use Rattle.std.specs.List.{AllByRecursion};
ghost use Rattle.chunk_journal.specs.Places.{bytes_at};
ghost use Rattle.file_pieces.specs.Pieces.{part_of, places_room};
ghost use Rattle.file_pieces.specs.Reading.{ReadsOn};
ghost use Rattle.file_pieces.specs.Runs.{LiesIn};

use chunk_journal::Extent;

/// Copies the bytes at places of a file, of which `part` begins at `at`, to behind the first so
/// many of `into`, and says where they end.
pub(crate) fn pack(part: &[u8], at: u64, places: &[Extent], done: usize, into: &mut [u8]) -> usize
    requires lie { AllByRecursion (LiesIn at (length part.now)) places.now }
    requires fits { done + places_room places.now ≤ length into.old }
    ensures end { result ≡ done + places_room places.now }
    ensures bytes { (seen : List ℕ) → part.now ≡ part_of seen at (length part.now)
        → ReadsOn done (places_room places.now) (bytes_at seen places.now) into.old into.new }
    ensures len { length into.new ≡ length into.old }
{
    let mut end = done;
    for place in places {
        let from = (place.at() - at) as usize;
        let count = place.length() as usize;
        put_part(part, from, count, end, into);
        end += count;
    }
    end
}

// Copies so many bytes from a place on to behind the first so many of `into`.
fn put_part(bytes: &[u8], from: usize, count: usize, done: usize, into: &mut [u8])
    requires there { from + count ≤ length bytes.now }
    requires fits { done + count ≤ length into.old }
    ensures bytes { ReadsOn done count (part_of bytes.now from count) into.old into.new }
    ensures len { length into.new ≡ length into.old }
{
    let (_, rest) = bytes.split_at(from);
    let (found, _) = rest.split_at(count);
    let (_, behind) = into.split_at_mut(done);
    let (part, _) = behind.split_at_mut(count);
    part.copy_from_slice(found);
}
