//! What holds of every journal.

ghost use Rattle.chunk_journal.specs.Laws.{BeginsOneWay, ReadsOneWay, CutsWhole, NeverUnreads, EndsWithin, CutsBefore, CutsBehind, AnswersOneWay, MeansItsChunks, PlacesFollow, LeadsInOrder, TellsInOrder, EndsWithEntries};

use msgpack_bytes::prefix_free;

/// No record's bytes are a proper beginning of another's, and what was written is read back,
/// whatever follows it.
pub fn begins_one_way()
    ensures { BeginsOneWay }
{
    // Called for its law alone.
    prefix_free();
}

/// There is one way to read bytes as a journal.
pub fn reads_one_way()
    ensures { ReadsOneWay }
{
    // Called for its law alone.
    prefix_free();
}

/// A beginning of a journal is the journal of the records that end within it: of a longer one no
/// fewer, of all of it all.
pub fn cuts_whole()
    ensures cuts { CutsWhole }
    ensures never_unreads { NeverUnreads }
    ensures all { EndsWithin }
{}

/// Some of the first records of a generation are before its Seal, or are the generation with some
/// of its steps.
pub fn cuts_generation()
    ensures before { CutsBefore }
    ensures behind { CutsBehind }
{}

/// A journal has one answer.
pub fn answers_one_way()
    ensures { AnswersOneWay }
{
    // Called for its law alone.
    prefix_free();
}

/// A generation that only begins means the chunks that it tells.
pub fn means_its_chunks()
    ensures { MeansItsChunks }
{}

/// The places of entries follow the records of a journal.
pub fn places_follow()
    ensures { PlacesFollow }
{}

/// The serials of live chunks rise, before a Seal and behind it.
pub fn leads_in_order()
    ensures before { TellsInOrder }
    ensures behind { LeadsInOrder }
{}

/// A record's entries are the end of its bytes.
pub fn ends_with_entries()
    ensures { EndsWithEntries }
{}
