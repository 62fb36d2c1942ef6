//! What a generation begins with: pieces that tell its chunks, whose entries another file has, and
//! where they lie then.

ghost use Rattle.std.specs.Prelude.{◌≡◌, ◌+◌, ◌<◌, ◌≤◌, ◌^◌, ◌++◌, ℕ, List, length, OnOk, IfOk};
ghost use Rattle.std.specs.List.{AllByRecursion, concat, flat_map};
ghost use Rattle.event_modes.specs.Message.{longest_tag};
ghost use Rattle.buffer_state.specs.State.{size};
ghost use Rattle.buffer_state.specs.Steps.{greatest_size};
ghost use Rattle.chunk_journal.specs.Records.{Seal, Append, Queue, append_head, record_bytes, IsRecord};
ghost use Rattle.chunk_journal.specs.Journal.{journal_bytes};
ghost use Rattle.chunk_journal.specs.Meaning.{chunk_records, AreTold};
ghost use Rattle.chunk_journal.specs.Places.{ArePlaced, AddsPlace, IsWithin, LieAt, bytes_at, extent_before, places_at};
ghost use Rattle.file_pieces.specs.Pieces.{AreWithin, pieces_bytes};
ghost use Rattle.journal_files.specs.JournalLogs.{new_generation, records_of, state_of};
ghost use Rattle.journal_files.specs.Views.{HasShortTags};

use crate::placing::last_extent;
use buffer_state::{Chunk, Chunks, Stage};
use chunk_journal::{
    Extent, Places, Record, leads_in_order, places_follow, put_append_head, put_record,
};
use file_pieces::Piece;
use std::alloc::{AllocError, Allocator};

/// What a generation begins with: the pieces that tell its chunks, how many bytes these have, and
/// where in them the chunks' entries lie; and the Seal.
#[derive(Drop)]
pub(crate) struct Told<'a, A: Allocator> {
    pub(crate) pieces: Vec<Piece<'a, A>, A>,
    pub(crate) len: u64,
    pub(crate) places: Places<A>,
    pub(crate) seal: Vec<u8, A>,
}

// A chunk is told by so many pieces at most: its Append and its Queue.
const MOST_PIECES: usize = 2;

/// The records that tell these chunks, by rising serial, and the Seal behind them. The entries lie
/// at these places of another file.
pub(crate) fn tell_chunks<'a, A: Allocator + Copy>(
    alloc: A,
    chunks: &Chunks<A>,
    from: &'a Places<A>,
) -> Result<Told<'a, A>, AllocError>
    requires { HasShortTags chunks.now }
    ensures bytes { IfOk result
        (λ told. (seen : List ℕ) → length seen < 2 ^ 64 → ArePlaced seen from.now chunks.now
        → pieces_bytes seen told.pieces.items
        ≡ journal_bytes (flat_map chunk_records chunks.now.chunks)) }
    ensures within { IfOk result
        (λ told. (seen : List ℕ) → length seen < 2 ^ 64 → ArePlaced seen from.now chunks.now
        → AreWithin seen told.pieces.items) }
    ensures len { IfOk result
        (λ told. told.len ≡ length (journal_bytes (flat_map chunk_records chunks.now.chunks))) }
    // The places hold good behind the Seal too.
    ensures places { IfOk result
        (λ told. ArePlaced (journal_bytes (records_of (new_generation chunks.now))) told.places
        (state_of (new_generation chunks.now))) }
    ensures records { OnOk result
        (AllByRecursion IsRecord (flat_map chunk_records chunks.now.chunks)) }
    ensures told { AreTold 0 chunks.now.chunks chunks.now.next }
    ensures seal { IfOk result (λ told. told.seal.items ≡ record_bytes (Seal chunks.now.next)) }
    ensures next { IsRecord (Seal chunks.now.next) }
{
    // Called for their laws alone.
    places_follow();
    leads_in_order();
    let live = chunks.live();
    let seal = spell_seal(alloc, chunks.next())?;
    let mut pieces = Vec::with_capacity(alloc, live.len().saturating_mul(MOST_PIECES))?;
    let mut len = 0;
    let mut places = Places::new(alloc);
    for (serial, chunk) in live {
        len = tell_chunk(alloc, &mut pieces, &mut places, len, *serial, chunk, from)?;
    }
    Ok(Told {
        pieces,
        len,
        places,
        seal,
    })
}

// Adds what tells a chunk behind so many bytes, and the place of its entries, and says how many
// bytes there are then.
fn tell_chunk<'a, A: Allocator + Copy>(
    alloc: A,
    pieces: &mut Vec<Piece<'a, A>, A>,
    places: &mut Places<A>,
    len: u64,
    serial: u64,
    chunk: &Chunk<A>,
    from: &'a Places<A>,
) -> Result<u64, AllocError>
    requires tag { length chunk.now.chunk.tag ≤ longest_tag }
    requires small { size chunk.now.chunk.entries ≤ greatest_size }
    ensures bytes { OnOk result
        ((seen : List ℕ) → LieAt seen (places_at from.now serial) (concat chunk.now.chunk.entries)
        → pieces_bytes seen pieces.new.items
        ≡ pieces_bytes seen pieces.old.items ++ journal_bytes
        (chunk_records (serial, chunk.now.chunk))) }
    ensures within { OnOk result
        ((seen : List ℕ) → length seen < 2 ^ 64
        → LieAt seen (places_at from.now serial) (concat chunk.now.chunk.entries)
        → AreWithin seen pieces.old.items → AreWithin seen pieces.new.items) }
    ensures len { IfOk result
        (λ end. end ≡ len + length (journal_bytes (chunk_records (serial, chunk.now.chunk)))) }
    ensures places { OnOk result (AddsPlace serial
        (extent_before (len + length
        (record_bytes (Append serial chunk.now.chunk.tag chunk.now.chunk.entries)))
        (size chunk.now.chunk.entries))
        places.old places.new) }
    ensures records { OnOk result
        (AllByRecursion IsRecord (chunk_records (serial, chunk.now.chunk))) }
{
    let end = tell_entries(alloc, pieces, places, len, serial, chunk, from)?;
    match chunk.stage() {
        Stage::Staged => Ok(end),
        Stage::Queued | Stage::Claimed => tell_queue(alloc, pieces, end, serial),
    }
}

// Adds the Append of a chunk's entries, and their place.
fn tell_entries<'a, A: Allocator + Copy>(
    alloc: A,
    pieces: &mut Vec<Piece<'a, A>, A>,
    places: &mut Places<A>,
    len: u64,
    serial: u64,
    chunk: &Chunk<A>,
    from: &'a Places<A>,
) -> Result<u64, AllocError>
    requires tag { length chunk.now.chunk.tag ≤ longest_tag }
    requires small { size chunk.now.chunk.entries ≤ greatest_size }
    ensures bytes { OnOk result
        ((seen : List ℕ) → LieAt seen (places_at from.now serial) (concat chunk.now.chunk.entries)
        → pieces_bytes seen pieces.new.items
        ≡ pieces_bytes seen pieces.old.items ++ record_bytes
        (Append serial chunk.now.chunk.tag chunk.now.chunk.entries)) }
    ensures within { OnOk result
        ((seen : List ℕ) → length seen < 2 ^ 64
        → LieAt seen (places_at from.now serial) (concat chunk.now.chunk.entries)
        → AreWithin seen pieces.old.items → AreWithin seen pieces.new.items) }
    ensures len { IfOk result
        (λ end. end ≡ len + length
        (record_bytes (Append serial chunk.now.chunk.tag chunk.now.chunk.entries))) }
    ensures places { OnOk result (AddsPlace serial
        (extent_before (len + length
        (record_bytes (Append serial chunk.now.chunk.tag chunk.now.chunk.entries)))
        (size chunk.now.chunk.entries))
        places.old places.new) }
    ensures record { IsRecord (Append serial chunk.now.chunk.tag chunk.now.chunk.entries) }
{
    // Called for its law alone.
    chunk.stays_stored();
    let front = spell_front(alloc, serial, chunk.tag(), chunk.count(), chunk.size())?;
    let end = behind(len, front.len() + chunk.size())?;
    let extent = last_extent(end, chunk.size())?;
    put_piece(pieces, front, from.at(serial))?;
    places.append(serial, extent)?;
    Ok(end)
}

// Adds the Queue of a chunk.
fn tell_queue<A: Allocator + Copy>(
    alloc: A,
    pieces: &mut Vec<Piece<'_, A>, A>,
    len: u64,
    serial: u64,
) -> Result<u64, AllocError>
    ensures bytes { OnOk result
        ((seen : List ℕ) → pieces_bytes seen pieces.new.items
        ≡ pieces_bytes seen pieces.old.items ++ record_bytes (Queue serial)) }
    ensures within { OnOk result
        ((seen : List ℕ) → length seen < 2 ^ 64 → AreWithin seen pieces.old.items
        → AreWithin seen pieces.new.items) }
    ensures len { IfOk result (λ end. end ≡ len + length (record_bytes (Queue serial))) }
    ensures record { IsRecord (Queue serial) }
{
    let mut bytes = Vec::new(alloc);
    put_record::<A, A>(&mut bytes, &Record::Queue { serial })?;
    let end = behind(len, bytes.len())?;
    put_piece(pieces, bytes, &[])?;
    Ok(end)
}

// The end of so many bytes behind so many others, if it is a number of 64 bits.
fn behind(len: u64, more: usize) -> Result<u64, AllocError>
    ensures { IfOk result (λ end. end ≡ len + more) }
{
    match len.checked_add(more as u64) {
        Some(end) => Ok(end),
        None => Err(AllocError),
    }
}

// What an Append has before its entries, which are so many and have so many bytes.
fn spell_front<A: Allocator>(
    alloc: A,
    serial: u64,
    tag: &[u8],
    count: usize,
    size: usize,
) -> Result<Vec<u8, A>, AllocError>
    requires tag { length tag.now ≤ longest_tag }
    requires small { size ≤ greatest_size }
    requires count { count ≤ size }
    ensures { IfOk result (λ front. front.items ≡ append_head serial tag.now count size) }
{
    let mut front = Vec::new(alloc);
    put_append_head(&mut front, serial, tag, count, size)?;
    Ok(front)
}

// Adds bytes that are told, and behind them what another file has at these places.
fn put_piece<'a, A: Allocator>(
    pieces: &mut Vec<Piece<'a, A>, A>,
    told: Vec<u8, A>,
    places: &'a [Extent],
) -> Result<(), AllocError>
    ensures bytes { OnOk result
        ((seen : List ℕ) → pieces_bytes seen pieces.new.items
        ≡ pieces_bytes seen pieces.old.items ++ (told.items ++ bytes_at seen places.now)) }
    ensures within { OnOk result
        ((seen : List ℕ) → length seen < 2 ^ 64 → AllByRecursion (IsWithin (length seen)) places.now
        → AreWithin seen pieces.old.items → AreWithin seen pieces.new.items) }
{
    pieces.push(Piece { told, places })?;
    Ok(())
}

// The Seal of this serial.
fn spell_seal<A: Allocator>(alloc: A, next: u64) -> Result<Vec<u8, A>, AllocError>
    ensures bytes { IfOk result (λ bytes. bytes.items ≡ record_bytes (Seal next)) }
    ensures record { IsRecord (Seal next) }
{
    let mut bytes = Vec::new(alloc);
    put_record::<A, A>(&mut bytes, &Record::Seal { next })?;
    Ok(bytes)
}
