//! What a journal means.

ghost use Rattle.std.specs.Prelude.{◌≡◌, ◌≢◌, ◌≤◌, ◌+◌, false, IfOk, OnErr, IsTrue, ◌↔◌, Err};
ghost use Rattle.buffer_state.specs.State.{size, empty, IsAt};
ghost use Rattle.buffer_state.specs.Steps.{CanAppend, greatest_size};
ghost use Rattle.chunk_journal.specs.Records.{Record, Seal, Append, Queue, Purge};
ghost use Rattle.chunk_journal.specs.Meaning.{IsReplayed, EndsUnsealed, IsDamaged};
ghost use Rattle.chunk_journal.specs.Reading.{parsed_of};
ghost use Rattle.chunk_journal.specs.Journal.{IsTorn};
ghost use Rattle.chunk_journal.specs.Replaying.{Takes, Advanced, SoFar};
ghost use Rattle.chunk_journal.specs.Drafts.{place_of};
ghost use Rattle.chunk_journal.specs.declared.fault.ReplayError.TheVariants.{NotSealed, BadRecord};

use crate::fault::ReplayError;
use crate::reading::{Next, Parsed, next_record};
use buffer_state::{Chunks, GREATEST_SIZE, Stage};
use event_modes::Entries;
use std::alloc::{AllocError, Allocator};

/// What a journal means, and how far it reaches.
#[derive(Drop)]
pub struct Replayed<A: Allocator> {
    /// The live chunks and the next serial; the queue goes by rising serial.
    pub chunks: Chunks<A>,
    /// How many bytes the whole records have. What stands behind them is torn.
    pub used: usize,
}

// What was replayed so far.
#[derive(Drop)]
pub struct Draft<A: Allocator> {
    pub chunks: Chunks<A>,
    pub is_sealed: bool,
}

/// Replays a journal: the chunks that its generation begins with, its Seal, and the steps behind
/// it, up to the first place where no whole record stands.
///
/// `NotSealed` where the whole records end before a Seal, `BadRecord` where something whole is no
/// record or a record that can't stand there, and else only want of memory.
pub fn replay<A: Allocator + Copy>(alloc: A, bytes: &[u8]) -> Result<Replayed<A>, ReplayError>
    ensures ok { IfOk result (λ replayed. IsReplayed bytes.now replayed.chunks replayed.used) }
    ensures not_sealed { result ≡ Err NotSealed → EndsUnsealed bytes.now }
    ensures bad_record { result ≡ Err BadRecord → IsDamaged bytes.now }
{
    let mut draft = Draft {
        chunks: Chunks::new(alloc),
        is_sealed: false,
    };
    let rest = replay_on(alloc, &mut draft, bytes)?;
    let Draft {
        mut chunks,
        is_sealed,
    } = draft;
    if !is_sealed {
        return Err(ReplayError::NotSealed);
    }
    chunks.settle()?;
    Ok(Replayed {
        chunks,
        used: bytes.len() - rest.len(),
    })
}

// Replays the whole records from the beginning on, and gives the bytes behind them.
fn replay_on<'a, A: Allocator + Copy>(
    alloc: A,
    draft: &mut Draft<A>,
    bytes: &'a [u8],
) -> Result<&'a [u8], ReplayError>
    requires { place_of draft.old ≡ record { is_sealed = false; state = empty } }
    ensures so_far { IfOk result (λ rest. SoFar bytes.now (place_of draft.new) rest.now) }
    ensures torn { IfOk result (λ rest. IsTorn rest.now) }
    ensures not_sealed { result ≢ Err NotSealed }
    ensures bad_record { result ≡ Err BadRecord → IsDamaged bytes.now }
{
    let mut rest = bytes;
    while let Some(behind) = advance(alloc, draft, rest)? {
        rest = behind;
    }
    Ok(rest)
}

// Replays the next record, and gives the bytes behind it: none where no whole record stands there.
fn advance<'a, A: Allocator + Copy>(
    alloc: A,
    draft: &mut Draft<A>,
    rest: &'a [u8],
) -> Result<Option<&'a [u8]>, ReplayError>
    ensures { Advanced rest.now (place_of draft.old) (place_of draft.new) result }
{
    match next_record(alloc, rest)? {
        Next::Torn => Ok(None),
        Next::Bad => Err(ReplayError::BadRecord),
        Next::Whole(parsed, behind) => {
            if !take_record(draft, parsed)? {
                return Err(ReplayError::BadRecord);
            }
            Ok(Some(behind))
        }
    }
}

// Replays a record, unless it can't stand there.
fn take_record<A: Allocator + Copy>(
    draft: &mut Draft<A>,
    parsed: Parsed<'_, A>,
) -> Result<bool, AllocError>
    ensures { IfOk result
        (Takes (place_of draft.old) (parsed_of parsed.entry) (place_of draft.new)) }
{
    match parsed {
        Parsed::Seal { next } => Ok(take_seal(draft, next)),
        Parsed::Append {
            serial,
            tag,
            entries,
        } => take_append(draft, serial, tag, &entries),
        Parsed::Queue { serial } => take_queue(draft, serial),
        Parsed::Purge { serial } => Ok(take_purge(draft, serial)),
    }
}

// Ends the chunks that the generation begins with, unless one Seal was there, or the next serial
// falls.
pub fn take_seal<A: Allocator + Copy>(draft: &mut Draft<A>, next: u64) -> bool
    ensures { Takes (place_of draft.old) (Seal next) (place_of draft.new) result }
{
    if draft.is_sealed || next < draft.chunks.next() {
        return false;
    }
    draft.chunks.set_next(next);
    draft.is_sealed = true;
    true
}

// Appends the entries, unless the serial is out of order or the chunk doesn't take them.
pub fn take_append<A: Allocator + Copy>(
    draft: &mut Draft<A>,
    serial: u64,
    tag: &[u8],
    entries: &Entries<A>,
) -> Result<bool, AllocError>
    ensures ok { IfOk result
        (Takes (place_of draft.old) (Append serial tag.now entries.now) (place_of draft.new)) }
    ensures err { OnErr result (draft.new ≡ draft.old) }
{
    let next = draft.chunks.next();
    if draft.is_sealed && serial > next {
        return Ok(false);
    }
    if !draft.is_sealed && serial < next {
        return Ok(false);
    }
    if !can_append(&draft.chunks, serial, tag, entries) {
        return Ok(false);
    }
    draft.chunks.append(serial, tag, entries)?;
    Ok(true)
}

// Queues the chunk, unless it isn't staged or, before the Seal, isn't the last one told.
pub fn take_queue<A: Allocator + Copy>(
    draft: &mut Draft<A>,
    serial: u64,
) -> Result<bool, AllocError>
    ensures ok { IfOk result (Takes (place_of draft.old) (Queue serial) (place_of draft.new)) }
    ensures err { OnErr result (draft.new ≡ draft.old) }
{
    if !is_at(&draft.chunks, serial, Stage::Staged) {
        return Ok(false);
    }
    if !draft.is_sealed && !is_before(serial, draft.chunks.next()) {
        return Ok(false);
    }
    draft.chunks.queue(serial)?;
    Ok(true)
}

// Removes the chunk, unless there was no Seal or it isn't queued.
pub fn take_purge<A: Allocator + Copy>(draft: &mut Draft<A>, serial: u64) -> bool
    ensures { Takes (place_of draft.old) (Purge serial) (place_of draft.new) result }
{
    if !draft.is_sealed || !is_at(&draft.chunks, serial, Stage::Queued) {
        return false;
    }
    draft.chunks.remove(serial);
    true
}

// Whether the next serial is the one behind this.
fn is_before(serial: u64, next: u64) -> bool
    ensures { IsTrue result ↔ (serial + 1 ≡ next) }
{
    serial < next && next - serial == 1
}

// Whether the chunk of this serial is live, and in this stage.
fn is_at<A: Allocator + Copy>(chunks: &Chunks<A>, serial: u64, stage: Stage) -> bool
    ensures { IsTrue result ↔ IsAt stage chunks.now serial }
{
    match chunks.chunk(serial) {
        None => false,
        Some(chunk) => chunk.stage() == stage,
    }
}

// Whether the chunk of this serial takes these entries.
fn can_append<A: Allocator + Copy>(
    chunks: &Chunks<A>,
    serial: u64,
    tag: &[u8],
    entries: &Entries<A>,
) -> bool
    ensures { IsTrue result ↔ CanAppend chunks.now serial tag.now entries.now }
{
    let is_new = chunks.next() <= serial && serial < u64::MAX;
    let size = entries.as_bytes().len();
    match chunks.chunk(serial) {
        None => is_new && size <= GREATEST_SIZE,
        Some(chunk) => {
            let is_place = is_new || (chunk.stage() == Stage::Staged && chunk.tag() == tag);
            is_place && size <= GREATEST_SIZE - chunk.size()
        }
    }
}
