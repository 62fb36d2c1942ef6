//! Entries are added to a chunk, or a chunk is queued or let go, in memory and in the journal: all
//! memory is asked for first.

ghost use Rattle.std.specs.Prelude.{◌≡◌, ◌≤◌, true, false, None, length, Err, IfOk, OnOk, OnErr};
ghost use Rattle.event_modes.specs.Message.{longest_tag};
ghost use Rattle.buffer_state.specs.State.{IsAt, chunk_at};
ghost use Rattle.buffer_state.specs.Steps.{CanAppend, appended, queued_last, removed};
ghost use Rattle.buffer_state.specs.declared.chunk.Stage.TheVariants.{Staged};
ghost use Rattle.chunk_journal.specs.Records.{Append, Queue, Purge};
ghost use Rattle.buffer_store.specs.Logs.{Writes};
ghost use Rattle.buffer_store.specs.declared.fault.BufferFault.{BufferFault};

use crate::fault::BufferFault;
use crate::log::Log;
use buffer_state::{Chunks, Ready};
use chunk_journal::Record;
use disk_files::Dir;
use event_modes::Entries;
use std::alloc::Allocator;
use std::mem;

/// Appends entries to the staged chunk of this serial, which has this tag, or as a new chunk where
/// it comes next.
pub(crate) fn add_entries<D: Dir, A: Allocator + Copy>(
    chunks: &mut Chunks<A>,
    log: &mut Log<D, A>,
    serial: u64,
    tag: &[u8],
    entries: &Entries<A>,
    synced: bool,
) -> Result<(), BufferFault>
    requires going { log.old.failed ≡ false }
    requires can { CanAppend chunks.old serial tag.now entries.now }
    requires near { serial ≤ chunks.old.next }
    requires free { chunk_at chunks.old chunks.old.next ≡ None }
    requires tag { length tag.now ≤ longest_tag }
    ensures ok { OnOk result (chunks.new ≡ appended serial tag.now entries.now chunks.old) }
    ensures err { OnErr result (chunks.new ≡ chunks.old) }
    ensures wrote { Writes D.is_honest D.history D.fault_count log.old log.new
        (Append serial tag.now entries.now) synced result }
{
    if serial == chunks.next() {
        add_chunk(chunks, log, serial, tag, entries, synced)
    } else {
        grow_chunk(chunks, log, serial, tag, entries, synced)
    }
}

// Appends entries as a new chunk of this serial, which comes next.
fn add_chunk<D: Dir, A: Allocator + Copy>(
    chunks: &mut Chunks<A>,
    log: &mut Log<D, A>,
    serial: u64,
    tag: &[u8],
    entries: &Entries<A>,
    synced: bool,
) -> Result<(), BufferFault>
    requires going { log.old.failed ≡ false }
    requires can { CanAppend chunks.old serial tag.now entries.now }
    requires next { serial ≡ chunks.old.next }
    requires free { chunk_at chunks.old serial ≡ None }
    requires tag { length tag.now ≤ longest_tag }
    ensures ok { OnOk result (chunks.new ≡ appended serial tag.now entries.now chunks.old) }
    ensures err { OnErr result (chunks.new ≡ chunks.old) }
    ensures wrote { Writes D.is_honest D.history D.fault_count log.old log.new
        (Append serial tag.now entries.now) synced result }
{
    chunks.append(serial, tag, entries)?;
    let item = Record::Append {
        serial,
        tag,
        entries,
    };
    let told = log.write(&item, synced);
    if told.is_err() {
        chunks.take_back(serial);
    }
    told
}

// Appends entries to the staged chunk of this serial, which has this tag.
fn grow_chunk<D: Dir, A: Allocator + Copy>(
    chunks: &mut Chunks<A>,
    log: &mut Log<D, A>,
    serial: u64,
    tag: &[u8],
    entries: &Entries<A>,
    synced: bool,
) -> Result<(), BufferFault>
    requires going { log.old.failed ≡ false }
    requires can { CanAppend chunks.old serial tag.now entries.now }
    requires staged { IsAt Staged chunks.old serial }
    requires tag { length tag.now ≤ longest_tag }
    ensures ok { OnOk result (chunks.new ≡ appended serial tag.now entries.now chunks.old) }
    ensures err { OnErr result (chunks.new ≡ chunks.old) }
    ensures wrote { Writes D.is_honest D.history D.fault_count log.old log.new
        (Append serial tag.now entries.now) synced result }
{
    let item = Record::Append {
        serial,
        tag,
        entries,
    };
    log.write(&item, synced)?;
    chunks.grow(serial, entries);
    Ok(())
}

/// Queues the staged chunk of this serial.
pub(crate) fn queue_chunk<D: Dir, A: Allocator + Copy>(
    alloc: A,
    chunks: &mut Chunks<A>,
    log: &mut Log<D, A>,
    serial: u64,
) -> Result<(), BufferFault>
    requires going { log.old.failed ≡ false }
    requires staged { IsAt Staged chunks.old serial }
    ensures ok { OnOk result (chunks.new ≡ queued_last serial chunks.old) }
    ensures err { OnErr result (chunks.new ≡ chunks.old) }
    ensures wrote { Writes D.is_honest D.history D.fault_count log.old log.new
        (Queue serial) true result }
{
    let item: Record<'_, A> = Record::Queue { serial };
    let ready = make_ready(alloc, chunks, serial)?;
    let told = log.write(&item, true);
    if told.is_err() {
        *chunks = ready.leave();
        return told;
    }
    *chunks = ready.queue();
    told
}

/// Lets the queued or claimed chunk of this serial go. The journal isn't synced.
pub(crate) fn remove_chunk<D: Dir, A: Allocator + Copy>(
    chunks: &mut Chunks<A>,
    log: &mut Log<D, A>,
    serial: u64,
) -> Result<(), BufferFault>
    requires going { log.old.failed ≡ false }
    ensures ok { OnOk result (chunks.new ≡ removed serial chunks.old) }
    ensures err { OnErr result (chunks.new ≡ chunks.old) }
    ensures wrote { Writes D.is_honest D.history D.fault_count log.old log.new
        (Purge serial) false result }
{
    let item: Record<'_, A> = Record::Purge { serial };
    log.write(&item, false)?;
    chunks.remove(serial);
    Ok(())
}

// Takes the chunks out, with the room to queue a staged chunk. They are to be put back.
fn make_ready<A: Allocator + Copy>(
    alloc: A,
    chunks: &mut Chunks<A>,
    serial: u64,
) -> Result<Ready<A>, BufferFault>
    requires { IsAt Staged chunks.old serial }
    ensures ok { IfOk result (λ ready. (ready.state ≡ chunks.old) × (ready.serial ≡ serial)) }
    ensures err { OnErr result (chunks.new ≡ chunks.old) }
    ensures only { OnErr result (result ≡ Err BufferFault.Memory) }
{
    let taken = mem::replace(chunks, Chunks::new(alloc));
    match taken.ready(serial) {
        Ok(ready) => Ok(ready),
        Err(back) => {
            *chunks = back;
            Err(BufferFault::Memory)
        }
    }
}
