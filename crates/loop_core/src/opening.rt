//! Opening the buffers of a relay.

ghost use Rattle.std.specs.Prelude.{◌≡◌, All, map, option_map, string_bytes, IfOk};
ghost use Rattle.disk_files.specs.Disk.{reads};
ghost use Rattle.disk_files.specs.Moments.{now as now_of};
ghost use Rattle.journal_files.specs.Folders.{Opens};
ghost use Rattle.loop_core.specs.Schedules.{staged_at};
ghost use Rattle.loop_core.specs.Owners.{IsBufferOf, IsPlanned, IsScheduledBy, IsSetAs, limits_of, opened_as, renewed_past_of};
ghost use Rattle.loop_core.specs.Buffers.{AreBuffersOf, ArePlaced, ArePlanned, IsOpenIn};
ghost use Rattle.relay_ports.specs.Outputs.{settings_of};

use crate::folders::Folders;
use crate::job::DeliveryJob;
use crate::placed::PlacedDir;
use crate::shared::Share;
use crate::{LoopFault, Schedule};
use ack_receipt::Leaf;
use buffer_state::Limits;
use buffer_store::{Buffer, BufferFault, RENEWED_PAST_IN_FILES, RENEWED_PAST_IN_MEMORY, Settings};
use disk_files::Dir;
use relay_conf::{BufferKind, BufferSettings};
use relay_ports::{BufferedOutput, takes_of};
use std::alloc::Allocator;
use std::marker::Model;

/// The name under which a buffer in memory keeps its journal, in a folder of its own.
const MEMORY_NAME: &[u8] = b"memory";

/// An output whose buffer is open: what flush threads are given of it, and what the loop is given,
/// which is the same buffer with its staged chunks. Contracts see the output with its buffer, the
/// folder as the opening found it, and when the staged chunks are queued.
#[derive(Drop)]
pub struct OpenOutput<D: Dir + Drop, A: Allocator> {
    pub(crate) job: DeliveryJob<D, A>,
    pub(crate) share: Share<D, A>,
    pub(crate) schedule: Schedule<A>,
}

impl<D: Dir + Drop, A: Allocator> Model for OpenOutput<D, A> {
    ghost use Rattle.std.specs.Prelude.{◌≡◌};
    ghost use Rattle.relay_ports.specs.Outputs.{settings_of};
    ghost use Rattle.loop_core.specs.Owners.{IsOwned, IsScheduledBy, opened_as};
    ghost use Rattle.loop_core.specs.Buffers.{OpenState};

    ghost Value = { OpenState D A };

    ghost view = { λ o. record {
      owned = o.job;
      folder = o.share.opened.start;
      plan = o.schedule;
    } };

    ghost invariant = { λ o. IsOwned o.job × (o.share.terms ≡ o.job.terms)
        × (opened_as o.share.opened ≡ o.job.opened)
        × IsScheduledBy (settings_of o.job.output) o.schedule };
}

/// Makes the folders of the relay's buffers ready, and opens the buffers of these outputs, in their
/// order.
///
/// `Buffer` where the folders can't be made ready or a buffer can't be opened, `NoNumber` for a
/// buffer that has no number of 32 bits, and `Memory`: the buffers before it are closed then, and
/// keep what they have.
pub fn open_all<D: Dir + Drop, A: Allocator + Copy, F: Folders<D, A>>(
    alloc: A,
    number: u32,
    outputs: Vec<BufferedOutput<A>, A>,
    folders: &F,
    now: u64,
) -> Result<Vec<OpenOutput<D, A>, A>, LoopFault>
    ensures outputs { IfOk result (λ all. map (λ one. one.owned.output) all.items ≡ outputs.items) }
    ensures buffers { IfOk result
        (λ all. AreBuffersOf number outputs.items (map (λ one. one.owned.terms) all.items)) }
    ensures opened { IfOk result
        (λ all. All (IsOpenIn (F.is_for folders.now) D.is_honest D.history) all.items) }
    ensures placed { IfOk result
        (λ all. ArePlaced (F.place folders.now) (map (λ one. one.owned) all.items)) }
    ensures planned { IfOk result
        (λ all. ArePlanned now (map (λ one. one.owned) all.items)
        (map (λ one. one.plan) all.items)) }
{
    if !folders.make_ready() {
        return Err(LoopFault::Buffer(BufferFault::Fault));
    }
    let mut all = Vec::new(alloc);
    let mut rest = outputs.into_iter();
    while let Some(output) = rest.next() {
        let opened = open_one(alloc, number, output, folders, now)?;
        all.push(opened)?;
    }
    Ok(all)
}

// Opens the buffer of this output.
fn open_one<D: Dir + Drop, A: Allocator + Copy, F: Folders<D, A>>(
    alloc: A,
    number: u32,
    output: BufferedOutput<A>,
    folders: &F,
    now: u64,
) -> Result<OpenOutput<D, A>, LoopFault>
    ensures output { IfOk result (λ one. one.owned.output ≡ output) }
    ensures buffer { IfOk result (λ one. IsBufferOf number output one.owned.terms) }
    ensures opened { IfOk result (IsOpenIn (F.is_for folders.now) D.is_honest D.history) }
    ensures placed { IfOk result
        (λ one. one.owned.path ≡ F.place folders.now (settings_of output).kind) }
    ensures planned { IfOk result (λ one. IsPlanned now one.owned one.plan) }
{
    let Ok(place) = u32::try_from(output.number().0) else {
        return Err(LoopFault::NoNumber);
    };
    let leaf = Leaf {
        relay: number,
        buffer: place,
    };
    let takes = takes_of(alloc, &output)?;
    let OpenBuffer {
        buffer,
        schedule,
        path,
    } = open_buffer(alloc, output.buffer(), folders, now)?;
    let (share, theirs) = Share::two_of(alloc, buffer, leaf, takes)?;
    let job = DeliveryJob::new(number, output, theirs, path);
    Ok(OpenOutput {
        job,
        share,
        schedule,
    })
}

// A buffer that was opened, when its staged chunks are queued, and in which folder of the system it
// is.
#[derive(Drop)]
struct OpenBuffer<D: Dir + Drop, A: Allocator> {
    buffer: Buffer<D, A>,
    schedule: Schedule<A>,
    path: Option<String<A>>,
}

// Opens the buffer that has these settings; the chunks that are staged there are so since now.
fn open_buffer<D: Dir + Drop, A: Allocator + Copy, F: Folders<D, A>>(
    alloc: A,
    settings: &BufferSettings<A>,
    folders: &F,
    now: u64,
) -> Result<OpenBuffer<D, A>, LoopFault>
    ensures set { IfOk result (λ opened. IsSetAs settings.now (opened_as opened.buffer)) }
    ensures path { IfOk result
        (λ opened. option_map string_bytes opened.path ≡ F.place folders.now settings.now.kind) }
    ensures folder { IfOk result
        (λ opened. F.is_for folders.now settings.now.kind opened.buffer.start) }
    ensures chunks { IfOk result (λ opened. D.is_honest opened.buffer.start
        → Opens opened.buffer.journal.path
        (reads (now_of (D.history opened.buffer.start))) opened.buffer.chunks) }
    ensures queues { IfOk result (λ opened. IsScheduledBy settings.now opened.schedule) }
    ensures staged { IfOk result
        (λ opened. opened.schedule.chunks ≡ staged_at now opened.buffer.chunks) }
{
    let PlacedDir { dir, path } = folders.folder_of(&settings.kind)?;
    let name = match &settings.kind {
        BufferKind::Memory => MEMORY_NAME,
        BufferKind::File { path: name } => name.as_bytes(),
    };
    let buffer = match Buffer::open(alloc, dir, name, store_settings(settings)) {
        Ok(buffer) => buffer,
        Err((BufferFault::Memory, _)) => return Err(LoopFault::Memory),
        Err((fault, _)) => return Err(LoopFault::Buffer(fault)),
    };
    let (mode, interval) = (settings.flush_mode, settings.flush_interval);
    let schedule = Schedule::of_staged(alloc, mode, interval, &buffer.chunks(), now)?;
    Ok(OpenBuffer {
        buffer,
        schedule,
        path,
    })
}

// What the configuration says of a buffer, as the buffer takes it.
fn store_settings<A: Allocator>(settings: &BufferSettings<A>) -> Settings
    ensures limits { result.limits ≡ limits_of settings.now }
    ensures renewed_past { result.renewed_past ≡ renewed_past_of settings.now.kind }
{
    let limits = Limits {
        chunk: settings.chunk_limit_size,
        total: settings.total_limit_size,
    };
    let renewed_past = match &settings.kind {
        BufferKind::Memory => RENEWED_PAST_IN_MEMORY,
        BufferKind::File { path: _ } => RENEWED_PAST_IN_FILES,
    };
    Settings {
        limits,
        renewed_past,
    }
}
