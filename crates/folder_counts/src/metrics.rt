//! Samples in the text format of Prometheus, version 0.0.4.

ghost use Rattle.std.specs.Prelude.{◌≡◌, ◌++◌, IfOk, OnOk};
ghost use Rattle.std.specs.List.{flat_map};
ghost use Rattle.folder_counts.specs.Metrics.{
  buffer_family,
  buffer_figure,
  buffer_help,
  buffer_name,
  buffer_sample,
  head_lines,
  measured,
  only_sound,
  sample_line,
  seconds_at,
  sink_family,
  sink_figure,
  sink_help,
  sink_name,
  sink_sample,
};
ghost use Rattle.folder_counts.specs.Texts.{status_metrics};

use crate::buffers::{Buffer, Found};
use crate::counts::{ChunkCounts, SinkCounts};
use crate::folder::FolderCounts;
use crate::instant::Instant;
use crate::outputs::Output;
use crate::outputs_metrics::put_outputs;
use crate::pieces::{Piece, put_pieces};
use crate::sinks::Sink;
use std::alloc::{AllocError, Allocator};

// What is measured of a buffer.
#[derive(Clone, Copy)]
enum BufferMetric {
    Sound,
    Staged,
    Queued,
    Entries,
    Bytes,
    Torn,
    Next,
    Oldest,
}

// All of them, in the order of the samples.
const BUFFER_METRICS: [BufferMetric; 8] = [
    BufferMetric::Sound,
    BufferMetric::Staged,
    BufferMetric::Queued,
    BufferMetric::Entries,
    BufferMetric::Bytes,
    BufferMetric::Torn,
    BufferMetric::Next,
    BufferMetric::Oldest,
];

impl BufferMetric {
    // Its name.
    fn name(self) -> &'static str
        ensures { result.now ≡ buffer_name self }
    {
        match self {
            BufferMetric::Sound => "relaynet_buffer_sound",
            BufferMetric::Staged => "relaynet_buffer_staged_chunks",
            BufferMetric::Queued => "relaynet_buffer_queued_chunks",
            BufferMetric::Entries => "relaynet_buffer_entries",
            BufferMetric::Bytes => "relaynet_buffer_bytes",
            BufferMetric::Torn => "relaynet_buffer_torn_bytes",
            BufferMetric::Next => "relaynet_buffer_next_serial",
            BufferMetric::Oldest => "relaynet_buffer_oldest_event_timestamp_seconds",
        }
    }

    // What it is.
    fn help(self) -> &'static str
        ensures { result.now ≡ buffer_help self }
    {
        match self {
            BufferMetric::Sound => "Whether the journal that counts is read, and isn't damaged.",
            BufferMetric::Staged => "Chunks that still grow.",
            BufferMetric::Queued => "Chunks that wait for their delivery, or for its end.",
            BufferMetric::Entries => "Entries in all chunks.",
            BufferMetric::Bytes => "Bytes of the entries in all chunks.",
            BufferMetric::Torn => "Bytes behind the last whole record of the journal.",
            BufferMetric::Next => "Serial that the next chunk gets.",
            BufferMetric::Oldest =>
                "Time of the oldest event in all chunks, in seconds since the beginning of 1970.",
        }
    }

    // What its sample says where this is found; none where nothing is counted there.
    fn figure(self, found: Found) -> Option<Piece<'static>>
        ensures { result ≡ buffer_figure self found }
    {
        match found {
            Found::Chunks {
                chunks,
                torn,
                next,
                oldest,
            } => self.measured(chunks, torn, next, oldest),
            Found::Unsealed => self.only_sound(1),
            Found::Damaged => self.only_sound(0),
            Found::Unread => self.only_sound(0),
        }
    }

    // The same of a journal that is whole.
    fn measured(
        self,
        chunks: ChunkCounts,
        torn: u64,
        next: u64,
        oldest: Option<Instant>,
    ) -> Option<Piece<'static>>
        ensures { result ≡ measured self chunks torn next oldest }
    {
        match self {
            BufferMetric::Sound => Some(Piece::Number(1)),
            BufferMetric::Staged => Some(Piece::Number(chunks.staged)),
            BufferMetric::Queued => Some(Piece::Number(chunks.queued)),
            BufferMetric::Entries => Some(Piece::Number(chunks.entries)),
            BufferMetric::Bytes => Some(Piece::Number(chunks.bytes)),
            BufferMetric::Torn => Some(Piece::Number(torn)),
            BufferMetric::Next => Some(Piece::Number(next)),
            BufferMetric::Oldest => seconds_at(oldest),
        }
    }

    // The same of a journal that isn't whole: only whether it is sound is known.
    fn only_sound(self, number: u64) -> Option<Piece<'static>>
        ensures { result ≡ only_sound self number }
    {
        match self {
            BufferMetric::Sound => Some(Piece::Number(number)),
            BufferMetric::Staged
            | BufferMetric::Queued
            | BufferMetric::Entries
            | BufferMetric::Bytes
            | BufferMetric::Torn
            | BufferMetric::Next
            | BufferMetric::Oldest => None,
        }
    }
}

/// The seconds of an instant; none where there is none.
pub(crate) fn seconds_at(instant: Option<Instant>) -> Option<Piece<'static>>
    ensures { result ≡ seconds_at instant }
{
    match instant {
        Some(instant) => Some(Piece::Seconds(instant.nanos)),
        None => None,
    }
}

// What is measured of a sink.
#[derive(Clone, Copy)]
enum SinkMetric {
    Files,
    Events,
    Bytes,
    Torn,
    Damaged,
    Unread,
    Newest,
}

// All of them, in the order of the samples.
const SINK_METRICS: [SinkMetric; 7] = [
    SinkMetric::Files,
    SinkMetric::Events,
    SinkMetric::Bytes,
    SinkMetric::Torn,
    SinkMetric::Damaged,
    SinkMetric::Unread,
    SinkMetric::Newest,
];

impl SinkMetric {
    // Its name.
    fn name(self) -> &'static str
        ensures { result.now ≡ sink_name self }
    {
        match self {
            SinkMetric::Files => "relaynet_sink_files",
            SinkMetric::Events => "relaynet_sink_events",
            SinkMetric::Bytes => "relaynet_sink_bytes",
            SinkMetric::Torn => "relaynet_sink_torn_bytes",
            SinkMetric::Damaged => "relaynet_sink_damaged_files",
            SinkMetric::Unread => "relaynet_sink_unread_files",
            SinkMetric::Newest => "relaynet_sink_newest_event_timestamp_seconds",
        }
    }

    // What it is.
    fn help(self) -> &'static str
        ensures { result.now ≡ sink_help self }
    {
        match self {
            SinkMetric::Files => "Files of the sink.",
            SinkMetric::Events => "Events in all files of the sink.",
            SinkMetric::Bytes => "Bytes of the events in all files of the sink.",
            SinkMetric::Torn => "Bytes behind the last whole events of the files.",
            SinkMetric::Damaged =>
                "Files in which more bytes stand behind the events than any event has.",
            SinkMetric::Unread => "Files that aren't read to their ends.",
            SinkMetric::Newest =>
                "Time of the newest event in all files of the sink, in seconds since the beginning of 1970.",
        }
    }

    // What its sample says of these counts; none where there is nothing to say.
    fn figure(self, counts: SinkCounts) -> Option<Piece<'static>>
        ensures { result ≡ sink_figure self counts }
    {
        match self {
            SinkMetric::Files => Some(Piece::Number(counts.files)),
            SinkMetric::Events => Some(Piece::Number(counts.events)),
            SinkMetric::Bytes => Some(Piece::Number(counts.bytes)),
            SinkMetric::Torn => Some(Piece::Number(counts.torn)),
            SinkMetric::Damaged => Some(Piece::Number(counts.damaged)),
            SinkMetric::Unread => Some(Piece::Number(counts.unread)),
            SinkMetric::Newest => seconds_at(counts.newest_event),
        }
    }
}

/// The samples of these buffers, sinks and outputs, by metrics. The error is want of memory.
pub(crate) fn status_metrics<A: Allocator + Copy>(
    alloc: A,
    folder: &FolderCounts<'_, A>,
    outputs: &[Output<'_>],
) -> Result<Vec<u8, A>, AllocError>
    ensures { IfOk result (λ text. text.items ≡ status_metrics folder.now outputs.now) }
{
    let mut text = Vec::new(alloc);
    put_buffers(alloc, &mut text, &BUFFER_METRICS, folder.buffers())?;
    put_sinks(alloc, &mut text, &SINK_METRICS, folder.sinks())?;
    put_outputs(alloc, &mut text, outputs)?;
    Ok(text)
}

// Adds these metrics of these buffers.
fn put_buffers<A: Allocator + Copy>(
    alloc: A,
    text: &mut Vec<u8, A>,
    metrics: &[BufferMetric],
    buffers: &[Buffer<'_>],
) -> Result<(), AllocError>
    ensures { OnOk result (text.new.items
        ≡ text.old.items ++ flat_map (λ metric. buffer_family metric buffers.now) metrics.now) }
{
    for metric in metrics {
        put_buffer_family(alloc, text, *metric, buffers)?;
    }
    Ok(())
}

// Adds these metrics of these sinks.
fn put_sinks<A: Allocator + Copy>(
    alloc: A,
    text: &mut Vec<u8, A>,
    metrics: &[SinkMetric],
    sinks: &[Sink<'_>],
) -> Result<(), AllocError>
    ensures { OnOk result (text.new.items
        ≡ text.old.items ++ flat_map (λ metric. sink_family metric sinks.now) metrics.now) }
{
    for metric in metrics {
        put_sink_family(alloc, text, *metric, sinks)?;
    }
    Ok(())
}

// Adds a metric of these buffers.
fn put_buffer_family<A: Allocator + Copy>(
    alloc: A,
    text: &mut Vec<u8, A>,
    metric: BufferMetric,
    buffers: &[Buffer<'_>],
) -> Result<(), AllocError>
    ensures { OnOk result (text.new.items ≡ text.old.items ++ buffer_family metric buffers.now) }
{
    put_head(alloc, text, metric.name(), metric.help(), "gauge")?;
    put_buffer_samples(alloc, text, metric, buffers)
}

// Adds its samples.
fn put_buffer_samples<A: Allocator + Copy>(
    alloc: A,
    text: &mut Vec<u8, A>,
    metric: BufferMetric,
    buffers: &[Buffer<'_>],
) -> Result<(), AllocError>
    ensures { OnOk result (text.new.items
        ≡ text.old.items ++ flat_map (buffer_sample metric) buffers.now) }
{
    for buffer in buffers {
        put_buffer_sample(alloc, text, metric, buffer)?;
    }
    Ok(())
}

// Adds its sample of one buffer.
fn put_buffer_sample<A: Allocator + Copy>(
    alloc: A,
    text: &mut Vec<u8, A>,
    metric: BufferMetric,
    buffer: &Buffer<'_>,
) -> Result<(), AllocError>
    ensures { OnOk result (text.new.items ≡ text.old.items ++ buffer_sample metric buffer.now) }
{
    match metric.figure(buffer.found()) {
        Some(says) => {
            put_sample(
                alloc,
                text,
                metric.name(),
                b"{buffer=\"",
                buffer.path(),
                says,
            )
        }
        None => Ok(()),
    }
}

// Adds a metric of these sinks.
fn put_sink_family<A: Allocator + Copy>(
    alloc: A,
    text: &mut Vec<u8, A>,
    metric: SinkMetric,
    sinks: &[Sink<'_>],
) -> Result<(), AllocError>
    ensures { OnOk result (text.new.items ≡ text.old.items ++ sink_family metric sinks.now) }
{
    put_head(alloc, text, metric.name(), metric.help(), "gauge")?;
    put_sink_samples(alloc, text, metric, sinks)
}

// Adds its samples.
fn put_sink_samples<A: Allocator + Copy>(
    alloc: A,
    text: &mut Vec<u8, A>,
    metric: SinkMetric,
    sinks: &[Sink<'_>],
) -> Result<(), AllocError>
    ensures { OnOk result (text.new.items
        ≡ text.old.items ++ flat_map (sink_sample metric) sinks.now) }
{
    for sink in sinks {
        put_sink_sample(alloc, text, metric, sink)?;
    }
    Ok(())
}

// Adds its sample of one sink.
fn put_sink_sample<A: Allocator + Copy>(
    alloc: A,
    text: &mut Vec<u8, A>,
    metric: SinkMetric,
    sink: &Sink<'_>,
) -> Result<(), AllocError>
    ensures { OnOk result (text.new.items ≡ text.old.items ++ sink_sample metric sink.now) }
{
    match metric.figure(sink.counts()) {
        Some(says) => put_sample(alloc, text, metric.name(), b"{sink=\"", sink.path(), says),
        None => Ok(()),
    }
}

/// Adds the two lines in front of the samples of a metric: what it is, and its type.
pub(crate) fn put_head<'a, A: Allocator + Copy>(
    alloc: A,
    text: &mut Vec<u8, A>,
    name: &'a str,
    help: &'a str,
    kind: &'a str,
) -> Result<(), AllocError>
    ensures { OnOk result (text.new.items
        ≡ text.old.items ++ head_lines name.now help.now kind.now) }
{
    let name = name.as_bytes();
    put_pieces(
        alloc,
        text,
        &[
            Piece::Text(b"# HELP "),
            Piece::Text(name),
            Piece::Text(b" "),
            Piece::Text(help.as_bytes()),
            Piece::Text(b"\n# TYPE "),
            Piece::Text(name),
            Piece::Text(b" "),
            Piece::Text(kind.as_bytes()),
            Piece::Text(b"\n"),
        ],
    )
}

// Adds the line of a sample: the metric, a label, from its brace to the quote in front of its
// value, the value, and what the sample says.
fn put_sample<'a, A: Allocator + Copy>(
    alloc: A,
    text: &mut Vec<u8, A>,
    metric: &'a str,
    label: &'a [u8],
    value: &'a str,
    says: Piece<'a>,
) -> Result<(), AllocError>
    ensures { OnOk result (text.new.items
        ≡ text.old.items ++ sample_line metric.now label.now value.now says.entry) }
{
    put_pieces(
        alloc,
        text,
        &[
            Piece::Text(metric.as_bytes()),
            Piece::Text(label),
            Piece::Value(value.as_bytes()),
            Piece::Text(b"\"} "),
            says,
            Piece::Text(b"\n"),
        ],
    )
}
