//! Samples of outputs in the text format of Prometheus, version 0.0.4.

ghost use Rattle.std.specs.Prelude.{◌≡◌, ◌++◌, OnOk};
ghost use Rattle.std.specs.List.{flat_map};
ghost use Rattle.folder_counts.specs.Outputs.{
  output_family,
  output_figure,
  output_help,
  output_name,
  output_sample,
  output_type,
  with_samples,
};

use crate::metrics::{put_head, seconds_at};
use crate::outputs::Output;
use crate::pieces::{Piece, put_pieces};
use std::alloc::{AllocError, Allocator};

// What is measured of an output.
#[derive(Clone, Copy)]
enum OutputMetric {
    Limit,
    Failing,
    Failures,
    Delivered,
    Last,
}

// All of them, in the order of the samples.
const OUTPUT_METRICS: [OutputMetric; 5] = [
    OutputMetric::Limit,
    OutputMetric::Failing,
    OutputMetric::Failures,
    OutputMetric::Delivered,
    OutputMetric::Last,
];

impl OutputMetric {
    // Its name.
    fn name(self) -> &'static str
        ensures { result.now ≡ output_name self }
    {
        match self {
            OutputMetric::Limit => "relaynet_output_limit_bytes",
            OutputMetric::Failing => "relaynet_output_failing",
            OutputMetric::Failures => "relaynet_output_failures_total",
            OutputMetric::Delivered => "relaynet_output_delivered_chunks_total",
            OutputMetric::Last => "relaynet_output_last_delivery_timestamp_seconds",
        }
    }

    // What it is.
    fn help(self) -> &'static str
        ensures { result.now ≡ output_help self }
    {
        match self {
            OutputMetric::Limit => "Bytes that the buffer takes.",
            OutputMetric::Failing =>
                "Servers of the output that failed when last tried; of a sink 0 or 1.",
            OutputMetric::Failures =>
                "How often a delivery failed, or a server couldn't be reached, since the relay started.",
            OutputMetric::Delivered => "Chunks that were delivered since the relay started.",
            OutputMetric::Last =>
                "Time of the last delivery since the relay started, in seconds since the beginning of 1970.",
        }
    }

    // Its type: of what begins anew with the relay, a counter.
    fn kind(self) -> &'static str
        ensures { result.now ≡ output_type self }
    {
        match self {
            OutputMetric::Limit | OutputMetric::Failing | OutputMetric::Last => "gauge",
            OutputMetric::Failures | OutputMetric::Delivered => "counter",
        }
    }

    // What its sample says of an output; none where there is nothing to say.
    fn figure(self, output: &Output<'_>) -> Option<Piece<'static>>
        ensures { result ≡ output_figure self output.now }
    {
        let counts = output.counts();
        match self {
            OutputMetric::Limit => Some(Piece::Number(counts.limit)),
            OutputMetric::Failing => Some(Piece::Number(counts.failing)),
            OutputMetric::Failures => Some(Piece::Number(counts.failures)),
            OutputMetric::Delivered => Some(Piece::Number(counts.delivered)),
            OutputMetric::Last => seconds_at(output.last()),
        }
    }
}

/// Adds the metrics of these outputs; nothing where there are none. The error is want of memory.
pub(crate) fn put_outputs<A: Allocator + Copy>(
    alloc: A,
    text: &mut Vec<u8, A>,
    outputs: &[Output<'_>],
) -> Result<(), AllocError>
    ensures { OnOk result (text.new.items ≡ with_samples text.old.items outputs.now) }
{
    if outputs.is_empty() {
        return Ok(());
    }
    put_families(alloc, text, &OUTPUT_METRICS, outputs)
}

// Adds these metrics of these outputs.
fn put_families<A: Allocator + Copy>(
    alloc: A,
    text: &mut Vec<u8, A>,
    metrics: &[OutputMetric],
    outputs: &[Output<'_>],
) -> Result<(), AllocError>
    ensures { OnOk result (text.new.items
        ≡ text.old.items ++ flat_map (λ metric. output_family metric outputs.now) metrics.now) }
{
    for metric in metrics {
        put_family(alloc, text, *metric, outputs)?;
    }
    Ok(())
}

// Adds a metric of these outputs.
fn put_family<A: Allocator + Copy>(
    alloc: A,
    text: &mut Vec<u8, A>,
    metric: OutputMetric,
    outputs: &[Output<'_>],
) -> Result<(), AllocError>
    ensures { OnOk result (text.new.items ≡ text.old.items ++ output_family metric outputs.now) }
{
    put_head(alloc, text, metric.name(), metric.help(), metric.kind())?;
    put_samples(alloc, text, metric, outputs)
}

// Adds its samples.
fn put_samples<A: Allocator + Copy>(
    alloc: A,
    text: &mut Vec<u8, A>,
    metric: OutputMetric,
    outputs: &[Output<'_>],
) -> Result<(), AllocError>
    ensures { OnOk result (text.new.items
        ≡ text.old.items ++ flat_map (output_sample metric) outputs.now) }
{
    for output in outputs {
        put_output_sample(alloc, text, metric, output)?;
    }
    Ok(())
}

// Adds its sample of one output.
fn put_output_sample<A: Allocator + Copy>(
    alloc: A,
    text: &mut Vec<u8, A>,
    metric: OutputMetric,
    output: &Output<'_>,
) -> Result<(), AllocError>
    ensures { OnOk result (text.new.items ≡ text.old.items ++ output_sample metric output.now) }
{
    let Some(says) = metric.figure(output) else {
        return Ok(());
    };
    let path = output.path().unwrap_or("");
    put_pieces(
        alloc,
        text,
        &[
            Piece::Text(metric.name().as_bytes()),
            Piece::Text(b"{line=\""),
            Piece::Number(output.line()),
            Piece::Text(b"\",buffer=\""),
            Piece::Value(path.as_bytes()),
            Piece::Text(b"\"} "),
            says,
            Piece::Text(b"\n"),
        ],
    )
}
