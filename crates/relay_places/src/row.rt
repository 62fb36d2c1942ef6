//! What is said of one output.

ghost use Rattle.std.specs.Prelude.{◌≡◌, map, option_map, IfOk};
ghost use Rattle.relay_places.specs.Rows.{
  buffer_word,
  counted,
  counts_with,
  failing_in,
  first_row,
  kind_word,
  limit_of,
  tallies_in,
  total,
};

use crate::outputs::{line_of, settings_of};
use crate::places::Carriers;
use output_state::{OutputCounts, OutputState};
use relay_conf::{BufferKind, BufferSettings, Output};
use relay_notices::Tally;
use std::alloc::{AllocError, Allocator};
use std::marker::Model;

/// What is said of an output that has a buffer, and the places of its servers or its sink.
#[derive(Drop)]
pub(crate) struct Row<A: Allocator> {
    // The line of the configuration where it begins.
    line: u64,
    // The path of its buffer's files, or `*` where it is in memory.
    buffer: String<A>,
    counts: OutputCounts,
    carriers: Carriers,
}

impl<A: Allocator> Model for Row<A> {
    ghost use Rattle.std.specs.Prelude.{string_bytes};
    ghost use Rattle.relay_places.specs.Rows.{RowView};

    ghost Value = { RowView };

    ghost view = { λ r. record {
      state = record { line = r.line; buffer = string_bytes r.buffer; counts = r.counts };
      span = r.carriers;
    } };
}

impl<A: Allocator + Copy> Row<A> {
    /// The row of an output with these carriers, of which nothing was told. The error is want of
    /// memory.
    pub(crate) fn new(
        alloc: A,
        output: &Output<A>,
        carriers: Carriers,
    ) -> Result<Row<A>, AllocError>
        ensures { IfOk result (λ row. row ≡ first_row output.now carriers) }
    {
        let settings = settings_of(output);
        Ok(Row {
            line: line_of(output) as u64,
            buffer: String::from_str(alloc, buffer_word(settings))?,
            counts: OutputCounts {
                limit: limit_of(settings),
                failing: 0,
                failures: 0,
                delivered: 0,
                last: 0,
            },
            carriers,
        })
    }

    /// Counts the tallies of its carriers anew, in this second.
    pub(crate) fn count(&mut self, tallies: &[Tally], second: u64)
        ensures { self.new ≡ counted tallies.now second self.old }
    {
        let own = tallies_in(self.carriers, tallies);
        self.counts = counts_with(own, second, self.counts);
    }

    /// What is said of it.
    pub(crate) fn state(&self) -> OutputState<'_>
        ensures { result ≡ self.now.state }
    {
        OutputState::new(self.line, self.buffer.as_bytes(), self.counts)
    }
}

// The path of a buffer's files, or `*`.
fn buffer_word<A: Allocator>(settings: Option<&BufferSettings<A>>) -> &str
    ensures { result.now ≡ buffer_word (option_map (λ found. found.now) settings.entry) }
{
    match settings {
        Some(settings) => kind_word(&settings.kind),
        None => "*",
    }
}

fn kind_word<A: Allocator>(kind: &BufferKind<A>) -> &str
    ensures { result.now ≡ kind_word kind.now }
{
    match kind {
        BufferKind::File { path } => path.as_str(),
        BufferKind::Memory => "*",
    }
}

// How many bytes a buffer takes; 0 where there is none.
fn limit_of<A: Allocator>(settings: Option<&BufferSettings<A>>) -> u64
    ensures { result ≡ limit_of (option_map (λ found. found.now) settings.entry) }
{
    match settings {
        Some(settings) => settings.total_limit_size,
        None => 0,
    }
}

// The tallies of these places; of those past the end there are none.
fn tallies_in(span: Carriers, tallies: &[Tally]) -> &[Tally]
    ensures { result.now ≡ tallies_in span tallies.now }
{
    let end = span.end.min(tallies.len());
    let first = span.first.min(end);
    tallies.split_at(end).0.split_at(first).1
}

// The counts of an output whose carriers have these tallies.
fn counts_with(tallies: &[Tally], second: u64, before: OutputCounts) -> OutputCounts
    ensures { result ≡ counts_with tallies.now second before }
{
    let delivered = delivered_in(tallies);
    let last = if delivered == before.delivered {
        before.last
    } else {
        second
    };
    OutputCounts {
        limit: before.limit,
        failing: failing_in(tallies),
        failures: failures_in(tallies),
        delivered,
        last,
    }
}

// How many of these fail.
fn failing_in(tallies: &[Tally]) -> u64
    ensures { result ≡ failing_in tallies.now }
{
    let mut failing: u64 = 0;
    for tally in tallies {
        if tally.is_failing {
            failing += 1;
        }
    }
    failing
}

// How often they failed.
fn failures_in(tallies: &[Tally]) -> u64
    ensures { result ≡ total (map (λ tally. tally.failures) tallies.now) }
{
    let mut failures: u64 = 0;
    for tally in tallies {
        failures = failures.saturating_add(tally.failures);
    }
    failures
}

// How many chunks they took.
fn delivered_in(tallies: &[Tally]) -> u64
    ensures { result ≡ total (map (λ tally. tally.works) tallies.now) }
{
    let mut delivered: u64 = 0;
    for tally in tallies {
        delivered = delivered.saturating_add(tally.works);
    }
    delivered
}
