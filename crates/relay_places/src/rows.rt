//! What is said of the outputs of a relay.

ghost use Rattle.std.specs.Prelude.{◌≡◌, map, length, IfOk};
ghost use Rattle.relay_places.specs.Outputs.{outputs_of};
ghost use Rattle.relay_places.specs.Places.{ArePlacesOf};
ghost use Rattle.relay_places.specs.Rows.{counted, first_rows, rows_text};

use crate::outputs::outputs_of;
use crate::places::{Carriers, Places};
use crate::row::Row;
use output_state::{put_state, state_head};
use relay_conf::{Output, Relay};
use relay_notices::Tally;
use std::alloc::{AllocError, Allocator};
use std::marker::Model;

/// What is said of the outputs of a relay that have buffers. Contracts see a row for each, in the
/// order of the text: what is said of it, and the places of its servers or its sink.
pub struct OutputRows<A: Allocator> {
    rows: Vec<Row<A>, A>,
}

// By hand, so that crates above don't prove again how its parts end.
impl<A: Allocator> Drop for OutputRows<A> {
    fn drop(self) {
        let OutputRows { rows: _ } = self;
    }
}

impl<A: Allocator> Model for OutputRows<A> {
    ghost use Rattle.std.specs.Prelude.{List};
    ghost use Rattle.relay_places.specs.Rows.{RowView};

    ghost Value = { List RowView };

    ghost view = { λ o. o.rows.items };
}

impl<A: Allocator + Copy> OutputRows<A> {
    /// The rows of a relay with these places, of which nothing was told: of each output its line,
    /// the path of its buffer's files, or `*`, and how many bytes the buffer takes. The error is
    /// want of memory.
    pub fn new(alloc: A, relay: &Relay<A>, places: &Places<A>) -> Result<OutputRows<A>, AllocError>
        requires { ArePlacesOf relay.now places.now }
        ensures rows { IfOk result
            (λ rows. rows ≡ first_rows (outputs_of relay.now) places.now.spans) }
        ensures all { IfOk result (λ rows. length rows ≡ length (outputs_of relay.now)) }
    {
        let outputs = outputs_of(alloc, relay)?;
        let rows = rows_of(alloc, &outputs, places.all_carriers())?;
        Ok(OutputRows { rows })
    }

    /// Counts anew what was told of each output's own servers, or of its sink: how many fail, how
    /// often they failed, and how many chunks they took. The tallies are those of the relay's
    /// places, in their order, and what has no tally counts nothing. Where other chunks were
    /// taken than before, the last one was in this second, since the beginning of 1970.
    pub fn count(&mut self, tallies: &[Tally], second: u64)
        ensures { self.new ≡ map (counted tallies.now second) self.old }
    {
        count_all(&mut self.rows, tallies, second);
    }

    /// The text of the rows, behind the first line. The error is want of memory.
    pub fn text(&self, alloc: A) -> Result<Vec<u8, A>, AllocError>
        ensures { IfOk result (λ text. text.items ≡ rows_text self.now) }
    {
        let mut text = Vec::from_slice(alloc, state_head())?;
        for row in &self.rows {
            put_state(alloc, &mut text, &row.state())?;
        }
        Ok(text)
    }
}

// The rows of these outputs, with the places of the carriers of each.
fn rows_of<A: Allocator + Copy>(
    alloc: A,
    outputs: &[&Output<A>],
    spans: &[Carriers],
) -> Result<Vec<Row<A>, A>, AllocError>
    requires { length spans.now ≡ length outputs.now }
    ensures { IfOk result
        (λ rows. rows.items ≡ first_rows (map (λ found. found.now) outputs.now) spans.now) }
{
    let mut rows = Vec::new(alloc);
    for n in 0..outputs.len() {
        let span = spans[n];
        let row = Row::new(alloc, outputs[n], span)?;
        rows.push(row)?;
    }
    Ok(rows)
}

// Counts what was told of each.
fn count_all<A: Allocator + Copy>(rows: &mut [Row<A>], tallies: &[Tally], second: u64)
    ensures { rows.new ≡ map (counted tallies.now second) rows.old }
{
    for row in rows.iter_mut() {
        row.count(tallies, second);
    }
}
