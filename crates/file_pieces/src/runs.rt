//! Runs: places that lie so near one another in a file that they are read at once.

ghost use Rattle.std.specs.Prelude.{◌≡◌, ◌+◌, ◌<◌, ◌≤◌, IfSome, length, take};
ghost use Rattle.file_pieces.specs.Runs.{IsRun};

use chunk_journal::Extent;

// So many bytes too many are read in about the time of one more call.
const GAP: u64 = 4_096;

/// Places that lie in one span of a file: they, where the span begins, and how many bytes it has.
#[derive(Clone, Copy)]
pub(crate) struct Run<'a> {
    pub(crate) places: &'a [Extent],
    pub(crate) at: u64,
    pub(crate) span: u64,
}

/// The run with which places begin: the first one, and those that lie near behind one another while
/// the span has no more than so many bytes.
pub(crate) fn run_of(places: &[Extent], most: usize) -> Run<'_>
    requires { 0 < length places.now }
    ensures first { result.places.now ≡ take (length result.places.now) places.now }
    ensures run { IsRun most result }
{
    let at = places[0].at();
    let mut span = places[0].length();
    let mut count: usize = 1;
    while count < places.len() {
        let Some(longer) = span_with(at, span, places[count], most as u64) else {
            break;
        };
        span = longer;
        count += 1;
    }
    let (run, _) = places.split_at(count);
    Run {
        places: run,
        at,
        span,
    }
}

// How many bytes a span has with a place that lies near behind it, if they are no more than so
// many.
fn span_with(at: u64, span: u64, place: Extent, most: u64) -> Option<u64>
    ensures behind { IfSome result (λ longer. at + span ≤ place.at) }
    ensures end { IfSome result (λ longer. place.at + place.length ≡ at + longer) }
    ensures small { IfSome result (λ longer. longer ≤ most) }
{
    let end = at.checked_add(span)?;
    let gap = place.at().checked_sub(end)?;
    if GAP < gap {
        return None;
    }
    let near = span.checked_add(gap)?;
    let longer = near.checked_add(place.length())?;
    if most < longer {
        return None;
    }
    Some(longer)
}
