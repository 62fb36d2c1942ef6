//! Buffers that don't take what is sent to them as one message.

use crate::flow::{Numbers, Steps, add_of_servers, flow, match_of};
use crate::links::{Forward, MOST_OUTPUTS};
use crate::notes::Notes;
use crate::pieces::Piece;
use crate::search::Search;
use crate::warned_plan::WarnedPlan;
use buffer_state::GREATEST_SIZE;
use loss_rules::line_of;
use plan_lines::Plan;
use relay_conf::{BufferSettings, MatchRule, Output};
use relay_net::settings as buffer_of;
use std::alloc::{AllocError, Allocator};

/// Warns of each output whose chunks may be greater than what a buffer takes that they come to, by
/// the servers and from there by relabels. The only error is want of memory.
pub(crate) fn put_limits<A: Allocator + Copy>(
    about: &WarnedPlan<'_, A>,
    forwards: &[Forward<'_, A>],
    notes: &mut Notes<A>,
) -> Result<(), AllocError> {
    let relabels = relabels(about)?;
    let mut search = Search::new(about.alloc, relabels.len())?;
    let least = least_bytes(about);
    for forward in forwards {
        if most_bytes(&forward.settings.buffer) > least {
            put_of_forward(about, forward, &relabels, &mut search, notes)?;
        }
    }
    Ok(())
}

// For each reach of the plan those that its events may come to by one relabel.
fn relabels<A: Allocator + Copy>(
    about: &WarnedPlan<'_, A>,
) -> Result<Vec<Numbers<A>, A>, AllocError> {
    let every = vec![in about.alloc; true; about.plan.net().relays().len()]?;
    flow(about, Steps::Relabels, &every)
}

// What the buffer of the plan takes that takes least: who sends no more is passed over at once.
fn least_bytes<A: Allocator + Copy>(about: &WarnedPlan<'_, A>) -> u64 {
    let mut least = u64::MAX;
    for place in 0..about.plan.net().relays().len() {
        least = least.min(least_of_relay(about.plan, place));
    }
    least
}

// The same of the relay at this place.
fn least_of_relay<A: Allocator + Copy>(plan: &Plan<A>, place: usize) -> u64 {
    let mut least = u64::MAX;
    for number in 0..MOST_OUTPUTS {
        let Some(output) = plan.net().output(place, number) else {
            return least;
        };
        if let Some(buffer) = buffer_of(output) {
            least = least.min(most_bytes(buffer));
        }
    }
    least
}

// The reaches that chunks of this output come to first.
fn first_behind<A: Allocator + Copy>(
    about: &WarnedPlan<'_, A>,
    forward: &Forward<'_, A>,
) -> Result<Numbers<A>, AllocError> {
    let mut first = Vec::new(about.alloc);
    for number in about.reaches_of(forward.place) {
        if let Some(reach) = about.plan.reaches().get(*number)
            && has_output(match_of(about.plan, reach), forward.line)
        {
            add_of_servers(about, reach, &forward.settings.servers, &mut first)?;
        }
    }
    Ok(first)
}

// A buffer: the place of its relay, the line of its output, and the most bytes that it takes as one
// message.
type Taking = (usize, usize, u64);

// Warns of each buffer that is too small for what this output sends, of each once. These are the
// relabels.
fn put_of_forward<A: Allocator + Copy>(
    about: &WarnedPlan<'_, A>,
    forward: &Forward<'_, A>,
    relabels: &[Numbers<A>],
    search: &mut Search<A>,
    notes: &mut Notes<A>,
) -> Result<(), AllocError> {
    let sent = most_bytes(&forward.settings.buffer);
    let first = first_behind(about, forward)?;
    let behind = search.onward(relabels, &first)?;
    put_all(about, forward, &small_buffers(about, behind, sent)?, notes)
}

// The buffers of these reaches' matches that take less than so many bytes as one message, each
// once, by relays in the order of the plan and then by lines.
fn small_buffers<A: Allocator + Copy>(
    about: &WarnedPlan<'_, A>,
    reaches: &[usize],
    sent: u64,
) -> Result<Vec<Taking, A>, AllocError> {
    let mut found = Vec::new(about.alloc);
    for number in reaches {
        if let Some(reach) = about.plan.reaches().get(*number)
            && let Some(rule) = match_of(about.plan, reach)
        {
            add_small(&mut found, reach.place, &rule.outputs, sent)?;
        }
    }
    found.sort()?;
    found.dedup();
    Ok(found)
}

// Adds those of these outputs of the relay at this place.
fn add_small<A: Allocator>(
    found: &mut Vec<Taking, A>,
    place: usize,
    outputs: &[Output<A>],
    sent: u64,
) -> Result<(), AllocError> {
    for output in outputs {
        if let Some(buffer) = buffer_of(output)
            && most_bytes(buffer) < sent
        {
            found.push((place, line_of(output), most_bytes(buffer)))?;
        }
    }
    Ok(())
}

// Whether the match has an output in this line.
fn has_output<A: Allocator>(found: Option<&MatchRule<A>>, line: usize) -> bool {
    let Some(found) = found else {
        return false;
    };
    for output in &found.outputs {
        if line_of(output) == line {
            return true;
        }
    }
    false
}

// Warns of each of these buffers, which are too small for what the output sends.
fn put_all<A: Allocator + Copy>(
    about: &WarnedPlan<'_, A>,
    forward: &Forward<'_, A>,
    small: &[Taking],
    notes: &mut Notes<A>,
) -> Result<(), AllocError> {
    for taking in small {
        put_small(about, forward, *taking, notes)?;
    }
    Ok(())
}

// Warns of this one.
fn put_small<A: Allocator + Copy>(
    about: &WarnedPlan<'_, A>,
    forward: &Forward<'_, A>,
    small: Taking,
    notes: &mut Notes<A>,
) -> Result<(), AllocError> {
    let (place, line, taken) = small;
    notes.put_at(
        about,
        &[
            Piece::Text(b"an output sends chunks of up to "),
            Piece::Number(most_bytes(&forward.settings.buffer)),
            Piece::Text(b" bytes, each as one message, and a buffer that they come to takes "),
            Piece::Number(taken),
            Piece::Text(b" at most: a greater chunk is refused each time, and stays for ever."),
        ],
        &[(forward.place, forward.line), (place, line)],
    )
}

// The most bytes of events that the buffer sends or takes as one message.
fn most_bytes<A: Allocator>(buffer: &BufferSettings<A>) -> u64 {
    buffer
        .chunk_limit_size
        .min(buffer.total_limit_size)
        .min(GREATEST_SIZE as u64)
}
