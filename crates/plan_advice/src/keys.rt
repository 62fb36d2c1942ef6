//! Keys that differ at both ends of a connection.

use crate::links::Link;
use crate::notes::Notes;
use crate::pieces::Piece;
use crate::warned_plan::WarnedPlan;
use relay_conf::Security;
use std::alloc::{AllocError, Allocator};

/// Warns of each server at which another key is asked for than the output has. The only error is
/// want of memory.
pub(crate) fn put_keys<A: Allocator + Copy>(
    about: &WarnedPlan<'_, A>,
    links: &[Link<'_, A>],
    notes: &mut Notes<A>,
) -> Result<(), AllocError> {
    for link in links {
        if let Some(words) = fault(&link.settings.security, &link.source.security) {
            let sites = [(link.place, link.line), (link.to, link.source.line)];
            notes.put_at(about, &[Piece::Text(words.as_bytes())], &sites)?;
        }
    }
    Ok(())
}

// What is wrong with the keys of an output and of the source that it forwards to, if anything is.
fn fault<A: Allocator>(
    output: &Option<Security<A>>,
    source: &Option<Security<A>>,
) -> Option<&'static str> {
    match (output, source) {
        (Some(one), Some(other)) if one.shared_key.as_str() == other.shared_key.as_str() => None,
        (None, None) => None,
        (Some(_), Some(_)) => Some(
            "an output and the source that it forwards to have different keys: nothing is ever delivered there.",
        ),
        (Some(_), None) => Some(
            "an output has a key, and the source that it forwards to has none: nothing is ever delivered there.",
        ),
        (None, Some(_)) => Some(
            "an output has no key, and the source that it forwards to asks for one: nothing is ever delivered there.",
        ),
    }
}
