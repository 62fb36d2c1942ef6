//! Sources that listen to their own machine alone, and are forwarded to under another host.

use crate::links::Link;
use crate::notes::Notes;
use crate::pieces::Piece;
use crate::warned_plan::WarnedPlan;
use std::alloc::{AllocError, Allocator};

/// Warns of each server whose host is no address of its own machine, while its source listens on
/// such a one alone. The only error is want of memory.
pub(crate) fn put_hosts<A: Allocator + Copy>(
    about: &WarnedPlan<'_, A>,
    links: &[Link<'_, A>],
    notes: &mut Notes<A>,
) -> Result<(), AllocError> {
    for link in links {
        let bind = link.source.bind.as_str();
        let host = link.server.host.as_str();
        if is_own(bind) && !is_own(host) {
            put_host(about, link, notes)?;
        }
    }
    Ok(())
}

// Adds the warning of this server.
fn put_host<A: Allocator + Copy>(
    about: &WarnedPlan<'_, A>,
    link: &Link<'_, A>,
    notes: &mut Notes<A>,
) -> Result<(), AllocError> {
    let host = link.server.host.as_bytes();
    notes.put_at(
        about,
        &[
            Piece::Text(b"a server is to be reached as "),
            Piece::Text(host),
            Piece::Text(b", and its source listens on "),
            Piece::Text(link.source.bind.as_bytes()),
            Piece::Text(b" alone, which only its own machine reaches: what is sent to "),
            Piece::Text(host),
            Piece::Text(b" doesn't arrive."),
        ],
        &[(link.place, link.server.line), (link.to, link.source.line)],
    )
}

// Whether a host is the machine itself, by its text.
fn is_own(host: &str) -> bool {
    host == "localhost" || host == "::1" || host.as_bytes().starts_with(b"127.")
}
