//! A network that runs: its relays, the connections between them, and the chunks that are claimed.
//!
//! What needs a part of it alone is a function of that part, which takes less to prove than one of
//! all that runs.

use crate::chunks::{Chunks, Name, Stage};
use crate::dice::Dice;
use crate::held::{Held, misuse, name_at, purge, take_held};
use crate::judge::Judge;
use crate::link::Link;
use crate::machine::Machine;
use crate::parts::{Hold, Parts};
use crate::site::{Refusal, Site, SiteOf};
use ack_receipt::Evidence;
use std::alloc::{AllocError, Global};
use std::sync::Wait;

/// All that runs.
pub struct Run<P: Parts> {
    pub alloc: Global,
    pub sites: Vec<Site<P>>,
    pub links: Vec<Link<P::Client, P::Server>>,
    /// The connections whose messages are there, by the order in which they came.
    pub begun: Vec<usize>,
    pub held: Vec<Held<P::Hold>>,
    /// How many events clients have sent.
    pub events: u32,
}

/// How a chunk goes: the steps that tell it, of which the first may be none, and what is wrong
/// where its buffer refuses.
#[derive(Clone, Copy)]
pub struct Going {
    shown: &'static str,
    word: &'static str,
    refused: &'static str,
}

impl Going {
    /// It was acknowledged.
    pub const SEEN: Going = Going {
        shown: "seen",
        word: "purge",
        refused: "a purge is refused",
    };

    /// A sink has it.
    pub const WRITTEN: Going = Going {
        shown: "write",
        word: "purge",
        refused: "a purge is refused",
    };

    /// It was sent, and no acknowledgement is asked for.
    pub const SENT: Going = Going {
        shown: "",
        word: "done",
        refused: "a done is refused",
    };

    /// It is given up.
    pub const GIVEN_UP: Going = Going {
        shown: "",
        word: "discard",
        refused: "a discard is refused",
    };
}

/// The relay with this number.
pub fn site_of<P: Parts, N>(sites: &mut [SiteOf<P, N>], relay: u32) -> Option<&mut SiteOf<P, N>> {
    for site in sites.iter_mut() {
        if site.number == relay {
            return Some(site);
        }
    }
    None
}

/// Tells a step of a chunk, by which it comes to a stage.
pub fn tell_of<P: Parts, M: Machine>(
    sites: &mut [Site<P>],
    judge: &mut Judge<M>,
    word: &str,
    name: Name,
    stage: Stage,
) -> Result<(), AllocError> {
    match site_of(sites, name.relay) {
        Some(site) => tell(&mut site.chunks, judge, word, name, stage),
        None => Ok(()),
    }
}

/// The same of a chunk that is one of these.
pub fn tell<M: Machine>(
    chunks: &mut Chunks,
    judge: &mut Judge<M>,
    word: &str,
    name: Name,
    stage: Stage,
) -> Result<(), AllocError> {
    let line = judge.tell_chunk(word, name)?;
    chunks.restage(name, stage, line);
    Ok(())
}

/// Tells that this chunk, the oldest that was queued in its buffer, went.
pub fn tell_oldest<M: Machine>(
    chunks: &mut Chunks,
    judge: &mut Judge<M>,
    name: Name,
) -> Result<(), AllocError> {
    let line = judge.tell_numbers("oldest", &[u64::from(name.relay), name.buffer as u64])?;
    chunks.restage(name, Stage::Gone, line);
    Ok(())
}

/// This relay refused a call, which is wrong where none of its devices failed.
pub fn refuse<P: Parts, N>(sites: &mut [SiteOf<P, N>], relay: u32, what: &'static str) {
    if let Some(site) = site_of(sites, relay) {
        site.refuse(Refusal::Other(what));
    }
}

/// The chunk of a claim goes on this evidence, if the claim is there, which is told so. Another
/// chunk that is claimed has to stay on it.
pub fn let_go<R: Wait, P: Parts, M: Machine>(
    rt: &R,
    dice: &mut Dice,
    judge: &mut Judge<M>,
    sites: &mut [Site<P>],
    all: &mut Vec<Held<P::Hold>>,
    name: Name,
    evidence: Evidence<Global>,
    going: Going,
) -> Result<(), AllocError> {
    let at = dice.below(all.len());
    match misdirect(rt, judge, all, name, at, evidence)? {
        Some(evidence) => let_go_of(rt, judge, sites, all, name, evidence, going),
        None => Ok(()),
    }
}

// The same, where no other chunk went.
fn let_go_of<R: Wait, P: Parts, M: Machine>(
    rt: &R,
    judge: &mut Judge<M>,
    sites: &mut [Site<P>],
    all: &mut Vec<Held<P::Hold>>,
    name: Name,
    evidence: Evidence<Global>,
    going: Going,
) -> Result<(), AllocError> {
    let Some(hold) = take_held(all, name) else {
        evidence.waste();
        return Ok(());
    };
    let is_gone = purge(rt, hold, evidence);
    match site_of(sites, name.relay) {
        Some(site) => note_gone(judge, site, name, going, is_gone),
        None => Ok(()),
    }
}

// Tells that a chunk went. Where its buffer refused, it may have gone or not.
fn note_gone<P: Parts, M: Machine>(
    judge: &mut Judge<M>,
    site: &mut Site<P>,
    name: Name,
    going: Going,
    is_gone: bool,
) -> Result<(), AllocError> {
    if !is_gone {
        site.refuse(Refusal::Other(going.refused));
    }
    tell_gone(&mut site.chunks, judge, name, going)
}

// Tells that a chunk went.
fn tell_gone<M: Machine>(
    chunks: &mut Chunks,
    judge: &mut Judge<M>,
    name: Name,
    going: Going,
) -> Result<(), AllocError> {
    if !going.shown.is_empty() {
        tell(chunks, judge, going.shown, name, Stage::Claimed)?;
    }
    tell(chunks, judge, going.word, name, Stage::Gone)
}

// Offers the evidence to the chunk that is claimed at this place, if that is another one; `None`
// where that goes on it.
fn misdirect<R: Wait, H: Hold, M: Machine>(
    rt: &R,
    judge: &mut Judge<M>,
    all: &mut Vec<Held<H>>,
    name: Name,
    at: usize,
    evidence: Evidence<Global>,
) -> Result<Option<Evidence<Global>>, AllocError> {
    match name_at(all, at) {
        Some(other) if !other.is(name) => try_misuse(rt, judge, all, other, evidence),
        _ => Ok(Some(evidence)),
    }
}

/// Offers a claimed chunk an evidence that it may not go on; `None` where it does, which is wrong.
pub fn try_misuse<R: Wait, H: Hold, M: Machine>(
    rt: &R,
    judge: &mut Judge<M>,
    all: &mut Vec<Held<H>>,
    name: Name,
    evidence: Evidence<Global>,
) -> Result<Option<Evidence<Global>>, AllocError> {
    match misuse(rt, all, name, evidence) {
        Some(evidence) => Ok(Some(evidence)),
        None => {
            judge.fail_chunk(name, "goes on what doesn't show that it may")?;
            Ok(None)
        }
    }
}
