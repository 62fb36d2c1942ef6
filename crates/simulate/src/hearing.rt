//! Answers come back to who sent a message, and some to who didn't.

use crate::chunks::Name;
use crate::dice::Dice;
use crate::held::Held;
use crate::judge::Judge;
use crate::link::Link;
use crate::machine::Machine;
use crate::parts::{Client, Parts, Server};
use crate::run::{Going, Run, let_go};
use crate::site::Site;
use ack_receipt::Evidence;
use forward_core::{Heard, SessionFault};
use std::alloc::{AllocError, Global};
use std::sync::Wait;

impl<P: Parts> Run<P> {
    /// Some bytes of an answer come back; or, at times, those of another connection's.
    pub fn hear<R: Wait, M: Machine>(
        &mut self,
        rt: &R,
        dice: &mut Dice,
        judge: &mut Judge<M>,
        at: usize,
    ) -> Result<(), AllocError> {
        let links = &mut self.links;
        match hear_some(self.alloc, dice, judge, links, at)? {
            Some(evidence) => {
                let name = chunk_of(links, at);
                let (sites, held) = (&mut self.sites, &mut self.held);
                see(rt, dice, judge, sites, held, name, evidence)
            }
            None => Ok(()),
        }
    }
}

// The chunk that is sent on this connection, if one is.
fn chunk_of<C, E>(links: &[Link<C, E>], at: usize) -> Option<Name> {
    match links.get(at) {
        Some(link) => link.chunk,
        None => None,
    }
}

// The sender saw an acknowledgement of this chunk, or of a client's message.
fn see<R: Wait, P: Parts, M: Machine>(
    rt: &R,
    dice: &mut Dice,
    judge: &mut Judge<M>,
    sites: &mut [Site<P>],
    all: &mut Vec<Held<P::Hold>>,
    name: Option<Name>,
    evidence: Evidence<Global>,
) -> Result<(), AllocError> {
    match name {
        Some(name) => let_go(rt, dice, judge, sites, all, name, evidence, Going::SEEN),
        None => {
            evidence.waste();
            Ok(())
        }
    }
}

// Some bytes of an answer come back on a connection, or those of another's: what the sender sees in
// them.
fn hear_some<C: Client, E: Server, M: Machine>(
    alloc: Global,
    dice: &mut Dice,
    judge: &mut Judge<M>,
    links: &mut [Link<C, E>],
    at: usize,
) -> Result<Option<Evidence<Global>>, AllocError> {
    let most = dice.below(64).saturating_add(1);
    if dice.once_in(6) {
        return hear_other(alloc, dice, links, at);
    }
    match links.get_mut(at) {
        Some(link) => hear_on(alloc, judge, link, most),
        None => Ok(None),
    }
}

// The bytes of another connection's answer come to this one's sender, which hears nothing more
// then.
fn hear_other<C: Client, E: Server>(
    alloc: Global,
    dice: &mut Dice,
    links: &mut [Link<C, E>],
    at: usize,
) -> Result<Option<Evidence<Global>>, AllocError> {
    let first = dice.below(links.len());
    let bytes = other_answer(alloc, links, first, at)?;
    match links.get_mut(at) {
        Some(link) => overhear(link, &bytes),
        None => Ok(None),
    }
}

// So many bytes of its answer at most come back on a connection: what the sender sees in them.
fn hear_on<C: Client, E: Server, M: Machine>(
    alloc: Global,
    judge: &mut Judge<M>,
    link: &mut Link<C, E>,
    most: usize,
) -> Result<Option<Evidence<Global>>, AllocError> {
    if link.is_over || link.is_deaf {
        return Ok(None);
    }
    match link.hear(alloc, most)? {
        Heard::Seen(evidence) => {
            link.is_over = true;
            Ok(Some(evidence))
        }
        Heard::Wait => note_wait(judge, link),
        Heard::Fault(fault) => note_fault(alloc, judge, fault),
    }
}

// The sender waits, which is wrong where it has the whole answer.
fn note_wait<C, E: Server, M: Machine>(
    judge: &mut Judge<M>,
    link: &Link<C, E>,
) -> Result<Option<Evidence<Global>>, AllocError> {
    if link.is_unheard() {
        judge.fail_message(link.message, "isn't acknowledged")?;
    }
    Ok(None)
}

// The sender refuses the answer, which is wrong.
fn note_fault<M: Machine>(
    alloc: Global,
    judge: &mut Judge<M>,
    fault: SessionFault,
) -> Result<Option<Evidence<Global>>, AllocError> {
    judge.fail(format!(in alloc; "an answer is refused: {fault}")?);
    Ok(None)
}

// These bytes of another connection's answer come back on this one: what the sender sees in them.
fn overhear<C: Client, E>(
    link: &mut Link<C, E>,
    bytes: &[u8],
) -> Result<Option<Evidence<Global>>, AllocError> {
    if bytes.is_empty() || link.is_over || link.is_deaf {
        return Ok(None);
    }
    link.is_deaf = true;
    match link.client.hear(bytes)? {
        Heard::Seen(evidence) => Ok(Some(evidence)),
        Heard::Wait | Heard::Fault(_) => Ok(None),
    }
}

// What of an answer is under way on a connection that isn't this one, from the first on; nothing
// where none is found.
fn other_answer<C, E: Server>(
    alloc: Global,
    links: &[Link<C, E>],
    first: usize,
    at: usize,
) -> Result<Vec<u8>, AllocError> {
    for other in first..links.len() {
        if let Some(link) = links.get(other)
            && other != at
            && !link.answer().is_empty()
        {
            return Vec::from_slice(alloc, link.answer());
        }
    }
    Ok(Vec::new(alloc))
}
