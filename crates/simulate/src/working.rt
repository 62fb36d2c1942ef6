//! The workers of a relay deliver chunks.

use crate::chunks::{Chunks, Name, Stage};
use crate::dice::Dice;
use crate::held::{Held, claim, give_back, held_of, keep};
use crate::judge::Judge;
use crate::link::Link;
use crate::machine::Machine;
use crate::parts::{Aim, Client, Hold, Parts, Settings, Target};
use crate::run::{Going, Run, let_go, refuse, site_of, tell, tell_of, tell_oldest, try_misuse};
use crate::sending::{Letter, put_link};
use crate::site::{Site, SiteOf};
use ack_receipt::Evidence;
use event_modes::Entries;
use std::alloc::{AllocError, Global};
use std::sync::Wait;
use std::time::Clock;

impl<P: Parts> Run<P> {
    /// A worker goes on with its chunk: it is delivered, given up, or given back, as when no answer
    /// came in time or no server is there.
    pub fn work<R: Wait + Clock, M: Machine>(
        &mut self,
        rt: &R,
        dice: &mut Dice,
        judge: &mut Judge<M>,
        name: Name,
    ) -> Result<(), AllocError> {
        let (sites, held) = (&mut self.sites, &mut self.held);
        if dice.once_in(4) {
            return put_back(rt, judge, sites, held, name);
        }
        let settings = settings_of(sites, name);
        if dice.once_in(4) {
            return give_up(rt, dice, judge, sites, held, name, settings);
        }
        match settings.aim {
            Aim::Sink => write(rt, dice, judge, sites, held, name),
            Aim::Relay(target) => {
                let links = &mut self.links;
                if forward(rt, self.alloc, judge, sites, links, held, name, target)? {
                    return note_sent(rt, dice, judge, sites, held, name);
                }
                Ok(())
            }
            Aim::Nowhere => Ok(()),
        }
    }
}

/// A worker of the relay at this place claims a chunk of a buffer.
pub fn claim_in<R: Wait, P: Parts, M: Machine>(
    rt: &R,
    judge: &mut Judge<M>,
    sites: &mut [Site<P>],
    all: &mut Vec<Held<P::Hold>>,
    at: usize,
    buffer: usize,
) -> Result<(), AllocError> {
    all.reserve(1)?;
    match sites.get_mut(at) {
        Some(site) => claim_of(rt, judge, site, all, buffer),
        None => Ok(()),
    }
}

// A worker of this relay claims a chunk of a buffer.
fn claim_of<R: Wait, P: Parts, M: Machine>(
    rt: &R,
    judge: &mut Judge<M>,
    site: &mut Site<P>,
    all: &mut Vec<Held<P::Hold>>,
    buffer: usize,
) -> Result<(), AllocError> {
    let Some(open) = &site.open else {
        return Ok(());
    };
    let chunks = &mut site.chunks;
    match claim(rt, open, chunks.relay, buffer) {
        Some(held) => {
            let name = held.name;
            keep(rt, all, held);
            tell(chunks, judge, "claim", name, Stage::Claimed)
        }
        None => miss_queued(chunks, judge, buffer),
    }
}

// Nothing was claimed of a buffer, which is wrong where a chunk of it is queued.
fn miss_queued<M: Machine>(
    chunks: &Chunks,
    judge: &mut Judge<M>,
    buffer: usize,
) -> Result<(), AllocError> {
    if chunks.tally(buffer).oldest.is_none() {
        return Ok(());
    }
    let what = "has a queued chunk that can't be claimed";
    judge.fail_buffer(chunks.relay, buffer, what)
}

// A claimed chunk is given back.
fn put_back<R: Wait, P: Parts, M: Machine>(
    rt: &R,
    judge: &mut Judge<M>,
    sites: &mut [Site<P>],
    all: &mut Vec<Held<P::Hold>>,
    name: Name,
) -> Result<(), AllocError> {
    if give_back(rt, all, name) {
        return tell_of(sites, judge, "back", name, Stage::Queued);
    }
    Ok(())
}

// What is said of the output of a chunk.
fn settings_of<P: Parts, N>(sites: &mut [SiteOf<P, N>], name: Name) -> Settings {
    match site_of(sites, name.relay) {
        Some(site) => site.settings(name.buffer),
        None => Settings::NONE,
    }
}

// The chunk is given up where its output does that. Else the buffer has to refuse that, or that it
// was sent where that isn't enough.
fn give_up<R: Wait, P: Parts, M: Machine>(
    rt: &R,
    dice: &mut Dice,
    judge: &mut Judge<M>,
    sites: &mut [Site<P>],
    all: &mut Vec<Held<P::Hold>>,
    name: Name,
    settings: Settings,
) -> Result<(), AllocError> {
    let is_sent = dice.once_in(2) && !ends_sent(settings.aim);
    let Some(evidence) = evidence_of(all, name, is_sent) else {
        return Ok(());
    };
    if !is_sent && settings.gives_up {
        return let_go(rt, dice, judge, sites, all, name, evidence, Going::GIVEN_UP);
    }
    if let Some(evidence) = try_misuse(rt, judge, all, name, evidence)? {
        evidence.waste();
    }
    Ok(())
}

// Whether a chunk that goes there is done with as it was sent.
fn ends_sent(aim: Aim) -> bool {
    match aim {
        Aim::Relay(target) => !target.asks,
        Aim::Sink | Aim::Nowhere => false,
    }
}

// The evidence that a claimed chunk was sent, or else that it is given up.
fn evidence_of<H: Hold>(all: &[Held<H>], name: Name, is_sent: bool) -> Option<Evidence<Global>> {
    let claim = held_of(all, name)?.claim();
    if is_sent {
        return Some(Evidence::written(claim));
    }
    Some(Evidence::expired(claim))
}

// The chunk is written to its sink.
fn write<R: Wait + Clock, P: Parts, M: Machine>(
    rt: &R,
    dice: &mut Dice,
    judge: &mut Judge<M>,
    sites: &mut [Site<P>],
    all: &mut Vec<Held<P::Hold>>,
    name: Name,
) -> Result<(), AllocError> {
    let Some(evidence) = stored(rt, sites, all, name) else {
        return Ok(());
    };
    if dice.once_in(6) {
        evidence.waste();
        return tell_of(sites, judge, "write", name, Stage::Claimed);
    }
    let_go(rt, dice, judge, sites, all, name, evidence, Going::WRITTEN)
}

// The evidence that a sink has the chunk; `None` where its write was refused.
fn stored<R: Wait + Clock, P: Parts, N>(
    rt: &R,
    sites: &mut [SiteOf<P, N>],
    all: &[Held<P::Hold>],
    name: Name,
) -> Option<Evidence<Global>> {
    let hold = held_of(all, name)?;
    let site = site_of(sites, name.relay)?;
    let evidence = site.carry(rt, name.buffer, hold);
    if evidence.is_none() {
        site.tear(name);
    }
    evidence
}

// The chunk is sent to a relay: whether it is done with then.
fn forward<R: Wait, P: Parts, N, M: Machine>(
    rt: &R,
    alloc: Global,
    judge: &mut Judge<M>,
    sites: &mut [SiteOf<P, N>],
    links: &mut Vec<Link<P::Client, P::Server>>,
    all: &[Held<P::Hold>],
    name: Name,
    target: Target,
) -> Result<bool, AllocError> {
    let Some(hold) = held_of(all, name) else {
        return Ok(false);
    };
    let Some(entries) = hold.body(rt) else {
        refuse(sites, name.relay, "a chunk can't be read");
        return Ok(false);
    };
    send_on(alloc, judge, links, hold, name, target, &entries)?;
    Ok(!target.asks)
}

// A claimed chunk, which has these entries, is sent.
fn send_on<C: Client, E, H: Hold, M: Machine>(
    alloc: Global,
    judge: &mut Judge<M>,
    links: &mut Vec<Link<C, E>>,
    hold: &H,
    name: Name,
    target: Target,
    entries: &Entries<Global>,
) -> Result<(), AllocError> {
    judge.tell_chunk_with("forward", name, 0)?;
    let claim = hold.claim();
    let letter = Letter {
        chunk: Some(name),
        message: judge.next_message(),
        target,
        tag: claim.tag(),
        entries,
        id: claim.id(),
    };
    put_link(alloc, links, &letter)
}

// A chunk was sent, and no acknowledgement is asked for.
fn note_sent<R: Wait, P: Parts, M: Machine>(
    rt: &R,
    dice: &mut Dice,
    judge: &mut Judge<M>,
    sites: &mut [Site<P>],
    all: &mut Vec<Held<P::Hold>>,
    name: Name,
) -> Result<(), AllocError> {
    match evidence_of(all, name, true) {
        Some(evidence) => let_go(rt, dice, judge, sites, all, name, evidence, Going::SENT),
        None => Ok(()),
    }
}

/// A buffer's oldest queued chunk goes, where its output drops the oldest. Where devices may fail
/// none does: nobody would know whether it went.
pub fn drop_oldest<R: Wait, P: Parts, M: Machine>(
    rt: &R,
    judge: &mut Judge<M>,
    sites: &mut [Site<P>],
    at: usize,
    buffer: usize,
) -> Result<(), AllocError> {
    let Some(site) = sites.get_mut(at) else {
        return Ok(());
    };
    match site.drop_oldest(rt, buffer) {
        Some(serial) => {
            let name = site.chunks.name(buffer, serial);
            tell_oldest(&mut site.chunks, judge, name)
        }
        None => Ok(()),
    }
}
