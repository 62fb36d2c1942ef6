//! A relay queues what is staged, makes receipts, and answers.

use crate::chunks::{Chunks, Stage};
use crate::dice::Dice;
use crate::judge::Judge;
use crate::link::Link;
use crate::machine::Machine;
use crate::parts::{Parts, Server, Task};
use crate::run::Run;
use crate::site::Site;
use std::alloc::{AllocError, Global};
use std::sync::Wait;

impl<P: Parts> Run<P> {
    /// A relay queues what is staged, where that is due, and makes its receipts and answers; or it
    /// stops in between. Receipts may be wanting, as where there is no memory for them.
    pub fn store<R: Wait, M: Machine>(
        &mut self,
        rt: &R,
        dice: &mut Dice,
        judge: &mut Judge<M>,
        at: usize,
    ) -> Result<(), AllocError> {
        let part = dice.below(12);
        let is_due = dice.once_in(2);
        let Some(site) = self.sites.get_mut(at) else {
            return Ok(());
        };
        prepare(rt, site, is_due, part != 0 && part != 3, judge)?;
        match part {
            0 => Ok(()),
            1 => self.restart(rt, dice, judge, at, false),
            _ => {
                let (links, begun) = (&mut self.links, &self.begun);
                answer(rt, self.alloc, site, links, begun, at, part, judge)
            }
        }
    }
}

// What is staged is queued, where that is due, and receipts are made, where they are to be.
fn prepare<R: Wait, P: Parts, M: Machine>(
    rt: &R,
    site: &mut Site<P>,
    is_due: bool,
    are_made: bool,
    judge: &mut Judge<M>,
) -> Result<(), AllocError> {
    let Some(open) = &mut site.open else {
        return Ok(());
    };
    if is_due {
        queue(rt, open, &mut site.chunks, judge)?;
    }
    if are_made {
        redeem(rt, open, &mut site.chunks);
    }
    Ok(())
}

// Deliveries that have their receipts are answered, in their order: all that ask for it, but in
// part 3, where receipts weren't made for all. In part 2 journals are written anew then.
fn answer<R: Wait, P: Parts, M: Machine>(
    rt: &R,
    alloc: Global,
    site: &mut Site<P>,
    links: &mut [Link<P::Client, P::Server>],
    begun: &[usize],
    at: usize,
    part: usize,
    judge: &mut Judge<M>,
) -> Result<(), AllocError> {
    let Some(open) = &mut site.open else {
        return Ok(());
    };
    for begun in begun {
        if let Some(link) = links.get_mut(*begun)
            && link.to == at
        {
            settle(rt, alloc, open, &mut site.chunks, link, part != 3, judge)?;
        }
    }
    if part == 2 {
        open.tend(rt, Task::Renew);
    }
    Ok(())
}

// What is staged is queued, which syncs its journal.
fn queue<R: Wait, P: Parts, M: Machine>(
    rt: &R,
    open: &mut P,
    chunks: &mut Chunks,
    judge: &mut Judge<M>,
) -> Result<(), AllocError> {
    open.tend(rt, Task::Queue);
    if !open.has_fault() {
        chunks.sync_buffers(true);
    }
    tell_queued(chunks, judge)
}

// Receipts are made, for which each journal with an append that isn't synced is synced.
fn redeem<R: Wait, P: Parts>(rt: &R, open: &mut P, chunks: &mut Chunks) {
    open.tend(rt, Task::Redeem);
    if !open.has_fault() {
        chunks.sync_buffers(false);
    }
}

// The delivery of a connection is answered if its receipts are there.
fn settle<R: Wait, P: Parts, M: Machine>(
    rt: &R,
    alloc: Global,
    open: &mut P,
    chunks: &mut Chunks,
    link: &mut Link<P::Client, P::Server>,
    are_made: bool,
    judge: &mut Judge<M>,
) -> Result<(), AllocError> {
    let is_owed = are_made && link.asks && link.is_waiting();
    if let Some(server) = &mut link.server {
        open.settle(rt, alloc, server);
    }
    note_answer(link, chunks, judge)?;
    if is_owed && !link.is_answered && !open.has_fault() {
        return judge.fail_message(link.message, "isn't answered");
    }
    Ok(())
}

// Whether the relay has answered is asked: then the answer is told, and no stop may lose what it is
// of.
fn note_answer<C, E: Server, M: Machine>(
    link: &mut Link<C, E>,
    chunks: &mut Chunks,
    judge: &mut Judge<M>,
) -> Result<(), AllocError> {
    if !link.notes_answer() {
        return Ok(());
    }
    match link.delivery {
        Some(delivery) => {
            judge.tell_numbers("ack", &[delivery])?;
            chunks.sync_delivery(delivery);
            Ok(())
        }
        None => judge.fail_message(link.message, "is answered, and wasn't taken"),
    }
}

/// Tells that each staged chunk is queued.
pub fn tell_queued<M: Machine>(
    chunks: &mut Chunks,
    judge: &mut Judge<M>,
) -> Result<(), AllocError> {
    for chunk in chunks.all.iter_mut() {
        if matches!(chunk.stage, Stage::Staged) {
            chunk.stage = Stage::Queued;
            chunk.queued = Some(judge.tell_chunk("enqueue", chunk.name)?);
        }
    }
    Ok(())
}
