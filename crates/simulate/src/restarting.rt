//! A relay stops and opens again, and what is there then is held against what was told.

use crate::chunks::{Chunk, Chunks, Name, Stage};
use crate::dice::Dice;
use crate::disk::{Devices, Stop};
use crate::held::{Held, first_of, give_back};
use crate::judge::Judge;
use crate::link::{Link, hang_up};
use crate::machine::{Machine, is_same};
use crate::parts::{Hold, Parts, SinkContent};
use crate::run::Run;
use crate::sending::ENTRY_LEN;
use crate::site::{Site, SiteOf};
use crate::stock::take_stock;
use crate::storing::tell_queued;
use std::alloc::{AllocError, Global};
use std::sync::Wait;

impl<P: Parts> Run<P> {
    /// A relay stops, and opens again, over devices that may fail where that is asked for.
    pub fn restart<R: Wait, M: Machine>(
        &mut self,
        rt: &R,
        dice: &mut Dice,
        judge: &mut Judge<M>,
        at: usize,
        may_fail: bool,
    ) -> Result<(), AllocError> {
        let Some(site) = self.sites.get_mut(at) else {
            return Ok(());
        };
        cut_off(rt, site, &mut self.links, &mut self.held, at);
        begin_again(rt, self.alloc, dice, judge, site, may_fail)
    }
}

// The same of a relay to which nothing is connected. Before it opens, openings may fail: what they
// leave stays.
fn begin_again<R: Wait, P: Parts, M: Machine>(
    rt: &R,
    alloc: Global,
    dice: &mut Dice,
    judge: &mut Judge<M>,
    site: &mut Site<P>,
    may_fail: bool,
) -> Result<(), AllocError> {
    let stop = dice.stop();
    let devices = if may_fail {
        dice.devices()
    } else {
        Devices::SOUND
    };
    close(rt, alloc, site, stop, judge)?;
    for _ in 0..dice.below(3) {
        try_to_open(rt, alloc, dice, site)?;
    }
    let later = dice.stop();
    open_again(rt, alloc, site, judge)?;
    if devices.may_fail() {
        return open_over(rt, alloc, site, devices, later, judge);
    }
    Ok(())
}

// A relay that doesn't run opens over devices that fail early, and stops at once.
fn try_to_open<R: Wait, P: Parts, N>(
    rt: &R,
    alloc: Global,
    dice: &mut Dice,
    site: &mut SiteOf<P, N>,
) -> Result<(), AllocError> {
    let devices = dice.early_devices();
    let stop = dice.stop();
    if site.open(rt, alloc, devices)? {
        return site.stop_unseen(rt, alloc, stop);
    }
    site.stop_folders(stop);
    Ok(())
}

// Nothing that the connections and workers of the relay at this place had goes on.
fn cut_off<R: Wait, P: Parts, N>(
    rt: &R,
    site: &mut SiteOf<P, N>,
    links: &mut [Link<P::Client, P::Server>],
    all: &mut Vec<Held<P::Hold>>,
    at: usize,
) {
    if let Some(open) = &mut site.open {
        cut_links(rt, open, links, at, site.number);
    }
    give_back_of(rt, all, site.number);
}

// All that the relay's workers have claimed is given back.
fn give_back_of<R: Wait, H: Hold>(rt: &R, all: &mut Vec<Held<H>>, relay: u32) {
    for _ in 0..all.len() {
        if let Some(name) = first_of(all, relay) {
            give_back(rt, all, name);
        }
    }
}

// The connections to the relay with this number, which is at this place, break, and who sends from
// there hears no answer.
fn cut_links<R: Wait, P: Parts>(
    rt: &R,
    open: &mut P,
    links: &mut [Link<P::Client, P::Server>],
    at: usize,
    relay: u32,
) {
    for link in links.iter_mut() {
        if link.to == at {
            hang_up(rt, open, link);
        }
        if link.is_of(relay) {
            link.is_deaf = true;
        }
    }
}

// Stops the relay, and holds what its sinks have against what was told.
fn close<R: Wait, P: Parts, N, M: Machine>(
    rt: &R,
    alloc: Global,
    site: &mut SiteOf<P, N>,
    stop: Stop,
    judge: &mut Judge<M>,
) -> Result<(), AllocError> {
    let sinks = site.stop(rt, alloc, stop)?;
    site.tell_refusal(alloc, judge)?;
    let torn = site.torn.take();
    match sinks {
        Some(sinks) => compare_sinks(site.number, &sinks, torn, judge),
        None => judge.fail_relay(site.number, "has a sink that can't be read"),
    }
}

// Opens a relay that is open over such devices instead. Where it doesn't open so, this stop comes,
// and it opens over sound ones.
fn open_over<R: Wait, P: Parts, M: Machine>(
    rt: &R,
    alloc: Global,
    site: &mut Site<P>,
    devices: Devices,
    stop: Stop,
    judge: &mut Judge<M>,
) -> Result<(), AllocError> {
    site.stop_unseen(rt, alloc, Stop::Relay)?;
    if site.open(rt, alloc, devices)? {
        return Ok(());
    }
    site.stop_folders(stop);
    open_again(rt, alloc, site, judge)
}

// Opens the relay behind a stop, and holds what is there against what was told.
fn open_again<R: Wait, P: Parts, M: Machine>(
    rt: &R,
    alloc: Global,
    site: &mut Site<P>,
    judge: &mut Judge<M>,
) -> Result<(), AllocError> {
    if !site.open(rt, alloc, Devices::SOUND)? {
        return judge.fail_relay(site.number, "doesn't open");
    }
    if take_stock(rt, alloc, site, judge)? {
        judge.begin_again()?;
    }
    note_restart(&mut site.chunks, judge)
}

// The restart is told, and all that is there is queued and synced then. The machine holds what the
// chunks hold, under the same tags.
fn note_restart<M: Machine>(chunks: &mut Chunks, judge: &mut Judge<M>) -> Result<(), AllocError> {
    judge.tell_numbers("restart", &[u64::from(chunks.relay)])?;
    tell_queued(chunks, judge)?;
    chunks.sync();
    for chunk in &chunks.all {
        compare_chunk(chunk, judge)?;
    }
    Ok(())
}

// What the sinks hold is what the machine's hold. Of a write that failed, the first entries may be
// there, which is told then.
fn compare_sinks<M: Machine>(
    relay: u32,
    sinks: &[SinkContent],
    torn: Option<Name>,
    judge: &mut Judge<M>,
) -> Result<(), AllocError> {
    for sink in sinks {
        compare_sink(relay, sink, torn, judge)?;
    }
    Ok(())
}

// The same of one sink.
fn compare_sink<M: Machine>(
    relay: u32,
    sink: &SinkContent,
    torn: Option<Name>,
    judge: &mut Judge<M>,
) -> Result<(), AllocError> {
    tell_torn(relay, sink, torn, judge)?;
    if is_same(&sink.events, judge.machine.sink(relay, sink.buffer)) {
        return Ok(());
    }
    judge.fail_buffer(relay, sink.buffer, "has a sink that holds something else")
}

// Tells how many entries the sink got of a write that failed, where one of this chunk of its buffer
// did.
fn tell_torn<M: Machine>(
    relay: u32,
    sink: &SinkContent,
    torn: Option<Name>,
    judge: &mut Judge<M>,
) -> Result<(), AllocError> {
    let Some(name) = torn else {
        return Ok(());
    };
    let told = judge.machine.sink(relay, sink.buffer).len();
    let count = sink.events.len().saturating_sub(told);
    if name.buffer == sink.buffer && count > 0 {
        judge.tell_chunk_with("part", name, count)?;
    }
    Ok(())
}

// The machine holds what a chunk holds, unless it went.
fn compare_chunk<M: Machine>(chunk: &Chunk, judge: &mut Judge<M>) -> Result<(), AllocError> {
    if matches!(chunk.stage, Stage::Gone) || is_held(chunk, &judge.machine) {
        return Ok(());
    }
    judge.fail_chunk(chunk.name, "isn't held")
}

fn is_held<M: Machine>(chunk: &Chunk, machine: &M) -> bool {
    for append in &chunk.appends {
        if !are_held(chunk.tag.as_slice(), &append.bytes, machine) {
            return false;
        }
    }
    true
}

// Whether the machine holds each of these entries under this tag.
fn are_held<M: Machine>(tag: &[u8], bytes: &[u8], machine: &M) -> bool {
    for entry in bytes.chunks(ENTRY_LEN) {
        if !machine.holds(tag, entry) {
            return false;
        }
    }
    true
}
