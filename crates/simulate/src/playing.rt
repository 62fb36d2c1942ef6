//! A run of a network: what happens is drawn, and at the end each relay is stopped and looked at.

use crate::chunks::Chunks;
use crate::dice::Dice;
use crate::disk::Devices;
use crate::held::{give_all_back, name_at};
use crate::judge::Judge;
use crate::link::{Link, end_links};
use crate::machine::Machine;
use crate::parts::Parts;
use crate::run::Run;
use crate::sending::send;
use crate::site::{Site, SiteOf};
use crate::text::put;
use crate::working::{claim_in, drop_oldest};
use std::alloc::{AllocError, Global};
use std::sync::Wait;
use std::time::Clock;

/// What is played: a network, whose relays have these configurations, and the numbers from the
/// first on; whether each event has to be kept, as the checker says of its plan; and the acts of
/// the run of this seed, by their numbers.
#[derive(Drop)]
pub struct Script<'a> {
    pub first: u32,
    pub confs: &'a [Vec<u8>],
    pub keeps_all: bool,
    pub seed: u64,
    pub acts: &'a [u64],
}

/// Runs the network with these acts, and says what is wrong, with the steps so far; `None` where
/// nothing is.
pub fn play<R: Wait + Clock, P: Parts, M: Machine>(
    rt: &R,
    alloc: Global,
    script: &Script<'_>,
    machine: M,
) -> Result<Option<String>, AllocError> {
    let mut judge = Judge::new(alloc, machine);
    play_before::<R, P, M>(rt, alloc, script, &mut judge)?;
    said(alloc, &judge)
}

// The same before this judge.
fn play_before<R: Wait + Clock, P: Parts, M: Machine>(
    rt: &R,
    alloc: Global,
    script: &Script<'_>,
    judge: &mut Judge<M>,
) -> Result<(), AllocError> {
    let spare = P::spare(alloc)?;
    let mut run: Run<P> = Run {
        alloc,
        sites: Vec::new(alloc),
        links: Vec::new(alloc),
        begun: Vec::new(alloc),
        held: Vec::new(alloc),
        events: 0,
    };
    let played = run.play(rt, judge, script);
    run.end(rt, spare);
    played
}

impl<P: Parts> Run<P> {
    fn play<R: Wait + Clock, M: Machine>(
        &mut self,
        rt: &R,
        judge: &mut Judge<M>,
        script: &Script<'_>,
    ) -> Result<(), AllocError> {
        put_sites(self.alloc, &mut self.sites, script)?;
        open_sites(rt, self.alloc, &mut self.sites, judge)?;
        for act in script.acts {
            if judge.wrong().is_some() {
                return Ok(());
            }
            self.turn(rt, &mut Dice::of_act(script.seed, *act), judge)?;
        }
        self.restart_where(rt, &mut Dice::of_act(script.seed, u64::MAX), judge, false)?;
        if script.keeps_all {
            return ask_for_all(judge);
        }
        Ok(())
    }

    // One part moves, and each relay that refuses then stops and opens again.
    fn turn<R: Wait + Clock, M: Machine>(
        &mut self,
        rt: &R,
        dice: &mut Dice,
        judge: &mut Judge<M>,
    ) -> Result<(), AllocError> {
        self.act(rt, dice, judge)?;
        self.restart_where(rt, dice, judge, true)
    }

    // One part moves.
    fn act<R: Wait + Clock, M: Machine>(
        &mut self,
        rt: &R,
        dice: &mut Dice,
        judge: &mut Judge<M>,
    ) -> Result<(), AllocError> {
        let (sites, links, held) = (&mut self.sites, &mut self.links, &mut self.held);
        let site = dice.below(sites.len());
        let buffer = dice.below(count_buffers(sites, site));
        let link = dice.below(links.len());
        match dice.below(24) {
            0..=2 => send(self.alloc, dice, judge, links, &mut self.events),
            3..=7 => self.reach(rt, dice, judge, link),
            8..=10 => self.store(rt, dice, judge, site),
            11..=13 => self.hear(rt, dice, judge, link),
            14..=17 => claim_in(rt, judge, sites, held, site, buffer),
            18..=21 => self.work_on(rt, dice, judge),
            22 if dice.once_in(2) => drop_oldest(rt, judge, sites, site, buffer),
            22 => {
                cut(rt, sites, links, link);
                Ok(())
            }
            _ if dice.once_in(2) => self.restart(rt, dice, judge, site, true),
            _ => Ok(()),
        }
    }

    // Each relay that refuses, or each, stops and opens again.
    fn restart_where<R: Wait, M: Machine>(
        &mut self,
        rt: &R,
        dice: &mut Dice,
        judge: &mut Judge<M>,
        refuses: bool,
    ) -> Result<(), AllocError> {
        for at in 0..self.sites.len() {
            if !refuses || is_refusing(&self.sites, at) {
                self.restart(rt, dice, judge, at, false)?;
            }
        }
        Ok(())
    }

    // A worker goes on, if there is one.
    fn work_on<R: Wait + Clock, M: Machine>(
        &mut self,
        rt: &R,
        dice: &mut Dice,
        judge: &mut Judge<M>,
    ) -> Result<(), AllocError> {
        let at = dice.below(self.held.len());
        match name_at(&self.held, at) {
            Some(name) => self.work(rt, dice, judge, name),
            None => Ok(()),
        }
    }

    // Ends all that runs.
    fn end<R: Wait>(self, rt: &R, spare: P) {
        let Run {
            alloc: _,
            sites,
            links,
            begun: _,
            held,
            events: _,
        } = self;
        let mut spare = spare;
        end_links(rt, links, &mut spare);
        give_all_back(rt, held);
        spare.end(rt);
        end_sites(rt, sites);
    }
}

// The relays, none of which was ever open.
fn put_sites<P: Parts>(
    alloc: Global,
    sites: &mut Vec<Site<P>>,
    script: &Script<'_>,
) -> Result<(), AllocError> {
    let mut number = script.first;
    for conf in script.confs {
        put_site(alloc, sites, number, conf.as_slice())?;
        number = number.saturating_add(1);
    }
    Ok(())
}

fn put_site<P: Parts>(
    alloc: Global,
    sites: &mut Vec<Site<P>>,
    number: u32,
    conf: &[u8],
) -> Result<(), AllocError> {
    sites.reserve(1)?;
    let chunks = Chunks::new(alloc, number);
    sites.push_reserved(SiteOf::new(alloc, number, conf, chunks)?);
    Ok(())
}

// Each relay opens.
fn open_sites<R: Wait, P: Parts, N, M: Machine>(
    rt: &R,
    alloc: Global,
    sites: &mut [SiteOf<P, N>],
    judge: &mut Judge<M>,
) -> Result<(), AllocError> {
    for site in sites.iter_mut() {
        open_first(rt, alloc, site, judge)?;
    }
    Ok(())
}

// Opens a relay that was never open.
fn open_first<R: Wait, P: Parts, N, M: Machine>(
    rt: &R,
    alloc: Global,
    site: &mut SiteOf<P, N>,
    judge: &mut Judge<M>,
) -> Result<(), AllocError> {
    if site.open(rt, alloc, Devices::SOUND)? {
        return Ok(());
    }
    judge.fail_relay(site.number, "doesn't open")
}

// Each event that was acknowledged to a client is kept as the plan asks.
fn ask_for_all<M: Machine>(judge: &mut Judge<M>) -> Result<(), AllocError> {
    match judge.machine.first_lost()? {
        Some(number) => judge.fail_at("event", &[number as u64], "isn't kept"),
        None => Ok(()),
    }
}

// Whether the relay at this place has to be opened again.
fn is_refusing<P: Parts, N>(sites: &[SiteOf<P, N>], at: usize) -> bool {
    match sites.get(at) {
        Some(site) => site.is_refusing(),
        None => false,
    }
}

// How many buffers the relay at this place has.
fn count_buffers<P: Parts, N>(sites: &[SiteOf<P, N>], at: usize) -> usize {
    match sites.get(at) {
        Some(site) => site.count_buffers(),
        None => 0,
    }
}

// The relay's end of a connection goes, if the relay is open.
fn cut<R: Wait, P: Parts, N>(
    rt: &R,
    sites: &mut [SiteOf<P, N>],
    links: &mut [Link<P::Client, P::Server>],
    at: usize,
) {
    let Some(link) = links.get_mut(at) else {
        return;
    };
    if let Some(site) = sites.get_mut(link.to) {
        site.hang_up(rt, link);
    }
}

// What is wrong, with the steps so far.
fn said<M: Machine>(alloc: Global, judge: &Judge<M>) -> Result<Option<String>, AllocError> {
    match judge.wrong() {
        Some(what) => Ok(Some(written(alloc, what, &judge.lines)?)),
        None => Ok(None),
    }
}

// What is wrong, and behind it the steps that weren't taken out.
fn written(alloc: Global, what: &str, lines: &[String]) -> Result<String, AllocError> {
    let mut text = String::new(alloc);
    put(&mut text, &["# ", what, "\n"])?;
    put_lines(&mut text, lines)?;
    Ok(text)
}

// The lines that weren't taken out.
fn put_lines(text: &mut String, lines: &[String]) -> Result<(), AllocError> {
    for line in lines {
        if !line.is_empty() {
            put(text, &[line.as_str(), "\n"])?;
        }
    }
    Ok(())
}

fn end_sites<R: Wait, P: Parts, N: Drop>(rt: &R, sites: Vec<SiteOf<P, N>>) {
    let mut rest = sites.into_iter();
    while let Some(site) = rest.next() {
        site.end(rt);
    }
    rest.destroy_empty();
}
