//! The runs of a network that was drawn.

use crate::dice::Dice;
use crate::drawing::{Drawing, draw};
use crate::lent::Lent;
use crate::machine::Proved;
use crate::playing::{Script, play};
use crate::product::OpenRelay;
use crate::text::{put, put_number};
use disk_files::{Fuse, MemoryDir};
use label_plan::labelled_text;
use loss_checker::{Answer, Plan, check, conf_names};
use std::alloc::{AllocError, Global};
use std::sync::Wait;
use std::time::Clock;

/// The network of a seed, and its plan; none where the text isn't one.
pub struct Drawn {
    pub seed: u64,
    pub drawing: Drawing,
    plan: Option<Plan<Global>>,
}

impl Drop for Drawn {
    fn drop(self) {
        let Drawn {
            seed: _,
            drawing: _,
            plan: _,
        } = self;
    }
}

// What runs where a network is played.
type Product = OpenRelay<Lent<Fuse<MemoryDir<Global>>>>;

/// Runs so many seeds, from this one on, and says what is printed of the first whose run is wrong;
/// nothing where all went well.
pub fn run_all<R: Wait + Clock>(
    rt: &R,
    alloc: Global,
    first: u64,
    count: u64,
) -> Result<Option<String>, AllocError> {
    for seed in first..first.saturating_add(count) {
        let wrong = run_one(rt, alloc, seed)?;
        if wrong.is_some() {
            return Ok(wrong);
        }
    }
    Ok(None)
}

// The same of one seed.
fn run_one<R: Wait + Clock>(
    rt: &R,
    alloc: Global,
    seed: u64,
) -> Result<Option<String>, AllocError> {
    let drawn = Drawn::new(alloc, seed)?;
    drawn.told_with(rt, alloc, &drawn.acts(alloc)?)
}

impl Drawn {
    /// Draws the network of this seed.
    pub fn new(alloc: Global, seed: u64) -> Result<Drawn, AllocError> {
        let mut dice = Dice::new(seed);
        let mut drawing = draw(alloc, &mut dice)?;
        let plan = plan_of(alloc, &mut drawing)?;
        Ok(Drawn {
            seed,
            drawing,
            plan,
        })
    }

    /// The numbers of all acts of its run.
    pub fn acts(&self, alloc: Global) -> Result<Vec<u64>, AllocError> {
        let mut all = Vec::new(alloc);
        for act in 0..self.drawing.acts {
            all.push(act)?;
        }
        Ok(all)
    }

    /// What is wrong with the run that has these acts alone, and its steps; nothing where it went
    /// well.
    pub fn wrong_with<R: Wait + Clock>(
        &self,
        rt: &R,
        alloc: Global,
        acts: &[u64],
    ) -> Result<Option<String>, AllocError> {
        let Some(plan) = &self.plan else {
            return Ok(Some(String::from_str(alloc, "# the plan isn't one\n")?));
        };
        let script = Script {
            first: self.drawing.first,
            confs: &self.drawing.confs,
            keeps_all: check(alloc, plan)? == Answer::Yes,
            seed: self.seed,
            acts,
        };
        play::<R, Product, Proved<'_>>(rt, alloc, &script, Proved::new(alloc, plan))
    }

    /// What is printed of that run, where it is wrong.
    pub fn told_with<R: Wait + Clock>(
        &self,
        rt: &R,
        alloc: Global,
        acts: &[u64],
    ) -> Result<Option<String>, AllocError> {
        match self.wrong_with(rt, alloc, acts)? {
            Some(what) => Ok(Some(told(alloc, self.seed, &self.drawing, &what)?)),
            None => Ok(None),
        }
    }
}

// What is printed of the run of this seed, with which this is wrong.
fn told(alloc: Global, seed: u64, drawing: &Drawing, what: &str) -> Result<String, AllocError> {
    let mut text = String::new(alloc);
    put_number(&mut text, "seed ", seed, "\n== plan\n")?;
    text.push_str(drawing.plan.as_str())?;
    put_confs(&mut text, drawing.first, &drawing.confs)?;
    put(&mut text, &["\n== steps\n", what])?;
    Ok(text)
}

// The configurations of the relays, whose numbers are these from the first on.
fn put_confs(text: &mut String, first: u32, confs: &[Vec<u8>]) -> Result<(), AllocError> {
    let mut number = u64::from(first);
    for conf in confs {
        put_number(text, "\n== ", number, ".conf\n")?;
        text.push_str(str::from_utf8(conf).unwrap_or(""))?;
        number = number.saturating_add(1);
    }
    Ok(())
}

// The plan of these texts, labelled where labels are found; `None` where it isn't one.
fn plan_of(alloc: Global, drawing: &mut Drawing) -> Result<Option<Plan<Global>>, AllocError> {
    let plain = drawing.plan.as_bytes();
    if conf_names(alloc, plain)?.len() != drawing.confs.len() {
        return Ok(None);
    }
    if let Ok(Some(labelled)) = labelled_text(alloc, plain, &drawing.confs) {
        if let Ok(text) = String::from_utf8(labelled) {
            drawing.plan = text;
        }
    }
    let text = drawing.plan.as_bytes();
    if conf_names(alloc, text)?.len() != drawing.confs.len() {
        return Ok(None);
    }
    Ok(Plan::read(alloc, text, &drawing.confs).ok())
}
