//! The machine that judges a run.

use custody_core::is_kept_as;
use custody_steps::{Event, World};
use loss_checker::Plan;
use relay_net::Net;
use sink_series::SinkEvent;
use std::alloc::{AllocError, Global};
use step_lines::Step;

/// What takes the steps of a run, and says what is where behind them.
pub trait Machine: Drop {
    /// Takes the steps of a line, and says what is wrong with it, if anything.
    fn take(&mut self, alloc: Global, line: &str) -> Option<&'static str>;

    /// It is as it was before the first step.
    fn begin_again(&mut self, alloc: Global);

    /// The entries of a relay's sink.
    fn sink(&self, relay: u32, buffer: usize) -> &[Event<Global>];

    /// Whether an entry is held under this tag.
    fn holds(&self, tag: &[u8], entry: &[u8]) -> bool;

    /// The number of the first event that was acknowledged to a client and isn't kept as is asked.
    fn first_lost(&self) -> Result<Option<usize>, AllocError>;
}

/// The machine that is proved, over a plan.
pub struct Proved<'n> {
    plan: &'n Plan<Global>,
    world: World<'n, Global>,
}

impl<'n> Drop for Proved<'n> {
    fn drop(self) {
        let Proved { plan: _, world: _ } = self;
    }
}

impl<'n> Proved<'n> {
    /// Before the first step.
    pub fn new(alloc: Global, plan: &'n Plan<Global>) -> Proved<'n> {
        Proved {
            plan,
            world: World::new(alloc, plan.net()),
        }
    }
}

impl<'n> Machine for Proved<'n> {
    fn take(&mut self, alloc: Global, line: &str) -> Option<&'static str> {
        let Ok(steps) = Step::read_all(alloc, line.as_bytes()) else {
            return Some("no step");
        };
        take_all(&mut self.world, &steps)
    }

    fn begin_again(&mut self, alloc: Global) {
        self.world = World::new(alloc, self.plan.net());
    }

    fn sink(&self, relay: u32, buffer: usize) -> &[Event<Global>] {
        self.world.sink(u64::from(relay), buffer as u64)
    }

    fn holds(&self, tag: &[u8], entry: &[u8]) -> bool {
        self.world.held(tag, entry)
    }

    fn first_lost(&self) -> Result<Option<usize>, AllocError> {
        for number in 0..self.world.acknowledged().len() {
            if !is_kept_as(&self.world, self.plan.duty(), number)? {
                return Ok(Some(number));
            }
        }
        Ok(None)
    }
}

// Takes each of these steps.
fn take_all(world: &mut World<'_, Global>, steps: &[Step<Global>]) -> Option<&'static str> {
    let mut wrong = None;
    for step in steps {
        if world.step(step).is_err() {
            wrong = Some("the step isn't allowed");
        }
    }
    wrong
}

/// Whether a sink holds what was told, and nothing else.
pub fn is_same(found: &[SinkEvent<Global>], told: &[Event<Global>]) -> bool {
    if found.len() != told.len() {
        return false;
    }
    for (found, told) in found.iter().zip(told) {
        if found.tag() != told.tag.as_slice() || found.entry() != told.entry.as_slice() {
            return false;
        }
    }
    true
}
