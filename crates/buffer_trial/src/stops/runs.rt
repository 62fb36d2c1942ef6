//! Which calls of a device fail, which stops there are behind them, and how many folders were
//! looked at.

use crate::stops::looking::Wrong;
use disk_files::{Dir, Fuse, Keep, MemoryDir};
use std::alloc::Allocator;

/// A folder that can be made anew, and stopped.
pub trait Stopping<A: Allocator + Copy>: Dir + Drop {
    /// A folder without files.
    fn made(alloc: A) -> Self;

    /// What a stop leaves of it.
    fn left(self, keep: Keep) -> Self;
}

impl<A: Allocator + Copy> Stopping<A> for MemoryDir<A> {
    fn made(alloc: A) -> Self {
        MemoryDir::new(alloc)
    }

    fn left(self, keep: Keep) -> Self {
        self.stop(keep)
    }
}

/// What is done to a folder.
#[derive(Clone, Copy)]
pub struct Run {
    /// How much is done first, on a device that fails nothing.
    pub before: usize,
    /// How many calls of the device pass then.
    pub passes: u64,
    /// Whether the call behind them fails alone, or with all behind it.
    pub is_alone: bool,
    /// What a stop keeps; without one the folder is opened as it is.
    pub stop: Option<Keep>,
}

impl Run {
    /// All calls behind so many fail, and no stop comes.
    pub fn new(before: usize, passes: u64) -> Run {
        Run {
            before,
            passes,
            is_alone: false,
            stop: None,
        }
    }

    /// The same with a stop that keeps so much.
    pub fn stopped_by(&self, keep: Keep) -> Run {
        Run {
            stop: Some(keep),
            ..*self
        }
    }

    /// The folder on the run's device.
    pub fn on_device<D: Dir>(&self, dir: D) -> Fuse<D> {
        if self.is_alone {
            Fuse::once(dir, self.passes)
        } else {
            Fuse::after(dir, self.passes)
        }
    }

    /// The folder behind the run's stop.
    pub fn stopped<A: Allocator + Copy, D: Stopping<A>>(&self, dir: Fuse<D>) -> D {
        match self.stop {
            None => dir.into_inner(),
            Some(keep) => dir.into_inner().left(keep),
        }
    }
}

/// Three stops: none, and those that keep the least and the greatest.
pub static STOPS: [Option<Keep>; 3] = [None, Some(Keep::Least), Some(Keep::Greatest)];

/// What a run comes to: what is wrong with the folder that it leaves, and whether no call failed.
#[derive(Clone, Copy)]
pub struct Found {
    pub wrong: Option<Wrong>,
    pub is_whole: bool,
}

// How long the file of this name is; none is as an empty one.
fn length_of<D: Dir>(dir: &mut D, name: &[u8]) -> usize {
    match dir.open(name) {
        Ok(file) => dir.length(file).unwrap_or(0),
        Err(_) => 0,
    }
}

/// The lengths of the one file that is shorter in the first folder than in the second: the one that
/// was written to last, where stops kept no byte more of it than was synced, and all. Where there
/// is none, no length is between them.
pub fn lengths<D: Dir + Drop>(few: D, all: D, names: &[&[u8]]) -> (usize, usize) {
    let mut few = few;
    let mut all = all;
    for name in names {
        let least = length_of(&mut few, name);
        let most = length_of(&mut all, name);
        if least < most {
            return (least, most);
        }
    }
    (0, 0)
}

/// How many folders were looked at, and how many were wrong.
#[derive(Clone, Copy)]
pub struct Tally {
    pub folders: u64,
    pub wrong: u64,
}

impl Tally {
    pub fn new() -> Tally {
        Tally {
            folders: 0,
            wrong: 0,
        }
    }

    /// One folder more.
    pub fn count(&mut self, is_wrong: bool) {
        self.folders = self.folders.saturating_add(1);
        if is_wrong {
            self.wrong = self.wrong.saturating_add(1);
        }
    }
}
