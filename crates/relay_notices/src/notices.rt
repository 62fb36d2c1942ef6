//! Notices that threads share.

use crate::limiter::{Due, Limiter};
use crate::notice::Notice;
use crate::slot::Tally;
use std::alloc::{AllocError, Allocator};
use std::sync::{Arc, Mutex, Wait};

/// What was told of a relay's places and isn't said yet, and the places' names. Threads share it:
/// no call holds its lock longer than for a look at each place, and none but `new` takes memory.
pub struct Notices<A: Allocator> {
    names: Vec<String<A>, A>,
    limiter: Mutex<Limiter<A>>,
}

// By hand, so that crates above don't prove again how its parts end.
impl<A: Allocator> Drop for Notices<A> {
    fn drop(self) {
        let Notices {
            names: _,
            limiter: _,
        } = self;
    }
}

impl<A: Allocator + Copy> Notices<A> {
    /// Nothing was told of the places of these names. The error is want of memory.
    pub fn new(alloc: A, names: Vec<String<A>, A>) -> Result<Notices<A>, AllocError> {
        let limiter = Limiter::new(alloc, names.len())?;
        Ok(Notices {
            names,
            limiter: Mutex::new(limiter),
        })
    }

    /// This is told of the place with this number in the list of names.
    pub fn tell<R: Wait>(&self, rt: &R, place: usize, notice: Notice) {
        self.limiter.lock(rt).tell(place, notice);
    }

    /// What is to be said now, in milliseconds since one fixed start.
    pub fn take<R: Wait>(&self, rt: &R, now: u64) -> Option<Due> {
        self.limiter.lock(rt).take(now)
    }

    /// How often the place with this number worked and failed; `None` of what is no place.
    pub fn tally<R: Wait>(&self, rt: &R, place: usize) -> Option<Tally> {
        self.limiter.lock(rt).tally(place)
    }

    /// How many places there are.
    pub fn places(&self) -> usize {
        self.names.len()
    }

    /// The name of this place.
    pub fn name(&self, place: usize) -> Option<&str> {
        Some(self.names.get(place)?.as_str())
    }
}

/// Tells of some places that stand one behind another, or of none.
pub struct Teller<A: Allocator> {
    notices: Option<Arc<Notices<A>, A>>,
    // The first of its places.
    first: usize,
}

impl<A: Allocator> Drop for Teller<A> {
    fn drop(self) {
        let Teller {
            notices: _notices,
            first: _,
        } = self;
    }
}

impl<A: Allocator + Copy> Teller<A> {
    /// Tells nothing.
    pub fn silent() -> Teller<A> {
        Teller {
            notices: None,
            first: 0,
        }
    }

    /// Tells of the places from this one on; of none where there is no memory.
    pub fn new(notices: &Arc<Notices<A>, A>, first: usize) -> Teller<A> {
        Teller {
            notices: Arc::try_clone(notices).ok(),
            first,
        }
    }

    /// Tells of the same places; of none where there is no memory.
    pub fn another(&self) -> Teller<A> {
        self.from(0)
    }

    /// Tells of its places from this one on; of none where there is no memory.
    pub fn from(&self, place: usize) -> Teller<A> {
        match &self.notices {
            Some(notices) => Teller::new(notices, self.first.saturating_add(place)),
            None => Teller::silent(),
        }
    }

    /// Tells this of the place with this number among its own.
    pub fn tell<R: Wait>(&self, rt: &R, place: usize, notice: Notice) {
        if let Some(notices) = &self.notices {
            notices.tell(rt, self.first.saturating_add(place), notice);
        }
    }
}
