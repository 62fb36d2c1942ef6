//! Which events are printed.

ghost use Rattle.std.specs.Prelude.{◌↔◌, ◌≤◌, length, IsTrue, IfOk};
ghost use Rattle.event_modes.specs.Message.{longest_tag};
ghost use Rattle.event_listing.specs.Choices.{IsChosen, IsTagChosen, IsTimeChosen};

use route_graph::have_tag;
use std::alloc::{AllocError, Allocator};
use std::marker::Model;
use tag_pattern::{Plain, Tag, TagError};

/// Which events are printed: those whose tag and time are chosen.
#[derive(Drop)]
pub struct Choice<A: Allocator> {
    /// The tag is one of these patterns; each tag where there are none.
    pub patterns: Vec<Plain<A>, A>,
    /// The time isn't before this, in nanoseconds since the beginning of 1970, if there is such a
    /// bound.
    pub since: Option<i128>,
    /// The time is before this.
    pub until: Option<i128>,
}

impl<A: Allocator> Model for Choice<A> {
    ghost use Rattle.event_listing.specs.Choices.{Chosen};

    ghost Value = { Chosen };

    ghost view = { λ c. record { patterns = c.patterns.items; since = c.since; until = c.until } };
}

impl<A: Allocator> Choice<A> {
    // Whether an event of this tag and this time is chosen. The error is want of memory.
    pub(crate) fn takes<B: Allocator>(
        &self,
        alloc: B,
        tag: &[u8],
        nanos: i128,
    ) -> Result<bool, AllocError>
        requires { length tag.now ≤ longest_tag }
        ensures { IfOk result (λ is. IsTrue is ↔ IsChosen self.now tag.now nanos) }
    {
        if !self.takes_tag(alloc, tag)? {
            return Ok(false);
        }
        Ok(self.takes_time(nanos))
    }

    // Whether this tag is chosen. The error is want of memory.
    fn takes_tag<B: Allocator>(&self, alloc: B, tag: &[u8]) -> Result<bool, AllocError>
        requires { length tag.now ≤ longest_tag }
        ensures { IfOk result (λ is. IsTrue is ↔ IsTagChosen self.now.patterns tag.now) }
    {
        if self.patterns.is_empty() {
            return Ok(true);
        }
        match Tag::read(alloc, tag) {
            Ok(tag) => Ok(have_tag(&self.patterns, &tag)),
            Err(TagError::Memory) => Err(AllocError),
            Err(TagError::TagTooLong) => unreachable!(),
        }
    }

    // Whether this time is chosen.
    fn takes_time(&self, nanos: i128) -> bool
        ensures { IsTrue result ↔ IsTimeChosen self.now nanos }
    {
        if let Some(since) = self.since
            && nanos < since
        {
            return false;
        }
        match self.until {
            Some(until) => nanos < until,
            None => true,
        }
    }
}
