//! The lines that are to be said: of a place at most one in a while.

ghost use Rattle.std.specs.Prelude.{◌≡◌, ◌<◌, All, IfNone, IfOk, IfSome, IsTrue, Some, length, replicate, slice_get};
ghost use Rattle.relay_notices.specs.declared.slot.Slot.{Slot};
ghost use Rattle.relay_notices.specs.Telling.{IsQuiet, IsSaid, is_due, tally_at, told_at, untold};

use crate::notice::Notice;
use crate::slot::{Pending, Slot, Tally};
use std::alloc::{AllocError, Allocator};
use std::marker::Model;

/// What was told of each place and isn't said yet. Contracts see the places, in their order.
#[derive(Drop)]
pub struct Limiter<A: Allocator> {
    slots: Vec<Slot, A>,
}

impl<A: Allocator> Model for Limiter<A> {
    ghost use Rattle.std.specs.Prelude.{List};
    ghost use Rattle.relay_notices.specs.declared.slot.Slot.{Slot};

    ghost Value = { List Slot };

    ghost view = { λ l. l.slots.items };
}

/// What is to be said now: of which place, and what.
#[derive(Clone, Copy, Debug, PartialEq, Eq)]
pub struct Due {
    pub place: usize,
    pub pending: Pending,
}

impl<A: Allocator> Limiter<A> {
    /// Nothing was told of any of so many places. The error is want of memory.
    pub fn new(alloc: A, places: usize) -> Result<Limiter<A>, AllocError>
        ensures { IfOk result (λ limiter. limiter ≡ replicate places untold) }
    {
        Ok(Limiter {
            slots: Vec::from_elem(alloc, Slot::UNTOLD, places)?,
        })
    }

    /// This is told of a place. Of what is no place nothing is kept. It takes no memory.
    pub fn tell(&mut self, place: usize, notice: Notice)
        ensures { self.new ≡ told_at place notice self.old }
    {
        if let Some(slot) = self.slots.get_mut(place) {
            *slot = slot.told(notice);
        }
    }

    /// What is to be said now: the first place of which something was told, and nothing said for
    /// ten seconds. `None` where there is none.
    pub fn take(&mut self, now: u64) -> Option<Due>
        ensures said { IfSome result (λ due. IsSaid now due self.old self.new) }
        ensures none { IfNone result (All (IsQuiet now) self.old) }
        ensures same { IfNone result (self.new ≡ self.old) }
    {
        let place = first_due(&self.slots, now)?;
        let slot = self.slots[place];
        let pending = slot.pending?;
        self.slots[place] = slot.said(now);
        Some(Due { place, pending })
    }

    /// How often a place worked and failed; `None` of what is no place.
    pub fn tally(&self, place: usize) -> Option<Tally>
        ensures { result ≡ tally_at place self.now }
    {
        match self.slots.get(place) {
            Some(slot) => Some(slot.tally),
            None => None,
        }
    }
}

// The first place of which something is to be said now.
fn first_due(slots: &[Slot], now: u64) -> Option<usize>
    ensures within { IfSome result (λ place. place < length slots.now) }
    ensures due { IfSome result
        (λ place. (slot : Slot) × (slice_get slots.now place ≡ Some slot)
        × IsTrue (is_due now slot)) }
    ensures none { IfNone result (All (IsQuiet now) slots.now) }
{
    slots.iter().position(|slot| slot.is_due(now))
}
