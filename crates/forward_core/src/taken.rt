//! What the bytes at hand come to.

ghost use Rattle.std.specs.Prelude.{◌≡◌, ◌++◌, ◌∷◌, [], map, true, OnOk};
ghost use Rattle.event_modes.specs.Reading.{meaning};
ghost use Rattle.forward_core.specs.declared.taken.Standing.TheVariants.{Closed, Open};
ghost use Rattle.forward_core.specs.Demands.{Closes, Delivers, wanted};

use crate::demand::Demand;
use crate::fault::SessionFault;
use event_modes::Message;
use std::alloc::{AllocError, Allocator};

/// Where a session stands after them.
#[derive(Clone, Copy)]
pub enum Standing {
    /// Where it stood before.
    Same,
    /// Messages may come.
    Open,
    /// It is over.
    Closed,
}

/// What the bytes at hand come to.
#[derive(Drop)]
pub struct TakenItem<A: Allocator> {
    pub stage: Standing,
    /// How many of them were read.
    pub len: usize,
    /// What is to be sent.
    pub sends: Vec<u8, A>,
    pub demands: Vec<Demand<A>, A>,
}

impl<A: Allocator + Copy> TakenItem<A> {
    /// Nothing was read, and this is to be sent.
    pub fn new(alloc: A, stage: Standing, sends: Vec<u8, A>) -> Self
        ensures stage { result.stage ≡ stage }
        ensures len { result.len ≡ 0 }
        ensures sends { result.sends ≡ sends }
        ensures demands { result.demands.items ≡ [] }
    {
        TakenItem {
            stage,
            len: 0,
            sends,
            demands: Vec::new(alloc),
        }
    }

    /// The message is to be delivered. An error may leave a part of this behind.
    pub fn deliver(&mut self, message: Message<A>) -> Result<(), AllocError>
        ensures demands { OnOk result (map wanted self.new.demands.items
            ≡ map wanted self.old.demands.items ++ Delivers (meaning message) ∷ []) }
        ensures stage { self.new.stage ≡ self.old.stage }
        ensures len { self.new.len ≡ self.old.len }
        ensures sends { self.new.sends ≡ self.old.sends }
    {
        self.demands.push(Demand::Deliver(message))?;
        Ok(())
    }

    /// The session is over. An error may leave a part of this behind.
    pub fn close(&mut self, fault: SessionFault) -> Result<(), AllocError>
        ensures demands { OnOk result (map wanted self.new.demands.items
            ≡ map wanted self.old.demands.items ++ Closes fault ∷ []) }
        ensures stage { OnOk result (self.new.stage ≡ Closed) }
        ensures len { self.new.len ≡ self.old.len }
        ensures sends { self.new.sends ≡ self.old.sends }
    {
        self.demands.push(Demand::Close(fault))?;
        self.stage = Standing::Closed;
        Ok(())
    }

    /// Whether so many bytes were read, and messages may come behind them.
    pub fn has_read(&self, len: usize) -> bool
        ensures len { result ≡ true → self.now.len ≡ len }
        ensures stage { result ≡ true → self.now.stage ≡ Open }
    {
        match self.stage {
            Standing::Open => self.len == len,
            _ => false,
        }
    }
}
