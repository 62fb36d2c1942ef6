//! The steps on chunks, and restarts of relays.

ghost use Rattle.std.specs.Prelude.{◌≡◌, ◌↔◌, Some, IsSome, IsSomeAnd, IsTrue, IfOk, IfErr};

use crate::fault::StepFault;
use crate::found::Found;
use crate::outputs::{drops_oldest, forwards, gives_up, stores};
use crate::restarting::restart_buffers;
use crate::world::World;
use custody_store::Stage;
use std::alloc::Allocator;
use step_lines::{ChunkName, Step};

impl<'n, A: Allocator + Copy> World<'n, A> {
    ghost use Rattle.relay_net.specs.Network.{output_at};
    ghost use Rattle.custody_steps.specs.Found.{IsFound};
    ghost use Rattle.custody_steps.specs.Steps.{Answer, Answers, OfChunk, Refuses, chunk_named, with_named, Forwards, Stores, GivesUp};
    ghost use Rattle.custody_steps.specs.WorldOf.{world_of, net_of};

    // The live chunk of this name, if it is at this stage.
    fn at_stage(&self, name: &ChunkName, stage: Stage) -> Result<Found, StepFault>
        ensures found { IfOk result
            (λ found. IsFound (net_of self.now) (world_of self.now) name.now found
            × (found.look.stage ≡ stage)) }
        ensures refused { IfErr result
            (Refuses (IsSome (chunk_named (net_of self.now) (world_of self.now) name.now))
            (IsSomeAnd (chunk_named (net_of self.now) (world_of self.now) name.now)
            (λ chunk. chunk.stage ≡ stage))) }
    {
        let Some(found) = self.find(name) else {
            return Err(StepFault::NoSuch);
        };
        if found.look.stage != stage {
            return Err(StepFault::NotAllowed);
        }
        Ok(found)
    }

    // Puts a chunk that is at one stage to another.
    pub(crate) fn restage(
        &mut self,
        name: &ChunkName,
        from: Stage,
        to: Stage,
    ) -> Result<(), StepFault>
        ensures net { net_of self.new ≡ net_of self.old }
        ensures answer { Answer
            (IsSome (chunk_named (net_of self.old) (world_of self.old) name.now))
            (OfChunk (net_of self.old) (world_of self.old) name.now from (λ _. Unit {0}))
            (OfChunk (net_of self.old) (world_of self.old) name.now from (λ _. Unit {0}))
            (world_of self.old) (world_of self.new)
            (with_named (net_of self.old) (world_of self.old) name.now
            (λ chunk. Some (record chunk { stage = to }))) result }
    {
        let found = self.at_stage(name, from)?;
        self.set_stage(found, to)?;
        Ok(())
    }

    // Whether the chunk's output sends to further relays, and asks them for acknowledgements or
    // doesn't, as is said.
    fn is_forwarded(&self, found: Found, asks: bool) -> bool
        ensures { IsTrue result
            ↔ IsSomeAnd (output_at (net_of self.now) found.place found.buffer) (Forwards asks) }
    {
        match self.net.output(found.place, found.buffer) {
            Some(output) => forwards(output, asks),
            None => false,
        }
    }

    // Whether the chunk's output stores into a sink.
    fn is_stored(&self, found: Found) -> bool
        ensures { IsTrue result
            ↔ IsSomeAnd (output_at (net_of self.now) found.place found.buffer) Stores }
    {
        match self.net.output(found.place, found.buffer) {
            Some(output) => stores(output),
            None => false,
        }
    }

    // Whether the chunk's output gives a chunk up in the end.
    fn is_given_up(&self, found: Found) -> bool
        ensures { IsTrue result
            ↔ IsSomeAnd (output_at (net_of self.now) found.place found.buffer) GivesUp }
    {
        match self.net.output(found.place, found.buffer) {
            Some(output) => gives_up(output),
            None => false,
        }
    }

    // An acknowledgement of the claimed chunk was given, which is evidence.
    pub(crate) fn seen(&mut self, name: &ChunkName) -> Result<(), StepFault>
        ensures net { net_of self.new ≡ net_of self.old }
        ensures answer { Answers (net_of self.old) (world_of self.old) (Step.Seen name.now)
            (world_of self.new) result }
    {
        let found = self.at_stage(name, Stage::Claimed)?;
        if !self.is_forwarded(found, true) || !self.is_answered(found) {
            return Err(StepFault::NotAllowed);
        }
        self.prove_delivered(found);
        Ok(())
    }

    // A claimed chunk is stored in the sink whole, which is evidence.
    pub(crate) fn write(&mut self, name: &ChunkName) -> Result<(), StepFault>
        ensures net { net_of self.new ≡ net_of self.old }
        ensures answer { Answers (net_of self.old) (world_of self.old) (Step.Write name.now)
            (world_of self.new) result }
    {
        let found = self.at_stage(name, Stage::Claimed)?;
        if !self.is_stored(found) {
            return Err(StepFault::NotAllowed);
        }
        self.store_first(found, found.look.count)?;
        self.prove_delivered(found);
        Ok(())
    }

    // The first entries of a claimed chunk are stored in the sink.
    pub(crate) fn part(&mut self, name: &ChunkName, count: u64) -> Result<(), StepFault>
        ensures net { net_of self.new ≡ net_of self.old }
        ensures answer { Answers (net_of self.old) (world_of self.old) (Step.Part name.now count)
            (world_of self.new) result }
    {
        let found = self.at_stage(name, Stage::Claimed)?;
        let count = count as usize;
        if !self.is_stored(found) || count > found.look.count {
            return Err(StepFault::NotAllowed);
        }
        self.store_first(found, count)?;
        Ok(())
    }

    // A chunk that is certainly delivered goes.
    pub(crate) fn purge(&mut self, name: &ChunkName) -> Result<(), StepFault>
        ensures net { net_of self.new ≡ net_of self.old }
        ensures answer { Answers (net_of self.old) (world_of self.old) (Step.Purge name.now)
            (world_of self.new) result }
    {
        let found = self.at_stage(name, Stage::Claimed)?;
        if !found.look.evidence {
            return Err(StepFault::NotAllowed);
        }
        self.remove(found);
        Ok(())
    }

    // A chunk that was forwarded goes, where no acknowledgement is asked for.
    pub(crate) fn done(&mut self, name: &ChunkName) -> Result<(), StepFault>
        ensures net { net_of self.new ≡ net_of self.old }
        ensures answer { Answers (net_of self.old) (world_of self.old) (Step.Done name.now)
            (world_of self.new) result }
    {
        let found = self.at_stage(name, Stage::Claimed)?;
        if !self.is_forwarded(found, false) || !found.look.forwarded {
            return Err(StepFault::NotAllowed);
        }
        self.remove(found);
        Ok(())
    }

    // A chunk goes that its output gives up.
    pub(crate) fn discard(&mut self, name: &ChunkName) -> Result<(), StepFault>
        ensures net { net_of self.new ≡ net_of self.old }
        ensures answer { Answers (net_of self.old) (world_of self.old) (Step.Discard name.now)
            (world_of self.new) result }
    {
        let found = self.at_stage(name, Stage::Claimed)?;
        if !self.is_given_up(found) {
            return Err(StepFault::NotAllowed);
        }
        self.remove(found);
        Ok(())
    }

    // The oldest queued chunk goes from a buffer that lets it go.
    pub(crate) fn drop_oldest(&mut self, relay: u64, buffer: u64) -> Result<(), StepFault>
        ensures net { net_of self.new ≡ net_of self.old }
        ensures answer { Answers (net_of self.old) (world_of self.old) (Step.Oldest relay buffer)
            (world_of self.new) result }
    {
        let Some(place) = self.net.place(relay) else {
            return Err(StepFault::NoSuch);
        };
        let buffer = buffer as usize;
        let Some(output) = self.net.output(place, buffer) else {
            return Err(StepFault::NoSuch);
        };
        if !drops_oldest(output) || !self.remove_oldest(place, buffer) {
            return Err(StepFault::NotAllowed);
        }
        Ok(())
    }

    // A relay stops and starts again.
    pub(crate) fn restart(&mut self, relay: u64) -> Result<(), StepFault>
        ensures net { net_of self.new ≡ net_of self.old }
        ensures answer { Answers (net_of self.old) (world_of self.old) (Step.Restart relay)
            (world_of self.new) result }
    {
        let Some(place) = self.net.place(relay) else {
            return Err(StepFault::NoSuch);
        };
        self.places.close(place, self.book.delivery_count())?;
        restart_buffers(self.net, &mut self.places, place);
        Ok(())
    }
}
