//! A network at one time, and how a step changes it.

ghost use Rattle.std.specs.Prelude.{◌≡◌, ◌≤◌, ◌↔◌, ℕ, length, None, IfSome, IfNone, IfOk, IfErr, IsTrue, OnOk, OnErr};
ghost use Rattle.std.specs.List.{list_any};
ghost use Rattle.custody_store.specs.Contents.{flag_at, stored_events};
ghost use Rattle.custody_store.specs.Places.{contents_at, closed_at};
ghost use Rattle.custody_steps.specs.Answers.{is_answer};
ghost use Rattle.custody_steps.specs.Open.{AreOfMessages, HaveNoLoops};
ghost use Rattle.custody_steps.specs.WorldFrom.{Shown, Shown-prop};
ghost use Rattle.custody_store.specs.Book.{told_events};

use crate::fault::StepFault;
use crate::found::Found;
use custody_store::{Acknowledged, Book, Event, Places, Spot, Spots, Stage, each_branch_keeps};
use relay_net::{Net, is_routed_tag};
use std::alloc::{AllocError, Allocator};
use step_lines::{ChunkName, Step};

/// A network at one time: what its buffers and sinks hold, and all that was ever sent.
pub struct World<'n, A: Allocator> {
    pub(crate) alloc: A,
    pub(crate) net: &'n Net<A>,
    pub(crate) places: Places<A>,
    // where entries lay when that was collected; it may be out of date
    spots: Spots<A>,
    pub(crate) book: Book<A>,
    ghost answers: { (p b s : ℕ)
        → flag_at (contents_at places p b).answered s ≡ list_any (is_answer p b s) book.messages },
    ghost closed: { (p : ℕ) → closed_at places p ≤ length book.deliveries },
    ghost sent: { AreOfMessages book.messages book.deliveries },
    ghost ending: { HaveNoLoops net.now book.messages book.deliveries },
    /// The network as the steps speak of it.
    pub ghost shown: { Shown places book } by { Shown-prop places book },
}

// By hand, so that crates above don't prove again how its parts end.
impl<'n, A: Allocator> Drop for World<'n, A> {
    fn drop(self) {
        let World {
            alloc: _,
            net: _,
            places: _,
            spots: _,
            book: _,
        } = self;
    }
}

impl<'n, A: Allocator + Copy> World<'n, A> {
    ghost use Rattle.custody_steps.specs.Found.{IsFound};
    ghost use Rattle.custody_store.specs.Contents.{event_of};
    ghost use Rattle.relay_net.specs.Routed.{IsRoutedTag};
    ghost use Rattle.custody_store.specs.Branches.{EachKeeps};
    ghost use Rattle.custody_steps.specs.Branches.{IsKeptEveryAnswer, IsKeptSoAnswer, KeepsSo};
    ghost use Rattle.custody_steps.specs.Held.{Held, HeldAs, IsKeptAnswer};
    ghost use Rattle.custody_steps.specs.Steps.{Answers, IsRefused, chunk_named, rule_of_step, sink_named};
    ghost use Rattle.custody_steps.specs.World.{initial_world};
    ghost use Rattle.custody_steps.specs.WorldOf.{world_of, net_of};

    /// The network before the first step: nothing was sent, and all buffers and sinks are empty.
    pub fn new(alloc: A, net: &'n Net<A>) -> Self
        ensures net { net_of result ≡ net.now }
        ensures opening { result.shown.world ≡ initial_world }
    {
        World {
            alloc,
            net,
            places: Places::new(alloc),
            spots: Spots::new(alloc),
            book: Book::new(alloc),
        }
    }

    /// The events that were acknowledged to clients, in the order of their acknowledgement, each
    /// under the tag that its client sent.
    pub fn acknowledged(&self) -> &[Acknowledged<A>]
        ensures { told_events result.now ≡ self.now.shown.world.acknowledged }
    {
        self.book.acknowledged()
    }

    /// Whether the event is in a live chunk of some buffer or in a sink. It looks at each of them.
    pub fn held(&self, tag: &[u8], entry: &[u8]) -> bool
        ensures { IsTrue result
            ↔ Held self.now.shown.world (record { tag = tag.now; entry = entry.now }) }
    {
        self.places.hold(tag, entry)
    }

    /// Goes through all that is held once, so that `kept` finds what lies where it lies now without
    /// going through it again. It changes no answer. An `Err` leaves all to be gone through as
    /// before.
    pub fn collect(&mut self) -> Result<(), AllocError>
        ensures net { net_of self.new ≡ net_of self.old }
        ensures same { self.new.shown.world ≡ self.old.shown.world }
    {
        self.spots = self.places.spots()?;
        Ok(())
    }

    /// Whether the event of this number, counted from 0, that was acknowledged to a client is held
    /// under a tag that it may bear: the one that the client sent, with the prefix of each source
    /// that it enters in front, along relabels and forwards. `None` where no event has this number.
    /// It looks where the event's entry lay when that was collected, and follows the event's ways;
    /// where the event isn't there, it looks at all that is held.
    pub fn kept(&self, number: usize) -> Result<Option<bool>, AllocError>
        ensures { IfOk result
            (λ answer. IsKeptAnswer (net_of self.now) self.now.shown.world number answer) }
    {
        self.kept_so(false, number)
    }

    // The same, or along each branch of its way.
    fn kept_so(&self, every: bool, number: usize) -> Result<Option<bool>, AllocError>
        ensures { IfOk result
            (λ answer. IsKeptSoAnswer every (net_of self.now) (world_of self.now) number answer) }
    {
        let Some(told) = self.book.acknowledged().get(number) else {
            return Ok(None);
        };
        let Some(client) = self.net.client(told.client) else {
            return Ok(Some(false));
        };
        let Some(host) = self.net.client_host(told.client) else {
            return Ok(Some(false));
        };
        let yes = self.is_kept_so(every, host, client.port, &told.event)?;
        Ok(Some(yes))
    }

    // Whether the event is kept so, if a message with it was sent to this host and port.
    fn is_kept_so(
        &self,
        every: bool,
        host: &[u8],
        port: u16,
        event: &Event<A>,
    ) -> Result<bool, AllocError>
        ensures { IfOk result
            (λ yes. IsTrue yes ↔ KeepsSo every (net_of self.now) (world_of self.now)
            (record { host = host.now; port = port }) (event_of event.now)) }
    {
        if every {
            self.is_kept_each(host, port, event)
        } else {
            self.is_kept(host, port, event)
        }
    }

    // Whether the event is held under a tag that it may bear, if a message with it was sent to this
    // host and port.
    fn is_kept(&self, host: &[u8], port: u16, event: &Event<A>) -> Result<bool, AllocError>
        ensures { IfOk result
            (λ yes. IsTrue yes ↔ HeldAs (net_of self.now) (world_of self.now)
            (record { host = host.now; port = port }) (event_of event.now)) }
    {
        if self.is_found(host, port, event)? {
            return Ok(true);
        }
        self.is_kept_anywhere(host, port, event)
    }

    // The same, where all that is held is looked at.
    fn is_kept_anywhere(&self, host: &[u8], port: u16, event: &Event<A>) -> Result<bool, AllocError>
        ensures { IfOk result
            (λ yes. IsTrue yes ↔ HeldAs (net_of self.now) (world_of self.now)
            (record { host = host.now; port = port }) (event_of event.now)) }
    {
        let tags = self.places.tags()?;
        for tag in &tags {
            if self.is_kept_under(host, port, event, tag.as_slice())? {
                return Ok(true);
            }
        }
        Ok(false)
    }

    // Whether the event is held at a spot where its entry lay, under a tag that it may bear, if a
    // message with it was sent to this host and port. Where it isn't, it may be held elsewhere.
    fn is_found(&self, host: &[u8], port: u16, event: &Event<A>) -> Result<bool, AllocError>
        ensures { IfOk result
            (λ yes. IsTrue yes → HeldAs (net_of self.now) (world_of self.now)
            (record { host = host.now; port = port }) (event_of event.now)) }
    {
        for spot in self.spots.of_entry(event.entry.as_slice()) {
            if self.is_found_at(*spot, host, port, event)? {
                return Ok(true);
            }
        }
        Ok(false)
    }

    // Whether it is held at this spot.
    fn is_found_at(
        &self,
        spot: Spot,
        host: &[u8],
        port: u16,
        event: &Event<A>,
    ) -> Result<bool, AllocError>
        ensures { IfOk result
            (λ yes. IsTrue yes → HeldAs (net_of self.now) (world_of self.now)
            (record { host = host.now; port = port }) (event_of event.now)) }
    {
        let Some(tag) = self.places.tag_at(spot, event.entry.as_slice()) else {
            return Ok(false);
        };
        is_routed_tag(self.alloc, self.net, host, port, event.tag.as_slice(), tag)
    }

    // Whether the event is held under this tag, and may bear it, if a message with it was sent to
    // this host and port.
    fn is_kept_under(
        &self,
        host: &[u8],
        port: u16,
        event: &Event<A>,
        tag: &[u8],
    ) -> Result<bool, AllocError>
        ensures { IfOk result
            (λ yes. IsTrue yes ↔
            (IsRoutedTag (net_of self.now)
            (record { host = host.now; port = port }) event.now.tag.items tag.now
            × Held (world_of self.now) (record { tag = tag.now; entry = event.now.entry.items }))) }
    {
        if !self.places.hold(tag, event.entry.as_slice()) {
            return Ok(false);
        }
        is_routed_tag(self.alloc, self.net, host, port, event.tag.as_slice(), tag)
    }

    /// Whether the event of this number, counted from 0, that was acknowledged to a client comes to
    /// a buffer, and is kept along each branch of its way: each buffer that it comes to has it in a
    /// live chunk or in its sink, or was given an acknowledgement of a message with it by a relay
    /// of the plan where it is kept so. `None` where no event has this number.
    /// It goes through all messages that were sent once for each that is found to be kept.
    pub fn kept_every(&self, number: usize) -> Result<Option<bool>, AllocError>
        ensures { IfOk result
            (λ answer. IsKeptEveryAnswer (net_of self.now) self.now.shown.world number answer) }
    {
        self.kept_so(true, number)
    }

    // Whether the event is kept along each branch of its way, if a message with it was sent to this
    // host and port.
    fn is_kept_each(&self, host: &[u8], port: u16, event: &Event<A>) -> Result<bool, AllocError>
        ensures { IfOk result
            (λ yes. IsTrue yes ↔ EachKeeps (net_of self.now) (world_of self.now).buffers
            (world_of self.now).messages
            (record { host = host.now; port = port }) event.now.tag.items event.now.entry.items) }
    {
        each_branch_keeps(
            self.alloc,
            self.net,
            &self.places,
            &self.book,
            host,
            port,
            event.tag.as_slice(),
            event.entry.as_slice(),
        )
    }

    /// What is in the sink of this output, by the number of its relay and its buffer; nothing where
    /// there is none.
    pub fn sink(&self, relay: u64, buffer: u64) -> &[Event<A>]
        ensures { stored_events result.now
            ≡ sink_named (net_of self.now) self.now.shown.world relay buffer }
    {
        match self.net.place(relay) {
            Some(place) => self.places.sink(place, buffer as usize),
            None => &[],
        }
    }

    // The live chunk of this name.
    pub(crate) fn find(&self, name: &ChunkName) -> Option<Found>
        ensures found { IfSome result (IsFound (net_of self.now) (world_of self.now) name.now) }
        ensures none { IfNone result
            (chunk_named (net_of self.now) (world_of self.now) name.now ≡ None) }
    {
        let place = self.net.place(name.relay)?;
        let buffer = name.buffer as usize;
        let serial = name.serial as usize;
        let look = self.places.look(place, buffer, serial)?;
        Some(Found {
            place,
            buffer,
            serial,
            look,
        })
    }

    // Takes a step, or says why not.
    fn take(&mut self, step: &Step<A>) -> Result<(), StepFault>
        ensures net { net_of self.new ≡ net_of self.old }
        ensures answer { Answers (net_of self.old) (world_of self.old) step.now
            (world_of self.new) result }
    {
        match step {
            Step::Send {
                client,
                tag,
                entries,
            } => self.send(*client, tag, entries),
            Step::Begin { message } => self.begin(*message),
            Step::Append {
                delivery,
                buffer,
                serial,
            } => self.append(*delivery, *buffer, *serial),
            Step::Ack { delivery } => self.acknowledge(*delivery),
            Step::Abandon { delivery } => self.abandon(*delivery),
            Step::Foreign { message } => self.foreign(*message),
            Step::Enqueue { chunk } => self.restage(chunk, Stage::Staged, Stage::Queued),
            Step::Claim { chunk } => self.restage(chunk, Stage::Queued, Stage::Claimed),
            Step::Back { chunk } => self.restage(chunk, Stage::Claimed, Stage::Queued),
            Step::Forward { chunk, server } => self.forward(chunk, *server),
            Step::Seen { chunk } => self.seen(chunk),
            Step::Write { chunk } => self.write(chunk),
            Step::Part { chunk, count } => self.part(chunk, *count),
            Step::Purge { chunk } => self.purge(chunk),
            Step::Done { chunk } => self.done(chunk),
            Step::Discard { chunk } => self.discard(chunk),
            Step::Oldest { relay, buffer } => self.drop_oldest(*relay, *buffer),
            Step::Restart { relay } => self.restart(*relay),
        }
    }

    /// Takes a step. It is refused as `NoSuch` where it names what isn't there, else as
    /// `NotAllowed` where what it asks for doesn't hold. `Memory` refuses only what would be
    /// allowed, but for `begin`, `append` and `ack`, where it may come before the way was found. A
    /// refusal changes nothing.
    /// The time doesn't depend on how much the network holds, but for the entries that the step
    /// moves, the way of the message, the buffers of a relay that starts again, and the serials
    /// that `oldest` passes, each once between restarts.
    pub fn step(&mut self, step: &Step<A>) -> Result<(), StepFault>
        ensures net { net_of self.new ≡ net_of self.old }
        ensures ok { OnOk result
            ((rule_of_step (net_of self.old) self.old.shown.world step.now).names
            × (rule_of_step (net_of self.old) self.old.shown.world step.now).allowed
            × (self.new.shown.world
            ≡ (rule_of_step (net_of self.old) self.old.shown.world step.now).after)) }
        ensures refused { IfErr result (IsRefused (net_of self.old) self.old.shown.world step.now) }
        ensures unchanged { OnErr result (self.new.shown.world ≡ self.old.shown.world) }
    {
        self.take(step)
    }
}
