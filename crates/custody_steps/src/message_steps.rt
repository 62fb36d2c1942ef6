//! The steps on messages and their deliveries; a chunk that is forwarded is one more message.

ghost use Rattle.std.specs.Prelude.{◌≡◌, ◌↔◌, ◌<◌, ℕ, length, true, Contains, IsTrue, IsSome, IsSomeAnd, IfSome, IfOk, IfErr, OnOk, OnErr, slice_get};
ghost use Rattle.tag_pattern.specs.Parts.{most_tag_bytes};

use crate::fault::StepFault;
use crate::found::Found;
use crate::world::World;
use custody_store::{Delivery, Message, Sender, Stage};
use relay_conf::{BufferNo, Server};
use relay_net::{Address, Entrance, server};
use route_graph::{Way, have_tag};
use std::alloc::{AllocError, Allocator};
use step_lines::{ChunkName, Step};
use tag_pattern::{Tag, TagError};

impl<'n, A: Allocator + Copy> World<'n, A> {
    ghost use Rattle.custody_store.specs.Buffers.{CanTake};
    ghost use Rattle.relay_net.specs.Ways.{HasLeaf, HasLoop};
    ghost use Rattle.std.specs.Option.{option_copied, option_and_then};
    ghost use Rattle.relay_net.specs.Network.{output_at, entrance as address_leads};
    ghost use Rattle.relay_net.specs.Outputs.{servers_of};
    ghost use Rattle.custody_steps.specs.Found.{chunk_of, sent_on};
    ghost use Rattle.custody_steps.specs.Steps.{Answers, OfDelivery, CanAppend, CanAcknowledge, tag_of, with_appended};
    ghost use Rattle.custody_steps.specs.WorldFrom.{open_after};
    ghost use Rattle.custody_steps.specs.WorldOf.{world_of, net_of};
    ghost use Rattle.custody_store.specs.Places.{closed_at};

    // A client sends a message to its source.
    pub(crate) fn send(
        &mut self,
        client: u64,
        tag: &Tag<A>,
        entries: &Vec<Vec<u8, A>, A>,
    ) -> Result<(), StepFault>
        ensures net { net_of self.new ≡ net_of self.old }
        ensures answer { Answers (net_of self.old) (world_of self.old)
            (Step.Send client tag.now entries.now) (world_of self.new) result }
    {
        let number = client as usize;
        let (Some(found), Some(host)) = (self.net.client(number), self.net.client_host(number))
        else {
            return Err(StepFault::NoSuch);
        };
        if !have_tag(found.patterns.as_slice(), tag) {
            return Err(StepFault::NotAllowed);
        }
        let address = Address::new(self.alloc, host, found.port)?;
        let sender = Sender::Client { number };
        self.book.send(sender, address, tag, entries.as_slice())?;
        Ok(())
    }

    // Where the message comes in.
    fn entrance(&self, message: &Message<A>) -> Option<Entrance>
        ensures { result ≡ address_leads (net_of self.now) message.now.address }
    {
        let address = message.address();
        self.net.entrance(address.host(), address.port())
    }

    // The tag that the message's events bear where it comes in.
    fn entered_tag(&self, message: &Message<A>) -> Result<Tag<A>, TagError>
        ensures tag { IfOk result (λ tag. tag ≡ tag_of (net_of self.now) message.now) }
        ensures too_long { (result ≡ Err TagError.TagTooLong)
            ↔ (most_tag_bytes < length (tag_of (net_of self.now) message.now)) }
    {
        let address = message.address();
        match self.net.prefix(address.host(), address.port()) {
            Some(prefix) => message.tag().prefixed(self.alloc, prefix),
            None => Tag::read(self.alloc, message.tag().as_bytes()),
        }
    }

    // Whether the way of the message that comes in there, under this tag, is a loop.
    fn has_loop(&self, at: Entrance, tag: &Tag<A>, message: &Message<A>) -> Result<bool, AllocError>
        ensures { IfOk result
            (λ yes. IsTrue yes ↔ HasLoop (net_of self.now) at tag.now message.now.entries) }
    {
        if message.entries().is_empty() {
            return Ok(false);
        }
        match self.net.way(at, tag)? {
            Way::Loop => Ok(true),
            Way::Leaves(_) => Ok(false),
        }
    }

    // Whether the buffer is a leaf of the delivery's message, if its way ends.
    fn has_leaf(
        &self,
        delivery: &Delivery<A>,
        message: &Message<A>,
        buffer: usize,
    ) -> Result<bool, AllocError>
        requires { ¬ HasLoop
            (net_of self.now) delivery.now.delivery.entrance delivery.now.delivery.tag
            message.now.entries }
        ensures { IfOk result
            (λ yes. IsTrue yes ↔ HasLeaf
            (net_of self.now) delivery.now.delivery.entrance delivery.now.delivery.tag
            message.now.entries buffer) }
    {
        if message.entries().is_empty() {
            return Ok(false);
        }
        match self.net.way(delivery.entrance(), delivery.tag())? {
            Way::Loop => Ok(false),
            Way::Leaves(leaves) => Ok(leaves.contains(&BufferNo(buffer))),
        }
    }

    // Whether the delivery was appended to each leaf of its message, if the way of that ends.
    fn is_whole(&self, delivery: &Delivery<A>, message: &Message<A>) -> Result<bool, AllocError>
        requires { ¬ HasLoop
            (net_of self.now) delivery.now.delivery.entrance delivery.now.delivery.tag
            message.now.entries }
        ensures { IfOk result
            (λ yes. IsTrue yes ↔
            ((buffer : ℕ) → HasLeaf
            (net_of self.now) delivery.now.delivery.entrance delivery.now.delivery.tag
            message.now.entries buffer → Contains delivery.now.delivery.appended buffer)) }
    {
        if message.entries().is_empty() {
            return Ok(true);
        }
        match self.net.way(delivery.entrance(), delivery.tag())? {
            Way::Loop => Ok(false),
            Way::Leaves(leaves) => Ok(leaves.iter().all(|leaf| delivery.has_appended(leaf.0))),
        }
    }

    // Whether the delivery of this number is open.
    fn is_open(&self, number: usize, delivery: &Delivery<A>) -> bool
        ensures { result ≡ (open_after
            (closed_at self.now.places) number delivery.now.delivery).is_open }
    {
        delivery.is_open() && self.places.closed(delivery.entrance().relay) <= number
    }

    // The relay takes a message whose tag, as it is prefixed there, is one, and whose way ends.
    pub(crate) fn begin(&mut self, message: u64) -> Result<(), StepFault>
        ensures net { net_of self.new ≡ net_of self.old }
        ensures answer { Answers (net_of self.old) (world_of self.old) (Step.Begin message)
            (world_of self.new) result }
    {
        let number = message as usize;
        let Some(found) = self.book.message(number) else {
            return Err(StepFault::NoSuch);
        };
        let Some(at) = self.entrance(found) else {
            return Err(StepFault::NotAllowed);
        };
        let tag = match self.entered_tag(found) {
            Ok(tag) => tag,
            Err(TagError::TagTooLong) => return Err(StepFault::NotAllowed),
            Err(TagError::Memory) => return Err(StepFault::Memory),
        };
        if self.has_loop(at, &tag, found)? {
            return Err(StepFault::NotAllowed);
        }
        self.book.begin(number, at, tag, 0)?;
        Ok(())
    }

    // Whether the delivery may be appended to the buffer at this serial.
    fn can_append(&self, number: usize, buffer: usize, serial: usize) -> Result<bool, AllocError>
        ensures ok { IfOk result
            (λ yes. IsTrue yes ↔ OfDelivery (world_of self.now) number
            (λ d m. CanAppend (net_of self.now) (world_of self.now) d m buffer serial)) }
        ensures err { OnErr result
            (OfDelivery (world_of self.now) number
            (λ d m. (d.is_open ≡ true) × (¬ Contains d.appended buffer)
            × CanTake ((world_of self.now).buffers d.entrance.relay buffer) d.tag serial)) }
    {
        let Some(found) = self.book.delivery(number) else {
            return Ok(false);
        };
        let Some(message) = self.book.message(found.message()) else {
            return Ok(false);
        };
        let at = found.entrance();
        if !self.is_open(number, found) || found.has_appended(buffer) {
            return Ok(false);
        }
        if !self
            .places
            .takes(at.relay, buffer, serial, found.tag().as_bytes())
        {
            return Ok(false);
        }
        self.has_leaf(found, message, buffer)
    }

    // A delivery is appended to a buffer.
    pub(crate) fn append(
        &mut self,
        delivery: u64,
        buffer: u64,
        serial: u64,
    ) -> Result<(), StepFault>
        ensures net { net_of self.new ≡ net_of self.old }
        ensures answer { Answers (net_of self.old) (world_of self.old)
            (Step.Append delivery buffer serial) (world_of self.new) result }
    {
        let (number, buffer, serial) = (delivery as usize, buffer as usize, serial as usize);
        if !self.has_output(number, buffer) {
            return Err(StepFault::NoSuch);
        }
        match self.can_append(number, buffer, serial) {
            Ok(true) => self.append_there(number, buffer, serial),
            Ok(false) => Err(StepFault::NotAllowed),
            Err(_refused) => Err(StepFault::Memory),
        }
    }

    // Whether the delivery is there, and its relay has an output of this buffer.
    fn has_output(&self, number: usize, buffer: usize) -> bool
        ensures { IsTrue result ↔ IsSomeAnd (slice_get (world_of self.now).deliveries number)
            (λ d. IsSome (output_at (net_of self.now) d.entrance.relay buffer)) }
    {
        match self.book.delivery(number) {
            Some(found) => self.net.output(found.entrance().relay, buffer).is_some(),
            None => false,
        }
    }

    // Appends a delivery that may be appended, as a step.
    fn append_there(&mut self, number: usize, buffer: usize, serial: usize) -> Result<(), StepFault>
        requires { OfDelivery (world_of self.old) number
            (λ d m. CanAppend (net_of self.old) (world_of self.old) d m buffer serial) }
        ensures net { net_of self.new ≡ net_of self.old }
        ensures ok { OnOk result
            (world_of self.new ≡ with_appended (world_of self.old) number buffer serial) }
        ensures err { IfErr result
            (λ e. (e ≡ StepFault.Memory) × (world_of self.new ≡ world_of self.old)) }
    {
        match self.take_in(number, buffer, serial) {
            Ok(()) => Ok(()),
            Err(_refused) => Err(StepFault::Memory),
        }
    }

    // Appends a delivery that may be appended. An `Err` changes nothing.
    fn take_in(&mut self, number: usize, buffer: usize, serial: usize) -> Result<(), AllocError>
        requires { OfDelivery (world_of self.old) number
            (λ d m. CanAppend (net_of self.old) (world_of self.old) d m buffer serial) }
        ensures net { net_of self.new ≡ net_of self.old }
        ensures ok { OnOk result
            (world_of self.new ≡ with_appended (world_of self.old) number buffer serial) }
        ensures err { OnErr result (world_of self.new ≡ world_of self.old) }
    {
        self.book.make_room(number)?;
        let Some(found) = self.book.delivery(number) else {
            return Ok(());
        };
        let Some(message) = self.book.message(found.message()) else {
            return Ok(());
        };
        let place = found.entrance().relay;
        self.places.make(place, buffer)?;
        self.places
            .take_in(place, buffer, serial, found.tag(), message.entries())?;
        self.book.mark_appended(number, buffer);
        Ok(())
    }

    // Whether the delivery may be acknowledged.
    fn can_acknowledge(&self, number: usize) -> Result<bool, AllocError>
        ensures ok { IfOk result
            (λ yes. IsTrue yes ↔ OfDelivery (world_of self.now) number
            (CanAcknowledge (net_of self.now))) }
        ensures err { OnErr result
            (OfDelivery (world_of self.now) number (λ d m. d.is_open ≡ true)) }
    {
        let Some(found) = self.book.delivery(number) else {
            return Ok(false);
        };
        let Some(message) = self.book.message(found.message()) else {
            return Ok(false);
        };
        if !self.is_open(number, found) {
            return Ok(false);
        }
        self.is_whole(found, message)
    }

    // A delivery is acknowledged, and ends.
    pub(crate) fn acknowledge(&mut self, delivery: u64) -> Result<(), StepFault>
        ensures net { net_of self.new ≡ net_of self.old }
        ensures answer { Answers (net_of self.old) (world_of self.old) (Step.Ack delivery)
            (world_of self.new) result }
    {
        let number = delivery as usize;
        let Some(found) = self.book.delivery(number) else {
            return Err(StepFault::NoSuch);
        };
        let message = found.message();
        let Some(sent) = self.book.message(message) else {
            return Err(StepFault::NotAllowed);
        };
        let sender = sent.sender();
        if !self.can_acknowledge(number)? {
            return Err(StepFault::NotAllowed);
        }
        self.answer(message, sender)?;
        self.book.end(number);
        Ok(())
    }

    // A delivery ends without an acknowledgement.
    pub(crate) fn abandon(&mut self, delivery: u64) -> Result<(), StepFault>
        ensures net { net_of self.new ≡ net_of self.old }
        ensures answer { Answers (net_of self.old) (world_of self.old) (Step.Abandon delivery)
            (world_of self.new) result }
    {
        let number = delivery as usize;
        let Some(found) = self.book.delivery(number) else {
            return Err(StepFault::NoSuch);
        };
        if !self.is_open(number, found) {
            return Err(StepFault::NotAllowed);
        }
        self.book.end(number);
        Ok(())
    }

    // Somebody outside of the network acknowledges a message.
    pub(crate) fn foreign(&mut self, message: u64) -> Result<(), StepFault>
        ensures net { net_of self.new ≡ net_of self.old }
        ensures answer { Answers (net_of self.old) (world_of self.old) (Step.Foreign message)
            (world_of self.new) result }
    {
        let number = message as usize;
        let Some(found) = self.book.message(number) else {
            return Err(StepFault::NoSuch);
        };
        let sender = found.sender();
        if self.entrance(found).is_some() {
            return Err(StepFault::NotAllowed);
        }
        self.mark_answered(number, sender)?;
        Ok(())
    }

    // A claimed chunk is sent to a server of its output.
    pub(crate) fn forward(&mut self, name: &ChunkName, server: u64) -> Result<(), StepFault>
        ensures net { net_of self.new ≡ net_of self.old }
        ensures answer { Answers (net_of self.old) (world_of self.old)
            (Step.Forward name.now server) (world_of self.new) result }
    {
        let Some(found) = self.find(name) else {
            return Err(StepFault::NoSuch);
        };
        let Some(to) = self.server(found, server as usize) else {
            return Err(StepFault::NoSuch);
        };
        if found.look.stage != Stage::Claimed {
            return Err(StepFault::NotAllowed);
        }
        let address = Address::new(self.alloc, to.host.as_bytes(), to.port)?;
        self.send_on(found, address)?;
        Ok(())
    }

    // The server of this number of the chunk's output.
    fn server(&self, found: Found, number: usize) -> Option<&Server<A>>
        ensures { option_copied result
            ≡ option_and_then (λ o. slice_get (servers_of o) number)
            (output_at (net_of self.now) found.place found.buffer) }
    {
        server(self.net.output(found.place, found.buffer)?, number)
    }

    // Sends a copy of the claimed chunk to this address. An `Err` changes nothing.
    fn send_on(&mut self, found: Found, address: Address<A>) -> Result<(), AllocError>
        requires { IsSomeAnd (chunk_of (world_of self.old) found)
            (λ chunk. chunk.stage ≡ Stage.Claimed) }
        ensures net { net_of self.new ≡ net_of self.old }
        ensures ok { OnOk result
            (IfSome (chunk_of (world_of self.old) found)
            (λ chunk. world_of self.new ≡ sent_on (world_of self.old) found address chunk)) }
        ensures err { OnErr result (world_of self.new ≡ world_of self.old) }
    {
        let Found {
            place,
            buffer,
            serial,
            ..
        } = found;
        let Some(copied) = self.places.copied(place, buffer, serial)? else {
            return Ok(());
        };
        let sender = Sender::Chunk {
            place,
            buffer,
            serial,
        };
        self.book
            .send(sender, address, &copied.tag, copied.entries.as_slice())?;
        self.places.mark_forwarded(place, buffer, serial);
        Ok(())
    }
}
