//! A list of steps that is being written, with the numbers that its messages, deliveries and chunks
//! get.

use relay_net::{Entrance, Net};
use std::alloc::{AllocError, Allocator};
use step_lines::{ChunkName, Step};
use tag_pattern::Tag;

// An append to a new chunk of a buffer, and whether a restart has emptied the buffer since.
#[derive(Clone, Copy, PartialEq, Eq)]
struct Appended {
    place: usize,
    buffer: usize,
    is_emptied: bool,
}

/// Steps that the machine hasn't taken yet. Each delivery is appended to a new chunk, so that a
/// chunk has one event.
#[derive(Drop)]
pub(crate) struct Draft<'n, A: Allocator> {
    alloc: A,
    net: &'n Net<A>,
    steps: Vec<Step<A>, A>,
    messages: u64,
    deliveries: u64,
    appended: Vec<Appended, A>,
}

impl<'n, A: Allocator + Copy> Draft<'n, A> {
    /// No steps.
    pub fn new(alloc: A, net: &'n Net<A>) -> Draft<'n, A> {
        Draft {
            alloc,
            net,
            steps: Vec::new(alloc),
            messages: 0,
            deliveries: 0,
            appended: Vec::new(alloc),
        }
    }

    /// The steps.
    pub fn into_steps(self) -> Vec<Step<A>, A> {
        self.steps
    }

    /// The name of the chunk with this serial, of this buffer of the relay at this place. A relay
    /// that isn't there is named as no relay is.
    pub fn name(&self, place: usize, buffer: usize, serial: u64) -> ChunkName {
        ChunkName {
            relay: self.number(place),
            buffer: buffer as u64,
            serial,
        }
    }

    // The number of the relay at this place.
    fn number(&self, place: usize) -> u64 {
        match self.net.relays().get(place) {
            Some(node) => u64::from(node.number),
            None => u64::MAX,
        }
    }

    /// The client sends a message with one event. The message's number is the result.
    pub fn send(&mut self, client: usize, tag: &Tag<A>, entry: &[u8]) -> Result<u64, AllocError> {
        let sent = Vec::from_slice(self.alloc, entry)?;
        let mut entries = Vec::new(self.alloc);
        entries.push(sent)?;
        let step = Step::Send {
            client: client as u64,
            tag: tag.copied(self.alloc)?,
            entries,
        };
        self.steps.push(step)?;
        Ok(self.next_message())
    }

    // The number of the next message.
    fn next_message(&mut self) -> u64 {
        let number = self.messages;
        self.messages = number.saturating_add(1);
        number
    }

    /// A delivery of the message opens. Its number is the result.
    pub fn begin(&mut self, message: u64) -> Result<u64, AllocError> {
        self.steps.push(Step::Begin { message })?;
        let number = self.deliveries;
        self.deliveries = number.saturating_add(1);
        Ok(number)
    }

    /// The delivery is appended to a new chunk of this buffer of the relay where it came in. The
    /// chunk's serial is the result.
    pub fn append(
        &mut self,
        delivery: u64,
        at: Entrance,
        buffer: usize,
    ) -> Result<u64, AllocError> {
        let serial = self.next_serial(at.relay, buffer);
        self.steps.push(Step::Append {
            delivery,
            buffer: buffer as u64,
            serial,
        })?;
        self.appended.push(Appended {
            place: at.relay,
            buffer,
            is_emptied: false,
        })?;
        Ok(serial)
    }

    // The serial of the buffer's next chunk.
    fn next_serial(&self, place: usize, buffer: usize) -> u64 {
        let here = Appended {
            place,
            buffer,
            is_emptied: false,
        };
        let count = self.appended.iter().filter(|other| **other == here).count();
        count as u64
    }

    /// The delivery is acknowledged.
    pub fn acknowledge(&mut self, delivery: u64) -> Result<(), AllocError> {
        self.steps.push(Step::Ack { delivery })?;
        Ok(())
    }

    /// Somebody outside the plan acknowledges the message.
    pub fn acknowledge_outside(&mut self, message: u64) -> Result<(), AllocError> {
        self.steps.push(Step::Foreign { message })?;
        Ok(())
    }

    /// The relay at this place stops and starts again.
    pub fn restart(&mut self, place: usize) -> Result<(), AllocError> {
        let relay = self.number(place);
        self.steps.push(Step::Restart { relay })?;
        self.empty(place);
        Ok(())
    }

    /// Whether a restart has emptied this buffer of the relay at this place since its last append.
    pub fn is_emptied(&self, place: usize, buffer: usize) -> bool {
        self.next_serial(place, buffer) == 0
    }

    // The relay's buffers in memory are empty, and count their chunks anew.
    fn empty(&mut self, place: usize) {
        for appended in &mut self.appended {
            if appended.place == place && self.net.is_in_memory(place, appended.buffer) {
                appended.is_emptied = true;
            }
        }
    }

    /// The chunk is queued and claimed.
    pub fn claim(&mut self, chunk: ChunkName) -> Result<(), AllocError> {
        self.steps.push(Step::Enqueue { chunk })?;
        self.steps.push(Step::Claim { chunk })?;
        Ok(())
    }

    /// The claimed chunk is sent to the server with this index. The message's number is the result.
    pub fn forward(&mut self, chunk: ChunkName, server: usize) -> Result<u64, AllocError> {
        self.steps.push(Step::Forward {
            chunk,
            server: server as u64,
        })?;
        Ok(self.next_message())
    }

    /// The chunk goes, since its server's acknowledgement was seen.
    pub fn purge_seen(&mut self, chunk: ChunkName) -> Result<(), AllocError> {
        self.steps.push(Step::Seen { chunk })?;
        self.steps.push(Step::Purge { chunk })?;
        Ok(())
    }

    /// The chunk goes, since it was sent and no acknowledgement is asked for.
    pub fn finish(&mut self, chunk: ChunkName) -> Result<(), AllocError> {
        self.steps.push(Step::Done { chunk })?;
        Ok(())
    }

    /// The chunk is discarded.
    pub fn discard(&mut self, chunk: ChunkName) -> Result<(), AllocError> {
        self.steps.push(Step::Discard { chunk })?;
        Ok(())
    }

    /// The chunk is queued, and then goes as the oldest of its buffer.
    pub fn drop_oldest(&mut self, chunk: ChunkName) -> Result<(), AllocError> {
        self.steps.push(Step::Enqueue { chunk })?;
        self.steps.push(Step::Oldest {
            relay: chunk.relay,
            buffer: chunk.buffer,
        })?;
        Ok(())
    }
}
