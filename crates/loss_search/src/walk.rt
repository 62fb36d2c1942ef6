//! One event's way through a network to where it is lost.

use crate::draft::Draft;
use crate::weakness::{Weakness, servers, weakness_of};
use loss_rules::Duty;
use relay_conf::BufferNo;
use relay_net::{Entrance, Net};
use route_graph::Way;
use std::alloc::{AllocError, AllocFailed, Allocator};
use std::collections::VecDeque;
use step_lines::{ChunkName, Step};
use tag_pattern::{Tag, TagError};

// How many chunks one event is followed through at most.
const MOST_CHUNKS: u32 = 64;

// The entry of the event, as steps spell it: `e1`.
const ENTRY: &[u8] = &[0xe1];

/// Why a walk has no end where the event is lost.
#[derive(Clone, Copy, PartialEq, Eq)]
pub(crate) enum Halt {
    /// Some chunk stays, or the event never comes in.
    Kept,
    /// So many ways go on from here, and none was chosen.
    Open(usize),
    /// Memory ran out.
    Memory,
}

impl From<AllocError> for Halt {
    fn from(_refused: AllocError) -> Halt {
        Halt::Memory
    }
}

impl<T: Drop> From<AllocFailed<T>> for Halt {
    fn from(_refused: AllocFailed<T>) -> Halt {
        Halt::Memory
    }
}

// A chunk with the event, and the tag that it bears there.
#[derive(Drop)]
struct Chunk<A: Allocator> {
    place: usize,
    buffer: usize,
    serial: u64,
    tag: Tag<A>,
}

// A walk so far: its steps, the chunks that are still to be lost, and how many of the choices it
// took.
#[derive(Drop)]
struct Walk<'n, A: Allocator> {
    alloc: A,
    net: &'n Net<A>,
    duty: Duty,
    choices: &'n [usize],
    chosen: usize,
    draft: Draft<'n, A>,
    ahead: VecDeque<Chunk<A>, A>,
}

/// Steps by which an event of this client, under this tag, may be lost. Where several servers could
/// lose it, or, under the duty every, several branches, the next of the choices is taken; where
/// there is none, the walk is open.
pub(crate) fn walk_event<'n, A: Allocator + Copy>(
    alloc: A,
    net: &'n Net<A>,
    duty: Duty,
    choices: &'n [usize],
    client: usize,
    tag: &Tag<A>,
) -> Result<Vec<Step<A>, A>, Halt> {
    let mut walk = Walk {
        alloc,
        net,
        duty,
        choices,
        chosen: 0,
        draft: Draft::new(alloc, net),
        ahead: VecDeque::new(alloc),
    };
    walk.send(client, tag)?;
    for _ in 0..MOST_CHUNKS {
        match walk.ahead.pop_front() {
            Some(chunk) => walk.lose(&chunk)?,
            None => return Ok(walk.draft.into_steps()),
        }
    }
    Err(Halt::Kept)
}

impl<A: Allocator + Copy> Walk<'_, A> {
    // The client sends the event to its source, and is told that it has come.
    fn send(&mut self, client: usize, tag: &Tag<A>) -> Result<(), Halt> {
        let message = self.draft.send(client, tag, ENTRY)?;
        let Some(sender) = self.net.client(client) else {
            return Err(Halt::Kept);
        };
        let Some(host) = self.net.client_host(client) else {
            return Err(Halt::Kept);
        };
        match self.net.entrance(host, sender.port) {
            Some(at) => self.deliver(message, at, host, sender.port, tag),
            None => Err(Halt::Kept),
        }
    }

    // The message comes in there, and is acknowledged once each buffer on its way has the event.
    fn deliver(
        &mut self,
        message: u64,
        at: Entrance,
        host: &[u8],
        port: u16,
        tag: &Tag<A>,
    ) -> Result<(), Halt> {
        let borne = self.entered(host, port, tag)?;
        let leaves = match self.net.way(at, &borne)? {
            Way::Leaves(leaves) => leaves,
            Way::Loop => return Err(Halt::Kept),
        };
        let branch = self.branch(leaves.len())?;
        let delivery = self.draft.begin(message)?;
        for (number, leaf) in leaves.iter().enumerate() {
            let serial = self.draft.append(delivery, at, leaf.0)?;
            if branch.is_none() || branch == Some(number) {
                self.follow(at.relay, *leaf, serial, &borne)?;
            }
        }
        self.draft.acknowledge(delivery)?;
        Ok(())
    }

    // The tag that the event bears where a message with this tag to this address comes in.
    fn entered(&self, host: &[u8], port: u16, tag: &Tag<A>) -> Result<Tag<A>, Halt> {
        let Some(prefix) = self.net.prefix(host, port) else {
            return Ok(tag.copied(self.alloc)?);
        };
        match tag.prefixed(self.alloc, prefix) {
            Ok(borne) => Ok(borne),
            Err(TagError::TagTooLong) => Err(Halt::Kept),
            Err(TagError::Memory) => Err(Halt::Memory),
        }
    }

    // Which of so many buffers has to lose the event: under the duty every one of them, else each.
    fn branch(&mut self, buffers: usize) -> Result<Option<usize>, Halt> {
        match self.duty {
            Duty::Every if buffers > 0 => Ok(Some(self.choose(buffers)?)),
            _ => Ok(None),
        }
    }

    // Which of so many ways is taken.
    fn choose(&mut self, ways: usize) -> Result<usize, Halt> {
        if ways < 2 {
            return Ok(0);
        }
        let Some(choice) = self.choices.get(self.chosen) else {
            return Err(Halt::Open(ways));
        };
        self.chosen = self.chosen.saturating_add(1);
        Ok(*choice)
    }

    // The chunk of this buffer has to be lost too.
    fn follow(
        &mut self,
        place: usize,
        buffer: BufferNo,
        serial: u64,
        tag: &Tag<A>,
    ) -> Result<(), Halt> {
        let chunk = Chunk {
            place,
            buffer: buffer.0,
            serial,
            tag: tag.copied(self.alloc)?,
        };
        self.ahead.push_back(chunk)?;
        Ok(())
    }

    // The chunk goes, or is handed on.
    fn lose(&mut self, chunk: &Chunk<A>) -> Result<(), Halt> {
        let Some(output) = self.net.output(chunk.place, chunk.buffer) else {
            return Err(Halt::Kept);
        };
        let name = self.draft.name(chunk.place, chunk.buffer, chunk.serial);
        match weakness_of(output) {
            Weakness::Forgets => self.forget(chunk),
            Weakness::GivesUp => self.give_up(name),
            Weakness::DropsOldest => Ok(self.draft.drop_oldest(name)?),
            Weakness::SendsOnce => self.send_once(name),
            Weakness::HandsOn => self.hand_on(chunk, name),
            Weakness::Keeps => Err(Halt::Kept),
        }
    }

    // The chunk's relay starts again, unless it did since the chunk came.
    fn forget(&mut self, chunk: &Chunk<A>) -> Result<(), Halt> {
        if !self.draft.is_emptied(chunk.place, chunk.buffer) {
            self.draft.restart(chunk.place)?;
        }
        Ok(())
    }

    // The chunk is discarded.
    fn give_up(&mut self, chunk: ChunkName) -> Result<(), Halt> {
        self.draft.claim(chunk)?;
        self.draft.discard(chunk)?;
        Ok(())
    }

    // The chunk is sent to a connection that breaks, and goes.
    fn send_once(&mut self, chunk: ChunkName) -> Result<(), Halt> {
        self.draft.claim(chunk)?;
        let _lost = self.draft.forward(chunk, 0)?;
        self.draft.finish(chunk)?;
        Ok(())
    }

    // The chunk is sent to a server, which acknowledges it, and goes.
    fn hand_on(&mut self, chunk: &Chunk<A>, name: ChunkName) -> Result<(), Halt> {
        let Some(output) = self.net.output(chunk.place, chunk.buffer) else {
            return Err(Halt::Kept);
        };
        let there = servers(output);
        let number = self.choose(there.len())?;
        let Some(server) = there.get(number) else {
            return Err(Halt::Kept);
        };
        self.draft.claim(name)?;
        let message = self.draft.forward(name, number)?;
        let host = server.host.as_bytes();
        match self.net.entrance(host, server.port) {
            Some(at) => self.deliver(message, at, host, server.port, &chunk.tag)?,
            None => self.draft.acknowledge_outside(message)?,
        }
        self.draft.purge_seen(name)?;
        Ok(())
    }
}
