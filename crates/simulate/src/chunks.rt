//! What the chunks of a relay hold by the steps that were told.

use std::alloc::{AllocError, Global};

/// No relay has more buffers.
pub const BUFFERS: usize = 16;

/// The name of a chunk in a step: the numbers of its relay and of its buffer, and its serial.
#[derive(Clone, Copy)]
pub struct Name {
    pub relay: u32,
    pub buffer: usize,
    pub serial: u64,
}

impl Name {
    /// Whether it is that one.
    pub fn is(self, other: Name) -> bool {
        self.relay == other.relay && self.buffer == other.buffer && self.serial == other.serial
    }
}

/// How far a chunk is.
#[derive(Clone, Copy)]
pub enum Stage {
    Staged,
    Queued,
    Claimed,
    Gone,
}

/// An append: its delivery, where its step is told, its entries, and whether a stop can't lose it.
pub struct Appended {
    pub delivery: u64,
    pub line: usize,
    pub bytes: Vec<u8>,
    pub is_synced: bool,
}

impl Drop for Appended {
    fn drop(self) {
        let Appended {
            delivery: _,
            line: _,
            bytes: _,
            is_synced: _,
        } = self;
    }
}

/// A delivery: its number, and what it has its buffers append.
#[derive(Drop)]
pub struct Delivery<'a> {
    pub number: u64,
    pub tag: &'a [u8],
    pub entries: &'a [u8],
}

/// A chunk of a buffer, with the lines of the step that queued it and of that by which it went, and
/// whether a stop can't undo what was told of it.
pub struct Chunk {
    pub name: Name,
    pub tag: Vec<u8>,
    pub appends: Vec<Appended>,
    pub stage: Stage,
    pub queued: Option<usize>,
    pub went: usize,
    pub is_synced: bool,
}

impl Drop for Chunk {
    fn drop(self) {
        let Chunk {
            name: _,
            tag: _,
            appends: _,
            stage: _,
            queued: _,
            went: _,
            is_synced: _,
        } = self;
    }
}

impl Chunk {
    /// How many of its appends these bytes are, behind which none was synced; `None` where they are
    /// something else.
    pub fn found(&self, bytes: &[u8]) -> Option<usize> {
        let mut rest = bytes;
        for (at, append) in self.appends.iter().enumerate() {
            if rest.is_empty() && !append.is_synced {
                return Some(at);
            }
            rest = rest.strip_prefix(append.bytes.as_slice())?;
        }
        if !rest.is_empty() {
            return None;
        }
        Some(self.appends.len())
    }

    // This is appended to it.
    fn append(
        &mut self,
        alloc: Global,
        delivery: u64,
        line: usize,
        bytes: &[u8],
    ) -> Result<(), AllocError> {
        self.appends.reserve(1)?;
        let bytes = Vec::from_slice(alloc, bytes)?;
        self.appends.push_reserved(Appended {
            delivery,
            line,
            bytes,
            is_synced: false,
        });
        Ok(())
    }

    // How many bytes its entries have.
    fn size(&self) -> usize {
        let mut size = 0usize;
        for append in &self.appends {
            size = size.saturating_add(append.bytes.len());
        }
        size
    }

    // No stop undoes what was told of it.
    fn sync(&mut self) {
        self.is_synced = true;
        for append in self.appends.iter_mut() {
            append.is_synced = true;
        }
    }

    // Whether it has an append that is synced, or one that isn't.
    fn has(&self, is_synced: bool) -> bool {
        for append in &self.appends {
            if append.is_synced == is_synced {
                return true;
            }
        }
        false
    }

    // Whether it is staged, or else has an append that isn't synced.
    fn is_due(&self, staged: bool) -> bool {
        if staged {
            matches!(self.stage, Stage::Staged)
        } else {
            self.has(false)
        }
    }

    /// Whether a stop may lose the whole chunk.
    pub fn may_be_lost(&self) -> bool {
        !self.has(true)
    }
}

/// What a buffer has of chunks that didn't go.
#[derive(Clone, Copy)]
pub struct Tally {
    /// How many there are.
    pub count: usize,
    /// How many bytes of entries the queued ones have.
    pub queued: usize,
    /// How many bytes of entries the others have.
    pub others: usize,
    /// The least serial of a queued one.
    pub oldest: Option<u64>,
}

impl Tally {
    /// How many bytes of entries all of them have.
    pub fn size(self) -> usize {
        self.queued.saturating_add(self.others)
    }

    // The same with this chunk.
    fn with(self, chunk: &Chunk) -> Tally {
        let mut tally = self;
        tally.count = tally.count.saturating_add(1);
        match chunk.stage {
            Stage::Gone => return self,
            Stage::Staged | Stage::Claimed => {
                tally.others = tally.others.saturating_add(chunk.size());
            }
            Stage::Queued => {
                tally.queued = tally.queued.saturating_add(chunk.size());
                tally.oldest = Some(lesser(tally.oldest, chunk.name.serial));
            }
        }
        tally
    }
}

/// The chunks of the relay with this number, live ones and those that went, and the next serial of
/// each buffer.
pub struct Chunks {
    pub relay: u32,
    pub all: Vec<Chunk>,
    next: [u64; BUFFERS],
}

impl Drop for Chunks {
    fn drop(self) {
        let Chunks {
            relay: _,
            all: _,
            next: _,
        } = self;
    }
}

impl Chunks {
    /// No chunks.
    pub fn new(alloc: Global, relay: u32) -> Chunks {
        Chunks {
            relay,
            all: Vec::new(alloc),
            next: [0; BUFFERS],
        }
    }

    /// The name of a chunk of a buffer.
    pub fn name(&self, buffer: usize, serial: u64) -> Name {
        Name {
            relay: self.relay,
            buffer,
            serial,
        }
    }

    /// The next serial of a buffer.
    pub fn next_of(&self, buffer: usize) -> u64 {
        match self.next.get(buffer) {
            Some(next) => *next,
            None => 0,
        }
    }

    /// The last staged chunk of a buffer with this tag.
    pub fn staged(&self, buffer: usize, tag: &[u8]) -> Option<u64> {
        let mut last = None;
        for chunk in &self.all {
            if chunk.name.buffer == buffer
                && matches!(chunk.stage, Stage::Staged)
                && chunk.tag.as_slice() == tag
            {
                last = Some(chunk.name.serial);
            }
        }
        last
    }

    /// The chunk of this name.
    pub fn find(&mut self, name: Name) -> Option<&mut Chunk> {
        for chunk in self.all.iter_mut() {
            if chunk.name.is(name) {
                return Some(chunk);
            }
        }
        None
    }

    /// A delivery is appended to this chunk, which may be the next one of its buffer.
    pub fn append(
        &mut self,
        alloc: Global,
        name: Name,
        one: &Delivery<'_>,
        line: usize,
    ) -> Result<(), AllocError> {
        if self.find(name).is_none() {
            self.begin(alloc, name, one.tag)?;
        }
        match self.find(name) {
            Some(chunk) => chunk.append(alloc, one.number, line, one.entries),
            None => Ok(()),
        }
    }

    // A staged chunk begins, the last one of its buffer.
    fn begin(&mut self, alloc: Global, name: Name, tag: &[u8]) -> Result<(), AllocError> {
        if let Some(next) = self.next.get_mut(name.buffer) {
            *next = name.serial.saturating_add(1);
        }
        begin_in(&mut self.all, alloc, name, tag)
    }

    /// The chunk comes to this stage.
    pub fn restage(&mut self, name: Name, stage: Stage, line: usize) {
        if let Some(chunk) = self.find(name) {
            chunk.stage = stage;
            chunk.went = line;
            chunk.is_synced = false;
        }
    }

    /// The next serial of a buffer is this one, or a lower one that it was set to before.
    pub fn restart_at(&mut self, buffer: usize, serial: u64) {
        if let Some(next) = self.next.get_mut(buffer)
            && serial < *next
        {
            *next = serial;
        }
    }

    /// What was told of all buffers is synced.
    pub fn sync(&mut self) {
        for chunk in self.all.iter_mut() {
            chunk.sync();
        }
    }

    /// Each buffer is synced that has a staged chunk, or else each that has an append that wasn't.
    pub fn sync_buffers(&mut self, staged: bool) {
        for buffer in 0..BUFFERS {
            if self.is_due(buffer, staged) {
                self.sync_buffer(buffer);
            }
        }
    }

    fn is_due(&self, buffer: usize, staged: bool) -> bool {
        for chunk in &self.all {
            if chunk.name.buffer == buffer && chunk.is_due(staged) {
                return true;
            }
        }
        false
    }

    /// What a buffer has.
    pub fn tally(&self, buffer: usize) -> Tally {
        let mut tally = Tally {
            count: 0,
            queued: 0,
            others: 0,
            oldest: None,
        };
        for chunk in &self.all {
            if chunk.name.buffer == buffer {
                tally = tally.with(chunk);
            }
        }
        tally
    }

    fn sync_buffer(&mut self, buffer: usize) {
        for chunk in self.all.iter_mut() {
            if chunk.name.buffer == buffer {
                chunk.sync();
            }
        }
    }

    /// What they hold of this delivery is synced, since it was acknowledged.
    pub fn sync_delivery(&mut self, delivery: u64) {
        for chunk in self.all.iter_mut() {
            for append in chunk.appends.iter_mut() {
                if append.delivery == delivery {
                    append.is_synced = true;
                }
            }
        }
    }
}

// A staged chunk without appends is the last of these.
fn begin_in(all: &mut Vec<Chunk>, alloc: Global, name: Name, tag: &[u8]) -> Result<(), AllocError> {
    all.reserve(1)?;
    let tag = Vec::from_slice(alloc, tag)?;
    all.push_reserved(Chunk {
        name,
        tag,
        appends: Vec::new(alloc),
        stage: Stage::Staged,
        queued: None,
        went: 0,
        is_synced: false,
    });
    Ok(())
}

// The lesser of these serials.
fn lesser(least: Option<u64>, serial: u64) -> u64 {
    match least {
        Some(other) => serial.min(other),
        None => serial,
    }
}
