//! What is done to a buffer, and what is known of its chunks then.

/// A call of a buffer. A tag has one byte, and an entry is told from others by its number.
#[derive(Clone, Copy)]
pub enum Act {
    Stage(u8, u8),
    Append(u8, u8),
    Sync,
    Enqueue(u64),
    Claim,
    GiveBack(u64),
    Purge(u64),
    DropOldest,
    Renew,
}

/// Chunks grow, and are queued, claimed, purged, given back and dropped. The journal is renewed
/// with a claimed chunk and a staged one, and then with a queued one.
pub static SCRIPT: [Act; 22] = [
    Act::Stage(b'a', 1),
    Act::Stage(b'a', 2),
    Act::Sync,
    Act::Append(b'b', 3),
    Act::Enqueue(0),
    Act::Claim,
    Act::Stage(b'c', 4),
    Act::Enqueue(1),
    Act::Claim,
    Act::Purge(0),
    Act::Append(b'd', 5),
    Act::Enqueue(3),
    Act::Renew,
    Act::Stage(b'c', 6),
    Act::GiveBack(1),
    Act::DropOldest,
    Act::Append(b'a', 7),
    Act::Claim,
    Act::Purge(3),
    Act::Enqueue(2),
    Act::Renew,
    Act::Append(b'e', 8),
];

/// Fewer serials than this are given.
pub const SERIALS: u64 = 12;

/// What is known of the chunk of a serial.
#[derive(Clone, Copy)]
pub struct Known {
    pub tag: u8,
    /// The numbers of the entries that were begun to be told, in order.
    pub numbers: [u8; 4],
    pub begun: usize,
    /// How many of these a call has answered for that syncs.
    pub synced: usize,
    /// Whether a queueing has answered.
    pub is_queued: bool,
    pub was_claimed: bool,
    /// Whether its removal was begun.
    pub may_be_gone: bool,
}

/// What is known of all chunks.
#[derive(Clone, Copy)]
pub struct Table {
    all: [Known; 12],
}

impl Table {
    /// Nothing is known.
    pub fn new() -> Table {
        let nothing = Known {
            tag: 0,
            numbers: [0; 4],
            begun: 0,
            synced: 0,
            is_queued: false,
            was_claimed: false,
            may_be_gone: false,
        };
        Table { all: [nothing; 12] }
    }

    /// What is known of the chunk of this serial.
    pub fn known(&self, serial: u64) -> Option<Known> {
        self.all.get(serial as usize).copied()
    }

    /// An entry was begun to be told.
    pub fn begin(&mut self, serial: u64, tag: u8, number: u8) {
        if let Some(known) = self.all.get_mut(serial as usize) {
            known.tag = tag;
            if let Some(place) = known.numbers.get_mut(known.begun) {
                *place = number;
            }
            known.begun = known.begun.saturating_add(1);
        }
    }

    /// What was begun was synced.
    pub fn sync(&mut self) {
        for known in &mut self.all {
            known.synced = known.begun;
        }
    }

    pub fn queue(&mut self, serial: u64) {
        if let Some(known) = self.all.get_mut(serial as usize) {
            known.is_queued = true;
        }
    }

    pub fn claim(&mut self, serial: u64) {
        if let Some(known) = self.all.get_mut(serial as usize) {
            known.was_claimed = true;
        }
    }

    /// The removal of a chunk was begun.
    pub fn let_go(&mut self, serial: u64) {
        if let Some(known) = self.all.get_mut(serial as usize) {
            known.may_be_gone = true;
        }
    }
}
