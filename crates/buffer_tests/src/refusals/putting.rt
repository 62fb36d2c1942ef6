//! Bytes are written behind others, of which there are so many that each growth comes once.

use crate::parts::{Alone, Part, in_memory};
use crate::refusals::told::Told;
use crate::refusals::trial::{Refuses, Trial, each_asks, requests_behind};
use crate::script::entries;
use chunk_journal::{Record, put_record};
use event_modes::{ChunkId, Entries, put_ack, put_packed};
use msgpack_bytes::{put_array, put_bin, put_bool, put_map, put_str, put_uint};
use std::alloc::{AllocError, Allocator};
use std::process::Abort;

// What is written.
#[derive(Clone, Copy)]
enum Put {
    Uint(u64),
    Str(&'static [u8]),
    Bin(&'static [u8]),
    Array(u32),
    Map(u32),
    Bool(bool),
    Ack(&'static [u8]),
    // A message, with a chunk or without.
    Packed(Option<ChunkId>),
    // A record of this kind.
    Record(u8),
}

static ID: ChunkId = ChunkId {
    relay: 2,
    buffer: 1,
    serial: 3,
};

static PUTS: [Put; 13] = [
    Put::Uint(70_000),
    Put::Str(b"a text of some bytes"),
    Put::Bin(b"\0\x01\x02"),
    Put::Array(70_000),
    Put::Map(20),
    Put::Bool(true),
    Put::Ack(b"\xa2c1"),
    Put::Packed(None),
    Put::Packed(Some(ID)),
    Put::Record(1),
    Put::Record(2),
    Put::Record(3),
    Put::Record(4),
];

/// So many bytes.
pub fn xs<A: Allocator>(heap: A, count: usize) -> Option<Vec<u8, A>> {
    let mut out = Vec::new(heap);
    for _ in 0..count {
        if out.push(b'x').is_err() {
            return None;
        }
    }
    Some(out)
}

// What is written, and the entries of messages and records.
struct Written<A: Allocator> {
    out: Vec<u8, A>,
    entries: Entries<A>,
}

fn put_message<A: Allocator + Copy>(
    out: &mut Vec<u8, A>,
    entries: &Entries<A>,
    chunk: Option<&ChunkId>,
) -> Result<(), AllocError> {
    if entries.as_bytes().len() > 9 {
        return Ok(());
    }
    put_packed(out, b"a", entries, chunk)
}

fn put_kind<A: Allocator + Copy>(
    out: &mut Vec<u8, A>,
    entries: &Entries<A>,
    kind: u8,
) -> Result<(), AllocError> {
    let record: Record<'_, A> = match kind {
        1 => Record::Seal { next: 9 },
        3 => Record::Queue { serial: 3 },
        4 => Record::Purge { serial: 3 },
        _ if entries.as_bytes().len() < 99 => Record::Append {
            serial: 3,
            tag: b"tag",
            entries,
        },
        _ => return Ok(()),
    };
    put_record(out, &record)
}

fn put_so<A: Allocator + Copy>(
    out: &mut Vec<u8, A>,
    entries: &Entries<A>,
    put: Put,
) -> Result<(), AllocError> {
    match put {
        Put::Uint(value) => put_uint(out, value),
        Put::Str(content) if content.len() < 99 => put_str(out, content),
        Put::Bin(content) if content.len() < 99 => put_bin(out, content),
        Put::Array(count) => put_array(out, count),
        Put::Map(count) => put_map(out, count),
        Put::Bool(value) => put_bool(out, value),
        Put::Ack(item) => put_ack(out, item),
        Put::Packed(chunk) => put_message(out, entries, chunk.as_ref()),
        Put::Record(kind) => put_kind(out, entries, kind),
        Put::Str(_) | Put::Bin(_) => Ok(()),
    }
}

impl<A: Allocator + Copy> Trial<A, Put> for Written<A> {
    // So many bytes, and one entry.
    fn made(heap: A, _put: Put, behind: usize) -> Option<Self> {
        match (xs(heap, behind), entries(heap, 1)) {
            (Some(out), Some(entries)) => Some(Written { out, entries }),
            _ => None,
        }
    }

    fn call(&mut self, put: Put, _told: &mut Told) -> Result<(), AllocError> {
        put_so(&mut self.out, &self.entries, put)
    }

    fn show(&mut self, told: &mut Told) {
        told.bytes(&self.out);
    }

    fn close(self, _told: &mut Told) {
        let Written { out: _, entries: _ } = self;
    }
}

// Entries, behind which one is appended.
struct Entered<A: Allocator> {
    all: Entries<A>,
    one: Entries<A>,
}

impl<A: Allocator + Copy> Trial<A, ()> for Entered<A> {
    fn made(heap: A, _call: (), behind: usize) -> Option<Self> {
        match (entries(heap, behind), entries(heap, 1)) {
            (Some(all), Some(one)) => Some(Entered { all, one }),
            _ => None,
        }
    }

    fn call(&mut self, _call: (), _told: &mut Told) -> Result<(), AllocError> {
        self.all.append(&self.one)
    }

    fn show(&mut self, told: &mut Told) {
        told.bytes(self.all.as_bytes());
        told.number(self.all.count() as u64);
    }

    fn close(self, _told: &mut Told) {
        let Entered { all: _, one: _ } = self;
    }
}

/// A list of some of these lengths has room, and of others not.
pub static LENGTHS: [usize; 8] = [0, 5, 8, 16, 30, 32, 60, 64];

/// Whether each asks for memory.
pub fn each_put_asks<R: Abort, H: Refuses>(rt: &R, heap: H) -> bool {
    each_asks::<R, H, Put, Written<H>>(rt, heap, &PUTS, &LENGTHS, 2)
}

#[test]
fn spellings(rt: HostRuntime) {
    assert!(rt; in_memory(&rt, rt.alloc(), Part::Alone(Alone::Spellings)));
}

/// Whether entries that are appended ask for memory.
pub fn entries_ask<R: Abort, H: Refuses>(rt: &R, heap: H) -> bool {
    requests_behind::<R, H, (), Entered<H>>(rt, heap, (), &LENGTHS) > 1
}

#[test]
fn appended_entries(rt: HostRuntime) {
    assert!(rt; in_memory(&rt, rt.alloc(), Part::Alone(Alone::Entries)));
}
