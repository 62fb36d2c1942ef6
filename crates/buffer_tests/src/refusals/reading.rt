//! Messages are read, journals are replayed, and the items of a sink's file are counted.

use crate::parts::{Alone, Part, in_memory};
use crate::refusals::journals::{JOURNAL, fault_of, tell_chunks};
use crate::refusals::told::Told;
use crate::refusals::trial::{Refuses, Trial, each_asks, requests_behind};
use chunk_journal::replay;
use event_modes::{Entries, Feed, FeedError, Message, Next, Read, read};
use sink_series::count_events;
use std::alloc::{AllocError, Allocator};
use std::process::Abort;

/// Tells what a message has.
pub fn tell_message<A: Allocator>(message: &Message<A>, told: &mut Told) {
    told.bytes(&message.tag);
    told.bytes(message.entries.as_bytes());
    told.number(message.entries.count() as u64);
    if let Some(ack) = &message.ack {
        told.bytes(ack);
    }
}

fn tell_read<A: Allocator>(read: &Read<A>, told: &mut Told) {
    match read {
        Read::Message(message, next) => {
            tell_message(message, told);
            told.number(*next as u64);
        }
        Read::Heartbeat(next) => told.number(*next as u64),
        Read::Need | Read::Bad(_) => {}
    }
}

// Bytes that are read: as a message, as so many entries, as a journal, or as a sink's file.
#[derive(Clone, Copy)]
enum Bytes {
    Message(&'static [u8]),
    Stored(&'static [u8], usize),
    Journal,
    Items,
}

static ITEMS: &[u8] = b"\x93\xa1a\x01\x80\x93\xa1b\x02\x80\x93\xa1c\x03\x80\x93";

fn read_message<A: Allocator + Copy>(
    heap: A,
    bytes: &[u8],
    told: &mut Told,
) -> Result<(), AllocError> {
    match read(heap, bytes) {
        Ok(read) => tell_read(&read, told),
        Err(AllocError) => return Err(AllocError),
    }
    Ok(())
}

fn read_entries<A: Allocator + Copy>(
    heap: A,
    bytes: &[u8],
    count: usize,
    told: &mut Told,
) -> Result<(), AllocError> {
    match Entries::read(heap, bytes, count) {
        Ok(Some(entries)) => told.bytes(entries.as_bytes()),
        Ok(None) => {}
        Err(AllocError) => return Err(AllocError),
    }
    Ok(())
}

fn replayed<A: Allocator + Copy>(heap: A, told: &mut Told) -> Result<(), AllocError> {
    match replay(heap, JOURNAL) {
        Ok(replayed) => {
            tell_chunks(&replayed.chunks, told);
            told.number(replayed.used as u64);
            Ok(())
        }
        Err(fault) => fault_of(fault, told),
    }
}

fn count_items<A: Allocator + Copy>(heap: A, told: &mut Told) -> Result<(), AllocError> {
    match count_events(heap, ITEMS) {
        Ok(counted) => told.number(counted.events as u64),
        Err(AllocError) => return Err(AllocError),
    }
    Ok(())
}

// An allocator, by which bytes are read.
#[derive(Clone, Copy)]
struct Reader<A>(A);

impl<A: Allocator + Copy> Trial<A, Bytes> for Reader<A> {
    fn made(heap: A, _bytes: Bytes, _behind: usize) -> Option<Self> {
        Some(Reader(heap))
    }

    fn call(&mut self, bytes: Bytes, told: &mut Told) -> Result<(), AllocError> {
        match bytes {
            Bytes::Message(bytes) => read_message(self.0, bytes, told),
            Bytes::Stored(bytes, count) => read_entries(self.0, bytes, count, told),
            Bytes::Journal => replayed(self.0, told),
            Bytes::Items => count_items(self.0, told),
        }
    }

    fn show(&mut self, _told: &mut Told) {}

    fn close(self, _told: &mut Told) {}
}

// A message comes in pieces of one byte, so many; then it is fed with all that is behind them, or
// what came is taken off.
#[derive(Clone, Copy)]
enum Fed {
    Feed,
    Next,
}

static WHOLE: &[u8] =
    b"\x94\xa1a\xd7\x00\x00\x00\x00\x01\x00\x00\x00\x02\x81\xa1k\xd9\x2ba value that is long enough for two growths\x81\xa5chunk\xa2c1";

// So many bytes are fed one by one.
fn feed_bytes<A: Allocator + Copy>(heap: A, count: usize) -> Option<Feed<A>> {
    let mut feed = Feed::new(heap);
    for byte in WHOLE.iter().take(count) {
        if feed.feed(&[*byte]).is_err() {
            return None;
        }
    }
    Some(feed)
}

fn feed_rest<A: Allocator + Copy>(feed: &mut Feed<A>, told: &mut Told) -> Result<(), AllocError> {
    let (_, rest) = WHOLE.split_at(feed.held_len().min(WHOLE.len()));
    match feed.feed(rest) {
        Ok(()) => Ok(()),
        Err(FeedError::Memory) => Err(AllocError),
        Err(FeedError::Fault(_)) => {
            told.number(1);
            Ok(())
        }
    }
}

fn tell_next<A: Allocator>(next: &Next<A>, told: &mut Told) {
    match next {
        Next::Message(message) => tell_message(message, told),
        Next::Heartbeat => told.number(2),
        Next::Need => told.number(3),
        Next::Bad(_) => told.number(4),
    }
}

fn take_next<A: Allocator + Copy>(feed: &mut Feed<A>, told: &mut Told) -> Result<(), AllocError> {
    match feed.next() {
        Ok(next) => tell_next(&next, told),
        Err(AllocError) => return Err(AllocError),
    }
    Ok(())
}

impl<A: Allocator + Copy> Trial<A, Fed> for Feed<A> {
    fn made(heap: A, _call: Fed, behind: usize) -> Option<Self> {
        feed_bytes(heap, behind)
    }

    fn call(&mut self, call: Fed, told: &mut Told) -> Result<(), AllocError> {
        match call {
            Fed::Feed => feed_rest(self, told),
            Fed::Next => take_next(self, told),
        }
    }

    fn show(&mut self, told: &mut Told) {
        told.number(self.held_len() as u64);
    }

    // The stream goes on from where it is.
    fn close(self, told: &mut Told) {
        let mut feed = self;
        let _ = feed_rest(&mut feed, told);
        let _ = take_next(&mut feed, told);
    }
}

static BYTES: [Bytes; 9] = [
    Bytes::Message(b"\x93\xa1a\x01\x80"),
    Bytes::Message(b"\x94\xa1a\x01\x80\x81\xa5chunk\xa2c1"),
    Bytes::Message(b"\x92\xa1a\x91\x92\x01\x80"),
    Bytes::Message(b"\x92\xa1a\x92\x92\x01\x80\xdc\x00\x02\x02\x80"),
    Bytes::Message(b"\x92\xa1a\xc4\x03\x92\x01\x80"),
    Bytes::Message(b"\x93\xa1a\xd9\x06\x92\x01\x80\x92\x02\x80\x81\xa5chunk\xc4\x01c"),
    Bytes::Message(b"\x92\xa1a\xc4\x07\x92\x01\x80\xdc\x00\x02\x02\x80"),
    Bytes::Message(b"\x92\xa1a\x91\x92\xd7\x00\0\0\0\x01\0\0\0\x02\x81\xa1k\xa1v"),
    Bytes::Stored(b"\x92\x01\x80\x92\x02\x80", 2),
];

// These make more than one request each.
static FILES: [Bytes; 2] = [Bytes::Journal, Bytes::Items];

static ONCE: [usize; 1] = [0];

/// Whether each asks for memory.
pub fn bytes_ask<R: Abort, H: Refuses>(rt: &R, heap: H) -> bool {
    each_asks::<R, H, Bytes, Reader<H>>(rt, heap, &BYTES, &ONCE, 1)
        && each_asks::<R, H, Bytes, Reader<H>>(rt, heap, &FILES, &ONCE, 2)
}

#[test]
fn bytes_that_are_read(rt: HostRuntime) {
    assert!(rt; in_memory(&rt, rt.alloc(), Part::Alone(Alone::Bytes)));
}

static COUNTS: [usize; 13] = [0, 1, 8, 9, 15, 16, 17, 31, 32, 33, 60, 64, 65];

// All that comes.
static ALL: [usize; 1] = [71];

/// Whether a stream asks for memory, as it is fed and as a message is taken off.
pub fn streams_ask<R: Abort, H: Refuses>(rt: &R, heap: H) -> bool {
    requests_behind::<R, H, Fed, Feed<H>>(rt, heap, Fed::Feed, &COUNTS) > 1
        && requests_behind::<R, H, Fed, Feed<H>>(rt, heap, Fed::Next, &ALL) > 2
}

#[test]
fn streams(rt: HostRuntime) {
    assert!(rt; in_memory(&rt, rt.alloc(), Part::Alone(Alone::Streams)));
}
