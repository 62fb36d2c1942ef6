//! What the benchmark of the decoder calls from C: bench/decode.c.
#![tactic(auto)]

ghost use Rattle.std.specs.Prelude.{◌≤◌, length};

use event_modes::{Feed, Next, Read, read};
use msgpack_bytes::{Scan, scan};
use std::alloc::Global;

/// How many whole items the bytes begin with.
#[unsafe(no_mangle)]
pub extern "C" fn relaynet_scan_all(bytes: &[u8]) -> usize
    ensures { result ≤ length bytes.now }
{
    let mut at = 0;
    let mut count = 0;
    while at < bytes.len() {
        match scan(bytes, at) {
            Scan::End(end) if at < end => {
                at = end;
                count += 1;
            }
            _ => return count,
        }
    }
    count
}

/// How many messages the bytes begin with, each read whole; 0 where memory ran out.
#[unsafe(no_mangle)]
pub extern "C" fn relaynet_read_all(alloc: Global, bytes: &[u8]) -> usize
    ensures { result ≤ length bytes.now }
{
    let mut rest = bytes;
    let mut count = 0;
    while !rest.is_empty() {
        match read(alloc, rest) {
            Ok(Read::Message(_, n)) if 0 < n && n <= rest.len() => {
                rest = rest.split_at(n).1;
                count += 1;
            }
            _ => return count,
        }
    }
    count
}

/// How many messages a stream of these bytes gives that comes in pieces of so many bytes.
#[unsafe(no_mangle)]
pub extern "C" fn relaynet_feed_all(alloc: Global, bytes: &[u8], piece: usize) -> usize
    ensures { result ≤ length bytes.now }
{
    let mut feed = Feed::new(alloc);
    let mut rest = bytes;
    let mut count = 0;
    while !rest.is_empty() {
        let (front, behind) = rest.split_at(rest.len().min(piece.max(1)));
        if feed.feed(front).is_err() {
            return count;
        }
        rest = behind;
        count = take_off(&mut feed, count, bytes.len());
    }
    count
}

// Takes off each message that is whole, and counts it, up to the most.
fn take_off(feed: &mut Feed<Global>, so_far: usize, most: usize) -> usize
    requires { so_far ≤ most }
    ensures { result ≤ most }
{
    let mut count = so_far;
    while count < most {
        match feed.next() {
            Ok(Next::Message(_)) => count += 1,
            _ => return count,
        }
    }
    count
}
