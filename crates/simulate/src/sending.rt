//! Messages: a client sends one, and a connection opens on which one is sent.

use crate::chunks::Name;
use crate::dice::Dice;
use crate::judge::Judge;
use crate::link::Link;
use crate::machine::Machine;
use crate::parts::{Client, Target};
use crate::text::put_number;
use event_modes::{ChunkId, Entries};
use std::alloc::{AllocError, Global};
use std::fmt::Write;

/// How many bytes an entry of the run has.
pub const ENTRY_LEN: usize = 7;

const TAGS: [&str; 3] = ["a.x", "a.y", "b"];

// The entry of this number.
fn entry(number: u32) -> [u8; 7] {
    let [a, b, c, d] = number.to_be_bytes();
    [0x92, 0xce, a, b, c, d, 0x80]
}

// The tag at this place.
fn tag_of(at: usize) -> &'static str {
    match TAGS.get(at) {
        Some(tag) => tag,
        None => "b",
    }
}

// So many entries, from this number on.
fn entries(alloc: Global, first: u32, count: usize) -> Result<Option<Entries<Global>>, AllocError> {
    let mut bytes = Vec::new(alloc);
    let mut number = first;
    for _ in 0..count {
        bytes.extend_from_slice(&entry(number))?;
        number = number.saturating_add(1);
    }
    Entries::read(alloc, &bytes, count)
}

// The step by which this client sends so many events, from this number on.
fn send_line(
    alloc: Global,
    client: usize,
    tag: &str,
    first: u32,
    count: usize,
) -> Result<String, AllocError> {
    let mut line = String::new(alloc);
    put_number(&mut line, "send ", client as u64, " ")?;
    line.push_str(tag)?;
    put_entries(&mut line, first, count)?;
    Ok(line)
}

// So many entries, from this number on, as a step has them.
fn put_entries(line: &mut String, first: u32, count: usize) -> Result<(), AllocError> {
    let mut number = first;
    for _ in 0..count {
        write!(line, " 92ce{number:08x}80")?;
        number = number.saturating_add(1);
    }
    Ok(())
}

/// A message that is to be sent: the chunk that it is of, if it is of one, its number, where it
/// goes and whether it asks for an acknowledgement, its tag, its entries, and the name that an
/// acknowledgement has.
#[derive(Drop)]
pub struct Letter<'a> {
    pub chunk: Option<Name>,
    pub message: u64,
    pub target: Target,
    pub tag: &'a [u8],
    pub entries: &'a Entries<Global>,
    pub id: ChunkId,
}

/// A client sends a message of up to three events, of which so many were sent before.
pub fn send<C: Client, E, M: Machine>(
    alloc: Global,
    dice: &mut Dice,
    judge: &mut Judge<M>,
    links: &mut Vec<Link<C, E>>,
    events: &mut u32,
) -> Result<(), AllocError> {
    let client = dice.below(2);
    let tag = tag_of(dice.below(3));
    let count = dice.below(4);
    let first = events.saturating_add(1);
    *events = events.saturating_add(count as u32);
    judge.tell(send_line(alloc, client, tag, first, count)?)?;
    let message = judge.next_message();
    match entries(alloc, first, count)? {
        Some(entries) => put_link(alloc, links, &client_letter(client, message, tag, &entries)),
        None => Ok(()),
    }
}

// What this client sends as this message.
fn client_letter<'a>(
    client: usize,
    message: u64,
    tag: &'a str,
    entries: &'a Entries<Global>,
) -> Letter<'a> {
    Letter {
        chunk: None,
        message,
        target: Target {
            to: 0,
            source: client,
            asks: true,
        },
        tag: tag.as_bytes(),
        entries,
        id: ChunkId {
            relay: 4_000_000_000,
            buffer: 0,
            serial: message,
        },
    }
}

/// A connection opens, on which the message is sent, if it can be sent.
pub fn put_link<C: Client, E>(
    alloc: Global,
    links: &mut Vec<Link<C, E>>,
    letter: &Letter<'_>,
) -> Result<(), AllocError> {
    links.reserve(1)?;
    if let Some(client) = C::sending(alloc, letter)? {
        let bytes = Vec::from_slice(alloc, client.unsent())?;
        let entries = Vec::from_slice(alloc, letter.entries.as_bytes())?;
        links.push_reserved(Link {
            chunk: letter.chunk,
            message: letter.message,
            to: letter.target.to,
            source: letter.target.source,
            bytes,
            entries,
            asks: letter.target.asks,
            client,
            server: None,
            delivery: None,
            is_answered: false,
            is_over: false,
            is_deaf: false,
        });
    }
    Ok(())
}
