//! Records as they are read.

ghost use Rattle.std.specs.Prelude.{◌≡◌, ◌≤◌, length, Some, IfOk, IfSome, option_map};
ghost use Rattle.chunk_journal.specs.Records.{Record, body_of, longest_body, HasFields};
ghost use Rattle.chunk_journal.specs.Reading.{IsFrame, IsNext, IsAppendOf, parsed_of};

use crate::fields::{split_fields, u32_at, u64_at};
use crate::record::{APPEND_KIND, PURGE_KIND, QUEUE_KIND, SEAL_KIND};
use event_modes::Entries;
use std::alloc::{AllocError, Allocator};

/// A record with the entries that were read.
#[derive(Drop)]
pub enum Parsed<'a, A: Allocator> {
    Seal {
        next: u64,
    },
    Append {
        serial: u64,
        tag: &'a [u8],
        entries: Entries<A>,
    },
    Queue {
        serial: u64,
    },
    Purge {
        serial: u64,
    },
}

/// What stands next in a journal.
#[derive(Drop)]
pub enum Next<'a, A: Allocator> {
    // The bytes end before a record is whole.
    Torn,
    // What is whole is no record.
    Bad,
    // A record, and the bytes behind it.
    Whole(Parsed<'a, A>, &'a [u8]),
}

/// What the length says of the bytes behind it.
#[derive(Clone, Copy)]
pub enum Frame<'a> {
    Torn,
    Bad,
    // As many bytes as the length says, and those behind them.
    Whole(&'a [u8], &'a [u8]),
}

const LONGEST_BODY: usize = 16_777_216;

/// The record that the bytes begin with.
pub fn next_record<A: Allocator>(alloc: A, bytes: &[u8]) -> Result<Next<'_, A>, AllocError>
    ensures { IfOk result (IsNext bytes.now) }
{
    match frame_at(bytes) {
        Frame::Torn => Ok(Next::Torn),
        Frame::Bad => Ok(Next::Bad),
        Frame::Whole(body, rest) => match parse(alloc, body)? {
            None => Ok(Next::Bad),
            Some(parsed) => Ok(Next::Whole(parsed, rest)),
        },
    }
}

fn frame_at(bytes: &[u8]) -> Frame<'_>
    ensures { IsFrame bytes.now result }
{
    let Some((length, behind)) = u32_at(bytes) else {
        return Frame::Torn;
    };
    let length = length as usize;
    if length == 0 || length > LONGEST_BODY {
        return Frame::Bad;
    }
    if behind.len() < length {
        return Frame::Torn;
    }
    let (body, rest) = behind.split_at(length);
    Frame::Whole(body, rest)
}

// The record that is spelled by exactly these bytes behind its length, if one is.
fn parse<A: Allocator>(alloc: A, body: &[u8]) -> Result<Option<Parsed<'_, A>>, AllocError>
    requires { length body.now ≤ longest_body }
    ensures found { IfOk result
        (λ read. IfSome read (λ p. HasFields (parsed_of p) × (body.now ≡ body_of (parsed_of p)))) }
    ensures only { (item : Record) → HasFields item → body.now ≡ body_of item
        → IfOk result (λ read. option_map parsed_of read ≡ Some item) }
{
    let [kind, fields @ ..] = body else {
        return Ok(None);
    };
    if *kind == APPEND_KIND {
        return append(alloc, fields);
    }
    let Some((number, [])) = u64_at(fields) else {
        return Ok(None);
    };
    Ok(match *kind {
        SEAL_KIND => Some(Parsed::Seal { next: number }),
        QUEUE_KIND => Some(Parsed::Queue { serial: number }),
        PURGE_KIND => Some(Parsed::Purge { serial: number }),
        _ => None,
    })
}

// The Append with exactly these fields, if they are one's.
fn append<A: Allocator>(alloc: A, fields: &[u8]) -> Result<Option<Parsed<'_, A>>, AllocError>
    requires { length fields.now ≤ longest_body }
    ensures found { IfOk result (λ read. IfSome read (λ p. IsAppendOf (parsed_of p) fields.now)) }
    ensures only { (item : Record) → IsAppendOf item fields.now
        → IfOk result (λ read. option_map parsed_of read ≡ Some item) }
{
    let Some(parts) = split_fields(fields) else {
        return Ok(None);
    };
    let Some(entries) = Entries::read(alloc, parts.stored, parts.count as usize)? else {
        return Ok(None);
    };
    Ok(Some(Parsed::Append {
        serial: parts.serial,
        tag: parts.tag,
        entries,
    }))
}
