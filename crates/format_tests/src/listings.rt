//! Listings of texts that come slowly or without an end, and at a writer that fails.

use program_text::{CountedRead, Status};
use std::alloc::Global;
use std::io;
use std::io::{ErrorKind, Write};
use stream_listing::run_decode;

// A hex text, whether the reader fails at its end, what is printed for it, and the status.
struct Row {
    text: &'static str,
    fails: bool,
    lines: &'static str,
    status: Status,
}

const ROWS: [Row; 4] = [
    // An empty tag, digits of both cases, and white space between two digits of a byte; the last
    // message isn't whole.
    Row {
        text: "93A 0\t01 8\r\n1 a16B A\x0c176 c0 93 a1",
        fails: false,
        lines: "message - 1\nentry 920181a16ba176\nheartbeat\nrest 2\n",
        status: Status::Done,
    },
    // After a fault of the stream nothing more is read, bad hex neither.
    Row {
        text: "93 a1 61 01 80 01 zz",
        fails: false,
        lines: "message 61 1\nentry 920180\nfault V1\n",
        status: Status::No,
    },
    // Bad hex inside a message.
    Row {
        text: "c0 93 a1 6x",
        fails: false,
        lines: "heartbeat\nfault hex\n",
        status: Status::Usage,
    },
    Row {
        text: "93 a1 61 01 80 93 a",
        fails: true,
        lines: "message 61 1\nentry 920180\nfault read\n",
        status: Status::Usage,
    },
];

// Gives a byte a call, is interrupted before each, and fails at the end if it is to.
#[derive(Drop)]
struct Slow<'a> {
    rest: &'a [u8],
    is_interrupted: bool,
    fails: bool,
}

impl CountedRead for Slow<'_> {
    fn read(&mut self, piece: &mut [u8]) -> io::Result<usize> {
        self.is_interrupted = !self.is_interrupted;
        if self.is_interrupted {
            return Err(io::Error::from(ErrorKind::Interrupted));
        }
        let Some((byte, rest)) = self.rest.split_first() else {
            if self.fails {
                return Err(io::Error::from(ErrorKind::Other));
            }
            return Ok(0);
        };
        if piece.is_empty() {
            return Ok(0);
        }
        piece[0] = *byte;
        self.rest = rest;
        Ok(1)
    }
}

// Is interrupted for ever.
#[derive(Drop)]
struct Endless {
    calls: u64,
}

impl CountedRead for Endless {
    ghost calls = { λ endless. endless.calls };

    fn read(&mut self, _: &mut [u8]) -> io::Result<usize> {
        self.calls = self.calls.saturating_add(1);
        Err(io::Error::from(ErrorKind::Interrupted))
    }
}

// Takes two bytes a call, is interrupted before each, and fails when it is full.
#[derive(Drop)]
struct Small {
    room: usize,
    taken: Vec<u8>,
    is_interrupted: bool,
    calls_after: usize,
}

impl Write for Small {
    fn write(&mut self, buf: &[u8]) -> io::Result<usize> {
        self.is_interrupted = !self.is_interrupted;
        if self.is_interrupted {
            return Err(io::Error::from(ErrorKind::Interrupted));
        }
        if self.room == 0 {
            self.calls_after = self.calls_after.saturating_add(1);
            return Err(io::Error::from(ErrorKind::Other));
        }
        let n = buf.len().min(2).min(self.room);
        self.taken.extend_from_slice(&buf[..n])?;
        self.room -= n;
        Ok(n)
    }

    fn flush(&mut self) -> io::Result<()> {
        Ok(())
    }
}

fn is_listed(alloc: Global, row: &Row) -> bool {
    let mut out = Vec::new(alloc);
    let mut input = Slow {
        rest: row.text.as_bytes(),
        is_interrupted: false,
        fails: row.fails,
    };
    let status = run_decode(alloc, &mut input, &mut out);
    out.as_slice() == row.lines.as_bytes() && status == row.status
}

fn are_listed(alloc: Global) -> bool {
    for row in &ROWS {
        if !is_listed(alloc, row) {
            return false;
        }
    }
    true
}

#[test]
fn lists_byte_by_byte(rt: HostRuntime) {
    assert!(rt; are_listed(rt.alloc()));
}

const FAULT_READ: &[u8] = b"fault read\n";

fn leaves_an_endless(alloc: Global) -> bool {
    let mut out = Vec::new(alloc);
    let mut input = Endless { calls: 0 };
    let status = run_decode(alloc, &mut input, &mut out);
    status == Status::Usage && out.as_slice() == FAULT_READ && input.calls == 16_777_216
}

#[test]
fn reads_are_bounded(rt: HostRuntime) {
    assert!(rt; leaves_an_endless(rt.alloc()));
}

const TEXT: &[u8] = b"c0 93 a1 61 01 80 c0 zz";

const WHOLE: &[u8] = b"heartbeat\nmessage 61 1\nentry 920180\nheartbeat\nfault hex\n";

// Whether a writer took the beginning of the listing for which it had room, and was called at most
// once when it was full.
fn took_a_beginning(out: &Small, room: usize) -> bool {
    Some(out.taken.as_slice()) == WHOLE.get(..room.min(WHOLE.len())) && out.calls_after <= 1
}

// Whether a listing at a writer with so much room ends as it ought to.
fn ends_in(alloc: Global, room: usize) -> bool {
    let mut out = Small {
        room,
        taken: Vec::new(alloc),
        is_interrupted: false,
        calls_after: 0,
    };
    let mut input = TEXT;
    run_decode(alloc, &mut input, &mut out) == Status::Usage && took_a_beginning(&out, room)
}

fn each_ends(alloc: Global) -> bool {
    for room in 0..60usize {
        if !ends_in(alloc, room) {
            return false;
        }
    }
    true
}

#[test]
fn writer_fails(rt: HostRuntime) {
    assert!(rt; each_ends(rt.alloc()));
}
