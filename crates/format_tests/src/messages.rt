//! Messages from outside, and what no clause says.

use crate::codes::is_printed;
use event_modes::{
    AckRead, ChunkId, Entries, Feed, FeedError, Message, ModeFault, Next, Read, put_ack,
    put_packed, read, read_ack,
};
use std::alloc::{AllocError, Global};

/// What a message came to, beside what it should.
struct Case {
    bytes: &'static [u8],
    tag: &'static [u8],
    entries: &'static [u8],
    count: usize,
    ack: &'static [u8],
}

static CASES: [Case; 11] = [
    // Message mode.
    Case {
        bytes: b"\x93\xa1\x61\x01\x81\xa1\x6b\xa1\x76",
        tag: b"a",
        entries: b"\x92\x01\x81\xa1\x6b\xa1\x76",
        count: 1,
        ack: b"",
    },
    // The same as clients usually spell it, with either time and either str.
    Case {
        bytes: b"\x93\xa1\x61\xd7\x00\x00\x00\x00\x01\x00\x00\x00\x02\x81\xa1\x6b\xa1\x76",
        tag: b"a",
        entries: b"\x92\xd7\x00\x00\x00\x00\x01\x00\x00\x00\x02\x81\xa1\x6b\xa1\x76",
        count: 1,
        ack: b"",
    },
    Case {
        bytes: b"\x93\xd9\x03a.b\xce\x00\x00\x00\x01\xde\x00\x00",
        tag: b"a.b",
        entries: b"\x92\xce\x00\x00\x00\x01\xde\x00\x00",
        count: 1,
        ack: b"",
    },
    // The same with a chunk.
    Case {
        bytes: b"\x94\xa1\x61\x01\x80\x81\xa5chunk\xa2c1",
        tag: b"a",
        entries: b"\x92\x01\x80",
        count: 1,
        ack: b"\xa2c1",
    },
    // Forward mode without entries.
    Case {
        bytes: b"\x93\xa1\x61\x90\x81\xa5chunk\xa2c1",
        tag: b"a",
        entries: b"",
        count: 0,
        ack: b"\xa2c1",
    },
    // PackedForward mode as a bin, and as a str.
    Case {
        bytes: b"\x93\xa3a.b\xc4\x05\x92\x00\x81\x01\x02\x80",
        tag: b"a.b",
        entries: b"\x92\x00\x81\x01\x02",
        count: 1,
        ack: b"",
    },
    Case {
        bytes: b"\x93\xa3a.b\xa5\x92\x00\x81\x01\x02\x80",
        tag: b"a.b",
        entries: b"\x92\x00\x81\x01\x02",
        count: 1,
        ack: b"",
    },
    // EventTime in both spellings.
    Case {
        bytes: b"\x92\xa1\x61\x92\x92\xd7\x00\x00\x00\x00\x01\x00\x00\x00\x02\x80\x92\xc7\x08\x00\x00\x00\x00\x01\x00\x00\x00\x02\x80",
        tag: b"a",
        entries: b"\x92\xd7\x00\x00\x00\x00\x01\x00\x00\x00\x02\x80\x92\xc7\x08\x00\x00\x00\x00\x01\x00\x00\x00\x02\x80",
        count: 2,
        ack: b"",
    },
    // Nothing is compressed.
    Case {
        bytes: b"\x93\xa1\x61\xc4\x00\x81\xaacompressed\xa4text",
        tag: b"a",
        entries: b"",
        count: 0,
        ack: b"",
    },
    // The last chunk counts, here a nil; and nil is no option.
    Case {
        bytes: b"\x94\xa1\x61\x01\x80\x82\xa5chunk\xa2c1\xc4\x05chunk\xc0",
        tag: b"a",
        entries: b"\x92\x01\x80",
        count: 1,
        ack: b"",
    },
    Case {
        bytes: b"\xdc\x00\x04\xc4\x01\x61\xce\x00\x00\x00\x01\xde\x00\x00\xc0",
        tag: b"a",
        entries: b"\x92\xce\x00\x00\x00\x01\xde\x00\x00",
        count: 1,
        ack: b"",
    },
];

// Whether a message has what the case says.
fn is_case(message: &Message<Global>, case: &Case) -> bool {
    let ack = match &message.ack {
        Some(item) => item.as_slice(),
        None => b"",
    };
    message.tag.as_slice() == case.tag
        && message.entries.as_bytes() == case.entries
        && message.entries.count() == case.count
        && ack == case.ack
}

// Whether each beginning of these bytes wants more.
fn wants_more(alloc: Global, bytes: &[u8]) -> bool {
    for n in 0..bytes.len() {
        let (beginning, _) = bytes.split_at(n);
        if answered(alloc, beginning) != Answer::Need {
            return false;
        }
    }
    true
}

// Whether these bytes are that message and nothing more.
fn comes_to(alloc: Global, case: &Case) -> bool {
    match read(alloc, case.bytes) {
        Ok(Read::Message(message, n)) => n == case.bytes.len() && is_case(&message, case),
        _ => false,
    }
}

// Whether each does, and no fewer of its bytes are a message or bad.
fn are_cases(alloc: Global) -> bool {
    for case in &CASES {
        if !comes_to(alloc, case) || !wants_more(alloc, case.bytes) {
            return false;
        }
    }
    true
}

#[test]
fn messages(rt: HostRuntime) {
    assert!(rt; are_cases(rt.alloc()));
}

// Each is found where the last byte came.
static FAULTS: [(&[u8], &str); 19] = [
    (b"\x01", "V1"),
    (b"\x90", "V1"),
    (b"\x91\xa1\x61", "V1"),
    (b"\x92\xa1\x61\x01", "V1"),
    (b"\x94\xa1\x61\x90\xc0\xc0", "V1"),
    (b"\x95\xa1\x61\x01\x80\xc0\xc0", "V1"),
    (b"\x93\x01\x01\x80", "V2"),
    (
        b"\x93\xa1\x61\xcb\x00\x00\x00\x00\x00\x00\x00\x00\x80",
        "V3",
    ),
    (
        b"\x93\xa1\x61\xd7\x01\x00\x00\x00\x01\x00\x00\x00\x02\x80",
        "V3",
    ),
    (
        b"\x93\xa1\x61\xc8\x00\x08\x00\x00\x00\x00\x01\x00\x00\x00\x02\x80",
        "V3",
    ),
    (b"\x93\xa1\x61\x01\x90", "V4"),
    (b"\x92\xa1\x61\x91\x93\x01\x80\xc0", "V5"),
    (b"\x92\xa1\x61\xc4\x03\x92\x00\x81", "V6"),
    (b"\x93\xa1\x61\xc4\x00\x81\xaacompressed\xa4gzip", "V7"),
    (b"\x94\xa1\x61\x01\x80\x01", "V8"),
    (
        b"\x94\xa1\x61\x01\x80\x82\xa5chunk\x01\xa5chunk\xa2c1",
        "V8",
    ),
    (b"\xc1", "V9 M1"),
    (b"\x92\xa1\x61\xc4\x01\xc1", "V9 M1"),
    (b"\x92\xa1\x61\xc4\x04\x92\x01\x90\xc1", "V4"),
];

// What bytes are answered by, without what is read.
#[derive(Clone, Copy, PartialEq, Eq)]
enum Answer {
    Need,
    Message,
    Heartbeat(usize),
    Bad(ModeFault),
    Memory,
}

fn answered(alloc: Global, bytes: &[u8]) -> Answer {
    match read(alloc, bytes) {
        Ok(Read::Need) => Answer::Need,
        Ok(Read::Message(..)) => Answer::Message,
        Ok(Read::Heartbeat(n)) => Answer::Heartbeat(n),
        Ok(Read::Bad(fault)) => Answer::Bad(fault),
        Err(AllocError) => Answer::Memory,
    }
}

// Whether these bytes have the fault of this code.
fn has_fault(alloc: Global, bytes: &[u8], code: &str) -> bool {
    match answered(alloc, bytes) {
        Answer::Bad(fault) => is_printed(alloc, &fault, code),
        _ => false,
    }
}

fn have_faults(alloc: Global) -> bool {
    for (bytes, code) in &FAULTS {
        if !has_fault(alloc, bytes, code) || !wants_more(alloc, bytes) {
            return false;
        }
    }
    true
}

#[test]
fn faults(rt: HostRuntime) {
    assert!(rt; have_faults(rt.alloc()));
}

// What is told behind a tag of a message of one entry, before its chunk.
const BEHIND_TAG: &[u8] = b"\x01\x80\x81\xa5chunk";

// Adds a str of so many bytes.
fn put_text(bytes: &mut Vec<u8>, length: u16) -> Result<(), AllocError> {
    bytes.push(0xda)?;
    bytes.extend_from_slice(&length.to_be_bytes())?;
    bytes.resize(bytes.len() + usize::from(length), b't')
}

// Adds a message with a tag and a chunk of so many bytes.
fn put_tagged(bytes: &mut Vec<u8>, tag: u16, chunk: u16) -> Result<(), AllocError> {
    bytes.push(0x94)?;
    put_text(bytes, tag)?;
    bytes.extend_from_slice(BEHIND_TAG)?;
    put_text(bytes, chunk)
}

// What such a message is answered by.
fn answered_to(alloc: Global, tag: u16, chunk: u16) -> Answer {
    let mut bytes = Vec::new(alloc);
    match put_tagged(&mut bytes, tag, chunk) {
        Ok(()) => answered(alloc, &bytes),
        Err(AllocError) => Answer::Memory,
    }
}

// A tag has at most 1,024 bytes, a chunk's item with its header too.
static LIMITS: [(u16, u16, Answer); 3] = [
    (1024, 1021, Answer::Message),
    (1025, 1021, Answer::Bad(ModeFault::BadTag)),
    (1024, 1022, Answer::Bad(ModeFault::BadOption)),
];

fn are_limits(alloc: Global) -> bool {
    for (tag, chunk, want) in &LIMITS {
        if answered_to(alloc, *tag, *chunk) != *want {
            return false;
        }
    }
    true
}

#[test]
fn limits(rt: HostRuntime) {
    assert!(rt; are_limits(rt.alloc()));
}

static OTHERS: [(&[u8], Answer); 3] = [
    (b"", Answer::Need),
    (b"\xa5\x61", Answer::Need),
    (b"\xc0\x93", Answer::Heartbeat(1)),
];

fn are_answered(alloc: Global) -> bool {
    for (bytes, want) in &OTHERS {
        if answered(alloc, bytes) != *want {
            return false;
        }
    }
    true
}

#[test]
fn other_answers(rt: HostRuntime) {
    assert!(rt; are_answered(rt.alloc()));
}

// What a feed answers next: a message's tag has one byte here.
#[derive(Clone, Copy, PartialEq, Eq)]
enum Came {
    Need,
    Tag(u8),
    Heartbeat,
    BadBytes,
    Other,
}

fn tag_of(message: &Message<Global>) -> Came {
    match message.tag.as_slice() {
        [tag] => Came::Tag(*tag),
        _ => Came::Other,
    }
}

fn next_of(feed: &mut Feed<Global>) -> Came {
    match feed.next() {
        Ok(Next::Need) => Came::Need,
        Ok(Next::Message(message)) => tag_of(&message),
        Ok(Next::Heartbeat) => Came::Heartbeat,
        Ok(Next::Bad(ModeFault::Bytes(_))) => Came::BadBytes,
        Ok(Next::Bad(_)) | Err(AllocError) => Came::Other,
    }
}

// Whether a feed takes these bytes, which it doesn't behind bytes that are bad.
fn fed(feed: &mut Feed<Global>, bytes: &[u8]) -> Came {
    match feed.feed(bytes) {
        Ok(()) => Came::Need,
        Err(FeedError::Fault(ModeFault::Bytes(_))) => Came::BadBytes,
        Err(_) => Came::Other,
    }
}

// How many times a feed asks for more where these bytes come one by one, and what comes then.
fn asked_for(feed: &mut Feed<Global>, bytes: &[u8]) -> (usize, Came) {
    for (i, byte) in bytes.iter().enumerate() {
        if fed(feed, &[*byte]) != Came::Need {
            return (i, Came::Other);
        }
        let came = next_of(feed);
        if came != Came::Need {
            return (i, came);
        }
    }
    (bytes.len(), Came::Need)
}

// What a message of a million bytes and twelve begins with.
const FRONT: &[u8] = b"\x93\xa1a\x00\x81\xa1k\xdb\x00\x0f\x42\x40";

fn long_message(alloc: Global) -> Result<Vec<u8>, AllocError> {
    let mut bytes = Vec::from_slice(alloc, FRONT)?;
    bytes.resize(1_000_012, b'v')?;
    Ok(bytes)
}

// Whether it comes with its last byte.
fn comes_at_last(alloc: Global) -> bool {
    let mut feed = Feed::new(alloc);
    match long_message(alloc) {
        Ok(bytes) => asked_for(&mut feed, &bytes) == (1_000_011, Came::Tag(b'a')),
        Err(AllocError) => false,
    }
}

// A million bytes one by one: each is looked at once.
#[test]
fn fed_for_long(rt: HostRuntime) {
    assert!(rt; comes_at_last(rt.alloc()));
}

// What is fed, whether it is taken, what comes then, and how much is held. Bad bytes stay, and no
// more are taken.
static BEHIND: [(&[u8], Came, Came, usize); 4] = [
    (b"\xa1\x6b\xa1\x76", Came::Need, Came::Tag(b'a'), 0),
    (b"\xc0\xc1\x00", Came::Need, Came::Heartbeat, 2),
    (b"", Came::Need, Came::BadBytes, 2),
    (b"\x01", Came::BadBytes, Came::BadBytes, 2),
];

// Whether a feed goes on so.
fn goes_on(feed: &mut Feed<Global>) -> bool {
    for (bytes, taken, next, held) in &BEHIND {
        if fed(feed, bytes) != *taken || next_of(feed) != *next || feed.held_len() != *held {
            return false;
        }
    }
    true
}

// Whether a feed wants more of the first fourteen bytes of a message, and goes on so.
fn is_fed(alloc: Global) -> bool {
    let mut feed = Feed::new(alloc);
    let (front, _) = CASES[1].bytes.split_at(14);
    asked_for(&mut feed, front) == (14, Came::Need) && goes_on(&mut feed)
}

// Byte by byte a feed wants more until the last bytes come at once.
#[test]
fn fed_slowly(rt: HostRuntime) {
    assert!(rt; is_fed(rt.alloc()));
}

const ACK: &[u8] = b"\x81\xa3ack\xa2c1";

fn is_ack_put(alloc: Global) -> bool {
    let mut out = Vec::new(alloc);
    put_ack(&mut out, b"\xa2c1").is_ok() && out.as_slice() == ACK
}

// What begins with an acknowledgement, or doesn't, and what is read.
static ACKS: [(&[u8], AckRead); 4] = [
    (
        ACK,
        AckRead::Value {
            start: 6,
            end: 8,
            next: 8,
        },
    ),
    (b"\x81\xa3ack\xa2c", AckRead::Need),
    (b"\x80", AckRead::Bad(ModeFault::NotAMessage)),
    (
        b"\x82\xa3ack\xa1x\xc4\x03ack\xc4\x01y\x00",
        AckRead::Value {
            start: 14,
            end: 15,
            next: 15,
        },
    ),
];

fn are_acks() -> bool {
    for (bytes, want) in &ACKS {
        if read_ack(bytes) != *want {
            return false;
        }
    }
    true
}

#[test]
fn acknowledgements(rt: HostRuntime) {
    assert!(rt; is_ack_put(rt.alloc()) && are_acks());
}

static IDS: [(ChunkId, &[u8]); 2] = [
    (ID, b"AAAAAgAAAAEAAAAAAAAAAw=="),
    (
        ChunkId {
            relay: 1,
            buffer: 0,
            serial: 0,
        },
        b"AAAAAQAAAAAAAAAAAAAAAA==",
    ),
];

const ID: ChunkId = ChunkId {
    relay: 2,
    buffer: 1,
    serial: 3,
};

static NO_IDS: [&[u8]; 4] = [
    b"AAAAAQAAAAAAAAAAAAAAAB==",
    b"AAAAAQAAAAAAAAAAAAAAAA",
    b"AAAAAQAAAAAAAAAAAAAAAAAA",
    b"",
];

fn is_id(id: ChunkId, text: &[u8]) -> bool {
    id.text().as_slice() == text && ChunkId::read(text) == Some(id)
}

fn are_ids() -> bool {
    for (id, text) in &IDS {
        if !is_id(*id, text) {
            return false;
        }
    }
    true
}

fn are_no_ids() -> bool {
    for text in &NO_IDS {
        if ChunkId::read(text).is_some() {
            return false;
        }
    }
    true
}

#[test]
fn chunk_ids(rt: HostRuntime) {
    assert!(rt; are_ids() && are_no_ids());
}

// What one entry under a tag is written as.
const PACKED: &[u8] =
    b"\x93\xa1\x61\xc4\x03\x92\x01\x80\x82\xa4size\x01\xa5chunk\xb8AAAAAgAAAAEAAAAAAAAAAw==";

fn is_packed(alloc: Global, entries: &Entries<Global>, id: Option<&ChunkId>, want: &[u8]) -> bool {
    let mut out = Vec::new(alloc);
    entries.as_bytes().len() <= 3
        && put_packed(&mut out, b"a", entries, id).is_ok()
        && out.as_slice() == want
}

fn is_one_packed(alloc: Global) -> bool {
    match Entries::read(alloc, b"\x92\x01\x80", 1) {
        Ok(Some(entries)) => is_packed(alloc, &entries, Some(&ID), PACKED),
        _ => false,
    }
}

fn is_none_packed(alloc: Global) -> bool {
    is_packed(
        alloc,
        &Entries::new(alloc),
        None,
        b"\x93\xa1\x61\xc4\x00\x81\xa4size\x00",
    )
}

#[test]
fn written_messages(rt: HostRuntime) {
    assert!(rt; is_one_packed(rt.alloc()) && is_none_packed(rt.alloc()));
}

const TWO: &[u8] = b"\x92\x01\x80\x92\x02\x81\x01\x02";

const THREE: &[u8] = b"\x92\x01\x80\x92\x02\x81\x01\x02\x92\x03\x80";

fn are_three(entries: &mut Entries<Global>, others: &Entries<Global>) -> bool {
    others.as_bytes().len() <= 3
        && entries.as_bytes().len() <= 8
        && entries.append(others).is_ok()
        && entries.count() == 3
        && entries.as_bytes() == THREE
}

// Whether the first two entries are these.
fn begin_so(entries: &Entries<Global>) -> bool {
    let mut items = entries.iter();
    items.next() == Some(b"\x92\x01\x80".as_slice())
        && items.next() == Some(b"\x92\x02\x81\x01\x02".as_slice())
}

fn are_appended(alloc: Global) -> bool {
    match (
        Entries::read(alloc, TWO, 2),
        Entries::read(alloc, b"\x92\x03\x80", 1),
    ) {
        (Ok(Some(mut entries)), Ok(Some(others))) => {
            are_three(&mut entries, &others) && begin_so(&entries)
        }
        _ => false,
    }
}

// Bytes that aren't so many entries.
static NO_ENTRIES: [(&[u8], usize); 5] = [
    (TWO, 1),
    (TWO, 3),
    (b"\x92\x01\x80\x92\x02\x81\x01", 2),
    (b"\xdc\x00\x02\x01\x80", 1),
    (b"\x92\x01\x90", 1),
];

fn are_no_entries(alloc: Global) -> bool {
    for (bytes, count) in &NO_ENTRIES {
        if !matches!(Entries::read(alloc, bytes, *count), Ok(None)) {
            return false;
        }
    }
    true
}

#[test]
fn stored_entries(rt: HostRuntime) {
    assert!(rt; are_appended(rt.alloc()) && are_no_entries(rt.alloc()));
}
