//! MessagePack items: vectors from outside, printed text, and that the calls succeed, which no
//! clause says.

use crate::codes::are_printed;
use msgpack_bytes::{
    Head, MsgFault, PieceScan, Scan, Scanner, head, put_array, put_bin, put_bool, put_map, put_str,
    put_uint, scan,
};
use std::alloc::{AllocError, Global};

const NEED: Scan = Scan::Need;

const RESERVED: Scan = Scan::Bad(MsgFault::Reserved);

const TOO_DEEP: Scan = Scan::Bad(MsgFault::TooDeep);

const TOO_LONG: Scan = Scan::Bad(MsgFault::TooLong);

// From which byte on these are scanned, and what is answered.
static SCANS: [(usize, &[u8], Scan); 28] = [
    (0, b"", NEED),
    (0, b"\xc0", Scan::End(1)),
    (0, b"\xc1", RESERVED),
    (0, b"\xc0\xc1", Scan::End(1)),
    (0, b"\x91\xc1", RESERVED),
    (0, b"\xa5a", NEED),
    (0, b"\xa1a\xc1", Scan::End(2)),
    (0, b"\x81\xa1k\xa1v", Scan::End(5)),
    (0, b"\x82\xa1k\xa1v", NEED),
    (0, b"\xc7\x01\x00\xc1", Scan::End(4)),
    (
        0,
        b"\xd7\x00\x00\x00\x00\x01\x00\x00\x00\x02",
        Scan::End(10),
    ),
    (0, b"\xdd\x00\xff\xff\xfb", NEED),
    (0, b"\xdd\x00\xff\xff\xfc", TOO_LONG),
    (0, b"\xdd\x00\xff\xff\xfc\xc1", TOO_LONG),
    (0, b"\xdd\x00\xff\xff\xfb\xc1", RESERVED),
    (0, b"\xdd\x00\xff\xff\xfb\xcc", TOO_LONG),
    (0, b"\xdd", NEED),
    (0, b"\xdd\xff", TOO_LONG),
    (0, b"\xdd\xff\xff\xff\xff", TOO_LONG),
    (0, b"\xdf\x00\x7f\xff\xfd", NEED),
    (0, b"\xdf\x00\x7f\xff\xfe", TOO_LONG),
    (0, b"\xdf\xff\xff\xff\xff", TOO_LONG),
    (0, b"\xdb\x00\xff\xff\xfb", NEED),
    (0, b"\xdb\x00\xff\xff\xfc", TOO_LONG),
    (0, b"\xc9\x00\xff\xff\xfb", TOO_LONG),
    (1, b"\xc1\x92\xc2\xc3\xc1", Scan::End(4)),
    (4, b"\xc1\x92\xc2\xc3\xc1", RESERVED),
    (5, b"\xc1\x92\xc2\xc3\xc1", NEED),
];

// What these bytes are answered by from this one on, which stands before their end or at it.
fn scanned(bytes: &[u8], from: usize) -> Scan {
    scan(bytes, from.min(bytes.len()))
}

fn are_scanned() -> bool {
    for (from, bytes, want) in &SCANS {
        if scanned(bytes, *from) != *want {
            return false;
        }
    }
    true
}

#[test]
fn scans(rt: HostRuntime) {
    assert!(rt; are_scanned());
}

// What a scanner answers to the last of these pieces.
fn last_of(pieces: &[&[u8]]) -> PieceScan {
    let mut scanner = Scanner::new();
    let mut last = PieceScan::Need;
    for piece in pieces {
        last = scanner.take(piece);
    }
    last
}

// Pieces, and what the last is answered by.
static PIECES: [(&[&[u8]], PieceScan); 14] = [
    (&[b""], PieceScan::Need),
    (&[b"", b"\xc0\xc0"], PieceScan::End(1)),
    (&[b"\xc0", b"\xc0"], PieceScan::End(0)),
    (&[b"\xc1"], PieceScan::Bad(MsgFault::Reserved)),
    (&[b"\xc1", b"\x90"], PieceScan::Bad(MsgFault::Reserved)),
    (&[b"\xdd"], PieceScan::Need),
    (&[b"\xdd", b"\xff"], PieceScan::Bad(MsgFault::TooLong)),
    (&[b"\xda\x00", b"\x03ab", b"c\xc1"], PieceScan::End(1)),
    (&[b"\x92\xa1", b"", b"k\xa3", b"abcd"], PieceScan::End(3)),
    (
        &[b"\xdc\x00", b"\x01", b"\xc1"],
        PieceScan::Bad(MsgFault::Reserved),
    ),
    (
        &[b"\xc6\x00\x00", b"\x00", b"\x02a", b"bc"],
        PieceScan::End(1),
    ),
    (&[b"\x92\xc0", b"\xc0", b"\xc1"], PieceScan::End(0)),
    (&[b"\xdf\x00\x7f\xff", b"\xfd"], PieceScan::Need),
    (
        &[b"\xdf\x00\x7f\xff", b"\xfe"],
        PieceScan::Bad(MsgFault::TooLong),
    ),
];

fn are_scanned_in_pieces() -> bool {
    for (pieces, want) in &PIECES {
        if last_of(pieces) != *want {
            return false;
        }
    }
    true
}

#[test]
fn scans_in_pieces(rt: HostRuntime) {
    assert!(rt; are_scanned_in_pieces());
}

// What a scanner answers to bytes that come one by one: how many times more is asked for, and the
// answer then.
fn one_by_one(bytes: &[u8]) -> (usize, PieceScan) {
    let mut scanner = Scanner::new();
    for (i, byte) in bytes.iter().enumerate() {
        let answer = scanner.take(&[*byte]);
        if answer != PieceScan::Need {
            return (i, answer);
        }
    }
    (bytes.len(), PieceScan::Need)
}

const MESSAGE: &[u8] = b"\x93\xa3app\xce\x00\x00\x00\x01\x81\xa1k\xa1v";

#[test]
fn scans_byte_by_byte(rt: HostRuntime) {
    assert!(rt; one_by_one(MESSAGE) == (14, PieceScan::End(1)));
}

// So many arrays of one item, one in another, and then these bytes.
fn nested(alloc: Global, depth: usize, rest: &[u8]) -> Result<Vec<u8>, AllocError> {
    let mut bytes = Vec::new(alloc);
    bytes.resize(depth, 0x91)?;
    bytes.extend_from_slice(rest)?;
    Ok(bytes)
}

// How many arrays, what is in them, and what that is answered by.
static NESTED: [(usize, &[u8], Scan); 10] = [
    (63, b"\x90", Scan::End(64)),
    (63, b"\x80", Scan::End(64)),
    (64, b"\xc0", Scan::End(65)),
    (64, b"\x90", TOO_DEEP),
    (64, b"\x80", TOO_DEEP),
    (64, b"\xdd", TOO_DEEP),
    (64, b"\xc1", RESERVED),
    (64, b"\xde\x00", TOO_DEEP),
    (63, b"\xdd\x00\xff\xff\xbc\x90", TOO_DEEP),
    (63, b"\xdd\x00\xff\xff\xbd\x90", TOO_LONG),
];

fn is_nested(alloc: Global, depth: usize, rest: &[u8], want: Scan) -> bool {
    match nested(alloc, depth, rest) {
        Ok(bytes) => scanned(&bytes, 0) == want,
        Err(AllocError) => false,
    }
}

fn are_nested(alloc: Global) -> bool {
    for (depth, rest, want) in &NESTED {
        if !is_nested(alloc, *depth, rest, *want) {
            return false;
        }
    }
    true
}

#[test]
fn scans_what_nests(rt: HostRuntime) {
    assert!(rt; are_nested(rt.alloc()));
}

// What a str of this length, which is almost the limit, is answered by with a byte behind it.
fn long_str(alloc: Global, low: u8) -> Result<Scan, AllocError> {
    let mut bytes = Vec::from_slice(alloc, &[0xdb, 0, 0xff, 0xff, low])?;
    bytes.resize(16_777_217, 0)?;
    Ok(scanned(&bytes, 0))
}

// Whether the longest str ends, and one that is a byte longer doesn't.
fn ends_at_the_limit(alloc: Global) -> bool {
    long_str(alloc, 0xfb) == Ok(Scan::End(16_777_216)) && long_str(alloc, 0xfc) == Ok(TOO_LONG)
}

#[test]
fn scans_to_the_limit(rt: HostRuntime) {
    assert!(rt; ends_at_the_limit(rt.alloc()));
}

// The table of formats: for first bytes from one to another, where an item ends behind which zeros
// stand, and by how much later for each next one.
static FORMATS: [(u8, u8, usize, usize); 37] = [
    (0x00, 0x7f, 1, 0),
    (0x80, 0x8f, 1, 2),
    (0x90, 0x9f, 1, 1),
    (0xa0, 0xbf, 1, 1),
    (0xc0, 0xc0, 1, 0),
    (0xc2, 0xc2, 1, 0),
    (0xc3, 0xc3, 1, 0),
    (0xc4, 0xc4, 2, 0),
    (0xc5, 0xc5, 3, 0),
    (0xc6, 0xc6, 5, 0),
    (0xc7, 0xc7, 3, 0),
    (0xc8, 0xc8, 4, 0),
    (0xc9, 0xc9, 6, 0),
    (0xca, 0xca, 5, 0),
    (0xcb, 0xcb, 9, 0),
    (0xcc, 0xcc, 2, 0),
    (0xcd, 0xcd, 3, 0),
    (0xce, 0xce, 5, 0),
    (0xcf, 0xcf, 9, 0),
    (0xd0, 0xd0, 2, 0),
    (0xd1, 0xd1, 3, 0),
    (0xd2, 0xd2, 5, 0),
    (0xd3, 0xd3, 9, 0),
    (0xd4, 0xd4, 3, 0),
    (0xd5, 0xd5, 4, 0),
    (0xd6, 0xd6, 6, 0),
    (0xd7, 0xd7, 10, 0),
    (0xd8, 0xd8, 18, 0),
    (0xd9, 0xd9, 2, 0),
    (0xda, 0xda, 3, 0),
    (0xdb, 0xdb, 5, 0),
    (0xdc, 0xdc, 3, 0),
    (0xdd, 0xdd, 5, 0),
    (0xde, 0xde, 3, 0),
    (0xdf, 0xdf, 5, 0),
    (0xe0, 0xfe, 1, 0),
    (0xff, 0xff, 1, 0),
];

// What this byte and zeros behind it are answered by.
fn format_of(first: u8) -> Scan {
    let mut bytes = [0u8; 40];
    bytes[0] = first;
    scan(&bytes, 0)
}

// Whether items from one first byte to another end there, each so much later than the last.
fn end_so(low: u8, high: u8, size: usize, step: usize) -> bool {
    let mut want = size;
    for first in low..=high {
        if format_of(first) != Scan::End(want) {
            return false;
        }
        want = want.saturating_add(step);
    }
    true
}

fn are_formats() -> bool {
    for (low, high, size, step) in &FORMATS {
        if !end_so(*low, *high, *size, *step) {
            return false;
        }
    }
    true
}

#[test]
fn scans_each_format(rt: HostRuntime) {
    assert!(rt; are_formats());
}

// At which byte an item's head is looked for, in these, and what it is.
static HEADS: [(usize, &[u8], Option<Head>); 39] = [
    (0, b"", None),
    (0, b"\xc0", Some(Head::Nil)),
    (0, b"\xc1", None),
    (0, b"\xc2", Some(Head::Bool(false))),
    (0, b"\xc3", Some(Head::Bool(true))),
    (0, b"\x00", Some(Head::Int(0))),
    (0, b"\x7f", Some(Head::Int(127))),
    (0, b"\xe0", Some(Head::Int(-32))),
    (0, b"\xff", Some(Head::Int(-1))),
    (0, b"\xcc\xff", Some(Head::Int(255))),
    (0, b"\xcd\x00\x05", Some(Head::Int(5))),
    (
        0,
        b"\xcf\xff\xff\xff\xff\xff\xff\xff\xff",
        Some(Head::Int(18_446_744_073_709_551_615)),
    ),
    (0, b"\xd0\x7f", Some(Head::Int(127))),
    (0, b"\xd0\x80", Some(Head::Int(-128))),
    (0, b"\xd1\x01\x00", Some(Head::Int(256))),
    (
        0,
        b"\xd3\x80\x00\x00\x00\x00\x00\x00\x00",
        Some(Head::Int(-9_223_372_036_854_775_808)),
    ),
    (0, b"\xd3\x80\x00", None),
    (0, b"\xca\x00\x00\x00\x00", Some(Head::Float)),
    (0, b"\xca\x00\x00\x00", None),
    (
        0,
        b"\xcb\x00\x00\x00\x00\x00\x00\x00\x00",
        Some(Head::Float),
    ),
    (0, b"\xa0", Some(Head::Str { start: 1, end: 1 })),
    (0, b"\xa3abc", Some(Head::Str { start: 1, end: 4 })),
    (0, b"\xa5a", None),
    (0, b"\xd9\x00", Some(Head::Str { start: 2, end: 2 })),
    (
        0,
        b"\xda\x00\x01a0, b",
        Some(Head::Str { start: 3, end: 4 }),
    ),
    (0, b"\xda\x01", None),
    (
        0,
        b"\xdb\x00\x00\x00\x01a",
        Some(Head::Str { start: 5, end: 6 }),
    ),
    (0, b"\xc4\x02a0, b", Some(Head::Bin { start: 2, end: 4 })),
    (0, b"\xc4\x02a", None),
    (
        0,
        b"\xd4\x05a",
        Some(Head::Ext {
            kind: 5,
            start: 2,
            end: 3,
        }),
    ),
    (0, b"\xd4\x05", None),
    (
        0,
        b"\xc7\x00\x05",
        Some(Head::Ext {
            kind: 5,
            start: 3,
            end: 3,
        }),
    ),
    (0, b"\x92", Some(Head::Array { count: 2, next: 1 })),
    (0, b"\xdc\x00\x01", Some(Head::Array { count: 1, next: 3 })),
    (0, b"\xdd\x00\x00\x00", None),
    (0, b"\x81", Some(Head::Map { count: 1, next: 1 })),
    (
        0,
        b"\xdf\xff\xff\xff\xff",
        Some(Head::Map {
            count: 4_294_967_295,
            next: 5,
        }),
    ),
    (1, b"\xc1\xa1a", Some(Head::Str { start: 2, end: 3 })),
    (2, b"\xc0", None),
];

// The head that stands there.
fn headed(bytes: &[u8], from: usize) -> Option<Head> {
    head(bytes, from)
}

fn are_heads() -> bool {
    for (from, bytes, want) in &HEADS {
        if headed(bytes, *from) != *want {
            return false;
        }
    }
    true
}

#[test]
fn reads_heads(rt: HostRuntime) {
    assert!(rt; are_heads());
}

static INTEGERS: [(u64, &[u8]); 10] = [
    (0, b"\x00"),
    (127, b"\x7f"),
    (128, b"\xcc\x80"),
    (255, b"\xcc\xff"),
    (256, b"\xcd\x01\x00"),
    (65_535, b"\xcd\xff\xff"),
    (65_536, b"\xce\x00\x01\x00\x00"),
    (4_294_967_295, b"\xce\xff\xff\xff\xff"),
    (4_294_967_296, b"\xcf\x00\x00\x00\x01\x00\x00\x00\x00"),
    (u64::MAX, b"\xcf\xff\xff\xff\xff\xff\xff\xff\xff"),
];

// Whether the number is written so, and read from that.
fn is_integer(alloc: Global, value: u64, want: &[u8]) -> bool {
    let mut out = Vec::new(alloc);
    put_uint(&mut out, value).is_ok()
        && out.as_slice() == want
        && headed(&out, 0) == Some(Head::Int(i128::from(value)))
}

fn are_integers(alloc: Global) -> bool {
    for (value, want) in &INTEGERS {
        if !is_integer(alloc, *value, want) {
            return false;
        }
    }
    true
}

#[test]
fn writes_integers(rt: HostRuntime) {
    assert!(rt; are_integers(rt.alloc()));
}

// So many items, and how an array's and a map's header say that.
static HEADERS: [(u32, &[u8], &[u8]); 6] = [
    (0, b"\x90", b"\x80"),
    (2, b"\x92", b"\x82"),
    (15, b"\x9f", b"\x8f"),
    (16, b"\xdc\x00\x10", b"\xde\x00\x10"),
    (65_535, b"\xdc\xff\xff", b"\xde\xff\xff"),
    (65_536, b"\xdd\x00\x01\x00\x00", b"\xdf\x00\x01\x00\x00"),
];

fn is_array(alloc: Global, count: u32, want: &[u8]) -> bool {
    let mut out = Vec::new(alloc);
    put_array(&mut out, count).is_ok() && out.as_slice() == want
}

fn is_map(alloc: Global, count: u32, want: &[u8]) -> bool {
    let mut out = Vec::new(alloc);
    put_map(&mut out, count).is_ok() && out.as_slice() == want
}

fn are_headers(alloc: Global) -> bool {
    for (count, array, map) in &HEADERS {
        if !is_array(alloc, *count, array) || !is_map(alloc, *count, map) {
            return false;
        }
    }
    true
}

#[test]
fn writes_headers(rt: HostRuntime) {
    assert!(rt; are_headers(rt.alloc()));
}

// No text that is written here is longer.
const LONGEST: usize = 65_536;

// So many bytes, and what a str and a bin of them begin with.
static TEXTS: [(usize, &[u8], &[u8]); 5] = [
    (31, b"\xbf", b"\xc4\x1f"),
    (32, b"\xd9\x20", b"\xc4\x20"),
    (255, b"\xd9\xff", b"\xc4\xff"),
    (256, b"\xda\x01\x00", b"\xc5\x01\x00"),
    (65_536, b"\xdb\x00\x01\x00\x00", b"\xc6\x00\x01\x00\x00"),
];

// How a str of these bytes is written, and a bin; nothing where it isn't.
fn str_of(alloc: Global, content: &[u8]) -> Vec<u8> {
    let mut out = Vec::new(alloc);
    if content.len() <= LONGEST && put_str(&mut out, content).is_err() {
        out.clear();
    }
    out
}

fn bin_of(alloc: Global, content: &[u8]) -> Vec<u8> {
    let mut out = Vec::new(alloc);
    if content.len() <= LONGEST && put_bin(&mut out, content).is_err() {
        out.clear();
    }
    out
}

fn is_bool(alloc: Global, value: bool, want: &[u8]) -> bool {
    let mut out = Vec::new(alloc);
    put_bool(&mut out, value).is_ok() && out.as_slice() == want
}

// Whether this is one item, and begins so.
fn is_one(bytes: &[u8], front: &[u8]) -> bool {
    bytes.starts_with(front) && scanned(bytes, 0) == Scan::End(bytes.len())
}

// Whether a str and a bin of so many bytes begin so.
fn are_texts_of(alloc: Global, size: usize, as_str: &[u8], as_bin: &[u8]) -> bool {
    match Vec::from_elem(alloc, b'x', size) {
        Ok(content) => {
            is_one(&str_of(alloc, &content), as_str) && is_one(&bin_of(alloc, &content), as_bin)
        }
        Err(_) => false,
    }
}

fn are_texts(alloc: Global) -> bool {
    for (size, as_str, as_bin) in &TEXTS {
        if !are_texts_of(alloc, *size, as_str, as_bin) {
            return false;
        }
    }
    true
}

#[test]
fn writes_texts(rt: HostRuntime) {
    assert!(rt; are_texts(rt.alloc()));
}

fn is_text(text: &[u8], want: &[u8]) -> bool {
    text == want
}

fn are_short(alloc: Global) -> bool {
    is_text(&str_of(alloc, b"abc"), b"\xa3abc") && is_text(&bin_of(alloc, b""), b"\xc4\x00")
}

fn are_bools(alloc: Global) -> bool {
    is_bool(alloc, true, b"\xc3") && is_bool(alloc, false, b"\xc2")
}

#[test]
fn writes_short_texts_and_bools(rt: HostRuntime) {
    assert!(rt; are_short(rt.alloc()) && are_bools(rt.alloc()));
}

static FAULTS: [(MsgFault, &str); 3] = [
    (MsgFault::Reserved, "M1"),
    (MsgFault::TooDeep, "M2"),
    (MsgFault::TooLong, "M3"),
];

#[test]
fn prints_faults(rt: HostRuntime) {
    assert!(rt; are_printed(rt.alloc(), &FAULTS));
}
