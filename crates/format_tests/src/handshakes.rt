//! Handshakes: a digest from outside, items that are read or refused, and printed codes.

use crate::codes::are_printed;
use auth_handshake::{Client, HandshakeFault, HeloError, Ping, Server, digest_hex};
use std::alloc::{AllocError, Global};

// SHA-512 of "abc" (FIPS 180-4, example B.1), which is here parted into a salt, a host name and a
// key.
const DIGEST: &[u8] =
    b"ddaf35a193617abacc417349ae20413112e6fa4e89a97ea20a9eeee64b55d39a2192992a274fc1a836ba3c23a3feebbd454d4423643ce80e2a9ac94fa54ca49f";

const ZEROS: [u8; 16] = [0; 16];

// Whether two ways of parting the text have its digest.
fn is_digest() -> bool {
    digest_hex(b"a", b"b", b"", b"c").as_slice() == DIGEST
        && digest_hex(b"", b"a", b"bc", b"").as_slice() == DIGEST
}

#[test]
fn digest_of_known_text(rt: HostRuntime) {
    assert!(rt; is_digest());
}

// Whether the client reads this as a HELO; nothing without memory.
fn takes_helo(alloc: Global, client: &mut Client<Global>, item: &[u8]) -> Option<bool> {
    let mut ping = Vec::new(alloc);
    match client.helo(item, &mut ping) {
        Ok(()) => Some(true),
        Err(HeloError::Fault(_)) => Some(false),
        Err(HeloError::Memory) => None,
    }
}

// The same of a new client.
fn is_helo(alloc: Global, item: &[u8]) -> Option<bool> {
    match Client::new(alloc, b"b", b"c", ZEROS) {
        Ok(mut client) => takes_helo(alloc, &mut client, item),
        Err(AllocError) => None,
    }
}

// Items, and whether each is read as a HELO.
static HELOS: [(&[u8], bool); 17] = [
    (b"\x92\xa4HELO\x81\xa5nonce\xa1n", true),
    (b"\x92\xa4HELO\x81\xa5nonce\xc4\x00", true),
    (
        b"\x92\xc4\x04HELO\xde\x00\x01\xd9\x05nonce\xda\x00\x01n",
        true,
    ),
    (b"\xdc\x00\x02\xa4HELO\x81\xc4\x05nonce\xa0", true),
    (b"\x92\xa4HELO\x83\xa1x\xc0\xa5nonce\xa1n\x01\x90", true),
    (b"\x92\xa4HELO\x82\xa5nonce\x01\xa5nonce\xa1n", true),
    (b"\x92\xa4HELO\x82\xa5nonce\xa1n\xa5nonce\x01", false),
    (b"\x92\xa4HELO\x81\xa5nonce\xc0", false),
    (b"\x92\xa4HELO\x81\xa5nonc2\xa1n", false),
    (b"\x92\xa4HELO\x80", false),
    (b"\x92\xa4HELO\xc0", false),
    (b"\x92\xa4HELo\x81\xa5nonce\xa1n", false),
    (b"\x93\xa4HELO\x81\xa5nonce\xa1n\xc0", false),
    (b"\x92\xa4HELO\x81\xa5nonce\xa1", false),
    (b"\x92\xa4HELO\x81\xa5nonce\xa1nn", false),
    (b"\xc1", false),
    (b"", false),
];

fn are_helos(alloc: Global) -> bool {
    for (item, want) in &HELOS {
        if is_helo(alloc, item) != Some(*want) {
            return false;
        }
    }
    true
}

#[test]
fn reads_helo_leniently(rt: HostRuntime) {
    assert!(rt; are_helos(rt.alloc()));
}

// Items, and why each is refused as a PING.
static PINGS: [(&[u8], HandshakeFault); 12] = [
    (
        b"\x96\xa4PING\xa1h\xc4\x01s\xa1d\xa0\xa0",
        HandshakeFault::WrongDigest,
    ),
    (
        b"\x96\xc4\x04PING\xc4\x01h\xa1s\xc4\x01d\xa1u\xc4\x01p",
        HandshakeFault::WrongDigest,
    ),
    (
        b"\xdd\x00\x00\x00\x06\xd9\x04PING\xa0\xa0\xa0\xda\x00\x00\xa0",
        HandshakeFault::WrongDigest,
    ),
    (
        b"\x96\xa4PING\xa1h\xa1s\xa1d\xa0\xc0",
        HandshakeFault::NotPing,
    ),
    (
        b"\x96\xa4PING\xa1h\xa1s\x01\xa0\xa0",
        HandshakeFault::NotPing,
    ),
    (b"\x95\xa4PING\xa1h\xa1s\xa1d\xa0", HandshakeFault::NotPing),
    (
        b"\x97\xa4PING\xa1h\xa1s\xa1d\xa0\xa0\xa0",
        HandshakeFault::NotPing,
    ),
    (
        b"\x96\xa4PONG\xa1h\xa1s\xa1d\xa0\xa0",
        HandshakeFault::NotPing,
    ),
    (
        b"\x96\xa4PING\xa1h\xa1s\xa1d\xa0\xa0\xa0",
        HandshakeFault::NotPing,
    ),
    (b"\x96\xa4PING\xa1h\xa1s\xa1d\xa0", HandshakeFault::NotPing),
    (b"\xc1", HandshakeFault::NotPing),
    (b"", HandshakeFault::NotPing),
];

// Why a server refuses this, and with which PONG; none where it passes, or without memory.
fn refused(alloc: Global, item: &[u8], pong: &mut Vec<u8>) -> Option<HandshakeFault> {
    let Ok(server) = Server::new(alloc, b"s", b"c", ZEROS) else {
        return None;
    };
    match server.ping(item, pong) {
        Ok(Ping::Refused(fault)) => Some(fault),
        _ => None,
    }
}

// Whether a server refuses each so.
fn are_refused_as_pings(alloc: Global) -> bool {
    let mut pong = Vec::new(alloc);
    for (item, want) in &PINGS {
        if refused(alloc, item, &mut pong) != Some(*want) {
            return false;
        }
    }
    true
}

#[test]
fn reads_ping_leniently(rt: HostRuntime) {
    assert!(rt; are_refused_as_pings(rt.alloc()));
}

// A PONG that refuses an item that is none.
const INVALID: &[u8] = b"\x95\xa4PONG\xc2\xacinvalid ping\xa0\xa0";

// Whether nil is refused so.
fn is_nil_refused(alloc: Global) -> bool {
    let mut pong = Vec::new(alloc);
    let fault = refused(alloc, b"\xc0", &mut pong);
    fault == Some(HandshakeFault::NotPing) && pong.as_slice() == INVALID
}

#[test]
fn says_why_a_ping_is_refused(rt: HostRuntime) {
    assert!(rt; is_nil_refused(rt.alloc()));
}

// Items, and why each is refused as a PONG.
static PONGS: [(&[u8], HandshakeFault); 12] = [
    (
        b"\x95\xa4PONG\xc3\xa0\xa1h\xa1d",
        HandshakeFault::WrongDigest,
    ),
    (
        b"\xdc\x00\x05\xc4\x04PONG\xc3\xc4\x00\xd9\x01h\xc4\x01d",
        HandshakeFault::WrongDigest,
    ),
    (
        b"\x95\xa4PONG\xc2\xa1r\xa0\xa0",
        HandshakeFault::RefusedByServer,
    ),
    (
        b"\x95\xa4PONG\xc2\xc4\x01r\xa1h\xa1d",
        HandshakeFault::RefusedByServer,
    ),
    (b"\x95\xa4PONG\x01\xa0\xa1h\xa1d", HandshakeFault::NotPong),
    (b"\x95\xa4PONG\xc3\xc0\xa1h\xa1d", HandshakeFault::NotPong),
    (b"\x95\xa4PONG\xc2\xa1r\xc0\xc0", HandshakeFault::NotPong),
    (b"\x94\xa4PONG\xc3\xa0\xa1h", HandshakeFault::NotPong),
    (b"\x95\xa4PING\xc3\xa0\xa1h\xa1d", HandshakeFault::NotPong),
    (
        b"\x95\xa4PONG\xc3\xa0\xa1h\xa1d\xc0",
        HandshakeFault::NotPong,
    ),
    (b"\xc1", HandshakeFault::NotPong),
    (b"", HandshakeFault::NotPong),
];

const HELO: &[u8] = b"\x92\xa4HELO\x81\xa5nonce\xa1n";

// Whether the client, which sends its PING, refuses this so.
fn refuses_pong(
    alloc: Global,
    client: &mut Client<Global>,
    item: &[u8],
    want: HandshakeFault,
) -> bool {
    let mut ping = Vec::new(alloc);
    if client.helo(HELO, &mut ping).is_err() {
        return false;
    }
    match client.pong(item) {
        Ok(()) => false,
        Err(fault) => fault == want,
    }
}

// The same of a new client.
fn is_refused_as_pong(alloc: Global, item: &[u8], want: HandshakeFault) -> bool {
    match Client::new(alloc, b"b", b"c", ZEROS) {
        Ok(mut client) => refuses_pong(alloc, &mut client, item, want),
        Err(AllocError) => false,
    }
}

fn are_refused_as_pongs(alloc: Global) -> bool {
    for (item, want) in &PONGS {
        if !is_refused_as_pong(alloc, item, *want) {
            return false;
        }
    }
    true
}

#[test]
fn reads_pong_leniently(rt: HostRuntime) {
    assert!(rt; are_refused_as_pongs(rt.alloc()));
}

static CODES: [(HandshakeFault, &str); 5] = [
    (HandshakeFault::NotPing, "H1"),
    (HandshakeFault::WrongDigest, "H2"),
    (HandshakeFault::NotHelo, "H3"),
    (HandshakeFault::NotPong, "H4"),
    (HandshakeFault::RefusedByServer, "H5"),
];

#[test]
fn prints_codes(rt: HostRuntime) {
    assert!(rt; are_printed(rt.alloc(), &CODES));
}
