//! Worked connections, and what no clause says.

ghost use Rattle.std.specs.Prelude.{◌≡◌, length, IfSome, IsSome};
ghost use Rattle.ack_receipt.specs.Reservations.{asked_of};
ghost use Rattle.event_modes.specs.Reading.{meaning};

use ack_receipt::{Delivery, Numbers, Reserved};
use auth_handshake::HandshakeFault;
use event_modes::{ChunkId, Entries, Message, ModeFault};
use forward_core::{
    ClientSession, Demand, Heard, Security, ServerSession, SessionError, SessionFault,
};
use msgpack_bytes::MsgFault;
use std::alloc::{AllocError, Global};

const ZEROS: [u8; 16] = [0; 16];

// Message mode, one entry, with a chunk.
const MESSAGE: &[u8] = b"\x94\xa1\x61\x01\x80\x81\xa5chunk\xa2c1";

// Forward mode without entries, with the same chunk.
const EMPTY: &[u8] = b"\x93\xa1\x61\x90\x81\xa5chunk\xa2c1";

const ANSWER: &[u8] = b"\x81\xa3ack\xa2c1";

// The tag `a`, one entry, and the chunk's name.
const PACKED: &[u8] =
    b"\x93\xa1\x61\xc4\x03\x92\x01\x80\x82\xa4size\x01\xa5chunk\xb8AAAAAgAAAAEAAAAAAAAAAw==";

const ID: ChunkId = ChunkId {
    relay: 2,
    buffer: 1,
    serial: 3,
};

fn server_side() -> Security<'static>
    ensures { length result.self_hostname.now ≡ 1 }
{
    Security {
        self_hostname: b"s",
        shared_key: b"c",
    }
}

fn client_side(key: &'static [u8]) -> Security<'static>
    ensures { length result.self_hostname.now ≡ 1 }
{
    Security {
        self_hostname: b"b",
        shared_key: key,
    }
}

// A nonce of zeros, no authentication of users, and connections that stay.
const HELO: &[u8] =
    b"\x92\xa4HELO\x83\xa5nonce\xc4\x10\0\0\0\0\0\0\0\0\0\0\0\0\0\0\0\0\xa4auth\xa0\xa9keepalive\xc3";

// What a server's session says to a piece.
#[derive(Clone, Copy, PartialEq, Eq)]
enum Wants {
    Nothing,
    // A message with so many bytes of entries is to be delivered.
    Delivery(usize),
    Close(SessionFault),
    More,
    Refused(SessionError),
}

fn wanted(demands: &[Demand<Global>]) -> Wants {
    match demands {
        [] => Wants::Nothing,
        [Demand::Deliver(message)] => Wants::Delivery(message.entries.as_bytes().len()),
        [Demand::Close(fault)] => Wants::Close(*fault),
        _ => Wants::More,
    }
}

fn feed_server(server: &mut ServerSession<Global>, piece: &[u8]) -> Wants {
    match server.feed(piece) {
        Ok(demands) => wanted(&demands),
        Err(error) => Wants::Refused(error),
    }
}

// What a client's session says to a piece.
#[derive(Clone, Copy, PartialEq, Eq)]
enum Says {
    Wait,
    Seen,
    Fault(SessionFault),
    Memory,
}

fn feed_client(client: &mut ClientSession<Global>, piece: &[u8]) -> Says {
    match client.feed(piece) {
        Ok(Heard::Wait) => Says::Wait,
        Ok(Heard::Seen(evidence)) => {
            evidence.waste();
            Says::Seen
        }
        Ok(Heard::Fault(fault)) => Says::Fault(fault),
        Err(_) => Says::Memory,
    }
}

fn open_server(alloc: Global, secure: bool) -> Result<ServerSession<Global>, AllocError> {
    if secure {
        ServerSession::open(alloc, Some(server_side()), ZEROS)
    } else {
        ServerSession::open(alloc, None, ZEROS)
    }
}

fn open_client(alloc: Global, key: &'static [u8]) -> Result<ClientSession<Global>, AllocError> {
    ClientSession::open(alloc, Some(client_side(key)), ZEROS)
}

// What the server sends is sent.
fn send_all(server: &mut ServerSession<Global>) {
    let all = server.outgoing().len();
    server.sent(all);
}

// Whether a client that gets these bytes in two pieces, of which the first has at most so many,
// waits for more behind each.
fn waits(client: &mut ClientSession<Global>, bytes: &[u8], at: usize) -> bool {
    let (front, back) = bytes.split_at(at.min(bytes.len()));
    feed_client(client, front) == Says::Wait && feed_client(client, back) == Says::Wait
}

// The same of a server, which wants nothing.
fn wants_nothing(server: &mut ServerSession<Global>, bytes: &[u8], at: usize) -> bool {
    let (front, back) = bytes.split_at(at.min(bytes.len()));
    feed_server(server, front) == Wants::Nothing && feed_server(server, back) == Wants::Nothing
}

// Whether a server begins with its HELO, and a client waits behind it.
fn is_greeted(
    server: &mut ServerSession<Global>,
    client: &mut ClientSession<Global>,
    at: usize,
) -> bool {
    let waits = server.outgoing() == HELO && waits(client, server.outgoing(), at);
    send_all(server);
    waits
}

// Whether the client's PING is taken, and the server's PONG, and the client is ready then.
fn is_let_in(
    server: &mut ServerSession<Global>,
    client: &mut ClientSession<Global>,
    at: usize,
) -> bool {
    let ping = client.outgoing();
    let asked = ping.len() == 158 && wants_nothing(server, ping, at);
    let pong = server.outgoing();
    let let_in = pong.len() == 140 && waits(client, pong, at);
    asked && let_in && client.ready()
}

// Whether a client and this server shake hands where each item comes in two pieces, of which the
// first has at most so many bytes.
fn lets_a_client_in(alloc: Global, server: &mut ServerSession<Global>, at: usize) -> bool {
    match open_client(alloc, b"c") {
        Ok(mut client) => {
            is_greeted(server, &mut client, at) && is_let_in(server, &mut client, at)
        }
        Err(AllocError) => false,
    }
}

// The same of a new server.
fn shake_hands(alloc: Global, at: usize) -> bool {
    match open_server(alloc, true) {
        Ok(mut server) => lets_a_client_in(alloc, &mut server, at),
        Err(AllocError) => false,
    }
}

fn shake_always(alloc: Global) -> bool {
    for at in 0..160 {
        if !shake_hands(alloc, at) {
            return false;
        }
    }
    true
}

#[test]
fn hands_are_shaken_wherever_an_item_is_cut(rt: HostRuntime) {
    assert!(rt; shake_always(rt.alloc()));
}

// A PONG that refuses.
const MISMATCH: &[u8] = b"\x95\xa4PONG\xc2\xb3shared_key mismatch\xa0\xa0";

// Whether a server refuses the PING of a client, and the client takes that so.
fn is_refused(server: &mut ServerSession<Global>, client: &mut ClientSession<Global>) -> bool {
    let wrong = Wants::Close(SessionFault::Handshake(HandshakeFault::WrongDigest));
    let refused = Says::Fault(SessionFault::Handshake(HandshakeFault::RefusedByServer));
    feed_server(server, client.outgoing()) == wrong
        && server.outgoing() == MISMATCH
        && feed_client(client, server.outgoing()) == refused
}

// The same of a client with another key.
fn refuses_a_client(alloc: Global, server: &mut ServerSession<Global>) -> bool {
    match open_client(alloc, b"d") {
        Ok(mut client) => is_greeted(server, &mut client, 0) && is_refused(server, &mut client),
        Err(AllocError) => false,
    }
}

fn is_wrong_key_refused(alloc: Global) -> bool {
    match open_server(alloc, true) {
        Ok(mut server) => refuses_a_client(alloc, &mut server),
        Err(AllocError) => false,
    }
}

#[test]
fn a_wrong_key_is_refused_by_both(rt: HostRuntime) {
    assert!(rt; is_wrong_key_refused(rt.alloc()));
}

// Whether a server wants nothing of the first piece of the message, of at most so many bytes, and
// the delivery behind the second.
fn is_delivered(alloc: Global, at: usize) -> bool {
    let (front, back) = MESSAGE.split_at(at.min(MESSAGE.len()));
    match open_server(alloc, false) {
        Ok(mut server) => {
            feed_server(&mut server, front) == Wants::Nothing
                && feed_server(&mut server, back) == Wants::Delivery(3)
        }
        Err(AllocError) => false,
    }
}

fn is_always_delivered(alloc: Global) -> bool {
    for at in 0..MESSAGE.len() {
        if !is_delivered(alloc, at) {
            return false;
        }
    }
    true
}

#[test]
fn a_message_is_delivered_wherever_it_is_cut(rt: HostRuntime) {
    assert!(rt; is_always_delivered(rt.alloc()));
}

// The answer to a message that goes to no buffer.
fn answer_to(alloc: Global, message: Message<Global>) -> Option<Reserved<Global>>
    ensures filled { IfSome result (λ reserved. IsSome reserved.filled) }
    ensures made { IfSome result (λ reserved. reserved.asked ≡ asked_of (meaning message)) }
{
    let Some(number) = Numbers::new().draw() else {
        return None;
    };
    let Ok(mut reserved) = Reserved::for_message(alloc, &message) else {
        return None;
    };
    let Ok(delivery) = Delivery::begin(alloc, number, message, Vec::new(alloc)) else {
        return None;
    };
    match delivery.acknowledge(&mut reserved) {
        Ok(_) => Some(reserved),
        Err((_, delivery)) => {
            delivery.abandon();
            None
        }
    }
}

// Whether a piece with one message is taken, and its answer.
fn answers_first(alloc: Global, session: &mut ServerSession<Global>, piece: &[u8]) -> bool {
    let Ok(mut demands) = session.feed(piece) else {
        return false;
    };
    let Some(Demand::Deliver(message)) = demands.pop() else {
        return false;
    };
    match answer_to(alloc, message) {
        Some(reserved) => session.answer(reserved).is_ok(),
        None => false,
    }
}

fn is_answered(alloc: Global) -> bool {
    match open_server(alloc, false) {
        Ok(mut session) => {
            answers_first(alloc, &mut session, EMPTY) && session.outgoing() == ANSWER
        }
        Err(AllocError) => false,
    }
}

#[test]
fn a_message_without_entries_is_answered(rt: HostRuntime) {
    assert!(rt; is_answered(rt.alloc()));
}

// What bytes begin with, and the fault of it, at a server with security or without.
static CLOSING: [(bool, &[u8], SessionFault); 4] = [
    (
        false,
        b"\xc1",
        SessionFault::BadStream(ModeFault::Bytes(MsgFault::Reserved)),
    ),
    (
        true,
        MESSAGE,
        SessionFault::Handshake(HandshakeFault::NotPing),
    ),
    (
        true,
        b"\xc1",
        SessionFault::Handshake(HandshakeFault::NotPing),
    ),
    (
        true,
        b"\xc0",
        SessionFault::Handshake(HandshakeFault::NotPing),
    ),
];

// Whether a server closes on these bytes so, and takes no message behind them.
fn closes(alloc: Global, secure: bool, bytes: &[u8], fault: SessionFault) -> bool {
    let over = Wants::Refused(SessionError::Fault(SessionFault::Closed));
    match open_server(alloc, secure) {
        Ok(mut server) => {
            feed_server(&mut server, bytes) == Wants::Close(fault)
                && feed_server(&mut server, MESSAGE) == over
        }
        Err(AllocError) => false,
    }
}

fn all_close(alloc: Global) -> bool {
    for (secure, bytes, fault) in &CLOSING {
        if !closes(alloc, *secure, bytes, *fault) {
            return false;
        }
    }
    true
}

#[test]
fn bad_bytes_close_a_server(rt: HostRuntime) {
    assert!(rt; all_close(rt.alloc()));
}

// Sends the entry, and says whether it could, and couldn't send another.
fn send_entry(session: &mut ClientSession<Global>, entries: &Entries<Global>, ask: bool) -> bool {
    session.ready()
        && entries.as_bytes().len() <= 3
        && session.send(b"a", entries, ID, ask).is_ok()
        && !session.ready()
}

// The same of the message with one entry.
fn send_one(alloc: Global, session: &mut ClientSession<Global>, ask: bool) -> bool {
    match Entries::read(alloc, b"\x92\x01\x80", 1) {
        Ok(Some(entries)) => send_entry(session, &entries, ask),
        _ => false,
    }
}

// A client that sent the message.
fn after_sending(alloc: Global, ask: bool) -> Option<ClientSession<Global>> {
    let Ok(mut client) = ClientSession::open(alloc, None, ZEROS) else {
        return None;
    };
    if send_one(alloc, &mut client, ask) {
        return Some(client);
    }
    None
}

// Whether it is sent so.
fn is_sent(alloc: Global) -> bool {
    match after_sending(alloc, true) {
        Some(client) => client.outgoing() == PACKED,
        None => false,
    }
}

#[test]
fn a_message_is_sent_so(rt: HostRuntime) {
    assert!(rt; is_sent(rt.alloc()));
}

// Two pieces that a client gets which sent the message, and what it says to each.
#[derive(Clone, Copy)]
struct Replies<'a> {
    ask: bool,
    front: &'a [u8],
    back: &'a [u8],
    says: (Says, Says),
}

fn are_replied(alloc: Global, replies: &Replies<'_>) -> bool {
    match after_sending(alloc, replies.ask) {
        Some(mut client) => {
            feed_client(&mut client, replies.front) == replies.says.0
                && feed_client(&mut client, replies.back) == replies.says.1
        }
        None => false,
    }
}

// A heartbeat and another chunk's acknowledgement come first.
const REPLY: &[u8] = b"\xc0\x81\xa3ack\xa2c1\x81\xa3ack\xb8AAAAAgAAAAEAAAAAAAAAAw==";

fn is_seen(alloc: Global, at: usize) -> bool {
    let (front, back) = REPLY.split_at(at.min(REPLY.len()));
    let replies = Replies {
        ask: true,
        front,
        back,
        says: (Says::Wait, Says::Seen),
    };
    are_replied(alloc, &replies)
}

fn is_always_seen(alloc: Global) -> bool {
    for at in 0..REPLY.len() {
        if !is_seen(alloc, at) {
            return false;
        }
    }
    true
}

#[test]
fn an_acknowledgement_is_seen_however_it_is_cut(rt: HostRuntime) {
    assert!(rt; is_always_seen(rt.alloc()));
}

static BAD: Replies<'static> = Replies {
    ask: true,
    front: b"\xc1",
    back: b"",
    says: (
        Says::Fault(SessionFault::BadAck),
        Says::Fault(SessionFault::Closed),
    ),
};

// No acknowledgement was asked for.
static UNASKED: Replies<'static> = Replies {
    ask: false,
    front: REPLY,
    back: b"",
    says: (Says::Wait, Says::Wait),
};

#[test]
fn other_replies(rt: HostRuntime) {
    assert!(rt; are_replied(rt.alloc(), &BAD) && are_replied(rt.alloc(), &UNASKED));
}

// A message of one entry of a million and ten bytes.
fn long_message(alloc: Global) -> Result<Vec<u8>, AllocError> {
    let mut bytes = Vec::from_slice(alloc, b"\x93\xa1a\0\x81\xa1k\xdb\0\x0f\x42\x40")?;
    bytes.resize(1_000_012, b'v')?;
    Ok(bytes)
}

// What a server wants first of bytes that come one by one.
fn first_wanted(server: &mut ServerSession<Global>, bytes: &[u8]) -> Wants {
    for byte in bytes {
        let wants = feed_server(server, &[*byte]);
        if wants != Wants::Nothing {
            return wants;
        }
    }
    Wants::Nothing
}

// Whether a server wants nothing of the message in pieces of one byte before the last, and the
// delivery then.
fn wants_at_last(server: &mut ServerSession<Global>, message: &[u8]) -> bool {
    let (front, last) = message.split_at(message.len().saturating_sub(1));
    first_wanted(server, front) == Wants::Nothing
        && first_wanted(server, last) == Wants::Delivery(1_000_010)
}

fn is_wanted_at_last(alloc: Global, message: &[u8]) -> bool {
    match open_server(alloc, false) {
        Ok(mut server) => wants_at_last(&mut server, message),
        Err(AllocError) => false,
    }
}

fn comes_byte_by_byte(alloc: Global) -> bool {
    match long_message(alloc) {
        Ok(message) => is_wanted_at_last(alloc, &message),
        Err(AllocError) => false,
    }
}

// The session looks at each byte once.
#[test]
fn a_long_message_comes_byte_by_byte(rt: HostRuntime) {
    assert!(rt; comes_byte_by_byte(rt.alloc()));
}
