//! HELO, PING and PONG are taken and written.

use crate::parts::{Alone, Part, in_memory};
use crate::refusals::putting::{LENGTHS, xs};
use crate::refusals::told::Told;
use crate::refusals::trial::{Refuses, Trial, each_asks};
use auth_handshake::{Client, HeloError, Ping, Server};
use std::alloc::{AllocError, Allocator};
use std::process::Abort;

// A call of one of two ends that share a key.
#[derive(Clone, Copy)]
enum Call {
    // A server is made, and says its HELO.
    Hello,
    // One is made, and takes this as a PING.
    Ping(&'static [u8]),
    // A client is made.
    Client,
    // The client takes the server's HELO.
    Helo,
}

// What a server with sixteen bytes of 1 as its nonce says.
const HELO: &[u8] =
    b"\x92\xa4HELO\x83\xa5nonce\xc4\x10\x01\x01\x01\x01\x01\x01\x01\x01\x01\x01\x01\x01\x01\x01\x01\x01\xa4auth\xa0\xa9keepalive\xc3";

// What a client with sixteen bytes of 2 as its salt says then.
const PING: &[u8] =
    b"\x96\xa4PING\xa6client\xc4\x10\x02\x02\x02\x02\x02\x02\x02\x02\x02\x02\x02\x02\x02\x02\x02\x02\xd9\x803e35f87e33f161d358b13dd6d442278c7ada7a88832b96436d3c749cc66ddf4b4bf88aec0efe56e005c82d67a38c21613c280282d06e97bbc3e58783b0574512\xa0\xa0";

static CALLS: [Call; 6] = [
    Call::Hello,
    Call::Ping(PING),
    Call::Ping(b"\xc0"),
    Call::Ping(b"\x96\xa4PING\xa1h\xa1s\xa1d\xa0\xa0"),
    Call::Client,
    Call::Helo,
];

fn new_server<A: Allocator + Copy>(heap: A) -> Result<Server<A>, AllocError> {
    Server::new(heap, b"server", b"key", [1; 16])
}

fn new_client<A: Allocator + Copy>(heap: A) -> Result<Client<A>, AllocError> {
    Client::new(heap, b"client", b"key", [2; 16])
}

fn say_helo<A: Allocator + Copy>(heap: A, out: &mut Vec<u8, A>) -> Result<(), AllocError> {
    match new_server(heap) {
        Ok(server) => server.hello(out),
        Err(AllocError) => Err(AllocError),
    }
}

fn answer_ping<A: Allocator + Copy>(
    server: &Server<A>,
    item: &[u8],
    out: &mut Vec<u8, A>,
    told: &mut Told,
) -> Result<(), AllocError> {
    match server.ping(item, out) {
        Ok(Ping::Passed) => told.number(0),
        Ok(Ping::Refused(_)) => told.number(1),
        Err(AllocError) => return Err(AllocError),
    }
    Ok(())
}

fn take_ping<A: Allocator + Copy>(
    heap: A,
    item: &[u8],
    out: &mut Vec<u8, A>,
    told: &mut Told,
) -> Result<(), AllocError> {
    match new_server(heap) {
        Ok(server) => answer_ping(&server, item, out, told),
        Err(AllocError) => Err(AllocError),
    }
}

fn take_helo<A: Allocator + Copy>(
    client: &mut Client<A>,
    out: &mut Vec<u8, A>,
    told: &mut Told,
) -> Result<(), AllocError> {
    match client.helo(HELO, out) {
        Ok(()) => {}
        Err(HeloError::Memory) => return Err(AllocError),
        Err(HeloError::Fault(_)) => told.number(1),
    }
    Ok(())
}

// A client, and what the call writes.
struct Ends<A: Allocator> {
    heap: A,
    client: Client<A>,
    out: Vec<u8, A>,
}

impl<A: Allocator + Copy> Trial<A, Call> for Ends<A> {
    // What the call writes stands behind so many bytes.
    fn made(heap: A, _call: Call, behind: usize) -> Option<Self> {
        let Some(out) = xs(heap, behind) else {
            return None;
        };
        match new_client(heap) {
            Ok(client) => Some(Ends { heap, client, out }),
            Err(AllocError) => None,
        }
    }

    fn call(&mut self, call: Call, told: &mut Told) -> Result<(), AllocError> {
        match call {
            Call::Hello => say_helo(self.heap, &mut self.out),
            Call::Ping(item) => take_ping(self.heap, item, &mut self.out, told),
            Call::Client => is_made(new_client(self.heap)),
            Call::Helo => take_helo(&mut self.client, &mut self.out, told),
        }
    }

    fn show(&mut self, told: &mut Told) {
        told.bytes(&self.out);
    }

    // The client goes on.
    fn close(self, told: &mut Told) {
        let Ends {
            heap: _,
            client,
            out,
        } = self;
        let mut client = client;
        let mut out = out;
        let _ = take_helo(&mut client, &mut out, told);
        told.bytes(&out);
    }
}

fn is_made<A: Allocator>(client: Result<Client<A>, AllocError>) -> Result<(), AllocError> {
    match client {
        Ok(_) => Ok(()),
        Err(AllocError) => Err(AllocError),
    }
}

/// Whether each call asks for memory.
pub fn ask<R: Abort, H: Refuses>(rt: &R, heap: H) -> bool {
    each_asks::<R, H, Call, Ends<H>>(rt, heap, &CALLS, &LENGTHS, 2)
}

#[test]
fn handshakes(rt: HostRuntime) {
    assert!(rt; in_memory(&rt, rt.alloc(), Part::Alone(Alone::Handshakes)));
}
