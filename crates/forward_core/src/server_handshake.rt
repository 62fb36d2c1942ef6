//! The handshake of the end that listens.

ghost use Rattle.std.specs.Prelude.{◌≤◌, length, take, drop, IfOk};
ghost use Rattle.msgpack_bytes.specs.Item.{IsOpen};
ghost use Rattle.auth_handshake.specs.Ends.{ServerEnd};
ghost use Rattle.forward_core.specs.Handshakes.{IsShown};
ghost use Rattle.forward_core.specs.Server.{Awaiting, Greets, outcome_of};

use crate::fault::SessionFault;
use crate::first::first_len;
use crate::messages::take_messages;
use crate::taken::{Standing, TakenItem};
use auth_handshake::{HandshakeFault, Ping, Server};
use std::alloc::{AllocError, Allocator};

/// How many bytes may come at most before the PING is whole.
pub const MOST_BEFORE_PING: usize = 65_536;

/// Reads the PING that the bytes have to begin with, and the messages behind it.
pub fn take_ping<A: Allocator + Copy>(
    alloc: A,
    server: &Server<A>,
    bytes: &[u8],
) -> Result<TakenItem<A>, AllocError>
    ensures greets { IfOk result
        (λ taken. Greets server.now bytes.now (outcome_of (Awaiting server.now) bytes.now taken)) }
    ensures len { IfOk result (λ taken. taken.len ≤ length bytes.now) }
{
    match first_len(bytes) {
        Some(end) => answer_ping(alloc, server, bytes, end),
        None => wait_for_ping(alloc, bytes),
    }
}

// The bytes only begin what the client shows first: more has to come, unless too much has.
fn wait_for_ping<A: Allocator + Copy>(alloc: A, bytes: &[u8]) -> Result<TakenItem<A>, AllocError>
    requires { IsOpen bytes.now }
    ensures greets { IfOk result
        (λ taken. (server : ServerEnd)
        → Greets server bytes.now (outcome_of (Awaiting server) bytes.now taken)) }
    ensures len { IfOk result (λ taken. taken.len ≤ length bytes.now) }
{
    let mut taken = TakenItem::new(alloc, Standing::Same, Vec::new(alloc));
    if bytes.len() <= MOST_BEFORE_PING {
        return Ok(taken);
    }
    taken.len = bytes.len();
    taken.close(SessionFault::Handshake(HandshakeFault::NotPing))?;
    Ok(taken)
}

// The first bytes are what the client shows first.
fn answer_ping<A: Allocator + Copy>(
    alloc: A,
    server: &Server<A>,
    bytes: &[u8],
    end: usize,
) -> Result<TakenItem<A>, AllocError>
    requires end { end ≤ length bytes.now }
    requires shown { IsShown bytes.now (take end bytes.now) (drop end bytes.now) }
    ensures greets { IfOk result
        (λ taken. Greets server.now bytes.now (outcome_of (Awaiting server.now) bytes.now taken)) }
    ensures len { IfOk result (λ taken. taken.len ≤ length bytes.now) }
{
    let (item, more) = bytes.split_at(end);
    let mut pong = Vec::new(alloc);
    match server.ping(item, &mut pong)? {
        Ping::Passed => {
            let mut taken = take_messages(alloc, pong, more)?;
            taken.len += end;
            Ok(taken)
        }
        Ping::Refused(fault) => {
            let mut taken = TakenItem::new(alloc, Standing::Same, pong);
            taken.close(SessionFault::Handshake(fault))?;
            Ok(taken)
        }
    }
}
