//! The handshake of the end that connects.

ghost use Rattle.std.specs.Prelude.{◌≡◌, IsSome, IfOk, OnErr};
ghost use Rattle.forward_core.specs.Client.{TakesHelo, TakesPong};

use crate::first::first_len;
use crate::outbox::Outbox;
use auth_handshake::{Client, HandshakeFault, HeloError};
use std::alloc::{AllocError, Allocator};

/// What became of the first item.
#[derive(Clone, Copy)]
pub enum First {
    /// It was what it should be, and has so many bytes.
    Taken(usize),
    /// More of it has to come.
    Waits,
    Refused(HandshakeFault),
}

/// Takes the HELO that the bytes have to begin with, and sends the PING.
///
/// The error is want of memory, and changes nothing.
pub fn take_helo<A: Allocator + Copy, B: Allocator>(
    client: &mut Client<A>,
    outgoing: &mut Outbox<B>,
    bytes: &[u8],
) -> Result<First, AllocError>
    ensures takes { IfOk result
        (λ first. TakesHelo client.old outgoing.old bytes.now first client.new outgoing.new) }
    ensures client { OnErr result (client.new ≡ client.old) }
    ensures outgoing { OnErr result (outgoing.new ≡ outgoing.old) }
{
    let Some(end) = first_len(bytes) else {
        return Ok(First::Waits);
    };
    match outgoing.helo(client, bytes.split_at(end).0) {
        Ok(()) => Ok(First::Taken(end)),
        Err(HeloError::Fault(fault)) => Ok(First::Refused(fault)),
        Err(HeloError::Memory) => Err(AllocError),
    }
}

/// Looks at the PONG that the bytes have to begin with. One that the shared key made, but under the
/// client's own name, is refused as if of another key.
pub fn take_pong<A: Allocator>(client: &Client<A>, bytes: &[u8]) -> First
    requires { IsSome client.now.nonce }
    ensures { TakesPong client.now bytes.now result }
{
    let Some(end) = first_len(bytes) else {
        return First::Waits;
    };
    let item = bytes.split_at(end).0;
    match client.pong(item) {
        Ok(()) if client.has_own_name(item) => First::Refused(HandshakeFault::WrongDigest),
        Ok(()) => First::Taken(end),
        Err(fault) => First::Refused(fault),
    }
}
