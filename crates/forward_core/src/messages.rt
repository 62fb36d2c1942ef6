//! The messages of an open session.

ghost use Rattle.std.specs.Prelude.{◌≤◌, ◌++◌, [], length, IfOk, IfSome};
ghost use Rattle.forward_core.specs.Server.{ServerPhase, ReadsOn, outcome_of};

use crate::fault::SessionFault;
use crate::taken::{Standing, TakenItem};
use event_modes::{Read, read};
use std::alloc::{AllocError, Allocator};

/// Reads the messages in the bytes, heartbeats left out, up to where none is whole or a fault
/// stands.
/// `sends` is what the handshake sends.
pub fn take_messages<A: Allocator + Copy>(
    alloc: A,
    sends: Vec<u8, A>,
    bytes: &[u8],
) -> Result<TakenItem<A>, AllocError>
    // Where the session stood before doesn't matter.
    ensures reads { IfOk result (λ taken. (before : ServerPhase)
        → ReadsOn sends.items bytes.now (outcome_of before bytes.now taken)) }
    ensures len { IfOk result (λ taken. taken.len ≤ length bytes.now) }
{
    let mut taken = TakenItem::new(alloc, Standing::Open, sends);
    'items: loop {
        match read(alloc, bytes.split_at(taken.len).1)? {
            Read::Message(message, n) => {
                taken.deliver(message)?;
                taken.len += n;
            }
            Read::Heartbeat(n) => taken.len += n,
            Read::Need => return Ok(taken),
            Read::Bad(fault) => {
                taken.close(SessionFault::BadStream(fault))?;
                return Ok(taken);
            }
        }
    }
}

/// Reads the messages in these bytes and in those behind them, and says how many of those behind
/// were read. `None` where the first ones aren't read whole.
pub fn take_both<A: Allocator + Copy>(
    alloc: A,
    front: &[u8],
    back: &[u8],
) -> Result<Option<TakenItem<A>>, AllocError>
    ensures reads { IfOk result (λ found. IfSome found (λ taken. (before : ServerPhase)
        → ReadsOn [] (front.now ++ back.now) (outcome_of before back.now taken))) }
    ensures len { IfOk result (λ found. IfSome found (λ taken. taken.len ≤ length back.now)) }
{
    let mut taken = take_messages(alloc, Vec::new(alloc), front)?;
    if !taken.has_read(front.len()) {
        return Ok(None);
    }
    let mut more = take_messages(alloc, Vec::new(alloc), back)?;
    taken.demands.append(&mut more.demands)?;
    taken.len = more.len;
    taken.stage = more.stage;
    Ok(Some(taken))
}
