//! What a client hears from the server.

ghost use Rattle.std.specs.Prelude.{◌≡◌, ◌↔◌, ℕ, List, Some, IsTrue, MatchOption};
ghost use Rattle.msgpack_bytes.specs.Item.{IsItemWithin};
ghost use Rattle.msgpack_bytes.specs.Kinds.{IsNil};
ghost use Rattle.event_modes.specs.declared.chunk_id.ChunkId.{ChunkId};
ghost use Rattle.event_modes.specs.ChunkIds.{chunk_text};
ghost use Rattle.event_modes.specs.Acknowledgement.{IsAcknowledgement};
ghost use Rattle.ack_receipt.specs.Evidences.{Acknowledged};
ghost use Rattle.forward_core.specs.Client.{IsAwaited, IsHeard, IsReply, said};

use crate::fault::SessionFault;
use ack_receipt::Evidence;
use event_modes::{AckRead, ChunkId, read_ack};
use msgpack_bytes::{Scan, scan};
use std::alloc::Allocator;

/// What a client's session says to the bytes that it took. It can't be dropped, since an evidence
/// can't.
pub enum Heard<A: Allocator> {
    /// The chunk that was sent is acknowledged.
    Seen(Evidence<A>),
    /// More has to come.
    Wait,
    /// The session is over: close the connection.
    Fault(SessionFault),
}

/// What one item is to a client.
pub enum Reply<A: Allocator> {
    /// The acknowledgement that it awaits.
    Seen(Evidence<A>),
    /// A heartbeat, or the acknowledgement of another chunk.
    Passed,
    /// Neither.
    Other,
}

/// Listens for the acknowledgement of this chunk, if one is awaited, and says how many bytes were
/// passed over or taken.
pub fn listen_to<A: Allocator>(chunk: Option<ChunkId>, bytes: &[u8]) -> (usize, Heard<A>)
    ensures { IsHeard chunk bytes.now result.0 (said result.1) }
{
    let mut at = 0;
    'items: loop {
        let (_, rest) = bytes.split_at(at);
        match scan(rest, 0) {
            Scan::Need => return (at, Heard::Wait),
            Scan::Bad(_) => return (at, Heard::Fault(SessionFault::BadAck)),
            Scan::End(end) => match reply_of(chunk, rest.split_at(end).0) {
                Reply::Seen(evidence) => return (at + end, Heard::Seen(evidence)),
                Reply::Passed => at += end,
                Reply::Other => return (at, Heard::Fault(SessionFault::BadAck)),
            },
        }
    }
}

fn reply_of<A: Allocator>(chunk: Option<ChunkId>, item: &[u8]) -> Reply<A>
    requires { IsItemWithin item.now }
    ensures { IsReply chunk item.now result }
{
    if is_nil(item) {
        return Reply::Passed;
    }
    match awaited_of(chunk, item) {
        Some(evidence) => Reply::Seen(evidence),
        None => {
            if is_acknowledgement(item) {
                Reply::Passed
            } else {
                Reply::Other
            }
        }
    }
}

// Whether the item is a heartbeat.
fn is_nil(item: &[u8]) -> bool
    ensures { IsTrue result ↔ IsNil item.now }
{
    item.len() == 1 && item[0] == 0xc0
}

// The evidence, if the item is the acknowledgement that is awaited.
fn awaited_of<A: Allocator>(chunk: Option<ChunkId>, item: &[u8]) -> Option<Evidence<A>>
    ensures { MatchOption result (IsAwaited chunk item.now → ⊥)
        (λ evidence. (id : ChunkId) × (chunk ≡ Some id)
        × (evidence ≡ Acknowledged id) × IsAcknowledgement item.now (chunk_text id)) }
{
    match chunk {
        Some(id) => Evidence::acknowledged(id, item),
        None => None,
    }
}

// Whether the item acknowledges any chunk.
fn is_acknowledgement(item: &[u8]) -> bool
    requires { IsItemWithin item.now }
    ensures right { IsTrue result → (content : List ℕ) × IsAcknowledgement item.now content }
    ensures only { (content : List ℕ) → IsAcknowledgement item.now content → IsTrue result }
{
    match read_ack(item) {
        AckRead::Value { .. } => true,
        AckRead::Need => false,
        AckRead::Bad(_) => false,
    }
}
