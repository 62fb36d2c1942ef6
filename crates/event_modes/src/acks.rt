//! Acknowledgements (Forward Protocol Specification v1, "Response").

ghost use Rattle.std.specs.Prelude.{◌≡◌, ◌≤◌, ◌<◌, ◌+◌, ◌++◌, ℕ, List, length, vec_len, vec_capacity, MatchOption, OnOk, OnErr};
ghost use Rattle.msgpack_bytes.specs.Item.{IsItemWithin};
ghost use Rattle.msgpack_bytes.specs.Kinds.{IsText};
ghost use Rattle.event_modes.specs.declared.acks.AckRead.{AckRead};
ghost use Rattle.event_modes.specs.Options.{longest_chunk};
ghost use Rattle.event_modes.specs.Acknowledgement.{IsAcknowledgement, acknowledgement_of};
ghost use Rattle.event_modes.specs.Acks.{IsAckAt, AnswersAck};

use crate::fault::ModeFault;
use crate::item::map_of;
use crate::option::last_value;
use msgpack_bytes::{Scan, scan, str_or_bin};
use std::alloc::{AllocError, Allocator};

/// A map of one, and the str "ack".
const HEAD: [u8; 5] = [0x81, 0xa3, b'a', b'c', b'k'];

/// What bytes begin with, read as an acknowledgement.
#[derive(Clone, Copy, Debug, PartialEq, Eq)]
pub enum AckRead {
    /// The chunk that is acknowledged has the content `start..end`; the item ends at `next`.
    Value {
        start: usize,
        end: usize,
        next: usize,
    },
    /// Nothing that is whole, and bytes that follow can make it so.
    Need,
    /// No acknowledgement, whatever follows: `NotAMessage` or `Bytes`.
    Bad(ModeFault),
}

/// Appends the acknowledgement of a chunk, whose item is repeated as it came.
///
/// The error is want of memory, and leaves `out` as it was.
pub fn put_ack<A: Allocator>(out: &mut Vec<u8, A>, item: &[u8]) -> Result<(), AllocError>
    ensures ok { OnOk result (out.new.items ≡ out.old.items ++ acknowledgement_of item.now) }
    ensures err { OnErr result (out.new.items ≡ out.old.items) }
    ensures full { OnErr result
        (vec_capacity out.old < vec_len out.old + length (acknowledgement_of item.now)) }
    // What is written acknowledges the chunk.
    ensures means { (content : List ℕ) → IsText item.now content → length item.now ≤ longest_chunk
        → IsAcknowledgement (acknowledgement_of item.now) content }
{
    out.reserve(HEAD.len() + item.len())?;
    out.extend_from_slice(&HEAD)?;
    out.extend_from_slice(item)?;
    Ok(())
}

/// Reads the acknowledgement that the bytes begin with: a map whose last `ack` is a str or bin, in
/// any spelling.
///
/// The answer is the only one that holds of the bytes.
pub fn read_ack(bytes: &[u8]) -> AckRead
    ensures right { AnswersAck bytes.now result }
    ensures only { (other : AckRead) → AnswersAck bytes.now other → other ≡ result }
{
    read_front(bytes)
}

fn read_front(bytes: &[u8]) -> AckRead
    ensures { AnswersAck bytes.now result }
{
    match scan(bytes, 0) {
        Scan::End(next) => match acknowledged(bytes.split_at(next).0) {
            Some((start, end)) => AckRead::Value { start, end, next },
            None => AckRead::Bad(ModeFault::NotAMessage),
        },
        Scan::Need => AckRead::Need,
        Scan::Bad(fault) => AckRead::Bad(ModeFault::Bytes(fault)),
    }
}

// Where the content of the chunk lies that the item acknowledges.
fn acknowledged(item: &[u8]) -> Option<(usize, usize)>
    requires { IsItemWithin item.now }
    ensures { MatchOption result ((content : List ℕ) → IsAcknowledgement item.now content → ⊥)
        (λ found. IsAckAt item.now found.0 found.1 (length item.now)) }
{
    let last = last_value(map_of(item)?, b"ack")?;
    let content = str_or_bin(last.value)?;
    let end = item.len() - last.behind;
    Some((end - content.len(), end))
}
