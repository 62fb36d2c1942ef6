//! Messages as they are written (Forward Protocol Specification v1, "PackedForward Mode").

ghost use Rattle.std.specs.Prelude.{◌≡◌, ◌≤◌, ◌<◌, ◌+◌, ◌^◌, ◌++◌, ℕ, List, length, codes, vec_len, vec_capacity, OnOk, OnErr};
ghost use Rattle.std.specs.List.{concat, AllByRecursion};
ghost use Rattle.msgpack_bytes.specs.Item.{longest};
ghost use Rattle.msgpack_bytes.specs.Spelling.{uint_of, str_of};
ghost use Rattle.event_modes.specs.Rows.{IsStored};
ghost use Rattle.event_modes.specs.Message.{longest_tag, IsMessage};
ghost use Rattle.event_modes.specs.Packed.{Extends, chunk_of, said, option_of, packed_message};

use crate::chunk_id::ChunkId;
use crate::message::Entries;
use msgpack_bytes::{put_array, put_bin, put_map, put_str, put_uint};
use std::alloc::{AllocError, Allocator};

/// Appends a message in PackedForward mode, with a tag of at most 1,024 bytes and fewer than 2^32
/// bytes of entries. With a chunk it asks to be acknowledged.
///
/// The error is want of memory, comes only where `out` had no room, and leaves `out` as it was.
pub fn put_packed<A: Allocator, B: Allocator>(
    out: &mut Vec<u8, A>,
    tag: &[u8],
    entries: &Entries<B>,
    chunk: Option<&ChunkId>,
) -> Result<(), AllocError>
    requires tag { length tag.now ≤ longest_tag }
    requires entries { length (concat entries.now) < 2 ^ 32 }
    ensures ok { OnOk result
        (out.new.items ≡ out.old.items ++ packed_message tag.now entries.now
        (chunk_of chunk.entry)) }
    ensures err { OnErr result (out.new.items ≡ out.old.items) }
    ensures full { OnErr result (vec_capacity out.old
        < vec_len out.old + length (packed_message tag.now entries.now (chunk_of chunk.entry))) }
    // What is written, within the limit of a message, is one, and says this.
    ensures means { length (packed_message tag.now entries.now (chunk_of chunk.entry)) ≤ longest
        → IsMessage (packed_message tag.now entries.now (chunk_of chunk.entry))
        (said tag.now entries.now (chunk_of chunk.entry)) }
{
    let before = out.len();
    let put = put_parts(out, tag, entries, chunk);
    if put.is_err() {
        out.truncate(before);
    }
    put
}

// An error may leave a part behind.
fn put_parts<A: Allocator, B: Allocator>(
    out: &mut Vec<u8, A>,
    tag: &[u8],
    entries: &Entries<B>,
    chunk: Option<&ChunkId>,
) -> Result<(), AllocError>
    requires tag { length tag.now ≤ longest_tag }
    requires entries { length (concat entries.now) < 2 ^ 32 }
    ensures ok { OnOk result
        (out.new.items ≡ out.old.items ++ packed_message tag.now entries.now
        (chunk_of chunk.entry)) }
    ensures err { OnErr result (Extends out.old.items out.new.items) }
    ensures full { OnErr result (vec_capacity out.old
        < vec_len out.old + length (packed_message tag.now entries.now (chunk_of chunk.entry))) }
    ensures stored { AllByRecursion IsStored entries.now }
{
    let bytes = entries.as_bytes();
    put_array(out, 3)?;
    put_str(out, tag)?;
    put_bin(out, bytes)?;
    put_option(out, entries.count() as u64, chunk)
}

fn put_option<A: Allocator>(
    out: &mut Vec<u8, A>,
    count: u64,
    chunk: Option<&ChunkId>,
) -> Result<(), AllocError>
    ensures ok { OnOk result
        (out.new.items ≡ out.old.items ++ option_of count (chunk_of chunk.entry)) }
    ensures err { OnErr result (Extends out.old.items out.new.items) }
    ensures full { OnErr result (vec_capacity out.old
        < vec_len out.old + length (option_of count (chunk_of chunk.entry))) }
{
    match chunk {
        None => {
            put_map(out, 1)?;
            put_size(out, count)
        }
        Some(chunk) => {
            put_map(out, 2)?;
            put_size(out, count)?;
            put_str(out, b"chunk")?;
            put_str(out, &chunk.text())
        }
    }
}

fn put_size<A: Allocator>(out: &mut Vec<u8, A>, count: u64) -> Result<(), AllocError>
    ensures ok { OnOk result
        (out.new.items ≡ out.old.items ++ (str_of (codes "size") ++ uint_of count)) }
    ensures err { OnErr result (Extends out.old.items out.new.items) }
    ensures full { OnErr result (vec_capacity out.old
        < vec_len out.old + length (str_of (codes "size") ++ uint_of count)) }
    ensures kept { vec_capacity out.old ≤ vec_capacity out.new }
{
    put_str(out, b"size")?;
    put_uint(out, count)
}
