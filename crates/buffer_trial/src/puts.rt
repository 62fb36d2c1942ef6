//! How entries are put into a buffer.

use buffer_store::{Buffer, BufferFault};
use disk_files::Dir;
use event_modes::{Entries, LONGEST_TAG};
use std::alloc::Allocator;

/// Appends these entries under this tag, or stages them without a sync, and gives the serial of
/// their chunk.
pub fn put<A: Allocator + Copy, D: Dir>(
    buffer: &mut Buffer<D, A>,
    tag: &[u8],
    entries: &Entries<A>,
    is_synced: bool,
) -> Result<u64, BufferFault> {
    if entries.count() == 0 || tag.len() > LONGEST_TAG {
        return Err(BufferFault::TooLarge);
    }
    let put = if is_synced {
        buffer.append(tag, entries)
    } else {
        buffer.stage(tag, entries)
    };
    match put {
        Ok(put) => Ok(put.serial),
        Err(fault) => Err(fault),
    }
}
