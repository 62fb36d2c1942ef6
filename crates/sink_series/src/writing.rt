//! Events as a sink's file holds them.

ghost use Rattle.std.specs.Prelude.{◌≡◌, ◌<◌, ◌≤◌, ◌∷◌, ◌++◌, length, IfOk, OnOk};
ghost use Rattle.std.specs.List.{AllByRecursion};
ghost use Rattle.msgpack_bytes.specs.Spelling.{str_of};
ghost use Rattle.event_modes.specs.Message.{longest_tag};
ghost use Rattle.sink_series.specs.Events.{IsEvent, item_of, run_of, under};

use event_modes::Entries;
use msgpack_bytes::put_str;
use std::alloc::{AllocError, Allocator};

/// Appends what is before the time in the item of an event under this tag. After an error a part of
/// it may be there.
pub(crate) fn put_front<A: Allocator>(out: &mut Vec<u8, A>, tag: &[u8]) -> Result<(), AllocError>
    requires { length tag.now ≤ longest_tag }
    ensures { OnOk result (out.new.items ≡ out.old.items ++ 0x93 ∷ str_of tag.now) }
{
    out.push(0x93)?;
    put_str(out, tag)?;
    Ok(())
}

/// Appends the item of an event. After an error a part of it may be there.
pub(crate) fn put_item<A: Allocator>(
    out: &mut Vec<u8, A>,
    tag: &[u8],
    entry: &[u8],
) -> Result<(), AllocError>
    requires tag { length tag.now ≤ longest_tag }
    requires entry { 1 ≤ length entry.now }
    ensures { OnOk result
        (out.new.items ≡ out.old.items ++ item_of (record { tag = tag.now; entry = entry.now })) }
{
    put_front(out, tag)?;
    out.extend_from_slice(entry.split_at(1).1)?;
    Ok(())
}

/// The items of entries under a tag, one after another.
pub(crate) fn run_under<A: Allocator, B: Allocator>(
    alloc: A,
    tag: &[u8],
    entries: &Entries<B>,
) -> Result<Vec<u8, A>, AllocError>
    requires { length tag.now ≤ longest_tag }
    ensures run { IfOk result (λ bytes. bytes.items ≡ run_of (under tag.now entries.now)) }
    ensures events { OnOk result (AllByRecursion IsEvent (under tag.now entries.now)) }
{
    let mut bytes = Vec::new(alloc);
    let mut items = entries.iter();
    while let Some(entry) = items.next() {
        put_item(&mut bytes, tag, entry)?;
    }
    Ok(bytes)
}
