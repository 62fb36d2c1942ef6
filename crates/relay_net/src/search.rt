//! Whether a tag is one that an event may bear on its way.

ghost use Rattle.std.specs.Prelude.{◌↔◌, ◌≤◌, IfOk, IsTrue, length};
ghost use Rattle.tag_pattern.specs.Parts.{most_tag_bytes};
ghost use Rattle.relay_net.specs.Routed.{IsRoutedTag};

use crate::Net;
use crate::arrival::{comes_in, has_whole};
use crate::following::{add, follow};
use std::alloc::{AllocError, Allocator};
use tag_pattern::MOST_TAG_BYTES;

/// Whether the events of a message with this tag, sent to this host and port, may bear the wanted
/// tag where they come in, there or after any number of forwards. It goes once through each place
/// and end of the wanted tag that they may come to.
pub fn is_routed_tag<A: Allocator + Copy>(
    alloc: A,
    net: &Net<A>,
    host: &[u8],
    port: u16,
    tag: &[u8],
    wanted: &[u8],
) -> Result<bool, AllocError>
    ensures { IfOk result
        (λ yes. IsTrue yes ↔ IsRoutedTag net.now
        (record { host = host.now; port = port }) tag.now wanted.now) }
{
    if tag.len() > MOST_TAG_BYTES {
        return Ok(false);
    }
    if wanted.len() > MOST_TAG_BYTES {
        return Ok(false);
    }
    search(alloc, net, host, port, tag, wanted)
}

// The same of tags that aren't too long.
fn search<A: Allocator + Copy>(
    alloc: A,
    net: &Net<A>,
    host: &[u8],
    port: u16,
    tag: &[u8],
    wanted: &[u8],
) -> Result<bool, AllocError>
    requires tag { length tag.now ≤ most_tag_bytes }
    requires wanted { length wanted.now ≤ most_tag_bytes }
    ensures { IfOk result
        (λ yes. IsTrue yes ↔ IsRoutedTag net.now
        (record { host = host.now; port = port }) tag.now wanted.now) }
{
    let mut found = Vec::new(alloc);
    add(&mut found, comes_in(net, host, port, tag, wanted))?;
    let mut next = 0;
    while next < found.len() {
        let here = found[next];
        follow(alloc, net, wanted, here, &mut found)?;
        next += 1;
    }
    Ok(has_whole(&found))
}
