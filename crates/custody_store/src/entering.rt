//! The tag that the events of a message bear where it comes in.

ghost use Rattle.std.specs.Prelude.{◌≡◌, ◌<◌, Err, IfOk, length};
ghost use Rattle.relay_net.specs.Network.{tag_at};
ghost use Rattle.tag_pattern.specs.Parts.{most_tag_bytes};

use relay_net::Net;
use std::alloc::Allocator;
use tag_pattern::{Tag, TagError};

/// The tag that the events of a message with this tag bear where it comes in, if it is sent to this
/// host and port.
pub(crate) fn entered<A: Allocator + Copy>(
    alloc: A,
    net: &Net<A>,
    host: &[u8],
    port: u16,
    tag: &[u8],
) -> Result<Tag<A>, TagError>
    ensures tag { IfOk result
        (λ borne. borne ≡ tag_at net.now (record { host = host.now; port = port }) tag.now) }
    ensures too_long { (result ≡ Err TagError.TagTooLong)
        → (most_tag_bytes < length
        (tag_at net.now (record { host = host.now; port = port }) tag.now)) }
{
    let sent = match Tag::read(alloc, tag) {
        Ok(sent) => sent,
        Err(fault) => return Err(fault),
    };
    match net.prefix(host, port) {
        Some(prefix) => sent.prefixed(alloc, prefix),
        None => Ok(sent),
    }
}
