//! The ways of tags, listed: a line for each source and each tag.

ghost use Rattle.std.specs.Prelude.{◌≡◌, ◌<◌, ◌≤◌, length, map, string_bytes, IfOk, MatchOption, MatchResult};
ghost use Rattle.std.specs.List.{flat_map};
ghost use Rattle.std.specs.Option.{option_copied};
ghost use Rattle.program_text.specs.Lines.{memory_line};
ghost use Rattle.program_text.specs.Output.{IsPrinted};
ghost use Rattle.program_text.specs.declared.status.Status.TheVariants.{Done, Usage};
ghost use Rattle.route_graph.specs.Listing.{numbers_of};
ghost use Rattle.route_graph.specs.Table.{table_of};
ghost use Rattle.way_listing.specs.Ways.{way_text, AreWays, AreWaysFrom, IsBehindTag, IsWayLine, PrintsWays};
ghost use Rattle.way_listing.specs.Outputs.{buffer_text};
ghost use Rattle.tag_pattern.specs.Prefixes.{entered_tag};
ghost use Rattle.tag_pattern.specs.Parts.{most_tag_bytes};

use crate::outputs::put_buffer;
use crate::pieces::joined;
use program_text::{CountedRead, Status, print_conf_stop, put_last, read_relay};
use relay_conf::{BufferNo, Relay, Source};
use route_graph::{Routes, Way};
use std::alloc::{AllocError, Allocator};
use std::io::Write;
use tag_pattern::{Prefix, Tag, TagError};

/// Prints where each tag goes that comes to a source of the relay that `conf` describes: a line for
/// each source and each tag, with the outputs in the order first reached. Or it prints the first
/// fault of the configuration.
pub fn run_ways<A: Allocator + Copy, B: Allocator, R: CountedRead, W: Write>(
    alloc: A,
    conf: &mut R,
    tags: &[String<B>],
    out: &mut W,
) -> Status
    ensures { PrintsWays A (R.remaining conf.old) (map string_bytes tags.now) (W.contents out.old)
        (W.contents out.new) result }
{
    let relay = match read_relay(alloc, conf) {
        Ok(relay) => relay,
        Err(stop) => return print_conf_stop(alloc, stop, out),
    };
    print_lines(list_ways(alloc, &relay, tags), out)
}

/// Prints these lines; or that memory ran out.
pub(crate) fn print_lines<A: Allocator, W: Write>(
    lines: Result<Vec<u8, A>, AllocError>,
    out: &mut W,
) -> Status
    ensures { MatchResult lines
        (λ lines. IsPrinted (W.contents out.old) (W.contents out.new) lines.items Done result)
        (λ _. IsPrinted (W.contents out.old) (W.contents out.new) memory_line Usage result) }
{
    match lines {
        Ok(lines) => put_last(out, &lines, Status::Done),
        Err(AllocError) => put_last(out, b"fault memory\n", Status::Usage),
    }
}

// The lines of all sources.
fn list_ways<A: Allocator + Copy, B: Allocator>(
    alloc: A,
    relay: &Relay<A>,
    tags: &[String<B>],
) -> Result<Vec<u8, A>, AllocError>
    ensures { IfOk result (λ lines. AreWays relay.now (map string_bytes tags.now) lines.items) }
{
    let routes = Routes::new(alloc, relay)?;
    let mut lines = Vec::new(alloc);
    for source in &relay.sources {
        let listed = list_source(alloc, relay, &routes, source, tags)?;
        lines.extend_from_slice(&listed)?;
    }
    Ok(lines)
}

// The lines of a source.
fn list_source<A: Allocator + Copy, B: Allocator>(
    alloc: A,
    relay: &Relay<A>,
    routes: &Routes<A>,
    source: &Source<A>,
    tags: &[String<B>],
) -> Result<Vec<u8, A>, AllocError>
    requires { routes.now ≡ table_of relay.now }
    ensures { IfOk result
        (λ lines. AreWaysFrom relay.now (map string_bytes tags.now) source.now lines.items) }
{
    let mut lines = Vec::new(alloc);
    for tag in tags {
        let line = way_line(alloc, relay, routes, source, tag.as_bytes())?;
        lines.extend_from_slice(&line)?;
    }
    Ok(lines)
}

// The line of a tag at a source.
fn way_line<A: Allocator + Copy>(
    alloc: A,
    relay: &Relay<A>,
    routes: &Routes<A>,
    source: &Source<A>,
    tag: &[u8],
) -> Result<Vec<u8, A>, AllocError>
    requires { routes.now ≡ table_of relay.now }
    ensures { IfOk result (λ line. IsWayLine relay.now source.now tag.now line.items) }
{
    let port = source.port;
    let front = format!(in alloc; "{port} ")?;
    let behind = behind_tag(alloc, relay, routes, source, tag)?;
    joined(alloc, front.as_bytes(), tag, &behind, b"\n", b"")
}

// What stands behind a tag at a source.
fn behind_tag<A: Allocator + Copy>(
    alloc: A,
    relay: &Relay<A>,
    routes: &Routes<A>,
    source: &Source<A>,
    tag: &[u8],
) -> Result<Vec<u8, A>, AllocError>
    requires { routes.now ≡ table_of relay.now }
    ensures { IfOk result (λ behind. IsBehindTag relay.now source.now tag.now behind.items) }
{
    let Some(tag) = entered(alloc, source.prefix.as_ref(), tag)? else {
        return Vec::from_slice(alloc, b" is no tag");
    };
    let way = routes.way(source.label, &tag)?;
    way_text(alloc, relay, &way)
}

/// The tag that an event of this tag has behind a source with this prefix; `None` where it is too
/// long. The only error is want of memory.
pub fn entered<A: Allocator + Copy>(
    alloc: A,
    prefix: Option<&Prefix<A>>,
    tag: &[u8],
) -> Result<Option<Tag<A>>, AllocError>
    ensures { IfOk result
        (λ found. MatchOption found
        (most_tag_bytes < length (entered_tag (option_copied prefix.entry) tag.now))
        (λ entered. (entered ≡ entered_tag (option_copied prefix.entry) tag.now)
        × (length (entered_tag (option_copied prefix.entry) tag.now) ≤ most_tag_bytes))) }
{
    let tag = match Tag::read(alloc, tag) {
        Ok(tag) => tag,
        Err(TagError::TagTooLong) => return Ok(None),
        Err(TagError::Memory) => return Err(AllocError),
    };
    match prefix {
        None => Ok(Some(tag)),
        Some(prefix) => match tag.prefixed(alloc, prefix) {
            Ok(tag) => Ok(Some(tag)),
            Err(TagError::TagTooLong) => Ok(None),
            Err(TagError::Memory) => Err(AllocError),
        },
    }
}

// What stands behind a tag that has this way.
fn way_text<A: Allocator + Copy>(
    alloc: A,
    relay: &Relay<A>,
    way: &Way<A>,
) -> Result<Vec<u8, A>, AllocError>
    ensures { IfOk result (λ text. text.items ≡ way_text relay.now way.now) }
{
    match way {
        Way::Loop => Vec::from_slice(alloc, b" loop"),
        Way::Leaves(buffers) if buffers.is_empty() => Vec::from_slice(alloc, b" nowhere"),
        Way::Leaves(buffers) => buffers_text(alloc, relay, buffers),
    }
}

// The texts of the outputs that have these buffers.
fn buffers_text<A: Allocator + Copy>(
    alloc: A,
    relay: &Relay<A>,
    buffers: &[BufferNo],
) -> Result<Vec<u8, A>, AllocError>
    ensures { IfOk result
        (λ text. text.items ≡ flat_map (buffer_text relay.now) (numbers_of buffers.now)) }
{
    let mut text = Vec::new(alloc);
    for buffer in buffers {
        put_buffer(alloc, &mut text, relay, *buffer)?;
    }
    Ok(text)
}
