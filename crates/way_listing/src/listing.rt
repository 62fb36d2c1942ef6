//! The ways of tags through a plan, listed: a line for each message on the way.

ghost use Rattle.std.specs.Prelude.{◌≡◌, ◌++◌, ◌↔◌, flat_map, map, string_bytes, Any, IfOk, IsTrue, OnOk};
ghost use Rattle.std.specs.Option.{option_copied};
ghost use Rattle.program_text.specs.Listings.{AreListed};
ghost use Rattle.relay_net.specs.Network.{tag_at};
ghost use Rattle.route_graph.specs.Listing.{numbers_of};
ghost use Rattle.way_listing.specs.Lines.{buffer_text as buffer_text_of, folder_at, last_note as last_note_of, line_of as line_of_output, numbered_text, way_text as way_text_of, AreWays, IsBehind, IsSaid, IsSentLine, IsUnsentLine, PrintsPlanWays};

use crate::outputs::put_output;
use crate::pieces::joined;
use crate::search::search;
use crate::sent::Sent;
use crate::starts::starts;
use crate::ways::{entered, print_lines};
use loss_checker::Plan;
use program_text::{CountedRead, Open, Status, print_plan_stop, read_plan};
use relay_conf::{BufferNo, Output};
use relay_net::{Entrance, Net};
use route_graph::Way;
use std::alloc::{AllocError, Allocator};
use std::io::Write;

/// Prints where these tags go through the relays of the plan that `net` gives, from each of its
/// clients that sends one: a line for each message on the way, with the address that it is sent to,
/// its tag, the folder of the relay there, the tag that its events bear in it, and the outputs that
/// they go to, each with its line in the relay's configuration. Or it prints the plan's first
/// fault.
pub fn run_plan_ways<A: Allocator + Copy, B: Allocator, R: CountedRead, O: Open, W: Write>(
    alloc: A,
    net: &mut R,
    files: &O,
    tags: &[String<B>],
    out: &mut W,
) -> Status
    ensures { PrintsPlanWays A (R.remaining net.old) (O.text_of files.now)
        (map string_bytes tags.now) (W.contents out.old) (W.contents out.new) result }
{
    let plan = match read_plan(alloc, net, files) {
        Ok(plan) => plan,
        Err(stop) => return print_plan_stop(alloc, stop, out),
    };
    print_lines(list_ways(alloc, &plan, tags), out)
}

// The lines of a plan.
fn list_ways<A: Allocator + Copy, B: Allocator>(
    alloc: A,
    plan: &Plan<A>,
    tags: &[String<B>],
) -> Result<Vec<u8, A>, AllocError>
    ensures { IfOk result (λ lines. AreWays plan.now (map string_bytes tags.now) lines.items) }
{
    let begun = starts(alloc, plan.net(), tags)?;
    let unsent = unsent_lines(alloc, &begun, tags)?;
    let found = search(alloc, plan.net(), begun)?;
    let lines = sent_lines(alloc, plan, &found.sent)?;
    let note = last_note(found.are_all);
    joined(alloc, &lines, &unsent, note.as_bytes(), b"", b"")
}

// The lines of those of the tags that none of the first messages has.
fn unsent_lines<A: Allocator + Copy, B: Allocator>(
    alloc: A,
    begun: &[Sent<A>],
    tags: &[String<B>],
) -> Result<Vec<u8, A>, AllocError>
    ensures { IfOk result
        (λ lines. AreListed (IsUnsentLine begun.now) (map string_bytes tags.now) lines.items) }
{
    let mut lines = Vec::new(alloc);
    for tag in tags {
        let line = unsent_line(alloc, begun, tag.as_bytes())?;
        lines.extend_from_slice(&line)?;
    }
    Ok(lines)
}

// The line of a tag that none of the first messages has; nothing of another.
fn unsent_line<A: Allocator + Copy>(
    alloc: A,
    begun: &[Sent<A>],
    tag: &[u8],
) -> Result<Vec<u8, A>, AllocError>
    ensures { IfOk result (λ line. IsUnsentLine begun.now tag.now line.items) }
{
    if have_tag(begun, tag) {
        return Ok(Vec::new(alloc));
    }
    joined(
        alloc,
        b"# no client of the plan sends ",
        tag,
        b"\n",
        b"",
        b"",
    )
}

// Whether one of these messages has the tag.
fn have_tag<A: Allocator + Copy>(sent: &[Sent<A>], tag: &[u8]) -> bool
    ensures { IsTrue result ↔ Any (λ one. one.tag ≡ tag.now) sent.now }
{
    for one in sent {
        if one.has_tag(tag) {
            return true;
        }
    }
    false
}

// The line that says that some messages lack, where some do.
fn last_note(are_all: bool) -> &'static str
    ensures { result.now ≡ last_note_of are_all }
{
    if are_all {
        ""
    } else {
        "# what follows isn't listed\n"
    }
}

// The lines of these messages.
fn sent_lines<A: Allocator + Copy>(
    alloc: A,
    plan: &Plan<A>,
    sent: &[Sent<A>],
) -> Result<Vec<u8, A>, AllocError>
    ensures { IfOk result (λ lines. AreListed (IsSentLine plan.now) sent.now lines.items) }
{
    let mut lines = Vec::new(alloc);
    for one in sent {
        let line = sent_line(alloc, plan, one)?;
        lines.extend_from_slice(&line)?;
    }
    Ok(lines)
}

// The line of a message.
fn sent_line<A: Allocator + Copy>(
    alloc: A,
    plan: &Plan<A>,
    sent: &Sent<A>,
) -> Result<Vec<u8, A>, AllocError>
    ensures { IfOk result (λ line. IsSentLine plan.now sent.now line.items) }
{
    let port = sent.port();
    let behind_host = format!(in alloc; ":{port} ")?;
    let said = said(alloc, plan, sent)?;
    let host = sent.host();
    joined(
        alloc,
        host,
        behind_host.as_bytes(),
        sent.tag(),
        &said,
        b"\n",
    )
}

// What is said of a message.
fn said<A: Allocator + Copy>(
    alloc: A,
    plan: &Plan<A>,
    sent: &Sent<A>,
) -> Result<Vec<u8, A>, AllocError>
    ensures { IfOk result (λ text. IsSaid plan.now sent.now text.items) }
{
    let Some(at) = plan.net().entrance(sent.host(), sent.port()) else {
        return Vec::from_slice(alloc, b" is no source of the plan");
    };
    let behind = behind(alloc, plan.net(), at, sent)?;
    let folder = folder(plan, at.relay);
    joined(alloc, b" ", folder.as_bytes(), &behind, b"", b"")
}

// The folder of the relay at this place.
fn folder<A: Allocator + Copy>(plan: &Plan<A>, place: usize) -> &str
    ensures { result.now ≡ folder_at plan.now place }
{
    match plan.relay_lines().get(place) {
        Some(line) => line.folder.as_str(),
        None => "",
    }
}

// What stands behind a message that comes in there.
fn behind<A: Allocator + Copy>(
    alloc: A,
    net: &Net<A>,
    at: Entrance,
    sent: &Sent<A>,
) -> Result<Vec<u8, A>, AllocError>
    ensures { IfOk result
        (λ text. IsBehind net.now at (tag_at net.now sent.now.address sent.now.tag) text.items) }
{
    let prefix = net.prefix(sent.host(), sent.port());
    let Some(tag) = entered(alloc, prefix, sent.tag())? else {
        return Vec::from_slice(alloc, b" is no tag");
    };
    let way = net.way(at, &tag)?;
    let gone = way_text(alloc, net, at.relay, &way)?;
    joined(alloc, b" ", tag.as_bytes(), &gone, b"", b"")
}

// The text of a way in the relay at this place.
fn way_text<A: Allocator + Copy>(
    alloc: A,
    net: &Net<A>,
    place: usize,
    way: &Way<A>,
) -> Result<Vec<u8, A>, AllocError>
    ensures { IfOk result (λ text. text.items ≡ way_text_of net.now place way.now) }
{
    match way {
        Way::Loop => Vec::from_slice(alloc, b" loop"),
        Way::Leaves(buffers) if buffers.is_empty() => Vec::from_slice(alloc, b" nowhere"),
        Way::Leaves(buffers) => buffers_text(alloc, net, place, buffers),
    }
}

// The texts of the outputs that have these buffers.
fn buffers_text<A: Allocator + Copy>(
    alloc: A,
    net: &Net<A>,
    place: usize,
    buffers: &[BufferNo],
) -> Result<Vec<u8, A>, AllocError>
    ensures { IfOk result
        (λ text. text.items ≡ flat_map (buffer_text_of net.now place) (numbers_of buffers.now)) }
{
    let mut text = Vec::new(alloc);
    for buffer in buffers {
        put_buffer(alloc, net, place, *buffer, &mut text)?;
    }
    Ok(text)
}

// Adds the text of the output that has this buffer.
fn put_buffer<A: Allocator + Copy>(
    alloc: A,
    net: &Net<A>,
    place: usize,
    buffer: BufferNo,
    text: &mut Vec<u8, A>,
) -> Result<(), AllocError>
    ensures { OnOk result
        (text.new.items ≡ text.old.items ++ buffer_text_of net.now place buffer.0) }
{
    match net.output(place, buffer.0) {
        Some(output) => put_numbered(alloc, output, text),
        None => Ok(()),
    }
}

// Adds an output with its line.
fn put_numbered<A: Allocator + Copy>(
    alloc: A,
    output: &Output<A>,
    text: &mut Vec<u8, A>,
) -> Result<(), AllocError>
    ensures { OnOk result (text.new.items ≡ text.old.items ++ numbered_text output.now) }
{
    let line = line_of(output);
    let words = format!(in alloc; " line {line}")?;
    text.extend_from_slice(words.as_bytes())?;
    put_output(alloc, text, output)
}

// The line of an output in its configuration.
fn line_of<A: Allocator>(output: &Output<A>) -> usize
    ensures { result ≡ line_of_output output.now }
{
    match output {
        Output::Null { line } => *line,
        Output::Relabel { target: _, line } => *line,
        Output::Forward { settings: _, line } => *line,
        Output::File { settings: _, line } => *line,
    }
}
