//! A configuration is read, adapted and printed.

ghost use Rattle.std.specs.Prelude.{◌≡◌, map, string_bytes, IfOk, IfErr};
ghost use Rattle.conf_listing.specs.Answers.{IsAnswer, IsStop, PrintsAdapted};

use crate::conf::adapt_conf;
use crate::outcome::AdaptedConf;
use program_text::{
    ConfStop, CountedRead, ReadFault, Status, print_conf_stop, put_last, read_whole,
};
use std::alloc::{AllocError, Allocator};
use std::io::Write;

/// Prints the configuration that `conf` gives in the form that a relay reads, with a comment for
/// each of its lines that doesn't stand as it was. Where something of it changes what the relay
/// does and isn't accepted, by a name among these words, a line for each such thing is printed in
/// its place. Where the text has a fault, or what would be printed has one, the line of that is
/// printed, under the line of the original that it comes from.
pub fn run_adapt<A: Allocator + Copy, B: Allocator, R: CountedRead, W: Write>(
    alloc: A,
    conf: &mut R,
    accepted: &[String<B>],
    out: &mut W,
) -> Status
    ensures { PrintsAdapted A (R.remaining conf.old) (map string_bytes accepted.now)
        (W.contents out.old) (W.contents out.new) result }
{
    match adapt_read(alloc, conf, accepted) {
        Ok(said) => put_last(out, &said.lines, said.status),
        Err(stop) => print_conf_stop(alloc, stop, out),
    }
}

// Lines, and the status that they mean.
#[derive(Drop)]
struct Said<A: Allocator> {
    lines: Vec<u8, A>,
    status: Status,
}

// What is said of the text that is read.
fn adapt_read<A: Allocator + Copy, B: Allocator, R: CountedRead>(
    alloc: A,
    conf: &mut R,
    accepted: &[String<B>],
) -> Result<Said<A>, ConfStop>
    ensures said { IfOk result
        (λ said. IsAnswer A (R.remaining conf.old)
        (map string_bytes accepted.now) said.lines.items said.status) }
    ensures stop { IfErr result (IsStop A (R.remaining conf.old) (map string_bytes accepted.now)) }
{
    let text = read_whole(alloc, conf)?;
    match adapt_conf(alloc, &text, accepted) {
        Ok(AdaptedConf::Text(found)) => Ok(Said {
            lines: found.text,
            status: Status::Done,
        }),
        Ok(AdaptedConf::Undecided(found)) => Ok(Said {
            lines: found.text,
            status: Status::No,
        }),
        Ok(AdaptedConf::Faulty(stop)) => Err(stop),
        Err(AllocError) => Err(ConfStop::Unread(ReadFault::Memory)),
    }
}
