//! The operator's program: words of the command line, each of which reads, answers and gives a
//! status.
#![tactic(auto)]

mod blanks;
mod check;
mod draw;
mod drops;
mod events;
mod explain;
mod faults;
mod follow;
mod label;
mod listing;
mod status;
mod watched;
mod words;

use check::{lent_names, run_adapted_check, run_check};
use conf_listing::run_adapt;
use draw::{Drawing, run_draw};
use drops::{DropNames, add_listed, print_misspelt, read_names};
use events::print_events;
use explain::run_explain;
use folder_listing::{DataFolder, run_show};
use label::{run_fresh_label, run_label};
use label_plan::DropName;
use program_text::{
    Folder, PlanStop, ReadFault, Status, print_plan_stop, print_version, put_last, read_whole,
};
use status::print_status;
use std::alloc::{AllocError, Allocator};
use std::io::{ErrorKind, Write};
use std::process::ExitCode;
use std::{env, io};
use way_listing::{run_plan_ways, run_ways};
use words::{CheckWords, Word, read_word};

const USAGE: &str =
    "usage: relayctl check NET [--drop MATCH].. [--drops FILE].. | check --adapt NET [--accept NAME].. [--drop MATCH].. [--drops FILE].. | label [--fresh] NET | explain NET [--drop MATCH].. [--drops FILE].. | draw NET [--dot] | ways CONF TAG.. | ways --plan NET TAG.. | adapt CONF [--accept NAME].. | show DIR | status DIR [--max-bytes N] [--max-chunks N] [--max-age SECONDS] [--json | --prometheus] | events PATH.. [--tag PATTERN].. [--since TIME] [--until TIME] [--unique] [--follow] | --help | --version";

const HELP: &str =
    "usage: relayctl check NET [--drop MATCH].. [--drops FILE].. | check --adapt NET [--accept NAME].. [--drop MATCH].. [--drops FILE].. | label [--fresh] NET | explain NET [--drop MATCH].. [--drops FILE].. | draw NET [--dot] | ways CONF TAG.. | ways --plan NET TAG.. | adapt CONF [--accept NAME].. | show DIR | status DIR [--max-bytes N] [--max-chunks N] [--max-age SECONDS] [--json | --prometheus] | events PATH.. [--tag PATTERN].. [--since TIME] [--until TIME] [--unique] [--follow] | --help | --version

check NET        labels the plan NET, and prints `yes`, with warnings of what may keep events from
                 arriving, or every rule that is broken then, each with what it means, what mends
                 it, and steps that lose an event; --drop RELAY:SCOPE:INDEX says that what comes to
                 this match may go, which is named as by its reach line; --drops FILE says so of
                 each line of a file
check --adapt NET    the same of the plan NET with its configurations adapted, as adapt does it;
                 --accept NAME accepts a change of what a relay does
label NET        prints the plan NET with the label and reach lines that it lacks; --fresh: those
                 that it has are taken out first
explain NET      prints the answer of relaynet check to the plan NET, what a broken
                 rule or a fault means, what mends it, and steps that lose an event; --drop and
                 --drops say what may go, as for check
draw NET         draws the plan NET, with the labels that it lacks, as a tree of text; --dot: for
                 Graphviz; each place where a rule is broken has a mark
ways CONF TAG..  prints to which outputs each TAG goes from each source of the
                 configuration CONF
ways --plan NET TAG..    prints where each TAG goes from each client of the plan NET that sends it,
                 through all relays
adapt CONF       prints the configuration CONF, as it runs in Fluentd, in the form that a relay
                 reads, or what of it changes what the relay does; --accept NAME accepts that
show DIR         prints which chunks the journals in a relay's data folder DIR hold,
                 and how many events its sinks hold
status DIR       prints what each buffer and each sink in a relay's data folder DIR holds, when the
                 oldest event that waits and a sink's newest one happened, what the relay says of
                 its outputs, and what all buffers hold together; --max-bytes N, --max-chunks N: the
                 status is 1 where a buffer holds more; --max-age SECONDS: and where its oldest
                 event is older; --json, --prometheus: in these forms
events PATH..    prints the events that sinks hold, and those that buffers have yet to deliver, each
                 as a line of JSON; PATH is a file of a sink, as all.0000000001.sink, or a journal,
                 as out.0000000001.journal, or a relay's data folder; --tag PATTERN: those whose
                 tag matches; --since TIME: not those before; --until TIME: those before; --unique:
                 not what repeats one of the last 1,000,000 lines; --follow: where each PATH is a
                 file of a sink, what is written to it and to later files of the sink, as it comes
--help           prints this
--version        prints the version

docs/RELAYCTL.md says more.
";

fn usage(rt: &impl Eprint) -> Status {
    let _ = rt.eprintln(USAGE);
    Status::Usage
}

fn no_memory(rt: &impl Print) -> Status {
    let _ = rt.println("fault memory");
    Status::Usage
}

// Does what a word asks for.
fn run<A: Allocator>(rt: &HostRuntime, word: Option<Word<'_, A>>) -> Status {
    let folder = Folder::saying(rt);
    let out = &mut io::writer(rt);
    match word {
        Some(Word::Help) => put_last(out, HELP.as_bytes(), Status::Done),
        Some(Word::Version) => print_version(rt.alloc(), "relayctl", out),
        Some(Word::Check(asked)) => answer_plan(rt, &folder, &asked, Answering::Check, out),
        Some(Word::Label(net)) => print_label(rt, &folder, net, out),
        Some(Word::LabelFresh(net)) => print_fresh_label(rt, &folder, net, out),
        Some(Word::Explain(asked)) => answer_plan(rt, &folder, &asked, Answering::Explain, out),
        Some(Word::Draw(net, drawing)) => print_drawing(rt, &folder, net, drawing, out),
        Some(Word::Ways(conf, tags)) => print_ways(rt, &folder, conf, tags, out),
        Some(Word::PlanWays(net, tags)) => print_plan_ways(rt, &folder, net, tags, out),
        Some(Word::Adapt(conf, accepted)) => print_adapted(rt, &folder, conf, accepted, out),
        Some(Word::Show(path)) => show_folder(rt, path, out),
        Some(Word::Status(asked)) => print_status(rt, asked, out),
        Some(Word::Events(asked)) => print_events(rt, &asked, out),
        None => usage(rt),
    }
}

// Labels the plan at this path.
fn print_label<'a, W: Write>(
    rt: &HostRuntime,
    folder: &Folder<'a>,
    net: &'a str,
    out: &mut W,
) -> Status {
    run_label(rt.alloc(), &mut folder.text(net), folder, out)
}

// The same without its own labels and reaches.
fn print_fresh_label<'a, W: Write>(
    rt: &HostRuntime,
    folder: &Folder<'a>,
    net: &'a str,
    out: &mut W,
) -> Status {
    run_fresh_label(rt.alloc(), &mut folder.text(net), folder, out)
}

// Draws the plan at this path.
fn print_drawing<'a, W: Write>(
    rt: &HostRuntime,
    folder: &Folder<'a>,
    net: &'a str,
    drawing: Drawing,
    out: &mut W,
) -> Status {
    let (text, faults) = (&mut folder.text(net), &mut rt.stderr());
    run_draw(rt.alloc(), net, drawing, text, folder, out, faults)
}

// Says where tags go under the configuration at this path.
fn print_ways<'a, W: Write>(
    rt: &HostRuntime,
    folder: &Folder<'a>,
    conf: &'a str,
    tags: &[String],
    out: &mut W,
) -> Status {
    run_ways(rt.alloc(), &mut folder.text(conf), tags, out)
}

// Says where tags go through the relays of the plan at this path.
fn print_plan_ways<'a, W: Write>(
    rt: &HostRuntime,
    folder: &Folder<'a>,
    net: &'a str,
    tags: &[String],
    out: &mut W,
) -> Status {
    run_plan_ways(rt.alloc(), &mut folder.text(net), folder, tags, out)
}

// Adapts the configuration at this path.
fn print_adapted<'a, W: Write>(
    rt: &HostRuntime,
    folder: &Folder<'a>,
    conf: &'a str,
    accepted: &[String],
    out: &mut W,
) -> Status {
    run_adapt(rt.alloc(), &mut folder.text(conf), accepted, out)
}

// By what a plan is answered.
#[derive(Clone, Copy)]
enum Answering {
    // By what `check` prints.
    Check,
    // By what `explain` prints.
    Explain,
}

// Checks or explains a plan, at whose named matches events may go.
fn answer_plan<'a, A: Allocator, W: Write>(
    rt: &'a HostRuntime,
    folder: &Folder<'a>,
    asked: &CheckWords<'a, A>,
    by: Answering,
    out: &mut W,
) -> Status {
    match drop_words(rt, folder, &asked.drops, &asked.lists) {
        Ok(words) => match lent_names(rt.alloc(), &words) {
            Ok(lent) => answer_words(rt, folder, asked, by, &lent, out),
            Err(AllocError) => no_answer(rt, ReadFault::Memory),
        },
        Err(fault) => no_answer(rt, fault),
    }
}

// Says on standard error why a plan has no answer.
fn no_answer(rt: &HostRuntime, fault: ReadFault) -> Status {
    print_plan_stop(rt.alloc(), PlanStop::Unread(fault), &mut rt.stderr())
}

// The words that name matches: those of the command, and behind them those of the files at these
// paths. A file that isn't UTF-8 is one that can't be read.
fn drop_words<'a>(
    rt: &HostRuntime,
    folder: &Folder<'a>,
    drops: &[&'a str],
    lists: &[&'a str],
) -> Result<Vec<String>, ReadFault> {
    let mut words = Vec::new(rt.alloc());
    for word in drops {
        words.push(format!(in rt.alloc(); "{word}")?)?;
    }
    for path in lists {
        put_words_of(rt, folder, path, &mut words)?;
    }
    Ok(words)
}

// Adds those of the file at this path.
fn put_words_of<'a>(
    rt: &HostRuntime,
    folder: &Folder<'a>,
    path: &'a str,
    words: &mut Vec<String>,
) -> Result<(), ReadFault> {
    let text = read_whole(rt.alloc(), &mut folder.text(path))?;
    match String::from_utf8(text) {
        Ok(text) => Ok(add_listed(rt.alloc(), &text, words)?),
        Err(_) => Err(ReadFault::Read),
    }
}

// The same with the words that name matches.
fn answer_words<'a, A: Allocator, W: Write>(
    rt: &'a HostRuntime,
    folder: &Folder<'a>,
    asked: &CheckWords<'a, A>,
    by: Answering,
    words: &[&str],
    out: &mut W,
) -> Status {
    match read_names(rt.alloc(), words) {
        Ok(DropNames::Read(names)) => match by {
            Answering::Check => check_named(rt, folder, asked, &names, out),
            Answering::Explain => explain_named(rt, folder, asked.net, &names, out),
        },
        Ok(DropNames::Misspelt) => print_misspelt(rt.alloc(), words, &mut rt.stderr()),
        Err(AllocError) => no_answer(rt, ReadFault::Memory),
    }
}

// Explains a plan, with the names that were read.
fn explain_named<'a, W: Write>(
    rt: &'a HostRuntime,
    folder: &Folder<'a>,
    net: &'a str,
    drops: &[DropName<'_>],
    out: &mut W,
) -> Status {
    run_explain(rt.alloc(), net, &mut folder.text(net), folder, drops, out)
}

// Checks a plan, with the names that were read.
fn check_named<'a, A: Allocator, W: Write>(
    rt: &'a HostRuntime,
    folder: &Folder<'a>,
    asked: &CheckWords<'a, A>,
    drops: &[DropName<'_>],
    out: &mut W,
) -> Status {
    let net = asked.net;
    let text = &mut folder.text(net);
    let faults = &mut rt.stderr();
    if asked.adapts {
        let accepted = &asked.accepted;
        run_adapted_check(rt.alloc(), net, text, folder, accepted, drops, out, faults)
    } else {
        run_check(rt.alloc(), net, text, folder, drops, out, faults)
    }
}

// Shows the journals and sinks of a data folder. Where there are none, that is said on standard
// error.
fn show_folder<W: Write>(rt: &HostRuntime, path: &str, out: &mut W) -> Status {
    let folder = DataFolder::new(rt, path);
    match folder.files(rt.alloc()) {
        Ok(files) => {
            if files.is_empty() {
                let _ = eprintln!(rt; "{path}: no journals and no sinks are there");
            }
            run_show(rt.alloc(), &files, &folder, out)
        }
        Err(ReadFault::Memory) => put_last(out, b"fault memory\n", Status::Usage),
        Err(ReadFault::Read) => put_last(out, b"fault read\n", Status::Usage),
    }
}

// The words that the program was called with.
fn called_with(rt: &HostRuntime) -> io::Result<Vec<String>> {
    Ok(env::args(rt)?.collect(rt.alloc())?)
}

fn main(rt: HostRuntime) -> ExitCode {
    let status = match called_with(&rt) {
        Ok(words) => match read_word(rt.alloc(), &words) {
            Ok(word) => run(&rt, word),
            Err(AllocError) => no_memory(&rt),
        },
        Err(e) if e.kind() == ErrorKind::OutOfMemory => no_memory(&rt),
        Err(_) => usage(&rt),
    };
    ExitCode::from(status as u8)
}
