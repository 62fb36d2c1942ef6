//! The program: words of the command line, each of which reads, answers and gives a status.
#![tactic(auto)]

mod words;

use plan_answers::{run_check, run_replay};
use program_text::{Folder, Status, print_version};
use relay_run::{Home, Runner};
use std::io::ErrorKind;
use std::process::ExitCode;
use std::{env, io};
use stream_listing::run_decode;
use words::{Word, read_word};

const USAGE: &str = "usage: relaynet decode | check NET | replay NET STEPS | relay CONF NUMBER DIR";

fn usage(rt: &impl Eprint) -> Status {
    let _ = rt.eprintln(USAGE);
    Status::Usage
}

// Does what a word asks for that ends by itself.
fn run(rt: &HostRuntime, word: Option<Word<'_>>) -> Status {
    let folder = Folder::new(rt);
    let out = &mut io::writer(rt);
    match word {
        Some(Word::Decode) => run_decode(rt.alloc(), &mut rt.stdin(), out),
        Some(Word::Check(net)) => run_check(rt.alloc(), &mut folder.text(net), &folder, out),
        Some(Word::Replay(net, steps)) => run_replay(
            rt.alloc(),
            &mut folder.text(net),
            &mut folder.text(steps),
            &folder,
            out,
        ),
        Some(Word::Version) => print_version(rt.alloc(), "relaynet", out),
        Some(Word::Relay(..)) | None => usage(rt),
    }
}

// The words that the program was called with.
fn called_with(rt: &HostRuntime) -> io::Result<Vec<String>> {
    Ok(env::args(rt)?.collect(rt.alloc())?)
}

fn main(rt: HostRuntime) -> ExitCode {
    let status = match called_with(&rt) {
        Ok(words) => match read_word(&words) {
            Some(Word::Relay(conf, number, path)) => {
                let mut conf = Folder::new(&rt).text(conf);
                let home = Home { files: &rt, path };
                let runner = Runner::new(&rt, home);
                match runner.run_relay(&mut conf, number, &mut io::writer(&rt)) {
                    Some(status) => status,
                    None => usage(&rt),
                }
            }
            word => run(&rt, word),
        },
        Err(e) if e.kind() == ErrorKind::OutOfMemory => {
            let _ = rt.println("fault memory");
            Status::Usage
        }
        Err(_) => usage(&rt),
    };
    ExitCode::from(status as u8)
}
