//! The word `status`: which folder, which limits, and in which form it is printed.

ghost use Rattle.std.specs.Prelude.{map, MatchResult};
ghost use Rattle.folder_counts.specs.Status.{PrintsStatus};
ghost use Rattle.folder_listing.specs.Files.{named_of};
ghost use Rattle.program_text.specs.Lines.{unread_line};
ghost use Rattle.program_text.specs.Output.{IsPrinted};
ghost use Rattle.program_text.specs.declared.status.Status.TheVariants.{Usage};

use crate::watched::WatchedFolder;
use folder_counts::{AgeLimit, Form, Limits, run_status};
use folder_listing::{DataFile, DataFolder, OpenPlaced};
use jiff::Timestamp;
use program_text::{ReadFault, Status, put_last};
use std::alloc::Allocator;
use std::io::Write;

/// What stands behind `status`.
#[derive(Clone, Copy)]
pub struct StatusWords<'a> {
    /// The path of the data folder.
    pub path: &'a str,
    /// The most bytes that a buffer may hold: what stands behind `--max-bytes`.
    pub bytes: Option<u64>,
    /// The most chunks: what stands behind `--max-chunks`.
    pub chunks: Option<u64>,
    /// How many seconds old its oldest event may be: what stands behind `--max-age`.
    pub age: Option<u64>,
    /// The form in which it is printed: `--json` or `--prometheus`, or lines.
    pub form: Form,
}

// What an option waits for.
#[derive(Clone, Copy, PartialEq, Eq)]
enum Awaited {
    // Nothing: none stands in front.
    Nothing,
    // The most bytes.
    Bytes,
    // The most chunks.
    Chunks,
    // The most seconds.
    Age,
}

// What was read so far of the words behind `status`.
#[derive(Drop)]
struct StatusReader<'a> {
    path: Option<&'a str>,
    bytes: Option<u64>,
    chunks: Option<u64>,
    age: Option<u64>,
    form: Option<Form>,
    awaited: Awaited,
}

/// Reads what stands behind `status`, in any order: a path, `--max-bytes`, `--max-chunks` and
/// `--max-age`, each once and with a number below 2^64, and `--json` or `--prometheus`. `None`
/// where something is missing or can't stand there.
pub fn status_words(words: &[String]) -> Option<StatusWords<'_>> {
    let mut reader = StatusReader {
        path: None,
        bytes: None,
        chunks: None,
        age: None,
        form: None,
        awaited: Awaited::Nothing,
    };
    for word in words {
        if !reader.take(word) {
            return None;
        }
    }
    reader.finish()
}

impl<'a> StatusReader<'a> {
    // Takes the next word; false where it can't stand here.
    fn take(&mut self, word: &'a str) -> bool {
        match self.awaited {
            Awaited::Nothing => return self.begin(word),
            Awaited::Bytes => self.bytes = number_of(word),
            Awaited::Chunks => self.chunks = number_of(word),
            Awaited::Age => self.age = number_of(word),
        }
        self.awaited = Awaited::Nothing;
        number_of(word).is_some()
    }

    // Takes a word behind none that waits for one.
    fn begin(&mut self, word: &'a str) -> bool {
        match word {
            "--max-bytes" if self.bytes.is_none() => self.awaited = Awaited::Bytes,
            "--max-chunks" if self.chunks.is_none() => self.awaited = Awaited::Chunks,
            "--max-age" if self.age.is_none() => self.awaited = Awaited::Age,
            "--json" if self.form.is_none() => self.form = Some(Form::Object),
            "--prometheus" if self.form.is_none() => self.form = Some(Form::Metrics),
            path if !path.as_bytes().starts_with(b"--") && self.path.is_none() => {
                self.path = Some(path);
            }
            _ => return false,
        }
        true
    }

    // What was asked; none where something is missing.
    fn finish(self) -> Option<StatusWords<'a>> {
        if self.awaited != Awaited::Nothing {
            return None;
        }
        Some(StatusWords {
            path: self.path?,
            bytes: self.bytes,
            chunks: self.chunks,
            age: self.age,
            form: self.form.unwrap_or(Form::Lines),
        })
    }
}

// The number that these digits are.
fn number_of(word: &str) -> Option<u64> {
    if !word.as_bytes().iter().all(|byte| byte.is_ascii_digit()) {
        return None;
    }
    match word.parse::<u64>() {
        Ok(number) => Some(number),
        Err(_) => None,
    }
}

/// Prints what the journals and sinks of a data folder hold, and what its relay says of its
/// outputs. Where there are no journals and no sinks, that is said on standard error; so it is
/// where ages are asked for and the host has no time, with the status `Usage`.
pub fn print_status<W: Write>(rt: &HostRuntime, asked: StatusWords<'_>, out: &mut W) -> Status {
    let Ok(limits) = limits_now(rt, asked) else {
        let _ = eprintln!(rt; "fault clock");
        return Status::Usage;
    };
    let folder = DataFolder::new(rt, asked.path);
    let listed = folder.files(rt.alloc());
    if let Ok(files) = &listed
        && files.is_empty()
    {
        let _ = eprintln!(rt; "{}: no journals and no sinks are there", asked.path);
    }
    let files = WatchedFolder::new(rt, asked.path, folder);
    status_listed(rt.alloc(), listed, &files, limits, asked.form, out)
}

// The limits that are asked for, with the host's time where an age is one.
fn limits_now(rt: &HostRuntime, asked: StatusWords<'_>) -> Result<Limits, jiff::Error> {
    let age = match asked.age {
        Some(seconds) => {
            let now = Timestamp::now(rt)?.as_nanosecond();
            Some(AgeLimit { seconds, now })
        }
        None => None,
    };
    Ok(Limits {
        bytes: asked.bytes,
        chunks: asked.chunks,
        age,
    })
}

// Prints what the files hold that a folder was found to have; or why it isn't listed.
fn status_listed<A: Allocator + Copy, B: Allocator, O: OpenPlaced, W: Write>(
    alloc: A,
    listed: Result<Vec<DataFile<B>, B>, ReadFault>,
    files: &O,
    limits: Limits,
    form: Form,
    out: &mut W,
) -> Status
    ensures { MatchResult listed
        (λ found. PrintsStatus (O.text_of files.now) (map named_of found.items) limits form
        (W.contents out.old) (W.contents out.new) result)
        (λ fault. IsPrinted (W.contents out.old) (W.contents out.new) (unread_line fault)
        Usage result) }
{
    match listed {
        Ok(found) => run_status(alloc, &found, files, limits, form, out),
        Err(ReadFault::Memory) => put_last(out, b"fault memory\n", Status::Usage),
        Err(ReadFault::Read) => put_last(out, b"fault read\n", Status::Usage),
    }
}
