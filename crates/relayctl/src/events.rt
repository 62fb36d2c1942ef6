//! The word `events`: which files are read, and which of their events are printed.

use crate::follow::{add_sink, follow};
use event_listing::{Choice, Output, run_events};
use folder_listing::{DataFile, DataFolder, Kind};
use jiff::Timestamp;
use program_text::{ReadFault, Status};
use std::alloc::{AllocError, AllocFailed, Allocator, Global};
use std::io::Write;
use tag_pattern::{Pattern, PatternError, Plain};

/// What stands behind `events`.
#[derive(Drop)]
pub struct EventWords<'a, A: Allocator> {
    /// The paths of sinks' files and journals, or one of a data folder.
    pub paths: Vec<&'a str, A>,
    /// The patterns of tags: what stands behind each `--tag`.
    pub tags: Vec<&'a str, A>,
    /// The first time: what stands behind `--since`.
    pub since: Option<&'a str>,
    /// The time before which they are: what stands behind `--until`.
    pub until: Option<&'a str>,
    /// Whether lines that repeat others are left out: `--unique`.
    pub is_unique: bool,
    /// Whether the paths are those of sinks' files that are followed: `--follow`.
    pub is_followed: bool,
}

// What an option waits for.
#[derive(Clone, Copy, PartialEq, Eq)]
enum Awaited {
    // Nothing: none stands in front.
    Nothing,
    // A pattern of tags.
    Tag,
    // The first time.
    Since,
    // The time before which they are.
    Until,
}

/// Reads what stands behind `events`, in any order: one path or more, `--tag` and a pattern as
/// often as wanted, and once each `--since` and `--until` and a time, `--unique` and `--follow`.
/// `None` where something is missing or can't stand there. The only error is want of memory.
pub fn event_words<A: Allocator + Copy>(
    alloc: A,
    words: &[String],
) -> Result<Option<EventWords<'_, A>>, AllocError> {
    let mut asked = EventWords {
        paths: Vec::new(alloc),
        tags: Vec::new(alloc),
        since: None,
        until: None,
        is_unique: false,
        is_followed: false,
    };
    let mut awaited = Awaited::Nothing;
    for word in words {
        match asked.take(awaited, word)? {
            Some(next) => awaited = next,
            None => return Ok(None),
        }
    }
    if awaited != Awaited::Nothing || asked.paths.is_empty() {
        return Ok(None);
    }
    Ok(Some(asked))
}

impl<'a, A: Allocator> EventWords<'a, A> {
    // Takes the next word, for which an option may wait. It answers what is waited for then; none
    // where the word can't stand here.
    fn take(&mut self, awaited: Awaited, word: &'a str) -> Result<Option<Awaited>, AllocError> {
        match awaited {
            Awaited::Nothing => return self.begin(word),
            Awaited::Tag => self.tags.push(word)?,
            Awaited::Since => self.since = Some(word),
            Awaited::Until => self.until = Some(word),
        }
        Ok(Some(Awaited::Nothing))
    }

    // Takes a word behind none that waits for one.
    fn begin(&mut self, word: &'a str) -> Result<Option<Awaited>, AllocError> {
        Ok(match word {
            "--tag" => Some(Awaited::Tag),
            "--since" if self.since.is_none() => Some(Awaited::Since),
            "--until" if self.until.is_none() => Some(Awaited::Until),
            "--unique" if !self.is_unique => {
                self.is_unique = true;
                Some(Awaited::Nothing)
            }
            "--follow" if !self.is_followed => {
                self.is_followed = true;
                Some(Awaited::Nothing)
            }
            path if !path.as_bytes().starts_with(b"--") => {
                self.paths.push(path)?;
                Some(Awaited::Nothing)
            }
            _ => None,
        })
    }
}

// Why nothing is printed.
#[derive(Drop)]
enum Fault<'a> {
    // A text is no pattern.
    Tag(&'a str, PatternError),
    // A text is no time as RFC 3339 writes it.
    Time(&'a str),
    // A path is neither that of a sink's file or a journal nor the only one.
    Path(&'a str),
    // A path that is to be followed is none of a sink's file.
    Follow(&'a str),
    // Memory ran out, or the folder can't be read.
    Unread(ReadFault),
}

impl From<ReadFault> for Fault<'_> {
    fn from(fault: ReadFault) -> Self {
        Fault::Unread(fault)
    }
}

impl From<AllocError> for Fault<'_> {
    fn from(_: AllocError) -> Self {
        Fault::Unread(ReadFault::Memory)
    }
}

impl<T: Drop> From<AllocFailed<T>> for Fault<'_> {
    fn from(_: AllocFailed<T>) -> Self {
        Fault::Unread(ReadFault::Memory)
    }
}

/// Prints the events that are asked for, of sinks' files and journals or of those in a data folder.
/// What is found beside them stands on standard error.
pub fn print_events<'a, A: Allocator, W: Write + Drop>(
    rt: &'a HostRuntime,
    asked: &EventWords<'a, A>,
    out: W,
) -> Status {
    match print_chosen(rt, asked, out) {
        Ok(status) => status,
        Err(fault) => {
            say(rt, fault);
            Status::Usage
        }
    }
}

// The same; or why nothing is printed.
fn print_chosen<'a, A: Allocator, W: Write + Drop>(
    rt: &'a HostRuntime,
    asked: &EventWords<'a, A>,
    out: W,
) -> Result<Status, Fault<'a>> {
    let choice = choice_of(rt, asked)?;
    let mut output = if asked.is_unique {
        Output::unique(rt.alloc(), out)?
    } else {
        Output::all(out)
    };
    print_to(rt, asked, &choice, &mut output)
}

// Prints the events of this choice.
fn print_to<'a, A: Allocator, W: Write>(
    rt: &'a HostRuntime,
    asked: &EventWords<'a, A>,
    choice: &Choice<Global>,
    out: &mut Output<W, Global>,
) -> Result<Status, Fault<'a>> {
    match asked.paths.as_slice() {
        paths if asked.is_followed => follow_files(rt, paths, choice, out),
        [path] if Kind::of(path).is_none() => print_folder(rt, path, choice, out),
        paths => print_files(rt, paths, choice, out),
    }
}

// Which events are asked for.
fn choice_of<'a, A: Allocator>(
    rt: &HostRuntime,
    asked: &EventWords<'a, A>,
) -> Result<Choice<Global>, Fault<'a>> {
    let mut patterns = Vec::new(rt.alloc());
    for text in &asked.tags {
        put_pattern(rt, text, &mut patterns)?;
    }
    let (since, until) = times_of(asked)?;
    Ok(Choice {
        patterns,
        since,
        until,
    })
}

// Adds the patterns that this text stands for.
fn put_pattern<'a>(
    rt: &HostRuntime,
    text: &'a str,
    patterns: &mut Vec<Plain<Global>>,
) -> Result<(), Fault<'a>> {
    match Pattern::read(rt.alloc(), text) {
        Ok(plains) => {
            for plain in plains {
                patterns.push(plain)?;
            }
            Ok(())
        }
        Err(PatternError::Memory) => Err(Fault::Unread(ReadFault::Memory)),
        Err(fault) => Err(Fault::Tag(text, fault)),
    }
}

// The first time that is asked for, and the one before which events are.
fn times_of<'a, A: Allocator>(
    asked: &EventWords<'a, A>,
) -> Result<(Option<i128>, Option<i128>), Fault<'a>> {
    let since = time_of(asked.since)?;
    Ok((since, time_of(asked.until)?))
}

// The time that a text says, in nanoseconds since the beginning of 1970.
fn time_of(text: Option<&str>) -> Result<Option<i128>, Fault<'_>> {
    match text {
        None => Ok(None),
        Some(text) => match text.parse::<Timestamp>() {
            Ok(time) => Ok(Some(time.as_nanosecond())),
            Err(_) => Err(Fault::Time(text)),
        },
    }
}

// Prints the events of the sinks and the journals in a data folder. Where there are none, that is
// said on standard error.
fn print_folder<'a, W: Write>(
    rt: &'a HostRuntime,
    path: &'a str,
    choice: &Choice<Global>,
    out: &mut Output<W, Global>,
) -> Result<Status, Fault<'a>> {
    let folder = DataFolder::new(rt, path);
    let mut files = Vec::new(rt.alloc());
    folder.put_files(rt.alloc(), &mut files, Kind::Sink)?;
    folder.put_files(rt.alloc(), &mut files, Kind::Journal)?;
    if files.is_empty() {
        let _ = eprintln!(rt; "{path}: no journals and no sinks are there");
    }
    Ok(run_events(rt.alloc(), choice, &files, &folder, out, &mut rt.stderr()))
}

// Prints the events of sinks' files and journals.
fn print_files<'a, W: Write>(
    rt: &'a HostRuntime,
    paths: &[&'a str],
    choice: &Choice<Global>,
    out: &mut Output<W, Global>,
) -> Result<Status, Fault<'a>> {
    let mut files = Vec::new(rt.alloc());
    for path in paths {
        let Some(kind) = Kind::of(path) else {
            return Err(Fault::Path(path));
        };
        let name = String::from_str(rt.alloc(), path)?;
        files.push(DataFile { name, kind })?;
    }
    let folder = DataFolder::new(rt, "");
    Ok(run_events(rt.alloc(), choice, &files, &folder, out, &mut rt.stderr()))
}

// Prints the events of the sinks that have these files, and follows them.
fn follow_files<'a, W: Write>(
    rt: &'a HostRuntime,
    paths: &[&'a str],
    choice: &Choice<Global>,
    out: &mut Output<W, Global>,
) -> Result<Status, Fault<'a>> {
    let mut sinks = Vec::new(rt.alloc());
    for path in paths {
        if !add_sink(rt, &mut sinks, path)? {
            return Err(Fault::Follow(path));
        }
    }
    let status = follow(rt, &mut sinks, choice, out)?;
    Ok(status)
}

// Says on standard error why nothing is printed.
fn say(rt: &HostRuntime, fault: Fault<'_>) {
    let _ = match fault {
        Fault::Tag(text, why) => eprintln!(rt; "fault tag {text}: {why}"),
        Fault::Time(text) => eprintln!(rt; "fault time {text}: not as RFC 3339 writes one"),
        Fault::Path(path) => eprintln!(rt;
            "fault path {path}: neither a file of a sink nor a journal, and not the only path"
        ),
        Fault::Follow(path) => eprintln!(rt; "fault follow {path}: not a file of a sink"),
        Fault::Unread(ReadFault::Memory) => eprintln!(rt; "fault memory"),
        Fault::Unread(ReadFault::Read) => eprintln!(rt; "fault read"),
    };
}
