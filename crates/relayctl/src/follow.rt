//! Sinks that are followed: what was written to them since is printed, again and again.

use event_listing::{Choice, FollowedFile, Growth, Output};
use folder_listing::{DataFile, DataFolder, Kind};
use program_text::{ReadFault, Status};
use std::alloc::{AllocError, Allocator, Global};
use std::io::Write;
use std::thread;
use std::time::Duration;

// How many milliseconds it is waited until the files are looked at again.
const WAIT_MILLIS: u64 = 500;

/// A sink whose files are read one behind another, as they grow.
#[derive(Drop)]
pub struct FollowedSink<'a> {
    // what the paths of its files begin with
    path: &'a str,
    // the number of the file that is read
    number: u32,
    file: FollowedFile<Global>,
}

impl<'a> FollowedSink<'a> {
    // The sink with this path, from the front of its file of this number on.
    fn begin(rt: &HostRuntime, path: &'a str, number: u32) -> Result<FollowedSink<'a>, AllocError> {
        let name = format!(in rt.alloc(); "{path}.{number:010}.sink")?;
        let file = FollowedFile::new(name);
        Ok(FollowedSink { path, number, file })
    }

    // Prints what was written since, in the files that are there. It answers the status where
    // nothing more can be printed.
    fn go_on<W: Write>(
        &mut self,
        rt: &HostRuntime,
        choice: &Choice<Global>,
        out: &mut Output<W, Global>,
    ) -> Result<Option<Status>, ReadFault> {
        for _ in 0..u64::MAX {
            // Looked for before the file is read: a relay writes to it no more once the next is
            // there, so that nothing comes behind what is read now.
            let next = self.next(rt)?;
            let growth = if next.is_some() {
                Growth::Ended
            } else {
                Growth::Open
            };
            let files = DataFolder::new(rt, "");
            let notes = &mut rt.stderr();
            if let Err(status) = self
                .file
                .pass(rt.alloc(), choice, growth, &files, out, notes)
            {
                return Ok(Some(status));
            }
            let Some(number) = next else { break };
            *self = FollowedSink::begin(rt, self.path, number)?;
        }
        Ok(None)
    }

    // The number of the sink's next file, if there is one.
    fn next(&self, rt: &HostRuntime) -> Result<Option<u32>, ReadFault> {
        let (folder, name) = match self.path.rsplit_once('/') {
            Some(("", name)) => ("/", name),
            Some(parts) => parts,
            None => (".", self.path),
        };
        let mut files = Vec::new(rt.alloc());
        DataFolder::new(rt, folder).put_files(rt.alloc(), &mut files, Kind::Sink)?;
        Ok(next_of(name, self.number, &files))
    }
}

/// Adds the sink of the file at this path, whose files are read from this one on, or from the first
/// where several of them are named. It answers whether the path is that of a sink's file.
pub fn add_sink<'a>(
    rt: &HostRuntime,
    sinks: &mut Vec<FollowedSink<'a>>,
    path: &'a str,
) -> Result<bool, AllocError> {
    let Some((path, number)) = numbered(path) else {
        return Ok(false);
    };
    for other in sinks.iter_mut() {
        if other.path == path {
            if number < other.number {
                *other = FollowedSink::begin(rt, path, number)?;
            }
            return Ok(true);
        }
    }
    sinks.push(FollowedSink::begin(rt, path, number)?)?;
    Ok(true)
}

/// Prints the events of the sinks' files, and what is written to them and to later files from then
/// on, until nothing more can be printed. The error is want of memory, or that a folder can't be
/// read.
pub fn follow<W: Write>(
    rt: &HostRuntime,
    sinks: &mut [FollowedSink<'_>],
    choice: &Choice<Global>,
    out: &mut Output<W, Global>,
) -> Result<Status, ReadFault> {
    for _ in 0..u64::MAX {
        for sink in sinks.iter_mut() {
            if let Some(status) = sink.go_on(rt, choice, out)? {
                return Ok(status);
            }
        }
        thread::sleep(rt, Duration::from_millis(WAIT_MILLIS));
    }
    Ok(Status::Done)
}

// The path and the number that make the path of a sink's file.
fn numbered(path: &str) -> Option<(&str, u32)> {
    let (front, digits) = path.strip_suffix(".sink")?.rsplit_once('.')?;
    if digits.len() != 10 || !digits.bytes().all(|byte| byte.is_ascii_digit()) {
        return None;
    }
    let number = digits.parse::<u32>().ok()?;
    Some((front, number))
}

// The least number above this one of the files of this name.
fn next_of<A: Allocator>(name: &str, number: u32, files: &[DataFile<A>]) -> Option<u32> {
    let mut next: Option<u32> = None;
    for file in files {
        if let Some((front, found)) = numbered(file.name.as_str())
            && front == name
            && found > number
        {
            next = Some(next.map_or(found, |least| least.min(found)));
        }
    }
    next
}
