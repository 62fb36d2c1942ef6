//! A relay's data folder, whose files are opened for reading alone. On standard error it is said
//! what can't be read.

use crate::kind::{DataFile, Kind};
use crate::placed::{OpenPlaced, ReadAt};
use program_text::{Folder, NamedFile, Open, ReadFault};
use std::alloc::{AllocError, Allocator};
use std::fs::File;
use std::io::ErrorKind;
use std::os::unix::fs::FileExt;
use std::{fs, io, str};

/// The folder of this path.
#[derive(Clone, Copy)]
pub struct DataFolder<'a> {
    rt: &'a HostRuntime,
    path: &'a str,
}

impl<'a> DataFolder<'a> {
    /// The folder of this path, from the working folder. That of an empty path is the working
    /// folder, whose files' names may be paths.
    pub fn new(rt: &'a HostRuntime, path: &'a str) -> DataFolder<'a> {
        DataFolder { rt, path }
    }

    /// Its journals, and behind them its sinks' files, each sorted by their names. An error says
    /// that the folder can't be read, or that there is no memory.
    pub fn files<A: Allocator + Copy>(&self, alloc: A) -> Result<Vec<DataFile<A>, A>, ReadFault> {
        let mut files = Vec::new(alloc);
        self.put_files(alloc, &mut files, Kind::Journal)?;
        self.put_files(alloc, &mut files, Kind::Sink)?;
        Ok(files)
    }

    /// Adds the files of a kind, sorted by their names. An error says that the folder can't be
    /// read, or that there is no memory; some of the files may have been added.
    pub fn put_files<A: Allocator + Copy>(
        &self,
        alloc: A,
        files: &mut Vec<DataFile<A>, A>,
        kind: Kind,
    ) -> Result<(), ReadFault> {
        for name in self.names(alloc, kind)? {
            files.push(DataFile { name, kind })?;
        }
        Ok(())
    }

    // The names of files of a kind, sorted.
    fn names<A: Allocator + Copy>(
        &self,
        alloc: A,
        kind: Kind,
    ) -> Result<Vec<String<A>, A>, ReadFault> {
        let mut names = Vec::new(alloc);
        let entries = match fs::read_dir(self.rt, self.path) {
            Ok(entries) => entries,
            Err(e) => {
                let _ = eprintln!(self.rt; "{}: {e}", self.path);
                return Err(ReadFault::of(&e));
            }
        };
        for entry in entries {
            let entry = match entry {
                Ok(entry) => entry,
                Err(e) => return Err(ReadFault::of(&e)),
            };
            if let Ok(name) = str::from_utf8(entry.file_name().as_bytes())
                && Kind::of(name) == Some(kind)
            {
                names.push(String::from_str(alloc, name)?)?;
            }
        }
        names.sort()?;
        Ok(names)
    }

    // The path of a file.
    fn path_of(&self, name: &str) -> Result<String, AllocError> {
        let mut path = String::from_str(self.rt.alloc(), self.path)?;
        if !self.path.is_empty() {
            path.push('/')?;
        }
        path.push_str(name)?;
        Ok(path)
    }
}

impl<'a> Open for DataFolder<'a> {
    ghost use Rattle.std.specs.Prelude.{None};

    ghost text_of = { λ _ _. None };

    type Reader = NamedFile<'a>;

    fn open(&self, name: &str) -> io::Result<NamedFile<'a>> {
        let path = self.path_of(name)?;
        Folder::saying(self.rt).open(path.as_str())
    }
}

impl<'a> OpenPlaced for DataFolder<'a> {
    type Placed = PlacedFile<'a>;

    fn open_placed(&self, name: &str) -> io::Result<PlacedFile<'a>> {
        let path = self.path_of(name)?;
        match File::open(self.rt, path.as_str()) {
            Ok(file) => Ok(PlacedFile {
                rt: self.rt,
                path,
                file,
            }),
            Err(e) => {
                say(self.rt, &path, &e);
                Err(e)
            }
        }
    }
}

/// A file that is open, with the path by which it was opened.
#[derive(Drop)]
pub struct PlacedFile<'a> {
    rt: &'a HostRuntime,
    path: String,
    file: File,
}

impl ReadAt for PlacedFile<'_> {
    fn read_at(&self, at: u64, piece: &mut [u8]) -> io::Result<usize> {
        let got = self.file.read_at(piece, at);
        if let Err(e) = &got
            && e.kind() != ErrorKind::Interrupted
        {
            say(self.rt, &self.path, e);
        }
        got
    }
}

// Says what is wrong with the file at this path.
fn say(rt: &HostRuntime, path: &str, fault: &io::Error) {
    let _ = eprintln!(rt; "{path}: {fault}");
}
