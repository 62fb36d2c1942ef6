//! Files, by paths from the working folder.

use crate::counted::CountedRead;
use crate::opening::Open;
use std::fs::File;
use std::io;
use std::io::{ErrorKind, Read};

/// The working folder.
#[derive(Clone, Copy)]
pub struct Folder<'a> {
    rt: &'a HostRuntime,
    // whether it is said on standard error which file can't be read
    says: bool,
}

impl<'a> Folder<'a> {
    /// The folder that the program works in.
    pub fn new(rt: &'a HostRuntime) -> Folder<'a> {
        Folder { rt, says: false }
    }

    /// The same; it says on standard error which file can't be read, and why.
    pub fn saying(rt: &'a HostRuntime) -> Folder<'a> {
        Folder { rt, says: true }
    }

    /// The text of the file at this path. Nothing is opened before it is read.
    pub fn text(&self, path: &'a str) -> FileText<'a> {
        FileText {
            folder: *self,
            path,
            file: None,
        }
    }

    // Says what is wrong with the file at this path, if that is wanted.
    fn say(&self, path: &str, fault: &io::Error) {
        if self.says {
            let _ = eprintln!(self.rt; "{path}: {fault}");
        }
    }
}

impl<'a> Open for Folder<'a> {
    ghost use Rattle.std.specs.Prelude.{None};

    ghost text_of = { λ _ _. None };

    type Reader = NamedFile<'a>;

    fn open(&self, name: &str) -> io::Result<NamedFile<'a>> {
        let path = String::from_str(self.rt.alloc(), name)?;
        match File::open(self.rt, name) {
            Ok(file) => Ok(NamedFile {
                folder: *self,
                path,
                file,
            }),
            Err(e) => {
                self.say(name, &e);
                Err(e)
            }
        }
    }
}

/// A file that is open, with the path by which it was opened.
#[derive(Drop)]
pub struct NamedFile<'a> {
    folder: Folder<'a>,
    path: String,
    file: File,
}

impl CountedRead for NamedFile<'_> {
    fn read(&mut self, piece: &mut [u8]) -> io::Result<usize> {
        let got = self.file.read(piece);
        if let Err(e) = &got {
            self.folder.say(&self.path, e);
        }
        got
    }
}

/// The text of a file, which is opened when it is first read.
#[derive(Drop)]
pub struct FileText<'a> {
    folder: Folder<'a>,
    path: &'a str,
    file: Option<NamedFile<'a>>,
}

impl CountedRead for FileText<'_> {
    fn read(&mut self, piece: &mut [u8]) -> io::Result<usize> {
        if self.file.is_none() {
            self.file = Some(self.folder.open(self.path)?);
        }
        match &mut self.file {
            Some(file) => file.read(piece),
            None => Err(io::Error::from(ErrorKind::NotFound)),
        }
    }
}
