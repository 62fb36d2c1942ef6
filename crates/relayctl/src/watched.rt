//! A data folder whose relay may tell of its outputs.

use folder_listing::{DataFolder, OpenPlaced, PlacedFile};
use output_state::STATE_FILE;
use program_text::{NamedFile, Open};
use std::io::ErrorKind;
use std::{fs, io};

/// The files of a data folder. What can't be read is said on standard error, but not of a folder
/// that lacks what a relay tells of its outputs.
#[derive(Drop)]
pub struct WatchedFolder<'a> {
    rt: &'a HostRuntime,
    path: &'a str,
    folder: DataFolder<'a>,
}

impl<'a> WatchedFolder<'a> {
    /// Those of this folder, which is at this path.
    pub fn new(rt: &'a HostRuntime, path: &'a str, folder: DataFolder<'a>) -> WatchedFolder<'a> {
        WatchedFolder { rt, path, folder }
    }

    // Whether the relay tells of its outputs. Where that can't be looked at, reading will say why.
    // The error is want of memory.
    fn has_state(&self) -> io::Result<bool> {
        let path = format!(in self.rt.alloc(); "{}/{STATE_FILE}", self.path)?;
        match fs::exists(self.rt, path.as_str()) {
            Err(fault) if fault.kind() == ErrorKind::OutOfMemory => Err(fault),
            found => Ok(found.unwrap_or(true)),
        }
    }
}

impl<'a> Open for WatchedFolder<'a> {
    ghost use Rattle.std.specs.Prelude.{None};

    ghost text_of = { λ _ _. None };

    type Reader = NamedFile<'a>;

    fn open(&self, name: &str) -> io::Result<NamedFile<'a>> {
        if name == STATE_FILE && !self.has_state()? {
            return Err(io::Error::from(ErrorKind::NotFound));
        }
        self.folder.open(name)
    }
}

impl<'a> OpenPlaced for WatchedFolder<'a> {
    type Placed = PlacedFile<'a>;

    fn open_placed(&self, name: &str) -> io::Result<PlacedFile<'a>> {
        self.folder.open_placed(name)
    }
}
