//! A relay's folder, which it has to itself.

use crate::flush::{Home, copy_of};
use buffer_store::BufferFault;
use loop_core::LoopFault;
use std::alloc::Global;
use std::fs;
use std::fs::TryLockError;
use std::rt::Files;
use std::sync::Arc;
use std::sync::atomic::AtomicBool;

/// What a relay has of its folder before a file in it is touched.
pub(crate) struct OwnFolder {
    /// A handle of its own.
    pub files: HostRuntime,
    /// The folder, which no other relay takes.
    pub held: HeldFolder,
    /// Raised where what works there shall end.
    pub stop: Arc<AtomicBool>,
}

impl OwnFolder {
    /// Makes the folder, and takes it.
    ///
    /// `Buffer`: it can't be made, or another relay has it. `Memory`.
    pub(crate) fn take(alloc: Global, home: Home<'_>) -> Result<OwnFolder, LoopFault> {
        let files = copy_of(home.files)?;
        let stop = Arc::new(alloc, AtomicBool::new(false))?;
        if fs::create_dir_all(&files, home.path).is_err() {
            return Err(LoopFault::Buffer(BufferFault::Fault));
        }
        let held = HeldFolder::take(&files, home.path)?;
        Ok(OwnFolder { files, held, stop })
    }
}

type OpenFolder = <HostRuntime as Files>::File;

/// A folder that no other relay takes while this is there: the system's advisory lock on the folder
/// itself. It leaves no file, and ends with the process, however that ends. Where the system has no
/// such locks, nothing is held, and the relay runs all the same.
#[derive(Drop)]
pub(crate) struct HeldFolder(Option<OpenFolder>);

impl HeldFolder {
    /// Takes the folder of this path, which is there.
    ///
    /// `Buffer`: another relay has it, which is said on standard error.
    pub(crate) fn take(files: &HostRuntime, path: &str) -> Result<HeldFolder, LoopFault> {
        let Ok(folder) = fs::open(files, path) else {
            return Ok(HeldFolder(None));
        };
        match folder.try_lock() {
            Ok(()) => Ok(HeldFolder(Some(folder))),
            Err(TryLockError::Error(_)) => Ok(HeldFolder(None)),
            Err(TryLockError::WouldBlock) => {
                let _ = eprintln!(files; "{path}: another relay has its files there");
                Err(LoopFault::Buffer(BufferFault::Fault))
            }
        }
    }
}
