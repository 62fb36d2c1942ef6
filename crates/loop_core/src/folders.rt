//! The folders of a relay's buffers.

ghost use Rattle.std.specs.Prelude.{◌≡◌, IfOk, option_map, string_bytes};

use crate::placed::{PlacedDir, memory_dir, real_dir};
use disk_files::{EitherDir, MemoryDir, RealDir};
use relay_conf::BufferKind;
use std::alloc::{AllocError, Allocator};
use std::fs;
use std::os::unix::fs::FileExt;
use std::rt::Files;

/// Where the buffers of a relay are.
pub trait Folders<D, A: Allocator> {
    ghost use Rattle.std.specs.Prelude.{ℕ, List, Option};
    ghost use Rattle.relay_conf.specs.declared.buffer.BufferKind.{BufferKind};

    // whether a folder is one for a buffer of a kind
    ghost is_for: { Self → BufferKind A → D → Type 0 };

    // the path that the system is asked for, for a buffer of a kind; none where that is in memory
    ghost place: { Self → BufferKind A → Option (List ℕ) };

    /// Makes them ready. It is called before any of them is asked for; `false` where that failed.
    fn make_ready(&self) -> bool;

    /// The folder of a buffer of this kind. The error is want of memory.
    fn folder_of(&self, kind: &BufferKind<A>) -> Result<PlacedDir<D, A>, AllocError>
        ensures kind { IfOk result (λ placed. is_for self.now kind.now placed.dir) }
        ensures path { IfOk result
            (λ placed. option_map string_bytes placed.path ≡ place self.now kind.now) };
}

/// A folder of the system, or one in memory.
pub type SystemDir<R, A> = EitherDir<RealDir<R, A>, MemoryDir<A>>;

/// A folder of the system for the buffers that have files; the others are in memory.
#[derive(Drop)]
pub struct SystemFolders<'a, R, A: Allocator> {
    pub rt: R,
    pub alloc: A,
    pub path: &'a str,
}

impl<'a, R, A> Folders<SystemDir<R, A>, A> for SystemFolders<'a, R, A>
where
    R: Files + Alloc + Clone + Drop,
    R::File: FileExt + Drop,
    R::A: Clone,
    A: Allocator + Copy,
{
    ghost use Rattle.loop_core.specs.Folders.{IsForKind, path_for};

    ghost is_for = { λ folders kind dir. IsForKind kind dir };

    ghost place = { λ folders kind. path_for folders.path.now kind };

    fn make_ready(&self) -> bool {
        fs::create_dir_all(&self.rt, self.path).is_ok()
    }

    fn folder_of(&self, kind: &BufferKind<A>) -> Result<PlacedDir<SystemDir<R, A>, A>, AllocError> {
        match kind {
            BufferKind::Memory => {
                let PlacedDir { dir, path } = memory_dir(self.alloc);
                let dir = EitherDir::Right(dir);
                Ok(PlacedDir { dir, path })
            }
            BufferKind::File { path: _ } => {
                let Ok(rt) = self.rt.clone() else {
                    return Err(AllocError);
                };
                let PlacedDir { dir, path } = real_dir(rt, self.alloc, self.path)?;
                let dir = EitherDir::Left(dir);
                Ok(PlacedDir { dir, path })
            }
        }
    }
}

/// All buffers are in memory.
#[derive(Drop)]
pub struct MemoryFolders<A: Allocator> {
    pub alloc: A,
}

impl<A: Allocator + Copy> Folders<MemoryDir<A>, A> for MemoryFolders<A> {
    ghost use Rattle.std.specs.Prelude.{None};
    ghost use Rattle.loop_core.specs.Folders.{IsEmptyFolder};

    ghost is_for = { λ folders kind dir. IsEmptyFolder dir };

    ghost place = { λ folders kind. None };

    fn make_ready(&self) -> bool {
        true
    }

    fn folder_of(&self, _kind: &BufferKind<A>) -> Result<PlacedDir<MemoryDir<A>, A>, AllocError> {
        Ok(memory_dir(self.alloc))
    }
}
