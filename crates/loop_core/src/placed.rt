//! A folder, and which one of the system it is.

ghost use Rattle.std.specs.Prelude.{◌≡◌, IfErr, IfOk, None, Some, option_map, string_bytes};
ghost use Rattle.loop_core.specs.Folders.{IsEmptyFolder};

use disk_files::{MemoryDir, RealDir};
use std::alloc::{AllocFailed, Allocator};
use std::os::unix::fs::FileExt;
use std::rt::Files;

/// A folder with the path that the system was asked for, or none where it is in memory.
#[derive(Drop)]
pub struct PlacedDir<D, A: Allocator> {
    pub dir: D,
    pub path: Option<String<A>>,
}

/// The folder of the system with this path, which has to be there by the first call. The error is
/// want of memory, and has the runtime again.
///
/// What the system does can't be stated: this is trusted to hand it the path that is noted.
pub fn real_dir<R, A>(
    rt: R,
    alloc: A,
    path: &str,
) -> Result<PlacedDir<RealDir<R, A>, A>, AllocFailed<R>>
where
    R: Files + Alloc + Clone + Drop,
    R::File: FileExt + Drop,
    R::A: Clone,
    A: Allocator + Copy,
    ensures placed { IfOk result (λ placed. option_map string_bytes placed.path ≡ Some path.now) }
    ensures value_returned { IfErr result (λ failed. failed.value ≡ rt) }
{
    let Ok(noted) = String::from_str(alloc, path) else {
        return Err(AllocFailed { value: rt });
    };
    match RealDir::new(rt, alloc, path) {
        Ok(dir) => Ok(PlacedDir {
            dir,
            path: Some(noted),
        }),
        Err(failed) => Err(failed),
    }
}

/// An empty folder in memory.
pub fn memory_dir<A: Allocator + Copy>(alloc: A) -> PlacedDir<MemoryDir<A>, A>
    ensures empty { IsEmptyFolder result.dir }
    ensures path { option_map string_bytes result.path ≡ None }
{
    PlacedDir {
        dir: MemoryDir::new(alloc),
        path: None,
    }
}
