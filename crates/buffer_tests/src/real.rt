//! What is tried over a folder of the system, so that one function alone names that folder.

use crate::folders::{has_one, is_missing, is_real, stay_in_place};
use crate::rotations::are_closed;
use disk_files::{Dir, RealDir};
use std::alloc::Global;
use std::fs;

/// What is tried over a folder of the system.
#[derive(Clone, Copy, PartialEq, Eq)]
pub enum Real {
    /// One that was removed fails.
    Missing,
    /// None can be made below a file.
    Refused,
    /// An empty one takes each call.
    Empty,
    /// One has what is left of those calls.
    Left,
    /// Files that are gone leave their places.
    Places,
    /// The older files of an open sink are closed.
    Closing,
}

// A folder of the system.
trait SystemDir: Dir + Drop {
    // That of this path, which is made where it isn't there.
    fn at(rt: &HostRuntime, path: &str) -> Option<Self>;
}

impl SystemDir for RealDir<HostRuntime, Global> {
    fn at(rt: &HostRuntime, path: &str) -> Option<Self> {
        let Ok(own) = rt.clone() else {
            return None;
        };
        match RealDir::make(own, rt.alloc(), path) {
            Ok(dir) => Some(dir),
            Err(_) => None,
        }
    }
}

// Whether the folder of this path was there, which is removed.
fn is_removed(rt: &HostRuntime, path: &str) -> bool {
    fs::remove_dir_all(rt, path).is_ok()
}

// Whether this folder, which is of that path, is as it should be.
fn is_so<D: Dir>(rt: &HostRuntime, dir: &mut D, path: &str, real: Real) -> bool {
    let alloc = rt.alloc();
    match real {
        Real::Missing => is_removed(rt, path) && is_missing(alloc, dir),
        Real::Empty => is_real(alloc, dir),
        Real::Left => has_one(alloc, dir, b"b.sink", b"hello, you"),
        Real::Places => stay_in_place(dir),
        Real::Refused | Real::Closing => false,
    }
}

// Whether older files are closed of a sink in the first folder, by what the second lists.
fn is_closing<D: SystemDir>(rt: &HostRuntime, dir: D) -> bool {
    match D::at(rt, "/proc/self/fd") {
        Some(mut open) => are_closed(rt.alloc(), dir, &mut open),
        None => false,
    }
}

// Whether the folder of this path is as it should be.
fn is_at<D: SystemDir>(rt: &HostRuntime, path: &str, real: Real) -> bool {
    match D::at(rt, path) {
        Some(dir) if real == Real::Closing => is_closing(rt, dir),
        Some(mut dir) => is_so(rt, &mut dir, path, real),
        None => real == Real::Refused,
    }
}

// The same of a folder of the system.
fn is_on_disk(rt: &HostRuntime, path: &str, real: Real) -> bool {
    is_at::<RealDir<HostRuntime, Global>>(rt, path, real)
}

/// A path, and what is tried of the folder there.
pub type Row = (&'static str, Real);

// Whether each is as it should be, one after another.
fn are_on_disk(rt: &HostRuntime, rows: &[Row]) -> bool {
    for (path, real) in rows {
        if !is_on_disk(rt, path, *real) {
            return false;
        }
    }
    true
}

/// Whether all is as it should be in these, which are of this path or below it. It is removed
/// before and then.
pub fn on_disk(rt: &HostRuntime, path: &str, rows: &[Row]) -> bool {
    let _ = fs::remove_dir_all(rt, path);
    are_on_disk(rt, rows) && is_removed(rt, path)
}
