//! What is opened in a folder: calls of it, and openings of what they leave.

use crate::devices::NewDir;
use crate::refusals::files::tell_left;
use crate::refusals::told::Told;
use crate::refusals::trial::Trial;
use crate::script::entries;
use disk_files::Dir;
use event_modes::Entries;
use std::alloc::{AllocError, Allocator};
use std::mem::replace;

/// What is opened in a folder and gives it back, and a script of its calls.
pub trait Opened<A: Allocator + Copy, D: Dir>: Sized + Drop {
    /// Opens the folder, or hands it back; `false` where that is for want of memory.
    fn opened(heap: A, dir: D) -> Result<Self, (bool, D)>;

    /// The same behind the calls before a place of the script, none of which is refused.
    fn played(heap: A, dir: D, place: usize) -> Option<Self>;

    /// With how many entries the call there is made.
    fn count_at(place: usize) -> usize;

    /// Makes the call there, with these entries, and tells what it answers. The error is want of
    /// memory.
    fn take(&mut self, place: usize, some: &Entries<A>, told: &mut Told) -> Result<(), AllocError>;

    /// Tells what it shows.
    fn show(&mut self, told: &mut Told);

    /// The folder.
    fn into_dir(self) -> D;
}

/// What is tried behind the calls before a place of the script: the call there, or an opening of
/// the folder that they leave.
#[derive(Clone, Copy)]
pub enum Call {
    /// The call.
    Next,
    /// An opening.
    Open,
}

// A folder, or what was opened in it.
#[derive(Drop)]
enum Found<D, T> {
    Folder(D),
    Opened(T),
    Nothing,
}

/// A folder or what was opened in it, a place of the script, and the entries for the call there.
pub struct Site<A: Allocator, D, T> {
    heap: A,
    place: usize,
    some: Entries<A>,
    found: Found<D, T>,
}

// What the call is tried on.
fn found_for<A: Allocator + Copy, D: Dir, T: Opened<A, D>>(opened: T, call: Call) -> Found<D, T> {
    match call {
        Call::Next => Found::Opened(opened),
        Call::Open => Found::Folder(opened.into_dir()),
    }
}

// Opens the folder. What comes of it, and the answer; another fault than want of memory is told.
fn reopened<A: Allocator + Copy, D: Dir, T: Opened<A, D>>(
    heap: A,
    dir: D,
    told: &mut Told,
) -> (Found<D, T>, Result<(), AllocError>) {
    match T::opened(heap, dir) {
        Ok(opened) => (Found::Opened(opened), Ok(())),
        Err((false, dir)) => (Found::Folder(dir), Err(AllocError)),
        Err((true, dir)) => {
            told.number(77_777);
            (Found::Folder(dir), Ok(()))
        }
    }
}

// Opens the folder, if it is one.
fn reopen<A: Allocator + Copy, D: Dir, T: Opened<A, D>>(
    heap: A,
    found: Found<D, T>,
    told: &mut Told,
) -> (Found<D, T>, Result<(), AllocError>) {
    match found {
        Found::Folder(dir) => reopened(heap, dir, told),
        other => (other, Ok(())),
    }
}

fn tell_found<A: Allocator + Copy, D: Dir + Drop, T: Opened<A, D>>(
    heap: A,
    found: Found<D, T>,
    told: &mut Told,
) {
    match found {
        Found::Folder(dir) => tell_left(heap, dir, told),
        Found::Opened(opened) => tell_left(heap, opened.into_dir(), told),
        Found::Nothing => told.number(66_666),
    }
}

impl<A: Allocator + Copy, D: NewDir<A>, T: Opened<A, D>> Trial<A, Call> for Site<A, D, T> {
    fn made(heap: A, call: Call, behind: usize) -> Option<Self> {
        let Some(some) = entries(heap, T::count_at(behind)) else {
            return None;
        };
        match T::played(heap, D::made(heap), behind) {
            Some(opened) => Some(Site {
                heap,
                place: behind,
                some,
                found: found_for(opened, call),
            }),
            None => None,
        }
    }

    fn call(&mut self, _call: Call, told: &mut Told) -> Result<(), AllocError> {
        if let Found::Opened(opened) = &mut self.found {
            return opened.take(self.place, &self.some, told);
        }
        let found = replace(&mut self.found, Found::Nothing);
        let (found, answer) = reopen(self.heap, found, told);
        self.found = found;
        answer
    }

    fn show(&mut self, told: &mut Told) {
        if let Found::Opened(opened) = &mut self.found {
            opened.show(told);
        }
    }

    fn close(self, told: &mut Told) {
        let Site {
            heap,
            place: _,
            some: _,
            found,
        } = self;
        tell_found(heap, found, told);
    }
}
