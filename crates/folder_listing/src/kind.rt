//! What files a relay's data folder has.

use std::alloc::Allocator;

/// What a file is.
#[derive(Clone, Copy, PartialEq, Eq)]
pub enum Kind {
    /// A generation of a buffer's journal.
    Journal,
    /// A file of a sink.
    Sink,
}

impl Kind {
    /// Of which kind a file of this name is; none where the name ends as those of neither do.
    pub fn of(name: &str) -> Option<Kind> {
        if name.ends_with(".journal") {
            return Some(Kind::Journal);
        }
        if name.ends_with(".sink") {
            return Some(Kind::Sink);
        }
        None
    }
}

/// A file that is to be listed.
#[derive(Drop)]
pub struct DataFile<A: Allocator> {
    pub name: String<A>,
    pub kind: Kind,
}
