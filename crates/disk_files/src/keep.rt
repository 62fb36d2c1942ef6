//! How much a stop keeps.

/// How much a stop of a folder in memory keeps. A removed file is gone in each case.
#[derive(Clone, Copy, Debug, PartialEq, Eq)]
pub enum Keep {
    /// Of each file what was synced, and no file that was never synced.
    Least,
    /// All that was written.
    Greatest,
    /// So many bytes of the file that was written to last, but no fewer than were synced, and all
    /// of the others.
    Last(usize),
}
