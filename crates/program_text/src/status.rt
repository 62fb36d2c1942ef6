//! What a word of the command line comes to.

/// The status that the process ends with.
#[derive(Clone, Copy, Debug, PartialEq, Eq)]
pub enum Status {
    /// Done, yes, or nothing lost.
    Done = 0,
    /// No, lost, or refused.
    No = 1,
    /// The words were wrong, or what they name can't be read.
    Usage = 2,
}
