//! Where an output takes an event.

use relay_conf::{BufferNo, ScopeNo};

/// Where an output takes an event that it is handed.
#[derive(Clone, Copy, PartialEq, Eq)]
pub enum Hop {
    /// Into this buffer.
    Buffer(BufferNo),
    /// On to this scope, by a relabel.
    Scope(ScopeNo),
}
