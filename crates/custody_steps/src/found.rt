//! The live chunk that a step names: where it is, and what may be asked of it.

use custody_store::Look;

/// A live chunk that a name was looked up for: the place of its relay, its buffer, its serial, and
/// what may be asked of it.
#[derive(Clone, Copy)]
pub(crate) struct Found {
    pub place: usize,
    pub buffer: usize,
    pub serial: usize,
    pub look: Look,
}
