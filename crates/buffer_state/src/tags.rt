//! The serials of the staged chunks of each tag.

ghost use Rattle.std.specs.Prelude.{◌≡◌, ◌++◌, [], ◌∷◌, ℕ, List, OnOk, OnErr, None, cond, bytes_eq};
ghost use Rattle.std.specs.List.{last_or};
ghost use Rattle.buffer_state.specs.Slots.{AreBelow};
ghost use Rattle.buffer_state.specs.Tags.{without};

use std::alloc::{AllocError, Allocator};
use std::collections::{BTreeMap, BTreeSet};

/// The serials of the staged chunks of each tag, rising. Each call takes steps by the logarithm of
/// what there is.
#[derive(Drop)]
pub(crate) struct TagIndex<A: Allocator> {
    sets: BTreeMap<Vec<u8, A>, BTreeSet<u64, A>, A>,
}

impl<A: Allocator + Copy> TagIndex<A> {
    ghost use Rattle.buffer_state.specs.Tags.{serials_at};

    /// No serials.
    pub fn new(alloc: A) -> Self
        ensures { (tag : List ℕ) → serials_at result tag ≡ [] }
    {
        TagIndex {
            sets: BTreeMap::new(alloc),
        }
    }

    /// The last serial of the tag.
    pub fn newest(&self, tag: &[u8]) -> Option<u64>
        ensures { result ≡ last_or None (serials_at self.now tag.now) }
    {
        let serials = self.sets.get(tag)?;
        serials.last().copied()
    }

    /// Adds a serial behind those of the tag. An `Err` changes nothing.
    pub fn add(&mut self, alloc: A, tag: &[u8], serial: u64) -> Result<(), AllocError>
        requires last { AreBelow serial (serials_at self.old tag.now) }
        ensures ok { OnOk result
            ((other : List ℕ) → serials_at self.new other
            ≡ cond (bytes_eq other tag.now) (serials_at self.old other ++ serial ∷ [])
            (serials_at self.old other)) }
        ensures err { OnErr result
            ((other : List ℕ) → serials_at self.new other ≡ serials_at self.old other) }
    {
        if let Some(serials) = self.sets.get_mut(tag) {
            let _ = serials.insert(serial)?;
            return Ok(());
        }
        let mut serials = BTreeSet::new(alloc);
        let _ = serials.insert(serial)?;
        let key = Vec::from_slice(alloc, tag)?;
        self.sets.insert(key, serials)?;
        Ok(())
    }

    /// Takes out a serial of the tag.
    pub fn remove(&mut self, tag: &[u8], serial: u64)
        ensures { (other : List ℕ)
            → serials_at self.new other
            ≡ cond (bytes_eq other tag.now) (without serial (serials_at self.old other))
            (serials_at self.old other) }
    {
        let Some(serials) = self.sets.get_mut(tag) else {
            return;
        };
        // the set's length is what says that its serials rise
        let _count = serials.len();
        let _ = serials.remove(&serial);
        if serials.is_empty() {
            let _ = self.sets.remove(tag);
        }
    }
}
