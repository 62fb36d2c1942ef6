//! What the record that is told next does to the places of entries.

ghost use Rattle.std.specs.Prelude.{◌≡◌, IfOk, OnOk};
ghost use Rattle.chunk_journal.specs.Places.{SamePlaces, extent_before};
ghost use Rattle.chunk_journal.specs.Spelled.{record_of};
ghost use Rattle.journal_files.specs.Placings.{CanPlace, MovesBy, placing_of};

use chunk_journal::{Extent, Places, Record};
use disk_files::Writing;
use std::alloc::{AllocError, Allocator};

/// What a record does to the places of entries.
#[derive(Clone, Copy, PartialEq, Eq)]
pub enum Placing {
    /// Nothing, as a Seal and a Queue.
    Stays,
    /// The chunk of this serial gets this place more: an Append.
    Adds { serial: u64, extent: Extent },
    /// The chunk of this serial has none any more: a Purge.
    Drops { serial: u64 },
}

impl Placing {
    /// How a record that does this is written. One that adds entries may wait for its sync, since
    /// nobody is answered for them before.
    pub(crate) fn writing(&self) -> Writing {
        match self {
            Placing::Adds { .. } => Writing::Back,
            Placing::Stays | Placing::Drops { .. } => Writing::Through,
        }
    }

    /// What this record does, where its bytes end there. The error is want of memory, of a number
    /// for the place too.
    pub(crate) fn of<B: Allocator>(item: &Record<'_, B>, end: u64) -> Result<Placing, AllocError>
        ensures { IfOk result (λ placing. placing ≡ placing_of (record_of item.now) end) }
    {
        match item {
            Record::Append {
                serial,
                entries,
                ..
            } => {
                let extent = last_extent(end, entries.as_bytes().len())?;
                Ok(Placing::Adds {
                    serial: *serial,
                    extent,
                })
            }
            Record::Purge { serial } => Ok(Placing::Drops { serial: *serial }),
            Record::Seal { .. } | Record::Queue { .. } => Ok(Placing::Stays),
        }
    }

    /// Makes room for it. The error is want of memory.
    pub(crate) fn reserve<A: Allocator + Copy>(
        &self,
        places: &mut Places<A>,
    ) -> Result<(), AllocError>
        ensures same { SamePlaces places.old places.new }
        ensures ok { OnOk result (CanPlace self.now places.new) }
    {
        match self {
            Placing::Adds { serial, .. } => places.reserve(*serial),
            Placing::Stays | Placing::Drops { .. } => Ok(()),
        }
    }

    /// Does it.
    pub(crate) fn place<A: Allocator + Copy>(&self, places: &mut Places<A>)
        requires { CanPlace self.now places.old }
        ensures { MovesBy self.now places.old places.new }
    {
        match self {
            Placing::Stays => {}
            Placing::Adds { serial, extent } => places.add(*serial, *extent),
            Placing::Drops { serial } => places.remove(*serial),
        }
    }
}

/// The place of the last so many bytes before this end. Where there is no number for it, the error
/// is want of memory.
pub(crate) fn last_extent(end: u64, size: usize) -> Result<Extent, AllocError>
    ensures { IfOk result (λ extent. extent ≡ extent_before end size) }
{
    match Extent::before(end, size as u64) {
        Some(extent) => Ok(extent),
        None => Err(AllocError),
    }
}
