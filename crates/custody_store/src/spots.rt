//! Where the entries lie that buffers and sinks hold.

use std::alloc::{AllocError, Allocator};
use std::collections::BTreeMap;

/// Where an entry lies: in a buffer of the relay at this place, and there in the live chunk of a
/// serial, or in the sink; and its place in that.
#[derive(Clone, Copy)]
pub struct Spot {
    pub(crate) place: usize,
    pub(crate) buffer: usize,
    pub(crate) serial: Option<usize>,
    pub(crate) index: usize,
}

/// The spots of each entry, as they were when they were collected. What lies at a spot has to be
/// looked at again (`Places::tag_at`), so a spot that is missing or out of date costs time and
/// changes no answer.
#[derive(Drop)]
pub struct Spots<A: Allocator> {
    by_entry: BTreeMap<Vec<u8, A>, Vec<Spot, A>, A>,
}

impl<A: Allocator + Copy> Spots<A> {
    /// None.
    pub fn new(alloc: A) -> Self {
        Spots {
            by_entry: BTreeMap::new(alloc),
        }
    }

    /// The spots at which the entry lay.
    pub fn of_entry(&self, entry: &[u8]) -> &[Spot] {
        let Some(spots) = self.by_entry.get(entry) else {
            return &[];
        };
        spots.as_slice()
    }

    /// Adds a spot of the entry.
    pub(crate) fn add(&mut self, alloc: A, entry: &[u8], spot: Spot) -> Result<(), AllocError> {
        if let Some(spots) = self.by_entry.get_mut(entry) {
            spots.push(spot)?;
            return Ok(());
        }
        let mut spots = Vec::new(alloc);
        spots.push(spot)?;
        let key = Vec::from_slice(alloc, entry)?;
        self.by_entry.insert(key, spots)?;
        Ok(())
    }
}

/// Adds the spots of these entries, which are those of the live chunk of this serial.
pub(crate) fn add_chunk_spots<A: Allocator + Copy>(
    spots: &mut Spots<A>,
    alloc: A,
    place: usize,
    buffer: usize,
    serial: usize,
    entries: &[Vec<u8, A>],
) -> Result<(), AllocError> {
    for (index, entry) in entries.iter().enumerate() {
        let spot = Spot {
            place,
            buffer,
            serial: Some(serial),
            index,
        };
        spots.add(alloc, entry, spot)?;
    }
    Ok(())
}
