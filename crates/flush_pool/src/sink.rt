//! Chunks that go to the files of a sink.

ghost use Rattle.std.specs.Prelude.{◌≡◌, ◌≤◌, IfOk, IfSome, Ok, length};
ghost use Rattle.event_modes.specs.Message.{longest_tag};
ghost use Rattle.flush_pool.specs.Carriages.{IsStoredFor};

use crate::courier::Courier;
use crate::fault::CarryFault;
use crate::retries::read_clock;
use crate::view::ClaimView;
use ack_receipt::Evidence;
use disk_files::Dir;
use event_modes::{Entries, LONGEST_TAG};
use relay_notices::{Notice, Teller};
use sink_series::{Rotation, SeriesFault, Stored};
use std::alloc::Allocator;
use std::marker::Model;
use std::snapshot::Snapshot;
use std::sync::{Mutex, Wait};
use std::time::Clock;

/// Writes chunks to a sink's files, one at a time: its workers share them behind a lock of its own.
/// They are away only while one writes, under that lock. Contracts see the sink as it was opened.
pub struct SinkCourier<S: Dir, A: Allocator> {
    sink: Mutex<Option<Rotation<S, A>>>,
    given: Snapshot<Rotation<S, A>>,
    // Tells of the sink.
    teller: Teller<A>,
}

impl<S: Dir + Drop, A: Allocator> Drop for SinkCourier<S, A> {
    fn drop(self) {
        let SinkCourier {
            sink: _sink,
            given: _given,
            teller: _teller,
        } = self;
    }
}

impl<S: Dir, A: Allocator> Model for SinkCourier<S, A> {
    ghost use Rattle.flush_pool.specs.Carriages.{Opened};

    ghost Value = { Opened S };

    ghost view = { λ c. record { folder = c.given.value.opening; path = c.given.value.path } };
}

impl<S: Dir, A: Allocator + Copy> SinkCourier<S, A> {
    /// Writes to this sink.
    pub fn new(sink: Rotation<S, A>) -> Self
        ensures { result ≡ record { folder = sink.opening; path = sink.path } }
    {
        let given = Snapshot::of(&sink);
        SinkCourier {
            sink: Mutex::new(Some(sink)),
            given,
            teller: Teller::silent(),
        }
    }

    /// It tells by this teller, of which the first place is the sink, where the files can't be
    /// written.
    pub fn telling(self, teller: Teller<A>) -> Self
        ensures { result ≡ self }
    {
        let SinkCourier {
            sink,
            given,
            teller: _before,
        } = self;
        SinkCourier {
            sink,
            given,
            teller,
        }
    }

    /// The sink's folder, when all work is done.
    pub fn into_dir(self) -> Option<S> {
        let SinkCourier {
            sink,
            given: _,
            teller: _,
        } = self;
        match sink.into_inner() {
            Some(sink) => Some(sink.into_dir()),
            None => None,
        }
    }

    // A write of the files failed so.
    fn tell_fault<R: Wait>(&self, rt: &R, fault: SeriesFault) {
        match fault {
            SeriesFault::Memory => {}
            SeriesFault::Fault | SeriesFault::Failed | SeriesFault::LastNumber => {
                self.teller.tell(rt, 0, Notice::SinkFailed);
            }
        }
    }
}

impl<S: Dir + Drop, A: Allocator + Copy> SinkCourier<S, A> {
    // Writes entries under a tag and syncs them, at the time that the clock says, and tells of it.
    fn store<R: Wait + Clock>(
        &self,
        rt: &R,
        tag: &[u8],
        entries: &Entries<A>,
    ) -> Result<Stored<A>, CarryFault>
        requires { length tag.now ≤ longest_tag }
        ensures { IfOk result
            (λ stored. (stored.tag ≡ tag.now) × (stored.entries ≡ entries.now)) }
    {
        let time = read_clock(rt).unwrap_or(0);
        match self.write(rt, time, tag, entries) {
            Some(Ok(stored)) => {
                self.teller.tell(rt, 0, Notice::Works);
                Ok(stored)
            }
            Some(Err(fault)) => {
                self.tell_fault(rt, fault);
                Err(CarryFault::from(fault))
            }
            None => Err(CarryFault::Device),
        }
    }

    // The write itself, under the lock; or nothing, where the files are away.
    fn write<R: Wait>(
        &self,
        rt: &R,
        time: u64,
        tag: &[u8],
        entries: &Entries<A>,
    ) -> Option<Result<Stored<A>, SeriesFault>>
        requires { length tag.now ≤ longest_tag }
        ensures { IfSome result (λ written. IfOk written
            (λ stored. (stored.tag ≡ tag.now) × (stored.entries ≡ entries.now))) }
    {
        let mut held = self.sink.lock(rt);
        let Some(sink) = held.take() else {
            return None;
        };
        let (sink, written) = sink.write_all_entries(time, tag, entries);
        *held = Some(sink);
        Some(written)
    }
}

impl<R: Wait + Clock, D: Dir, S: Dir + Drop, A: Allocator + Copy> Courier<R, D, A>
    for SinkCourier<S, A> {
    ghost use Rattle.ack_receipt.specs.Evidences.{Shows};

    ghost gives = { λ _ claim shown. IsStoredFor claim shown };

    /// Reads the chunk's entries, writes them and syncs them.
    ///
    /// `Memory` writes nothing. `Device`: the chunk couldn't be read, or not be written; after a
    /// write that failed, each later one does until the sink begins its next file.
    fn carry(&self, rt: &R, chunk: &ClaimView<'_, D, A>) -> Result<Evidence<A>, CarryFault>
        ensures stored { IfOk result (λ evidence. IsStoredFor chunk.now evidence) }
        ensures gives { (shown : Shows) → result ≡ Ok shown → IsStoredFor chunk.now shown }
    {
        // A buffer takes no longer tag; it is looked at all the same.
        if chunk.tag().len() > LONGEST_TAG {
            return Err(CarryFault::Device);
        }
        let entries = chunk.entries(rt)?;
        let stored = self.store(rt, chunk.tag(), &entries)?;
        Ok(Evidence::stored(chunk.claim(), stored))
    }
}
