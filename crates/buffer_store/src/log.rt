//! The journal of a buffer in its folder, and what is known of the device since it was opened.

ghost use Rattle.std.specs.Prelude.{◌≡◌, ◌||◌, ◌≤◌, length, false};
ghost use Rattle.chunk_journal.specs.Records.{body_of, longest_body};
ghost use Rattle.chunk_journal.specs.Spelled.{record_of, HasShortTag};
ghost use Rattle.journal_files.specs.Views.{HasShortTags};
ghost use Rattle.buffer_store.specs.Logs.{Reads, Writes, Syncs, Renews, is_append};

use crate::fault::BufferFault;
use buffer_state::Chunks;
use chunk_journal::Record;
use disk_files::Dir;
use journal_files::{Journal, JournalError};
use std::alloc::Allocator;
use std::marker::Model;
use std::snapshot::Snapshot;

/// A journal that is open in a folder.
#[derive(Drop)]
pub struct Log<D: Dir, A: Allocator> {
    pub(crate) dir: D,
    pub(crate) journal: Journal<A>,
    // the device failed, so that it isn't known what the folder has
    pub(crate) failed: bool,
    // some append that was told isn't synced
    pub(crate) staged: bool,
    // the folder as the opening found it, for contracts alone
    pub(crate) start: Snapshot<D>,
}

impl<D: Dir, A: Allocator> Model for Log<D, A> {
    ghost use Rattle.buffer_store.specs.Logs.{Logged, IsGoing};

    ghost Value = { Logged D };

    ghost view = { λ l. record {
      dir = l.dir;
      journal = l.journal;
      failed = l.failed;
      staged = l.staged;
      start = l.start.value;
    } };

    ghost invariant = { λ l. IsGoing D.opened
        (record {
          dir = l.dir;
          journal = l.journal;
          failed = l.failed;
          staged = l.staged;
          start = l.start.value;
        }) };
}

impl<D: Dir, A: Allocator> Log<D, A> {
    /// Whether the device has failed.
    pub(crate) fn has_failed(&self) -> bool
        ensures { result ≡ self.now.failed }
    {
        self.failed
    }

    /// Whether some append that was told isn't synced.
    pub(crate) fn has_staged(&self) -> bool
        ensures { result ≡ self.now.staged }
    {
        self.staged
    }

    /// The folder, as the journal leaves it.
    pub(crate) fn into_dir(self) -> D
        ensures { result ≡ self.dir }
    {
        let Log {
            dir,
            journal: _,
            failed: _,
            staged: _,
            start: _,
        } = self;
        dir
    }

    /// Syncs all that was told. After `Fault` nothing may be told any more.
    pub(crate) fn sync(&mut self) -> Result<(), BufferFault>
        requires going { self.old.failed ≡ false }
        ensures { Syncs D.is_honest D.history D.fault_count self.old self.new result }
    {
        if self.journal.sync(&mut self.dir).is_err() {
            self.failed = true;
            return Err(BufferFault::Fault);
        }
        self.staged = false;
        Ok(())
    }
}

impl<D: Dir, A: Allocator + Copy> Log<D, A> {
    /// Tells a record, and syncs it and all before it if that is wanted. All memory is asked for
    /// before the folder is changed.
    ///
    /// `Memory` changes nothing. After `Fault` the record is there or not, and nothing may be told
    /// any more.
    pub(crate) fn write<B: Allocator>(
        &mut self,
        item: &Record<'_, B>,
        synced: bool,
    ) -> Result<(), BufferFault>
        requires going { self.old.failed ≡ false }
        requires tag { HasShortTag (record_of item.now) }
        requires short { length (body_of (record_of item.now)) ≤ longest_body }
        ensures { Writes D.is_honest D.history D.fault_count self.old self.new
            (record_of item.now) synced result }
    {
        self.journal.ready(&mut self.dir, item)?;
        if self.journal.put(&mut self.dir).is_err() {
            self.failed = true;
            return Err(BufferFault::Fault);
        }
        if synced {
            return self.sync();
        }
        self.staged = is_staged_by(item, self.staged);
        Ok(())
    }

    /// The bytes of the entries of the live chunk of this serial; none where there is no such
    /// chunk.
    ///
    /// `Memory`, `Fault` where a read failed, or `Damaged` where the journal has fewer bytes than
    /// were told. None changes anything.
    pub(crate) fn body(&mut self, alloc: A, serial: u64) -> Result<Vec<u8, A>, BufferFault>
        requires going { self.old.failed ≡ false }
        ensures { Reads D.is_honest D.history D.fault_count self.old self.new serial result }
    {
        Ok(self.journal.body(alloc, &mut self.dir, serial)?)
    }

    /// Goes on in the next generation, which tells these chunks. After `Fault` nothing may be told
    /// any more.
    ///
    /// `Damaged` where the journal has fewer bytes than were told.
    pub(crate) fn renew(&mut self, chunks: &Chunks<A>) -> Result<(), BufferFault>
        requires going { self.old.failed ≡ false }
        requires tags { HasShortTags chunks.now }
        ensures { Renews D.is_honest D.history D.fault_count self.old self.new chunks.now result }
    {
        match self.journal.renew(&mut self.dir, chunks) {
            Ok(()) => {
                self.staged = false;
                Ok(())
            }
            Err(JournalError::Memory) => Err(BufferFault::Memory),
            Err(JournalError::Damaged) => Err(BufferFault::Damaged),
            Err(JournalError::LastGeneration) => Err(BufferFault::LastSerial),
            Err(JournalError::Fault) => {
                self.failed = true;
                Err(BufferFault::Fault)
            }
        }
    }
}

// Whether some append isn't synced once this record was told, where that was so before or not.
fn is_staged_by<B: Allocator>(item: &Record<'_, B>, before: bool) -> bool
    ensures { result ≡ (is_append (record_of item.now) || before) }
{
    matches!(item, Record::Append { .. }) || before
}
