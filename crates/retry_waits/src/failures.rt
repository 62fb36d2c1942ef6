//! The failures of all chunks of a buffer.

ghost use Rattle.std.specs.Prelude.{◌≡◌, ◌↔◌, IsTrue, OnOk, OnErr, None, option_map};
ghost use Rattle.std.specs.FinMap as map;
ghost use Rattle.retry_waits.specs.Failed.{look_moment, noted, IsDue, IsOver};

use crate::failed::Failed;
use crate::settings::RetrySettings;
use std::alloc::{AllocError, Allocator};
use std::collections::BTreeMap;
use std::marker::Model;

/// Which chunks of a buffer have failed, by their serials: how often, and when first and last.
/// A chunk has a place here from its first failure until it is forgotten.
///
/// Times are milliseconds since one fixed start, the same for all calls.
#[derive(Drop)]
pub struct Failures<A: Allocator> {
    chunks: BTreeMap<u64, Failed, A>,
}

impl<A: Allocator> Model for Failures<A> {
    ghost use Rattle.std.specs.FinMap as map;
    ghost use Rattle.std.specs.Coded.{coded_ℕ};
    ghost use Rattle.std.specs.Map.{values_of};
    ghost use Rattle.std.specs.Ordering.{nat_cmp};
    ghost use Rattle.retry_waits.specs.declared.failed.Failed.{Failed};
    ghost use Rattle.retry_waits.specs.Failed.{failed_code, AreCounted};

    ghost Value = { map.FinMap nat_cmp Failed };

    ghost coded = { map.code coded_ℕ failed_code };

    ghost view = { λ f. map.from_entries f.chunks.entries };

    ghost invariant = { λ f. AreCounted (values_of f.chunks.entries) };
}

impl<A: Allocator + Copy> Failures<A> {
    /// No chunk has failed.
    pub fn new(alloc: A) -> Self
        ensures { result ≡ map.empty }
    {
        Failures {
            chunks: BTreeMap::new(alloc),
        }
    }

    /// How many chunks have failed and aren't forgotten. Each takes one place, however often it
    /// failed.
    pub fn chunk_count(&self) -> usize
        ensures { result ≡ map.len self.now }
    {
        self.chunks.len()
    }

    /// The chunk of this serial has failed once more, now.
    ///
    /// The error is want of memory. It comes only at a chunk's first failure, and changes nothing.
    pub fn note(&mut self, serial: u64, now: u64) -> Result<(), AllocError>
        ensures ok { OnOk result
            (self.new ≡ map.insert self.old serial (noted now (map.get self.old serial))) }
        ensures first { OnErr result (map.get self.old serial ≡ None) }
        ensures err { OnErr result (self.new ≡ self.old) }
    {
        let before = self.chunks.get(&serial).copied();
        let _ = self.chunks.insert(serial, Failed::noted(before, now))?;
        Ok(())
    }

    /// The chunk of this serial is gone, and what is known of its failures with it.
    pub fn forget(&mut self, serial: u64)
        ensures { self.new ≡ map.remove self.old serial }
    {
        let _ = self.chunks.remove(&serial);
    }

    /// Whether the chunk of this serial may be tried: it hasn't failed, or its wait is over.
    pub fn is_due(&self, settings: &RetrySettings, serial: u64, now: u64) -> bool
        ensures { IsTrue result ↔ IsDue settings.now (map.get self.now serial) now }
    {
        match self.chunks.get(&serial) {
            Some(failed) => failed.is_due(settings, now),
            None => true,
        }
    }

    /// From when on the chunk of this serial is to be looked at again: it may be tried, or is to be
    /// given up. `None` where it hasn't failed.
    pub fn look(&self, settings: &RetrySettings, serial: u64) -> Option<u64>
        ensures { result ≡ option_map (look_moment settings.now) (map.get self.now serial) }
    {
        match self.chunks.get(&serial) {
            Some(failed) => Some(failed.look(settings)),
            None => None,
        }
    }

    /// Whether the chunk of this serial is to be given up: retries don't go on forever, and it has
    /// failed too often or too long ago.
    pub fn is_over(&self, settings: &RetrySettings, serial: u64, now: u64) -> bool
        ensures { IsTrue result ↔ IsOver settings.now (map.get self.now serial) now }
    {
        match self.chunks.get(&serial) {
            Some(failed) => failed.is_over(settings, now),
            None => false,
        }
    }
}
