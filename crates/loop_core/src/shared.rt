//! A buffer that is shared.

ghost use Rattle.std.specs.Prelude.{◌≡◌, IfOk};
ghost use Rattle.std.specs.Arc.{arc_value};

use ack_receipt::{Leaf, SharedBuffer, Takes};
use buffer_store::Buffer;
use disk_files::Dir;
use std::alloc::{AllocError, Allocator};
use std::marker::Model;
use std::snapshot::Snapshot;
use std::sync::Arc;

/// A share of a buffer. Contracts see its terms, and the buffer as it was opened: that is the very
/// one that is shared, since shares are made where there is no other.
pub(crate) struct Share<D: Dir + Drop, A: Allocator> {
    buffer: Arc<SharedBuffer<D, A>, A>,
    opened: Snapshot<Buffer<D, A>>,
}

// By hand, so that crates above don't prove again how its parts end.
impl<D: Dir + Drop, A: Allocator> Drop for Share<D, A> {
    fn drop(self) {
        let Share {
            buffer: _,
            opened: _,
        } = self;
    }
}

impl<D: Dir + Drop, A: Allocator> Model for Share<D, A> {
    ghost use Rattle.std.specs.Arc.{arc_value};
    ghost use Rattle.loop_core.specs.Owners.{Shared};

    ghost Value = { Shared D A };

    ghost view = { λ s. record { terms = arc_value s.buffer; opened = s.opened.value } };
}

impl<D: Dir + Drop, A: Allocator + Copy> Share<D, A> {
    /// Shares this buffer under this name, whose chunks go so: one share for the loop, and one for
    /// flush threads. The error is want of memory.
    pub fn two_of(
        alloc: A,
        buffer: Buffer<D, A>,
        leaf: Leaf,
        takes: Takes<A>,
    ) -> Result<(Self, Self), AllocError>
        ensures one { IfOk result
            (λ two. two.0 ≡ record {
              terms = record { leaf = leaf; takes = takes };
              opened = buffer;
            }) }
        ensures other { IfOk result (λ two. two.1 ≡ two.0) }
    {
        let (opened, remembered) = (Snapshot::of(&buffer), Snapshot::of(&buffer));
        let buffer = Arc::new(alloc, SharedBuffer::new(alloc, buffer, leaf, takes))?;
        let theirs = Arc::try_clone(&buffer)?;
        let one = Share { buffer, opened };
        let other = Share {
            buffer: theirs,
            opened: remembered,
        };
        Ok((one, other))
    }
}

impl<D: Dir + Drop, A: Allocator> Share<D, A> {
    /// The buffer.
    pub fn buffer(&self) -> &Arc<SharedBuffer<D, A>, A>
        ensures { arc_value result.now ≡ self.now.terms }
    {
        &self.buffer
    }

    /// The buffer, for its only user.
    pub fn into_buffer(self) -> Arc<SharedBuffer<D, A>, A>
        ensures { arc_value result ≡ self.terms }
    {
        let Share { buffer, opened: _ } = self;
        buffer
    }
}
