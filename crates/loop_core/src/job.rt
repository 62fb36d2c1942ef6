//! What a flush thread is given.

ghost use Rattle.std.specs.Prelude.{◌≡◌, option_map, string_bytes};
ghost use Rattle.std.specs.Arc.{arc_value};
ghost use Rattle.relay_ports.specs.Outputs.{settings_of};
ghost use Rattle.loop_core.specs.Owners.{IsBufferOf, IsOwned, IsSetAs, opened_as, owned_by};

use crate::shared::Share;
use ack_receipt::SharedBuffer;
use disk_files::Dir;
use relay_ports::BufferedOutput;
use std::alloc::Allocator;
use std::marker::Model;
use std::sync::Arc;

/// A buffered output whose chunks are to be delivered, with its own buffer.
///
/// All that the configuration says of the output is there: where its chunks go, by how many
/// threads, and when they are tried again. Contracts see the buffer also as it was opened, which is
/// the very one that is shared, and in which folder.
pub struct DeliveryJob<D: Dir + Drop, A: Allocator> {
    number: u32,
    output: BufferedOutput<A>,
    share: Share<D, A>,
    path: Option<String<A>>,
}

// By hand, so that crates above don't prove again how its parts end.
impl<D: Dir + Drop, A: Allocator> Drop for DeliveryJob<D, A> {
    fn drop(self) {
        let DeliveryJob {
            number: _,
            output: _,
            share: _,
            path: _,
        } = self;
    }
}

impl<D: Dir + Drop, A: Allocator> Model for DeliveryJob<D, A> {
    ghost use Rattle.std.specs.Prelude.{option_map, string_bytes};
    ghost use Rattle.loop_core.specs.Owners.{IsOwned, Owned, owned_by};

    ghost Value = { Owned A };

    ghost view = { λ j. owned_by j.number j.output j.share (option_map string_bytes j.path) };

    ghost invariant = { λ j. IsOwned
        (owned_by j.number j.output j.share (option_map string_bytes j.path)) };
}

impl<D: Dir + Drop, A: Allocator> DeliveryJob<D, A> {
    /// This output of the relay with this number, and its buffer, which was opened in the folder of
    /// the system with this path, or in memory.
    pub(crate) fn new(
        number: u32,
        output: BufferedOutput<A>,
        share: Share<D, A>,
        path: Option<String<A>>,
    ) -> Self
        requires buffer { IsBufferOf number output share.terms }
        requires set { IsSetAs (settings_of output) (opened_as share.opened) }
        ensures { result ≡ owned_by number output share (option_map string_bytes path) }
    {
        DeliveryJob {
            number,
            output,
            share,
            path,
        }
    }

    /// The output.
    pub fn output(&self) -> &BufferedOutput<A>
        ensures { result.now ≡ self.now.output }
    {
        &self.output
    }

    /// Its buffer.
    pub fn buffer(&self) -> &Arc<SharedBuffer<D, A>, A>
        ensures { arc_value result.now ≡ self.now.terms }
    {
        self.share.buffer()
    }

    /// The buffer is the output's own, and was opened as the output's settings say. The call does
    /// nothing: it stands for what the type keeps.
    pub fn is_owned(&self)
        ensures { IsOwned self.now }
    {
        let _ = &self.share;
    }
}
