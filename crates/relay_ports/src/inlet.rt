//! Where the messages go that come into a relay.

ghost use Rattle.std.specs.Prelude.{◌≡◌, ◌<◌, ◌⊎◌, [], length, map, IfOk, IfSome};
ghost use Rattle.std.specs.Arc.{arc_value};
ghost use Rattle.ack_receipt.specs.Reservations.{asked_of};
ghost use Rattle.event_modes.specs.Reading.{meaning};
ghost use Rattle.tag_pattern.specs.Prefixes.{entered_tag};
ghost use Rattle.relay_ports.specs.Leaves.{IsRoutedTo, leaf_of};

use ack_receipt::Leaf;
use event_modes::Message;
use relay_conf::{BufferNo, ScopeNo};
use route_graph::{Routes, Way};
use std::alloc::{AllocError, Allocator};
use std::marker::Model;
use std::sync::Arc;
use tag_pattern::{Prefix, Tag, TagError};

/// What a source makes of messages: the relay's number and where its events go, the scope that they
/// come into, and the prefix that their tags get, if any.
pub struct Inlet<A: Allocator> {
    number: u32,
    routes: Arc<Routes<A>, A>,
    scope: ScopeNo,
    prefix: Option<Prefix<A>>,
}

// By hand, so that crates above don't prove again how its parts end.
impl<A: Allocator> Drop for Inlet<A> {
    fn drop(self) {
        let Inlet {
            number: _,
            routes: _,
            scope: _,
            prefix: _,
        } = self;
    }
}

impl<A: Allocator> Model for Inlet<A> {
    ghost use Rattle.std.specs.Arc.{arc_value};
    ghost use Rattle.relay_ports.specs.Leaves.{Entry};

    ghost Value = { Entry };

    ghost view = { λ i. record {
      number = i.number;
      table = arc_value i.routes;
      scope = i.scope.0;
      prefix = i.prefix;
    } };
}

/// Where a message goes: the tag that its entries are stored under, and the buffers that have to
/// store it before it is answered, by their places in the relay and as leaves of a delivery.
#[derive(Drop)]
pub struct Branches<A: Allocator> {
    pub tag: Tag<A>,
    pub buffers: Vec<BufferNo, A>,
    pub leaves: Vec<Leaf, A>,
}

impl<A: Allocator + Copy> Inlet<A> {
    /// A source of the relay with this number, whose events go so.
    pub fn new(
        number: u32,
        routes: Arc<Routes<A>, A>,
        scope: ScopeNo,
        prefix: Option<Prefix<A>>,
    ) -> Inlet<A>
        ensures { result ≡ record {
          number = number;
          table = arc_value routes;
          scope = scope.0;
          prefix = prefix;
        } }
    {
        Inlet {
            number,
            routes,
            scope,
            prefix,
        }
    }

    /// The relay's number.
    pub fn number(&self) -> u32
        ensures { result ≡ self.now.number }
    {
        self.number
    }

    /// Where a message goes. One without entries goes nowhere; `None` where no delivery of it is to
    /// begin, since its way is a loop, or its tag is too long with the prefix.
    ///
    /// The error is want of memory.
    pub fn branches<B: Allocator>(
        &self,
        alloc: A,
        message: &Message<B>,
    ) -> Result<Option<Branches<A>>, AllocError>
        ensures leaves { IfOk result
            (λ found. IfSome found
            (λ branches. IsRoutedTo self.now
            (asked_of (meaning message.now)) branches.tag branches.leaves.items)) }
        ensures buffers { IfOk result
            (λ found. IfSome found
            (λ branches. (0 < length message.now.entries) ⊎ (branches.buffers.items ≡ []))) }
        // Its leaves are its buffers, in their order.
        ensures same { IfOk result
            (λ found. IfSome found
            (λ branches. branches.leaves.items
            ≡ map (leaf_of self.now.number) branches.buffers.items)) }
    {
        let Some(tag) = self.entered(alloc, &message.tag)? else {
            return Ok(None);
        };
        if message.entries.count() == 0 {
            return Ok(Some(Branches {
                tag,
                buffers: Vec::new(alloc),
                leaves: Vec::new(alloc),
            }));
        }
        match self.routes.way(self.scope, &tag)? {
            Way::Loop => Ok(None),
            Way::Leaves(buffers) => self.branches_to(alloc, tag, buffers),
        }
    }

    // The tag of an event that came in with this one; `None` where it is too long.
    fn entered(&self, alloc: A, tag: &[u8]) -> Result<Option<Tag<A>>, AllocError>
        ensures { IfOk result
            (λ found. IfSome found (λ entered. entered ≡ entered_tag self.now.prefix tag.now)) }
    {
        let tag = match Tag::read(alloc, tag) {
            Ok(tag) => tag,
            Err(TagError::TagTooLong) => return Ok(None),
            Err(TagError::Memory) => return Err(AllocError),
        };
        match &self.prefix {
            None => Ok(Some(tag)),
            Some(prefix) => match tag.prefixed(alloc, prefix) {
                Ok(tag) => Ok(Some(tag)),
                Err(TagError::TagTooLong) => Ok(None),
                Err(TagError::Memory) => Err(AllocError),
            },
        }
    }

    // The same buffers as leaves; `None` where one has no number of a leaf.
    fn branches_to(
        &self,
        alloc: A,
        tag: Tag<A>,
        buffers: Vec<BufferNo, A>,
    ) -> Result<Option<Branches<A>>, AllocError>
        ensures { IfOk result
            (λ found. IfSome found
            (λ branches. (branches.tag ≡ tag)
            × (branches.leaves.items ≡ map (leaf_of self.now.number) buffers.items)
            × (branches.buffers ≡ buffers))) }
    {
        let mut leaves = Vec::with_capacity(alloc, buffers.len())?;
        for buffer in &buffers {
            let Ok(number) = u32::try_from(buffer.0) else {
                return Ok(None);
            };
            leaves.push(Leaf {
                relay: self.number,
                buffer: number,
            })?;
        }
        Ok(Some(Branches {
            tag,
            buffers,
            leaves,
        }))
    }
}
