//! What shows that a chunk may leave its buffer.

ghost use Rattle.std.specs.Prelude.{◌≡◌, ◌↔◌, IsSome, IfSome, IsTrue, option_map};
ghost use Rattle.event_modes.specs.ChunkIds.{chunk_text};
ghost use Rattle.event_modes.specs.Acknowledgement.{IsAcknowledgement};
ghost use Rattle.ack_receipt.specs.Claims.{id_of};
ghost use Rattle.ack_receipt.specs.Evidences.{Acknowledged, StoredAs, Written, Expired, IsFor, named, IsOfKind, stored_of};

use crate::claim::Claim;
use crate::takes::{Basis, Takes};
use book_audit::Leaf;
use event_modes::{AckRead, ChunkId, read_ack};
use sink_series::Stored;
use std::alloc::Allocator;
use std::marker::Model;

/// What an evidence shows of a chunk.
#[derive(Drop)]
pub(crate) enum Shown<A: Allocator> {
    /// A receiver acknowledged it.
    Acknowledged(ChunkId),
    /// These entries are in a sink.
    Stored(ChunkId, Stored<A>),
    /// It was sent, and no acknowledgement is required.
    Written(ChunkId),
    /// It was tried for so long that it is given up.
    Expired(ChunkId),
}

/// Evidence that a chunk may leave its buffer. It can be neither copied nor dropped. Contracts see
/// what it shows.
pub struct Evidence<A: Allocator> {
    shown: Shown<A>,
}

impl<A: Allocator> Model for Evidence<A> {
    ghost use Rattle.ack_receipt.specs.Evidences.{Shows};

    ghost Value = { Shows };

    ghost use Rattle.ack_receipt.specs.BookShown.{shows};

    ghost view = { λ e. shows e.shown };
}

impl<A: Allocator> Evidence<A> {
    /// That the chunk was acknowledged, if the bytes are an acknowledgement of its name and nothing
    /// else:
    /// a map whose last `ack` is the name's text, as a str or bin, in any spelling
    /// (Forward Protocol Specification v1, "Response").
    pub fn acknowledged(id: ChunkId, bytes: &[u8]) -> Option<Evidence<A>>
        ensures when { IsSome result ↔ IsAcknowledgement bytes.now (chunk_text id) }
        ensures names { IfSome result (λ evidence. evidence ≡ Acknowledged id) }
    {
        acknowledges(bytes, &id.text()).then(|| Evidence {
            shown: Shown::Acknowledged(id),
        })
    }

    /// That these entries are in a sink, for the chunk of this claim. Whether they are the chunk's,
    /// the purge looks.
    pub fn stored(claim: &Claim<A>, stored: Stored<A>) -> Evidence<A>
        ensures { result ≡ StoredAs (id_of claim.now) stored }
    {
        Evidence {
            shown: Shown::Stored(claim.id(), stored),
        }
    }

    /// That the chunk of this claim was sent to a receiver that isn't asked for an acknowledgement.
    pub fn written(claim: &Claim<A>) -> Evidence<A>
        ensures { result ≡ Written (id_of claim.now) }
    {
        Evidence {
            shown: Shown::Written(claim.id()),
        }
    }

    /// That the chunk of this claim was tried for so long that it is given up.
    pub fn expired(claim: &Claim<A>) -> Evidence<A>
        ensures { result ≡ Expired (id_of claim.now) }
    {
        Evidence {
            shown: Shown::Expired(claim.id()),
        }
    }

    /// Ends an evidence that nobody needs.
    pub fn waste(self) {
        let Evidence { shown: _ } = self;
    }

    // The chunk that it names.
    fn id(&self) -> ChunkId
        ensures { result ≡ named self.now }
    {
        match &self.shown {
            Shown::Acknowledged(id)
            | Shown::Stored(id, _)
            | Shown::Written(id)
            | Shown::Expired(id) => *id,
        }
    }
}

impl<A: Allocator> Evidence<A> {
    // Whether it is for the claimed chunk of the buffer of this name, which takes this.
    pub(crate) fn is_for(&self, leaf: Leaf, takes: &Takes<A>, claim: &Claim<A>) -> bool
        ensures { IsTrue result ↔ IsFor leaf takes.now claim.now self.now }
    {
        claim.leaf() == leaf && self.id() == claim.id() && self.is_of_kind(takes)
    }

    fn is_of_kind(&self, takes: &Takes<A>) -> bool
        ensures { IsTrue result ↔ IsOfKind takes.now self.now }
    {
        match (&self.shown, &takes.basis) {
            (Shown::Acknowledged(_), Basis::Acknowledged) => true,
            (Shown::Stored(_, stored), Basis::Stored(path)) => stored.path() == path.as_slice(),
            (Shown::Written(_), Basis::Written) => true,
            (Shown::Expired(_), _) => takes.expires,
            _ => false,
        }
    }

    // What it shows to be in a sink.
    pub(crate) fn stored_in_sink(&self) -> Option<&Stored<A>>
        ensures { option_map (λ stored. stored.now) result ≡ stored_of self.now }
    {
        match &self.shown {
            Shown::Stored(_, stored) => Some(stored),
            Shown::Acknowledged(_) | Shown::Written(_) | Shown::Expired(_) => None,
        }
    }
}

// Whether the bytes are an acknowledgement of this chunk.
fn acknowledges(bytes: &[u8], chunk: &[u8]) -> bool
    ensures { IsTrue result ↔ IsAcknowledgement bytes.now chunk.now }
{
    match read_ack(bytes) {
        AckRead::Value { start, end, next } => next == bytes.len() && &bytes[start..end] == chunk,
        AckRead::Need | AckRead::Bad(_) => false,
    }
}
