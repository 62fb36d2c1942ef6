//! Bytes that are to be sent.

ghost use Rattle.std.specs.Prelude.{◌≡◌, ◌≤◌, ◌<◌, ◌^◌, ◌⊎◌, ◌↔◌, ◌++◌, ℕ, List, [], length, drop, vec_len, option_map, Some, OnOk, OnErr, IfErr, IsErrOf};
ghost use Rattle.std.specs.List.{concat};
ghost use Rattle.auth_handshake.specs.declared.answers.HandshakeFault.{HandshakeFault};
ghost use Rattle.auth_handshake.specs.Messages.{IsHelo};
ghost use Rattle.auth_handshake.specs.Written.{ping_bytes};
ghost use Rattle.auth_handshake.specs.Ends.{client_digest};
ghost use Rattle.event_modes.specs.ChunkIds.{chunk_text};
ghost use Rattle.event_modes.specs.Message.{longest_tag};
ghost use Rattle.event_modes.specs.Packed.{packed_message};

use auth_handshake::{Client, HandshakeFault, HeloError};
use event_modes::{ChunkId, Entries, drop_front, put_packed};
use std::alloc::{AllocError, Allocator};
use std::marker::Model;

/// Bytes to be sent, in order. Contracts see the list of those that were not sent yet.
#[derive(Drop)]
pub struct Outbox<A: Allocator> {
    bytes: Vec<u8, A>,
    // Where the unsent bytes begin: sending a few moves none of the others.
    start: usize,
}

impl<A: Allocator> Model for Outbox<A> {
    ghost use Rattle.std.specs.Prelude.{ℕ, List, drop, ◌≤◌, vec_len};

    ghost Value = { List ℕ };

    ghost view = { λ o. drop o.start o.bytes.items };

    ghost invariant = { λ o. o.start ≤ vec_len o.bytes };
}

impl<A: Allocator> Outbox<A> {
    /// Nothing is to be sent.
    pub fn new(alloc: A) -> Self
        ensures { result ≡ [] }
    {
        Outbox {
            bytes: Vec::new(alloc),
            start: 0,
        }
    }

    /// What is to be sent.
    pub fn as_slice(&self) -> &[u8]
        ensures { result.now ≡ self.now }
    {
        self.bytes.split_at(self.start).1
    }

    /// The first n bytes were sent.
    pub fn sent(&mut self, n: usize)
        requires { n ≤ length self.old }
        ensures { self.new ≡ drop n self.old }
    {
        self.start += n;
        // At least as many bytes are dropped as are moved.
        if self.bytes.len() - self.start <= self.start {
            drop_front(&mut self.bytes, self.start);
            self.start = 0;
        }
    }

    /// More is to be sent. The error is want of memory, and changes nothing.
    pub fn append(&mut self, bytes: &[u8]) -> Result<(), AllocError>
        ensures ok { OnOk result (self.new ≡ self.old ++ bytes.now) }
        ensures err { OnErr result (self.new ≡ self.old) }
    {
        self.bytes.extend_from_slice(bytes)
    }

    /// Takes a HELO, and the client's PING is to be sent. Each error changes neither.
    pub fn helo<B: Allocator + Copy>(
        &mut self,
        client: &mut Client<B>,
        item: &[u8],
    ) -> Result<(), HeloError>
        ensures ok { OnOk result ((nonce : List ℕ) × IsHelo item.now nonce
            × (client.new ≡ record client.old { nonce = Some nonce })
            × (self.new ≡ self.old ++ ping_bytes client.old.host client.old.salt
            (client_digest client.old nonce))) }
        ensures not_helo { IsErrOf result (HeloError.Fault HandshakeFault.NotHelo)
            ↔ ((nonce : List ℕ) → IsHelo item.now nonce → ⊥) }
        ensures only { IfErr result
            (λ e. (e ≡ HeloError.Fault HandshakeFault.NotHelo) ⊎ (e ≡ HeloError.Memory)) }
        ensures client { OnErr result (client.new ≡ client.old) }
        ensures err { OnErr result (self.new ≡ self.old) }
    {
        client.helo(item, &mut self.bytes)
    }

    /// The message with these entries is to be sent. The error is want of memory, and changes
    /// nothing.
    pub fn packed<B: Allocator>(
        &mut self,
        tag: &[u8],
        entries: &Entries<B>,
        chunk: Option<ChunkId>,
    ) -> Result<(), AllocError>
        requires tag { length tag.now ≤ longest_tag }
        requires entries { length (concat entries.now) < 2 ^ 32 }
        ensures ok { OnOk result (self.new ≡ self.old
            ++ packed_message tag.now entries.now (option_map chunk_text chunk)) }
        ensures err { OnErr result (self.new ≡ self.old) }
    {
        match &chunk {
            Some(id) => put_packed(&mut self.bytes, tag, entries, Some(id)),
            None => put_packed(&mut self.bytes, tag, entries, None),
        }
    }
}
