//! The end that connects.

ghost use Rattle.std.specs.Prelude.{◌≡◌, ◌↔◌, ◌⊎◌, ◌≤◌, ◌++◌, ℕ, List, length, Some, None, Result};
ghost use Rattle.std.specs.Prelude.{IsSome, IsTrue, IfOk, OnOk, IfErr, OnErr, IsErrOf};
ghost use Rattle.auth_handshake.specs.declared.answers.HandshakeFault.{HandshakeFault};
ghost use Rattle.auth_handshake.specs.Messages.{IsHelo};
ghost use Rattle.auth_handshake.specs.Written.{ping_bytes};

use crate::answers::{HandshakeFault, HeloError};
use crate::digest::{digest_hex, is_same};
use crate::read::{PongItem, helo_nonce, pong_of};
use crate::write::put_ping;
use std::alloc::{AllocError, Allocator};
use std::marker::Model;

/// The client's end of one connection's handshake: its host name, the shared key, a salt, which is
/// to be new for each connection, and the server's nonce once its HELO was taken. Contracts see
/// these four.
#[derive(Drop)]
pub struct Client<A: Allocator> {
    host: Vec<u8, A>,
    key: Vec<u8, A>,
    salt: [u8; 16],
    nonce: Option<Vec<u8, A>>,
}

impl<A: Allocator> Model for Client<A> {
    ghost use Rattle.std.specs.Prelude.{vec_len, ◌≤◌, option_map};
    ghost use Rattle.auth_handshake.specs.Ends.{ClientEnd, longest_host};

    ghost Value = { ClientEnd };

    ghost view = { λ c. record {
      host = c.host.items;
      key = c.key.items;
      salt = c.salt;
      nonce = option_map (λ nonce. nonce.items) c.nonce;
    } };

    ghost invariant = { λ c. vec_len c.host ≤ longest_host };
}

impl<A: Allocator> Client<A> {
    ghost use Rattle.auth_handshake.specs.Ends.{IsUnderName, IsVerdict, KnowsKey, client_digest, longest_host};
    ghost use Rattle.auth_handshake.specs.Readings.{told};

    /// A client of this host name, at most 1,024 bytes, and this shared key.
    ///
    /// The error is want of memory.
    pub fn new(alloc: A, host: &[u8], key: &[u8], salt: [u8; 16]) -> Result<Client<A>, AllocError>
    where
        A: Copy,
        requires { length host.now ≤ longest_host }
        ensures { IfOk result (λ client.
            client ≡ record { host = host.now; key = key.now; salt = salt; nonce = None }) }
    {
        Ok(Client {
            host: Vec::from_slice(alloc, host)?,
            key: Vec::from_slice(alloc, key)?,
            salt,
            nonce: None,
        })
    }

    /// Takes the server's HELO, whose last nonce counts, and appends the PING.
    /// Other options are not looked at. A later HELO takes the place of an earlier one.
    ///
    /// The fault is `NotHelo`, and comes exactly for an item that is none.
    /// The only other error is want of memory. Each leaves the client and `out` as they were.
    pub fn helo<B: Allocator>(&mut self, item: &[u8], out: &mut Vec<u8, B>) -> Result<(), HeloError>
    where
        A: Copy,
        ensures ok { OnOk result ((nonce : List ℕ) × IsHelo item.now nonce
            × (self.new ≡ record self.old { nonce = Some nonce })
            × (out.new.items ≡ out.old.items
            ++ ping_bytes self.old.host self.old.salt (client_digest self.old nonce))) }
        ensures not_helo { IsErrOf result (HeloError.Fault HandshakeFault.NotHelo)
            ↔ ((nonce : List ℕ) → IsHelo item.now nonce → ⊥) }
        ensures only { IfErr result (λ e. (e ≡ HeloError.Fault HandshakeFault.NotHelo)
            ⊎ (e ≡ HeloError.Memory)) }
        ensures client { OnErr result (self.new ≡ self.old) }
        ensures err { OnErr result (out.new.items ≡ out.old.items) }
    {
        let Some(nonce) = helo_nonce(item) else {
            return Err(HeloError::Fault(HandshakeFault::NotHelo));
        };
        let kept = Vec::from_slice(*self.host.allocator(), nonce)?;
        let digest = digest_hex(&self.salt, &self.host, nonce, &self.key);
        put_ping(out, &self.host, &self.salt, &digest)?;
        self.nonce = Some(kept);
        Ok(())
    }

    /// Says whether the server's item is a PONG that lets the client in, with the digest that the
    /// shared key gives. It takes no memory. A HELO has to be taken before.
    ///
    /// What is no PONG is `NotPong`, a PONG of false is `RefusedByServer`, and one of true with
    /// another digest is `WrongDigest`.
    pub fn pong(&self, item: &[u8]) -> Result<(), HandshakeFault>
        requires { IsSome self.now.nonce }
        // What is answered holds of the item.
        ensures right { IsVerdict self.now item.now result }
        // Nothing else does.
        ensures only { (other : Result Unit HandshakeFault) → IsVerdict self.now item.now other
            → other ≡ result }
    {
        let Some(pong) = pong_of(item) else {
            return Err(HandshakeFault::NotPong);
        };
        if !pong.accepted {
            Err(HandshakeFault::RefusedByServer)
        } else if self.is_known_key(pong) {
            Ok(())
        } else {
            Err(HandshakeFault::WrongDigest)
        }
    }

    /// Whether the item is a PONG under the client's own name. Whoever has no key can send the
    /// client's own digest back under it.
    pub fn has_own_name(&self, item: &[u8]) -> bool
        ensures { IsTrue result ↔ IsUnderName item.now self.now.host }
    {
        match pong_of(item) {
            Some(pong) => pong.host == self.host.as_slice(),
            None => false,
        }
    }

    // Whether the PONG's digest is the one that the shared key gives.
    fn is_known_key(&self, pong: PongItem<'_>) -> bool
        ensures { IsTrue result ↔ KnowsKey self.now (told pong.entry) }
    {
        match &self.nonce {
            Some(nonce) => {
                let expected = digest_hex(&self.salt, pong.host, nonce, &self.key);
                is_same(pong.digest, &expected)
            }
            None => false,
        }
    }
}
