//! The end that listens.

ghost use Rattle.std.specs.Prelude.{◌≡◌, ◌↔◌, ◌+◌, ◌<◌, ◌≤◌, ◌++◌, ℕ, List, length};
ghost use Rattle.std.specs.Prelude.{IsTrue, IfOk, OnOk, OnErr, vec_len, vec_capacity};
ghost use Rattle.auth_handshake.specs.declared.answers.Ping.{Ping};
ghost use Rattle.auth_handshake.specs.Written.{helo_bytes};

use crate::answers::{HandshakeFault, Ping};
use crate::digest::{digest_hex, is_same};
use crate::read::{PingItem, ping_of};
use crate::write::{put_helo, put_pong, put_refusal};
use std::alloc::{AllocError, Allocator};
use std::marker::Model;

/// The server's end of one connection's handshake: its host name, the shared key, and a nonce,
/// which is to be new for each connection. Contracts see these three.
#[derive(Drop)]
pub struct Server<A: Allocator> {
    host: Vec<u8, A>,
    key: Vec<u8, A>,
    nonce: [u8; 16],
}

impl<A: Allocator> Model for Server<A> {
    ghost use Rattle.std.specs.Prelude.{vec_len, ◌≤◌};
    ghost use Rattle.auth_handshake.specs.Ends.{ServerEnd, longest_host};

    ghost Value = { ServerEnd };

    ghost view = { λ s. record { host = s.host.items; key = s.key.items; nonce = s.nonce } };

    ghost invariant = { λ s. vec_len s.host ≤ longest_host };
}

impl<A: Allocator> Server<A> {
    ghost use Rattle.auth_handshake.specs.Ends.{IsAnswer, ShowsKey, server_digest, longest_host};
    ghost use Rattle.auth_handshake.specs.Readings.{asked};

    /// A server of this host name, at most 1,024 bytes, and this shared key.
    ///
    /// The error is want of memory.
    pub fn new(alloc: A, host: &[u8], key: &[u8], nonce: [u8; 16]) -> Result<Server<A>, AllocError>
    where
        A: Copy,
        requires { length host.now ≤ longest_host }
        ensures { IfOk result (λ server.
            server ≡ record { host = host.now; key = key.now; nonce = nonce }) }
    {
        Ok(Server {
            host: Vec::from_slice(alloc, host)?,
            key: Vec::from_slice(alloc, key)?,
            nonce,
        })
    }

    /// Appends the HELO, 48 bytes, which the server sends first.
    ///
    /// The error is want of memory, and leaves `out` as it was.
    pub fn hello<B: Allocator>(&self, out: &mut Vec<u8, B>) -> Result<(), AllocError>
        ensures ok { OnOk result (out.new.items ≡ out.old.items ++ helo_bytes self.now.nonce) }
        ensures err { OnErr result (out.new.items ≡ out.old.items) }
        ensures full { OnErr result (vec_capacity out.old
            < vec_len out.old + length (helo_bytes self.now.nonce)) }
    {
        put_helo(out, &self.nonce)
    }

    /// Answers the client's item, and appends the PONG that says so. A PING with the digest that
    /// the shared key gives is `Passed`, one with another digest is refused as `WrongDigest`, and
    /// what is no PING as `NotPing`.
    ///
    /// Host names, salts and digests may be str or bin. User name and password may be any texts.
    /// The error is want of memory, and leaves `out` as it was.
    pub fn ping<B: Allocator>(&self, item: &[u8], out: &mut Vec<u8, B>) -> Result<Ping, AllocError>
        // What is answered holds of the item, and the PONG is appended.
        ensures right { IfOk result
            (λ answer. (pong : List ℕ) × IsAnswer self.now item.now answer pong
            × (out.new.items ≡ out.old.items ++ pong)) }
        // Nothing else does.
        ensures only { IfOk result (λ answer. (other : Ping) (pong : List ℕ)
            → IsAnswer self.now item.now other pong → other ≡ answer) }
        ensures err { OnErr result (out.new.items ≡ out.old.items) }
        ensures full { OnErr result
            ((answer : Ping) × (pong : List ℕ) × IsAnswer self.now item.now answer pong
            × (vec_capacity out.old < vec_len out.old + length pong)) }
    {
        let Some(ping) = ping_of(item) else {
            put_refusal(out, b"invalid ping")?;
            return Ok(Ping::Refused(HandshakeFault::NotPing));
        };
        if !self.is_shown_key(ping) {
            put_refusal(out, b"shared_key mismatch")?;
            return Ok(Ping::Refused(HandshakeFault::WrongDigest));
        }
        put_pong(out, &self.host, &self.digest_for(ping))?;
        Ok(Ping::Passed)
    }

    // Whether the PING's digest is the one that the shared key gives.
    fn is_shown_key(&self, ping: PingItem<'_>) -> bool
        ensures { IsTrue result ↔ ShowsKey self.now (asked ping.entry) }
    {
        let expected = digest_hex(ping.salt, ping.host, &self.nonce, &self.key);
        is_same(ping.digest, &expected)
    }

    // The digest by which the server shows that it has the key too.
    fn digest_for(&self, ping: PingItem<'_>) -> [u8; 128]
        ensures { result ≡ server_digest self.now (asked ping.entry) }
    {
        digest_hex(ping.salt, &self.host, &self.nonce, &self.key)
    }
}
