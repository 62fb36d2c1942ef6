//! HELO, PING and PONG as they are read: texts may be str or bin, and what the protocol doesn't ask
//! for is passed over.

ghost use Rattle.std.specs.Prelude.{◌≡◌, ℕ, List, IfSome, IsSomeAnd};
ghost use Rattle.auth_handshake.specs.Messages.{Asked, Told, IsHelo, IsPing, IsPong};
ghost use Rattle.auth_handshake.specs.Readings.{AreTexts, asked, told};

use msgpack_bytes::{after_text, array_of, is_item, last_value, next_bool, next_text, str_or_bin};

// What a PING says: the client's host name, its salt, and its digest.
#[derive(Clone, Copy)]
pub struct PingItem<'a> {
    pub host: &'a [u8],
    pub salt: &'a [u8],
    pub digest: &'a [u8],
}

// What a PONG says: whether the client is let in, why not, the server's host name, and its digest.
#[derive(Clone, Copy)]
pub struct PongItem<'a> {
    pub accepted: bool,
    pub reason: &'a [u8],
    pub host: &'a [u8],
    pub digest: &'a [u8],
}

/// What the item says if it is a HELO: the nonce.
pub fn helo_nonce(item: &[u8]) -> Option<&[u8]>
    ensures right { IfSome result (λ nonce. IsHelo item.now nonce.now) }
    ensures only { (nonce : List ℕ) → IsHelo item.now nonce
        → IsSomeAnd result (λ found. found.now ≡ nonce) }
{
    if !is_item(item) {
        return None;
    }
    let options = after_text(array_of(item, 2)?, b"HELO")?;
    if !is_item(options) {
        return None;
    }
    str_or_bin(last_value(options, b"nonce")?)
}

/// Likewise a PING.
pub fn ping_of(item: &[u8]) -> Option<PingItem<'_>>
    ensures right { IfSome result (λ found. IsPing item.now (asked found)) }
    ensures only { (says : Asked) → IsPing item.now says
        → IsSomeAnd result (λ found. asked found ≡ says) }
{
    if !is_item(item) {
        return None;
    }
    let rest = after_text(array_of(item, 6)?, b"PING")?;
    let (host, salt, digest, rest) = three_texts(rest)?;
    let (_user, rest) = next_text(rest)?;
    let (_password, rest) = next_text(rest)?;
    if rest.is_empty() {
        Some(PingItem { host, salt, digest })
    } else {
        None
    }
}

/// Likewise a PONG.
pub fn pong_of(item: &[u8]) -> Option<PongItem<'_>>
    ensures right { IfSome result (λ found. IsPong item.now (told found)) }
    ensures only { (says : Told) → IsPong item.now says
        → IsSomeAnd result (λ found. told found ≡ says) }
{
    if !is_item(item) {
        return None;
    }
    let rest = after_text(array_of(item, 5)?, b"PONG")?;
    let (accepted, rest) = next_bool(rest)?;
    let (reason, host, digest, rest) = three_texts(rest)?;
    if rest.is_empty() {
        Some(PongItem {
            accepted,
            reason,
            host,
            digest,
        })
    } else {
        None
    }
}

// The contents of the three texts that the bytes begin with, and what is behind them.
fn three_texts(bytes: &[u8]) -> Option<(&[u8], &[u8], &[u8], &[u8])>
    ensures right { IfSome result
        (λ found. AreTexts bytes.now found.0.now found.1.now found.2.now found.3.now) }
    ensures only { (x y z back : List ℕ) → AreTexts bytes.now x y z back
        → IsSomeAnd result (λ found. (found.0.now ≡ x) × (found.1.now ≡ y) × (found.2.now ≡ z)
        × (found.3.now ≡ back)) }
{
    let Some((first, rest)) = next_text(bytes) else {
        return None;
    };
    let Some((second, rest)) = next_text(rest) else {
        return None;
    };
    let Some((third, rest)) = next_text(rest) else {
        return None;
    };
    Some((first, second, third, rest))
}
