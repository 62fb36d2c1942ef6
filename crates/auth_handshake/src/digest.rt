//! The digests by which both ends show that they have the key.

ghost use Rattle.std.specs.Prelude.{◌≡◌, ◌↔◌, IsTrue};
ghost use Rattle.auth_handshake.specs.Digest.{digest_of};

use sha2::{Digest, Sha512};

/// The lower-case hex of SHA-512 (FIPS 180-4) of salt, host name, nonce and shared key, one behind
/// the other (Fluentd Forward Protocol v1, "Handshake Messages", `shared_key_hexdigest`).
pub fn digest_hex(salt: &[u8], host: &[u8], nonce: &[u8], key: &[u8]) -> [u8; 128]
    ensures { result ≡ digest_of salt.now host.now nonce.now key.now }
{
    let mut hasher = Sha512::new();
    hasher.update(salt);
    hasher.update(host);
    hasher.update(nonce);
    hasher.update(key);
    let digest = hasher.finalize();
    let mut text = [0; 128];
    let written = hex::encode_to_slice(&digest, &mut text);
    prove!(written.is_ok());
    text
}

/// Whether the digests are the same. Every byte is looked at, wherever the first difference is:
/// so the time that this takes doesn't tell how much of a digest was guessed.
pub fn is_same(digest: &[u8], expected: &[u8; 128]) -> bool
    ensures { IsTrue result ↔ (digest.now ≡ expected.now) }
{
    if digest.len() != expected.len() {
        return false;
    }
    let mut difference = 0;
    for (i, byte) in digest.iter().enumerate() {
        difference |= byte ^ expected[i];
    }
    difference == 0
}
