//! Prefixes: what a source puts in front of the tags that enter there.

ghost use Rattle.std.specs.Prelude.{◌≡◌, ◌≤◌, ◌↔◌, false, length, IfOk};
ghost use Rattle.std.specs.List.{list_all};
ghost use Rattle.tag_pattern.specs.Prefixes as prefixes;
ghost use Rattle.tag_pattern.specs.Prefixes.{is_prefix_byte};

use std::alloc::{AllocError, Allocator};
use std::marker::Model;
use thiserror::Error;

/// Why a byte text is no prefix.
#[derive(Clone, Copy, Debug, Drop, PartialEq, Eq, Error)]
pub enum PrefixError {
    /// It isn't 1 to 64 ASCII letters, digits, `_`, `-` and `.`.
    #[error("P5")]
    BadPrefix,
    /// Memory ran out.
    #[error("memory")]
    Memory,
}

impl From<AllocError> for PrefixError {
    ghost use Rattle.std.specs.Prelude.{◌≡◌};
    ghost use Rattle.tag_pattern.specs.declared.prefix.PrefixError.TheVariants.{Memory};

    ghost from_gives = { λ _ e. e ≡ Memory };

    fn from(_refused: AllocError) -> PrefixError {
        PrefixError::Memory
    }
}

/// A prefix: 1 to 64 ASCII letters, digits, `_`, `-` and `.`. To contracts it is its bytes.
pub struct Prefix<A: Allocator> {
    bytes: Vec<u8, A>,
}

// By hand, so that crates above don't prove again how its parts end.
impl<A: Allocator> Drop for Prefix<A> {
    fn drop(self) {
        let Prefix { bytes: _ } = self;
    }
}

impl<A: Allocator> Model for Prefix<A> {
    ghost use Rattle.std.specs.Prelude.{◌≡◌, ℕ, true, List};
    ghost use Rattle.tag_pattern.specs.Prefixes.{is_prefix};

    ghost Value = { List ℕ };

    ghost view = { λ prefix. prefix.bytes.items };

    ghost invariant = { λ prefix. is_prefix prefix.bytes.items ≡ true };
}

impl<A: Allocator> Prefix<A> {
    /// The prefix of these bytes. Bytes that are none are `BadPrefix`; the only other error is
    /// `Memory`.
    pub fn read(alloc: A, bytes: &[u8]) -> Result<Prefix<A>, PrefixError>
        ensures prefix { IfOk result (λ prefix. prefix ≡ bytes.now) }
        ensures bad { (result ≡ Err PrefixError.BadPrefix)
            ↔ (prefixes.is_prefix bytes.now ≡ false) }
    {
        if !is_prefix(bytes) {
            return Err(PrefixError::BadPrefix);
        }
        Ok(Prefix {
            bytes: Vec::from_slice(alloc, bytes)?,
        })
    }

    /// The prefix's bytes: 1 to 64.
    pub fn as_bytes(&self) -> &[u8]
        ensures bytes { result.now ≡ self.now }
        ensures limit { length self.now ≤ 64 }
    {
        &self.bytes
    }
}

/// Whether the text is a prefix: 1 to 64 ASCII letters, digits, `_`, `-` and `.`.
pub fn is_prefix(text: &[u8]) -> bool
    ensures { result ≡ prefixes.is_prefix text.now }
{
    (1..=64).contains(&text.len()) && are_prefix_bytes(text)
}

fn are_prefix_bytes(text: &[u8]) -> bool
    ensures { result ≡ list_all is_prefix_byte text.now }
{
    text.iter().all(|b| is_prefix_byte(*b))
}

fn is_prefix_byte(byte: u8) -> bool
    ensures { result ≡ is_prefix_byte byte }
{
    byte.is_ascii_alphanumeric() || matches!(byte, b'_' | b'-' | b'.')
}
