//! Tags: what an event is routed by.

ghost use Rattle.std.specs.Prelude.{◌≡◌, ◌<◌, ◌≤◌, ◌↔◌, length, IfOk};
ghost use Rattle.tag_pattern.specs.Parts.{most_tag_bytes};
ghost use Rattle.tag_pattern.specs.Prefixes.{prefixed_tag};

use crate::prefix::Prefix;
use std::alloc::{AllocError, Allocator};
use std::marker::Model;
use thiserror::Error;

/// The greatest length of a tag, in bytes.
pub const MOST_TAG_BYTES: usize = 1_024;

/// Why a byte text is no tag.
#[derive(Clone, Copy, Debug, Drop, PartialEq, Eq, Error)]
pub enum TagError {
    /// It has more than 1,024 bytes.
    #[error("P1")]
    TagTooLong,
    /// Memory ran out.
    #[error("memory")]
    Memory,
}

impl From<AllocError> for TagError {
    ghost use Rattle.std.specs.Prelude.{◌≡◌};
    ghost use Rattle.tag_pattern.specs.declared.tag.TagError.TheVariants.{Memory};

    ghost from_gives = { λ _ e. e ≡ Memory };

    fn from(_refused: AllocError) -> TagError {
        TagError::Memory
    }
}

/// A tag: at most 1,024 bytes of any kind. To contracts it is its bytes.
pub struct Tag<A: Allocator> {
    bytes: Vec<u8, A>,
}

// By hand, so that crates above don't prove again how its parts end.
impl<A: Allocator> Drop for Tag<A> {
    fn drop(self) {
        let Tag { bytes: _ } = self;
    }
}

impl<A: Allocator> Model for Tag<A> {
    ghost use Rattle.std.specs.Prelude.{ℕ, ◌≤◌, List, length};
    ghost use Rattle.tag_pattern.specs.Parts.{most_tag_bytes};

    ghost Value = { List ℕ };

    ghost view = { λ tag. tag.bytes.items };

    ghost invariant = { λ tag. length tag.bytes.items ≤ most_tag_bytes };
}

impl<A: Allocator> Tag<A> {
    /// The tag of these bytes. A text of more than 1,024 bytes is `TagTooLong`; the only other
    /// error is `Memory`.
    pub fn read(alloc: A, bytes: &[u8]) -> Result<Tag<A>, TagError>
        ensures tag { IfOk result (λ tag. tag ≡ bytes.now) }
        ensures too_long { (result ≡ Err TagError.TagTooLong)
            ↔ (most_tag_bytes < length bytes.now) }
    {
        if bytes.len() > MOST_TAG_BYTES {
            return Err(TagError::TagTooLong);
        }
        Ok(Tag {
            bytes: Vec::from_slice(alloc, bytes)?,
        })
    }

    /// The same tag, in memory of its own.
    pub fn copied<B: Allocator>(&self, alloc: B) -> Result<Tag<B>, AllocError>
        ensures { IfOk result (λ tag. tag ≡ self.now) }
    {
        Ok(Tag {
            bytes: Vec::from_slice(alloc, &self.bytes)?,
        })
    }

    /// The tag with the prefix and a dot in front, in memory of its own. Where that has more than
    /// 1,024 bytes it is `TagTooLong`; the only other error is `Memory`.
    pub fn prefixed<B: Allocator, C: Allocator>(
        &self,
        alloc: B,
        prefix: &Prefix<C>,
    ) -> Result<Tag<B>, TagError>
        ensures tag { IfOk result (λ tag. tag ≡ prefixed_tag prefix.now self.now) }
        ensures too_long { (result ≡ Err TagError.TagTooLong)
            ↔ (most_tag_bytes < length (prefixed_tag prefix.now self.now)) }
    {
        let front = prefix.as_bytes();
        let length = front.len() + 1 + self.bytes.len();
        if length > MOST_TAG_BYTES {
            return Err(TagError::TagTooLong);
        }
        Ok(Tag {
            bytes: joined(alloc, front, &self.bytes, length)?,
        })
    }

    /// The tag's bytes, at most 1,024.
    pub fn as_bytes(&self) -> &[u8]
        ensures bytes { result.now ≡ self.now }
        ensures limit { length self.now ≤ most_tag_bytes }
    {
        &self.bytes
    }
}

// The two with a dot between, in memory of its own with room for so many bytes.
fn joined<A: Allocator>(
    alloc: A,
    front: &[u8],
    back: &[u8],
    room: usize,
) -> Result<Vec<u8, A>, AllocError>
    ensures { IfOk result (λ bytes. bytes.items ≡ prefixed_tag front.now back.now) }
{
    let mut bytes = Vec::with_capacity(alloc, room)?;
    bytes.extend_from_slice(front)?;
    bytes.extend_from_slice(b".")?;
    bytes.extend_from_slice(back)?;
    Ok(bytes)
}
