//! What an item's header says.

ghost use Rattle.std.specs.Prelude.{ℕ, ◌≡◌, ◌+◌, ◌-◌, ◌<◌, ◌≤◌, length, drop, Option};
ghost use Rattle.msgpack_bytes.specs.Answers.{IsHead};
ghost use Rattle.msgpack_bytes.specs.Format.{shape_of};
ghost use Rattle.msgpack_bytes.specs.Reads.{IsFitShape, IsFixedFit, content_in, count_in, head_by, scalar_head};
ghost use Rattle.msgpack_bytes.specs.declared.answers.Head.{Head};

use crate::answers::Head;
use crate::format::{Container, Count, Kind, Shape, Span};
use crate::number::{number_at, signed, unsigned};
use crate::table::shape;

/// What stands at `at`: a scalar, where the whole item is there, or an array or a map, where its
/// header is.
///
/// `None` where it isn't, and where no item begins with the byte at `at`.
pub fn head(bytes: &[u8], at: usize) -> Option<Head>
    ensures right { IsHead bytes.now at result }
    ensures only { (other : Option Head) → IsHead bytes.now at other → other ≡ result }
{
    let first = *bytes.get(at)?;
    read(bytes, at + 1, first, shape(first))
}

// The head of an item with this first byte, whose shape it is; `start` is behind it.
fn read(bytes: &[u8], start: usize, first: u8, shape: Shape) -> Option<Head>
    requires start { start ≤ length bytes.now }
    requires fit { IsFitShape first shape }
    ensures { result ≡ head_by shape first bytes.now start (drop start bytes.now) }
{
    match shape {
        Shape::Fixed { kind, .. } | Shape::Sized { kind, .. } => {
            let content = content(bytes, start, shape)?;
            Some(scalar(kind, first, bytes, content))
        }
        Shape::Holds { container, .. } | Shape::Counted { container, .. } => {
            let Count { count, next } = count(bytes, start, shape)?;
            Some(match container {
                Container::Array => Head::Array { count, next },
                Container::Map => Head::Map { count, next },
            })
        }
        Shape::Never => None,
    }
}

// The content of a scalar of this shape, where all of it is there; the first byte is before
// `start`.
fn content(bytes: &[u8], start: usize, shape: Shape) -> Option<Span>
    requires start { start ≤ length bytes.now }
    requires fit { (first : ℕ) × IsFitShape first shape }
    ensures { result ≡ content_in shape start (drop start bytes.now) }
{
    let (width, size) = match shape {
        Shape::Fixed { size, .. } => (0, size),
        Shape::Sized { width, extra, .. } => (
            width,
            number_at(bytes, start, width) as usize + extra,
        ),
        _ => return None,
    };
    if bytes.len() - start < width + size {
        return None;
    }
    let start = start + width;
    Some(Span {
        start,
        end: start + size,
    })
}

// The count of a container of this shape, where all of it is there.
fn count(bytes: &[u8], start: usize, shape: Shape) -> Option<Count>
    requires start { start ≤ length bytes.now }
    requires fit { (first : ℕ) × IsFitShape first shape }
    ensures { result ≡ count_in shape start (drop start bytes.now) }
{
    match shape {
        Shape::Holds { count, .. } => Some(Count { count, next: start }),
        Shape::Counted { width, .. } if width <= bytes.len() - start => {
            Some(Count {
                count: number_at(bytes, start, width),
                next: start + width,
            })
        }
        _ => None,
    }
}

// The head of a scalar with this first byte and this content.
fn scalar(kind: Kind, first: u8, bytes: &[u8], content: Span) -> Head
    requires order { content.start ≤ content.end }
    requires within { content.end ≤ length bytes.now }
    requires fit { IsFixedFit first kind (content.end - content.start) }
    ensures { result ≡ scalar_head kind first bytes.now content }
{
    let Span { start, end } = content;
    match kind {
        Kind::Nil => Head::Nil,
        Kind::Bool => Head::Bool(first == 0xc3),
        Kind::PositiveFixint => Head::Int(i128::from(first)),
        Kind::NegativeFixint => Head::Int(i128::from(first) - 0x100),
        Kind::Unsigned => Head::Int(i128::from(unsigned(&bytes[start..end]))),
        Kind::Signed => Head::Int(signed(&bytes[start..end])),
        Kind::Float => Head::Float,
        Kind::Str => Head::Str { start, end },
        Kind::Bin => Head::Bin { start, end },
        Kind::Ext => Head::Ext {
            kind: bytes[start],
            start: start + 1,
            end,
        },
    }
}
