//! One step of a scan: what stands where an item begins.

ghost use Rattle.std.specs.Prelude.{ℕ, List, ◌≡◌, ◌+◌, ◌<◌, ◌≤◌, length, drop, Bool, IsTrue};
ghost use Rattle.msgpack_bytes.specs.Format.{items_in};
ghost use Rattle.msgpack_bytes.specs.Run.{number};
ghost use Rattle.msgpack_bytes.specs.Steps.{IsNext, IsSmall, IsSmallTold, BeginsSame, step_of, step_told, told_of};

use crate::format::{Container, ScanStep, Told};
use crate::number::number_at;
use crate::table::is_single;

/// The step where the next item begins, of which `came` bytes stood in earlier pieces; the others
/// are those of this piece from `at` on. `front` has the first five of all, with 0 for those that
/// are missing, where some came before. `may_open` says whether a container may stand there.
#[inline(always)]
pub fn next_step(front: &[u8; 5], came: usize, piece: &[u8], at: usize, may_open: bool) -> ScanStep
    requires within { at ≤ length piece.now }
    requires few { came + length piece.now ≤ usize.MAX }
    ensures is { (all : List ℕ) → IsNext front.now came piece.now at all
        → result ≡ step_of may_open all }
    ensures small { IsSmall result }
{
    if came > 0 {
        cut_step(front, came + piece.len(), may_open)
    } else {
        step(piece, at, may_open)
    }
}

// The step of `len` bytes, of which `front` has the first five.
fn cut_step(front: &[u8; 5], len: usize, may_open: bool) -> ScanStep
    requires { 0 < len }
    ensures is { (all : List ℕ) → length all ≡ len → BeginsSame 5 front.now all
        → result ≡ step_of may_open all }
    ensures small { IsSmall result }
{
    step_from(tell(front, 0), len - 1, may_open)
}

/// The step at `at`.
#[inline(always)]
pub fn step(bytes: &[u8], at: usize, may_open: bool) -> ScanStep
    requires { at ≤ length bytes.now }
    ensures is { result ≡ step_of may_open (drop at bytes.now) }
    ensures small { IsSmall result }
{
    if at == bytes.len() {
        return ScanStep::Lacks(1);
    }
    step_from(tell(bytes, at), bytes.len() - at - 1, may_open)
}

// The step where an item's first bytes tell this, of which the first and `left` more are there.
#[inline(always)]
fn step_from(told: Told, left: usize, may_open: bool) -> ScanStep
    requires left { left < usize.MAX }
    requires small { IsSmallTold told }
    ensures is { result ≡ step_told may_open told left }
    ensures small { IsSmall result }
{
    match told {
        Told::Scalar(size) if left + 1 < size => ScanStep::Lacks(size),
        Told::Scalar(size) => ScanStep::Whole(size),
        Told::Container { .. } if !may_open => ScanStep::Deep,
        Told::Container { items, width } if left < width => ScanStep::Lacks(
            1 + width + items as usize,
        ),
        Told::Container { items, width } => ScanStep::Opens {
            items,
            size: 1 + width,
        },
        Told::Nothing => ScanStep::Wrong,
    }
}

/// Whether a scalar of one byte stands at `at`; an empty str is left to `tell`.
#[inline(always)]
pub fn single(bytes: &[u8], at: usize) -> bool
    requires { at < length bytes.now }
    ensures { (may_open : Bool) → IsTrue result
        → ScanStep.Whole 1 ≡ step_of may_open (drop at bytes.now) }
{
    is_single(bytes[at])
}

/// What the item at `at` tells, by the first byte alone or with the bytes of a length or a count
/// behind it.
#[inline(always)]
#[tactic(auto, unfolding(crate::specs::Format::shape_of))]
pub fn tell(bytes: &[u8], at: usize) -> Told
    requires { at < length bytes.now }
    ensures is { result ≡ told_of (drop at bytes.now) }
    ensures small { IsSmallTold result }
{
    let first = bytes[at];
    // A short str, first of all, since most items of a log are such.
    if 0xa0 <= first && first <= 0xbf {
        return Told::Scalar(1 + usize::from(first - 0xa0));
    }
    match first {
        0x00..=0x7f | 0xe0..=0xff | 0xc0 | 0xc2 | 0xc3 => Told::Scalar(1),
        0x80..=0x8f => Told::Container {
            items: 2 * u64::from(first - 0x80),
            width: 0,
        },
        0x90..=0x9f => Told::Container {
            items: u64::from(first - 0x90),
            width: 0,
        },
        0xcc | 0xd0 => Told::Scalar(2),
        0xcd | 0xd1 | 0xd4 => Told::Scalar(3),
        0xd5 => Told::Scalar(4),
        0xca | 0xce | 0xd2 => Told::Scalar(5),
        0xd6 => Told::Scalar(6),
        0xcb | 0xcf | 0xd3 => Told::Scalar(9),
        0xd7 => Told::Scalar(10),
        0xd8 => Told::Scalar(18),
        0xc4 | 0xd9 => sized(bytes, at, 1, 0),
        0xc5 | 0xda => sized(bytes, at, 2, 0),
        0xc6 | 0xdb => sized(bytes, at, 4, 0),
        0xc7 => sized(bytes, at, 1, 1),
        0xc8 => sized(bytes, at, 2, 1),
        0xc9 => sized(bytes, at, 4, 1),
        0xdc => counted(bytes, at, Container::Array, 2),
        0xdd => counted(bytes, at, Container::Array, 4),
        0xde => counted(bytes, at, Container::Map, 2),
        0xdf => counted(bytes, at, Container::Map, 4),
        // c1, since each str was told above.
        _ => Told::Nothing,
    }
}

// A scalar whose length has `width` bytes behind the first one, and whose content has `extra` bytes
// more.
#[inline(always)]
fn sized(bytes: &[u8], at: usize, width: usize, extra: usize) -> Told
    requires at { at < length bytes.now }
    requires width { width ≤ 4 }
    requires extra { extra ≤ 1 }
    ensures is { result
        ≡ Told.Scalar (1 + width + (number width (drop (at + 1) bytes.now) + extra)) }
    ensures small { IsSmallTold result }
{
    Told::Scalar(1 + width + (number_at(bytes, at + 1, width) as usize + extra))
}

// A container whose count has `width` bytes behind the first one.
#[inline(always)]
fn counted(bytes: &[u8], at: usize, container: Container, width: usize) -> Told
    requires at { at < length bytes.now }
    requires width { width ≤ 4 }
    ensures is { result
        ≡ Told.Container (items_in container (number width (drop (at + 1) bytes.now))) width }
    ensures small { IsSmallTold result }
{
    let count = u64::from(number_at(bytes, at + 1, width));
    let items = match container {
        Container::Array => count,
        Container::Map => 2 * count,
    };
    Told::Container { items, width }
}
