//! Where an item ends whose bytes are all at hand.

ghost use Rattle.std.specs.Prelude.{true, ◌≡◌, ◌+◌, ◌≤◌, length, IfSome};
ghost use Rattle.msgpack_bytes.specs.declared.answers.Scan.{Scan};
ghost use Rattle.msgpack_bytes.specs.declared.format.ScanStep.{ScanStep};
ghost use Rattle.msgpack_bytes.specs.Item.{longest};
ghost use Rattle.msgpack_bytes.specs.Answers.{IsScanned};
ghost use Rattle.msgpack_bytes.specs.Steps.{step_of};

use crate::answers::{PieceScan, Scan};
use crate::format::Told;
use crate::scanner::{DEEPEST, LONGEST, Scanner};
use crate::steps::{single, tell};

/// Where the item at `at` ends, if one stands there, or can once more bytes are there.
///
/// An item has at most 16,777,216 bytes, and at most 64 containers stand one in another.
/// `Bad` is answered as soon as no continuation is an item within these limits.
pub fn scan(bytes: &[u8], at: usize) -> Scan
    requires { at ≤ length bytes.now }
    ensures right { IsScanned bytes.now at result }
    ensures only { (other : Scan) → IsScanned bytes.now at other → other ≡ result }
{
    let (_, rest) = bytes.split_at(at);
    match scan_front(rest) {
        Scan::End(end) => Scan::End(at + end),
        Scan::Need => Scan::Need,
        Scan::Bad(fault) => Scan::Bad(fault),
    }
}

// Where the item ends that the bytes begin with. What has no end here has been looked at in vain,
// and is for the scanner.
#[inline(always)]
fn scan_front(bytes: &[u8]) -> Scan
    ensures { IsScanned bytes.now 0 result }
{
    match item_end(bytes) {
        Some(end) => Scan::End(end),
        None => scan_anew(bytes),
    }
}

// The same by a scanner of pieces, with all bytes as the only piece.
#[inline(never)]
fn scan_anew(bytes: &[u8]) -> Scan
    ensures { IsScanned bytes.now 0 result }
{
    let mut scanner = Scanner::new();
    match scanner.take(bytes) {
        PieceScan::End(end) => Scan::End(end),
        PieceScan::Need => Scan::Need,
        PieceScan::Bad(fault) => Scan::Bad(fault),
    }
}

/// The index behind the item that the bytes begin with, which is whole where one is given; of other
/// bytes `scan` says more.
#[inline(always)]
pub fn item_end(bytes: &[u8]) -> Option<usize>
    ensures { IfSome result (λ end. IsScanned bytes.now 0 (Scan.End end)) }
{
    if bytes.is_empty() {
        return None;
    }
    let limit = bytes.len().min(LONGEST);
    match tell(bytes, 0) {
        Told::Scalar(size) if size <= limit => Some(size),
        Told::Container { items, width } if 1 + width + items as usize <= limit => {
            items_end(bytes, 1 + width, items as u32)
        }
        _ => None,
    }
}

// The end of the container that the bytes begin with, whose header has `size` bytes, and which has
// so many items, if it is whole.
#[inline(never)]
fn items_end(bytes: &[u8], size: usize, items: u32) -> Option<usize>
    requires opens { ScanStep.Opens items size ≡ step_of true bytes.now }
    requires short { size + items ≤ longest }
    requires there { size + items ≤ length bytes.now }
    ensures { IfSome result (λ end. IsScanned bytes.now 0 (Scan.End end)) }
{
    // How many items each level still lacks outside the innermost, of which there are at most so
    // many; a fixed stack, so that no input asks for memory.
    let mut missing = [0; DEEPEST];
    let mut levels = 2;
    // What the innermost level still lacks.
    let mut left = items;
    // Where the innermost level has to end, so that each item that is missing outside it has room
    // for one byte, both in what is there and in the longest item.
    let mut limit = bytes.len().min(LONGEST);
    let mut i = size;
    loop {
        if left == 0 {
            levels -= 1;
            if levels == 0 {
                return Some(i);
            }
            left = missing[levels - 1];
            limit += left as usize;
        } else {
            left -= 1;
            if single(bytes, i) {
                i += 1;
            } else {
                match tell(bytes, i) {
                    Told::Scalar(size) if i + size + left as usize <= limit => {
                        i += size;
                    }
                    Told::Container { items, width }
                        if levels <= DEEPEST
                            && i + 1 + width + left as usize + items as usize <= limit => {
                        missing[levels - 1] = left;
                        levels += 1;
                        limit -= left as usize;
                        left = items as u32;
                        i += 1 + width;
                    }
                    _ => return None,
                }
            }
        }
    }
}
