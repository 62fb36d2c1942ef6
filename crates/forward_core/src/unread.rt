//! Bytes that came and were not read yet.

ghost use Rattle.std.specs.Prelude.{◌≡◌, ◌≤◌, ◌↔◌, ◌++◌, [], length, take, drop, IsTrue, IfOk, OnOk, OnErr, MatchOption};
ghost use Rattle.msgpack_bytes.specs.Item.{IsOpen};
ghost use Rattle.msgpack_bytes.specs.Pieces.{IsAfter};

use event_modes::drop_front;
use msgpack_bytes::{PieceScan, Scanner};
use std::alloc::{AllocError, Allocator};
use std::marker::Model;

/// How many bytes of memory are kept for those to come, where fewer are held.
const MOST_SPARE: usize = 262_144;

/// Bytes that are held unread, in order. Contracts see their list.
///
/// How far they were scanned is kept beside them: while an item comes in pieces, each of its bytes
/// is looked at once. Once a long item was read, its memory is given back but for a quarter of a
/// MiB.
#[derive(Drop)]
pub struct Unread<A: Allocator> {
    bytes: Vec<u8, A>,
    scanner: Scanner,
    // How many of the bytes the scanner was given.
    given: usize,
}

impl<A: Allocator> Model for Unread<A> {
    ghost use Rattle.std.specs.Prelude.{ℕ, List, ◌≤◌, take, vec_len};
    ghost use Rattle.msgpack_bytes.specs.Pieces.{IsAfter};

    ghost Value = { List ℕ };

    ghost view = { λ u. u.bytes.items };

    ghost invariant = { λ u. (u.given ≤ vec_len u.bytes)
        × IsAfter u.scanner (take u.given u.bytes.items) };
}

impl<A: Allocator> Unread<A> {
    /// Nothing is held.
    pub fn new(alloc: A) -> Self
        ensures { result ≡ [] }
    {
        Unread {
            bytes: Vec::new(alloc),
            scanner: Scanner::new(),
            given: 0,
        }
    }

    /// Takes a piece, and says whether all that is held only begins an item. The error is want of
    /// memory, and changes nothing.
    pub fn take(&mut self, piece: &[u8]) -> Result<bool, AllocError>
        ensures ok { OnOk result (self.new ≡ self.old ++ piece.now) }
        ensures begins { IfOk result (λ begins. IsTrue begins ↔ IsOpen self.new) }
        ensures err { OnErr result (self.new ≡ self.old) }
    {
        self.bytes.extend_from_slice(piece)?;
        let begins = begins_only(&mut self.scanner, &self.bytes, self.given);
        self.given = self.bytes.len();
        Ok(begins)
    }

    /// Takes what the piece has of the item that is begun, and says how many bytes these are; all
    /// of them where they are none of an item, and none where nothing is held. `None`: the whole
    /// piece was taken, and what is held still only begins an item.
    ///
    /// The error is want of memory, and changes nothing.
    pub fn complete(&mut self, piece: &[u8]) -> Result<Option<usize>, AllocError>
        ensures ok { IfOk result
            (λ taken. MatchOption taken ((self.new ≡ self.old ++ piece.now) × IsOpen self.new)
            (λ n. (n ≤ length piece.now) × (self.new ≡ self.old ++ take n piece.now))) }
        ensures err { OnErr result (self.new ≡ self.old) }
    {
        if self.bytes.is_empty() {
            return Ok(Some(0));
        }
        begins_only(&mut self.scanner, &self.bytes, self.given);
        self.given = self.bytes.len();
        self.bytes.reserve(piece.len())?;
        let n = match self.scanner.take(piece) {
            PieceScan::Need => {
                let Ok(()) = self.bytes.extend_from_slice(piece) else {
                    unreachable!();
                };
                self.given = self.bytes.len();
                return Ok(None);
            }
            PieceScan::End(n) => n.min(piece.len()),
            PieceScan::Bad(_) => piece.len(),
        };
        self.scanner = Scanner::new();
        self.given = 0;
        self.bytes.extend_from_slice(piece.split_at(n).0)?;
        Ok(Some(n))
    }

    /// Keeps the first n bytes alone.
    pub fn truncate(&mut self, n: usize)
        requires { n ≤ length self.old }
        ensures { self.new ≡ take n self.old }
    {
        self.scanner = Scanner::new();
        self.given = 0;
        self.bytes.truncate(n);
    }

    /// The first n bytes were read.
    pub fn drop_front(&mut self, n: usize)
        requires { n ≤ length self.old }
        ensures { self.new ≡ drop n self.old }
    {
        self.scanner = Scanner::new();
        self.given = 0;
        drop_front(&mut self.bytes, n);
    }

    /// What is held was read, and these bytes are held. The error is want of memory, and changes
    /// nothing.
    pub fn replace(&mut self, bytes: &[u8]) -> Result<(), AllocError>
        ensures ok { OnOk result (self.new ≡ bytes.now) }
        ensures err { OnErr result (self.new ≡ self.old) }
    {
        self.bytes.reserve(bytes.len())?;
        self.scanner = Scanner::new();
        self.given = 0;
        self.bytes.clear();
        let answer = self.bytes.extend_from_slice(bytes);
        self.bytes.shrink_to(MOST_SPARE);
        answer
    }

    /// What is held.
    pub fn as_slice(&self) -> &[u8]
        ensures { result.now ≡ self.now }
    {
        &self.bytes
    }

    /// How many bytes are held.
    pub fn len(&self) -> usize
        ensures { result ≡ length self.now }
    {
        self.bytes.len()
    }
}

impl<A: Allocator + Copy> Unread<A> {
    /// The allocator that holds them.
    pub fn alloc(&self) -> A {
        *self.bytes.allocator()
    }
}

// Whether the bytes only begin an item. The scanner was given the first of them, and is given the
// others.
fn begins_only(scanner: &mut Scanner, bytes: &[u8], given: usize) -> bool
    requires within { given ≤ length bytes.now }
    requires given { IsAfter scanner.old (take given bytes.now) }
    ensures begins { IsTrue result ↔ IsOpen bytes.now }
    ensures after { IsAfter scanner.new bytes.now }
{
    match scanner.take(bytes.split_at(given).1) {
        PieceScan::Need => true,
        _ => false,
    }
}
