//! The names of one family of files.

ghost use Rattle.std.specs.Prelude.{◌≡◌, ◌≢◌, ℕ, ◌<◌, ◌^◌, List, ◌∷◌, ◌++◌, IfOk, MatchOption};
ghost use Rattle.numbered_files.specs.Names.{file_name, ten_digits};

use crate::digits::{number_of, ten_digits};
use std::alloc::{AllocError, Allocator};

/// The files whose names are `PATH`, a dot, a number in ten digits, a dot, and `KIND`.
#[derive(Clone, Copy)]
pub struct Family<'a> {
    /// What all names begin with.
    pub path: &'a [u8],
    /// What all names end with.
    pub kind: &'a [u8],
}

impl Family<'_> {
    /// The name of the file of this number. The error is want of memory.
    pub fn name<A: Allocator>(self, alloc: A, number: u32) -> Result<Vec<u8, A>, AllocError>
        ensures { IfOk result (λ name. name.items ≡ file_name self.entry number) }
    {
        let mut name = Vec::from_slice(alloc, self.path)?;
        name.push(b'.')?;
        name.extend_from_slice(&ten_digits(number))?;
        name.push(b'.')?;
        name.extend_from_slice(self.kind)?;
        Ok(name)
    }

    /// The number of the file of this name, if it is one of the family.
    pub fn number(self, name: &[u8]) -> Option<u32>
        ensures { MatchOption result ((n : ℕ) → n < 2 ^ 32 → name.now ≢ file_name self.entry n)
            (λ n. name.now ≡ file_name self.entry n) }
    {
        match behind_dot(name, self.path) {
            Some(rest) => number_before(rest, self.kind),
            None => None,
        }
    }
}

// The number that stands before a dot and this, if the bytes are so.
fn number_before(bytes: &[u8], end: &[u8]) -> Option<u32>
    ensures { MatchOption result ((n : ℕ) → n < 2 ^ 32 → bytes.now ≢ ten_digits n ++ 46 ∷ end.now)
        (λ n. bytes.now ≡ ten_digits n ++ 46 ∷ end.now) }
{
    match before_dot(bytes, end) {
        Some(numeral) => number_of(numeral),
        None => None,
    }
}

// What stands behind this and a dot, if the bytes begin with them.
fn behind_dot<'a>(bytes: &'a [u8], front: &[u8]) -> Option<&'a [u8]>
    ensures { MatchOption result ((rest : List ℕ) → bytes.now ≢ front.now ++ 46 ∷ rest)
        (λ rest. bytes.now ≡ front.now ++ 46 ∷ rest.now) }
{
    match bytes.strip_prefix(front) {
        Some(rest) => rest.strip_prefix(b".".as_slice()),
        None => None,
    }
}

// What stands before a dot and this, if the bytes end with them.
fn before_dot<'a>(bytes: &'a [u8], end: &[u8]) -> Option<&'a [u8]>
    ensures { MatchOption result ((front : List ℕ) → bytes.now ≢ front ++ 46 ∷ end.now)
        (λ front. bytes.now ≡ front.now ++ 46 ∷ end.now) }
{
    match bytes.strip_suffix(end) {
        Some(front) => front.strip_suffix(b".".as_slice()),
        None => None,
    }
}
