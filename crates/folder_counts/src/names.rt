//! What the names of files say.

ghost use Rattle.std.specs.Prelude.{◌≡◌, ◌<◌, length, MatchOption};
ghost use Rattle.folder_listing.specs.Files.{kind_text};
ghost use Rattle.folder_counts.specs.Names.{numbered_name, IsOwner, IsUnnumbered};

use folder_listing::Kind;
use numbered_files::Family;
use std::str;

/// Whose file has this name: the path and the number that make it, as a relay makes names; or the
/// name itself, with 0, where none make it.
pub(crate) fn owner_of(kind: Kind, name: &str) -> (&str, u32)
    ensures { IsOwner kind name.now result.0.now result.1 }
{
    match numbered(kind, name) {
        Some(owner) => owner,
        None => (name, 0),
    }
}

// The path and the number that make the name.
fn numbered(kind: Kind, name: &str) -> Option<(&str, u32)>
    ensures { MatchOption result (IsUnnumbered kind name.now)
        (λ owner. name.now ≡ numbered_name kind owner.0.now owner.1) }
{
    let ending = ending_of(kind);
    let Some(front) = name.len().checked_sub(ending.len() + 12) else {
        return None;
    };
    let (path, _) = name.as_bytes().split_at(front);
    let family = Family { path, kind: ending };
    let Some(number) = family.number(name.as_bytes()) else {
        return None;
    };
    match str::from_utf8(path) {
        Ok(path) => Some((path, number)),
        Err(_) => None,
    }
}

// What a file's name ends with, behind its last dot.
fn ending_of(kind: Kind) -> &'static [u8]
    ensures text { result.now ≡ kind_text kind }
    ensures short { length result.now < 8 }
{
    match kind {
        Kind::Journal => b"journal",
        Kind::Sink => b"sink",
    }
}
