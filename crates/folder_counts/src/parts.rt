//! The parts of a folder, buffers or sinks, each with a path.

ghost use Rattle.std.specs.Prelude.{◌≡◌, bytes_eq, position, IfOk, OnOk};
ghost use Rattle.std.specs.List.Sorted.{IsPermutation, IsSortedBy};
ghost use Rattle.folder_counts.specs.Groups.{with_part};
ghost use Rattle.folder_counts.specs.Order.{is_before};

use std::alloc::{AllocError, Allocator};

/// A buffer, or a sink.
pub(crate) trait Part: Sized {
    ghost use Rattle.std.specs.Prelude.{List, ℕ};

    // what the names of its files begin with
    ghost path_of: { Self → List ℕ };

    // it with one more of the same path
    ghost both: { Self → Self → Self };

    /// What the names of its files begin with.
    fn path(&self) -> &str
        ensures { result.now ≡ path_of self.now };

    /// It with one more of the same path. The error is want of memory for a number of 2^64 or more.
    fn joined(&self, next: &Self) -> Result<Self, AllocError>
        ensures { IfOk result (λ joined. joined ≡ both self.now next.now) };
}

/// Takes one part more: it is joined to the one that has its path. The error is want of memory.
pub(crate) fn put_part<A: Allocator, T: Part + Drop>(
    parts: &mut Vec<T, A>,
    next: T,
) -> Result<(), AllocError>
    ensures { OnOk result (parts.new.items ≡ with_part T.path_of T.both parts.old.items next) }
{
    match part_at(parts, next.path()) {
        None => parts.push(next)?,
        Some(i) => {
            let both = parts[i].joined(&next)?;
            parts[i] = both;
        }
    }
    Ok(())
}

// Where the part of this path stands.
fn part_at<T: Part>(parts: &[T], path: &str) -> Option<usize>
    ensures { result ≡ position (λ one. bytes_eq (T.path_of one) path.now) parts.now }
{
    parts.iter().position(|one| one.path() == path)
}

/// Puts parts in the order of their paths.
pub(crate) fn sort_parts<A: Allocator, T: Part>(parts: &mut Vec<T, A>)
    ensures same { IsPermutation parts.old.items parts.new.items }
    ensures rise { IsSortedBy (λ a b. is_before (T.path_of a) (T.path_of b)) parts.new.items }
{
    parts.sort_unstable_by(|a, b| a.path().cmp(b.path()));
}
