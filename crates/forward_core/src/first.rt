//! What an end of a handshake is shown first.

ghost use Rattle.std.specs.Prelude.{◌≤◌, length, take, drop, MatchOption};
ghost use Rattle.msgpack_bytes.specs.Item.{IsOpen};
ghost use Rattle.forward_core.specs.Handshakes.{IsShown};

use msgpack_bytes::{Scan, scan};

/// The length of the first item, or of all bytes where no item can begin so: what is no item is
/// none of the other end's. `None` where more of it has to come.
pub fn first_len(bytes: &[u8]) -> Option<usize>
    ensures { MatchOption result (IsOpen bytes.now)
        (λ n. (n ≤ length bytes.now) × IsShown bytes.now (take n bytes.now) (drop n bytes.now)) }
{
    match scan(bytes, 0) {
        Scan::Need => None,
        Scan::End(end) => Some(end),
        Scan::Bad(_) => Some(bytes.len()),
    }
}
