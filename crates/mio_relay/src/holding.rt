//! How much of messages that aren't whole connections hold.

ghost use Rattle.std.specs.Prelude.{◌≡◌, ◌≤◌, ◌+◌};
ghost use Rattle.mio_relay.specs.Holding.{HoldsMost, held_at, held_in, most_held};

use crate::connection::Connection;
use relay_sockets::Wire;
use std::alloc::Allocator;

/// How many bytes of what isn't whole connections hold together at most, behind a turn.
pub const MOST_HELD: usize = 268_435_456;

/// How many bytes of what isn't whole these hold together; or some number past what they may hold,
/// where it is more.
pub fn held_in<S: Wire, A: Allocator + Copy>(slots: &[Option<Connection<S, A>>]) -> usize
    ensures { result ≤ most_held → held_in slots.now ≤ most_held }
{
    let mut sum = 0;
    for slot in slots {
        sum = with_more(sum, held_at(slot));
    }
    sum
}

/// The key of one of these that holds no less than any other.
pub fn heaviest_of<S: Wire, A: Allocator + Copy>(slots: &[Option<Connection<S, A>>]) -> usize
    ensures { HoldsMost result slots.now }
{
    let mut heaviest = 0;
    let mut most = 0;
    for key in 0..slots.len() {
        let held = held_at(&slots[key]);
        if most < held {
            heaviest = key;
            most = held;
        }
    }
    heaviest
}

// How many bytes of what isn't whole the connection holds, if there is one.
fn held_at<S: Wire, A: Allocator + Copy>(slot: &Option<Connection<S, A>>) -> usize
    ensures { result ≡ held_at slot.now }
{
    match slot {
        Some(connection) => connection.held_len(),
        None => 0,
    }
}

// So many, and so many more; the greatest number where there are more.
fn with_more(sum: usize, more: usize) -> usize
    ensures { result ≤ most_held → result ≡ sum + more }
{
    sum.saturating_add(more)
}
