//! A connection, as a session sees it.

ghost use Rattle.relay_sockets.specs.Traffics.{IsGot, IsPut, IsRefused};

use std::io::{self, ErrorKind};
use std::time::Duration;

/// What came of a read or a write.
#[derive(Clone, Copy, PartialEq, Eq)]
pub enum Moved {
    /// So many bytes were moved.
    Some(usize),
    /// None for now.
    None,
    /// None, since the call was interrupted: the next one may move some at once.
    Again,
    /// None any more: the other end has ended its sending.
    Ended,
    /// None any more: the connection has failed.
    Broken,
}

/// A connection that is read and written.
///
/// Where it comes from goes with it, through a list, an option or a thread, and no read or write
/// changes it.
pub trait Wire {
    ghost use Rattle.std.specs.Prelude.{ℕ, ◌≡◌, ◌⊎◌, ◌↔◌, Bool, false, true};
    ghost use Rattle.relay_sockets.specs.Endpoints.{Origin};
    ghost use Rattle.relay_sockets.specs.Traffics.{IsReadFrom, IsWrittenTo, Traffic, unknown_traffic};

    // where it comes from
    ghost origin: { Self → Origin };

    // the bytes that it took so far, and those that it gave, where they are known
    ghost traffic: { Self → Traffic } = { λ _. unknown_traffic };

    // whether it took no byte for now when it was last written to
    ghost refuses: { Self → Bool };

    // whether it was read until its other end had ended its sending; where that isn't known, it may
    // have been so
    ghost has_ended: { Self → Bool } = { λ _. true };

    /// Reads bytes into the piece. Where it waits for some, it waits no longer than this.
    fn get(&mut self, piece: &mut [u8], most: Duration) -> Moved
        ensures origin { origin self.new ≡ origin self.old }
        ensures bytes { IsReadFrom (traffic self.old) (traffic self.new) piece.new result }
        ensures refuses { refuses self.new ≡ refuses self.old }
        ensures ended { (has_ended self.new ≡ true)
            ↔ ((has_ended self.old ≡ true) ⊎ (result ≡ Moved.Ended)) };

    /// Writes some of the bytes. Where it waits for room, it waits no longer than this.
    fn put(&mut self, bytes: &[u8], most: Duration) -> Moved
        ensures origin { origin self.new ≡ origin self.old }
        ensures bytes { IsWrittenTo (traffic self.old) (traffic self.new) bytes.now result }
        ensures refused { result ≡ Moved.None → refuses self.new ≡ true }
        ensures took { (n : ℕ) → result ≡ Moved.Some n → refuses self.new ≡ false }
        ensures ended { has_ended self.new ≡ has_ended self.old };

    /// Breaks it off at once, on both ends, so that the system keeps nothing of it once it is
    /// closed. What was written and not taken by the other end may be lost: so it is for a
    /// connection whose other end has answered all.
    fn break_off(&self) {}
}

/// What the system's answer to a read comes to, which had room for bytes.
pub(crate) fn got(answer: io::Result<usize>) -> Moved
    ensures { IsGot answer result }
{
    match answer {
        Ok(0) => Moved::Ended,
        Ok(n) => Moved::Some(n),
        Err(e) => refused(e.kind()),
    }
}

/// What the system's answer to a write comes to, which had bytes to be written.
pub(crate) fn put(answer: io::Result<usize>) -> Moved
    ensures { IsPut answer result }
{
    match answer {
        Ok(0) => Moved::Broken,
        Ok(n) => Moved::Some(n),
        Err(e) => refused(e.kind()),
    }
}

// What an error of the system says, by which no byte was moved.
fn refused(kind: ErrorKind) -> Moved
    ensures { IsRefused result }
{
    match kind {
        ErrorKind::WouldBlock | ErrorKind::TimedOut => Moved::None,
        ErrorKind::Interrupted => Moved::Again,
        _ => Moved::Broken,
    }
}
