//! How far unread bytes were scanned.

ghost use Rattle.std.specs.Prelude.{ℕ, List, ◌≡◌};
ghost use Rattle.msgpack_bytes.specs.Answers.{IsScanned};
ghost use Rattle.event_modes.specs.Ahead.{IsGiven};

use msgpack_bytes::{PieceScan, Scan, Scanner, item_end};

/// A scan of unread bytes, of which more can come: it goes on where it stopped. An item that is
/// whole at the first scan takes no scanner; the bytes of one that isn't are given to it then, so
/// each byte is looked at twice at most.
#[derive(Drop)]
pub(crate) struct Ahead {
    scanner: Scanner,
    // How many of the bytes it was given; no item ends in them.
    given: usize,
}

impl Ahead {
    /// Nothing was scanned yet.
    pub(crate) fn new() -> Ahead
        ensures { (unread : List ℕ) → IsGiven result unread }
    {
        Ahead {
            scanner: Scanner::new(),
            given: 0,
        }
    }

    /// Forgets what was scanned, so that any unread bytes can follow.
    pub(crate) fn restart(&mut self)
        requires { (unread : List ℕ) × IsGiven self.old unread }
        ensures { (unread : List ℕ) → IsGiven self.new unread }
    {
        if self.given > 0 {
            *self = Ahead::new();
        }
    }

    /// Where the item ends that the unread bytes begin with. Where it ends or never can, the next
    /// scan begins anew.
    pub(crate) fn scan(&mut self, unread: &[u8]) -> Scan
        requires { IsGiven self.old unread.now }
        ensures right { IsScanned unread.now 0 result }
        ensures given { IsGiven self.new unread.now }
    {
        if self.given == 0 {
            if let Some(end) = item_end(unread) {
                return Scan::End(end);
            }
        }
        self.go_on(unread)
    }

    // The same, by the scanner alone.
    fn go_on(&mut self, unread: &[u8]) -> Scan
        requires { IsGiven self.old unread.now }
        ensures right { IsScanned unread.now 0 result }
        ensures given { IsGiven self.new unread.now }
    {
        match self.scanner.take(unread.split_at(self.given).1) {
            PieceScan::End(n) => {
                let end = self.given + n;
                *self = Ahead::new();
                Scan::End(end)
            }
            PieceScan::Need => {
                self.given = unread.len();
                Scan::Need
            }
            PieceScan::Bad(fault) => {
                *self = Ahead::new();
                Scan::Bad(fault)
            }
        }
    }
}
