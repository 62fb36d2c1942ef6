//! Messages of a stream that comes in pieces.

ghost use Rattle.std.specs.Prelude.{◌≡◌, ◌≤◌, [], ◌++◌, length, drop, vec_len, IfOk, OnOk, OnErr, Ok, Err, Some, None};
ghost use Rattle.event_modes.specs.declared.fault.ModeFault.{ModeFault};
ghost use Rattle.event_modes.specs.Feeding.{Takes};

use crate::ahead::Ahead;
use crate::fault::{FeedError, ModeFault};
use crate::message::{Message, Read};
use crate::reading::read_on;
use std::alloc::{AllocError, Allocator};
use std::marker::Model;

/// A stream in pieces. Contracts see the bytes that it holds unread, and the fault that it met in
/// them, if any.
///
/// It holds what was fed and not yet taken off: where each piece is followed by calls of `next` up
/// to `Need`, at most one message and one piece.
pub struct Feed<A: Allocator> {
    bytes: Vec<u8, A>,
    // Where the unread bytes begin: taking one off moves none of them.
    start: usize,
    fault: Option<ModeFault>,
    ahead: Ahead,
}

// By hand, so that crates above don't prove again how its parts end.
impl<A: Allocator> Drop for Feed<A> {
    fn drop(self) {
        let Feed {
            bytes: _,
            start: _,
            fault: _,
            ahead: _,
        } = self;
    }
}

impl<A: Allocator> Model for Feed<A> {
    ghost use Rattle.std.specs.Prelude.{drop, ◌≤◌, vec_len};
    ghost use Rattle.event_modes.specs.Feeding.{Feeding, IsRemembered};
    ghost use Rattle.event_modes.specs.Ahead.{IsGiven};

    ghost Value = { Feeding };

    ghost view = { λ f. record { held = drop f.start f.bytes.items; fault = f.fault } };

    ghost invariant = { λ f. (f.start ≤ vec_len f.bytes)
        × IsRemembered (drop f.start f.bytes.items) f.fault
        × IsGiven f.ahead (drop f.start f.bytes.items) };
}

/// What a stream has next.
#[derive(Drop)]
pub enum Next<A: Allocator> {
    Message(Message<A>),
    /// A nil, which only keeps the connection alive.
    Heartbeat,
    /// More bytes have to come.
    Need,
    /// The stream is read no further: this is answered from now on.
    Bad(ModeFault),
}

impl<A: Allocator + Copy> Feed<A> {
    /// Nothing is held.
    pub fn new(alloc: A) -> Self
        ensures held { result.held ≡ [] }
        ensures fault { result.fault ≡ None }
    {
        Feed {
            bytes: Vec::new(alloc),
            start: 0,
            fault: None,
            ahead: Ahead::new(),
        }
    }

    /// Takes a piece. An `Err` changes nothing: a fault comes exactly where one was met before.
    pub fn feed(&mut self, piece: &[u8]) -> Result<(), FeedError>
        ensures held { OnOk result (self.new.held ≡ self.old.held ++ piece.now) }
        ensures fault { OnOk result (self.new.fault ≡ self.old.fault) }
        ensures err { OnErr result (self.new ≡ self.old) }
        ensures again { (f : ModeFault) → result ≡ Err (FeedError.Fault f)
            → self.old.fault ≡ Some f }
        ensures refuses { (f : ModeFault) → self.old.fault ≡ Some f
            → result ≡ Err (FeedError.Fault f) }
    {
        if let Some(fault) = self.fault {
            return Err(FeedError::Fault(fault));
        }
        drop_front(&mut self.bytes, self.start);
        self.start = 0;
        self.bytes.extend_from_slice(piece)?;
        Ok(())
    }

    /// Takes off the next message or heartbeat, if it is whole. An `Err` changes nothing.
    pub fn next(&mut self) -> Result<Next<A>, AllocError>
        ensures ok { IfOk result (λ next. Takes self.old next self.new) }
        ensures err { OnErr result (self.new ≡ self.old) }
        ensures again { (f : ModeFault) → self.old.fault ≡ Some f → result ≡ Ok (Next.Bad f) }
    {
        if let Some(fault) = self.fault {
            return Ok(Next::Bad(fault));
        }
        let (_, unread) = self.bytes.split_at(self.start);
        match read_on(*self.bytes.allocator(), &mut self.ahead, unread)? {
            Read::Message(message, n) => {
                self.start += n;
                self.ahead.restart();
                Ok(Next::Message(message))
            }
            Read::Heartbeat(n) => {
                self.start += n;
                self.ahead.restart();
                Ok(Next::Heartbeat)
            }
            Read::Need => Ok(Next::Need),
            Read::Bad(fault) => {
                self.fault = Some(fault);
                Ok(Next::Bad(fault))
            }
        }
    }

    /// How many bytes are held unread.
    pub fn held_len(&self) -> usize
        ensures { result ≡ length self.now.held }
    {
        self.bytes.len() - self.start
    }
}

/// Drops the first n bytes.
pub fn drop_front<A: Allocator>(bytes: &mut Vec<u8, A>, n: usize)
    requires { n ≤ vec_len bytes.old }
    ensures { bytes.new.items ≡ drop n bytes.old.items }
{
    if n > 0 {
        let len = bytes.len();
        // Each byte that stays is moved once: `drain` would turn all of them round, twice.
        bytes.copy_within(n.., 0);
        bytes.truncate(len - n);
    }
}
