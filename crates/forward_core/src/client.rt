//! The session of the end that connects, which sends one message.

ghost use Rattle.std.specs.Prelude.{◌≡◌, ◌≤◌, ◌<◌, ◌^◌, ◌↔◌, ◌++◌, length, drop, option_map, Bool, Some, IsTrue, IfOk, OnOk, OnErr};
ghost use Rattle.std.specs.List.{concat};
ghost use Rattle.msgpack_bytes.specs.Item.{longest};
ghost use Rattle.auth_handshake.specs.Ends.{ClientEnd};
ghost use Rattle.event_modes.specs.ChunkIds.{chunk_text};
ghost use Rattle.event_modes.specs.Message.{longest_tag};
ghost use Rattle.event_modes.specs.Packed.{packed_message};
ghost use Rattle.forward_core.specs.Handshakes.{IsHosted};
ghost use Rattle.forward_core.specs.Client.{AwaitsHelo, AwaitsPong, ClientReads, Ended, HasNonce, HasSent, Listens, Ready, ReadsAll, ReadsHelo, ReadsPong, awaited, named, initial_client, phase_if, phase_of, said};

use crate::client_handshake::{First, take_helo, take_pong};
use crate::fault::SessionFault;
use crate::outbox::Outbox;
use crate::replies::{Heard, listen_to};
use crate::security::Security;
use crate::unread::Unread;
use auth_handshake::Client;
use event_modes::{ChunkId, Entries};
use std::alloc::{AllocError, Allocator};
use std::marker::Model;

/// Where a session stands.
#[derive(Drop)]
enum Phase<A: Allocator> {
    /// The handshake goes on.
    Shaking(Client<A>),
    /// The message may be sent.
    Ready,
    /// It was sent, and asked for the acknowledgement of this chunk, if for any.
    Sent(Option<ChunkId>),
    /// A fault was met.
    Closed,
}

impl<A: Allocator> Phase<A> {
    // The chunk whose acknowledgement is awaited.
    fn chunk(&self) -> Option<ChunkId>
        ensures { (greeted : Bool) → result ≡ awaited (phase_of self.now greeted) }
    {
        match self {
            Phase::Sent(chunk) => *chunk,
            _ => None,
        }
    }

    // A fault ends the session.
    fn end_if(&mut self, heard: &Heard<A>)
        ensures ends { (greeted : Bool)
            → phase_of self.new greeted ≡ phase_if (said heard.now) (phase_of self.old greeted) }
        ensures nonce { (greeted : Bool) → HasNonce self.old greeted → HasNonce self.new greeted }
    {
        if let Heard::Fault(_) = heard {
            *self = Phase::Closed;
        }
    }
}

/// The client's end of one connection, which sends one message. Contracts see where it stands, the
/// bytes that it holds unread, and those that are to be sent.
///
/// It holds what came and is not whole yet: at most one item, and one piece while it is fed.
pub struct ClientSession<A: Allocator> {
    phase: Phase<A>,
    // Whether the HELO was taken.
    greeted: bool,
    held: Unread<A>,
    outgoing: Outbox<A>,
}

// By hand, so that crates above don't prove again how its parts end.
impl<A: Allocator> Drop for ClientSession<A> {
    fn drop(self) {
        let ClientSession {
            phase: _,
            greeted: _,
            held: _,
            outgoing: _,
        } = self;
    }
}

impl<A: Allocator> Model for ClientSession<A> {
    ghost use Rattle.forward_core.specs.Client.{ClientState, HasNonce, phase_of};

    ghost Value = { ClientState };

    ghost view = { λ s. record {
      phase = phase_of s.phase s.greeted;
      held = s.held;
      outgoing = s.outgoing;
    } };

    ghost invariant = { λ s. HasNonce s.phase s.greeted };
}

impl<A: Allocator + Copy> ClientSession<A> {
    /// A session of a connection that was opened. With security the server's HELO has to come
    /// first;
    /// the salt is to be new for each connection.
    ///
    /// The error is want of memory.
    pub fn open(
        alloc: A,
        security: Option<Security<'_>>,
        salt: [u8; 16],
    ) -> Result<ClientSession<A>, AllocError>
        requires { IsHosted security }
        ensures { IfOk result (λ session. session ≡ initial_client security.entry salt) }
    {
        let phase = match security {
            Some(security) => Phase::Shaking(Client::new(
                alloc,
                security.self_hostname,
                security.shared_key,
                salt,
            )?),
            None => Phase::Ready,
        };
        Ok(ClientSession {
            phase,
            greeted: false,
            held: Unread::new(alloc),
            outgoing: Outbox::new(alloc),
        })
    }

    /// Sends the message with these entries, under the chunk's name where it is to ask for an
    /// acknowledgement. Each session sends one, once it is ready. The tag has at most 1,024 bytes,
    /// and the entries have fewer than 2^32 bytes together.
    ///
    /// The error is want of memory, and changes nothing.
    pub fn send<B: Allocator>(
        &mut self,
        tag: &[u8],
        entries: &Entries<B>,
        id: ChunkId,
        ask: bool,
    ) -> Result<(), AllocError>
        requires ready { self.old.phase ≡ Ready }
        requires tag { length tag.now ≤ longest_tag }
        requires entries { length (concat entries.now) < 2 ^ 32 }
        ensures ok { OnOk result (self.new ≡ record self.old {
          phase = HasSent (named ask id);
          outgoing = self.old.outgoing
              ++ packed_message tag.now entries.now (option_map chunk_text (named ask id));
        }) }
        ensures err { OnErr result (self.new ≡ self.old) }
    {
        let chunk = if ask { Some(id) } else { None };
        self.outgoing.packed(tag, entries, chunk)?;
        self.phase = Phase::Sent(chunk);
        Ok(())
    }

    /// Takes a piece of what the server sent, and says what was heard in it.
    ///
    /// `Seen` comes for the acknowledgement of the chunk that was sent, and the bytes behind it are
    /// read by the next call. Heartbeats and acknowledgements of other chunks are passed over.
    /// Where the server's HELO or PONG isn't one, refuses the client or doesn't show the key
    /// (`Handshake`), and where what comes is no acknowledgement (`BadAck`), the session is over:
    /// it says `Closed` from then on.
    ///
    /// The error is want of memory, and changes nothing.
    pub fn feed(&mut self, piece: &[u8]) -> Result<Heard<A>, AllocError>
        ensures reads { IfOk result
            (λ heard. ClientReads self.old piece.now (said heard) self.new) }
        ensures err { OnErr result (self.new ≡ self.old) }
    {
        if let Phase::Closed = &self.phase {
            return Ok(Heard::Fault(SessionFault::Closed));
        }
        let before = self.held.len();
        if self.held.take(piece)? {
            return Ok(Heard::Wait);
        }
        match self.hear() {
            Ok(heard) => Ok(heard),
            Err(e) => {
                self.held.truncate(before);
                Err(e)
            }
        }
    }

    // What the bytes that are held say. The error is want of memory, and changes nothing.
    fn hear(&mut self) -> Result<Heard<A>, AllocError>
        requires { self.old.phase ≡ Ended → ⊥ }
        ensures reads { IfOk result
            (λ heard. ReadsAll self.old.phase self.old (said heard) self.new) }
        ensures err { OnErr result (self.new ≡ self.old) }
    {
        match &self.phase {
            Phase::Shaking(_) => {}
            _ => return Ok(self.listen()),
        }
        if self.greeted {
            return Ok(self.hear_pong());
        }
        self.hear_helo()
    }

    fn hear_helo(&mut self) -> Result<Heard<A>, AllocError>
        ensures reads { IfOk result
            (λ heard. (client : ClientEnd) → self.old.phase ≡ AwaitsHelo client
            → ReadsHelo client self.old (said heard) self.new) }
        ensures err { OnErr result (self.new ≡ self.old) }
    {
        let Phase::Shaking(client) = &mut self.phase else {
            return Ok(Heard::Wait);
        };
        match take_helo(client, &mut self.outgoing, self.held.as_slice())? {
            First::Taken(n) => {
                self.greeted = true;
                self.held.drop_front(n);
                Ok(self.hear_pong())
            }
            First::Waits => Ok(Heard::Wait),
            First::Refused(fault) => {
                self.phase = Phase::Closed;
                Ok(Heard::Fault(SessionFault::Handshake(fault)))
            }
        }
    }

    fn hear_pong(&mut self) -> Heard<A>
        ensures { (client : ClientEnd) → self.old.phase ≡ AwaitsPong client
            → ReadsPong client self.old (said result) self.new }
    {
        let Phase::Shaking(client) = &self.phase else {
            return Heard::Wait;
        };
        if !self.greeted {
            return Heard::Wait;
        }
        match take_pong(client, self.held.as_slice()) {
            First::Taken(n) => {
                self.phase = Phase::Ready;
                self.held.drop_front(n);
                self.listen()
            }
            First::Waits => Heard::Wait,
            First::Refused(fault) => {
                self.phase = Phase::Closed;
                Heard::Fault(SessionFault::Handshake(fault))
            }
        }
    }

    // Reads the replies that are held.
    fn listen(&mut self) -> Heard<A>
        ensures { Listens (awaited self.old.phase) self.old (said result) self.new }
    {
        let (n, heard) = listen_to(self.phase.chunk(), self.held.as_slice());
        self.held.drop_front(n);
        self.phase.end_if(&heard);
        heard
    }

    /// Whether the message may be sent: the handshake is done, none was sent yet, and no fault
    /// came.
    pub fn ready(&self) -> bool
        ensures { IsTrue result ↔ (self.now.phase ≡ Ready) }
    {
        matches!(&self.phase, Phase::Ready)
    }

    /// What is to be sent.
    pub fn outgoing(&self) -> &[u8]
        ensures { result.now ≡ self.now.outgoing }
    {
        self.outgoing.as_slice()
    }

    /// The first n bytes of what is outgoing were sent.
    pub fn sent(&mut self, n: usize)
        requires { n ≤ length self.old.outgoing }
        ensures { self.new ≡ record self.old { outgoing = drop n self.old.outgoing } }
    {
        self.outgoing.sent(n);
    }
}
