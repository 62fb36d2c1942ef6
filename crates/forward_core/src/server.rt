//! The session of the end that listens.

ghost use Rattle.std.specs.Prelude.{◌≡◌, ◌≤◌, ◌↔◌, ◌⊎◌, ◌++◌, ◌∷◌, [], true, length, drop, map, Some, IsSome, IfOk, IfErr, OnOk, OnErr, IsErrOf, All, Contains};
ghost use Rattle.msgpack_bytes.specs.Item.{IsOpen};
ghost use Rattle.ack_receipt.specs.Reservations.{Answer};
ghost use Rattle.forward_core.specs.Demands.{wanted};
ghost use Rattle.forward_core.specs.Handshakes.{IsHosted};
ghost use Rattle.forward_core.specs.Server.{IsAskedIn, MayWait, Opened, Outcome, Over, ReadsOn, ServerReads, after, awaits_ping, idle_server, initial_server, outcome_of, phase_at, phase_of};

use crate::demand::Demand;
use crate::fault::{SessionError, SessionFault};
use crate::messages::{take_both, take_messages};
use crate::outbox::Outbox;
use crate::past::{AskedSoFar, TakenSoFar};
use crate::security::Security;
use crate::server_handshake::{MOST_BEFORE_PING, take_ping};
use crate::taken::{Standing, TakenItem};
use crate::unread::Unread;
use ack_receipt::Reserved;
use auth_handshake::Server;
use std::alloc::{AllocError, Allocator};
use std::marker::Model;

/// Where a session stands.
#[derive(Drop)]
enum Phase<A: Allocator> {
    /// The HELO is out, and a PING has to come first.
    Awaiting(Server<A>),
    /// Messages may come.
    Open,
    /// A fault was met.
    Closed,
}

impl<A: Allocator> Phase<A> {
    fn move_to(&mut self, stage: Standing)
        ensures { phase_of self.new ≡ phase_at (phase_of self.old) stage }
    {
        match stage {
            Standing::Same => {}
            Standing::Open => *self = Phase::Open,
            Standing::Closed => *self = Phase::Closed,
        }
    }
}

/// The server's end of one connection. Contracts see where it stands, the bytes that it holds
/// unread, those that are to be sent, what each message asked for that it demanded to be delivered,
/// and the answers that it took.
///
/// It holds what came and is not whole yet: at most one item, and one piece while it is fed; while
/// a PING has to come first, at most 65,536 bytes. What the messages asked for and their answers
/// are there for contracts alone, and take no memory.
pub struct ServerSession<A: Allocator> {
    phase: Phase<A>,
    held: Unread<A>,
    outgoing: Outbox<A>,
    asked: AskedSoFar<A>,
    taken: TakenSoFar<A>,
}

// By hand, so that crates above don't prove again how its parts end.
impl<A: Allocator> Drop for ServerSession<A> {
    fn drop(self) {
        let ServerSession {
            phase: _,
            held: _,
            outgoing: _,
            asked: _,
            taken: _,
        } = self;
    }
}

impl<A: Allocator> Model for ServerSession<A> {
    ghost use Rattle.forward_core.specs.Server.{ServerState, phase_of};

    ghost Value = { ServerState };

    ghost view = { λ s. record {
      phase = phase_of s.phase;
      held = s.held;
      outgoing = s.outgoing;
      asked = s.asked.all;
      taken = s.taken.all;
    } };
}

impl<A: Allocator + Copy> ServerSession<A> {
    /// A session of a connection that was opened. With security the HELO is outgoing, and a PING
    /// has to come before the first message; the nonce is to be new for each connection.
    ///
    /// The error is want of memory.
    pub fn open(
        alloc: A,
        security: Option<Security<'_>>,
        nonce: [u8; 16],
    ) -> Result<ServerSession<A>, AllocError>
        requires { IsHosted security }
        ensures { IfOk result (λ session. session ≡ initial_server security.entry nonce) }
    {
        match security {
            Some(security) => ServerSession::secured(alloc, security, nonce),
            None => Ok(ServerSession::begin(alloc, Phase::Open, Outbox::new(alloc))),
        }
    }

    fn secured(
        alloc: A,
        security: Security<'_>,
        nonce: [u8; 16],
    ) -> Result<ServerSession<A>, AllocError>
        requires { IsHosted (Some security) }
        ensures { IfOk result (λ session. session ≡ initial_server (Some security.entry) nonce) }
    {
        let server = Server::new(alloc, security.self_hostname, security.shared_key, nonce)?;
        let mut helo = Vec::new(alloc);
        server.hello(&mut helo)?;
        let mut outgoing = Outbox::new(alloc);
        outgoing.append(&helo)?;
        Ok(ServerSession::begin(alloc, Phase::Awaiting(server), outgoing))
    }

    fn begin(alloc: A, phase: Phase<A>, outgoing: Outbox<A>) -> ServerSession<A>
        ensures { result ≡ idle_server (phase_of phase) outgoing }
    {
        ServerSession {
            phase,
            held: Unread::new(alloc),
            outgoing,
            asked: AskedSoFar::new(),
            taken: TakenSoFar::new(),
        }
    }

    /// Takes a piece of what the client sent, and says what is to be done for it, in order.
    ///
    /// Each message that is whole now is to be delivered; heartbeats are passed over. Where the
    /// client's PING isn't one or doesn't show the key, or isn't whole behind 65,536 bytes
    /// (`Handshake`), and where what comes is no message (`BadStream`), the connection is to be
    /// closed, and nothing is read any more.
    ///
    /// A session that met a fault refuses with `Closed`. The only other error is want of memory.
    /// Each error leaves the session as it was.
    pub fn feed(&mut self, piece: &[u8]) -> Result<Vec<Demand<A>, A>, SessionError>
        // What was held unread and the piece are read together: what they come to is what the
        // session is then.
        ensures reads { IfOk result (λ demands. (out : Outcome)
            × ServerReads self.old.phase (self.old.held ++ piece.now) out
            × (self.new ≡ after self.old out) × (map wanted demands.items ≡ out.wants)) }
        // So each message can be answered.
        ensures asked { IfOk result
            (λ demands. All (λ demand. IsAskedIn self.new.asked (wanted demand)) demands.items) }
        ensures closed { IsErrOf result (SessionError.Fault SessionFault.Closed)
            ↔ (self.old.phase ≡ Over) }
        ensures only { IfErr result
            (λ e. (e ≡ SessionError.Fault SessionFault.Closed) ⊎ (e ≡ SessionError.Memory)) }
        ensures err { OnErr result (self.new ≡ self.old) }
    {
        match &self.phase {
            Phase::Closed => Err(SessionError::Fault(SessionFault::Closed)),
            Phase::Awaiting(_) => Ok(self.read_whole(piece)?),
            Phase::Open => Ok(self.read_on(piece)?),
        }
    }

    // Reads the piece with what is held, which takes it in. The error is want of memory, and
    // changes nothing.
    fn read_whole(&mut self, piece: &[u8]) -> Result<Vec<Demand<A>, A>, AllocError>
        requires { self.old.phase ≡ Over → ⊥ }
        ensures reads { IfOk result (λ demands. (out : Outcome)
            × ServerReads self.old.phase (self.old.held ++ piece.now) out
            × (self.new ≡ after self.old out) × (map wanted demands.items ≡ out.wants)) }
        ensures asked { IfOk result
            (λ demands. All (λ demand. IsAskedIn self.new.asked (wanted demand)) demands.items) }
        ensures err { OnErr result (self.new ≡ self.old) }
    {
        let before = self.held.len();
        if self.held.take(piece)? && self.may_wait() {
            return Ok(self.wait());
        }
        match self.take_all() {
            Ok(demands) => Ok(demands),
            Err(e) => {
                self.held.truncate(before);
                Err(e)
            }
        }
    }

    // The same of an open session. What is held takes in only what it lacks of a message: all that
    // is whole behind it is read where it came.
    fn read_on(&mut self, piece: &[u8]) -> Result<Vec<Demand<A>, A>, AllocError>
        requires { self.old.phase ≡ Opened }
        ensures reads { IfOk result (λ demands. (out : Outcome)
            × ServerReads self.old.phase (self.old.held ++ piece.now) out
            × (self.new ≡ after self.old out) × (map wanted demands.items ≡ out.wants)) }
        ensures asked { IfOk result
            (λ demands. All (λ demand. IsAskedIn self.new.asked (wanted demand)) demands.items) }
        ensures err { OnErr result (self.new ≡ self.old) }
    {
        let before = self.held.len();
        let Some(n) = self.held.complete(piece)? else {
            return Ok(self.wait());
        };
        match self.read_behind(piece.split_at(n).1) {
            Ok(demands) => Ok(demands),
            Err(e) => {
                self.held.truncate(before);
                Err(e)
            }
        }
    }

    // Reads what is held, and what came behind it where it lies. The error is want of memory, and
    // changes nothing.
    fn read_behind(&mut self, more: &[u8]) -> Result<Vec<Demand<A>, A>, AllocError>
        requires { self.old.phase ≡ Opened }
        ensures reads { IfOk result (λ demands. (out : Outcome)
            × ServerReads self.old.phase (self.old.held ++ more.now) out
            × (self.new ≡ after self.old out) × (map wanted demands.items ≡ out.wants)) }
        ensures asked { IfOk result
            (λ demands. All (λ demand. IsAskedIn self.new.asked (wanted demand)) demands.items) }
        ensures err { OnErr result (self.new ≡ self.old) }
    {
        match take_both(self.held.alloc(), self.held.as_slice(), more)? {
            Some(taken) => self.keep_rest(taken, more),
            None => self.read_whole(more),
        }
    }

    // What was read of what is held and of these bytes behind it, of which what wasn't read is held
    // now. The error is want of memory, and changes nothing.
    fn keep_rest(
        &mut self,
        taken: TakenItem<A>,
        more: &[u8],
    ) -> Result<Vec<Demand<A>, A>, AllocError>
        requires open { self.old.phase ≡ Opened }
        requires reads { ReadsOn [] (self.old.held ++ more.now) (outcome_of Opened more.now taken) }
        requires len { taken.len ≤ length more.now }
        ensures reads { IfOk result (λ demands. (out : Outcome)
            × ServerReads self.old.phase (self.old.held ++ more.now) out
            × (self.new ≡ after self.old out) × (map wanted demands.items ≡ out.wants)) }
        ensures asked { IfOk result
            (λ demands. All (λ demand. IsAskedIn self.new.asked (wanted demand)) demands.items) }
        ensures err { OnErr result (self.new ≡ self.old) }
    {
        self.held.replace(more.split_at(taken.len).1)?;
        self.asked = self.asked.then(&taken.demands);
        self.phase.move_to(taken.stage);
        Ok(taken.demands)
    }

    // Whether more may be waited for, where what is held only begins an item.
    fn may_wait(&self) -> bool
        ensures { result ≡ true → MayWait self.now.phase self.now.held }
    {
        match &self.phase {
            Phase::Awaiting(_) => self.held.len() <= MOST_BEFORE_PING,
            Phase::Open | Phase::Closed => true,
        }
    }

    // What is held only begins an item, so nothing is to be done yet.
    fn wait(&self) -> Vec<Demand<A>, A>
        requires over { self.now.phase ≡ Over → ⊥ }
        requires may { MayWait self.now.phase self.now.held }
        requires begins { IsOpen self.now.held }
        ensures reads { (out : Outcome) × ServerReads self.now.phase self.now.held out
            × (self.now ≡ after self.now out) × (map wanted result.items ≡ out.wants) }
        ensures none { result.items ≡ [] }
    {
        Vec::new(self.held.alloc())
    }

    // Takes what is held and whole. The error is want of memory, and changes nothing.
    fn take_all(&mut self) -> Result<Vec<Demand<A>, A>, AllocError>
        requires { self.old.phase ≡ Over → ⊥ }
        ensures reads { IfOk result (λ demands. (out : Outcome)
            × ServerReads self.old.phase self.old.held out
            × (self.new ≡ after self.old out) × (map wanted demands.items ≡ out.wants)) }
        ensures asked { IfOk result
            (λ demands. All (λ demand. IsAskedIn self.new.asked (wanted demand)) demands.items) }
        ensures err { OnErr result (self.new ≡ self.old) }
    {
        let taken = self.read_all()?;
        self.outgoing.append(&taken.sends)?;
        self.asked = self.asked.then(&taken.demands);
        self.held.drop_front(taken.len);
        self.phase.move_to(taken.stage);
        Ok(taken.demands)
    }

    // What the bytes that are held come to.
    fn read_all(&self) -> Result<TakenItem<A>, AllocError>
        requires { self.now.phase ≡ Over → ⊥ }
        ensures reads { IfOk result (λ taken.
            ServerReads self.now.phase self.now.held
            (outcome_of self.now.phase self.now.held taken)) }
        ensures len { IfOk result (λ taken. taken.len ≤ length self.now.held) }
    {
        let alloc = self.held.alloc();
        match &self.phase {
            Phase::Awaiting(server) => take_ping(alloc, server, self.held.as_slice()),
            _ => take_messages(alloc, Vec::new(alloc), self.held.as_slice()),
        }
    }

    /// Takes the answer to a message that was demanded to be delivered: its bytes are outgoing from
    /// now on.
    ///
    /// The error is want of memory. It changes nothing, and hands the answer back.
    pub fn answer(&mut self, reserved: Reserved<A>) -> Result<(), Unanswered<A>>
        requires filled { IsSome reserved.filled }
        requires made { Contains self.old.asked reserved.asked }
        ensures ok { OnOk result ((answer : Answer) × (reserved.filled ≡ Some answer)
            × (self.new ≡ record
            self.old {
              outgoing = self.old.outgoing ++ answer.bytes;
              taken = self.old.taken ++ reserved ∷ [];
            })) }
        ensures back { IfErr result (λ e. e.reserved ≡ reserved) }
        ensures err { OnErr result (self.new ≡ self.old) }
    {
        if put_answer(&mut self.outgoing, &reserved).is_err() {
            return Err(Unanswered { reserved });
        }
        self.taken = self.taken.then(&reserved);
        Ok(())
    }

    /// What is to be sent.
    pub fn outgoing(&self) -> &[u8]
        ensures { result.now ≡ self.now.outgoing }
    {
        self.outgoing.as_slice()
    }

    /// The first n bytes of what is outgoing were sent.
    pub fn sent(&mut self, n: usize)
        requires { n ≤ length self.old.outgoing }
        ensures { self.new ≡ record self.old { outgoing = drop n self.old.outgoing } }
    {
        self.outgoing.sent(n);
    }

    /// Whether a PING has to come first: the client hasn't shown the key.
    pub fn awaits_ping(&self) -> bool
        ensures { result ≡ awaits_ping self.now.phase }
    {
        matches!(&self.phase, Phase::Awaiting(_))
    }

    /// How many bytes it holds of what isn't whole.
    pub fn held_len(&self) -> usize
        ensures { result ≡ length self.now.held }
    {
        self.held.len()
    }

    /// What each message asked for that was demanded to be delivered, in order: for contracts
    /// alone.
    pub fn asked(&self) -> &AskedSoFar<A>
        ensures { result.now.all ≡ self.now.asked }
    {
        &self.asked
    }

    /// The answers that were taken, in order: for contracts alone.
    pub fn taken(&self) -> &TakenSoFar<A>
        ensures { result.now.all ≡ self.now.taken }
    {
        &self.taken
    }
}

/// An answer for which there was no memory.
#[derive(Drop)]
pub struct Unanswered<A: Allocator> {
    pub reserved: Reserved<A>,
}

// The answer is to be sent. The error is want of memory, and changes nothing.
fn put_answer<A: Allocator>(
    outgoing: &mut Outbox<A>,
    reserved: &Reserved<A>,
) -> Result<(), AllocError>
    requires { IsSome reserved.now.filled }
    ensures ok { OnOk result ((answer : Answer) × (reserved.now.filled ≡ Some answer)
        × (outgoing.new ≡ outgoing.old ++ answer.bytes)) }
    ensures err { OnErr result (outgoing.new ≡ outgoing.old) }
{
    match reserved.answer() {
        Some(bytes) => outgoing.append(bytes),
        None => Ok(()),
    }
}
