//! A relay is read, opened and run: its ports are printed once they are ready, and its fault in the
//! end.

ghost use Rattle.std.specs.Prelude.{◌≡◌, ◌≢◌, [], None, IfOk, IfSome, IfNone};
ghost use Rattle.plan_lines.specs.Forms.{relay_number};
ghost use Rattle.relay_ports.specs.Setups.{setup_of};
ghost use Rattle.relay_run.specs.Loops.{IsOpened, relay_of};
ghost use Rattle.relay_run.specs.Starting.{fault_line as fault_line_of, EndsBy, PrintsEnd, PrintsReady, PrintsRelay, PrintsRun};

use crate::flush::{Home, copy_of};
use crate::running::Running;
use crate::voice::Voice;
use conf_values::whole_number;
use loop_core::LoopFault;
use mio_relay::BoundRelay;
use program_text::{CountedRead, Status, print_conf_stop, put_all, put_last, read_relay};
use relay_conf::Relay;
use relay_ports::RelaySetup;
use relay_sockets::{NetFault, Network, SocketNetwork};
use std::alloc::Global;
use std::io::Write;
use std::marker::Model;
use std::net::{Net, TcpListener, TcpStream};
use std::random::RandomSource;
use std::sync::Wait;
use std::thread::Threads;
use std::time::Clock;

/// What runs relays: a handle of the runtime, and where the relay has its files. Contracts see the
/// path of that folder.
#[derive(Drop)]
pub struct Runner<'a, R> {
    rt: &'a R,
    home: Home<'a>,
}

impl<'a, R> Model for Runner<'a, R> {
    ghost use Rattle.std.specs.Prelude.{List, ℕ};

    ghost Value = { List ℕ };

    ghost view = { λ r. r.home.path.now };
}

impl<'a, R> Runner<'a, R>
where
    R: Wait
        + Threads
        + Net<Listener = TcpListener, Stream = TcpStream>
        + Clock
        + RandomSource
        + Eprint
        + AllocGlobal
        + Clone
        + Drop
        + Send
        + Sync
        + 'static,
{
    /// Runs relays with files there.
    pub fn new(rt: &'a R, home: Home<'a>) -> Self
        ensures { result ≡ home.entry.path.now }
    {
        Runner { rt, home }
    }

    /// Runs the relay of this configuration under this number until a fault: prints `ready` and the
    /// port of each source once clients can connect, and in the end the fault. `None` where the
    /// number is none: then nothing is read or printed.
    pub fn run_relay<I: CountedRead, W: Write>(
        &self,
        conf: &mut I,
        number: &str,
        out: &mut W,
    ) -> Option<Status>
        ensures number { IfSome result (λ _. relay_number number.now ≢ None) }
        ensures none { IfNone result (relay_number number.now ≡ None) }
        ensures printed { IfSome result (λ status. IfSome (relay_number number.now) (λ n.
            PrintsRelay self.now n (I.remaining conf.old) (W.contents out.old)
            (W.contents out.new) status)) }
        ensures nothing { IfNone result (out.new ≡ out.old) }
    {
        let number = number_of(number)?;
        Some(self.run_conf(conf, number, out))
    }

    // Runs the relay of this configuration, or prints why there is none.
    fn run_conf<I: CountedRead, W: Write>(&self, conf: &mut I, number: u32, out: &mut W) -> Status
        ensures { PrintsRelay self.now number (I.remaining conf.old) (W.contents out.old)
            (W.contents out.new) result }
    {
        let alloc = self.rt.alloc();
        match read_relay(alloc, conf) {
            Ok(relay) => self.run_read(relay, number, out),
            Err(stop) => print_conf_stop(alloc, stop, out),
        }
    }

    // Opens the relay and runs it, and prints what there is to print of it. What else is to be said
    // of it is said meanwhile.
    fn run_read<W: Write>(&self, relay: Relay<Global>, number: u32, out: &mut W) -> Status
        ensures { PrintsRun self.now number relay (W.contents out.old)
            (W.contents out.new) result }
    {
        match Voice::start(self.rt, self.home, &relay) {
            Ok(voice) => self.run_heard(relay, number, voice, out),
            Err(fault) => put_last(out, fault_line(fault).as_bytes(), Status::Usage),
        }
    }

    // The same with this voice, which ends behind it.
    fn run_heard<W: Write>(
        &self,
        relay: Relay<Global>,
        number: u32,
        voice: Voice,
        out: &mut W,
    ) -> Status
        ensures { PrintsRun self.now number relay (W.contents out.old)
            (W.contents out.new) result }
    {
        let status = self.run_with(relay, number, &voice, out);
        voice.end(self.rt);
        status
    }

    // Opens the relay and runs it, and prints what there is to print of it.
    fn run_with<W: Write>(
        &self,
        relay: Relay<Global>,
        number: u32,
        voice: &Voice,
        out: &mut W,
    ) -> Status
        ensures { PrintsRun self.now number relay (W.contents out.old)
            (W.contents out.new) result }
    {
        match self.open(relay, number, voice) {
            Ok(running) => {
                voice.keep_state();
                self.run_open(running, voice, out)
            }
            Err(fault) => {
                voice.tell_end(self.rt, fault);
                put_last(out, fault_line(fault).as_bytes(), Status::Usage)
            }
        }
    }

    // Opens the relay under this number: it listens at its sources, its buffers are open, and so is
    // what delivers their chunks. Nothing is printed of it before.
    fn open(
        &self,
        relay: Relay<Global>,
        number: u32,
        voice: &Voice,
    ) -> Result<Running<R>, LoopFault>
        ensures { IfOk result
            (λ running. IsOpened self.now (setup_of number relay) (relay_of running)) }
    {
        let alloc = self.rt.alloc();
        let setup = RelaySetup::new(alloc, relay, number)?;
        let bound = BoundRelay::bind(self.rt, alloc, self.network()?, setup)?;
        Running::open(self.rt, self.home, bound, voice)
    }

    // Runs a relay that is open until a fault, and prints its sources, and why it ended.
    #[tactic(auto, using(crate::proofs::StartingSteps::ended_by))]
    fn run_open<W: Write>(&self, running: Running<R>, voice: &Voice, out: &mut W) -> Status
        ensures { PrintsEnd (relay_of running) (W.contents out.old) (W.contents out.new) result }
    {
        put_ready(&running, out);
        match self.run_to_end(running, voice) {
            Some(fault) => {
                voice.tell_end(self.rt, fault);
                put_last(out, fault_line(fault).as_bytes(), Status::Usage)
            }
            None => Status::Done,
        }
    }

    // Runs a relay that is open until a fault, and says which.
    fn run_to_end(&self, running: Running<R>, voice: &Voice) -> Option<LoopFault>
        ensures { EndsBy (relay_of running) result }
    {
        match running.run(self.rt, voice) {
            Ok(ran) => {
                ran.tell_failed(self.rt, voice);
                ran.fault()
            }
            Err(fault) => Some(fault),
        }
    }

    // The system's sockets, none of which listens yet.
    fn network(&self) -> Result<SocketNetwork<R, Global>, LoopFault>
        ensures { IfOk result
            (λ network. ⟦<SocketNetwork<R, Global> as Network>⟧.bound network ≡ []) }
    {
        match SocketNetwork::new(copy_of(self.rt)?, self.rt.alloc()) {
            Ok(network) => Ok(network),
            Err(NetFault::Memory) => Err(LoopFault::Memory),
            Err(_) => Err(LoopFault::Poll),
        }
    }
}

// The number of a relay that the word spells, as in a plan.
fn number_of(word: &str) -> Option<u32>
    ensures { result ≡ relay_number word.now }
{
    match whole_number(word.as_bytes()) {
        Some(number) if number <= 4_294_967_295 => Some(number as u32),
        _ => None,
    }
}

// The line of a fault that ended a relay. It takes no memory.
fn fault_line(fault: LoopFault) -> &'static str
    ensures { result.now ≡ fault_line_of fault }
{
    match fault {
        LoopFault::Bind => "fault Bind\n",
        LoopFault::Path => "fault Path\n",
        LoopFault::Poll => "fault Poll\n",
        LoopFault::Buffer(_) => "fault Buffer\n",
        LoopFault::NoNumber => "fault NoNumber\n",
        LoopFault::Memory => "fault memory\n",
    }
}

// Prints that the sources of a relay that is open take connections. Where the writer fails, the
// relay runs all the same.
#[tactic(auto, using(crate::proofs::StartingSteps::are_ready))]
fn put_ready<R: Net + Clock + Clone + Drop, W: Write>(running: &Running<R>, out: &mut W)
    ensures { PrintsReady running.now.ports (W.contents out.old) (W.contents out.new) }
{
    let _ = put_all(out, running.ready());
}
