//! A loop with two clients on sockets, turned by hand, and what is left of its deliveries beside
//! the books of its buffers.

use crate::talks::{APART, IN_TURN, Round, Talk};
use ack_receipt::{SharedBuffer, Stub};
use disk_files::{Dir, MemoryDir};
use loop_core::{Folders, MemoryFolders};
use mio_relay::{Ended, InLoop};
use relay_conf::Relay;
use relay_sockets::Network;
use std::alloc::Global;
use std::io::{ErrorKind, Read, Write};
use std::net::{Ipv4Addr, Net, OpenStream, SocketAddr, TcpStream};
use std::random::RandomSource;
use std::sync::atomic::AtomicBool;
use std::sync::{Arc, Wait};
use std::time::{Clock, Duration};

// A client of the loop's only source.
fn client<R: Net, N: Network + Drop, D: Dir + Drop>(
    rt: &R,
    turning: &InLoop<N, D, Global>,
) -> Option<R::Stream> {
    match turning.port(0) {
        Some(port) => client_at(rt, port),
        None => None,
    }
}

// A client of this port.
fn client_at<R: Net>(rt: &R, port: u16) -> Option<R::Stream> {
    let address = SocketAddr::from((Ipv4Addr::LOCALHOST, port));
    let Ok(stream) = TcpStream::connect_timeout(rt, &address, Duration::from_secs(5)) else {
        return None;
    };
    if stream
        .set_read_timeout(Some(Duration::from_millis(200)))
        .is_ok()
    {
        return Some(stream);
    }
    None
}

// Twenty turns, or those up to a fault: whether there is none.
fn turns<R: Wait, N: Network + Drop, D: Dir + Drop>(
    rt: &R,
    turning: &mut InLoop<N, D, Global>,
) -> bool {
    for _ in 0..20u32 {
        if turning.fault().is_some() || turning.turn(rt).is_err() {
            return false;
        }
    }
    true
}

// Whether this byte comes next.
fn hears_byte<S: Read>(stream: &mut S, byte: u8) -> bool {
    let mut one = [0u8; 1];
    stream.read_exact(&mut one).is_ok() && one[0] == byte
}

// Whether nothing comes for now.
fn is_silent<S: Read>(stream: &mut S) -> bool {
    match stream.read(&mut [0u8; 1]) {
        Err(e) => e.kind() == ErrorKind::WouldBlock || e.kind() == ErrorKind::TimedOut,
        Ok(_) => false,
    }
}

// Whether these bytes come, and no others.
fn hears<S: Read>(stream: &mut S, wanted: &[u8]) -> bool {
    for byte in wanted {
        if !hears_byte(stream, *byte) {
            return false;
        }
    }
    is_silent(stream)
}

// Whether both clients hear what they should in this round.
fn hear<R, N, D, S>(
    rt: &R,
    turning: &mut InLoop<N, D, Global>,
    one: &mut S,
    two: &mut S,
    round: &Round,
) -> bool
where
    R: Wait,
    N: Network + Drop,
    D: Dir + Drop,
    S: Read + Write,
{
    one.write_all(round.one.written).is_ok()
        && two.write_all(round.two.written).is_ok()
        && turns(rt, turning)
        && hears(one, round.one.heard)
        && hears(two, round.two.heard)
}

// The same in each of these rounds.
fn hear_all<R, N, D, S>(
    rt: &R,
    turning: &mut InLoop<N, D, Global>,
    one: &mut S,
    two: &mut S,
    rounds: &[Round],
) -> bool
where
    R: Wait,
    N: Network + Drop,
    D: Dir + Drop,
    S: Read + Write,
{
    for round in rounds {
        if !hear(rt, turning, one, two, round) {
            return false;
        }
    }
    true
}

// The same of this client and another one.
fn talk_with_another<R, N, D>(
    rt: &R,
    turning: &mut InLoop<N, D, Global>,
    one: &mut R::Stream,
    rounds: &[Round],
) -> bool
where
    R: Wait + Net,
    N: Network + Drop,
    D: Dir + Drop,
{
    match client(rt, turning) {
        Some(mut two) => hear_all(rt, turning, one, &mut two, rounds),
        None => false,
    }
}

// The same of two clients.
fn both_talk<R, N, D>(rt: &R, turning: &mut InLoop<N, D, Global>, rounds: &[Round]) -> bool
where
    R: Wait + Net,
    N: Network + Drop,
    D: Dir + Drop,
{
    match client(rt, turning) {
        Some(mut one) => talk_with_another(rt, turning, &mut one, rounds),
        None => false,
    }
}

// The loop's buffers, for a look into their books once it has ended.
fn shelves_of<N: Network + Drop, D: Dir + Drop>(
    alloc: Global,
    turning: &InLoop<N, D, Global>,
) -> Option<Vec<Arc<SharedBuffer<D, Global>>>> {
    let mut shelves = Vec::new(alloc);
    for shelf in turning.buffers() {
        let Ok(shelf) = Arc::try_clone(shelf) else {
            return None;
        };
        if shelves.push(shelf).is_err() {
            return None;
        }
    }
    Some(shelves)
}

// Whether the book of this buffer, which nobody else has, accounts for what is left of deliveries.
fn is_accounted<D: Dir + Drop>(
    alloc: Global,
    shelf: Arc<SharedBuffer<D, Global>>,
    stubs: &[Stub<Global>],
) -> bool {
    match Arc::into_inner(shelf) {
        Some(shelf) => {
            let closed = shelf.close();
            let is_accounted = closed.audit(alloc, stubs).is_ok();
            drop(closed.into_dir());
            is_accounted
        }
        None => false,
    }
}

// The same of the books of all these buffers.
fn are_accounted<D: Dir + Drop>(
    alloc: Global,
    shelves: Vec<Arc<SharedBuffer<D, Global>>>,
    stubs: &[Stub<Global>],
) -> bool {
    let mut all = true;
    for shelf in shelves {
        all = is_accounted(alloc, shelf, stubs) && all;
    }
    all
}

// Whether these are what is left of as many deliveries, of so many parts each.
fn have_parts(stubs: &[Stub<Global>], parts: &[usize]) -> bool {
    for (stub, count) in stubs.iter().zip(parts) {
        if stub.parts.len() != *count {
            return false;
        }
    }
    stubs.len() == parts.len()
}

// Ends a loop.
fn ended<R: Wait, N: Network + Drop, D: Dir + Drop>(
    rt: &R,
    turning: InLoop<N, D, Global>,
) -> Ended<Global> {
    let stop = AtomicBool::new(true);
    turning.run(rt, &stop)
}

// Whether two clients of this loop hear what they should, and what is left of their deliveries has
// the parts that it should, for which the books of the loop's buffers account.
fn ends<R, N, D>(rt: &R, alloc: Global, turning: InLoop<N, D, Global>, talk: &Talk) -> bool
where
    R: Wait + Net,
    N: Network + Drop,
    D: Dir + Drop,
{
    let mut turning = turning;
    turning.keep_stubs();
    let is_heard = both_talk(rt, &mut turning, talk.rounds);
    let shelves = shelves_of(alloc, &turning);
    let left = ended(rt, turning);
    let is_accounted = match shelves {
        Some(shelves) => are_accounted(alloc, shelves, left.stubs()),
        None => false,
    };
    is_heard && is_accounted && left.fault().is_none() && have_parts(left.stubs(), talk.parts)
}

// The relay that the text describes; each of its sources takes any port that is free.
fn relay_of(alloc: Global, text: &str) -> Option<Relay<Global>> {
    let Ok(elements) = conf_text::read(alloc, text.as_bytes()) else {
        return None;
    };
    match Relay::read(alloc, &elements) {
        Ok(mut relay) => {
            for source in relay.sources.iter_mut() {
                source.port = 0;
            }
            Some(relay)
        }
        Err(_) => None,
    }
}

// The same of a loop of the talk's relay, with buffers in these folders.
fn is_right<R, D, F>(rt: &R, folders: &F, talk: &Talk) -> bool
where
    R: Wait + Clock + Net + RandomSource + AllocGlobal + Clone + Drop,
    D: Dir + Drop,
    F: Folders<D, Global>,
{
    let Some(relay) = relay_of(rt.alloc(), talk.relay) else {
        return false;
    };
    match InLoop::open_in(rt, rt.alloc(), relay, 1, folders) {
        Ok(turning) => ends(rt, rt.alloc(), turning, talk),
        Err(_) => false,
    }
}

// The same with buffers in memory, in the one function that names their folders.
fn is_right_in_memory<R>(rt: &R, talk: &Talk) -> bool
where
    R: Wait + Clock + Net + RandomSource + AllocGlobal + Clone + Drop,
{
    let folders = MemoryFolders { alloc: rt.alloc() };
    is_right::<R, MemoryDir<Global>, MemoryFolders<Global>>(rt, &folders, talk)
}

#[test]
fn books_account_for_two_clients(rt: HostRuntime) {
    assert!(rt; is_right_in_memory(&rt, &APART));
}

#[test]
fn books_account_behind_a_full_buffer(rt: HostRuntime) {
    assert!(rt; is_right_in_memory(&rt, &IN_TURN));
}
