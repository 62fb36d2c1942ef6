//! One message over a connection, and its acknowledgement.

ghost use Rattle.std.specs.Prelude.{◌≡◌, ◌≤◌, ◌<◌, ◌^◌, [], ◌++◌, length, List, ℕ, Option, Some, IfOk, OnOk};
ghost use Rattle.std.specs.List.{concat};
ghost use Rattle.event_modes.specs.declared.chunk_id.ChunkId.{ChunkId};
ghost use Rattle.event_modes.specs.Message.{longest_tag};
ghost use Rattle.ack_receipt.specs.Evidences.{Acknowledged};
ghost use Rattle.forward_core.specs.Client.{HasSent, Ready};
ghost use Rattle.tcp_courier.specs.Carrying.{NamesChunk};
ghost use Rattle.relay_sockets.specs.Traffics.{Conveys};
ghost use Rattle.tcp_courier.specs.Talks.{Acknowledges, TalksOn, Hears, ConveysChunk, IsGreeting, IsBare};

use crate::line::Line;
use ack_receipt::Evidence;
use disk_files::Dir;
use event_modes::Entries;
use flush_pool::{CarryFault, ClaimView};
use forward_core::{ClientSession, Heard};
use relay_sockets::{Moved, Time, Wire};
use std::alloc::Allocator;

/// Delivers a chunk with these entries by a session that begins: greets the server where that is
/// wanted, sends the message and, where it asks for an acknowledgement, waits for that. It gives
/// what shows that the chunk was acknowledged, or else written.
///
/// `Timeout` where no more is waited for, and `NoServer` where the connection is over. `Session`
/// where what comes is no part of a handshake, or no acknowledgement. `Memory`. After each of them
/// some of the message may be written.
pub fn deliver<T: Time, W: Wire, D: Dir, A: Allocator + Copy>(
    line: &mut Line<'_, T, W, A>,
    session: &mut ClientSession<A>,
    piece: &mut [u8],
    chunk: &ClaimView<'_, D, A>,
    entries: &Entries<A>,
    asks: bool,
) -> Result<Evidence<A>, CarryFault>
    requires bare { IsBare session.old }
    requires tag { length chunk.now.tag ≤ longest_tag }
    requires entries { length (concat entries.now) < 2 ^ 32 }
    ensures origin { W.origin line.new.wire ≡ W.origin line.old.wire }
    ensures names { IfOk result (NamesChunk asks chunk.now) }
    ensures delivered { OnOk result
        (ConveysChunk (W.traffic line.old.wire)
        (W.traffic line.new.wire) session.old.phase chunk.now entries.now asks) }
{
    greet(line, session, piece)?;
    session.send(chunk.tag(), entries, chunk.id(), asks)?;
    write_out(line, session)?;
    if !asks {
        return Ok(Evidence::written(chunk.claim()));
    }
    acknowledged(line, session, piece)
}

// Shakes hands, where that is wanted: then the session is ready.
fn greet<T: Time, W: Wire, A: Allocator + Copy>(
    line: &mut Line<'_, T, W, A>,
    session: &mut ClientSession<A>,
    piece: &mut [u8],
) -> Result<(), CarryFault>
    ensures origin { W.origin line.new.wire ≡ W.origin line.old.wire }
    ensures ready { OnOk result (session.new.phase ≡ Ready) }
    ensures greets { OnOk result
        ((greeting : List ℕ) × (items : List (List ℕ)) × IsGreeting session.old.phase greeting items
        × TalksOn (W.traffic line.old.wire)
        (W.traffic line.new.wire) session.old session.new greeting items) }
{
    for _ in 0..u64::MAX {
        write_out(line, session)?;
        if session.ready() {
            return Ok(());
        }
        if let Some(evidence) = hear(line, session, piece)? {
            evidence.waste();
        }
    }
    Err(CarryFault::Timeout)
}

// Writes all that is outgoing.
fn write_out<T: Time, W: Wire, A: Allocator + Copy>(
    line: &mut Line<'_, T, W, A>,
    session: &mut ClientSession<A>,
) -> Result<(), CarryFault>
    ensures origin { W.origin line.new.wire ≡ W.origin line.old.wire }
    ensures rest { OnOk result (session.new ≡ record session.old { outgoing = [] }) }
    ensures written { OnOk result
        (Conveys (W.traffic line.old.wire) (W.traffic line.new.wire) session.old.outgoing []) }
{
    for _ in 0..u64::MAX {
        if session.outgoing().is_empty() {
            return Ok(());
        }
        if line.is_late() {
            return Err(CarryFault::Timeout);
        }
        match line.put(session.outgoing()) {
            Moved::Some(n) => session.sent(n),
            Moved::None => {}
            Moved::Again => {}
            Moved::Ended | Moved::Broken => return Err(CarryFault::NoServer),
        }
    }
    Err(CarryFault::Timeout)
}

// Reads a piece, and lets the session hear it.
fn hear<T: Time, W: Wire, A: Allocator + Copy>(
    line: &mut Line<'_, T, W, A>,
    session: &mut ClientSession<A>,
    piece: &mut [u8],
) -> Result<Option<Evidence<A>>, CarryFault>
    ensures origin { W.origin line.new.wire ≡ W.origin line.old.wire }
    ensures came { IfOk result
        (λ heard. (came : List ℕ)
        × Conveys (W.traffic line.old.wire) (W.traffic line.new.wire) [] came
        × Hears session.old came heard session.new) }
{
    if line.is_late() {
        return Err(CarryFault::Timeout);
    }
    let n = match line.get(piece) {
        Moved::Some(n) => n,
        Moved::None | Moved::Again => return Ok(None),
        Moved::Ended | Moved::Broken => return Err(CarryFault::NoServer),
    };
    match session.feed(piece.split_at(n).0)? {
        Heard::Wait => Ok(None),
        Heard::Seen(evidence) => Ok(Some(evidence)),
        Heard::Fault(fault) => Err(CarryFault::Session(fault)),
    }
}

// Waits for the acknowledgement of what was sent.
fn acknowledged<T: Time, W: Wire, A: Allocator + Copy>(
    line: &mut Line<'_, T, W, A>,
    session: &mut ClientSession<A>,
    piece: &mut [u8],
) -> Result<Evidence<A>, CarryFault>
    ensures origin { W.origin line.new.wire ≡ W.origin line.old.wire }
    ensures names { (id : ChunkId) → session.old.phase ≡ HasSent (Some id)
        → IfOk result (λ evidence. evidence ≡ Acknowledged id) }
    ensures came { (id : ChunkId) → session.old.phase ≡ HasSent (Some id)
        → OnOk result ((came : List ℕ)
        × Conveys (W.traffic line.old.wire) (W.traffic line.new.wire) [] came
        × Acknowledges id (session.old.held ++ came)) }
{
    for _ in 0..u64::MAX {
        if let Some(evidence) = hear(line, session, piece)? {
            return Ok(evidence);
        }
    }
    Err(CarryFault::Timeout)
}
