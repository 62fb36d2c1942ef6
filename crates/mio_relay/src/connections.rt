//! The connections of a loop, by their keys.

ghost use Rattle.std.specs.Prelude.{ℕ, ◌≡◌, ◌≤◌, ◌+◌, [], List, Option, None, Some, false, true, length, slice_get, slice_index_or, IfOk, IfSome, IsSomeAnd, OnOk};
ghost use Rattle.loop_core.specs.Lanes.{KeepsLanes, NoneLater};
ghost use Rattle.mio_relay.specs.Holding.{HoldsMost, held_in, most_held};
ghost use Rattle.mio_relay.specs.Connections.{AreFlushed, AreFlushedBelow, AreInTime, AreInTimeBelow, AreServed, AreSettled, AreSettledBelow, GoOn, GoesOn, ConnectionState, HoldsFlushed, HoldsInTime, HoldsNone, IsServed, MayClose, Served};
ghost use Rattle.mio_relay.specs.Turning.{AreNumbered, EachKey, at_key, MayGet, MayLose, StandOn, StandsOn};

use crate::connection::{Connection, ConnectionParts, NoNumber};
use crate::holding::{heaviest_of, held_in};
use ack_receipt::Numbers;
use disk_files::Dir;
use loop_core::Lanes;
use relay_sockets::{NetFault, Network, Wire};
use slab::Slab;
use std::alloc::{AllocError, Allocator};
use std::marker::Model;
use std::sync::Wait;

/// Connections by keys, which a slab gives and takes back: it can't hold the connections
/// themselves, since these can't be dropped.
pub struct Connections<S: Wire, A: Allocator> {
    keys: Slab<(), A>,
    slots: Vec<Option<Connection<S, A>>, A>,
}

impl<S: Wire, A: Allocator> Model for Connections<S, A> {
    ghost use Rattle.std.specs.Prelude.{List, Option};
    ghost use Rattle.mio_relay.specs.Connections.{ConnectionState};

    ghost Value = { List (Option ConnectionState) };

    ghost view = { λ c. c.slots.items };
}

/// A key that no connection has: `make_room` finds it, and nobody else makes one. So a connection
/// is put at the key under which it is watched.
#[derive(Drop)]
pub struct VacantKey(usize);

impl VacantKey {
    /// Has a connection noted under this key from now on. See `Network::watch`.
    pub fn watch<N: Network>(&self, network: &mut N, stream: &mut N::Stream) -> Result<(), NetFault>
        ensures bound { N.bound network.new ≡ N.bound network.old }
        ensures time { N.time network.new ≡ N.time network.old }
        ensures origin { N.Stream.origin stream.new ≡ N.Stream.origin stream.old }
        ensures bytes { N.Stream.traffic stream.new ≡ N.Stream.traffic stream.old }
    {
        network.watch(stream, self.0)
    }
}

impl<S: Wire + Drop, A: Allocator + Copy> Connections<S, A> {
    /// None yet.
    pub fn new(alloc: A) -> Self
        ensures { result ≡ [] }
    {
        Connections {
            keys: Slab::new(alloc),
            slots: Vec::new(alloc),
        }
    }

    /// How many there are.
    pub fn count(&self) -> usize {
        self.keys.len()
    }

    /// Each key is below this.
    pub fn key_end(&self) -> usize
        ensures { result ≡ length self.now }
    {
        self.slots.len()
    }

    /// Makes room for one more, and gives the key that it is to have; `None` where there is none.
    /// The error is want of memory.
    pub fn make_room(&mut self) -> Result<Option<VacantKey>, AllocError>
        ensures goes { GoOn self.old self.new }
        ensures stands { StandOn self.old self.new }
        ensures vacant { IfOk result (λ found. IfSome found (λ key.
            slice_get self.new key.0 ≡ Some None)) }
    {
        self.keys.reserve(1)?;
        let key = self.keys.vacant_key();
        grow_to(&mut self.slots, key)?;
        Ok(vacant_at(&self.slots, key))
    }

    /// Puts a connection at this key, and gives it back where it can't stay: there is no room, or
    /// one is there.
    pub fn put(&mut self, key: VacantKey, connection: Connection<S, A>) -> Option<Connection<S, A>>
        ensures served { (sources : List Served) → AreServed sources self.old
            → IsServed sources connection → AreServed sources self.new }
        ensures gets { EachKey (MayGet connection) self.old self.new }
        ensures others { (k : ℕ) (none : Option ConnectionState) → (k ≡ key.0 → ⊥)
            → slice_index_or self.new k none ≡ slice_index_or self.old k none }
    {
        let VacantKey(key) = key;
        match self.keys.insert(()) {
            Ok(given) if given == key => {}
            _ => return Some(connection),
        }
        let Some(slot) = self.slots.get_mut(key) else {
            return Some(connection);
        };
        put_in(slot, connection)
    }

    /// Takes the connection at this key, if there is one that is to be closed at this time.
    pub fn take(&mut self, key: usize, time: u64) -> Option<Connection<S, A>>
        ensures goes { GoOn self.old self.new }
        ensures keys { length self.new ≡ length self.old }
        ensures settled { AreSettled self.old → AreSettled self.new }
        ensures flushed { AreFlushed self.old → AreFlushed self.new }
        ensures over { IfSome result (MayClose time) }
        ensures loses { EachKey (MayLose time) self.old self.new }
        ensures in_time { AreInTimeBelow time key self.old
            → AreInTimeBelow time (key + 1) self.new }
    {
        let Some(slot) = self.slots.get_mut(key) else {
            return None;
        };
        let taken = take_slot(slot, time);
        if taken.is_some() {
            let _ = self.keys.try_remove(key);
        }
        taken
    }

    /// How many bytes of what isn't whole they hold together; or some number past what they may
    /// hold, where it is more.
    pub fn held(&self) -> usize
        ensures { result ≤ most_held → held_in self.now ≤ most_held }
    {
        held_in(&self.slots)
    }

    /// The key of one that holds no less of what isn't whole than any other.
    pub fn heaviest(&self) -> usize
        ensures { HoldsMost result self.now }
    {
        heaviest_of(&self.slots)
    }

    /// The connection at this key is broken off, since it holds most of what isn't whole.
    pub fn shed(&mut self, key: usize)
        ensures goes { GoOn self.old self.new }
        ensures stands { StandOn self.old self.new }
        ensures keys { length self.new ≡ length self.old }
        ensures settled { AreSettled self.old → AreSettled self.new }
        ensures flushed { AreFlushed self.old → AreFlushed self.new }
        ensures in_time { (time : ℕ) → AreInTime time self.old → AreInTime time self.new }
        ensures others { (k : ℕ) (none : Option ConnectionState) → (k ≡ key → ⊥)
            → slice_index_or self.new k none ≡ slice_index_or self.old k none }
    {
        let Some(slot) = self.slots.get_mut(key) else {
            return;
        };
        shed_slot(slot);
    }

    /// The network says this of the connection at this key.
    pub fn note(&mut self, key: usize, is_readable: bool, is_writable: bool, is_ended: bool)
        ensures goes { GoOn self.old self.new }
        ensures stands { StandOn self.old self.new }
    {
        let Some(slot) = self.slots.get_mut(key) else {
            return;
        };
        note_slot(slot, is_readable, is_writable, is_ended);
    }

    /// Whether the connection at this key is known to have more to be read.
    pub fn wants_reading(&self, key: usize) -> bool {
        match self.slots.get(key) {
            Some(Some(connection)) => connection.wants_reading(),
            _ => false,
        }
    }

    /// Reads a few pieces for the connection at this key, if its stream has some, and has them
    /// received. See `Connection::read`.
    pub fn read<R: Wait, D: Dir + Drop>(
        &mut self,
        key: usize,
        rt: &R,
        alloc: A,
        piece: &mut [u8],
        lanes: &mut Lanes<D, A>,
        numbers: &mut Numbers,
    ) -> Result<(), NoNumber>
        ensures goes { GoOn self.old self.new }
        ensures stands { StandOn self.old self.new }
        ensures numbered { OnOk result
            (AreNumbered numbers.old numbers.new (at_key self.old key) (at_key self.new key)) }
        ensures drawn { numbers.old ≤ numbers.new }
        ensures lanes { KeepsLanes lanes.old lanes.new }
        ensures time { lanes.new.time ≡ lanes.old.time }
    {
        let Some(slot) = self.slots.get_mut(key) else {
            return Ok(());
        };
        read_slot(slot, rt, alloc, piece, lanes, numbers)
    }

    /// Ends the deliveries of the connection at this key that have what they wait for.
    pub fn settle<R: Wait, D: Dir + Drop>(
        &mut self,
        key: usize,
        rt: &R,
        alloc: A,
        lanes: &mut Lanes<D, A>,
    )
        ensures goes { GoOn self.old self.new }
        ensures stands { StandOn self.old self.new }
        ensures lanes { lanes.new ≡ lanes.old }
        ensures keys { length self.new ≡ length self.old }
        ensures settled { NoneLater lanes.old.later → AreSettledBelow key self.old
            → AreSettledBelow (key + 1) self.new }
    {
        let Some(slot) = self.slots.get_mut(key) else {
            return;
        };
        settle_slot(slot, rt, alloc, lanes);
    }

    /// Writes what is outgoing to the connection at this key.
    pub fn write<R: Wait>(&mut self, key: usize, rt: &R)
        ensures goes { GoOn self.old self.new }
        ensures stands { StandOn self.old self.new }
        ensures settled { AreSettled self.old → AreSettled self.new }
        ensures keys { length self.new ≡ length self.old }
        ensures flushed { AreFlushedBelow key self.old → AreFlushedBelow (key + 1) self.new }
    {
        let Some(slot) = self.slots.get_mut(key) else {
            return;
        };
        write_slot(slot, rt);
    }

    /// Ends all of them; what waits is abandoned.
    pub fn end<R: Wait, D: Dir + Drop>(self, rt: &R, lanes: &mut Lanes<D, A>)
        ensures { lanes.new ≡ lanes.old }
    {
        let Connections { keys: _, slots } = self;
        let mut rest = slots.into_iter();
        while let Some(slot) = rest.next() {
            if let Some(connection) = slot {
                let ConnectionParts { stream: _, peer } = connection.into_parts();
                peer.end(rt, lanes);
            }
        }
        rest.destroy_empty();
    }
}

// One more place, where the key is that of the next one. The error is want of memory.
fn grow_to<S: Wire, A: Allocator + Copy>(
    slots: &mut Vec<Option<Connection<S, A>>, A>,
    key: usize,
) -> Result<(), AllocError>
    ensures goes { GoOn slots.old.items slots.new.items }
    ensures stands { StandOn slots.old.items slots.new.items }
{
    if slots.len() == key {
        slots.reserve(1)?;
        slots.push_reserved(None);
    }
    Ok(())
}

// The key, if its place is there and has no connection.
fn vacant_at<S: Wire, A: Allocator + Copy>(
    slots: &[Option<Connection<S, A>>],
    key: usize,
) -> Option<VacantKey>
    ensures { IfSome result (λ key. slice_get slots.now key.0 ≡ Some None) }
{
    match slots.get(key) {
        Some(None) => Some(VacantKey(key)),
        _ => None,
    }
}

// Puts the connection there, and gives it back where one is.
fn put_in<S: Wire, A: Allocator + Copy>(
    slot: &mut Option<Connection<S, A>>,
    connection: Connection<S, A>,
) -> Option<Connection<S, A>>
    ensures { MayGet connection slot.old slot.new }
{
    if slot.is_some() {
        return Some(connection);
    }
    slot.replace(connection)
}

// Takes the connection, if there is one that is to be closed at this time.
fn take_slot<S: Wire, A: Allocator + Copy>(
    slot: &mut Option<Connection<S, A>>,
    time: u64,
) -> Option<Connection<S, A>>
    ensures goes { GoesOn slot.old slot.new }
    ensures settled { HoldsNone slot.old → HoldsNone slot.new }
    ensures flushed { HoldsFlushed slot.old → HoldsFlushed slot.new }
    ensures over { IfSome result (MayClose time) }
    ensures loses { MayLose time slot.old slot.new }
    ensures in_time { HoldsInTime time slot.new }
{
    if is_over_at(slot, time) {
        slot.take()
    } else {
        None
    }
}

// Whether there is a connection that is to be closed at this time.
fn is_over_at<S: Wire, A: Allocator + Copy>(slot: &Option<Connection<S, A>>, time: u64) -> bool
    ensures over { result ≡ true → IsSomeAnd slot.now (MayClose time) }
    ensures in_time { result ≡ false → HoldsInTime time slot.now }
{
    match slot {
        Some(connection) => connection.is_over(time),
        None => false,
    }
}

fn shed_slot<S: Wire, A: Allocator + Copy>(slot: &mut Option<Connection<S, A>>)
    ensures goes { GoesOn slot.old slot.new }
    ensures stands { StandsOn slot.old slot.new }
    ensures settled { HoldsNone slot.old → HoldsNone slot.new }
    ensures flushed { HoldsFlushed slot.old → HoldsFlushed slot.new }
    ensures in_time { (time : ℕ) → HoldsInTime time slot.old → HoldsInTime time slot.new }
{
    if let Some(connection) = slot {
        connection.shed();
    }
}

fn note_slot<S: Wire, A: Allocator + Copy>(
    slot: &mut Option<Connection<S, A>>,
    is_readable: bool,
    is_writable: bool,
    is_ended: bool,
)
    ensures goes { GoesOn slot.old slot.new }
    ensures stands { StandsOn slot.old slot.new }
{
    if let Some(connection) = slot {
        connection.note(is_readable, is_writable, is_ended);
    }
}

fn read_slot<S: Wire, R: Wait, D: Dir + Drop, A: Allocator + Copy>(
    slot: &mut Option<Connection<S, A>>,
    rt: &R,
    alloc: A,
    piece: &mut [u8],
    lanes: &mut Lanes<D, A>,
    numbers: &mut Numbers,
) -> Result<(), NoNumber>
    ensures goes { GoesOn slot.old slot.new }
    ensures stands { StandsOn slot.old slot.new }
    ensures numbered { OnOk result (AreNumbered numbers.old numbers.new slot.old slot.new) }
    ensures drawn { numbers.old ≤ numbers.new }
    ensures lanes { KeepsLanes lanes.old lanes.new }
    ensures time { lanes.new.time ≡ lanes.old.time }
{
    match slot {
        Some(connection) => connection.read(rt, alloc, piece, lanes, numbers),
        None => Ok(()),
    }
}

fn settle_slot<S: Wire, R: Wait, D: Dir + Drop, A: Allocator + Copy>(
    slot: &mut Option<Connection<S, A>>,
    rt: &R,
    alloc: A,
    lanes: &mut Lanes<D, A>,
)
    ensures goes { GoesOn slot.old slot.new }
    ensures stands { StandsOn slot.old slot.new }
    ensures lanes { lanes.new ≡ lanes.old }
    ensures settled { NoneLater lanes.old.later → HoldsNone slot.new }
{
    if let Some(connection) = slot {
        connection.settle(rt, alloc, lanes);
    }
}

fn write_slot<S: Wire, R: Wait, A: Allocator + Copy>(slot: &mut Option<Connection<S, A>>, rt: &R)
    ensures goes { GoesOn slot.old slot.new }
    ensures stands { StandsOn slot.old slot.new }
    ensures settled { HoldsNone slot.old → HoldsNone slot.new }
    ensures flushed { HoldsFlushed slot.new }
{
    if let Some(connection) = slot {
        connection.write(rt);
    }
}
