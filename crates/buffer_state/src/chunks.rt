//! The chunks of a buffer, and its steps on them.

ghost use Rattle.std.specs.Prelude.{◌≡◌, ◌≤◌, ◌<◌, ◌^◌, ◌+◌, ◌⊎◌, [], ◌∷◌, ◌++◌, true, length, filter, slice_get, IfSome, IfNone, IfOk, IfErr, OnOk, OnErr, cond, ℕ, List, None, option_map};
ghost use Rattle.std.specs.List.{All};
ghost use Rattle.std.specs.List.Sorted.{IsStrictlySortedBy};
ghost use Rattle.std.specs.Map.{keys_of, values_of};
ghost use Rattle.std.specs.Ordering.{nat_cmp};
ghost use Rattle.std.specs.BTreeMap.{is_at};
ghost use Rattle.std.specs.BTreeSet.{contains};
ghost use Rattle.std.specs.VecDeque.{deque_len, deque_capacity};
ghost use Rattle.buffer_state.specs.State.{State, empty, chunk_at, size, size_at, total_size, is_queued, IsAt, IsStagedOf};
ghost use Rattle.buffer_state.specs.Steps.{CanAppend, planned, appended, queued_last, claimed, removed, settled, taken_back, oldest, greatest_size};
ghost use Rattle.buffer_state.specs.Slots.{chunks_in, slot_size, AreBelow};
ghost use Rattle.buffer_state.specs.Views.{passes_at, place_within, IsEndOf};
ghost use Rattle.buffer_state.specs.declared.chunk.Stage.TheVariants.{Staged, Queued, Claimed};

use crate::chunk::{Chunk, Stage};
use crate::limits::{AppendFault, GREATEST_SIZE, Limits};
use crate::table::Table;
use event_modes::Entries;
use std::alloc::{AllocError, Allocator};
use std::collections::{BTreeMap, BTreeSet, VecDeque};
use std::marker::Model;

/// The live chunks of a buffer, the serial that comes next, and the queue.
/// No step looks at all chunks.
pub struct Chunks<A: Allocator> {
    alloc: A,
    table: Table<A>,
    // the serials of queued and claimed chunks
    waiting: BTreeSet<u64, A>,
    // the queued serials in their order, among serials of chunks that are gone
    queue: VecDeque<u64, A>,
    next: u64,
}

// By hand, so that crates above don't prove again how its parts end.
impl<A: Allocator> Drop for Chunks<A> {
    fn drop(self) {
        let Chunks {
            alloc: _,
            table: _,
            waiting: _,
            queue: _,
            next: _,
        } = self;
    }
}

impl<A: Allocator> Model for Chunks<A> {
    ghost use Rattle.buffer_state.specs.State.{State};

    ghost Value = { State };

    ghost use Rattle.buffer_state.specs.Views.{state_of, IsSound};

    ghost view = { λ c. state_of c.table c.queue.items c.next };

    ghost invariant = { λ c. IsSound c.table c.waiting c.queue c.next };
}

impl<A: Allocator + Copy> Chunks<A> {
    /// No chunks, and 0 as the next serial.
    pub fn new(alloc: A) -> Self
        ensures { result ≡ empty }
    {
        Chunks {
            alloc,
            table: Table::new(alloc),
            waiting: BTreeSet::new(alloc),
            queue: VecDeque::new(alloc),
            next: 0,
        }
    }

    /// The serial of the next new chunk.
    pub fn next(&self) -> u64
        ensures { result ≡ self.now.next }
    {
        self.next
    }

    /// The live chunk of this serial.
    pub fn chunk(&self, serial: u64) -> Option<&Chunk<A>>
        ensures value { option_map (λ chunk. chunk.now.chunk) result ≡ chunk_at self.now serial }
        ensures small { IfSome result (λ chunk. size chunk.now.chunk.entries ≤ greatest_size) }
    {
        self.table.get(serial)
    }

    /// The live chunks, by rising serial.
    pub fn live(&self) -> &BTreeMap<u64, Chunk<A>, A>
        ensures chunks { chunks_in result.now.entries ≡ self.now.chunks }
        ensures small { All
            (λ slot. slot_size slot ≤ greatest_size) (values_of result.now.entries) }
        ensures rising { IsStrictlySortedBy nat_cmp (keys_of result.now.entries) }
        ensures below { AreBelow self.now.next (keys_of result.now.entries) }
    {
        self.table.live()
    }

    /// How many bytes of entries all live chunks have together.
    pub fn total(&self) -> u128
        ensures sum { result ≡ total_size self.now }
        ensures small { result < 2 ^ 88 }
    {
        self.table.total()
    }

    /// The stage of the live chunk of this serial.
    pub fn stage(&self, serial: u64) -> Option<Stage>
        ensures { result ≡ option_map (λ chunk. chunk.stage) (chunk_at self.now serial) }
    {
        match self.table.get(serial) {
            Some(chunk) => Some(chunk.stage()),
            None => None,
        }
    }

    /// The serial at which entries of this tag are to be appended, or why they are refused.
    pub fn plan<B: Allocator>(
        &self,
        limits: &Limits,
        tag: &[u8],
        entries: &Entries<B>,
    ) -> Result<u64, AppendFault>
        ensures place { result ≡ planned limits.now self.now tag.now entries.now }
        ensures can { IfOk result (λ serial. CanAppend self.now serial tag.now entries.now) }
        ensures near { IfOk result (λ serial. serial ≤ self.now.next) }
        ensures free { OnOk result (chunk_at self.now self.now.next ≡ None) }
    {
        let size = entries.as_bytes().len() as u64;
        let limit = limits.chunk.min(GREATEST_SIZE as u64);
        if size > limit {
            return Err(AppendFault::TooLarge);
        }
        if self.table.total() + size as u128 > limits.total as u128 {
            return Err(AppendFault::Full);
        }
        let place = self.place(limit, tag, size);
        if place == self.next && self.next == u64::MAX {
            return Err(AppendFault::LastSerial);
        }
        Ok(place)
    }

    /// Appends entries at this serial.
    ///
    /// The error is want of memory, and changes nothing.
    pub fn append(
        &mut self,
        serial: u64,
        tag: &[u8],
        entries: &Entries<A>,
    ) -> Result<(), AllocError>
        requires { CanAppend self.old serial tag.now entries.now }
        ensures ok { OnOk result (self.new ≡ appended serial tag.now entries.now self.old) }
        ensures err { OnErr result (self.new ≡ self.old) }
    {
        if serial < self.next {
            self.grow(serial, entries);
            return Ok(());
        }
        self.table.add(serial, tag, entries)?;
        self.next = serial + 1;
        Ok(())
    }

    /// Appends entries to the staged chunk of this serial. It takes no memory.
    pub fn grow(&mut self, serial: u64, entries: &Entries<A>)
        requires staged { IsAt Staged self.old serial }
        requires small { size_at self.old serial + size entries.now ≤ greatest_size }
        ensures { (tag : List ℕ) → self.new ≡ appended serial tag entries.now self.old }
    {
        self.table.grow(serial, entries);
    }

    /// Queues the staged chunk of this serial.
    ///
    /// The error is want of memory, and changes nothing.
    pub fn queue(&mut self, serial: u64) -> Result<(), AllocError>
        requires { IsAt Staged self.old serial }
        ensures ok { OnOk result (self.new ≡ queued_last serial self.old) }
        ensures err { OnErr result (self.new ≡ self.old) }
    {
        self.queue.reserve(self.waiting.len() + 1)?;
        let _ = self.waiting.insert(serial)?;
        self.table.put(serial, Stage::Queued);
        self.queue.push_back_reserved(serial);
        Ok(())
    }

    /// Makes all the room that queueing the staged chunk of this serial takes.
    ///
    /// The error is want of memory, and hands the chunks back.
    pub fn ready(self, serial: u64) -> Result<Ready<A>, Chunks<A>>
        requires { IsAt Staged self serial }
        ensures ok { IfOk result (λ ready. (ready.state ≡ self) × (ready.serial ≡ serial)) }
        ensures err { IfErr result (λ chunks. chunks ≡ self) }
    {
        let Chunks {
            alloc,
            table,
            mut waiting,
            mut queue,
            next,
        } = self;
        if make_room(&mut waiting, &mut queue, serial).is_err() {
            return Err(Chunks {
                alloc,
                table,
                waiting,
                queue,
                next,
            });
        }
        Ok(Ready {
            alloc,
            table,
            waiting,
            queue,
            next,
            serial,
        })
    }

    /// Takes the append of the newest chunk back: the chunk is gone, and its serial comes next
    /// again. It takes no memory.
    pub fn take_back(&mut self, serial: u64)
        requires staged { IsAt Staged self.old serial }
        requires newest { serial + 1 ≡ self.old.next }
        ensures gone { self.new ≡ taken_back serial self.old }
        ensures before { (before : State) (tag : List ℕ) (entries : List (List ℕ))
            → before.next ≡ serial → self.old ≡ appended serial tag entries before
            → self.new ≡ before }
    {
        self.table.remove(serial);
        self.next = serial;
    }

    /// The first of the queue.
    pub fn first(&self) -> Option<u64>
        ensures first { result ≡ slice_get self.now.queue 0 }
        ensures queued { IfSome result (IsAt Queued self.now) }
    {
        next_queued(&self.table, &self.queue)
    }

    /// Claims the first of the queue, and gives its serial.
    pub fn claim(&mut self) -> Option<u64>
        ensures first { result ≡ slice_get self.old.queue 0 }
        ensures queued { IfSome result (IsAt Queued self.old) }
        ensures state { self.new ≡ claimed self.old }
    {
        let serial = pop_queued(&self.table, &mut self.queue)?;
        self.table.put(serial, Stage::Claimed);
        Some(serial)
    }

    /// Puts the claimed chunk of this serial to the end of the queue. It takes no memory.
    pub fn give_back(&mut self, serial: u64)
        requires { IsAt Claimed self.old serial }
        ensures { self.new ≡ queued_last serial self.old }
    {
        self.table.put(serial, Stage::Queued);
        self.queue.push_back_reserved(serial);
    }

    /// Lets the chunk of this serial go.
    pub fn remove(&mut self, serial: u64)
        ensures { self.new ≡ removed serial self.old }
    {
        self.table.remove(serial);
        let _ = self.waiting.remove(&serial);
        trim(&self.table, &mut self.queue);
    }

    /// The queued chunk of least serial. It looks at the claimed chunks below it, and at no others.
    pub fn oldest(&self) -> Option<u64>
        ensures first { result ≡ oldest self.now }
        ensures queued { IfSome result (IsAt Queued self.now) }
    {
        first_queued(&self.table, &self.waiting)
    }

    /// Passes serials over.
    pub fn set_next(&mut self, next: u64)
        requires { self.old.next ≤ next }
        ensures { self.new ≡ record self.old { next = next } }
    {
        self.next = next;
    }

    /// Lets the queue go by rising serial.
    ///
    /// The error is want of memory, and changes nothing.
    pub fn settle(&mut self) -> Result<(), AllocError>
        ensures ok { OnOk result (self.new ≡ settled self.old) }
        ensures err { OnErr result (self.new ≡ self.old) }
    {
        self.queue.reserve(self.waiting.len() + self.waiting.len())?;
        self.queue.clear();
        refill(&self.table, &self.waiting, &mut self.queue);
        Ok(())
    }

    // Where so many bytes go: to the newest staged chunk of the tag if they fit, else to a new one.
    fn place(&self, limit: u64, tag: &[u8], size: u64) -> u64
        requires limit { limit ≤ greatest_size }
        requires small { size ≤ greatest_size }
        ensures place { result ≡ place_within limit self.now tag.now size }
        ensures near { result ≤ self.now.next }
        ensures here { (IsStagedOf self.now result tag.now
            × (size_at self.now result + size ≤ greatest_size)) ⊎ (result ≡ self.now.next) }
    {
        let Some(serial) = self.table.newest(tag) else {
            return self.next;
        };
        if self.size_at(serial) as u64 + size <= limit {
            serial
        } else {
            self.next
        }
    }

    // How many bytes of entries the chunk of this serial has; 0 where there is none.
    fn size_at(&self, serial: u64) -> usize
        ensures size { result ≡ size_at self.now serial }
        ensures small { result ≤ greatest_size }
    {
        match self.table.get(serial) {
            Some(chunk) => chunk.size(),
            None => 0,
        }
    }
}

/// Chunks with all the room to queue one of them, which is staged. It isn't queued yet, and that
/// can't fail.
#[derive(Drop)]
pub struct Ready<A: Allocator> {
    alloc: A,
    table: Table<A>,
    // with the serial, which counts as staged all the same
    waiting: BTreeSet<u64, A>,
    queue: VecDeque<u64, A>,
    next: u64,
    serial: u64,
}

impl<A: Allocator> Model for Ready<A> {
    ghost use Rattle.buffer_state.specs.State.{Readied};

    ghost Value = { Readied };

    ghost use Rattle.buffer_state.specs.Views.{state_of, IsReady};

    ghost view = { λ r. record {
      state = state_of r.table r.queue.items r.next;
      serial = r.serial;
    } };

    ghost invariant = { λ r. IsReady r.table r.waiting r.queue r.next r.serial };
}

impl<A: Allocator + Copy> Ready<A> {
    /// Queues the chunk.
    pub fn queue(self) -> Chunks<A>
        ensures { result ≡ queued_last self.serial self.state }
    {
        let Ready {
            alloc,
            mut table,
            waiting,
            mut queue,
            next,
            serial,
        } = self;
        table.put(serial, Stage::Queued);
        queue.push_back_reserved(serial);
        Chunks {
            alloc,
            table,
            waiting,
            queue,
            next,
        }
    }

    /// Leaves it staged.
    pub fn leave(self) -> Chunks<A>
        ensures { result ≡ self.state }
    {
        let Ready {
            alloc,
            table,
            mut waiting,
            queue,
            next,
            serial,
        } = self;
        let _ = waiting.remove(&serial);
        Chunks {
            alloc,
            table,
            waiting,
            queue,
            next,
        }
    }
}

// Makes the room that queueing a chunk takes.
fn make_room<A: Allocator + Copy>(
    waiting: &mut BTreeSet<u64, A>,
    queue: &mut VecDeque<u64, A>,
    serial: u64,
) -> Result<(), AllocError>
    ensures waits { OnOk result
        ((other : ℕ) → contains nat_cmp waiting.new other
        ≡ cond (is_at (nat_cmp serial) other) true (contains nat_cmp waiting.old other)) }
    ensures listed { IsStrictlySortedBy nat_cmp waiting.old.keys
        → IsStrictlySortedBy nat_cmp waiting.new.keys }
    ensures refused { OnErr result (waiting.new.keys ≡ waiting.old.keys) }
    ensures items { queue.new.items ≡ queue.old.items }
    ensures len { deque_len queue.new ≡ deque_len queue.old }
    ensures kept { deque_capacity queue.old ≤ deque_capacity queue.new }
    ensures room { OnOk result
        (deque_len queue.new + length waiting.old.keys + 1 ≤ deque_capacity queue.new) }
{
    queue.reserve(waiting.len() + 1)?;
    let _ = waiting.insert(serial)?;
    Ok(())
}

fn is_queued<A: Allocator + Copy>(table: &Table<A>, serial: u64) -> bool
    ensures { result ≡ passes_at is_queued table.now serial }
{
    match table.get(serial) {
        Some(chunk) => chunk.is_queued(),
        None => false,
    }
}

// Takes the first queued serial out, and those of chunks that are gone before it.
fn pop_queued<A: Allocator + Copy>(table: &Table<A>, queue: &mut VecDeque<u64, A>) -> Option<u64>
    ensures none { IfNone result
        ((queue.new.items ≡ []) × (filter (passes_at is_queued table.now) queue.old.items ≡ [])
        × (deque_len queue.new ≤ deque_len queue.old)) }
    ensures first { IfSome result
        (λ serial. (passes_at is_queued table.now serial ≡ true)
        × IsEndOf (serial ∷ queue.new.items) queue.old.items
        × (filter (passes_at is_queued table.now) queue.old.items
        ≡ filter (passes_at is_queued table.now) (serial ∷ queue.new.items))
        × (deque_len queue.new + 1 ≤ deque_len queue.old)) }
    ensures capacity { deque_capacity queue.new ≡ deque_capacity queue.old }
{
    while let Some(serial) = queue.pop_front() {
        if is_queued(table, serial) {
            return Some(serial);
        }
    }
    None
}

// The first queued serial, behind those of chunks that are gone.
fn next_queued<A: Allocator + Copy>(table: &Table<A>, queue: &VecDeque<u64, A>) -> Option<u64>
    ensures { result ≡ slice_get (filter (passes_at is_queued table.now) queue.now.items) 0 }
{
    for serial in queue {
        if is_queued(table, *serial) {
            return Some(*serial);
        }
    }
    None
}

// Takes serials of chunks that are gone from the front.
fn trim<A: Allocator + Copy>(table: &Table<A>, queue: &mut VecDeque<u64, A>)
    ensures end { IsEndOf queue.new.items queue.old.items }
    ensures same { filter (passes_at is_queued table.now) queue.new.items
        ≡ filter (passes_at is_queued table.now) queue.old.items }
    ensures len { deque_len queue.new ≤ deque_len queue.old }
    ensures capacity { deque_capacity queue.new ≡ deque_capacity queue.old }
{
    if let Some(serial) = pop_queued(table, queue) {
        queue.push_front_reserved(serial);
    }
}

// The first of the waiting serials that is queued.
fn first_queued<A: Allocator + Copy>(table: &Table<A>, waiting: &BTreeSet<u64, A>) -> Option<u64>
    ensures { result ≡ slice_get (filter (passes_at is_queued table.now) waiting.now.keys) 0 }
{
    for serial in waiting {
        if is_queued(table, *serial) {
            return Some(*serial);
        }
    }
    None
}

// Adds the waiting serials that are queued.
fn refill<A: Allocator + Copy>(
    table: &Table<A>,
    waiting: &BTreeSet<u64, A>,
    queue: &mut VecDeque<u64, A>,
)
    requires room { deque_len queue.old + length waiting.now.keys ≤ deque_capacity queue.old }
    ensures items { queue.new.items
        ≡ queue.old.items ++ filter (passes_at is_queued table.now) waiting.now.keys }
    ensures len { deque_len queue.new ≤ deque_len queue.old + length waiting.now.keys }
    ensures capacity { deque_capacity queue.new ≡ deque_capacity queue.old }
{
    for serial in waiting {
        if is_queued(table, *serial) {
            queue.push_back_reserved(*serial);
        }
    }
}
